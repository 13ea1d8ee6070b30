//! A file that was opened: what its head says.

ghost use Rattle.std.specs.Prelude.{◌≡◌};
ghost use Rattle.plane_file.specs.Format.{planes_at};
ghost use Rattle.plane_file.specs.Opening.{IsOpened};

use daq_table::Head;
use std::marker::Model;

/// The head of a table's file, and the version that it is written in.
#[derive(Drop, Debug)]
pub struct PlaneFile {
    head: Head,
    version: u32,
    planes_at: u64,
}

impl Model for PlaneFile {
    ghost use Rattle.std.specs.Prelude.{◌≡◌};
    ghost use Rattle.plane_file.specs.Opening.{IsPlaced, Opened};

    ghost Value = { Opened };

    ghost view = { λ f. record { head = f.head; version = f.version } };

    ghost invariant = { λ f. IsPlaced f.head f.version f.planes_at };
}

impl PlaneFile {
    /// The file of that head in that version, whose planes begin at that place.
    pub(crate) fn new(head: Head, version: u32, place: u64) -> PlaneFile
        requires opened { IsOpened head version }
        requires place { place ≡ planes_at head }
        ensures { result ≡ record { head = head; version = version } }
    {
        PlaneFile {
            head,
            version,
            planes_at: place,
        }
    }

    /// What the file declares of its table.
    pub fn head(&self) -> &Head
        ensures head { result.now ≡ self.now.head }
        ensures opened { IsOpened self.now.head self.now.version }
    {
        &self.head
    }

    // The same, of a file that is done with.
    pub(crate) fn into_head(self) -> Head
        ensures head { result ≡ self.head }
        ensures opened { IsOpened self.head self.version }
    {
        self.head
    }

    /// The version that the file is written in, 1 or 2.
    pub fn version(&self) -> u32
        ensures { result ≡ self.now.version }
    {
        self.version
    }

    /// The place of the first plane.
    pub fn planes_at(&self) -> u64
        ensures { result ≡ planes_at self.now.head }
    {
        self.planes_at
    }
}
