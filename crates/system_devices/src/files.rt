//! The devices to read: over what the system reads, in order or at places. They tell its bytes where it tells them, as a file
//! does not, and count their faults.

ghost use Rattle.std.specs.Prelude.{◌≡◌, [], None, option_and_then};
ghost use Rattle.system_devices.specs.Paths.{path_of_source, path_of_store};

use crate::faults::{Action, Faults, Trouble};
use crate::places::ReadAt;
use outer_world::{Failed, Source, Store};
use std::fs::File;
use std::io::Read;
use std::{fs, io};

/// Takes the places of those standard streams that are closed, as long as it is held: so no file that is opened later does,
/// and a write to such a stream fails.
pub fn hold_standard_places(rt: &HostRuntime) -> [io::Result<File>; 3] {
    [
        fs::open(rt, "/dev/null"),
        fs::open(rt, "/dev/null"),
        fs::open(rt, "/dev/null"),
    ]
}

/// What is read in order. Where it did not open, each call fails.
#[derive(Drop)]
pub struct InputSource<'a, R> {
    path: &'a str,
    input: Option<R>,
    faults: Faults,
}

/// A file to read.
pub type FileSource<'a> = InputSource<'a, File>;

impl<'a> InputSource<'a, File> {
    /// The file at a path.
    pub fn open(rt: &HostRuntime, path: &'a str) -> FileSource<'a>
        ensures { path_of_source result ≡ path.now }
    {
        match fs::open(rt, path) {
            Ok(file) => InputSource {
                path,
                input: Some(file),
                faults: Faults::none(),
            },
            Err(error) => InputSource {
                path,
                input: None,
                faults: Faults::unopened(error),
            },
        }
    }

    /// No file.
    pub fn closed() -> FileSource<'a>
        ensures { path_of_source result ≡ [] }
    {
        InputSource {
            path: "",
            input: None,
            faults: Faults::none(),
        }
    }
}

impl<'a, R> InputSource<'a, R> {
    /// The path with which it was opened; empty where there is none.
    pub fn path(&self) -> &'a str
        ensures { result.now ≡ path_of_source self.now }
    {
        self.path
    }

    /// What the system said last, if a call of it failed.
    pub fn trouble(&self) -> Option<Trouble> {
        self.faults.last
    }
}

impl<R: Read> Source for InputSource<'_, R> {
    ghost state = { λ s. record { left = option_and_then R.remaining s.input; faults = s.faults.count } };

    fn read(&mut self, buf: &mut [u8]) -> Result<usize, Failed> {
        match &mut self.input {
            Some(input) => self.faults.after_read(input.read(buf)),
            None => Err(self.faults.add()),
        }
    }
}

/// What is read at places. Where it did not open, each call fails.
#[derive(Drop)]
pub struct PlaceStore<'a, F> {
    path: &'a str,
    file: Option<F>,
    faults: Faults,
    ends: u64,
}

/// A file of planes.
pub type FileStore<'a> = PlaceStore<'a, File>;

impl<'a> PlaceStore<'a, File> {
    /// The file at a path.
    pub fn open(rt: &HostRuntime, path: &'a str) -> FileStore<'a>
        ensures { path_of_store result ≡ path.now }
    {
        match fs::open(rt, path) {
            Ok(file) => PlaceStore {
                path,
                file: Some(file),
                faults: Faults::none(),
                ends: 0,
            },
            Err(error) => PlaceStore {
                path,
                file: None,
                faults: Faults::unopened(error),
                ends: 0,
            },
        }
    }

    /// No file.
    pub fn closed() -> FileStore<'a>
        ensures { path_of_store result ≡ [] }
    {
        PlaceStore {
            path: "",
            file: None,
            faults: Faults::none(),
            ends: 0,
        }
    }
}

impl<'a, F> PlaceStore<'a, F> {
    /// The path with which it was opened; empty where there is none.
    pub fn path(&self) -> &'a str
        ensures { result.now ≡ path_of_store self.now }
    {
        self.path
    }

    /// What the system said last, if a call of it failed.
    pub fn trouble(&self) -> Option<Trouble> {
        self.faults.last
    }
}

impl<F: ReadAt> Store for PlaceStore<'_, F> {
    ghost state = { λ s. record { held = option_and_then F.held s.file; pieces = None; faults = s.faults.count; ends = s.ends } };

    fn size(&mut self) -> Result<u64, Failed> {
        match &self.file {
            Some(file) => match file.size() {
                Ok(size) => Ok(size),
                Err(error) => Err(self.faults.add_error(Action::Read, error)),
            },
            None => Err(self.faults.add()),
        }
    }

    fn read_at(&mut self, at: u64, buf: &mut [u8]) -> Result<usize, Failed> {
        let answer = match &self.file {
            Some(file) => self.faults.after_read(file.read_from(at, buf)),
            None => Err(self.faults.add()),
        };
        if answer == Ok(0) && !buf.is_empty() {
            self.ends = self.ends.saturating_add(1);
        }
        answer
    }
}
