//! From a store to the planes of its file.

ghost use Rattle.std.specs.Prelude.{◌≡◌, ◌≤◌, ◌<◌, ◌+◌, ◌*◌, ◌%◌, ◌^◌, length, IfErr, IfSome, OnOk};
ghost use Rattle.std.specs.List.{All};
ghost use Rattle.daq_table.specs.Tables.{ends_at, frame_of, planes};
ghost use Rattle.outer_world.specs.Whole.{Fills, HoldsSame};
ghost use Rattle.plane_file.specs.Format.{plane_size};
ghost use Rattle.plane_file.specs.Places.{plane_at};
ghost use Rattle.plane_file.specs.Reading.{HoldsPlane, PutsWords, ReadsPlane, ReadsWords, StopsAtBytes, StopsAtWords, StopsReading};

use crate::heads::planes_in;
use crate::plane_fault::PlaneFault;
use crate::plane_file::PlaneFile;
use crate::words_fault::WordsFault;
use outer_world::{ReadAtFault, Store, read_exact_at};
use plane_kernels::Plane;

// How many bytes are read at once.
const PIECE: usize = 65536;

// Fills the buffer with the bytes from a place on.
fn fetch<P: Store>(store: &mut P, place: u64, bytes: &mut [u8]) -> Result<(), WordsFault>
    requires fits { place + length bytes.old < 2 ^ 63 }
    requires holds { IfSome (P.state store.old).held (λ held. place + length bytes.old ≤ length held) }
    ensures filled { OnOk result (Fills (P.state store.old) (P.state store.new) place bytes.new) }
    ensures stopped { IfErr result (StopsAtBytes place (length bytes.old) (P.state store.old) (P.state store.new)) }
    ensures same { HoldsSame (P.state store.old) (P.state store.new) }
    ensures bytes { All (λ byte. byte < 256) bytes.new }
{
    match read_exact_at(store, place, bytes) {
        Ok(()) => Ok(()),
        Err(ReadAtFault::Fault) => Err(WordsFault::Fault),
        Err(ReadAtFault::Short { .. }) => Err(WordsFault::WentShort),
    }
}

// Reads the words of a plane from word `first` on, as many as the buffer has room for. The plane begins at a place.
fn read_piece<P: Store>(
    store: &mut P,
    place: u64,
    first: usize,
    bytes: &mut [u8],
    into: &mut Plane,
) -> Result<(), WordsFault>
    requires whole { length bytes.old % 8 ≡ 0 }
    requires within { 8 * first + length bytes.old ≤ plane_size (length into.old) }
    requires fits { place + plane_size (length into.old) < 2 ^ 63 }
    requires holds { IfSome (P.state store.old).held (λ held. place + plane_size (length into.old) ≤ length held) }
    ensures rows { length into.new ≡ length into.old }
    ensures read { OnOk result (PutsWords place first (length bytes.old) (P.state store.old) (P.state store.new) into.old into.new) }
    ensures stopped { IfErr result (StopsAtWords place first (length bytes.old) (length into.old) (P.state store.old) (P.state store.new)) }
    ensures same { HoldsSame (P.state store.old) (P.state store.new) }
{
    fetch(store, place + 8 * first as u64, bytes)?;
    match into.load_words(first, bytes) {
        Ok(()) => Ok(()),
        Err(_) => Err(WordsFault::PadBits),
    }
}

// Reads a plane that begins at a place.
fn read_words<P: Store>(store: &mut P, place: u64, into: &mut Plane) -> Result<(), WordsFault>
    requires fits { place + plane_size (length into.old) < 2 ^ 63 }
    requires holds { IfSome (P.state store.old).held (λ held. place + plane_size (length into.old) ≤ length held) }
    ensures rows { length into.new ≡ length into.old }
    ensures read { OnOk result (ReadsWords place (P.state store.old) (P.state store.new) into.new) }
    ensures stopped { IfErr result
        (StopsAtWords place 0 (plane_size (length into.old)) (length into.old) (P.state store.old) (P.state store.new)) }
    ensures same { HoldsSame (P.state store.old) (P.state store.new) }
{
    let mut buffer = [0u8; PIECE];
    let words = into.rows().div_ceil(64);
    let mut first = 0;
    while first < words {
        let size = (8 * (words - first)).min(PIECE);
        read_piece(store, place, first, &mut buffer[..size], into)?;
        first += size / 8;
    }
    Ok(())
}

// The place of a plane.
fn place_of(file: &PlaneFile, column: usize, plane: u8) -> u64
    requires column { column < length file.now.head.columns }
    requires plane { plane < planes (ends_at (frame_of file.now.head) column) }
    ensures place { result ≡ plane_at file.now.head column plane }
    ensures fits { result + plane_size file.now.head.rows < 2 ^ 63 }
{
    let head = file.head();
    let before = planes_in(&head.columns.as_slice()[..column]) + u64::from(plane);
    file.planes_at() + 8 * head.rows.div_ceil(64) * before
}

impl PlaneFile {
    /// Reads a plane of the file, counted in its column from the highest digit. Each of its places is handed over once, in order,
    /// and no other. `Fault` comes only where the store failed, `PadBits` exactly where a bit past the last row is 1, and
    /// `WentShort` only where the store had no byte at a place of the plane. After an error `into` is any plane of as many rows.
    pub fn read_plane<P: Store>(
        &self,
        store: &mut P,
        column: usize,
        plane: u8,
        into: &mut Plane,
    ) -> Result<(), PlaneFault>
        requires column { column < length self.now.head.columns }
        requires plane { plane < planes (ends_at (frame_of self.now.head) column) }
        requires rows { length into.old ≡ self.now.head.rows }
        requires holds { HoldsPlane (P.state store.old) self.now.head column plane }
        ensures rows { length into.new ≡ length into.old }
        ensures read { OnOk result (ReadsPlane self.now.head column plane (P.state store.old) (P.state store.new) into.new) }
        ensures stopped { IfErr result (StopsReading self.now.head column plane (P.state store.old) (P.state store.new)) }
        ensures same { HoldsSame (P.state store.old) (P.state store.new) }
    {
        match read_words(store, place_of(self, column, plane), into) {
            Ok(()) => Ok(()),
            Err(WordsFault::Fault) => Err(PlaneFault::Fault),
            Err(WordsFault::PadBits) => Err(PlaneFault::PadBits { column, plane }),
            Err(WordsFault::WentShort) => Err(PlaneFault::WentShort),
        }
    }
}
