//! From a store to what the head of its file says.

ghost use Rattle.std.specs.Prelude.{◌≡◌, ◌+◌, ◌-◌, ◌<◌, ◌≤◌, ◌^◌, length, IfErr, IfOk, OnOk};
ghost use Rattle.outer_world.specs.Whole.{Fills, HoldsSame};
ghost use Rattle.plane_file.specs.Fronts.{FillsBehind, HandsFront, HandsHeader, StopsAt};
ghost use Rattle.plane_file.specs.Opening.{Opens, Refuses};

use crate::checks::header_fault;
use crate::file_fault::FileFault;
use crate::fronts::read_head;
use crate::places::number64_at;
use crate::plane_file::PlaneFile;
use outer_world::{Failed, ReadAtFault, Store, read_exact_at};
use std::alloc::Global;

// Fills the buffer with the bytes from a place on.
fn fill<P: Store>(store: &mut P, at: u64, buf: &mut [u8]) -> Result<(), FileFault>
    requires { at + length buf.old < 2 ^ 63 }
    ensures filled { OnOk result (Fills (P.state store.old) (P.state store.new) at buf.new) }
    ensures stopped { IfErr result (StopsAt (P.state store.old) (P.state store.new) at (length buf.new)) }
    ensures same { HoldsSame (P.state store.old) (P.state store.new) }
{
    match read_exact_at(store, at, buf) {
        Ok(()) => Ok(()),
        Err(ReadAtFault::Fault) => Err(FileFault::Fault),
        Err(ReadAtFault::Short { got: _ }) => Err(FileFault::WentShort),
    }
}

// The first 32 bytes of a file whose header passes its checks, and the file's size, which has room for the heads.
fn read_header<P: Store>(store: &mut P) -> Result<([u8; 32], u64), FileFault>
    ensures read { IfOk result (λ read. HandsHeader (P.state store.old) (P.state store.new) read.0 read.1) }
    ensures refused { IfErr result (Refuses (P.state store.old) (P.state store.new)) }
    ensures same { HoldsSame (P.state store.old) (P.state store.new) }
{
    let size = match store.size() {
        Ok(size) => size,
        Err(Failed) => return Err(FileFault::Fault),
    };
    if size < 32 {
        return Err(FileFault::WrongSize {
            found: size,
            wanted: 32,
        });
    }
    let mut header = [0u8; 32];
    fill(store, 0, &mut header)?;
    if let Some(fault) = header_fault(&header) {
        return Err(fault);
    }
    let wanted = 32 + number64_at(&header, 24);
    if size < wanted {
        return Err(FileFault::WrongSize {
            found: size,
            wanted,
        });
    }
    Ok((header, size))
}

// Behind the header, the bytes that follow it in the store.
fn read_behind<P: Store>(store: &mut P, header: &[u8], front: &mut [u8]) -> Result<(), FileFault>
    requires header { length header.now ≡ 32 }
    requires room { 32 ≤ length front.old }
    requires few { length front.old < 2 ^ 63 }
    ensures read { OnOk result (FillsBehind (P.state store.old) (P.state store.new) header.now front.new) }
    ensures stopped { IfErr result (StopsAt (P.state store.old) (P.state store.new) 32 (length front.new - 32)) }
    ensures same { HoldsSame (P.state store.old) (P.state store.new) }
{
    let (first, behind) = front.split_at_mut(32);
    first.copy_from_slice(header);
    fill(store, 32, behind)
}

// All that stands before the planes of a file whose header passes its checks, and the file's size.
fn read_front<P: Store>(alloc: Global, store: &mut P) -> Result<(Vec<u8>, u64), FileFault>
    ensures read { IfOk result (λ read. HandsFront (P.state store.old) (P.state store.new) read.0.items read.1) }
    ensures refused { IfErr result (Refuses (P.state store.old) (P.state store.new)) }
    ensures same { HoldsSame (P.state store.old) (P.state store.new) }
{
    let (header, size) = read_header(store)?;
    let heads = number64_at(&header, 24) as usize;
    let mut front = vec![in alloc; 0u8; 32 + heads]?;
    read_behind(store, &header, &mut front)?;
    Ok((front, size))
}

/// Opens the file that a store holds, or refuses it for the first fault of its bytes. The size is asked first, then the
/// first 32 bytes are read, then all up to the first plane, each byte once and in order; a refused file is read no further.
/// `Fault` comes only where the store failed, `WentShort` only where it had no byte before its size.
pub fn open<P: Store>(alloc: Global, store: &mut P) -> Result<PlaneFile, FileFault>
    ensures opened { IfOk result (Opens (P.state store.old) (P.state store.new)) }
    ensures refused { IfErr result (Refuses (P.state store.old) (P.state store.new)) }
    ensures same { HoldsSame (P.state store.old) (P.state store.new) }
{
    let (front, size) = read_front(alloc, store)?;
    read_head(alloc, &front, size)
}
