//! Bytes that the system reads at a place: of a file.

ghost use Rattle.std.specs.Prelude.{◌≡◌, ◌≤◌, ℕ, List, None, length, IfOk, IfSome};
ghost use Rattle.std.specs.declared.option.Option.{Option};
ghost use Rattle.outer_world.specs.Device.{GivesBytesAt};

use std::fs::File;
use std::io;
use std::os::unix::fs::FileExt;

/// Bytes at places, which the system reads.
pub trait ReadAt {
    /// The bytes, where they are told.
    ghost held: { Self → Option (List ℕ) } = { λ _. None };

    /// How many bytes there are.
    fn size(&self) -> io::Result<u64>
        ensures { IfOk result (λ size. IfSome (held self.now) (λ bytes. size ≡ length bytes)) };

    /// Gives bytes from a place on into the front of the buffer, and answers how many. None for a buffer with room is the end.
    fn read_from(&self, at: u64, buf: &mut [u8]) -> io::Result<usize>
        ensures bound { IfOk result (λ count. count ≤ length buf.new) }
        ensures bytes { IfOk result (λ count. IfSome (held self.now) (λ bytes. GivesBytesAt bytes at count buf.new)) };
}

impl ReadAt for File {
    fn size(&self) -> io::Result<u64> {
        Ok(self.metadata()?.len())
    }

    fn read_from(&self, at: u64, buf: &mut [u8]) -> io::Result<usize> {
        self.read_at(buf, at)
    }
}
