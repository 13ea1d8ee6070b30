//! Where a sink of the program writes: a standard stream, a new file, or a line that is held.

ghost use Rattle.std.specs.Prelude.{◌≡◌, ◌≤◌, ◌<◌, [], IfOk, OnOk, length, take};
ghost use Rattle.std.specs.Io.Buffered.{writer_buffer, writer_contents};
ghost use Rattle.std.specs.Io.KnownBytes.{Appends};
ghost use Rattle.system_devices.specs.Lines.{EndsLine, IsMade};

use crate::faults::Action;
use crate::new_file::NewFile;
use std::io::{BufWriter, Write};
use std::rt::{Stderr, Stdout};
use std::{io, mem};

/// What bytes are written to, and what it does at its next write.
pub trait Output: Write {
    /// What is asked of the system.
    fn action(&self) -> Action;
}

/// Where a sink of the program writes.
#[derive(Drop)]
pub enum Target {
    // Nowhere, for this reason.
    Closed(io::Error),
    // What has no line break yet is kept.
    Out(BufWriter<Stdout>),
    Err(Stderr),
    // Bytes that are handed out later.
    Held(Vec<u8>),
    New(NewFile),
}

// Takes bytes from the front of the piece. Where it takes them all and they end a line, nothing is kept back.
fn write_lines<W: Write + Drop>(out: &mut BufWriter<W>, piece: &[u8]) -> io::Result<usize>
    ensures bound { IfOk result (λ taken. taken ≤ length piece.now) }
    ensures bytes { IfOk result (λ taken. Appends (writer_contents W.contents out.old) (writer_contents W.contents out.new)
        (take taken piece.now)) }
    ensures line { IfOk result (λ taken. taken ≡ length piece.now → EndsLine piece.now → writer_buffer out.new ≡ []) }
{
    let taken = out.write(piece)?;
    if taken == piece.len() && piece.last() == Some(&b'\n') {
        out.flush()?;
    }
    Ok(taken)
}

// Takes the piece, where there is room for it.
fn hold(held: &mut Vec<u8>, piece: &[u8]) -> io::Result<usize>
    ensures { IfOk result (λ taken. taken ≡ length piece.now) }
{
    held.extend_from_slice(piece)?;
    Ok(piece.len())
}

// Takes bytes of the piece into a new file, which is made with its first byte.
fn write_new(file: &mut NewFile, piece: &[u8]) -> io::Result<usize>
    ensures bound { IfOk result (λ taken. taken ≤ length piece.now) }
    ensures made { OnOk result (0 < length piece.now → IsMade file.new) }
{
    if piece.is_empty() {
        return Ok(0);
    }
    file.open()?;
    file.write(piece)
}

impl Target {
    // Lets go of standard output and of what is kept, so that nothing of it is written any more.
    fn close(&mut self, error: io::Error)
        ensures { self.new ≡ Target.Closed error }
    {
        if let Target::Out(out) = mem::replace(self, Target::Closed(error)) {
            let _kept = out.into_parts();
        }
    }
}

impl Write for Target {
    fn write(&mut self, piece: &[u8]) -> io::Result<usize> {
        match self {
            Target::Out(out) => {
                let written = write_lines(out, piece);
                if let Err(error) = written {
                    self.close(error);
                }
                written
            }
            Target::Err(err) => err.write(piece),
            Target::Held(held) => hold(held, piece),
            Target::New(file) => write_new(file, piece),
            Target::Closed(error) => Err(*error),
        }
    }

    fn flush(&mut self) -> io::Result<()> {
        match self {
            Target::Out(out) => out.flush(),
            _ => Ok(()),
        }
    }
}

impl Output for Target {
    fn action(&self) -> Action {
        match self {
            Target::New(file) if !file.is_made() => Action::Make,
            _ => Action::Write,
        }
    }
}
