//! The devices to write: over what the system writes. They tell its bytes where it tells them, as files and streams do not, and
//! count their faults.

ghost use Rattle.std.specs.Prelude.{◌≡◌, [], IfOk};
ghost use Rattle.system_devices.specs.Lines.{IsNew};
ghost use Rattle.system_devices.specs.Paths.{path_of_sink};

use crate::faults::{Action, Faults, Trouble};
use crate::new_file::NewFile;
use crate::target::{Output, Target};
use outer_world::{Failed, Sink};
use std::alloc::{AllocError, Global};
use std::io::{BufWriter, ErrorKind};
use std::{io, mem};

// How many bytes of a line are held.
const MOST_HELD: usize = 1024;

/// What is written to.
#[derive(Drop)]
pub struct OutputSink<'a, W> {
    path: &'a str,
    output: W,
    faults: Faults,
}

/// A stream or a file to write. Where there is none, each call fails.
pub type FileSink<'a> = OutputSink<'a, Target>;

// Why nothing can be written to a sink that is closed.
fn closed() -> Target {
    Target::Closed(io::Error::from(ErrorKind::NotConnected))
}

impl<'a> OutputSink<'a, Target> {
    // Bytes to this target, which has no path.
    fn to(output: Target) -> FileSink<'a>
        ensures output { result.output ≡ output }
        ensures path { path_of_sink result ≡ [] }
    {
        OutputSink {
            path: "",
            output,
            faults: Faults::none(),
        }
    }

    /// Nowhere.
    pub fn closed() -> FileSink<'a>
        ensures { path_of_sink result ≡ [] }
    {
        OutputSink::to(closed())
    }

    /// A new file at a path, which is begun where its first byte is written. It may not be the file that is read. Where a
    /// regular file or nothing stands at the path, that stays so until `finish`.
    pub fn named(rt: &HostRuntime, path: &'a str, read: &str) -> Result<FileSink<'a>, AllocError>
        ensures path { IfOk result (λ sink. path_of_sink sink ≡ path.now) }
        ensures new { IfOk result (λ sink. IsNew sink.output) }
    {
        Ok(OutputSink {
            path,
            output: Target::New(NewFile::new(rt, path, read)?),
            faults: Faults::none(),
        })
    }

    /// Standard output, to which each line is handed over at its end.
    pub fn out(rt: &HostRuntime) -> io::Result<FileSink<'a>> {
        Ok(OutputSink::to(Target::Out(BufWriter::new(rt.alloc(), rt.stdout())?)))
    }

    /// Standard error.
    pub fn err(rt: &HostRuntime) -> FileSink<'a> {
        OutputSink::to(Target::Err(rt.stderr()))
    }

    /// A line that is held, and takes no memory later.
    pub fn held(alloc: Global) -> Result<FileSink<'a>, AllocError> {
        Ok(OutputSink::to(Target::Held(Vec::with_capacity(alloc, MOST_HELD)?)))
    }

    /// The bytes that are held.
    pub fn held_bytes(&self) -> &[u8] {
        match &self.output {
            Target::Held(bytes) => bytes.as_slice(),
            _ => &[],
        }
    }

    /// Gives a new file its name, once all of it is written and the disk holds it. Where that fails, the old file stands, if
    /// there was one. After that nothing is written any more.
    pub fn finish(&mut self) -> Result<(), Failed> {
        match mem::replace(&mut self.output, closed()) {
            Target::New(file) => match file.keep() {
                Ok(()) => Ok(()),
                Err(error) => Err(self.faults.add_error(Action::Keep, error)),
            },
            _ => Ok(()),
        }
    }

    /// Gives a new file up: what was written of it beside its path is removed, and the old file stands, if there was one.
    pub fn give_up(&mut self) {
        if let Target::New(file) = mem::replace(&mut self.output, closed()) {
            file.give_up();
        }
    }
}

impl<'a, W> OutputSink<'a, W> {
    /// The path with which it was opened; empty where there is none.
    pub fn path(&self) -> &'a str
        ensures { result.now ≡ path_of_sink self.now }
    {
        self.path
    }

    /// What the system said last, if a call of it failed.
    pub fn trouble(&self) -> Option<Trouble> {
        self.faults.last
    }
}

impl<W: Output> Sink for OutputSink<'_, W> {
    ghost state = { λ s. record { written = W.contents s.output; faults = s.faults.count } };

    fn write(&mut self, piece: &[u8]) -> Result<usize, Failed> {
        let written = self.output.write(piece);
        let action = self.output.action();
        self.faults.after_write(piece, written, action)
    }
}
