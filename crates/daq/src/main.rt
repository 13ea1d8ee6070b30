//! The program `daq`: hands the words of the command line, files and streams to `run`, and ends with its status.
#![tactic(auto)]

mod arguments;
mod files;
mod person;

ghost use Rattle.std.specs.Prelude.{◌≡◌};

use crate::arguments::words_of;
use crate::files::{input_of, made_of, planes_of, side_of};
use crate::person::tell;
use command_line::{Command, Words};
use daq_cli::{Status, World, code, run};
use outer_world::{Failed, write_whole};
use std::alloc::{AllocError, Global};
use std::env;
use std::io::{ErrorKind, IsTerminal};
use std::process::ExitCode;
use system_devices::{FileSink, FileSource, FileStore, hold_standard_places};

/// The devices of a run of this program.
pub type Devices<'a> = World<FileSource<'a>, FileStore<'a>, FileSink<'a>>;

// The words of the command line, without the program's name; none where one of them is no text.
fn read_words(rt: &HostRuntime, alloc: Global) -> Result<Option<Words>, AllocError> {
    match env::args(rt) {
        Ok(args) => Ok(Some(words_of(alloc, args)?)),
        Err(error) if error.kind() == ErrorKind::OutOfMemory => Err(AllocError),
        Err(_) => Ok(None),
    }
}

// Where the line of a refusal goes: at a terminal it is held, until it is known whether a person is to see it.
fn lines_for<'a>(rt: &HostRuntime) -> Result<FileSink<'a>, AllocError> {
    if rt.stderr().is_terminal() {
        FileSink::held(rt.alloc())
    } else {
        Ok(FileSink::err(rt))
    }
}

// The devices over the files that a command names, and the standard streams.
fn devices_of<'a>(rt: &HostRuntime, command: &Command<'a>) -> Result<Devices<'a>, AllocError> {
    Ok(World {
        input: input_of(rt, command),
        side: side_of(rt, command),
        planes: planes_of(rt, command),
        made: made_of(rt, command)?,
        out: FileSink::out(rt).map_err(|_| AllocError)?,
        err: lines_for(rt)?,
    })
}

// The devices of the command that the words are; where they are none, those of the help, which reads and makes no file.
fn world_of<'a>(rt: &HostRuntime, words: &'a Words) -> Result<Devices<'a>, AllocError> {
    devices_of(rt, &Command::parse(words).unwrap_or(Command::Help))
}

// Says why the program ends before its words are known.
fn give_up(rt: &HostRuntime, line: &str, status: Status) -> ExitCode {
    match rt.eprintln(line) {
        Ok(()) => ExitCode::from(code(status)),
        Err(_) => ExitCode::from(code(Status::WriteFault)),
    }
}

// Where the run is done its new file takes its name, else what is written of it is removed.
fn settle(world: &mut Devices, status: Status) -> Status
    ensures { result ≡ Status.Done → status ≡ Status.Done }
{
    if status != Status::Done {
        world.made.give_up();
        return status;
    }
    match world.made.finish() {
        Ok(()) => Status::Done,
        Err(Failed) => {
            let _told = write_whole(&mut world.err, b"daq: write fault\n");
            Status::WriteFault
        }
    }
}

fn main(rt: HostRuntime) -> ExitCode {
    let words = match read_words(&rt, rt.alloc()) {
        Ok(Some(words)) => words,
        Ok(None) => return give_up(&rt, "daq: usage: word 1", Status::Usage),
        Err(_) => return give_up(&rt, "daq: no memory", Status::NoMemory),
    };
    let _held = hold_standard_places(&rt);
    match world_of(&rt, &words) {
        Ok(mut world) => {
            let ended = run(rt.alloc(), &words, &mut world);
            let status = settle(&mut world, ended);
            ExitCode::from(code(tell(&rt, &words, &world, status)))
        }
        Err(_) => give_up(&rt, "daq: no memory", Status::NoMemory),
    }
}
