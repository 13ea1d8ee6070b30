//! What is told at a terminal: the line of a refusal, and below it what a person needs to go on.

ghost use Rattle.std.specs.Prelude.{◌≡◌, ◌⊎◌};

use crate::Devices;
use command_line::{Command, Words};
use daq_cli::Status;
use daq_table::Kind;
use explain::{Scene, Trouble as Cause, explain, wanted_for};
use outer_world::read_all;
use plane_file::open;
use std::alloc::AllocError;
use std::fs;
use std::io::ErrorKind;
use std::str::from_utf8;
use system_devices::{FileSource, FileStore, Trouble};

// The most bytes of a CSV, a script or reports.
const MOST_BYTES: usize = 1_073_741_824;

// The columns of the table that `demo` makes.
const DEMO_SCHEMA: &str = "a:int,b:dec2,d:date,g:text";

// The texts of the words.
fn texts_of<'a>(rt: &HostRuntime, words: &'a Words) -> Result<Vec<&'a str>, AllocError> {
    let mut texts = Vec::new(rt.alloc());
    for at in 0..words.len() {
        texts.push(words.word(at))?;
    }
    Ok(texts)
}

// What the system said of a device, with the path of that device.
fn at(trouble: Option<Trouble>, path: &str) -> Option<(Trouble, &str)> {
    match trouble {
        Some(trouble) => Some((trouble, path)),
        None => None,
    }
}

// What the system said last of a device that failed, and its path.
fn trouble_of<'a>(world: &Devices<'a>) -> Option<(Trouble, &'a str)> {
    at(world.side.trouble(), world.side.path())
        .or(at(world.input.trouble(), world.input.path()))
        .or(at(world.planes.trouble(), world.planes.path()))
        .or(at(world.made.trouble(), world.made.path()))
        .or(at(world.out.trouble(), "standard output"))
}

// The path of the text that is read: of the script, else of the CSV or the reports.
fn text_path<'a>(world: &Devices<'a>) -> &'a str {
    let script = world.side.path();
    if script.is_empty() {
        world.input.path()
    } else {
        script
    }
}

// Whether a regular file stands at the path: that can be read once more.
fn is_regular(rt: &HostRuntime, path: &str) -> bool {
    match fs::metadata(rt, path) {
        Ok(metadata) => metadata.is_file(),
        Err(_) => false,
    }
}

// The columns of a plane file as a schema, or nothing where it is none.
fn schema_of_file(rt: &HostRuntime, path: &str) -> Result<String, AllocError> {
    let mut schema = String::new(rt.alloc());
    if !is_regular(rt, path) {
        return Ok(schema);
    }
    let mut planes = FileStore::open(rt, path);
    let Ok(file) = open(rt.alloc(), &mut planes) else {
        return Ok(schema);
    };
    for column in file.head().columns.as_slice() {
        let name = from_utf8(column.name.as_slice()).unwrap_or("");
        let mark = if column.nullable { "?" } else { "" };
        let comma = if schema.is_empty() { "" } else { "," };
        let kind = match column.kind {
            Kind::Int => String::from_str(rt.alloc(), "int")?,
            Kind::Dec(scale) => format!(in rt.alloc(); "dec{scale}")?,
            Kind::Date => String::from_str(rt.alloc(), "date")?,
            Kind::Text => String::from_str(rt.alloc(), "text")?,
        };
        schema.push_str(format!(in rt.alloc(); "{comma}{name}:{kind}{mark}")?.as_str())?;
    }
    Ok(schema)
}

// The columns of the table that the words ask, as a schema, where they are known.
fn schema_of(rt: &HostRuntime, words: &Words) -> Result<String, AllocError> {
    match Command::parse(words) {
        Ok(Command::Ask(ask)) => String::from_str(rt.alloc(), ask.schema),
        Ok(Command::Demo(_)) => String::from_str(rt.alloc(), DEMO_SCHEMA),
        Ok(Command::Query(query)) => schema_of_file(rt, query.file),
        Ok(Command::Session(session)) => schema_of_file(rt, session.file),
        _ => Ok(String::new(rt.alloc())),
    }
}

// The bytes of a regular file; of another none.
fn bytes_of(rt: &HostRuntime, path: &str) -> Vec<u8> {
    if !is_regular(rt, path) {
        return Vec::new(rt.alloc());
    }
    let mut input = FileSource::open(rt, path);
    match read_all(rt.alloc(), &mut input, MOST_BYTES) {
        Ok(bytes) => bytes,
        Err(_) => Vec::new(rt.alloc()),
    }
}

// What the system said of a path, for this reason.
fn cause_of<'a>(trouble: Option<(Trouble, &'a str)>, reason: &'a str) -> Option<Cause<'a>> {
    match trouble {
        Some((trouble, path)) => Some(Cause {
            verb: trouble.action.verb(),
            path,
            reason,
        }),
        None => None,
    }
}

// The lines below the line of a refusal, from the words, what the system said, the schema and the input.
fn lines_below<'a>(
    rt: &HostRuntime,
    words: &'a [&'a str],
    line: &'a str,
    trouble: Option<Cause<'a>>,
    schema: &'a str,
    input: &'a [u8],
) -> Result<String, AllocError> {
    let scene = Scene {
        words,
        line,
        trouble,
        schema,
        input,
    };
    explain(rt.alloc(), &scene)
}

// The lines below the line of a refusal.
fn explained(
    rt: &HostRuntime,
    words: &Words,
    world: &Devices,
    line: &str,
) -> Result<String, AllocError> {
    let texts = texts_of(rt, words)?;
    let wanted = wanted_for(line);
    let schema = if wanted.schema {
        schema_of(rt, words)?
    } else {
        String::new(rt.alloc())
    };
    let input = if wanted.input {
        bytes_of(rt, text_path(world))
    } else {
        Vec::new(rt.alloc())
    };
    let trouble = trouble_of(world);
    let reason = match trouble {
        Some((trouble, _)) => format!(in rt.alloc(); "{}", trouble.error)?,
        None => String::new(rt.alloc()),
    };
    let cause = cause_of(trouble, reason.as_str());
    lines_below(
        rt,
        texts.as_slice(),
        line,
        cause,
        schema.as_str(),
        input.as_slice(),
    )
}

// Whether the reader of the report went away before its end, as `head` does: of that there is nothing to tell.
fn is_reader_gone(world: &Devices) -> bool {
    match world.out.trouble() {
        Some(trouble) => trouble.error.kind() == ErrorKind::BrokenPipe,
        None => false,
    }
}

/// Tells at a terminal what was held, and explains it. Gives the status with which the program ends.
pub fn tell(rt: &HostRuntime, words: &Words, world: &Devices, status: Status) -> Status
    ensures { (result ≡ status) ⊎ (result ≡ Status.WriteFault) }
{
    let line = from_utf8(world.err.held_bytes()).unwrap_or("");
    if line.is_empty() || is_reader_gone(world) {
        return status;
    }
    let told = match explained(rt, words, world, line) {
        Ok(lines) => rt.eprint(line).and_then(|()| rt.eprint(lines.as_str())),
        Err(_) => rt.eprint(line),
    };
    match told {
        Ok(()) => status,
        Err(_) => Status::WriteFault,
    }
}
