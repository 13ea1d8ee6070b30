//! What a run is over: its words and its devices.

ghost use Rattle.std.specs.Prelude.{◌≤◌};

use crate::entry::{Case, Entry, first_word};
use crate::fault::CaseFault;
use crate::names::Names;
use crate::shelf::Shelf;
use daq_cli::{Status, Words, World, run};
use outer_world::{MemSink, MemSource};
use std::alloc::{AllocError, Global};
use std::mem;

/// A device of a run.
#[derive(Clone, Copy, Debug, PartialEq, Eq)]
pub enum Device {
    Input,
    Side,
    Planes,
    Made,
    Out,
    Err,
}

impl Device {
    /// Its word.
    pub fn word(self) -> &'static str {
        match self {
            Device::Input => "input",
            Device::Side => "side",
            Device::Planes => "planes",
            Device::Made => "made",
            Device::Out => "out",
            Device::Err => "err",
        }
    }

    // How many bytes it gives or takes at a time, where nothing is said.
    fn usual_piece(self) -> usize {
        match self {
            Device::Input | Device::Side => 7,
            Device::Planes => 200,
            Device::Made => 11,
            Device::Out => 5,
            Device::Err => 3,
        }
    }

    // How many bytes it takes, or calls it answers, where nothing is said.
    fn usual_room(self) -> usize {
        match self {
            Device::Input | Device::Side | Device::Planes => 1000,
            Device::Made | Device::Out => 10_000,
            Device::Err => 200,
        }
    }
}

// What a device holds and how it works.
#[derive(Drop)]
struct Part {
    bytes: Vec<u8>,
    end: usize,
    piece: usize,
    room: usize,
    fails: Vec<u64>,
}

/// The words of a run, and its devices.
#[derive(Drop)]
pub struct Scene {
    alloc: Global,
    words: Words,
    input: Part,
    side: Part,
    planes: Part,
    made: Part,
    out: Part,
    err: Part,
}

/// How a run ended, and what it left.
#[derive(Drop)]
pub struct Left {
    pub status: Status,
    pub made: Vec<u8>,
    pub out: Vec<u8>,
    pub err: Vec<u8>,
    pub places: Vec<(u64, usize)>,
}

/// The call of a device that fails, where its sinks take a byte at a time.
#[derive(Clone, Copy)]
pub struct Turn {
    pub device: Device,
    pub call: usize,
}

// The number that the case sets for the device, or this one.
fn number_of(case: &Case, key: &str, device: Device, usual: usize) -> Result<usize, CaseFault> {
    match case.setting(key, device.word()) {
        Some((entry, rest)) => entry.number(rest),
        None => Ok(usual),
    }
}

// Puts the bytes of an entry in their places.
fn put(bytes: &mut Vec<u8>, entry: &Entry, rest: &str) -> Result<(), CaseFault> {
    let (at, hex) = first_word(rest);
    let mut at = entry.number(at)?;
    for word in hex.split_whitespace() {
        let byte = entry.byte(word)?;
        match bytes.get_mut(at) {
            Some(old) => *old = byte,
            None => return Err(CaseFault::at(entry.line, "no such place")),
        }
        at = at.saturating_add(1);
    }
    Ok(())
}

// The bytes of a device, with those that are put in, cut to their size.
fn bytes_of(case: &Case, device: Device, mut bytes: Vec<u8>) -> Result<Vec<u8>, CaseFault> {
    for entry in case.entries.iter() {
        let (first, rest) = first_word(entry.rest.as_str());
        if entry.key.as_str() == "put" && first == device.word() {
            put(&mut bytes, entry, rest)?;
        }
    }
    let size = number_of(case, "cut", device, bytes.len())?;
    bytes.truncate(size);
    Ok(bytes)
}

// What the device holds, if it holds these bytes before any change, and how it works.
fn part_of(alloc: Global, case: &Case, device: Device, bytes: Vec<u8>) -> Result<Part, CaseFault> {
    let bytes = bytes_of(case, device, bytes)?;
    let mut fails = Vec::new(alloc);
    if let Some((entry, rest)) = case.setting("fails", device.word()) {
        for word in rest.split_whitespace() {
            fails.push(entry.number(word)? as u64)?;
        }
    }
    Ok(Part {
        end: number_of(case, "ends", device, bytes.len())?,
        piece: number_of(case, "piece", device, device.usual_piece())?,
        room: number_of(case, "room", device, device.usual_room())?,
        bytes,
        fails,
    })
}

// Appends each line as a word.
fn push_words(words: &mut Words, text: &str) -> Result<(), AllocError> {
    for line in text.lines() {
        words.push(line)?;
    }
    Ok(())
}

// The words that an entry says, and what it says of the input.
fn begin_words(
    alloc: Global,
    case: &Case,
    entry: &Entry,
    names: &Names,
) -> Result<(Words, Vec<u8>), CaseFault> {
    let mut words = Words::new(alloc);
    if entry.key.as_str() == "words" {
        let input = match case.last("input") {
            Some(entry) => entry.bytes.to_vec(alloc)?,
            None => Vec::new(alloc),
        };
        return Ok((words, input));
    }
    let Some(table) = names.find(entry.rest.as_str()) else {
        return Err(CaseFault::at(entry.line, "no such table"));
    };
    words.push(entry.key.as_str())?;
    words.push("t.csv")?;
    if entry.key.as_str() == "load" {
        words.push("t.daq")?;
    }
    words.push(table.schema.as_str())?;
    Ok((words, table.bytes.to_vec(alloc)?))
}

// The bytes of an entry, if there is one.
fn held(alloc: Global, entry: Option<&Entry>) -> Result<Vec<u8>, AllocError> {
    match entry {
        Some(entry) => entry.bytes.to_vec(alloc),
        None => Ok(Vec::new(alloc)),
    }
}

fn calls_of(
    alloc: Global,
    part: &Part,
    device: Device,
    turn: Option<Turn>,
) -> Result<Vec<u64>, AllocError> {
    let mut fails = part.fails.to_vec(alloc)?;
    if let Some(turn) = turn
        && turn.device == device
    {
        fails.push(turn.call as u64)?;
    }
    Ok(fails)
}

fn source_of(
    alloc: Global,
    part: &Part,
    device: Device,
    turn: Option<Turn>,
) -> Result<MemSource, AllocError> {
    let fails = calls_of(alloc, part, device, turn)?;
    Ok(MemSource::new(part.bytes.to_vec(alloc)?, part.piece.max(1), fails))
}

fn store_of(alloc: Global, part: &Part, turn: Option<Turn>) -> Result<Shelf, AllocError> {
    Ok(Shelf {
        bytes: part.bytes.to_vec(alloc)?,
        end: part.end,
        piece: part.piece.max(1),
        room: part.room as u64,
        fails: calls_of(alloc, part, Device::Planes, turn)?,
        call: 0,
        faults: 0,
        ends: 0,
        places: Vec::new(alloc),
    })
}

fn sink_of(
    alloc: Global,
    part: &Part,
    device: Device,
    turn: Option<Turn>,
) -> Result<MemSink, AllocError> {
    let piece = if turn.is_some() { 1 } else { part.piece.max(1) };
    let fails = calls_of(alloc, part, device, turn)?;
    MemSink::with_room(alloc, part.room, piece, fails)
}

impl Scene {
    /// What the case says, with the words and the planes that these entries say.
    pub fn of(
        alloc: Global,
        case: &Case,
        begin: &Entry,
        planes: Option<&Entry>,
        names: &Names,
    ) -> Result<Scene, CaseFault> {
        let (mut words, input) = begin_words(alloc, case, begin, names)?;
        push_words(&mut words, begin.text()?)?;
        for entry in case.entries.iter() {
            if entry.key.as_str() == "word" {
                words.push(entry.text()?)?;
            }
        }
        let part = |device, bytes| part_of(alloc, case, device, bytes);
        Ok(Scene {
            alloc,
            words,
            input: part(Device::Input, input)?,
            side: part(Device::Side, held(alloc, case.last("side"))?)?,
            planes: part(Device::Planes, held(alloc, planes)?)?,
            made: part(Device::Made, Vec::new(alloc))?,
            out: part(Device::Out, Vec::new(alloc))?,
            err: part(Device::Err, Vec::new(alloc))?,
        })
    }

    fn world(&self, turn: Option<Turn>) -> Result<World<MemSource, Shelf, MemSink>, AllocError> {
        Ok(World {
            input: source_of(self.alloc, &self.input, Device::Input, turn)?,
            side: source_of(self.alloc, &self.side, Device::Side, turn)?,
            planes: store_of(self.alloc, &self.planes, turn)?,
            made: sink_of(self.alloc, &self.made, Device::Made, turn)?,
            out: sink_of(self.alloc, &self.out, Device::Out, turn)?,
            err: sink_of(self.alloc, &self.err, Device::Err, turn)?,
        })
    }

    /// Runs it, where that call fails, if one does.
    pub fn run(&self, turn: Option<Turn>) -> Result<Left, AllocError> {
        let mut world = self.world(turn)?;
        let status = run(self.alloc, &self.words, &mut world);
        Ok(Left {
            status,
            made: world.made.contents().to_vec(self.alloc)?,
            out: world.out.contents().to_vec(self.alloc)?,
            err: world.err.contents().to_vec(self.alloc)?,
            places: mem::replace(&mut world.planes.places, Vec::new(self.alloc)),
        })
    }
}
