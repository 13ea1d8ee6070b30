//! Each call of each device fails in turn.

use crate::entry::Case;
use crate::fault::CaseFault;
use crate::scene::{Device, Left, Scene, Turn};
use crate::wanted::status_of;
use daq_cli::Status;
use std::alloc::Global;

const DEVICES: [Device; 6] = [
    Device::Input,
    Device::Side,
    Device::Planes,
    Device::Made,
    Device::Out,
    Device::Err,
];

// What a run leaves.
#[derive(Clone, Copy)]
struct Wanted<'a> {
    status: Status,
    made: &'a [u8],
    out: &'a [u8],
    err: &'a [u8],
}

impl<'a> Wanted<'a> {
    fn is_left(&self, left: &Left) -> bool {
        self.status == left.status
            && self.made == left.made.as_slice()
            && self.out == left.out.as_slice()
            && self.err == left.err.as_slice()
    }

    // The same, where that call fails, and `held` is what `out` holds then, if it is known.
    fn failed(&self, turn: Turn, held: usize) -> Wanted<'a> {
        match turn.device {
            Device::Input | Device::Side | Device::Planes => Wanted {
                status: Status::ReadFault,
                made: &[],
                out: front(self.out, held),
                err: b"daq: read fault\n",
            },
            Device::Made => Wanted {
                status: Status::WriteFault,
                made: front(self.made, turn.call),
                out: &[],
                err: b"daq: write fault\n",
            },
            Device::Out => Wanted {
                status: Status::WriteFault,
                made: self.made,
                out: front(self.out, turn.call),
                err: b"daq: write fault\n",
            },
            Device::Err => Wanted {
                status: Status::WriteFault,
                err: front(self.err, turn.call),
                ..*self
            },
        }
    }
}

fn front(bytes: &[u8], count: usize) -> &[u8] {
    &bytes[..bytes.len().min(count)]
}

// All bytes that the case says of a sink.
fn bytes_of<'a>(case: &'a Case, sink: &str) -> &'a [u8] {
    match case.last(sink) {
        Some(entry) => &entry.bytes,
        None => &[],
    }
}

// What `out` holds at each call of the device, which has so many.
fn calls_of(
    alloc: Global,
    case: &Case,
    device: Device,
    wanted: &Wanted<'_>,
) -> Result<Vec<usize>, CaseFault> {
    let mut held = Vec::new(alloc);
    let count = match device {
        Device::Made => wanted.made.len(),
        Device::Out => wanted.out.len(),
        Device::Err => wanted.err.len(),
        Device::Input | Device::Side | Device::Planes => 0,
    };
    for _ in 0..count {
        held.push(0)?;
    }
    if let Some((entry, rest)) = case.setting("turns", device.word()) {
        for word in rest.split_whitespace() {
            held.push(entry.number(word)?)?;
        }
    }
    Ok(held)
}

// The first call of the device that leaves something else where it fails, if any. Behind the last call there is none, which would fail.
fn first_other_call(
    alloc: Global,
    case: &Case,
    scene: &Scene,
    wanted: &Wanted<'_>,
    device: Device,
) -> Result<Option<usize>, CaseFault> {
    let calls = calls_of(alloc, case, device, wanted)?;
    for (call, held) in calls.iter().enumerate() {
        let turn = Turn { device, call };
        if !wanted.failed(turn, *held).is_left(&scene.run(Some(turn))?) {
            return Ok(Some(call));
        }
    }
    let turn = Turn {
        device,
        call: calls.len(),
    };
    if !wanted.is_left(&scene.run(Some(turn))?) {
        return Ok(Some(calls.len()));
    }
    Ok(None)
}

/// The first call of the first device that leaves something else where it fails, if any.
pub fn first_other_turn(
    alloc: Global,
    case: &Case,
    scene: &Scene,
) -> Result<Option<String>, CaseFault> {
    let wanted = Wanted {
        status: status_of(case)?,
        made: bytes_of(case, "made"),
        out: bytes_of(case, "out"),
        err: bytes_of(case, "err"),
    };
    for device in DEVICES {
        if let Some(call) = first_other_call(alloc, case, scene, &wanted, device)? {
            let word = device.word();
            return Ok(Some(format!(in alloc; "call {call} of {word} fails")?));
        }
    }
    Ok(None)
}
