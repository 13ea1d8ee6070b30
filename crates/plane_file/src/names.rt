//! The names of a dictionary, read one after the other.

ghost use Rattle.std.specs.Prelude.{◌≡◌, ◌+◌, ◌<◌, ◌≤◌, ◌^◌, length, IfErr, IfOk, IfSome, None};
ghost use Rattle.std.specs.Str.{is_utf8};
ghost use Rattle.plane_file.specs.Checks.{first_fault, is_name, is_next, name_at, names_checks};
ghost use Rattle.plane_file.specs.Fronts.{AreNames, MayFail};

use crate::file_fault::FileFault;
use crate::places::{byte_at, part_at, reaches};
use daq_table::{Dictionary, Text};
use std::alloc::Global;
use std::str::from_utf8;

// Whether the bytes are UTF-8.
fn is_utf8(bytes: &[u8]) -> bool
    ensures { result ≡ is_utf8 bytes.now }
{
    from_utf8(bytes).is_ok()
}

// The name behind a length.
fn name_at(bytes: &[u8], at: usize) -> &[u8]
    requires { at < 2 ^ 33 }
    ensures { result.now ≡ name_at bytes.now at }
{
    part_at(bytes, at + 1, byte_at(bytes, at) as usize)
}

// Whether the text comes after the name at a place, where there is one before it.
fn is_next(bytes: &[u8], before: Option<usize>, text: &[u8]) -> bool
    requires { IfSome before (λ place. place < 2 ^ 33) }
    ensures { result ≡ is_next bytes.now before text.now }
{
    match before {
        None => true,
        Some(place) => name_at(bytes, place).cmp(text).is_lt(),
    }
}

// Whether a name stands at a place, and comes after the one before it.
#[tactic(auto, unfolding(crate::specs::Checks::is_name))]
fn is_name(bytes: &[u8], before: Option<usize>, at: usize) -> bool
    requires before { IfSome before (λ place. place < 2 ^ 33) }
    requires place { at < 2 ^ 33 }
    ensures { result ≡ is_name bytes.now before at }
{
    let length = byte_at(bytes, at) as usize;
    let name = name_at(bytes, at);
    reaches(bytes, at, 1)
        && reaches(bytes, at + 1, length)
        && is_utf8(name)
        && is_next(bytes, before, name)
}

/// So many names from a place on, and the place behind them. A fault is that of the first name that does not stand there
/// or does not come after the one before it.
pub(crate) fn read_names(
    alloc: Global,
    bytes: &[u8],
    at: usize,
    count: u32,
) -> Result<(Dictionary, usize), FileFault>
    requires few { length bytes.now < 2 ^ 32 }
    requires place { at ≤ length bytes.now }
    ensures ok { IfOk result (λ read. AreNames count bytes.now at read.0 read.1) }
    ensures err { IfErr result (MayFail (first_fault (names_checks count bytes.now None at))) }
{
    let mut names = Vec::new(alloc);
    let mut before = None;
    let mut place = at;
    for _ in 0..count {
        if !is_name(bytes, before, place) {
            return Err(FileFault::BadHead { at: place as u64 });
        }
        names.push(Text::new(Vec::from_slice(alloc, name_at(bytes, place))?))?;
        before = Some(place);
        place += 1 + byte_at(bytes, place) as usize;
    }
    Ok((Dictionary::new(names), place))
}
