//! Lines of a source. Bytes are read where no whole line stands in what was read before, and not else.

ghost use Rattle.std.specs.Prelude.{◌≡◌, ◌≢◌, ◌≤◌, ◌+◌, ◌++◌, true, false, Ok, Err, length, position, IfErr, OnOk};
ghost use Rattle.source_lines.specs.Lines.{Comes, ComesNothing, Ends, IsRest, Stands, StopsLines};
ghost use Rattle.source_lines.specs.Lines.{behind_line, front_line, has_line, is_feed, line_length, no_lines};

use crate::fault::LineFault;
use outer_world::Source;
use std::alloc::{AllocError, Global};
use std::marker::Model;

/// The most bytes of a line, without its line feed.
pub const MOST_LINE: usize = 65_536;

/// The most bytes of all lines.
pub const MOST_BYTES: usize = 1_073_741_824;

/// What was read of a source, from the next line on.
#[derive(Drop)]
pub struct SourceLines {
    held: Vec<u8>,
    passed: usize,
    // Where the next line ends: at its line feed, or with what was read.
    end: usize,
    total: usize,
}

impl Model for SourceLines {
    ghost use Rattle.std.specs.Prelude.{◌≡◌, ◌≤◌, ◌+◌, length, drop};
    ghost use Rattle.source_lines.specs.Lines.{LinesState, line_length, most_bytes};

    ghost Value = { LinesState };

    ghost view = { λ s. record { pending = drop s.passed s.held.items; total = s.total } };

    ghost invariant = { λ s. (s.passed ≤ length s.held.items) × (s.total ≤ most_bytes)
        × (s.end ≡ s.passed + line_length (drop s.passed s.held.items)) };
}

// The place of the first line feed.
fn feed_place(bytes: &[u8]) -> Option<usize>
    ensures { result ≡ position is_feed bytes.now }
{
    bytes.iter().position(|byte| *byte == 10)
}

// How many bytes come before the first line feed, or are there.
fn length_of_line(bytes: &[u8]) -> usize
    ensures length { result ≡ line_length bytes.now }
    ensures within { result ≤ length bytes.now }
{
    match feed_place(bytes) {
        Some(place) => place,
        None => bytes.len(),
    }
}

impl SourceLines {
    /// Nothing was read.
    pub fn new(alloc: Global) -> SourceLines
        ensures { result ≡ no_lines }
    {
        SourceLines {
            held: Vec::new(alloc),
            passed: 0,
            end: 0,
            total: 0,
        }
    }

    // What was read, from the next line on.
    fn pending(&self) -> &[u8]
        ensures { result.now ≡ self.now.pending }
    {
        &self.held[self.passed..]
    }

    // How many bytes come before the next line feed, or are there.
    fn line_length(&self) -> usize
        ensures { result ≡ line_length self.now.pending }
    {
        self.end - self.passed
    }

    /// Whether a whole line stands there.
    pub fn has_line(&self) -> bool
        ensures { result ≡ has_line self.now.pending }
    {
        self.line_length() < self.pending().len()
    }

    /// The next line, without its line feed.
    pub fn line(&self) -> &[u8]
        ensures { result.now ≡ front_line self.now.pending }
    {
        let length = self.line_length();
        &self.pending()[..length]
    }

    /// Passes over the next line.
    pub fn pass(&mut self)
        ensures pending { self.new.pending ≡ behind_line self.old.pending }
        ensures total { self.new.total ≡ self.old.total }
        ensures within { self.new.total ≤ 1073741824 }
    {
        let length = self.line_length();
        let next = if length < self.pending().len() {
            self.passed + length + 1
        } else {
            self.held.len()
        };
        self.end = next + length_of_line(&self.held[next..]);
        self.passed = next;
    }

    // Puts bytes behind what was read.
    fn keep(&mut self, alloc: Global, bytes: &[u8]) -> Result<(), AllocError>
        requires { self.old.total + length bytes.now ≤ 1073741824 }
        ensures pending { OnOk result (self.new.pending ≡ self.old.pending ++ bytes.now) }
        ensures total { OnOk result (self.new.total ≡ self.old.total + length bytes.now) }
    {
        let mut held = Vec::new(alloc);
        held.extend_from_slice(self.pending())?;
        held.extend_from_slice(bytes)?;
        self.end = length_of_line(&held);
        self.held = held;
        self.passed = 0;
        self.total += bytes.len();
        Ok(())
    }

    // Reads some bytes more, and says whether some came.
    #[tactic(auto, using(crate::proofs::Steps::stops_failed, crate::proofs::Steps::stops_full, crate::proofs::Steps::stops_starved))]
    fn read_more<S: Source>(&mut self, alloc: Global, source: &mut S) -> Result<bool, LineFault>
        ensures came { result ≡ Ok true → Comes self.old self.new (S.state source.old) (S.state source.new) }
        ensures ended { result ≡ Ok false → ComesNothing self.old self.new (S.state source.old) (S.state source.new) }
        ensures stopped { IsRest self.old.pending
            → IfErr result (StopsLines self.old (S.state source.old) (S.state source.new)) }
        ensures lines { result ≢ Err LineFault.LineTooLong }
        ensures faults { (S.state source.old).faults ≤ (S.state source.new).faults }
    {
        let mut buffer = [0u8; 4096];
        let room = MOST_BYTES - self.total;
        let count = source.read(&mut buffer[..room.clamp(1, 4096)])?;
        if count == 0 {
            return Ok(false);
        }
        if count > room {
            return Err(LineFault::TooLong);
        }
        self.keep(alloc, &buffer[..count])?;
        Ok(true)
    }

    /// Reads until a whole line stands there, which it says, or to the end of the source. What stands there then is no line.
    pub fn read_line<S: Source>(&mut self, alloc: Global, source: &mut S) -> Result<bool, LineFault>
        ensures line { result ≡ Ok true → Stands self.old self.new (S.state source.old) (S.state source.new) }
        ensures ended { result ≡ Ok false → Ends self.old self.new (S.state source.old) (S.state source.new) }
        ensures stopped { IfErr result (StopsLines self.old (S.state source.old) (S.state source.new)) }
        ensures idle { has_line self.old.pending ≡ true → (self.new ≡ self.old) × (source.new ≡ source.old) }
        ensures faults { (S.state source.old).faults ≤ (S.state source.new).faults }
    {
        let _total = self.total;
        while !self.has_line() {
            if self.line_length() > MOST_LINE {
                return Err(LineFault::LineTooLong);
            }
            if !self.read_more(alloc, source)? {
                return Ok(false);
            }
        }
        if self.line_length() > MOST_LINE {
            return Err(LineFault::LineTooLong);
        }
        Ok(true)
    }
}
