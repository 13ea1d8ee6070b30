//! The first lines of a part's report: the query's, how many parts it is of, and the first round's.

ghost use Rattle.std.specs.Prelude.{◌≡◌, ◌≢◌, Err, MatchBool, OnOk};
ghost use Rattle.report_parts.specs.Told.{BeginsRound, IsOpened, Opens, Refuses, TellsParts, opened_by};

use crate::fault::LineFault;
use crate::part::{Part, Place};
use crate::shape::Shape;
use report_text::{is_round_line, read_parts};

// What comes behind the line of a round.
pub(crate) fn opened_by(shape: &Shape) -> Place
    ensures { result ≡ opened_by shape.now }
{
    match shape.rows {
        Some(_) => Place::Row,
        None => {
            if shape.columns == 0 {
                Place::Items
            } else {
                Place::Group
            }
        }
    }
}

impl Part {
    // Takes the line of the query.
    fn take_query(&mut self, query: &[u8], line: &[u8]) -> bool
        ensures tag { self.new.tag ≡ self.old.tag }
        ensures taken { MatchBool result
            (Opens query.now self.old line.now self.new)
            (Refuses (Opens query.now self.old line.now) self.old self.new) }
    {
        if query != line {
            return false;
        }
        self.go(Place::Opened);
        true
    }

    // Takes the first line.
    pub(crate) fn take_opening(&mut self, query: &[u8], line: &[u8]) -> Result<(), LineFault>
        ensures tag { self.new.tag ≡ self.old.tag }
        ensures taken { OnOk result (Opens query.now self.old line.now self.new) }
        ensures query { result ≡ Err LineFault.OtherQuery → Refuses (Opens query.now self.old line.now) self.old self.new }
        ensures other { result ≢ Err LineFault.OtherLine }
        ensures listed { result ≢ Err LineFault.Unlisted }
    {
        if self.take_query(query, line) {
            Ok(())
        } else {
            Err(LineFault::OtherQuery)
        }
    }

    // Takes how many parts a combined report is of.
    fn take_parts(&mut self, line: &[u8]) -> bool
        ensures tag { self.new.tag ≡ self.old.tag }
        ensures taken { MatchBool result
            (TellsParts self.old line.now self.new)
            (Refuses (TellsParts self.old line.now) self.old self.new) }
    {
        if read_parts(line).is_none() {
            return false;
        }
        self.go(Place::Round);
        true
    }

    // Takes the line of the next round.
    fn take_round(&mut self, shape: &Shape, line: &[u8]) -> bool
        ensures tag { self.new.tag ≡ self.old.tag }
        ensures taken { MatchBool result
            (BeginsRound shape.now self.old line.now self.new)
            (Refuses (BeginsRound shape.now self.old line.now) self.old self.new) }
    {
        if !is_round_line(self.count() as u64, line) {
            return false;
        }
        self.go(opened_by(shape));
        true
    }

    // Takes how many parts a combined report is of, or the first round.
    pub(crate) fn take_opened(&mut self, shape: &Shape, line: &[u8]) -> bool
        ensures tag { self.new.tag ≡ self.old.tag }
        ensures taken { MatchBool result
            (IsOpened shape.now self.old line.now self.new)
            (Refuses (IsOpened shape.now self.old line.now) self.old self.new) }
    {
        if self.take_parts(line) {
            true
        } else {
            self.take_round(shape, line)
        }
    }
}
