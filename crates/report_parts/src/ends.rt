//! How a combined report ends.

ghost use Rattle.std.specs.Prelude.{◌≡◌, ◌<◌, ◌^◌, IfErr, None, OnOk, length};
ghost use Rattle.std.specs.List.{list_all};
ghost use Rattle.report_text.specs.Lines.{end_line};
ghost use Rattle.report_parts.specs.Ends.{IsEndFault, end_behind, end_of_all, ends_narrow, first_open};

use crate::fault::EndFault;
use crate::part::{Part, Place};
use crate::rounds::{have_all_ended, is_ended};
use report_text::ReportEnd;

// Whether the report has ended narrow.
fn ends_narrow(place: Place) -> bool
    ensures { result ≡ ends_narrow place }
{
    match place {
        Place::Ended(ReportEnd::Narrow) => true,
        Place::Ended(ReportEnd::Rounds | ReportEnd::Reads) => false,
        Place::Query | Place::Opened | Place::Round | Place::Group | Place::Items | Place::Row =>
            false,
    }
}

// Whether the report of each part has ended narrow.
fn have_ended_narrow(parts: &[Part]) -> bool
    ensures { result ≡ list_all (λ part. ends_narrow part.place) parts.now }
{
    for part in parts {
        if !ends_narrow(part.place()) {
            return false;
        }
    }
    true
}

// How it ends where no part goes on.
pub(crate) fn end_of_all(parts: &[Part]) -> ReportEnd
    ensures { result ≡ end_of_all parts.now }
{
    if have_ended_narrow(parts) {
        ReportEnd::Narrow
    } else {
        ReportEnd::Rounds
    }
}

// The line of an end.
pub(crate) fn written_end(end: ReportEnd) -> &'static [u8]
    ensures { result.now ≡ end_line end }
{
    match end {
        ReportEnd::Narrow => b"end narrow",
        ReportEnd::Rounds => b"end rounds",
        ReportEnd::Reads => b"end reads",
    }
}

/// How the combined report ends behind the block of that round, if it does: the block is narrow, or the last that is wanted, or no part
/// goes on.
pub fn end_behind(narrow: bool, last: bool, round: usize, parts: &[Part]) -> Option<ReportEnd>
    requires { round < 2 ^ 63 }
    ensures { result ≡ end_behind narrow last round parts.now }
{
    if narrow {
        return Some(ReportEnd::Narrow);
    }
    if last {
        return Some(ReportEnd::Rounds);
    }
    if have_all_ended(round, parts) {
        return Some(end_of_all(parts));
    }
    None
}

// The place of the first part whose report has not ended.
fn first_open(parts: &[Part]) -> Option<usize>
    ensures { result ≡ first_open parts.now }
{
    parts.iter().position(|part| !is_ended(part.place()))
}

/// Whether the input may end where these are its parts: there are as many as are wanted, and the report of each has ended.
pub fn may_end(wanted: usize, parts: &[Part]) -> Result<(), EndFault>
    ensures ended { OnOk result ((first_open parts.now ≡ None) × (length parts.now ≡ wanted)) }
    ensures fault { IfErr result (λ why. IsEndFault why wanted parts.now) }
{
    if let Some(place) = first_open(parts) {
        return Err(EndFault::EndsEarly(place));
    }
    if parts.len() != wanted {
        return Err(EndFault::OtherCount(parts.len()));
    }
    Ok(())
}
