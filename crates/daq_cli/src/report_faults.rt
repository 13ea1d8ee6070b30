//! What the line of a refusal says of reports that are not combined.

ghost use Rattle.std.specs.Prelude.{◌≡◌, ◌≤◌, length};
ghost use Rattle.daq_cli.specs.Refusals.{line_refusal_text, report_fault_text};

use crate::fault_lines::{after, counted, plain, with_number};
use daq_table::TextBuf;
use report_stream::{LineRefusal, StreamFault, Tag};

// What is said of the reports of so many parts.
pub(crate) fn written_report_fault(parts: u32, fault: &StreamFault) -> TextBuf
    ensures text { result ≡ report_fault_text parts fault.now }
    ensures short { length result ≤ 500 }
{
    match fault {
        StreamFault::Line { line, why } => written_line(parts, *line, *why),
        StreamFault::EndsEarly { tag } => written_end(tag),
        StreamFault::OtherCount { count } => written_counts(*count, parts),
        StreamFault::TooLong => plain(b"report refused: longer than 1073741824 bytes"),
        StreamFault::ReadFault => plain(b"read fault"),
        StreamFault::WriteFault => plain(b"write fault"),
        StreamFault::NoMemory => plain(b"no memory"),
    }
}

// What is said of a line.
fn written_line(parts: u32, line: usize, why: LineRefusal) -> TextBuf
    ensures text { result ≡ report_fault_text parts (StreamFault.Line line why) }
    ensures short { length result ≤ 500 }
{
    let mut text = with_number(b"report refused: line ", counted(line), b": ");
    text.append(written_line_refusal(parts, why).bytes());
    text
}

// What is said of a part whose report ends early.
fn written_end(tag: &Tag) -> TextBuf
    ensures text { result ≡ report_fault_text 0 (StreamFault.EndsEarly tag.now) }
    ensures short { length result ≤ 500 }
{
    let mut text = plain(b"report refused: part ");
    text.append(tag.bytes());
    text.append(b" ends early");
    text
}

// That there are so many parts, and not so many.
fn written_counts(count: usize, parts: u32) -> TextBuf
    ensures text { result ≡ report_fault_text parts (StreamFault.OtherCount count) }
    ensures short { length result ≤ 500 }
{
    let front = with_number(b"report refused: ", counted(count), b" parts, not ");
    with_number(front.bytes(), u128::from(parts), b"")
}

// Why a line is refused.
fn written_line_refusal(parts: u32, why: LineRefusal) -> TextBuf
    ensures text { result ≡ line_refusal_text parts why }
    ensures short { length result ≤ 160 }
{
    match why {
        LineRefusal::NoTab => plain(b"no tab"),
        LineRefusal::NoTag => plain(b"a tag of no byte or more than 255"),
        LineRefusal::MoreParts => with_number(b"more than ", u128::from(parts), b" parts"),
        LineRefusal::NoQuery => plain(b"no query"),
        LineRefusal::NoItems => plain(b"no query of totals, groups or first rows"),
        LineRefusal::OtherQuery => plain(b"another query"),
        LineRefusal::Unlisted => plain(b"possible rows are not listed"),
        LineRefusal::OtherLine => plain(b"no line of a report at this place"),
        LineRefusal::OtherColumn(column) => {
            with_number(b"scales of group column ", after(column), b" differ")
        }
        LineRefusal::UnclearTag(part) => with_number(
            b"the tag of part ",
            after(part),
            b" has a space or a control character",
        ),
        LineRefusal::OtherForm => plain(b"scales of the sort column differ"),
        LineRefusal::OtherItem(item) => { with_number(b"scales of item ", after(item), b" differ") }
        LineRefusal::TooWide(item) => with_number(b"item ", after(item), b" too wide"),
        LineRefusal::TooLong => plain(b"longer than 65536 bytes"),
    }
}
