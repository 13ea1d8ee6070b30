//! Why reports are not combined to their end.

ghost use Rattle.std.specs.Prelude.{◌≡◌, ◌≤◌, length};
ghost use Rattle.report_stream.specs.Faults.{of_input, of_kinds, of_source};
ghost use Rattle.report_stream.specs.declared.fault.StreamFault.TheVariants.{NoMemory, WriteFault};

use outer_world::Failed;
use query_kinds::KindsFault;
use report_parts::{InputFault, LineFault};
use source_lines::LineFault as SourceFault;
use std::alloc::{AllocError, AllocFailed};
use std::marker::Model;
use thiserror::Error;

/// The tag of a part.
#[derive(Debug, Drop)]
pub struct Tag {
    bytes: Vec<u8>,
}

impl Model for Tag {
    ghost use Rattle.std.specs.Prelude.{ℕ, List, ◌≤◌, length};

    ghost Value = { List ℕ };

    ghost view = { λ t. t.bytes.items };

    ghost invariant = { λ t. length t.bytes.items ≤ 255 };
}

impl Tag {
    /// The tag of these bytes, at most 255.
    pub(crate) fn new(bytes: Vec<u8>) -> Tag
        requires { length bytes.items ≤ 255 }
        ensures { result ≡ bytes.items }
    {
        Tag { bytes }
    }

    /// The tag's bytes.
    pub fn bytes(&self) -> &[u8]
        ensures text { result.now ≡ self.now }
        ensures within { length result.now ≤ 255 }
    {
        &self.bytes
    }
}

/// Why a line is refused, or what is to be written behind it. Items count from 0.
#[derive(Clone, Copy, Debug, PartialEq, Eq, Drop, Error)]
pub enum LineRefusal {
    /// No tab stands in it.
    #[error("no tab")]
    NoTab,
    /// Before the tab stands no byte, or more than 255.
    #[error("a tag of no byte or more than 255")]
    NoTag,
    /// It is of one part more than there are to be.
    #[error("more parts")]
    MoreParts,
    /// It is the first, and no line of a query stands behind the tag.
    #[error("no query")]
    NoQuery,
    /// It is the first, and the query asks for columns without groups, for groups without an aggregate, or for so many first rows that
    /// the number has decimals.
    #[error("no query of totals, groups or first rows")]
    NoItems,
    /// It is the first of its part, and is not the line of the query.
    #[error("another query")]
    OtherQuery,
    /// At its place no report of the query has this line, and of the first rows before it the possible ones are not listed.
    #[error("possible rows are not listed")]
    Unlisted,
    /// At its place no report of the query has this line.
    #[error("no line of a report at this place")]
    OtherLine,
    /// Two lines of groups write the values of the group column with other decimals, or as dates and numbers.
    #[error("another form of group column {0}")]
    OtherColumn(usize),
    /// The numbers that two parts say of the item have other decimals, or one says a text or a date and another a number.
    #[error("another form of item {0}")]
    OtherItem(usize),
    /// An end of the item has more than 128 bits, or a number of rows more than 64.
    #[error("item {0} too wide")]
    TooWide(usize),
    /// First rows are asked for, and the tag of the part with this place in the order of tags has a space or a control character.
    #[error("the tag of part {0} has a space or a control character")]
    UnclearTag(usize),
    /// First rows are asked for, and two lines write their keys with other decimals, or as dates, numbers and texts.
    #[error("another form of the sort column")]
    OtherForm,
    /// It has more bytes than a line may have.
    #[error("too long")]
    TooLong,
}

/// Why reports are not combined to their end. Lines count from 1.
#[derive(Debug, Drop, Error)]
pub enum StreamFault {
    /// The line is refused, or a block that it completes.
    #[error("line {line}: {why}")]
    Line { line: usize, why: LineRefusal },
    /// The input ended, and the report of the part with this tag had not, nor had that of a part with a lesser tag.
    #[error("a part ends early")]
    EndsEarly { tag: Tag },
    /// The input ended, and so had the reports of so many parts, which are not as many as there are to be.
    #[error("{count} parts")]
    OtherCount { count: usize },
    /// More bytes came than may come.
    #[error("the input is too long")]
    TooLong,
    /// The source failed.
    #[error("the input failed")]
    ReadFault,
    /// The sink failed.
    #[error("the output failed")]
    WriteFault,
    /// Memory ran out.
    #[error("no memory")]
    NoMemory,
}

impl From<Failed> for StreamFault {
    ghost from_gives = { λ _ e. e ≡ WriteFault };

    fn from(_: Failed) -> Self {
        StreamFault::WriteFault
    }
}

impl From<AllocError> for StreamFault {
    ghost from_gives = { λ _ e. e ≡ NoMemory };

    fn from(_: AllocError) -> Self {
        StreamFault::NoMemory
    }
}

impl<T: Drop> From<AllocFailed<T>> for StreamFault {
    ghost from_gives = { λ _ e. e ≡ NoMemory };

    fn from(_: AllocFailed<T>) -> Self {
        StreamFault::NoMemory
    }
}

/// What the refusal of a line by the parts is to the stream.
pub(crate) fn of_input(line: usize, fault: InputFault) -> StreamFault
    ensures { result ≡ of_input line fault }
{
    let why = match fault {
        InputFault::NoTab => LineRefusal::NoTab,
        InputFault::NoTag => LineRefusal::NoTag,
        InputFault::OtherPart => LineRefusal::MoreParts,
        InputFault::Line(LineFault::OtherQuery) => LineRefusal::OtherQuery,
        InputFault::Line(LineFault::Unlisted) => LineRefusal::Unlisted,
        InputFault::Line(LineFault::OtherLine) => LineRefusal::OtherLine,
        InputFault::Line(LineFault::NoMemory) => return StreamFault::NoMemory,
    };
    StreamFault::Line { line, why }
}

/// What the refusal of a query is to the stream, of which it is the first line.
pub(crate) fn of_kinds(fault: KindsFault) -> StreamFault
    ensures { result ≡ of_kinds fault }
{
    let why = match fault {
        KindsFault::NoQuery => LineRefusal::NoQuery,
        KindsFault::NoTotals => LineRefusal::NoItems,
        KindsFault::NoMemory => return StreamFault::NoMemory,
    };
    StreamFault::Line { line: 1, why }
}

/// What a line that does not come is to the stream.
pub(crate) fn of_source(line: usize, fault: SourceFault) -> StreamFault
    ensures { result ≡ of_source line fault }
{
    match fault {
        SourceFault::Fault => StreamFault::ReadFault,
        SourceFault::LineTooLong => StreamFault::Line {
            line,
            why: LineRefusal::TooLong,
        },
        SourceFault::TooLong => StreamFault::TooLong,
        SourceFault::NoMemory => StreamFault::NoMemory,
    }
}
