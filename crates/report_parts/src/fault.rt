//! Why a line is refused, and why answers are not combined.

ghost use Rattle.std.specs.Prelude.{◌≡◌};
ghost use Rattle.report_parts.specs.Faults.{of_groups, of_rows};
ghost use Rattle.report_parts.specs.declared.fault.BlockFault.TheVariants.{NoMemory as NoBlock};
ghost use Rattle.report_parts.specs.declared.fault.CombineFault.TheVariants.{NoMemory};
ghost use Rattle.report_parts.specs.declared.fault.CourseFault.TheVariants.{Block, Input};
ghost use Rattle.report_parts.specs.declared.fault.InputFault.TheVariants.{Line};
ghost use Rattle.report_parts.specs.declared.fault.LineFault.TheVariants.{NoMemory as NoRoom};

use part_groups::CombineFault as GroupsFault;
use part_rows::RowsFault;
use std::alloc::{AllocError, AllocFailed};
use thiserror::Error;

/// Why a line is not taken.
#[derive(Debug, PartialEq, Eq, Drop, Error)]
pub enum LineFault {
    /// The line is not that of the query.
    #[error("another query")]
    OtherQuery,
    /// At its place no report of the query has this line, and of the first rows before it the possible ones are not listed.
    #[error("possible rows are not listed")]
    Unlisted,
    /// At its place no report of the query has this line.
    #[error("no line of a report")]
    OtherLine,
    /// Memory ran out.
    #[error("no memory")]
    NoMemory,
}

impl From<AllocError> for LineFault {
    ghost from_gives = { λ _ e. e ≡ NoRoom };

    fn from(_: AllocError) -> Self {
        LineFault::NoMemory
    }
}

impl<T: Drop> From<AllocFailed<T>> for LineFault {
    ghost from_gives = { λ _ e. e ≡ NoRoom };

    fn from(_: AllocFailed<T>) -> Self {
        LineFault::NoMemory
    }
}

/// Why a line of the input is refused. Of several faults the one that stands first here is answered.
#[derive(Debug, PartialEq, Eq, Drop, Error)]
pub enum InputFault {
    /// No tab stands in it.
    #[error("no tab")]
    NoTab,
    /// Before the tab stands no byte, or more than 255.
    #[error("no tag")]
    NoTag,
    /// It is of one part more than there are.
    #[error("another part")]
    OtherPart,
    /// The part does not take the line.
    #[error("{0}")]
    Line(LineFault),
}

impl From<LineFault> for InputFault {
    ghost from_gives = { λ why e. e ≡ Line why };

    fn from(why: LineFault) -> Self {
        InputFault::Line(why)
    }
}

impl From<AllocError> for InputFault {
    ghost from_gives = { λ _ e. e ≡ Line NoRoom };

    fn from(_: AllocError) -> Self {
        InputFault::Line(LineFault::NoMemory)
    }
}

impl<T: Drop> From<AllocFailed<T>> for InputFault {
    ghost from_gives = { λ _ e. e ≡ Line NoRoom };

    fn from(_: AllocFailed<T>) -> Self {
        InputFault::Line(LineFault::NoMemory)
    }
}

/// Why a line is refused, or what is to be written behind it.
#[derive(Debug, PartialEq, Eq, Drop, Error)]
pub enum CourseFault {
    /// The parts do not take the line.
    #[error("{0}")]
    Input(InputFault),
    /// A block that stands is not written.
    #[error("{0}")]
    Block(BlockFault),
}

impl From<InputFault> for CourseFault {
    ghost from_gives = { λ why e. e ≡ Input why };

    fn from(why: InputFault) -> Self {
        CourseFault::Input(why)
    }
}

impl From<BlockFault> for CourseFault {
    ghost from_gives = { λ why e. e ≡ Block why };

    fn from(why: BlockFault) -> Self {
        CourseFault::Block(why)
    }
}

/// Why the input may not end. Of both the one that stands first is answered.
#[derive(Clone, Copy, Debug, PartialEq, Eq, Drop, Error)]
pub enum EndFault {
    /// The report of the part at that place ends early, and no earlier part's.
    #[error("part {0} ends early")]
    EndsEarly(usize),
    /// There are so many parts, and not as many as are wanted.
    #[error("{0} parts")]
    OtherCount(usize),
}

/// Why a block is not written: at which item or group column, of those from 0.
#[derive(Clone, Copy, Debug, PartialEq, Eq, Drop, Error)]
pub enum BlockFault {
    /// Two lines write this group column, of those from 0, in other ways: with other decimals, or as dates.
    #[error("column {0}: another form")]
    OtherColumn(usize),
    /// Two parts write what they tell of this item, of those from 0, in other ways: with other decimals, or as dates or texts.
    #[error("item {0}: another form")]
    OtherItem(usize),
    /// An end has more than 128 bits, or a number of rows more than 64.
    #[error("item {0}: too wide")]
    TooWide(usize),
    /// The tag of this part, of those from 0, has a space or a control character, and first rows are asked for.
    #[error("part {0}: a space or a control character in its tag")]
    UnclearTag(usize),
    /// Two first rows write their keys in other forms.
    #[error("first rows: another form")]
    OtherForm,
    /// Memory ran out.
    #[error("no memory")]
    NoMemory,
}

impl From<RowsFault> for BlockFault {
    ghost from_gives = { λ why e. e ≡ of_rows why };

    fn from(why: RowsFault) -> Self {
        match why {
            RowsFault::UnclearTag(part) => BlockFault::UnclearTag(part),
            RowsFault::OtherForm => BlockFault::OtherForm,
            RowsFault::NoMemory => BlockFault::NoMemory,
        }
    }
}

impl From<GroupsFault> for BlockFault {
    ghost from_gives = { λ why e. e ≡ of_groups why };

    fn from(why: GroupsFault) -> Self {
        match why {
            GroupsFault::OtherColumn(column) => BlockFault::OtherColumn(column),
            GroupsFault::OtherItem(item) => BlockFault::OtherItem(item),
            GroupsFault::TooWide(item) => BlockFault::TooWide(item),
            GroupsFault::NoMemory => BlockFault::NoMemory,
        }
    }
}

impl From<AllocError> for BlockFault {
    ghost from_gives = { λ _ e. e ≡ NoBlock };

    fn from(_: AllocError) -> Self {
        BlockFault::NoMemory
    }
}

impl<T: Drop> From<AllocFailed<T>> for BlockFault {
    ghost from_gives = { λ _ e. e ≡ NoBlock };

    fn from(_: AllocFailed<T>) -> Self {
        BlockFault::NoMemory
    }
}

/// Why the answers of parts are not combined. Of several faults the one that stands first here is answered.
#[derive(Debug, PartialEq, Eq, Drop, Error)]
pub enum CombineFault {
    /// The numbers of two parts have other decimals, or one tells a text or a date and another a number.
    #[error("another form")]
    OtherForm,
    /// An end has more than 128 bits, or a number of rows more than 64.
    #[error("too wide")]
    TooWide,
    /// Memory ran out.
    #[error("no memory")]
    NoMemory,
}

impl From<AllocError> for CombineFault {
    ghost from_gives = { λ _ e. e ≡ NoMemory };

    fn from(_: AllocError) -> Self {
        CombineFault::NoMemory
    }
}

impl<T: Drop> From<AllocFailed<T>> for CombineFault {
    ghost from_gives = { λ _ e. e ≡ NoMemory };

    fn from(_: AllocFailed<T>) -> Self {
        CombineFault::NoMemory
    }
}
