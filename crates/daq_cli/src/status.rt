//! How a run ends.

ghost use Rattle.std.specs.Prelude.{◌≡◌};
ghost use Rattle.daq_cli.specs.Refusals.{code_of};

/// How a run ends.
#[derive(Clone, Copy, Debug, PartialEq, Eq)]
pub enum Status {
    Done = 0,
    /// The words are no command.
    Usage = 2,
    /// The query is none, or cannot be answered over the table.
    QueryRefused = 3,
    /// The schema, the input or the rows that are asked for give no table.
    TableRefused = 4,
    /// The plane file is refused.
    FileRefused = 5,
    ReadFault = 6,
    WriteFault = 7,
    NoMemory = 8,
    /// The lines of the reports of parts do not combine.
    ReportRefused = 9,
}

/// The number that the process ends with.
pub fn code(status: Status) -> u8
    ensures { result ≡ code_of status }
{
    match status {
        Status::Done => 0,
        Status::Usage => 2,
        Status::QueryRefused => 3,
        Status::TableRefused => 4,
        Status::FileRefused => 5,
        Status::ReadFault => 6,
        Status::WriteFault => 7,
        Status::NoMemory => 8,
        Status::ReportRefused => 9,
    }
}
