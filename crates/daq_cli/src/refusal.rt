//! Why a run stops: what each step's fault is to the run, and the status that it ends with.

ghost use Rattle.std.specs.Prelude.{◌≡◌};
ghost use Rattle.daq_cli.specs.Refusals.{status_of};
ghost use Rattle.daq_cli.specs.Faults as of;
ghost use Rattle.daq_cli.specs.declared.refusal.Refusal.TheVariants as refusals;

use crate::status::Status;
use crate::stop::Stop;
use command_line::Usage;
use csv_load::TableFault;
use daq_table::SchemaFault;
use multi_session::SessionFault;
use outer_world::{Failed, ReadAllFault};
use plane_course::StepFault;
use plane_file::{FileFault, FileWriteFault, PlaneFault, TableReadFault};
use plane_reads::ReadsFault;
use report_stream::StreamFault;
use session_script::ScriptFault;
use sql_text::SqlFault;
use sql_typing::TypeFault;
use std::alloc::{AllocError, AllocFailed};
use table_gen::GenFault;

/// Why a run stops. Want of memory in a step is `NoMemory`, and never that step's own fault.
#[derive(Debug, Drop)]
pub enum Refusal {
    /// The words are no command from this word on, counted from 1.
    Usage {
        place: usize,
    },
    /// The SQL is no query.
    Query(SqlFault),
    Schema(SchemaFault),
    /// The input has more bytes than so many.
    TooLong {
        limit: usize,
    },
    Table(TableFault),
    /// More rows are asked of the generator than a table may have.
    TooManyRows,
    Typing(TypeFault),
    Reads(ReadsFault),
    /// The plane file is none.
    File(FileFault),
    /// A plane of a column of the file has a bit past its last row. Both numbers count from 0.
    PadBits {
        column: usize,
        plane: u8,
    },
    /// With this plane the digits of a row would pass those of the column's top. All numbers count from 0.
    OverTop {
        column: usize,
        plane: u8,
        row: usize,
    },
    /// The script of a session is none.
    Script(ScriptFault),
    /// The query in this line of a script is none. Lines count from 1.
    LineQuery {
        line: usize,
        fault: SqlFault,
    },
    /// The query in this line of a script cannot be typed.
    LineTyping {
        line: usize,
        fault: TypeFault,
    },
    /// The queries of a script pass a limit of sessions.
    Session(SessionFault),
    /// The reports of so many parts are not combined.
    Report {
        parts: u32,
        fault: StreamFault,
    },
    ReadFault,
    WriteFault,
    NoMemory,
}

impl From<Usage> for Refusal {
    ghost from_gives = { λ usage why. why ≡ refusals.Usage usage.place };

    fn from(usage: Usage) -> Self {
        Refusal::Usage { place: usage.place }
    }
}

impl From<SqlFault> for Refusal {
    ghost from_gives = { λ fault why. why ≡ of.text fault };

    fn from(fault: SqlFault) -> Self {
        match fault {
            SqlFault::NoMemory => Refusal::NoMemory,
            fault => Refusal::Query(fault),
        }
    }
}

impl From<SchemaFault> for Refusal {
    ghost from_gives = { λ fault why. why ≡ of.schema fault };

    fn from(fault: SchemaFault) -> Self {
        match fault {
            SchemaFault::NoMemory => Refusal::NoMemory,
            fault => Refusal::Schema(fault),
        }
    }
}

impl From<ReadAllFault> for Refusal {
    ghost from_gives = { λ fault why. why ≡ of.input fault };

    fn from(fault: ReadAllFault) -> Self {
        match fault {
            ReadAllFault::Fault => Refusal::ReadFault,
            ReadAllFault::TooLong { limit } => Refusal::TooLong { limit },
            ReadAllFault::NoMemory => Refusal::NoMemory,
        }
    }
}

impl From<TableFault> for Refusal {
    ghost from_gives = { λ fault why. why ≡ of.table fault };

    fn from(fault: TableFault) -> Self {
        match fault {
            TableFault::NoMemory => Refusal::NoMemory,
            fault => Refusal::Table(fault),
        }
    }
}

impl From<GenFault> for Refusal {
    ghost from_gives = { λ fault why. why ≡ of.generator fault };

    fn from(fault: GenFault) -> Self {
        match fault {
            GenFault::TooMany => Refusal::TooManyRows,
            GenFault::NoMemory => Refusal::NoMemory,
        }
    }
}

impl From<TypeFault> for Refusal {
    ghost from_gives = { λ fault why. why ≡ of.typing fault };

    fn from(fault: TypeFault) -> Self {
        match fault {
            TypeFault::NoMemory => Refusal::NoMemory,
            fault => Refusal::Typing(fault),
        }
    }
}

impl From<ReadsFault> for Refusal {
    ghost from_gives = { λ fault why. why ≡ of.reads fault };

    fn from(fault: ReadsFault) -> Self {
        match fault {
            ReadsFault::NoMemory => Refusal::NoMemory,
            fault => Refusal::Reads(fault),
        }
    }
}

impl From<ScriptFault> for Refusal {
    ghost from_gives = { λ fault why. why ≡ of.script fault };

    fn from(fault: ScriptFault) -> Self {
        match fault {
            ScriptFault::NoMemory => Refusal::NoMemory,
            fault => Refusal::Script(fault),
        }
    }
}

impl From<SessionFault> for Refusal {
    ghost from_gives = { λ fault why. why ≡ of.session fault };

    fn from(fault: SessionFault) -> Self {
        match fault {
            SessionFault::NoMemory => Refusal::NoMemory,
            fault => Refusal::Session(fault),
        }
    }
}

impl From<FileFault> for Refusal {
    ghost from_gives = { λ fault why. why ≡ of.opening fault };

    fn from(fault: FileFault) -> Self {
        match fault {
            FileFault::Fault => Refusal::ReadFault,
            FileFault::NoMemory => Refusal::NoMemory,
            fault => Refusal::File(fault),
        }
    }
}

impl From<PlaneFault> for Refusal {
    ghost from_gives = { λ fault why. why ≡ of.plane fault };

    fn from(fault: PlaneFault) -> Self {
        match fault {
            PlaneFault::Fault => Refusal::ReadFault,
            PlaneFault::PadBits { column, plane } => Refusal::PadBits { column, plane },
            PlaneFault::WentShort => Refusal::File(FileFault::WentShort),
        }
    }
}

impl From<TableReadFault> for Refusal {
    ghost from_gives = { λ fault why. why ≡ of.reading fault };

    fn from(fault: TableReadFault) -> Self {
        match fault {
            TableReadFault::File(fault) => Refusal::from(fault),
            TableReadFault::Plane(fault) => Refusal::from(fault),
            TableReadFault::OverTop { column, plane, row } => Refusal::OverTop {
                column,
                plane,
                row,
            },
            TableReadFault::NoMemory => Refusal::NoMemory,
        }
    }
}

impl From<Stop<PlaneFault>> for Refusal {
    ghost from_gives = { λ stop why. why ≡ of.stop stop };

    fn from(stop: Stop<PlaneFault>) -> Self {
        match stop {
            Stop::Failed => Refusal::WriteFault,
            Stop::Step(StepFault::Source(fault)) => Refusal::from(fault),
            Stop::Step(StepFault::OverTop { column, plane, row }) => {
                Refusal::OverTop { column, plane, row }
            }
        }
    }
}

impl From<FileWriteFault> for Refusal {
    ghost from_gives = { λ fault why. why ≡ of.writing fault };

    fn from(fault: FileWriteFault) -> Self {
        match fault {
            FileWriteFault::Fault => Refusal::WriteFault,
            FileWriteFault::NoMemory => Refusal::NoMemory,
        }
    }
}

impl From<AllocError> for Refusal {
    ghost from_gives = { λ _ why. why ≡ refusals.NoMemory };

    fn from(_: AllocError) -> Self {
        Refusal::NoMemory
    }
}

impl<T: Drop> From<AllocFailed<T>> for Refusal {
    ghost from_gives = { λ _ why. why ≡ refusals.NoMemory };

    fn from(_: AllocFailed<T>) -> Self {
        Refusal::NoMemory
    }
}

impl From<Failed> for Refusal {
    ghost from_gives = { λ _ why. why ≡ refusals.WriteFault };

    fn from(_: Failed) -> Self {
        Refusal::WriteFault
    }
}

// Why the reports of so many parts are not combined.
pub(crate) fn refused_reports(parts: u32, fault: StreamFault) -> Refusal
    ensures { result ≡ of.reports parts fault }
{
    match fault {
        StreamFault::ReadFault => Refusal::ReadFault,
        StreamFault::WriteFault => Refusal::WriteFault,
        StreamFault::NoMemory => Refusal::NoMemory,
        fault => Refusal::Report { parts, fault },
    }
}

// The status that a refusal ends with.
pub(crate) fn status_of(why: &Refusal) -> Status
    ensures { result ≡ status_of why.now }
{
    match why {
        Refusal::Usage { .. } => Status::Usage,
        Refusal::Query(_) | Refusal::Typing(_) | Refusal::Reads(_) => Status::QueryRefused,
        Refusal::Script(_)
        | Refusal::LineQuery { .. }
        | Refusal::LineTyping { .. }
        | Refusal::Session(_) => Status::QueryRefused,
        Refusal::Schema(_) | Refusal::TooLong { .. } | Refusal::Table(_) | Refusal::TooManyRows =>
            Status::TableRefused,
        Refusal::File(_) | Refusal::PadBits { .. } | Refusal::OverTop { .. } => Status::FileRefused,
        Refusal::Report { .. } => Status::ReportRefused,
        Refusal::ReadFault => Status::ReadFault,
        Refusal::WriteFault => Status::WriteFault,
        Refusal::NoMemory => Status::NoMemory,
    }
}
