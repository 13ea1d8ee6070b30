//! The line that tells why a run stops.

ghost use Rattle.std.specs.Prelude.{◌≡◌, ◌≤◌, length};
ghost use Rattle.daq_cli.specs.Refusals.{IsTold, fault_line, fault_text};

use crate::fault_lines::{
    plain, with_number, written_at_line, written_file_fault, written_over_top, written_plane,
    written_reads_fault, written_schema_fault, written_script_fault, written_session_fault,
    written_table_fault, written_text_fault, written_type_fault,
};
use crate::refusal::{Refusal, status_of};
use crate::report_faults::written_report_fault;
use crate::status::Status;
use daq_table::TextBuf;
use outer_world::{Sink, write_whole};

// Writes the line of a refusal, and gives the status.
pub(crate) fn refuse<K: Sink>(why: Refusal, err: &mut K) -> Status
    ensures { IsTold why result (K.state err.old) (K.state err.new) }
{
    match write_whole(err, written_line(&why).bytes()) {
        Ok(()) => status_of(&why),
        Err(_) => Status::WriteFault,
    }
}

// The line that tells of a refusal.
fn written_line(why: &Refusal) -> TextBuf
    ensures { result ≡ fault_line why.now }
{
    let mut text = TextBuf::new();
    text.append(b"daq: ");
    text.append(written_cause(why).bytes());
    text.append(b"\n");
    text
}

// What the line says after the name of the program.
fn written_cause(why: &Refusal) -> TextBuf
    ensures text { result ≡ fault_text why.now }
    ensures short { length result ≤ 500 }
{
    match why {
        Refusal::Usage { place } => with_number(b"usage: word ", *place as u128, b""),
        Refusal::Query(fault) => written_text_fault(fault),
        Refusal::Schema(fault) => written_schema_fault(fault),
        Refusal::TooLong { limit } => with_number(
            b"table refused: longer than ",
            *limit as u128,
            b" bytes",
        ),
        Refusal::Table(fault) => written_table_fault(fault),
        Refusal::TooManyRows => plain(b"table refused: more than 16777216 rows"),
        Refusal::Typing(fault) => written_type_fault(fault),
        Refusal::Reads(fault) => written_reads_fault(fault),
        Refusal::File(fault) => written_file_fault(fault),
        Refusal::PadBits { column, plane } => written_plane(*column, *plane, b" has pad bits"),
        Refusal::OverTop { column, plane, row } => written_over_top(*column, *plane, *row),
        Refusal::Script(fault) => written_script_fault(fault),
        Refusal::LineQuery { line, fault } => {
            written_at_line(*line, written_text_fault(fault).bytes())
        }
        Refusal::LineTyping { line, fault } => {
            written_at_line(*line, written_type_fault(fault).bytes())
        }
        Refusal::Session(fault) => written_session_fault(fault),
        Refusal::Report { parts, fault } => written_report_fault(*parts, fault),
        Refusal::ReadFault => plain(b"read fault"),
        Refusal::WriteFault => plain(b"write fault"),
        Refusal::NoMemory => plain(b"no memory"),
    }
}
