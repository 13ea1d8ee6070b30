//! `info`: what the head of a file of planes declares.

ghost use Rattle.std.specs.Prelude.{◌≡◌, ◌≤◌, ◌++◌, ◌≤ℤ◌, length, OnOk, IfErr};
ghost use Rattle.daq_table.specs.ValueTexts.{text_of_value};
ghost use Rattle.outer_world.specs.Whole.{HoldsSame, Writes};
ghost use Rattle.plane_file.specs.Format.{CanBeSpelledColumn, CanBeSpelledColumns};
ghost use Rattle.daq_cli.specs.Worlds.{whole};
ghost use Rattle.daq_cli.specs.commands.Info.{InfoCause, Informs, column_front, column_line};
ghost use Rattle.daq_cli.specs.commands.Info.{column_lines, first_line, info_text, kind_text, null_mark};

use crate::fault_lines::{plain, with_number};
use crate::refusal::Refusal;
use daq_report::written_count;
use daq_table::{ColumnHead, Kind, NoRoom, TextBuf, value_text, width};
use outer_world::{Failed, Sink, Store, write_pieces};
use plane_file::{PlaneFile, open};
use std::alloc::Global;

// A kind, as a schema names it.
fn written_kind(kind: Kind) -> TextBuf
    ensures text { result ≡ kind_text kind }
    ensures short { length result ≤ 200 }
{
    match kind {
        Kind::Int => plain(b"int"),
        Kind::Dec(scale) => with_number(b"dec", u128::from(scale), b""),
        Kind::Date => plain(b"date"),
        Kind::Text => plain(b"text"),
    }
}

// The kind of a column, with a mark where its cells may be null.
fn written_type(column: &ColumnHead) -> TextBuf
    ensures text { result ≡ kind_text column.now.kind ++ null_mark column.now.nullable }
    ensures short { length result ≤ 201 }
{
    let mut text = written_kind(column.kind);
    if !column.nullable {
        return text;
    }
    text.append(b"?");
    text
}

// The line of a column, up to its width.
fn written_front(number: u64, column: &ColumnHead) -> TextBuf
    ensures { result ≡ column_front number column.now }
{
    let mut text = TextBuf::new();
    text.append(b"column ");
    text.append(written_count(number).bytes());
    text.append(b" ");
    text.append(column.name.as_slice());
    text.append(b" ");
    text.append(written_type(column).bytes());
    text.append(b" width ");
    text.append(written_count(u64::from(width(column))).bytes());
    text
}

// The text of a number that the column may have.
fn written_value(column: &ColumnHead, value: i64) -> TextBuf
    requires spelled { CanBeSpelledColumn column.now }
    requires above { column.now.base ≤ℤ value }
    requires below { value ≤ℤ column.now.top }
    ensures { result ≡ text_of_value column.now value }
{
    let mut text = TextBuf::new();
    match value_text(column, i128::from(value), &mut text) {
        Ok(()) => text,
        Err(NoRoom) => unreachable!(),
    }
}

// Writes the line of the file as a whole.
fn write_first<K: Sink>(file: &PlaneFile, out: &mut K) -> Result<(), Failed>
    ensures { Writes result (K.state out.old) (K.state out.new) (first_line file.now) }
{
    let version = written_count(u64::from(file.version()));
    let rows = written_count(file.head().rows);
    let columns = written_count(file.head().columns.as_slice().len() as u64);
    write_pieces(
        out,
        &[
            b"version ",
            version.bytes(),
            b" rows ",
            rows.bytes(),
            b" columns ",
            columns.bytes(),
            b"\n",
        ],
    )
}

// Writes the line of a column.
fn write_column<K: Sink>(number: u64, column: &ColumnHead, out: &mut K) -> Result<(), Failed>
    requires { CanBeSpelledColumn column.now }
    ensures { Writes result (K.state out.old) (K.state out.new) (column_line number column.now) }
{
    let front = written_front(number, column);
    let base = written_value(column, column.base);
    let top = written_value(column, column.top);
    write_pieces(
        out,
        &[
            front.bytes(),
            b" from ",
            base.bytes(),
            b" to ",
            top.bytes(),
            b"\n",
        ],
    )
}

// Writes the lines of the columns, numbered from 1.
fn write_columns<K: Sink>(columns: &[ColumnHead], out: &mut K) -> Result<(), Failed>
    requires { CanBeSpelledColumns columns.now }
    ensures { Writes result (K.state out.old) (K.state out.new) (column_lines 1 columns.now) }
{
    for (place, column) in columns.iter().enumerate() {
        write_column(place as u64 + 1, column, out)?;
    }
    Ok(())
}

// Writes what the head of the file declares. Takes no memory.
fn write_info<K: Sink>(file: &PlaneFile, out: &mut K) -> Result<(), Failed>
    ensures { Writes result (K.state out.old) (K.state out.new) (info_text file.now) }
{
    write_first(file, out)?;
    write_columns(file.head().columns.as_slice(), out)
}

// Opens the file, and writes its lines. All memory is taken before the first of them.
pub(crate) fn carry_out<P: Store, K: Sink>(
    alloc: Global,
    planes: &mut P,
    out: &mut K,
) -> Result<(), Refusal>
    ensures done { OnOk result (Informs whole (P.state planes.old) (P.state planes.new) (K.state out.old) (K.state out.new)) }
    ensures refused { IfErr result (InfoCause (P.state planes.old) (P.state planes.new) (K.state out.old) (K.state out.new)) }
    ensures same { HoldsSame (P.state planes.old) (P.state planes.new) }
{
    let file = open(alloc, planes)?;
    write_info(&file, out)?;
    Ok(())
}
