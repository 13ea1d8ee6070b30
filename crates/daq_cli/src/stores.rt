//! A table is written as a file of planes, and a line says how large it is.

ghost use Rattle.std.specs.Prelude.{◌≡◌, OnOk, IfErr, length};
ghost use Rattle.outer_world.specs.Whole.{Writes};
ghost use Rattle.plane_file.specs.Format.{CanBeSpelled, file};
ghost use Rattle.daq_cli.specs.Stores.{StoreCause, WritesTable, table_line};
ghost use Rattle.daq_cli.specs.Worlds.{whole};

use crate::refusal::Refusal;
use daq_report::written_count;
use daq_table::Table;
use outer_world::{Failed, Sink, write_pieces};
use plane_file::{plane_count, write};
use std::alloc::Global;

// Writes the line that says what was done, and how large the table and its file are.
fn write_line<K: Sink>(word: &[u8], table: &Table, bytes: u64, out: &mut K) -> Result<(), Failed>
    requires { bytes ≡ length (file 2 table.now) }
    ensures { Writes result (K.state out.old) (K.state out.new) (table_line word.now table.now) }
{
    let head = table.head();
    let rows = written_count(head.rows);
    let columns = written_count(head.columns.as_slice().len() as u64);
    let planes = written_count(plane_count(head));
    let bytes = written_count(bytes);
    write_pieces(
        out,
        &[
            word,
            b" ",
            rows.bytes(),
            b" rows, ",
            columns.bytes(),
            b" columns, ",
            planes.bytes(),
            b" planes, ",
            bytes.bytes(),
            b" bytes\n",
        ],
    )
}

// Writes the file of a table, and then a line that begins with the word. All memory is taken before the file's first byte.
pub(crate) fn store_table<K: Sink>(
    alloc: Global,
    word: &[u8],
    table: &Table,
    made: &mut K,
    out: &mut K,
) -> Result<(), Refusal>
    requires spelled { CanBeSpelled table.now.head }
    ensures done { OnOk result (WritesTable word.now table.now whole
        (K.state made.old) (K.state made.new) (K.state out.old) (K.state out.new)) }
    ensures refused { IfErr result (StoreCause word.now table.now
        (K.state made.old) (K.state made.new) (K.state out.old) (K.state out.new)) }
{
    let size = write(alloc, table, made)?;
    write_line(word, table, size, out)?;
    Ok(())
}
