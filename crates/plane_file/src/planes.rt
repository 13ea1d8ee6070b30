//! The planes of a table, cut from its cells and written.

ghost use Rattle.std.specs.Prelude.{◌≡◌, ◌<◌, ◌≤◌, ◌+◌, ◌-◌, ◌/◌, length};
ghost use Rattle.daq_table.specs.Tables.{ends_at, frame_of, planes};
ghost use Rattle.outer_world.specs.Whole.{Writes};
ghost use Rattle.plane_kernels.specs.Bytes.{bytes_of_rows, word_count};
ghost use Rattle.query_model.specs.Knowledge.{plane_of};
ghost use Rattle.plane_file.specs.ByteDigits.{HoldBlocks, HoldNext, digit_blocks, plane_of_digit};
ghost use Rattle.plane_file.specs.Format.{column_planes, plane_size, planes_bytes};

use crate::byte_digits::{cut_byte, store_digit};
use daq_table::{Table, planes, width};
use known_column::cut;
use outer_world::{Failed, Sink, write_whole};
use plane_kernels::Plane;

// How many planes a column has.
fn planes_of(table: &Table, column: usize) -> u8
    requires { column < length table.now.head.columns }
    ensures { result ≡ planes (ends_at (frame_of table.now.head) column) }
{
    planes(&table.head().columns.as_slice()[column])
}

// Cuts the byte of the digit at that place, counted from the highest, unless it was cut for the place before.
fn cut_next(cells: &[u64], width: u8, place: u8, blocks: &mut [[u64; 8]])
    requires place { place < width }
    requires width { width ≤ 64 }
    requires size { length blocks.old ≡ word_count (length cells.now) }
    requires kept { HoldNext cells.now width place blocks.old }
    ensures { blocks.new ≡ digit_blocks (length blocks.old) ((width - (place + 1)) / 8) cells.now }
{
    let shift = width - (place + 1);
    if place == 0 || shift % 8 == 7 {
        cut_byte(cells, shift / 8, blocks);
    }
}

// The bytes of the plane of the digit at that place.
fn cut_digit(cells: &[u64], width: u8, place: u8, blocks: &mut [[u64; 8]], out: &mut [u8])
    requires place { place < width }
    requires width { width ≤ 64 }
    requires blocks { length blocks.old ≡ word_count (length cells.now) }
    requires out { length out.old ≡ plane_size (length cells.now) }
    requires kept { HoldNext cells.now width place blocks.old }
    ensures bytes { out.new ≡ bytes_of_rows (plane_of_digit width place cells.now) }
    ensures kept { HoldNext cells.now width (place + 1) blocks.new }
{
    cut_next(cells, width, place, blocks);
    store_digit(blocks, (width - (place + 1)) % 8, out);
}

// The bytes of a plane of a column, by the plane and the blocks that are lent, which hold what was cut for the plane before.
fn cut_plane(
    table: &Table,
    column: usize,
    number: u8,
    plane: &mut Plane,
    blocks: &mut [[u64; 8]],
    out: &mut [u8],
)
    requires column { column < length table.now.head.columns }
    requires number { number < planes (ends_at (frame_of table.now.head) column) }
    requires rows { length plane.old ≡ table.now.head.rows }
    requires blocks { length blocks.old ≡ word_count table.now.head.rows }
    requires out { length out.old ≡ plane_size table.now.head.rows }
    requires kept { HoldBlocks table.now column number blocks.old }
    ensures bytes { out.new ≡ bytes_of_rows (plane_of (frame_of table.now.head) table.now.cells column number) }
    ensures kept { HoldBlocks table.now column (number + 1) blocks.new }
    ensures rows { length plane.new ≡ length plane.old }
{
    let head = &table.head().columns.as_slice()[column];
    let digits = width(head);
    if !head.nullable {
        cut_digit(table.column(column), digits, number, blocks, out);
    } else if number == 0 {
        cut(table, column, number, plane);
        plane.store(out);
    } else {
        cut_digit(table.column(column), digits, number - 1, blocks, out);
    }
}

// Writes the planes of a column, from the highest digit on, each by the plane, the blocks and the bytes that are lent.
fn write_column<K: Sink>(
    table: &Table,
    column: usize,
    plane: &mut Plane,
    blocks: &mut [[u64; 8]],
    bytes: &mut [u8],
    sink: &mut K,
) -> Result<(), Failed>
    requires column { column < length table.now.head.columns }
    requires rows { length plane.old ≡ table.now.head.rows }
    requires blocks { length blocks.old ≡ word_count table.now.head.rows }
    requires size { length bytes.old ≡ plane_size table.now.head.rows }
    ensures rows { length plane.new ≡ length plane.old }
    ensures written { Writes result (K.state sink.old) (K.state sink.new) (column_planes (frame_of table.now.head) table.now.cells column) }
{
    for number in 0..planes_of(table, column) {
        cut_plane(table, column, number, plane, blocks, bytes);
        write_whole(sink, bytes)?;
    }
    Ok(())
}

// Writes the planes of all columns, in order.
pub(crate) fn write_planes<K: Sink>(
    table: &Table,
    plane: &mut Plane,
    blocks: &mut [[u64; 8]],
    bytes: &mut [u8],
    sink: &mut K,
) -> Result<(), Failed>
    requires rows { length plane.old ≡ table.now.head.rows }
    requires blocks { length blocks.old ≡ word_count table.now.head.rows }
    requires size { length bytes.old ≡ plane_size table.now.head.rows }
    ensures { Writes result (K.state sink.old) (K.state sink.new) (planes_bytes table.now) }
{
    for column in 0..table.head().columns.as_slice().len() {
        write_column(table, column, plane, blocks, bytes, sink)?;
    }
    Ok(())
}
