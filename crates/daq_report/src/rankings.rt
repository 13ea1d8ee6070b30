//! The lines of a ranking: how many rows are among the first for certain and how many perhaps, and these rows.

ghost use Rattle.std.specs.Prelude.{◌≡◌, ◌≤◌, ◌<◌, ◌+◌, ◌*◌, ◌-◌, ◌++◌, false, length, min};
ghost use Rattle.daq_table.specs.ValueTexts.{HeadHasTexts};
ghost use Rattle.outer_world.specs.Whole.{Writes};
ghost use Rattle.query_model.specs.Knowledge.{ranges_of};
ghost use Rattle.query_model.specs.Validity.{FitsHead, IsTop};
ghost use Rattle.query_model.specs.declared.query.Face.TheVariants.{OfColumn};
ghost use Rattle.round_engine.specs.Promises.{IsShownWithin};
ghost use Rattle.daq_report.specs.Rankings.{AreHidden, bound_of_range, certain_count, is_untold, lists_possible, possible_count};
ghost use Rattle.daq_report.specs.Rankings.{ranking_text, row_line, row_start, row_text, rows_text, standing_at, told_text};
ghost use Rattle.daq_report.specs.Rankings.{top_line, untold_line};

use crate::gathered::Gathered;
use crate::intervals::append_bound;
use crate::texts::written_count;
use daq_table::{Head, TextBuf};
use outer_world::{Failed, Sink, write_whole};
use plane_schedule::{FEW_ROWS, Listing};
use query_model::{Bound, Face, Standing};
use round_engine::EngineView;

// The line of the numbers of rows.
fn written_top(engine: &EngineView<'_>, limit: u32) -> TextBuf
    requires { IsTop engine.now.query.shape }
    ensures { result ≡ top_line engine.now limit }
{
    let mut text = TextBuf::new();
    text.append(b"top ");
    text.append(written_count(u64::from(limit)).bytes());
    text.append(b" certain ");
    text.append(written_count(engine.certain_rows().count()).bytes());
    text.append(b" possible ");
    text.append(written_count(engine.possible_rows().count()).bytes());
    text.append(b"\n");
    text
}

// The line in place of the rows and their numbers.
fn written_untold(limit: u32) -> TextBuf
    ensures { result ≡ untold_line limit }
{
    let mut text = TextBuf::new();
    text.append(b"top ");
    text.append(written_count(u64::from(limit)).bytes());
    text.append(b" certain 0\n");
    text
}

// Whether possible rows are listed too.
fn lists_possible(listing: Listing) -> bool
    ensures { result ≡ lists_possible listing }
{
    match listing {
        Listing::Certain => false,
        Listing::All | Listing::Few => true,
    }
}

// Whether so many rows may be among the first that none is told.
fn is_untold(engine: &EngineView<'_>, listing: Listing) -> bool
    requires { IsTop engine.now.query.shape }
    ensures { result ≡ is_untold listing (certain_count engine.now + possible_count engine.now) }
{
    match listing {
        Listing::Certain | Listing::All => false,
        Listing::Few => {
            let certain = engine.certain_rows().count();
            let possible = engine.possible_rows().count();
            certain.saturating_add(possible) > FEW_ROWS as u64
        }
    }
}

// The front of the line of a row: rows are counted from 1.
fn written_row(row: usize, standing: &[u8]) -> TextBuf
    requires row { row < 16777216 }
    requires short { length standing.now ≤ 100 }
    ensures text { result ≡ row_start standing.now row }
    ensures few { length result ≤ 210 }
{
    let mut text = TextBuf::new();
    text.append(b"row ");
    text.append(written_count(row as u64 + 1).bytes());
    text.append(standing);
    text
}

// Where the sort key of a row lies.
fn sort_bound(engine: &EngineView<'_>, key: u8, row: usize) -> Bound
    requires key { key < length engine.now.query.columns }
    requires row { row < engine.now.frame.rows }
    ensures bound { result ≡ bound_of_range (ranges_of engine.now.frame engine.now.known row key) }
    ensures shown { IsShownWithin engine.now.frame (OfColumn key) result }
{
    let numbers = engine.range(usize::from(key), row);
    Bound {
        null: engine.null_at(usize::from(key), row),
        lo: numbers.lo,
        hi: numbers.hi,
    }
}

// Appends the line of a row.
fn append_row(
    engine: &EngineView<'_>,
    head: &Head,
    key: u8,
    row: usize,
    standing: &[u8],
    lines: &mut Gathered,
)
    requires fits { FitsHead engine.now.query engine.now.frame head.now }
    requires texts { HeadHasTexts head.now }
    requires key { key < length engine.now.query.columns }
    requires row { row < engine.now.frame.rows }
    requires short { length standing.now ≤ 100 }
    requires room { length lines.old + 1536 ≤ 98304 }
    ensures text { lines.new ≡ lines.old ++ row_line head.now engine.now key standing.now row }
    ensures few { length lines.new ≤ length lines.old + 1536 }
{
    let bound = sort_bound(engine, key, row);
    let query = engine.query();
    lines.append(written_row(row, standing).bytes());
    append_bound(head, query, Face::OfColumn(key), &bound, lines);
    lines.append(b"\n");
}

// Appends the line of a row, if it is shown.
fn append_standing(
    engine: &EngineView<'_>,
    head: &Head,
    key: u8,
    list: bool,
    row: usize,
    lines: &mut Gathered,
)
    requires fits { FitsHead engine.now.query engine.now.frame head.now }
    requires texts { HeadHasTexts head.now }
    requires ranked { IsTop engine.now.query.shape }
    requires key { key < length engine.now.query.columns }
    requires row { row < engine.now.frame.rows }
    requires room { length lines.old + 1536 ≤ 98304 }
    ensures text { lines.new ≡ lines.old ++ row_text head.now engine.now key list row (standing_at engine.now row) }
    ensures few { length lines.new ≤ length lines.old + 1536 }
{
    match engine.standing(row) {
        Standing::Certain => append_row(engine, head, key, row, b" certain ", lines),
        Standing::Possible if list => append_row(engine, head, key, row, b" possible ", lines),
        Standing::Possible | Standing::Excluded => (),
    }
}

// Whether a row of a block of 64 may be shown.
fn may_show(engine: &EngineView<'_>, list: bool, block: usize) -> bool
    requires ranked { IsTop engine.now.query.shape }
    requires block { 64 * block < engine.now.frame.rows }
    ensures { result ≡ false → AreHidden engine.now list (64 * block) (min 64 (engine.now.frame.rows - 64 * block)) }
{
    engine.certain_rows().word(block) != 0 || list && engine.possible_rows().word(block) != 0
}

// Gathers the lines of a block of 64 rows. Where none is shown, no row is looked at.
fn gather_rows(
    engine: &EngineView<'_>,
    head: &Head,
    key: u8,
    list: bool,
    block: usize,
    lines: &mut Gathered,
)
    requires fits { FitsHead engine.now.query engine.now.frame head.now }
    requires texts { HeadHasTexts head.now }
    requires ranked { IsTop engine.now.query.shape }
    requires key { key < length engine.now.query.columns }
    requires block { 64 * block < engine.now.frame.rows }
    ensures { lines.new ≡ rows_text head.now engine.now key list (64 * block) (min 64 (engine.now.frame.rows - 64 * block)) }
{
    lines.clear();
    if !may_show(engine, list, block) {
        return;
    }
    let first = 64 * block;
    let count = (engine.certain_rows().rows() - first).min(64);
    for place in 0..count {
        append_standing(engine, head, key, list, first + place, lines);
    }
}

// Writes the lines of the rows, in order, those of a block together.
fn write_rows<K: Sink>(
    engine: &EngineView<'_>,
    head: &Head,
    key: u8,
    list: bool,
    out: &mut K,
) -> Result<(), Failed>
    requires fits { FitsHead engine.now.query engine.now.frame head.now }
    requires texts { HeadHasTexts head.now }
    requires ranked { IsTop engine.now.query.shape }
    requires key { key < length engine.now.query.columns }
    ensures { Writes result (K.state out.old) (K.state out.new) (rows_text head.now engine.now key list 0 engine.now.frame.rows) }
{
    let mut lines = Gathered::new();
    let blocks = engine.certain_rows().rows().div_ceil(64);
    for block in 0..blocks {
        gather_rows(engine, head, key, list, block, &mut lines);
        write_whole(out, lines.bytes())?;
    }
    Ok(())
}

// Writes how many rows are among the first, and these rows.
fn write_told<K: Sink>(
    engine: &EngineView<'_>,
    head: &Head,
    key: u8,
    limit: u32,
    list: bool,
    out: &mut K,
) -> Result<(), Failed>
    requires fits { FitsHead engine.now.query engine.now.frame head.now }
    requires texts { HeadHasTexts head.now }
    requires ranked { IsTop engine.now.query.shape }
    requires key { key < length engine.now.query.columns }
    ensures { Writes result (K.state out.old) (K.state out.new) (told_text head.now engine.now key limit list) }
{
    write_whole(out, written_top(engine, limit).bytes())?;
    write_rows(engine, head, key, list, out)
}

// Writes them, or that they are not told.
pub(crate) fn write_ranking<K: Sink>(
    engine: &EngineView<'_>,
    head: &Head,
    key: u8,
    limit: u32,
    listing: Listing,
    out: &mut K,
) -> Result<(), Failed>
    requires fits { FitsHead engine.now.query engine.now.frame head.now }
    requires texts { HeadHasTexts head.now }
    requires ranked { IsTop engine.now.query.shape }
    requires key { key < length engine.now.query.columns }
    ensures { Writes result (K.state out.old) (K.state out.new) (ranking_text head.now engine.now key limit listing) }
{
    if is_untold(engine, listing) {
        write_whole(out, written_untold(limit).bytes())
    } else {
        write_told(engine, head, key, limit, lists_possible(listing), out)
    }
}
