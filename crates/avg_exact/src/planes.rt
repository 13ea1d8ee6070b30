//! The rows of an average over a bare column, by blocks of the column's planes.

ghost use Rattle.std.specs.Prelude.{◌≡◌, ◌≤◌, ◌<◌, ◌+◌, ◌*◌, ◌^◌};
ghost use Rattle.std.specs.Prelude.{◌==◌, length, map};
ghost use Rattle.std.specs.List.{count_by};
ghost use Rattle.plane_kernels.specs.Rows.{digit_at, kept_rows};
ghost use Rattle.known_column.specs.Columns.{number_of};
ghost use Rattle.aggregates.specs.Selections.{block_of, sum_where};
ghost use Rattle.avg_exact.specs.Blocks.{beyond_rows, block_column, column_of, is_passed_over, is_sure_row, is_unsure_row, part_rows};
ghost use Rattle.avg_exact.specs.Blocks.{reached_rows, rows_with, IsMeasure, IsOverColumn, IsShort, IsShortPart, MarkUncertain};

use crate::passes::End;
use aggregates::number_planes;
use known_column::Known;
use plane_kernels::Block;
use round_engine::EngineView;

/// Some of the rows: the certain ones, or the uncertain ones that an end reaches.
#[derive(Clone, Copy)]
pub(crate) enum Part {
    Certain,
    Reached(End, u64),
}

/// What some rows come to: their number, the digits of their numbers added up, and how many are at top's prefix.
#[derive(Clone, Copy)]
pub(crate) struct Measure {
    pub(crate) rows: u64,
    pub(crate) numbers: u128,
    pub(crate) at_top: u64,
}

// The certain rows of a block.
fn certain_block(engine: &EngineView<'_>, item: usize, column: usize, block: usize) -> Block
    requires over { IsOverColumn engine.now item column }
    requires block { 512 * block < engine.now.frame.rows }
    ensures { result ≡ block_of block (rows_with engine.now item is_sure_row) }
{
    let must = Block::of_mask(engine.filter().must(), block);
    let sure = Block::of_mask(engine.columns().column(column).sure(), block);
    must.and(&sure)
}

// The uncertain rows of a block.
fn uncertain_block(engine: &EngineView<'_>, item: usize, column: usize, block: usize) -> Block
    requires over { IsOverColumn engine.now item column }
    requires block { 512 * block < engine.now.frame.rows }
    ensures { result ≡ block_of block (rows_with engine.now item is_unsure_row) }
{
    let may = Block::of_mask(engine.filter().may(), block);
    let possible = Block::of_mask(engine.columns().column(column).possible(), block);
    let certain = certain_block(engine, item, column, block);
    may.and(&possible).and_not(&certain)
}

// The rows of `level` that have this digit.
pub(crate) fn keep(level: &Block, digits: &Block, digit: bool) -> Block
    requires { length digits.now ≡ length level.now }
    ensures { result ≡ kept_rows digit level.now digits.now }
{
    if digit {
        level.and(digits)
    } else {
        level.and_not(digits)
    }
}

// The rows beyond, and those of `level` whose digit lies beyond this one.
fn pass(beyond: Block, level: &Block, digits: &Block, digit: bool, end: End) -> Block
    requires digits { length digits.now ≡ length level.now }
    requires beyond { length beyond ≡ length level.now }
    ensures { result ≡ beyond_rows end digit beyond level.now digits.now }
{
    match (end, digit) {
        (End::Low, true) => beyond.or(&level.and_not(digits)),
        (End::High, false) => beyond.or(&level.and(digits)),
        _ => beyond,
    }
}

// A binary digit of a number, counted from the lowest.
fn digit_of(number: u64, place: u8) -> bool
    requires { place < 128 }
    ensures { result ≡ digit_at place number }
{
    u128::from(number) >> place & 1 == 1
}

// The uncertain rows of a block that an end reaches.
fn reached_block(
    engine: &EngineView<'_>,
    item: usize,
    column: usize,
    end: End,
    t: u64,
    block: usize,
) -> Block
    requires over { IsOverColumn engine.now item column }
    requires short { IsShort (column_of engine.now column) t }
    requires block { 512 * block < engine.now.frame.rows }
    ensures { result ≡ block_of block (reached_rows end t (column_of engine.now column) (rows_with engine.now item is_unsure_row)) }
{
    let known = engine.columns().column(column);
    let (from, to) = number_planes(known);
    let mut level = uncertain_block(engine, item, column, block);
    if level.count() == 0 {
        return level;
    }
    let mut beyond = level.and_not(&level);
    for j in from..to {
        let digits = Block::of_plane(known.plane(j), block);
        let digit = digit_of(t, to - j - 1);
        beyond = pass(beyond, &level, &digits, digit, end);
        level = keep(&level, &digits, digit);
    }
    beyond.or(&level)
}

// Some of the rows of a block.
pub(crate) fn part_block(
    engine: &EngineView<'_>,
    item: usize,
    column: usize,
    part: Part,
    block: usize,
) -> Block
    requires over { IsOverColumn engine.now item column }
    requires short { IsShortPart (column_of engine.now column) part }
    requires block { 512 * block < engine.now.frame.rows }
    ensures { result ≡ block_of block (part_rows engine.now item column part) }
{
    match part {
        Part::Certain => certain_block(engine, item, column, block),
        Part::Reached(end, t) => reached_block(engine, item, column, end, t, block),
    }
}

/// Which blocks have an uncertain row, and how many such rows there are.
#[derive(Drop)]
pub(crate) struct Uncertain {
    pub(crate) blocks: [bool; 32768],
    pub(crate) rows: u64,
}

/// Looks for the uncertain rows.
pub(crate) fn find_uncertain(engine: &EngineView<'_>, item: usize, column: usize) -> Uncertain
    requires over { IsOverColumn engine.now item column }
    ensures blocks { MarkUncertain engine.now item result.blocks }
    ensures rows { result.rows ≡ count_by (λ b. b) (rows_with engine.now item is_unsure_row) }
{
    let mut blocks = [false; 32768];
    let mut rows = 0;
    for block in 0..engine.rows().div_ceil(512) {
        let count = uncertain_block(engine, item, column, block).count();
        blocks[block] = count > 0;
        rows += count;
    }
    Uncertain { blocks, rows }
}

/// Whether a block is passed over, since it has no row of that part.
pub(crate) fn is_passed_over(part: Part, blocks: &[bool; 32768], block: usize) -> bool
    requires { block < 32768 }
    ensures { result ≡ is_passed_over part blocks.now block }
{
    match part {
        Part::Certain => false,
        Part::Reached(_, _) => !blocks[block],
    }
}

// The digits of the numbers at some rows of a block, added up as numbers.
fn add_numbers(
    engine: &EngineView<'_>,
    item: usize,
    column: usize,
    part: Part,
    block: usize,
    rows: &Block,
) -> u128
    requires over { IsOverColumn engine.now item column }
    requires block { 512 * block < engine.now.frame.rows }
    requires rows { rows.now ≡ block_of block (part_rows engine.now item column part) }
    ensures sum { result ≡ sum_where rows.now (map (number_of (column_of engine.now column).ends (column_of engine.now column).known.read)
        (block_of block (column_of engine.now column).known.prefixes)) }
    ensures few { result ≤ 2 ^ 88 }
{
    let known = engine.columns().column(column);
    let (from, to) = number_planes(known);
    let mut sum = 0;
    for j in from..to {
        let digits = Block::of_plane(known.plane(j), block);
        sum = 2 * sum + u128::from(rows.and(&digits).count());
    }
    sum
}

// What some of the rows of a block come to.
fn measure_block(
    engine: &EngineView<'_>,
    item: usize,
    column: usize,
    part: Part,
    blocks: &[bool; 32768],
    block: usize,
) -> Measure
    requires over { IsOverColumn engine.now item column }
    requires blocks { MarkUncertain engine.now item blocks.now }
    requires short { IsShortPart (column_of engine.now column) part }
    requires block { 512 * block < engine.now.frame.rows }
    ensures measure { IsMeasure (block_column (column_of engine.now column) block)
        (block_of block (part_rows engine.now item column part)) result }
    ensures rows { result.rows ≤ 512 }
    ensures at_top { result.at_top ≤ 512 }
    ensures numbers { result.numbers ≤ 2 ^ 88 }
{
    if is_passed_over(part, blocks, block) {
        return Measure {
            rows: 0,
            numbers: 0,
            at_top: 0,
        };
    }
    let rows = part_block(engine, item, column, part, block);
    let top = Block::of_mask(engine.columns().column(column).at_top(), block);
    Measure {
        rows: rows.count(),
        numbers: add_numbers(engine, item, column, part, block, &rows),
        at_top: rows.and(&top).count(),
    }
}

/// What some of the rows come to.
pub(crate) fn measure_part(
    engine: &EngineView<'_>,
    item: usize,
    column: usize,
    part: Part,
    blocks: &[bool; 32768],
) -> Measure
    requires over { IsOverColumn engine.now item column }
    requires blocks { MarkUncertain engine.now item blocks.now }
    requires short { IsShortPart (column_of engine.now column) part }
    ensures { IsMeasure (column_of engine.now column) (part_rows engine.now item column part) result }
{
    let mut measure = Measure {
        rows: 0,
        numbers: 0,
        at_top: 0,
    };
    for block in 0..engine.rows().div_ceil(512) {
        let more = measure_block(engine, item, column, part, blocks, block);
        measure.rows += more.rows;
        measure.numbers += more.numbers;
        measure.at_top += more.at_top;
    }
    measure
}
