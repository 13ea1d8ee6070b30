//! Blocks of 64 rows of several columns, to be read row by row.

ghost use Rattle.std.specs.Prelude.{◌≡◌, ◌<◌, ◌*◌, length, map, IfOk};
ghost use Rattle.std.specs.List.{range_with_len};
ghost use Rattle.interval_calc.specs.Intervals.{interval_of};
ghost use Rattle.daq_table.specs.Tables.{ends_at};
ghost use Rattle.query_model.specs.Knowledge.{ranges_of};
ghost use Rattle.query_model.specs.Truths.{IsInside};
ghost use Rattle.query_model.specs.Validity.{declared_ranges};
ghost use Rattle.known_column.specs.Columns.{rows_of_column, unread_column};
ghost use Rattle.known_column.specs.KnownTables.{column_at, IsKnownTable};
ghost use Rattle.known_column.specs.RowBlocks.{block_of, block_of_column, BlocksHaveTheirRows};

use crate::column_block::ColumnBlock;
use crate::lent_columns::LentColumns;
use interval_calc::Interval;
use query_model::Nullity;
use std::alloc::{AllocError, Global};
use std::marker::Model;

/// What is known of a block of 64 rows, or of as many as are left, of several columns.
pub struct RowBlock {
    rows: usize,
    columns: Vec<ColumnBlock>,
}

// A call of its own: a derived drop is proved anew wherever one is let go.
impl Drop for RowBlock {
    fn drop(self) {
        let RowBlock {
            rows: _,
            columns: _,
        } = self;
    }
}

impl Model for RowBlock {
    ghost use Rattle.known_column.specs.KnownTables.{table_of, IsKnownTable, KnownTable};

    ghost Value = { KnownTable };

    ghost view = { λ b. table_of b.rows b.columns.items };

    ghost invariant = { λ b. IsKnownTable (table_of b.rows b.columns.items) };
}

// Room for a block of each column.
fn open_each(alloc: Global, columns: &LentColumns<'_>) -> Result<Vec<ColumnBlock>, AllocError>
    ensures { IfOk result (λ blocks. blocks.items
        ≡ map (λ c. unread_column (ends_at columns.now.frame c) 0) (range_with_len 0 (length columns.now.frame.columns))) }
{
    let mut blocks = Vec::with_capacity(alloc, columns.len())?;
    for c in 0..columns.len() {
        blocks.push(ColumnBlock::open(columns.column(c)))?;
    }
    Ok(blocks)
}

// Reads a block of each column.
fn read_each(blocks: &mut [ColumnBlock], columns: &LentColumns<'_>, block: usize)
    requires columns { length blocks.old ≡ length columns.now.frame.columns }
    requires block { 64 * block < columns.now.frame.rows }
    ensures { blocks.new
        ≡ map (λ c. block_of_column (column_at columns.now c) block) (range_with_len 0 (length columns.now.frame.columns)) }
{
    for c in 0..columns.len() {
        blocks[c].read(columns.column(c), block);
    }
}

impl RowBlock {
    /// Room for a block of these columns. All of it is taken here.
    pub fn open(alloc: Global, columns: &LentColumns<'_>) -> Result<RowBlock, AllocError>
        ensures { IfOk result (λ block. block.frame.columns ≡ columns.now.frame.columns) }
    {
        let blocks = open_each(alloc, columns)?;
        Ok(RowBlock {
            rows: 0,
            columns: blocks,
        })
    }

    /// Reads the rows of a block: from row 64 * block on.
    pub fn read(&mut self, columns: &LentColumns<'_>, block: usize)
        requires same { self.old.frame.columns ≡ columns.now.frame.columns }
        requires block { 64 * block < columns.now.frame.rows }
        ensures { self.new ≡ block_of columns.now block }
    {
        read_each(&mut self.columns, columns, block);
        self.rows = (columns.rows() - 64 * block).min(64);
    }

    /// The number of rows.
    pub fn rows(&self) -> usize
        ensures rows { result ≡ self.now.frame.rows }
        ensures known { IsKnownTable self.now }
    {
        self.rows
    }

    // The block of a column.
    fn column(&self, column: usize) -> &ColumnBlock
        requires { column < length self.now.frame.columns }
        ensures column { result.now ≡ column_at self.now column }
        ensures rows { rows_of_column result.now ≡ self.now.frame.rows }
    {
        &self.columns[column]
    }

    /// Where a row's number in a column lies, if it is not null.
    pub fn range(&self, column: usize, row: usize) -> Interval
        requires column { column < length self.now.frame.columns }
        requires row { row < self.now.frame.rows }
        ensures range { interval_of result ≡ (ranges_of self.now.frame self.now.known row column).numbers }
        ensures within { IsInside (interval_of result) (declared_ranges self.now.frame column).numbers }
    {
        self.column(column).range(row)
    }

    /// Whether a row is null in a column.
    pub fn missing(&self, column: usize, row: usize) -> Nullity
        requires column { column < length self.now.frame.columns }
        requires row { row < self.now.frame.rows }
        ensures { result ≡ (ranges_of self.now.frame self.now.known row column).null }
    {
        self.column(column).missing(row)
    }
}

/// A row of a block is known by the ranges that it has in the table.
pub fn blocks_have_their_rows()
    ensures { BlocksHaveTheirRows }
{}
