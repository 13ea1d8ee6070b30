//! Columns that are known in part, lent to a reader: all that are kept, or some of them under numbers of their own.

ghost use Rattle.std.specs.Prelude.{◌≡◌, ◌<◌, ◌+◌, length, option_map, All, IfSome};
ghost use Rattle.interval_calc.specs.Intervals.{interval_of};
ghost use Rattle.daq_table.specs.Tables.{ends_at, planes};
ghost use Rattle.query_model.specs.Knowledge.{known_at, ranges_of};
ghost use Rattle.query_model.specs.Truths.{IsInside};
ghost use Rattle.query_model.specs.Validity.{declared_ranges};
ghost use Rattle.known_column.specs.Columns.{rows_of_column};
ghost use Rattle.known_column.specs.KnownTables.{column_at, lent_table, number_of, IsKnownTable};

use crate::known::Known;
use crate::known_columns::KnownColumns;
use interval_calc::Interval;
use query_model::Nullity;
use std::marker::Model;

/// What is declared of some columns and what is known of them, read where it is kept.
#[derive(Drop)]
pub struct LentColumns<'a> {
    columns: &'a KnownColumns,
    // Those that are lent; without a list, all.
    numbers: Option<&'a [usize]>,
}

impl<'a> Model for LentColumns<'a> {
    ghost use Rattle.std.specs.Prelude.{option_map};
    ghost use Rattle.known_column.specs.KnownTables.{lent_of, AreNumbers, KnownTable};

    ghost Value = { KnownTable };

    ghost view = { λ l. lent_of l.columns.now (option_map (λ list. list.now) l.numbers) };

    ghost invariant = { λ l. AreNumbers l.columns.now (option_map (λ list. list.now) l.numbers) };
}

// The number of a lent column where it is kept.
fn kept_number(numbers: Option<&[usize]>, column: usize) -> usize
    requires { IfSome numbers (λ list. column < length list.now) }
    ensures { result ≡ number_of (option_map (λ list. list.now) numbers.entry) column }
{
    match numbers {
        Some(numbers) => numbers[column],
        None => column,
    }
}

impl<'a> LentColumns<'a> {
    // All of these columns.
    pub(crate) fn all(columns: &'a KnownColumns) -> LentColumns<'a>
        ensures { result ≡ columns.now }
    {
        LentColumns {
            columns,
            numbers: None,
        }
    }

    // Those with these numbers.
    pub(crate) fn some(columns: &'a KnownColumns, numbers: &'a [usize]) -> LentColumns<'a>
        requires { All (λ number. number < length columns.now.frame.columns) numbers.now }
        ensures { result ≡ lent_table columns.now numbers.now }
    {
        LentColumns {
            columns,
            numbers: Some(numbers),
        }
    }

    /// The same columns, lent once more.
    pub fn again(&self) -> LentColumns<'a>
        ensures { result ≡ self.now }
    {
        LentColumns {
            columns: self.columns,
            numbers: self.numbers,
        }
    }

    /// The number of rows.
    pub fn rows(&self) -> usize
        ensures rows { result ≡ self.now.frame.rows }
        ensures known { IsKnownTable self.now }
    {
        self.columns.rows()
    }

    /// The number of columns.
    pub fn len(&self) -> usize
        ensures { result ≡ length self.now.frame.columns }
    {
        match self.numbers {
            Some(numbers) => numbers.len(),
            None => self.columns.len(),
        }
    }

    /// One of the columns.
    pub fn column(&self, column: usize) -> &Known
        requires { column < length self.now.frame.columns }
        ensures column { result.now ≡ column_at self.now column }
        ensures rows { rows_of_column result.now ≡ self.now.frame.rows }
    {
        self.columns.column(kept_number(self.numbers, column))
    }

    /// The number of a column's planes that were not read.
    pub fn unread(&self, column: usize) -> u8
        requires { column < length self.now.frame.columns }
        ensures { result + (known_at self.now.known column).read ≡ planes (ends_at self.now.frame column) }
    {
        self.column(column).unread()
    }

    /// Where a row's number in a column lies, if it is not null.
    pub fn range(&self, column: usize, row: usize) -> Interval
        requires column { column < length self.now.frame.columns }
        requires row { row < self.now.frame.rows }
        ensures range { interval_of result ≡ (ranges_of self.now.frame self.now.known row column).numbers }
        ensures within { IsInside (interval_of result) (declared_ranges self.now.frame column).numbers }
    {
        self.column(column).range(row)
    }

    /// Whether a row is null in a column.
    pub fn missing(&self, column: usize, row: usize) -> Nullity
        requires column { column < length self.now.frame.columns }
        requires row { row < self.now.frame.rows }
        ensures { result ≡ (ranges_of self.now.frame self.now.known row column).null }
    {
        self.column(column).missing(row)
    }
}
