//! Several columns of a table that are known in part.

ghost use Rattle.std.specs.Prelude.{◌≡◌, ◌<◌, ◌+◌, length, All, IfOk, OnOk, IfErr, OnErr};
ghost use Rattle.std.specs.List.{AllByRecursion};
ghost use Rattle.daq_table.specs.Tables.{ends_at, frame_of, planes};
ghost use Rattle.query_model.specs.Knowledge.{known_at, CanTake};
ghost use Rattle.known_column.specs.Columns.{rows_of_column, IsFirstOver};
ghost use Rattle.known_column.specs.KnownTables.{column_at, frame_at, lent_table, read_column, unread_columns, unread_table, IsKnownTable};

use crate::known::{Known, OverTop};
use crate::lent_columns::LentColumns;
use daq_table::Head;
use plane_kernels::Plane;
use std::alloc::{AllocError, Global};
use std::marker::Model;

/// What is declared of some columns of a table, and what is known of them after some of their planes. They are numbered
/// in the order in which they were named.
#[derive(Drop)]
pub struct KnownColumns {
    rows: usize,
    columns: Vec<Known>,
}

impl Model for KnownColumns {
    ghost use Rattle.known_column.specs.KnownTables.{table_of, IsKnownTable, KnownTable};

    ghost Value = { KnownTable };

    ghost view = { λ k. table_of k.rows k.columns.items };

    ghost invariant = { λ k. IsKnownTable (table_of k.rows k.columns.items) };
}

// A known column for each of these places of a table.
fn open_each(alloc: Global, places: &[usize], head: &Head) -> Result<Vec<Known>, AllocError>
    requires { AllByRecursion (λ place. place < length head.now.columns) places.now }
    ensures { IfOk result (λ columns. columns.items ≡ unread_columns (frame_of head.now) places.now) }
{
    let rows = head.rows as usize;
    let mut columns = Vec::with_capacity(alloc, places.len())?;
    for place in places {
        columns.push(Known::open(alloc, &head.columns.as_slice()[*place], rows)?)?;
    }
    Ok(columns)
}

impl KnownColumns {
    /// The columns at these places of a table with that head, of which nothing is read. All room is taken here.
    pub fn open(alloc: Global, places: &[usize], head: &Head) -> Result<KnownColumns, AllocError>
        requires { AllByRecursion (λ place. place < length head.now.columns) places.now }
        ensures { IfOk result (λ columns. columns ≡ unread_table (frame_at (frame_of head.now) places.now)) }
    {
        let columns = open_each(alloc, places, head)?;
        Ok(KnownColumns {
            rows: head.rows as usize,
            columns,
        })
    }

    /// Reads the next plane of a column. Refused, with nothing changed, where a row's prefix would then be that of no cell.
    pub fn take(&mut self, column: usize, plane: &Plane) -> Result<(), OverTop>
        requires column { column < length self.old.frame.columns }
        requires unread { (known_at self.old.known column).read < planes (ends_at self.old.frame column) }
        requires rows { length plane.now ≡ self.old.frame.rows }
        ensures taken { OnOk result (self.new ≡ read_column self.old column plane.now) }
        ensures legal { OnOk result (CanTake self.old.frame self.old.known column plane.now) }
        ensures unchanged { OnErr result (self.new ≡ self.old) }
        ensures over { IfErr result (λ e. IsFirstOver (column_at self.old column) plane.now e.row) }
    {
        self.columns[column].take(plane)
    }

    /// The number of rows.
    pub fn rows(&self) -> usize
        ensures rows { result ≡ self.now.frame.rows }
        ensures known { IsKnownTable self.now }
    {
        self.rows
    }

    /// The number of columns.
    pub fn len(&self) -> usize
        ensures { result ≡ length self.now.frame.columns }
    {
        self.columns.len()
    }

    /// One of the columns.
    pub fn column(&self, column: usize) -> &Known
        requires { column < length self.now.frame.columns }
        ensures column { result.now ≡ column_at self.now column }
        ensures rows { rows_of_column result.now ≡ self.now.frame.rows }
    {
        &self.columns[column]
    }

    /// The number of a column's planes that were not read.
    pub fn unread(&self, column: usize) -> u8
        requires { column < length self.now.frame.columns }
        ensures { result + (known_at self.now.known column).read ≡ planes (ends_at self.now.frame column) }
    {
        self.column(column).unread()
    }

    /// Lends all columns.
    pub fn lend(&self) -> LentColumns<'_>
        ensures { result ≡ self.now }
    {
        LentColumns::all(self)
    }

    /// Lends the columns with these numbers, numbered anew in the order of the list.
    pub fn lend_some<'a>(&'a self, numbers: &'a [usize]) -> LentColumns<'a>
        requires { All (λ number. number < length self.now.frame.columns) numbers.now }
        ensures { result ≡ lent_table self.now numbers.now }
    {
        LentColumns::some(self, numbers)
    }
}
