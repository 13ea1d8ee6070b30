//! A column while its CSV is read: its values, and which of its cells are null.

ghost use Rattle.std.specs.Prelude.{◌≡◌, IfOk, OnOk, IfErr, []};
ghost use Rattle.csv_load.specs.Columns.{is_null};
ghost use Rattle.csv_load.specs.States.{IsFinished, IsWhole, RefusesCell, Takes, emptied, state_of, state_with};

use crate::fault::TableFault;
use crate::filling::cells_of;
use crate::place::Place;
use crate::values::Values;
use daq_table::{ColumnHead, Kind, Name};
use std::alloc::{AllocError, Global};
use std::marker::Model;
use std::mem;

/// The values of a column, and for a nullable one which of its cells are null.
#[derive(Drop)]
pub(crate) struct Column {
    nullable: bool,
    values: Values,
    nulls: Vec<bool>,
}

impl Model for Column {
    ghost use Rattle.csv_load.specs.States.{State};

    ghost Value = { State };

    ghost view = { λ c. record { nullable = c.nullable; kept = c.values; nulls = c.nulls.items } };
}

// Whether a text is null.
fn is_null(nullable: bool, text: &[u8]) -> bool
    ensures { result ≡ is_null nullable text.now }
{
    nullable && text.is_empty()
}

impl Column {
    /// A column without cells.
    pub(crate) fn new(alloc: Global, kind: Kind, nullable: bool) -> Column
        ensures { result ≡ state_of kind nullable [] }
    {
        Column {
            nullable,
            values: Values::new(alloc, kind),
            nulls: Vec::new(alloc),
        }
    }

    /// Takes the next cell, if it is null, or a value of the column's kind that brings no name past the limit.
    pub(crate) fn take(
        &mut self,
        alloc: Global,
        text: &[u8],
        limit: u64,
        place: Place,
    ) -> Result<(), TableFault>
        ensures ok { OnOk result (Takes limit self.old text.now) }
        ensures taken { OnOk result (self.new ≡ state_with self.old text.now) }
        ensures err { IfErr result (RefusesCell limit place.entry place.column self.old text.now) }
    {
        if is_null(self.nullable, text) {
            self.nulls.push(true)?;
            return Ok(());
        }
        self.values.take(alloc, text, limit, place)?;
        if self.nullable {
            self.nulls.push(false)?;
        }
        Ok(())
    }

    /// The column's head under that name, and the numbers and marks of its cells. The column is left without them, as
    /// one of integers.
    pub(crate) fn finish(
        &mut self,
        alloc: Global,
        name: Name,
    ) -> Result<(ColumnHead, Vec<u64>, Vec<bool>), AllocError>
        requires { IsWhole self.old }
        ensures column { IfOk result (λ column. IsFinished self.old name column.0 column.1.items column.2.items) }
        ensures left { self.new ≡ emptied self.old }
    {
        let values = mem::replace(&mut self.values, Values::new(alloc, Kind::Int));
        let nulls = mem::replace(&mut self.nulls, Vec::new(alloc));
        let (head, numbers) = values.finish(alloc, name, self.nullable)?;
        let cells = cells_of(alloc, self.nullable, numbers, &nulls)?;
        Ok((head, cells, nulls))
    }
}
