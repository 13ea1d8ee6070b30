//! The values of a column while its CSV is read: its cells that are not null.

ghost use Rattle.std.specs.Prelude.{◌≡◌, if◌then◌else◌};
ghost use Rattle.std.specs.Prelude.{IfOk, IfSome, OnOk, IfErr, [], true, false};
ghost use Rattle.std.specs.Option.{SomeIff};
ghost use Rattle.daq_table.specs.CellTexts.{IsCellText, cell_number};
ghost use Rattle.daq_table.specs.declared.head.Kind.TheVariants.{Text};
ghost use Rattle.daq_table.specs.ColumnFacts.{is_text};
ghost use Rattle.csv_load.specs.States.{HasValues, IsComplete, RefusesValue, TakesValue, kept_of, kept_with};

use crate::fault::TableFault;
use crate::place::Place;
use crate::plain_cells::{plain_date, plain_dec, plain_int};
use crate::texts::Texts;
use daq_table::{
    ColumnHead, Kind, Name, become_distances, cell_value, greatest_number, least_number, raise,
};
use std::alloc::{AllocError, Global};
use std::marker::Model;

/// The values that were read of a column, numbers raised. Texts wait for their ranks until the whole dictionary is known.
#[derive(Drop)]
pub(crate) struct Values {
    kind: Kind,
    numbers: Vec<u64>,
    texts: Texts,
}

impl Model for Values {
    ghost use Rattle.std.specs.Prelude.{map};
    ghost use Rattle.daq_table.specs.Dictionaries.{distinct};
    ghost use Rattle.daq_table.specs.Raised.{lowered};
    ghost use Rattle.csv_load.specs.States.{Kept};

    ghost Value = { Kept };

    ghost view = { λ c. record {
      kind = c.kind;
      numbers = map lowered c.numbers.items;
      texts = c.texts;
      names = distinct c.texts;
    } };
}

// The number of a cell of the kind in its plainest form. None where it may have another form, and for a text.
fn plain_value(kind: &Kind, text: &[u8]) -> Option<i64>
    ensures cell { IfSome result (λ _. IsCellText kind.now text.now) }
    ensures value { IfSome result (λ z. z ≡ cell_number kind.now text.now) }
{
    match kind {
        Kind::Int => plain_int(text),
        Kind::Dec(scale) => plain_dec(*scale, text),
        Kind::Date => plain_date(text),
        Kind::Text => None,
    }
}

// The same in any form.
fn any_value(kind: &Kind, text: &[u8]) -> Option<i64>
    ensures { SomeIff result (IsCellText kind.now text.now) (cell_number kind.now text.now) }
{
    match kind {
        Kind::Int => cell_value(kind, text),
        Kind::Dec(_) => cell_value(kind, text),
        Kind::Date => cell_value(kind, text),
        Kind::Text => None,
    }
}

// The number of a cell that is no text.
fn number_of(kind: &Kind, text: &[u8]) -> Option<i64>
    ensures { SomeIff result (IsCellText kind.now text.now) (cell_number kind.now text.now) }
{
    match plain_value(kind, text) {
        Some(number) => Some(number),
        None => any_value(kind, text),
    }
}

// The numbers of a column's values, raised: those that were read, and for texts their ranks.
fn values_of(kind: Kind, numbers: Vec<u64>, ranks: Vec<u64>) -> Vec<u64>
    ensures { result.items ≡ (if is_text kind then ranks.items else numbers.items) }
{
    match kind {
        Kind::Int => numbers,
        Kind::Dec(_) => numbers,
        Kind::Date => numbers,
        Kind::Text => ranks,
    }
}

impl Values {
    /// No values of that kind.
    pub(crate) fn new(alloc: Global, kind: Kind) -> Values
        ensures { result ≡ kept_of kind [] }
    {
        Values {
            kind,
            numbers: Vec::new(alloc),
            texts: Texts::new(alloc),
        }
    }

    /// Takes the next value, if it is one of the kind and brings no name past the limit.
    pub(crate) fn take(
        &mut self,
        alloc: Global,
        text: &[u8],
        limit: u64,
        place: Place,
    ) -> Result<(), TableFault>
        ensures ok { OnOk result (TakesValue limit self.old text.now) }
        ensures taken { OnOk result (self.new ≡ kept_with self.old text.now) }
        ensures err { IfErr result (RefusesValue limit place.entry place.column self.old text.now) }
    {
        match self.kind {
            Kind::Int => self.take_number(text, place),
            Kind::Dec(_) => self.take_number(text, place),
            Kind::Date => self.take_number(text, place),
            Kind::Text => self.take_text(alloc, text, limit, place),
        }
    }

    // The same for a column of numbers.
    fn take_number(&mut self, text: &[u8], place: Place) -> Result<(), TableFault>
        requires { is_text self.old.kind ≡ false }
        ensures ok { OnOk result (IsCellText self.old.kind text.now) }
        ensures taken { OnOk result (self.new ≡ kept_with self.old text.now) }
        ensures err { IfErr result (RefusesValue 0 place.entry place.column self.old text.now) }
    {
        match number_of(&self.kind, text) {
            Some(number) => {
                self.numbers.push(raise(number))?;
                Ok(())
            }
            None => Err(TableFault::BadCell {
                entry: place.entry,
                column: place.column,
            }),
        }
    }

    // The same for a column of texts.
    fn take_text(
        &mut self,
        alloc: Global,
        text: &[u8],
        limit: u64,
        place: Place,
    ) -> Result<(), TableFault>
        requires { is_text self.old.kind ≡ true }
        ensures ok { OnOk result (TakesValue limit self.old text.now) }
        ensures taken { OnOk result (self.new ≡ kept_with self.old text.now) }
        ensures err { IfErr result (RefusesValue limit place.entry place.column self.old text.now) }
    {
        let added = self.texts.push(alloc, text)?;
        if !added {
            return Err(TableFault::BadCell {
                entry: place.entry,
                column: place.column,
            });
        }
        if self.texts.count() as u64 > limit {
            return Err(TableFault::TooManyNames {
                column: place.column,
            });
        }
        Ok(())
    }

    /// The column's head under that name, and how far each value's number lies above its base.
    pub(crate) fn finish(
        self,
        alloc: Global,
        name: Name,
        nullable: bool,
    ) -> Result<(ColumnHead, Vec<u64>), AllocError>
        requires { IsComplete self }
        ensures { IfOk result (λ column. HasValues self nullable name column.0 column.1.items) }
    {
        let Values {
            kind,
            numbers,
            texts,
        } = self;
        let names = texts.dictionary(alloc)?;
        let ranks = texts.into_ranks(alloc, names.as_slice())?;
        let mut cells = values_of(kind, numbers, ranks);
        let base = least_number(&cells);
        let top = greatest_number(&cells);
        become_distances(&mut cells, base);
        let head = ColumnHead {
            name,
            kind,
            nullable,
            base,
            top,
            names,
        };
        Ok((head, cells))
    }
}
