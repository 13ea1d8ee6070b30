//! The columns of a query, numbered in the order in which its text names them.

ghost use Rattle.std.specs.Prelude.{◌≡◌, ◌≤◌, ◌<◌, ◌==◌, length, IfOk, IfSome, []};
ghost use Rattle.std.specs.List.{position};
ghost use Rattle.sql_typing.specs.Names.{first_seen, number_of};
ghost use Rattle.sql_typing.specs.Faults.{first_in, unknown_at};
ghost use Rattle.sql_typing.specs.Parts.{Checks};

use crate::fault::TypeFault;
use crate::names::Mention;
use crate::table::place_of;
use daq_table::ColumnHead;
use indexmap::IndexSet;
use query_model::TableColumns;
use std::alloc::{AllocError, Global};
use std::marker::Model;

/// The most columns of a query.
pub(crate) const MOST_COLUMNS: usize = 16;

/// The columns of a query, by their places in the table, in the order of their numbers.
#[derive(Drop, Debug)]
pub(crate) struct Numbering {
    places: Vec<usize>,
}

impl Model for Numbering {
    ghost use Rattle.std.specs.Prelude.{ℕ, List, length, ◌≤◌};

    ghost Value = { List ℕ };

    ghost view = { λ n. n.places.items };

    ghost invariant = { λ n. length n.places.items ≤ 16 };
}

impl Numbering {
    /// The numbering of these columns.
    pub(crate) fn new(places: Vec<usize>) -> Numbering
        requires { length places.items ≤ 16 }
        ensures { result ≡ places.items }
    {
        Numbering { places }
    }

    // The number of the column at that place of the table.
    fn position_of(&self, place: usize) -> Option<usize>
        ensures position { result ≡ position (λ column. column == place) self.now }
        ensures few { IfSome result (λ number. number < 16) }
    {
        self.places.iter().position(|column| *column == place)
    }

    /// The number of the column of that name; 0 where it is not a column of the query.
    pub(crate) fn number_of(&self, table: &[ColumnHead], name: &[u8]) -> u8
        ensures { result ≡ number_of table.now self.now name.now }
    {
        match place_of(table, name) {
            Some(place) => match self.position_of(place) {
                Some(number) => number as u8,
                None => 0,
            },
            None => 0,
        }
    }

    /// The places, in order.
    pub(crate) fn as_slice(&self) -> &[usize]
        ensures places { result.now ≡ self.now }
        ensures few { length self.now ≤ 16 }
    {
        &self.places
    }

    /// The columns of the typed query.
    pub(crate) fn into_columns(self) -> TableColumns
        ensures { result ≡ self }
    {
        TableColumns::new(self.places)
    }
}

/// Refuses the first name that no column has.
pub(crate) fn check_known(mentions: &[Mention]) -> Result<(), TypeFault>
    ensures { Checks result (first_in (λ m. unknown_at m.at m.column) mentions.now) }
{
    for mention in mentions {
        if mention.column.is_none() {
            return Err(TypeFault::UnknownColumn { at: mention.at });
        }
    }
    Ok(())
}

/// The columns that are named, each at its first place.
pub(crate) fn first_seen(alloc: Global, mentions: &[Mention]) -> Result<Vec<usize>, AllocError>
    ensures { IfOk result (λ v. v.items ≡ first_seen [] mentions.now) }
{
    let mut columns = IndexSet::new(alloc);
    for mention in mentions {
        if let Some(column) = mention.column {
            columns.insert(column)?;
        }
    }
    Vec::from_slice(alloc, columns.as_slice())
}
