//! What is declared of the columns of a table before it is read.

ghost use Rattle.std.specs.Prelude.{◌≡◌, ◌≤◌, length, position, IsTrue, IfOk, IfErr, MatchOption};
ghost use Rattle.std.specs.Str.{bytes_eq};
ghost use Rattle.daq_table.specs.HeadFacts.{all_differ};
ghost use Rattle.daq_table.specs.SchemaFaults.{Refuses};
ghost use Rattle.daq_table.specs.Schemas.{Declares, DeclaresItems, IsFirstRepeat, columns_in, fit_scales};
ghost use Rattle.daq_table.specs.Schemas.{item_name, item_names, kept_places, names_of};

use crate::kept_columns::kept_columns;
use crate::listed::Listed;
use crate::schema_column::SchemaColumns;
use crate::schema_fault::SchemaFault;
use crate::schema_item::{SchemaItem, SchemaItems};
use crate::schema_items::read_items;
use std::alloc::Global;

/// At most 64 columns, whose names differ, and whose decimals have at most nine places; and all items, of which these are the
/// ones that are not skipped, with their places.
#[derive(Drop, Debug)]
pub struct Schema {
    pub columns: SchemaColumns,
    pub items: SchemaItems,
    pub places: Listed<usize>,
    pub ghost few: { length columns ≤ 64 },
    pub ghost differ: { IsTrue (all_differ (names_of columns)) },
    pub ghost scales: { IsTrue (fit_scales columns) },
    pub ghost kept: { columns ≡ columns_in items },
    pub ghost placed: { places ≡ kept_places items },
    pub ghost wide: { length items ≤ 1024 },
}

impl Schema {
    /// The schema that a text writes: items parted by `,`, each a name, `:` and `int`, `date`, `text`, or `dec` and one
    /// digit, with `?` behind it where the column is nullable, or `skip` where the field is skipped. A name has from 1 to 64
    /// bytes, each from 0x20 to 0x7E and none of `,` `:` `"`.
    pub fn parse(alloc: Global, text: &str) -> Result<Schema, SchemaFault>
        ensures ok { IfOk result (λ schema. Declares text.now schema.columns) }
        ensures items { IfOk result (λ schema. DeclaresItems text.now schema.items) }
        ensures err { IfErr result (Refuses text.now) }
    {
        let items = read_items(alloc, text.as_bytes())?;
        let (columns, places) = kept_columns(alloc, &items)?;
        if columns.len() > 64 {
            return Err(SchemaFault::TooMany {
                count: columns.len(),
            });
        }
        if items.len() > 1024 {
            return Err(SchemaFault::TooManyItems { count: items.len() });
        }
        if columns.len() == 0 {
            return Err(SchemaFault::NoColumn);
        }
        match first_repeat(&items) {
            Some((first, second)) => Err(SchemaFault::RepeatedName { first, second }),
            None => Ok(Schema {
                columns: SchemaColumns::new(columns),
                items: SchemaItems::new(items),
                places: Listed::new(places),
            }),
        }
    }
}

// The place of the first item of that name.
fn place_of_name(items: &[SchemaItem], name: &[u8]) -> Option<usize>
    ensures { result ≡ position (λ c. bytes_eq (item_name c) name.now) items.now }
{
    items.iter().position(|item| item.name() == name)
}

// The places of the first name that repeats an earlier one: first the earlier, then its own.
fn first_repeat(items: &[SchemaItem]) -> Option<(usize, usize)>
    ensures { MatchOption result (IsTrue (all_differ (item_names items.now))) (λ p. IsFirstRepeat (item_names items.now) p.0 p.1) }
{
    for (second, item) in items.iter().enumerate() {
        if let Some(first) = place_of_name(&items[..second], item.name()) {
            return Some((first, second));
        }
    }
    None
}
