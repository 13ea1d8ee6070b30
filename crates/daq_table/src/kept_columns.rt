//! The columns among the items of a schema, with their places.

ghost use Rattle.std.specs.Prelude.{◌≡◌, ◌++◌, ◌∷◌, [], IfOk, OnOk};
ghost use Rattle.daq_table.specs.Schemas.{columns_in, kept_from, kept_places};

use crate::names::Name;
use crate::schema_column::SchemaColumn;
use crate::schema_item::SchemaItem;
use std::alloc::{AllocError, Global};

// The same column once more.
fn copy_of(alloc: Global, column: &SchemaColumn) -> Result<SchemaColumn, AllocError>
    ensures { IfOk result (λ copy. copy ≡ column.now) }
{
    let name = Name::new(Vec::from_slice(alloc, column.name.as_slice())?);
    Ok(SchemaColumn {
        name,
        kind: column.kind,
        nullable: column.nullable,
    })
}

// Appends the column that the item is, with its place, or nothing.
fn keep(
    alloc: Global,
    item: &SchemaItem,
    place: usize,
    columns: &mut Vec<SchemaColumn>,
    places: &mut Vec<usize>,
) -> Result<(), AllocError>
    ensures columns { OnOk result (columns.new.items ≡ columns.old.items ++ columns_in (item.now ∷ [])) }
    ensures places { OnOk result (places.new.items ≡ places.old.items ++ kept_from place (item.now ∷ [])) }
{
    match item {
        SchemaItem::Column(column) => {
            columns.push(copy_of(alloc, column)?)?;
            places.push(place)?;
            Ok(())
        }
        SchemaItem::Skip(_) => Ok(()),
    }
}

/// The columns among the items, and the place of each.
pub(crate) fn kept_columns(
    alloc: Global,
    items: &[SchemaItem],
) -> Result<(Vec<SchemaColumn>, Vec<usize>), AllocError>
    ensures columns { IfOk result (λ kept. kept.0.items ≡ columns_in items.now) }
    ensures places { IfOk result (λ kept. kept.1.items ≡ kept_places items.now) }
{
    let mut columns = Vec::new(alloc);
    let mut places = Vec::new(alloc);
    for (place, item) in items.iter().enumerate() {
        keep(alloc, item, place, &mut columns, &mut places)?;
    }
    Ok((columns, places))
}
