//! An item of a schema: a column, or a field that is skipped.

ghost use Rattle.std.specs.Prelude.{◌≡◌};
ghost use Rattle.daq_table.specs.Schemas.{item_name};

use crate::listed::Listed;
use crate::names::Name;
use crate::schema_column::SchemaColumn;

/// What a schema says of a field of the records: it makes a column, or it is skipped and only its name is known.
#[derive(Drop, Debug)]
pub enum SchemaItem {
    /// A column.
    Column(SchemaColumn),
    /// A field of that name of which no cell is made.
    Skip(Name),
}

/// The items of a schema, in order.
pub type SchemaItems = Listed<SchemaItem>;

impl SchemaItem {
    /// The name of the field.
    pub fn name(&self) -> &[u8]
        ensures { result.now ≡ item_name self.now }
    {
        match self {
            SchemaItem::Column(column) => column.name.as_slice(),
            SchemaItem::Skip(name) => name.as_slice(),
        }
    }
}
