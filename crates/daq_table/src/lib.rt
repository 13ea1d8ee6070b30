//! Tables of whole numbers by columns: what is declared of each column, and its cells.
#![tactic(auto)]

mod buffer;
mod cells;
mod column;
mod dates;
mod exactness;
mod head;
mod kept_columns;
mod listed;
mod names;
mod numbers;
mod parts;
mod raised;
mod schema;
mod schema_column;
mod schema_fault;
mod schema_item;
mod schema_items;
mod table;
mod table_head;
mod values;

pub use buffer::{NoRoom, TextBuf};
pub use cells::{cell_value, int_cell};
pub use column::{digits_of, ends, planes, width};
pub use exactness::{schemas_are_exact, schemas_have_meanings};
pub use head::{ColumnHead, ColumnHeads, Ends, Kind};
pub use listed::Listed;
pub use names::{Dictionary, Name, Text};
pub use numbers::{number_text, written_number};
pub use raised::{become_distances, greatest_number, least_number, raise};
pub use schema::Schema;
pub use schema_column::{SchemaColumn, SchemaColumns};
pub use schema_fault::SchemaFault;
pub use schema_item::{SchemaItem, SchemaItems};
pub use schema_items::is_column_name;
pub use table::Table;
pub use table_head::Head;
pub use values::value_text;
