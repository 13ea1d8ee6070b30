//! A column as a schema declares it.

use crate::head::Kind;
use crate::listed::Listed;
use crate::names::Name;

/// A column's name and kind, and whether its cells may be null.
#[derive(Drop, Debug)]
pub struct SchemaColumn {
    pub name: Name,
    pub kind: Kind,
    pub nullable: bool,
}

/// The columns of a schema, in order.
pub type SchemaColumns = Listed<SchemaColumn>;
