//! The columns of a table by their names.

ghost use Rattle.std.specs.Prelude.{◌≡◌, ◌<◌, length, IfSome};
ghost use Rattle.sql_typing.specs.Names.{dictionary_of, kind_of, place_of};

use daq_table::{ColumnHead, Kind, Text};

/// The place of the column of that name.
pub(crate) fn place_of(table: &[ColumnHead], name: &[u8]) -> Option<usize>
    ensures place { result ≡ place_of table.now name.now }
    ensures within { IfSome result (λ c. c < length table.now) }
{
    table
        .iter()
        .position(|column| column.name.as_slice() == name)
}

/// The kind of the column of that name. One that is not there, which is refused before, counts as one of whole numbers.
pub(crate) fn kind_of(table: &[ColumnHead], name: &[u8]) -> Kind
    ensures { result ≡ kind_of table.now name.now }
{
    match place_of(table, name) {
        Some(place) => table[place].kind,
        None => Kind::Int,
    }
}

/// The dictionary of the column of that name, in order.
pub(crate) fn dictionary_of<'a>(table: &'a [ColumnHead], name: &[u8]) -> &'a [Text]
    ensures { result.now ≡ dictionary_of table.now name.now }
{
    match place_of(table, name) {
        Some(place) => table[place].names.as_slice(),
        None => &[],
    }
}
