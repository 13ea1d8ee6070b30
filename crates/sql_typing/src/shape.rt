//! The shape of a typed query.

ghost use Rattle.std.specs.Prelude.{◌≡◌, ◌==◌, map, IfOk, OnOk};
ghost use Rattle.std.specs.List.{list_any};
ghost use Rattle.sql_text.specs.Tree.{ending_of, name_of};
ghost use Rattle.sql_typing.specs.Faults.{ending_fault, is_limit};
ghost use Rattle.sql_typing.specs.Names.{with_number};
ghost use Rattle.sql_typing.specs.Parts.{Types};
ghost use Rattle.sql_typing.specs.Typing.{group_columns, typed_ending};

use crate::fault::TypeFault;
use crate::numbering::Numbering;
use daq_table::ColumnHead;
use query_model::{Columns, Shape};
use sql_text::{Ending, Named, Num};
use std::alloc::{AllocError, Global};

fn contains(groups: &[u8], number: u8) -> bool
    ensures { result ≡ list_any (λ group. number == group) groups.now }
{
    groups.iter().any(|group| number == *group)
}

fn push_new(groups: &mut Vec<u8>, number: u8) -> Result<(), AllocError>
    ensures { OnOk result (groups.new.items ≡ with_number groups.old.items number) }
{
    if !contains(groups, number) {
        groups.push(number)?;
    }
    Ok(())
}

/// The numbers of the columns in GROUP BY, each at its first place.
fn group_columns(
    alloc: Global,
    table: &[ColumnHead],
    columns: &Numbering,
    names: &[Named],
) -> Result<Vec<u8>, AllocError>
    ensures { IfOk result (λ v. v.items ≡ group_columns table.now columns.now (map name_of names.now)) }
{
    let mut groups = Vec::new(alloc);
    for name in names {
        let number = columns.number_of(table, name.name.as_slice());
        push_new(&mut groups, number)?;
    }
    Ok(groups)
}

/// Whether so many rows may be asked for.
fn is_limit(limit: Num) -> bool
    ensures { result ≡ is_limit limit }
{
    limit.scale == 0 && 1 <= limit.units && limit.units <= 1000
}

/// What the end of a query asks for, or its fault.
pub(crate) fn typed_ending(
    alloc: Global,
    table: &[ColumnHead],
    columns: &Numbering,
    ending: &Ending,
) -> Result<Shape, TypeFault>
    ensures { Types (λ s. s) result (ending_fault (ending_of ending.now)) (typed_ending table.now columns.now (ending_of ending.now)) }
{
    match ending {
        Ending::Nothing => Ok(Shape::Plain),
        Ending::Group(names) => {
            let groups = group_columns(alloc, table, columns, names.as_slice())?;
            Ok(Shape::Grouped(Columns::new(groups)))
        }
        Ending::Order { key, down, limit } => {
            if !is_limit(*limit) {
                return Err(TypeFault::LimitOutOfRange { at: limit.at });
            }
            Ok(Shape::Top {
                key: columns.number_of(table, key.name.as_slice()),
                down: *down,
                limit: limit.units as u32,
            })
        }
    }
}
