//! From a query's tree to the typed query.

ghost use Rattle.std.specs.Prelude.{◌≡◌, ◌≤◌, map, length, nat_lt, IfOk, IfErr, MatchOption, slice_index_or};
ghost use Rattle.std.specs.List.{AllByRecursion, sum};
ghost use Rattle.daq_table.specs.Tables.{ends_of, frame_of, no_ends};
ghost use Rattle.query_model.specs.Answers.{groups_of};
ghost use Rattle.query_model.specs.Projection.{projected_frame};
ghost use Rattle.query_model.specs.Validity.{FitsItem, IsValid};
ghost use Rattle.sql_text.specs.Tree.{head_of, item_of, name_of, query_of};
ghost use Rattle.sql_typing.specs.Faults.{aggregates_in, fault_if, first_fault, first_in, first_of, is_aggregate};
ghost use Rattle.sql_typing.specs.Faults.{name_fault, planes_at, shape_fault, table_fault, text_fault, too_many_columns};
ghost use Rattle.sql_typing.specs.Names.{names_in};
ghost use Rattle.sql_typing.specs.Parts.{Checks, Types};
ghost use Rattle.sql_typing.specs.Refusals.{IsFirstUnfit, IsTyped, Refuses};
ghost use Rattle.sql_typing.specs.Typing.{columns_of, typed, typed_with};
ghost use Rattle.sql_typing.specs.declared.fault.TypeFault.TheVariants.{TooManyItems};

use crate::condition::typed_filter;
use crate::fault::TypeFault;
use crate::fit::first_unfit;
use crate::item::typed_items;
use crate::names::mentions;
use crate::numbering::{MOST_COLUMNS, Numbering, check_known, first_seen};
use crate::shape::typed_ending;
use daq_table::{ColumnHead, Ends, Head, ends, planes};
use query_model::{Items, Shape, TypedQuery};
use sql_text::{ItemTree, Named, Select, Tree};
use std::alloc::{AllocError, Global};

/// The name of the one table.
const TABLE: &[u8] = b"t";

/// The most aggregates of a query.
const MOST_ITEMS: usize = 16;

/// The most binary digits of the cells of the group columns.
const MOST_GROUP_BITS: u32 = 16;

fn check_table(table: &Named) -> Result<(), TypeFault>
    ensures { Checks result (table_fault (name_of table.now)) }
{
    if table.name.as_slice() == TABLE {
        Ok(())
    } else {
        Err(TypeFault::UnknownTable { at: table.at })
    }
}

/// The columns of a query.
#[tactic(auto, using(crate::proofs::Mentions::known))]
fn numbering(alloc: Global, table: &[ColumnHead], tree: &Tree) -> Result<Numbering, TypeFault>
    ensures { Types (λ n. n) result
        (first_of (first_in (name_fault table.now) (names_in (query_of tree.now))) (too_many_columns table.now (query_of tree.now)))
        (columns_of table.now (query_of tree.now)) }
{
    let mentions = mentions(alloc, table, tree)?;
    check_known(mentions.as_slice())?;
    let places = first_seen(alloc, mentions.as_slice())?;
    if places.len() > MOST_COLUMNS {
        return Err(TypeFault::TooManyColumns);
    }
    Ok(Numbering::new(places))
}

fn is_aggregate(item: &ItemTree) -> bool
    ensures { result ≡ is_aggregate (item_of item.now) }
{
    match item {
        ItemTree::Column(_) => false,
        ItemTree::Count | ItemTree::Call { .. } => true,
    }
}

fn aggregates_in(head: &Select) -> usize
    ensures { result ≡ aggregates_in (head_of head.now) }
{
    match head {
        Select::Items(items) => items
            .as_slice()
            .iter()
            .filter(|item| is_aggregate(item))
            .count(),
        Select::Star => 0,
    }
}

fn check_items(head: &Select) -> Result<(), TypeFault>
    ensures { Checks result (fault_if (nat_lt 16 (aggregates_in (head_of head.now))) TooManyItems) }
{
    if aggregates_in(head) > MOST_ITEMS {
        Err(TypeFault::TooManyItems)
    } else {
        Ok(())
    }
}

/// The typed query with these columns, or its first fault in the order of the text.
fn typed_text(
    alloc: Global,
    table: &[ColumnHead],
    columns: Numbering,
    tree: &Tree,
) -> Result<TypedQuery, TypeFault>
    ensures { Types (λ q. q) result (text_fault table.now (query_of tree.now))
        (typed_with table.now columns (query_of tree.now)) }
{
    let items = typed_items(alloc, table, &columns, &tree.ending, &tree.head)?;
    let pred = typed_filter(alloc, table, &columns, &tree.pred)?;
    let shape = typed_ending(alloc, table, &columns, &tree.ending)?;
    Ok(TypedQuery {
        columns: columns.into_columns(),
        items: Items::new(items),
        pred,
        shape,
    })
}

/// The planes of a column of the query.
fn planes_at(table: &[ColumnHead], columns: &[usize], number: u8) -> u8
    ensures planes { result ≡ planes_at table.now columns.now number }
    ensures few { result ≤ 65 }
{
    match columns.get(number as usize) {
        Some(place) => match table.get(*place) {
            Some(column) => planes(column),
            None => 0,
        },
        None => 0,
    }
}

/// The planes of the group columns.
fn group_bits(table: &[ColumnHead], columns: &[usize], groups: &[u8]) -> u32
    requires { length groups.now ≤ 256 }
    ensures { result ≡ sum (map (planes_at table.now columns.now) groups.now) }
{
    let mut bits = 0;
    for number in groups {
        bits += planes_at(table, columns, *number) as u32;
    }
    bits
}

fn check_groups(table: &[ColumnHead], query: &TypedQuery) -> Result<(), TypeFault>
    requires { length (groups_of query.now.shape) ≤ 256 }
    ensures { Checks result (shape_fault table.now query.now.columns query.now.shape) }
{
    match &query.shape {
        Shape::Grouped(groups) => {
            let bits = group_bits(table, query.columns.as_slice(), groups.as_slice());
            if bits > MOST_GROUP_BITS {
                Err(TypeFault::GroupTooWide { bits })
            } else {
                Ok(())
            }
        }
        Shape::Plain | Shape::Top { .. } => Ok(()),
    }
}

/// The declared ends of a column of the table.
fn ends_at(table: &[ColumnHead], place: usize) -> Ends
    ensures { result ≡ slice_index_or (map ends_of table.now) place no_ends }
{
    match table.get(place) {
        Some(column) => ends(column),
        None => Ends {
            base: 0,
            top: 0,
            nullable: false,
        },
    }
}

fn declared_ends(
    alloc: Global,
    table: &[ColumnHead],
    columns: &[usize],
) -> Result<Vec<Ends>, AllocError>
    ensures { IfOk result (λ v. v.items ≡ map (λ c. slice_index_or (map ends_of table.now) c no_ends) columns.now) }
{
    let mut all = Vec::new(alloc);
    for place in columns {
        all.push(ends_at(table, *place))?;
    }
    Ok(all)
}

/// The first of the items of which a number can leave 128 bits.
fn first_too_wide(
    alloc: Global,
    head: &Head,
    query: &TypedQuery,
) -> Result<Option<usize>, AllocError>
    ensures { IfOk result (λ o. MatchOption o (AllByRecursion (FitsItem (projected_frame query.now (frame_of head.now))) query.now.items)
        (IsFirstUnfit (projected_frame query.now (frame_of head.now)) query.now.items)) }
{
    let ends = declared_ends(alloc, head.columns.as_slice(), query.columns.as_slice())?;
    Ok(first_unfit(query.items.as_slice(), head.rows, ends.as_slice()))
}

/// The typed query, or its first fault but for numbers that can leave 128 bits.
fn meant_query(alloc: Global, tree: &Tree, head: &Head) -> Result<TypedQuery, TypeFault>
    ensures { Types (λ q. q) result (first_fault head.now.columns (query_of tree.now)) (typed head.now.columns (query_of tree.now)) }
{
    let table = head.columns.as_slice();
    check_table(&tree.table)?;
    let columns = numbering(alloc, table, tree)?;
    check_items(&tree.head)?;
    let query = typed_text(alloc, table, columns, tree)?;
    check_groups(table, &query)?;
    Ok(query)
}

/// The typed query of a tree over a table's head, or its first fault. Beside an order nothing but a star can be selected, and
/// nothing else is looked at.
pub fn type_query(alloc: Global, tree: &Tree, head: &Head) -> Result<TypedQuery, TypeFault>
    ensures typed { IfOk result (IsTyped (query_of tree.now) head.now) }
    ensures valid { IfOk result (IsValid head.now) }
    ensures refused { IfErr result (Refuses (query_of tree.now) head.now) }
{
    let query = meant_query(alloc, tree, head)?;
    match first_too_wide(alloc, head, &query)? {
        Some(item) => Err(TypeFault::TooWide { item }),
        None => Ok(query),
    }
}
