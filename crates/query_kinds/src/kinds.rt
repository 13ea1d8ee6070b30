//! The kinds of the aggregates that the line of a query asks for, and the number of its group columns.

ghost use Rattle.std.specs.Prelude.{◌≡◌, ◌++◌, ℕ, List, codes, filter, map, IfOk, IfErr, MatchOption};
ghost use Rattle.std.specs.List.{list_all, list_any};
ghost use Rattle.std.specs.Str.{IsUtf8, bytes_eq};
ghost use Rattle.sql_text.specs.Tree.{item_of, name_of, query_of};
ghost use Rattle.query_kinds.specs.Beside.{AsksBeside, beside_in};
ghost use Rattle.query_kinds.specs.Kinds.{Asks, IsKindsFault, IsNoShape, IsOfItems, IsQueryLine};
ghost use Rattle.query_kinds.specs.Kinds.{columns_named, fault_of, is_aggregate, items_in, kind_of, kind_of_call};
ghost use Rattle.query_kinds.specs.Rows.{IsRowsFault};

use crate::beside::{Beside, besides};
use crate::fault::KindsFault;
use query_model::ItemKind;
use sql_text::{CallKind, Ending, ItemTree, Named, Select, SqlFault, Tree, parse};
use std::alloc::{AllocError, Global};
use std::str::from_utf8;

// The kind of a call.
fn kind_of_call(kind: CallKind) -> ItemKind
    ensures { result ≡ kind_of_call kind }
{
    match kind {
        CallKind::Count => ItemKind::Count,
        CallKind::Sum => ItemKind::Sum,
        CallKind::Avg => ItemKind::Avg,
        CallKind::Min => ItemKind::Min,
        CallKind::Max => ItemKind::Max,
    }
}

fn is_aggregate(item: &ItemTree) -> bool
    ensures { result ≡ is_aggregate (item_of item.now) }
{
    match item {
        ItemTree::Column(_) => false,
        ItemTree::Count | ItemTree::Call { .. } => true,
    }
}

// The kind of an aggregate.
fn kind_of(item: &ItemTree) -> ItemKind
    ensures { result ≡ kind_of (item_of item.now) }
{
    match item {
        ItemTree::Column(_) | ItemTree::Count => ItemKind::Count,
        ItemTree::Call { kind, .. } => kind_of_call(*kind),
    }
}

fn are_aggregates(items: &[ItemTree]) -> bool
    ensures { result ≡ list_all is_aggregate (map item_of items.now) }
{
    for item in items {
        if !is_aggregate(item) {
            return false;
        }
    }
    true
}

fn has_aggregate(items: &[ItemTree]) -> bool
    ensures { result ≡ list_any is_aggregate (map item_of items.now) }
{
    for item in items {
        if is_aggregate(item) {
            return true;
        }
    }
    false
}

// The aggregates among the items.
fn aggregates_of(alloc: Global, items: &[ItemTree]) -> Result<Vec<&ItemTree>, AllocError>
    ensures { IfOk result (λ found. items_in found.items ≡ filter is_aggregate (map item_of items.now)) }
{
    let mut found = Vec::new(alloc);
    for item in items {
        if is_aggregate(item) {
            found.push(item)?;
        }
    }
    Ok(found)
}

// The kinds of aggregates.
fn kinds_of(alloc: Global, items: &[&ItemTree]) -> Result<Vec<ItemKind>, AllocError>
    ensures { IfOk result (λ kinds. kinds.items ≡ map kind_of (items_in items.now)) }
{
    let mut kinds = Vec::with_capacity(alloc, items.len())?;
    for item in items {
        kinds.push(kind_of(item))?;
    }
    Ok(kinds)
}

fn is_same(one: &Named, other: &Named) -> bool
    ensures { result ≡ bytes_eq (name_of one.now).name (name_of other.now).name }
{
    one.name.as_slice() == other.name.as_slice()
}

// Whether one of these names is the same.
fn is_among(names: &[Named], name: &Named) -> bool
    ensures { result ≡ list_any (bytes_eq (name_of name.now).name) (map (λ n. n.name) (map name_of names.now)) }
{
    for other in names {
        if is_same(name, other) {
            return true;
        }
    }
    false
}

// How many columns the names name: each name is counted where it stands last.
fn columns_named(names: &[Named]) -> usize
    ensures { result ≡ columns_named (map name_of names.now) }
{
    let mut columns = 0;
    for (at, name) in names.iter().enumerate() {
        if !is_among(&names[at + 1..], name) {
            columns += 1;
        }
    }
    columns
}

// What a query asks for, in its list, and the number of its group columns.
#[derive(Clone, Copy)]
struct AskedItems<'a> {
    items: &'a [ItemTree],
    columns: usize,
}

// The items of a query of totals or of groups.
#[tactic(auto, using(crate::proofs::OneKind::shapes))]
fn items_of(tree: &Tree) -> Option<AskedItems<'_>>
    ensures { MatchOption result (IsNoShape (query_of tree.now))
        (λ asked. IsOfItems (query_of tree.now) asked.columns (filter is_aggregate (map item_of asked.items.now))) }
{
    let items = match &tree.head {
        Select::Star => return None,
        Select::Items(items) => items,
    };
    match &tree.ending {
        Ending::Order { .. } => None,
        Ending::Nothing => {
            if are_aggregates(items) {
                Some(AskedItems { items, columns: 0 })
            } else {
                None
            }
        }
        Ending::Group(names) => {
            if has_aggregate(items) {
                let columns = columns_named(names.as_slice());
                Some(AskedItems { items, columns })
            } else {
                None
            }
        }
    }
}

// The text of the query behind the word of its line.
fn text_behind(line: &[u8]) -> Option<&str>
    ensures { MatchOption result
        ((text : List ℕ) → line.now ≡ codes "query " ++ text → IsUtf8 text → ⊥)
        (λ text. (line.now ≡ codes "query " ++ text.now) × IsUtf8 text.now) }
{
    let bytes = line.strip_prefix(b"query ")?;
    match from_utf8(bytes) {
        Ok(text) => Some(text),
        Err(_) => None,
    }
}

// What the fault of the text is to its line.
fn fault_of(fault: SqlFault) -> KindsFault
    ensures { result ≡ fault_of fault }
{
    match fault {
        SqlFault::NoMemory => KindsFault::NoMemory,
        _ => KindsFault::NoQuery,
    }
}

// The query of the line.
pub(crate) fn read_line(alloc: Global, line: &[u8]) -> Result<Tree, KindsFault>
    ensures query { IfOk result (λ tree. IsQueryLine line.now (query_of tree)) }
    ensures fault { IfErr result (IsKindsFault line.now) }
    ensures rows { IfErr result (IsRowsFault line.now) }
{
    match text_behind(line) {
        Some(text) => match parse(alloc, text) {
            Ok(tree) => Ok(tree),
            Err(fault) => Err(fault_of(fault)),
        },
        None => Err(KindsFault::NoQuery),
    }
}

/// What the line of a query tells of its report: the kinds of its aggregates, what it asks for beside each of them, and how many group
/// columns it has; totals have none.
#[derive(Drop)]
pub struct QueryShape {
    pub kinds: Vec<ItemKind>,
    pub besides: Vec<Option<Beside>>,
    pub columns: usize,
}

// The shape of a query with these items, and so many group columns.
fn shape_of(alloc: Global, items: &[ItemTree], columns: usize) -> Result<QueryShape, AllocError>
    ensures kinds { IfOk result (λ shape. shape.kinds.items ≡ map kind_of (filter is_aggregate (map item_of items.now))) }
    ensures besides { IfOk result (λ shape. shape.besides.items
        ≡ map (beside_in (filter is_aggregate (map item_of items.now))) (filter is_aggregate (map item_of items.now))) }
    ensures columns { IfOk result (λ shape. shape.columns ≡ columns) }
{
    let aggregates = aggregates_of(alloc, items)?;
    Ok(QueryShape {
        kinds: kinds_of(alloc, &aggregates)?,
        besides: besides(alloc, &aggregates)?,
        columns,
    })
}

/// The shape of the query of totals or of groups whose line this is, as it stands in front of a report: beside an average stand the places
/// of SUM and COUNT of the same expression, if the query asks for both. Else whether the line is none of a query, or that query asks for
/// rows, for columns without groups, or for groups without an aggregate.
pub fn query_shape(alloc: Global, line: &[u8]) -> Result<QueryShape, KindsFault>
    ensures shape { IfOk result (λ shape. Asks line.now shape.kinds.items shape.columns) }
    ensures besides { IfOk result (λ shape. AsksBeside line.now shape.besides.items) }
    ensures fault { IfErr result (IsKindsFault line.now) }
{
    let tree = read_line(alloc, line)?;
    match items_of(&tree) {
        Some(asked) => Ok(shape_of(alloc, asked.items, asked.columns)?),
        None => Err(KindsFault::NoTotals),
    }
}
