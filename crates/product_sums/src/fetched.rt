//! Words of a block of a column's planes, fetched once for all rows that are counted in it.

ghost use Rattle.std.specs.Prelude.{◌≡◌, ◌≤◌, ◌<◌, ◌+◌, ◌*◌, length, IfSome, IsTrue};
ghost use Rattle.known_column.specs.Columns.{rows_of_column};
ghost use Rattle.product_sums.specs.Fetched.{first_digit, AreFetchedBelow, IsFetched, IsFetchedColumn, IsLone};
ghost use Rattle.product_sums.specs.Products.{AreFactors};

use crate::factors::Factor;
use aggregates::{End, number_planes};
use known_column::{Known, LentColumns};
use query_model::Expr;

// Room for the words of the planes that hold digits, from the first on. It is lent, and never cleared.
#[derive(Drop)]
pub(crate) struct PlaneRoom {
    pub(crate) planes: [[u64; 8]; 32],
}

impl PlaneRoom {
    pub(crate) fn new() -> PlaneRoom {
        PlaneRoom {
            planes: [[0; 8]; 32],
        }
    }
}

// An end of a column, of which the words of planes are in such room, and the words of the rows at top's prefix.
#[derive(Drop)]
pub(crate) struct Fetched {
    pub(crate) column: u8,
    pub(crate) end: End,
    pub(crate) tops: [u64; 8],
}

// Whether there is room for a column's planes.
fn has_room(known: &Known) -> bool
    ensures { IsTrue result → known.now.known.read ≤ first_digit known.now + 32 }
{
    let (from, to) = number_planes(known);
    to - from <= 32
}

// Fetches the words of the planes that hold digits.
fn fetch_planes(known: &Known, block: usize, room: &mut PlaneRoom)
    requires block { 512 * block < rows_of_column known.now }
    requires few { known.now.known.read ≤ first_digit known.now + 32 }
    ensures { AreFetchedBelow known.now block room.new.planes known.now.known.read }
{
    let (from, to) = number_planes(known);
    for j in from..to {
        room.planes[usize::from(j - from)] = known.plane(j).block(block);
    }
}

// Fetches a block of a column.
fn fetch(known: &Known, column: u8, end: End, block: usize, room: &mut PlaneRoom) -> Fetched
    requires block { 512 * block < rows_of_column known.now }
    requires few { known.now.known.read ≤ first_digit known.now + 32 }
    ensures words { IsFetched known.now block result room.new.planes }
    ensures column { result.column ≡ column }
    ensures end { result.end ≡ end }
{
    fetch_planes(known, block, room);
    Fetched {
        column,
        end,
        tops: known.at_top().block(block),
    }
}

// Fetches a block of a column of few planes.
pub(crate) fn fetch_column(
    columns: &LentColumns<'_>,
    column: u8,
    block: usize,
    room: &mut PlaneRoom,
) -> Option<Fetched>
    requires column { column < length columns.now.frame.columns }
    requires block { 512 * block < columns.now.frame.rows }
    ensures { IfSome result (λ words. IsFetchedColumn columns.now column block words room.new.planes) }
{
    let known = columns.column(usize::from(column));
    if has_room(known) {
        Some(fetch(known, column, End::Low, block, room))
    } else {
        None
    }
}

// Fetches a block of the only factor, where that is a column of few planes, and is counted more than once.
pub(crate) fn fetch_lone<'a>(
    columns: &LentColumns<'_>,
    block: usize,
    factors: &[Factor<'a>],
    counted: u8,
    room: &mut PlaneRoom,
) -> Option<Fetched>
    requires block { 512 * block < columns.now.frame.rows }
    requires factors { AreFactors columns.now.frame factors.now }
    ensures { IfSome result (λ fetched. IsLone columns.now block factors.now fetched room.new.planes) }
{
    if counted <= 1 {
        return None;
    }
    if factors.len() != 1 {
        return None;
    }
    let only = factors[0];
    match only.term {
        Expr::Column(column) if has_room(columns.column(usize::from(*column))) => {
            let known = columns.column(usize::from(*column));
            Some(fetch(known, *column, only.end, block, room))
        }
        _ => None,
    }
}
