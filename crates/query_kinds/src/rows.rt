//! The first rows in an order that the line of a query asks for.

ghost use Rattle.std.specs.Prelude.{IfOk, IfErr, MatchOption};
ghost use Rattle.std.specs.Option.{SomeIff};
ghost use Rattle.sql_text.specs.Tree.{query_of};
ghost use Rattle.query_kinds.specs.Rows.{HasNumber, IsByOrder, IsNotByOrder, IsRowsFault, MayAskRows, number_of};

use crate::fault::KindsFault;
use crate::kinds::read_line;
use sql_text::{Ending, Num, Tree};
use std::alloc::Global;

/// How many rows a query asks for, and whether the greatest keys of its order come first. Null comes last in both directions.
#[derive(Clone, Copy, Debug, PartialEq, Eq)]
pub struct FirstRows {
    pub limit: u64,
    pub down: bool,
}

// The number of a limit. None where it has decimals.
fn number_of(limit: Num) -> Option<u64>
    ensures { SomeIff result (HasNumber limit) (number_of limit) }
{
    if limit.scale == 0 && limit.units >= 0 {
        Some(limit.units.unsigned_abs())
    } else {
        None
    }
}

// The first rows that a query asks for.
#[tactic(auto, using(crate::proofs::OneOrder::others))]
fn rows_of(tree: &Tree) -> Option<FirstRows>
    ensures { MatchOption result (IsNotByOrder (query_of tree.now)) (IsByOrder (query_of tree.now)) }
{
    match &tree.ending {
        Ending::Nothing | Ending::Group(_) => None,
        Ending::Order { down, limit, .. } => match number_of(*limit) {
            Some(limit) => Some(FirstRows { limit, down: *down }),
            None => None,
        },
    }
}

/// The first rows that the query asks for whose line this is, as it stands in front of a report; None where it is that of another query,
/// or its limit has decimals. Else the line is none of a query.
pub fn first_rows(alloc: Global, line: &[u8]) -> Result<Option<FirstRows>, KindsFault>
    ensures rows { IfOk result (MayAskRows line.now) }
    ensures fault { IfErr result (IsRowsFault line.now) }
{
    let tree = read_line(alloc, line)?;
    Ok(rows_of(&tree))
}
