//! What is known of whether each listed row is among the first of all parts.

ghost use Rattle.std.specs.Prelude.{◌≡◌, IfOk};
ghost use Rattle.part_rows.specs.Ranked.{AreRanked};
ghost use Rattle.part_rows.specs.Standings.{standing, standings};

use crate::ranked::RankedRows;
use crate::row::PartRow;
use query_kinds::FirstRows;
use query_model::Standing;
use std::alloc::{AllocError, Global};

// What is known of a row among all.
fn standing(asked: FirstRows, rows: &RankedRows<'_>, row: &PartRow) -> Standing
    requires { AreRanked asked.down rows.now }
    ensures { result ≡ standing asked rows.now.rows.now row.now }
{
    if asked.limit <= rows.leaders(asked.down, row) as u64 {
        return Standing::Excluded;
    }
    if row.certain && (rows.rivals(asked.down, row) as u64) < asked.limit {
        Standing::Certain
    } else {
        Standing::Possible
    }
}

/// What is known of each of the rows that the parts' reports list, in their order: whether it is among the first of all parts. The one
/// error is want of memory.
pub fn judge(alloc: Global, asked: FirstRows, rows: &[PartRow]) -> Result<Vec<Standing>, AllocError>
    ensures { IfOk result (λ known. known.items ≡ standings asked rows.now) }
{
    let ranked = RankedRows::new(alloc, asked.down, rows)?;
    let mut known = Vec::with_capacity(alloc, rows.len())?;
    for row in rows {
        known.push(standing(asked, &ranked, row))?;
    }
    Ok(known)
}
