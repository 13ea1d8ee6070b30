//! Sums that are kept while rows come and leave and planes are read, worked out by hand.

ghost use Rattle.std.specs.Prelude.{◌≡◌, length, OnOk};
ghost use Rattle.known_column.specs.Columns.{rows_of_column};
ghost use Rattle.aggregates.specs.KeptSums.{IsKept, MovesAnywhere};
ghost use Rattle.aggregates.specs.Selections.{MayHaveValues};

use crate::ends::{partly_read, read_next, rows_of};
use aggregates::{KeptSum, SumSpan};
use known_column::Known;
use plane_kernels::Mask;
use std::alloc::{AllocError, Global};
use std::test::Fail;

const CELLS: [u64; 4] = [2, 6, 9, 0];

// The ends at the mask's rows. Rows may have moved in each block, and may still.
fn follow(
    alloc: Global,
    kept: &mut KeptSum,
    known: &Known,
    mask: &Mask,
) -> Result<SumSpan, AllocError>
    requires kept { IsKept known.now kept.old }
    requires moves { MovesAnywhere (length kept.old.mask) kept.old }
    requires rows { length mask.now ≡ rows_of_column known.now }
    requires values { MayHaveValues known.now mask.now }
    ensures kept { OnOk result (IsKept known.now kept.new) }
    ensures moves { OnOk result (MovesAnywhere (length kept.new.mask) kept.new) }
{
    let blocks = Mask::all(alloc, mask.rows().div_ceil(512))?;
    Ok(kept.ends(known, mask, &blocks))
}

// The ends of four prices from 3 to 12: at two rows once a plane is read, and at others after so many more planes.
fn followed_ends(
    alloc: Global,
    first: &[usize],
    planes: u8,
    later: &[usize],
) -> Result<(SumSpan, SumSpan), AllocError> {
    let mut known = partly_read(alloc, 3, 12, &CELLS, &[], 1)?;
    let mut kept = KeptSum::open(alloc, known.rows())?;
    let mask = rows_of(alloc, &known, first)?;
    let before = follow(alloc, &mut kept, &known, &mask)?;
    for _ in 0..planes {
        read_next(alloc, &mut known, &CELLS, &[])?;
    }
    let mask = rows_of(alloc, &known, later)?;
    Ok((before, follow(alloc, &mut kept, &known, &mask)?))
}

#[test]
fn sums_follow(rt: HostRuntime) -> Result<(), Fail> {
    let alloc = rt.alloc();
    let two = SumSpan { low: 6, high: 20 };
    assert_eq!(rt; followed_ends(alloc, &[0, 1], 0, &[0, 1])?, (two, two));
    assert_eq!(rt;
        followed_ends(alloc, &[0, 1], 0, &[0, 2])?,
        (two, SumSpan { low: 14, high: 22 })
    );
    assert_eq!(rt;
        followed_ends(alloc, &[0, 1], 2, &[0, 1])?,
        (two, SumSpan { low: 14, high: 16 })
    );
    assert_eq!(rt;
        followed_ends(alloc, &[0, 1], 2, &[0, 2])?,
        (two, SumSpan { low: 16, high: 18 })
    );
    assert_eq!(rt;
        followed_ends(alloc, &[0, 1], 3, &[])?,
        (two, SumSpan { low: 0, high: 0 })
    );
    Ok(())
}
