//! Rows, and what the planes of two columns gave over them, followed from one plane to the next.

ghost use Rattle.std.specs.Prelude.{◌≡◌, length, IfOk, IsTrue};
ghost use Rattle.std.specs.Int.{int_wrap, w128};
ghost use Rattle.known_column.specs.KnownTables.{KnownTable};
ghost use Rattle.product_sums.specs.declared.pair_sums.Pair.{Pair};
ghost use Rattle.product_sums.specs.KeptProducts.{inner_end, ArePairSums, AreReadOn, CanFollowPair, IsKeptPair, IsPair};
ghost use Rattle.product_sums.specs.Products.{sum_over};

use crate::even_masks::have_same_rows;
use crate::factors::PartEnds;
use crate::moved_sums::move_sums;
use crate::moves::count_moved_blocks;
use crate::pair_ends::PairRows;
use crate::pair_sums::{Pair, PairSums, read_on};
use crate::some_rows::PartRows;
use known_column::LentColumns;
use plane_kernels::Mask;
use std::alloc::{AllocError, Global};

// What all planes give over rows, by what some gave over others: the latter are read on, what rows give that came is added, and what those
// give that left is taken off. Where the rows stay none is looked at.
pub(crate) fn follow_sums(
    columns: &LentColumns<'_>,
    pair: Pair,
    sums: PairSums,
    old: &PartRows<'_>,
    new: &PartRows<'_>,
    stay: bool,
) -> PairSums
    requires pair { IsPair columns.now pair }
    requires sums { ArePairSums columns.now old.now pair sums }
    requires rows { length new.now ≡ columns.now.frame.rows }
    requires stay { IsTrue stay → old.now ≡ new.now }
    ensures { AreReadOn columns.now new.now pair result }
{
    let sums = read_on(columns, pair, sums, old);
    if stay {
        sums
    } else {
        move_sums(columns, pair, sums, old, new)
    }
}

// Rows, and what the planes of two columns gave over them.
#[derive(Drop)]
pub(crate) struct KeptPair {
    pub(crate) mask: Mask,
    sums: PairSums,
}

impl KeptPair {
    // Room for so many rows. So far it has none of them.
    pub(crate) fn open(alloc: Global, rows: usize) -> Result<KeptPair, AllocError>
        ensures rows { IfOk result (λ kept. length kept.mask ≡ rows) }
        ensures kept { IfOk result (λ kept. (table : KnownTable) (pair : Pair) → table.frame.rows ≡ rows → IsPair table pair
            → IsKeptPair table pair kept) }
    {
        Ok(KeptPair {
            mask: Mask::none(alloc, rows)?,
            sums: PairSums::none(),
        })
    }

    // Whether its rows are those of the mask.
    pub(crate) fn is_of(&self, mask: &Mask) -> bool
        requires { length mask.now ≡ length self.now.mask }
        ensures { IsTrue result → self.now.mask ≡ mask.now }
    {
        have_same_rows(&self.mask, mask)
    }

    // In how many blocks of 512 its rows differ from the mask's. It affects speed alone.
    pub(crate) fn moved_blocks(&self, mask: &Mask) -> usize {
        count_moved_blocks(&self.mask, mask)
    }

    // The end of the product at the mask's rows, added up. `stay` tells that they are its own.
    pub(crate) fn sum<'a>(
        &mut self,
        columns: &LentColumns<'_>,
        pair: Pair,
        parts: PartEnds<'a>,
        mask: &Mask,
        stay: bool,
    ) -> i128
        requires pair { IsPair columns.now pair }
        requires kept { IsKeptPair columns.now pair self.old }
        requires follow { CanFollowPair columns.now mask.now pair parts }
        requires stay { IsTrue stay → self.old.mask ≡ mask.now }
        ensures kept { IsKeptPair columns.now pair self.new }
        ensures rows { self.new.mask ≡ mask.now }
        ensures sum { result ≡ int_wrap w128 (sum_over mask.now (inner_end columns.now pair.first parts.entry)) }
    {
        let rows = PartRows::all(mask);
        let kept = PartRows::all(&self.mask);
        let sums = follow_sums(columns, pair, self.sums, &kept, &rows, stay);
        self.sums = sums;
        if !stay {
            self.mask.copy_from(mask);
        }
        let here = PairRows {
            rows: &rows,
            pair,
            sums,
        };
        here.sum(columns, parts)
    }
}
