//! Some rows of a mask, for which no other mask is written.

ghost use Rattle.std.specs.Prelude.{◌≡◌, ◌<◌, ◌*◌, ◌&&◌, length, count_by, option_map, IfSome};
ghost use Rattle.std.specs.Simd.Lanes.{zip2};
ghost use Rattle.aggregates.specs.Selections.{block_of};
ghost use Rattle.product_sums.specs.SomeRows.{among};

use crate::rows::Rows;
use plane_kernels::{Mask, Plane};
use std::marker::Model;

// The rows of a mask, or those of them that have the bit of 1 in a plane.
#[derive(Drop)]
pub(crate) struct PartRows<'a> {
    mask: &'a Mask,
    plane: Option<&'a Plane>,
}

impl<'a> Model for PartRows<'a> {
    ghost use Rattle.std.specs.Prelude.{Bool, List, option_map};
    ghost use Rattle.product_sums.specs.SomeRows.{among, HaveBits};

    ghost Value = { List Bool };

    ghost view = { λ r. among r.mask.now (option_map (λ bits. bits.now) r.plane) };

    ghost invariant = { λ r. HaveBits r.mask.now (option_map (λ bits. bits.now) r.plane) };
}

// Those rows of a block that have the bit of 1 in a plane, if there is one.
#[inline(always)]
fn keep_ones(rows: Rows, plane: Option<&Plane>, block: usize) -> Rows
    requires { IfSome plane (λ bits. (512 * block < length bits.now) × (length (block_of block bits.now) ≡ length rows)) }
    ensures { result ≡ among rows (option_map (λ bits. block_of block bits.now) plane.entry) }
{
    match plane {
        None => rows,
        Some(plane) => rows.and(&Rows::of_plane(plane, block)),
    }
}

// Those that a mask has, if there is one.
#[inline(always)]
fn keep_rows(rows: Rows, mask: Option<&Mask>, block: usize) -> Rows
    requires { IfSome mask (λ bits. (512 * block < length bits.now) × (length (block_of block bits.now) ≡ length rows)) }
    ensures { result ≡ among rows (option_map (λ bits. block_of block bits.now) mask.entry) }
{
    match mask {
        None => rows,
        Some(mask) => rows.and(&Rows::of_mask(mask, block)),
    }
}

impl<'a> PartRows<'a> {
    // All rows of a mask.
    pub(crate) fn all(mask: &'a Mask) -> PartRows<'a>
        ensures { result ≡ mask.now }
    {
        PartRows { mask, plane: None }
    }

    // Those with the bit of 1 in a plane.
    pub(crate) fn with(mask: &'a Mask, plane: &'a Plane) -> PartRows<'a>
        requires { length plane.now ≡ length mask.now }
        ensures { result ≡ zip2 (λ a b. a && b) mask.now plane.now }
    {
        PartRows {
            mask,
            plane: Some(plane),
        }
    }

    // How many rows the table has.
    pub(crate) fn rows(&self) -> usize
        ensures { result ≡ length self.now }
    {
        self.mask.rows()
    }

    // How many there are.
    pub(crate) fn count(&self) -> u64
        ensures { result ≡ count_by (λ b. b) self.now }
    {
        match self.plane {
            None => self.mask.count(),
            Some(plane) => self.mask.count_plane(plane),
        }
    }

    // Those of a block of 512 rows.
    #[inline(always)]
    pub(crate) fn block(&self, block: usize) -> Rows
        requires { 512 * block < length self.now }
        ensures { result ≡ block_of block self.now }
    {
        keep_ones(Rows::of_mask(self.mask, block), self.plane, block)
    }
}

// Such rows, or those of them that have the bit of 1 in a plane, or that stand in a mask.
#[derive(Drop)]
pub(crate) struct SomeRows<'a> {
    part: &'a PartRows<'a>,
    plane: Option<&'a Plane>,
    mask: Option<&'a Mask>,
}

impl<'a> Model for SomeRows<'a> {
    ghost use Rattle.std.specs.Prelude.{Bool, List, option_map};
    ghost use Rattle.product_sums.specs.SomeRows.{among, HaveBits};

    ghost Value = { List Bool };

    ghost view = { λ r. among (among r.part.now (option_map (λ bits. bits.now) r.plane)) (option_map (λ bits. bits.now) r.mask) };

    ghost invariant = { λ r. HaveBits r.part.now (option_map (λ bits. bits.now) r.plane)
        × HaveBits r.part.now (option_map (λ bits. bits.now) r.mask) };
}

impl<'a> SomeRows<'a> {
    // All of them.
    pub(crate) fn all(part: &'a PartRows<'a>) -> SomeRows<'a>
        ensures { result ≡ part.now }
    {
        SomeRows {
            part,
            plane: None,
            mask: None,
        }
    }

    // Those with the bit of 1 in a plane.
    pub(crate) fn with(part: &'a PartRows<'a>, plane: &'a Plane) -> SomeRows<'a>
        requires { length plane.now ≡ length part.now }
        ensures { result ≡ zip2 (λ a b. a && b) part.now plane.now }
    {
        SomeRows {
            part,
            plane: Some(plane),
            mask: None,
        }
    }

    // Those that stand in a mask.
    pub(crate) fn within(part: &'a PartRows<'a>, mask: &'a Mask) -> SomeRows<'a>
        requires { length mask.now ≡ length part.now }
        ensures { result ≡ zip2 (λ a b. a && b) part.now mask.now }
    {
        SomeRows {
            part,
            plane: None,
            mask: Some(mask),
        }
    }

    // How many rows the table has.
    pub(crate) fn rows(&self) -> usize
        ensures { result ≡ length self.now }
    {
        self.part.rows()
    }

    // Those of a block of 512 rows.
    #[inline(always)]
    pub(crate) fn block(&self, block: usize) -> Rows
        requires { 512 * block < length self.now }
        ensures { result ≡ block_of block self.now }
    {
        let ones = keep_ones(self.part.block(block), self.plane, block);
        keep_rows(ones, self.mask, block)
    }
}
