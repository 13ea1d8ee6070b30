//! The first of some rows in the order of a column, found plane by plane.

ghost use Rattle.std.specs.Prelude.{◌≡◌, ◌≢◌, ◌≤◌, length, count_by, IfOk};
ghost use Rattle.plane_kernels.specs.Rows.{kept_rows};
ghost use Rattle.known_column.specs.Columns.{rows_of_column};
ghost use Rattle.known_column.specs.RowBlocks.{IsKnownColumn};
ghost use Rattle.topk_bounds.specs.Cuts.{are_wanted, Begins, HaveOneRange, HaveRows, KeepsFirsts, Narrows, PassesFirsts, Settles};

use crate::order::may_differ;
use crate::rivals::Rivals;
use crate::stop::drop_past;
use known_column::Known;
use plane_kernels::{Mask, Plane};
use std::alloc::{AllocError, Global};

// The rows by their first digits: those that come before the digits at which the wanted rows end, and those that have these
// digits; and which of those that have them are counted.
#[derive(Drop)]
pub(crate) struct Cut {
    pub(crate) before: Mask,
    pub(crate) level: Mask,
    pub(crate) counted: Mask,
}

// Of the rows that are counted, how many have the digits at which the wanted rows end, and how many of these are wanted.
#[derive(Clone, Copy)]
pub struct Share {
    pub wanted: u64,
    pub there: u64,
}

// The rows that are counted with the digit that comes first.
fn count_first(counted: &Mask, there: u64, plane: &Plane, first: bool) -> u64
    requires rows { length plane.now ≡ length counted.now }
    requires there { there ≡ count_by (λ b. b) counted.now }
    ensures { result ≡ count_by (λ b. b) (kept_rows first counted.now plane.now) }
{
    let ones = counted.count_plane(plane);
    if first { ones } else { there - ones }
}

// Whether all rows that have the digits are wanted, where none of them surely comes before another.
fn all_wanted(rivals: Rivals, share: Share) -> bool
    ensures { result ≡ are_wanted rivals share }
{
    match rivals {
        Rivals::Must => true,
        Rivals::May => share.there <= share.wanted,
    }
}

impl Cut {
    // Room for so many rows.
    pub(crate) fn open(alloc: Global, rows: usize) -> Result<Cut, AllocError>
        ensures { IfOk result (HaveRows rows) }
    {
        Ok(Cut {
            before: Mask::none(alloc, rows)?,
            level: Mask::none(alloc, rows)?,
            counted: Mask::none(alloc, rows)?,
        })
    }

    // No digit is chosen.
    pub(crate) fn begin(&mut self, counted: &Mask, among: &Mask) -> u64
        requires rows { HaveRows (length among.now) self.old }
        requires counted { length counted.now ≡ length among.now }
        ensures { Begins counted.now among.now self.new result }
    {
        self.before.copy_from(among);
        self.before.and_not_into(among);
        self.level.copy_from(among);
        self.counted.copy_from(counted);
        counted.count()
    }

    // Keeps the rows with the digit that comes first.
    fn keep_firsts(&mut self, plane: &Plane, first: bool)
        requires { HaveRows (length plane.now) self.old }
        ensures { KeepsFirsts plane.now first self.old self.new }
    {
        self.counted.keep(plane, first);
        self.level.keep(plane, first);
    }

    // Keeps the rows with the other digit: those with the first come before them.
    fn pass_firsts(&mut self, plane: &Plane, first: bool)
        requires { HaveRows (length plane.now) self.old }
        ensures { PassesFirsts plane.now first self.old self.new }
    {
        self.counted.keep(plane, !first);
        self.before.or_into(&self.level);
        self.level.keep(plane, !first);
        self.before.and_not_into(&self.level);
    }

    // Chooses the digit of one plane more: the one that comes first where as many rows as are wanted have it.
    pub(crate) fn narrow(&mut self, share: Share, plane: &Plane, first: bool) -> Share
        requires rows { HaveRows (length plane.now) self.old }
        requires there { share.there ≡ count_by (λ b. b) self.old.counted }
        requires wanted { share.wanted ≤ share.there }
        ensures rows { HaveRows (length plane.now) self.new }
        ensures there { result.there ≡ count_by (λ b. b) self.new.counted }
        ensures wanted { result.wanted ≤ result.there }
        ensures narrows { Narrows plane.now first self.old share self.new result }
    {
        let firsts = count_first(&self.counted, share.there, plane, first);
        if share.wanted <= firsts {
            self.keep_firsts(plane, first);
            return Share {
                wanted: share.wanted,
                there: firsts,
            };
        }
        self.pass_firsts(plane, first);
        Share {
            wanted: share.wanted - firsts,
            there: share.there - firsts,
        }
    }

    // Leaves the rows before the cut and the wanted ones of its level: of rows that may have more than one value all or none, else
    // the first.
    pub(crate) fn settle(&self, rivals: Rivals, share: Share, key: &Known, found: &mut Mask)
        requires known { IsKnownColumn key.now }
        requires rows { HaveRows (rows_of_column key.now) self.now }
        requires room { length found.old ≡ rows_of_column key.now }
        requires some { count_by (λ b. b) self.now.counted ≢ 0 }
        requires one_range { HaveOneRange key.now self.now }
        ensures rows { length found.new ≡ rows_of_column key.now }
        ensures settles { Settles rivals key.now share self.now found.new }
    {
        let Some(row) = self.counted.first_one() else {
            unreachable!()
        };
        if !may_differ(key, row) {
            found.copy_from(&self.level);
            drop_past(found, &self.counted, share.wanted);
            found.or_into(&self.before);
            return;
        }
        found.copy_from(&self.before);
        if all_wanted(rivals, share) {
            found.or_into(&self.level);
        }
    }
}
