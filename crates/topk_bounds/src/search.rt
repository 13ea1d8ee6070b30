//! The first of some rows in the order of a column, sought plane by plane.

ghost use Rattle.std.specs.Prelude.{◌≡◌, ◌≤◌, ℕ, Bool, List, length, IfOk};
ghost use Rattle.known_column.specs.Columns.{KnownColumn, rows_of_column};
ghost use Rattle.topk_bounds.specs.Cuts.{AreNested, FindsFirst};
ghost use Rattle.topk_bounds.specs.Searches.{HasSearched, HasSearchedSome, IsKept, IsSearch};

use crate::cut::{Cut, Share};
use crate::order::{first_digit, read_planes};
use crate::rivals::Rivals;
use known_column::Known;
use plane_kernels::Mask;
use std::alloc::{AllocError, Global};

// A cut of the rows, and how many planes of the sort key were followed to it. Where fewer rows are counted than are wanted, no
// plane is followed, and all rows are in its level.
pub struct Search {
    pub(crate) cut: Cut,
    pub(crate) share: Share,
    pub(crate) read: u8,
}

// A call of its own: a derived drop is proved anew wherever one is let go.
impl Drop for Search {
    fn drop(self) {
        let Search {
            cut: _,
            share: _,
            read: _,
        } = self;
    }
}

impl Search {
    // Room for so many rows. Nothing is sought yet.
    pub(crate) fn open(alloc: Global, rows: usize) -> Result<Search, AllocError>
        ensures { IfOk result (IsKept rows) }
    {
        let cut = Cut::open(alloc, rows)?;
        let there = cut.counted.count();
        let share = Share { wanted: 0, there };
        Ok(Search {
            cut,
            share,
            read: 0,
        })
    }

    // Seeks the rows of `among` that fewer counted rows come before than are asked for. No plane is followed yet.
    pub(crate) fn begin(&mut self, counted: &Mask, among: &Mask, limit: u64)
        requires some { 1 ≤ limit }
        requires kept { IsKept (length among.now) self.old }
        requires counted { length counted.now ≡ length among.now }
        ensures kept { IsKept (length among.now) self.new }
        ensures read { self.new.read ≡ 0 }
        ensures searches { (down : Bool) (key : KnownColumn) → IsSearch down key counted.now among.now limit self.new }
    {
        let there = self.cut.begin(counted, among);
        self.share = Share {
            wanted: limit,
            there,
        };
        self.read = 0;
    }

    // Follows the planes of the key that were read since.
    pub(crate) fn follow(&mut self, down: bool, key: &Known)
        requires kept { IsKept (rows_of_column key.now) self.old }
        requires read { self.old.read ≤ key.now.known.read }
        ensures kept { IsKept (rows_of_column key.now) self.new }
        ensures searched { (counted among : List Bool) (limit : ℕ) → length among ≡ rows_of_column key.now
            → IsSearch down key.now counted among limit self.old → HasSearched down key.now counted among limit self.new }
    {
        let followed = self.read;
        self.read = read_planes(key);
        if self.share.there < self.share.wanted {
            return;
        }
        for plane in followed..self.read {
            let first = first_digit(down, key.nullable(), plane);
            self.share = self.cut.narrow(self.share, key.plane(plane), first);
        }
    }

    // Leaves the rows that are found, where all planes of the key were followed.
    pub(crate) fn find(&self, rivals: Rivals, key: &Known, found: &mut Mask)
        requires kept { IsKept (rows_of_column key.now) self.now }
        requires room { length found.old ≡ rows_of_column key.now }
        requires searched { HasSearchedSome key.now self.now }
        ensures rows { length found.new ≡ rows_of_column key.now }
        ensures found { (down : Bool) (counted among : List Bool) (limit : ℕ) →
            length among ≡ rows_of_column key.now → length counted ≡ rows_of_column key.now →
            HasSearched down key.now counted among limit self.now → AreNested rivals counted among →
            FindsFirst rivals down key.now counted among limit found.new }
    {
        let _planes = read_planes(key);
        if self.share.there < self.share.wanted {
            found.copy_from(&self.cut.level);
            return;
        }
        self.cut.settle(rivals, self.share, key, found);
    }
}
