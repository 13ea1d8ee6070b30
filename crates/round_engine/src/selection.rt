//! The rows that give a column's values to an item, as masks.

ghost use Rattle.std.specs.Prelude.{◌≡◌, ◌&&◌, length, map, IfOk, IsFalse};
ghost use Rattle.std.specs.Simd.Lanes.{zip2};
ghost use Rattle.kleene_filter.specs.Filters.{is_certain, is_possible};
ghost use Rattle.known_column.specs.Columns as column;
ghost use Rattle.known_column.specs.Columns.{is_sure, rows_of_column, rows_where};
ghost use Rattle.round_engine.specs.declared.selection.Selection.{Selection};
ghost use Rattle.round_engine.specs.Selected.{AreCounts, HasEach, HasRows};

use kleene_filter::Filter;
use known_column::Known;
use plane_kernels::Mask;
use std::alloc::{AllocError, Global};
use std::marker::Model;

// The rows that may give a value, and of them those that surely do.
#[derive(Drop)]
pub(crate) struct Selection {
    pub(crate) may: Mask,
    pub(crate) must: Mask,
}

// The same rows, wherever they are kept.
#[derive(Drop)]
pub(crate) struct Selected<'a> {
    pub(crate) may: &'a Mask,
    pub(crate) must: &'a Mask,
}

impl<'a> Model for Selected<'a> {
    ghost use Rattle.round_engine.specs.declared.selection.Selection.{Selection};

    ghost Value = { Selection };

    ghost view = { λ s. record { may = s.may.now; must = s.must.now } };
}

// How many rows may give a value, and how many surely do.
#[derive(Clone, Copy)]
pub(crate) struct RowCounts {
    pub(crate) most: u64,
    pub(crate) fewest: u64,
}

// At how many rows a condition may hold, and at how many it surely does.
pub(crate) fn counts_of(filter: &Filter) -> RowCounts
    ensures { (rows : Selection) → rows.may ≡ map is_possible filter.now.truths → rows.must ≡ map is_certain filter.now.truths
        → AreCounts rows result }
{
    let most = filter.possible();
    RowCounts {
        most,
        fewest: most - filter.unknown(),
    }
}

// The rows at which a condition holds, which all have a value in a column that is never null.
pub(crate) fn select_all<'a>(filter: &'a Filter, known: &Known) -> Selected<'a>
    requires never_null { IsFalse known.now.ends.nullable }
    requires rows { length filter.now.truths ≡ rows_of_column known.now }
    ensures may { result.may ≡ zip2 (λ a b. a && b) (map is_possible filter.now.truths) (rows_where column.is_possible known.now) }
    ensures must { result.must ≡ zip2 (λ a b. a && b) (map is_certain filter.now.truths) (rows_where is_sure known.now) }
{
    Selected {
        may: filter.may(),
        must: filter.must(),
    }
}

// Whether a condition or the nulls of a column may leave out rows. If not, the condition surely holds at each row, and each has a value.
pub(crate) fn leaves_out(filter: &Filter, known: &Known) -> bool
    ensures never_null { IsFalse result → IsFalse known.now.ends.nullable }
    ensures each { IsFalse result → HasEach (map is_certain filter.now.truths) }
{
    let each = filter.must().rows() as u64;
    known.nullable() | (counts_of(filter).fewest < each)
}

// Those of some rows at which a condition holds and a column has a value, where neither leaves out rows.
pub(crate) fn select_part<'a>(within: &'a Mask, filter: &Filter, known: &Known) -> Selected<'a>
    requires never_null { IsFalse known.now.ends.nullable }
    requires each { HasEach (map is_certain filter.now.truths) }
    requires within { length within.now ≡ rows_of_column known.now }
    requires rows { length filter.now.truths ≡ rows_of_column known.now }
    ensures may { result.may ≡ zip2 (λ a b. a && b) (zip2 (λ a b. a && b) within.now (map is_possible filter.now.truths))
        (rows_where column.is_possible known.now) }
    ensures must { result.must ≡ zip2 (λ a b. a && b) (zip2 (λ a b. a && b) within.now (map is_certain filter.now.truths))
        (rows_where is_sure known.now) }
{
    Selected {
        may: within,
        must: within,
    }
}

impl Selection {
    // Room for so many rows.
    pub(crate) fn open(alloc: Global, rows: usize) -> Result<Selection, AllocError>
        ensures { IfOk result (HasRows rows) }
    {
        Ok(Selection {
            may: Mask::none(alloc, rows)?,
            must: Mask::none(alloc, rows)?,
        })
    }

    // Selects the rows at which a condition holds and a column has a value.
    pub(crate) fn select(&mut self, filter: &Filter, known: &Known)
        requires room { HasRows (rows_of_column known.now) self.old }
        requires rows { length filter.now.truths ≡ rows_of_column known.now }
        ensures may { self.new.may ≡ zip2 (λ a b. a && b) (map is_possible filter.now.truths) (rows_where column.is_possible known.now) }
        ensures must { self.new.must ≡ zip2 (λ a b. a && b) (map is_certain filter.now.truths) (rows_where is_sure known.now) }
    {
        self.may.copy_from(filter.may());
        self.may.and_into(known.possible());
        self.must.copy_from(filter.must());
        self.must.and_into(known.sure());
    }

    // Selects those of some rows at which a condition holds and a column has a value.
    pub(crate) fn select_within(&mut self, within: &Mask, filter: &Filter, known: &Known)
        requires room { HasRows (rows_of_column known.now) self.old }
        requires within { length within.now ≡ rows_of_column known.now }
        requires rows { length filter.now.truths ≡ rows_of_column known.now }
        ensures may { self.new.may ≡ zip2 (λ a b. a && b) (zip2 (λ a b. a && b) within.now (map is_possible filter.now.truths))
            (rows_where column.is_possible known.now) }
        ensures must { self.new.must ≡ zip2 (λ a b. a && b) (zip2 (λ a b. a && b) within.now (map is_certain filter.now.truths))
            (rows_where is_sure known.now) }
    {
        self.may.copy_from(within);
        self.may.and_into(filter.may());
        self.may.and_into(known.possible());
        self.must.copy_from(within);
        self.must.and_into(filter.must());
        self.must.and_into(known.sure());
    }

    // Lends them.
    pub(crate) fn lend(&self) -> Selected<'_>
        ensures { result ≡ self.now }
    {
        Selected {
            may: &self.may,
            must: &self.must,
        }
    }
}
