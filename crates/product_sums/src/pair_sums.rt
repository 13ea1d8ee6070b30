//! What the planes of two columns give over some rows: the numbers that they make, and their products, added up. A plane more of either
//! column doubles what it had, and adds what the other column has over the rows with its bit.

ghost use Rattle.std.specs.Prelude.{◌≡◌, ◌≤◌, ◌<◌, ◌+◌, length, ℤ, pos, ◌*ℤ◌, ◌+ℤ◌, ◌-ℤ◌};
ghost use Rattle.std.specs.Int.{int_wrap, w128};
ghost use Rattle.known_column.specs.KnownTables.{column_at};
ghost use Rattle.query_model.specs.Knowledge.{known_at};
ghost use Rattle.product_sums.specs.Fetched.{first_digit};
ghost use Rattle.product_sums.specs.KeptProducts.{no_sums, turned_pair, turned_sums, ArePairSums, AreReadOn, IsPair};

use crate::first_numbers::sum_first;
use crate::some_rows::{PartRows, SomeRows};
use crate::wrapping::{minus, plus, times};
use aggregates::number_planes;
use known_column::LentColumns;

// Two columns, or one twice.
#[derive(Clone, Copy)]
pub(crate) struct Pair {
    pub(crate) first: u8,
    pub(crate) second: u8,
}

impl Pair {
    // The same the other way round.
    fn turned(self) -> Pair
        ensures { result ≡ turned_pair self }
    {
        Pair {
            first: self.second,
            second: self.first,
        }
    }
}

// A sum, twice, and what a plane more adds.
pub(crate) fn doubled(sum: i128, more: i128) -> i128
    ensures { (a b : ℤ) → sum ≡ int_wrap w128 a → more ≡ int_wrap w128 b → result ≡ int_wrap w128 ((a *ℤ pos 2) +ℤ b) }
{
    plus(times(sum, 2), more)
}

// A sum, with what rows gave that came, and without what those gave that left.
fn moved(sum: i128, came: i128, left: i128) -> i128
    ensures { (a b c : ℤ) → sum ≡ int_wrap w128 a → came ≡ int_wrap w128 b → left ≡ int_wrap w128 c
        → result ≡ int_wrap w128 ((a +ℤ b) -ℤ c) }
{
    minus(plus(sum, came), left)
}

// How many planes were read of each of two columns, the numbers that they make, added up, and the products of these, added up.
#[derive(Clone, Copy)]
pub(crate) struct PairSums {
    pub(crate) first_read: u8,
    pub(crate) second_read: u8,
    pub(crate) first: i128,
    pub(crate) second: i128,
    pub(crate) both: i128,
}

impl PairSums {
    // What no plane gives.
    pub(crate) fn none() -> PairSums
        ensures { result ≡ no_sums }
    {
        PairSums {
            first_read: 0,
            second_read: 0,
            first: 0,
            second: 0,
            both: 0,
        }
    }

    // The same the other way round.
    fn turned(self) -> PairSums
        ensures { result ≡ turned_sums self }
    {
        PairSums {
            first_read: self.second_read,
            second_read: self.first_read,
            first: self.second,
            second: self.first,
            both: self.both,
        }
    }

    // The sums once rows came and others left.
    pub(crate) fn moved(self, came: PairSums, left: PairSums) -> PairSums
        ensures first_read { result.first_read ≡ self.first_read }
        ensures second_read { result.second_read ≡ self.second_read }
        ensures first { (a b c : ℤ) → self.first ≡ int_wrap w128 a → came.first ≡ int_wrap w128 b → left.first ≡ int_wrap w128 c
            → result.first ≡ int_wrap w128 ((a +ℤ b) -ℤ c) }
        ensures second { (a b c : ℤ) → self.second ≡ int_wrap w128 a → came.second ≡ int_wrap w128 b → left.second ≡ int_wrap w128 c
            → result.second ≡ int_wrap w128 ((a +ℤ b) -ℤ c) }
        ensures both { (a b c : ℤ) → self.both ≡ int_wrap w128 a → came.both ≡ int_wrap w128 b → left.both ≡ int_wrap w128 c
            → result.both ≡ int_wrap w128 ((a +ℤ b) -ℤ c) }
    {
        PairSums {
            first_read: self.first_read,
            second_read: self.second_read,
            first: moved(self.first, came.first, left.first),
            second: moved(self.second, came.second, left.second),
            both: moved(self.both, came.both, left.both),
        }
    }
}

// A plane more of the first column.
fn read_plane(
    columns: &LentColumns<'_>,
    pair: Pair,
    sums: PairSums,
    rows: &PartRows<'_>,
) -> PairSums
    requires pair { IsPair columns.now pair }
    requires sums { ArePairSums columns.now rows.now pair sums }
    requires digit { first_digit (column_at columns.now pair.first) ≤ sums.first_read }
    requires unread { sums.first_read < (known_at columns.now.known pair.first).read }
    ensures sums { ArePairSums columns.now rows.now pair result }
    ensures first { result.first_read ≡ sums.first_read + 1 }
    ensures second { result.second_read ≡ sums.second_read }
{
    let _rows = columns.rows();
    let known = columns.column(usize::from(pair.first));
    let _planes = number_planes(known);
    let ones = SomeRows::with(rows, known.plane(sums.first_read));
    let more = sum_first(columns, pair.second, sums.second_read, &ones);
    PairSums {
        first_read: sums.first_read + 1,
        second_read: sums.second_read,
        first: doubled(sums.first, more.rows),
        second: sums.second,
        both: doubled(sums.both, more.numbers),
    }
}

// All planes more of the first column.
fn read_first(
    columns: &LentColumns<'_>,
    pair: Pair,
    sums: PairSums,
    rows: &PartRows<'_>,
) -> PairSums
    requires pair { IsPair columns.now pair }
    requires sums { ArePairSums columns.now rows.now pair sums }
    ensures sums { ArePairSums columns.now rows.now pair result }
    ensures first { result.first_read ≡ (known_at columns.now.known pair.first).read }
    ensures second { result.second_read ≡ sums.second_read }
{
    let _rows = columns.rows();
    let (from, to) = number_planes(columns.column(usize::from(pair.first)));
    let begin = from.max(sums.first_read);
    let mut sums = PairSums {
        first_read: begin,
        second_read: sums.second_read,
        first: sums.first,
        second: sums.second,
        both: sums.both,
    };
    for _j in begin..to {
        sums = read_plane(columns, pair, sums, rows);
    }
    sums
}

// All planes more of both.
pub(crate) fn read_on(
    columns: &LentColumns<'_>,
    pair: Pair,
    sums: PairSums,
    rows: &PartRows<'_>,
) -> PairSums
    requires pair { IsPair columns.now pair }
    requires sums { ArePairSums columns.now rows.now pair sums }
    ensures { AreReadOn columns.now rows.now pair result }
{
    let first = read_first(columns, pair, sums, rows);
    let second = read_first(columns, pair.turned(), first.turned(), rows);
    second.turned()
}
