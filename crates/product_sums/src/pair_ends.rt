//! Ends of a product of a column and a part that is linear in another column, added up by what the planes of both columns gave.

ghost use Rattle.std.specs.Prelude.{◌≡◌, ◌*ℤ◌, pos, IsTrue};
ghost use Rattle.std.specs.Int.{int_wrap, w128};
ghost use Rattle.query_model.specs.Knowledge.{known_at};
ghost use Rattle.query_model.specs.Queries.{term_of, Column};
ghost use Rattle.product_sums.specs.KeptProducts.{factor_end, first_number, inner_end, is_clipped, AreClipped, AreReadOn};
ghost use Rattle.product_sums.specs.KeptProducts.{CanFollowPair, IsLinear, IsPair};
ghost use Rattle.product_sums.specs.Products.{sum_over, HasValues};

use crate::column_ends::{weight_of_all, weight_of_digits, weight_of_top};
use crate::even_masks::has_all_rows;
use crate::factors::{Factor, PartEnds};
use crate::first_numbers::sum_first;
use crate::linear_sums::{ColumnSums, is_clipped, sum_linear};
use crate::pair_sums::{Pair, PairSums};
use crate::some_rows::{PartRows, SomeRows};
use crate::top_sums::sum_clipped;
use crate::wrapping::{minus, plus, times};
use aggregates::End;
use known_column::LentColumns;

// What the rows at the prefix of the second column's top give less at its high end: as rows, and as numbers of the first column.
#[derive(Drop)]
pub(crate) struct Clipped {
    pub(crate) rows: i128,
    pub(crate) numbers: i128,
}

// Some rows, and what all planes of two columns gave over them.
#[derive(Drop)]
pub(crate) struct PairRows<'a> {
    pub(crate) rows: &'a PartRows<'a>,
    pub(crate) pair: Pair,
    pub(crate) sums: PairSums,
}

impl<'b> PairRows<'b> {
    // What is less at the second column's high end. While the whole table is at the prefix of its top, no row is counted.
    fn clip(&self, columns: &LentColumns<'_>) -> Clipped
        requires pair { IsPair columns.now self.now.pair }
        requires sums { AreReadOn columns.now self.now.rows.now self.now.pair self.now.sums }
        ensures { AreClipped columns.now self.now.rows.now self.now.pair result }
    {
        let _rows = columns.rows();
        let known = columns.column(usize::from(self.pair.second));
        let weight = weight_of_top(End::High, known);
        if weight == 0 {
            return Clipped {
                rows: 0,
                numbers: 0,
            };
        }
        if has_all_rows(known.at_top()) {
            return Clipped {
                rows: times(weight, i128::from(self.rows.count())),
                numbers: times(weight, self.sums.first),
            };
        }
        let tops = SomeRows::within(self.rows, known.at_top());
        let less = sum_first(columns, self.pair.first, self.sums.first_read, &tops);
        Clipped {
            rows: times(weight, less.rows),
            numbers: times(weight, less.numbers),
        }
    }

    // The same, where an end of the other part takes that high end.
    fn clip_where<'a>(&self, columns: &LentColumns<'_>, other: Factor<'a>) -> Clipped
        requires pair { IsPair columns.now self.now.pair }
        requires sums { AreReadOn columns.now self.now.rows.now self.now.pair self.now.sums }
        ensures { IsTrue (is_clipped other.entry.end (term_of other.entry.term.now))
            → AreClipped columns.now self.now.rows.now self.now.pair result }
    {
        if is_clipped(other.term, other.end) {
            self.clip(columns)
        } else {
            Clipped {
                rows: 0,
                numbers: 0,
            }
        }
    }

    // An end of the other part at the rows, added up.
    fn sum_alone<'a>(&self, columns: &LentColumns<'_>, clipped: &Clipped, other: Factor<'a>) -> i128
        requires pair { IsPair columns.now self.now.pair }
        requires sums { AreReadOn columns.now self.now.rows.now self.now.pair self.now.sums }
        requires clipped { IsTrue (is_clipped other.end (term_of other.term.now))
            → AreClipped columns.now self.now.rows.now self.now.pair clipped.now }
        requires linear { IsLinear self.now.pair.second (term_of other.term.now) }
        requires values { HasValues columns.now (term_of other.term.now) self.now.rows.now }
        ensures { result ≡ int_wrap w128 (sum_over self.now.rows.now (factor_end columns.now other.entry)) }
    {
        let _rows = columns.rows();
        let sums = ColumnSums {
            all: i128::from(self.rows.count()),
            numbers: self.sums.second,
            clipped: clipped.rows,
        };
        sum_linear(columns, self.pair.second, &sums, other.term, other.end)
    }

    // The same, each times the number that the first column's digits make.
    fn sum_numbered<'a>(
        &self,
        columns: &LentColumns<'_>,
        clipped: &Clipped,
        other: Factor<'a>,
    ) -> i128
        requires pair { IsPair columns.now self.now.pair }
        requires sums { AreReadOn columns.now self.now.rows.now self.now.pair self.now.sums }
        requires clipped { IsTrue (is_clipped other.end (term_of other.term.now))
            → AreClipped columns.now self.now.rows.now self.now.pair clipped.now }
        requires linear { IsLinear self.now.pair.second (term_of other.term.now) }
        requires values { HasValues columns.now (term_of other.term.now) self.now.rows.now }
        ensures { result ≡ int_wrap w128 (sum_over self.now.rows.now
            (λ r. pos (first_number columns.now self.now.pair.first (known_at columns.now.known self.now.pair.first).read r)
            *ℤ factor_end columns.now other.entry r)) }
    {
        let _rows = columns.rows();
        let sums = ColumnSums {
            all: self.sums.first,
            numbers: self.sums.both,
            clipped: clipped.numbers,
        };
        sum_linear(columns, self.pair.second, &sums, other.term, other.end)
    }

    // The end of the product at the rows, added up.
    pub(crate) fn sum<'a>(&self, columns: &LentColumns<'_>, parts: PartEnds<'a>) -> i128
        requires pair { IsPair columns.now self.now.pair }
        requires sums { AreReadOn columns.now self.now.rows.now self.now.pair self.now.sums }
        requires follow { CanFollowPair columns.now self.now.rows.now self.now.pair parts }
        ensures { result ≡ int_wrap w128 (sum_over self.now.rows.now (inner_end columns.now self.now.pair.first parts.entry)) }
    {
        let _rows = columns.rows();
        let clipped = self.clip_where(columns, parts.other);
        let known = columns.column(usize::from(self.pair.first));
        let digits = times(
            weight_of_digits(known),
            self.sum_numbered(columns, &clipped, parts.other),
        );
        let alone = self.sum_alone(columns, &clipped, parts.other);
        let all = times(weight_of_all(parts.column, known), alone);
        let less = sum_clipped(columns, self.rows, self.pair.first, parts, alone);
        minus(plus(digits, all), less)
    }
}
