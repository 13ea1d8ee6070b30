//! Sets of truths: what a test of values may be where some may be null.

ghost use Rattle.std.specs.Prelude.{◌≡◌, false};
ghost use Rattle.query_model.specs.Truths.{may_be_null, may_be_number, one_null, truth_from, truths_from};

use query_model::{Nullity, Truth, Truths};

// The truth of a test that holds for all numbers or not, and for some or not.
pub(crate) fn known_from(always: bool, sometimes: bool) -> Truth
    ensures { result ≡ truth_from always sometimes }
{
    if always {
        Truth::True
    } else if sometimes {
        Truth::Unknown
    } else {
        Truth::False
    }
}

// Whether a value may be null.
fn may_be_null(null: Nullity) -> bool
    ensures { result ≡ may_be_null null }
{
    match null {
        Nullity::Never => false,
        Nullity::Possibly => true,
        Nullity::Always => true,
    }
}

// Whether a value may be a number.
fn may_be_number(null: Nullity) -> bool
    ensures { result ≡ may_be_number null }
{
    match null {
        Nullity::Never => true,
        Nullity::Possibly => true,
        Nullity::Always => false,
    }
}

// The truths of a test of a value: null where the value is, else as it is on the numbers.
pub(crate) fn test_of_one(null: Nullity, on_numbers: Truth) -> Truths
    ensures { result ≡ truths_from null on_numbers }
{
    let number = may_be_number(null);
    Truths {
        may_hold: number && on_numbers != Truth::False,
        may_fail: number && on_numbers != Truth::True,
        may_be_null: may_be_null(null),
    }
}

// The truths of a test of two values: null where one of them is.
pub(crate) fn test_of_two(left: Nullity, right: Nullity, on_numbers: Truth) -> Truths
    ensures { result ≡ truths_from (one_null left right) on_numbers }
{
    let numbers = may_be_number(left) && may_be_number(right);
    Truths {
        may_hold: numbers && on_numbers != Truth::False,
        may_fail: numbers && on_numbers != Truth::True,
        may_be_null: may_be_null(left) || may_be_null(right),
    }
}

// The truths of whether a value is null, which is never null itself.
pub(crate) fn test_of_null(null: Nullity) -> Truths
    ensures { result ≡ record { may_hold = may_be_null null; may_fail = may_be_number null; may_be_null = false } }
{
    Truths {
        may_hold: may_be_null(null),
        may_fail: may_be_number(null),
        may_be_null: false,
    }
}
