//! Whether masks have all rows, or the same rows.

ghost use Rattle.std.specs.Prelude.{◌≡◌, length, count_by, IsTrue};

use plane_kernels::Mask;

// Whether both words have the same rows.
#[inline(always)]
fn are_same(words: &[u64; 8], others: &[u64; 8]) -> bool
    ensures { IsTrue result → words.now ≡ others.now }
{
    words == others
}

// Whether a mask has no row.
fn has_no_row(mask: &Mask) -> bool
    ensures { IsTrue result → count_by (λ b. b) mask.now ≡ 0 }
{
    mask.first_one().is_none()
}

// Whether a mask has all rows: where its first 64 say so, the others are counted.
pub(crate) fn has_all_rows(mask: &Mask) -> bool
    ensures { IsTrue result → count_by (λ b. b) mask.now ≡ length mask.now }
{
    mask.rows() > 0 && mask.word(0) == u64::MAX && mask.count() == mask.rows() as u64
}

// Whether both masks have no row, or both have all: of even masks no word is read.
fn are_both_even(mask: &Mask, other: &Mask) -> bool
    requires { length other.now ≡ length mask.now }
    ensures { IsTrue result → mask.now ≡ other.now }
{
    if has_no_row(mask) {
        return has_no_row(other);
    }
    has_all_rows(mask) && has_all_rows(other)
}

// Whether both masks have the same rows.
pub(crate) fn have_same_rows(mask: &Mask, other: &Mask) -> bool
    requires { length other.now ≡ length mask.now }
    ensures { IsTrue result → mask.now ≡ other.now }
{
    if are_both_even(mask, other) {
        return true;
    }
    for block in 0..mask.rows().div_ceil(512) {
        if !are_same(&mask.block(block), &other.block(block)) {
            return false;
        }
    }
    true
}
