//! The least and the greatest of numbers that come one by one.

ghost use Rattle.std.specs.Prelude.{◌≡◌, ℤ, true, List, [], ◌∷◌, ◌++◌, if◌then◌else◌};
ghost use Rattle.query_model.specs.declared.query.ItemKind.TheVariants.{Min, Max};
ghost use Rattle.query_model.specs.Answers.{answer};

// The least of some numbers and one more.
pub(crate) fn lesser(earlier: Option<i128>, number: i128) -> i128
    ensures { (xs : List ℤ) → earlier ≡ answer Min xs → Some result ≡ answer Min (xs ++ number ∷ []) }
{
    match earlier {
        Some(least) => least.min(number),
        None => number,
    }
}

// The greatest of some numbers and one more.
pub(crate) fn greater(earlier: Option<i128>, number: i128) -> i128
    ensures { (xs : List ℤ) → earlier ≡ answer Max xs → Some result ≡ answer Max (xs ++ number ∷ []) }
{
    match earlier {
        Some(greatest) => greatest.max(number),
        None => number,
    }
}

// The least of some numbers and one more, if it is still kept.
pub(crate) fn lesser_if(kept: bool, earlier: Option<i128>, number: i128) -> Option<i128>
    ensures { (xs : List ℤ) → (kept ≡ true → earlier ≡ answer Min xs) → result ≡ (if kept then answer Min (xs ++ number ∷ []) else None) }
{
    if kept {
        Some(lesser(earlier, number))
    } else {
        None
    }
}

// The greatest of them, if it is still kept.
pub(crate) fn greater_if(kept: bool, earlier: Option<i128>, number: i128) -> Option<i128>
    ensures { (xs : List ℤ) → (kept ≡ true → earlier ≡ answer Max xs) → result ≡ (if kept then answer Max (xs ++ number ∷ []) else None) }
{
    if kept {
        Some(greater(earlier, number))
    } else {
        None
    }
}
