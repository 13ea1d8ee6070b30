//! The laws of averages beside their sums. Each stands on a function that does nothing.

ghost use Rattle.narrow_averages.specs.Beside.{BesidesStand};

/// An average beside its sum and its number of values: its bound contains it, nests, looks exact only where it says them,
/// says them where they are told, and is as narrow as that of all rows together.
pub fn besides_stand()
    ensures { BesidesStand }
{}
