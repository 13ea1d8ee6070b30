//! Intervals whose ends are numbers of 64 bits.

ghost use Rattle.std.specs.Prelude.{◌≤ℤ◌};

/// The whole numbers from `lo` to `hi`, both included.
#[derive(Clone, Copy)]
pub struct ShortInterval {
    pub lo: i64,
    pub hi: i64,
    pub ghost ordered: { lo ≤ℤ hi },
}

// The interval of the number 0.
pub(crate) const ZERO: ShortInterval = ShortInterval { lo: 0, hi: 0 };
