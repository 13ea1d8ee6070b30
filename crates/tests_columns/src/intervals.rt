//! Sums, differences and products of intervals, to their ends, and fractions.

use interval_calc::{Fraction, Interval, add, exactly, hull0, mul, narrow, sub, times};

const FIRST: Interval = Interval { lo: -2, hi: 3 };

const SECOND: Interval = Interval { lo: -5, hi: 4 };

const BELOW: Interval = Interval { lo: -5, hi: -4 };

#[test]
fn results_lie_within(rt: HostRuntime) {
    assert_eq!(rt; add(FIRST, SECOND), Some(Interval { lo: -7, hi: 7 }));
    assert_eq!(rt; sub(FIRST, SECOND), Some(Interval { lo: -6, hi: 8 }));
    assert_eq!(rt; mul(FIRST, SECOND), Some(Interval { lo: -15, hi: 12 }));
    assert_eq!(rt; mul(BELOW, BELOW), Some(Interval { lo: 16, hi: 25 }));
    assert_eq!(rt; times(BELOW, 3), Some(Interval { lo: -15, hi: -12 }));
    assert_eq!(rt; times(BELOW, 0), Some(exactly(0)));
    assert_eq!(rt; hull0(BELOW), Interval { lo: -5, hi: 0 });
    assert_eq!(rt; hull0(exactly(7)), Interval { lo: 0, hi: 7 });
}

#[test]
fn ends_are_reached(rt: HostRuntime) {
    let greatest = exactly(i128::MAX);
    let least = exactly(i128::MIN);
    assert_eq!(rt; add(greatest, exactly(0)), Some(greatest));
    assert_eq!(rt; add(greatest, exactly(1)), None);
    assert_eq!(rt; sub(exactly(-1), least), Some(greatest));
    assert_eq!(rt; sub(exactly(0), least), None);
    assert_eq!(rt; mul(least, exactly(1)), Some(least));
    assert_eq!(rt; mul(least, exactly(-1)), None);
    assert_eq!(rt;
        times(exactly(-1 << 63), u64::MAX),
        Some(exactly((1 << 63) + i128::MIN))
    );
    assert_eq!(rt; times(exactly(1 << 64), u64::MAX), None);
}

#[test]
fn fractions_are_compared(rt: HostRuntime) {
    let half = Fraction { num: 1, den: 2 };
    let below = Fraction { num: -7, den: 3 };
    assert_eq!(rt; narrow(half, half, 0), true);
    assert_eq!(rt; narrow(below, half, 3), true);
    assert_eq!(rt; narrow(below, half, 2), false);
}
