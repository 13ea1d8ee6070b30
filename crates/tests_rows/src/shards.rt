//! Bounds over the shards of a table, worked out by hand.

ghost use Rattle.std.specs.Prelude.{◌<◌};

use interval_calc::Fraction;
use query_model::{AverageBound, Bound, ItemKind, Nullity};
use shard_bounds::{average_from, combine, combine_averages, meet_of_two};

fn bound(null: Nullity, lo: i128, hi: i128) -> Bound {
    Bound { null, lo, hi }
}

const CERTAIN: Bound = Bound {
    null: Nullity::Never,
    lo: 1,
    hi: 5,
};

const POSSIBLE: Bound = Bound {
    null: Nullity::Possibly,
    lo: -3,
    hi: 4,
};

const EMPTY: Bound = Bound {
    null: Nullity::Always,
    lo: 0,
    hi: 0,
};

#[test]
fn shards_are_like_rows(rt: HostRuntime) {
    let shards = [CERTAIN, POSSIBLE, EMPTY];
    assert_eq!(rt;
        combine(ItemKind::Sum, &shards),
        Some(bound(Nullity::Never, -2, 9))
    );
    assert_eq!(rt;
        combine(ItemKind::Min, &shards),
        Some(bound(Nullity::Never, -3, 5))
    );
    assert_eq!(rt;
        combine(ItemKind::Max, &shards),
        Some(bound(Nullity::Never, 1, 5))
    );
    assert_eq!(rt; combine(ItemKind::Min, &[POSSIBLE, EMPTY]), Some(POSSIBLE));
    assert_eq!(rt; combine(ItemKind::Sum, &[EMPTY]), Some(EMPTY));
    assert_eq!(rt; combine(ItemKind::Sum, &[]), Some(EMPTY));
}

#[test]
fn a_shard_above_zero_is_not_taken_twice(rt: HostRuntime) {
    let shards = [
        bound(Nullity::Possibly, 2, 7),
        bound(Nullity::Possibly, 3, 3),
    ];
    assert_eq!(rt;
        combine(ItemKind::Sum, &shards),
        Some(bound(Nullity::Possibly, 2, 10))
    );
}

#[test]
fn numbers_of_rows_add_up(rt: HostRuntime) {
    let shards = [bound(Nullity::Never, 2, 4), bound(Nullity::Never, 0, 3)];
    assert_eq!(rt;
        combine(ItemKind::Count, &shards),
        Some(bound(Nullity::Never, 2, 7))
    );
    assert_eq!(rt;
        combine(ItemKind::Count, &[]),
        Some(bound(Nullity::Never, 0, 0))
    );
}

#[test]
fn a_sum_may_leave_128_bits_and_come_back(rt: HostRuntime) {
    let most = bound(Nullity::Never, i128::MAX, i128::MAX);
    let one = bound(Nullity::Never, 1, 1);
    let less = bound(Nullity::Never, -1, -1);
    assert_eq!(rt; combine(ItemKind::Sum, &[most, one, less]), Some(most));
    assert_eq!(rt; combine(ItemKind::Sum, &[most, one]), None);
    assert_eq!(rt; combine(ItemKind::Sum, &[most, most, one, one]), None);
    assert_eq!(rt; combine(ItemKind::Max, &[most, most]), Some(most));
}

fn average(null: Nullity, lo: (i128, u64), hi: (i128, u64)) -> AverageBound
    requires low { 0 < lo.1 }
    requires high { 0 < hi.1 }
{
    AverageBound {
        null,
        lo: Fraction {
            num: lo.0,
            den: lo.1,
        },
        hi: Fraction {
            num: hi.0,
            den: hi.1,
        },
    }
}

#[test]
fn averages_are_exact_or_between(rt: HostRuntime) {
    let six = average(Nullity::Never, (6, 2), (6, 2));
    let one = average(Nullity::Never, (1, 1), (1, 1));
    let wide = average(Nullity::Possibly, (-7, 3), (1, 2));
    let empty = average(Nullity::Always, (0, 1), (0, 1));
    assert_eq!(rt;
        combine_averages(&[six, one, empty]),
        Some(average(Nullity::Never, (7, 3), (7, 3)))
    );
    assert_eq!(rt;
        combine_averages(&[six, wide]),
        Some(average(Nullity::Never, (-7, 3), (6, 2)))
    );
    assert_eq!(rt; combine_averages(&[wide, empty]), Some(wide));
    assert_eq!(rt; combine_averages(&[]), Some(empty));
}

#[test]
fn equal_averages_of_which_one_may_be_null_do_not_look_exact(rt: HostRuntime) {
    let three = average(Nullity::Never, (3, 1), (3, 1));
    let possibly = average(Nullity::Possibly, (3, 1), (3, 1));
    assert_eq!(rt;
        combine_averages(&[three, possibly]),
        Some(average(Nullity::Never, (3, 1), (6, 2)))
    );
    let great = average(Nullity::Never, (i128::MAX, 1), (i128::MAX, 1));
    let possibly_great = average(Nullity::Possibly, (i128::MAX, 1), (i128::MAX, 1));
    assert_eq!(rt; combine_averages(&[great, possibly_great]), None);
}

#[test]
fn great_fractions_are_compared(rt: HostRuntime) {
    let high = average(
        Nullity::Never,
        (i128::MAX, u64::MAX),
        (i128::MAX, u64::MAX - 1),
    );
    let low = average(
        Nullity::Possibly,
        (i128::MAX, u64::MAX - 1),
        (i128::MAX, u64::MAX),
    );
    let both = average(
        Nullity::Never,
        (i128::MAX, u64::MAX),
        (i128::MAX, u64::MAX - 1),
    );
    assert_eq!(rt; combine_averages(&[high, low]), Some(both));
    assert_eq!(rt; combine_averages(&[low, high]), Some(both));
}

#[test]
fn averages_follow_from_sums(rt: HostRuntime) {
    let sum = bound(Nullity::Never, -2, 9);
    let from = average(Nullity::Never, (-2, 2), (9, 2));
    assert_eq!(rt;
        average_from(&sum, &bound(Nullity::Never, 2, 4)),
        Some(from)
    );
    assert_eq!(rt;
        average_from(
            &bound(Nullity::Possibly, 3, 9),
            &bound(Nullity::Never, 0, 4)
        ),
        Some(average(Nullity::Possibly, (3, 4), (9, 1)))
    );
    assert_eq!(rt;
        average_from(&EMPTY, &bound(Nullity::Never, 0, 0)),
        Some(average(Nullity::Always, (0, 1), (0, 1)))
    );
    let many = bound(Nullity::Never, 1, 1 << 64);
    assert_eq!(rt; average_from(&CERTAIN, &many), None);
    assert_eq!(rt;
        meet_of_two(&from, &average(Nullity::Possibly, (-1, 1), (3, 1))),
        average(Nullity::Never, (-2, 2), (3, 1))
    );
}
