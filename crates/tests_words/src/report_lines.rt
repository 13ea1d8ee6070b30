//! What the lines of a report say, read back.

use query_model::{Bound, ItemKind, Nullity};
use report_text::{
    Answer, Form, Number, Ratio, ReportEnd, ShownAverage, ShownBound, is_round_line, read_average,
    read_bound, read_end, read_item, read_parts, text_of_item,
};

fn bound(decimals: u8, null: Nullity, lo: i128, hi: i128) -> Option<ShownBound> {
    bound_in(Form::Decimals(decimals), null, lo, hi)
}

fn bound_in(form: Form, null: Nullity, lo: i128, hi: i128) -> Option<ShownBound> {
    Some(ShownBound {
        form,
        bound: Bound { null, lo, hi },
    })
}

#[test]
fn bounds_are_read_as_they_stand(rt: HostRuntime) {
    assert_eq!(rt; read_bound(b"0"), bound(0, Nullity::Never, 0, 0));
    assert_eq!(rt; read_bound(b"-7"), bound(0, Nullity::Never, -7, -7));
    assert_eq!(rt;
        read_bound(b"[-0.05, 12.30]"),
        bound(2, Nullity::Never, -5, 1230)
    );
    assert_eq!(rt;
        read_bound(b"[3, 4] or null"),
        bound(0, Nullity::Possibly, 3, 4)
    );
    assert_eq!(rt;
        read_bound(b"1.5 or null"),
        bound(1, Nullity::Possibly, 15, 15)
    );
    assert_eq!(rt; read_bound(b"null"), bound(0, Nullity::Always, 0, 0));
    assert_eq!(rt;
        read_bound(
            b"[-170141183460469231731687303715884105728, 170141183460469231731687303715884105727]"
        ),
        bound(0, Nullity::Never, i128::MIN, i128::MAX)
    );
}

#[test]
fn dates_are_read_as_they_stand(rt: HostRuntime) {
    let date = Form::Date;
    assert_eq!(rt;
        read_bound(b"[2024-02-29, 2024-03-01]"),
        bound_in(date, Nullity::Never, 19782, 19783)
    );
    assert_eq!(rt;
        read_bound(b"[0000-01-01, 9999-12-31] or null"),
        bound_in(date, Nullity::Possibly, -719528, 2932896)
    );
    assert_eq!(rt;
        read_bound(b"1969-12-31"),
        bound_in(date, Nullity::Never, -1, -1)
    );
    let others: [&[u8]; 5] = [
        b"2023-02-29",
        b"2024-2-29",
        b"[2024-03-01, 2024-02-29]",
        b"[2024-02-29, 20240301]",
        b"10000-01-01",
    ];
    for text in others {
        assert!(rt; read_bound(text).is_none());
    }
    assert!(rt; read_item(ItemKind::Max, 1, b"1 2024-02-29").is_some());
    assert!(rt; read_item(ItemKind::Sum, 1, b"1 2024-02-29").is_none());
    assert!(rt; read_item(ItemKind::Count, 1, b"1 2024-02-29").is_none());
}

#[test]
fn other_texts_are_no_bounds(rt: HostRuntime) {
    let others: [&[u8]; 16] = [
        b"",
        b"-",
        b"-0",
        b"+1",
        b"01",
        b"1.",
        b".5",
        b"1 ",
        b"[1, 1]",
        b"[2, 1]",
        b"[1,2]",
        b"[1, 2",
        b"[1, 2.0]",
        b"null or null",
        b"1/2",
        b"170141183460469231731687303715884105728",
    ];
    for text in others {
        assert!(rt; read_bound(text).is_none());
    }
}

fn ratio(decimals: u8, units: i128, rows: u64) -> Ratio {
    Ratio {
        sum: Number { decimals, units },
        rows,
    }
}

#[test]
fn averages_are_read_as_they_stand(rt: HostRuntime) {
    assert_eq!(rt;
        read_average(b"[-1.5/2, 3.0/18446744073709551615] or null"),
        Some(ShownAverage {
            null: Nullity::Possibly,
            low: ratio(1, -15, 2),
            high: ratio(1, 30, u64::MAX),
        })
    );
    assert_eq!(rt;
        read_average(b"6/2"),
        Some(ShownAverage {
            null: Nullity::Never,
            low: ratio(0, 6, 2),
            high: ratio(0, 6, 2),
        })
    );
    let others: [&[u8]; 6] = [
        b"6",
        b"6/0",
        b"6/02",
        b"[6/2, 6/2]",
        b"[6/2, 3.0/1]",
        b"6/2/1",
    ];
    for text in others {
        assert!(rt; read_average(text).is_none());
    }
}

#[test]
fn an_item_has_its_number(rt: HostRuntime) {
    assert_eq!(rt; text_of_item(b"12 [1, 2]", 12), Some(b"[1, 2]".as_slice()));
    assert_eq!(rt; text_of_item(b"12 [1, 2]", 1), None);
    assert_eq!(rt; text_of_item(b"1 clip 2", 1), Some(b"clip 2".as_slice()));
}

#[test]
fn an_item_is_read_by_its_kind(rt: HostRuntime) {
    assert_eq!(rt;
        read_item(ItemKind::Sum, 2, b"2 [3, 4] or null"),
        Some(Answer::Value(ShownBound {
            form: Form::Decimals(0),
            bound: Bound {
                null: Nullity::Possibly,
                lo: 3,
                hi: 4,
            },
        }))
    );
    assert!(rt; read_item(ItemKind::Avg, 1, b"1 6/2").is_some());
    assert!(rt; read_item(ItemKind::Max, 1, b"1 6/2").is_none());
    assert!(rt; read_item(ItemKind::Count, 1, b"1 [0, 7]").is_some());
    assert!(rt; read_item(ItemKind::Count, 1, b"1 null").is_none());
    assert!(rt; read_item(ItemKind::Count, 1, b"1 2.0").is_none());
}

#[test]
fn rounds_and_ends_are_known(rt: HostRuntime) {
    assert!(rt; is_round_line(0, b"round 0"));
    assert!(rt; is_round_line(12, b"round 12 price 3/4"));
    assert!(rt; !is_round_line(1, b"round 12 price 3/4"));
    assert!(rt; !is_round_line(1, b"round 1price"));
    assert_eq!(rt; read_end(b"end narrow"), Some(ReportEnd::Narrow));
    assert_eq!(rt; read_end(b"end rounds"), Some(ReportEnd::Rounds));
    assert_eq!(rt; read_end(b"end reads"), Some(ReportEnd::Reads));
    assert_eq!(rt; read_end(b"end"), None);
    assert_eq!(rt; read_parts(b"parts 12"), Some(12));
    assert_eq!(rt; read_parts(b"parts 012"), None);
}
