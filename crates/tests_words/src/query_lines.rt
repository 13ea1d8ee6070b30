//! Lines of queries in front of reports, and lines that are none.

use query_kinds::{Beside, KindsFault, query_shape};
use query_model::ItemKind;
use std::alloc::Global;
use std::test::Fail;

// How many aggregates the query of the line asks for, the kind of the last of them, and the number of its group columns.
fn last_kind(alloc: Global, line: &[u8]) -> Result<(usize, Option<ItemKind>, usize), KindsFault> {
    query_shape(alloc, line).map(|shape| {
        let kinds = &shape.kinds;
        (kinds.len(), kinds.last().copied(), shape.columns)
    })
}

#[test]
fn lines_of_totals(rt: HostRuntime) -> Result<(), Fail> {
    let lines: [(&[u8], usize, ItemKind); 5] = [
        (b"query SELECT COUNT(*) FROM t", 1, ItemKind::Count),
        (
            b"query SELECT COUNT(*), SUM(price * qty) FROM t WHERE qty > 2",
            2,
            ItemKind::Sum,
        ),
        (b"query SELECT SUM(a), MIN(a) FROM t", 2, ItemKind::Min),
        (b"query SELECT AVG(a), MAX(a) FROM t", 2, ItemKind::Max),
        (
            b"query SELECT COUNT(a), COUNT(*), AVG(qty + 1) FROM t",
            3,
            ItemKind::Avg,
        ),
    ];
    for (line, count, kind) in lines {
        assert_eq!(rt; last_kind(rt.alloc(), line), Ok((count, Some(kind), 0)));
    }
    Ok(())
}

#[test]
fn lines_of_groups(rt: HostRuntime) -> Result<(), Fail> {
    let lines: [(&[u8], usize, ItemKind, usize); 3] = [
        (
            b"query SELECT city, COUNT(*) FROM t GROUP BY city",
            1,
            ItemKind::Count,
            1,
        ),
        (
            b"query SELECT COUNT(*), SUM(a) FROM t GROUP BY city, day",
            2,
            ItemKind::Sum,
            2,
        ),
        (
            b"query SELECT city, AVG(a), day, MIN(a) FROM t GROUP BY city, day",
            2,
            ItemKind::Min,
            2,
        ),
    ];
    for (line, count, kind, columns) in lines {
        assert_eq!(rt;
            last_kind(rt.alloc(), line),
            Ok((count, Some(kind), columns))
        );
    }
    Ok(())
}

#[test]
fn lines_of_no_totals(rt: HostRuntime) -> Result<(), Fail> {
    let wrong: [(&[u8], KindsFault); 8] = [
        (b"", KindsFault::NoQuery),
        (b"query", KindsFault::NoQuery),
        (b"queries 2", KindsFault::NoQuery),
        (b"SELECT COUNT(*) FROM t", KindsFault::NoQuery),
        (b"query SELECT COUNT(* FROM t", KindsFault::NoQuery),
        (b"query SELECT COUNT(\"\xff\") FROM t", KindsFault::NoQuery),
        (
            b"query SELECT city FROM t GROUP BY city",
            KindsFault::NoTotals,
        ),
        (
            b"query SELECT * FROM t ORDER BY price LIMIT 2",
            KindsFault::NoTotals,
        ),
    ];
    for (line, fault) in wrong {
        assert_eq!(rt; last_kind(rt.alloc(), line), Err(fault));
    }
    Ok(())
}

// What stands beside the last aggregate of the query of the line.
fn last_beside(alloc: Global, line: &[u8]) -> Result<Option<Beside>, KindsFault> {
    query_shape(alloc, line).map(|shape| shape.besides.last().copied().flatten())
}

#[test]
fn sums_beside_averages(rt: HostRuntime) -> Result<(), Fail> {
    let lines: [(&[u8], Option<Beside>); 6] = [
        (
            b"query SELECT COUNT(a), SUM(b), SUM(a), SUM(a), AVG(a) FROM t",
            Some(Beside { sum: 2, count: 0 }),
        ),
        (
            b"query SELECT SUM(p*q), COUNT(p * q), AVG((p * q)) FROM t",
            Some(Beside { sum: 0, count: 1 }),
        ),
        (b"query SELECT SUM(a), COUNT(*), AVG(a) FROM t", None),
        (b"query SELECT SUM(a + b), COUNT(a), AVG(a) FROM t", None),
        (b"query SELECT AVG(a), COUNT(a), SUM(a) FROM t", None),
        (
            b"query SELECT city, SUM(a), city, COUNT(a), AVG(a) FROM t GROUP BY city",
            Some(Beside { sum: 0, count: 1 }),
        ),
    ];
    for (line, beside) in lines {
        assert_eq!(rt; last_beside(rt.alloc(), line), Ok(beside));
    }
    Ok(())
}
