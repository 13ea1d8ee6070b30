//! Expressions over a column whose numbers lie from -3 to 2, and over one beside it whose cells may be null.

ghost use Rattle.std.specs.Prelude.{◌≡◌, ◌<◌, length, pos, negsuc, IfOk};
ghost use Rattle.query_model.specs.Validity.{declared_ranges};

use crate::heads::{column_head, take_zero};
use daq_table::{ColumnHeads, Head};
use interval_calc::{Interval, exactly};
use known_column::{KnownColumns, LentColumns};
use query_model::Expr;
use query_model::Nullity::{Always, Never, Possibly};
use row_values::{null_of, span_of};
use std::alloc::{AllocError, Global};
use std::test::Fail;

// The columns at one row: one that is not null, one that may be, and one that is.
fn columns(alloc: Global) -> Result<KnownColumns, AllocError>
    ensures rows { IfOk result (λ columns. columns.frame.rows ≡ 1) }
    ensures three { IfOk result (λ columns. length columns.frame.columns ≡ 3) }
    ensures numbers { IfOk result (λ columns. (declared_ranges columns.frame 0).numbers ≡ record { low = negsuc 2; high = pos 2 }) }
{
    let change = column_head(alloc, b"change", -3, 2, false)?;
    let bonus = column_head(alloc, b"bonus", 4, 5, true)?;
    let head = Head {
        rows: 1,
        columns: ColumnHeads::new(vec![in alloc; change, bonus]?),
    };
    let mut columns = KnownColumns::open(alloc, &[0, 1, 1], &head)?;
    take_zero(alloc, &mut columns, 2)?;
    Ok(columns)
}

// The ranges of the column, of -7, of the column and 10 added, of 10 less the column, and of the column's square.
fn spans(alloc: Global, columns: &LentColumns<'_>) -> Result<[Interval; 5], AllocError>
    requires rows { columns.now.frame.rows ≡ 1 }
    requires three { length columns.now.frame.columns ≡ 3 }
    requires numbers { (declared_ranges columns.now.frame 0).numbers ≡ record { low = negsuc 2; high = pos 2 } }
{
    let column = Box::new(alloc, Expr::Column(0))?;
    let ten = Box::new(alloc, Expr::Literal(10))?;
    let sum = Expr::Add(column, ten);
    let ten = Box::new(alloc, Expr::Literal(10))?;
    let column = Box::new(alloc, Expr::Column(0))?;
    let rest = Expr::Sub(ten, column);
    let column = Box::new(alloc, Expr::Column(0))?;
    let same = Box::new(alloc, Expr::Column(0))?;
    let square = Expr::Mul(column, same);
    Ok([
        span_of(&Expr::Column(0), 0, columns),
        span_of(&Expr::Literal(-7), 0, columns),
        span_of(&sum, 0, columns),
        span_of(&rest, 0, columns),
        span_of(&square, 0, columns),
    ])
}

#[test]
fn expressions_have_ranges(rt: HostRuntime) -> Result<(), Fail> {
    let columns = columns(rt.alloc())?;
    let wanted = [
        Interval { lo: -3, hi: 2 },
        exactly(-7),
        Interval { lo: 7, hi: 12 },
        Interval { lo: 8, hi: 13 },
        Interval { lo: -6, hi: 9 },
    ];
    assert_eq!(rt; spans(rt.alloc(), &columns.lend())?, wanted);
    Ok(())
}

#[test]
fn one_of_two_values_is_null(rt: HostRuntime) -> Result<(), Fail> {
    let alloc = rt.alloc();
    let columns = columns(alloc)?;
    for (left, right, null) in [
        (0, 0, Never),
        (0, 1, Possibly),
        (0, 2, Always),
        (1, 0, Possibly),
        (1, 1, Possibly),
        (1, 2, Always),
        (2, 0, Always),
        (2, 1, Always),
        (2, 2, Always),
    ] {
        assert!(rt; left < 3 && right < 3);
        let first = Box::new(alloc, Expr::Column(left))?;
        let second = Box::new(alloc, Expr::Column(right))?;
        let total = Expr::Sub(first, second);
        assert_eq!(rt; null_of(&total, 0, &columns.lend()), null, "{left} {right}");
    }
    Ok(())
}
