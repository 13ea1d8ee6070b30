//! Words of reads over a small table.

ghost use Rattle.std.specs.Prelude.{◌≡◌, length, IfOk};
ghost use Rattle.query_model.specs.Validity.{IsValid};

use crate::small::whole_numbers;
use daq_table::{ColumnHead, ColumnHeads, Dictionary, Head, Kind, Name};
use plane_reads::{ReadsFault, check_reads};
use query_model::{Items, Pred, Shape, TableColumns, TypedQuery};
use std::alloc::{AllocError, Global};
use std::test::Fail;

// A price of four planes, a quantity of two, and a day of none. Where they are nullable, quantity and day have one more.
fn market(alloc: Global, nullable: bool) -> Result<Head, AllocError>
    ensures { IfOk result (λ head. length head.columns ≡ 3) }
{
    let price = whole_numbers(alloc, b"price", false, 5, 20)?;
    let qty = whole_numbers(alloc, b"qty", nullable, 0, 2)?;
    let day = ColumnHead {
        name: Name::new(Vec::from_slice(alloc, b"day")?),
        kind: Kind::Date,
        nullable,
        base: 0,
        top: 0,
        names: Dictionary::new(Vec::new(alloc)),
    };
    let columns = ColumnHeads::new(vec![in alloc; price, qty, day]?);
    Ok(Head { rows: 2, columns })
}

// A query of the quantity and the day.
fn question(alloc: Global, head: &Head) -> Result<TypedQuery, AllocError>
    requires { length head.now.columns ≡ 3 }
    ensures { IfOk result (λ query. IsValid head.now query) }
{
    Ok(TypedQuery {
        columns: TableColumns::new(vec![in alloc; 1, 2]?),
        items: Items::new(Vec::new(alloc)),
        pred: Pred::All,
        shape: Shape::Plain,
    })
}

// The number of columns that a word names, or its fault.
fn columns_of(
    alloc: Global,
    nullable: bool,
    word: &str,
) -> Result<Result<usize, ReadsFault>, AllocError> {
    let head = market(alloc, nullable)?;
    let query = question(alloc, &head)?;
    Ok(check_reads(alloc, word.as_bytes(), &query, &head).map(|columns| columns.as_slice().len()))
}

#[test]
fn words_are_read(rt: HostRuntime) -> Result<(), Fail> {
    for (word, want) in [
        ("qty", Ok(1)),
        ("qty,qty", Ok(2)),
        ("qty,qty,qty", Err(ReadsFault::PastEnd { place: 2 })),
        ("qty,day", Err(ReadsFault::PastEnd { place: 1 })),
        ("", Err(ReadsFault::UnknownName { place: 0 })),
        ("qty,", Err(ReadsFault::UnknownName { place: 1 })),
        ("price,day", Err(ReadsFault::UnknownName { place: 0 })),
        ("qty,Qty", Err(ReadsFault::UnknownName { place: 1 })),
    ] {
        assert_eq!(rt; columns_of(rt.alloc(), false, word)?, want, "at {word}");
    }
    Ok(())
}

// The plane that tells null is one of the column's.
#[test]
fn nullable_columns_have_a_plane_more(rt: HostRuntime) -> Result<(), Fail> {
    for (word, want) in [
        ("qty,qty,qty", Ok(3)),
        ("qty,qty,qty,qty", Err(ReadsFault::PastEnd { place: 3 })),
        ("qty,day", Ok(2)),
        ("day,qty,day", Err(ReadsFault::PastEnd { place: 2 })),
    ] {
        assert_eq!(rt; columns_of(rt.alloc(), true, word)?, want, "at {word}");
    }
    Ok(())
}
