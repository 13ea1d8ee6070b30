//! What is declared of columns of whole numbers, and columns of one row of which null is told.

ghost use Rattle.std.specs.Prelude.{◌≡◌, ◌≤ℤ◌, ◌<◌, length, IfOk};
ghost use Rattle.daq_table.specs.ColumnFacts.{IsName};
ghost use Rattle.daq_table.specs.declared.head.Kind.TheVariants.{Int};

use daq_table::{ColumnHead, Dictionary, Kind, Name};
use known_column::KnownColumns;
use plane_kernels::{Plane, transpose};
use std::alloc::{AllocError, Global};

// A column of whole numbers between these ends.
pub(crate) fn column_head(
    alloc: Global,
    name: &[u8],
    base: i64,
    top: i64,
    nullable: bool,
) -> Result<ColumnHead, AllocError>
    requires name { IsName name.now }
    requires ordered { base ≤ℤ top }
    ensures name { IfOk result (λ head. head.name ≡ name.now) }
    ensures kind { IfOk result (λ head. head.kind ≡ Int) }
    ensures base { IfOk result (λ head. head.base ≡ base) }
    ensures top { IfOk result (λ head. head.top ≡ top) }
{
    let name = Name::new(name.to_vec(alloc)?);
    let names = Dictionary::new(Vec::new(alloc));
    Ok(ColumnHead {
        name,
        kind: Kind::Int,
        nullable,
        base,
        top,
        names,
    })
}

// Reads a plane of a column of one row, where one is unread. Where it tells null, the row is null.
pub(crate) fn take_zero(
    alloc: Global,
    columns: &mut KnownColumns,
    column: usize,
) -> Result<(), AllocError>
    requires column { column < length columns.old.frame.columns }
    requires rows { columns.old.frame.rows ≡ 1 }
    ensures { columns.new.frame ≡ columns.old.frame }
{
    let mut plane = Plane::blank(alloc, 1)?;
    transpose(&[0], 1, 0, &mut plane);
    if columns.unread(column) > 0 {
        let _taken = columns.take(column, &plane).is_ok();
    }
    Ok(())
}
