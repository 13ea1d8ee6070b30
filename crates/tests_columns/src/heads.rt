//! What is declared of columns of whole numbers.

ghost use Rattle.std.specs.Prelude.{◌≡◌, ◌≤ℤ◌, IfOk};
ghost use Rattle.daq_table.specs.declared.head.Kind.TheVariants.{Int};

use daq_table::{ColumnHead, Dictionary, Kind, Name};
use std::alloc::{AllocError, Global};

// A column of whole numbers between these ends.
pub(crate) fn column_head(
    alloc: Global,
    base: i64,
    top: i64,
    nullable: bool,
) -> Result<ColumnHead, AllocError>
    requires { base ≤ℤ top }
    ensures { IfOk result (λ head. head.kind ≡ Int) }
{
    let name = Name::new(b"v".to_vec(alloc)?);
    let names = Dictionary::new(Vec::new(alloc));
    Ok(ColumnHead {
        name,
        kind: Kind::Int,
        nullable,
        base,
        top,
        names,
    })
}
