//! A CSV within limits that the caller hands in.

ghost use Rattle.std.specs.Prelude.{◌≤◌};

use csv_load::{Limits, TableFault, load};
use daq_table::Schema;
use std::alloc::Global;

const TRADES: &str = "price,qty,city\n5,2,Oslo\n9,1,Rome\n12,4,Oslo\n3,3,Bern\n";

const TRADES_SCHEMA: &str = "price:int,qty:int,city:text";

// The fault of the trades within the limits.
fn trades_fault(alloc: Global, rows: u64, cells: u64, names: u64) -> Option<TableFault>
    requires rows { rows ≤ 16777216 }
    requires cells { cells ≤ 134217728 }
    requires names { names ≤ 65536 }
{
    let limits = Limits { rows, cells, names };
    match Schema::parse(alloc, TRADES_SCHEMA) {
        Ok(schema) => load(alloc, TRADES.as_bytes(), &schema, &limits).err(),
        Err(_) => None,
    }
}

#[test]
fn limits(rt: HostRuntime) {
    let alloc = rt.alloc();
    assert_eq!(rt;
        trades_fault(alloc, 3, 100, 9),
        Some(TableFault::TooManyRows { limit: 3 })
    );
    assert_eq!(rt;
        trades_fault(alloc, 9, 11, 9),
        Some(TableFault::TooManyCells { count: 12 })
    );
    assert_eq!(rt;
        trades_fault(alloc, 9, 99, 2),
        Some(TableFault::TooManyNames { column: 2 })
    );
    assert_eq!(rt; trades_fault(alloc, 4, 12, 3), None);
}
