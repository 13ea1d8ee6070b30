//! Rows that are parted by planes of one column, at numbers of rows about the ends of blocks.

ghost use Rattle.std.specs.Prelude.{◌≡◌, ◌<◌, length, IfOk};

use daq_table::{Ends, digits_of};
use plane_kernels::{Plane, transpose};
use query_model::Nullity;
use row_groups::{Cells, PartRange};
use std::alloc::{AllocError, Global};
use std::test::Fail;

// A plane whose bit is 1 at each third row.
fn third_rows(alloc: Global, rows: usize) -> Result<Plane, AllocError>
    ensures { IfOk result (λ plane. length plane ≡ rows) }
{
    let mut plane = Plane::blank(alloc, rows)?;
    let mut numbers = Vec::with_capacity(alloc, rows)?;
    for row in 0..rows {
        numbers.push(u64::from(row % 3 == 0))?;
    }
    if numbers.len() == plane.rows() {
        transpose(&numbers, 1, 0, &mut plane);
    }
    Ok(plane)
}

// The rows after one plane of a column.
fn parted(alloc: Global, ends: Ends, rows: usize) -> Result<Option<Cells>, AllocError> {
    let width = digits_of(ends.top.abs_diff(ends.base)) + u8::from(ends.nullable);
    if width == 0 || width > 16 {
        return Ok(None);
    }
    let mut cells = Cells::open(alloc, &[0], &[ends], rows)?;
    cells.refine(0, &third_rows(alloc, rows)?);
    Ok(Some(cells))
}

#[test]
fn rows_are_parted(rt: HostRuntime) -> Result<(), Fail> {
    let ends = Ends {
        base: 3,
        top: 6,
        nullable: false,
    };
    for rows in [0, 1, 63, 64, 65, 200] {
        let mut cells = parted(rt.alloc(), ends, rows)?.ok_or("no planes")?;
        assert_eq!(rt; cells.count(), 2);
        assert_eq!(rt; cells.rows(), rows);
        for row in 0..cells.rows() {
            assert_eq!(rt; cells.cell_of(row), u32::from(row % 3 == 0), "row {row}");
        }
        cells.tell_rows();
        for row in 0..cells.rows() {
            assert_eq!(rt;
                cells.cell_of(row),
                u32::from(row % 3 == 0),
                "row {row}, written"
            );
        }
    }
    Ok(())
}

#[test]
fn cells_have_keys(rt: HostRuntime) -> Result<(), Fail> {
    let ends = Ends {
        base: 3,
        top: 5,
        nullable: true,
    };
    let cells = parted(rt.alloc(), ends, 4)?.ok_or("no planes")?;
    let null = PartRange {
        low: 3,
        high: 3,
        null: Nullity::Always,
    };
    let numbers = PartRange {
        low: 3,
        high: 5,
        null: Nullity::Never,
    };
    let keys = cells.keys_of(0).ok_or("null is a key")?;
    assert_eq!(rt; keys.parts(), [null].as_slice());
    let keys = cells.keys_of(1).ok_or("numbers are keys")?;
    assert_eq!(rt; keys.parts(), [numbers].as_slice());
    assert!(rt; cells.keys_of(2).is_none());
    Ok(())
}
