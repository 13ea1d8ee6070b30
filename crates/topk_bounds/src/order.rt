//! The order of rows by the digits of their sort key.

ghost use Rattle.std.specs.Prelude.{◌≡◌, ◌<◌};
ghost use Rattle.known_column.specs.Columns.{range_at, rows_of_column};
ghost use Rattle.known_column.specs.RowBlocks.{IsKnownColumn};
ghost use Rattle.topk_bounds.specs.Cuts.{comes_first, is_wide};

use known_column::Known;
use query_model::Nullity;

// How many planes were read. The number of rows is asked for since its contract says that each prefix is that of some cell.
pub(crate) fn read_planes(key: &Known) -> u8
    ensures read { result ≡ key.now.known.read }
    ensures known { IsKnownColumn key.now }
{
    let _rows = key.rows();
    key.width() + u8::from(key.nullable()) - key.unread()
}

// The digit of a plane whose rows come first: 1 downwards, and in the plane that tells null, since null comes last.
pub(crate) fn first_digit(down: bool, nullable: bool, plane: u8) -> bool
    ensures { result ≡ comes_first down nullable plane }
{
    down || nullable && plane == 0
}

// Whether a row may have more than one value.
pub(crate) fn may_differ(key: &Known, row: usize) -> bool
    requires { row < rows_of_column key.now }
    ensures { result ≡ is_wide (range_at key.now row) }
{
    match key.missing(row) {
        Nullity::Possibly => true,
        Nullity::Always => false,
        Nullity::Never => {
            let range = key.range(row);
            range.lo < range.hi
        }
    }
}
