//! From all that stands before the planes of a file to its head.

ghost use Rattle.std.specs.Prelude.{IfErr, IfOk};
ghost use Rattle.plane_file.specs.Checks.{first_fault, front_checks};
ghost use Rattle.plane_file.specs.Fronts.{HasHeader, IsFrontOf, MayFail};

use crate::columns::read_columns;
use crate::file_fault::FileFault;
use crate::heads::planes_in;
use crate::places::{number32_at, number64_at};
use crate::plane_file::PlaneFile;
use daq_table::{ColumnHeads, Head};
use std::alloc::Global;

/// The file of that size which begins with these bytes, all that stand before its planes.
pub(crate) fn read_head(alloc: Global, front: &[u8], size: u64) -> Result<PlaneFile, FileFault>
    requires { HasHeader front.now }
    ensures ok { IfOk result (IsFrontOf front.now size) }
    ensures err { IfErr result (MayFail (first_fault (front_checks front.now size))) }
{
    let columns = read_columns(alloc, front, number32_at(front, 12))?;
    let rows = number64_at(front, 16);
    let planes_at = front.len() as u64;
    let wanted = planes_at + 8 * ((rows + 63) / 64) * planes_in(&columns);
    if size != wanted {
        return Err(FileFault::WrongSize {
            found: size,
            wanted,
        });
    }
    let head = Head {
        rows,
        columns: ColumnHeads::new(columns),
    };
    Ok(PlaneFile::new(head, number32_at(front, 8), planes_at))
}
