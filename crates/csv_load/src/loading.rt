//! From a CSV to its table.

ghost use Rattle.std.specs.Prelude.{◌≤◌, IfOk, IfErr};
ghost use Rattle.csv_load.specs.Faults.{Refuses};
ghost use Rattle.csv_load.specs.TableOf.{IsTableOf};

use crate::building::table_of;
use crate::fault::TableFault;
use crate::limits::Limits;
use crate::reading::read_columns;
use daq_table::{Schema, Table};
use std::alloc::Global;

/// The table that a CSV stands for under a schema, all marks EF BB BF at its start left out, or the first fault. The
/// limits are not above those of `Limits::PROFILE`.
pub fn load(
    alloc: Global,
    bytes: &[u8],
    schema: &Schema,
    limits: &Limits,
) -> Result<Table, TableFault>
    requires rows { limits.now.rows ≤ Limits.PROFILE.rows }
    requires cells { limits.now.cells ≤ Limits.PROFILE.cells }
    requires names { limits.now.names ≤ Limits.PROFILE.names }
    ensures table { IfOk result (IsTableOf bytes.now schema.now.items limits.now) }
    ensures refused { IfErr result (Refuses bytes.now schema.now.items limits.now) }
{
    let (rows, mut columns) = read_columns(alloc, bytes, schema, limits)?;
    let table = table_of(alloc, schema, rows, &mut columns)?;
    Ok(table)
}
