//! The records of a CSV, handed to its columns one after the other.

ghost use Rattle.std.specs.Prelude.{◌≡◌, ◌<◌, ◌^◌, ◌≤◌, ◌⊎◌, [], length, IfOk, IfErr};
ghost use Rattle.csv_load.specs.Faults.{Refuses};
ghost use Rattle.csv_load.specs.States.{AreStates, HasRead, RefusesNext, TakesSome};
ghost use Rattle.csv_load.specs.declared.fault.TableFault.TheVariants.{NoMemory};

use crate::column::Column;
use crate::fault::TableFault;
use crate::fields::RecordFields;
use crate::limits::Limits;
use crate::lines::read_line;
use crate::marks::past_marks;
use crate::record::take_record;
use daq_table::{Schema, SchemaColumn};
use std::alloc::{AllocError, Global};

// The declared columns, before any row.
fn empty_columns(alloc: Global, schema: &[SchemaColumn]) -> Result<Vec<Column>, AllocError>
    ensures { IfOk result (λ columns. AreStates schema.now [] columns.items) }
{
    let mut columns = Vec::new(alloc);
    for column in schema {
        columns.push(Column::new(alloc, column.kind, column.nullable))?;
    }
    Ok(columns)
}

// A text of records, and room for the fields of one and for a field with a quote inside.
#[derive(Drop)]
struct Records<'t> {
    alloc: Global,
    text: &'t [u8],
    fields: RecordFields<'t>,
    odd: Vec<u8>,
}

impl<'t> Records<'t> {
    fn new(alloc: Global, text: &'t [u8]) -> Self
        ensures { result.text.now ≡ text.now }
    {
        Records {
            alloc,
            text,
            fields: RecordFields::new(alloc),
            odd: Vec::new(alloc),
        }
    }

    // Hands the columns the next record from that place on, after so many, and answers where the one after it begins. None
    // where there is none.
    fn take_next(
        &mut self,
        from: usize,
        columns: &mut [Column],
        schema: &Schema,
        limits: &Limits,
        records: usize,
    ) -> Result<Option<usize>, TableFault>
        requires from { from ≤ length self.old.text.now }
        requires small { records < 2 ^ 32 }
        requires wide { length columns.old ≡ length schema.now.columns }
        ensures text { self.new.text.now ≡ self.old.text.now }
        ensures ok { IfOk result (TakesSome schema.now.items limits.now records self.old.text.now from columns.old columns.new) }
        ensures err { IfErr result (λ fault. (fault ≡ NoMemory)
            ⊎ RefusesNext schema.now.items limits.now records self.old.text.now from columns.old fault) }
    {
        let Some(next) = read_line(self.text, from, &mut self.fields, &mut self.odd)? else {
            return Ok(None);
        };
        take_record(self.alloc, columns, &self.fields, schema, limits, records)?;
        Ok(Some(next))
    }
}

/// The number of rows and the columns' cells, or the first fault.
pub(crate) fn read_columns(
    alloc: Global,
    bytes: &[u8],
    schema: &Schema,
    limits: &Limits,
) -> Result<(usize, Vec<Column>), TableFault>
    requires { limits.now.rows ≤ 16777216 }
    ensures ok { IfOk result (λ read. HasRead bytes.now schema.now.items limits.now read.0 read.1.items) }
    ensures err { IfErr result (Refuses bytes.now schema.now.items limits.now) }
{
    let mut columns = empty_columns(alloc, schema.columns.as_slice())?;
    let mut reader = Records::new(alloc, past_marks(bytes));
    let mut from = 0;
    let mut records = 0;
    'records: while let Some(next) = reader.take_next(
        from,
        &mut columns,
        schema,
        limits,
        records,
    )? {
        from = next;
        records += 1;
    }
    if records == 0 {
        return Err(TableFault::NoHeader);
    }
    Ok((records - 1, columns))
}
