//! The table that the bytes of an input stand for under a schema.

ghost use Rattle.std.specs.Prelude.{◌≡◌, IfOk, IfErr};
ghost use Rattle.daq_cli.specs.Inputs.{InputCause, IsSchema, ReadsTable};

use crate::refusal::Refusal;
use csv_load::{Limits, load};
use daq_table::{Schema, Table};
use outer_world::{Source, read_all};
use std::alloc::Global;

// The most bytes of an input.
const MOST_BYTES: usize = 1_073_741_824;

// Reads the input to its end, and gives its table.
pub(crate) fn read_table<S: Source>(
    alloc: Global,
    schema: &str,
    input: &mut S,
) -> Result<Table, Refusal>
    ensures read { IfOk result (ReadsTable schema.now (S.state input.old) (S.state input.new)) }
    ensures refused { IfErr result (InputCause schema.now (S.state input.old) (S.state input.new)) }
    ensures untouched { ¬ IsSchema schema.now → S.state input.new ≡ S.state input.old }
{
    let schema = Schema::parse(alloc, schema)?;
    let bytes = read_all(alloc, input, MOST_BYTES)?;
    let table = load(alloc, &bytes, &schema, &Limits::PROFILE)?;
    Ok(table)
}
