//! `load`: the table that the bytes of the input stand for is written as a file of planes.

ghost use Rattle.std.specs.Prelude.{◌≡◌, OnOk, IfErr};
ghost use Rattle.command_line.specs.Values.{load_of};
ghost use Rattle.daq_cli.specs.Inputs.{IsSchema};
ghost use Rattle.daq_cli.specs.commands.Load.{LoadCause, Loads};

use crate::inputs::read_table;
use crate::refusal::Refusal;
use crate::stores::store_table;
use command_line::Load;
use outer_world::{Sink, Source};
use std::alloc::Global;

// Reads the input to its end, and writes the file of its table, and then a line. All memory is taken before the file's first byte.
pub(crate) fn carry_out<S: Source, K: Sink>(
    alloc: Global,
    asked: &Load,
    input: &mut S,
    made: &mut K,
    out: &mut K,
) -> Result<(), Refusal>
    ensures done { OnOk result (Loads (load_of asked.now) (S.state input.old) (S.state input.new)
        (K.state made.old) (K.state made.new) (K.state out.old) (K.state out.new)) }
    ensures refused { IfErr result (LoadCause (load_of asked.now) (S.state input.old) (S.state input.new)
        (K.state made.old) (K.state made.new) (K.state out.old) (K.state out.new)) }
    ensures untouched { ¬ IsSchema asked.now.schema.now → (S.state input.new ≡ S.state input.old)
        × (K.state made.new ≡ K.state made.old) × (K.state out.new ≡ K.state out.old) }
{
    let table = read_table(alloc, asked.schema, input)?;
    store_table(alloc, b"loaded", &table, made, out)
}
