//! `ask`: a question to the table that the bytes of the input stand for.

ghost use Rattle.std.specs.Prelude.{◌≡◌, ◌<◌, ◌^◌, OnOk, IfErr};
ghost use Rattle.command_line.specs.Values.{ask_of};
ghost use Rattle.daq_cli.specs.Worlds.{whole};
ghost use Rattle.daq_cli.specs.commands.Ask.{AcceptsWords, AskCause, Asks};

use crate::inputs::read_table;
use crate::question::{answer, read_query};
use crate::refusal::Refusal;
use command_line::Ask;
use csv_load::heads_have_texts;
use outer_world::{Sink, Source};
use std::alloc::Global;

// Reads the input to its end, and answers the question to its table.
pub(crate) fn carry_out<S: Source, K: Sink>(
    alloc: Global,
    asked: &Ask,
    input: &mut S,
    out: &mut K,
) -> Result<(), Refusal>
    requires width { asked.now.options.width < 2 ^ 63 }
    ensures done { OnOk result (Asks (ask_of asked.now) whole
        (S.state input.old) (S.state input.new) (K.state out.old) (K.state out.new)) }
    ensures refused { IfErr result (AskCause (ask_of asked.now)
        (S.state input.old) (S.state input.new) (K.state out.old) (K.state out.new)) }
    ensures untouched { ¬ AcceptsWords (ask_of asked.now)
        → (S.state input.new ≡ S.state input.old) × (K.state out.new ≡ K.state out.old) }
{
    heads_have_texts();
    let query = read_query(alloc, asked.sql)?;
    let table = read_table(alloc, asked.schema, input)?;
    answer(alloc, &query, &asked.options, &table, out)
}
