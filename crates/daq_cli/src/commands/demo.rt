//! `demo`: a question to the table that the generator makes of a seed.

ghost use Rattle.std.specs.Prelude.{◌≡◌, ◌<◌, ◌^◌, OnOk, IfErr};
ghost use Rattle.command_line.specs.Values.{demo_of};
ghost use Rattle.daq_cli.specs.Worlds.{whole};
ghost use Rattle.daq_cli.specs.commands.Demo.{DemoCause, Demonstrates};
ghost use Rattle.sql_text.specs.Answer.{IsText};
ghost use Rattle.sql_text.specs.Tree.{Query};

use crate::question::{answer, read_query};
use crate::refusal::Refusal;
use command_line::Demo;
use outer_world::Sink;
use std::alloc::Global;
use table_gen::{heads_have_texts, make};

// Makes the table of the seed, and answers the question to it.
pub(crate) fn carry_out<K: Sink>(alloc: Global, asked: &Demo, out: &mut K) -> Result<(), Refusal>
    requires width { asked.now.options.width < 2 ^ 63 }
    ensures done { OnOk result (Demonstrates (demo_of asked.now) whole (K.state out.old) (K.state out.new)) }
    ensures refused { IfErr result (DemoCause (demo_of asked.now) (K.state out.old) (K.state out.new)) }
    ensures untouched { ¬ ((query : Query) × IsText asked.now.sql.now query) → K.state out.new ≡ K.state out.old }
{
    heads_have_texts();
    let query = read_query(alloc, asked.sql)?;
    let table = make(alloc, asked.seed, asked.rows)?;
    answer(alloc, &query, &asked.options, &table, out)
}
