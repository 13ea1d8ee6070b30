//! `combine`: the reports of the parts of a table, line by line, become one report of the whole.

ghost use Rattle.std.specs.Prelude.{◌<◌, OnOk, IfErr};
ghost use Rattle.command_line.specs.Values.{combine_of};
ghost use Rattle.daq_cli.specs.commands.Combine.{CombineCause, CombinesReports};

use crate::refusal::{Refusal, refused_reports};
use command_line::Combine;
use outer_world::{Sink, Source};
use plane_schedule::Nearness;
use report_parts::{
    Until, combined_averages_are_certain, combined_besides_are_certain, combined_clips_are_certain,
    combined_exact_averages_are_certain, combined_groups_are_certain, combined_is_certain,
    combined_rows_are_certain, combined_text_clips_are_certain, combined_texts_are_certain,
};
use report_stream::combine_reports;
use std::alloc::Global;

// Reads the lines of the reports, and writes their combined report, block by block, as soon as they tell it.
pub(crate) fn carry_out<S: Source, K: Sink>(
    alloc: Global,
    asked: &Combine,
    input: &mut S,
    out: &mut K,
) -> Result<(), Refusal>
    requires parts { 0 < asked.now.parts }
    ensures done { OnOk result (CombinesReports (combine_of asked.now)
        (S.state input.old) (S.state input.new) (K.state out.old) (K.state out.new)) }
    ensures refused { IfErr result (CombineCause (combine_of asked.now)
        (S.state input.old) (S.state input.new) (K.state out.old) (K.state out.new)) }
{
    combined_is_certain();
    combined_averages_are_certain();
    combined_besides_are_certain();
    combined_clips_are_certain();
    combined_exact_averages_are_certain();
    combined_groups_are_certain();
    combined_rows_are_certain();
    combined_texts_are_certain();
    combined_text_clips_are_certain();
    let until = Until {
        near: Nearness {
            width: asked.width,
            keys: asked.keys,
        },
        rounds: asked.rounds,
    };
    match combine_reports(alloc, asked.parts as usize, until, input, out) {
        Ok(()) => Ok(()),
        Err(fault) => Err(refused_reports(asked.parts, fault)),
    }
}
