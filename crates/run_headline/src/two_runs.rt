//! What two runs that were done have to do with each other. Each law stands on a function that does nothing.

ghost use Rattle.run_headline.specs.TwoRuns.{EqualPlanesGiveEqualReports, ExtrasAddLines, LastRoundsCutReports};
ghost use Rattle.run_headline.specs.TwoRuns.{RunsHaveRounds, RunsInquire};

use command_line::one_command;
use daq_cli::steps_are_exact;
use plane_reads::answers_are_one;
use sql_typing::{typed_queries_are_valid, typing_is_exact};
use table_rounds::rounds_are_one;

/// Each `ask`, `demo` or `query` that was done asks something of a table, where the bytes of its input or its file are told.
pub fn runs_inquire()
    ensures { RunsInquire }
{
    one_command();
    steps_are_exact();
}

/// Each run of which it is known what it asks has its rounds.
pub fn runs_have_rounds()
    ensures { RunsHaveRounds }
{
    one_command();
    steps_are_exact();
}

/// Where two runs ask the same of tables with one head, and the planes are the same that one of them reads, both write the same bytes.
pub fn equal_planes_give_equal_reports()
    ensures { EqualPlanesGiveEqualReports }
{
    one_command();
    steps_are_exact();
    answers_are_one();
    typing_is_exact();
    typed_queries_are_valid();
    rounds_are_one();
}

/// `--clip` and `--exact-avg` add lines to a report, and change none.
pub fn extras_add_lines()
    ensures { ExtrasAddLines }
{
    one_command();
    steps_are_exact();
    answers_are_one();
    typing_is_exact();
    typed_queries_are_valid();
    rounds_are_one();
}

/// A report with `--rounds` is the beginning of the report without, but for the line that says why its rounds ended.
pub fn last_rounds_cut_reports()
    ensures { LastRoundsCutReports }
{
    one_command();
    steps_are_exact();
    answers_are_one();
    typing_is_exact();
    typed_queries_are_valid();
    rounds_are_one();
}
