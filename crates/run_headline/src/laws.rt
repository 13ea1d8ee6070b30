//! The headline of `run` in the words of SQL, on a function that does nothing.

ghost use Rattle.run_headline.specs.Asked.{PrintedFormsAreOfOneQuery, RunsHoldAnswers};

use command_line::one_command;
use query_model::{tables_agree, valid_queries_name_columns};
use sql_print::reads_back;
use sql_text::one_answer;
use sql_typing::typed_queries_are_valid;
use table_rounds::{planes_tell_stages, rounds_are_certain, tables_tell_stages};

/// What `daq_cli::run` says of words that were done, its clause `done`, the headline says in the words of SQL. Where they are an `ask`, a
/// `demo`, or a `query` or a `session` whose file tells its bytes, the SQL is a query, and a text was written that begins with the printed
/// form of this query, and shows where answers lie, by decimals, days and texts: of totals, of groups, and of rows in an order. In each
/// round, and in each table that has the planes read, the answers of the query as it is written lie there; each lies inside the one before;
/// and with all planes read it is the answer alone. So it is with the lines of `--clip` and `--exact-avg` behind those of totals.
pub fn runs_hold_answers()
    ensures { RunsHoldAnswers }
{
    one_command();
    typed_queries_are_valid();
    valid_queries_name_columns();
    tables_agree();
    planes_tell_stages();
    tables_tell_stages();
    rounds_are_certain();
}

/// The printed form in the first line of a report is of one query, but for places, where it is short enough to be asked again.
pub fn printed_forms_are_of_one_query()
    ensures { PrintedFormsAreOfOneQuery }
{
    one_answer();
    reads_back();
}
