//! What holds of all commands.

ghost use Rattle.daq_cli.specs.Laws.{StepsAreComplete, StepsAreExact};

use csv_load::{faults_are_exact, tables_are_one, texts_have_answers};
use daq_table::{schemas_are_exact, schemas_have_meanings};
use plane_file::{
    faultless_files_have_heads, file_faults_are_exact, files_have_one_head, files_have_tables,
    spelled_files_have_no_fault,
};
use plane_reads::{answers_are_one, words_have_answers};
use plane_schedule::{choices_are_one, policies_choose};
use query_model::{taken_is_knowledge, valid_queries_name_columns};
use report_stream::{faults_are_told, reports_are_answered};
use session_script::scripts_have_answers;
use sql_text::{one_answer, some_answer};
use sql_typing::{trees_have_typings, typed_queries_are_valid, typing_is_exact};
use table_rounds::{rounds_begin, rounds_have_planes};

/// The steps of each command accept one question, report, table or file at most or show one refusal at most, and never both: so a
/// run has one answer.
pub fn steps_are_exact()
    ensures { StepsAreExact }
{
    one_answer();
    schemas_are_exact();
    faults_are_exact();
    tables_are_one();
    typing_is_exact();
    typed_queries_are_valid();
    answers_are_one();
    table_gen::tables_are_one();
    spelled_files_have_no_fault();
    files_have_one_head();
    plane_file::tables_are_one();
    file_faults_are_exact();
    choices_are_one();
    session_script::answers_are_one();
    reports_are_answered();
    faults_are_told();
}

/// Whatever the words, the input, the script and the store are, they are accepted or they show a refusal: there is no third case.
pub fn steps_are_complete()
    ensures { StepsAreComplete }
{
    some_answer();
    schemas_have_meanings();
    texts_have_answers();
    trees_have_typings();
    typed_queries_are_valid();
    words_have_answers();
    table_gen::seeds_have_tables();
    faultless_files_have_heads();
    files_have_tables();
    valid_queries_name_columns();
    policies_choose();
    rounds_have_planes();
    taken_is_knowledge();
    rounds_begin();
    scripts_have_answers();
}
