//! A question: a query over a table, with its options. It is typed and planned, and its report is written.

ghost use Rattle.std.specs.Prelude.{◌≡◌, ◌↔◌, ◌<◌, ◌^◌, Err, IfOk, IfErr, IsUtf8, OnOk, length, string_bytes};
ghost use Rattle.plane_schedule.specs.Plans.{IsReadable};
ghost use Rattle.round_engine.specs.Stages.{opened};
ghost use Rattle.command_line.specs.Values.{options_of, order_of};
ghost use Rattle.daq_table.specs.ValueTexts.{HeadHasTexts};
ghost use Rattle.daq_cli.specs.Questions.{IsPlanOf, IsPlanned, IsPolicyOf, QuestionCause, RefusesOrder};
ghost use Rattle.daq_cli.specs.Questions.{Reports, StopsPlanning, asked_with, nearness_of, question_of};
ghost use Rattle.daq_cli.specs.Worlds.{whole};
ghost use Rattle.query_model.specs.Validity.{IsValid};
ghost use Rattle.sql_text.specs.Answer.{IsFault, IsText};
ghost use Rattle.sql_print.specs.Printed.{printed};
ghost use Rattle.sql_text.specs.Tree.{query_of};
ghost use Rattle.sql_text.specs.declared.fault.SqlFault.{SqlFault};

use crate::course_report::Begun;
use crate::refusal::Refusal;
use crate::report::report_table;
use command_line::{Options, ReadOrder};
use daq_table::{Head, Table};
use outer_world::Sink;
use plane_kernels::Plane;
use plane_reads::{ReadsFault, answers_are_one, check_reads};
use plane_schedule::{Extras, Nearness, Plan, Policy};
use query_model::TypedQuery;
use round_engine::Engine;
use sql_print::{print, reads_back};
use sql_text::{SqlFault, Tree, parse};
use sql_typing::{type_query, typed_queries_are_valid, typing_is_exact};
use std::alloc::Global;
use table_rounds::rounds_are_one;

// The query of a text.
pub(crate) fn read_query(alloc: Global, text: &str) -> Result<Tree, SqlFault>
    ensures query { IfOk result (λ tree. IsText text.now (query_of tree)) }
    ensures printable { IfOk result (λ tree. IsUtf8 (printed (query_of tree))) }
    ensures refused { IfErr result (IsFault text.now) }
    ensures too_long { (result ≡ Err SqlFault.TooLong) ↔ (4096 < length text.now) }
{
    reads_back();
    // Their clause says that they are UTF-8.
    let _bytes = text.as_bytes();
    parse(alloc, text)
}

// The policy of an order, with the list of its columns checked.
fn policy_of(
    alloc: Global,
    order: &ReadOrder,
    typed: &TypedQuery,
    head: &Head,
) -> Result<Policy, ReadsFault>
    requires { IsValid head.now typed.now }
    ensures ok { IfOk result (λ policy. IsPolicyOf (order_of order.now) typed.now head.now policy) }
    ensures refused { IfErr result (λ fault. RefusesOrder (order_of order.now) typed.now head.now fault) }
{
    match order {
        ReadOrder::By(policy) => Ok(Policy::By(*policy)),
        ReadOrder::Reads(names) => {
            let list = check_reads(alloc, names.as_bytes(), typed, head)?;
            Ok(Policy::Listed(list))
        }
    }
}

// When a round is narrow by the options.
pub(crate) fn nearness_of(options: &Options) -> Nearness
    ensures { result ≡ nearness_of (options_of options.now) }
{
    Nearness {
        width: options.width,
        keys: options.keys,
    }
}

// The plan of the options.
fn plan_of(
    alloc: Global,
    options: &Options,
    typed: &TypedQuery,
    head: &Head,
) -> Result<Plan, ReadsFault>
    requires { IsValid head.now typed.now }
    ensures ok { IfOk result (λ plan. IsPlanOf (options_of options.now) typed.now head.now plan) }
    ensures refused { IfErr result (λ fault. RefusesOrder (order_of options.now.order) typed.now head.now fault) }
{
    let policy = policy_of(alloc, &options.order, typed, head)?;
    Ok(Plan {
        policy,
        near: nearness_of(options),
        most: options.rounds,
        listing: options.listing,
        extras: Extras {
            clip: options.clip,
            exact: options.exact,
        },
    })
}

// A question that may be answered: the printed form of its query, its plan, the query in progress, and room for a plane.
pub(crate) struct Prepared {
    pub(crate) sql: String,
    pub(crate) begun: Begun<Engine>,
}

// A call of its own: a derived drop is proved anew wherever a question is let go.
impl Drop for Prepared {
    fn drop(self) {
        let Prepared { sql: _, begun: _ } = self;
    }
}

// What the report of the query takes, over a table with that head. No memory is taken after this.
pub(crate) fn prepare(
    alloc: Global,
    query: &Tree,
    options: &Options,
    head: &Head,
) -> Result<Prepared, Refusal>
    requires printable { IsUtf8 (printed (query_of query.now)) }
    requires width { options.now.width < 2 ^ 63 }
    ensures planned { IfOk result (λ p.
        IsPlanned (asked_with (query_of query.now) (options_of options.now) head.now) p.begun.running.query p.begun.plan) }
    ensures valid { IfOk result (λ p. IsValid head.now p.begun.running.query) }
    ensures opened { IfOk result (λ p. p.begun.running ≡ opened p.begun.running.query head.now) }
    ensures text { IfOk result (λ p. string_bytes p.sql ≡ printed (query_of query.now)) }
    ensures rows { IfOk result (λ p. length p.begun.plane ≡ head.now.rows) }
    ensures width { IfOk result (λ p. p.begun.plan.near.width < 2 ^ 63) }
    ensures readable { IfOk result (λ p. IsReadable p.begun.plan.policy p.begun.running.frame) }
    ensures refused { IfErr result (StopsPlanning (asked_with (query_of query.now) (options_of options.now) head.now)) }
{
    typed_queries_are_valid();
    let typed = type_query(alloc, query, head)?;
    let plan = plan_of(alloc, options, &typed, head)?;
    let sql = print(alloc, query)?;
    let plane = Plane::blank(alloc, head.rows as usize)?;
    let engine = Engine::open(alloc, typed, head)?;
    let begun = Begun {
        plan,
        running: engine,
        plane,
    };
    Ok(Prepared { sql, begun })
}

// Writes the report of the query over the table, by the plan of the options.
pub(crate) fn answer<K: Sink>(
    alloc: Global,
    query: &Tree,
    options: &Options,
    table: &Table,
    out: &mut K,
) -> Result<(), Refusal>
    requires printable { IsUtf8 (printed (query_of query.now)) }
    requires texts { HeadHasTexts table.now.head }
    requires width { options.now.width < 2 ^ 63 }
    ensures done { OnOk result (Reports (question_of (query_of query.now) (options_of options.now) table.now) whole
        (K.state out.old) (K.state out.new)) }
    ensures refused { IfErr result (QuestionCause (question_of (query_of query.now) (options_of options.now) table.now)
        (K.state out.old) (K.state out.new)) }
{
    typing_is_exact();
    typed_queries_are_valid();
    answers_are_one();
    rounds_are_one();
    let mut prepared = prepare(alloc, query, options, table.head())?;
    report_table(prepared.sql.as_bytes(), &mut prepared.begun, table, out)?;
    Ok(())
}
