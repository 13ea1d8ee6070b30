//! Queries over one list of reads: they are typed, planned and opened together.

ghost use Rattle.std.specs.Prelude.{◌≡◌, ◌≢◌, ◌<◌, ◌^◌, List, ℕ, [], IfOk, IfErr, IsUtf8, length, map, string_bytes};
ghost use Rattle.std.specs.List.{All};
ghost use Rattle.command_line.specs.Commands.{reads};
ghost use Rattle.command_line.specs.Values.{options_of, order_of};
ghost use Rattle.multi_session.specs.Sessions.{session_opened};
ghost use Rattle.query_model.specs.Validity.{IsValid};
ghost use Rattle.table_rounds.specs.SessionLaws.{AreValid};
ghost use Rattle.table_rounds.specs.Steps.{IsUnlisted, queries_of};
ghost use Rattle.sql_print.specs.Printed.{printed};
ghost use Rattle.sql_text.specs.Tree.{query_of};
ghost use Rattle.sql_typing.specs.Refusals.{IsTyped};
ghost use Rattle.daq_cli.specs.Faults as of;
ghost use Rattle.daq_cli.specs.ScriptValues.{scripted_of};
ghost use Rattle.daq_cli.specs.Steps.{StopsStep, each};
ghost use Rattle.daq_cli.specs.commands.Session.{IsPolicyFor, IsSessionPlan, asked_together, printed_forms, together_step, typing_step};

use crate::course_report::Begun;
use crate::question::nearness_of;
use crate::refusal::Refusal;
use crate::scripts::Scripted;
use command_line::{Options, ReadOrder};
use daq_table::Head;
use multi_session::Session;
use plane_kernels::Plane;
use plane_schedule::{Extras, Plan, Policy};
use query_model::TypedQuery;
use sql_print::print;
use sql_typing::{TypeFault, type_query};
use std::alloc::{AllocError, Global};

// Why the query of a line cannot be typed.
fn in_line(line: usize, fault: TypeFault) -> Refusal
    ensures { result ≡ of.line_typing line fault }
{
    match fault {
        TypeFault::NoMemory => Refusal::NoMemory,
        fault => Refusal::LineTyping { line, fault },
    }
}

// A query as it is typed on tables with that head.
fn type_one(alloc: Global, one: &Scripted, head: &Head) -> Result<TypedQuery, Refusal>
    ensures typed { IfOk result (IsTyped (query_of one.now.tree) head.now) }
    ensures valid { IfOk result (IsValid head.now) }
    ensures refused { IfErr result (StopsStep (typing_step head.now (scripted_of one.now))) }
{
    match type_query(alloc, &one.tree, head) {
        Ok(typed) => Ok(typed),
        Err(fault) => Err(in_line(one.line, fault)),
    }
}

// Each query as it is typed; the first that cannot be is refused.
fn type_each(alloc: Global, queries: &[Scripted], head: &Head) -> Result<Vec<TypedQuery>, Refusal>
    ensures typed { IfOk result (λ typed. (each (typing_step head.now) (map scripted_of queries.now)).accepts typed.items) }
    ensures valid { IfOk result (λ typed. AreValid head.now typed.items) }
    ensures refused { IfErr result (StopsStep (each (typing_step head.now) (map scripted_of queries.now))) }
{
    let mut typed = Vec::with_capacity(alloc, queries.len())?;
    for one in queries {
        typed.push(type_one(alloc, one, head)?)?;
    }
    Ok(typed)
}

// The printed form of each query.
fn print_each(alloc: Global, queries: &[Scripted]) -> Result<Vec<String>, AllocError>
    requires printable { All (λ one. IsUtf8 (printed (query_of one.tree))) queries.now }
    ensures { IfOk result (λ sqls. map string_bytes sqls.items ≡ printed_forms (map scripted_of queries.now)) }
{
    let mut sqls = Vec::with_capacity(alloc, queries.len())?;
    for one in queries {
        sqls.push(print(alloc, &one.tree)?)?;
    }
    Ok(sqls)
}

// The policy of an order that is no list.
fn policy_of(order: &ReadOrder) -> Policy
    requires by_policy { (names : List ℕ) → order_of order.now ≢ reads names }
    ensures policy { IsPolicyFor (order_of order.now) result }
    ensures unlisted { IsUnlisted result }
{
    match order {
        ReadOrder::By(policy) => Policy::By(*policy),
        ReadOrder::Reads(_) => unreachable!(),
    }
}

// The plan of the options.
fn plan_of(options: &Options) -> Plan
    requires by_policy { (names : List ℕ) → order_of options.now.order ≢ reads names }
    ensures planned { IsSessionPlan (options_of options.now) result }
    ensures unlisted { IsUnlisted result.policy }
{
    Plan {
        policy: policy_of(&options.order),
        near: nearness_of(options),
        most: options.rounds,
        listing: options.listing,
        extras: Extras {
            clip: options.clip,
            exact: options.exact,
        },
    }
}

// Queries that may be answered together: their printed forms, their plan, the session, and room for a plane.
pub(crate) struct Together {
    pub(crate) sqls: Vec<String>,
    pub(crate) begun: Begun<Session>,
}

// A call of its own: a derived drop is proved anew wherever queries are let go.
impl Drop for Together {
    fn drop(self) {
        let Together { sqls: _, begun: _ } = self;
    }
}

// What the report of the queries takes, over a table with that head. No memory is taken after this.
pub(crate) fn prepare_all(
    alloc: Global,
    queries: &[Scripted],
    options: &Options,
    head: &Head,
) -> Result<Together, Refusal>
    requires some { queries.now ≢ [] }
    requires printable { All (λ one. IsUtf8 (printed (query_of one.tree))) queries.now }
    requires width { options.now.width < 2 ^ 63 }
    requires by_policy { (names : List ℕ) → order_of options.now.order ≢ reads names }
    ensures accepted { IfOk result (λ p. (together_step (map scripted_of queries.now) head.now).accepts
        (asked_together (map scripted_of queries.now) (queries_of p.begun.running) head.now)) }
    ensures planned { IfOk result (λ p. IsSessionPlan (options_of options.now) p.begun.plan) }
    ensures valid { IfOk result (λ p. AreValid head.now (queries_of p.begun.running)) }
    ensures opened { IfOk result (λ p. p.begun.running ≡ session_opened (queries_of p.begun.running) head.now p.begun.plan.near) }
    ensures texts { IfOk result (λ p. map string_bytes p.sqls.items ≡ printed_forms (map scripted_of queries.now)) }
    ensures rows { IfOk result (λ p. length p.begun.plane ≡ p.begun.running.rows) }
    ensures unlisted { IfOk result (λ p. IsUnlisted p.begun.plan.policy) }
    ensures refused { IfErr result (StopsStep (together_step (map scripted_of queries.now) head.now)) }
{
    let typed = type_each(alloc, queries, head)?;
    let plan = plan_of(options);
    let session = Session::open(alloc, typed, head, plan.near)?;
    let sqls = print_each(alloc, queries)?;
    let plane = Plane::blank(alloc, head.rows as usize)?;
    let begun = Begun {
        plan,
        running: session,
        plane,
    };
    Ok(Together { sqls, begun })
}
