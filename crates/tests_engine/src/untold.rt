//! Rounds of a query, and steps of a session, from a source that does not tell its planes.

ghost use Rattle.std.specs.Prelude.{◌≡◌, ◌≢◌, pos, [], ◌∷◌, length, map, ⊤, IfOk, None};
ghost use Rattle.std.specs.List.{AllByRecursion};
ghost use Rattle.daq_table.specs.declared.head.Kind.TheVariants.{Int};
ghost use Rattle.daq_table.specs.Tables.{ends_at, frame_of};
ghost use Rattle.query_model.specs.Validity.{FitsHead, IsValid};
ghost use Rattle.table_rounds.specs.Steps.{FitsSession};

use crate::sessions::three_queries;
use crate::small::{item, question, small_head};
use daq_table::{Head, width};
use multi_session::{Session, SessionFault};
use plane_course::{PlaneSource, StepFault, ending, read_next, session_ending};
use plane_kernels::{Plane, transpose};
use plane_schedule::{Chooser, Nearness, Plan, Progress, widest};
use query_model::{Atom, Comparison, Expr, Face, ItemKind, Pred, TypedQuery};
use round_engine::Engine;
use std::alloc::{AllocError, Global};
use std::test::Fail;

// A head, and numbers for two columns, of which some may be above the top. It fails where it is told to.
#[derive(Drop)]
struct Numbers {
    head: Head,
    cells: [[u64; 4]; 2],
    fails: bool,
}

impl PlaneSource for Numbers {
    type Error = u8;

    ghost told = { λ s. record { head = s.head; bits = None } };

    ghost places = { λ s column number. [] };

    ghost handed = { λ s. None };

    ghost is_ready = { λ s. ⊤ };

    ghost since = { λ first second. ⊤ };

    ghost fails = { λ first second column number error. ⊤ };

    ghost shows = { λ s column number. ⊤ };

    ghost since_itself = { λ source. tt };

    ghost since_both = { λ first second third before after. tt };

    ghost shows_before = { λ first second column number since shown. tt };

    fn head(&self) -> &Head {
        &self.head
    }

    fn read(&mut self, column: usize, number: u8, into: &mut Plane) -> Result<(), u8> {
        let digits = width(&self.head.columns.as_slice()[column]);
        if self.fails || number >= digits || column >= 2 || into.rows() != 4 {
            return Err(7);
        }
        transpose(&self.cells[column], digits, number, into);
        Ok(())
    }
}

// How many prices are below 7: the query over the table, of which nothing is read.
fn opened(alloc: Global, head: &Head) -> Result<Engine, AllocError>
    requires rows { head.now.rows ≡ 4 }
    requires columns { length head.now.columns ≡ 2 }
    requires kinds { map (λ column. column.kind) head.now.columns ≡ Int ∷ Int ∷ [] }
    requires base { (ends_at (frame_of head.now) 0).base ≡ pos 3 }
    requires top { (ends_at (frame_of head.now) 0).top ≡ pos 12 }
    ensures { IfOk result (λ engine. FitsHead engine.query engine.frame head.now) }
{
    let count = item(ItemKind::Count, Expr::Literal(0), Face::Number(0));
    let below = Atom::Compare {
        column: 0,
        op: Comparison::Lt,
        value: 7,
    };
    Engine::open(alloc, question(alloc, 0, count, Pred::Atom(below))?, head)
}

// The column of the next round, or none where there is no such round.
fn next_column(
    engine: &mut Engine,
    source: &mut Numbers,
    plane: &mut Plane,
) -> Result<Option<usize>, StepFault<u8>>
    requires fits { FitsHead engine.old.query engine.old.frame source.old.head }
    requires rows { length plane.old ≡ engine.old.frame.rows }
    ensures fits { FitsHead engine.new.query engine.new.frame source.new.head }
    ensures rows { length plane.new ≡ engine.new.frame.rows }
{
    if ending(&engine.view(), &Plan::widest()).is_some() {
        return Ok(None);
    }
    match read_next(
        engine,
        source,
        &Chooser::new(|p: &Progress| widest(p)),
        plane,
    ) {
        Ok(column) => Ok(Some(column)),
        Err(fault) => Err(fault),
    }
}

// The columns of three rounds; before the third the source fails.
fn three_columns(
    engine: &mut Engine,
    source: &mut Numbers,
    plane: &mut Plane,
) -> [Result<Option<usize>, StepFault<u8>>; 3]
    requires fits { FitsHead engine.old.query engine.old.frame source.old.head }
    requires rows { length plane.old ≡ engine.old.frame.rows }
{
    let first = next_column(engine, source, plane);
    let second = next_column(engine, source, plane);
    source.fails = true;
    let third = next_column(engine, source, plane);
    [first, second, third]
}

// The same over prices of which the first is above 12.
fn columns_told(alloc: Global) -> Result<[Result<Option<usize>, StepFault<u8>>; 3], AllocError> {
    let head = small_head(alloc)?;
    let mut plane = Plane::blank(alloc, 4)?;
    let mut engine = opened(alloc, &head)?;
    let mut source = Numbers {
        head,
        cells: [[12, 6, 9, 0], [0; 4]],
        fails: false,
    };
    Ok(three_columns(&mut engine, &mut source, &mut plane))
}

// The first plane is read; with the second the digits of the first price would pass those of 12. A fault of the source is handed on.
#[test]
fn faults_are_told(rt: HostRuntime) -> Result<(), Fail> {
    let told = columns_told(rt.alloc())?;
    let over = StepFault::OverTop {
        column: 0,
        plane: 1,
        row: 0,
    };
    assert_eq!(rt; told[0], Ok(Some(0)));
    assert_eq!(rt; told[1], Err(over));
    assert_eq!(rt; told[2], Err(StepFault::Source(7)));
    Ok(())
}

// The session of these queries over the table, of which nothing is read.
fn session_of(alloc: Global, queries: Vec<TypedQuery>, head: &Head) -> Result<Session, SessionFault>
    requires some { queries.items ≢ [] }
    requires valid { AllByRecursion (IsValid head.now) queries.items }
    ensures rows { IfOk result (λ session. session.rows ≡ head.now.rows) }
    ensures fits { IfOk result (λ session. FitsSession session head.now) }
{
    Session::open(alloc, queries, head, Nearness::exact())
}

// The column of the next step, or none where there is no such step.
fn next_of_session(
    session: &mut Session,
    source: &mut Numbers,
    plane: &mut Plane,
) -> Result<Option<usize>, StepFault<u8>>
    requires fits { FitsSession session.old source.old.head }
    requires rows { length plane.old ≡ session.old.rows }
    ensures fits { FitsSession session.new source.new.head }
    ensures rows { length plane.new ≡ session.new.rows }
{
    let None = session_ending(session, &Plan::widest()) else {
        return Ok(None);
    };
    match read_next(
        session,
        source,
        &Chooser::new(|p: &Progress| widest(p)),
        plane,
    ) {
        Ok(column) => Ok(Some(column)),
        Err(fault) => Err(fault),
    }
}

// The columns of seven steps.
fn columns_read(
    session: &mut Session,
    source: &mut Numbers,
    plane: &mut Plane,
) -> [Result<Option<usize>, StepFault<u8>>; 7]
    requires fits { FitsSession session.old source.old.head }
    requires rows { length plane.old ≡ session.old.rows }
{
    let first = next_of_session(session, source, plane);
    let second = next_of_session(session, source, plane);
    let third = next_of_session(session, source, plane);
    let fourth = next_of_session(session, source, plane);
    let fifth = next_of_session(session, source, plane);
    let sixth = next_of_session(session, source, plane);
    let seventh = next_of_session(session, source, plane);
    [first, second, third, fourth, fifth, sixth, seventh]
}

// Prices 5, 9, 12 and 3, quantities 2, 1, 4 and 3. Each plane is read once, and then each query is narrow.
#[test]
fn each_plane_is_read_once(rt: HostRuntime) -> Result<(), Fail> {
    let alloc = rt.alloc();
    let head = small_head(alloc)?;
    let mut plane = Plane::blank(alloc, 4)?;
    let mut session = session_of(alloc, three_queries(alloc)?, &head)?;
    let mut source = Numbers {
        head,
        cells: [[2, 6, 9, 0], [1, 0, 3, 2]],
        fails: false,
    };
    let columns = columns_read(&mut session, &mut source, &mut plane);
    for (i, column) in [0, 0, 0, 1, 0, 1].iter().enumerate() {
        assert_eq!(rt; columns[i], Ok(Some(*column)));
    }
    assert_eq!(rt; columns[6], Ok(None));
    Ok(())
}
