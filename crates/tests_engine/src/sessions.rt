//! Three queries over a small table, from their opening to their last planes; and a plane that is refused.

ghost use Rattle.std.specs.Prelude.{◌≡◌, ◌∷◌, [], pos, length, IfOk};
ghost use Rattle.query_model.specs.declared.query.Atom.TheVariants.{Compare};
ghost use Rattle.query_model.specs.declared.query.Comparison.TheVariants.{Lt};
ghost use Rattle.query_model.specs.declared.query.Face.TheVariants.{Number, OfColumn};
ghost use Rattle.query_model.specs.declared.query.ItemKind.TheVariants.{Count, Min, Sum};
ghost use Rattle.query_model.specs.declared.query.Shape.TheVariants.{Plain};
ghost use Rattle.query_model.specs.Queries.{All, Column, Literal, Single};

use crate::small::{item, question, small_head};
use known_column::OverTop;
use multi_session::{Session, SessionFault};
use plane_kernels::{Plane, transpose};
use plane_schedule::{Chooser, Nearness, Progress, widest};
use query_model::{Atom, Comparison, Expr, Face, ItemKind, Pred, TypedQuery};
use std::alloc::{AllocError, Global};
use std::test::Fail;

// SUM(price), COUNT(*) where price < 7, MIN(qty).
pub(crate) fn three_queries(alloc: Global) -> Result<Vec<TypedQuery>, AllocError>
    ensures { IfOk result (λ queries. queries.items ≡
        record {
          columns = 0 ∷ [];
          items = record { kind = Sum; arg = Column 0; face = Number 0 } ∷ [];
          pred = All;
          shape = Plain;
        }
        ∷ record {
          columns = 0 ∷ [];
          items = record { kind = Count; arg = Literal (pos 0); face = Number 0 } ∷ [];
          pred = Single (Compare 0 Lt (pos 7));
          shape = Plain;
        }
        ∷ record {
          columns = 1 ∷ [];
          items = record { kind = Min; arg = Column 0; face = OfColumn 0 } ∷ [];
          pred = All;
          shape = Plain;
        } ∷ []) }
{
    let sum = item(ItemKind::Sum, Expr::Column(0), Face::Number(0));
    let count = item(ItemKind::Count, Expr::Literal(0), Face::Number(0));
    let least = item(ItemKind::Min, Expr::Column(0), Face::OfColumn(0));
    let below = Atom::Compare {
        column: 0,
        op: Comparison::Lt,
        value: 7,
    };
    let sum = question(alloc, 0, sum, Pred::All)?;
    let count = question(alloc, 0, count, Pred::Atom(below))?;
    let least = question(alloc, 1, least, Pred::All)?;
    Ok(vec![in alloc; sum, count, least]?)
}

// The session of the three queries over the table, of which nothing is read.
fn small_session(alloc: Global) -> Result<Session, SessionFault>
    ensures rows { IfOk result (λ session. session.rows ≡ 4) }
    ensures queries { IfOk result (λ session. length session.stages ≡ 3) }
{
    let near = Nearness::exact();
    Session::open(alloc, three_queries(alloc)?, &small_head(alloc)?, near)
}

// What a step did: the column that was read, the queries to which it went, and the number of each query's own reads.
#[derive(Clone, Copy, Debug, PartialEq, Eq)]
struct Handed {
    column: usize,
    moved: [bool; 3],
    reads: [u32; 3],
}

fn told(session: &Session, column: usize) -> Handed
    requires { length session.now.stages ≡ 3 }
{
    Handed {
        column,
        moved: [session.moved(0), session.moved(1), session.moved(2)],
        reads: [session.reads(0), session.reads(1), session.reads(2)],
    }
}

// One step: the widest column is read, and these are the bits of its next plane. None where nothing is awaited.
fn step(session: &mut Session, bits: [u64; 4], plane: &mut Plane) -> Option<Result<Handed, OverTop>>
    requires rows { session.old.rows ≡ 4 }
    requires queries { length session.old.stages ≡ 3 }
    requires plane { length plane.old ≡ 4 }
    ensures rows { session.new.rows ≡ 4 }
    ensures queries { length session.new.stages ≡ 3 }
    ensures plane { length plane.new ≡ 4 }
{
    let chooser = Chooser::new(|progress: &Progress| widest(progress));
    let column = chooser.next(&session.progress())?;
    transpose(&bits, 1, 0, plane);
    match session.step(column, plane) {
        Ok(()) => Some(Ok(told(session, column))),
        Err(over) => Some(Err(over)),
    }
}

// The steps by these planes.
fn steps(
    alloc: Global,
    planes: [[u64; 4]; 7],
) -> Result<[Option<Result<Handed, OverTop>>; 7], SessionFault> {
    let mut session = small_session(alloc)?;
    let mut plane = Plane::blank(alloc, 4)?;
    let mut steps = [None; 7];
    for i in 0..7 {
        steps[i] = step(&mut session, planes[i], &mut plane);
    }
    Ok(steps)
}

// Prices 5, 9, 12 and 3, quantities 2, 1, 4 and 3. The count is told after two reads, the sum after four.
#[test]
fn each_plane_is_read_once(rt: HostRuntime) -> Result<(), Fail> {
    let planes = [
        [0, 0, 1, 0],
        [0, 1, 0, 0],
        [1, 1, 0, 0],
        [0, 0, 1, 1],
        [0, 0, 1, 0],
        [1, 0, 1, 0],
        [0, 0, 0, 0],
    ];
    let expected = [
        (0, [true, true, false], [1, 1, 0]),
        (0, [true, true, false], [2, 2, 0]),
        (0, [true, false, false], [3, 2, 0]),
        (1, [false, false, true], [3, 2, 1]),
        (0, [true, false, false], [4, 2, 1]),
        (1, [false, false, true], [4, 2, 2]),
    ];
    let steps = steps(rt.alloc(), planes)?;
    for i in 0..6 {
        let (column, moved, reads) = expected[i];
        let told = Handed {
            column,
            moved,
            reads,
        };
        assert_eq!(rt; steps[i], Some(Ok(told)));
    }
    assert_eq!(rt; steps[6], None);
    Ok(())
}

// With the second plane the third price would pass 12. Nothing changes, and the plane is read again.
#[test]
fn refused_plane_changes_nothing(rt: HostRuntime) -> Result<(), Fail> {
    let mut planes = [[0, 0, 0, 0]; 7];
    planes[0] = [0, 0, 1, 0];
    planes[1] = [0, 1, 1, 0];
    planes[2] = [0, 1, 0, 0];
    let steps = steps(rt.alloc(), planes)?;
    let told = Handed {
        column: 0,
        moved: [true, true, false],
        reads: [2, 2, 0],
    };
    assert_eq!(rt; steps[1], Some(Err(OverTop { row: 2 })));
    assert_eq!(rt; steps[2], Some(Ok(told)));
    Ok(())
}
