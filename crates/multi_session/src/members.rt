//! The queries of a session, one after another.

ghost use Rattle.std.specs.Prelude.{◌<◌, ◌^◌, IfOk, length, slice_index};
ghost use Rattle.std.specs.List.{All};
ghost use Rattle.daq_table.specs.declared.table_head.Head.{Head};
ghost use Rattle.query_model.specs.Validity.{IsValid};
ghost use Rattle.multi_session.specs.Members.{AreColumns, AreOpened, AreUnread, HandedBelow, IsBehind, IsReady};

use crate::columns::Columns;
use crate::member::Member;
use plane_kernels::Plane;
use plane_schedule::Nearness;
use query_model::TypedQuery;
use std::alloc::{AllocError, Global};

// The comparisons and listed numbers that keep masks, of all queries together.
const MASKS: usize = 64;

// The queries over the columns of a session of which nothing is read.
pub(crate) fn open_each(
    alloc: Global,
    queries: Vec<TypedQuery>,
    columns: &Columns,
    near: Nearness,
) -> Result<Vec<Member>, AllocError>
    requires near { near.width < 2 ^ 63 }
    requires known { AreColumns columns.now.places.items columns.now.known }
    requires ready { All (IsReady columns.now.places.items columns.now.known) queries.items }
    ensures { IfOk result (λ members. (head : Head) → All (IsValid head) queries.items
        → AreUnread head columns.now.places.items columns.now.known
        → AreOpened queries.items head near columns.now.places.items columns.now.known members.items) }
{
    let masks = MASKS / queries.len().max(1);
    let mut members = Vec::with_capacity(alloc, queries.len())?;
    for query in queries {
        members.push(Member::open(alloc, query, columns, near, masks)?)?;
    }
    Ok(members)
}

// Hands the plane that a column of the session just took to each query that awaits it.
pub(crate) fn hand(
    members: &mut [Member],
    columns: &Columns,
    column: usize,
    plane: &Plane,
    step: u32,
    near: Nearness,
)
    requires near { near.width < 2 ^ 63 }
    requires column { column < length columns.now.places.items }
    requires behind { All (IsBehind near step column columns.now.places.items plane.now columns.now.known) members.old }
    ensures { HandedBelow near step (slice_index columns.now.places.items column) columns.now.places.items plane.now columns.now.known
        members.old members.new (length members.old) }
{
    for number in 0..members.len() {
        members[number].follow(columns, column, plane, step, near);
    }
}
