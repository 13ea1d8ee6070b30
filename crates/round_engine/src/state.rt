//! What is kept of a query's condition and its answers, beside its columns.

ghost use Rattle.std.specs.Prelude.{IfOk};
ghost use Rattle.round_engine.specs.Engines.{IsKept, WasKept};
ghost use Rattle.round_engine.specs.Followers.{AreUnreadFor};

use crate::answers::Answers;
use crate::roles::{givers_of, roles_of};
use kleene_filter::Filter;
use known_column::{LentColumns, RowBlock};
use plane_kernels::Plane;
use plane_schedule::Role;
use query_model::{TypedQuery, start_is_knowledge, taken_is_knowledge};
use std::alloc::{AllocError, Global};

// The block lends its room wherever rows are read.
#[derive(Drop)]
pub(crate) struct State {
    pub(crate) block: RowBlock,
    pub(crate) filter: Filter,
    pub(crate) answers: Answers,
    pub(crate) roles: [Role; 16],
    pub(crate) gives_values: [bool; 16],
}

impl State {
    // Nothing is read of the query's columns. At most so many comparisons and listed numbers keep masks.
    pub(crate) fn open(
        alloc: Global,
        query: &TypedQuery,
        columns: &LentColumns<'_>,
        masks: usize,
    ) -> Result<State, AllocError>
        requires unread { AreUnreadFor query.now columns.now }
        ensures kept { IfOk result (IsKept query.now columns.now) }
    {
        start_is_knowledge();
        // Its clause says that there are few rows.
        let _rows = columns.rows();
        let mut block = RowBlock::open(alloc, columns)?;
        let filter = Filter::open(alloc, &query.pred, columns, &mut block, masks)?;
        let mut answers = Answers::open(alloc, query, columns)?;
        answers.fill(query, columns, &filter, &mut block);
        Ok(State {
            block,
            filter,
            answers,
            roles: roles_of(query),
            gives_values: givers_of(query),
        })
    }

    // Follows the columns after a plane of one of them was taken.
    pub(crate) fn refresh(
        &mut self,
        query: &TypedQuery,
        columns: &LentColumns<'_>,
        column: usize,
        plane: &Plane,
    )
        requires before { WasKept query.now columns.now column plane.now self.old }
        ensures kept { IsKept query.now columns.now self.new }
    {
        taken_is_knowledge();
        let block = &mut self.block;
        self.filter
            .refresh(&query.pred, columns, column, plane, block);
        self.answers
            .refresh(query, columns, &self.filter, column, plane, block);
    }
}
