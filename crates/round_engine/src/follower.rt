//! A query that is answered over columns that others keep.

ghost use Rattle.std.specs.Prelude.{◌≡◌, IfOk};
ghost use Rattle.round_engine.specs.Engines.{stage_of};
ghost use Rattle.round_engine.specs.Followers.{query_of, AreUnreadFor, Follows, HasFollowed};

use crate::engine_view::EngineView;
use crate::state::State;
use known_column::LentColumns;
use plane_kernels::Plane;
use query_model::TypedQuery;
use std::alloc::{AllocError, Global};

/// A query, and what is kept of its condition and its answers. Its columns are lent to it whenever they are looked at. A plane
/// changes what is kept in place and takes no memory.
pub struct Follower {
    pub(crate) query: TypedQuery,
    pub(crate) state: State,
}

// A call of its own: a derived drop is proved anew wherever a follower is let go.
impl Drop for Follower {
    fn drop(self) {
        let Follower { query: _, state: _ } = self;
    }
}

impl Follower {
    /// The query over its columns, of which nothing is read. All room is taken here. At most so many comparisons and listed numbers
    /// of the condition keep masks, and what passes them is judged row by row.
    pub fn open(
        alloc: Global,
        query: TypedQuery,
        columns: &LentColumns<'_>,
        masks: usize,
    ) -> Result<Follower, AllocError>
        requires unread { AreUnreadFor query columns.now }
        ensures follows { IfOk result (Follows columns.now) }
        ensures query { IfOk result (λ follower. query_of follower ≡ query) }
    {
        match State::open(alloc, &query, columns, masks) {
            Ok(state) => Ok(Follower { query, state }),
            Err(error) => Err(error),
        }
    }

    /// Follows its columns after a plane of one of them was taken.
    pub fn refresh(&mut self, columns: &LentColumns<'_>, column: usize, plane: &Plane)
        requires before { HasFollowed columns.now column plane.now self.old }
        ensures follows { Follows columns.now self.new }
        ensures query { query_of self.new ≡ query_of self.old }
    {
        self.state.refresh(&self.query, columns, column, plane);
    }

    /// What its columns tell of the query's answers.
    pub fn view<'a>(&'a self, columns: LentColumns<'a>) -> EngineView<'a>
        requires follows { Follows columns self.now }
        ensures { result ≡ stage_of (query_of self.now) columns.entry }
    {
        EngineView {
            follower: self,
            columns,
        }
    }

    /// The query.
    pub fn query(&self) -> &TypedQuery
        ensures { result.now ≡ query_of self.now }
    {
        &self.query
    }
}
