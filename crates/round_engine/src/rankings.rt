//! What an engine tells of the first rows in an order.

ghost use Rattle.std.specs.Prelude.{◌≡◌, ◌<◌, map};
ghost use Rattle.daq_table.specs.declared.table_head.Head.{Head};
ghost use Rattle.daq_table.specs.Tables.{frame_of, rows_of};
ghost use Rattle.query_model.specs.Ranking.{standing_under};
ghost use Rattle.query_model.specs.Validity.{FitsHead, IsTop};
ghost use Rattle.round_engine.specs.Promises.{IsCertainStanding};
ghost use Rattle.topk_bounds.specs.Standings.{is_certain, is_possible};

use crate::engine_view::EngineView;
use plane_kernels::Mask;
use query_model::{
    Standing, fitting_heads_have_parts, standings_are_right_on_tables, standings_become_exact,
};

impl EngineView<'_> {
    /// What is known of whether a row is among the first.
    pub fn standing(&self, row: usize) -> Standing
        requires ranked { IsTop self.now.query.shape }
        requires row { row < self.now.frame.rows }
        ensures standing { result ≡ standing_under self.now.query self.now.frame self.now.known row }
        ensures certain { (head : Head) → FitsHead self.now.query self.now.frame head → IsCertainStanding self.now row (frame_of head) }
    {
        standings_are_right_on_tables();
        standings_become_exact();
        fitting_heads_have_parts();
        self.follower.state.answers.ranking().top.standing(row)
    }

    /// The rows that are among the first for certain.
    pub fn certain_rows(&self) -> &Mask
        requires ranked { IsTop self.now.query.shape }
        ensures { result.now
            ≡ map (λ r. is_certain (standing_under self.now.query self.now.frame self.now.known r)) (rows_of self.now.frame) }
    {
        self.follower.state.answers.ranking().top.certain()
    }

    /// The rows that may be among the first, though not for certain.
    pub fn possible_rows(&self) -> &Mask
        requires ranked { IsTop self.now.query.shape }
        ensures { result.now
            ≡ map (λ r. is_possible (standing_under self.now.query self.now.frame self.now.known r)) (rows_of self.now.frame) }
    {
        self.follower.state.answers.ranking().top.possible()
    }
}
