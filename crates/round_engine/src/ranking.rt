//! The first rows in an order.

ghost use Rattle.std.specs.Prelude.{◌≡◌, ◌≤◌, false, length, IfOk};
ghost use Rattle.kleene_filter.specs.Filters.{stands_in, truths_under};
ghost use Rattle.query_model.specs.Meaning.{columns_of_pred};
ghost use Rattle.round_engine.specs.Engines.{stage_of};
ghost use Rattle.round_engine.specs.Narrowness.{is_narrow};
ghost use Rattle.round_engine.specs.Rankings.{HoldsOrder, IsRanking, WasRanking};
ghost use Rattle.round_engine.specs.Stages.{IsOpenStage};

use kleene_filter::{Filter, pred_reads};
use known_column::LentColumns;
use plane_kernels::Plane;
use plane_schedule::Nearness;
use query_model::TypedQuery;
use std::alloc::{AllocError, Global};
use topk_bounds::{TopK, searches_go_on, standings_stand};

// A sort key, and what is known of whether each row is among the first in its order.
#[derive(Drop)]
pub(crate) struct Ranking {
    pub(crate) key: u8,
    pub(crate) top: TopK,
}

impl Ranking {
    // Room for the standings of so many rows, of which none is judged.
    pub(crate) fn open(
        alloc: Global,
        key: u8,
        down: bool,
        limit: u32,
        rows: usize,
    ) -> Result<Ranking, AllocError>
        requires { 1 ≤ limit }
        ensures key { IfOk result (λ ranking. ranking.key ≡ key) }
        ensures order { IfOk result (λ ranking. (ranking.top.down ≡ down) × (ranking.top.limit ≡ limit)) }
        ensures rows { IfOk result (λ ranking. length ranking.top.standings ≡ rows) }
    {
        let top = TopK::open(alloc, limit, down, rows)?;
        Ok(Ranking { key, top })
    }

    // Judges each row anew.
    pub(crate) fn judge(&mut self, query: &TypedQuery, columns: &LentColumns<'_>, filter: &Filter)
        requires open_stage { IsOpenStage (stage_of query.now columns.now) }
        requires judged { filter.now.truths ≡ truths_under query.now.pred columns.now }
        requires holds { HoldsOrder (stage_of query.now columns.now) self.old }
        ensures { IsRanking (stage_of query.now columns.now) self.new }
    {
        standings_stand();
        let key = columns.column(usize::from(self.key));
        self.top.judge(filter.must(), filter.may(), key);
    }

    // Judges each row anew after a plane of the sort key, where the same rows pass.
    fn follow(&mut self, query: &TypedQuery, columns: &LentColumns<'_>, plane: &Plane)
        requires open_stage { IsOpenStage (stage_of query.now columns.now) }
        requires before { WasRanking (stage_of query.now columns.now) self.old.key plane.now self.old }
        requires unread { stands_in (columns_of_pred query.now.pred) self.old.key ≡ false }
        ensures { IsRanking (stage_of query.now columns.now) self.new }
    {
        searches_go_on();
        standings_stand();
        self.top.follow(columns.column(usize::from(self.key)));
    }

    // Follows the columns after a plane of one of them. No standing changes where neither the condition nor the key reads it.
    pub(crate) fn refresh(
        &mut self,
        query: &TypedQuery,
        columns: &LentColumns<'_>,
        filter: &Filter,
        column: usize,
        plane: &Plane,
    )
        requires open_stage { IsOpenStage (stage_of query.now columns.now) }
        requires judged { filter.now.truths ≡ truths_under query.now.pred columns.now }
        requires before { WasRanking (stage_of query.now columns.now) column plane.now self.old }
        ensures { IsRanking (stage_of query.now columns.now) self.new }
    {
        if pred_reads(&query.pred, column) {
            self.judge(query, columns, filter);
        } else if usize::from(self.key) == column {
            self.follow(query, columns, plane);
        }
    }

    // Whether it is known of each row whether it is among the first, and where keys are answers too, those of the first are near.
    pub(crate) fn is_narrow(
        &self,
        near: Nearness,
        query: &TypedQuery,
        columns: &LentColumns<'_>,
    ) -> bool
        requires open_stage { IsOpenStage (stage_of query.now columns.now) }
        requires ranking { IsRanking (stage_of query.now columns.now) self.now }
        ensures { result ≡ is_narrow near (stage_of query.now columns.now) }
    {
        if self.top.possible().count() != 0 {
            return false;
        }
        !near.keys || self.keys_are_near(near.width, columns)
    }
}
