//! A query in progress.

ghost use Rattle.std.specs.Prelude.{◌≡◌, length, IfOk, IfErr, OnOk, OnErr};
ghost use Rattle.query_model.specs.Knowledge.{CanTake};
ghost use Rattle.query_model.specs.Validity.{IsValid};
ghost use Rattle.round_engine.specs.Promises.{LiesWithin, StandingsStay};
ghost use Rattle.round_engine.specs.Stages.{HasPlane, IsFirstOver, opened, stepped};

use crate::engine_view::EngineView;
use crate::follower::Follower;
use daq_table::Head;
use known_column::{KnownColumns, OverTop};
use plane_kernels::Plane;
use query_model::{TypedQuery, average_bounds_nest, bounds_nest, standings_nest};
use std::alloc::{AllocError, Global};
use std::marker::Model;

// At most so many comparisons and listed numbers of a condition keep masks where nothing else is said.
const MASKS: usize = 64;

/// A query, its columns, and what is known of them after some of their planes. What its items come to is kept along, so that a
/// plane changes it in place and takes no memory.
pub struct Engine {
    columns: KnownColumns,
    follower: Follower,
}

// A call of its own: a derived drop is proved anew wherever an engine is let go.
impl Drop for Engine {
    fn drop(self) {
        let Engine {
            columns: _,
            follower: _,
        } = self;
    }
}

impl Model for Engine {
    ghost use Rattle.round_engine.specs.Engines.{stage_of};
    ghost use Rattle.round_engine.specs.Followers.{query_of, Follows};
    ghost use Rattle.round_engine.specs.Stages.{Stage};
    ghost use Rattle.query_model.specs.Codes.{query_code};
    ghost use Rattle.std.specs.Coded.{codes};

    ghost Value = { Stage };

    ghost coded = { Prim.hlevel (codes, query_code) };

    ghost view = { λ e. stage_of (query_of e.follower) e.columns };

    ghost invariant = { λ e. Follows e.columns e.follower };
}

impl Engine {
    /// The query over tables with that head, of which nothing is read. All room is taken here.
    pub fn open(alloc: Global, query: TypedQuery, head: &Head) -> Result<Engine, AllocError>
        requires valid { IsValid head.now query }
        ensures { IfOk result (λ engine. engine ≡ opened query head.now) }
    {
        Engine::open_within(alloc, query, head, MASKS)
    }

    /// The same, where so many comparisons and listed numbers of the condition keep masks, and what passes them is judged row by row.
    /// Only memory and time hang on it.
    pub fn open_within(
        alloc: Global,
        query: TypedQuery,
        head: &Head,
        masks: usize,
    ) -> Result<Engine, AllocError>
        requires valid { IsValid head.now query }
        ensures { IfOk result (λ engine. engine ≡ opened query head.now) }
    {
        let columns = KnownColumns::open(alloc, query.columns.as_slice(), head)?;
        let follower = Follower::open(alloc, query, &columns.lend(), masks)?;
        Ok(Engine { columns, follower })
    }

    /// Takes the next plane of a column of the query. Refused, with nothing changed, where a row's prefix would then be that of no
    /// cell: that of a number above the column's top, or one that goes on behind null.
    pub fn step(&mut self, column: usize, plane: &Plane) -> Result<(), OverTop>
        requires plane { HasPlane self.old column }
        requires rows { length plane.now ≡ self.old.frame.rows }
        ensures taken { OnOk result (self.new ≡ stepped self.old column plane.now) }
        ensures legal { OnOk result (CanTake self.old.frame self.old.known column plane.now) }
        ensures nested { OnOk result ((item : _) (key : _) → LiesWithin self.old self.new item key) }
        ensures kept { OnOk result (StandingsStay self.old self.new) }
        ensures unchanged { OnErr result (self.new ≡ self.old) }
        ensures over { IfErr result (λ e. IsFirstOver self.old column plane.now e.row) }
    {
        bounds_nest();
        average_bounds_nest();
        standings_nest();
        self.columns.take(column, plane)?;
        self.follower.refresh(&self.columns.lend(), column, plane);
        Ok(())
    }

    /// What it tells.
    pub fn view(&self) -> EngineView<'_>
        ensures { result ≡ self.now }
    {
        self.follower.view(self.columns.lend())
    }
}
