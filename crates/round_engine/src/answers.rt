//! The answers of a query, in the form that its shape asks for.

ghost use Rattle.std.specs.Prelude.{◌≡◌, ◌<◌, ◌^◌, IfOk};
ghost use Rattle.kleene_filter.specs.Filters.{truths_under};
ghost use Rattle.known_column.specs.KnownTables.{unread_table};
ghost use Rattle.round_engine.specs.Engines.{stage_of, AreAnswers, AreSomeAnswers, HoldAnswers};
ghost use Rattle.round_engine.specs.Engines.{IsGroupsForm, IsRankingForm, IsTotalsForm, StoodBefore};
ghost use Rattle.round_engine.specs.Narrowness.{is_narrow};
ghost use Rattle.round_engine.specs.Stages.{IsOpenStage};

use crate::groups::Groups;
use crate::kept_products::open_products;
use crate::moved::moved_items;
use crate::ranking::Ranking;
use crate::totals::Totals;
use kleene_filter::Filter;
use known_column::{LentColumns, RowBlock};
use plane_kernels::Plane;
use plane_schedule::Nearness;
use query_model::{Shape, TypedQuery};
use std::alloc::{AllocError, Global};

#[derive(Drop)]
pub(crate) enum Answers {
    // Of a query without groups and order: one answer for each item.
    Totals(Totals),
    // Of a query with groups: for each cell of keys one for each item.
    Groups(Groups),
    // Of a query for rows in an order: the standing of each row.
    Ranking(Ranking),
}

impl Answers {
    // Room for the answers over these columns, of which nothing is read.
    pub(crate) fn open(
        alloc: Global,
        query: &TypedQuery,
        columns: &LentColumns<'_>,
    ) -> Result<Answers, AllocError>
        requires open_stage { IsOpenStage (stage_of query.now columns.now) }
        requires unread { columns.now ≡ unread_table columns.now.frame }
        ensures { IfOk result (HoldAnswers (stage_of query.now columns.now)) }
    {
        let rows = columns.rows();
        match &query.shape {
            Shape::Plain => {
                let items = query.items.as_slice();
                let products = open_products(alloc, query, columns, 1)?;
                Ok(Answers::Totals(Totals::open(alloc, items, rows, products)?))
            }
            Shape::Grouped(_) => Ok(Answers::Groups(Groups::open(alloc, query, columns)?)),
            Shape::Top { key, down, limit } => {
                let ranking = Ranking::open(alloc, *key, *down, *limit, rows)?;
                Ok(Answers::Ranking(ranking))
            }
        }
    }

    // Computes all of them.
    pub(crate) fn fill(
        &mut self,
        query: &TypedQuery,
        columns: &LentColumns<'_>,
        filter: &Filter,
        block: &mut RowBlock,
    )
        requires open_stage { IsOpenStage (stage_of query.now columns.now) }
        requires judged { filter.now.truths ≡ truths_under query.now.pred columns.now }
        requires room { HoldAnswers (stage_of query.now columns.now) self.old }
        requires same { block.old.frame.columns ≡ columns.now.frame.columns }
        ensures same { block.new.frame.columns ≡ columns.now.frame.columns }
        ensures answers { AreAnswers (stage_of query.now columns.now) self.new }
    {
        match self {
            Answers::Totals(totals) => totals.fill(query, columns, filter, block, &[true; 16]),
            Answers::Groups(groups) => groups.fill(query, columns, filter, block),
            Answers::Ranking(ranking) => ranking.judge(query, columns, filter),
        }
    }

    // Follows the columns after a plane of one of them: what reads that column is computed anew.
    pub(crate) fn refresh(
        &mut self,
        query: &TypedQuery,
        columns: &LentColumns<'_>,
        filter: &Filter,
        column: usize,
        plane: &Plane,
        block: &mut RowBlock,
    )
        requires open_stage { IsOpenStage (stage_of query.now columns.now) }
        requires judged { filter.now.truths ≡ truths_under query.now.pred columns.now }
        requires before { StoodBefore (stage_of query.now columns.now) column plane.now self.old }
        requires same { block.old.frame.columns ≡ columns.now.frame.columns }
        ensures same { block.new.frame.columns ≡ columns.now.frame.columns }
        ensures answers { AreAnswers (stage_of query.now columns.now) self.new }
    {
        match self {
            Answers::Totals(totals) => {
                let moved = moved_items(query, column);
                totals.fill(query, columns, filter, block, &moved);
            }
            Answers::Groups(groups) => {
                groups.refresh(query, columns, filter, column, plane, block);
            }
            Answers::Ranking(ranking) => ranking.refresh(query, columns, filter, column, plane),
        }
    }

    // Whether each is narrow.
    pub(crate) fn is_narrow(
        &self,
        near: Nearness,
        query: &TypedQuery,
        columns: &LentColumns<'_>,
    ) -> bool
        requires open_stage { IsOpenStage (stage_of query.now columns.now) }
        requires some { AreSomeAnswers self.now }
        requires answers { AreAnswers (stage_of query.now columns.now) self.now }
        requires width { near.width < 2 ^ 63 }
        ensures { result ≡ is_narrow near (stage_of query.now columns.now) }
    {
        match self {
            Answers::Totals(totals) => totals.is_narrow(near),
            Answers::Groups(groups) => groups.is_narrow(near),
            Answers::Ranking(ranking) => ranking.is_narrow(near, query, columns),
        }
    }

    // Those of a query without groups and order.
    pub(crate) fn totals(&self) -> &Totals
        requires { IsTotalsForm self.now }
        ensures { self.now ≡ Answers.Totals result.now }
    {
        match self {
            Answers::Totals(totals) => totals,
            Answers::Groups(_) | Answers::Ranking(_) => unreachable!(),
        }
    }

    // Those of a query with groups.
    pub(crate) fn groups(&self) -> &Groups
        requires { IsGroupsForm self.now }
        ensures { self.now ≡ Answers.Groups result.now }
    {
        match self {
            Answers::Groups(groups) => groups,
            Answers::Totals(_) | Answers::Ranking(_) => unreachable!(),
        }
    }

    // Those of a query for rows in an order.
    pub(crate) fn ranking(&self) -> &Ranking
        requires { IsRankingForm self.now }
        ensures { self.now ≡ Answers.Ranking result.now }
    {
        match self {
            Answers::Ranking(ranking) => ranking,
            Answers::Totals(_) | Answers::Groups(_) => unreachable!(),
        }
    }
}
