//! A query in progress, to be read.

ghost use Rattle.std.specs.Prelude.{◌≡◌};
ghost use Rattle.query_model.specs.Knowledge.{IsKnowledge};
ghost use Rattle.round_engine.specs.Stages.{IsOpenQuery};

use crate::follower::Follower;
use known_column::LentColumns;
use query_model::TypedQuery;
use std::marker::Model;

/// A query, and what is known of its columns after some of their planes: what is kept of the query's answers, and its columns where
/// they are kept.
#[derive(Drop)]
pub struct EngineView<'a> {
    pub(crate) follower: &'a Follower,
    pub(crate) columns: LentColumns<'a>,
}

impl<'a> Model for EngineView<'a> {
    ghost use Rattle.round_engine.specs.Engines.{stage_of};
    ghost use Rattle.round_engine.specs.Followers.{query_of, Follows};
    ghost use Rattle.round_engine.specs.Stages.{Stage};
    ghost use Rattle.query_model.specs.Codes.{query_code};
    ghost use Rattle.std.specs.Coded.{codes};

    ghost Value = { Stage };

    ghost coded = { Prim.hlevel (codes, query_code) };

    ghost view = { λ v. stage_of (query_of v.follower.now) v.columns };

    ghost invariant = { λ v. Follows v.columns v.follower.now };
}

impl EngineView<'_> {
    /// The query.
    pub fn query(&self) -> &TypedQuery
        ensures query { result.now ≡ self.now.query }
        ensures open_query { IsOpenQuery self.now.query self.now.frame }
        ensures knowledge { IsKnowledge self.now.frame self.now.known }
    {
        &self.follower.query
    }
}
