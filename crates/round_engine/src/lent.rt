//! What an engine lends of what it keeps: its columns, and the rows of its condition.

ghost use Rattle.std.specs.Prelude.{◌≡◌};
ghost use Rattle.kleene_filter.specs.Filters.{truths_under};

use crate::engine_view::EngineView;
use kleene_filter::Filter;
use known_column::LentColumns;

impl EngineView<'_> {
    /// The query's columns, as far as they are known.
    pub fn columns(&self) -> &LentColumns<'_>
        ensures { result.now ≡ record { frame = self.now.frame; known = self.now.known } }
    {
        &self.columns
    }

    /// What is known of the condition at each row.
    pub fn filter(&self) -> &Filter
        ensures { result.now.truths ≡ truths_under self.now.query.pred (record { frame = self.now.frame; known = self.now.known }) }
    {
        &self.follower.state.filter
    }

    /// The number of rows.
    pub fn rows(&self) -> usize
        ensures { result ≡ self.now.frame.rows }
    {
        self.columns.rows()
    }
}
