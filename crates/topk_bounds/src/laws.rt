//! The standings are those of the definition, and a search goes on. Each law stands on a function that does nothing.

ghost use Rattle.topk_bounds.specs.Searches.{SearchesGoOn};
ghost use Rattle.topk_bounds.specs.Standings.{StandingsStand};

/// Where the masks and the sort key are those of what is known of a table, the standings are those of the definition.
pub fn standings_stand()
    ensures { StandingsStand }
{}

/// After one more plane of the sort key the searches of the last judgement can go on, by the same rows.
pub fn searches_go_on()
    ensures { SearchesGoOn }
{}
