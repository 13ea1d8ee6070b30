//! What holds of the steps of a session. Each law stands on a function that does nothing.

ghost use Rattle.table_rounds.specs.SessionLaws.{QueriesStandAlone, SessionsAreCertain, SessionsAreOne};
ghost use Rattle.table_rounds.specs.SessionLaws.{SessionsAreShort, SessionsBegin, SessionsHaveAnEnd};

use crate::laws::{rounds_are_certain, rounds_begin, rounds_have_planes};
use plane_schedule::{choices_are_one, policies_choose};
use query_model::{taken_is_knowledge, valid_queries_name_columns};

/// Nothing read is before the first step of every plan.
pub fn sessions_begin()
    ensures { SessionsBegin }
{
    rounds_begin();
}

/// Each query is asked as it would be alone by its own reads, and stands after each step where it would after the first of them.
pub fn queries_stand_alone()
    ensures { QueriesStandAlone }
{}

/// So its bounds are certain, of each table that has the planes that it read.
pub fn sessions_are_certain()
    ensures { SessionsAreCertain }
{
    valid_queries_name_columns();
    rounds_are_certain();
}

/// A session has no more steps than its columns have planes.
pub fn sessions_are_short()
    ensures { SessionsAreShort }
{}

/// There is one list of columns that the steps of a plan read, and one outcome to which they come.
pub fn sessions_are_one()
    ensures { SessionsAreOne }
{
    choices_are_one();
}

/// Steps go on to a last one, or to a plane that is refused or cannot be read.
pub fn sessions_have_an_end()
    ensures { SessionsHaveAnEnd }
{
    rounds_begin();
    rounds_have_planes();
    policies_choose();
    taken_is_knowledge();
}
