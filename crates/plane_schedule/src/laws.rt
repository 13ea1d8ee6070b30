//! What holds of policies. Each law stands on a function that does nothing.

ghost use Rattle.plane_schedule.specs.Laws.{ChoicesAreOne, PoliciesChoose};

/// A policy chooses one column at most.
pub fn choices_are_one()
    ensures { ChoicesAreOne }
{}

/// Where a plane is unread, each policy but a list chooses a column.
pub fn policies_choose()
    ensures { PoliciesChoose }
{}
