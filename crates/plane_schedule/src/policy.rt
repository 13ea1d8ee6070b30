//! Plans of rounds: by which policy columns are read, and how far.

ghost use Rattle.std.specs.Prelude.{◌≡◌};
ghost use Rattle.plane_schedule.specs.Plans.{ending_of, exact_answers, is_list_end, is_most, no_extras, widest_plan};

use crate::policies::FixedPolicy;
use query_model::Columns;

/// The policy by which the next column is chosen.
#[derive(Drop, Debug)]
pub enum Policy {
    /// That of a word.
    By(FixedPolicy),
    /// These columns of the query, one for each round.
    Listed(Columns),
}

/// Which lines a block has besides those of the items' bounds: their clipped bounds, and the exact extremes of averages.
#[derive(Clone, Copy, Debug, PartialEq, Eq)]
pub struct Extras {
    pub clip: bool,
    pub exact: bool,
}

/// When a round is narrow: how far apart the ends of its answers may be, and, where rows are asked in an order, whether the keys of
/// the first rows are answers too.
#[derive(Clone, Copy, Debug, PartialEq, Eq)]
pub struct Nearness {
    pub width: u64,
    pub keys: bool,
}

/// So many rows at most are listed where few are.
pub const FEW_ROWS: usize = 100_000;

/// Which rows a block lists, where rows are asked in an order.
#[derive(Clone, Copy, Debug, PartialEq, Eq)]
pub enum Listing {
    /// Those that are among the first for certain.
    Certain,
    /// Those that may be among the first, too.
    All,
    /// The same where these are at most `FEW_ROWS` in all, else none.
    Few,
}

/// A policy, when a round is narrow, and the number of the last round that is wanted, if any. Where rows are asked in an order,
/// `listing` says which of them a block lists. `extras` says which lines a block has besides.
#[derive(Drop, Debug)]
pub struct Plan {
    pub policy: Policy,
    pub near: Nearness,
    pub most: Option<u32>,
    pub listing: Listing,
    pub extras: Extras,
}

/// Why a round is the last: it is narrow, or the last that is wanted, or the list of columns is at its end.
#[derive(Clone, Copy, Debug, PartialEq, Eq)]
pub enum Ending {
    Narrow,
    Rounds,
    Reads,
}

impl Policy {
    // Whether a list of columns is at its end after the round with that number.
    fn is_list_end(&self, round: u32) -> bool
        ensures { result ≡ is_list_end self.now round }
    {
        match self {
            Policy::By(_) => false,
            Policy::Listed(list) => round as usize == list.as_slice().len(),
        }
    }
}

impl Nearness {
    /// Each answer is one number, and no key is an answer.
    pub fn exact() -> Nearness
        ensures { result ≡ exact_answers }
    {
        Nearness {
            width: 0,
            keys: false,
        }
    }
}

impl Extras {
    /// No line besides.
    pub fn none() -> Extras
        ensures { result ≡ no_extras }
    {
        Extras {
            clip: false,
            exact: false,
        }
    }
}

impl Plan {
    /// Each time the widest column, until each answer is one number. Certain rows alone are listed, and no line stands besides those of
    /// the items' bounds.
    pub fn widest() -> Plan
        ensures { result ≡ widest_plan }
    {
        Plan {
            policy: Policy::By(FixedPolicy::Widest),
            near: Nearness::exact(),
            most: None,
            listing: Listing::Certain,
            extras: Extras::none(),
        }
    }

    // Whether the round with that number is the last that is wanted.
    fn is_most(&self, round: u32) -> bool
        ensures { result ≡ is_most self.now.most round }
    {
        match self.most {
            Some(most) => round == most,
            None => false,
        }
    }

    /// Why the rounds end with the round of that number, which is narrow or not; none where they go on.
    pub fn ending(&self, narrow: bool, round: u32) -> Option<Ending>
        ensures { result ≡ ending_of self.now narrow round }
    {
        if narrow {
            Some(Ending::Narrow)
        } else if self.is_most(round) {
            Some(Ending::Rounds)
        } else if self.policy.is_list_end(round) {
            Some(Ending::Reads)
        } else {
            None
        }
    }
}
