//! Why a text is refused.

ghost use Rattle.std.specs.Prelude.{◌≡◌, length};
ghost use Rattle.sql_text.specs.declared.fault.Refusal.TheVariants as refusals;
ghost use Rattle.sql_text.specs.declared.fault.SqlFault.TheVariants as faults;

use sql_tokens::Token;
use std::alloc::{AllocError, AllocFailed};
use thiserror::Error;

/// Why a text is no query. Places are bytes of the text.
#[derive(Debug, PartialEq, Eq, Drop, Error)]
pub enum SqlFault {
    #[error("longer than 4096 bytes")]
    TooLong,
    #[error("syntax at {at}")]
    Syntax { at: usize },
    #[error("nested too deep at {at}")]
    TooDeep { at: usize },
    #[error("number too large at {at}")]
    LiteralTooLarge { at: usize },
    #[error("no memory")]
    NoMemory,
}

impl From<AllocError> for SqlFault {
    ghost from_gives = { λ _ e. e ≡ faults.NoMemory };

    fn from(_e: AllocError) -> SqlFault {
        SqlFault::NoMemory
    }
}

#[derive(Clone, Copy, Debug, PartialEq, Eq)]
pub enum Cause {
    Syntax,
    TooDeep,
    TooLarge,
}

/// The first refusal from the left: its cause, and how many tokens were left there.
#[derive(Clone, Copy, Debug, PartialEq, Eq)]
pub struct Stop {
    pub cause: Cause,
    pub left: usize,
}

#[derive(Debug, Drop)]
pub enum Refusal {
    Memory,
    Stop(Stop),
}

impl From<AllocError> for Refusal {
    ghost from_gives = { λ _ e. e ≡ refusals.Memory };

    fn from(_e: AllocError) -> Refusal {
        Refusal::Memory
    }
}

impl<T: Drop> From<AllocFailed<T>> for Refusal {
    ghost from_gives = { λ _ e. e ≡ refusals.Memory };

    fn from(_e: AllocFailed<T>) -> Refusal {
        Refusal::Memory
    }
}

/// The refusal at the front of these tokens.
pub fn stop_at(cause: Cause, tokens: &[Token]) -> Refusal
    ensures { result ≡ Refusal.Stop (record { cause = cause; left = length tokens.now }) }
{
    Refusal::Stop(Stop {
        cause,
        left: tokens.len(),
    })
}
