//! Reading a text.

ghost use Rattle.std.specs.Prelude.{◌≡◌, ◌<◌, ◌↔◌, ℕ, List, length, IfOk, IfErr, Err};
ghost use Rattle.sql_tokens.specs.Lexeme.{views};
ghost use Rattle.sql_text.specs.declared.fault.Cause.{Cause};
ghost use Rattle.sql_text.specs.Tree.{Query, query_of};
ghost use Rattle.sql_text.specs.Answer.{IsText, Breaks, IsFault, Answers, place, fault_of};
ghost use Rattle.sql_text.specs.Laws.{IsAnswered};

use crate::fault::{Cause, Refusal, SqlFault};
use crate::query::sentence;
use crate::tree::Tree;
use sql_tokens::{Token, tokens};
use std::alloc::Global;

/// The most bytes of a text.
pub const MOST_BYTES: usize = 4096;

/// How many parentheses and NOT may be open.
pub const MOST_LEVELS: u8 = 32;

/// The place of the token from which so many are left, or the end.
fn place(tokens: &[Token], left: usize, end: usize) -> usize
    ensures { result ≡ place end (views tokens.now) left }
{
    let before = tokens.len().saturating_sub(left);
    if before < tokens.len() {
        tokens[before].at
    } else {
        end
    }
}

fn fault(cause: Cause, at: usize) -> SqlFault
    ensures { result ≡ fault_of cause at }
{
    match cause {
        Cause::Syntax => SqlFault::Syntax { at },
        Cause::TooDeep => SqlFault::TooDeep { at },
        Cause::TooLarge => SqlFault::LiteralTooLarge { at },
    }
}

/// The tree of a text, else its first refusal from the left.
pub fn parse(alloc: Global, text: &str) -> Result<Tree, SqlFault>
    // This comes before any memory is taken.
    ensures too_long { (result ≡ Err SqlFault.TooLong) ↔ (4096 < length text.now) }
    ensures found { IfOk result (λ t. IsText text.now (query_of t)) }
    // Each query is read, unless memory runs out.
    ensures only { (q : Query) → IsText text.now q → Answers q result }
    ensures refused { IfErr result (λ f. IsFault text.now f) }
{
    if text.len() > MOST_BYTES {
        return Err(SqlFault::TooLong);
    }
    let (tokens, end) = tokens(alloc, text.as_bytes())?;
    match sentence(alloc, MOST_LEVELS, tokens.as_slice()) {
        Ok(tree) => {
            if end < text.len() {
                Err(SqlFault::Syntax { at: end })
            } else {
                Ok(tree)
            }
        }
        Err(Refusal::Memory) => Err(SqlFault::NoMemory),
        Err(Refusal::Stop(stop)) => Err(fault(
            stop.cause,
            place(tokens.as_slice(), stop.left, end),
        )),
    }
}

/// A text is one query at most, and is refused for one cause at one place.
pub fn one_answer()
    ensures queries { (text : List ℕ) (p q : Query) → IsText text p → IsText text q → p ≡ q }
    ensures faults { (text : List ℕ) (c d : Cause) (i j : ℕ) → Breaks text c i → Breaks text d j → (c ≡ d) × (i ≡ j) }
    ensures apart { (text : List ℕ) (c : Cause) (i : ℕ) (q : Query) → Breaks text c i → IsText text q → ⊥ }
{}

/// `parse` has an answer for each text, want of memory left aside: its query, or a fault of it.
pub fn some_answer()
    ensures { IsAnswered }
{}
