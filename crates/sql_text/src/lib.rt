//! Queries: a text to its tree.
#![tactic(auto)]

mod atom;
mod expression;
mod fault;
mod look;
mod predicate;
mod query;
mod reading;
mod tree;

pub use fault::SqlFault;
pub use reading::{one_answer, parse, some_answer};
pub use tree::{
    CallKind, Comparison, Ending, ExprTree, ItemTree, Named, Num, PredTree, Select, Text, Tree,
    Value,
};
