//! From a query's tree to a typed query over a table's head, or its first fault.
#![tactic(auto)]

mod condition;
mod expression;
mod fault;
mod fit;
mod item;
mod laws;
mod names;
mod numbering;
mod scale;
mod shape;
mod spot;
mod table;
mod typing;
mod value;

pub use fault::TypeFault;
pub use laws::{trees_have_typings, typed_queries_are_valid, typing_is_exact};
pub use typing::type_query;
