//! The line of a query in front of its report: the kinds of the aggregates that it asks for, what stands beside its averages, and the
//! number of its group columns, or the first rows in an order.
#![tactic(auto)]

mod beside;
mod fault;
mod kinds;
mod laws;
mod rows;

pub use beside::Beside;
pub use fault::KindsFault;
pub use kinds::{QueryShape, query_shape};
pub use laws::{besides_are_one, kinds_are_one, rows_are_one};
pub use rows::{FirstRows, first_rows};
