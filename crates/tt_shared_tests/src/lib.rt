//! What several crates of tests share: a model of the rows of a database, which shares no code with
//! it, and the marks between which calls may meet want of memory.
#![tactic(auto)]

mod dirty;
mod marks;
mod rows;

pub use dirty::Dirty;
pub use marks::{Tally, mark, quiet};
pub use rows::{Effect, Key, Rows};
