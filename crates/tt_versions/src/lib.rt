//! Tables with multi-version rows (MVCC) and point-in-time reads: each row has a chain of versions,
//! so that it can be read as of any time. A table has two sides: the current one, and the next one,
//! which is rolled back and rewritten row by row while the current one stays.
#![tactic(auto)]

mod index;
mod indexed_column;
mod key_range;
mod keys;
pub mod laws;
mod lineage;
mod lineages;
mod listed_write;
mod next_chain;
mod pace;
mod reach;
mod row_change;
mod row_write;
mod side;
mod split_back;
mod table;
mod unsplit;
mod version;
mod version_chain;
mod version_log;
mod walk;

pub use side::Side;
pub use table::{RowDifference, Table};
