//! Partitions of rows, the partitions that a write reads, and the set of rows and partitions that
//! are dirty during a repair.
#![tactic(auto)]

mod by_position;
mod dirty;
mod dirty_keys;
mod dirty_partitions;
mod dirty_rows;
pub mod laws;
mod members;
mod partition;
mod parts;
mod persistent;
mod same_digest;
mod statement_reads;

pub use dirty::Dirty;
pub use members::reads_partition;
pub use partition::{Partition, Reads};
pub use parts::parts_of;
pub use statement_reads::{equates_partition, reads_of};
