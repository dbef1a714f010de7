//! Documents: a workload of a small time-travel database, read from JSON, or its first fault.
#![tactic(auto)]

mod calls;
mod document;
mod reading;
mod reads;
mod repair;

pub use document::{Ask, Call, Document, Plan};
pub use tt_grammar::{DocFault, MAX_EDITS, OwnedItems};
pub use tt_repair_laws::Edit;

/// The largest number of workers of a document.
pub const MAX_WORKERS: u32 = 15;

/// The largest number of calls of a document, and of calls that are made during its repair.
pub const MAX_CALLS: usize = 100_000;
