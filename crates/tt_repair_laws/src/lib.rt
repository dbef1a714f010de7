//! Slots with the edits of a repair, and the slots that a repair has to re-execute: definitions and
//! their laws. A repair cancels slots or replaces their actions; by the laws it is enough to
//! re-execute the slots that are due.
#![tactic(auto)]

mod edit;
pub mod laws;

pub use edit::Edit;
