//! Why a repair re-executes a slot, and what differs between the generations: definitions and
//! their laws. Each cause names what got dirty, and the slot that it got dirty with, so that a chain
//! of causes leads back to an edit.
#![tactic(auto)]

pub mod laws;
