//! Requests of an open session: what each of them answers, and what becomes of the session with it.
#![tactic(auto)]

mod asked_repair;
mod cause_entries;
mod change_entries;
mod commands;
mod diff_entries;
mod failure;
mod forgetting;
pub mod laws;
mod open_session;
mod pages;
mod reading;
mod records;
mod repairing;
mod response;
mod room;
mod session_change;
mod slot_entries;
mod stamps;
mod terms;
mod told_requests;
mod trial;
mod writing;

pub use commands::outcome_of_request;
pub use failure::Failure;
pub use forgetting::outcome_of_forget;
pub use open_session::OpenSession;
pub use repairing::status_of;
pub use response::Response;
pub use session_change::{BoxedForgetting, Forgetting, SessionChange, StampedSlot};
pub use stamps::Stamps;
pub use terms::Terms;

// An opening asks for no more closed generations than a database keeps.
const _: () = prove!(tt_requests::MAX_KEEP == tt_db::MAX_KEEP);
