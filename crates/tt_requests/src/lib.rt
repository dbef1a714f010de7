//! What the lines of a session ask for: the opening of a database, and then requests, each one JSON
//! text on a line, or the line's first fault.
#![tactic(auto)]

mod asked;
mod commands;
mod edits;
mod ground_action;
mod kinds;
pub mod laws;
mod line_value;
mod lines;
mod log_opening;
mod numbering;
mod opening;
mod questions;
mod reads;
mod request;
mod session_line;
mod told;
mod told_edits;

pub use asked::{ForgetRequest, asks_read_only, asks_to_forget, forget_request};
pub use ground_action::ground_action_from_line;
pub use lines::{is_blank, is_passed_over};
pub use log_opening::LogOpening;
pub use numbering::{NUMBER_LIMIT, Numbering};
pub use opening::Opening;
pub use request::{
    CallKind, ChangePage, Command, DiffPage, Page, Request, SlotFilter, SlotPage, StampRange,
    ToldEdits,
};
pub use session_line::SessionLine;
pub use told::{ToldGeneration, ToldTime};
pub use told_edits::{missing_slot, own_edits};

/// The largest length of a line, in bytes, without its line feed.
pub const MAX_LINE_BYTES: usize = 16_777_216;

/// The largest number of closed generations that a session keeps.
pub const MAX_KEEP: u32 = 16;

/// The largest number of records of calls that a session keeps.
pub const MAX_RECORDS: u32 = 1_000_000;

/// The largest number of slots that the ground of a log has.
pub const MAX_GROUND_SLOTS: u32 = 1_000_000;

/// The largest number of steps of a repair that a request asks for.
pub const MAX_STEPS: u32 = 10_000;

/// The largest number of rows, re-executed slots, differences, or changed replies that a page asks
/// for.
pub const MAX_PAGE: u32 = 100_000;

/// How far the last slot that a request asks for may be behind the first one.
pub const MAX_SPAN: u64 = 9_999;
