//! What a request to a live database is answered, and the line of JSON that says so.
#![tactic(auto)]

mod answer;
mod answer_text;
mod cause_text;
mod diff_text;
mod fault_text;
mod log_text;
mod refusal_text;
mod reply_text;
mod slot_text;
mod told_text;

pub use answer::{
    Answer, AskedFor, CauseEntry, ChangeEntry, DiffEntry, Place, Refusal, RepairStatus, RowPage,
    SlotCause, SlotEntry, Status,
};
pub use answer_text::{push_call, push_finished, push_opening, push_trial_counts};
pub use cause_text::push_cause_entry;
pub use diff_text::push_row_change;
pub use log_text::{push_ground_line, push_log_opening, push_slot_line};
pub use reply_text::push_rows;
pub use slot_text::push_change;
