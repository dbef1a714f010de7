//! Runs of the workloads of a small time-travel database: a document is read, its calls are run,
//! and their report is written.
#![tactic(auto)]

mod calls;
mod causes;
mod closed;
mod differences;
mod ends;
mod json_report;
pub mod laws;
mod options;
mod printing;
mod record_text;
mod repair;
mod repair_end;
mod report;
mod run;
mod run_fault;
mod told_repair;

pub use causes::push_redone_if;
pub use differences::push_diff_if;
pub use ends::{read_document, write_text};
pub use options::Options;
pub use record_text::{push_changes, push_records, text_of, text_of_change};
pub use repair::edits_of_slots;
pub use repair_end::push_repair;
pub use report::push_end_of_run;
pub use run::{RunEnd, run_alone, run_to_end};
pub use run_fault::RunFault;
pub use told_repair::ToldRepair;
pub use tt_db::Db;
pub use tt_document::{Ask, Call, DocFault, Document, Plan};
pub use tt_records::{After, Changed, Record, What};
