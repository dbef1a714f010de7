//! Runs of workloads in threads: each worker of a document makes its calls in a thread of its own,
//! on one store, and the document's repair is made beside them.
#![tactic(auto)]

mod administrator;
mod answered_call;
mod answering;
mod closing;
mod faults;
mod merging;
mod report;
mod run;
mod run_context;
mod text;
mod threads;
mod work;

pub use report::Report;
pub use run::run_workers;
pub use text::text_of_report;
