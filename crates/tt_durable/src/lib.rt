//! A session whose lines are logged, and what it is read back from.
#![tactic(auto)]

pub mod laws;
mod log_outlet;
mod log_renewal;
mod logged_session;
mod restoring;

pub use logged_session::{LoggedFault, run_logged_session};
