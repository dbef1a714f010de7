//! A session between a reader and where its answers go: its lines are read, answered one after
//! another, and the answers handed over.
#![tactic(auto)]

mod line;
mod outlet;
mod run;

pub use line::Line;
pub use outlet::{Forgotten, Outlet, OutletError, Renewal};
pub use run::{
    BUFFER_BYTES, MAX_TOTAL, SessionEnd, SessionFault, run_session, run_session_to_end,
    serve_session,
};
