//! A session: a database that is opened by a line, and answers each further line.
#![tactic(auto)]

mod answering;
mod checkpoint;
mod first_line;
pub mod laws;
mod logging;
mod lost_line;
mod pending_lines;
mod ready_to_forget;
mod recoverable_session;
mod reopening;
mod session;
mod short_answer;
mod together;
mod workspace;

pub use answering::answer_in_place;
pub use first_line::{first_feed, read_line};
pub use logging::SessionExtent;
pub use lost_line::LostLine;
pub use pending_lines::PendingLines;
pub use ready_to_forget::ReadyToForget;
pub use recoverable_session::RecoverableSession;
pub use session::{Session, open_or_stay};
pub use short_answer::ShortAnswer;
pub use together::Extent;
pub use tt_commands::OpenSession;
pub use workspace::{MANY_BYTES, Workspace, is_much};
