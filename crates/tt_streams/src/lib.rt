//! Streams of bytes: reads and writes that are tried again where they are interrupted, as often as
//! the caller's count of retries allows.
#![tactic(auto)]

mod reading;
mod retries;
mod stream_error;
mod writing;

pub use reading::read_once;
pub use retries::MAX_RETRIES;
pub use stream_error::StreamError;
pub use writing::{write_piece, write_text};
