//! Persistent logs and maps that share their pages. A change writes to a page in place if the page
//! has one owner, and copies it first if it has others, which stay as they were.
#![tactic(auto)]

mod kept;
mod log;
mod map;
mod modify;

pub use kept::Kept;
pub use log::{LogIter, PagedLog};
pub use map::{MapIter, PagedMap};
pub use modify::{Modify, ModifyWith};
