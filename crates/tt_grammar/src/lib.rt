//! What a grammar of JSON is made of: values that are read member by member, or their first fault;
//! tables, conditions, changes, writes and actions, which documents and requests share; and their
//! printing.
#![tactic(auto)]

mod actions;
mod arrays;
mod causes;
mod changes;
mod comparisons;
mod conditions;
mod decoder;
pub mod decoding;
mod edits;
mod fault;
mod json_text;
pub mod laws;
mod members;
mod owned_items;
mod printing;
mod quoting;
mod repeated_members;
mod statements;
mod table_text;
mod tables;
mod text_value;
mod version;
mod write_text;

pub use causes::cause_of_check;
pub use fault::DocFault;
pub use json_text::{push_flag, push_named};
pub use owned_items::OwnedItems;
pub use printing::{push_decimal, push_int, push_labelled, push_row, push_value};
pub use quoting::push_quoted;
pub use table_text::push_tables;
pub use text_value::parse_text;
pub use version::{NEWEST_SESSION_VERSION, OLDEST_SESSION_VERSION};
pub use write_text::{
    column_name, push_action, push_action_or_null, push_equals, push_named_action, table_name,
};

/// The largest number of edits of a repair.
pub const MAX_EDITS: usize = 10_000;
