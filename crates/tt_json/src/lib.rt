//! JSON values that are read: serde_json's, and those of a text on a tape, which mean the same.
#![tactic(auto)]

mod names;
mod number;
mod tape;
mod tree;
mod value;

pub use json::{Error, Scratch};
pub use tape::{TapeItems, TapeValue, parse, parse_strict, root};
pub use tree::TreeItems;
pub use value::{Found, JsonValue};
