//! Shared pages: lists and maps beside a plain `Vec` and a `BTreeMap`.
mod even;
mod log;
mod map;
