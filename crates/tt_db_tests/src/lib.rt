//! Tests of the database, of what no contract says: that ample memory is enough for each call, that
//! earlier databases stay usable, and what repairs lead to. They are a crate of their own, so that
//! the database is proved once, without them.
#![tactic(auto)]

#[cfg(test)]
mod db;
