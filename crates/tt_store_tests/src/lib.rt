//! Tests of the store, of what no contract says: that ample memory is enough for each call, what
//! repairs in steps lead to, what is answered while another call is under way, and what threads see
//! of one another. They stand apart so that the store is proved once, without them.
#![tactic(auto)]

#[cfg(test)]
mod store;
