//! Tests of a repair as one call, of what no contract says: that ample memory is enough for it, how
//! it changes answers, how often it publishes, and what it does beside calls of another thread.
#![tactic(auto)]

#[cfg(test)]
mod repair;
