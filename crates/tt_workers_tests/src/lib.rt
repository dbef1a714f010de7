//! Tests of runs in threads, of what no contract says: that two threads run at once, and the lines
//! that a run prints.
#![tactic(auto)]

#[cfg(test)]
mod runs;
