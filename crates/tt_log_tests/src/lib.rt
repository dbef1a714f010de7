//! Tests of logs, of what no contract says: how often a file is written and synced, and what crashes
//! and failures leave of a file in memory. They stand apart so that `tt_log` is proved once, without
//! them.
#![tactic(auto)]

#[cfg(test)]
mod appends;
#[cfg(test)]
mod crashes;
#[cfg(test)]
mod disk;
#[cfg(test)]
mod failures;
#[cfg(test)]
mod logs;
#[cfg(test)]
mod pending;
#[cfg(test)]
mod random;
#[cfg(test)]
mod renewals;
#[cfg(test)]
mod same;
#[cfg(test)]
mod sessions;
#[cfg(test)]
mod shows;
#[cfg(test)]
mod starts;
