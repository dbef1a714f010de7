//! Tests of sessions, of what no contract says and no run of the program shows: readers and writers
//! that are slow, interrupted or broken. They stand apart so that `tt_session` is proved once,
//! without them.
#![tactic(auto)]

#[cfg(test)]
mod conversation;
#[cfg(test)]
mod devices;
#[cfg(test)]
mod failures;
#[cfg(test)]
mod interruptions;
#[cfg(test)]
mod same;
#[cfg(test)]
mod short_answers;
#[cfg(test)]
mod streams;
