//! Tests of documents and runs, of what no contract says and no run of the program shows: the
//! values of a document, and readers and writers that are slow, interrupted or broken. They stand
//! apart so that each library is proved once, without them.
#![tactic(auto)]

#[cfg(test)]
mod document;
#[cfg(test)]
mod same;
#[cfg(test)]
mod workload;
