//! Fifteen workers that make a thousand calls each, and a hundred each beside a repair.
use super::random::text_of_document;
use super::replay::is_right;
use super::{document, report_of};
use std::alloc::Global;
use std::process::Abort;
use std::sync::Wait;
use std::thread::Threads;
use tt_store::NoGate;

#[test]
fn fifteen_workers(rt: HostRuntime) {
    runs(&rt, rt.alloc(), 1);
}

#[test]
fn fifteen_other_workers(rt: HostRuntime) {
    runs(&rt, rt.alloc(), 2);
}

#[test]
fn fifteen_more_workers(rt: HostRuntime) {
    runs(&rt, rt.alloc(), 3);
}

/// Runs the document of a seed, and asserts that each answer is right.
fn runs<R: Threads + Wait + Abort + Sync>(rt: &R, alloc: Global, seed: u64) {
    let text = text_of_document(rt, alloc, seed);
    let document = document(rt, alloc, text.as_str());
    let report = report_of(rt, alloc, &document, NoGate);
    is_right(rt, alloc, &document, &report);
}
