//! Runs of documents in threads.
ghost use Rattle.std.specs.Prelude.{◌≤◌};
ghost use Rattle.tt_document.specs.Document.{IsValidDocument};

mod answers;
mod before_repair;
mod crowd;
mod gates;
mod generations;
mod held;
mod history;
mod random;
mod repaired;
mod replay;
mod reports;

use std::alloc::Global;
use std::fmt::Debug;
use std::process::Abort;
use std::sync::Wait;
use std::thread::Threads;
use tt_document::Document;
use tt_store::Gate;
use tt_workers::{Report, run_workers, text_of_report};
use tt_workload::{Options, read_document};

/// An insert, a select, and nothing else.
const STORED: &str =
    r#"{"version":1,"tables":[{"name":"acct","columns":[{"name":"id","kind":"int"},{"name":"owner","kind":"text","partition":true},{"name":"bal","kind":"int"}]}],"workers":1,"calls":[
{"worker":1,"insert":"acct","row":[1,"ann",10]},
{"worker":1,"select":"acct","where":[["owner","ann"]]}]}"#;

/// Two workers, of one call each.
const TWO_WORKERS: &str =
    r#"{"version":1,"tables":[{"name":"acct","columns":[{"name":"id","kind":"int"},{"name":"owner","kind":"text","partition":true},{"name":"bal","kind":"int"}]}],"workers":2,"calls":[
{"worker":1,"insert":"acct","row":[1,"ann",10]},
{"worker":2,"select":"acct","where":[["owner","ann"]]}]}"#;

/// A repair, and calls that are made meanwhile.
const MEANWHILE: &str =
    r#"{"version":1,"tables":[{"name":"acct","columns":[{"name":"id","kind":"int"},{"name":"owner","kind":"text","partition":true},{"name":"bal","kind":"int"}]}],"workers":1,"calls":[
{"worker":1,"insert":"acct","row":[1,"ann",10]},
{"worker":1,"update":"acct","change":[["set","bal",0]],"where":[["id",1]]}],
"repair":{"edits":[{"cancel":2}],"meanwhile":[
{"worker":1,"preview":"acct","where":[]},
{"worker":1,"update":"acct","change":[["add","bal",1]],"where":[["id",1]]},
{"worker":1,"select":"acct","where":[]}]}}"#;

/// A repair of five writes of two workers.
const FIVE_WRITES: &str =
    r#"{"version":1,"tables":[{"name":"acct","columns":[{"name":"id","kind":"int"},{"name":"owner","kind":"text","partition":true},{"name":"bal","kind":"int"}]}],"workers":2,"calls":[
{"worker":1,"insert":"acct","row":[1,"ann",5]},
{"worker":2,"insert":"acct","row":[2,"ann",6]},
{"worker":1,"insert":"acct","row":[3,"bob",7]},
{"worker":2,"delete":"acct","where":[["owner","ann"]]},
{"worker":1,"update":"acct","change":[["add","bal",1]],"where":[]}],
"repair":{"edits":[{"replace":4,"by":{"delete":"acct","where":[["owner","bob"]]}}]}}"#;

/// Asserts that two values are equal. An `assert_eq!` in a test makes the test longer to prove.
fn same<T: PartialEq + Debug>(rt: &impl Abort, got: &T, want: &T) {
    assert_eq!(rt; *got, *want);
}

/// The document of a text.
fn document(rt: &impl Abort, alloc: Global, text: &str) -> Document
    ensures { IsValidDocument result }
{
    let mut reader = text.as_bytes();
    match read_document(alloc, &mut reader) {
        Ok(document) => document,
        Err(fault) => panic!(rt; "{fault:?}"),
    }
}

/// The report of a document that is run in threads, with a batch of 2 and one round.
fn report<R: Threads + Wait + Abort + Sync, G: Gate + Copy + Drop + Send + Sync>(
    rt: &R,
    alloc: Global,
    text: &str,
    gate: G,
) -> Report {
    let document = document(rt, alloc, text);
    report_of(rt, alloc, &document, gate)
}

/// The same, of a document that was read.
fn report_of<R: Threads + Wait + Abort + Sync, G: Gate + Copy + Drop + Send + Sync>(
    rt: &R,
    alloc: Global,
    document: &Document,
    gate: G,
) -> Report
    requires { IsValidDocument document.now }
{
    report_in_rounds(rt, alloc, document, 1, gate)
}

/// The same, with this number of rounds.
fn report_in_rounds<R: Threads + Wait + Abort + Sync, G: Gate + Copy + Drop + Send + Sync>(
    rt: &R,
    alloc: Global,
    document: &Document,
    rounds: u32,
    gate: G,
) -> Report
    requires document { IsValidDocument document.now }
    requires rounds { rounds ≤ 1000 }
{
    let options = Options {
        batch: 2,
        rounds,
        closed: false,
        why: false,
        diff: false,
        dry: false,
        json: false,
    };
    match run_workers(rt, alloc, document, &options, gate) {
        Ok(report) => report,
        Err(fault) => panic!(rt; "{fault:?}"),
    }
}

/// The report has this text.
fn prints(rt: &impl Abort, alloc: Global, report: &Report, text: &str) {
    match text_of_report(alloc, report, &Options::usual()) {
        Ok(lines) => assert!(rt; lines.as_slice() == text.as_bytes()),
        Err(_) => panic!(rt; "a text"),
    }
}

/// The report's text ends with this text.
fn ends(rt: &impl Abort, alloc: Global, report: &Report, text: &str) {
    match text_of_report(alloc, report, &Options::usual()) {
        Ok(lines) => assert!(rt; lines.as_slice().ends_with(text.as_bytes())),
        Err(_) => panic!(rt; "a text"),
    }
}
