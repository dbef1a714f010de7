//! Runs of a document in threads.
ghost use Rattle.tt_document.specs.Document.{IsValidDocument};

use super::same;
use std::alloc::Global;
use std::io::Cursor;
use std::process::Abort;
use std::sync::Wait;
use std::test::*;
use std::thread::Threads;
use tt_document::Document;
use tt_shared_tests::{mark, quiet};
use tt_store::NoGate;
use tt_workers::{Report, run_workers};
use tt_workload::{Options, RunFault, read_document, write_text};

/// Two writes, the second of which is cancelled, and three calls meanwhile.
const MEANWHILE: &str =
    r#"{"version":1,"tables":[{"name":"acct","columns":[{"name":"id","kind":"int"},{"name":"owner","kind":"text","partition":true},{"name":"bal","kind":"int"}]}],"workers":1,"calls":[
{"worker":1,"insert":"acct","row":[1,"ann",10]},
{"worker":1,"update":"acct","change":[["set","bal",0]],"where":[["id",1]]}],
"repair":{"edits":[{"cancel":2}],"meanwhile":[
{"worker":1,"preview":"acct","where":[]},
{"worker":1,"update":"acct","change":[["add","bal",1]],"where":[["id",1]]},
{"worker":1,"select":"acct","where":[]}]}}"#;

/// The document of a text.
fn document(rt: &impl Abort, alloc: Global, text: &str) -> Document
    ensures { IsValidDocument result }
{
    let mut reader = text.as_bytes();
    match read_document(alloc, &mut reader) {
        Ok(document) => document,
        Err(fault) => panic!(rt; "{fault:?}"),
    }
}

/// A report has all five calls, and the repair.
fn is_whole(rt: &impl Abort, report: &Report) {
    same(rt, &(report.records.len(), report.fronts.len()), &(5, 5));
    assert!(rt; report.repaired.is_some());
}

/// Whether memory ran out, or the store refused a call.
fn is_of_store(fault: &RunFault) -> bool {
    match fault {
        RunFault::Memory | RunFault::Store(_) => true,
        _ => false,
    }
}

fn runs<T: Threads + Wait + Abort + Sync>(rt: &T, alloc: Global, document: &Document)
    requires { IsValidDocument document.now }
{
    let options = Options {
        batch: 2,
        rounds: 1,
        closed: false,
        why: false,
        diff: false,
        dry: false,
        json: false,
    };
    mark(alloc);
    let report = run_workers(rt, alloc, document, &options, NoGate);
    mark(alloc);
    match report {
        Ok(report) => is_whole(rt, &report),
        Err(fault) => assert!(rt; is_of_store(&fault)),
    }
    match run_workers(rt, alloc, document, &options, NoGate) {
        Ok(report) => is_whole(rt, &report),
        Err(fault) => panic!(rt; "{fault:?}"),
    }
}

#[test]
fn a_document_is_run(rt: HostRuntime) {
    let alloc = rt.alloc();
    let document = document(&rt, alloc, MEANWHILE);
    runs(&rt, alloc, &document);
}

/// A text is written without memory, or as much of it as there is room for.
#[test]
fn a_text_is_written_without_memory(rt: HostRuntime) {
    let alloc = rt.alloc();
    let mut wide = Cursor::new([0u8; 4]);
    let mut narrow = Cursor::new([0u8; 3]);
    quiet(alloc);
    assert!(rt; write_text(&mut wide, "line".as_bytes()).is_ok());
    assert!(rt; write_text(&mut narrow, "line".as_bytes()) == Err(RunFault::Write));
    quiet(alloc);
}
