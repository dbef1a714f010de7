//! Documents that are read, and runs of them in one thread.
use super::{add_to_all, insert, same};
use serde_json::Value as Json;
use std::alloc::Global;
use std::io::Cursor;
use std::process::Abort;
use tt_document::{Ask, Call, DocFault, Document};
use tt_shared_tests::{Tally, mark};
use tt_values::Action;
use tt_workload::{Options, RunFault, run_alone};

/// An insert, an update that is cancelled, and three calls meanwhile.
const REPAIRED: &str =
    r#"{"version":1,"tables":[{"name":"acct","columns":[{"name":"id","kind":"int"},{"name":"owner","kind":"text","partition":true},{"name":"bal","kind":"int"}]}],"workers":1,"calls":[
{"worker":1,"insert":"acct","row":[1,"ann",10]},
{"worker":1,"update":"acct","change":[["set","bal",0]],"where":[["id",1]]}],
"repair":{"edits":[{"cancel":2}],"meanwhile":[
{"worker":1,"preview":"acct","where":[]},
{"worker":1,"update":"acct","change":[["add","bal",1]],"where":[]},
{"worker":1,"select":"acct","where":[]}]}}"#;

/// Its report, at two steps before each call.
const REPORT: &str = r#"call 1 worker 1 slot 1 inserted
call 2 worker 1 slot 2 updated 1
call 3 worker 1 preview 2 rows 1 [1,"ann",10]
call 4 worker 1 slot 3 updated 1
call 5 worker 1 time 3 rows 1 [1,"ann",1]
repair generation 1 slots 3 rerun 2
changed call 2 updated 1 -> cancelled
changed call 5 rows 1 [1,"ann",1] -> rows 1 [1,"ann",11]
table acct rows 1 [1,"ann",11]
end generation 1 time 3
"#;

/// A document whose second call names a table that isn't there.
const FAULTY: &str =
    r#"{"version":1,"tables":[{"name":"acct","columns":[{"name":"id","kind":"int"}]}],"workers":1,"calls":[
{"worker":1,"insert":"acct","row":[1]},
{"worker":1,"insert":"other","row":[1]}]}"#;

/// A call of worker 1 that writes.
fn is_write(rt: &impl Abort, call: Option<&Call>, action: Action) {
    let want = Call {
        worker: 1,
        ask: Ask::Write(action),
    };
    same(rt, &call, &Some(&want));
}

/// The document of a value, though the first call may find no memory.
fn document(rt: &impl Abort, alloc: Global, value: &Json) -> Document {
    mark(alloc);
    let document = Document::from_value(alloc, value);
    mark(alloc);
    match document {
        Ok(document) => document,
        Err(fault) => {
            same(rt, &fault, &DocFault::Memory);
            Document::from_value(alloc, value)
                .ok()
                .expect(rt, "a second call")
        }
    }
}

/// A value is read as a document, with all of its calls.
#[test]
fn a_value_is_read(rt: HostRuntime) {
    let alloc = rt.alloc();
    let _tally = Tally::new(alloc);
    let value = Json::from_str(alloc, REPAIRED).expect(&rt, "JSON");
    let document = document(&rt, alloc, &value);
    same(&rt, &(document.workers, document.calls.len()), &(1, 2));
    let first = document.calls.as_slice().first();
    is_write(&rt, first, insert(&rt, alloc, (1, "ann", 10)));
    let plan = document.repair.as_ref().expect(&rt, "a repair");
    same(&rt, &(plan.edits.len(), plan.meanwhile.len()), &(1, 3));
    let second = plan.meanwhile.as_slice().get(1);
    is_write(&rt, second, add_to_all(&rt, alloc, 1));
}

/// The fault of the faulty document.
fn is_no_table(rt: &impl Abort, fault: Option<DocFault>) {
    match fault {
        Some(DocFault::At { path, cause }) => {
            let found = (path.as_str(), cause.as_str());
            same(rt, &found, &("$.calls[1].insert", "no such table"));
        }
        _ => panic!(rt; "no fault"),
    }
}

/// A value with a fault is refused for it, or for want of memory.
#[test]
fn a_faulty_value_is_refused(rt: HostRuntime) {
    let alloc = rt.alloc();
    let _tally = Tally::new(alloc);
    let value = Json::from_str(alloc, FAULTY).expect(&rt, "JSON");
    mark(alloc);
    let first = Document::from_value(alloc, &value);
    mark(alloc);
    let first = first.err();
    if first != Some(DocFault::Memory) {
        is_no_table(&rt, first);
    }
    let again = Document::from_value(alloc, &value);
    is_no_table(&rt, again.err());
}

/// The report is written, and nothing else.
fn has_report(rt: &impl Abort, writer: &Cursor<[u8; 512]>) {
    same(rt, &writer.position(), &(REPORT.len() as u64));
    assert!(rt; writer.get_ref().starts_with(REPORT.as_bytes()));
}

/// A document is run to its end, or nothing is written.
#[test]
fn a_document_is_run_alone(rt: HostRuntime) {
    let alloc = rt.alloc();
    let _tally = Tally::new(alloc);
    let options = Options {
        batch: 2,
        rounds: 8,
        closed: false,
        why: false,
        diff: false,
        dry: false,
        json: false,
    };
    let (mut first, mut second) = (REPAIRED.as_bytes(), REPAIRED.as_bytes());
    let mut writer = Cursor::new([0u8; 512]);
    mark(alloc);
    let run = run_alone(alloc, &mut first, &mut writer, &options);
    mark(alloc);
    if let Err(fault) = run {
        same(&rt, &fault, &RunFault::Memory);
        same(&rt, &writer.position(), &0);
        let again = run_alone(alloc, &mut second, &mut writer, &options);
        same(&rt, &again, &Ok(()));
    }
    has_report(&rt, &writer);
}
