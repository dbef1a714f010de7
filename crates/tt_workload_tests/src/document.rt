//! What runs of the program don't show: the values of a document.
use crate::same::same;
use serde_json::Value as Json;
use std::alloc::Global;
use std::process::Abort;
use tt_document::{Ask, Call, DocFault, Document};
use tt_grammar::push_quoted;
use tt_values::{Action, Catalog, Change, Column, Comparison, Equal, Items, Select, Value, Write};

const STORED: &str =
    r#"{"version":1,"tables":[{"name":"acct","columns":[{"name":"id","kind":"int"},{"name":"owner","kind":"text","partition":true},{"name":"bal","kind":"int"}]}],"workers":1,"calls":[
{"worker":1,"insert":"acct","row":[1,"ann",10]},
{"worker":1,"select":"acct","where":[["owner","ann"]]}]}"#;

const TABLE: &str =
    r#"{"name":"acct","columns":[{"name":"id","kind":"int"},{"name":"owner","kind":"text","partition":true},{"name":"bal","kind":"int"}]}"#;

/// The document of a text that is one.
fn read(rt: &impl Abort, alloc: Global, text: &str) -> Document {
    let value = Json::from_str(alloc, text).expect(rt, "JSON");
    Document::from_value(alloc, &value)
        .ok()
        .expect(rt, "a document")
}

/// The second column of the first table is the owner.
fn has_owner(rt: &impl Abort, alloc: Global, catalog: &Catalog) {
    let table = catalog.table(0).expect(rt, "a table");
    same(rt, &table.columns.len(), &3);
    let owner = Column::text(alloc, "owner").expect(rt, "memory");
    assert!(rt; table.columns.get(1) == Some(&owner.partition()));
}

/// A call of worker 1.
fn call(ask: Ask) -> Call {
    Call { worker: 1, ask }
}

fn call_of<const N: usize>(rt: &impl Abort, alloc: Global, writes: [Write; N]) -> Call {
    let writes = Items::of(alloc, writes).expect(rt, "memory");
    call(Ask::Write(Action::of(writes)))
}

fn insert_of_ann(rt: &impl Abort, alloc: Global) -> Write {
    let ann = Value::text(alloc, "ann").expect(rt, "memory");
    let values = [Value::Int(1), ann, Value::Int(10)];
    Write::insert(alloc, 0, values).expect(rt, "memory")
}

fn select_of_ann(rt: &impl Abort, alloc: Global) -> Call {
    let equal = Equal::text(alloc, 1, "ann").expect(rt, "memory");
    let select = Select::matching(alloc, 0, [equal]).expect(rt, "memory");
    call(Ask::Read { select, at: None })
}

fn update_of_ann(rt: &impl Abort, alloc: Global) -> Write {
    let value = Value::text(alloc, "eve").expect(rt, "memory");
    let set = Change::Set { column: 1, value };
    let add = Change::Add { column: 2, by: -3 };
    Write::update(alloc, 0, [set, add], [Equal::int(0, 1)]).expect(rt, "memory")
}

fn delete_of_ann(rt: &impl Abort, alloc: Global) -> Write {
    Write::delete(alloc, 0, [Equal::int(0, 1)]).expect(rt, "memory")
}

fn select_at(rt: &impl Abort, alloc: Global, time: u64) -> Call {
    let select = Select::matching(alloc, 0, [Equal::int(0, 1)]).expect(rt, "memory");
    let at = Some(time);
    call(Ask::Read { select, at })
}

/// The text of a document of this version, with one call.
fn document_of(rt: &impl Abort, alloc: Global, version: u32, call: &str) -> String {
    let text = format!(in alloc;
        "{{\"version\":{version},\"tables\":[{TABLE}],\"workers\":15,\"calls\":[{call}]}}"
    );
    text.expect(rt, "memory")
}

/// The call that a text spells in this version is this one.
fn is_call(rt: &impl Abort, alloc: Global, version: u32, call: &str, expected: Call) {
    let text = document_of(rt, alloc, version, call);
    let document = read(rt, alloc, text.as_str());
    same(rt, &document.workers, &15);
    assert!(rt;
        document.calls.as_slice() == [expected].as_slice(),
        "{call}"
    );
}

#[test]
fn tables_and_calls(rt: HostRuntime) {
    let alloc = rt.alloc();
    let document = read(&rt, alloc, STORED);
    let calls = [
        call_of(&rt, alloc, [insert_of_ann(&rt, alloc)]),
        select_of_ann(&rt, alloc),
    ];
    same(&rt, &document.workers, &1);
    same(&rt, &document.calls.len(), &2);
    assert!(rt; !document.calls.is_empty());
    assert!(rt; document.calls.as_slice() == calls.as_slice());
    let catalog = document.catalog.get();
    same(&rt, &catalog.len(), &1);
    same(&rt, &catalog.name(0), &Some("acct"));
    has_owner(&rt, alloc, catalog);
}

#[test]
fn updates_deletes_and_times(rt: HostRuntime) {
    let alloc = rt.alloc();
    let update =
        r#"{"worker":1,"update":"acct","change":[["set","owner","eve"],["add","bal",-3]],"where":[["id",1]]}"#;
    let updated = call_of(&rt, alloc, [update_of_ann(&rt, alloc)]);
    is_call(&rt, alloc, 1, update, updated);
    let delete = r#"{"worker":1,"delete":"acct","where":[["id",1]]}"#;
    let deleted = call_of(&rt, alloc, [delete_of_ann(&rt, alloc)]);
    is_call(&rt, alloc, 1, delete, deleted);
    let first = r#"{"worker":1,"select":"acct","where":[["id",1]],"at":0}"#;
    is_call(&rt, alloc, 1, first, select_at(&rt, alloc, 0));
    let last = r#"{"worker":1,"select":"acct","where":[["id",1]],"at":18446744073709551615}"#;
    is_call(&rt, alloc, 1, last, select_at(&rt, alloc, u64::MAX));
}

#[test]
fn actions_of_version_2(rt: HostRuntime) {
    let alloc = rt.alloc();
    let both =
        r#"{"worker":1,"do":[{"insert":"acct","row":[1,"ann",10]},{"delete":"acct","where":[["id",1]]}]}"#;
    let writes = [insert_of_ann(&rt, alloc), delete_of_ann(&rt, alloc)];
    is_call(&rt, alloc, 2, both, call_of(&rt, alloc, writes));
    let refused =
        r#"{"worker":1,"do":[{"delete":"acct","where":[]},{"insert":"acct","row":[1,"ann",1.5]}]}"#;
    let text = document_of(&rt, alloc, 2, refused);
    let value = Json::from_str(alloc, text.as_str()).expect(&rt, "JSON");
    let Err(DocFault::At { path, cause }) = Document::from_value(alloc, &value) else {
        return assert!(rt; false, "a fault");
    };
    same(&rt, &path.as_str(), &"$.calls[0].do[1].row[2]");
    same(&rt, &cause.as_str(), &"wrong type");
}

/// The signs of comparisons.
const SIGNS: [(&str, Comparison); 6] = [
    ("=", Comparison::Is),
    ("!=", Comparison::IsNot),
    ("<", Comparison::Below),
    ("<=", Comparison::AtMost),
    (">", Comparison::Above),
    (">=", Comparison::AtLeast),
];

#[test]
fn comparisons_of_version_3(rt: HostRuntime) {
    let alloc = rt.alloc();
    for (sign, how) in SIGNS {
        let text = format!(in alloc;
            r#"{{"worker":1,"delete":"acct","where":[["id","{sign}",1]]}}"#
        );
        let text = text.expect(&rt, "memory");
        let compared = Equal::int(0, 1).with(how);
        let delete = Write::delete(alloc, 0, [compared]).expect(&rt, "memory");
        is_call(&rt, alloc, 3, text.as_str(), call_of(&rt, alloc, [delete]));
    }
}

#[test]
fn faults_of_documents(rt: HostRuntime) {
    let fault = DocFault::of_document(rt.alloc(), "not JSON");
    let DocFault::At { path, cause } = fault else {
        return assert!(rt; false, "no memory");
    };
    same(&rt, &path.as_str(), &"$");
    same(&rt, &cause.as_str(), &"not JSON");
}

#[test]
fn quoted_texts(rt: HostRuntime) {
    let mut out = Vec::new(rt.alloc());
    assert!(rt; push_quoted(&mut out, "a\"b\\\u{1f}é".as_bytes()).is_ok());
    assert!(rt; out.as_slice() == "\"a\\\"b\\\\\\u001fé\"".as_bytes());
}
