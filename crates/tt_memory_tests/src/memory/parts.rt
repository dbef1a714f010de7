//! Dirty sets and partitions, where one growth is refused, and calls of them without any.
ghost use Rattle.std.specs.Prelude.{◌≡◌, ◌<◌, length};
ghost use Rattle.tt_values.specs.Check.{HasKey};

use super::{account_columns, accounts, items, owned_by, row, same};
use std::alloc::{AllocError, Global};
use std::process::Abort;
use tt_parts::{Dirty, Partition, Reads, parts_of, reads_of};
use tt_shared_tests::{Tally, mark, quiet};
use tt_values::{Items, TableDef, Value, Write};

/// A set without members, for accounts.
fn nothing_dirty(rt: &impl Abort, alloc: Global) -> Dirty
    ensures { 0 < length result.catalog }
{
    let catalog = accounts(rt, alloc);
    assert!(rt; !catalog.is_empty());
    quiet(alloc);
    let dirty = Dirty::new(alloc, catalog);
    quiet(alloc);
    dirty
}

/// The rows of these keys are dirty, and no other of the first three.
fn has_rows(rt: &impl Abort, alloc: Global, dirty: &Dirty, keys: [bool; 3]) {
    quiet(alloc);
    for (key, want) in keys.iter().enumerate() {
        same(rt, &dirty.has_row(0, key as i64), want);
    }
    quiet(alloc);
}

/// The numbers of the rows of keys 1 and 2, of the partition of key 2 and of the table.
fn has_numbers(rt: &impl Abort, alloc: Global, dirty: &Dirty, wants: [Option<u64>; 4]) {
    quiet(alloc);
    let [first, second, partition, table] = wants;
    same(rt, &dirty.row_since(0, 1), &first);
    same(rt, &dirty.row_since(0, 2), &second);
    same(rt, &dirty.partition_since(0, 0, &Value::Int(2)), &partition);
    same(rt, &dirty.table_since(0), &table);
    quiet(alloc);
}

/// The set in which the row of key 1 is dirty, and the old set as it was.
fn with_one(rt: &impl Abort, alloc: Global) -> Dirty
    ensures { 0 < length result.catalog }
{
    let old = nothing_dirty(rt, alloc);
    let ann = row(rt, alloc, 1, "ann", 5);
    mark(alloc);
    let dirty = old.with_row(0, 1, 4, None, Some(&ann));
    mark(alloc);
    has_rows(rt, alloc, &old, [false, false, false]);
    match dirty {
        Ok(dirty) => dirty,
        Err(AllocError) => {
            let dirty = old.with_row(0, 1, 4, None, Some(&ann));
            dirty.expect(rt, "a second call")
        }
    }
}

/// Another owner of the same members, which takes no memory.
fn shared(rt: &impl Abort, alloc: Global, dirty: &Dirty) -> Dirty
    ensures { result ≡ dirty.now }
{
    quiet(alloc);
    let copy = dirty.share();
    quiet(alloc);
    copy.expect(rt, "an owner")
}

/// The set in which the row of key 2 is dirty too, made in place of another owner of the old one.
/// Without memory nothing is promised of that owner, and it's made again.
fn with_two(rt: &impl Abort, alloc: Global, old: &Dirty) -> Dirty
    requires { 0 < length old.now.catalog }
{
    let bob = row(rt, alloc, 2, "bob", 6);
    let mut dirty = shared(rt, alloc, old);
    mark(alloc);
    let added = dirty.add_row(0, 2, 7, Some(&bob), None);
    mark(alloc);
    if added.is_ok() {
        return dirty;
    }
    let mut dirty = shared(rt, alloc, old);
    let added = dirty.add_row(0, 2, 7, Some(&bob), None);
    added.expect(rt, "a second call");
    dirty
}

#[test]
fn dirty_rows(rt: HostRuntime) {
    let alloc = rt.alloc();
    let _tally = Tally::new(alloc);
    let old = with_one(&rt, alloc);
    has_rows(&rt, alloc, &old, [false, true, false]);
    let dirty = with_two(&rt, alloc, &old);
    has_rows(&rt, alloc, &dirty, [false, true, true]);
    has_rows(&rt, alloc, &old, [false, true, false]);
    has_numbers(&rt, alloc, &dirty, [Some(4), Some(7), Some(7), Some(4)]);
    has_numbers(&rt, alloc, &old, [Some(4), None, None, Some(4)]);
    is_clear(&rt, alloc, &dirty);
}

/// The delete of the accounts of an owner.
fn delete(rt: &impl Abort, alloc: Global, owner: &str) -> Write
    ensures { HasKey result }
{
    let owned = owned_by(rt, alloc, owner);
    Write::delete(alloc, 0, [owned]).expect(rt, "memory")
}

/// Whether a write is clear is found without memory: that of ann's rows isn't, that of dan's is.
fn is_clear(rt: &impl Abort, alloc: Global, dirty: &Dirty) {
    let (ann, dan) = (delete(rt, alloc, "ann"), delete(rt, alloc, "dan"));
    let of_dan = reads(rt, alloc, &dan);
    quiet(alloc);
    assert!(rt; !dirty.is_clear(&ann) && dirty.is_clear(&dan) && dirty.clear_of(&of_dan));
    assert!(rt; !dirty.clear_of(&Reads::All { table: 0 }));
    quiet(alloc);
}

/// What a delete reads, though the first call may find no memory.
fn reads(rt: &impl Abort, alloc: Global, delete: &Write) -> Reads
    requires { HasKey delete.now }
{
    let def = account_columns(rt, alloc);
    mark(alloc);
    let reads = reads_of(alloc, &def, delete);
    mark(alloc);
    match reads {
        Ok(reads) => reads,
        Err(AllocError) => reads_of(alloc, &def, delete).expect(rt, "a second call"),
    }
}

/// The partitions that a row of ann lies in, though the first call may find no memory.
fn parts(rt: &impl Abort, alloc: Global, def: &TableDef) -> Items<Partition> {
    let ann = row(rt, alloc, 1, "ann", 5);
    assert!(rt; def.columns.len() <= 3);
    mark(alloc);
    let parts = parts_of(alloc, 0, def, &ann);
    mark(alloc);
    match parts {
        Ok(parts) => parts,
        Err(AllocError) => parts_of(alloc, 0, def, &ann).expect(rt, "a second call"),
    }
}

#[test]
fn partitions(rt: HostRuntime) {
    let alloc = rt.alloc();
    let _tally = Tally::new(alloc);
    let parts = parts(&rt, alloc, &account_columns(&rt, alloc));
    let want = Partition {
        table: 0,
        column: 0,
        value: Value::Int(1),
    };
    same(&rt, parts.get(0).expect(&rt, "a partition"), &want);
    same(&rt, &parts.len(), &2);
}
