//! Each public call once, with ample memory.
ghost use Rattle.tt_values.specs.Check.{HasKey};

use super::{catalog, def, owner_is, row};
use crate::same::same;
use std::alloc::Global;
use std::process::Abort;
use std::sync::Arc;
use tt_values::{
    Action, Catalog, CatalogError, Change, CheckError, Items, Kind, Reply, Same, Select, Shared,
    Text, Value, Write, are_same, changed, check, check_action, check_select, matches,
};

#[test]
fn texts(rt: HostRuntime) {
    let alloc = rt.alloc();
    let ann = Text::copied(alloc, "ann").expect(&rt, "memory");
    same(&rt, &ann.len(), &3);
    assert!(rt; !ann.is_empty());
    assert!(rt; ann == ann.clone().expect(&rt, "memory"));
    assert!(rt; ann != Text::copied(alloc, "Ann").expect(&rt, "memory"));
    same(&rt, &ann.as_str(), &"ann");
}

#[test]
fn items_of_ints(rt: HostRuntime) {
    let list = Items::of(rt.alloc(), [7, 8]).expect(&rt, "memory");
    same(&rt, &list.len(), &2);
    assert!(rt; !list.is_empty());
    same(&rt, &list.get(1).copied(), &Some(8));
    assert!(rt; list == list.clone().expect(&rt, "memory"));
    same(&rt, &list.as_slice(), &[7, 8].as_slice());
}

#[test]
fn a_shared_int(rt: HostRuntime) {
    let owner = Arc::new(rt.alloc(), 7).expect(&rt, "memory");
    let shared = Shared::from_arc(owner);
    let further = shared.clone().expect(&rt, "memory");
    same(&rt, shared.get(), further.get());
}

#[test]
fn the_owner_of_a_shared_int(rt: HostRuntime) {
    let owner = Shared::new(rt.alloc(), 8).expect(&rt, "memory").into_arc();
    same(&rt, &*owner, &8);
}

#[test]
fn values_and_rows(rt: HostRuntime) {
    let alloc = rt.alloc();
    let int = Value::Int(-7);
    let ann = row(&rt, alloc, -7, "ann");
    assert!(rt; int.is_of_kind(Kind::Int));
    assert!(rt; int.is_same(&int.copy().expect(&rt, "memory")));
    same(&rt, &ann.key(), &-7);
    assert!(rt; ann == ann.copy().expect(&rt, "memory"));
    let eve = row(&rt, alloc, -7, "eve");
    assert!(rt; ann != eve && !ann.is_same(&eve));
    assert!(rt; are_same(&[ann.copy().expect(&rt, "memory")], &[ann]));
}

#[test]
fn catalogs(rt: HostRuntime) {
    let alloc = rt.alloc();
    let mut catalog = catalog(&rt, alloc);
    let again = catalog.add("acct", def(&rt, alloc));
    same(&rt, &again, &Err(CatalogError::SameTable));
    same(&rt, &catalog.len(), &1);
    assert!(rt; !catalog.is_empty());
}

#[test]
fn names_of_tables(rt: HostRuntime) {
    let catalog = catalog(&rt, rt.alloc());
    same(&rt, &catalog.find("acct"), &Some(0));
    same(&rt, &catalog.name(0), &Some("acct"));
    let acct = catalog.table(0).expect(&rt, "a table");
    same(&rt, &acct.find("owner"), &Some(1));
}

#[test]
fn changes(rt: HostRuntime) {
    let alloc = rt.alloc();
    let ann = row(&rt, alloc, 1, "ann");
    let to_eve = Change::Set {
        column: 1,
        value: Value::text(alloc, "eve").expect(&rt, "memory"),
    };
    let copy = to_eve.copy().expect(&rt, "memory");
    let eves = changed(alloc, &ann, &[copy]).expect(&rt, "memory");
    assert!(rt; eves == row(&rt, alloc, 1, "eve"));
    assert!(rt; matches(&[owner_is(&rt, alloc, "eve")], &eves));
    assert!(rt; !matches(&[owner_is(&rt, alloc, "ann")], &eves));
}

/// An insert that `catalog` takes.
fn insert(rt: &impl Abort, alloc: Global) -> Write
    ensures { HasKey result }
{
    let ann = Value::text(alloc, "ann").expect(rt, "memory");
    Write::insert(alloc, 0, [Value::Int(1), ann]).expect(rt, "memory")
}

#[test]
fn writes(rt: HostRuntime) {
    let alloc = rt.alloc();
    let insert = insert(&rt, alloc).copy().expect(&rt, "memory");
    same(&rt, &insert.table(), &0);
    same(&rt, &check(&catalog(&rt, alloc), &insert), &Ok(()));
    assert_ne!(rt; Reply::Updated(1), Reply::Deleted(1));
}

#[test]
fn actions(rt: HostRuntime) {
    let alloc = rt.alloc();
    let writes = [insert(&rt, alloc), insert(&rt, alloc)];
    let action = Action::of(Items::of(alloc, writes).expect(&rt, "memory"));
    same(&rt, &check_action(&catalog(&rt, alloc), &action), &Ok(()));
    let no_table = Err(CheckError::NoTable);
    same(&rt, &check_action(&Catalog::new(alloc), &action), &no_table);
}

#[test]
fn selects(rt: HostRuntime) {
    let alloc = rt.alloc();
    let equal = owner_is(&rt, alloc, "ann").copy().expect(&rt, "memory");
    let select = Select::matching(alloc, 0, [equal]).expect(&rt, "memory");
    let select = select.copy().expect(&rt, "memory");
    same(&rt, &check_select(&catalog(&rt, alloc), &select), &Ok(()));
    assert!(rt; check_select(&Catalog::new(alloc), &select).is_err());
}
