//! Values, statements and the catalog, where one growth is refused, and calls of them without any.
use super::{account_columns, add_to_all, delete, everything, insert, items, owned_by, row, same};
use std::alloc::{AllocError, Global};
use std::process::Abort;
use tt_shared_tests::{Tally, mark, quiet};
use tt_values::{
    Action, Catalog, CatalogError, Change, CheckError, Column, Comparison, Equal, Items, Kind, Row,
    Same, Select, Shared, TableDef, Text, Value, Write, are_same, changed, check, check_action,
    check_select, digest, matches,
};

/// A text, though the first call may find no memory.
fn text_made(rt: &impl Abort, alloc: Global, words: &str) -> Text {
    let string = String::from_str(alloc, words).expect(rt, "memory");
    mark(alloc);
    let made = Text::new(alloc, string);
    mark(alloc);
    match made {
        Ok(made) => made,
        Err(AllocError) => Text::copied(alloc, words).expect(rt, "a second call"),
    }
}

/// A list of 7, though the first call may find no memory.
fn items_made(rt: &impl Abort, alloc: Global) -> Items<u64> {
    let list = vec![in alloc; 7].expect(rt, "memory");
    mark(alloc);
    let made = Items::new(alloc, list);
    mark(alloc);
    match made {
        Ok(made) => made,
        Err(AllocError) => items(rt, alloc, [7]),
    }
}

/// The number 7, though the first call may find no memory.
fn shared_made(rt: &impl Abort, alloc: Global) -> Shared<u64> {
    mark(alloc);
    let made = Shared::new(alloc, 7);
    mark(alloc);
    match made {
        Ok(made) => made,
        Err(AllocError) => Shared::new(alloc, 7).expect(rt, "a second call"),
    }
}

#[test]
fn values_that_are_shared(rt: HostRuntime) {
    let alloc = rt.alloc();
    let _tally = Tally::new(alloc);
    let text = text_made(&rt, alloc, "ann of the north sea");
    let items = items_made(&rt, alloc);
    let shared = shared_made(&rt, alloc);
    quiet(alloc);
    same(
        &rt,
        &(text.as_str(), text.len(), text.is_empty()),
        &("ann of the north sea", 20, false),
    );
    same(
        &rt,
        &(items.as_slice(), items.len(), items.is_empty()),
        &([7].as_slice(), 1, false),
    );
    same(
        &rt,
        &(items.get(0), items.get(1), shared.get()),
        &(Some(&7), None, &7),
    );
    let owner = Shared::from_arc(shared.into_arc());
    let further = owner.clone().expect(&rt, "an owner");
    same(&rt, &(*owner.get(), *further.get()), &(7, 7));
    quiet(alloc);
}

/// Values are compared, and conditions made and judged, without memory.
#[test]
fn values_that_are_compared(rt: HostRuntime) {
    let alloc = rt.alloc();
    let _tally = Tally::new(alloc);
    let north = Value::text(alloc, "ann of the north sea").expect(&rt, "memory");
    let south = Value::text(alloc, "ann of the south sea").expect(&rt, "memory");
    let ann = row(&rt, alloc, 1, "ann of the north sea", 5);
    let owned = owned_by(&rt, alloc, "ann of the south sea");
    quiet(alloc);
    same(
        &rt,
        &(north.is_less(&south), south.is_less(&north)),
        &(true, false),
    );
    same(&rt, &Comparison::AtLeast.holds(&north, &south), &true);
    same(&rt, &Comparison::AtMost.holds(&north, &south), &false);
    let conditions = [
        owned.with(Comparison::Below),
        Equal::int(2, 5).with(Comparison::AtLeast),
    ];
    same(&rt, &matches(&conditions, &ann), &true);
    quiet(alloc);
}

/// The columns id and owner.
fn two_columns(alloc: Global) -> Result<TableDef, AllocError> {
    let id = Column::int(alloc, "id")?;
    let owner = Column::text(alloc, "owner")?.partition();
    TableDef::of(alloc, [id, owner])
}

fn insert_of_ann(alloc: Global) -> Result<Write, AllocError> {
    let owner = Value::text(alloc, "ann")?;
    Write::insert(alloc, 0, [Value::Int(1), owner])
}

/// An update of ann's rows, which are eve's from then on.
fn update_of_ann(alloc: Global) -> Result<Write, AllocError> {
    let value = Value::text(alloc, "eve")?;
    let of_ann = Equal::text(alloc, 1, "ann")?;
    Write::update(alloc, 0, [Change::Set { column: 1, value }], [of_ann])
}

/// What the first call makes, or the second one if the first finds no memory.
fn made<T: Drop>(
    rt: &impl Abort,
    first: Result<T, AllocError>,
    second: Result<T, AllocError>,
) -> T {
    match first {
        Ok(made) => made,
        Err(AllocError) => second.expect(rt, "a second call"),
    }
}

#[test]
fn values_that_are_made_in_one_call(rt: HostRuntime) {
    let alloc = rt.alloc();
    let _tally = Tally::new(alloc);
    mark(alloc);
    let def = two_columns(alloc);
    let insert = insert_of_ann(alloc);
    let update = update_of_ann(alloc);
    mark(alloc);
    let def = made(&rt, def, two_columns(alloc));
    let insert = made(&rt, insert, insert_of_ann(alloc));
    let update = made(&rt, update, update_of_ann(alloc));
    let mut catalog = Catalog::new(alloc);
    catalog.add("acct", def).expect(&rt, "a table");
    let action = Action::of(items(&rt, alloc, [insert, update]));
    same(&rt, &check_action(&catalog, &action), &Ok(()));
}

/// The row of ann with one more, though the first call may find no memory.
fn one_more(rt: &impl Abort, alloc: Global, ann: &Row) -> Row {
    let changes = [Change::Add { column: 2, by: 1 }];
    mark(alloc);
    let next = changed(alloc, ann, &changes);
    mark(alloc);
    match next {
        Ok(next) => next,
        Err(AllocError) => changed(alloc, ann, &changes).expect(rt, "a second call"),
    }
}

#[test]
fn a_row_is_changed(rt: HostRuntime) {
    let alloc = rt.alloc();
    let _tally = Tally::new(alloc);
    let ann = row(&rt, alloc, 1, "ann", 5);
    let next = one_more(&rt, alloc, &ann);
    same(&rt, &next, &row(&rt, alloc, 1, "ann", 6));
    same(&rt, &ann, &row(&rt, alloc, 1, "ann", 5));
    let (by_ann, by_bob) = (
        everything_of(&rt, alloc, "ann"),
        everything_of(&rt, alloc, "bob"),
    );
    quiet(alloc);
    assert!(rt;
        matches(by_ann.equals.as_slice(), &ann) && !matches(by_bob.equals.as_slice(), &ann)
    );
    same(&rt, &ann.copy().expect(&rt, "an owner"), &ann);
    same(&rt, &digest(&Value::Int(7)), &7);
    quiet(alloc);
}

/// The select of all rows of an owner.
fn everything_of(rt: &impl Abort, alloc: Global, owner: &str) -> Select {
    let owned = owned_by(rt, alloc, owner);
    Select::matching(alloc, 0, [owned]).expect(rt, "memory")
}

/// Adds the table of accounts. Without memory the catalog stays, and the call is made again.
fn adds(rt: &impl Abort, alloc: Global, catalog: &mut Catalog) {
    let def = account_columns(rt, alloc);
    let again = def.clone().expect(rt, "memory");
    mark(alloc);
    let added = catalog.add("acct", def);
    mark(alloc);
    if let Err(error) = added {
        same(rt, &error, &CatalogError::Memory);
        same(rt, &(catalog.len(), catalog.find("acct")), &(0, None));
        catalog.add("acct", again).expect(rt, "a second call");
    }
}

/// Refusals of tables, which take no memory.
fn refuses_tables(rt: &impl Abort, alloc: Global, catalog: &mut Catalog) {
    let none = TableDef::of(alloc, []).expect(rt, "memory");
    let (first, second) = (account_columns(rt, alloc), account_columns(rt, alloc));
    quiet(alloc);
    same(rt, &catalog.add("", first), &Err(CatalogError::BadName));
    same(
        rt,
        &catalog.add("acct", second),
        &Err(CatalogError::SameTable),
    );
    same(
        rt,
        &catalog.add("other", none),
        &Err(CatalogError::NoColumns),
    );
    quiet(alloc);
}

/// Reads of a catalog, which take no memory.
fn reads_catalog(rt: &impl Abort, alloc: Global, catalog: &Catalog) {
    quiet(alloc);
    same(rt, &(catalog.len(), catalog.is_empty()), &(1, false));
    same(
        rt,
        &(catalog.find("acct"), catalog.find("other")),
        &(Some(0), None),
    );
    same(
        rt,
        &(catalog.name(0), catalog.name(1)),
        &(Some("acct"), None),
    );
    let def = catalog.table(0).expect(rt, "a table");
    same(
        rt,
        &(def.find("owner"), def.find("other")),
        &(Some(1), None),
    );
    quiet(alloc);
}

#[test]
fn a_catalog(rt: HostRuntime) {
    let alloc = rt.alloc();
    let _tally = Tally::new(alloc);
    quiet(alloc);
    let mut catalog = Catalog::new(alloc);
    quiet(alloc);
    adds(&rt, alloc, &mut catalog);
    reads_catalog(&rt, alloc, &catalog);
    refuses_tables(&rt, alloc, &mut catalog);
    judges_writes(&rt, alloc, &catalog);
    judges_selects(&rt, alloc, &catalog);
}

/// Whether writes can run is found without memory, and they are copied without.
fn judges_writes(rt: &impl Abort, alloc: Global, catalog: &Catalog) {
    let writes = [
        insert(rt, alloc, 1, "ann", 5),
        delete(rt, alloc, "ann"),
        add_to_all(rt, alloc, 1),
    ];
    let action = Action::of(items(rt, alloc, writes));
    let missing = Write::delete(alloc, 1, []).expect(rt, "memory");
    quiet(alloc);
    same(rt, &check_action(catalog, &action), &Ok(()));
    same(rt, &check(catalog, &missing), &Err(CheckError::NoTable));
    for write in action.writes.as_slice() {
        same(rt, &write.table(), &0);
        same(rt, &write.copy().expect(rt, "an owner"), write);
    }
    quiet(alloc);
}

/// Whether selects can run is found without memory.
fn judges_selects(rt: &impl Abort, alloc: Global, catalog: &Catalog) {
    let all = everything(rt, alloc);
    let wrong = Select::matching(alloc, 0, [Equal::int(1, 7)]).expect(rt, "memory");
    quiet(alloc);
    same(rt, &check_select(catalog, &all), &Ok(()));
    same(
        rt,
        &check_select(catalog, &wrong),
        &Err(CheckError::WrongKind),
    );
    same(rt, &all.copy().expect(rt, "an owner"), &all);
    let values = [Value::Int(7), Value::Int(8)];
    assert!(rt; values[0].is_same(&Value::Int(7)) && values[0].is_of_kind(Kind::Int));
    assert!(rt; are_same(&values, &values) && !are_same(&values, &values[..1]));
    quiet(alloc);
}
