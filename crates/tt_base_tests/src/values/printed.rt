//! Printed texts.
use crate::same::same;
use tt_values::{CatalogError, Change, CheckError, Equal, Write};

#[test]
fn faults_of_tables(rt: HostRuntime) {
    for (error, expected) in [
        (
            CatalogError::BadName,
            "a name is not 1 to 64 ASCII letters, digits or underscores",
        ),
        (
            CatalogError::SameTable,
            "the catalog has a table of that name",
        ),
        (CatalogError::NoColumns, "the table has no columns"),
        (
            CatalogError::KeyNotInt,
            "the first column is not of kind Int",
        ),
        (CatalogError::SameColumn, "two columns have the same name"),
        (
            CatalogError::TooMany,
            "more than 64 tables, or more than 32 columns",
        ),
        (CatalogError::Memory, "out of memory"),
    ] {
        let text = format!(in rt.alloc(); "{error}").expect(&rt, "memory");
        same(&rt, &text.as_str(), &expected);
    }
}

#[test]
fn faults_of_statements(rt: HostRuntime) {
    for (error, expected) in [
        (CheckError::NoTable, "no such table"),
        (CheckError::NoColumn, "no such column"),
        (CheckError::WrongKind, "value of the wrong kind"),
        (CheckError::WrongWidth, "row of the wrong width"),
        (CheckError::TextTooLong, "text too long"),
        (CheckError::SetsKey, "key set by an update"),
        (CheckError::SameColumnTwice, "column changed twice"),
        (CheckError::TooManyEquals, "too many equalities"),
        (CheckError::TooManyWrites, "too many writes"),
    ] {
        let text = format!(in rt.alloc(); "{error}").expect(&rt, "memory");
        same(&rt, &text.as_str(), &expected);
    }
}

#[test]
fn a_write(rt: HostRuntime) {
    let alloc = rt.alloc();
    let change = Change::Add { column: 2, by: 5 };
    let write = Write::update(alloc, 0, [change], [Equal::int(0, 1)]).expect(&rt, "memory");
    let text = format!(in alloc; "{write:?}").expect(&rt, "memory");
    let changes = "Items { items: [Add { column: 2, by: 5 }] }";
    let equals = "Items { items: [Equal { column: 0, how: Is, value: Int(1) }] }";
    let expected = format!(in alloc; "Update {{ table: 0, changes: {changes}, equals: {equals} }}");
    same(
        &rt,
        &text.as_str(),
        &expected.expect(&rt, "memory").as_str(),
    );
}
