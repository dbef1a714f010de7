use super::{ACCT, ANN, BOB, LOAN, after, bank, done, entry, row, same};
use std::alloc::Global;
use std::process::Abort;
use tt_db::{Db, Limits};
use tt_values::{Reply, Row};
use tt_versions::{Side, Table};

/// A database of `acct` and `loan`, with two accounts and no loan.
fn accounts(rt: &impl Abort, alloc: Global) -> Db {
    let empty = Db::new(alloc, bank(rt, alloc, &["acct", "loan"]), Limits::usual());
    let first = after(rt, alloc, &empty, entry(rt, alloc, 1, ANN), Reply::Inserted);
    done(empty);
    let second = after(rt, alloc, &first, entry(rt, alloc, 1, BOB), Reply::Inserted);
    done(first);
    second
}

/// Asserts what a side of `acct` has of `BOB` at some times.
fn shows_bob(rt: &impl Abort, alloc: Global, versions: &Table, side: Side) {
    let bob = row(rt, alloc, BOB);
    let wants: [(u64, Option<&Row>); 4] = [(0, None), (1, None), (2, Some(&bob)), (9, Some(&bob))];
    for (time, want) in wants {
        same(rt, &(time, versions.at(2, time, side)), &(time, want));
    }
}

fn has_its_versions(rt: &impl Abort, alloc: Global, db: &Db) {
    let versions = db.versions(ACCT).expect(rt, "a table");
    shows_bob(rt, alloc, versions, Side::Current);
    shows_bob(rt, alloc, versions, Side::Next);
    assert!(rt; !versions.is_split(1) && !versions.is_split(2));
    let loans = db.versions(LOAN).expect(rt, "a table");
    let rows = loans.rows_at(2, Side::Current).expect(rt, "memory");
    assert!(rt; rows.is_empty());
    for table in [2, u16::MAX] {
        assert!(rt; db.versions(table).is_none(), "table {table}");
    }
}

#[test]
fn each_table_has_its_versions(rt: HostRuntime) {
    let alloc = rt.alloc();
    let db = accounts(&rt, alloc);
    has_its_versions(&rt, alloc, &db);
    done(db);
}
