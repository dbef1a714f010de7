ghost use Rattle.std.specs.Prelude.{◌≡◌, ◌<◌, length};
ghost use Rattle.tt_values.specs.Check.{HasKey};

mod dirty;
mod parts_and_reads;

use std::alloc::Global;
use std::process::Abort;
use std::sync::Arc;
use tt_parts::{Dirty, Partition, Reads};
use tt_values::{Catalog, Column, Comparison, Equal, Items, Row, TableDef, Value, Write};

/// A value as a case writes it down.
#[derive(Clone, Copy, Debug)]
enum Plain {
    Number(i64),
    Words(&'static str),
}

/// A partition as a case writes it down: its table, its column and the value there.
type PlainPartition = (u16, u16, Plain);

/// The row (1, "ann", 10) of `acct`.
const ANN: &[Plain] = &[Plain::Number(1), Plain::Words("ann"), Plain::Number(10)];

fn value(rt: &impl Abort, alloc: Global, plain: Plain) -> Value {
    match plain {
        Plain::Number(number) => Value::Int(number),
        Plain::Words(words) => Value::text(alloc, words).expect(rt, "memory"),
    }
}

fn row(rt: &impl Abort, alloc: Global, plains: &[Plain]) -> Row {
    let mut values = Vec::new(alloc);
    for plain in plains {
        values.push(value(rt, alloc, *plain)).expect(rt, "memory");
    }
    Row {
        values: Items::new(alloc, values).expect(rt, "memory"),
    }
}

fn partition(rt: &impl Abort, alloc: Global, plain: PlainPartition) -> Partition {
    let (table, column, plain) = plain;
    Partition {
        table,
        column,
        value: value(rt, alloc, plain),
    }
}

fn partitions(rt: &impl Abort, alloc: Global, plains: &[PlainPartition]) -> Items<Partition> {
    let mut partitions = Vec::new(alloc);
    for plain in plains {
        let partition = partition(rt, alloc, *plain);
        partitions.push(partition).expect(rt, "memory");
    }
    Items::new(alloc, partitions).expect(rt, "memory")
}

fn partition_reads(rt: &impl Abort, alloc: Global, plains: &[PlainPartition]) -> Reads {
    Reads::Equated(partitions(rt, alloc, plains))
}

/// The comparisons that are no equalities.
const NO_EQUALITIES: [Comparison; 5] = [
    Comparison::IsNot,
    Comparison::Below,
    Comparison::AtMost,
    Comparison::Above,
    Comparison::AtLeast,
];

/// A delete by equalities.
fn delete(rt: &impl Abort, alloc: Global, table: u16, pairs: &[(u16, Plain)]) -> Write
    ensures { HasKey result }
{
    delete_by(rt, alloc, table, Comparison::Is, pairs)
}

/// A delete by comparisons of one kind.
fn delete_by(
    rt: &impl Abort,
    alloc: Global,
    table: u16,
    how: Comparison,
    pairs: &[(u16, Plain)],
) -> Write
    ensures { HasKey result }
{
    let mut equals = Vec::new(alloc);
    for (column, plain) in pairs {
        let equal = Equal {
            column: *column,
            how,
            value: value(rt, alloc, *plain),
        };
        equals.push(equal).expect(rt, "memory");
    }
    Write::Delete {
        table,
        equals: Items::new(alloc, equals).expect(rt, "memory"),
    }
}

/// The insert of Dan's account with a key.
fn insert(rt: &impl Abort, alloc: Global, key: i64) -> Write
    ensures { HasKey result }
{
    let owner = Value::text(alloc, "dan").expect(rt, "memory");
    let values = [Value::Int(key), owner, Value::Int(0)];
    Write::insert(alloc, 0, values).expect(rt, "memory")
}

/// Accounts: the owner is declared as a partition column.
fn acct(rt: &impl Abort, alloc: Global) -> TableDef {
    let id = Column::int(alloc, "id").expect(rt, "memory");
    let owner = Column::text(alloc, "owner").expect(rt, "memory");
    let balance = Column::int(alloc, "bal").expect(rt, "memory");
    let columns = [id, owner.partition(), balance];
    TableDef::of(alloc, columns).expect(rt, "memory")
}

/// Parcels: the key, a text and a number are declared as partition columns.
fn parcel(rt: &impl Abort, alloc: Global) -> TableDef {
    let id = Column::int(alloc, "id").expect(rt, "memory");
    let town = Column::text(alloc, "town").expect(rt, "memory");
    let note = Column::text(alloc, "note").expect(rt, "memory");
    let zone = Column::int(alloc, "zone").expect(rt, "memory");
    let columns = [id.partition(), town.partition(), note, zone.partition()];
    TableDef::of(alloc, columns).expect(rt, "memory")
}

/// A catalog with `acct` at 0 and `parcel` at 1.
fn tables(rt: &impl Abort, alloc: Global) -> Arc<Catalog>
    ensures { length result.value ≡ 2 }
{
    let mut catalog = Catalog::new(alloc);
    catalog.add("acct", acct(rt, alloc)).expect(rt, "a table");
    catalog
        .add("parcel", parcel(rt, alloc))
        .expect(rt, "a table");
    Arc::new(alloc, catalog).expect(rt, "memory")
}

/// A set without members, for that catalog.
fn nothing_dirty(rt: &impl Abort, alloc: Global) -> Dirty
    ensures { length result.catalog ≡ 2 }
{
    Dirty::new(alloc, tables(rt, alloc))
}

/// The end of a test's use of a set. A test that drops one itself takes longer to prove.
fn done(_dirty: Dirty) {}
