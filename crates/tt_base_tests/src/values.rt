ghost use Rattle.std.specs.Prelude.{◌≡◌, IsSome};
ghost use Rattle.tt_values.specs.Row.{first_int};

mod calls;
mod comparisons;
mod printed;

use std::alloc::Global;
use std::process::Abort;
use tt_values::{Catalog, Column, Equal, Row, TableDef, Value};

/// The columns id and owner.
fn def(rt: &impl Abort, alloc: Global) -> TableDef {
    let id = Column::int(alloc, "id").expect(rt, "memory");
    let owner = Column::text(alloc, "owner").expect(rt, "memory");
    TableDef::of(alloc, [id, owner]).expect(rt, "memory")
}

fn catalog(rt: &impl Abort, alloc: Global) -> Catalog {
    let mut catalog = Catalog::new(alloc);
    catalog.add("acct", def(rt, alloc)).expect(rt, "a table");
    catalog
}

fn row(rt: &impl Abort, alloc: Global, id: i64, owner: &str) -> Row
    ensures { IsSome (first_int result.values) }
{
    let owner = Value::text(alloc, owner).expect(rt, "memory");
    Row::of(alloc, [Value::Int(id), owner]).expect(rt, "memory")
}

fn owner_is(rt: &impl Abort, alloc: Global, owner: &str) -> Equal {
    Equal::text(alloc, 1, owner).expect(rt, "memory")
}
