//! The table of accounts, and the statements on it.
use crate::error::BenchError;
use std::alloc::{AllocError, Global};
use tt_values::{
    Action, Catalog, Change, Column, Equal, Items, Select, TableDef, Text, Value, Write,
};

/// The position of the table `account`.
const ACCOUNT: u16 = 0;

/// The positions of its columns that statements name.
const ID: u16 = 0;

const BALANCE: u16 = 2;

/// A catalog with the one table.
pub(crate) fn catalog(alloc: Global) -> Result<Catalog, BenchError> {
    let def = columns(alloc)?;
    let mut catalog = Catalog::new(alloc);
    catalog.add("account", def)?;
    Ok(catalog)
}

fn columns(alloc: Global) -> Result<TableDef, AllocError> {
    let id = Column::int(alloc, "id")?;
    let owner = Column::text(alloc, "owner")?.partition();
    let balance = Column::int(alloc, "balance")?;
    TableDef::of(alloc, [id, owner, balance])
}

/// Opens an account; each owner has ten of them.
pub(crate) fn open_account(alloc: Global, id: u32) -> Result<Action, AllocError> {
    let owner = format!(in alloc; "owner{}", id / 10)?;
    let owner = Value::Text(Text::new(alloc, owner)?);
    let values = [Value::Int(i64::from(id)), owner, Value::Int(0)];
    action(alloc, Write::insert(alloc, ACCOUNT, values)?)
}

/// Books a payment of 1 to an account.
pub(crate) fn pay(alloc: Global, id: u32) -> Result<Action, AllocError> {
    let change = Change::Add {
        column: BALANCE,
        by: 1,
    };
    let update = Write::update(alloc, ACCOUNT, [change], [is_account(id)])?;
    action(alloc, update)
}

/// An action of one write.
fn action(alloc: Global, write: Write) -> Result<Action, AllocError> {
    Ok(Action::of(Items::of(alloc, [write])?))
}

/// Selects one account.
pub(crate) fn select(alloc: Global, id: u32) -> Result<Select, AllocError> {
    Select::matching(alloc, ACCOUNT, [is_account(id)])
}

fn is_account(id: u32) -> Equal {
    Equal::int(ID, i64::from(id))
}
