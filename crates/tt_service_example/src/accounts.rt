//! The table of accounts, and the statements on it.
use crate::error::ServiceError;
use std::alloc::{AllocError, Global};
use tt_values::{
    Action, Catalog, Change, Column, Equal, Items, Reply, Row, Select, TableDef, Value, Write,
};

/// How many clerks book payments. Each has one account, with the clerk's number as its id.
pub(crate) const CLERKS: u32 = 3;

/// The position of the table `account`.
const ACCOUNT: u16 = 0;

/// The positions of its columns.
const ID: u16 = 0;

const BALANCE: u16 = 2;

/// A catalog with the one table.
pub(crate) fn catalog(alloc: Global) -> Result<Catalog, ServiceError> {
    let id = Column::int(alloc, "id")?;
    let owner = Column::text(alloc, "owner")?.partition();
    let balance = Column::int(alloc, "balance")?;
    let mut catalog = Catalog::new(alloc);
    catalog.add("account", TableDef::of(alloc, [id, owner, balance])?)?;
    Ok(catalog)
}

/// Opens an account with a balance of 100.
pub(crate) fn open_account(alloc: Global, id: i64, owner: &str) -> Result<Action, AllocError> {
    let values = [Value::Int(id), Value::text(alloc, owner)?, Value::Int(100)];
    action(alloc, Write::insert(alloc, ACCOUNT, values)?)
}

/// Books a payment to one account, or to all of them.
pub(crate) fn pay(alloc: Global, amount: i64, account: Option<i64>) -> Result<Action, AllocError> {
    let changes = [Change::Add {
        column: BALANCE,
        by: amount,
    }];
    let write = match account {
        Some(id) => Write::update(alloc, ACCOUNT, changes, [Equal::int(ID, id)])?,
        None => Write::update(alloc, ACCOUNT, changes, [])?,
    };
    action(alloc, write)
}

/// An action of one write.
fn action(alloc: Global, write: Write) -> Result<Action, AllocError> {
    Ok(Action::of(Items::of(alloc, [write])?))
}

/// Selects one account, or all of them.
pub(crate) fn select(alloc: Global, account: Option<i64>) -> Result<Select, AllocError> {
    match account {
        Some(id) => Select::matching(alloc, ACCOUNT, [Equal::int(ID, id)]),
        None => Select::all(alloc, ACCOUNT),
    }
}

/// The balance of an account.
pub(crate) fn balance_of(row: &Row) -> Option<i64> {
    match row.values.get(usize::from(BALANCE))? {
        Value::Int(balance) => Some(*balance),
        Value::Text(_) => None,
    }
}

/// The balance of the first account in a reply.
pub(crate) fn balance_in(reply: &Reply) -> Option<i64> {
    match reply {
        Reply::Rows(rows) => balance_of(rows.get(0)?),
        _ => None,
    }
}
