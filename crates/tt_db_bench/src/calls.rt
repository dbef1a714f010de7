//! The calls: inserts by rising key, and then perhaps updates by key.
use crate::accounts::{catalog, open_account, pay};
use crate::error::BenchError;
use crate::plan::{Mode, Plan};
use std::alloc::Global;
use std::sync::Arc;
use tt_db::{Db, Limits};

/// Makes the calls of a plan, and returns how many slots they leave.
pub(crate) fn make_calls(alloc: Global, plan: Plan) -> Result<u64, BenchError> {
    let Plan { mode, rows } = plan;
    match mode {
        Mode::Statements => statements(alloc, rows),
        Mode::ApplyInsert => by_apply(alloc, rows, 0),
        Mode::AdvancedInsert => by_advanced(alloc, rows, 0),
        Mode::ApplyUpdate => by_apply(alloc, rows, rows),
        Mode::AdvancedUpdate => by_advanced(alloc, rows, rows),
    }
}

/// Builds the inserts, and leaves no slot.
fn statements(alloc: Global, inserts: u32) -> Result<u64, BenchError> {
    for id in 0..inserts {
        drop(open_account(alloc, id)?);
    }
    Ok(0)
}

/// Each database stays until the next one is there.
fn by_apply(alloc: Global, inserts: u32, updates: u32) -> Result<u64, BenchError> {
    let mut db = without_rows(alloc)?;
    for id in 0..inserts {
        let (next, _) = db.apply(open_account(alloc, id)?)?;
        db = next;
    }
    for number in 0..updates {
        let (next, _) = db.apply(pay(alloc, number / 2)?)?;
        db = next;
    }
    Ok(db.now())
}

/// Each call takes the database over.
fn by_advanced(alloc: Global, inserts: u32, updates: u32) -> Result<u64, BenchError> {
    let mut db = without_rows(alloc)?;
    for id in 0..inserts {
        let (next, outcome) = db.advanced(open_account(alloc, id)?)?;
        outcome?;
        db = next;
    }
    for number in 0..updates {
        let (next, outcome) = db.advanced(pay(alloc, number / 2)?)?;
        outcome?;
        db = next;
    }
    Ok(db.now())
}

fn without_rows(alloc: Global) -> Result<Db, BenchError> {
    let catalog = Arc::new(alloc, catalog(alloc)?)?;
    Ok(Db::new(alloc, catalog, Limits::usual()))
}
