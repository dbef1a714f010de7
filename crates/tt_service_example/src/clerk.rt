//! A clerk: a thread that books payments to one account and reads its balance.
use crate::accounts::{balance_in, pay, select};
use crate::error::ServiceError;
use std::alloc::Global;
use std::sync::Wait;
use tt_store::{Naming, NoGate, Store, Worker};

/// How many payments a clerk books.
const PAYMENTS: u32 = 100;

/// Books all payments of 1 to the clerk's account. Its balance has risen after each.
pub(crate) fn book_payments<L: Naming, R: Wait>(
    rt: &R,
    alloc: Global,
    store: &Store<L, NoGate, &R>,
    worker: &mut Worker<L>,
) -> Result<(), ServiceError> {
    let account = i64::from(worker.number());
    store.refresh(rt, worker)?;
    let mut balance = read_balance(alloc, worker, account)?;
    for _ in 0..PAYMENTS {
        let before = balance;
        store.write(rt, worker, pay(alloc, 1, Some(account))?)?;
        balance = read_balance(alloc, worker, account)?;
        has_risen(before, balance)?;
    }
    Ok(())
}

fn has_risen(before: i64, after: i64) -> Result<(), ServiceError> {
    if before < after {
        Ok(())
    } else {
        Err(ServiceError::Reply)
    }
}

/// The balance of an account as it is now. This takes no lock.
fn read_balance<L: Naming>(
    alloc: Global,
    worker: &mut Worker<L>,
    account: i64,
) -> Result<i64, ServiceError> {
    let answer = worker.read(&select(alloc, Some(account))?)?;
    balance_in(&answer.reply).ok_or(ServiceError::Reply)
}
