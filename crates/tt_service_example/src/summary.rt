//! What is left of the service. No schedule of its threads changes it.
use crate::accounts::{CLERKS, balance_of, select};
use crate::error::ServiceError;
use std::alloc::Global;
use std::io;
use tt_store::Closed;
use tt_values::Reply;

#[derive(Drop)]
pub(crate) struct Summary {
    /// How many entries of the history each clerk made.
    payments: Vec<usize>,
    /// The balances after the fee, in the generation that was closed by the repair.
    charged: Vec<i64>,
    /// The balances after the fee, in the current generation.
    repaired: Vec<i64>,
    /// The balances at the end.
    balances: Vec<i64>,
}

impl Summary {
    /// What a closed store tells, whose fee took this slot.
    pub(crate) fn of(alloc: Global, closed: &Closed, fee: u64) -> Result<Summary, ServiceError> {
        let db = closed.db.get();
        let accounts = select(alloc, None)?;
        Ok(Summary {
            payments: payments(alloc, &closed.places)?,
            charged: balances(alloc, &db.select_in(0, &accounts, fee)?)?,
            repaired: balances(alloc, &db.select_at(&accounts, fee)?)?,
            balances: balances(alloc, &db.select(&accounts)?)?,
        })
    }

    /// Prints it, line by line.
    pub(crate) fn print(&self, rt: &impl Print) -> io::Result<()> {
        for (position, payments) in self.payments.iter().enumerate() {
            println!(rt; "clerk {} booked {payments} payments", position + 1)?;
        }
        println!(rt; "after the fee, as it was charged: {:?}", self.charged)?;
        println!(rt; "after the fee, as it is repaired: {:?}", self.repaired)?;
        println!(rt; "at the end: {:?}", self.balances)
    }
}

/// How many entries each clerk made, by the places of each worker.
fn payments(alloc: Global, places: &[Vec<u64>]) -> Result<Vec<usize>, ServiceError> {
    let mut payments = Vec::new(alloc);
    for (_, own) in (0..CLERKS).zip(places) {
        payments.push(own.len())?;
    }
    Ok(payments)
}

/// The balances in a reply, by rising id of their accounts.
fn balances(alloc: Global, reply: &Reply) -> Result<Vec<i64>, ServiceError> {
    let Reply::Rows(rows) = reply else {
        return Err(ServiceError::Reply);
    };
    let mut balances = Vec::new(alloc);
    for row in rows.as_slice() {
        balances.push(balance_of(row).ok_or(ServiceError::Reply)?)?;
    }
    Ok(balances)
}
