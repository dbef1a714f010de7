//! The administrator: a thread that repairs a mistake while the clerks go on.
use crate::accounts::pay;
use crate::error::ServiceError;
use std::alloc::{AllocError, Global};
use std::sync::Wait;
use tt_db::Edit;
use tt_repair::repair;
use tt_store::{Naming, NoGate, Store, Worker};
use tt_values::Items;

/// How many slots are looked at in one publish.
const BATCH: u32 = 16;

/// How often the administrator goes over the writes that are made meanwhile. Those left then are
/// caught up with in the publish of the switch.
const ROUNDS: u32 = 10;

/// Replaces the fee in a slot by the one that was meant, and redoes what followed from it. A repair
/// that fails half-way is given up, so that another one can begin.
pub(crate) fn repair_fee<L: Naming, R: Wait>(
    rt: &R,
    alloc: Global,
    store: &Store<L, NoGate, &R>,
    worker: &mut Worker<L>,
    slot: u64,
) -> Result<(), ServiceError> {
    let edits = meant_instead(alloc, slot)?;
    match repair(rt, store, worker, edits, BATCH, ROUNDS) {
        Ok(_) => Ok(()),
        Err(fault) => {
            if fault.still_open {
                store.abort(rt, worker)?;
            }
            Err(ServiceError::Repair(fault))
        }
    }
}

/// The fee that was meant, in the place of the one in a slot.
fn meant_instead(alloc: Global, slot: u64) -> Result<Items<Edit>, AllocError> {
    Items::of(alloc, [Edit::Replace(slot, pay(alloc, -5, Some(3))?)])
}
