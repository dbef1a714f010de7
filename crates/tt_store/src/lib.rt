//! A database that several threads share. `Opened::named` opens a store with its workers: call it
//! in a function that is generic in the store's name, and call that with `Brand`. Each worker goes
//! into a thread of its own, reads by its own calls without waiting, and publishes by calls of the
//! store, which may wait for other threads.
#![tactic(auto)]

mod answer;
mod call;
mod closing;
mod errors;
mod front;
mod gate;
pub mod laws;
mod locked;
mod opening;
mod snapshot;
mod store;
mod worker;

pub use answer::{Answer, Finished, Written};
pub use closing::{CloseFault, Closed};
pub use errors::{OpenError, StoreError};
pub use gate::{Gate, NoGate, Point};
pub use opening::{MAX_WORKERS, Opened};
pub use snapshot::Naming;
pub use store::Store;
pub use worker::Worker;
