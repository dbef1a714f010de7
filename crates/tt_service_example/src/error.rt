use std::alloc::AllocError;
use thiserror::Error;
use tt_db::ReadError;
use tt_repair::RepairFault;
use tt_store::{OpenError, StoreError};
use tt_values::CatalogError;

/// Why the service stops.
#[derive(Clone, Copy, Debug, Error)]
pub(crate) enum ServiceError {
    #[error("the table of accounts is refused: {0}")]
    Catalog(#[from] CatalogError),
    #[error("the store can't be opened: {0}")]
    Open(#[from] OpenError),
    #[error("a call is refused: {0}")]
    Store(#[from] StoreError),
    #[error("{0}")]
    Repair(#[from] RepairFault),
    #[error("a read isn't answered: {0}")]
    Read(#[from] ReadError),
    #[error("the store can't be closed")]
    Close,
    #[error("a reply is none that was asked for")]
    Reply,
    #[error("out of memory")]
    Memory(#[from(alloc)] AllocError),
}
