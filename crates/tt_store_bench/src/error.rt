use std::alloc::{AllocError, AllocFailed};
use std::io;
use thiserror::Error;
use tt_db::ReadError;
use tt_store::{OpenError, StoreError};
use tt_values::CatalogError;

/// Why there is no measurement.
#[derive(Clone, Copy, Debug, Error)]
pub(crate) enum BenchError {
    #[error("the table of accounts is refused")]
    Catalog,
    #[error("the store can't be opened")]
    Open,
    #[error("a write is refused")]
    Write,
    #[error("a read isn't answered by one row")]
    Read,
    #[error("what a reader sees goes back")]
    Back,
    #[error("the clock can't be read")]
    Clock,
    #[error("out of memory")]
    Memory,
}

impl From<AllocError> for BenchError {
    fn from(_error: AllocError) -> BenchError {
        BenchError::Memory
    }
}

impl<T: Drop> From<AllocFailed<T>> for BenchError {
    fn from(_error: AllocFailed<T>) -> BenchError {
        BenchError::Memory
    }
}

impl From<CatalogError> for BenchError {
    fn from(_error: CatalogError) -> BenchError {
        BenchError::Catalog
    }
}

impl From<OpenError> for BenchError {
    fn from(_error: OpenError) -> BenchError {
        BenchError::Open
    }
}

impl From<StoreError> for BenchError {
    fn from(_error: StoreError) -> BenchError {
        BenchError::Write
    }
}

impl From<ReadError> for BenchError {
    fn from(_error: ReadError) -> BenchError {
        BenchError::Read
    }
}

impl From<io::Error> for BenchError {
    fn from(_error: io::Error) -> BenchError {
        BenchError::Clock
    }
}
