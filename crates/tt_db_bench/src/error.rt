use std::alloc::{AllocError, AllocFailed};
use thiserror::Error;
use tt_db::DbError;
use tt_values::CatalogError;

/// Why the calls can't be made.
#[derive(Clone, Copy, Debug, Error)]
pub(crate) enum BenchError {
    #[error("the table of accounts is refused")]
    Catalog,
    #[error("a write is refused")]
    Write,
    #[error("out of memory")]
    Memory,
}

impl From<AllocError> for BenchError {
    fn from(_error: AllocError) -> BenchError {
        BenchError::Memory
    }
}

impl<T: Drop> From<AllocFailed<T>> for BenchError {
    fn from(_error: AllocFailed<T>) -> BenchError {
        BenchError::Memory
    }
}

impl From<CatalogError> for BenchError {
    fn from(_error: CatalogError) -> BenchError {
        BenchError::Catalog
    }
}

impl From<DbError> for BenchError {
    fn from(_error: DbError) -> BenchError {
        BenchError::Write
    }
}
