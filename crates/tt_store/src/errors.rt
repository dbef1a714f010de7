ghost use Rattle.std.specs.Prelude.{◌≡◌};
ghost use Rattle.tt_store.specs.Drafts.{error_of, error_of_read};

use thiserror::Error;
use tt_db::DbError;

/// Why a call of a store isn't carried out. It has added nothing to the history; what the worker
/// has seen may have grown.
#[derive(Clone, Copy, Debug, PartialEq, Eq, Error)]
pub enum StoreError {
    /// The database refuses the call, at the front that the worker has then seen. Of a list of
    /// events this is the first refusal that it meets. It is never `DbError::Memory`.
    #[error("{0}")]
    Db(DbError),
    /// The worker has read a front of `read` entries, longer than the history of `told` entries
    /// that the store has under its lock, which is no shorter than what the worker had seen before.
    #[error("raced: {read} entries read, {told} told")]
    Raced { read: u64, told: u64 },
    /// There is no reading of what is published, or its length differs in another way from that of
    /// the history under the lock.
    #[error("no reading")]
    NoReading,
    /// Out of memory.
    #[error("out of memory")]
    Memory,
}

/// Why a store isn't opened. Nothing is handed back: it may be opened anew.
#[derive(Clone, Copy, Debug, PartialEq, Eq, Error)]
pub enum OpenError {
    /// The number of workers isn't 1 to 16.
    #[error("the number of workers is not 1 to 16")]
    Workers,
    /// There is no place for a reader.
    #[error("no place for a reader")]
    Place,
    /// Out of memory.
    #[error("out of memory")]
    Memory,
}

/// Why a worker doesn't reach what is published.
#[derive(Clone, Copy)]
pub(crate) enum Unread {
    NoReading,
    Memory,
}

/// Why events don't lead to a database: the first that is refused, or memory.
#[derive(Clone, Copy)]
pub(crate) enum Unreached {
    Db(DbError),
    Memory,
}

/// The error of a call whose events don't lead to a database.
pub(crate) fn error_of(unreached: Unreached) -> StoreError
    ensures { result ≡ error_of unreached }
{
    match unreached {
        Unreached::Db(refusal) => StoreError::Db(refusal),
        Unreached::Memory => StoreError::Memory,
    }
}

/// The error of a call whose worker doesn't reach what is published.
pub(crate) fn error_of_read(unread: Unread) -> StoreError
    ensures { result ≡ error_of_read unread }
{
    match unread {
        Unread::NoReading => StoreError::NoReading,
        Unread::Memory => StoreError::Memory,
    }
}
