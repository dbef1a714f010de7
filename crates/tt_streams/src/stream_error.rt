use thiserror::Error;

/// Why a stream is given up.
#[derive(Clone, Copy, Debug, PartialEq, Eq, Error)]
pub enum StreamError {
    /// The reader failed, or was interrupted too often.
    #[error("cannot read")]
    Read,
    /// The writer failed, took no byte, or was interrupted too often.
    #[error("cannot write")]
    Write,
}
