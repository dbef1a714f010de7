//! What has happened to a file.
ghost use Rattle.std.specs.Prelude.{◌≡◌, List, ℕ, IfOk};

use std::alloc::{AllocError, Global};
use std::marker::Model;

/// Bytes that an event keeps.
#[derive(Drop)]
pub(crate) struct Bytes {
    bytes: Vec<u8>,
}

impl Model for Bytes {
    ghost Value = { List ℕ };

    ghost view = { λ b. b.bytes.items };
}

impl Bytes {
    /// A copy of some bytes.
    pub(crate) fn copy_of(alloc: Global, bytes: &[u8]) -> Result<Bytes, AllocError>
        ensures { IfOk result (λ copy. copy ≡ bytes.now) }
    {
        Ok(Bytes {
            bytes: bytes.to_vec(alloc)?,
        })
    }
}

/// What has happened to a file, or was handed over. A call that fails has done nothing, but a sync
/// that fails forgets.
#[derive(Drop)]
pub(crate) enum Event {
    /// A file with these bytes took the name. They are on the disk, or nobody knows what is.
    Placed { is_on_disk: bool, bytes: Bytes },
    /// The folder was synced, so the name is on the disk.
    NameSynced,
    /// Bytes were written from a place on.
    Written { at: u64, bytes: Bytes },
    /// The file was made longer, up to this length.
    Grown { len: u64 },
    /// The file was cut behind so many bytes.
    Cut { len: u64 },
    /// A sync has succeeded.
    Synced,
    /// A sync has failed. No later one puts on the disk what was to be synced.
    SyncFailed,
    /// Bytes were handed over.
    Shown { bytes: Bytes },
}
