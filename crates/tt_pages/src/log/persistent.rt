// Calls that return a changed copy and leave the log as it was. They are part of the public
// surface, and nothing in the libraries above calls them.
ghost use Rattle.std.specs.Prelude.{◌≡◌, ◌<◌, [], ◌∷◌, ◌++◌, length, slice_set, IfOk};

use super::PagedLog;
use crate::kept::Kept;
use std::alloc::AllocError;

impl<T: Kept + Drop> PagedLog<T> {
    /// The log with this item added at the end. This log stays as it is.
    pub fn pushed(&self, item: T) -> Result<Self, AllocError>
        ensures { IfOk result (λ log. log ≡ self.now ++ item ∷ []) }
    {
        let mut log = self.share()?;
        log.push(item)?;
        Ok(log)
    }

    /// The log with this item at the position. This log stays as it is.
    pub fn replaced(&self, position: usize, item: T) -> Result<Self, AllocError>
        requires { position < length self.now }
        ensures { IfOk result (λ log. log ≡ slice_set self.now position item) }
    {
        let mut log = self.share()?;
        log.replace(position, item)?;
        Ok(log)
    }
}
