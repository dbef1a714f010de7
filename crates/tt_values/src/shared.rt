ghost use Rattle.std.specs.Prelude.{◌≡◌, IfOk};
ghost use Rattle.std.specs.Arc.{arc_value};

use std::alloc::{AllocError, Global};
use std::marker::Model;
use std::sync::Arc;

/// A value that its owners share: `clone` doesn't copy it. Contracts see only the value.
#[derive(Debug, Drop)]
pub struct Shared<T> {
    owner: Arc<T>,
}

impl<T> Model for Shared<T> {
    ghost use Rattle.std.specs.Arc.{arc_value};

    ghost Value = { T };

    ghost coded = { T.code };

    ghost view = { λ s. arc_value s.owner };
}

impl<T: Drop> Shared<T> {
    /// Moves a value to memory that owners can share; the result is its first owner.
    pub fn new(alloc: Global, value: T) -> Result<Self, AllocError>
        ensures { IfOk result (λ shared. shared ≡ value) }
    {
        let owner = Arc::new(alloc, value)?;
        Ok(Shared { owner })
    }

    /// Allocates nothing.
    pub fn from_arc(owner: Arc<T>) -> Self
        ensures { result ≡ arc_value owner }
    {
        Shared { owner }
    }

    /// Allocates nothing.
    pub fn into_arc(self) -> Arc<T>
        ensures { arc_value result ≡ self }
    {
        self.owner
    }

    pub fn get(&self) -> &T
        ensures { result.now ≡ self.now }
    {
        &self.owner
    }
}

/// A clone shares the value.
impl<T: Drop> Clone for Shared<T> {
    ghost use Rattle.std.specs.Prelude.{◌≡◌};

    ghost is_clone = { λ source copy. copy ≡ source };

    fn clone(&self) -> Result<Self, AllocError> {
        let owner = Arc::try_clone(&self.owner)?;
        Ok(Shared { owner })
    }
}
