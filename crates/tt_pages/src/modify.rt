ghost use Rattle.std.specs.Prelude.{◌≡◌, ⊤, OnOk};
ghost use Rattle.tt_pages.specs.Modify.{changed_by};

use std::alloc::AllocError;

/// A change of a value in place.
pub trait Modify<V>: Drop {
    /// What a value becomes.
    ghost after: { Self → V → V };

    /// Changes the value. If memory runs out, nothing is promised about it.
    fn apply(self, value: &mut V) -> Result<(), AllocError>
        ensures { OnOk result (value.new ≡ after self value.old) };
}

/// A change of a value in place, and of a context beside it, such as an index of the values.
pub trait ModifyWith<V, C> {
    /// Which values and contexts the change is for.
    ghost fits: { Self → V → C → Type 0 };

    /// What a value becomes.
    ghost after: { Self → V → V };

    /// What becomes of a context beside a value.
    ghost moves: { Self → V → C → C → Type 0 };

    /// Changes the value and the context. Nothing is promised of what is left of the change, nor,
    /// if memory runs out, of the value and the context.
    fn apply(&mut self, value: &mut V, context: &mut C) -> Result<(), AllocError>
        requires { fits self.old value.old context.old }
        ensures value { OnOk result (value.new ≡ after self.old value.old) }
        ensures context { OnOk result (moves self.old value.old context.old context.new) };
}

/// A change without a context.
#[derive(Drop)]
pub(crate) struct Alone<M> {
    /// None once it is made.
    pub(crate) change: Option<M>,
}

impl<V, M: Modify<V>> ModifyWith<V, ()> for Alone<M> {
    ghost fits = { λ change v context. ⊤ };

    ghost after = { λ alone. changed_by M.after alone.change };

    ghost moves = { λ change v before after. ⊤ };

    fn apply(&mut self, value: &mut V, context: &mut ()) -> Result<(), AllocError> {
        let _ = context;
        match self.change.take() {
            Some(change) => change.apply(value),
            None => Err(AllocError),
        }
    }
}
