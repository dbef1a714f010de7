ghost use Rattle.std.specs.Prelude.{◌≡◌, true, false, IfOk};

use crate::items::Items;
use crate::statement::Write;
use std::alloc::AllocError;

/// Writes that are carried out in order, at one time: each of them sees the rows that the ones
/// before it left.
#[derive(Clone, Debug, PartialEq, Drop)]
pub struct Action {
    pub writes: Items<Write>,
    /// Whether the action is carried out wholly or not at all. If one of the writes of a whole
    /// action has no effect, as an insert of a key that is there or an update that matches no row,
    /// then the action writes nothing, and the writes after that one aren't carried out.
    pub whole: bool,
}

impl Action {
    /// The action of these writes, each of which is carried out. Allocates nothing.
    pub fn of(writes: Items<Write>) -> Action
        ensures { result ≡ record { writes = writes; whole = false } }
    {
        Action {
            writes,
            whole: false,
        }
    }

    /// The action of these writes that is carried out wholly or not at all. Allocates nothing.
    pub fn whole(writes: Items<Write>) -> Action
        ensures { result ≡ record { writes = writes; whole = true } }
    {
        Action {
            writes,
            whole: true,
        }
    }

    /// An equal action, which shares its writes with this one.
    pub fn copy(&self) -> Result<Action, AllocError>
        ensures { IfOk result (λ copy. copy ≡ self.now) }
    {
        self.clone()
    }
}
