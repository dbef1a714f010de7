use std::alloc::AllocError;
use tt_generations::Edit;
use tt_pages::Kept;
use tt_values::{Action, Items};

/// What a worker asks the database to do.
#[derive(Debug, PartialEq, Drop)]
pub enum Event {
    /// An action, which is carried out as one slot of the current generation.
    Write(Action),
    /// A repair begins, with these edits of slots.
    Begin(Items<Edit>),
    /// The repair does its next slot, and re-executes it if it is due.
    Step,
    /// The next generation becomes the current one.
    Switch,
    /// The repair is given up.
    Abort,
}

/// An event with the number of the worker that asked for it. Accepted entries make up the history.
#[derive(Debug, PartialEq, Drop)]
pub struct Entry {
    pub worker: u32,
    pub event: Event,
}

impl Clone for Event {
    ghost use Rattle.std.specs.Prelude.{◌≡◌};

    ghost is_clone = { λ source copy. copy ≡ source };

    #[inline(always)]
    fn clone(&self) -> Result<Self, AllocError> {
        match self {
            Event::Write(action) => {
                let action = action.clone()?;
                Ok(Event::Write(action))
            }
            Event::Begin(edits) => {
                let edits = edits.clone()?;
                Ok(Event::Begin(edits))
            }
            Event::Step => Ok(Event::Step),
            Event::Switch => Ok(Event::Switch),
            Event::Abort => Ok(Event::Abort),
        }
    }
}

impl Clone for Entry {
    ghost use Rattle.std.specs.Prelude.{◌≡◌};

    ghost is_clone = { λ source copy. copy ≡ source };

    #[inline(always)]
    fn clone(&self) -> Result<Self, AllocError> {
        let event = self.event.clone()?;
        Ok(Entry {
            worker: self.worker,
            event,
        })
    }
}

impl Kept for Entry {
    #[inline(always)]
    fn kept(&self) -> Result<Self, AllocError> {
        self.clone()
    }
}
