//! What an event that isn't refused makes of the tables of two generations.
ghost use Rattle.std.specs.Prelude.{◌≡◌, ◌<◌, IfOk};
ghost use Rattle.tt_db.specs.Limits.{max_limits};
ghost use Rattle.tt_db.specs.Transition.{Allows, IsTransition};

use crate::event::Event;
use crate::outcome::Outcome;
use std::alloc::AllocError;
use tt_generations::Generations;

/// Carries out an event on the tables, whose current generation has this number, and returns its
/// outcome.
pub(crate) fn carry_out(
    generations: &mut Generations,
    generation: &mut u64,
    event: &Event,
) -> Result<Outcome, AllocError>
    requires allowed { Allows generations.old event.now }
    requires small { generation.old < max_limits.events }
    ensures transition { IfOk result (IsTransition generations.old generation.old event.now
        generations.new generation.new) }
    ensures catalog { generations.new.catalog ≡ generations.old.catalog }
{
    match event {
        Event::Write(action) => {
            let replies = generations.write(action.clone()?)?;
            let slot = generations.len();
            Ok(Outcome::Written { slot, replies })
        }
        Event::Begin(edits) => {
            generations.begin(edits.clone()?)?;
            Ok(Outcome::Begun)
        }
        Event::Step => {
            let rerun = generations.step()?;
            let slot = generations.done();
            Ok(Outcome::Stepped { slot, rerun })
        }
        Event::Switch => switch(generations, generation),
        Event::Abort => {
            generations.abort()?;
            Ok(Outcome::Aborted)
        }
    }
}

/// Switches to the next generation, whose number is the next one.
fn switch(generations: &mut Generations, generation: &mut u64) -> Result<Outcome, AllocError>
    requires allowed { Allows generations.old Event.Switch }
    requires small { generation.old < max_limits.events }
    ensures transition { IfOk result (IsTransition generations.old generation.old Event.Switch
        generations.new generation.new) }
    ensures catalog { generations.new.catalog ≡ generations.old.catalog }
{
    let rerun = generations.reexecuted();
    let slots = generations.len();
    generations.switch()?;
    *generation += 1;
    Ok(Outcome::Switched {
        generation: *generation,
        slots,
        rerun,
    })
}
