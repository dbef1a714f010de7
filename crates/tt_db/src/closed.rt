//! Closed generations: those that a switch has replaced, and that stay readable.
ghost use Rattle.std.specs.Prelude.{◌≡◌, ◌==◌, find, IfOk};
ghost use Rattle.std.specs.Option.{option_copied, option_map};
ghost use Rattle.tt_db.specs.State.{last_items, with_closed};
ghost use Rattle.tt_db.specs.ClosedGenerations.{oldest_kept};

use std::alloc::{AllocError, Global};
use std::marker::Model;
use tt_generations::Generations;
use tt_pages::{Kept, PagedLog};

/// A generation that a switch has closed.
#[derive(Drop)]
pub(crate) struct ClosedGeneration {
    number: u64,
    /// The two generations just before the switch. The closed one is the current one of them.
    generations: Generations,
}

impl Model for ClosedGeneration {
    ghost use Rattle.tt_db.specs.ClosedGenerations.{KeptGeneration};

    ghost Value = { KeptGeneration };

    ghost view = { λ c. record { number = c.number; generations = c.generations } };
}

impl ClosedGeneration {
    fn number(&self) -> u64
        ensures { result ≡ self.now.number }
    {
        self.number
    }

    fn generations(&self) -> &Generations
        ensures { result.now ≡ self.now.generations }
    {
        &self.generations
    }
}

/// Another owner of the same slots and rows.
impl Kept for ClosedGeneration {
    fn kept(&self) -> Result<Self, AllocError> {
        let generations = self.generations.share()?;
        Ok(ClosedGeneration {
            number: self.number,
            generations,
        })
    }
}

/// The closed generations and the current one, of this number, beside those that there are. The
/// oldest are left out, so that at most `keep` are kept. Copies no slot and no row.
pub(crate) fn with_closed(
    alloc: Global,
    keep: u32,
    closed: &PagedLog<ClosedGeneration>,
    number: u64,
    generations: &Generations,
) -> Result<PagedLog<ClosedGeneration>, AllocError>
    ensures { IfOk result (λ log. log ≡ with_closed keep closed.now
        (record { number = number; generations = generations.now })) }
{
    let Some(others) = keep.checked_sub(1) else {
        return Ok(PagedLog::new(alloc));
    };
    let mut kept = last_of(alloc, closed, others as usize)?;
    let generations = generations.share()?;
    kept.push(ClosedGeneration {
        number,
        generations,
    })?;
    Ok(kept)
}

/// The last `count` closed generations, or all where there are fewer, beside those that there are.
fn last_of(
    alloc: Global,
    closed: &PagedLog<ClosedGeneration>,
    count: usize,
) -> Result<PagedLog<ClosedGeneration>, AllocError>
    ensures { IfOk result (λ log. log ≡ last_items count closed.now) }
{
    let mut last = PagedLog::new(alloc);
    let first = closed.len().saturating_sub(count);
    for position in first..closed.len() {
        let Some(generation) = closed.get(position) else {
            unreachable!();
        };
        let generation = generation.kept()?;
        last.push(generation)?;
    }
    Ok(last)
}

/// The number of the oldest generation that can be read, where the current one has this number.
pub(crate) fn oldest_of(closed: &PagedLog<ClosedGeneration>, current: u64) -> u64
    ensures { result ≡ oldest_kept closed.now current }
{
    match closed.get(0) {
        Some(oldest) => oldest.number(),
        None => current,
    }
}

/// The closed generation of a number, as the current one of two, if it is kept.
pub(crate) fn closed_of(closed: &PagedLog<ClosedGeneration>, number: u64) -> Option<&Generations>
    ensures { option_copied result
        ≡ option_map (λ c. c.generations) (find (λ c. c.number == number) closed.now) }
{
    for position in 0..closed.len() {
        let Some(generation) = closed.get(position) else {
            unreachable!();
        };
        if generation.number() == number {
            return Some(generation.generations());
        }
    }
    None
}
