//! Search in rising numbers.
ghost use Rattle.std.specs.Prelude.{◌≡◌};
ghost use Rattle.tt_generations.specs.ReexecutedSlots.{begins_above, DividesAt};

use tt_pages::PagedLog;

/// How many of these numbers, which rise, are at most `number`. Takes no memory, and time
/// logarithmic in their count.
#[tactic(auto, using(crate::proofs::ReexecutedSlotsLemmas::divided))]
pub(crate) fn count_up_to(numbers: &PagedLog<u64>, number: u64) -> usize
    ensures { DividesAt numbers.now number result }
{
    let mut low = 0;
    let mut high = numbers.len();
    while low < high {
        let middle = low + (high - low) / 2;
        if is_above(numbers, middle, number) {
            high = middle;
        } else {
            low = middle + 1;
        }
    }
    low
}

/// Whether the item at a place is above a number. So it is past the end, too.
fn is_above(numbers: &PagedLog<u64>, place: usize, number: u64) -> bool
    ensures { result ≡ begins_above numbers.now number place }
{
    match numbers.get(place) {
        Some(found) => *found > number,
        None => true,
    }
}
