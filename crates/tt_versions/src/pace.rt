//! Where a search looks next.
ghost use Rattle.std.specs.Prelude.{◌<◌, ◌≤◌};

/// After this many guesses a search halves the versions that are left, in case they have no even
/// pace.
const MAX_GUESSES: u32 = 8;

/// Rows are often written at an even pace, so the place of a time among the versions that a search
/// has left can be guessed from the times at their ends.
#[derive(Clone, Copy)]
pub(crate) struct Pace {
    earliest: u64,
    latest: u64,
    guesses: u32,
}

impl Pace {
    pub(crate) fn new() -> Pace {
        Pace {
            earliest: 0,
            latest: 0,
            guesses: 0,
        }
    }

    /// The versions that are left start after this time.
    pub(crate) fn after(self, time: u64) -> Pace {
        Pace {
            earliest: time,
            latest: self.latest,
            guesses: self.guesses.saturating_add(1),
        }
    }

    /// The versions that are left start before this time.
    pub(crate) fn before(self, time: u64) -> Pace {
        Pace {
            earliest: self.earliest,
            latest: time,
            guesses: self.guesses.saturating_add(1),
        }
    }

    /// A place among those that are left.
    pub(crate) fn place_of(&self, time: u64, low: usize, high: usize) -> usize
        requires { low < high }
        ensures from { low ≤ result }
        ensures to { result < high }
    {
        let count = high - low;
        match self.guess(time, count) {
            Some(guess) => low + guess.min(count - 1),
            None => low + count / 2,
        }
    }

    fn guess(&self, time: u64, count: usize) -> Option<usize> {
        if self.guesses > MAX_GUESSES {
            return None;
        }
        let ahead = time.checked_sub(self.earliest)?;
        let span = self.latest.checked_sub(self.earliest)?;
        let guess = ahead.checked_mul(count as u64)?.checked_div(span)?;
        usize::try_from(guess).ok()
    }
}
