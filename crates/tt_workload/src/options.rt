ghost use Rattle.std.specs.Prelude.{◌≡◌};

/// How a run repairs, and what its report shows.
#[derive(Clone, Copy, Debug, PartialEq, Eq)]
pub struct Options {
    /// The largest number of steps of a repair that are made before one call, or in one publish:
    /// 1 to 10,000.
    pub batch: u32,
    /// The largest number of rounds of catching up before a repair is finished, 0 to 1,000.
    pub rounds: u32,
    /// Whether the closed generations that are kept are printed.
    pub closed: bool,
    /// Whether the slots that the repair re-executed are printed, each with its cause.
    pub why: bool,
    /// Whether the rows that differ between the generations by the repair are printed.
    pub diff: bool,
    /// Whether the repair of a replay is given up before its switch, so that its report tells what
    /// would be. A run in threads doesn't read it.
    pub dry: bool,
    /// Whether the lines of the report are JSON.
    pub json: bool,
}

impl Options {
    ghost use Rattle.std.specs.Prelude.{◌↔◌, IsTrue};
    ghost use Rattle.tt_workload.specs.Options.{usual, AreWithin};

    /// The options where none is given: batch 16, rounds 8, no closed generation, no causes
    /// and no differences, the repair switches, and the report is text.
    pub const fn usual() -> Options
        ensures { result ≡ usual }
    {
        Options {
            batch: 16,
            rounds: 8,
            closed: false,
            why: false,
            diff: false,
            dry: false,
            json: false,
        }
    }

    /// Whether both numbers are within their ranges.
    pub fn fits(&self) -> bool
        ensures { IsTrue result ↔ AreWithin self.now }
    {
        1 <= self.batch && self.batch <= 10_000 && self.rounds <= 1_000
    }
}
