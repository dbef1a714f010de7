ghost use Rattle.std.specs.Prelude.{◌≡◌, ◌<◌, ◌+◌, [], ◌∷◌, ◌++◌, length, take, drop, IsTrue, IsFalse, IfOk, OnOk, OnErr};
ghost use Rattle.std.specs.Option.{option_copied};
ghost use Rattle.tt_versions.specs.Versions.{started_by, started_before, HaveStarted, NoneHasStarted, StartsRise};

use crate::pace::Pace;
use crate::version::Version;
use std::alloc::{AllocError, Global};
use std::marker::Model;
use tt_pages::PagedLog;
use tt_values::Row;

/// A list of versions of one row, earlier ones first. Contracts see the list.
#[derive(Debug, Drop)]
pub(crate) struct VersionLog {
    versions: PagedLog<Version>,
}

impl Model for VersionLog {
    ghost use Rattle.std.specs.Prelude.{List};
    ghost use Rattle.tt_versions.specs.declared.version.Version.{Version};
    ghost use Rattle.tt_versions.specs.Versions.{StartsRise};

    ghost Value = { List Version };

    ghost view = { λ log. log.versions };

    ghost invariant = { λ log. StartsRise log.versions };
}

impl VersionLog {
    ghost use Rattle.tt_versions.specs.Versions.{visible_row};

    pub(crate) fn new(alloc: Global) -> VersionLog
        ensures { result ≡ [] }
    {
        VersionLog {
            versions: PagedLog::new(alloc),
        }
    }

    /// The row at the time.
    pub(crate) fn at(&self, time: u64) -> Option<&Row>
        ensures { option_copied result ≡ visible_row time self.now }
    {
        let position = self.count_by(time).checked_sub(1)?;
        let version = self.versions.get(position)?;
        match &version.row {
            Some(row) => Some(row),
            None => None,
        }
    }

    /// Puts a version behind the others, none of which starts after it. Without memory the list
    /// stays.
    pub(crate) fn push(&mut self, version: Version) -> Result<(), AllocError>
        requires { StartsRise (self.old ++ version ∷ []) }
        ensures ok { OnOk result (self.new ≡ self.old ++ version ∷ []) }
        ensures err { OnErr result (self.new ≡ self.old) }
    {
        self.versions.push(version)?;
        Ok(())
    }

    /// The versions that started before the time.
    pub(crate) fn before(&self, time: u64) -> Result<VersionLog, AllocError>
        ensures { IfOk result (λ log. log ≡ started_before time self.now) }
    {
        let count = self.count_before(time);
        let versions = self.versions.front(count)?;
        Ok(VersionLog { versions })
    }

    /// Whether it ends before the time: all of its versions started before.
    pub(crate) fn ends_before(&self, time: u64) -> bool
        ensures { IsTrue result → started_before time self.now ≡ self.now }
    {
        self.count_before(time) == self.versions.len()
    }

    /// How many versions started before the time.
    fn count_before(&self, time: u64) -> usize
        ensures { started_before time self.now ≡ take result self.now }
    {
        match time.checked_sub(1) {
            Some(earlier) => self.count_by(earlier),
            None => 0,
        }
    }

    /// How many versions started by the time.
    fn count_by(&self, time: u64) -> usize
        ensures count { result ≡ length (started_by time self.now) }
        ensures front { started_by time self.now ≡ take result self.now }
    {
        let mut low = 0;
        let mut high = self.versions.len();
        let mut pace = Pace::new();
        // The latest of them is at hand.
        if high > 0 {
            let (has_started, start) = self.has_started(high - 1, time);
            if has_started {
                return high;
            }
            high -= 1;
            pace = pace.before(start);
        }
        while low < high {
            let middle = pace.place_of(time, low, high);
            let (has_started, start) = self.has_started(middle, time);
            if has_started {
                low = middle + 1;
                pace = pace.after(start);
            } else {
                high = middle;
                pace = pace.before(start);
            }
        }
        low
    }

    /// Whether the version at a position started by the time, and when it started.
    #[tactic(auto, using(crate::proofs::VersionsLemmas::has_started))]
    fn has_started(&self, position: usize, time: u64) -> (bool, u64)
        requires { position < length self.now }
        ensures front { IsTrue result.0 → HaveStarted time (take (position + 1) self.now) }
        ensures rest { IsFalse result.0 → NoneHasStarted time (drop position self.now) }
    {
        match self.versions.get(position) {
            Some(version) => (version.start <= time, version.start),
            None => (false, 0),
        }
    }
}

/// A clone is another owner of the same versions.
impl Clone for VersionLog {
    ghost use Rattle.std.specs.Prelude.{◌≡◌};

    ghost is_clone = { λ source copy. copy ≡ source };

    fn clone(&self) -> Result<Self, AllocError> {
        let versions = self.versions.share()?;
        Ok(VersionLog { versions })
    }
}
