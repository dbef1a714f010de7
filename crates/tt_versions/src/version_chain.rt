ghost use Rattle.std.specs.Prelude.{◌≡◌, [], ◌∷◌, ◌++◌, IfOk, OnOk, OnErr};
ghost use Rattle.std.specs.Option.{option_copied};
ghost use Rattle.tt_versions.specs.Versions.{visible_row, started_before, StartsRise};
ghost use Rattle.tt_versions.specs.Chains.{log_versions, versions_of};

use crate::version::Version;
use crate::version_log::VersionLog;
use std::alloc::{AllocError, Global};
use std::marker::Model;
use std::mem;
use std::sync::Arc;
use tt_pages::Kept;
use tt_values::Row;

/// The versions of one row, earlier ones first. The newest is at hand, and the others are in a list
/// that chains share. Contracts see the list of all.
#[derive(Debug, Drop)]
pub(crate) struct VersionChain {
    alloc: Global,
    older: Option<Arc<VersionLog>>,
    newest: Option<Version>,
}

impl Model for VersionChain {
    ghost use Rattle.std.specs.Prelude.{List};
    ghost use Rattle.tt_versions.specs.declared.version.Version.{Version};
    ghost use Rattle.tt_versions.specs.Versions.{StartsRise};
    ghost use Rattle.tt_versions.specs.Chains.{versions_of};

    ghost Value = { List Version };

    ghost view = { λ c. versions_of c.older c.newest };

    ghost invariant = { λ c. StartsRise (versions_of c.older c.newest) };
}

impl VersionChain {
    ghost use Rattle.tt_versions.specs.Versions.{with_write, without_writes_from};

    pub(crate) fn new(alloc: Global) -> VersionChain
        ensures { result ≡ [] }
    {
        VersionChain {
            alloc,
            older: None,
            newest: None,
        }
    }

    pub(crate) fn allocator(&self) -> Global {
        self.alloc
    }

    /// The row at the time.
    pub(crate) fn at(&self, time: u64) -> Option<&Row>
        ensures { option_copied result ≡ visible_row time self.now }
    {
        match &self.newest {
            Some(version) if version.start <= time => row_of(version),
            _ => row_among(&self.older, time),
        }
    }

    /// Writes that row, or none, from the time on. Without memory the chain may be any.
    pub(crate) fn write(&mut self, row: Option<Row>, time: u64) -> Result<(), AllocError>
        ensures { OnOk result (self.new ≡ with_write row time self.old) }
    {
        if let Some(newest) = &mut self.newest {
            if newest.start < time {
                let before = mem::replace(newest, Version { start: time, row });
                return add_version(self.alloc, &mut self.older, Some(before));
            }
        }
        self.write_over(row, time)
    }

    /// Writes that row, or none, in place of the versions from the time on. Without memory the
    /// chain may be any.
    fn write_over(&mut self, row: Option<Row>, time: u64) -> Result<(), AllocError>
        ensures { OnOk result (self.new ≡ with_write row time self.old) }
    {
        self.drop_writes_from(time)?;
        add_version(self.alloc, &mut self.older, self.newest.take())?;
        self.newest = Some(Version { start: time, row });
        Ok(())
    }

    /// Drops the versions from the time on. Without memory the chain may be any.
    pub(crate) fn drop_writes_from(&mut self, time: u64) -> Result<(), AllocError>
        ensures { OnOk result (self.new ≡ without_writes_from time self.old) }
    {
        if let Some(version) = &self.newest {
            if version.start < time {
                return Ok(());
            }
        }
        self.newest = None;
        keep_before(self.alloc, &mut self.older, time)
    }

    /// Another owner of the same versions.
    #[inline(always)]
    pub(crate) fn share(&self) -> Result<VersionChain, AllocError>
        ensures { IfOk result (λ c. c ≡ self.now) }
    {
        let older = match &self.older {
            Some(log) => Some(Arc::try_clone(log)?),
            None => None,
        };
        let newest = match &self.newest {
            Some(version) => Some(version.kept()?),
            None => None,
        };
        Ok(VersionChain {
            alloc: self.alloc,
            older,
            newest,
        })
    }
}

/// A clone is another owner of the same versions.
impl Clone for VersionChain {
    ghost use Rattle.std.specs.Prelude.{◌≡◌};

    ghost is_clone = { λ source copy. copy ≡ source };

    fn clone(&self) -> Result<Self, AllocError> {
        self.share()
    }
}

/// The row of a version.
fn row_of(version: &Version) -> Option<&Row>
    ensures { option_copied result ≡ version.now.row }
{
    match &version.row {
        Some(row) => Some(row),
        None => None,
    }
}

/// The row at the time, if these are all versions.
fn row_among(older: &Option<Arc<VersionLog>>, time: u64) -> Option<&Row>
    ensures { option_copied result ≡ visible_row time (log_versions older.now) }
{
    match older {
        Some(log) => log.at(time),
        None => None,
    }
}

/// Puts a version, if there is one, behind the others. Without memory these stay.
fn add_version(
    alloc: Global,
    older: &mut Option<Arc<VersionLog>>,
    version: Option<Version>,
) -> Result<(), AllocError>
    requires { StartsRise (versions_of older.old version) }
    ensures ok { OnOk result (log_versions older.new ≡ versions_of older.old version) }
    ensures err { OnErr result (log_versions older.new ≡ log_versions older.old) }
{
    let Some(version) = version else {
        return Ok(());
    };
    match older {
        Some(log) => push_to(log, version),
        None => {
            let mut log = VersionLog::new(alloc);
            log.push(version)?;
            *older = Some(Arc::new(alloc, log)?);
            Ok(())
        }
    }
}

fn push_to(log: &mut Arc<VersionLog>, version: Version) -> Result<(), AllocError>
    requires { StartsRise (log.old.value ++ version ∷ []) }
    ensures ok { OnOk result (log.new.value ≡ log.old.value ++ version ∷ []) }
    ensures err { OnErr result (log.new.value ≡ log.old.value) }
{
    Arc::make_mut(log)?.push(version)
}

/// Keeps the versions that started before the time. Without memory all stay.
fn keep_before(
    alloc: Global,
    older: &mut Option<Arc<VersionLog>>,
    time: u64,
) -> Result<(), AllocError>
    ensures ok { OnOk result
        (log_versions older.new ≡ started_before time (log_versions older.old)) }
    ensures err { OnErr result (log_versions older.new ≡ log_versions older.old) }
{
    let Some(log) = older else {
        return Ok(());
    };
    if log.ends_before(time) {
        return Ok(());
    }
    let before = log.before(time)?;
    *older = Some(Arc::new(alloc, before)?);
    Ok(())
}
