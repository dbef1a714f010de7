//! Answers whose lines are logged.
ghost use Rattle.std.specs.Prelude.{◌≡◌, ◌↔◌, OnOk, OnErr};
ghost use Rattle.tt_log.specs.Log.{IsSettled};
ghost use Rattle.tt_durable.specs.OnLog.{HandedOnLog, StoppedOnLog};
ghost use Rattle.tt_durable.specs.Renewing.{HandsOverAlone, FailsAlone};

use crate::log_renewal::{RenewFault, make_anew};
use std::alloc::Global;
use tt_lines::{Forgotten, Outlet, OutletError, Renewal};
use tt_log::{Device, Lines, Log, LogError};

/// The outlet of a session with a log.
#[derive(Drop)]
pub(crate) struct LogOutlet<D> {
    log: Log<D>,
    /// Why it has failed, if it has.
    error: Option<LogError>,
}

impl<D: Device> LogOutlet<D> {
    ghost use Rattle.std.specs.Prelude.{None};

    /// Hands over what a log's device takes.
    pub(crate) fn new(log: Log<D>) -> LogOutlet<D>
        ensures log { result.log ≡ log }
        ensures error { result.error ≡ None }
    {
        LogOutlet { log, error: None }
    }

    /// Hands over a text for which nothing is logged.
    fn hand_over_alone(&mut self, alloc: Global, text: &[u8]) -> Result<(), OutletError>
        requires { D.tells self.old.log.device → IsSettled D.seen D.may_leave self.old.log }
        ensures ok { OnOk result (D.tells self.old.log.device
            → HandsOverAlone D.Device self.old.log self.new.log text.now) }
        ensures err { OnErr result (D.tells self.old.log.device
            → FailsAlone self.new.error D.Device self.old.log self.new.log text.now) }
        ensures tells { D.tells self.old.log.device ↔ D.tells self.new.log.device }
    {
        match self.log.hand_over(&Lines::new(alloc), text) {
            Ok(()) => Ok(()),
            Err(error) => {
                self.error = Some(error);
                Err(OutletError)
            }
        }
    }

    /// The log, and why it has failed, if it has.
    pub(crate) fn into_parts(self) -> (Log<D>, Option<LogError>)
        ensures log { result.0 ≡ self.log }
        ensures error { result.1 ≡ self.error }
    {
        (self.log, self.error)
    }
}

impl<D: Device> Outlet for LogOutlet<D> {
    ghost has_log = { Unit {0} };

    ghost is_ready = { λ o. D.tells o.log.device → IsSettled D.seen D.may_leave o.log };

    ghost handed = { λ before after start reads. D.tells before.log.device → HandedOnLog D.Device
        before.log.device after.log.device start reads };

    ghost stopped = { λ before after start reads. D.tells before.log.device → StoppedOnLog
        after.error D.Device before.log.device after.log.device start reads };

    fn hand_over(&mut self, lines: &Lines, text: &[u8]) -> Result<(), OutletError> {
        match self.log.hand_over(lines, text) {
            Ok(()) => Ok(()),
            Err(error) => {
                self.error = Some(error);
                Err(OutletError)
            }
        }
    }

    fn hand_over_anew(
        &mut self,
        alloc: Global,
        forgotten: &Forgotten<'_>,
    ) -> Result<Renewal, OutletError> {
        let Forgotten {
            forgetting,
            terms,
            text,
            refusal,
        } = *forgotten;
        match make_anew(alloc, &mut self.log, forgetting, terms) {
            Ok(()) => {
                self.hand_over_alone(alloc, text)?;
                Ok(Renewal::MadeAnew)
            }
            Err(RenewFault::Kept) => {
                self.hand_over_alone(alloc, refusal)?;
                Ok(Renewal::Refused)
            }
            Err(RenewFault::Memory) => Ok(Renewal::OutOfMemory),
            Err(RenewFault::Lost) => {
                self.error = Some(LogError::Write);
                Err(OutletError)
            }
        }
    }
}
