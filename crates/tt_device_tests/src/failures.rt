//! How often a device has failed, and when it is to fail.
ghost use Rattle.std.specs.Prelude.{◌≡◌, ◌+◌, Ok, IfOk};
ghost use Rattle.tt_log.specs.Device.{CountsFailure};

use std::alloc::AllocError;
use std::sync::Wait;
use tt_log::DeviceError;

/// A count of failures. The one that would be the 2^64th never returns.
#[derive(Drop)]
pub(crate) struct Failures<'a, R: Wait> {
    rt: &'a R,
    count: u64,
    /// How many further calls succeed before one fails, if one is to fail.
    calls_left: Option<u64>,
}

impl<'a, R: Wait> Failures<'a, R> {
    /// No failure so far. The call behind so many others fails, once.
    pub(crate) fn new(rt: &'a R, calls_left: Option<u64>) -> Failures<'a, R>
        ensures { result.count ≡ 0 }
    {
        Failures {
            rt,
            count: 0,
            calls_left,
        }
    }

    /// Counts a failure, or never returns where there is no number for it.
    pub(crate) fn add(&mut self) -> DeviceError
        ensures { self.new.count ≡ self.old.count + 1 }
    {
        let Some(count) = self.count.checked_add(1) else {
            for _ in self.rt.forever() {}
            unreachable!()
        };
        self.count = count;
        DeviceError
    }

    /// Counts a call, which fails if it is the one that is to fail.
    pub(crate) fn call(&mut self) -> Result<(), DeviceError>
        ensures { CountsFailure self.old.count self.new.count result }
    {
        match self.calls_left {
            None => Ok(()),
            Some(0) => {
                self.calls_left = None;
                Err(self.add())
            }
            Some(left) => {
                self.calls_left = Some(left - 1);
                Ok(())
            }
        }
    }

    /// Takes it for a failure that memory has run out.
    pub(crate) fn with_memory<T>(
        &mut self,
        outcome: Result<T, AllocError>,
    ) -> Result<T, DeviceError>
        ensures failed { CountsFailure self.old.count self.new.count result }
        ensures ok { IfOk result (λ value. outcome ≡ Ok value) }
    {
        match outcome {
            Ok(value) => Ok(value),
            Err(_) => Err(self.add()),
        }
    }
}
