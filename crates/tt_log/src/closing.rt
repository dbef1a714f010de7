//! How a log ends.
ghost use Rattle.std.specs.Prelude.{◌≡◌, ◌↔◌, ◌<◌, ◌≤◌, length, OnOk, OnErr};
ghost use Rattle.tt_log.specs.Device.{Only, LeavesOnly};
ghost use Rattle.tt_log.specs.Lines.{logged, joined, IsJoined};
ghost use Rattle.tt_log.specs.Log.{IsAtRest, Keeps};

use crate::{Device, DeviceError};

/// Cuts a file behind its lines, which end here, and syncs that.
pub(crate) fn end_file<D: Device>(device: &mut D, end: u64) -> Result<(), DeviceError>
    requires at_rest { D.tells device.old → IsAtRest (D.seen device.old) }
    requires durable { D.tells device.old → Only (D.seen device.old) (D.may_leave device.old) }
    requires end { D.tells device.old → end ≡ length (joined (logged (D.seen device.old))) }
    ensures tells { D.tells device.old ↔ D.tells device.new }
    ensures lines { D.tells device.old → OnOk result (IsJoined (D.seen device.new)) }
    ensures logged { D.tells device.old → OnOk result
        (logged (D.seen device.new) ≡ logged (D.seen device.old)) }
    ensures durable { D.tells device.old → OnOk result
        (Only (D.seen device.new) (D.may_leave device.new)) }
    ensures shown { D.tells device.old → D.shown device.new ≡ D.shown device.old }
    ensures any_moment { D.tells device.old → LeavesOnly D.moment D.left_since
        device.old device.new (Keeps (logged (D.seen device.old)) (D.shown device.old)) }
    ensures no_new { D.tells device.old
        → D.has_new_file device.new → D.has_new_file device.old }
    ensures failures { D.tells device.old → D.failures device.old ≤ D.failures device.new }
    ensures failed { D.tells device.old → OnErr result
        (D.failures device.old < D.failures device.new) }
{
    device.cut(end)?;
    device.sync()?;
    Ok(())
}
