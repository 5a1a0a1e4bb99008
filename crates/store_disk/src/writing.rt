//! A durable write, which the journal and the checkpoint share.
ghost use Rattle.std.specs.Prelude.{length, OnErr, OnOk};
ghost use Rattle.store_disk.specs.Files.{Failed, Torn, Written};
ghost use Rattle.store_disk.specs.Moments.{LeavesOnly};
ghost use Rattle.store_disk.specs.Stops.{Counted, Each, Follows, From, LeadsBy};

use crate::{DeviceFault, Disk};

/// Writes the bytes from `at` on, then syncs.
pub fn write_through<D: Disk>(disk: &mut D, at: u64, from: &[u8]) -> Result<(), DeviceFault>
    ensures done { OnOk result
        (Follows (Written at from.now) (D.may_leave disk.old) (D.may_leave disk.new)) }
    ensures durable { OnOk result (Each (D.may_leave disk.new) (D.reads disk.new)) }
    ensures written { OnOk result
        (Follows (Written at from.now) (D.reads disk.old) (D.reads disk.new)) }
    ensures leads { OnOk result
        (LeadsBy (Written at from.now) (D.reads disk.old) (D.reads disk.new)) }
    ensures failed { OnErr result
        (Follows (Failed at (length from.now)) (D.reads disk.old) (D.reads disk.new)) }
    ensures leads_failed { OnErr result
        (LeadsBy (Failed at (length from.now)) (D.reads disk.old) (D.reads disk.new)) }
    ensures any_moment { LeavesOnly D.Disk disk.old disk.new
        (From (D.may_leave disk.old) (Torn at (length from.now))) }
    ensures count { Counted (D.failures disk.old) (D.failures disk.new) result }
{
    disk.write_at(at, from)?;
    disk.sync()
}
