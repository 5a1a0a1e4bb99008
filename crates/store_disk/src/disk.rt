//! A disk as the layers above see it: what a read returns, and what a stop may leave.
ghost use Rattle.std.specs.Prelude.{◌≡◌, ◌≤◌, ◌+◌, List, ℕ, length, OnOk, OnErr, IfOk};
ghost use Rattle.store_disk.specs.Files.{Failed, HasAt, Torn, Written};
ghost use Rattle.store_disk.specs.Stops.{Counted, Each, Elapses, Follows, LeadsBy};

use crate::DeviceFault;

/// A file on a device that may stop, before or within any call.
///
/// Offsets and lengths are in bytes. If contracts can't see a disk's bytes, as with a real file, the sets `reads`,
/// `may_leave` and `left_since` are empty.
pub trait Disk {
    /// The files that reads may show: a single file for a disk in memory.
    ghost reads: { Self → List ℕ → Type 0 };

    /// A stop now may leave this file.
    ghost may_leave: { Self → List ℕ → Type 0 };

    /// The current moment, as a number that never falls.
    ghost moment: { Self → ℕ };

    /// A stop at some moment since the given one might have left this file.
    ghost left_since: { Self → ℕ → List ℕ → Type 0 };

    /// How many calls of the disk have failed.
    ghost failures: { Self → ℕ };

    /// The length of the file.
    fn len(&mut self) -> Result<u64, DeviceFault>
        ensures told { IfOk result (λ n. Each (reads self.old) (λ file. n ≡ length file)) }
        ensures reads { Each (reads self.new) (reads self.old) }
        ensures still { Each (reads self.old) (reads self.new) }
        ensures images { Each (may_leave self.new) (may_leave self.old) }
        ensures kept { Each (may_leave self.old) (may_leave self.new) }
        ensures time { Elapses (moment self.old) (moment self.new)
            (left_since self.old) (left_since self.new) (may_leave self.new) }
        ensures count { Counted (failures self.old) (failures self.new) result };

    /// Fills `into` with the bytes from `at` on. After a fault `into` may hold anything.
    fn read(&mut self, at: u64, into: &mut [u8]) -> Result<(), DeviceFault>
        requires { Each (reads self.old) (λ file. at + length into.old ≤ length file) }
        ensures told { OnOk result (Each (reads self.old) (HasAt at into.new)) }
        ensures reads { Each (reads self.new) (reads self.old) }
        ensures still { Each (reads self.old) (reads self.new) }
        ensures images { Each (may_leave self.new) (may_leave self.old) }
        ensures kept { Each (may_leave self.old) (may_leave self.new) }
        ensures time { Elapses (moment self.old) (moment self.new)
            (left_since self.old) (left_since self.new) (may_leave self.new) }
        ensures count { Counted (failures self.old) (failures self.new) result };

    /// Writes the bytes from `at` on. If `at` is past the end, the gap reads as zero. Writing no bytes changes
    /// nothing.
    fn write_at(&mut self, at: u64, from: &[u8]) -> Result<(), DeviceFault>
        ensures written { OnOk result
            (Follows (Written at from.now) (reads self.old) (reads self.new)) }
        ensures leads { OnOk result
            (LeadsBy (Written at from.now) (reads self.old) (reads self.new)) }
        ensures failed { OnErr result
            (Follows (Failed at (length from.now)) (reads self.old) (reads self.new)) }
        ensures leads_failed { OnErr result
            (LeadsBy (Failed at (length from.now)) (reads self.old) (reads self.new)) }
        ensures images { Follows (Torn at (length from.now)) (may_leave self.old)
            (may_leave self.new) }
        ensures kept { Each (may_leave self.old) (may_leave self.new) }
        ensures time { Elapses (moment self.old) (moment self.new)
            (left_since self.old) (left_since self.new) (may_leave self.new) }
        ensures count { Counted (failures self.old) (failures self.new) result };

    /// Makes all writes durable. A failed sync doesn't change what reads return.
    fn sync(&mut self) -> Result<(), DeviceFault>
        ensures durable { OnOk result (Each (may_leave self.new) (reads self.new)) }
        ensures reads { Each (reads self.new) (reads self.old) }
        ensures still { Each (reads self.old) (reads self.new) }
        ensures images { Each (may_leave self.new) (may_leave self.old) }
        ensures time { Elapses (moment self.old) (moment self.new)
            (left_since self.old) (left_since self.new) (may_leave self.new) }
        ensures count { Counted (failures self.old) (failures self.new) result };

    /// What a disk reads as is one of its images.
    ghost reads_an_image: { (disk : Self) (file : List ℕ) → reads disk file → may_leave disk file };

    /// What a stop now may leave, a stop since an earlier moment might have left.
    ghost counts_now: { (disk : Self) (t : ℕ) (file : List ℕ)
        → t ≤ moment disk → may_leave disk file → left_since disk t file };

    /// What a stop since the current moment might have left, a stop now may leave.
    ghost only_now: { (disk : Self) (file : List ℕ) → left_since disk (moment disk) file
        → may_leave disk file };
}
