//! A change of slots: the other slot is filled and becomes the live one.
ghost use Rattle.std.specs.Prelude.{◌≡◌, ◌≤◌, ◌<◌, ◌+◌, ◌^◌, ℕ, length, OnOk, IfOk};
ghost use Rattle.store_disk.specs.Moments.{LeavesOnly};
ghost use Rattle.store_disk.specs.Stops.{Counted, Each, Follows, From};
ghost use Rattle.store_disk.specs.Gates.{IsClosedAt};
ghost use Rattle.store_slots.specs.Handles.{body_in, first_area, generation_in, generation_of, live_of, other_of, other_slot, second_of, slot_of, HasSomeSlots};
ghost use Rattle.store_project.specs.Places.{IsInOrder};
ghost use Rattle.store_project.specs.Turns.{MayTurn, Turns};

use crate::places::Parts;
use store_disk::{DeviceFault, Disk};
use store_slots::{Image, Slots};

// Puts the image into the other slot, and makes that the live one, with an empty journal.
pub fn turn<D: Disk>(
    disk: &mut D,
    slots: Slots,
    parts: Parts,
    image: &Image,
) -> Result<Slots, DeviceFault>
    requires order { IsInOrder parts }
    requires live_is { live_of slots ≡ parts.live }
    requires other_is { other_of slots ≡ parts.other }
    requires behind { (second_of slots).base + (second_of slots).length ≤ parts.other_journal.base }
    requires slots { Each (D.may_leave disk.old) (HasSomeSlots slots) }
    requires next { generation_in image.now ≡ generation_of slots + 1 }
    requires number { generation_of slots + 1 < 2 ^ 64 }
    requires fits { 13 + length (body_in image.now) ≤ (other_of slots).length }
    ensures turned { OnOk result
        ((cap : ℕ) → Follows (Turns cap (generation_of slots) parts (body_in image.now))
        (D.may_leave disk.old) (D.may_leave disk.new)) }
    ensures ready { IfOk result (λ s. Each (D.may_leave disk.new) (HasSomeSlots s)) }
    ensures begins { OnOk result
        (Each (D.may_leave disk.new) (IsClosedAt parts.other_journal.base)) }
    ensures areas { IfOk result
        (λ s. (first_area s ≡ first_area slots) × (second_of s ≡ second_of slots)) }
    ensures live { IfOk result (λ s. (live_of s ≡ parts.other) × (other_of s ≡ parts.live)) }
    ensures slot { IfOk result (λ s. slot_of s ≡ other_slot (slot_of slots)) }
    ensures generation { IfOk result (λ s. generation_of s ≡ generation_of slots + 1) }
    ensures any_moment { (cap : ℕ) → LeavesOnly D.Disk disk.old disk.new
        (From (D.may_leave disk.old) (MayTurn cap (generation_of slots) parts
        (body_in image.now))) }
    ensures count { Counted (D.failures disk.old) (D.failures disk.new) result }
{
    let closed = slots.close_other(disk, image)?;
    let filled = closed.fill(disk, image, parts.other_journal)?;
    filled.open_other(disk)
}
