//! Changes the live slot: closes, fills and opens the other slot. Each step is durable before the next begins.
ghost use Rattle.std.specs.Prelude.{◌≡◌, ◌≤◌, ◌<◌, ◌+◌, ◌^◌, length, false, true, OnOk, IfOk};
ghost use Rattle.store_disk.specs.Moments.{LeavesOnly};
ghost use Rattle.store_disk.specs.Stops.{Counted, Each, Follows, From};
ghost use Rattle.store_slots.specs.Handles.{body_in, closed_of, filled_of, finds_open, first_area, generation_in, generation_of, live_of, other_of, other_slot, second_of, slot_of, HasSomeSlots};
ghost use Rattle.store_slots.specs.Steps.{ClosesOther, Fills, HasClosed, HasFilled, KeepsLive, MayFill, MayOpenOther, OpensOther};

use crate::image::Image;
use crate::slots::Slots;
use store_disk::{Area, CLOSED_GATE, DeviceFault, Disk, OPEN_GATE, write_through};

/// Two slots after the first step of a change: the other slot is closed on the disk.
#[derive(Clone, Copy)]
pub struct Closed {
    slots: Slots,
}

/// Two slots after the second step of a change: the other slot is filled, and its gate is closed.
#[derive(Clone, Copy)]
pub struct Filled {
    slots: Slots,
}

impl Slots {
    /// Closes the other slot if it is open: one write, one sync. If it is closed already, it makes no device call,
    /// since a stop while the gate is written again might leave it open. It allocates no memory.
    pub fn close_other<D: Disk>(self, disk: &mut D, image: &Image) -> Result<Closed, DeviceFault>
        requires slots { Each (D.may_leave disk.old) (HasSomeSlots self) }
        requires next { generation_in image.now ≡ generation_of self + 1 }
        ensures ready { IfOk result (λ closed.
            Each (D.may_leave disk.new) (HasClosed (closed_of closed))) }
        ensures closed { OnOk result
            (Follows (ClosesOther self) (D.may_leave disk.old) (D.may_leave disk.new)) }
        ensures slots { IfOk result (λ closed. closed_of closed ≡ self) }
        ensures no_call { finds_open self ≡ false → disk.new ≡ disk.old }
        ensures any_moment { LeavesOnly D.Disk disk.old disk.new
            (From (D.may_leave disk.old) (KeepsLive self)) }
        ensures count { Counted (D.failures disk.old) (D.failures disk.new) result }
    {
        if self.other_is_open() {
            write_through(disk, self.other().base, &[CLOSED_GATE])?;
        }
        Ok(Closed { slots: self })
    }
}

impl Closed {
    /// Writes the image after the other slot's closed gate, and a closed first gate of the other journal, then
    /// syncs.
    pub fn fill<D: Disk>(
        self,
        disk: &mut D,
        image: &Image,
        journal: Area,
    ) -> Result<Filled, DeviceFault>
        requires ready { Each (D.may_leave disk.old) (HasClosed (closed_of self)) }
        requires next { generation_in image.now ≡ generation_of (closed_of self) + 1 }
        requires fits { 13 + length (body_in image.now) ≤ (other_of (closed_of self)).length }
        requires apart { (second_of (closed_of self)).base + (second_of (closed_of self)).length
            ≤ journal.base }
        requires some { 0 < journal.length }
        ensures ready { IfOk result (λ filled.
            Each (D.may_leave disk.new) (HasFilled (filled_of filled))) }
        ensures filled { OnOk result (Follows (Fills (closed_of self) (body_in image.now) journal)
            (D.may_leave disk.old) (D.may_leave disk.new)) }
        ensures slots { IfOk result (λ filled. filled_of filled ≡ closed_of self) }
        ensures any_moment { LeavesOnly D.Disk disk.old disk.new
            (From (D.may_leave disk.old) (MayFill (closed_of self) journal)) }
        ensures count { Counted (D.failures disk.old) (D.failures disk.new) result }
    {
        disk.write_at(self.slots.other().base + 1, image.bytes())?;
        write_through(disk, journal.base, &[CLOSED_GATE])?;
        Ok(Filled { slots: self.slots })
    }
}

impl Filled {
    /// Opens the other slot, which then is the live one: one write, one sync.
    pub fn open_other<D: Disk>(self, disk: &mut D) -> Result<Slots, DeviceFault>
        requires ready { Each (D.may_leave disk.old) (HasFilled (filled_of self)) }
        requires number { generation_of (filled_of self) + 1 < 2 ^ 64 }
        ensures opened { OnOk result
            (Follows (OpensOther (filled_of self)) (D.may_leave disk.old) (D.may_leave disk.new)) }
        ensures ready { IfOk result (λ s. Each (D.may_leave disk.new) (HasSomeSlots s)) }
        ensures areas { IfOk result (λ s. (first_area s ≡ first_area (filled_of self))
            × (second_of s ≡ second_of (filled_of self))) }
        ensures live { IfOk result (λ s. (live_of s ≡ other_of (filled_of self))
            × (other_of s ≡ live_of (filled_of self))) }
        ensures slot { IfOk result (λ s. slot_of s ≡ other_slot (slot_of (filled_of self))) }
        ensures generation { IfOk result
            (λ s. generation_of s ≡ generation_of (filled_of self) + 1) }
        ensures other { IfOk result (λ s. finds_open s ≡ true) }
        ensures any_moment { LeavesOnly D.Disk disk.old disk.new
            (From (D.may_leave disk.old) (MayOpenOther (filled_of self))) }
        ensures count { Counted (D.failures disk.old) (D.failures disk.new) result }
    {
        write_through(disk, self.slots.other().base, &[OPEN_GATE])?;
        Ok(self.slots.turned())
    }
}
