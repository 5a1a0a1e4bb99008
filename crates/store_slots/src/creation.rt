//! The two slots of a new file.
ghost use Rattle.std.specs.Prelude.{◌≡◌, ◌≤◌, ◌<◌, ◌+◌, ◌^◌, ◌++◌, ◌∷◌, length, false, OnOk, IfOk};
ghost use Rattle.store_disk.specs.Stops.{Counted, Follows};
ghost use Rattle.store_slots.specs.Bodies.{head_bytes};
ghost use Rattle.store_slots.specs.Handles.{finds_open, first_area, generation_of, live_of, other_of, second_of, slot_of};
ghost use Rattle.store_slots.specs.Steps.{IsFirst};

use crate::heads::{BEFORE_BODY, head_of};
use crate::slots::Slots;
use store_disk::{Area, CLOSED_GATE, DeviceFault, Disk, OPEN_GATE};

// An open gate, generation 1 and the length of a body.
fn first_head(len: u32) -> [u8; 13]
    ensures bytes { result ≡ 165 ∷ head_bytes 1 len }
    ensures count { len < 2 ^ 32 }
{
    let mut bytes = [OPEN_GATE; 13];
    bytes[1..].copy_from_slice(&head_of(1, len));
    bytes
}

/// Writes the body into the first slot, open and with generation 1, and closes the second. It doesn't sync, and
/// allocates no memory.
pub fn first<D: Disk>(disk: &mut D, a: Area, b: Area, body: &[u8]) -> Result<Slots, DeviceFault>
    requires fits { 13 + length body.now ≤ a.length }
    requires in_order { a.base + a.length ≤ b.base }
    requires some { 0 < b.length }
    ensures areas { IfOk result (λ s. (first_area s ≡ a) × (second_of s ≡ b)) }
    ensures live { IfOk result (λ s. (live_of s ≡ a) × (other_of s ≡ b)) }
    ensures which { IfOk result
        (λ s. (slot_of s ≡ 0) × (generation_of s ≡ 1) × (finds_open s ≡ false)) }
    ensures first { OnOk result
        (Follows (IsFirst a b body.now) (D.reads disk.old) (D.reads disk.new)) }
    ensures count { Counted (D.failures disk.old) (D.failures disk.new) result }
{
    disk.write_at(a.base, &first_head(body.len() as u32))?;
    disk.write_at(a.base + BEFORE_BODY, body)?;
    disk.write_at(b.base, &[CLOSED_GATE])?;
    Ok(Slots::fresh(a, b))
}
