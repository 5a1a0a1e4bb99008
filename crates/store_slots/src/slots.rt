//! Two slots of a file, one live.
ghost use Rattle.std.specs.Prelude.{◌≤◌, ◌<◌, ◌+◌};

use crate::CheckpointError;
use crate::heads::{BEFORE_BODY, Head, read_body, read_head};
use crate::image::Image;
use std::alloc::Global;
use store_disk::{Area, Disk};

/// A handle of two slots of a file: which slot is live, its generation, and whether the other one is open too. It
/// holds no disk.
#[derive(Clone, Copy)]
pub struct Slots {
    a: Area,
    b: Area,
    // 0 if the first slot is live, else the second is.
    slot: u8,
    generation: u64,
    other_is_open: bool,
    ghost in_order: { a.base + a.length ≤ b.base },
    ghost a_some: { 0 < a.length },
    ghost b_some: { 0 < b.length },
}

/// The live body that `Slots::open` found. Slot 0 is the first, 1 the second.
#[derive(Drop)]
pub struct Found {
    pub slot: u8,
    pub generation: u64,
    pub body: Vec<u8>,
}

impl Slots {
    ghost use Rattle.std.specs.Prelude.{◌≡◌, ◌≤◌, ◌<◌, ◌⊎◌, ◌↔◌, ◌+◌, ◌-◌, ◌^◌, List, ℕ, Option, length, false, true, OnOk, IfOk, IfErr, IsErrOf};
    ghost use Rattle.store_disk.specs.Stops.{CountsFaults, Each};
    ghost use Rattle.store_slots.specs.Bodies.{IsOpenWith};
    ghost use Rattle.store_slots.specs.Damage.{AreBlank, AreOneGeneration, AreSlotsDamagedAt};
    ghost use Rattle.store_slots.specs.Handles.{body_in, finds_open, first_area, generation_in, generation_of, live_of, other_of, other_slot, second_of, slot_of, HasSlots};
    ghost use Rattle.store_slots.specs.Heads.{HasRoom, HasHeads, ShowsHead};
    ghost use Rattle.store_disk.specs.Reading.{OnlyReads};
    ghost use Rattle.store_slots.specs.Refusals.{IfSlotDamaged, RefusesImage, RefusesToOpenSlots};

    // Chooses the live slot, and returns the length of its body too.
    fn choose(
        a: Area,
        b: Area,
        first: Option<Head>,
        second: Option<Head>,
    ) -> Result<(Slots, u32), CheckpointError>
        requires in_order { a.base + a.length ≤ b.base }
        requires a_some { 0 < a.length }
        requires b_some { 0 < b.length }
        requires first_fits { HasRoom a first }
        requires second_fits { HasRoom b second }
        ensures areas { IfOk result (λ r. (first_area r.0 ≡ a) × (second_of r.0 ≡ b)) }
        ensures which { IfOk result (λ r. slot_of r.0 ≤ 1) }
        ensures fits { IfOk result (λ r. 13 + r.1 ≤ (live_of r.0).length) }
        ensures heads { IfOk result (λ r. (file : List ℕ)
            → ShowsHead a first file → ShowsHead b second file → HasHeads r.0 r.1 file) }
        ensures blank { IsErrOf result CheckpointError.Blank
            → ((file : List ℕ) → ShowsHead a first file → ShowsHead b second file
            → AreBlank a b file) }
        ensures damaged { IfErr result (λ e. IfSlotDamaged e (λ place. (place ≡ b.base)
            × ((file : List ℕ) → ShowsHead a first file → ShowsHead b second file
            → AreOneGeneration a b file))) }
        ensures no_other { IfErr result (λ e.
            (e ≡ CheckpointError.Blank) ⊎ (e ≡ CheckpointError.Damaged b.base)) }
    {
        match (first, second) {
            (None, None) => Err(CheckpointError::Blank),
            (Some(head), None) => {
                let slots = Slots {
                    a,
                    b,
                    slot: 0,
                    generation: head.generation,
                    other_is_open: false,
                };
                Ok((slots, head.len))
            }
            (None, Some(head)) => {
                let slots = Slots {
                    a,
                    b,
                    slot: 1,
                    generation: head.generation,
                    other_is_open: false,
                };
                Ok((slots, head.len))
            }
            (Some(one), Some(other)) => Slots::choose_greater(a, b, one, other),
        }
    }

    // The same for two slots that are both open.
    fn choose_greater(
        a: Area,
        b: Area,
        one: Head,
        other: Head,
    ) -> Result<(Slots, u32), CheckpointError>
        requires in_order { a.base + a.length ≤ b.base }
        requires a_some { 0 < a.length }
        requires b_some { 0 < b.length }
        requires one_fits { 13 + one.len ≤ a.length }
        requires other_fits { 13 + other.len ≤ b.length }
        ensures areas { IfOk result (λ r. (first_area r.0 ≡ a) × (second_of r.0 ≡ b)) }
        ensures which { IfOk result (λ r. slot_of r.0 ≤ 1) }
        ensures fits { IfOk result (λ r. 13 + r.1 ≤ (live_of r.0).length) }
        ensures heads { IfOk result (λ r. (file : List ℕ)
            → IsOpenWith a one.generation one.len file
            → IsOpenWith b other.generation other.len file
            → HasHeads r.0 r.1 file) }
        ensures damaged { IfErr result (λ e. (e ≡ CheckpointError.Damaged b.base)
            × (one.generation ≡ other.generation)) }
    {
        if one.generation == other.generation {
            return Err(CheckpointError::Damaged { place: b.base });
        }
        if other.generation < one.generation {
            let slots = Slots {
                a,
                b,
                slot: 0,
                generation: one.generation,
                other_is_open: true,
            };
            Ok((slots, one.len))
        } else {
            let slots = Slots {
                a,
                b,
                slot: 1,
                generation: other.generation,
                other_is_open: true,
            };
            Ok((slots, other.len))
        }
    }

    /// Reads the live body of two slots of a fully synced disk. It writes nothing.
    ///
    /// `Damaged` has the offset of the damaged slot in the file. A slot is damaged if the file ends before its
    /// gate, or if it is open and its length is cut off by the end of the file, too great for the slot, or reaches
    /// past the end of the file. If both slots are open with the same generation, the second one is damaged.
    pub fn open<D: Disk>(
        alloc: Global,
        disk: &mut D,
        a: Area,
        b: Area,
    ) -> Result<(Slots, Found), CheckpointError>
        requires only { Each (D.may_leave disk.old) (D.reads disk.old) }
        requires in_order { a.base + a.length ≤ b.base }
        requires a_some { 0 < a.length }
        requires b_some { 0 < b.length }

        // The slots and the body that it returns are those that the bytes stand for.
        ensures areas { IfOk result (λ r. (first_area r.0 ≡ a) × (second_of r.0 ≡ b)) }
        ensures tells { IfOk result
            (λ r. (slot_of r.0 ≡ r.1.slot) × (generation_of r.0 ≡ r.1.generation)) }
        ensures which { IfOk result (λ r. r.1.slot ≤ 1) }
        ensures fits { IfOk result (λ r. 13 + length r.1.body.items ≤ (live_of r.0).length) }
        ensures sound { IfOk result (λ r. Each (D.reads disk.old) (HasSlots r.0 r.1.body.items)) }
        ensures ready { IfOk result
            (λ r. Each (D.may_leave disk.new) (HasSlots r.0 r.1.body.items)) }

        ensures damaged { IfErr result (λ e. IfSlotDamaged e (λ place.
            Each (D.reads disk.old) (AreSlotsDamagedAt a b place))) }
        ensures blank { IsErrOf result CheckpointError.Blank
            → Each (D.reads disk.old) (AreBlank a b) }
        ensures no_other { IfErr result RefusesToOpenSlots }

        // It writes nothing.
        ensures reads { OnlyReads D.Disk disk.old disk.new }
        ensures only { Each (D.may_leave disk.new) (D.reads disk.new) }
        ensures count { CountsFaults CheckpointError.Device (D.failures disk.old)
            (D.failures disk.new) result }
    {
        let end = disk.len()?;
        let first = read_head(disk, a, end)?;
        let second = match read_head(disk, b, end) {
            Ok(second) => second,
            Err(error) => return Err(error),
        };
        let (slots, len) = match Slots::choose(a, b, first, second) {
            Ok(chosen) => chosen,
            Err(error) => return Err(error),
        };
        let body = read_body(alloc, disk, slots.live().base + BEFORE_BODY, len)?;
        let found = Found {
            slot: slots.slot,
            generation: slots.generation,
            body,
        };
        Ok((slots, found))
    }

    /// The live slot: 0 is the first, 1 the second.
    pub fn slot(&self) -> u8
        ensures { result ≡ slot_of self.now }
    {
        self.slot
    }

    /// The live generation.
    pub fn generation(&self) -> u64
        ensures { result ≡ generation_of self.now }
    {
        self.generation
    }

    fn live(self) -> Area
        ensures { result ≡ live_of self }
    {
        if self.slot == 0 { self.a } else { self.b }
    }

    pub fn other(self) -> Area
        ensures { result ≡ other_of self }
    {
        if self.slot == 0 { self.b } else { self.a }
    }

    // The slots after a change: the other one is live, with the next generation.
    pub fn turned(self) -> Slots
        requires { generation_of self + 1 < 2 ^ 64 }
        ensures areas { (first_area result ≡ first_area self)
            × (second_of result ≡ second_of self) }
        ensures live { (live_of result ≡ other_of self) × (other_of result ≡ live_of self) }
        ensures slot { slot_of result ≡ other_slot (slot_of self) }
        ensures generation { generation_of result ≡ generation_of self + 1 }
        ensures other { finds_open result ≡ true }
    {
        Slots {
            a: self.a,
            b: self.b,
            slot: if self.slot == 0 { 1 } else { 0 },
            generation: self.generation + 1,
            other_is_open: true,
        }
    }

    pub fn other_is_open(self) -> bool
        ensures { result ≡ finds_open self }
    {
        self.other_is_open
    }

    /// Makes the bytes to write into the other slot, with the next generation and this body. It writes nothing.
    ///
    /// It fails with `SlotFull` exactly if the body is longer than the other slot less 13 bytes, otherwise with
    /// `GenerationsSpent` exactly if the live generation is the last.
    pub fn image(&self, alloc: Global, body: &[u8]) -> Result<Image, CheckpointError>
        ensures made { IfOk result (λ image. (generation_in image ≡ generation_of self.now + 1)
            × (body_in image ≡ body.now)) }
        ensures fits { OnOk result (13 + length body.now ≤ (other_of self.now).length) }
        ensures full { IsErrOf result CheckpointError.SlotFull
            ↔ ((other_of self.now).length < 13 + length body.now) }
        ensures spent { IsErrOf result CheckpointError.GenerationsSpent
            ↔ (13 + length body.now ≤ (other_of self.now).length)
            × (generation_of self.now ≡ 2 ^ 64 - 1) }
        ensures number { OnOk result (generation_of self.now + 1 < 2 ^ 64) }
        ensures no_other { IfErr result RefusesImage }
    {
        let room = (self.other().length as usize).checked_sub(BEFORE_BODY as usize);
        match room {
            Some(room) if body.len() <= room => {}
            _ => return Err(CheckpointError::SlotFull),
        }
        let Some(generation) = self.generation.checked_add(1) else {
            return Err(CheckpointError::GenerationsSpent);
        };
        Image::write(alloc, generation, body)
    }

    // The handle of two new slots: the first is live with generation 1, the second is closed.
    pub fn fresh(a: Area, b: Area) -> Slots
        requires in_order { a.base + a.length ≤ b.base }
        requires a_some { 0 < a.length }
        requires b_some { 0 < b.length }
        ensures areas { (first_area result ≡ a) × (second_of result ≡ b) }
        ensures live { (live_of result ≡ a) × (other_of result ≡ b) }
        ensures slot { slot_of result ≡ 0 }
        ensures generation { generation_of result ≡ 1 }
        ensures other { finds_open result ≡ false }
    {
        Slots {
            a,
            b,
            slot: 0,
            generation: 1,
            other_is_open: false,
        }
    }
}
