//! Finds the live slot of a file, and its body.
ghost use Rattle.std.specs.Prelude.{◌≡◌, ◌≤◌, ◌+◌, [], ◌∷◌, List, ℕ, length, IfErr, IfOk};
ghost use Rattle.store_disk.specs.Files.{HasAt};
ghost use Rattle.store_disk.specs.Gates.{open_gate};
ghost use Rattle.store_disk.specs.declared.area.Area.{Area};
ghost use Rattle.store_slots.specs.Bodies.{IsOpen};
ghost use Rattle.store_slots.specs.Damage.{IsBadSlot};
ghost use Rattle.store_salvage.specs.Live.{IsLiveOf, ShowsSlot};
ghost use Rattle.store_salvage.specs.Refusals.{RefusesLiveSlot};

use crate::bytes::{generation_at, length_at, part};
use crate::error::SalvageError;
use store_disk::{Area, OPEN_GATE};

// How many bytes of a slot are before its body: the gate, the generation and the length.
const BEFORE_BODY: usize = 13;

/// The generation of an open slot, and its body.
#[derive(Clone, Copy)]
pub struct OpenSlot<'a> {
    pub generation: u64,
    pub body: &'a [u8],
}

// Reads the generation and the body after the open gate of a slot.
fn read_open_slot<'a>(file: &'a [u8], slot: Area) -> Result<OpenSlot<'a>, SalvageError>
    requires { HasAt slot.base (open_gate ∷ []) file.now }
    ensures is_open { IfOk result (λ s. IsOpen slot s.generation s.body.now file.now) }
    ensures bad { IfErr result (λ e. (e ≡ SalvageError.Damaged slot.base)
        × IsBadSlot slot file.now) }
{
    let at = slot.base as usize;
    let behind = file.len() - at;
    if behind < BEFORE_BODY {
        return Err(SalvageError::Damaged { place: slot.base });
    }
    let generation = generation_at(file, at + 1);
    let len = length_at(file, at + 9) as usize;
    let whole = BEFORE_BODY + len;
    if whole > slot.length as usize || whole > behind {
        return Err(SalvageError::Damaged { place: slot.base });
    }
    let body = part(file, at + BEFORE_BODY, len);
    Ok(OpenSlot { generation, body })
}

// Reads a slot; `None` if its gate is closed.
fn read_slot<'a>(file: &'a [u8], slot: Area) -> Result<Option<OpenSlot<'a>>, SalvageError>
    ensures shows { IfOk result (λ found. ShowsSlot slot found file.now) }
    ensures bad { IfErr result (λ e. (e ≡ SalvageError.Damaged slot.base)
        × IsBadSlot slot file.now) }
{
    let at = slot.base as usize;
    if file.len() <= at {
        return Err(SalvageError::Damaged { place: slot.base });
    }
    if file[at] != OPEN_GATE {
        return Ok(None);
    }
    match read_open_slot(file, slot) {
        Ok(found) => Ok(Some(found)),
        Err(error) => Err(error),
    }
}

// Chooses the live one of two slots as they were read. The second slot is at offset `place`.
fn choose<'a>(
    first: Option<OpenSlot<'a>>,
    second: Option<OpenSlot<'a>>,
    place: u64,
) -> Result<(u8, OpenSlot<'a>), SalvageError>
    ensures live { IfOk result (λ r. (a : Area) → (b : Area) → (file : List ℕ)
        → ShowsSlot a first.entry file → ShowsSlot b second.entry file
        → IsLiveOf a b r.0 r.1.generation r.1.body.now file) }
    ensures which { IfOk result (λ r. r.0 ≤ 1) }
    ensures refused { IfErr result (λ e. (a : Area) → (b : Area) → (file : List ℕ)
        → ShowsSlot a first.entry file → ShowsSlot b second.entry file
        → b.base ≡ place → RefusesLiveSlot a b file e) }
{
    match (first, second) {
        (None, None) => Err(SalvageError::Blank),
        (Some(slot), None) => Ok((0, slot)),
        (None, Some(slot)) => Ok((1, slot)),
        (Some(one), Some(other)) => {
            if one.generation == other.generation {
                Err(SalvageError::Damaged { place })
            } else if other.generation < one.generation {
                Ok((0, one))
            } else {
                Ok((1, other))
            }
        }
    }
}

/// Finds the live one of two slots: its number, 0 for the first and 1 for the second, its generation and its body.
pub fn live_slot<'a>(file: &'a [u8], a: Area, b: Area) -> Result<(u8, OpenSlot<'a>), SalvageError>
    ensures live { IfOk result
        (λ r. IsLiveOf a b r.0 r.1.generation r.1.body.now file.now) }
    ensures which { IfOk result (λ r. r.0 ≤ 1) }
    ensures refused { IfErr result (RefusesLiveSlot a b file.now) }
{
    let first = read_slot(file, a)?;
    let second = match read_slot(file, b) {
        Ok(second) => second,
        Err(error) => return Err(error),
    };
    choose(first, second, b.base)
}
