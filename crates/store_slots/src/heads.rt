//! The head of a slot as it is read: its gate, its generation and the length of its body.
ghost use Rattle.std.specs.Prelude.{◌≡◌, ◌≤◌, ◌<◌, ◌⊎◌, ◌+◌, ◌++◌, [], ◌∷◌, length, take, drop, IfOk, IfErr, IfNone, IfSome, OnOk};
ghost use Rattle.std.specs.Int.{to_le_bytes, w64};
ghost use Rattle.store_disk.specs.Files.{HasAt};
ghost use Rattle.store_disk.specs.Stops.{Counted, CountsFaults, Each};
ghost use Rattle.store_disk.specs.Gates.{IsClosedAt};
ghost use Rattle.store_slots.specs.Bodies.{head_bytes};
ghost use Rattle.store_slots.specs.Damage.{IsBadSlot};
ghost use Rattle.store_slots.specs.Heads.{HasRoom, ShowsHead};
ghost use Rattle.store_slots.specs.Refusals.{IfSlotDamaged, RefusesToOpenSlots};
ghost use Rattle.store_disk.specs.Reading.{OnlyReads};

use crate::CheckpointError;
use byteorder::{ByteOrder, LittleEndian};
use std::alloc::Global;
use store_disk::{Area, DeviceFault, Disk, OPEN_GATE, read_gate, read_length};

/// How many bytes of a slot are before its body: the gate, the generation and the length.
pub const BEFORE_BODY: u64 = 13;

/// The generation of an open slot, and the length of its body.
#[derive(Clone, Copy)]
pub struct Head {
    pub generation: u64,
    pub len: u32,
}

/// The bytes after a gate: the generation and the length of a body.
pub fn head_of(generation: u64, len: u32) -> [u8; 12]
    ensures { result ≡ head_bytes generation len }
{
    let mut bytes = [0; 12];
    LittleEndian::write_u64(&mut bytes, generation);
    LittleEndian::write_u32(&mut bytes[8..], len);
    bytes
}

// The number that these bytes encode, the lowest byte first.
fn generation_of(bytes: [u8; 8]) -> u64
    ensures { to_le_bytes w64 result ≡ bytes }
{
    LittleEndian::read_u64(&bytes)
}

// Reads the generation in the eight bytes from `at` on.
fn read_generation<D: Disk>(disk: &mut D, at: u64) -> Result<u64, DeviceFault>
    requires { Each (D.reads disk.old) (λ file. at + 8 ≤ length file) }
    ensures told { IfOk result (λ n. Each (D.reads disk.old) (HasAt at (to_le_bytes w64 n))) }
    ensures reads { OnlyReads D.Disk disk.old disk.new }
    ensures count { Counted (D.failures disk.old) (D.failures disk.new) result }
{
    let mut bytes = [0; 8];
    disk.read(at, &mut bytes)?;
    Ok(generation_of(bytes))
}

// Reads `len` bytes of a body from `at` on.
pub fn read_body<D: Disk>(
    alloc: Global,
    disk: &mut D,
    at: u64,
    len: u32,
) -> Result<Vec<u8>, CheckpointError>
    requires within { Each (D.reads disk.old) (λ file. at + len ≤ length file) }
    ensures len { IfOk result (λ body. length body.items ≡ len) }
    ensures told { IfOk result (λ body. Each (D.reads disk.old) (HasAt at body.items)) }
    ensures reads { OnlyReads D.Disk disk.old disk.new }
    ensures count { CountsFaults CheckpointError.Device (D.failures disk.old)
        (D.failures disk.new) result }
    ensures no_other { IfErr result
        (λ e. (e ≡ CheckpointError.Device) ⊎ (e ≡ CheckpointError.OutOfMemory)) }
{
    let mut body = vec![in alloc; 0; len as usize]?;
    disk.read(at, &mut body)?;
    Ok(body)
}

/// Reads the head of a slot: `None` if its gate is closed. The file ends at `end`.
pub fn read_head<D: Disk>(
    disk: &mut D,
    slot: Area,
    end: u64,
) -> Result<Option<Head>, CheckpointError>
    requires ends { Each (D.reads disk.old) (λ file. end ≡ length file) }
    ensures shows { IfOk result (λ found. Each (D.reads disk.old) (ShowsHead slot found)) }
    ensures fits { IfOk result (HasRoom slot) }
    ensures damaged { IfErr result (λ e. IfSlotDamaged e (λ place.
        (place ≡ slot.base) × Each (D.reads disk.old) (IsBadSlot slot))) }
    ensures no_other { IfErr result (λ e.
        (e ≡ CheckpointError.Device) ⊎ (e ≡ CheckpointError.Damaged slot.base)) }
    ensures reads { OnlyReads D.Disk disk.old disk.new }
    ensures count { CountsFaults CheckpointError.Device (D.failures disk.old)
        (D.failures disk.new) result }
{
    let place = slot.base;
    if end <= place {
        return Err(CheckpointError::Damaged { place });
    }
    if read_gate(disk, place)? != OPEN_GATE {
        return Ok(None);
    }
    let behind = end - place;
    if behind < BEFORE_BODY {
        return Err(CheckpointError::Damaged { place });
    }
    let generation = read_generation(disk, place + 1)?;
    let len = read_length(disk, place + 9)?;
    let whole = BEFORE_BODY + len as u64;
    if whole > slot.length as u64 || whole > behind {
        return Err(CheckpointError::Damaged { place });
    }
    Ok(Some(Head { generation, len }))
}
