//! A record as it is written: an open gate, the length of the payload as a `u32`, and the payload.
ghost use Rattle.std.specs.Prelude.{◌≡◌, ◌≤◌, ◌<◌, ◌+◌, ◌++◌, ℕ, List, [], ◌∷◌, length, take, OnOk};
ghost use Rattle.std.specs.Int.{to_le_bytes, w32};
ghost use Rattle.store_disk.specs.Gates.{open_gate};
ghost use Rattle.store_disk.specs.Moments.{LeavesOnly};
ghost use Rattle.store_disk.specs.Stops.{From, Follows, Each, Counted};
ghost use Rattle.store_journal.specs.Records.{EndsAt};
ghost use Rattle.store_journal.specs.Append.{Appends, MayAppend};
ghost use Rattle.store_journal.specs.Groups.{IsGroup, IsGroupOf};

use byteorder::{ByteOrder, LittleEndian};
use store_disk::{Area, CLOSED_GATE, DeviceFault, Disk, OPEN_GATE, write_through};

/// How many bytes stand before a payload: the gate and the length.
pub const HEAD: u64 = 5;

/// How many bytes an empty record takes, with the gate after it.
pub const LEAST: u64 = 6;

/// The length of the longest payload, in bytes.
pub const LONGEST: usize = 256;

/// The length of the longest block that is written after a gate: a length, a payload and the next gate.
pub const BLOCK: usize = 261;

/// Puts the length, the payload and a closed gate at the start of a block.
pub fn put_block(block: &mut [u8], payload: &[u8])
    requires short { length payload.now ≤ 256 }
    requires room { length block.old ≡ 261 }
    ensures { take (length payload.now + 5) block.new
        ≡ to_le_bytes w32 (length payload.now) ++ payload.now ++ 0 ∷ [] }
{
    let n = payload.len();
    LittleEndian::write_u32(block, n as u32);
    block[4..4 + n].copy_from_slice(payload);
    block[4 + n] = CLOSED_GATE;
}

/// Writes records after the closed gate that stands `next` bytes into the area, and then opens that gate. `behind` is
/// what is to stand after the gate: the records without their first gate, and a closed gate.
pub fn write_records<D: Disk>(
    disk: &mut D,
    area: Area,
    next: u32,
    behind: &[u8],
) -> Result<(), DeviceFault>
    requires group { IsGroup (open_gate ∷ behind.now) }
    requires room { next + length behind.now < area.length }
    requires ready { Each (D.may_leave disk.old) (EndsAt area next) }
    ensures appended { OnOk result
        ((more : List (List ℕ)) → IsGroupOf more (open_gate ∷ behind.now)
        → Follows (Appends area more) (D.may_leave disk.old) (D.may_leave disk.new)) }
    ensures durable { OnOk result (Each (D.may_leave disk.new) (D.reads disk.new)) }
    ensures ready { OnOk result
        (Each (D.may_leave disk.new) (EndsAt area (next + length behind.now))) }
    ensures any_moment { (more : List (List ℕ)) → IsGroupOf more (open_gate ∷ behind.now)
        → LeavesOnly D.Disk disk.old disk.new
        (From (D.may_leave disk.old) (MayAppend area more)) }
    ensures count { Counted (D.failures disk.old) (D.failures disk.new) result }
{
    let gate = area.base + next as u64;
    write_through(disk, gate + 1, behind)?;
    write_through(disk, gate, &[OPEN_GATE])
}
