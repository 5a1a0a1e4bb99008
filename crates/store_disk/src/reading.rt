//! Reads that the journal and the checkpoint share: of a gate, and of a length.
ghost use Rattle.std.specs.Prelude.{◌≡◌, ◌≤◌, ◌<◌, ◌+◌, [], ◌∷◌, length, IfOk};
ghost use Rattle.std.specs.Int.{to_le_bytes, w32};
ghost use Rattle.store_disk.specs.Files.{HasAt};
ghost use Rattle.store_disk.specs.Reading.{OnlyReads};
ghost use Rattle.store_disk.specs.Stops.{Counted, Each};

use crate::{DeviceFault, Disk};
use byteorder::{ByteOrder, LittleEndian};

/// Reads the gate at offset `at`: it is open if the byte is `OPEN_GATE`.
pub fn read_gate<D: Disk>(disk: &mut D, at: u64) -> Result<u8, DeviceFault>
    requires { Each (D.reads disk.old) (λ file. at < length file) }
    ensures told { IfOk result (λ gate. Each (D.reads disk.old) (HasAt at (gate ∷ []))) }
    ensures reads { OnlyReads D.Disk disk.old disk.new }
    ensures count { Counted (D.failures disk.old) (D.failures disk.new) result }
{
    let mut gate = [0];
    disk.read(at, &mut gate)?;
    Ok(gate[0])
}

/// Reads the length in the four bytes from `at` on, the lowest byte first.
pub fn read_length<D: Disk>(disk: &mut D, at: u64) -> Result<u32, DeviceFault>
    requires { Each (D.reads disk.old) (λ file. at + 4 ≤ length file) }
    ensures told { IfOk result (λ n. Each (D.reads disk.old) (HasAt at (to_le_bytes w32 n))) }
    ensures reads { OnlyReads D.Disk disk.old disk.new }
    ensures count { Counted (D.failures disk.old) (D.failures disk.new) result }
{
    let mut bytes = [0; 4];
    disk.read(at, &mut bytes)?;
    Ok(length_of(bytes))
}

// The number that these bytes encode, the lowest byte first.
fn length_of(bytes: [u8; 4]) -> u32
    ensures { to_le_bytes w32 result ≡ bytes }
{
    LittleEndian::read_u32(&bytes)
}
