//! Parts of a file's bytes.
ghost use Rattle.std.specs.Prelude.{◌≡◌, ◌≤◌, ◌+◌, length};
ghost use Rattle.std.specs.Int.{to_le_bytes, w32, w64};
ghost use Rattle.store_disk.specs.Files.{HasAt};

use byteorder::{ByteOrder, LittleEndian};

/// The `len` bytes from `at` on.
pub fn part(file: &[u8], at: usize, len: usize) -> &[u8]
    requires { at + len ≤ length file.now }
    ensures has { HasAt at result.now file.now }
    ensures len { length result.now ≡ len }
{
    &file[at..at + len]
}

// The number that these bytes encode, the lowest byte first.
fn length_of(bytes: [u8; 4]) -> u32
    ensures { to_le_bytes w32 result ≡ bytes }
{
    LittleEndian::read_u32(&bytes)
}

/// The length in the four bytes from `at` on, the lowest byte first.
pub fn length_at(file: &[u8], at: usize) -> u32
    requires { at + 4 ≤ length file.now }
    ensures { HasAt at (to_le_bytes w32 result) file.now }
{
    let mut bytes = [0; 4];
    bytes.copy_from_slice(part(file, at, 4));
    length_of(bytes)
}

// The number that these bytes encode, the lowest byte first.
fn generation_of(bytes: [u8; 8]) -> u64
    ensures { to_le_bytes w64 result ≡ bytes }
{
    LittleEndian::read_u64(&bytes)
}

/// The generation in the eight bytes from `at` on, the lowest byte first.
pub fn generation_at(file: &[u8], at: usize) -> u64
    requires { at + 8 ≤ length file.now }
    ensures { HasAt at (to_le_bytes w64 result) file.now }
{
    let mut bytes = [0; 8];
    bytes.copy_from_slice(part(file, at, 8));
    generation_of(bytes)
}
