//! Reads the fields of a directory and of other lists in a WAD.
ghost use Rattle.std.specs.Prelude.{◌≡◌, ◌+◌, ◌≤◌, length};
ghost use Rattle.lump_records.specs.Records.{name_at};
ghost use Rattle.wad_file.specs.Fields.{long_at};

use byteorder::{ByteOrder, LittleEndian};
use lump_records::Name8;

/// Reads the 32-bit number at byte `at`, the lower bytes first.
pub fn long_at(bytes: &[u8], at: usize) -> u32
    requires { at + 4 ≤ length bytes.now }
    ensures { result ≡ long_at at bytes.now }
{
    LittleEndian::read_u32(&bytes[at..])
}

/// Reads the name of eight bytes at byte `at`.
pub fn name_at(bytes: &[u8], at: usize) -> Name8
    requires { at + 8 ≤ length bytes.now }
    ensures { result ≡ name_at at bytes.now }
{
    let mut name = [0; 8];
    name.copy_from_slice(&bytes[at..at + 8]);
    Name8 { bytes: name }
}
