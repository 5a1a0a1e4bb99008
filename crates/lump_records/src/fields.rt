//! Reads and writes the fields of a record: 16-bit numbers, the lower byte first, and names.
ghost use Rattle.std.specs.Prelude.{◌≡◌, ◌+◌, ◌≤◌, ◌<◌, ◌^◌, ◌++◌, length, take};
ghost use Rattle.lump_records.specs.Fields.{signed, signed_at, unsigned, unsigned_at};
ghost use Rattle.lump_records.specs.Records.{name_at};

use crate::records::Name8;
use byteorder::{ByteOrder, LittleEndian};

/// Reads the signed field that starts at byte `at`.
pub fn signed_field(bytes: &[u8], at: usize) -> i16
    requires { at + 2 ≤ length bytes.now }
    ensures { result ≡ signed_at at bytes.now }
{
    LittleEndian::read_i16(&bytes[at..])
}

/// Reads the unsigned field that starts at byte `at`.
pub fn unsigned_field(bytes: &[u8], at: usize) -> u16
    requires { at + 2 ≤ length bytes.now }
    ensures { result ≡ unsigned_at at bytes.now }
{
    LittleEndian::read_u16(&bytes[at..])
}

/// Reads the name that starts at byte `at`.
pub fn name_field(bytes: &[u8], at: usize) -> Name8
    requires { at + 8 ≤ length bytes.now }
    ensures { result ≡ name_at at bytes.now }
{
    let mut name = [0; 8];
    name.copy_from_slice(&bytes[at..at + 8]);
    Name8 { bytes: name }
}

/// Writes a signed field from byte `at` on.
pub fn put_signed(bytes: &mut [u8], at: usize, value: i16)
    requires { at + 2 ≤ length bytes.old }
    ensures length { length bytes.new ≡ length bytes.old }
    ensures front { take (at + 2) bytes.new ≡ take at bytes.old ++ signed value }
{
    LittleEndian::write_i16(&mut bytes[at..], value);
}

/// Writes an unsigned field from byte `at` on.
pub fn put_unsigned(bytes: &mut [u8], at: usize, value: u16)
    requires { at + 2 ≤ length bytes.old }
    ensures range { value < 2 ^ 16 }
    ensures length { length bytes.new ≡ length bytes.old }
    ensures front { take (at + 2) bytes.new ≡ take at bytes.old ++ unsigned value }
{
    LittleEndian::write_u16(&mut bytes[at..], value);
}

/// Writes a name from byte `at` on.
pub fn put_name(bytes: &mut [u8], at: usize, name: &Name8)
    requires { at + 8 ≤ length bytes.old }
    ensures length { length bytes.new ≡ length bytes.old }
    ensures front { take (at + 8) bytes.new ≡ take at bytes.old ++ name.now.bytes }
{
    bytes[at..at + 8].copy_from_slice(&name.bytes);
}
