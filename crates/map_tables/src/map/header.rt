//! The head of a map's part of a body: the name and the counts.
ghost use Rattle.std.specs.Prelude.{◌≡◌, ◌+◌, ◌*◌, ◌≤◌, ◌<◌, ◌↔◌, IsTrue, length};
ghost use Rattle.lump_records.specs.Fields.{unsigned_at};
ghost use Rattle.lump_records.specs.Records.{name_at};
ghost use Rattle.map_tables.specs.Parts.{IsFramed};

use lump_records::Name8;

// The count that starts at byte `at`.
pub(super) fn count_at(bytes: &[u8], at: usize) -> usize
    requires { at + 2 ≤ length bytes.now }
    ensures value { result ≡ unsigned_at at bytes.now }
    ensures bound { result < 65536 }
{
    usize::from(u16::from_le_bytes([bytes[at], bytes[at + 1]]))
}

// The name that starts at byte `at`.
pub(super) fn name_at(bytes: &[u8], at: usize) -> Name8
    requires { at + 8 ≤ length bytes.now }
    ensures { result ≡ name_at at bytes.now }
{
    let mut name = [0; 8];
    name.copy_from_slice(&bytes[at..at + 8]);
    Name8 { bytes: name }
}

// The length of a map's part, by the counts in its head.
fn whole_len(bytes: &[u8]) -> usize
    requires { 18 ≤ length bytes.now }
    ensures { result ≡ 18 + 10 * unsigned_at 8 bytes.now + 14 * unsigned_at 10 bytes.now
        + 30 * unsigned_at 12 bytes.now + 4 * unsigned_at 14 bytes.now
        + 26 * unsigned_at 16 bytes.now }
{
    18 + 10 * count_at(bytes, 8)
        + 14 * count_at(bytes, 10)
        + 30 * count_at(bytes, 12)
        + 4 * count_at(bytes, 14)
        + 26 * count_at(bytes, 16)
}

// Whether the bytes have the head of a map's part, and are at least as long as its counts say.
pub(super) fn is_framed(bytes: &[u8]) -> bool
    ensures { IsTrue result ↔ IsFramed bytes.now }
{
    bytes.len() >= 18 && bytes.len() >= whole_len(bytes)
}
