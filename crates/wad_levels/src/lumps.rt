//! The ten lumps behind a level's marker.
ghost use Rattle.std.specs.Prelude.{◌≡◌, ◌+◌, ◌≤◌, ◌<◌, length, All};
ghost use Rattle.wad_file.specs.Directory.{lump_count};
ghost use Rattle.wad_levels.specs.Levels.{are_named, are_whole, has_lumps, is_hexen, record_sizes};

use lump_records::Name8;
use wad_file::Wad;

/// The names of a level's lumps after its marker, in order.
pub const LUMP_NAMES: [Name8; 10] = [
    Name8 {
        bytes: *b"THINGS\0\0",
    },
    Name8 {
        bytes: *b"LINEDEFS",
    },
    Name8 {
        bytes: *b"SIDEDEFS",
    },
    Name8 {
        bytes: *b"VERTEXES",
    },
    Name8 {
        bytes: *b"SEGS\0\0\0\0",
    },
    Name8 {
        bytes: *b"SSECTORS",
    },
    Name8 {
        bytes: *b"NODES\0\0\0",
    },
    Name8 {
        bytes: *b"SECTORS\0",
    },
    Name8 {
        bytes: *b"REJECT\0\0",
    },
    Name8 {
        bytes: *b"BLOCKMAP",
    },
];

// The length of a record of each lump, in bytes.
const RECORD_SIZES: [u32; 10] = [10, 14, 30, 4, 12, 4, 28, 26, 1, 2];

// Whether the entries from `from` on have the names.
fn are_named(wad: &Wad<'_>, from: u32, names: &[Name8]) -> bool
    requires among { from + length names.now ≤ lump_count wad.now }
    ensures { result ≡ are_named wad.now from names.now }
{
    // There are fewer than 2^32 entries; below too.
    let _ = wad.count();
    for n in 0..names.len() {
        if !wad.is_named(names[n].text(), from + n as u32) {
            return false;
        }
    }
    true
}

/// Whether ten entries follow the marker, with the names of a level's lumps.
pub fn has_lumps(wad: &Wad<'_>, at: u32) -> bool
    requires among { at < lump_count wad.now }
    ensures { result ≡ has_lumps wad.now at }
{
    at as u64 + 10 < wad.count() as u64 && are_named(wad, at + 1, &LUMP_NAMES)
}

/// Whether the eleventh entry after the marker shows a Hexen level.
pub fn is_hexen(wad: &Wad<'_>, at: u32) -> bool
    requires among { at + 10 < lump_count wad.now }
    ensures { result ≡ is_hexen wad.now at }
{
    at as u64 + 11 < wad.count() as u64 && wad.is_named(b"BEHAVIOR", at + 11)
}

// Whether the lump of each entry from `from` on is a whole number of records long.
fn are_records(wad: &Wad<'_>, from: u32, sizes: &[u32]) -> bool
    requires among { from + length sizes.now ≤ lump_count wad.now }
    requires some { All (λ size. 0 < size) sizes.now }
    ensures { result ≡ are_whole wad.now from sizes.now }
{
    let _ = wad.count();
    for n in 0..sizes.len() {
        if wad.entry(from + n as u32).size % sizes[n] != 0 {
            return false;
        }
    }
    true
}

/// Whether each of the ten lumps after the marker is a whole number of records long.
pub fn are_whole(wad: &Wad<'_>, at: u32) -> bool
    requires among { at + 10 < lump_count wad.now }
    ensures { result ≡ are_whole wad.now (at + 1) record_sizes }
{
    let _ = wad.count();
    are_records(wad, at + 1, &RECORD_SIZES)
}
