//! How long all lumps of a WAD are together, and how long it may be with its levels built anew.
ghost use Rattle.std.specs.Prelude.{◌≡◌};
ghost use Rattle.wad_file.specs.Directory.{lump_count};
ghost use Rattle.wad_rebuild.specs.Rebuilt.{is_crowded, size_limit, sizes_below};

use wad_file::Wad;

// Every WAD may have this many bytes with its levels built anew, and none more than `MOST`.
const ALWAYS: u64 = 0x400_0000;

const MOST: u64 = 0xffff_ffff;

// How many bytes the lumps have together.
fn all_sizes(wad: &Wad<'_>) -> u64
    ensures { result ≡ sizes_below wad.now (lump_count wad.now) }
{
    let mut sum: u64 = 0;
    for k in 0..wad.count() {
        let entry = wad.entry(k);
        sum += entry.size as u64;
    }
    sum
}

/// Whether the lumps overlap so much that together they are more than four times as long as the file.
pub fn is_crowded(wad: &Wad<'_>) -> bool
    ensures { result ≡ is_crowded wad.now }
{
    all_sizes(wad) / 4 > wad.bytes().len() as u64
}

/// How many bytes a WAD of `len` bytes may have with its levels built anew.
pub fn size_limit(len: u64) -> u64
    ensures { result ≡ size_limit len }
{
    if len <= ALWAYS / 16 {
        ALWAYS
    } else if len <= MOST / 16 {
        16 * len
    } else {
        MOST
    }
}
