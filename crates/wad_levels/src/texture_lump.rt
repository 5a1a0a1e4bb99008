//! Which lumps are lists of textures.
ghost use Rattle.std.specs.Prelude.{◌≡◌, ◌+◌, ◌*◌, ◌≤◌, ◌<◌, IsTrue, length};
ghost use Rattle.wad_levels.specs.Graphics.{are_all_inside, are_textures, column_count, is_overfull, is_texture_inside, nth_patch_count, of_all, texture_at, texture_count};

use crate::patches::{count_at, patch_count};
use wad_file::long_at;

/// How many textures the lump lists.
pub(crate) fn texture_count(lump: &[u8]) -> u32
    requires { 4 ≤ length lump.now }
    ensures { result ≡ texture_count lump.now }
{
    long_at(lump, 0)
}

// Whether the first 22 bytes of the n-th texture lie inside the lump.
fn is_texture_inside(lump: &[u8], n: u32) -> bool
    requires { 4 * n + 8 ≤ length lump.now }
    ensures { result ≡ is_texture_inside lump.now n }
{
    u64::from(long_at(lump, 4 * n as usize + 4)) + 22 <= lump.len() as u64
}

// Whether all textures lie inside the lump. Their offsets do.
fn are_all_inside(lump: &[u8]) -> bool
    requires { 4 * texture_count lump.now + 4 ≤ length lump.now }
    ensures { result ≡ are_all_inside lump.now }
{
    for n in 0..texture_count(lump) {
        if !is_texture_inside(lump, n) {
            return false;
        }
    }
    true
}

// Where the n-th texture stands.
fn texture_at(lump: &[u8], n: u32) -> usize
    requires inside { 4 * texture_count lump.now + 4 ≤ length lump.now }
    requires textures { IsTrue (are_all_inside lump.now) }
    requires among { n < texture_count lump.now }
    ensures place { result ≡ texture_at lump.now n }
    ensures stands { result + 22 ≤ length lump.now }
{
    long_at(lump, 4 * n as usize + 4) as usize
}

// How many columns all textures have.
fn all_columns(lump: &[u8]) -> u64
    requires inside { 4 * texture_count lump.now + 4 ≤ length lump.now }
    requires textures { IsTrue (are_all_inside lump.now) }
    ensures { result ≡ of_all lump.now (column_count lump.now) }
{
    let mut sum: u64 = 0;
    for n in 0..texture_count(lump) {
        sum += u64::from(count_at(lump, texture_at(lump, n) + 12));
    }
    sum
}

// How many patches all textures have.
fn all_patches(lump: &[u8]) -> u64
    requires inside { 4 * texture_count lump.now + 4 ≤ length lump.now }
    requires textures { IsTrue (are_all_inside lump.now) }
    ensures { result ≡ of_all lump.now (nth_patch_count lump.now) }
{
    let mut sum: u64 = 0;
    for n in 0..texture_count(lump) {
        sum += u64::from(patch_count(lump, texture_at(lump, n)));
    }
    sum
}

// Whether the textures, which stand inside the lump, have together more than 128 columns, or more than 4 patches, for
// each of its bytes. To read them takes time in proportion to both.
fn is_overfull(lump: &[u8]) -> bool
    requires inside { 4 * texture_count lump.now + 4 ≤ length lump.now }
    requires textures { IsTrue (are_all_inside lump.now) }
    ensures { result ≡ is_overfull lump.now }
{
    let len = lump.len() as u64;
    all_columns(lump) / 128 > len || all_patches(lump) / 4 > len
}

/// Whether the lump is empty, or a whole list of textures that isn't overfull.
pub(crate) fn are_textures(lump: &[u8]) -> bool
    ensures { result ≡ are_textures lump.now }
{
    if lump.len() < 4 {
        return lump.is_empty();
    }
    4 * u64::from(texture_count(lump)) + 4 <= lump.len() as u64
        && are_all_inside(lump)
        && !is_overfull(lump)
}
