//! The patches of a texture.
ghost use Rattle.std.specs.Prelude.{◌≡◌, ◌+◌, ◌*◌, ◌≤◌, ◌<◌, IfOk, IsOkUnless, length};
ghost use Rattle.lump_records.specs.Fields.{unsigned_at};
ghost use Rattle.wad_levels.specs.Patches.{count_at, patch_count, patch_from, patches_of, width_among};

use crate::error::ReadError;
use byteorder::{ByteOrder, LittleEndian};
use lump_textures::Patch;
use std::alloc::Global;

/// The signed number at a place as a count: none if it is negative.
pub(crate) fn count_at(lump: &[u8], at: usize) -> u16
    requires { at + 2 ≤ length lump.now }
    ensures { result ≡ count_at at lump.now }
{
    let count = LittleEndian::read_u16(&lump[at..]);
    if count < 32768 { count } else { 0 }
}

/// How many patches the texture at a place has that lie wholly inside the lump.
pub(crate) fn patch_count(lump: &[u8], at: usize) -> u16
    requires { at + 22 ≤ length lump.now }
    ensures count { result ≡ patch_count lump.now at }
    ensures inside { at + 22 + 10 * result ≤ length lump.now }
{
    let listed = count_at(lump, at + 20);
    let standing = (lump.len() - (at + 22)) / 10;
    if usize::from(listed) < standing {
        listed
    } else {
        standing as u16
    }
}

// How many columns the patch with the number has.
fn width_among(widths: &[i16], number: usize) -> i16
    ensures { result ≡ width_among widths.now number }
{
    match widths.get(number) {
        Some(width) => *width,
        None => 0,
    }
}

// The number of the patch that stands at a place of the lump.
fn patch_number(lump: &[u8], place: usize) -> usize
    requires { place + 10 ≤ length lump.now }
    ensures { result ≡ unsigned_at (place + 4) lump.now }
{
    usize::from(LittleEndian::read_u16(&lump[place + 4..]))
}

// The patch that stands at a place of the lump.
fn patch_from(widths: &[i16], lump: &[u8], place: usize) -> Patch
    requires { place + 10 ≤ length lump.now }
    ensures { result ≡ patch_from widths.now lump.now place }
{
    Patch {
        first: LittleEndian::read_i16(&lump[place..]),
        width: width_among(widths, patch_number(lump, place)),
    }
}

/// The patches of the texture at a place of the lump; `widths` says how many columns each has, by its number.
pub(crate) fn patches_of(
    alloc: Global,
    widths: &[i16],
    lump: &[u8],
    at: usize,
) -> Result<Vec<Patch>, ReadError>
    requires { at + 22 ≤ length lump.now }
    ensures patches { IfOk result (λ p. p.items ≡ patches_of widths.now lump.now at) }
    ensures memory { IsOkUnless result ReadError.OutOfMemory }
{
    let mut patches = Vec::new(alloc);
    for n in 0..patch_count(lump, at) {
        patches.push(patch_from(widths, lump, at + 22 + 10 * usize::from(n)))?;
    }
    Ok(patches)
}
