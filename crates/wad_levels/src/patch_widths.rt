//! The widths of a WAD's patches.
ghost use Rattle.std.specs.Prelude.{◌≡◌, ◌+◌, ◌*◌, ◌<◌, ◌≤◌, IfOk, IsOkUnless, length};
ghost use Rattle.wad_levels.specs.Patches.{AreEntries, patch_name_count, patch_widths, picture_width, width_of_name, width_of_number, widths_of_names};

use crate::error::ReadError;
use crate::named_lumps::{capital_name, lump_of_name};
use byteorder::{ByteOrder, LittleEndian};
use indexmap::IndexMap;
use std::alloc::Global;
use wad_file::{Wad, long_at, name_at};

// The numbers of the entries by their names in capitals: of each name that of the last one.
fn entries_by_name(alloc: Global, wad: &Wad<'_>) -> Result<IndexMap<[u8; 8], u32>, ReadError>
    ensures entries { IfOk result (λ by_name. AreEntries wad.now by_name) }
    ensures memory { IsOkUnless result ReadError.OutOfMemory }
{
    let mut by_name = IndexMap::new(alloc);
    for k in 0..wad.count() {
        by_name.insert(capital_name(wad.name(k)).bytes, k)?;
    }
    Ok(by_name)
}

// How many columns a picture has.
fn picture_width(lump: &[u8]) -> i16
    ensures { result ≡ picture_width lump.now }
{
    if lump.len() < 2 {
        return 0;
    }
    LittleEndian::read_i16(lump)
}

// How many columns the last lump of the name has, which is in capitals.
fn width_of_name(wad: &Wad<'_>, by_name: &IndexMap<[u8; 8], u32>, name: [u8; 8]) -> i16
    requires { AreEntries wad.now by_name.now }
    ensures { result ≡ width_of_name wad.now name }
{
    match by_name.get(&name) {
        Some(k) => picture_width(wad.standing(*k)),
        None => 0,
    }
}

// How many names the list of patches has.
fn patch_name_count(names: &[u8]) -> u32
    ensures count { result ≡ patch_name_count names.now }
    ensures inside { 0 < result → 8 * result + 4 ≤ length names.now }
{
    if names.len() < 4 {
        return 0;
    }
    let listed = long_at(names, 0);
    let standing = (names.len() - 4) / 8;
    if (listed as usize) < standing {
        listed
    } else {
        standing as u32
    }
}

// How many columns the patch with the number has.
fn width_of_number(wad: &Wad<'_>, by_name: &IndexMap<[u8; 8], u32>, names: &[u8], n: u32) -> i16
    requires entries { AreEntries wad.now by_name.now }
    requires inside { 8 * n + 12 ≤ length names.now }
    ensures { result ≡ width_of_number wad.now names.now n }
{
    let name = name_at(names, 8 * n as usize + 4);
    width_of_name(wad, by_name, capital_name(name).bytes)
}

// The widths of the patches that the list names.
fn widths_of_names(alloc: Global, wad: &Wad<'_>, names: &[u8]) -> Result<Vec<i16>, ReadError>
    ensures widths { IfOk result (λ widths. widths.items ≡ widths_of_names wad.now names.now) }
    ensures memory { IsOkUnless result ReadError.OutOfMemory }
{
    let by_name = entries_by_name(alloc, wad)?;
    let mut widths = Vec::new(alloc);
    for n in 0..patch_name_count(names) {
        widths.push(width_of_number(wad, &by_name, names, n))?;
    }
    Ok(widths)
}

/// How many columns each patch has that PNAMES names.
pub(crate) fn patch_widths(alloc: Global, wad: &Wad<'_>) -> Result<Vec<i16>, ReadError>
    ensures widths { IfOk result (λ widths. widths.items ≡ patch_widths wad.now) }
    ensures memory { IsOkUnless result ReadError.OutOfMemory }
{
    widths_of_names(alloc, wad, lump_of_name(wad, b"PNAMES"))
}
