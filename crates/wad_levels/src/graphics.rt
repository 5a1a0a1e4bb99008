//! A WAD's flats and textures.
ghost use Rattle.std.specs.Prelude.{◌≡◌, ◌+◌, ◌≤◌, ◌<◌, ◌++◌, true, length, IfOk, IsOkUnless, IsTrue, MatchResult, None, OnOk};
ghost use Rattle.wad_file.specs.Directory.{lump_count};
ghost use Rattle.wad_levels.specs.Graphics.{RefusesGraphics, are_flats_open, are_textures, flat_names, graphics, graphics_refusal, graphics_view, texture_from, textures_of};
ghost use Rattle.wad_levels.specs.Patches.{patch_widths};

use crate::error::ReadError;
use crate::listing::read_wad;
use crate::named_lumps::{capital_name, lump_of_name, stands_inside};
use crate::patch_widths::patch_widths;
use crate::patches::{count_at, patches_of};
use crate::texture_lump::{are_textures, texture_count};
use byteorder::{ByteOrder, LittleEndian};
use lump_records::Name8;
use lump_textures::{Texture, is_patched};
use std::alloc::Global;
use wad_file::{Wad, long_at, name_at};

/// The names of a WAD's flats, in capitals and padded with NUL, and its textures.
pub struct Graphics {
    pub flats: Vec<Name8>,
    pub textures: Vec<Texture>,
}

// A call of its own, so that the owner of the names drops them in one step.
impl Drop for Graphics {
    fn drop(self) {
        let Graphics {
            flats: _flats,
            textures: _textures,
        } = self;
    }
}

// Whether the entries after the k-th are flats; `before` says whether those before it are.
fn flats_behind(wad: &Wad<'_>, k: u32, before: bool) -> bool
    requires among { k < lump_count wad.now }
    requires before { before ≡ are_flats_open wad.now k }
    ensures { result ≡ are_flats_open wad.now (k + 1) }
{
    wad.is_named(b"F_START", k) || !wad.is_named(b"F_END", k) && before
}

// The names of the flats in a directory that lies inside the file.
fn flats_in(alloc: Global, wad: &Wad<'_>) -> Result<Vec<Name8>, ReadError>
    ensures names { IfOk result (λ names. names.items ≡ flat_names wad.now) }
    ensures memory { IsOkUnless result ReadError.OutOfMemory }
{
    let mut names = Vec::new(alloc);
    let mut among_flats = false;
    for k in 0..wad.count() {
        let entry = wad.entry(k);
        if among_flats && entry.size > 0 {
            names.push(capital_name(entry.name))?;
        }
        among_flats = flats_behind(wad, k, among_flats);
    }
    Ok(names)
}

// The texture that stands at a place of the lump; `widths` says how many columns each patch has.
fn texture_from(alloc: Global, widths: &[i16], lump: &[u8], at: usize) -> Result<Texture, ReadError>
    requires { at + 22 ≤ length lump.now }
    ensures texture { IfOk result (λ t. t ≡ texture_from widths.now lump.now at) }
    ensures memory { IsOkUnless result ReadError.OutOfMemory }
{
    let patches = patches_of(alloc, widths, lump, at)?;
    Ok(Texture {
        name: capital_name(name_at(lump, at)),
        height: LittleEndian::read_i16(&lump[at + 14..]),
        is_patched: is_patched(alloc, count_at(lump, at + 12), &patches)?,
    })
}

// Appends the lump's textures to the list.
fn add_textures(
    alloc: Global,
    widths: &[i16],
    lump: &[u8],
    textures: &mut Vec<Texture>,
) -> Result<(), ReadError>
    requires { IsTrue (are_textures lump.now) }
    ensures added { OnOk result (textures.new.items
        ≡ textures.old.items ++ textures_of widths.now lump.now) }
    ensures memory { IsOkUnless result ReadError.OutOfMemory }
{
    if lump.is_empty() {
        return Ok(());
    }
    for n in 0..texture_count(lump) {
        let at = long_at(lump, 4 * n as usize + 4) as usize;
        textures.push(texture_from(alloc, widths, lump, at)?)?;
    }
    Ok(())
}

// The names of the flats, and the textures of two lumps.
fn graphics_of(
    alloc: Global,
    wad: &Wad<'_>,
    first: &[u8],
    second: &[u8],
) -> Result<Graphics, ReadError>
    requires first { IsTrue (are_textures first.now) }
    requires second { IsTrue (are_textures second.now) }
    ensures flats { IfOk result (λ g. g.flats.items ≡ flat_names wad.now) }
    ensures textures { IfOk result
        (λ g. g.textures.items ≡ textures_of (patch_widths wad.now) first.now
        ++ textures_of (patch_widths wad.now) second.now) }
    ensures memory { IsOkUnless result ReadError.OutOfMemory }
{
    let flats = flats_in(alloc, wad)?;
    let widths = patch_widths(alloc, wad)?;
    let mut textures = Vec::new(alloc);
    add_textures(alloc, &widths, first, &mut textures)?;
    add_textures(alloc, &widths, second, &mut textures)?;
    Ok(Graphics { flats, textures })
}

// The WAD's flats and textures.
fn graphics_named(alloc: Global, wad: &Wad<'_>) -> Result<Graphics, ReadError>
    ensures { MatchResult result
        (λ g. (graphics_refusal wad.now ≡ None) × (graphics_view g ≡ graphics wad.now))
        (RefusesGraphics wad.now) }
{
    let _ = wad.count();
    if !stands_inside(wad, b"TEXTURE1") || !stands_inside(wad, b"TEXTURE2") {
        return Err(ReadError::LumpOutside);
    }
    let first = lump_of_name(wad, b"TEXTURE1");
    let second = lump_of_name(wad, b"TEXTURE2");
    if !are_textures(first) || !are_textures(second) {
        return Err(ReadError::TextureLump);
    }
    graphics_of(alloc, wad, first, second)
}

/// The names of a WAD's flats, in the order of its directory, and its textures, those of TEXTURE1 before those of
/// TEXTURE2 (docs/FORMAT.md, "Flats and textures").
///
/// # Errors
///
/// The first of `NotAWad`, `DirectoryOutside`, `LumpOutside`, `TextureLump` that applies; or `OutOfMemory`.
pub fn graphics_in(alloc: Global, bytes: &[u8]) -> Result<Graphics, ReadError>
    ensures { MatchResult result
        (λ g. (graphics_refusal bytes.now ≡ None) × (graphics_view g ≡ graphics bytes.now))
        (RefusesGraphics bytes.now) }
{
    match read_wad(bytes) {
        Ok(wad) => graphics_named(alloc, &wad),
        Err(error) => Err(error),
    }
}
