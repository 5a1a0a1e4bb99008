//! Reads what was drawn of a level of any WAD, or finds the first cause that prevents a build.
ghost use Rattle.std.specs.Prelude.{◌≡◌, ◌<◌, None, IfOk, IsOkUnless, MatchResult};
ghost use Rattle.std.specs.Option.{option_or};
ghost use Rattle.wad_levels.specs.Drawn.{Hinders, drawn_lists, drawn_view, entries_hindrance, entry_hindrance, form_hindrance, hindrance, level_lump, lump_hindrance};
ghost use Rattle.wad_file.specs.Directory.{lump_count};
ghost use Rattle.wad_levels.specs.Lengths.{HindersReading};

use crate::entries::{LevelEntries, LevelForm, lump_entry};
use crate::hindrance::Hindrance;
use crate::needs::lists_hindrance;
use lump_records::{
    Line, Sector, Side, Thing, Vertex, decode_lines, decode_sectors, decode_sides, decode_things,
    decode_vertices,
};
use std::alloc::Global;
use wad_file::Wad;

/// What was drawn of a level, and the bytes of its REJECT: none if it has none, or one that ends beyond the file.
pub struct Drawn {
    pub things: Vec<Thing>,
    pub lines: Vec<Line>,
    pub sides: Vec<Side>,
    pub vertices: Vec<Vertex>,
    pub sectors: Vec<Sector>,
    pub reject: Vec<u8>,
}

// A call of its own, so that the owner of the lists drops them in one step.
impl Drop for Drawn {
    fn drop(self) {
        let Drawn {
            things: _things,
            lines: _lines,
            sides: _sides,
            vertices: _vertices,
            sectors: _sectors,
            reject: _reject,
        } = self;
    }
}

/// The bytes of the level's lump with this number in `LUMP_NAMES`: none if the level has no such lump, or one
/// that ends beyond the file.
pub fn level_lump<'a>(wad: &Wad<'a>, level: LevelEntries, number: usize) -> &'a [u8]
    ensures { result.now ≡ level_lump wad.now level number }
{
    match lump_entry(wad, level, number) {
        Some(k) => wad.standing(k),
        None => &[],
    }
}

// A copy of the bytes of the level's REJECT.
fn reject_of(alloc: Global, wad: &Wad<'_>, level: LevelEntries) -> Result<Vec<u8>, Hindrance>
    ensures bytes { IfOk result (λ v. v.items ≡ level_lump wad.now level 8) }
    ensures memory { IsOkUnless result Hindrance.OutOfMemory }
{
    let mut bytes = Vec::new(alloc);
    bytes.extend_from_slice(level_lump(wad, level, 8))?;
    Ok(bytes)
}

// Reads what was drawn of a level whose lumps are whole records long, so only memory can run out.
fn drawn_of(alloc: Global, wad: &Wad<'_>, level: LevelEntries) -> Result<Drawn, Hindrance>
    ensures drawn { IfOk result (λ drawn. drawn_view drawn ≡ drawn_lists wad.now level) }
    ensures memory { IsOkUnless result Hindrance.OutOfMemory }
{
    Ok(Drawn {
        things: decode_things(alloc, level_lump(wad, level, 0)).map_err(
            |_| Hindrance::OutOfMemory,
        )?,
        lines: decode_lines(alloc, level_lump(wad, level, 1)).map_err(|_| Hindrance::OutOfMemory)?,
        sides: decode_sides(alloc, level_lump(wad, level, 2)).map_err(|_| Hindrance::OutOfMemory)?,
        vertices: decode_vertices(alloc, level_lump(wad, level, 3)).map_err(
            |_| Hindrance::OutOfMemory,
        )?,
        sectors: decode_sectors(alloc, level_lump(wad, level, 7)).map_err(
            |_| Hindrance::OutOfMemory,
        )?,
        reject: reject_of(alloc, wad, level)?,
    })
}

/// The first of two hindrances.
pub fn first_of(first: Option<Hindrance>, second: Option<Hindrance>) -> Option<Hindrance>
    ensures { result ≡ option_or first second }
{
    match first {
        Some(hindrance) => Some(hindrance),
        None => second,
    }
}

// The hindrance of the level's form, if there is one.
fn form_hindrance(form: LevelForm) -> Option<Hindrance>
    ensures { result ≡ form_hindrance form }
{
    match form {
        LevelForm::Doom => None,
        LevelForm::Hexen => Some(Hindrance::HexenLevel),
        LevelForm::Udmf => Some(Hindrance::UdmfLevel),
    }
}

// The hindrance of an entry's lump with records of this size, if there is one.
fn entry_hindrance(wad: &Wad<'_>, number: usize, size: u32, k: u32) -> Option<Hindrance>
    requires among { k < lump_count wad.now }
    requires some { 0 < size }
    ensures { result ≡ entry_hindrance wad.now number size k }
{
    let entry = wad.entry(k);
    if wad.is_outside(entry) {
        return Some(Hindrance::LumpOutside(number));
    }
    if entry.size % size != 0 {
        return Some(Hindrance::LumpLength(number));
    }
    None
}

// The hindrance of the level's lump with this number, if there is one.
fn lump_hindrance(wad: &Wad<'_>, level: LevelEntries, number: usize, size: u32) -> Option<Hindrance>
    requires some { 0 < size }
    ensures { result ≡ lump_hindrance wad.now level number size }
{
    match lump_entry(wad, level, number) {
        Some(k) => entry_hindrance(wad, number, size, k),
        None => Some(Hindrance::LumpMissing(number)),
    }
}

// The first hindrance of the level's form and of its drawn lumps.
fn entries_hindrance(wad: &Wad<'_>, level: LevelEntries) -> Option<Hindrance>
    ensures { result ≡ entries_hindrance wad.now level }
{
    let sides = first_of(
        lump_hindrance(wad, level, 1, 14),
        first_of(
            lump_hindrance(wad, level, 2, 30),
            first_of(
                lump_hindrance(wad, level, 3, 4),
                lump_hindrance(wad, level, 7, 26),
            ),
        ),
    );
    let lumps = first_of(lump_hindrance(wad, level, 0, 10), sides);
    first_of(form_hindrance(level.form), lumps)
}

/// Reads what was drawn of a level, exactly as its lumps hold it, whether or not a level can be built of it.
///
/// # Errors
///
/// The first cause of the level's form or of its drawn lumps why they can't be read, in the order of docs/FORMAT.md,
/// "Levels of other WADs"; or `OutOfMemory`.
pub fn read_lists(alloc: Global, wad: &Wad<'_>, level: LevelEntries) -> Result<Drawn, Hindrance>
    ensures { MatchResult result
        (λ drawn. (entries_hindrance wad.now level ≡ None)
        × (drawn_view drawn ≡ drawn_lists wad.now level))
        (HindersReading wad.now level) }
{
    if let Some(hindrance) = entries_hindrance(wad, level) {
        return Err(hindrance);
    }
    match drawn_of(alloc, wad, level) {
        Ok(drawn) => Ok(drawn),
        Err(_) => Err(Hindrance::OutOfMemory),
    }
}

/// Reads what was drawn of a level that can be built.
///
/// # Errors
///
/// The first cause why none can be built, in the order of docs/FORMAT.md, "Levels of other WADs"; or `OutOfMemory`.
pub fn read_drawn(alloc: Global, wad: &Wad<'_>, level: LevelEntries) -> Result<Drawn, Hindrance>
    ensures { MatchResult result
        (λ drawn. (hindrance wad.now level ≡ None) × (drawn_view drawn ≡ drawn_lists wad.now level))
        (Hinders wad.now level) }
{
    let drawn = match read_lists(alloc, wad, level) {
        Ok(drawn) => drawn,
        Err(hindrance) => return Err(hindrance),
    };
    match lists_hindrance(&drawn) {
        Some(hindrance) => Err(hindrance),
        None => Ok(drawn),
    }
}
