//! Lists the lumps of a WAD in their order, with new ones for the levels that are built anew.
ghost use Rattle.std.specs.Prelude.{◌≡◌, ◌<◌, ◌≤◌, [], ◌∷◌, All, MatchResult, get_or, map};
ghost use Rattle.wad_levels.specs.Entries.{IsLevelAt};
ghost use Rattle.wad_file.specs.Directory.{lump_count};
ghost use Rattle.wad_file.specs.Placed.{AtHand};
ghost use Rattle.wad_rebuild.specs.Held.{HasDirectory, at_hand, directory_of, kept_at, kept_between, part_of_entry, placed_after, placed_lumps, placed_up_to};
ghost use Rattle.wad_levels.specs.Drawn.{level_lump};
ghost use Rattle.wad_rebuild.specs.Made.{reject_of};
ghost use Rattle.wad_rebuild.specs.Parts.{AddsPlaced, HasLumps, IsWithin, RefusesPut};
ghost use Rattle.wad_rebuild.specs.Rebuilt.{ten_bytes, ten_lumps};

use crate::error::RebuildError;
use crate::held::{Held, entry_in, is_drawn_name};
use crate::levels::{Fate, RebuiltLevel};
use crate::made::MadeLumps;
use lump_records::Name8;
use wad_file::{Entry, LumpList, Wad};
use wad_levels::{LUMP_NAMES, LevelEntries, level_lump};

/// The lumps of a WAD that may have `most` bytes. Those that don't stand in memory have their places in the old WAD.
#[derive(Drop)]
pub struct BoundedWad<'a> {
    pub lumps: LumpList<'a>,
    pub most: u64,
}

// Lists a lump that is at hand.
fn put_lump<'a>(to: &mut BoundedWad<'a>, name: Name8, bytes: &'a [u8]) -> Result<(), RebuildError>
    requires { IsWithin to.old }
    ensures { MatchResult result
        (λ _. AddsPlaced to.old to.new (record { name = name; content = AtHand bytes.now } ∷ []))
        (RefusesPut to.old (record { name = name; content = AtHand bytes.now } ∷ [])) }
{
    if !to.lumps.has_room(bytes.len(), to.most) {
        return Err(RebuildError::TooLong);
    }
    match to.lumps.push(name, bytes) {
        Ok(()) => Ok(()),
        Err(_) => Err(RebuildError::OutOfMemory),
    }
}

// Lists a lump where it stands in the file.
fn put_part(to: &mut BoundedWad<'_>, entry: Entry) -> Result<(), RebuildError>
    requires { IsWithin to.old }
    ensures { MatchResult result
        (λ _. AddsPlaced to.old to.new
        (record { name = entry.name; content = part_of_entry entry } ∷ []))
        (RefusesPut to.old (record { name = entry.name; content = part_of_entry entry } ∷ [])) }
{
    if !to.lumps.has_room(entry.size as usize, to.most) {
        return Err(RebuildError::TooLong);
    }
    match to.lumps.push_part(entry.name, entry.at, entry.size) {
        Ok(()) => Ok(()),
        Err(_) => Err(RebuildError::OutOfMemory),
    }
}

// Lists the lump of the k-th entry, which stands in memory.
fn put_held<'a>(wad: &Wad<'a>, k: u32, to: &mut BoundedWad<'a>) -> Result<(), RebuildError>
    requires wad { HasLumps wad.now }
    requires among { k < lump_count wad.now }
    requires fits { IsWithin to.old }
    ensures { MatchResult result
        (λ _. AddsPlaced to.old to.new (kept_at wad.now None k ∷ []))
        (RefusesPut to.old (kept_at wad.now None k ∷ [])) }
{
    match put_lump(to, wad.name(k), wad.standing(k)) {
        Ok(()) => Ok(()),
        Err(error) => Err(error),
    }
}

// Lists the lump of the k-th entry.
fn put_kept<'a>(
    wad: &Wad<'a>,
    held: &Held<'_>,
    k: u32,
    to: &mut BoundedWad<'a>,
) -> Result<(), RebuildError>
    requires wad { HasLumps wad.now }
    requires directory { HasDirectory wad.now (directory_of held.now) }
    requires among { k < lump_count wad.now }
    requires fits { IsWithin to.old }
    ensures { MatchResult result
        (λ _. AddsPlaced to.old to.new (kept_at wad.now (directory_of held.now) k ∷ []))
        (RefusesPut to.old (kept_at wad.now (directory_of held.now) k ∷ [])) }
{
    let name = wad.name(k);
    match held {
        Held::Whole => put_held(wad, k, to),
        Held::Drawn(directory) => {
            if is_drawn_name(name.text()) {
                return put_held(wad, k, to);
            }
            let place = entry_in(directory, k);
            put_part(
                to,
                Entry {
                    at: place.at,
                    size: place.size,
                    name,
                },
            )
        }
    }
}

// Lists the lumps of the entries from `from` up to `end`, which isn't among them.
fn put_between<'a>(
    wad: &Wad<'a>,
    held: &Held<'_>,
    from: u32,
    end: u32,
    to: &mut BoundedWad<'a>,
) -> Result<(), RebuildError>
    requires wad { HasLumps wad.now }
    requires directory { HasDirectory wad.now (directory_of held.now) }
    requires among { end ≤ lump_count wad.now }
    requires fits { IsWithin to.old }
    ensures { MatchResult result
        (λ _. AddsPlaced to.old to.new (kept_between wad.now (directory_of held.now) from end))
        (RefusesPut to.old (kept_between wad.now (directory_of held.now) from end)) }
{
    for k in from..end {
        match put_kept(wad, held, k, to) {
            Ok(()) => {}
            Err(error) => return Err(error),
        }
    }
    Ok(())
}

// The bytes of REJECT of a level that is built anew: a new one, or its own.
fn reject_of<'a>(wad: &Wad<'a>, level: LevelEntries, made: &'a MadeLumps) -> &'a [u8]
    ensures { result.now ≡ reject_of (level_lump wad.now level 8) made.now }
{
    match &made.reject {
        Some(bytes) => bytes,
        None => level_lump(wad, level, 8),
    }
}

// The bytes of a lump of a level that is built anew, by its number in the order of `LUMP_NAMES`.
fn made_lump<'a>(wad: &Wad<'a>, level: LevelEntries, made: &'a MadeLumps, n: usize) -> &'a [u8]
    requires number { n < 10 }
    ensures { result.now ≡ get_or (ten_bytes wad.now level made.now) n [] }
{
    match n {
        3 => &made.vertices,
        4 => &made.segs,
        5 => &made.subs,
        6 => &made.nodes,
        8 => reject_of(wad, level, made),
        9 => &made.blockmap,
        _ => level_lump(wad, level, n),
    }
}

// Lists the ten lumps of a level that is built anew.
fn put_ten<'a>(
    wad: &Wad<'a>,
    level: LevelEntries,
    made: &'a MadeLumps,
    to: &mut BoundedWad<'a>,
) -> Result<(), RebuildError>
    requires wad { HasLumps wad.now }
    requires fits { IsWithin to.old }
    ensures { MatchResult result
        (λ _. AddsPlaced to.old to.new (map at_hand (ten_lumps wad.now level made.now)))
        (RefusesPut to.old (map at_hand (ten_lumps wad.now level made.now))) }
{
    for n in 0..LUMP_NAMES.len() {
        match put_lump(to, LUMP_NAMES[n], made_lump(&*wad, level, made, n)) {
            Ok(()) => {}
            Err(error) => return Err(error),
        }
    }
    Ok(())
}

// Lists the lumps of a level that is built anew.
fn put_made<'a>(
    wad: &Wad<'a>,
    held: &Held<'_>,
    level: LevelEntries,
    made: &'a MadeLumps,
    to: &mut BoundedWad<'a>,
) -> Result<(), RebuildError>
    requires wad { HasLumps wad.now }
    requires directory { HasDirectory wad.now (directory_of held.now) }
    requires level { IsLevelAt wad.now level }
    requires fits { IsWithin to.old }
    ensures { MatchResult result
        (λ _. AddsPlaced to.old to.new
        (placed_after wad.now (directory_of held.now) level (Fate.Made made.now)))
        (RefusesPut to.old
        (placed_after wad.now (directory_of held.now) level (Fate.Made made.now))) }
{
    match put_kept(wad, held, level.marker, to) {
        Ok(()) => {}
        Err(error) => return Err(error),
    }
    match put_ten(wad, level, made, to) {
        Ok(()) => Ok(()),
        Err(error) => Err(error),
    }
}

// Lists a level's lumps: the new ones if it is built anew, otherwise the old ones.
fn put_level<'a>(
    wad: &Wad<'a>,
    held: &Held<'_>,
    level: &'a RebuiltLevel,
    to: &mut BoundedWad<'a>,
) -> Result<(), RebuildError>
    requires wad { HasLumps wad.now }
    requires directory { HasDirectory wad.now (directory_of held.now) }
    requires level { IsLevelAt wad.now level.now.entries }
    requires fits { IsWithin to.old }
    ensures { MatchResult result
        (λ _. AddsPlaced to.old to.new
        (placed_after wad.now (directory_of held.now) level.now.entries level.now.fate))
        (RefusesPut to.old
        (placed_after wad.now (directory_of held.now) level.now.entries level.now.fate)) }
{
    match &level.fate {
        Fate::Made(made) => put_made(wad, held, level.entries, made, to),
        Fate::NotAsked => put_between(wad, held, level.entries.marker, level.entries.gl_end, to),
        Fate::Left(_) => put_between(wad, held, level.entries.marker, level.entries.gl_end, to),
    }
}

// Lists the lumps from the k-th entry up to a level, then those of the level.
fn put_up_to<'a>(
    wad: &Wad<'a>,
    held: &Held<'_>,
    k: u32,
    level: &'a RebuiltLevel,
    to: &mut BoundedWad<'a>,
) -> Result<(), RebuildError>
    requires wad { HasLumps wad.now }
    requires directory { HasDirectory wad.now (directory_of held.now) }
    requires level { IsLevelAt wad.now level.now.entries }
    requires fits { IsWithin to.old }
    ensures { MatchResult result
        (λ _. AddsPlaced to.old to.new (placed_up_to wad.now (directory_of held.now) k level.now))
        (RefusesPut to.old (placed_up_to wad.now (directory_of held.now) k level.now)) }
{
    match put_between(wad, held, k, level.entries.marker, to) {
        Ok(()) => {}
        Err(error) => return Err(error),
    }
    match put_level(wad, held, level, to) {
        Ok(()) => Ok(()),
        Err(error) => Err(error),
    }
}

/// Lists the lumps of a WAD, with new ones for the levels that are built anew.
pub fn put_rebuilt<'a>(
    wad: &Wad<'a>,
    held: &Held<'_>,
    levels: &'a [RebuiltLevel],
    to: &mut BoundedWad<'a>,
) -> Result<(), RebuildError>
    requires wad { HasLumps wad.now }
    requires directory { HasDirectory wad.now (directory_of held.now) }
    requires levels { All (λ l. IsLevelAt wad.now l.entries) levels.now }
    requires fits { IsWithin to.old }
    ensures { MatchResult result
        (λ _. AddsPlaced to.old to.new (placed_lumps wad.now (directory_of held.now) levels.now))
        (RefusesPut to.old (placed_lumps wad.now (directory_of held.now) levels.now)) }
{
    let mut next = 0;
    for n in 0..levels.len() {
        let level = &levels[n];
        match put_up_to(wad, held, next, level, to) {
            Ok(()) => {}
            Err(error) => return Err(error),
        }
        next = level.entries.gl_end;
    }
    match put_between(wad, held, next, wad.count(), to) {
        Ok(()) => Ok(()),
        Err(error) => Err(error),
    }
}
