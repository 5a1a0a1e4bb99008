//! What becomes of each level of a WAD.
ghost use Rattle.std.specs.Prelude.{◌≡◌, All, IfOk, IsOkUnless, length, map, string_bytes};
ghost use Rattle.std.specs.List.{list_all, list_any, range_with_len};
ghost use Rattle.std.specs.List.Sorted.{IsPermutation};
ghost use Rattle.wad_levels.specs.Called.{last_of_each};
ghost use Rattle.wad_levels.specs.Entries.{AreLevels, level_name};
ghost use Rattle.wad_file.specs.Fields.{same_bytes};
ghost use Rattle.wad_rebuild.specs.Rebuilt.{AreRebuilt, IsFate, has_level};

use crate::cause::Cause;
use crate::error::RebuildError;
use crate::made::MadeLumps;
use crate::remade::remake;
use lump_records::Name8;
use std::alloc::Global;
use std::cmp::Reverse;
use wad_file::Wad;
use wad_levels::{LevelEntries, is_asked_of, last_of_each, level_lump, level_name};

/// What became of a level.
pub enum Fate {
    /// It wasn't asked for, and is as it was.
    NotAsked,
    /// Its lumps were built anew.
    Made(MadeLumps),
    /// It is left as it was, for its cause.
    Left(Cause),
}

// Its own `drop`, so that an owner's proof has one call at each exit.
impl Drop for Fate {
    fn drop(self) {
        match self {
            Fate::NotAsked => {}
            Fate::Made(_made) => {}
            Fate::Left(_cause) => {}
        }
    }
}

/// A level of a WAD that is built anew: its name, its entries, and what became of it.
#[derive(Drop)]
pub struct RebuiltLevel {
    pub name: Name8,
    pub entries: LevelEntries,
    pub fate: Fate,
}

// Whether a level has the name.
fn is_level_name(wad: &Wad<'_>, levels: &[LevelEntries], name: &[u8]) -> bool
    requires levels { AreLevels wad.now levels.now }
    ensures { result ≡ has_level wad.now name.now }
{
    for level in levels {
        if wad.name(level.marker).text() == name {
            return true;
        }
    }
    false
}

/// Whether each of the names is the name of a level.
pub fn have_levels(wad: &Wad<'_>, levels: &[LevelEntries], names: &[String]) -> bool
    requires levels { AreLevels wad.now levels.now }
    ensures { result ≡ list_all (has_level wad.now) (map string_bytes names.now) }
{
    for name in names {
        if !is_level_name(wad, levels, name.as_bytes()) {
            return false;
        }
    }
    true
}

// What becomes of a level, whether it is asked for or not.
fn fate_of(
    alloc: Global,
    wad: &Wad<'_>,
    level: LevelEntries,
    is_asked: bool,
) -> Result<Fate, RebuildError>
    ensures fate { IfOk result (IsFate wad.now is_asked level) }
    ensures memory { IsOkUnless result RebuildError.OutOfMemory }
{
    if !is_asked {
        return Ok(Fate::NotAsked);
    }
    match remake(alloc, wad, level) {
        Ok(made) => Ok(Fate::Made(made)),
        Err(Cause::OutOfMemory) => Err(RebuildError::OutOfMemory),
        Err(cause) => Ok(Fate::Left(cause)),
    }
}

// The levels under their names, before any is built.
fn unbuilt(
    alloc: Global,
    wad: &Wad<'_>,
    levels: &[LevelEntries],
) -> Result<Vec<RebuiltLevel>, RebuildError>
    ensures levels { IfOk result (λ v. map (λ l. l.entries) v.items ≡ levels.now) }
    ensures names { IfOk result (λ v. All (λ l. l.name ≡ level_name wad.now l.entries) v.items) }
    ensures memory { IsOkUnless result RebuildError.OutOfMemory }
{
    let mut unbuilt = Vec::with_capacity(alloc, levels.len())?;
    for level in levels {
        unbuilt.push(RebuiltLevel {
            name: level_name(wad, *level),
            entries: *level,
            fate: Fate::NotAsked,
        })?;
    }
    Ok(unbuilt)
}

// The numbers of the levels.
fn numbers_of(alloc: Global, levels: &[LevelEntries]) -> Result<Vec<usize>, RebuildError>
    ensures numbers { IfOk result (λ v. v.items ≡ range_with_len 0 (length levels.now)) }
    ensures memory { IsOkUnless result RebuildError.OutOfMemory }
{
    let mut numbers = Vec::with_capacity(alloc, levels.len())?;
    for number in 0..levels.len() {
        numbers.push(number)?;
    }
    Ok(numbers)
}

// The same, those of the levels with the most lines first. The order only matters for memory: while the tree of a level
// grows, what was made of those before it stands beside it.
fn largest_first(
    alloc: Global,
    wad: &Wad<'_>,
    levels: &[LevelEntries],
) -> Result<Vec<usize>, RebuildError>
    ensures order { IfOk result (λ v.
        IsPermutation (range_with_len 0 (length levels.now)) v.items) }
    ensures memory { IsOkUnless result RebuildError.OutOfMemory }
{
    let mut order = numbers_of(alloc, levels)?;
    order.sort_by_cached_key(|number| match levels.get(*number) {
        Some(level) => Reverse(level_lump(wad, *level, 1).len()),
        None => Reverse(0),
    })?;
    Ok(order)
}

// What becomes of the levels, by their names' last ones.
fn rebuilt_by(
    alloc: Global,
    wad: &Wad<'_>,
    names: &[String],
    last: &[LevelEntries],
    levels: &[LevelEntries],
) -> Result<Vec<RebuiltLevel>, RebuildError>
    requires levels { AreLevels wad.now levels.now }
    requires last { last.now ≡ last_of_each wad.now levels.now (map string_bytes names.now) }
    ensures rebuilt { IfOk result (λ v. AreRebuilt wad.now (map string_bytes names.now) v.items) }
    ensures memory { IsOkUnless result RebuildError.OutOfMemory }
{
    let order = largest_first(alloc, wad, levels)?;
    let mut rebuilt = unbuilt(alloc, wad, levels)?;
    for number in &order {
        let level = rebuilt[*number].entries;
        let is_asked = is_asked_of(names, last, level);
        let fate = fate_of(alloc, wad, level, is_asked)?;
        rebuilt[*number].fate = fate;
    }
    Ok(rebuilt)
}

/// What becomes of the levels, each with its entries: the last one of each name is asked for, or all if there are no
/// names.
pub fn rebuilt_levels(
    alloc: Global,
    wad: &Wad<'_>,
    names: &[String],
    levels: &[LevelEntries],
) -> Result<Vec<RebuiltLevel>, RebuildError>
    requires levels { AreLevels wad.now levels.now }
    ensures rebuilt { IfOk result (λ v. AreRebuilt wad.now (map string_bytes names.now) v.items) }
    ensures memory { IsOkUnless result RebuildError.OutOfMemory }
{
    match last_of_each(alloc, wad, levels, names) {
        Ok(last) => rebuilt_by(alloc, wad, names, &last, levels),
        Err(_) => Err(RebuildError::OutOfMemory),
    }
}
