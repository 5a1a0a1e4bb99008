//! The maps of a project and the levels of a WAD that names ask for.
ghost use Rattle.std.specs.Prelude.{◌≡◌, ◌∷◌, [], ◌++◌, IfErr, IfOk, IsOkUnless, OnOk, filter, map, string_bytes};
ghost use Rattle.wad_levels.specs.Called.{is_asked_of};
ghost use Rattle.map_tables.specs.Projects.{project_of};
ghost use Rattle.cli_dump.specs.Asked.{AreAsked, RefusesAsked, asked_among, has_level_called, has_map_called, have_levels, have_maps};

use cli_print::map_called;
use map_tables::Maps;
use std::alloc::Global;
use wad_file::Wad;
use wad_levels::{LevelEntries, ReadError, is_asked_of, last_called, last_of_each, levels_in};

// Whether a map has the name.
fn has_map_called(maps: &Maps, name: &[u8]) -> bool
    ensures { result ≡ has_map_called (project_of maps.now) name.now }
{
    map_called(maps, name).is_some()
}

/// Whether each of the names is the name of a map.
pub(crate) fn have_maps(maps: &Maps, names: &[String]) -> bool
    ensures { result ≡ have_maps (project_of maps.now) (map string_bytes names.now) }
{
    for name in names {
        if !has_map_called(maps, name.as_bytes()) {
            return false;
        }
    }
    true
}

// Whether one of the levels has the name.
fn has_level_called(wad: &Wad<'_>, levels: &[LevelEntries], name: &[u8]) -> bool
    ensures { result ≡ has_level_called wad.now levels.now name.now }
{
    last_called(wad, levels, name).is_some()
}

// Whether each of the names is the name of one of the levels.
fn have_levels(wad: &Wad<'_>, levels: &[LevelEntries], names: &[String]) -> bool
    ensures { result ≡ have_levels wad.now levels.now (map string_bytes names.now) }
{
    for name in names {
        if !has_level_called(wad, levels, name.as_bytes()) {
            return false;
        }
    }
    true
}

// Adds a level to the others if it is asked for.
fn add_asked(
    names: &[String],
    last: &[LevelEntries],
    level: LevelEntries,
    asked: &mut Vec<LevelEntries>,
) -> Result<(), ReadError>
    ensures added { OnOk result (asked.new.items ≡ asked.old.items
        ++ filter (is_asked_of (map string_bytes names.now) last.now) (level ∷ [])) }
    ensures memory { IsOkUnless result ReadError.OutOfMemory }
{
    if !is_asked_of(names, last, level) {
        return Ok(());
    }
    match asked.push(level) {
        Ok(()) => Ok(()),
        Err(_) => Err(ReadError::OutOfMemory),
    }
}

// Those of the levels that are asked for, by their names' last ones.
fn those_asked(
    alloc: Global,
    names: &[String],
    last: &[LevelEntries],
    levels: &[LevelEntries],
) -> Result<Vec<LevelEntries>, ReadError>
    ensures asked { IfOk result (λ asked. asked.items
        ≡ filter (is_asked_of (map string_bytes names.now) last.now) levels.now) }
    ensures memory { IsOkUnless result ReadError.OutOfMemory }
{
    let mut asked = Vec::new(alloc);
    for level in levels {
        match add_asked(names, last, *level, &mut asked) {
            Ok(()) => {}
            Err(error) => return Err(error),
        }
    }
    Ok(asked)
}

// Those of the levels that are asked for.
fn asked_among(
    alloc: Global,
    wad: &Wad<'_>,
    names: &[String],
    levels: &[LevelEntries],
) -> Result<Vec<LevelEntries>, ReadError>
    ensures asked { IfOk result (λ asked. asked.items
        ≡ asked_among wad.now (map string_bytes names.now) levels.now) }
    ensures memory { IsOkUnless result ReadError.OutOfMemory }
{
    match last_of_each(alloc, wad, levels, names) {
        Ok(last) => those_asked(alloc, names, &last, levels),
        Err(error) => Err(error),
    }
}

/// The levels of a WAD that are asked for, in the order of its directory: the last one with each of the names, or all
/// if there are no names. Each of the names has to be the name of a level.
pub(crate) fn asked_levels(
    alloc: Global,
    wad: &Wad<'_>,
    names: &[String],
) -> Result<Vec<LevelEntries>, ReadError>
    ensures asked { IfOk result (λ asked.
        AreAsked wad.now (map string_bytes names.now) asked.items) }
    ensures refused { IfErr result (RefusesAsked wad.now (map string_bytes names.now)) }
{
    let levels = match levels_in(alloc, wad) {
        Ok(levels) => levels,
        Err(_) => return Err(ReadError::OutOfMemory),
    };
    if !have_levels(wad, &levels, names) {
        return Err(ReadError::NoSuchLevel);
    }
    asked_among(alloc, wad, names, &levels)
}
