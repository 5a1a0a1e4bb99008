//! The levels of a WAD that a request asks for.
ghost use Rattle.std.specs.Prelude.{◌≡◌, ◌∷◌, [], IfErr, IfOk, option_map};
ghost use Rattle.cli_print.specs.WantedLevels.{AreWanted, IsWanted, RefusesAllWanted, RefusesWanted, wanted_of};

use std::alloc::Global;
use wad_file::Wad;
use wad_levels::{LevelEntries, ReadError, last_called, levels_in};

// A list of one level.
fn alone(alloc: Global, level: LevelEntries) -> Result<Vec<LevelEntries>, ReadError>
    ensures alone { IfOk result (λ levels. levels.items ≡ level ∷ []) }
    ensures memory { IfErr result (λ e. e ≡ ReadError.OutOfMemory) }
{
    let mut levels = Vec::new(alloc);
    match levels.push(level) {
        Ok(()) => Ok(levels),
        Err(_) => Err(ReadError::OutOfMemory),
    }
}

// The last level with the name, or the first of all if no name is asked for.
fn wanted_of(wad: &Wad<'_>, levels: &[LevelEntries], name: Option<&str>) -> Option<LevelEntries>
    ensures { result ≡ wanted_of wad.now (option_map (λ s. s.now) name.entry) levels.now }
{
    match name {
        Some(name) => last_called(wad, levels, name.as_bytes()),
        None => levels.first().copied(),
    }
}

/// The wanted level of a WAD: the last one with the name, or the first of all if no name is asked for.
pub fn wanted_level(
    alloc: Global,
    wad: &Wad<'_>,
    name: Option<&str>,
) -> Result<LevelEntries, ReadError>
    ensures wanted { IfOk result (IsWanted wad.now (option_map (λ s. s.now) name.entry)) }
    ensures refused { IfErr result (RefusesWanted wad.now (option_map (λ s. s.now) name.entry)) }
{
    let levels = match levels_in(alloc, wad) {
        Ok(levels) => levels,
        Err(_) => return Err(ReadError::OutOfMemory),
    };
    match wanted_of(wad, &levels, name) {
        Some(level) => Ok(level),
        None => Err(ReadError::NoSuchLevel),
    }
}

/// The wanted levels of a WAD: all in the order of its directory, or the last one with the name.
pub(crate) fn wanted_levels(
    alloc: Global,
    wad: &Wad<'_>,
    name: Option<&str>,
) -> Result<Vec<LevelEntries>, ReadError>
    ensures wanted { IfOk result (λ levels.
        AreWanted wad.now (option_map (λ s. s.now) name.entry) levels.items) }
    ensures refused { IfErr result
        (RefusesAllWanted wad.now (option_map (λ s. s.now) name.entry)) }
{
    if name.is_none() {
        return levels_in(alloc, wad);
    }
    match wanted_level(alloc, wad, name) {
        Ok(level) => alone(alloc, level),
        Err(error) => Err(error),
    }
}
