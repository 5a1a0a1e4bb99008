//! The levels that names ask for: of a name that several levels have, the last one counts.
ghost use Rattle.std.specs.Prelude.{◌≡◌, ◌++◌, IfOk, IsOkUnless, OnOk, map, option_to_list, string_bytes};
ghost use Rattle.wad_levels.specs.Called.{is_asked_of, is_level_among, is_level_called, last_called, last_of_each};

use crate::entries::{LevelEntries, level_name};
use crate::error::ReadError;
use std::alloc::Global;
use wad_file::Wad;

// Whether the level has the name.
fn is_level_called(wad: &Wad<'_>, level: LevelEntries, name: &[u8]) -> bool
    ensures { result ≡ is_level_called wad.now name.now level }
{
    level_name(wad, level).text() == name
}

/// The last of the levels with the name.
pub fn last_called(wad: &Wad<'_>, levels: &[LevelEntries], name: &[u8]) -> Option<LevelEntries>
    ensures { result ≡ last_called wad.now levels.now name.now }
{
    let mut last = None;
    for level in levels {
        if is_level_called(wad, *level, name) {
            last = Some(*level);
        }
    }
    last
}

// Adds the last of the levels with the name, if there is one.
fn add_last(
    wad: &Wad<'_>,
    levels: &[LevelEntries],
    name: &[u8],
    last: &mut Vec<LevelEntries>,
) -> Result<(), ReadError>
    ensures added { OnOk result (last.new.items ≡ last.old.items
        ++ option_to_list (last_called wad.now levels.now name.now)) }
    ensures memory { IsOkUnless result ReadError.OutOfMemory }
{
    match last_called(wad, levels, name) {
        Some(level) => match last.push(level) {
            Ok(()) => Ok(()),
            Err(_) => Err(ReadError::OutOfMemory),
        },
        None => Ok(()),
    }
}

/// The last of the levels with each of the names, for the names that a level has.
pub fn last_of_each(
    alloc: Global,
    wad: &Wad<'_>,
    levels: &[LevelEntries],
    names: &[String],
) -> Result<Vec<LevelEntries>, ReadError>
    ensures last { IfOk result (λ last. last.items
        ≡ last_of_each wad.now levels.now (map string_bytes names.now)) }
    ensures memory { IsOkUnless result ReadError.OutOfMemory }
{
    let mut last = Vec::new(alloc);
    for name in names {
        match add_last(wad, levels, name.as_bytes(), &mut last) {
            Ok(()) => {}
            Err(error) => return Err(error),
        }
    }
    Ok(last)
}

// Whether the level is one of these.
fn is_level_among(levels: &[LevelEntries], level: LevelEntries) -> bool
    ensures { result ≡ is_level_among levels.now level }
{
    levels.iter().any(|own| own.marker == level.marker)
}

/// Whether a level is asked for: there are no names, or it is one of their last ones, as `last_of_each` gives them.
pub fn is_asked_of(names: &[String], last: &[LevelEntries], level: LevelEntries) -> bool
    ensures { result ≡ is_asked_of (map string_bytes names.now) last.now level }
{
    if names.is_empty() {
        return true;
    }
    is_level_among(last, level)
}
