//! The maps that the levels of a WAD are after the changes, and what `check` writes about one.
ghost use Rattle.std.specs.Prelude.{◌≡◌, ◌≤◌, None, IfErr, IfOk, MatchResult, option_map};
ghost use Rattle.wad_import.specs.Imported.{changes};
ghost use Rattle.wad_import.specs.Refused.{RefusesLevelImport};
ghost use Rattle.wad_levels.specs.Drawn.{drawn_lists};
ghost use Rattle.wad_levels.specs.Entries.{level_name};
ghost use Rattle.map_tables.specs.ProjectBody.{alone};
ghost use Rattle.map_tables.specs.Projects.{project_of};
ghost use Rattle.cli_print.specs.LevelLines.{IsMapRefusal, IsWadChecked, level_map, map_refusal};

use crate::findings::tell;
use crate::origin::NoOrigin;
use crate::wanted::wanted_level;
use cli_refusals::Refusal;
use run_edit::{EditorError, InspectError};
use std::alloc::Global;
use std::io::Write;
use wad_file::Wad;
use wad_import::{ImportError, Imported, import_drawn};
use wad_levels::{Hindrance, LevelEntries, level_name, read_lists, read_wad};

/// The map that a level is after the changes, alone in a project, and the changes; or why it is none.
pub fn map_of_level(
    alloc: Global,
    wad: &Wad<'_>,
    level: LevelEntries,
) -> Result<Imported, ImportError>
    ensures { MatchResult result
        (λ i. (map_refusal wad.now level ≡ None)
        × (project_of i.maps ≡ alone (level_map wad.now level))
        × (i.changes.items ≡ changes (drawn_lists wad.now level)))
        (RefusesLevelImport wad.now level (level_name wad.now level)) }
{
    let name = level_name(wad, level);
    match read_lists(alloc, wad, level) {
        Ok(drawn) => import_drawn(alloc, &drawn, name),
        Err(Hindrance::OutOfMemory) => Err(ImportError::OutOfMemory),
        Err(hindrance) => Err(ImportError::Hindered(hindrance)),
    }
}

/// The same; if the level is no map, with the refusal of the request.
pub fn map_or_refusal(
    alloc: Global,
    wad: &Wad<'_>,
    level: LevelEntries,
) -> Result<Imported, Refusal>
    ensures map { IfOk result (λ i. (map_refusal wad.now level ≡ None)
        × (project_of i.maps ≡ alone (level_map wad.now level))) }
    ensures refused { IfErr result (IsMapRefusal wad.now level) }
{
    match map_of_level(alloc, wad, level) {
        Ok(found) => Ok(found),
        Err(ImportError::OutOfMemory) => Err(Refusal::Lines(EditorError::OutOfMemory)),
        Err(error) => Err(Refusal::NotAMap(error)),
    }
}

// Writes the findings of the map that the wanted level is, and flushes the writer.
fn tell_wanted<W: Write>(
    alloc: Global,
    wad: &Wad<'_>,
    name: Option<&str>,
    writer: &mut W,
) -> Result<u8, Refusal>
    ensures small { IfOk result (λ s. s ≤ 3) }
    ensures told { IsWadChecked wad.now (option_map (λ s. s.now) name.entry) result
        (W.contents writer.old) (W.contents writer.new) }
{
    let level = match wanted_level(alloc, wad, name) {
        Ok(level) => level,
        Err(error) => return Err(Refusal::Level(InspectError::Level(error))),
    };
    match map_or_refusal(alloc, wad, level) {
        Ok(found) => tell(alloc, found.maps.current(), &NoOrigin, writer),
        Err(refusal) => Err(refusal),
    }
}

/// Writes the findings of the map that a level of a WAD is after the changes of `wad_import`: the last level with the
/// name, or the first of all if no name is asked for. Flushes the writer.
pub fn tell_level_findings<W: Write>(
    alloc: Global,
    wad: &[u8],
    name: Option<&str>,
    writer: &mut W,
) -> Result<u8, Refusal>
    ensures small { IfOk result (λ s. s ≤ 3) }
    ensures told { IsWadChecked wad.now (option_map (λ s. s.now) name.entry) result
        (W.contents writer.old) (W.contents writer.new) }
{
    match read_wad(wad) {
        Ok(wad) => tell_wanted(alloc, &wad, name, writer),
        Err(error) => Err(Refusal::Level(InspectError::Level(error))),
    }
}
