//! A map of a level of any WAD.
ghost use Rattle.std.specs.Prelude.{◌≡◌, IfOk, IsOkUnless, MatchResult, OnOk, length, map};
ghost use Rattle.std.specs.List.{range_with_len};
ghost use Rattle.wad_levels.specs.Drawn.{drawn_lists, drawn_view};
ghost use Rattle.map_tables.specs.Ranges.{IsNamed, is_marker};
ghost use Rattle.map_tables.specs.Tables.{empty_tables};
ghost use Rattle.map_tables.specs.Edits.{with_name};
ghost use Rattle.wad_import.specs.Added.{IsFine, imported_lines, no_others};
ghost use Rattle.wad_import.specs.Imported.{imported, reached_vertices};
ghost use Rattle.wad_import.specs.Once.{kept_number, place_changes};
ghost use Rattle.wad_import.specs.Outcome.{IsImported};
ghost use Rattle.wad_import.specs.Refused.{RefusesImport, RefusesLevelImport};

use crate::change::Change;
use crate::changes::changes_of;
use crate::counts::reached_vertices;
use crate::error::ImportError;
use crate::lists::{kept_lines, linked_lines, mended_sectors, mended_sides, mended_things};
use crate::needs::import_refusal;
use crate::tables::{add_lines, add_sectors, add_sides, add_things};
use crate::vertices::{Numbered, add_vertices};
use lump_records::{Line, Name8};
use map_tables::Maps;
use std::alloc::Global;
use wad_file::Wad;
use wad_levels::{Drawn, Hindrance, LevelEntries, read_lists};

/// The map that a level is, and what was changed of the level.
pub struct Imported {
    pub maps: Maps,
    pub changes: Vec<Change>,
}

// Its own `drop`, so that an owner's proof has one call at each exit.
impl Drop for Imported {
    fn drop(self) {
        let Imported {
            maps: _maps,
            changes: _changes,
        } = self;
    }
}

// A project with one empty map, which has this name.
fn named_maps(alloc: Global, name: Name8) -> Maps
    requires { IsNamed is_marker name }
    ensures tables { result.tables ≡ with_name empty_tables name }
    ensures others { result.others ≡ no_others }
{
    let mut maps = Maps::new(alloc);
    let _ = maps.set_name(name);
    maps
}

// The level's lines that stay, after the changes, between the vertices with these numbers.
fn lines_of(alloc: Global, drawn: &Drawn, numbers: &[u16]) -> Result<Vec<Line>, ImportError>
    requires fine { IsFine (drawn_view drawn.now) }
    requires numbers { let vs = reached_vertices (drawn_view drawn.now) in
        numbers.now ≡ map (kept_number vs) (range_with_len 0 (length vs)) }
    ensures list { IfOk result (λ list. list.items ≡ imported_lines (drawn_view drawn.now)) }
    ensures memory { IsOkUnless result ImportError.OutOfMemory }
{
    let kept = kept_lines(alloc, drawn)?;
    let list = linked_lines(alloc, &kept, numbers)?;
    Ok(list)
}

// Adds the level's lists after the changes to an empty map, and lists the vertices that are left out.
fn fill(alloc: Global, maps: &mut Maps, drawn: &Drawn) -> Result<Vec<Change>, ImportError>
    requires fine { IsFine (drawn_view drawn.now) }
    requires empty { maps.old.tables ≡ with_name empty_tables maps.old.tables.name }
    ensures memory { IsOkUnless result ImportError.OutOfMemory }
    ensures told { IfOk result (λ again. again.items ≡
        place_changes (reached_vertices (drawn_view drawn.now))) }
    ensures tables { OnOk result
        (maps.new.tables ≡ imported maps.old.tables.name (drawn_view drawn.now)) }
    ensures others { maps.new.others ≡ maps.old.others }
{
    let Numbered { numbers, changes } = add_vertices(alloc, maps, reached_vertices(drawn))?;
    add_sectors(maps, &mended_sectors(alloc, &drawn.sectors)?)?;
    add_sides(maps, &mended_sides(alloc, &drawn.sides)?)?;
    add_lines(maps, &lines_of(alloc, drawn, &numbers)?)?;
    add_things(maps, &mended_things(alloc, &drawn.things)?)?;
    Ok(changes)
}

/// The map with this name that a level is after the changes, and the changes.
///
/// # Errors
///
/// The first refusal of docs/FORMAT.md, "A map of a WAD's level", or `OutOfMemory`.
pub fn import_drawn(alloc: Global, drawn: &Drawn, name: Name8) -> Result<Imported, ImportError>
    ensures { MatchResult result (IsImported name (drawn_view drawn.now))
        (RefusesImport name (drawn_view drawn.now)) }
{
    if let Some(error) = import_refusal(drawn, name) {
        return Err(error);
    }
    let mut maps = named_maps(alloc, name);
    let again = match fill(alloc, &mut maps, drawn) {
        Ok(again) => again,
        Err(error) => return Err(error),
    };
    match changes_of(alloc, drawn, &again) {
        Ok(changes) => Ok(Imported { maps, changes }),
        Err(_) => Err(ImportError::OutOfMemory),
    }
}

/// The same for a level of a WAD.
///
/// # Errors
///
/// `Hindered` if what was drawn can't be read; otherwise as `import_drawn`.
pub fn import_level(
    alloc: Global,
    wad: &Wad<'_>,
    level: LevelEntries,
    name: Name8,
) -> Result<Imported, ImportError>
    ensures { MatchResult result (IsImported name (drawn_lists wad.now level))
        (RefusesLevelImport wad.now level name) }
{
    match read_lists(alloc, wad, level) {
        Ok(drawn) => import_drawn(alloc, &drawn, name),
        Err(Hindrance::OutOfMemory) => Err(ImportError::OutOfMemory),
        Err(hindrance) => Err(ImportError::Hindered(hindrance)),
    }
}
