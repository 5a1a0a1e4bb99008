//! Builds the PWAD of all maps of a project.
ghost use Rattle.std.specs.Prelude.{◌≡◌, ◌↔◌, All, Err, Some, IfOk, IfErr, OnOk, length, slice_get};
ghost use Rattle.map_tables.specs.Projects.{WellFormedProject, project_of};
ghost use Rattle.map_tables.specs.Tables.{Tables};
ghost use Rattle.wad_build.specs.Counted.{IsBuildCounted};
ghost use Rattle.wad_build.specs.Errors.{blamed};
ghost use Rattle.wad_build.specs.Projects.{AreLevelsOf, Blames, HoldsOnly, IsLevelOf, IsRefusalOfAll, IsSoundBuildOfAll};
ghost use Rattle.wad_build.specs.Sound.{CanBeBuilt, IsBuildRefusal};
ghost use Rattle.wad_build.specs.Written.{IsWadWritten, RefusesWad};
ghost use Rattle.wad_build.specs.declared.error.BuildError.TheVariants.{NothingToBuild};

use crate::build::level_of_map;
use crate::counted::{BuildCounts, BuiltWad, counted_lumps, counted_wad};
use crate::error::{BuildError, Unbuilt, Unwritten};
use crate::levels::{NamedLevel, write_pwad};
use lump_records::Name8;
use map_tables::{Map, Maps};
use std::alloc::Global;
use std::io::Write;

// The refusal with the name of its map, or with no name if memory ran out.
fn blamed(error: BuildError, name: Name8) -> Unbuilt
    ensures { result ≡ blamed error name }
{
    match error {
        BuildError::OutOfMemory => Unbuilt { error, map: None },
        _ => Unbuilt {
            error,
            map: Some(name),
        },
    }
}

// Builds the level of a map, with its name.
fn named_level<'a>(alloc: Global, map: &'a Map) -> Result<NamedLevel<'a>, BuildError>
    ensures level { IfOk result (λ level. IsLevelOf map.now.tables level) }
    ensures refused { IfErr result (IsBuildRefusal map.now.tables) }
    ensures nothing { result ≡ Err BuildError.NothingToBuild ↔ length map.now.tables.lines ≡ 0 }
{
    let name = map.name();
    match level_of_map(alloc, map) {
        Ok(level) => Ok(NamedLevel { name, level }),
        Err(error) => Err(error),
    }
}

// Builds the levels of the maps, by number.
fn levels_of<'a>(alloc: Global, maps: &'a Maps) -> Result<Vec<NamedLevel<'a>>, Unbuilt>
    ensures levels { IfOk result (λ v. AreLevelsOf (project_of maps.now).maps v.items) }
    ensures well_formed { OnOk result (WellFormedProject (project_of maps.now)) }
    ensures refused { IfErr result (λ u. Blames (project_of maps.now).maps u.error u.map) }
    ensures nothing { (m : Tables) → slice_get (project_of maps.now).maps 0 ≡ Some m
        → length m.lines ≡ 0 → result ≡ Err (blamed NothingToBuild m.name) }
{
    let mut levels = Vec::new(alloc);
    for n in 0..maps.len() {
        if let Some(map) = maps.at(n) {
            let level = match named_level(alloc, map) {
                Ok(level) => level,
                Err(error) => return Err(blamed(error, map.name())),
            };
            levels.push(level)?;
        }
    }
    Ok(levels)
}

/// Builds the PWAD of all maps of a project, as `build_all` does, and counts the records of its levels. They are
/// counted as they are written; nothing is read back.
///
/// # Errors
///
/// Those of `build_all`, with the name of the map that can't be built.
pub fn build_counted(alloc: Global, maps: &Maps) -> Result<BuiltWad, Unbuilt>
    ensures counted { IfOk result (λ built.
        IsBuildCounted (project_of maps.now).maps built.bytes.items built.counts) }
    ensures whole { IfOk result (λ built. HoldsOnly (project_of maps.now).maps built.bytes.items) }
    ensures buildable { OnOk result (All CanBeBuilt (project_of maps.now).maps) }
    ensures refused { IfErr result (λ u. Blames (project_of maps.now).maps u.error u.map) }
    ensures nothing { (m : Tables) → slice_get (project_of maps.now).maps 0 ≡ Some m
        → length m.lines ≡ 0 → result ≡ Err (blamed NothingToBuild m.name) }
{
    let levels = match levels_of(alloc, maps) {
        Ok(levels) => levels,
        Err(unbuilt) => return Err(unbuilt),
    };
    match counted_wad(alloc, &levels) {
        Ok(built) => Ok(built),
        Err(_) => Err(Unbuilt {
            error: BuildError::OutOfMemory,
            map: None,
        }),
    }
}

/// Builds the levels of all maps of a project and writes their PWAD, that of `build_all`, lump by lump, so that it
/// never stands in memory as a whole; and returns its counts. All memory is asked for before the first byte is written.
///
/// # Errors
///
/// `Build` with the refusal of `build_counted`, and nothing is written; or `Writer`.
pub fn write_all<W: Write>(
    alloc: Global,
    maps: &Maps,
    writer: &mut W,
) -> Result<BuildCounts, Unwritten>
    ensures written { IfOk result (λ counts. IsWadWritten (project_of maps.now).maps counts
        (W.contents writer.old) (W.contents writer.new)) }
    ensures buildable { OnOk result (All CanBeBuilt (project_of maps.now).maps) }
    ensures refused { IfErr result (λ e. RefusesWad (project_of maps.now).maps e
        (W.contents writer.old) (W.contents writer.new)) }
    ensures nothing { (m : Tables) → slice_get (project_of maps.now).maps 0 ≡ Some m
        → length m.lines ≡ 0 → result ≡ Err (Unwritten.Build (blamed NothingToBuild m.name)) }
{
    let levels = match levels_of(alloc, maps) {
        Ok(levels) => levels,
        Err(unbuilt) => return Err(Unwritten::Build(unbuilt)),
    };
    let Ok(counted) = counted_lumps(alloc, &levels) else {
        return Err(Unwritten::Build(Unbuilt {
            error: BuildError::OutOfMemory,
            map: None,
        }));
    };
    match write_pwad(&counted.lumps, &levels, writer) {
        Ok(()) => Ok(counted.counts),
        Err(_) => Err(Unwritten::Writer),
    }
}

/// Builds the PWAD of all maps of a project, by number: each map's level with all eleven lumps under its name, and
/// no other lump.
///
/// # Errors
///
/// Those of `build_wad` for the first map by number that can't be built; or `OutOfMemory`.
pub fn build_all(alloc: Global, maps: &Maps) -> Result<Vec<u8>, BuildError>
    ensures sound { IfOk result (λ wad. IsSoundBuildOfAll (project_of maps.now).maps wad.items) }
    ensures whole { IfOk result (λ wad. HoldsOnly (project_of maps.now).maps wad.items) }
    ensures buildable { OnOk result (All CanBeBuilt (project_of maps.now).maps) }
    ensures refused { IfErr result (IsRefusalOfAll (project_of maps.now).maps) }
    ensures nothing { (m : Tables) → slice_get (project_of maps.now).maps 0 ≡ Some m
        → length m.lines ≡ 0 → result ≡ Err BuildError.NothingToBuild }
{
    match build_counted(alloc, maps) {
        Ok(built) => Ok(built.bytes),
        Err(unbuilt) => Err(unbuilt.error),
    }
}
