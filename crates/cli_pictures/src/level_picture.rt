//! What `picture` draws of a WAD: a level as the map that it is after the changes, and the tree that the WAD has of it.
ghost use Rattle.std.specs.Prelude.{◌≡◌, ◌≤◌, ◌⊎◌, IfErr, IfOk, is_some, option_map};
ghost use Rattle.run_edit.specs.declared.error.EditorError.TheVariants.{OutOfMemory};
ghost use Rattle.cli_refusals.specs.declared.refusal.Refusal.{Refusal};
ghost use Rattle.cli_pictures.specs.LevelPicture.{IsLaidOverLevel, IsLevelPicturedOf, RefusesLayers, refusal_for_tree};

use crate::laid_over::{Layers, marks_shown, without_tree};
use crate::level_tree::{TreeFault, own_tree};
use crate::pictures::{Wanted, draw_laid};
use cli_files::{Cause, Hold};
use cli_print::{map_or_refusal, wanted_level};
use cli_refusals::Refusal;
use map_svg::Overlay;
use map_tables::Map;
use run_edit::{EditorError, InspectError};
use std::alloc::Global;
use std::fs::Files;
use std::io::Write;
use wad_file::Wad;
use wad_levels::{LevelEntries, ReadError, read_wad};

// The refusal of the request if the tree is refused.
fn refusal_for_tree(fault: TreeFault) -> Refusal
    ensures { result ≡ refusal_for_tree fault }
{
    match fault {
        TreeFault::Length => Refusal::Level(InspectError::Level(ReadError::LumpLength)),
        TreeFault::Missing => Refusal::Level(InspectError::Level(ReadError::LumpMissing)),
        TreeFault::Outside => Refusal::TreeOutside,
        TreeFault::OutOfMemory => Refusal::Lines(EditorError::OutOfMemory),
    }
}

// What is laid over the picture of a level that is this map.
fn laid_over_level(
    alloc: Global,
    wad: &Wad<'_>,
    level: LevelEntries,
    drawn: &Map,
    layers: Layers,
) -> Result<Overlay, Refusal>
    ensures laid { IfOk result (IsLaidOverLevel layers wad.now level drawn.now.tables) }
    ensures refused { IfErr result (λ r. RefusesLayers layers wad.now level r
        ⊎ (r ≡ Refusal.Lines OutOfMemory)) }
{
    let Ok(marks) = marks_shown(alloc, drawn, layers.lint) else {
        return Err(Refusal::Lines(EditorError::OutOfMemory));
    };
    if !layers.nodes {
        return Ok(without_tree(alloc, marks));
    }
    match own_tree(alloc, wad, level, marks) {
        Ok(tree) => Ok(tree),
        Err(fault) => Err(refusal_for_tree(fault)),
    }
}

// Draws the wanted level as the map that it is.
fn draw_wanted<E: Files, W: Write>(
    alloc: Global,
    rt: &E,
    wad: &Wad<'_>,
    wanted: Wanted<'_>,
    writer: &mut W,
    why: &mut Option<Cause>,
) -> Result<u8, Refusal>
where
    E::File: Hold,
    ensures small { IfOk result (λ s. s ≤ 3) }
    ensures drawn { IsLevelPicturedOf wanted.entry.layers
        (option_map (λ s. s.now) wanted.entry.map) (is_some wanted.entry.out) wad.now result
        (W.contents writer.old) (W.contents writer.new) }
{
    let level = match wanted_level(alloc, wad, wanted.map) {
        Ok(level) => level,
        Err(error) => return Err(Refusal::Level(InspectError::Level(error))),
    };
    let found = match map_or_refusal(alloc, wad, level) {
        Ok(found) => found,
        Err(refusal) => return Err(refusal),
    };
    let map = found.maps.current();
    match laid_over_level(alloc, wad, level, map, wanted.layers) {
        Ok(overlay) => draw_laid(alloc, rt, map, &overlay, wanted, writer, why),
        Err(refusal) => Err(refusal),
    }
}

/// Draws the wanted level of a WAD, the last one with the name or the first of all if no name is asked for, as the map
/// that it is after the changes of `wad_import`, as `draw` draws a map. The tree that is shown is the one that the WAD
/// has of it.
pub fn draw_level<E: Files, W: Write>(
    alloc: Global,
    rt: &E,
    wad: &[u8],
    wanted: Wanted<'_>,
    writer: &mut W,
    why: &mut Option<Cause>,
) -> Result<u8, Refusal>
where
    E::File: Hold,
    ensures small { IfOk result (λ s. s ≤ 3) }
    ensures drawn { IsLevelPicturedOf wanted.entry.layers
        (option_map (λ s. s.now) wanted.entry.map) (is_some wanted.entry.out) wad.now result
        (W.contents writer.old) (W.contents writer.new) }
{
    match read_wad(wad) {
        Ok(wad) => draw_wanted(alloc, rt, &wad, wanted, writer, why),
        Err(error) => Err(Refusal::Level(InspectError::Level(error))),
    }
}
