//! Builds a map's level and its PWAD.
ghost use Rattle.std.specs.Prelude.{◌≡◌, ◌↔◌, List, [], ◌∷◌, length, Err, IfOk, IfErr, OnOk, IsOkUnless};
ghost use Rattle.lump_records.specs.Names.{name_text};
ghost use Rattle.lump_records.specs.declared.records.Vertex.{Vertex};
ghost use Rattle.map_tables.specs.WellFormed.{WellFormed};
ghost use Rattle.tree_pieces.specs.Edges.{edges_in};
ghost use Rattle.tree_nodes.specs.declared.built.Built.{Built};
ghost use Rattle.tree_nodes.specs.Built.{IsBuiltOver};
ghost use Rattle.tree_blocks.specs.Blocks.{ends_over};
ghost use Rattle.tree_blocks.specs.Lump.{IsBlockmapOver};
ghost use Rattle.wad_levels.specs.Levels.{IsLevel, Lumps};
ghost use Rattle.wad_build.specs.Projects.{HoldsOnly};
ghost use Rattle.wad_build.specs.Sizes.{AreSized};
ghost use Rattle.wad_build.specs.Sound.{CanBeBuilt, IsBuildRefusal, IsBuiltLevel, IsSoundBuild};
ghost use Rattle.wad_build.specs.Sound.{HasTree, IsSoundOver, level_over, of_blockmap, of_tree};
ghost use Rattle.wad_build.specs.Views.{built_view};
ghost use Rattle.wad_build.specs.Wad.{AreParts, all_lumps, level_part, wad_bytes};

use crate::counted::counted_wad;
use crate::error::BuildError;
use crate::levels::{BuiltLevel, NamedLevel};
use lump_records::Name8;
use map_tables::{Kind, Map};
use std::alloc::Global;
use tree_blocks::{BlockmapError, blockmap};
use tree_nodes::{Built, TreeError, build_tree};

// Converts a refusal of the tree to one of the build.
fn tree_refusal(error: TreeError) -> BuildError
    ensures { result ≡ of_tree error }
{
    match error {
        TreeError::OutOfMemory => BuildError::OutOfMemory,
        TreeError::NothingToBuild => BuildError::NothingToBuild,
        TreeError::TooManyVertices => BuildError::TooManyVertices,
        TreeError::TooManySegs => BuildError::TooManySegs,
        TreeError::TooManySubsectors => BuildError::TooManySubsectors,
        TreeError::TooDeep => BuildError::TooDeep,
    }
}

// Converts a refusal of the blockmap to one of the build, once there is a tree.
fn blockmap_refusal(error: BlockmapError) -> BuildError
    ensures { result ≡ of_blockmap error }
{
    match error {
        BlockmapError::NothingToBuild => BuildError::NothingToBuild,
        BlockmapError::BlockmapTooLarge => BuildError::BlockmapTooLarge,
        BlockmapError::OutOfMemory => BuildError::OutOfMemory,
    }
}

// Makes the level of a map from its tree and the bytes of its blockmap.
fn level_of<'a>(map: &'a Map, tree: Built, blockmap: Vec<u8>) -> BuiltLevel<'a>
    ensures level { built_view result ≡ level_over map.now.tables tree blockmap.items }
    ensures well_formed { WellFormed map.now.tables }
{
    BuiltLevel {
        map,
        sectors: map.count(Kind::Sector) as u16,
        tree,
        blockmap,
    }
}

// The PWAD of one level, which reads back by its name.
fn wad_of_level(alloc: Global, name: Name8, level: BuiltLevel<'_>) -> Result<Vec<u8>, BuildError>
    requires sized { AreSized (built_view level) }
    requires parts { AreParts (level_part name (built_view level) ∷ []) }
    ensures bytes { IfOk result (λ wad.
        wad.items ≡ wad_bytes (all_lumps (level_part name (built_view level.entry) ∷ []))) }
    ensures level { IfOk result (λ wad.
        IsLevel wad.items (name_text name) (built_view level.entry)) }
    ensures memory { IsOkUnless result BuildError.OutOfMemory }
{
    let levels = [NamedLevel { name, level }];
    match counted_wad(alloc, &levels) {
        Ok(built) => Ok(built.bytes),
        Err(_) => Err(BuildError::OutOfMemory),
    }
}

/// Builds the level of a map. The refusals of its tree come before those of its blockmap.
pub fn level_of_map<'a>(alloc: Global, map: &'a Map) -> Result<BuiltLevel<'a>, BuildError>
    ensures level { IfOk result (λ level. IsBuiltLevel map.now.tables (built_view level)) }
    ensures refused { IfErr result (IsBuildRefusal map.now.tables) }
    ensures nothing { result ≡ Err BuildError.NothingToBuild ↔ length map.now.tables.lines ≡ 0 }
{
    let tree = match build_tree(alloc, map) {
        Ok(tree) => tree,
        Err(error) => return Err(tree_refusal(error)),
    };
    let blockmap = match blockmap(alloc, map) {
        Ok(bytes) => bytes,
        Err(error) => return Err(blockmap_refusal(error)),
    };
    Ok(level_of(map, tree, blockmap))
}

/// Builds the PWAD of a map: its level with all eleven lumps under its name, and no other lump.
///
/// # Errors
///
/// Those of `build_tree` first: `NothingToBuild` exactly if the map has no line, `TooManyVertices`, `TooManySegs`,
/// `TooManySubsectors`, `TooDeep`. Then `BlockmapTooLarge`; or `OutOfMemory`.
pub fn build_wad(alloc: Global, map: &Map) -> Result<Vec<u8>, BuildError>
    ensures sound { IfOk result (λ wad. IsSoundBuild map.now.tables wad.items) }
    ensures whole { IfOk result (λ wad. HoldsOnly (map.now.tables ∷ []) wad.items) }
    ensures buildable { OnOk result (CanBeBuilt map.now.tables) }
    ensures refused { IfErr result (IsBuildRefusal map.now.tables) }
    ensures nothing { result ≡ Err BuildError.NothingToBuild ↔ length map.now.tables.lines ≡ 0 }
{
    let level = match level_of_map(alloc, map) {
        Ok(level) => level,
        Err(error) => return Err(error),
    };
    match wad_of_level(alloc, map.name(), level) {
        Ok(wad) => Ok(wad),
        Err(_) => Err(BuildError::OutOfMemory),
    }
}

/// A tree and a blockmap that were built from a level's own lines and its drawn vertices make the level sound over
/// them. The function's body is empty: its contract is the law.
pub fn built_levels_are_sound()
    ensures { (drawn : List Vertex) (tree : Built) (level : Lumps) → HasTree tree level
        → IsBuiltOver (edges_in drawn level.lines) drawn tree
        → IsBlockmapOver (ends_over drawn level.lines) level.blockmap
        → IsSoundOver drawn level }
{}
