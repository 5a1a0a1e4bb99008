//! The crate's calls: they make the lump BLOCKMAP of lines, and that of a map.
ghost use Rattle.std.specs.Prelude.{◌≤◌, length, MatchResult};
ghost use Rattle.tree_blocks.specs.Lump.{IsBlockmap, IsBlockmapOver, RefusesBlockmap, RefusesBlockmapOver};

use crate::error::BlockmapError;
use crate::fill::block_lists;
use crate::grid::grid_over;
use crate::layout::lay_out;
use crate::line_ends::{LineEnds, ends_of};
use map_tables::Map;
use std::alloc::Global;

/// The bytes of the lump BLOCKMAP of lines that are given by the places of their ends (docs/FORMAT.md, "REJECT and
/// BLOCKMAP"): words of 16 bits, the lower byte first. Equal lists of blocks are written once, in the order of
/// their first block. The lines may have any places and lengths, if the offsets fit.
///
/// # Errors
///
/// - `NothingToBuild` exactly if there is no line.
/// - `BlockmapTooLarge` exactly if a list would begin beyond word 32,767.
/// - `OutOfMemory`.
pub fn blockmap_over(alloc: Global, lines: &[LineEnds]) -> Result<Vec<u8>, BlockmapError>
    requires { length lines.now ≤ 32767 }
    ensures { MatchResult result (λ v. IsBlockmapOver lines.now v.items)
        (λ e. RefusesBlockmapOver lines.now e) }
{
    if lines.is_empty() {
        return Err(BlockmapError::NothingToBuild);
    }
    let grid = grid_over(lines);
    let lists = block_lists(alloc, grid, lines)?;
    match lay_out(alloc, grid, &lists) {
        Ok(bytes) => Ok(bytes),
        Err(error) => Err(error),
    }
}

/// The bytes of the lump BLOCKMAP of a map's lines. It fails as `blockmap_over` does: with `NothingToBuild` exactly
/// if the map has no line.
pub fn blockmap(alloc: Global, map: &Map) -> Result<Vec<u8>, BlockmapError>
    ensures { MatchResult result (λ v. IsBlockmap map.now.tables v.items)
        (λ e. RefusesBlockmap map.now.tables e) }
{
    let lines = ends_of(alloc, map)?;
    match blockmap_over(alloc, &lines) {
        Ok(bytes) => Ok(bytes),
        Err(error) => Err(error),
    }
}
