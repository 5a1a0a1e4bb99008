//! Builds one level anew from its own lines.
ghost use Rattle.std.specs.Prelude.{◌≤◌, length, IfOk, IfErr, MatchResult};
ghost use Rattle.tree_pieces.specs.Edges.{edges_in};
ghost use Rattle.tree_nodes.specs.Built.{IsBuiltOver};
ghost use Rattle.tree_blocks.specs.Blocks.{ends_over};
ghost use Rattle.tree_blocks.specs.Lump.{IsBlockmapOver};
ghost use Rattle.wad_levels.specs.Drawn.{drawn_view};
ghost use Rattle.wad_rebuild.specs.Causes.{IsBlockmapCause, IsTreeCause};
ghost use Rattle.wad_rebuild.specs.Remade.{IsLeftFor, IsMadeAnew, IsRemade, IsUnmade};

use crate::cause::Cause;
use crate::front::front_of;
use crate::kept::kept_faults;
use crate::made::{MadeLumps, lumps_of, new_reject};
use lump_records::{ITEM_LIMIT, Line, Side, Vertex};
use std::alloc::Global;
use std::mem::replace;
use tree_blocks::{BlockmapError, blockmap_over, ends_over};
use tree_nodes::{Built, TreeError, build_lines};
use tree_pieces::edges_in;
use wad_file::Wad;
use wad_levels::{Drawn, Hindrance, LevelEntries, read_drawn};

// The tree over the lines. They have what a build needs, so only lack of memory can prevent the list of their edges.
// The sides are given back before the tree grows.
fn tree_over(
    alloc: Global,
    front: &[Vertex],
    sides: Vec<Side>,
    lines: &[Line],
) -> Result<Built, Cause>
    ensures built { IfOk result (IsBuiltOver (edges_in front.now lines.now) front.now) }
    ensures refused { IfErr result (IsTreeCause (edges_in front.now lines.now) front.now) }
{
    let edges = match edges_in(alloc, front, &sides, lines) {
        Ok(edges) => edges,
        Err(_) => return Err(Cause::OutOfMemory),
    };
    drop(sides);
    match build_lines(alloc, &edges, front) {
        Ok(tree) => Ok(tree),
        Err(TreeError::OutOfMemory) => Err(Cause::OutOfMemory),
        Err(error) => Err(Cause::NoTree(error)),
    }
}

// The blockmap over the lines, without spare room: it stays until the WAD is written.
fn blocks_over(alloc: Global, front: &[Vertex], lines: &[Line]) -> Result<Vec<u8>, Cause>
    requires { length lines.now ≤ 32767 }
    ensures bytes { IfOk result (λ v. IsBlockmapOver (ends_over front.now lines.now) v.items) }
    ensures refused { IfErr result (IsBlockmapCause (ends_over front.now lines.now)) }
{
    let ends = match ends_over(alloc, front, lines) {
        Ok(ends) => ends,
        Err(_) => return Err(Cause::OutOfMemory),
    };
    match blockmap_over(alloc, &ends) {
        Ok(mut bytes) => {
            bytes.shrink_to_fit();
            Ok(bytes)
        }
        Err(BlockmapError::OutOfMemory) => Err(Cause::OutOfMemory),
        Err(error) => Err(Cause::NoBlockmap(error)),
    }
}

// The lumps of a level that has what a build needs, and the faults that stay. What the tree doesn't need is given back
// before it grows: a rebuild takes the most memory then.
fn made_of(alloc: Global, mut drawn: Drawn) -> Result<MadeLumps, Cause>
    ensures { MatchResult result (IsMadeAnew (drawn_view drawn)) (IsUnmade (drawn_view drawn)) }
{
    let sectors = drawn.sectors.len();
    if sectors > ITEM_LIMIT {
        return Err(Cause::TooManySectors);
    }
    let reject = match new_reject(alloc, sectors as u16, &drawn.reject) {
        Ok(reject) => reject,
        Err(_) => return Err(Cause::OutOfMemory),
    };
    drawn.things = Vec::new(alloc);
    drawn.sectors = Vec::new(alloc);
    drawn.reject = Vec::new(alloc);
    let sides = replace(&mut drawn.sides, Vec::new(alloc));
    let front = front_of(&drawn.vertices, &drawn.lines);
    let tree = match tree_over(alloc, front, sides, &drawn.lines) {
        Ok(tree) => tree,
        Err(cause) => return Err(cause),
    };
    let blockmap = match blocks_over(alloc, front, &drawn.lines) {
        Ok(bytes) => bytes,
        Err(cause) => return Err(cause),
    };
    let kept = match kept_faults(alloc, &drawn.lines) {
        Ok(kept) => kept,
        Err(_) => return Err(Cause::OutOfMemory),
    };
    match lumps_of(alloc, &tree, reject, blockmap, kept) {
        Ok(made) => Ok(made),
        Err(_) => Err(Cause::OutOfMemory),
    }
}

/// Builds a level anew from its own lines.
///
/// # Errors
///
/// The first cause why the level is left as it was, or `OutOfMemory`.
pub fn remake(alloc: Global, wad: &Wad<'_>, level: LevelEntries) -> Result<MadeLumps, Cause>
    ensures { MatchResult result (IsRemade wad.now level) (IsLeftFor wad.now level) }
{
    let drawn = match read_drawn(alloc, wad, level) {
        Ok(drawn) => drawn,
        Err(Hindrance::OutOfMemory) => return Err(Cause::OutOfMemory),
        Err(hindrance) => return Err(Cause::Hindered(hindrance)),
    };
    match made_of(alloc, drawn) {
        Ok(made) => Ok(made),
        Err(cause) => Err(cause),
    }
}
