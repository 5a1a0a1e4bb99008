//! The calls of the crate: they build the tree of lines over drawn vertices, or that of a map.
ghost use Rattle.std.specs.Prelude.{◌≡◌, ◌<◌, ◌≤◌, length, All, ◌↔◌, [], Err, IfOk, IfErr, replicate, false};
ghost use Rattle.tree_nodes.specs.Growth.{lists_of};
ghost use Rattle.tree_pieces.specs.Edges.{edges_of};
ghost use Rattle.tree_nodes.specs.Sound.{AllDiffer, IsWithinLimits};
ghost use Rattle.tree_nodes.specs.Built.{IsBuilt, IsBuiltOver, IsRefusalOver, IsTreeRefusal};
ghost use Rattle.tree_nodes.specs.Refusals.{AreTreeLists, IsTreeRefused};

use crate::error::TreeError;
use crate::growth::Grown;
use crate::open_tree::grow;
use crate::placed::PlacedPieces;
use crate::segs::segs_of;
use crate::subsectors::subs_of;
use lump_records::{ITEM_LIMIT, Node, Seg, Sub, Vertex};
use map_tables::{Kind, Map};
use std::alloc::{AllocError, Global};
use tree_choice::StraightLines;
use tree_pieces::{Lines, Points, angles_in, edges_of, pieces_in};

// How many nodes a path may have.
const DEEPEST: u32 = 1024;

/// A built tree: the drawn vertices followed by the added ones, the segs, the subsectors and the nodes.
#[derive(Drop)]
pub struct Built {
    pub vertices: Vec<Vertex>,
    pub segs: Vec<Seg>,
    pub subs: Vec<Sub>,
    pub nodes: Vec<Node>,
}

// A flag for each line: no partition has used it yet.
fn no_flags(alloc: Global, count: usize) -> Result<Vec<bool>, AllocError>
    ensures { IfOk result (λ flags. flags.items ≡ replicate count false) }
{
    Vec::from_elem(alloc, false, count)
}

// A tree of which nothing has grown yet, with room for one of so many pieces if few of them are parted.
fn nothing_grown(alloc: Global, count: usize) -> Result<Grown, AllocError>
    ensures pieces { IfOk result (λ grown. grown.pieces.items ≡ []) }
    ensures counts { IfOk result (λ grown. grown.counts.items ≡ []) }
    ensures nodes { IfOk result (λ grown. grown.nodes.items ≡ []) }
{
    Ok(Grown {
        pieces: Vec::with_capacity(alloc, count.saturating_add(count / 8))?,
        counts: Vec::with_capacity(alloc, count / 2)?,
        nodes: Vec::with_capacity(alloc, count / 2)?,
    })
}

// The tree of the lines: the pieces of its leaves, how many each leaf has, and its nodes.
fn grown_of(alloc: Global, lines: &Lines) -> Result<Grown, TreeError>
    requires few { length lines.now ≤ 32767 }
    requires some { 0 < length lines.now }
    ensures lists { IfOk result (λ grown. AreTreeLists lines.now (lists_of grown)) }
    ensures refused { IfErr result (IsTreeRefused lines.now) }
{
    lines.are_drawn();
    let pieces = match pieces_in(alloc, lines) {
        Err(_) => return Err(TreeError::OutOfMemory),
        Ok(pieces) => pieces,
    };
    let list = match PlacedPieces::of(alloc, lines, pieces) {
        Err(_) => return Err(TreeError::OutOfMemory),
        Ok(list) => list,
    };
    let used = match no_flags(alloc, lines.len()) {
        Err(_) => return Err(TreeError::OutOfMemory),
        Ok(used) => used,
    };
    let straight = match StraightLines::new(alloc, lines) {
        Err(_) => return Err(TreeError::OutOfMemory),
        Ok(straight) => straight,
    };
    let grown = match nothing_grown(alloc, list.ended.pieces.len()) {
        Err(_) => return Err(TreeError::OutOfMemory),
        Ok(grown) => grown,
    };
    grow(alloc, lines, list, used, straight, DEEPEST, grown)
}

// All vertices, by number.
fn vertices_of(alloc: Global, points: &Points) -> Result<Vec<Vertex>, AllocError>
    ensures { IfOk result (λ vertices. vertices.items ≡ points.now) }
{
    let mut vertices = Vec::with_capacity(alloc, points.len() as usize)?;
    for n in 0..points.len() {
        let place = points.at(n).unwrap();
        vertices.push(place)?;
    }
    Ok(vertices)
}

// The tree of the lines, which has grown, over the drawn vertices.
fn number_over(
    alloc: Global,
    lines: &Lines,
    grown: Grown,
    points: &mut Points,
) -> Result<Built, TreeError>
    requires few { length lines.now ≤ 32767 }
    requires some { 0 < length lines.now }
    requires lists { AreTreeLists lines.now (lists_of grown) }
    requires few_places { length points.old ≤ 32767 }
    ensures built { IfOk result (IsBuiltOver lines.now points.old) }
    ensures refused { IfErr result (IsRefusalOver lines.now points.old) }
    ensures last { result ≡ Err TreeError.TooManyVertices → IsWithinLimits lines.now }
{
    let angles = match angles_in(alloc, lines) {
        Err(_) => return Err(TreeError::OutOfMemory),
        Ok(angles) => angles,
    };
    let segs = match segs_of(alloc, points, lines, &grown.pieces, &angles) {
        Err(error) => return Err(error),
        Ok(segs) => segs,
    };
    let subs = match subs_of(alloc, &grown.counts) {
        Err(_) => return Err(TreeError::OutOfMemory),
        Ok(subs) => subs,
    };
    match vertices_of(alloc, points) {
        Err(_) => Err(TreeError::OutOfMemory),
        Ok(vertices) => Ok(Built {
            vertices,
            segs,
            subs,
            nodes: grown.nodes,
        }),
    }
}

/// The tree over all sides of lines. The pieces of all sides are divided by each other's lines until no piece of an
/// unused line separates its list. There may be any number of drawn vertices, and they may share places; a seg names
/// the first vertex at a place. An end of a seg where no vertex stands becomes a new vertex behind the drawn ones,
/// once.
///
/// # Errors
///
/// - `NothingToBuild` exactly if there is no line.
/// - `TooManyVertices`, `TooManySegs`, `TooManySubsectors`: the tree has more than 32,767 of them. More than 32,767
///   drawn vertices, or else more than 32,767 lines, are refused before any tree is built. Otherwise `TooManyVertices`
///   comes last, only if the tree stays within all other limits.
/// - `TooDeep`: a path of the tree has more than 1,024 nodes.
/// - `OutOfMemory`.
pub fn build_lines(alloc: Global, lines: &Lines, drawn: &[Vertex]) -> Result<Built, TreeError>
    ensures built { IfOk result (IsBuiltOver lines.now drawn.now) }
    ensures refused { IfErr result (IsRefusalOver lines.now drawn.now) }
    ensures nothing { result ≡ Err TreeError.NothingToBuild ↔ length lines.now ≡ 0 }
    ensures many { 0 < length lines.now → 32767 < length drawn.now →
        result ≡ Err TreeError.TooManyVertices }
    ensures last { length drawn.now ≤ 32767 → result ≡ Err TreeError.TooManyVertices →
        IsWithinLimits lines.now }
{
    lines.are_drawn();
    if lines.len() == 0 {
        return Err(TreeError::NothingToBuild);
    }
    if drawn.len() > ITEM_LIMIT {
        return Err(TreeError::TooManyVertices);
    }
    if lines.len() > ITEM_LIMIT {
        return Err(TreeError::TooManySegs);
    }
    let grown = match grown_of(alloc, lines) {
        Err(error) => return Err(error),
        Ok(grown) => grown,
    };
    // The vertices are numbered once the tree has grown, so that their memory isn't needed beside the divided lists.
    let mut points = match Points::over(alloc, drawn) {
        Err(_) => return Err(TreeError::OutOfMemory),
        Ok(points) => points,
    };
    number_over(alloc, lines, grown, &mut points)
}

/// The tree over all sides of a map's lines, as `build_lines` builds it over the map's vertices. It is refused if the
/// map has no line (`NothingToBuild`), if the tree has more than 32,767 vertices, segs or subsectors or a path of more
/// than 1,024 nodes, and for lack of memory. Too many vertices are refused last.
pub fn build_tree(alloc: Global, map: &Map) -> Result<Built, TreeError>
    ensures built { IfOk result (λ b. IsBuilt map.now.tables b) }
    ensures differ { IfOk result (λ b. AllDiffer b.vertices.items) }
    ensures refused { IfErr result (IsTreeRefusal map.now.tables) }
    ensures nothing { result ≡ Err TreeError.NothingToBuild ↔ length map.now.tables.lines ≡ 0 }
    ensures last { result ≡ Err TreeError.TooManyVertices →
        IsWithinLimits (edges_of map.now.tables) }
{
    if map.count(Kind::Line) == 0 {
        return Err(TreeError::NothingToBuild);
    }
    let lines = match edges_of(alloc, map) {
        Err(_) => return Err(TreeError::OutOfMemory),
        Ok(lines) => lines,
    };
    let grown = match grown_of(alloc, &lines) {
        Err(error) => return Err(error),
        Ok(grown) => grown,
    };
    let mut points = match Points::new(alloc, map) {
        Err(_) => return Err(TreeError::OutOfMemory),
        Ok(points) => points,
    };
    number_over(alloc, &lines, grown, &mut points)
}
