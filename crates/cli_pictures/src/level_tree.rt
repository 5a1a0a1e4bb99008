//! The tree that a WAD has of a level.
ghost use Rattle.std.specs.Prelude.{◌≡◌, None, IfErr, IfOk};
ghost use Rattle.std.specs.List.{list_all};
ghost use Rattle.cli_pictures.specs.LevelTree.{IsOwnTree, RefusesTree, are_among, has_few_segs, has_whole_lumps, is_child_among, is_node_among, is_seg_among, is_sub_among, tree_refusal};

use lump_records::{
    Node, Seg, Sub, Vertex, decode_nodes, decode_segs, decode_subs, decode_vertices,
};
use map_svg::{Mark, Overlay};
use std::alloc::Global;
use wad_file::Wad;
use wad_levels::{LevelEntries, level_lump};

// The most segs that a picture shows.
const MOST_SEGS: u32 = 65_536;

/// Why the tree that a WAD has of a level isn't shown.
#[derive(Clone, Copy)]
pub enum TreeFault {
    /// A lump's length is no whole number of records.
    Length,
    /// There is no subsector.
    Missing,
    /// A seg, a subsector or a node names something that doesn't exist, or the subsectors more than 65,536 segs in all.
    Outside,
    OutOfMemory,
}

// Whether the lumps of a level's tree are whole records long.
fn has_whole_lumps(wad: &Wad<'_>, level: LevelEntries) -> bool
    ensures { result ≡ has_whole_lumps wad.now level }
{
    level_lump(wad, level, 3).len() % 4 == 0
        && level_lump(wad, level, 4).len() % 12 == 0
        && level_lump(wad, level, 5).len() % 4 == 0
        && level_lump(wad, level, 6).len() % 28 == 0
}

// The lists of a level's tree, and these marks. The lumps are whole records long, so only memory can be lacking.
fn decoded(
    alloc: Global,
    wad: &Wad<'_>,
    level: LevelEntries,
    marks: Vec<Mark>,
) -> Result<Overlay, TreeFault>
    ensures tree { IfOk result (IsOwnTree wad.now level) }
    ensures marks { IfOk result (λ o. o.marks ≡ marks) }
    ensures memory { IfErr result (λ e. e ≡ TreeFault.OutOfMemory) }
{
    let Ok(vertices) = decode_vertices(alloc, level_lump(wad, level, 3)) else {
        return Err(TreeFault::OutOfMemory);
    };
    let Ok(segs) = decode_segs(alloc, level_lump(wad, level, 4)) else {
        return Err(TreeFault::OutOfMemory);
    };
    let Ok(subs) = decode_subs(alloc, level_lump(wad, level, 5)) else {
        return Err(TreeFault::OutOfMemory);
    };
    let Ok(nodes) = decode_nodes(alloc, level_lump(wad, level, 6)) else {
        return Err(TreeFault::OutOfMemory);
    };
    Ok(Overlay {
        vertices,
        segs,
        subs,
        nodes,
        marks,
    })
}

// Whether the seg's ends are below the count of vertices.
fn is_seg_among(vertices: usize, seg: &Seg) -> bool
    ensures { result ≡ is_seg_among vertices seg.now }
{
    (seg.first as usize) < vertices && (seg.second as usize) < vertices
}

// Whether the subsector's segs are below the count of segs.
fn is_sub_among(segs: usize, sub: &Sub) -> bool
    ensures { result ≡ is_sub_among segs sub.now }
{
    sub.first as usize + sub.count as usize <= segs
}

// Whether the child is below the count of nodes, or of subsectors.
fn is_child_among(nodes: usize, subs: usize, child: u16) -> bool
    ensures { result ≡ is_child_among nodes subs child }
{
    if child < 32768 {
        (child as usize) < nodes
    } else {
        ((child - 32768) as usize) < subs
    }
}

// Whether both children of the node are.
fn is_node_among(nodes: usize, subs: usize, node: &Node) -> bool
    ensures { result ≡ is_node_among nodes subs node.now }
{
    is_child_among(nodes, subs, node.right) && is_child_among(nodes, subs, node.left)
}

// Whether the ends of each seg are below the count of vertices.
fn are_segs_among(vertices: usize, segs: &[Seg]) -> bool
    ensures { result ≡ list_all (is_seg_among vertices) segs.now }
{
    segs.iter().all(|seg| is_seg_among(vertices, seg))
}

// Whether the segs of each subsector are below the count of segs.
fn are_subs_among(segs: usize, subs: &[Sub]) -> bool
    ensures { result ≡ list_all (is_sub_among segs) subs.now }
{
    subs.iter().all(|sub| is_sub_among(segs, sub))
}

// Whether the children of each node are below the count of nodes, or of subsectors.
fn are_nodes_among(count: usize, subs: usize, nodes: &[Node]) -> bool
    ensures { result ≡ list_all (is_node_among count subs) nodes.now }
{
    nodes.iter().all(|node| is_node_among(count, subs, node))
}

// Whether the subsectors have at most 65,536 segs in all.
fn has_few_segs(subs: &[Sub]) -> bool
    ensures { result ≡ has_few_segs subs.now }
{
    let mut count: u32 = 0;
    for sub in subs {
        count += u32::from(sub.count);
        if count > MOST_SEGS {
            return false;
        }
    }
    true
}

// Whether each seg, subsector and node names only what exists, and no more segs than a picture has room for.
fn are_among(vertices: &[Vertex], segs: &[Seg], subs: &[Sub], nodes: &[Node]) -> bool
    ensures { result ≡ are_among vertices.now segs.now subs.now nodes.now }
{
    are_segs_among(vertices.len(), segs)
        && are_subs_among(segs.len(), subs)
        && are_nodes_among(nodes.len(), subs.len(), nodes)
        && has_few_segs(subs)
}

/// The tree that a WAD has of a level, and these marks; or why it isn't shown.
pub(crate) fn own_tree(
    alloc: Global,
    wad: &Wad<'_>,
    level: LevelEntries,
    marks: Vec<Mark>,
) -> Result<Overlay, TreeFault>
    ensures shown { IfOk result (λ o. (tree_refusal wad.now level ≡ None)
        × IsOwnTree wad.now level o × (o.marks ≡ marks)) }
    ensures refused { IfErr result (RefusesTree wad.now level) }
{
    if !has_whole_lumps(wad, level) {
        return Err(TreeFault::Length);
    }
    let tree = match decoded(alloc, wad, level, marks) {
        Ok(tree) => tree,
        Err(fault) => return Err(fault),
    };
    if tree.subs.is_empty() {
        return Err(TreeFault::Missing);
    }
    if !are_among(&tree.vertices, &tree.segs, &tree.subs, &tree.nodes) {
        return Err(TreeFault::Outside);
    }
    Ok(tree)
}
