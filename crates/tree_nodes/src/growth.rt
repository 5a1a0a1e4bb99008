//! What has been built of a tree, and how a leaf or a node is appended to it.
ghost use Rattle.std.specs.Prelude.{◌≡◌, ◌<◌, length, IfOk, IfErr, All};
ghost use Rattle.tree_pieces.specs.Pieces.{IsPiece};
ghost use Rattle.tree_pieces.specs.Local.{IsLineRay};
ghost use Rattle.tree_pieces.specs.Nodes.{node_ray};
ghost use Rattle.tree_choice.specs.Columns.{IsEnded};
ghost use Rattle.tree_nodes.specs.Growth.{lists_of, IsLeafPut, IsLeafRefused, IsNodePut};

use crate::corners::{bounds_of, joined};
use crate::error::TreeError;
use lump_records::{Bounds, Node, Ray};
use tree_choice::EndedList;
use tree_pieces::{Lines, Piece};

// The greatest number of segs or of subsectors.
const MOST: usize = 32767;

/// What has been built of a tree so far: the pieces of its leaves, how many each leaf has, and its nodes.
#[derive(Drop)]
pub(crate) struct Grown {
    pub pieces: Vec<Piece>,
    pub counts: Vec<usize>,
    pub nodes: Vec<Node>,
}

/// A tree as the child of a node: its number, and the least box that holds all ends of segs below it.
#[derive(Clone, Copy)]
pub(crate) struct Child {
    pub number: u16,
    pub bounds: Bounds,
}

/// Appends a leaf, as one subsector.
pub(crate) fn put_leaf(
    lines: &Lines,
    leaf: &EndedList,
    grown: &mut Grown,
) -> Result<Child, TreeError>
    requires ended { IsEnded lines.now leaf.now }
    requires some { 0 < length leaf.now.pieces.items }
    ensures ok { IfOk result
        (IsLeafPut lines.now leaf.now.pieces.items (lists_of grown.old) (lists_of grown.new)) }
    ensures refused { IfErr result (IsLeafRefused leaf.now.pieces.items (lists_of grown.old)) }
{
    let number = grown.counts.len();
    if number >= MOST {
        return Err(TreeError::TooManySubsectors);
    }
    let size = leaf.pieces.len();
    if size > MOST || grown.pieces.len() > MOST - size {
        return Err(TreeError::TooManySegs);
    }
    if grown.counts.push(size).is_err() {
        return Err(TreeError::OutOfMemory);
    }
    if grown.pieces.extend_from_slice(&leaf.pieces).is_err() {
        return Err(TreeError::OutOfMemory);
    }
    Ok(Child {
        number: 32768 + number as u16,
        bounds: bounds_of(&leaf.firsts, &leaf.lasts),
    })
}

// The node of a partition with its two children.
fn node_of(ray: Ray, right: Child, left: Child) -> Node
    requires { IsLineRay ray }
    ensures along { node_ray result ≡ ray }
    ensures right { result.right ≡ right.number }
    ensures left { result.left ≡ left.number }
    ensures right_box { result.right_box ≡ right.bounds }
    ensures left_box { result.left_box ≡ left.bounds }
{
    Node {
        x: ray.start.x,
        y: ray.start.y,
        dx: ray.dx as i16,
        dy: ray.dy as i16,
        right_box: right.bounds,
        left_box: left.bounds,
        right: right.number,
        left: left.number,
    }
}

/// Appends the node of two trees, behind the nodes of both.
pub(crate) fn put_node(
    lines: &Lines,
    partition: &Piece,
    right: Child,
    left: Child,
    grown: &mut Grown,
) -> Result<Child, TreeError>
    requires partition { IsPiece lines.now partition.now }
    requires few { length grown.old.nodes.items < 32768 }
    ensures ok { IfOk result
        (IsNodePut lines.now partition.now right left (lists_of grown.old) (lists_of grown.new)) }
    ensures memory { IfErr result (λ e. e ≡ TreeError.OutOfMemory) }
{
    let ray = lines.ray_of(partition);
    let number = grown.nodes.len();
    let node = node_of(ray, right, left);
    match grown.nodes.push(node) {
        Err(_) => Err(TreeError::OutOfMemory),
        Ok(()) => Ok(Child {
            number: number as u16,
            bounds: joined(right.bounds, left.bounds),
        }),
    }
}
