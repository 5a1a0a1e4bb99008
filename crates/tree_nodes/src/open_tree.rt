//! Grows the tree of a list: its leaves and nodes in the order right tree, left tree, node. What waits and what is done
//! stands in lists on the heap, so that a node on a path takes only a few words of the stack.
ghost use Rattle.std.specs.Prelude.{◌≡◌, ◌<◌, ◌≤◌, ◌^◌, [], ◌∷◌, true, false, length, vec_len, All, IfOk, IfErr, OnOk};
ghost use Rattle.tree_pieces.specs.Pieces.{IsPiece};
ghost use Rattle.tree_pieces.specs.Tree.{IsReached};
ghost use Rattle.tree_choice.specs.Columns.{IsEnded};
ghost use Rattle.tree_nodes.specs.Placed.{IsPlacedList};
ghost use Rattle.tree_nodes.specs.Growth.{lists_of, IsRefused, IsLeafRefused};
ghost use Rattle.tree_nodes.specs.OpenTree.{HasNext, HasGrown, IsNextRefused, IsLeafEnded, IsNodeOpened, HasNodeOpen, CanClose, HasNodeClosed, HasGrownTree};

use crate::error::TreeError;
use crate::growth::{Child, Grown, put_leaf, put_node};
use crate::kept::{MOST_KEPT, keep};
use crate::placed::PlacedPieces;
use crate::step::{Step, step_in};
use std::alloc::{AllocError, Global};
use tree_choice::StraightLines;
use tree_pieces::{Lines, Piece};

/// A tree that is being grown: the lists of pieces that wait, the next one last; the partitions of the nodes on the
/// path; the trees that have grown and are no child yet; the lines that partitions of the path have used; lists that
/// are kept for their room; and what has been built.
#[derive(Drop)]
pub(crate) struct OpenTree {
    pub lists: Vec<Box<PlacedPieces>>,
    pub partitions: Vec<Piece>,
    pub children: Vec<Child>,
    pub used: Vec<bool>,
    pub straight: StraightLines,
    pub kept: Vec<Box<PlacedPieces>>,
    pub grown: Grown,
}

// Puts a leaf down, as a tree that is no child yet.
fn end_leaf(lines: &Lines, leaf: Box<PlacedPieces>, tree: &mut OpenTree) -> Result<(), TreeError>
    requires ended { IsEnded lines.now leaf.value.ended }
    requires some { 0 < length leaf.value.ended.pieces.items }
    ensures ok { OnOk result
        (IsLeafEnded lines.now leaf.value.ended.pieces.items tree.old tree.new) }
    ensures refused { IfErr result
        (IsLeafRefused leaf.value.ended.pieces.items (lists_of tree.old.grown)) }
{
    let child = match put_leaf(lines, &leaf.ended, &mut tree.grown) {
        Err(error) => return Err(error),
        Ok(child) => child,
    };
    keep(leaf, &mut tree.kept);
    match tree.children.push(child) {
        Err(_) => Err(TreeError::OutOfMemory),
        Ok(()) => Ok(()),
    }
}

// Opens the node of a partition: its line is used below.
fn open_node(partition: Piece, tree: &mut OpenTree) -> Result<(), AllocError>
    requires { partition.line < length tree.old.used.items }
    ensures { OnOk result (IsNodeOpened partition tree.old tree.new) }
{
    let line = partition.line as usize;
    tree.used[line] = true;
    tree.partitions.push(partition)?;
    Ok(())
}

// Divides the last list: puts it down as a leaf, or opens a node. Tells whether a node was opened.
#[inline(never)]
fn divide_next(
    alloc: Global,
    lines: &Lines,
    tree: &mut OpenTree,
    room: u32,
) -> Result<bool, TreeError>
    requires { HasNext lines.now tree.old }
    ensures node { IfOk result (λ opened. opened ≡ true →
        HasNodeOpen lines.now room tree.old tree.new) }
    ensures leaf { IfOk result (λ opened. opened ≡ false →
        HasGrown lines.now room tree.old tree.new) }
    ensures refused { IfErr result (IsNextRefused lines.now room tree.old) }
{
    lines.are_drawn();
    let Some(list) = tree.lists.pop() else {
        unreachable!();
    };
    let step = match step_in(
        alloc,
        lines,
        list,
        &tree.used,
        &mut tree.straight,
        &mut tree.lists,
        &mut tree.kept,
    ) {
        Err(_) => return Err(TreeError::OutOfMemory),
        Ok(step) => step,
    };
    match step {
        Step::Leaf(leaf) => match end_leaf(lines, leaf, tree) {
            Err(error) => Err(error),
            Ok(()) => Ok(false),
        },
        Step::Parts(partition) => {
            if room == 0 {
                return Err(TreeError::TooDeep);
            }
            match open_node(partition, tree) {
                Err(_) => Err(TreeError::OutOfMemory),
                Ok(()) => Ok(true),
            }
        }
    }
}

// Puts the node of the last partition down, over the last two trees.
#[inline(never)]
fn close_node(lines: &Lines, tree: &mut OpenTree) -> Result<(), TreeError>
    requires { CanClose lines.now tree.old }
    ensures ok { OnOk result (HasNodeClosed lines.now tree.old tree.new) }
    ensures memory { IfErr result (λ e. e ≡ TreeError.OutOfMemory) }
{
    let Some(partition) = tree.partitions.pop() else {
        unreachable!();
    };
    let Some(left) = tree.children.pop() else {
        unreachable!();
    };
    let Some(right) = tree.children.pop() else {
        unreachable!();
    };
    let line = partition.line as usize;
    tree.used[line] = false;
    let child = match put_node(lines, &partition, right, left, &mut tree.grown) {
        Err(error) => return Err(error),
        Ok(child) => child,
    };
    match tree.children.push(child) {
        Err(_) => Err(TreeError::OutOfMemory),
        Ok(()) => Ok(()),
    }
}

// Grows the tree of the last list, which becomes a tree that is no child yet. `room` is how many nodes a path may
// still have. Its frame is small, and the calls with large ones are never inlined into it.
fn grow_next(alloc: Global, lines: &Lines, tree: &mut OpenTree, room: u32) -> Result<(), TreeError>
    requires { HasNext lines.now tree.old }
    ensures ok { OnOk result (HasGrown lines.now room tree.old tree.new) }
    ensures refused { IfErr result (IsNextRefused lines.now room tree.old) }
{
    lines.are_drawn();
    let opened = match divide_next(alloc, lines, tree, room) {
        Err(error) => return Err(error),
        Ok(opened) => opened,
    };
    if !opened {
        return Ok(());
    }
    match grow_next(alloc, lines, tree, room - 1) {
        Err(error) => return Err(error),
        Ok(()) => {}
    }
    match grow_next(alloc, lines, tree, room - 1) {
        Err(error) => return Err(error),
        Ok(()) => {}
    }
    close_node(lines, tree)
}

// A tree of which only the first list is there.
fn tree_over(
    alloc: Global,
    list: Box<PlacedPieces>,
    used: Vec<bool>,
    straight: StraightLines,
    grown: Grown,
) -> Result<OpenTree, AllocError>
    ensures lists { IfOk result (λ tree. tree.lists.items ≡ list ∷ []) }
    ensures used { IfOk result (λ tree. tree.used ≡ used) }
    ensures grown { IfOk result (λ tree. tree.grown ≡ grown) }
{
    let mut lists = Vec::new(alloc);
    lists.push(list)?;
    Ok(OpenTree {
        lists,
        partitions: Vec::new(alloc),
        children: Vec::new(alloc),
        used,
        straight,
        kept: Vec::with_capacity(alloc, MOST_KEPT)?,
        grown,
    })
}

/// Appends the tree of a list of pieces: the right tree, the left one, then the node. `used` marks the lines of the
/// partitions above, and `room` is how many nodes a path may still have.
pub(crate) fn grow(
    alloc: Global,
    lines: &Lines,
    list: Box<PlacedPieces>,
    used: Vec<bool>,
    straight: StraightLines,
    room: u32,
    grown: Grown,
) -> Result<Grown, TreeError>
    requires reached { IsReached lines.now used.items list.value.ended.pieces.items }
    requires placed { IsPlacedList lines.now list.value }
    requires some { 0 < length list.value.ended.pieces.items }
    requires few { vec_len list.value.ended.pieces < 2 ^ 31 }
    requires fewer { length grown.nodes.items ≤ length grown.counts.items }
    ensures ok { IfOk result (λ new. HasGrownTree lines.now list.value.ended.pieces.items
        used.items room (lists_of grown) (lists_of new)) }
    ensures refused { IfErr result
        (IsRefused lines.now list.value.ended.pieces.items used.items room (lists_of grown)) }
{
    let mut tree = match tree_over(alloc, list, used, straight, grown) {
        Err(_) => return Err(TreeError::OutOfMemory),
        Ok(tree) => tree,
    };
    match grow_next(alloc, lines, &mut tree, room) {
        Err(error) => Err(error),
        Ok(()) => Ok(tree.grown),
    }
}
