//! Sorts the blocks of a list by their boxes: those whole on one side of a candidate's ray, and the open ones.
ghost use Rattle.std.specs.Prelude.{◌≡◌, ◌+◌, ◌*◌, ◌≤◌, ◌<◌, ◌^◌, ◌++◌, ◌&&◌, ◌||◌, not, if◌then◌else◌, length, take, drop, All};
ghost use Rattle.tree_pieces.specs.Boxes.{HoldsPiece};
ghost use Rattle.tree_choice.specs.Candidates.{IsSighted, AreBoxed, AreNoted};
ghost use Rattle.tree_choice.specs.Blocks.{HoldEnds, HoldAllEnds};
ghost use Rattle.tree_choice.specs.Sorting.{IsSortedBy, AreSidesOf, IsRun, AreClearBlocks, block_at, flagged_numbers};

use crate::block_boxes::{BLOCK, GROUP};
use crate::box_place::{BoxSides, side_of_box, sides_of_box, sides_of_corners};
use crate::candidate::{Candidate, NotedPieces};
use crate::corner_columns::column;
use crate::end_boxes::{EndBoxes, side_of_ends};
use lump_records::{Bounds, Vertex};
use tree_pieces::{Piece, Place};

/// The blocks of a list: its pieces, a box for each block, and the two corners of each box that have the least and the
/// greatest side value by a candidate's ray.
#[derive(Clone, Copy)]
pub(crate) struct Blocks<'a> {
    pub pieces: &'a [Piece],
    pub boxes: &'a [Bounds],
    pub lows: &'a [Vertex],
    pub highs: &'a [Vertex],
}

/// How many pieces lie whole on the right and on the left, and how many blocks are noted as open.
#[derive(Clone, Copy)]
pub(crate) struct Sorted {
    pub right: usize,
    pub left: usize,
    pub count: usize,
}

/// How many of some blocks lie whole on the right, and on the left.
#[derive(Clone, Copy)]
pub(crate) struct ClearBlocks {
    pub right: u32,
    pub left: u32,
}

// What one block adds: its pieces to the right or to the left, or else one open block.
fn added(sides: BoxSides, size: usize) -> Sorted
    requires { size ≤ 16 }
    ensures right { result.right ≡ (if sides.right then size else 0) }
    ensures left { result.left ≡ (if not sides.right && sides.left then size else 0) }
    ensures count { result.count ≡ (if sides.right || sides.left then 0 else 1) }
{
    let left = !sides.right & sides.left;
    let open = !(sides.right | sides.left);
    Sorted {
        right: size * sides.right as usize,
        left: size * left as usize,
        count: open as usize,
    }
}

// Sorts one more block by the sides of its box. If it isn't open, the number of the next open one will replace its own.
fn add_block(
    by: &Candidate,
    pieces: &[Piece],
    block: usize,
    size: usize,
    sides: BoxSides,
    sorted: Sorted,
    noted: &mut [u32],
) -> Sorted
    requires begins { 16 * block < length pieces.now }
    requires few { length pieces.now < 2 ^ 32 }
    requires size { size ≡ length (block_at pieces.now block) }
    requires sides { AreSidesOf by.now (block_at pieces.now block) sides }
    requires room { sorted.count < length noted.old }
    requires before { IsSortedBy by.now pieces.now (16 * block) sorted noted.old }
    ensures is { IsSortedBy by.now pieces.now (16 * (block + 1)) result noted.new }
    ensures room { length noted.new ≡ length noted.old }
{
    noted[sorted.count] = block as u32;
    let more = added(sides, size);
    Sorted {
        right: sorted.right + more.right,
        left: sorted.left + more.left,
        count: sorted.count + more.count,
    }
}

// Counts those of `size` whole blocks whose boxes lie on one side, and flags the others as open. The first block has
// the number `from`. There is no branch, so that a machine tests several boxes at once.
fn count_clear_blocks(
    by: &Candidate,
    blocks: &Blocks,
    from: usize,
    size: usize,
    flags: &mut [bool],
) -> ClearBlocks
    requires candidate { IsSighted by.now }
    requires blocks { AreBoxed by.now blocks.now }
    requires whole { 16 * (from + size) ≤ length blocks.now.pieces.now }
    requires few { size ≤ 16 }
    requires room { length flags.old ≡ 16 }
    ensures is { AreClearBlocks by.now.lines.now by.now.piece.now blocks.now.pieces.now
        from size (take size flags.new) result.right result.left }
    ensures room { length flags.new ≡ 16 }
{
    let lows = blocks.lows;
    let highs = blocks.highs;
    let margins = by.margins;
    let normals = [margins.normal; BLOCK];
    let mut right = 0;
    let mut left = 0;
    for n in 0..size {
        let k = from + n;
        // read coordinate by coordinate, so that the compiler sees products of 16 bits
        let low = Vertex {
            x: lows[k].x,
            y: lows[k].y,
        };
        let high = Vertex {
            x: highs[k].x,
            y: highs[k].y,
        };
        let sides = sides_of_corners(margins, normals[n], low, high);
        let on_right = sides.right as u32;
        let on_left = sides.left as u32;
        right += on_right;
        left += on_left;
        flags[n] = (on_right | on_left) == 0;
    }
    ClearBlocks { right, left }
}

// Notes the numbers of the flagged blocks behind the `count` that are noted, and returns how many are noted then. It
// has no branch, which would often be mispredicted.
fn note_open_blocks(
    from: usize,
    size: usize,
    flags: &[bool],
    count: usize,
    noted: &mut [u32],
) -> usize
    requires small { from + size < 2 ^ 32 }
    requires same { size ≤ length flags.now }
    requires room { count + size ≤ length noted.old }
    ensures is { take result noted.new ≡
        take count noted.old ++ flagged_numbers from (take size flags.now) }
    ensures few { result ≤ count + size }
    ensures room { length noted.new ≡ length noted.old }
{
    let mut next = count;
    for n in 0..size {
        // if the block isn't flagged, the next number replaces its own
        noted[next] = (from + n) as u32;
        next += flags[n] as usize;
    }
    next
}

// Sorts the whole blocks with the numbers `from..to`, at most sixteen, each by two corners of its box.
fn sort_blocks(
    by: &Candidate,
    blocks: &Blocks,
    from: usize,
    to: usize,
    before: Sorted,
    noted: &mut [u32],
) -> Sorted
    requires candidate { IsSighted by.now }
    requires blocks { AreBoxed by.now blocks.now }
    requires run { IsRun blocks.now.pieces.now from to }
    requires room { length blocks.now.boxes.now ≤ length noted.old }
    requires before { IsSortedBy by.now blocks.now.pieces.now (16 * from) before noted.old }
    ensures is { IsSortedBy by.now blocks.now.pieces.now (16 * to) result noted.new }
    ensures room { length noted.new ≡ length noted.old }
{
    let size = to - from;
    let mut flags = [false; BLOCK];
    let clear = count_clear_blocks(by, blocks, from, size, &mut flags);
    let count = note_open_blocks(from, size, &flags, before.count, noted);
    Sorted {
        right: before.right + BLOCK * clear.right as usize,
        left: before.left + BLOCK * clear.left as usize,
        count,
    }
}

// Sorts the last block if it isn't whole.
fn sort_last(
    by: &Candidate,
    blocks: &Blocks,
    whole: usize,
    sorted: Sorted,
    noted: &mut [u32],
) -> Sorted
    requires candidate { IsSighted by.now }
    requires blocks { AreBoxed by.now blocks.now }
    requires whole { 16 * whole ≤ length blocks.now.pieces.now }
    requires last { length blocks.now.pieces.now < 16 * (whole + 1) }
    requires room { length blocks.now.boxes.now ≤ length noted.old }
    requires before { IsSortedBy by.now blocks.now.pieces.now (16 * whole) sorted noted.old }
    ensures is { IsSortedBy by.now blocks.now.pieces.now
        (length blocks.now.pieces.now) result noted.new }
    ensures room { length noted.new ≡ length noted.old }
{
    let pieces = blocks.pieces;
    let boxes = blocks.boxes;
    let size = pieces.len() - BLOCK * whole;
    if size == 0 {
        return sorted;
    }
    let sides = sides_of_box(by.margins, boxes[whole]);
    add_block(by, pieces, whole, size, sides, sorted, noted)
}

// Sorts a group of sixteen blocks that its box leaves open: all by the boxes round its ends, or else block by block.
#[inline(never)]
fn sort_open_group(
    by: &Candidate,
    blocks: &Blocks,
    group: usize,
    boxes: EndBoxes,
    sorted: Sorted,
    noted: &mut [u32],
) -> Sorted
    requires candidate { IsSighted by.now }
    requires blocks { AreBoxed by.now blocks.now }
    requires within { 256 * (group + 1) ≤ length blocks.now.pieces.now }
    requires holds { All (HoldEnds by.now.lines.now boxes)
        (take 256 (drop (256 * group) blocks.now.pieces.now)) }
    requires room { length blocks.now.boxes.now ≤ length noted.old }
    requires before { IsSortedBy by.now blocks.now.pieces.now (256 * group) sorted noted.old }
    ensures is { IsSortedBy by.now blocks.now.pieces.now (256 * (group + 1)) result noted.new }
    ensures room { length noted.new ≡ length noted.old }
{
    match side_of_ends(by.margins, boxes) {
        Place::Right => Sorted {
            right: sorted.right + GROUP,
            left: sorted.left,
            count: sorted.count,
        },
        Place::Left => Sorted {
            right: sorted.right,
            left: sorted.left + GROUP,
            count: sorted.count,
        },
        Place::Across => {
            let from = BLOCK * group;
            sort_blocks(by, blocks, from, from + BLOCK, sorted, noted)
        }
    }
}

// Sorts a group of sixteen blocks: all by the group's boxes, or else block by block.
#[inline(always)]
fn sort_group(
    by: &Candidate,
    blocks: &Blocks,
    group: usize,
    bounds: Bounds,
    ends: &[EndBoxes],
    sorted: Sorted,
    noted: &mut [u32],
) -> Sorted
    requires candidate { IsSighted by.now }
    requires blocks { AreBoxed by.now blocks.now }
    requires within { 256 * (group + 1) ≤ length blocks.now.pieces.now }
    requires holds { All (HoldsPiece by.now.lines.now bounds)
        (take 256 (drop (256 * group) blocks.now.pieces.now)) }
    requires ends { HoldAllEnds 256 by.now.lines.now blocks.now.pieces.now ends.now }
    requires room { length blocks.now.boxes.now ≤ length noted.old }
    requires before { IsSortedBy by.now blocks.now.pieces.now (256 * group) sorted noted.old }
    ensures is { IsSortedBy by.now blocks.now.pieces.now (256 * (group + 1)) result noted.new }
    ensures room { length noted.new ≡ length noted.old }
{
    match side_of_box(by.margins, bounds) {
        Place::Right => Sorted {
            right: sorted.right + GROUP,
            left: sorted.left,
            count: sorted.count,
        },
        Place::Left => Sorted {
            right: sorted.right,
            left: sorted.left + GROUP,
            count: sorted.count,
        },
        Place::Across => {
            if group < ends.len() {
                return sort_open_group(by, blocks, group, ends[group], sorted, noted);
            }
            let from = BLOCK * group;
            sort_blocks(by, blocks, from, from + BLOCK, sorted, noted)
        }
    }
}

// The blocks of a list, with the columns of corners that the signs of the candidate's ray choose.
fn blocks_for<'a>(by: &Candidate, list: &NotedPieces<'a>) -> Blocks<'a>
    requires { AreNoted by.now.lines.now list.now }
    ensures pieces { result.pieces.now ≡ list.now.pieces.now }
    ensures boxes { result.boxes.now ≡ list.now.blocks.now }
    ensures blocks { AreBoxed by.now result }
{
    let boxes = list.blocks;
    let corners = list.corners;
    let left_top = &corners.left_top[..boxes.len()];
    let left_bottom = &corners.left_bottom[..boxes.len()];
    let right_top = &corners.right_top[..boxes.len()];
    let right_bottom = &corners.right_bottom[..boxes.len()];
    let north = 0 <= by.margins.ray.dy;
    let east = 0 <= by.margins.ray.dx;
    let low_left = column(east, left_top, left_bottom);
    let low_right = column(east, right_top, right_bottom);
    let high_right = column(east, right_bottom, right_top);
    let high_left = column(east, left_bottom, left_top);
    let lows = column(north, low_left, low_right);
    let highs = column(north, high_right, high_left);
    Blocks {
        pieces: list.pieces,
        boxes,
        lows,
        highs,
    }
}

/// Sorts all blocks of a list: first group by group, then those behind the last group.
#[inline(always)]
pub(crate) fn sort_all(
    by: &Candidate,
    list: &NotedPieces,
    ends: &[EndBoxes],
    noted: &mut [u32],
) -> Sorted
    requires candidate { IsSighted by.now }
    requires list { AreNoted by.now.lines.now list.now }
    requires ends { HoldAllEnds 256 by.now.lines.now list.now.pieces.now ends.now }
    requires room { length list.now.blocks.now ≤ length noted.old }
    ensures is { IsSortedBy by.now list.now.pieces.now
        (length list.now.pieces.now) result noted.new }
    ensures room { length noted.new ≡ length noted.old }
{
    let groups = list.groups;
    let blocks = blocks_for(by, list);
    let mut sorted = Sorted {
        right: 0,
        left: 0,
        count: 0,
    };
    for (g, bounds) in groups.iter().enumerate() {
        sorted = sort_group(by, &blocks, g, *bounds, ends, sorted, noted);
    }
    let whole = blocks.pieces.len() / BLOCK;
    for g in groups.len()..whole.div_ceil(BLOCK) {
        let from = BLOCK * g;
        let to = (from + BLOCK).min(whole);
        sorted = sort_blocks(by, &blocks, from, to, sorted, noted);
    }
    sort_last(by, &blocks, whole, sorted, noted)
}
