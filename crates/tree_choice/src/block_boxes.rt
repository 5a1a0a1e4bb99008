//! Boxes round blocks of sixteen pieces, and round groups of sixteen blocks.
ghost use Rattle.std.specs.Prelude.{◌≡◌, ◌*◌, ◌^◌, ◌<◌, ◌≤◌, length, All, IfOk};
ghost use Rattle.lump_records.specs.Drawing.{IsDrawable};
ghost use Rattle.tree_pieces.specs.Boxes.{IsWellIn, HoldsPiece};
ghost use Rattle.tree_choice.specs.Blocks.{IsWithinBox, IsInnerBox, HoldsPlace, AreBlocks, AreGroups};
ghost use Rattle.tree_choice.specs.Candidates.{AreEnded};

use crate::ends::EndedPieces;
use lump_records::{Bounds, Vertex};
use std::alloc::{AllocError, Global};
use tree_pieces::{Lines, Piece};

// How many pieces have one box.
pub(crate) const BLOCK: usize = 16;

// How many pieces have one box in a group of blocks.
pub(crate) const GROUP: usize = 256;

// A box that no place lies in.
pub(crate) const NOWHERE: Bounds = Bounds {
    top: -16384,
    bottom: 16383,
    left: 16383,
    right: -16384,
};

// The box round a box and a place.
pub(crate) fn with_place(bounds: Bounds, place: Vertex) -> Bounds
    requires bounds { IsInnerBox bounds }
    requires place { IsDrawable place }
    ensures wider { IsWithinBox bounds result }
    ensures holds { HoldsPlace result place }
    ensures inner { IsInnerBox result }
{
    Bounds {
        top: bounds.top.max(place.y),
        bottom: bounds.bottom.min(place.y),
        left: bounds.left.min(place.x),
        right: bounds.right.max(place.x),
    }
}

// A box one step wider on each side.
pub(crate) fn widened(bounds: Bounds) -> Bounds
    requires { IsInnerBox bounds }
    ensures { (v : Vertex) → HoldsPlace bounds v → IsWellIn result v }
{
    Bounds {
        top: bounds.top + 1,
        bottom: bounds.bottom - 1,
        left: bounds.left - 1,
        right: bounds.right + 1,
    }
}

// The box round the rounded ends of some pieces, one step wider on each side, so that each exact piece lies within it.
fn box_round(lines: &Lines, list: &EndedPieces) -> Bounds
    requires { AreEnded lines.now list.now }
    ensures { All (HoldsPiece lines.now result) list.now.pieces.now }
{
    lines.are_drawn();
    let lasts = list.lasts;
    let mut bounds = NOWHERE;
    for (n, first) in list.firsts.iter().enumerate() {
        bounds = with_place(bounds, *first);
        bounds = with_place(bounds, lasts[n]);
    }
    widened(bounds)
}

/// A box round each block of sixteen pieces of a list; the last block may be shorter.
pub fn blocks_of(
    alloc: Global,
    lines: &Lines,
    list: &EndedPieces,
) -> Result<Vec<Bounds>, AllocError>
    requires list { AreEnded lines.now list.now }
    requires few { length list.now.pieces.now < 2 ^ 32 }
    ensures { IfOk result (λ blocks. AreBlocks lines.now list.now.pieces.now blocks.items) }
{
    let pieces = list.pieces;
    let count = pieces.len().div_ceil(BLOCK);
    let mut blocks = Vec::with_capacity(alloc, count)?;
    for k in 0..count {
        let from = BLOCK * k;
        let end = (from + BLOCK).min(pieces.len());
        let block = EndedPieces {
            pieces: &pieces[from..end],
            firsts: &list.firsts[from..end],
            lasts: &list.lasts[from..end],
        };
        blocks.push(box_round(lines, &block))?;
    }
    Ok(blocks)
}

// The box round two boxes.
fn joined(a: Bounds, b: Bounds) -> Bounds
    ensures first { IsWithinBox a result }
    ensures second { IsWithinBox b result }
{
    Bounds {
        top: a.top.max(b.top),
        bottom: a.bottom.min(b.bottom),
        left: a.left.min(b.left),
        right: a.right.max(b.right),
    }
}

// The box round all boxes of a list.
fn joined_all(boxes: &[Bounds]) -> Bounds
    ensures { All (λ bounds. IsWithinBox bounds result) boxes.now }
{
    let mut all = NOWHERE;
    for bounds in boxes {
        all = joined(all, *bounds);
    }
    all
}

/// Notes a box round each whole group of sixteen blocks of a list. If memory runs out, only the first groups have one.
pub(crate) fn note_groups(
    lines: &Lines,
    pieces: &[Piece],
    blocks: &[Bounds],
    groups: &mut Vec<Bounds>,
)
    requires { AreBlocks lines.now pieces.now blocks.now }
    ensures { AreGroups lines.now pieces.now groups.new.items }
{
    groups.clear();
    for g in 0..pieces.len() / GROUP {
        let from = BLOCK * g;
        let bounds = joined_all(&blocks[from..from + BLOCK]);
        match groups.push(bounds) {
            Err(_) => return,
            Ok(()) => {}
        }
    }
}
