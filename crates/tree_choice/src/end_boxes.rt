//! Boxes round the two ends of the pieces of a block: one round the western ends and one round the eastern ones. Long
//! pieces side by side, as the beams of a star, have narrow boxes round their ends, and a wide one round them all.
ghost use Rattle.std.specs.Prelude.{◌≡◌, ◌⊎◌, ◌<◌, ◌≤◌, ◌<ℤ◌, ◌^◌, pos, length, All};
ghost use Rattle.tree_pieces.specs.Boxes.{least_value, greatest_value};
ghost use Rattle.tree_choice.specs.Blocks.{HoldEnds, HoldAllEnds};
ghost use Rattle.tree_choice.specs.Candidates.{AreEnded};
ghost use Rattle.tree_choice.specs.Sights.{AreMargins};

use crate::block_boxes::{BLOCK, GROUP, NOWHERE, widened, with_place};
use crate::box_place::sides_of_box;
use crate::ends::EndedPieces;
use crate::margins::Margins;
use lump_records::{Bounds, Vertex};
use std::alloc::{AllocError, Global};
use tree_pieces::{Ends, Lines, Place};

/// A box round one end of each piece of a block, its western one, and a box round the other ends.
#[derive(Clone, Copy)]
pub(crate) struct EndBoxes {
    pub west: Bounds,
    pub east: Bounds,
}

/// Boxes round the ends of the pieces of each block of a long list, and of each group of sixteen blocks.
#[derive(Drop)]
pub(crate) struct NotedEnds {
    pub blocks: Vec<EndBoxes>,
    pub groups: Vec<EndBoxes>,
}

// How many pieces a list has at least for which these boxes are noted. Shorter ones are counted as fast without.
const LONG: usize = 512;

// The two ends of a piece, the western one first; of two as far west, the southern one.
fn western_first(first: Vertex, last: Vertex) -> Ends
    ensures { ((result.first ≡ first) × (result.last ≡ last)) ⊎
        ((result.first ≡ last) × (result.last ≡ first)) }
{
    if first.x < last.x || (first.x == last.x && first.y < last.y) {
        Ends { first, last }
    } else {
        Ends {
            first: last,
            last: first,
        }
    }
}

// The boxes round the ends of some pieces, each one step wider on each side.
fn boxes_of_ends(lines: &Lines, list: &EndedPieces) -> EndBoxes
    requires { AreEnded lines.now list.now }
    ensures { All (HoldEnds lines.now result) list.now.pieces.now }
{
    lines.are_drawn();
    let lasts = list.lasts;
    let mut west = NOWHERE;
    let mut east = NOWHERE;
    for (n, first) in list.firsts.iter().enumerate() {
        let ends = western_first(*first, lasts[n]);
        west = with_place(west, ends.first);
        east = with_place(east, ends.last);
    }
    EndBoxes {
        west: widened(west),
        east: widened(east),
    }
}

// Notes the boxes round the ends of each `size` pieces of a list. If memory runs out, only the first ones have some.
fn note_boxes(lines: &Lines, list: &EndedPieces, size: usize, boxes: &mut Vec<EndBoxes>)
    requires list { AreEnded lines.now list.now }
    requires few { length list.now.pieces.now < 2 ^ 32 }
    requires some { 0 < size }
    requires small { size ≤ 256 }
    ensures { HoldAllEnds size lines.now list.now.pieces.now boxes.new.items }
{
    boxes.clear();
    let pieces = list.pieces;
    let mut from = 0;
    while from < pieces.len() {
        let end = (from + size).min(pieces.len());
        let part = EndedPieces {
            pieces: &pieces[from..end],
            firsts: &list.firsts[from..end],
            lasts: &list.lasts[from..end],
        };
        match boxes.push(boxes_of_ends(lines, &part)) {
            Err(_) => return,
            Ok(()) => {}
        }
        from += size;
    }
}

// How wide and how high a box is, taken together.
fn extent(bounds: Bounds) -> u32
    ensures { result ≤ 131070 }
{
    let height = bounds.top.abs_diff(bounds.bottom);
    let width = bounds.right.abs_diff(bounds.left);
    u32::from(height) + u32::from(width)
}

// Whether the boxes round the ends are narrow beside the boxes round the pieces, for more than half of the groups. Else
// their tests would tell nothing new.
fn are_narrow(boxes: &[EndBoxes], groups: &[Bounds]) -> bool {
    let mut count = 0;
    for (n, bounds) in groups.iter().enumerate() {
        if n < boxes.len() && extent(boxes[n].west) + extent(boxes[n].east) < extent(*bounds) {
            count += 1;
        }
    }
    groups.len() / 2 < count
}

impl NotedEnds {
    ghost use Rattle.std.specs.Prelude.{◌<◌, ◌^◌, length};
    ghost use Rattle.tree_choice.specs.Blocks.{AreNotedEnds};
    ghost use Rattle.tree_choice.specs.Candidates.{AreEnded};

    /// No boxes, and room for those of as many pieces as so many lines have sides.
    pub(crate) fn with_room(alloc: Global, lines: usize) -> Result<NotedEnds, AllocError> {
        let blocks = Vec::with_capacity(alloc, lines / 8 + 1)?;
        let groups = Vec::with_capacity(alloc, lines / 128 + 1)?;
        Ok(NotedEnds { blocks, groups })
    }

    /// Notes the boxes round the ends of the pieces of a long list whose groups have these boxes, if they are narrow.
    pub(crate) fn note(&mut self, lines: &Lines, list: &EndedPieces, groups: &[Bounds])
        requires list { AreEnded lines.now list.now }
        requires few { length list.now.pieces.now < 2 ^ 32 }
        ensures { AreNotedEnds lines.now list.now.pieces.now self.new }
    {
        self.blocks.clear();
        self.groups.clear();
        if list.pieces.len() < LONG {
            return;
        }
        note_boxes(lines, list, GROUP, &mut self.groups);
        if are_narrow(&self.groups, groups) {
            note_boxes(lines, list, BLOCK, &mut self.blocks);
        } else {
            self.groups.clear();
        }
    }
}

/// The side of a ray on which both boxes lie, or `Across` if that isn't known.
pub(crate) fn side_of_ends(margins: Margins, boxes: EndBoxes) -> Place
    requires { AreMargins margins }
    ensures right_west { result ≡ Place.Right → pos 0 <ℤ least_value margins.ray boxes.west }
    ensures right_east { result ≡ Place.Right → pos 0 <ℤ least_value margins.ray boxes.east }
    ensures left_west { result ≡ Place.Left → greatest_value margins.ray boxes.west <ℤ pos 0 }
    ensures left_east { result ≡ Place.Left → greatest_value margins.ray boxes.east <ℤ pos 0 }
{
    let west = sides_of_box(margins, boxes.west);
    if west.right && sides_of_box(margins, boxes.east).right {
        return Place::Right;
    }
    if west.left && sides_of_box(margins, boxes.east).left {
        return Place::Left;
    }
    Place::Across
}
