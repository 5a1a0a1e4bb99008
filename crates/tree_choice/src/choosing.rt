//! The choice by boxes and rounded ends, in the list's order or in one by places.
ghost use Rattle.std.specs.Prelude.{◌≡◌, ◌+◌, ◌≤◌, ◌<◌, ◌^◌, length, All, MatchOption, Some, slice_get, false};
ghost use Rattle.std.specs.List.Sorted.{IsPermutation};
ghost use Rattle.tree_pieces.specs.Pieces.{IsPiece};
ghost use Rattle.tree_pieces.specs.Tree.{HasNoChoice, cost};
ghost use Rattle.tree_choice.specs.Blocks.{AreBlocks, AreGroups, AreNotedEnds};
ghost use Rattle.tree_choice.specs.Candidates.{AreEnded};
ghost use Rattle.tree_choice.specs.Counts.{AreCountsBelow};
ghost use Rattle.tree_choice.specs.Choices.{IsChosen};
ghost use Rattle.tree_choice.specs.SoFar.{SoFar, no_bound};
ghost use Rattle.tree_choice.specs.Columns.{AreEnds, HoldsBoxes};
ghost use Rattle.tree_choice.specs.Floors.{AreKnown};

use crate::block_boxes::note_groups;
use crate::bound::bound_of;
use crate::candidate::NotedPieces;
use crate::choice::{Choice, limit_of, take_in};
use crate::counts::count_below;
use crate::ends::EndedPieces;
use crate::floors::{Floor, far_limit, floor_at, note_floor};
use crate::straight::StraightLines;
use crate::walk::count_by_boxes;
use lump_records::Bounds;
use tree_pieces::{Lines, Piece};

// The best candidate among the pieces up to this one, by the best one before it.
fn consider(
    lines: &Lines,
    pieces: &[Piece],
    used: &[bool],
    at: usize,
    piece: &Piece,
    best: Option<Choice>,
) -> Option<Choice>
    requires pieces { All (IsPiece lines.now) pieces.now }
    requires known { length used.now ≡ length lines.now }
    requires few { length pieces.now < 2 ^ 32 }
    requires piece { IsPiece lines.now piece.now }
    requires stands { slice_get pieces.now at ≡ Some piece.now }
    requires so_far { SoFar lines.now pieces.now used.now no_bound at best }
    ensures { SoFar lines.now pieces.now used.now no_bound (at + 1) result }
{
    if used[piece.line as usize] {
        return best;
    }
    let limit = limit_of(u64::MAX, best);
    let counted = count_below(lines, piece, pieces, limit);
    take_in(at, best, limit, counted)
}

/// The separating piece of an unused line that costs least; of several that cost as little, the first.
pub fn choose_in(lines: &Lines, pieces: &[Piece], used: &[bool]) -> Option<Choice>
    requires pieces { All (IsPiece lines.now) pieces.now }
    requires known { length used.now ≡ length lines.now }
    requires few { length pieces.now < 2 ^ 32 }
    ensures { IsChosen lines.now pieces.now used.now result }
{
    let mut best = None;
    for (at, piece) in pieces.iter().enumerate() {
        best = consider(lines, pieces, used, at, piece, best);
    }
    best
}

// The same as `consider`, but by boxes and rounded ends, and without counting a piece on the straight line of an
// earlier one, or one of which it is known that it costs the limit or more, as each does that costs 1 or more in a list
// of an odd number of pieces.
fn consider_ordered(
    lines: &Lines,
    pieces: &[Piece],
    ordered: &EndedPieces,
    blocks: &[Bounds],
    used: &[bool],
    bound: u64,
    at: usize,
    piece: &Piece,
    best: Option<Choice>,
    straight: &mut StraightLines,
    floors: &mut [Floor],
) -> Option<Choice>
    requires ordered { IsPermutation pieces.now ordered.now.pieces.now }
    requires ends { AreEnds lines.now ordered.now.pieces.now ordered.now.firsts.now
        ordered.now.lasts.now }
    requires blocks { AreBlocks lines.now ordered.now.pieces.now blocks.now }
    requires known { length used.now ≡ length lines.now }
    requires few { length pieces.now < 2 ^ 32 }
    requires piece { IsPiece lines.now piece.now }
    requires stands { slice_get pieces.now at ≡ Some piece.now }
    requires sides { HoldsBoxes blocks.now straight.old.sides }
    requires groups { AreGroups lines.now ordered.now.pieces.now straight.old.groups.items }
    requires boxes { AreNotedEnds lines.now ordered.now.pieces.now straight.old.ends }
    requires room { length blocks.now ≤ length straight.old.noted.items }
    requires floors { AreKnown lines.now pieces.now floors.old }
    requires so_far { SoFar lines.now pieces.now used.now bound at best }
    ensures so_far { SoFar lines.now pieces.now used.now bound (at + 1) result }
    ensures sides { straight.new.sides ≡ straight.old.sides }
    ensures groups { straight.new.groups ≡ straight.old.groups }
    ensures boxes { straight.new.ends ≡ straight.old.ends }
    ensures room { length straight.new.noted.items ≡ length straight.old.noted.items }
    ensures floors { AreKnown lines.now pieces.now floors.new }
{
    if used[piece.line as usize] {
        return best;
    }
    let limit = limit_of(bound, best);
    if limit <= pieces.len() as u64 % 2 {
        return best;
    }
    let known = floor_at(floors, at);
    if known.reaches(limit) {
        return best;
    }
    if straight.has_earlier(lines, pieces, used, at, piece) {
        lines.are_drawn();
        return best;
    }
    let list = NotedPieces {
        pieces: ordered.pieces,
        firsts: ordered.firsts,
        lasts: ordered.lasts,
        blocks,
        corners: &straight.sides,
        groups: &straight.groups,
        ends: &straight.ends,
    };
    let far = far_limit(floors, limit);
    let counted = count_by_boxes(lines, piece, &list, &mut straight.noted, far);
    note_floor(floors, at, counted, far);
    take_in(at, best, limit, counted)
}

/// The same choice as `choose_in`, by what is known of the pieces, by the boxes of blocks of sixteen of them, and by
/// their rounded ends. `floors` has what is known of the first pieces, or nothing; afterwards it has what is known of
/// them then. A list of which nothing is remembered is chosen from sooner without floors, since with them each
/// candidate is counted to the end. `straight` saves counts, whatever it holds. `ordered` holds the same pieces in any
/// order, as `by_place` gives one, and the boxes are those of this order.
pub fn choose_above(
    lines: &Lines,
    pieces: &[Piece],
    ordered: &EndedPieces,
    blocks: &[Bounds],
    used: &[bool],
    straight: &mut StraightLines,
    floors: &mut [Floor],
) -> Option<Choice>
    requires ordered { IsPermutation pieces.now ordered.now.pieces.now }
    requires ends { AreEnds lines.now ordered.now.pieces.now ordered.now.firsts.now
        ordered.now.lasts.now }
    requires blocks { AreBlocks lines.now ordered.now.pieces.now blocks.now }
    requires known { length used.now ≡ length lines.now }
    requires few { length pieces.now < 2 ^ 32 }
    requires floors { AreKnown lines.now pieces.now floors.old }
    ensures choice { IsChosen lines.now pieces.now used.now result }
    ensures floors { AreKnown lines.now pieces.now floors.new }
{
    if !straight.sides.has_room(blocks.len()) || straight.noted.len() < blocks.len() {
        return choose_in(lines, pieces, used);
    }
    straight.sides.note(blocks);
    note_groups(lines, ordered.pieces, blocks, &mut straight.groups);
    straight.ends.note(lines, ordered, &straight.groups);
    let bound = bound_of(lines, pieces, ordered, blocks, used, straight, floors);
    let mut best = None;
    for (at, piece) in pieces.iter().enumerate() {
        best = consider_ordered(
            lines, pieces, ordered, blocks, used, bound, at, piece, best, straight, floors,
        );
    }
    best
}

/// The same choice as `choose_in`, by the boxes of blocks of sixteen pieces and by the pieces' rounded ends.
/// `straight` saves counts, whatever it holds. `ordered` holds the same pieces in any order, as `by_place` gives one,
/// and the boxes are those of this order.
pub fn choose_ordered(
    lines: &Lines,
    pieces: &[Piece],
    ordered: &EndedPieces,
    blocks: &[Bounds],
    used: &[bool],
    straight: &mut StraightLines,
) -> Option<Choice>
    requires pieces { All (IsPiece lines.now) pieces.now }
    requires ordered { IsPermutation pieces.now ordered.now.pieces.now }
    requires ends { AreEnds lines.now ordered.now.pieces.now ordered.now.firsts.now
        ordered.now.lasts.now }
    requires blocks { AreBlocks lines.now ordered.now.pieces.now blocks.now }
    requires known { length used.now ≡ length lines.now }
    requires few { length pieces.now < 2 ^ 32 }
    ensures { IsChosen lines.now pieces.now used.now result }
{
    choose_above(lines, pieces, ordered, blocks, used, straight, &mut [])
}

/// The same choice as `choose_in`, by the boxes of blocks of sixteen pieces and by the pieces' rounded ends. `straight`
/// saves counts, whatever it holds.
pub fn choose_in_boxes(
    lines: &Lines,
    list: &EndedPieces,
    blocks: &[Bounds],
    used: &[bool],
    straight: &mut StraightLines,
) -> Option<Choice>
    requires list { AreEnded lines.now list.now }
    requires blocks { AreBlocks lines.now list.now.pieces.now blocks.now }
    requires known { length used.now ≡ length lines.now }
    requires few { length list.now.pieces.now < 2 ^ 32 }
    ensures { IsChosen lines.now list.now.pieces.now used.now result }
{
    choose_ordered(lines, list.pieces, list, blocks, used, straight)
}
