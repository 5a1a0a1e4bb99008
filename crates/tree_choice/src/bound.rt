//! A number that a choice costs less than, found before the candidates are gone over.
ghost use Rattle.std.specs.Prelude.{◌≡◌, ◌≤◌, ◌<◌, ◌^◌, length, All, IfSome};
ghost use Rattle.std.specs.List.Sorted.{IsPermutation};
ghost use Rattle.tree_pieces.specs.Pieces.{IsPiece};
ghost use Rattle.tree_choice.specs.Blocks.{AreBlocks, AreGroups, AreNotedEnds};
ghost use Rattle.tree_choice.specs.Columns.{AreEnds, HoldsBoxes};
ghost use Rattle.tree_choice.specs.SoFar.{IsBound};

use crate::candidate::NotedPieces;
use crate::ends::EndedPieces;
use crate::floors::Floor;
use crate::straight::StraightLines;
use crate::walk::count_by_boxes;
use lump_records::Bounds;
use tree_pieces::{Lines, Piece};

// What a floor of a piece is worth as the first one counted: its cost, or the greatest number if nothing is known or
// the piece isn't to be counted.
fn worth(floor: Floor) -> u64 {
    match floor {
        Floor::AtLeast(0) => u64::MAX,
        Floor::AtLeast(cost) => cost,
        Floor::NoneLeft => u64::MAX,
    }
}

// Whether there is a piece at a place, and its line is unused.
fn is_free_at(pieces: &[Piece], used: &[bool], place: usize) -> bool {
    match pieces.get(place) {
        None => false,
        Some(piece) => used.get(piece.line as usize) == Some(&false),
    }
}

// How many pieces a list has at least whose middle one is counted first, if nothing is known of them.
const LONG: usize = 256;

// The place of the piece that is counted first. It is the one of an unused line of which the least is known, which is
// likely to be the choice, or close to it; in a long list of which nothing is known, the middle one. If there is
// none, the place is behind the list.
fn first_counted(pieces: &[Piece], used: &[bool], floors: &[Floor]) -> usize {
    let mut least = u64::MAX;
    let len = pieces.len();
    let mut place = if len < LONG { len } else { len / 2 };
    for (n, floor) in floors.iter().enumerate() {
        let cost = worth(*floor);
        if cost < least && is_free_at(pieces, used, n) {
            least = cost;
            place = n;
        }
    }
    place
}

/// A number that the choice costs less than: one more than the cost of the piece that is counted first, or the greatest
/// number if there is none.
pub(crate) fn bound_of(
    lines: &Lines,
    pieces: &[Piece],
    ordered: &EndedPieces,
    blocks: &[Bounds],
    used: &[bool],
    straight: &mut StraightLines,
    floors: &[Floor],
) -> u64
    requires pieces { All (IsPiece lines.now) pieces.now }
    requires ordered { IsPermutation pieces.now ordered.now.pieces.now }
    requires blocks { AreBlocks lines.now ordered.now.pieces.now blocks.now }
    requires known { length used.now ≡ length lines.now }
    requires few { length pieces.now < 2 ^ 32 }
    requires ends { AreEnds lines.now ordered.now.pieces.now ordered.now.firsts.now
        ordered.now.lasts.now }
    requires sides { HoldsBoxes blocks.now straight.old.sides }
    requires groups { AreGroups lines.now ordered.now.pieces.now straight.old.groups.items }
    requires boxes { AreNotedEnds lines.now ordered.now.pieces.now straight.old.ends }
    requires room { length blocks.now ≤ length straight.old.noted.items }
    ensures bound { IsBound lines.now pieces.now used.now result }
    ensures sides { straight.new.sides ≡ straight.old.sides }
    ensures groups { straight.new.groups ≡ straight.old.groups }
    ensures boxes { straight.new.ends ≡ straight.old.ends }
    ensures room { length straight.new.noted.items ≡ length straight.old.noted.items }
{
    let at = first_counted(pieces, used, floors);
    if at >= pieces.len() || used[pieces[at].line as usize] {
        return u64::MAX;
    }
    let list = NotedPieces {
        pieces: ordered.pieces,
        firsts: ordered.firsts,
        lasts: ordered.lasts,
        blocks,
        corners: &straight.sides,
        groups: &straight.groups,
        ends: &straight.ends,
    };
    let piece = &pieces[at];
    match count_by_boxes(lines, piece, &list, &mut straight.noted, u64::MAX) {
        None => u64::MAX,
        Some(counts) => {
            if counts.left == 0 {
                u64::MAX
            } else {
                counts.cost() + 1
            }
        }
    }
}
