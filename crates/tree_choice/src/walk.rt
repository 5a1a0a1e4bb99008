//! The counts of a list: blocks whole on one side by their boxes, the pieces of open ones by their rounded ends.
ghost use Rattle.std.specs.Prelude.{◌≡◌, ◌≤◌, ◌<◌, ◌^◌, ◌&&◌, ◌||◌, if◌then◌else◌, ◌∷◌, [], length, take, All, IfSome, Some, slice_get};
ghost use Rattle.tree_pieces.specs.Pieces.{IsPiece, ends_of};
ghost use Rattle.tree_choice.specs.Candidates.{IsSighted, AreCountsBy, AreEnded, AreNoted};
ghost use Rattle.tree_choice.specs.Counts.{AreCountsBelow};
ghost use Rattle.tree_choice.specs.Sights.{IsNormal};
ghost use Rattle.tree_choice.specs.Blocks.{HoldEnds, HoldAllEnds};
ghost use Rattle.tree_choice.specs.Sorting.{IsSortedBy};
ghost use Rattle.tree_choice.specs.Clear.{AreCountsBut, flagged, pieces_at, IsClear};

use crate::block_boxes::BLOCK;
use crate::candidate::{Candidate, NotedPieces};
use crate::counts::Counts;
use crate::end_boxes::{EndBoxes, side_of_ends};
use crate::ends::EndedPieces;
use crate::margins::{Normal, PlaceSides, sides_of_place};
use crate::sorting::{Sorted, sort_all};
use crate::whole_lines::side_of_line;
use lump_records::Vertex;
use tree_pieces::{Ends, Lines, Piece, Place, divide_on, place_on};

// The counts of a piece by the sides of its two ends; zero if they leave it open. All is done in numbers of 32 bits, as
// the sums over several pieces are.
fn counts_by_sides(first: PlaceSides, last: PlaceSides) -> Counts
    ensures right { result.right ≡ (if (first.right && last.right) ||
        ((first.right && last.left) || (first.left && last.right)) then 1 else 0) }
    ensures left { result.left ≡ (if (first.left && last.left) ||
        ((first.right && last.left) || (first.left && last.right)) then 1 else 0) }
    ensures splits { result.splits ≡
        (if (first.right && last.left) || (first.left && last.right) then 1 else 0) }
{
    let first_right = first.right as u32;
    let first_left = first.left as u32;
    let last_right = last.right as u32;
    let last_left = last.left as u32;
    let right = first_right & last_right;
    let left = first_left & last_left;
    let split = (first_right & last_left) | (first_left & last_right);
    Counts {
        splits: split,
        right: right | split,
        left: left | split,
    }
}

// The counts of a piece by its rounded ends; zero unless both lie farther from the partition's straight line than
// rounding may move them.
fn count_clear(by: &Candidate, normal: Normal, piece: &Piece, ends: Ends) -> Counts
    requires candidate { IsSighted by.now }
    requires normal { IsNormal by.now.margins.ray normal }
    requires piece { IsPiece by.now.lines.now piece.now }
    requires ends { ends ≡ ends_of by.now.lines.now piece.now }
    ensures { IsClear by.now.lines.now by.now.piece.now piece.now result }
{
    let first = sides_of_place(by.margins, normal, ends.first);
    let last = sides_of_place(by.margins, normal, ends.last);
    counts_by_sides(first, last)
}

// The counts of those pieces of a short list that their rounded ends decide; the others are flagged as open. There is
// no branch, so that a machine tests several pieces at once.
#[inline(always)]
fn count_clear_ones(by: &Candidate, list: &EndedPieces, flags: &mut [bool]) -> Counts
    requires candidate { IsSighted by.now }
    requires list { AreEnded by.now.lines.now list.now }
    requires few { length list.now.pieces.now ≤ 16 }
    requires room { length flags.old ≡ length list.now.pieces.now }
    ensures { AreCountsBut by.now.lines.now by.now.piece.now list.now.pieces.now
        (flagged flags.new list.now.pieces.now) result }
{
    let pieces = list.pieces;
    let firsts = list.firsts;
    let lasts = list.lasts;
    let candidate = *by;
    let normals = [candidate.margins.normal; BLOCK];
    let mut counts = Counts::NONE;
    for (n, piece) in pieces.iter().enumerate() {
        // read coordinate by coordinate, so that the compiler sees products of 16 bits
        let ends = Ends {
            first: Vertex {
                x: firsts[n].x,
                y: firsts[n].y,
            },
            last: Vertex {
                x: lasts[n].x,
                y: lasts[n].y,
            },
        };
        let more = count_clear(&candidate, normals[n], piece, ends);
        counts = counts.plus(more);
        flags[n] = (more.right == 0) & (more.left == 0);
    }
    counts
}

// The counts of one piece by its exact place. Only a piece across the partition is divided.
#[inline(never)]
fn count_exactly(by: &Candidate, piece: &Piece) -> Counts
    requires candidate { IsSighted by.now }
    requires piece { IsPiece by.now.lines.now piece.now }
    ensures { AreCountsBy by.now (piece.now ∷ []) result }
{
    let ray = by.margins.ray;
    let edge = by.lines.line_of(piece);
    match place_on(ray, edge, piece) {
        Place::Right => Counts::ON_RIGHT,
        Place::Left => Counts::ON_LEFT,
        Place::Across => {
            let parts = divide_on(ray, edge, piece);
            Counts::of_parts(&parts)
        }
    }
}

// The counts of one piece: by the side of its whole line if that has one, else by its exact place.
fn count_piece(by: &Candidate, piece: &Piece) -> Counts
    requires candidate { IsSighted by.now }
    requires piece { IsPiece by.now.lines.now piece.now }
    ensures { AreCountsBy by.now (piece.now ∷ []) result }
{
    let edge = by.lines.line_of(piece);
    match side_of_line(by.margins.ray, edge, piece) {
        None => count_exactly(by, piece),
        Some(right) => Counts {
            splits: 0,
            right: right as u32,
            left: !right as u32,
        },
    }
}

// Notes the places of the flagged pieces of a block, and returns how many there are. It has no branch, which would
// often be mispredicted.
fn note_open(pieces: &[Piece], flags: &[bool], places: &mut [u8]) -> usize
    requires few { length pieces.now ≤ 16 }
    requires same { length flags.now ≡ length pieces.now }
    requires room { length places.old ≡ 16 }
    ensures is { pieces_at pieces.now (take result places.new) ≡ flagged flags.now pieces.now }
    ensures each { All (λ k. k < length pieces.now) (take result places.new) }
    ensures few { result ≤ 16 }
    ensures room { length places.new ≡ 16 }
{
    let mut count = 0;
    for n in 0..pieces.len() {
        // if the piece isn't flagged, the next place replaces its own
        places[count] = n as u8;
        count += flags[n] as usize;
    }
    count
}

// The counts of a short list, after those of all pieces but the ones at these places.
#[inline(never)]
fn count_open_ones(by: &Candidate, pieces: &[Piece], places: &[u8], clear: Counts) -> Counts
    requires candidate { IsSighted by.now }
    requires pieces { All (IsPiece by.now.lines.now) pieces.now }
    requires few { length pieces.now < 2 ^ 32 }
    requires each { All (λ k. k < length pieces.now) places.now }
    requires clear { AreCountsBut by.now.lines.now by.now.piece.now pieces.now
        (pieces_at pieces.now places.now) clear }
    ensures { AreCountsBy by.now pieces.now result }
{
    let mut counts = clear;
    for place in places {
        let piece = &pieces[*place as usize];
        let more = count_piece(by, piece);
        counts = counts.plus(more);
    }
    counts
}

// The counts of a block after those of the pieces that their rounded ends decide: the flagged ones are counted too.
#[inline(always)]
fn count_flagged(by: &Candidate, pieces: &[Piece], flags: &[bool], clear: Counts) -> Counts
    requires candidate { IsSighted by.now }
    requires pieces { All (IsPiece by.now.lines.now) pieces.now }
    requires few { length pieces.now ≤ 16 }
    requires same { length flags.now ≡ length pieces.now }
    requires clear { AreCountsBut by.now.lines.now by.now.piece.now pieces.now
        (flagged flags.now pieces.now) clear }
    ensures { AreCountsBy by.now pieces.now result }
{
    let mut places = [0; BLOCK];
    let count = note_open(pieces, flags, &mut places);
    count_open_ones(by, pieces, &places[..count], clear)
}

/// The counts of a block: first of the pieces that their rounded ends decide, then of the others.
#[inline(never)]
pub(crate) fn count_block(by: &Candidate, list: &EndedPieces) -> Counts
    requires candidate { IsSighted by.now }
    requires list { AreEnded by.now.lines.now list.now }
    requires few { length list.now.pieces.now ≤ 16 }
    ensures { AreCountsBy by.now list.now.pieces.now result }
{
    let pieces = list.pieces;
    let mut all_flags = [false; BLOCK];
    let flags = &mut all_flags[..pieces.len()];
    let clear = count_clear_ones(by, list, flags);
    let all = pieces.len() as u32 + clear.splits;
    if all == clear.right + clear.left {
        return clear;
    }
    count_flagged(by, pieces, flags, clear)
}

// The counts of a list of one block, as those of a block. It is None if the pieces that their rounded ends decide
// already make the cost reach the limit.
pub(crate) fn count_list(by: &Candidate, list: &EndedPieces, limit: u64) -> Option<Counts>
    requires candidate { IsSighted by.now }
    requires list { AreEnded by.now.lines.now list.now }
    requires few { length list.now.pieces.now ≤ 16 }
    ensures { AreCountsBelow by.now.lines.now by.now.piece.now list.now.pieces.now limit result }
{
    let pieces = list.pieces;
    let mut all_flags = [false; BLOCK];
    let flags = &mut all_flags[..pieces.len()];
    let clear = count_clear_ones(by, list, flags);
    let all = pieces.len() as u32 + clear.splits;
    let rest = all - clear.right - clear.left;
    if limit <= clear.least_cost(rest) {
        return None;
    }
    if rest == 0 {
        return Some(clear);
    }
    Some(count_flagged(by, pieces, flags, clear))
}

// The counts of the block of this number: by the boxes round its ends if both lie on one side, else piece by piece.
#[inline(always)]
fn count_numbered(by: &Candidate, block: &EndedPieces, boxes: &[EndBoxes], number: usize) -> Counts
    requires candidate { IsSighted by.now }
    requires block { AreEnded by.now.lines.now block.now }
    requires few { length block.now.pieces.now ≤ 16 }
    requires boxes { (b : EndBoxes) → slice_get boxes.now number ≡ Some b →
        All (HoldEnds by.now.lines.now b) block.now.pieces.now }
    ensures { AreCountsBy by.now block.now.pieces.now result }
{
    if number < boxes.len() {
        match side_of_ends(by.margins, boxes[number]) {
            Place::Right => {
                return Counts {
                    splits: 0,
                    right: block.pieces.len() as u32,
                    left: 0,
                };
            }
            Place::Left => {
                return Counts {
                    splits: 0,
                    right: 0,
                    left: block.pieces.len() as u32,
                };
            }
            Place::Across => {}
        }
    }
    count_block(by, block)
}

// The counts of a list whose blocks are sorted, open block by open block, or None as soon as the cost is known to reach
// the limit.
#[inline(always)]
fn count_open(
    by: &Candidate,
    list: &EndedPieces,
    boxes: &[EndBoxes],
    sorted: Sorted,
    noted: &[u32],
    limit: u64,
) -> Option<Counts>
    requires candidate { IsSighted by.now }
    requires list { AreEnded by.now.lines.now list.now }
    requires few { length list.now.pieces.now < 2 ^ 32 }
    requires boxes { HoldAllEnds 16 by.now.lines.now list.now.pieces.now boxes.now }
    requires is { IsSortedBy by.now list.now.pieces.now
        (length list.now.pieces.now) sorted noted.now }
    ensures { AreCountsBelow by.now.lines.now by.now.piece.now list.now.pieces.now limit result }
{
    let pieces = list.pieces;
    let firsts = list.firsts;
    let lasts = list.lasts;
    let mut rest = pieces.len() - sorted.right - sorted.left;
    let mut counts = Counts {
        splits: 0,
        right: sorted.right as u32,
        left: sorted.left as u32,
    };
    if limit <= counts.least_cost(rest as u32) {
        return None;
    }
    for n in 0..sorted.count {
        let number = noted[n] as usize;
        let from = BLOCK * number;
        let end = (from + BLOCK).min(pieces.len());
        let block = EndedPieces {
            pieces: &pieces[from..end],
            firsts: &firsts[from..end],
            lasts: &lasts[from..end],
        };
        counts = counts.plus(count_numbered(by, &block, boxes, number));
        rest -= end - from;
        if limit <= counts.least_cost(rest as u32) {
            return None;
        }
    }
    Some(counts)
}

// The counts of a list with boxes round its ends, as `count_by_boxes` has them. It stands alone, since it is rare.
#[inline(never)]
fn count_by_ends(
    by: &Candidate,
    list: &NotedPieces,
    noted: &mut [u32],
    limit: u64,
) -> Option<Counts>
    requires candidate { IsSighted by.now }
    requires list { AreNoted by.now.lines.now list.now }
    requires room { length list.now.blocks.now ≤ length noted.old }
    ensures counts { AreCountsBelow by.now.lines.now by.now.piece.now list.now.pieces.now
        limit result }
    ensures room { length noted.new ≡ length noted.old }
{
    let ended = EndedPieces {
        pieces: list.pieces,
        firsts: list.firsts,
        lasts: list.lasts,
    };
    let sorted = sort_all(by, list, &list.ends.groups, noted);
    count_open(by, &ended, &list.ends.blocks, sorted, noted, limit)
}

/// The counts of a list, or None as soon as the cost is known to reach the limit. A short list is counted piece by
/// piece. A longer one is sorted by the boxes of its groups and blocks, each tested once, and then the pieces of open
/// blocks are counted.
pub(crate) fn count_by_boxes(
    lines: &Lines,
    partition: &Piece,
    list: &NotedPieces,
    noted: &mut [u32],
    limit: u64,
) -> Option<Counts>
    requires partition { IsPiece lines.now partition.now }
    requires list { AreNoted lines.now list.now }
    requires room { length list.now.blocks.now ≤ length noted.old }
    ensures counts { AreCountsBelow lines.now partition.now list.now.pieces.now limit result }
    ensures room { length noted.new ≡ length noted.old }
{
    let by = Candidate::of(lines, partition);
    let pieces = list.pieces;
    let ended = EndedPieces {
        pieces,
        firsts: list.firsts,
        lasts: list.lasts,
    };
    if pieces.len() <= BLOCK {
        return count_list(&by, &ended, limit);
    }
    if list.ends.blocks.len() != 0 {
        return count_by_ends(&by, list, noted, limit);
    }
    let sorted = sort_all(&by, list, &[], noted);
    count_open(&by, &ended, &[], sorted, noted, limit)
}
