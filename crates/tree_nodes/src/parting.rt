//! Divides a list by a partition into the parts on its two sides.
ghost use Rattle.std.specs.Prelude.{◌≡◌, ℕ, ◌+◌, ◌<◌, ◌^◌, ◌++◌, ◌∷◌, [], ◌&&◌, false, length, is_some, option_to_list, IfOk, IfSome};
ghost use Rattle.tree_pieces.specs.Pieces.{IsPiece, ends_of};
ghost use Rattle.tree_pieces.specs.Division.{right_parts, left_parts};
ghost use Rattle.tree_choice.specs.Candidates.{IsSighted, AreEnded};
ghost use Rattle.tree_choice.specs.Columns.{IsEnded};
ghost use Rattle.tree_nodes.specs.Placed.{HasNotes, HasPieceRoom};

use crate::kept::with_room;
use crate::orders::note_part;
use crate::pushing::put_ended;
use std::alloc::{AllocError, Global};
use tree_choice::{Candidate, Choice, EndedList, EndedPieces};
use tree_pieces::{Ends, Lines, Parts, Piece, Place, divide_in};

/// The parts of a list on the two sides of a partition, in the list's order. It is noted of each piece of the list
/// which number its part has on either side.
#[derive(Drop)]
pub(crate) struct Sides {
    pub right: EndedList,
    pub left: EndedList,
    pub right_notes: Vec<u32>,
    pub left_notes: Vec<u32>,
}

// Whether both parts of a piece are kept.
fn is_split(parts: &Parts) -> bool
    ensures { result ≡ (is_some parts.now.right && is_some parts.now.left) }
{
    parts.right.is_some() && parts.left.is_some()
}

// The rounded ends of a part of a piece: its own if the piece is split, else the piece's.
fn ends_of_part(lines: &Lines, part: &Piece, split: bool, ends: Ends) -> Ends
    requires part { IsPiece lines.now part.now }
    requires ends { split ≡ false → ends ≡ ends_of lines.now part.now }
    ensures { result ≡ ends_of lines.now part.now }
{
    if split { lines.ends_of(part) } else { ends }
}

// Appends a part of a piece with its rounded ends, if the part is kept.
fn put_part(lines: &Lines, part: Option<Piece>, split: bool, ends: Ends, list: &mut EndedList)
    requires part { IfSome part (IsPiece lines.now) }
    requires ends { split ≡ false → IfSome part (λ p. ends ≡ ends_of lines.now p) }
    requires ended { IsEnded lines.now list.old }
    requires room { HasPieceRoom
        (length list.old.pieces.items + length (option_to_list part)) list.old }
    ensures pieces { list.new.pieces.items ≡ list.old.pieces.items ++ option_to_list part }
    ensures ended { IsEnded lines.now list.new }
    ensures room { (n : ℕ) → HasPieceRoom n list.old → HasPieceRoom n list.new }
{
    match part {
        None => {}
        Some(piece) => {
            let own = ends_of_part(lines, &piece, split, ends);
            put_ended(&piece, own, list);
        }
    }
}

// Appends the parts of a piece that the partition crosses.
#[inline(never)]
fn put_divided(
    by: &Candidate,
    piece: &Piece,
    ends: Ends,
    right: &mut EndedList,
    left: &mut EndedList,
)
    requires partition { IsSighted by.now }
    requires piece { IsPiece by.now.lines.now piece.now }
    requires ends { ends ≡ ends_of by.now.lines.now piece.now }
    requires right { IsEnded by.now.lines.now right.old }
    requires left { IsEnded by.now.lines.now left.old }
    requires right_room { HasPieceRoom (length right.old.pieces.items
        + length (right_parts by.now.lines.now by.now.piece.now (piece.now ∷ []))) right.old }
    requires left_room { HasPieceRoom (length left.old.pieces.items
        + length (left_parts by.now.lines.now by.now.piece.now (piece.now ∷ []))) left.old }
    ensures right { right.new.pieces.items ≡ right.old.pieces.items
        ++ right_parts by.now.lines.now by.now.piece.now (piece.now ∷ []) }
    ensures left { left.new.pieces.items ≡ left.old.pieces.items
        ++ left_parts by.now.lines.now by.now.piece.now (piece.now ∷ []) }
    ensures right_ended { IsEnded by.now.lines.now right.new }
    ensures left_ended { IsEnded by.now.lines.now left.new }
    ensures right_roomy { (n : ℕ) → HasPieceRoom n right.old → HasPieceRoom n right.new }
    ensures left_roomy { (n : ℕ) → HasPieceRoom n left.old → HasPieceRoom n left.new }
{
    let parts = divide_in(by.lines, by.piece, piece);
    let split = is_split(&parts);
    put_part(by.lines, parts.right, split, ends, right);
    put_part(by.lines, parts.left, split, ends, left);
}

// Appends the parts of a piece. One that lies on one side goes there whole.
#[inline(always)]
fn put_parts(by: &Candidate, piece: &Piece, ends: Ends, right: &mut EndedList, left: &mut EndedList)
    requires partition { IsSighted by.now }
    requires piece { IsPiece by.now.lines.now piece.now }
    requires ends { ends ≡ ends_of by.now.lines.now piece.now }
    requires right { IsEnded by.now.lines.now right.old }
    requires left { IsEnded by.now.lines.now left.old }
    requires right_room { HasPieceRoom (length right.old.pieces.items
        + length (right_parts by.now.lines.now by.now.piece.now (piece.now ∷ []))) right.old }
    requires left_room { HasPieceRoom (length left.old.pieces.items
        + length (left_parts by.now.lines.now by.now.piece.now (piece.now ∷ []))) left.old }
    ensures right { right.new.pieces.items ≡ right.old.pieces.items
        ++ right_parts by.now.lines.now by.now.piece.now (piece.now ∷ []) }
    ensures left { left.new.pieces.items ≡ left.old.pieces.items
        ++ left_parts by.now.lines.now by.now.piece.now (piece.now ∷ []) }
    ensures right_ended { IsEnded by.now.lines.now right.new }
    ensures left_ended { IsEnded by.now.lines.now left.new }
    ensures right_roomy { (n : ℕ) → HasPieceRoom n right.old → HasPieceRoom n right.new }
    ensures left_roomy { (n : ℕ) → HasPieceRoom n left.old → HasPieceRoom n left.new }
{
    match by.place_of(piece, ends) {
        Place::Right => put_ended(piece, ends, right),
        Place::Left => put_ended(piece, ends, left),
        Place::Across => put_divided(by, piece, ends, right, left),
    }
}

/// The parts of a list on the two sides of a partition, with their rounded ends, and with notes of both sides. `choice`
/// tells how many parts there are.
pub(crate) fn part_noted(
    alloc: Global,
    lines: &Lines,
    partition: &Piece,
    choice: Choice,
    list: &EndedPieces,
) -> Result<Sides, AllocError>
    requires partition { IsPiece lines.now partition.now }
    requires list { AreEnded lines.now list.now }
    requires few { length list.now.pieces.now < 2 ^ 31 }
    requires rights { choice.right
        ≡ length (right_parts lines.now partition.now list.now.pieces.now) }
    requires lefts { choice.left
        ≡ length (left_parts lines.now partition.now list.now.pieces.now) }
    ensures right { IfOk result (λ sides. sides.right.pieces.items
        ≡ right_parts lines.now partition.now list.now.pieces.now) }
    ensures left { IfOk result (λ sides. sides.left.pieces.items
        ≡ left_parts lines.now partition.now list.now.pieces.now) }
    ensures right_ended { IfOk result (λ sides. IsEnded lines.now sides.right) }
    ensures left_ended { IfOk result (λ sides. IsEnded lines.now sides.left) }
    ensures right_notes { IfOk result (λ sides. HasNotes (length list.now.pieces.now)
        (length sides.right.pieces.items) sides.right_notes) }
    ensures left_notes { IfOk result (λ sides. HasNotes (length list.now.pieces.now)
        (length sides.left.pieces.items) sides.left_notes) }
{
    let by = Candidate::of(lines, partition);
    let pieces = list.pieces;
    let mut right = with_room(alloc, choice.right as usize)?;
    let mut left = with_room(alloc, choice.left as usize)?;
    let mut right_notes = Vec::with_capacity(alloc, pieces.len())?;
    let mut left_notes = Vec::with_capacity(alloc, pieces.len())?;
    for (n, piece) in pieces.iter().enumerate() {
        let ends = Ends {
            first: list.firsts[n],
            last: list.lasts[n],
        };
        let rights = right.pieces.len();
        let lefts = left.pieces.len();
        put_parts(&by, piece, ends, &mut right, &mut left);
        note_part(&mut right_notes, rights, right.pieces.len());
        note_part(&mut left_notes, lefts, left.pieces.len());
    }
    Ok(Sides {
        right,
        left,
        right_notes,
        left_notes,
    })
}

/// Appends the parts of a list on the two sides of a partition, with their rounded ends, to empty lists that have room.
pub(crate) fn part_list(
    lines: &Lines,
    partition: &Piece,
    list: &EndedPieces,
    right: &mut EndedList,
    left: &mut EndedList,
)
    requires partition { IsPiece lines.now partition.now }
    requires list { AreEnded lines.now list.now }
    requires right { right.old.pieces.items ≡ [] }
    requires left { left.old.pieces.items ≡ [] }
    requires right_ended { IsEnded lines.now right.old }
    requires left_ended { IsEnded lines.now left.old }
    requires right_room { HasPieceRoom (length
        (right_parts lines.now partition.now list.now.pieces.now)) right.old }
    requires left_room { HasPieceRoom (length
        (left_parts lines.now partition.now list.now.pieces.now)) left.old }
    ensures right { right.new.pieces.items
        ≡ right_parts lines.now partition.now list.now.pieces.now }
    ensures left { left.new.pieces.items
        ≡ left_parts lines.now partition.now list.now.pieces.now }
    ensures right_ended { IsEnded lines.now right.new }
    ensures left_ended { IsEnded lines.now left.new }
{
    let by = Candidate::of(lines, partition);
    let firsts = list.firsts;
    let lasts = list.lasts;
    for (n, piece) in list.pieces.iter().enumerate() {
        let ends = Ends {
            first: firsts[n],
            last: lasts[n],
        };
        put_parts(&by, piece, ends, right, left);
    }
}
