//! What is known of a list's pieces, carried to a part of the list: the part is the list without some pieces, and with
//! the rests of others in their place.
ghost use Rattle.std.specs.Prelude.{◌≡◌, ◌⊎◌, ◌+◌, ◌<◌, ◌≤◌, true, List, length, All, IfOk, IfSome, OnOk};
ghost use Rattle.tree_pieces.specs.declared.edge.Edge.{Edge};
ghost use Rattle.tree_pieces.specs.declared.piece.Piece.{Piece};
ghost use Rattle.tree_pieces.specs.Pieces.{IsPiece};
ghost use Rattle.tree_choice.specs.Floors.{IsFloor, AreFloors, AreKnown, IsExchanged};
ghost use Rattle.tree_choice.specs.Exchanges.{IsUnderWay, IsExchangeOf};
ghost use Rattle.tree_choice.specs.Losses.{IsLossBlock, wholes, rests, losses_in};

use crate::candidate::Candidate;
use crate::floors::{Floor, floor_at};
use crate::losses::{Loss, LossBlock, change_by, is_same_fraction, loss_blocks};
use std::alloc::{AllocError, Global};
use tree_pieces::{Lines, Piece};

/// What a list loses as it becomes a part of it, and what is known of the part's first pieces as partitions of the
/// list.
#[derive(Drop)]
pub(crate) struct Exchange {
    pub losses: Vec<Loss>,
    pub floors: Vec<Floor>,
}

// Whether two pieces are of one side of one line.
fn is_same_side(a: &Piece, b: &Piece) -> bool
    ensures line { result ≡ true → a.now.line ≡ b.now.line }
    ensures side { result ≡ true → a.now.side ≡ b.now.side }
{
    a.line == b.line && a.side == b.side
}

// Whether two pieces are the same in all numbers.
fn is_same(a: &Piece, b: &Piece) -> bool
    ensures { result ≡ true → a.now ≡ b.now }
{
    is_same_side(a, b) && is_same_fraction(a.from, b.from) && is_same_fraction(a.to, b.to)
}

// Whether one piece is a rest of the other: of the same side, with the same beginning or the same end.
fn is_rest(a: &Piece, b: &Piece) -> bool
    ensures line { result ≡ true → a.now.line ≡ b.now.line }
    ensures side { result ≡ true → a.now.side ≡ b.now.side }
    ensures ends { result ≡ true → (a.now.from ≡ b.now.from) ⊎ (a.now.to ≡ b.now.to) }
{
    is_same_side(a, b) && (is_same_fraction(a.from, b.from) || is_same_fraction(a.to, b.to))
}

// Takes the next piece of a list: it is the next one of the part, or it is lost, and the part's next one may be its
// rest. As partitions a piece and its rest are one.
fn take_next(
    pieces: &[Piece],
    n: usize,
    floors: &[Floor],
    part: &[Piece],
    exchange: &mut Exchange,
) -> Result<(), AllocError>
    requires there { n < length pieces.now }
    requires within { length exchange.old.floors.items ≤ length part.now }
    ensures within { OnOk result (length exchange.new.floors.items ≤ length part.now) }
    ensures taken { OnOk result ((lines : List Edge) →
        IsUnderWay lines pieces.now floors.now part.now n exchange.old →
        IsUnderWay lines pieces.now floors.now part.now (n + 1) exchange.new) }
{
    let piece = &pieces[n];
    let at = exchange.floors.len();
    if at < part.len() && is_same(piece, &part[at]) {
        exchange.floors.push(floor_at(floors, n))?;
        return Ok(());
    }
    if at < part.len() && is_rest(piece, &part[at]) {
        exchange.losses.push(Loss {
            piece: *piece,
            rest: Some(part[at]),
        })?;
        exchange.floors.push(floor_at(floors, n))?;
        return Ok(());
    }
    exchange.losses.push(Loss {
        piece: *piece,
        rest: None,
    })?;
    Ok(())
}

// How many pieces a list may lose at most for what is known of it to be carried to a part.
const MOST: usize = 256;

// What a list loses as it becomes this part, or None if that is more than `MOST` pieces.
fn exchange_of(
    alloc: Global,
    pieces: &[Piece],
    floors: &[Floor],
    part: &[Piece],
) -> Result<Option<Exchange>, AllocError>
    ensures { IfOk result (λ found. IfSome found
        (IsExchangeOf pieces.now floors.now part.now)) }
{
    let mut exchange = Exchange {
        losses: Vec::new(alloc),
        floors: Vec::with_capacity(alloc, part.len())?,
    };
    for n in 0..pieces.len() {
        take_next(pieces, n, floors, part, &mut exchange)?;
        if exchange.losses.len() > MOST {
            return Ok(None);
        }
    }
    if exchange.floors.len() < part.len() || exchange.losses.len() > MOST {
        return Ok(None);
    }
    Ok(Some(exchange))
}

// What is known of a piece as a partition of a part, by what is known of it in the list.
fn known_in_part(lines: &Lines, piece: &Piece, known: Floor, blocks: &[LossBlock]) -> Floor
    requires piece { IsPiece lines.now piece.now }
    requires blocks { All (IsLossBlock lines.now) blocks.now }
    requires few { length (losses_in blocks.now) ≤ 256 }
    ensures { (ps part : List Piece) →
        IsExchanged ps part (wholes (losses_in blocks.now)) (rests (losses_in blocks.now)) →
        IsFloor lines.now ps piece.now known → IsFloor lines.now part piece.now result }
{
    if known.says_nothing() {
        return Floor::AtLeast(0);
    }
    let by = Candidate::of(lines, piece);
    known.lowered(change_by(&by, blocks))
}

// What is known of all pieces of a part as partitions of it, by what is known of them in the list.
fn known_in_all(
    alloc: Global,
    lines: &Lines,
    part: &[Piece],
    floors: &[Floor],
    blocks: &[LossBlock],
) -> Result<Vec<Floor>, AllocError>
    requires part { All (IsPiece lines.now) part.now }
    requires blocks { All (IsLossBlock lines.now) blocks.now }
    requires few { length (losses_in blocks.now) ≤ 256 }
    ensures { IfOk result (λ all. (ps : List Piece) →
        IsExchanged ps part.now (wholes (losses_in blocks.now)) (rests (losses_in blocks.now)) →
        AreFloors lines.now ps part.now floors.now →
        AreFloors lines.now part.now part.now all.items) }
{
    let mut all = Vec::with_capacity(alloc, part.len())?;
    for (n, piece) in part.iter().enumerate() {
        let known = floor_at(floors, n);
        all.push(known_in_part(lines, piece, known, blocks))?;
    }
    Ok(all)
}

/// What is known of the pieces of a part of a list as partitions of it, by what `floors` has of them as partitions of
/// the list. If the list loses more than 256 pieces, nothing is remembered.
pub fn floors_of_part(
    alloc: Global,
    lines: &Lines,
    pieces: &[Piece],
    floors: &[Floor],
    part: &[Piece],
) -> Result<Vec<Floor>, AllocError>
    requires part { All (IsPiece lines.now) part.now }
    requires floors { AreKnown lines.now pieces.now floors.now }
    ensures { IfOk result (λ known. AreKnown lines.now part.now known.items) }
{
    let exchange = match exchange_of(alloc, pieces, floors, part)? {
        None => return Ok(Vec::new(alloc)),
        Some(exchange) => exchange,
    };
    let Exchange {
        losses,
        floors: known,
    } = exchange;
    let blocks = loss_blocks(alloc, lines, losses)?;
    known_in_all(alloc, lines, part, &known, &blocks)
}
