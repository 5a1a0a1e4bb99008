//! Makes segs of pieces and numbers their ends.
ghost use Rattle.std.specs.Prelude.{◌≡◌, ◌≤◌, length, All, IfOk, IfErr};
ghost use Rattle.tree_pieces.specs.Pieces.{IsPiece};
ghost use Rattle.tree_pieces.specs.LineAngles.{AreAngles};
ghost use Rattle.tree_nodes.specs.TreeLists.{IsSegOf, AreSegsOf};
ghost use Rattle.tree_nodes.specs.Numbers.{IsNumbered, IsPlaceRefused, HasNumbers, IsSegRefused, AreNumbered, AreSegsRefused};

use crate::error::TreeError;
use crate::shape::shape_of;
use lump_records::{Seg, Vertex};
use std::alloc::Global;
use tree_pieces::{Lines, Piece, Points, SegsError};

// The number of the vertex at a place, which is added if there is none.
fn number_of(points: &mut Points, place: Vertex) -> Result<u16, TreeError>
    requires few { length points.old ≤ 32767 }
    ensures numbered { IfOk result (λ n. IsNumbered points.old points.new place n) }
    ensures refused { IfErr result (IsPlaceRefused points.old place) }
{
    match points.number(place) {
        Ok(number) => Ok(number as u16),
        Err(SegsError::TooManyVertices) => Err(TreeError::TooManyVertices),
        Err(SegsError::OutOfMemory) => Err(TreeError::OutOfMemory),
    }
}

// The seg of a piece. Its start is numbered before its end.
fn seg_of(
    points: &mut Points,
    lines: &Lines,
    angles: &[u16],
    piece: &Piece,
) -> Result<Seg, TreeError>
    requires angles { AreAngles lines.now angles.now }
    requires piece { IsPiece lines.now piece.now }
    requires few { length points.old ≤ 32767 }
    ensures seg { IfOk result (λ seg. IsSegOf lines.now points.new piece.now seg) }
    ensures numbers { IfOk result (λ seg. HasNumbers points.old points.new seg) }
    ensures refused { IfErr result (IsSegRefused lines.now points.old piece.now) }
{
    let shape = shape_of(lines, angles, piece);
    let first = match number_of(points, shape.start) {
        Err(error) => return Err(error),
        Ok(number) => number,
    };
    match number_of(points, shape.end) {
        Err(error) => Err(error),
        Ok(second) => Ok(Seg {
            first,
            second,
            angle: shape.angle,
            line: piece.line,
            side: shape.side,
            offset: shape.offset,
        }),
    }
}

/// The segs of pieces, in the same order. `angles` has the angle of each line. Ends where no vertex stands become new
/// vertices, numbered in this order.
#[inline(never)]
pub(crate) fn segs_of(
    alloc: Global,
    points: &mut Points,
    lines: &Lines,
    pieces: &[Piece],
    angles: &[u16],
) -> Result<Vec<Seg>, TreeError>
    requires angles { AreAngles lines.now angles.now }
    requires pieces { All (IsPiece lines.now) pieces.now }
    requires few { length points.old ≤ 32767 }
    ensures segs { IfOk result (λ segs. AreSegsOf lines.now points.new pieces.now segs.items) }
    ensures numbered { IfOk result
        (λ segs. AreNumbered lines.now points.old points.new pieces.now segs.items) }
    ensures refused { IfErr result (AreSegsRefused lines.now points.old pieces.now) }
{
    let mut segs = Vec::with_capacity(alloc, pieces.len())?;
    for piece in pieces {
        let seg = match seg_of(points, lines, angles, piece) {
            Err(error) => return Err(error),
            Ok(seg) => seg,
        };
        match segs.push(seg) {
            Err(_) => return Err(TreeError::OutOfMemory),
            Ok(()) => {}
        }
    }
    Ok(segs)
}
