//! The part of a seg that depends only on its piece: ends, side, angle, offset.
ghost use Rattle.std.specs.Prelude.{◌≡◌, ◌<◌, All};
ghost use Rattle.tree_pieces.specs.Pieces.{IsPiece, ray_of as piece_ray};
ghost use Rattle.tree_pieces.specs.Angle.{IsAngle};
ghost use Rattle.tree_pieces.specs.LineAngles.{AreAngles};
ghost use Rattle.tree_pieces.specs.Offset.{IsOffset};
ghost use Rattle.tree_nodes.specs.TreeLists.{side_number, start_of, end_of};

use lump_records::Vertex;
use tree_pieces::{Facing, Lines, Piece, offset, reversed_angle};

/// The part of a seg that depends only on its piece: the places of its ends, its side, angle and offset.
#[derive(Clone, Copy, Debug)]
pub(crate) struct Shape {
    pub start: Vertex,
    pub end: Vertex,
    pub side: u16,
    pub angle: u16,
    pub offset: u16,
}

/// The ends, side, angle and offset of a piece's seg. `angles` has the angle of each line.
pub(crate) fn shape_of(lines: &Lines, angles: &[u16], piece: &Piece) -> Shape
    requires angles { AreAngles lines.now angles.now }
    requires piece { IsPiece lines.now piece.now }
    ensures start { result.start ≡ start_of lines.now piece.now.side piece.now }
    ensures end { result.end ≡ end_of lines.now piece.now.side piece.now }
    ensures side { result.side ≡ side_number piece.now.side }
    ensures angle { IsAngle (piece_ray lines.now piece.now).dx
        (piece_ray lines.now piece.now).dy result.angle }
    ensures offset { IsOffset (piece_ray lines.now piece.now).start result.start result.offset }
{
    let edge = lines.line_of(piece);
    let along = angles[piece.line as usize];
    let ends = lines.ends_of(piece);
    match piece.side {
        Facing::Along => Shape {
            start: ends.first,
            end: ends.last,
            side: 0,
            angle: along,
            offset: offset(edge.v1, ends.first),
        },
        Facing::Against => Shape {
            start: ends.last,
            end: ends.first,
            side: 1,
            angle: reversed_angle(along),
            offset: offset(edge.v2, ends.last),
        },
    }
}
