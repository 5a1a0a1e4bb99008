//! A piece that is tried as partition, and the list that it is tried on.
ghost use Rattle.std.specs.Prelude.{◌≡◌};
ghost use Rattle.tree_pieces.specs.Local.{place_on};
ghost use Rattle.tree_pieces.specs.Pieces.{IsPiece, edge_of, ends_of};
ghost use Rattle.tree_pieces.specs.Division.{parts_of, parts_by};
ghost use Rattle.tree_choice.specs.Candidates.{IsSighted};

use crate::corner_columns::BoxColumns;
use crate::end_boxes::NotedEnds;
use crate::margins::{Margins, margins_of, sides_of_place};
use crate::whole_lines::side_of_line;
use lump_records::{Bounds, Vertex};
use tree_pieces::{Ends, Lines, Piece, Place, place_on};

/// A piece of the lines that is tried or taken as partition, with the margins of its ray.
#[derive(Clone, Copy)]
pub struct Candidate<'a> {
    pub lines: &'a Lines,
    pub piece: &'a Piece,
    pub margins: Margins,
}

/// A list of pieces with their rounded ends and all that is noted of them once for all candidates: a box for each block
/// of sixteen with its corners, boxes of groups of sixteen blocks, and boxes round the ends.
#[derive(Clone, Copy)]
pub(crate) struct NotedPieces<'a> {
    pub pieces: &'a [Piece],
    pub firsts: &'a [Vertex],
    pub lasts: &'a [Vertex],
    pub blocks: &'a [Bounds],
    pub corners: &'a BoxColumns,
    pub groups: &'a [Bounds],
    pub ends: &'a NotedEnds,
}

impl<'a> Candidate<'a> {
    /// The piece as a candidate.
    pub fn of(lines: &'a Lines, piece: &'a Piece) -> Candidate<'a>
        requires { IsPiece lines.now piece.now }
        ensures lines { result.lines.now ≡ lines.now }
        ensures piece { result.piece.now ≡ piece.now }
        ensures sighted { IsSighted result }
    {
        Candidate {
            lines,
            piece,
            margins: margins_of(lines.ray_of(piece)),
        }
    }

    /// The place of a piece by the candidate as partition. Only a piece whose rounded ends don't tell its side is
    /// placed by its exact ends. One that is on the right or on the left goes there whole.
    #[inline(always)]
    pub fn place_of(&self, piece: &Piece, ends: Ends) -> Place
        requires candidate { IsSighted self.now }
        requires piece { IsPiece self.now.lines.now piece.now }
        requires ends { ends ≡ ends_of self.now.lines.now piece.now }
        ensures { parts_of self.now.lines.now self.now.piece.now piece.now
            ≡ parts_by self.now.lines.now self.now.piece.now piece.now result }
    {
        let margins = self.margins;
        let first = sides_of_place(margins, margins.normal, ends.first);
        let last = sides_of_place(margins, margins.normal, ends.last);
        if first.right && last.right {
            return Place::Right;
        }
        if first.left && last.left {
            return Place::Left;
        }
        self.exact_place(piece)
    }

    // The place of a piece by the side of its whole line if that has one, else by its exact ends.
    #[inline(never)]
    fn exact_place(&self, piece: &Piece) -> Place
        requires candidate { IsSighted self.now }
        requires piece { IsPiece self.now.lines.now piece.now }
        ensures { result
            ≡ place_on self.now.margins.ray (edge_of self.now.lines.now piece.now) piece.now }
    {
        let ray = self.margins.ray;
        let edge = self.lines.line_of(piece);
        match side_of_line(ray, edge, piece) {
            None => place_on(ray, edge, piece),
            Some(true) => Place::Right,
            Some(false) => Place::Left,
        }
    }
}
