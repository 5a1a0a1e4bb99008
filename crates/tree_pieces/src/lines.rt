//! The lines of a build, by number.

use crate::edge::Edge;
use crate::line_points::point;
use crate::piece::{Ends, Piece};
use crate::values::ray_of;
use lump_records::Ray;
use std::marker::Model;

/// The lines of a build with the places of their ends, by number. Each is one that a map may have.
#[derive(Drop)]
pub struct Lines {
    edges: Vec<Edge>,
}

impl Model for Lines {
    ghost use Rattle.std.specs.Prelude.{List, All};
    ghost use Rattle.tree_pieces.specs.declared.edge.Edge.{Edge};
    ghost use Rattle.tree_pieces.specs.Plane.{IsEdge};

    ghost Value = { List Edge };

    ghost view = { λ l. l.edges.items };

    ghost invariant = { λ l. All IsEdge l.edges.items };
}

impl Lines {
    ghost use Rattle.std.specs.Prelude.{◌≡◌, ◌<◌, length, All};
    ghost use Rattle.tree_pieces.specs.Plane.{IsEdge};
    ghost use Rattle.tree_pieces.specs.Pieces.{IsPiece, edge_of, ray_of, ends_of};
    ghost use Rattle.tree_pieces.specs.Local.{IsLineRay};

    // These lines.
    pub(crate) fn of(edges: Vec<Edge>) -> Lines
        requires { All IsEdge edges.items }
        ensures { result ≡ edges.items }
    {
        Lines { edges }
    }

    /// How many lines there are.
    pub fn len(&self) -> usize
        ensures { result ≡ length self.now }
    {
        self.edges.len()
    }

    /// The lines as a slice. Each may be drawn.
    pub fn as_slice(&self) -> &[Edge]
        ensures lines { result.now ≡ self.now }
        ensures drawn { All IsEdge result.now }
    {
        &self.edges
    }

    /// Each line may be drawn. This is a law of all lines, for callers whose own laws need it.
    pub fn are_drawn(&self)
        ensures { All IsEdge self.now }
    {
        let _ = &self.edges;
    }

    /// The whole line of a piece.
    pub fn line_of(&self, piece: &Piece) -> Edge
        requires { piece.now.line < length self.now }
        ensures line { result ≡ edge_of self.now piece.now }
        ensures drawn { IsEdge result }
    {
        self.edges[piece.line as usize]
    }

    /// The whole line of a piece in the piece's direction.
    pub fn ray_of(&self, piece: &Piece) -> Ray
        requires { piece.now.line < length self.now }
        ensures ray { result ≡ ray_of self.now piece.now }
        ensures line { IsLineRay result }
        ensures drawn { IsEdge (edge_of self.now piece.now) }
    {
        ray_of(self.line_of(piece), piece.side)
    }

    /// The rounded ends of a piece.
    pub fn ends_of(&self, piece: &Piece) -> Ends
        requires { IsPiece self.now piece.now }
        ensures { result ≡ ends_of self.now piece.now }
    {
        let edge = self.line_of(piece);
        Ends {
            first: point(edge.v1, edge.v2, piece.from),
            last: point(edge.v1, edge.v2, piece.to),
        }
    }
}
