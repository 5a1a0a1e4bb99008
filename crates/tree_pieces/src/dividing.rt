//! On which side of a partition a piece lies, and how it is divided.
ghost use Rattle.std.specs.Prelude.{◌≡◌, ◌<◌, pos, neg_ℤ, ◌≤ℤ◌, length, true, false, if◌then◌else◌, Some, None};
ghost use Rattle.lump_records.specs.Drawing.{IsDrawable};
ghost use Rattle.tree_pieces.specs.Plane.{IsEdge, dot};
ghost use Rattle.tree_pieces.specs.Fractions.{IsFraction};
ghost use Rattle.tree_pieces.specs.Pieces.{IsPiece, same_place};
ghost use Rattle.tree_pieces.specs.Division.{place_of_piece, parts_of, IsDivided, LiesAlong};
ghost use Rattle.tree_pieces.specs.Edges.{edges_of};
ghost use Rattle.tree_pieces.specs.Local.{IsLineRay, HasFractions, place_on, parts_on, cut_on};

use crate::edge::Edge;
use crate::frac::Frac;
use crate::line_points::point;
use crate::lines::Lines;
use crate::map_lines::{edge_of, lines_are_drawn};
use crate::piece::{Parts, Piece, Place};
use crate::signs::{place_by_signs, value_between};
use crate::values::{dot_of, ray_of, value_at, zero_of};
use lump_records::{Ray, Vertex};
use map_tables::Map;

// A part of a line, or None if both its ends round to one place.
fn kept(piece: Piece, first: Vertex, last: Vertex) -> Option<Piece>
    ensures { result ≡ (if same_place first last then None else Some piece) }
{
    if first == last { None } else { Some(piece) }
}

// The parts of a piece that is cut at a fraction of its line.
fn cut(edge: Edge, piece: &Piece, at: Frac, starts_right: bool) -> Parts
    requires line { IsEdge edge }
    requires fractions { HasFractions piece.now }
    requires at { IsFraction at }
    ensures { result ≡ cut_on edge piece.now at starts_right }
{
    let first = point(edge.v1, edge.v2, piece.from);
    let middle = point(edge.v1, edge.v2, at);
    let last = point(edge.v1, edge.v2, piece.to);
    let before = kept(
        Piece {
            line: piece.line,
            side: piece.side,
            from: piece.from,
            to: at,
        },
        first,
        middle,
    );
    let after = kept(
        Piece {
            line: piece.line,
            side: piece.side,
            from: at,
            to: piece.to,
        },
        middle,
        last,
    );
    if starts_right {
        Parts {
            right: before,
            left: after,
        }
    } else {
        Parts {
            right: after,
            left: before,
        }
    }
}

/// On which side of a ray a piece of a line lies.
pub fn place_on(ray: Ray, edge: Edge, piece: &Piece) -> Place
    requires ray { IsLineRay ray }
    requires line { IsEdge edge }
    requires from { IsFraction piece.now.from }
    requires to { IsFraction piece.now.to }
    ensures { result ≡ place_on ray edge piece.now }
{
    let first = value_at(ray, edge.v1);
    let last = value_at(ray, edge.v2);
    let from = value_between(first, last, piece.from);
    let to = value_between(first, last, piece.to);
    let own = ray_of(edge, piece.side);
    let direction = dot_of(ray, own);
    place_by_signs(from, to, direction)
}

/// The parts that a ray makes of a piece of a line.
pub fn divide_on(ray: Ray, edge: Edge, piece: &Piece) -> Parts
    requires ray { IsLineRay ray }
    requires line { IsEdge edge }
    requires fractions { HasFractions piece.now }
    ensures { result ≡ parts_on ray edge piece.now }
{
    let first = value_at(ray, edge.v1);
    let last = value_at(ray, edge.v2);
    let from = value_between(first, last, piece.from);
    let place = place_on(ray, edge, piece);
    match place {
        Place::Right => Parts {
            right: Some(*piece),
            left: None,
        },
        Place::Left => Parts {
            right: None,
            left: Some(*piece),
        },
        Place::Across => {
            let at = zero_of(first, last);
            cut(edge, piece, at, from > 0)
        }
    }
}

/// The parts that a partition makes of a piece, over a list of lines.
pub fn divide_in(lines: &Lines, partition: &Piece, piece: &Piece) -> Parts
    requires partition { IsPiece lines.now partition.now }
    requires piece { IsPiece lines.now piece.now }
    ensures exact { result ≡ parts_of lines.now partition.now piece.now }
    ensures law { IsDivided lines.now partition.now piece.now result }
{
    let ray = lines.ray_of(partition);
    let edge = lines.line_of(piece);
    divide_on(ray, edge, piece)
}

/// The line of the second piece lies on the straight line of the first one.
pub fn lies_along(lines: &Lines, first: &Piece, second: &Piece) -> bool
    requires first { IsPiece lines.now first.now }
    requires second { IsPiece lines.now second.now }
    ensures yes { result ≡ true → LiesAlong lines.now first.now second.now }
    ensures no { LiesAlong lines.now first.now second.now → result ≡ true }
{
    let ray = lines.ray_of(first);
    let edge = lines.line_of(second);
    let start = value_at(ray, edge.v1);
    let end = value_at(ray, edge.v2);
    start == 0 && end == 0
}

/// On which side of a partition a piece of a map lies, by the exact signs of its ends' side values. It is `Across` if
/// the partition crosses the piece, even if only one part would be kept. It allocates no memory. Both lines must be the
/// map's and the piece's ends fractions; nothing else is required of the two pieces.
pub fn side_of(map: &Map, partition: &Piece, piece: &Piece) -> Place
    requires partition { partition.now.line < length (edges_of map.now.tables) }
    requires line { piece.now.line < length (edges_of map.now.tables) }
    requires from { IsFraction piece.now.from }
    requires to { IsFraction piece.now.to }
    ensures { result ≡ place_of_piece (edges_of map.now.tables) partition.now piece.now }
{
    let along = edge_of(map, partition.line);
    let own = edge_of(map, piece.line);
    let ray = ray_of(along, partition.side);
    place_on(ray, own, piece)
}

/// The parts that a partition makes of a piece of a map, on the right and on the left, with exact
/// fractions. A part whose ends round to one point is left out. It allocates no memory.
pub fn divide(map: &Map, partition: &Piece, piece: &Piece) -> Parts
    requires partition { IsPiece (edges_of map.now.tables) partition.now }
    requires piece { IsPiece (edges_of map.now.tables) piece.now }
    ensures exact { result ≡ parts_of (edges_of map.now.tables) partition.now piece.now }
    ensures law { IsDivided (edges_of map.now.tables) partition.now piece.now result }
{
    lines_are_drawn(map);
    let along = edge_of(map, partition.line);
    let edge = edge_of(map, piece.line);
    let ray = ray_of(along, partition.side);
    divide_on(ray, edge, piece)
}
