//! Polygons: their edges as lines, in order; each edge begins at the corner that has its number.
ghost use Rattle.std.specs.Prelude.{◌≡◌, count_by, find, IfNone, IfSome, false, true};
ghost use Rattle.std.specs.List.{list_any};
ghost use Rattle.map_plane.specs.Meeting.{is_on};
ghost use Rattle.map_plane.specs.Nearest.{is_east};
ghost use Rattle.map_plane.specs.Polygon.{clashes, has_clash, is_inside, polygon_area};

use crate::east::is_east;
use crate::meeting::{is_at, is_on, meets, side_of};
use crate::places::PlacedLine;
use lump_records::Vertex;

// Whether two edges have a corner in common that isn't where one ends and the other begins, or another point.
#[tactic(auto, unfolding(crate::specs::Polygon::clashes))]
fn clashes(e: &PlacedLine, k: &PlacedLine) -> bool
    ensures { result ≡ clashes e.now k.now }
{
    e.number != k.number && is_at(e.from, k.from) || meets(e, k)
}

// Whether the edge clashes with another one.
fn has_clash(edges: &[PlacedLine], edge: &PlacedLine) -> bool
    ensures { result ≡ has_clash edges.now edge.now }
{
    edges.iter().any(|other| clashes(edge, other))
}

/// The first edge that begins where another one does, or has a point in common with another one that isn't an end of
/// both.
pub fn first_clash(edges: &[PlacedLine]) -> Option<PlacedLine>
    ensures first { result ≡ find (has_clash edges.now) edges.now }
    ensures none { IfNone result (list_any (has_clash edges.now) edges.now ≡ false) }
    ensures some { IfSome result (λ e. has_clash edges.now e ≡ true) }
{
    for edge in edges {
        if has_clash(edges, edge) {
            return Some(*edge);
        }
    }
    None
}

/// Twice the area of the polygon: above 0 if its edges run clockwise, so that the inside is on their right.
pub fn polygon_area(edges: &[PlacedLine]) -> i128
    ensures { result ≡ polygon_area edges.now }
{
    let mut area = 0i128;
    for edge in edges {
        area += i128::from(side_of(edge, Vertex { x: 0, y: 0 }));
    }
    area
}

// How many edges are to the east of the place.
fn count_east(edges: &[PlacedLine], place: Vertex) -> usize
    ensures { result ≡ count_by (λ e. is_east e place) edges.now }
{
    edges.iter().filter(|edge| is_east(edge, place)).count()
}

/// Whether the place is inside the polygon: of its edges, an odd number is to the east. For a place on no edge.
pub fn is_inside(edges: &[PlacedLine], place: Vertex) -> bool
    ensures { result ≡ is_inside edges.now place }
{
    count_east(edges, place) % 2 == 1
}

/// Whether the place is on an edge.
pub fn is_on_any(edges: &[PlacedLine], place: Vertex) -> bool
    ensures { result ≡ list_any (λ e. is_on e place) edges.now }
{
    edges.iter().any(|edge| is_on(edge, place))
}
