//! Which of two places comes first along a line.
ghost use Rattle.std.specs.Prelude.{◌≡◌};
ghost use Rattle.lump_records.specs.Plane.{IsStep, side_value};
ghost use Rattle.map_areas.specs.Stops.{far_along, comes_first};

use lump_records::{Ray, Vertex};
use map_plane::PlacedLine;

// How far the place is along the line, times the line's length: the side of a straight line across it.
#[tactic(auto, unfolding(crate::specs::Stops::far_along))]
fn far_along(line: &PlacedLine, place: Vertex) -> i64
    ensures { result ≡ far_along line.now place }
{
    let across = Ray {
        start: line.from,
        dx: line.from.y as i32 - line.to.y as i32,
        dy: line.to.x as i32 - line.from.x as i32,
    };
    across.side_value(place.into())
}

/// Whether the one place comes before the other one along the line.
pub(crate) fn comes_first(line: &PlacedLine, a: Vertex, b: Vertex) -> bool
    ensures { result ≡ comes_first line.now a b }
{
    far_along(line, a) < far_along(line, b)
}
