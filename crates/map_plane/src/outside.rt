//! Whether a place lies in no sector.
ghost use Rattle.std.specs.Prelude.{◌≡◌, count_by};
ghost use Rattle.std.specs.List.{list_any};
ghost use Rattle.map_plane.specs.Outside.{is_on_wall, comes_down, faces, turns_away, is_place_outside};

use crate::meeting::{is_on, side_of};
use crate::places::PlacedLine;
use lump_records::Vertex;

// Whether the place lies on the wall.
#[tactic(auto, unfolding(crate::specs::Outside::is_on_wall))]
fn is_on_wall(place: Vertex, line: &PlacedLine) -> bool
    ensures { result ≡ is_on_wall place line.now }
{
    line.is_wall && is_on(line, place)
}

/// Whether the step from `a` to `b` goes down across the row: `a` is above it, and `b` isn't.
#[tactic(auto, unfolding(crate::specs::Outside::comes_down))]
pub(crate) fn comes_down(y: i16, a: i16, b: i16) -> bool
    ensures { result ≡ comes_down y a b }
{
    y < a && b <= y
}

// Whether the wall crosses the place's row to the east of it, and faces it.
#[tactic(auto, unfolding(crate::specs::Outside::faces))]
fn faces(place: Vertex, line: &PlacedLine) -> bool
    ensures { result ≡ faces place line.now }
{
    let side = side_of(line, place);
    line.is_wall && comes_down(place.y, line.from.y, line.to.y) && 0 < side
}

// Whether the wall crosses the place's row to the east of it, and turns away from it.
#[tactic(auto, unfolding(crate::specs::Outside::turns_away))]
fn turns_away(place: Vertex, line: &PlacedLine) -> bool
    ensures { result ≡ turns_away place line.now }
{
    let side = side_of(line, place);
    line.is_wall && comes_down(place.y, line.to.y, line.from.y) && side < 0
}

// Whether the place lies on one of the walls.
fn is_on_any_wall(lines: &[PlacedLine], place: Vertex) -> bool
    ensures { result ≡ list_any (is_on_wall place) lines.now }
{
    lines.iter().any(|line| is_on_wall(place, line))
}

// How many walls that cross the place's row to the east of it face it.
fn count_facing(lines: &[PlacedLine], place: Vertex) -> usize
    ensures { result ≡ count_by (faces place) lines.now }
{
    lines.iter().filter(|line| faces(place, line)).count()
}

// How many of these walls turn away from it.
fn count_turned(lines: &[PlacedLine], place: Vertex) -> usize
    ensures { result ≡ count_by (turns_away place) lines.now }
{
    lines.iter().filter(|line| turns_away(place, line)).count()
}

/// Whether the place lies in no sector, among these lines.
#[tactic(auto, unfolding(crate::specs::Outside::is_place_outside))]
pub(crate) fn is_outside(lines: &[PlacedLine], place: Vertex) -> bool
    ensures { result ≡ is_place_outside lines.now place }
{
    is_on_any_wall(lines, place) || count_facing(lines, place) <= count_turned(lines, place)
}
