//! Whether an outline leaves a line alone.
ghost use Rattle.std.specs.Prelude.{◌≡◌, false};
ghost use Rattle.std.specs.List.{list_any};
ghost use Rattle.map_areas.specs.Apart.{has_middle_in, is_alone, meets_edge};
ghost use Rattle.map_areas.specs.Drawings.{IsTaken};
ghost use Rattle.map_plane.specs.Places.{placed_lines};

use crate::border::{Border, sum};
use crate::ways::{Ground, line_at};
use map_plane::{PlacedLine, crosses, ends_at, is_inside, is_on};
use map_tables::Map;

// Whether the edge crosses the line, begins on it between its ends, or has it along itself.
#[tactic(auto, unfolding(crate::specs::Apart::meets_edge))]
fn meets_edge(edge: &PlacedLine, line: &PlacedLine) -> bool
    ensures { result ≡ meets_edge edge.now line.now }
{
    crosses(edge, line)
        || is_on(line, edge.from) && !ends_at(line, edge.from)
        || is_on(edge, line.from) && is_on(edge, line.to)
}

// Whether one of the edges crosses the line, begins on it between its ends, or has it along itself.
fn is_bound(edges: &[PlacedLine], line: &PlacedLine) -> bool
    ensures { result ≡ list_any (λ e. meets_edge e line.now) edges.now }
{
    edges.iter().any(|edge| meets_edge(edge, line))
}

// Whether the middle of the line is inside, by the edges at twice the size.
#[tactic(auto, unfolding(crate::specs::Apart::has_middle_in))]
fn has_middle_in(doubled: &[PlacedLine], line: &PlacedLine) -> bool
    ensures { result ≡ has_middle_in doubled.now line.now }
{
    is_inside(doubled, sum(line.from, line.to))
}

// Whether the outline leaves the line alone.
#[tactic(auto, unfolding(crate::specs::Apart::is_alone))]
fn is_alone(edges: &[PlacedLine], doubled: &[PlacedLine], line: &PlacedLine) -> bool
    ensures { result ≡ is_alone edges.now doubled.now line.now }
{
    !is_bound(edges, line) && !has_middle_in(doubled, line)
}

/// Whether the border leaves the map's line with the number alone.
pub(crate) fn is_left_alone(map: &Map, ground: &Ground, border: &Border, number: u16) -> bool
    requires { ground.now.lines.items ≡ placed_lines map.now.tables }
    ensures { result ≡ false → IsTaken map.now.tables border.now number }
{
    match line_at(&ground.lines, u32::from(number)) {
        Some(line) => is_alone(&border.edges, &border.doubled, &line),
        None => false,
    }
}
