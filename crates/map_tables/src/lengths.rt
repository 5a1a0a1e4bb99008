//! Whether a line is too long.
ghost use Rattle.std.specs.Prelude.{◌≡◌, nat_lt};
ghost use Rattle.lump_records.specs.Drawing.{squared_distance, longest_squared};
ghost use Rattle.map_tables.specs.WellFormed.{nth_vertex};
ghost use Rattle.map_tables.specs.Faults.{is_too_long};

use lump_records::{LONGEST_SQUARED, Line, Vertex, squared_distance};

/// The vertex with the number, or the origin if there is none.
pub fn nth_vertex(vertices: &[Vertex], n: u16) -> Vertex
    ensures { result ≡ nth_vertex vertices.now n }
{
    vertices
        .get(usize::from(n))
        .copied()
        .unwrap_or(Vertex { x: 0, y: 0 })
}

/// Whether the distance between two places is greater than the greatest length of a line.
pub fn is_too_far(start: Vertex, end: Vertex) -> bool
    ensures { result ≡ nat_lt longest_squared (squared_distance start end) }
{
    squared_distance(start, end) > LONGEST_SQUARED
}

/// Whether the line is longer than the greatest allowed length.
pub fn is_too_long(vertices: &[Vertex], line: &Line) -> bool
    ensures { result ≡ is_too_long vertices.now line.now }
{
    is_too_far(nth_vertex(vertices, line.v1), nth_vertex(vertices, line.v2))
}
