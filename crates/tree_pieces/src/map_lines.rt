//! The lines of a map with the places of their ends.
ghost use Rattle.std.specs.Prelude.{◌≡◌, ◌≤◌, ◌<◌, length, All, IfOk, IsOkUnless};
ghost use Rattle.map_tables.specs.WellFormed.{HasEnds, nth_vertex};
ghost use Rattle.tree_pieces.specs.Plane.{IsEdge};
ghost use Rattle.tree_pieces.specs.Pieces.{edge_at};
ghost use Rattle.tree_pieces.specs.Edges.{edge_between, edges_of};

use crate::edge::Edge;
use crate::error::SegsError;
use crate::lines::Lines;
use lump_records::{Line, Vertex};
use map_tables::{Kind, Map};
use std::alloc::Global;

// The vertex of a number.
fn vertex_of(map: &Map, n: u16) -> Vertex
    requires { n < length map.now.tables.vertices }
    ensures { result ≡ nth_vertex map.now.tables.vertices n }
{
    map.vertex(u32::from(n)).unwrap()
}

// A line of a map with the places of its ends.
fn edge_between(map: &Map, line: &Line) -> Edge
    requires { HasEnds map.now.tables.vertices line.now }
    ensures { result ≡ edge_between map.now.tables.vertices line.now }
{
    Edge {
        v1: vertex_of(map, line.v1),
        v2: vertex_of(map, line.v2),
        has_left: line.has_left(),
    }
}

/// Each line of a map may be drawn: its ends differ, lie in the range of coordinates, and aren't too
/// far apart. This is a law of every map, for callers that read its lines by number.
pub fn lines_are_drawn(map: &Map)
    ensures drawn { All IsEdge (edges_of map.now.tables) }
    ensures few { length (edges_of map.now.tables) ≤ 32767 }
{
    map.count(Kind::Line);
}

// The line of a number with the places of its ends.
pub(crate) fn edge_of(map: &Map, line: u16) -> Edge
    requires { line < length (edges_of map.now.tables) }
    ensures value { result ≡ edge_at (edges_of map.now.tables) line }
    ensures drawn { IsEdge result }
{
    lines_are_drawn(map);
    let line = map.line(u32::from(line)).unwrap();
    edge_between(map, &line)
}

/// The lines of a map with the places of their ends, by number. They are refused only for lack of memory.
pub fn edges_of(alloc: Global, map: &Map) -> Result<Lines, SegsError>
    ensures edges { IfOk result (λ lines. lines ≡ edges_of map.now.tables) }
    ensures few { length (edges_of map.now.tables) ≤ 32767 }
    ensures memory { IsOkUnless result SegsError.OutOfMemory }
{
    lines_are_drawn(map);
    let mut edges = Vec::with_capacity(alloc, map.count(Kind::Line) as usize)?;
    for n in 0..map.count(Kind::Line) {
        let line = map.line(n).unwrap();
        edges.push(edge_between(map, &line))?;
    }
    Ok(Lines::of(edges))
}
