//! The vertices and lines of a map as lists.
ghost use Rattle.std.specs.Prelude.{◌≡◌, ◌<◌, IfOk, length};
ghost use Rattle.map_plane.specs.Places.{placed, placed_lines};

use lump_records::{Line, Vertex};
use map_plane::PlacedLine;
use map_tables::{Kind, Map};
use std::alloc::{AllocError, Global};

/// The vertices of a map.
pub(crate) fn vertices_of(alloc: Global, map: &Map) -> Result<Vec<Vertex>, AllocError>
    ensures { IfOk result (λ vertices. vertices.items ≡ map.now.tables.vertices) }
{
    let mut vertices = Vec::with_capacity(alloc, map.count(Kind::Vertex) as usize)?;
    for n in 0..map.count(Kind::Vertex) {
        let vertex = map.vertex(n).unwrap();
        vertices.push(vertex)?;
    }
    Ok(vertices)
}

/// The lines of a map.
pub(crate) fn lines_of(alloc: Global, map: &Map) -> Result<Vec<Line>, AllocError>
    ensures { IfOk result (λ lines. lines.items ≡ map.now.tables.lines) }
{
    let mut lines = Vec::with_capacity(alloc, map.count(Kind::Line) as usize)?;
    for n in 0..map.count(Kind::Line) {
        let line = map.line(n).unwrap();
        lines.push(line)?;
    }
    Ok(lines)
}

/// A copy of a list.
pub(crate) fn copy_of<T: Copy>(alloc: Global, list: &[T]) -> Result<Vec<T>, AllocError>
    ensures { IfOk result (λ copy. copy.items ≡ list.now) }
{
    let mut copy = Vec::new(alloc);
    copy.extend_from_slice(list)?;
    Ok(copy)
}

// A line with its number and the places of its ends, which are read in the list of the map's vertices.
fn placed_by(map: &Map, vertices: &[Vertex], number: u32, line: &Line) -> PlacedLine
    requires vertices { vertices.now ≡ map.now.tables.vertices }
    requires from { line.now.v1 < length vertices.now }
    requires to { line.now.v2 < length vertices.now }
    ensures { result ≡ placed map.now.tables (number, line.now) }
{
    PlacedLine {
        number,
        from: vertices[usize::from(line.v1)],
        to: vertices[usize::from(line.v2)],
        is_wall: !line.has_left(),
    }
}

/// The lines of the map with the places of their ends, by number, made from the lists of its vertices and lines.
pub(crate) fn placed_by_lists(
    alloc: Global,
    map: &Map,
    vertices: &[Vertex],
    lines: &[Line],
) -> Result<Vec<PlacedLine>, AllocError>
    requires vertices { vertices.now ≡ map.now.tables.vertices }
    requires lines { lines.now ≡ map.now.tables.lines }
    ensures { IfOk result (λ placed. placed.items ≡ placed_lines map.now.tables) }
{
    let mut placed = Vec::with_capacity(alloc, lines.len())?;
    for n in 0..map.count(Kind::Line) {
        placed.push(placed_by(map, vertices, n, &lines[n as usize]))?;
    }
    Ok(placed)
}
