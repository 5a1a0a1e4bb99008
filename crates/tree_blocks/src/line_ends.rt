//! The lines of a map, or of a list of records, given by the places of their ends.
ghost use Rattle.std.specs.Prelude.{◌≡◌, ◌≤◌, length, IfOk, IsOkUnless};
ghost use Rattle.map_tables.specs.WellFormed.{nth_vertex};
ghost use Rattle.tree_blocks.specs.Blocks.{ends_in, ends_over, map_ends};

use crate::error::BlockmapError;
use lump_records::{Line, Vertex};
use map_tables::{Kind, Map};
use std::alloc::Global;

/// A line, given by the places of its ends.
#[derive(Clone, Copy)]
pub struct LineEnds {
    pub start: Vertex,
    pub end: Vertex,
}

// The place of a vertex of the map.
fn place(map: &Map, vertex: u16) -> Vertex
    ensures { result ≡ nth_vertex map.now.tables.vertices vertex }
{
    map.vertex(u32::from(vertex))
        .unwrap_or(Vertex { x: 0, y: 0 })
}

// The ends of a line of the map.
fn ends_in(map: &Map, line: Line) -> LineEnds
    ensures { result ≡ ends_in map.now.tables.vertices line }
{
    LineEnds {
        start: place(map, line.v1),
        end: place(map, line.v2),
    }
}

/// The ends of each line of the map, by its number.
pub fn ends_of(alloc: Global, map: &Map) -> Result<Vec<LineEnds>, BlockmapError>
    ensures ends { IfOk result (λ v. v.items ≡ map_ends map.now.tables) }
    ensures few { IfOk result (λ v. length v.items ≤ 32767) }
    ensures memory { IsOkUnless result BlockmapError.OutOfMemory }
{
    let mut ends = Vec::with_capacity(alloc, map.count(Kind::Line) as usize)?;
    for n in 0..map.count(Kind::Line) {
        if let Some(line) = map.line(n) {
            ends.push(ends_in(map, line))?;
        }
    }
    Ok(ends)
}

// The place of a vertex of a list.
fn nth_place(vertices: &[Vertex], n: u16) -> Vertex
    ensures { result ≡ nth_vertex vertices.now n }
{
    match vertices.get(usize::from(n)) {
        Some(place) => *place,
        None => Vertex { x: 0, y: 0 },
    }
}

/// The ends of each line of a list of records, by its number, with the list of vertices that the lines name. It
/// fails only if memory runs out.
pub fn ends_over(
    alloc: Global,
    vertices: &[Vertex],
    lines: &[Line],
) -> Result<Vec<LineEnds>, BlockmapError>
    ensures ends { IfOk result (λ v. v.items ≡ ends_over vertices.now lines.now) }
    ensures memory { IsOkUnless result BlockmapError.OutOfMemory }
{
    let mut ends = Vec::with_capacity(alloc, lines.len())?;
    for line in lines {
        ends.push(LineEnds {
            start: nth_place(vertices, line.v1),
            end: nth_place(vertices, line.v2),
        })?;
    }
    Ok(ends)
}
