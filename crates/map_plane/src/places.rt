//! The lines of a map with the places of their ends.
ghost use Rattle.std.specs.Prelude.{◌≡◌, IfOk};
ghost use Rattle.map_plane.specs.Places.{placed, placed_lines};

use lump_records::{Line, Vertex};
use map_tables::{Kind, Map};
use std::alloc::{AllocError, Global};

/// A line with its number and the places of its ends. A wall has no left side.
#[derive(Clone, Copy)]
pub struct PlacedLine {
    pub number: u32,
    pub from: Vertex,
    pub to: Vertex,
    pub is_wall: bool,
}

/// A line with its number and the places of its ends.
pub(crate) fn placed(map: &Map, number: u32, line: &Line) -> PlacedLine
    ensures { result ≡ placed map.now.tables (number, line.now) }
{
    let (from, to) = map.ends_of(line);
    PlacedLine {
        number,
        from,
        to,
        is_wall: !line.has_left(),
    }
}

/// The lines of the map with the places of their ends, by number.
pub fn placed_lines(alloc: Global, map: &Map) -> Result<Vec<PlacedLine>, AllocError>
    ensures { IfOk result (λ lines. lines.items ≡ placed_lines map.now.tables) }
{
    let mut lines = Vec::new(alloc);
    for n in 0..map.count(Kind::Line) {
        let line = map.line(n).unwrap();
        lines.push(placed(map, n, &line))?;
    }
    Ok(lines)
}
