//! The lines of a map with the sectors on their sides.
ghost use Rattle.std.specs.Prelude.{◌≡◌, ◌≢◌, IfOk};
ghost use Rattle.lump_records.specs.Sides.{no_side};
ghost use Rattle.map_tables.specs.WellFormed.{HasSides};
ghost use Rattle.map_play.specs.Sided.{right_sector_of, left_sector_of, sector_on_left, sided, sided_lines};

use lump_records::Line;
use map_tables::{Kind, Map};
use std::alloc::{AllocError, Global};

/// A line with its number, and the sectors on its right and on its left.
#[derive(Clone, Copy)]
pub struct SidedLine {
    pub number: u32,
    pub right: u16,
    pub left: Option<u16>,
    pub is_two_sided: bool,
}

/// The sector on the line's right.
pub(crate) fn sector_on_right(map: &Map, line: &Line) -> u16
    requires { HasSides map.now.tables.sides line.now }
    ensures { result ≡ right_sector_of map.now.tables line.now }
{
    map.side(u32::from(line.right)).unwrap().sector
}

/// The sector on the line's left side, which it has.
pub(crate) fn sector_behind(map: &Map, line: &Line) -> u16
    requires sides { HasSides map.now.tables.sides line.now }
    requires left { line.now.left ≢ no_side }
    ensures { result ≡ left_sector_of map.now.tables line.now }
{
    map.side(u32::from(line.left)).unwrap().sector
}

// The sector on the line's left, if it has a left side.
fn sector_on_left(map: &Map, line: &Line) -> Option<u16>
    requires { HasSides map.now.tables.sides line.now }
    ensures { result ≡ sector_on_left map.now.tables line.now }
{
    if !line.has_left() {
        return None;
    }
    Some(sector_behind(map, line))
}

// A line with its number and the sectors on its sides.
fn sided(map: &Map, number: u32, line: &Line) -> SidedLine
    requires { HasSides map.now.tables.sides line.now }
    ensures { result ≡ sided map.now.tables (number, line.now) }
{
    let right = sector_on_right(map, line);
    let left = sector_on_left(map, line);
    SidedLine {
        number,
        right,
        left,
        is_two_sided: line.is_two_sided(),
    }
}

/// The lines of the map with the sectors on their sides, by number.
pub(crate) fn sided_lines(alloc: Global, map: &Map) -> Result<Vec<SidedLine>, AllocError>
    ensures { IfOk result (λ lines. lines.items ≡ sided_lines map.now.tables) }
{
    let mut lines = Vec::new(alloc);
    for n in 0..map.count(Kind::Line) {
        let line = map.line(n).unwrap();
        lines.push(sided(map, n, &line))?;
    }
    Ok(lines)
}
