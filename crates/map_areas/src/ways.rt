//! The way from one place to another, and what was along it and on its left.
ghost use Rattle.std.specs.Prelude.{◌≡◌, ◌<◌, ◌&&◌, IfOk, IfSome, find, length, slice_get, true};
ghost use Rattle.std.specs.List.{list_any};
ghost use Rattle.map_areas.specs.Apart.{doubled};
ghost use Rattle.map_areas.specs.Ways.{comes_before, crosses_way, faces_left, is_between, is_left_of_way, is_same, left_faced, right_faced, runs_along, runs_with, sector_between, sector_by_side, sector_on_right, side_on_left, side_on_right, way};
ghost use Rattle.map_plane.specs.Meeting.{is_on, spans_meet};
ghost use Rattle.map_plane.specs.Places.{placed, placed_lines};
ghost use Rattle.map_tables.specs.WellFormed.{WellFormed};

use crate::border::{sum, twice};
use crate::lists::{lines_of, placed_by_lists, vertices_of};
use lump_records::{Line, Vertex};
use map_plane::{
    PlacedLine, boxes_meet, crosses, ends_at, is_on, nearest, sector_shown, spans_meet,
};
use map_tables::Map;
use std::alloc::{AllocError, Global};

/// The vertices and the lines of a map, its lines with the places of their ends, and these at twice the size.
#[derive(Drop)]
pub(crate) struct Ground {
    pub vertices: Vec<Vertex>,
    pub records: Vec<Line>,
    pub lines: Vec<PlacedLine>,
    pub doubled: Vec<PlacedLine>,
}

/// The vertices and the lines of the map, as they are.
pub(crate) fn ground_of(alloc: Global, map: &Map) -> Result<Ground, AllocError>
    ensures vertices { IfOk result (λ ground. ground.vertices.items ≡ map.now.tables.vertices) }
    ensures records { IfOk result (λ ground. ground.records.items ≡ map.now.tables.lines) }
    ensures lines { IfOk result (λ ground. ground.lines.items ≡ placed_lines map.now.tables) }
    ensures doubled { IfOk result (λ ground.
        ground.doubled.items ≡ doubled (placed_lines map.now.tables)) }
{
    let vertices = vertices_of(alloc, map)?;
    let records = lines_of(alloc, map)?;
    let lines = placed_by_lists(alloc, map, &vertices, &records)?;
    let doubled = twice(alloc, &lines)?;
    Ok(Ground {
        vertices,
        records,
        lines,
        doubled,
    })
}

/// The way from one place to another.
pub(crate) fn way(from: Vertex, to: Vertex) -> PlacedLine
    ensures { result ≡ way from to }
{
    PlacedLine {
        number: 0,
        from,
        to,
        is_wall: false,
    }
}

/// A line with its number and the places of its ends.
pub(crate) fn placed(map: &Map, number: u32, line: &Line) -> PlacedLine
    ensures { result ≡ placed map.now.tables (number, line.now) }
{
    let (from, to) = map.ends_of(line);
    PlacedLine {
        number,
        from,
        to,
        is_wall: !line.has_left(),
    }
}

// Whether the place lies in the line's box.
fn is_near(line: &PlacedLine, place: Vertex) -> bool
    ensures { result ≡ (spans_meet line.now.from.x line.now.to.x place.x place.x
        && spans_meet line.now.from.y line.now.to.y place.y place.y) }
{
    spans_meet(line.from.x, line.to.x, place.x, place.x)
        && spans_meet(line.from.y, line.to.y, place.y, place.y)
}

// Whether the place lies on the line. Most lines are far away, which their box tells first.
fn lies_on(line: &PlacedLine, place: Vertex) -> bool
    ensures { result ≡ is_on line.now place }
{
    is_near(line, place) && is_on(line, place)
}

/// Whether the place lies on the line, between its ends.
pub(crate) fn is_between(line: &PlacedLine, place: Vertex) -> bool
    ensures { result ≡ is_between line.now place }
{
    lies_on(line, place) && !ends_at(line, place)
}

// Whether the line crosses the way.
pub(crate) fn crosses_way(way: &PlacedLine, line: &PlacedLine) -> bool
    ensures { result ≡ crosses_way way.now line.now }
{
    boxes_meet(way, line) && crosses(way, line)
}

/// The line with the number.
pub(crate) fn line_at(lines: &[PlacedLine], number: u32) -> Option<PlacedLine>
    ensures { result ≡ slice_get lines.now number }
{
    lines.get(number as usize).copied()
}

/// Whether the line runs along the way, as far as it leads.
pub(crate) fn runs_along(way: &PlacedLine, line: &PlacedLine) -> bool
    ensures { result ≡ runs_along way.now line.now }
{
    lies_on(line, way.from) && lies_on(line, way.to)
}

// Whether the place comes before the other one: further west, or, in one column, further south.
fn comes_before(a: Vertex, b: Vertex) -> bool
    ensures { result ≡ comes_before a b }
{
    a.x < b.x || a.x == b.x && a.y < b.y
}

// Whether the line, which runs along the way, runs in its direction.
fn runs_with(way: &PlacedLine, line: &PlacedLine) -> bool
    ensures { result ≡ runs_with way.now line.now }
{
    if comes_before(way.from, way.to) {
        comes_before(line.from, line.to)
    } else {
        comes_before(line.to, line.from)
    }
}

/// The sector that a side faces, if there is such a side.
pub(crate) fn sector_by_side(map: &Map, side: u16) -> Option<u16>
    ensures { result ≡ sector_by_side map.now.tables side }
{
    Some(map.side(u32::from(side))?.sector)
}

// The line's side that is on the left of the way.
fn side_on_left(way: &PlacedLine, placed: &PlacedLine, line: &Line) -> u16
    ensures { result ≡ side_on_left way.now placed.now line.now }
{
    if runs_with(way, placed) {
        line.left
    } else {
        line.right
    }
}

// The sector that a line along the way faces on the way's left, if it has a side there.
fn left_faced(map: &Map, way: &PlacedLine, placed: &PlacedLine) -> Option<u16>
    ensures { result ≡ left_faced map.now.tables way.now placed.now }
{
    let line = map.line(placed.number)?;
    sector_by_side(map, side_on_left(way, placed, &line))
}

// The line's side that is on the right of the way.
fn side_on_right(way: &PlacedLine, placed: &PlacedLine, line: &Line) -> u16
    ensures { result ≡ side_on_right way.now placed.now line.now }
{
    if runs_with(way, placed) {
        line.right
    } else {
        line.left
    }
}

// The sector that a line along the way faces on the way's right, if it has a side there.
fn right_faced(map: &Map, way: &PlacedLine, placed: &PlacedLine) -> Option<u16>
    ensures { result ≡ right_faced map.now.tables way.now placed.now }
{
    let line = map.line(placed.number)?;
    sector_by_side(map, side_on_right(way, placed, &line))
}

// The first of the lines that runs along the way.
fn line_along(lines: &[PlacedLine], way: &PlacedLine) -> Option<PlacedLine>
    ensures { result ≡ find (runs_along way.now) lines.now }
{
    for line in lines {
        if runs_along(way, line) {
            return Some(*line);
        }
    }
    None
}

/// What is on the right of the way: what the first line along it faces there, or what its middle belongs to.
pub(crate) fn sector_on_right(map: &Map, ground: &Ground, way: &PlacedLine) -> Option<u16>
    requires lines { ground.now.lines.items ≡ placed_lines map.now.tables }
    requires doubled { ground.now.doubled.items ≡ doubled (placed_lines map.now.tables) }
    ensures { result ≡ sector_on_right map.now.tables way.now }
{
    match line_along(&ground.lines, way) {
        Some(line) => right_faced(map, way, &line),
        None => sector_between(map, ground, way),
    }
}

/// Whether the sectors are the same, or both the void.
pub(crate) fn is_same(a: Option<u16>, b: Option<u16>) -> bool
    ensures { result ≡ is_same a b }
{
    a == b
}

// Whether the line runs along the way, and faces this sector on its left.
fn faces_left(map: &Map, way: &PlacedLine, sector: Option<u16>, line: &PlacedLine) -> bool
    ensures { result ≡ faces_left map.now.tables way.now sector line.now }
{
    runs_along(way, line) && is_same(left_faced(map, way, line), sector)
}

// Whether one of the lines does so.
fn is_faced(map: &Map, lines: &[PlacedLine], way: &PlacedLine, sector: Option<u16>) -> bool
    ensures { result ≡ list_any (faces_left map.now.tables way.now sector) lines.now }
{
    lines.iter().any(|line| faces_left(map, way, sector, line))
}

// Whether one of the lines runs along the way.
fn is_lined(lines: &[PlacedLine], way: &PlacedLine) -> bool
    ensures { result ≡ list_any (runs_along way.now) lines.now }
{
    lines.iter().any(|line| runs_along(way, line))
}

/// The sector that the middle of the way belongs to.
pub(crate) fn sector_between(map: &Map, ground: &Ground, way: &PlacedLine) -> Option<u16>
    requires { ground.now.doubled.items ≡ doubled (placed_lines map.now.tables) }
    ensures { result ≡ sector_between map.now.tables way.now }
{
    let middle = sum(way.from, way.to);
    sector_shown(map, &nearest(&ground.doubled, middle)?, middle)
}

/// Whether a line along the way faces this sector on its left, or, where no line is, its middle belongs to this sector.
pub(crate) fn is_left_of_way(
    map: &Map,
    ground: &Ground,
    way: &PlacedLine,
    sector: Option<u16>,
) -> bool
    requires lines { ground.now.lines.items ≡ placed_lines map.now.tables }
    requires doubled { ground.now.doubled.items ≡ doubled (placed_lines map.now.tables) }
    ensures { result ≡ is_left_of_way map.now.tables way.now sector }
{
    if is_lined(&ground.lines, way) {
        is_faced(map, &ground.lines, way, sector)
    } else {
        is_same(sector_between(map, ground, way), sector)
    }
}

/// What is on the left of the way: what the first line along it faces there, or, where no line is, what is round it.
pub(crate) fn left_of_way(
    map: &Map,
    ground: &Ground,
    way: &PlacedLine,
    round: Option<u16>,
) -> Option<u16>
    requires lines { ground.now.lines.items ≡ placed_lines map.now.tables }
    requires led { is_same (sector_on_right map.now.tables way.now) round ≡ true }
    requires well_formed { WellFormed map.now.tables }
    ensures left { is_left_of_way map.now.tables way.now result ≡ true }
    ensures sector { IfSome result (λ s. s < length map.now.tables.sectors) }
{
    match line_along(&ground.lines, way) {
        Some(line) => left_faced(map, way, &line),
        None => round,
    }
}
