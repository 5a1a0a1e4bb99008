//! The areas of a map's sectors.
ghost use Rattle.std.specs.Prelude.{◌≡◌, ◌<◌, ◌≤ℤ◌, ◌^◌, pos, neg_ℤ, length, vec_len, IfOk};
ghost use Rattle.map_tables.specs.WellFormed.{HasEnds, HasSides};
ghost use Rattle.map_checks.specs.Corners.{edges_of_line};
ghost use Rattle.map_lint.specs.Areas.{edge_area};
ghost use Rattle.map_lint.specs.Tallies.{AreWithin, AddsArea, AddsAreas, AreAreas};

use crate::error::LintError;
use lump_records::{Line, Point, Ray};
use map_tables::{Kind, Map};
use std::alloc::Global;

// Twice the signed area of the triangle of the origin and an edge: above 0 if the origin is on the edge's right.
fn edge_area(map: &Map, from: u16, to: u16) -> i64
    requires from { from < length map.now.tables.vertices }
    requires to { to < length map.now.tables.vertices }
    ensures value { result ≡ edge_area map.now.tables.vertices from to }
    ensures low { neg_ℤ (pos (2 ^ 48)) ≤ℤ result }
    ensures high { result ≤ℤ pos (2 ^ 48) }
{
    let from = map.vertex(u32::from(from)).unwrap();
    let to = map.vertex(u32::from(to)).unwrap();
    Ray::between(from, to).side_value(Point { x: 0, y: 0 })
}

// Adds an edge's triangle to its sector's area.
fn add_edge(areas: &mut Vec<i128>, map: &Map, sector: u16, from: u16, to: u16)
    requires sector { sector < vec_len areas.old }
    requires from { from < length map.now.tables.vertices }
    requires to { to < length map.now.tables.vertices }
    requires room { AreWithin (2 ^ 101) areas.old.items }
    ensures { AddsArea map.now.tables (record { sector = sector; from = from; to = to })
        areas.old.items areas.new.items }
{
    let area = edge_area(map, from, to);
    let n = usize::from(sector);
    areas[n] += i128::from(area);
}

// Adds the triangles of the line's edges: one on its right and, if it has a left side, one on its left.
fn add_line(areas: &mut Vec<i128>, map: &Map, line: &Line)
    requires count { vec_len areas.old ≡ length map.now.tables.sectors }
    requires ends { HasEnds map.now.tables.vertices line.now }
    requires sides { HasSides map.now.tables.sides line.now }
    requires room { AreWithin (2 ^ 100) areas.old.items }
    ensures { AddsAreas map.now.tables
        (edges_of_line map.now.tables line.now) areas.old.items areas.new.items }
{
    let right = map.side(u32::from(line.right)).unwrap();
    add_edge(areas, map, right.sector, line.v1, line.v2);
    if line.has_left() {
        let left = map.side(u32::from(line.left)).unwrap();
        add_edge(areas, map, left.sector, line.v2, line.v1);
    }
}

/// Twice the signed area of each sector: above 0 if its edges run clockwise.
pub(crate) fn areas_of(alloc: Global, map: &Map) -> Result<Vec<i128>, LintError>
    ensures { IfOk result (λ areas. AreAreas map.now.tables areas.items) }
{
    let mut areas = vec![in alloc; 0i128; map.count(Kind::Sector) as usize]?;
    for n in 0..map.count(Kind::Line) {
        let line = map.line(n).unwrap();
        add_line(&mut areas, map, &line);
    }
    Ok(areas)
}
