//! Pillars: polygons with nothing inside.
ghost use Rattle.std.specs.Prelude.{◌≡◌, ◌<◌, ◌≤◌, ℕ, All, IfErr, IfOk, OnOk, false, length, slice_get};
ghost use Rattle.std.specs.List.{list_any};
ghost use Rattle.std.specs.Option.{option_map_or};
ghost use Rattle.lump_records.specs.Names.{IsNamed, is_name};
ghost use Rattle.map_areas.specs.Areas.{AcceptsPillar, RefusesPillar};
ghost use Rattle.map_areas.specs.Drawn.{AreTaken};
ghost use Rattle.map_areas.specs.Errors.{IsOfMap};
ghost use Rattle.map_areas.specs.InRange.{IsPillarInRange, JudgesRange};
ghost use Rattle.map_areas.specs.Pillars.{pillar_drawn};
ghost use Rattle.map_areas.specs.Refusals.{AreInSector, IsLineInside, IsPillarRefusal, IsStandRefusal, IsVertexUnder, MayStand, is_in_the_way, touches};
ghost use Rattle.map_areas.specs.declared.error.AreaError.TheVariants.{OutOfRange};
ghost use Rattle.map_commands.specs.Step.{InRange};
ghost use Rattle.map_plane.specs.Meeting.{is_on};
ghost use Rattle.map_plane.specs.Nearest.{sector_of_place};
ghost use Rattle.map_plane.specs.Places.{placed_lines};
ghost use Rattle.map_tables.specs.Ranges.{IsVertex};

use crate::error::{AreaError, Part};
use crate::pillar_walls::draw;
use crate::polygon::polygon;
use crate::ranges::is_pillar_in_range;
use crate::ways::is_same;
use lump_records::{Name8, Vertex};
use map_commands::Command;
use map_plane::{PlacedLine, crosses, is_inside, is_on, is_on_any, placed_lines, sector_at};
use map_tables::{Kind, Map};
use std::alloc::Global;

/// A polygon with nothing inside, in a sector. Its corners are in order, either way round.
#[derive(Drop)]
pub struct Pillar {
    pub corners: Vec<Vertex>,
    pub wall: Name8,
}

// The edge, and the sector that its first end belongs to.
fn part_at(map: &Map, edge: &PlacedLine) -> Part
    ensures from { result.from ≡ edge.now.from }
    ensures to { result.to ≡ edge.now.to }
    ensures sector { result.sector ≡ sector_of_place map.now.tables edge.now.from }
{
    Part {
        from: edge.from,
        to: edge.to,
        sector: sector_at(map, edge.from),
    }
}

// The sector that all corners belong to.
fn sector_of(map: &Map, edges: &[PlacedLine]) -> Result<u16, AreaError>
    requires { 0 < length edges.now }
    ensures same { IfOk result (AreInSector map.now.tables edges.now) }
    ensures reason { IfErr result (IsStandRefusal map.now.tables edges.now) }
{
    let first = part_at(map, &edges[0]);
    let Some(sector) = first.sector else {
        return Err(AreaError::SeveralSectors {
            first,
            second: first,
        });
    };
    for edge in edges {
        let part = part_at(map, edge);
        if !is_same(Some(sector), part.sector) {
            return Err(AreaError::SeveralSectors {
                first,
                second: part,
            });
        }
    }
    Ok(sector)
}

// Whether two lines have a point in common.
fn touches(l: &PlacedLine, k: &PlacedLine) -> bool
    ensures { result ≡ touches l.now k.now }
{
    crosses(l, k) || is_on(l, k.from) || is_on(l, k.to) || is_on(k, l.from) || is_on(k, l.to)
}

// Whether one of the edges has a point in common with the line.
fn is_touched(edges: &[PlacedLine], line: &PlacedLine) -> bool
    ensures { result ≡ list_any (λ e. touches e line.now) edges.now }
{
    edges.iter().any(|edge| touches(edge, line))
}

// Whether the line has a point in common with an edge, or lies inside.
fn is_in_the_way(edges: &[PlacedLine], line: &PlacedLine) -> bool
    ensures { result ≡ is_in_the_way edges.now line.now }
{
    is_touched(edges, line) || is_inside(edges, line.from)
}

// Whether the line with the number isn't wholly outside.
fn is_line_inside(lines: &[PlacedLine], edges: &[PlacedLine], number: u32) -> bool
    ensures { result
        ≡ option_map_or (is_in_the_way edges.now) (slice_get lines.now number) false }
{
    match lines.get(number as usize) {
        Some(line) => is_in_the_way(edges, line),
        None => false,
    }
}

// Refuses the first line that isn't wholly outside.
fn find_no_line(map: &Map, lines: &[PlacedLine], edges: &[PlacedLine]) -> Result<(), AreaError>
    requires { lines.now ≡ placed_lines map.now.tables }
    ensures outside { OnOk result ((n : ℕ) → IsLineInside map.now.tables edges.now n → ⊥) }
    ensures reason { IfErr result (IsStandRefusal map.now.tables edges.now) }
{
    for n in 0..map.count(Kind::Line) {
        if is_line_inside(lines, edges, n) {
            return Err(AreaError::NotEmpty { line: n as u16 });
        }
    }
    Ok(())
}

// Whether the vertex with the number lies on an edge.
fn is_vertex_under(map: &Map, edges: &[PlacedLine], number: u32) -> bool
    ensures { result ≡ option_map_or (λ v. list_any (λ e. is_on e v) edges.now)
        (slice_get map.now.tables.vertices number) false }
{
    match map.vertex(number) {
        Some(vertex) => is_on_any(edges, vertex),
        None => false,
    }
}

// Refuses the first vertex that is on an edge.
fn find_no_vertex(map: &Map, edges: &[PlacedLine]) -> Result<(), AreaError>
    ensures free { OnOk result ((n : ℕ) → IsVertexUnder map.now.tables edges.now n → ⊥) }
    ensures reason { IfErr result (IsStandRefusal map.now.tables edges.now) }
{
    for n in 0..map.count(Kind::Vertex) {
        if is_vertex_under(map, edges, n) {
            return Err(AreaError::OverVertex { vertex: n as u16 });
        }
    }
    Ok(())
}

// The sector in which a pillar with these edges stands, if what is there lets it.
fn find_place(map: &Map, lines: &[PlacedLine], edges: &[PlacedLine]) -> Result<u16, AreaError>
    requires lines { lines.now ≡ placed_lines map.now.tables }
    requires some { 0 < length edges.now }
    ensures corners { IfOk result (AreInSector map.now.tables edges.now) }
    ensures stands { OnOk result (MayStand map.now.tables edges.now) }
    ensures range { IfOk result (λ sector. sector ≤ 4095) }
    ensures reason { IfErr result (IsStandRefusal map.now.tables edges.now) }
{
    let sector = sector_of(map, edges)?;
    find_no_line(map, lines, edges)?;
    find_no_vertex(map, edges)?;
    let _count = map.count(Kind::Vertex);
    Ok(sector)
}

// The commands that draw the pillar, whose edges run the other way round, into the map.
fn commands_within(
    alloc: Global,
    map: &Map,
    wall: Name8,
    edges: &[PlacedLine],
) -> Result<Vec<Command>, AreaError>
    requires some { 0 < length edges.now }
    requires corners { All (λ e. IsVertex e.from) edges.now }
    requires wall { IsNamed is_name wall }
    ensures stands { OnOk result (MayStand map.now.tables edges.now) }
    ensures drawing { IfOk result (λ commands. (sector : ℕ)
        × AreInSector map.now.tables edges.now sector
        × (commands.items ≡ pillar_drawn map.now.tables edges.now wall sector)) }
    ensures taken { IfOk result (λ commands. AreTaken map.now.tables commands.items) }
    ensures refused { IfErr result IsOfMap }
    ensures reason { IfErr result (IsPillarRefusal map.now.tables edges.now wall) }
{
    let lines = placed_lines(alloc, map)?;
    let sector = find_place(map, &lines, edges)?;
    draw(alloc, map, edges, wall, sector)
}

// Refuses a pillar of which a number or a name isn't in its range.
fn find_in_range(pillar: &Pillar) -> Result<(), AreaError>
    ensures range { OnOk result (IsPillarInRange pillar.now) }
    ensures refused { IfErr result (λ e. (e ≡ OutOfRange) × (IsPillarInRange pillar.now → ⊥)) }
{
    if is_pillar_in_range(pillar) {
        return Ok(());
    }
    Err(AreaError::OutOfRange)
}

/// The commands that draw the pillar into the map.
pub fn pillar_commands(alloc: Global, map: &Map, pillar: &Pillar) -> Result<Vec<Command>, AreaError>
    ensures ok { IfOk result (λ commands.
        AcceptsPillar map.now.tables pillar.now commands.items) }
    ensures range { IfOk result (λ commands. All InRange commands.items) }
    ensures refused { IfErr result (RefusesPillar map.now.tables pillar.now) }
    ensures in_range { OnOk result (IsPillarInRange pillar.now) }
    ensures out_of_range { IfErr result (JudgesRange (IsPillarInRange pillar.now)) }
{
    let edges = polygon(alloc, &pillar.corners, false)?;
    find_in_range(pillar)?;
    let commands = commands_within(alloc, map, pillar.wall, &edges)?;
    Ok(commands)
}
