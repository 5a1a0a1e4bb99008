//! Areas: polygons that become sectors.
ghost use Rattle.std.specs.Prelude.{◌≡◌, ◌<◌, ℕ, All, IfErr, IfOk, OnOk, false, length, true};
ghost use Rattle.std.specs.List.{list_any};
ghost use Rattle.lump_records.specs.declared.records.Vertex.{Vertex};
ghost use Rattle.map_areas.specs.Apart.{doubled};
ghost use Rattle.map_areas.specs.Cuts.{IsCutWhole, IsLed, IsWalled, uncut};
ghost use Rattle.map_areas.specs.Drawings.{IsCutOnBorder, IsUnderway, IsOnBorder};
ghost use Rattle.map_areas.specs.Drawn.{AreTaken, RefusesDrawing, drawn};
ghost use Rattle.map_areas.specs.Errors.{IsOfMap};
ghost use Rattle.map_areas.specs.Areas.{AcceptsArea, DrawsArea, RefusesArea};
ghost use Rattle.map_areas.specs.InRange.{IsAreaInRange, JudgesRange};
ghost use Rattle.map_areas.specs.Inside.{is_border_stop};
ghost use Rattle.map_areas.specs.Order.{ComesAfterSectors, ComesInOrder, IsOfRound, MayBecome};
ghost use Rattle.map_areas.specs.Outlines.{edges_round};
ghost use Rattle.map_areas.specs.Refusals.{IsAreaRefusal, LiesInVoid};
ghost use Rattle.map_areas.specs.declared.error.AreaError.TheVariants.{OutOfRange};
ghost use Rattle.map_commands.specs.Step.{InRange};
ghost use Rattle.map_plane.specs.Meeting.{is_at};
ghost use Rattle.map_plane.specs.Places.{placed_lines};
ghost use Rattle.map_tables.specs.Ranges.{IsNamed, IsSector, is_name};
ghost use Rattle.map_tables.specs.WellFormed.{WellFormed};

use crate::border::{Border, border_of};
use crate::drawing::{Drawing, drawing_of};
use crate::error::AreaError;
use crate::inside::find_empty;
use crate::lists::placed_by_lists;
use crate::polygon::polygon;
use crate::ranges::is_area_in_range;
use crate::round::sector_round;
use crate::sharing::Paint;
use crate::ways::{Ground, ground_of};
use lump_records::{Name8, Sector, Vertex};
use map_commands::Command;
use map_plane::PlacedLine;
use map_tables::{Kind, Map};
use std::alloc::Global;

/// A polygon that becomes a sector. Its corners are in order, either way round; WALL is the texture of its walls.
#[derive(Drop)]
pub struct Area {
    pub corners: Vec<Vertex>,
    pub sector: Sector,
    pub wall: Name8,
}

// What is round the border of the area. Refused if that isn't one sector or the void, or, in the void, if a line lies
// inside.
fn find_round(
    alloc: Global,
    map: &Map,
    ground: &Ground,
    border: &Border,
) -> Result<Option<u16>, AreaError>
    requires lines { ground.now.lines.items ≡ placed_lines map.now.tables }
    requires doubled { ground.now.doubled.items ≡ doubled (placed_lines map.now.tables) }
    requires edges { uncut border.now.cut_edges.items ≡ border.now.edges.items }
    requires some { 0 < length border.now.cut_edges.items }
    requires cut { All (IsCutWhole map.now.tables) border.now.cut_edges.items }
    requires stops { (p : Vertex) → list_any (is_at p) border.now.stops.items
        ≡ is_border_stop map.now.tables border.now.edges.items p }
    ensures led { IfOk result (λ round. All (IsLed map.now.tables round)
        border.now.cut_edges.items) }
    ensures empty { OnOk result ((n : ℕ) → LiesInVoid map.now.tables border.now.edges.items
        border.now.doubled.items n → ⊥) }
    ensures refused { IfErr result IsOfRound }
    ensures order { IfErr result (ComesAfterSectors map.now.tables border.now.edges.items) }
    ensures reason { IfErr result (IsAreaRefusal map.now.tables border.now.edges.items
        border.now.doubled.items) }
{
    let round = sector_round(map, ground, border)?;
    find_empty(alloc, map, &ground.lines, border, round)?;
    Ok(round)
}

// Draws an area with this sector, whose border may be drawn, into a copy of the map.
fn draw(
    alloc: Global,
    map: &Map,
    ground: &Ground,
    border: &Border,
    paint: &Paint,
    sector: Sector,
) -> Result<Drawing, AreaError>
    requires vertices { ground.now.vertices.items ≡ map.now.tables.vertices }
    requires records { ground.now.records.items ≡ map.now.tables.lines }
    requires lines { ground.now.lines.items ≡ placed_lines map.now.tables }
    requires doubled { ground.now.doubled.items ≡ doubled (placed_lines map.now.tables) }
    requires stops { All (IsOnBorder border.now.edges.items) border.now.stops.items }
    requires edges { All (IsCutOnBorder border.now.edges.items) border.now.cut_edges.items }
    requires led { All (IsLed map.now.tables paint.now.round) border.now.cut_edges.items }
    requires sector { IsSector sector }
    requires wall { IsNamed is_name paint.now.wall }
    requires number { paint.now.sector ≡ length map.now.tables.sectors }
    requires well_formed { WellFormed map.now.tables }
    ensures drawn { IfOk result (IsUnderway map.now.tables border.now paint.now.round) }
    ensures walled { IfOk result (λ drawing. All (IsWalled map.now.tables drawing.map.tables
        paint.now.sector) border.now.cut_edges.items) }
    ensures refused { IfErr result (RefusesDrawing map.now.tables border.now.edges.items) }
{
    let round = paint.round;
    let mut drawing = drawing_of(alloc, map, ground, border, round, sector)?;
    drawing.cut_lines(alloc, map, ground, border, round)?;
    drawing.add_stops(map, border, round)?;
    let lines = placed_by_lists(alloc, &drawing.map, &drawing.vertices, &drawing.lines)?;
    drawing.draw_border(map, ground, border, paint, &lines)?;
    drawing.turn_inside(map, ground, border, paint, &lines)?;
    Ok(drawing)
}

// The commands that draw the area, whose edges run clockwise, into the map.
fn commands_within(
    alloc: Global,
    map: &Map,
    area: &Area,
    edges: Vec<PlacedLine>,
) -> Result<Vec<Command>, AreaError>
    requires some { 0 < length edges.items }
    requires long { All (λ e. is_at e.from e.to ≡ false) edges.items }
    requires round { edges.items ≡ edges_round true area.now.corners.items }
    requires in_range { IsAreaInRange area.now }
    ensures range { IfOk result (λ commands. All InRange commands.items) }
    ensures taken { IfOk result (λ commands. AreTaken map.now.tables commands.items) }
    ensures area { IfOk result (λ commands.
        DrawsArea edges.items map.now.tables (drawn map.now.tables commands.items)) }
    ensures becomes { OnOk result (MayBecome map.now.tables edges.items) }
    ensures refused { IfErr result IsOfMap }
    ensures order { IfErr result (ComesInOrder map.now.tables edges.items) }
    ensures reason { IfErr result (IsAreaRefusal map.now.tables edges.items
        (doubled edges.items)) }
{
    let ground = ground_of(alloc, map)?;
    let border = border_of(alloc, map, &ground, edges)?;
    let round = find_round(alloc, map, &ground, &border)?;
    let sectors = map.count(Kind::Sector);
    let paint = Paint {
        sector: sectors as u16,
        round,
        wall: area.wall,
    };
    let drawing = draw(alloc, map, &ground, &border, &paint, area.sector)?;
    Ok(drawing.into_commands())
}

// Refuses an area of which a number or a name isn't in its range.
fn find_in_range(area: &Area) -> Result<(), AreaError>
    ensures range { OnOk result (IsAreaInRange area.now) }
    ensures refused { IfErr result (λ e. (e ≡ OutOfRange) × (IsAreaInRange area.now → ⊥)) }
{
    if is_area_in_range(area) {
        return Ok(());
    }
    Err(AreaError::OutOfRange)
}

/// The commands that draw the area into the map.
pub fn area_commands(alloc: Global, map: &Map, area: &Area) -> Result<Vec<Command>, AreaError>
    ensures ok { IfOk result (λ commands.
        AcceptsArea map.now.tables area.now.corners.items commands.items) }
    ensures range { IfOk result (λ commands. All InRange commands.items) }
    ensures refused { IfErr result (RefusesArea map.now.tables area.now.corners.items) }
    ensures in_range { OnOk result (IsAreaInRange area.now) }
    ensures out_of_range { IfErr result (JudgesRange (IsAreaInRange area.now)) }
{
    let edges = polygon(alloc, &area.corners, true)?;
    find_in_range(area)?;
    let commands = commands_within(alloc, map, area, edges)?;
    Ok(commands)
}
