//! The walls of a pillar, drawn into a copy of the map: each command comes out once the copy has accepted it.
ghost use Rattle.std.specs.Prelude.{◌≡◌, ◌+◌, ◌<◌, ◌≤◌, [], ◌∷◌, ◌++◌, All, IfErr, IfOk, OnOk, length};
ghost use Rattle.lump_records.specs.Names.{IsNamed, is_name};
ghost use Rattle.map_areas.specs.Drawn.{AreTaken, LeadTo, RefusesOneOf};
ghost use Rattle.map_areas.specs.Pillars.{addition, corners_drawn, next_position, pillar_drawn, solid_side, wall_drawn, walls_drawn};
ghost use Rattle.map_commands.specs.Rooms.{wall};
ghost use Rattle.map_tables.specs.Ranges.{IsItem, IsSide, IsVertex};

use crate::error::AreaError;
use crate::walls::solid_side;
use lump_records::{Line, NO_SIDE, Name8, Side};
use map_commands::Command;
use map_plane::PlacedLine;
use map_tables::{Edit, Item, Kind, Map};
use std::alloc::Global;

// Draws one more item into the copy, and notes the command.
fn add(copy: &mut Map, commands: &mut Vec<Command>, item: Item) -> Result<(), AreaError>
    requires { IsItem item }
    ensures led { OnOk result (LeadTo copy.old.tables (addition item ∷ []) copy.new.tables) }
    ensures noted { OnOk result (commands.new.items ≡ commands.old.items ++ addition item ∷ []) }
    ensures refused { IfErr result (RefusesOneOf copy.old.tables (addition item ∷ [])) }
{
    let edit = Edit::Add(item);
    copy.edit(edit)?;
    commands.push(Command::Edit(edit))?;
    Ok(())
}

// Draws a vertex at the corner where each edge begins.
fn add_corners(
    copy: &mut Map,
    commands: &mut Vec<Command>,
    edges: &[PlacedLine],
) -> Result<(), AreaError>
    requires { All (λ e. IsVertex e.from) edges.now }
    ensures led { OnOk result (LeadTo copy.old.tables (corners_drawn edges.now) copy.new.tables) }
    ensures noted { OnOk result
        (commands.new.items ≡ commands.old.items ++ corners_drawn edges.now) }
    ensures refused { IfErr result (RefusesOneOf copy.old.tables (corners_drawn edges.now)) }
{
    for edge in edges {
        match add(copy, commands, Item::Vertex(edge.from)) {
            Ok(()) => {}
            Err(error) => return Err(error),
        }
    }
    Ok(())
}

// A line from one vertex to another with a side on its right alone.
fn solid_line(v1: u16, v2: u16, right: u16) -> Line
    ensures { result ≡ wall v1 v2 right }
{
    Line {
        v1,
        v2,
        flags: 1,
        special: 0,
        tag: 0,
        right,
        left: NO_SIDE,
    }
}

// Draws a side, and a line from one vertex to another that has it on its right.
fn add_wall(
    copy: &mut Map,
    commands: &mut Vec<Command>,
    side: Side,
    v1: u16,
    v2: u16,
) -> Result<(), AreaError>
    requires side { IsSide side }
    requires v1 { v1 ≤ 32766 }
    requires v2 { v2 ≤ 32766 }
    ensures led { OnOk result (LeadTo copy.old.tables
        (wall_drawn side v1 v2 (length copy.old.tables.sides)) copy.new.tables) }
    ensures noted { OnOk result (commands.new.items
        ≡ commands.old.items ++ wall_drawn side v1 v2 (length copy.old.tables.sides)) }
    ensures refused { IfErr result (RefusesOneOf copy.old.tables
        (wall_drawn side v1 v2 (length copy.old.tables.sides))) }
{
    let before = copy.count(Kind::Side);
    add(copy, commands, Item::Side(side))?;
    let after = copy.count(Kind::Side);
    let right = before as u16;
    add(copy, commands, Item::Line(solid_line(v1, v2, right)))
}

// The position after one of so many: after the last comes the first.
fn next_position(count: u16, n: u16) -> u16
    requires { n < count }
    ensures next { result ≡ next_position count n }
    ensures bound { result < count }
{
    if n + 1 < count { n + 1 } else { 0 }
}

// Draws a wall along each edge. The vertices of the corners begin at this number.
fn add_walls(
    copy: &mut Map,
    commands: &mut Vec<Command>,
    edges: &[PlacedLine],
    side: Side,
    first: u16,
) -> Result<(), AreaError>
    requires side { IsSide side }
    requires ends { first + length edges.now ≤ 32767 }
    ensures led { OnOk result (LeadTo copy.old.tables
        (walls_drawn side first (length copy.old.tables.sides) edges.now) copy.new.tables) }
    ensures noted { OnOk result (commands.new.items ≡ commands.old.items
        ++ walls_drawn side first (length copy.old.tables.sides) edges.now) }
    ensures refused { IfErr result (RefusesOneOf copy.old.tables
        (walls_drawn side first (length copy.old.tables.sides) edges.now)) }
{
    let count = edges.len() as u16;
    for n in 0..count {
        let next = next_position(count, n);
        match add_wall(copy, commands, side, first + n, first + next) {
            Ok(()) => {}
            Err(error) => return Err(error),
        }
    }
    Ok(())
}

/// The commands that draw a pillar with these edges and this texture, which stands in the sector, into the map.
pub(crate) fn draw(
    alloc: Global,
    map: &Map,
    edges: &[PlacedLine],
    texture: Name8,
    sector: u16,
) -> Result<Vec<Command>, AreaError>
    requires corners { All (λ e. IsVertex e.from) edges.now }
    requires texture { IsNamed is_name texture }
    requires sector { sector ≤ 4095 }
    ensures drawing { IfOk result (λ commands.
        commands.items ≡ pillar_drawn map.now.tables edges.now texture sector) }
    ensures taken { IfOk result (λ commands. AreTaken map.now.tables commands.items) }
    ensures refused { IfErr result (RefusesOneOf map.now.tables
        (pillar_drawn map.now.tables edges.now texture sector)) }
{
    let mut copy = map.copy(alloc)?;
    let mut commands = Vec::new(alloc);
    let first = copy.count(Kind::Vertex);
    add_corners(&mut copy, &mut commands, edges)?;
    let _count = copy.count(Kind::Vertex);
    let side = solid_side(texture, sector);
    add_walls(&mut copy, &mut commands, edges, side, first as u16)?;
    Ok(commands)
}
