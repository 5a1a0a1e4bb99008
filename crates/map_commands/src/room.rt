//! A room: what it is made of, why it is refused, the change, and its words.
ghost use Rattle.std.specs.Prelude.{◌≡◌, ◌+◌, ◌≤◌, ◌||◌, ◌&&◌, int_lt, ◌∷◌, None, IfOk, false, length, drop};
ghost use Rattle.std.specs.List.{join_with_byte, list_any};
ghost use Rattle.map_tables.specs.Faults.{is_taken, lacks_room, lacks_sector_room};
ghost use Rattle.map_tables.specs.Outcomes.{Covers, Spends, Tells, least};
ghost use Rattle.map_commands.specs.Errors.{TellsFault};
ghost use Rattle.map_commands.specs.Grammar.{head_word, words_of};
ghost use Rattle.map_commands.specs.Places.{room_places};
ghost use Rattle.map_commands.specs.Reading.{fault_with};
ghost use Rattle.map_commands.specs.Rooms.{corners, four_sides, four_vertices, room_fault, room_faults, room_sector, room_side, room_sides, room_words, wall, walls, with_lines, with_room, with_sides, with_vertices};
ghost use Rattle.map_commands.specs.Step.{InRange, IsPlan, IsRoom, need_of};
ghost use Rattle.map_commands.specs.Views.{Adds, reading};
ghost use Rattle.map_commands.specs.declared.grammar.Head.TheVariants as head;

use crate::command::{Command, RoomPlan};
use crate::edits::{count, put};
use crate::error::CommandError;
use crate::forms::GREATEST_LIGHT;
use crate::names::NO_TEXTURE;
use crate::need::lacks_room;
use crate::text::Text;
use crate::unread::UnreadWords;
use lump_records::{GREATEST_COORDINATE, LEAST_COORDINATE, Line, NO_SIDE, Sector, Side, Vertex};
use map_tables::{Edit, Item, Kind, Map, MapError, Maps};
use std::alloc::AllocError;

// The corners, clockwise from the one in the south-west.
fn corners_of(plan: &RoomPlan) -> [Vertex; 4]
    ensures { result ≡ corners plan.now }
{
    let RoomPlan {
        west,
        south,
        east,
        north,
        ..
    } = *plan;
    [
        Vertex { x: west, y: south },
        Vertex { x: west, y: north },
        Vertex { x: east, y: north },
        Vertex { x: east, y: south },
    ]
}

// The room's sector.
fn sector_of(plan: &RoomPlan) -> Sector
    ensures { result ≡ room_sector plan.now }
{
    Sector {
        floor: plan.floor,
        ceiling: plan.ceiling,
        floor_name: plan.floor_name,
        ceiling_name: plan.ceiling_name,
        light: plan.light,
        special: 0,
        tag: 0,
    }
}

// A side of the room, which faces inwards.
fn side_of(plan: &RoomPlan, sector: u16) -> Side
    ensures { result ≡ room_side plan.now sector }
{
    Side {
        x_offset: 0,
        y_offset: 0,
        upper: NO_TEXTURE,
        lower: NO_TEXTURE,
        middle: plan.wall,
        sector,
    }
}

// A wall between two corners, with its right side.
fn wall(v1: u16, v2: u16, right: u16) -> Line
    ensures { result ≡ wall v1 v2 right }
{
    Line {
        v1,
        v2,
        flags: 1,
        special: 0,
        tag: 0,
        right,
        left: NO_SIDE,
    }
}

// Whether a vertex already stands at a corner.
fn has_corner_taken(map: &Map, plan: &RoomPlan) -> bool
    ensures { result ≡ list_any (is_taken map.now.tables.vertices) (corners plan.now) }
{
    corners_of(plan).iter().any(|corner| map.has_place(*corner))
}

// Whether a table is too full for what a room adds to it.
fn is_too_full_to_draw(map: &Map) -> bool
    ensures { result ≡ (lacks_room map.now.tables.vertices 4
        || lacks_sector_room map.now.tables.sectors 1
        || lacks_room map.now.tables.sides 4 || lacks_room map.now.tables.lines 4) }
{
    lacks_room(map, Kind::Vertex, 4)
        || lacks_room(map, Kind::Sector, 1)
        || lacks_room(map, Kind::Side, 4)
        || lacks_room(map, Kind::Line, 4)
}

/// Whether a room can be drawn.
pub fn can_draw(map: &Map, plan: &RoomPlan) -> Result<(), MapError>
    ensures { Tells result (room_faults map.now.tables plan.now) }
{
    if has_corner_taken(map, plan) {
        return Err(MapError::PlaceTaken);
    }
    if is_too_full_to_draw(map) {
        return Err(MapError::TableFull);
    }
    Ok(())
}

// Adds the corners.
fn put_corners(maps: &mut Maps, plan: &RoomPlan)
    requires range { IsRoom plan.now }
    requires free { list_any (is_taken maps.old.tables.vertices) (corners plan.now) ≡ false }
    requires room { length maps.old.tables.vertices + 4 ≤ 32767 }
    requires covered { 4 ≤ maps.old.spare.vertices }
    ensures tables { maps.new.tables ≡ with_vertices maps.old.tables (corners plan.now) }
    ensures spare { Spends four_vertices maps.old.spare maps.new.spare }
    ensures others { maps.new.others ≡ maps.old.others }
{
    let [south_west, north_west, north_east, south_east] = corners_of(plan);
    put(maps, Edit::Add(Item::Vertex(south_west)));
    put(maps, Edit::Add(Item::Vertex(north_west)));
    put(maps, Edit::Add(Item::Vertex(north_east)));
    put(maps, Edit::Add(Item::Vertex(south_east)));
}

// Adds the sides.
fn put_sides(maps: &mut Maps, plan: &RoomPlan, sector: u16)
    requires range { IsRoom plan.now }
    requires sector { sector + 1 ≡ length maps.old.tables.sectors }
    requires few { sector ≤ 4095 }
    requires room { length maps.old.tables.sides + 4 ≤ 32767 }
    requires covered { 4 ≤ maps.old.spare.sides }
    ensures tables { maps.new.tables ≡ with_sides maps.old.tables (room_sides plan.now sector) }
    ensures spare { Spends four_sides maps.old.spare maps.new.spare }
    ensures others { maps.new.others ≡ maps.old.others }
{
    let side = Edit::Add(Item::Side(side_of(plan, sector)));
    put(maps, side);
    put(maps, side);
    put(maps, side);
    put(maps, side);
}

// Adds the walls between four corners, each with a side.
fn put_walls(maps: &mut Maps, plan: &RoomPlan, corner: u16, side: u16)
    requires range { IsRoom plan.now }
    requires corners { drop corner maps.old.tables.vertices ≡ corners plan.now }
    requires vertices { corner + 4 ≤ 32767 }
    requires sides { side + 4 ≡ length maps.old.tables.sides }
    requires right { side + 4 ≤ 32767 }
    requires room { length maps.old.tables.lines + 4 ≤ 32767 }
    requires covered { 4 ≤ maps.old.spare.lines }
    ensures tables { maps.new.tables ≡ with_lines maps.old.tables (walls corner side) }
    ensures others { maps.new.others ≡ maps.old.others }
{
    put(maps, Edit::Add(Item::Line(wall(corner, corner + 1, side))));
    put(
        maps,
        Edit::Add(Item::Line(wall(corner + 1, corner + 2, side + 1))),
    );
    put(
        maps,
        Edit::Add(Item::Line(wall(corner + 2, corner + 3, side + 2))),
    );
    put(
        maps,
        Edit::Add(Item::Line(wall(corner + 3, corner, side + 3))),
    );
}

/// Draws a room that the map accepts and has memory for, and returns its sector's number.
pub fn draw(maps: &mut Maps, plan: &RoomPlan) -> u32
    requires range { IsRoom plan.now }
    requires accepted { least (room_faults maps.old.tables plan.now) ≡ None }
    requires covered { Covers maps.old.spare (need_of (Command.Room plan.now)) }
    ensures tables { maps.new.tables ≡ with_room maps.old.tables plan.now }
    ensures number { result ≡ length maps.old.tables.sectors }
    ensures others { maps.new.others ≡ maps.old.others }
{
    let corner = count(maps, Kind::Vertex) as u16;
    let side = count(maps, Kind::Side) as u16;
    let sector = put(maps, Edit::Add(Item::Sector(sector_of(plan))));
    put_sides(maps, plan, sector as u16);
    put_corners(maps, plan);
    put_walls(maps, plan, corner, side);
    sector
}

// ---- Its words

// Whether the room has some width and some height.
fn has_area(plan: &RoomPlan) -> bool
    ensures { result ≡ (int_lt plan.now.west plan.now.east
        && int_lt plan.now.south plan.now.north) }
{
    plan.west < plan.east && plan.south < plan.north
}

impl<'a> UnreadWords<'a> {
    // Reads a room, which may still be flat.
    fn room_plan(mut self) -> Result<RoomPlan, CommandError>
        ensures ok { IfOk result (λ r. ((reading self.entry).fault ≡ None)
            × ((reading self.entry).words ≡ room_words r) × IsPlan r) }
        ensures fault { TellsFault result (fault_with (reading self.entry) room_places) }
    {
        let west = self.number(LEAST_COORDINATE, GREATEST_COORDINATE);
        let south = self.number(LEAST_COORDINATE, GREATEST_COORDINATE);
        let east = self.number(LEAST_COORDINATE, GREATEST_COORDINATE);
        let north = self.number(LEAST_COORDINATE, GREATEST_COORDINATE);
        let floor = self.number(i16::MIN, i16::MAX);
        let ceiling = self.number(i16::MIN, i16::MAX);
        let floor_name = self.name();
        let ceiling_name = self.name();
        let wall = self.name();
        let light = self.number(0, GREATEST_LIGHT);
        self.finish()?;
        Ok(RoomPlan {
            west,
            south,
            east,
            north,
            floor,
            ceiling,
            floor_name,
            ceiling_name,
            wall,
            light,
        })
    }

    /// Reads a room, and refuses a flat one.
    pub fn room(self) -> Result<Command, CommandError>
        requires { (reading self).fault ≡ None }
        ensures ok { IfOk result (λ c.
            (head_word head.Room ∷ (reading self.entry).words ≡ words_of c) × InRange c) }
        ensures fault { TellsFault result (room_fault (reading self.entry).words) }
    {
        match self.room_plan() {
            Ok(plan) => {
                if has_area(&plan) {
                    Ok(Command::Room(plan))
                } else {
                    Err(CommandError::OutOfRange)
                }
            }
            Err(error) => Err(error),
        }
    }
}

impl Text {
    /// Adds the words of a room.
    pub fn room(self, plan: &RoomPlan) -> Result<Self, AllocError>
        requires { IsPlan plan.now }
        ensures { IfOk result (λ t. Adds self t (32 ∷ join_with_byte 32 (room_words plan.now))) }
    {
        self.number(&plan.west)?
            .number(&plan.south)?
            .number(&plan.east)?
            .number(&plan.north)?
            .number(&plan.floor)?
            .number(&plan.ceiling)?
            .name(&plan.floor_name)?
            .name(&plan.ceiling_name)?
            .name(&plan.wall)?
            .number(&plan.light)
    }
}
