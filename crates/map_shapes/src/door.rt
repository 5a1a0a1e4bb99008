//! The commands that make a sector a door.
ghost use Rattle.std.specs.Prelude.{◌≡◌, ◌≤◌, ◌<◌, ◌+◌, ◌++◌, ◌∷◌, [], ◌⊎◌, ◌==◌, length, is_some, None, Some, true, All, IfOk, IfErr, IfSome, option_map, slice_get, count_by, if◌then◌else◌};
ghost use Rattle.std.specs.List.{list_any};
ghost use Rattle.lump_records.specs.Sides.{has_left};
ghost use Rattle.map_commands.specs.Step.{InRange};
ghost use Rattle.map_tables.specs.Outcomes.{least};
ghost use Rattle.map_tables.specs.Ranges.{IsLine, IsSector, IsSide};
ghost use Rattle.map_areas.specs.Drawn.{AreTaken};
ghost use Rattle.map_shapes.specs.Doors.{IsDoor, IsJamb, door_commands, door_faults, is_shared, is_wall_of, jamb_of, line_commands, sides_added, lines_sides, opening, opening_jamb, side_faces, turned_line, wall_jamb, with_lower_pegged};
ghost use Rattle.map_shapes.specs.Errors.{code_of, no_memory};

use crate::error::ShapeError;
use crate::shape::Door;
use lump_records::{Line, Sector, Side};
use map_commands::{Command, CommandError};
use map_tables::{Edit, Item, Kind, Map};
use std::alloc::{AllocError, Global};

// A line of a door's border and its right side, as they are to be.
#[derive(Clone, Copy)]
pub struct Jamb {
    pub line: Line,
    pub side: Side,
}

// The line with this number.
fn nth_line(map: &Map, n: u32) -> Line
    requires { n < length map.now.tables.lines }
    ensures item { slice_get map.now.tables.lines n ≡ Some result }
    ensures range { IsLine result }
{
    map.line(n).unwrap()
}

// Whether a side faces the sector.
fn side_faces(map: &Map, side: u16, sector: u16) -> bool
    ensures { result ≡ side_faces map.now.tables.sides side sector }
{
    match map.side(u32::from(side)) {
        Some(side) => side.sector == sector,
        None => false,
    }
}

// The line from its second end to its first: its right side is its left one.
fn turned_line(line: Line) -> Line
    requires range { IsLine line }
    requires left { has_left line ≡ true }
    ensures value { result ≡ turned_line line }
    ensures range { IsLine result }
{
    Line {
        v1: line.v2,
        v2: line.v1,
        flags: line.flags,
        special: line.special,
        tag: line.tag,
        right: line.left,
        left: line.right,
    }
}

// A line as an opening of the sector, with the sector behind it.
fn opening(map: &Map, sector: u16, line: Line) -> Option<Line>
    requires { IsLine line }
    ensures value { result ≡ opening map.now.tables.sides sector line }
    ensures range { IfSome result IsLine }
{
    if !line.has_left() {
        return None;
    }
    match (
        side_faces(map, line.right, sector),
        side_faces(map, line.left, sector),
    ) {
        (true, false) => Some(turned_line(line)),
        (false, true) => Some(line),
        _ => None,
    }
}

// Whether a line is a wall of the sector.
fn is_wall_of(map: &Map, sector: u16, line: Line) -> bool
    ensures { result ≡ is_wall_of map.now.tables.sides sector line }
{
    !line.has_left() && side_faces(map, line.right, sector)
}

// Flags with the value 16: the lower texture stands on its bottom.
fn with_lower_pegged(flags: u16) -> u16
    requires { flags ≤ 32767 }
    ensures value { result ≡ with_lower_pegged flags }
    ensures range { result ≤ 32767 }
{
    if flags / 16 % 2 == 0 {
        flags + 16
    } else {
        flags
    }
}

// An opening: its special, and the face above it.
fn opening_jamb(door: &Door, line: Line, side: Option<Side>) -> Option<Jamb>
    requires door { IsDoor door.now }
    requires line { IsLine line }
    requires side { IfSome side IsSide }
    ensures value { result ≡ opening_jamb door.now line side }
    ensures range { IfSome result IsJamb }
{
    match side {
        Some(side) => Some(Jamb {
            line: Line {
                special: door.special,
                ..line
            },
            side: Side {
                upper: door.face,
                ..side
            },
        }),
        None => None,
    }
}

// A wall: the track, which stays where it is.
fn wall_jamb(door: &Door, line: Line, side: Option<Side>) -> Option<Jamb>
    requires door { IsDoor door.now }
    requires line { IsLine line }
    requires side { IfSome side IsSide }
    ensures value { result ≡ wall_jamb door.now line side }
    ensures range { IfSome result IsJamb }
{
    match side {
        Some(side) => Some(Jamb {
            line: Line {
                flags: with_lower_pegged(line.flags),
                ..line
            },
            side: Side {
                middle: door.track,
                ..side
            },
        }),
        None => None,
    }
}

// A line of the border and its right side, as they are to be.
fn jamb_of(map: &Map, door: &Door, line: Line) -> Option<Jamb>
    requires door { IsDoor door.now }
    requires line { IsLine line }
    ensures value { result ≡ jamb_of map.now.tables door.now line }
    ensures range { IfSome result IsJamb }
{
    match opening(map, door.sector, line) {
        Some(open) => opening_jamb(door, open, map.side(u32::from(open.right))),
        None => {
            if is_wall_of(map, door.sector, line) {
                wall_jamb(door, line, map.side(u32::from(line.right)))
            } else {
                None
            }
        }
    }
}

// 1 if the test holds.
fn one_if(test: bool) -> u32
    ensures value { result ≡ if test then 1 else 0 }
    ensures few { result ≤ 1 }
{
    if test { 1 } else { 0 }
}

// How many lines have the side on their right.
fn right_uses(map: &Map, side: u16) -> u32
    ensures value { result ≡ count_by (λ l. l.right == side) map.now.tables.lines }
    ensures few { result ≤ 32767 }
{
    let mut uses = 0;
    for n in 0..map.count(Kind::Line) {
        uses += one_if(nth_line(map, n).right == side);
    }
    uses
}

// How many lines have the side on their left.
fn left_uses(map: &Map, side: u16) -> u32
    ensures value { result ≡ count_by (λ l. l.left == side) map.now.tables.lines }
    ensures few { result ≤ 32767 }
{
    let mut uses = 0;
    for n in 0..map.count(Kind::Line) {
        uses += one_if(nth_line(map, n).left == side);
    }
    uses
}

// Whether more than one line has the side, or one on both sides.
fn is_shared(map: &Map, side: u16) -> bool
    ensures { result ≡ is_shared map.now.tables.lines side }
{
    right_uses(map, side) + left_uses(map, side) > 1
}

// How many sides the commands of a line add.
fn sides_added(map: &Map, jamb: Option<Jamb>) -> u32
    ensures value { result ≡ sides_added map.now.tables.lines jamb }
    ensures few { result ≤ 1 }
{
    match jamb {
        Some(jamb) => if is_shared(map, jamb.line.right) {
            1
        } else {
            0
        },
        None => 0,
    }
}

// How many sides the commands of all lines add.
fn lines_sides(map: &Map, door: &Door) -> u32
    requires { IsDoor door.now }
    ensures value { result ≡ lines_sides map.now.tables door.now map.now.tables.lines }
    ensures few { result ≤ 32767 }
{
    let mut sides = 0;
    for n in 0..map.count(Kind::Line) {
        sides += sides_added(map, jamb_of(map, door, nth_line(map, n)));
    }
    sides
}

// Whether the sector has an opening.
fn has_opening(map: &Map, sector: u16) -> bool
    ensures { result
        ≡ list_any (λ l. is_some (opening map.now.tables.sides sector l)) map.now.tables.lines }
{
    for n in 0..map.count(Kind::Line) {
        if opening(map, sector, nth_line(map, n)).is_some() {
            return true;
        }
    }
    false
}

// Appends the commands of a line of the border.
fn put_jamb(
    commands: &mut Vec<Command>,
    map: &Map,
    next: u16,
    n: u16,
    jamb: Jamb,
) -> Result<(), AllocError>
    requires jamb { IsJamb jamb }
    requires number { n ≤ 32766 }
    requires next { next + sides_added map.now.tables.lines (Some jamb) ≤ 32767 }
    ensures commands { IfOk result (λ _. commands.new.items
        ≡ commands.old.items ++ line_commands map.now.tables.lines next n (Some jamb)) }
    ensures range { IfOk result
        (λ _. All InRange (line_commands map.now.tables.lines next n (Some jamb))) }
{
    if is_shared(map, jamb.line.right) {
        let line = Line {
            right: next,
            ..jamb.line
        };
        commands.push(Command::Edit(Edit::Add(Item::Side(jamb.side))))?;
        commands.push(Command::Edit(Edit::Set(n, Item::Line(line))))?;
    } else {
        commands.push(Command::Edit(Edit::Set(jamb.line.right, Item::Side(jamb.side))))?;
        commands.push(Command::Edit(Edit::Set(n, Item::Line(jamb.line))))?;
    }
    Ok(())
}

// Appends the commands of a line, if it is one of the border.
fn put_line(
    commands: &mut Vec<Command>,
    map: &Map,
    next: u16,
    n: u16,
    jamb: Option<Jamb>,
) -> Result<(), AllocError>
    requires jamb { IfSome jamb IsJamb }
    requires number { n ≤ 32766 }
    requires next { next + sides_added map.now.tables.lines jamb ≤ 32767 }
    ensures commands { IfOk result (λ _. commands.new.items
        ≡ commands.old.items ++ line_commands map.now.tables.lines next n jamb) }
    ensures range { IfOk result
        (λ _. All InRange (line_commands map.now.tables.lines next n jamb)) }
{
    match jamb {
        Some(jamb) => put_jamb(commands, map, next, n, jamb),
        None => Ok(()),
    }
}

// The commands of a sector that becomes a door.
fn all_commands(
    alloc: Global,
    map: &Map,
    door: &Door,
    sector: Sector,
) -> Result<Vec<Command>, AllocError>
    requires door { IsDoor door.now }
    requires sector { IsSector sector }
    requires sides { length map.now.tables.sides
        + lines_sides map.now.tables door.now map.now.tables.lines ≤ 32767 }
    ensures commands { IfOk result
        (λ v. v.items ≡ door_commands map.now.tables door.now sector) }
    ensures range { IfOk result (λ v. All InRange v.items) }
{
    let mut commands = Vec::new(alloc);
    let shut = Sector {
        ceiling: sector.floor,
        ..sector
    };
    commands.push(Command::Edit(Edit::Set(door.sector, Item::Sector(shut))))?;
    let mut next = map.count(Kind::Side);
    for n in 0..map.count(Kind::Line) {
        let jamb = jamb_of(map, door, nth_line(map, n));
        put_line(&mut commands, map, next as u16, n as u16, jamb)?;
        next += sides_added(map, jamb);
    }
    Ok(commands)
}

/// The commands that make a sector a door.
pub fn door_commands(alloc: Global, map: &Map, door: &Door) -> Result<Vec<Command>, ShapeError>
    requires { IsDoor door.now }
    ensures range { IfOk result (λ v. All InRange v.items) }
    ensures ok { IfOk result (λ v. (least (door_faults map.now.tables door.now) ≡ None)
        × (option_map (door_commands map.now.tables door.now)
        (slice_get map.now.tables.sectors door.now.sector) ≡ Some v.items)) }
    ensures taken { IfOk result (λ v. AreTaken map.now.tables v.items) }
    ensures refused { IfErr result (λ e. (e ≡ no_memory)
        ⊎ (least (door_faults map.now.tables door.now) ≡ Some (code_of e))) }
{
    let Some(sector) = map.sector(u32::from(door.sector)) else {
        return Err(ShapeError::Command(CommandError::NoSector));
    };
    if map.count(Kind::Side) + lines_sides(map, door) > 32767 {
        return Err(ShapeError::Command(CommandError::TableFull));
    }
    if !has_opening(map, door.sector) {
        return Err(ShapeError::NoDoor(door.sector));
    }
    Ok(all_commands(alloc, map, door, sector)?)
}
