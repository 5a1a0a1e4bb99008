//! Which item of the map a command meets that is refused.
use crate::calling::says;
use lump_records::{LONGEST_SQUARED, Line, Vertex, squared_distance};
use map_commands::{Command, ProjectCommand, RoomPlan, parse};
use map_tables::{Edit, Item, Kind, Map, Maps};
use std::alloc::{AllocError, Global};
use std::str;

// The command of a map that a line is.
fn command_in(text: &str) -> Option<Command> {
    match parse(text.as_bytes()) {
        Ok(ProjectCommand::Current(command)) => Some(command),
        _ => None,
    }
}

// How a line names a vertex or a side, if it does.
fn use_by_line(line: &Line, kind: Kind, n: u16) -> Option<&'static str> {
    match kind {
        Kind::Vertex if line.v1 == n => Some("begins at it"),
        Kind::Vertex if line.v2 == n => Some("ends at it"),
        Kind::Side if line.right == n => Some("has it as its right side"),
        Kind::Side if line.left == n => Some("has it as its left side"),
        _ => None,
    }
}

// The first line that names a vertex or a side, and how.
fn line_with(map: &Map, kind: Kind, n: u16) -> Option<(u32, &'static str)> {
    for k in 0..map.count(Kind::Line) {
        if let Some(line) = map.line(k) {
            if let Some(how) = use_by_line(&line, kind, n) {
                return Some((k, how));
            }
        }
    }
    None
}

// The first side that faces a sector.
fn side_with(map: &Map, n: u16) -> Option<u32> {
    for k in 0..map.count(Kind::Side) {
        if let Some(side) = map.side(k) {
            if side.sector == n {
                return Some(k);
            }
        }
    }
    None
}

/// Says which item names the one that a command would drop.
pub fn in_use(alloc: Global, map: &Map, text: &str) -> Result<String, AllocError> {
    match command_in(text) {
        Some(Command::Edit(Edit::Drop(Kind::Sector, n))) => match side_with(map, n) {
            Some(k) => format!(in alloc; "side {k} faces it"),
            None => says(alloc, 8),
        },
        Some(Command::Edit(Edit::Drop(kind, n))) => match line_with(map, kind, n) {
            Some((k, how)) => format!(in alloc; "line {k} {how}"),
            None => says(alloc, 8),
        },
        _ => says(alloc, 8),
    }
}

// The vertex that stands at a place, if there is one.
fn vertex_at(map: &Map, at: Vertex) -> Option<u32> {
    for n in 0..map.count(Kind::Vertex) {
        if let Some(vertex) = map.vertex(n) {
            if vertex.x == at.x && vertex.y == at.y {
                return Some(n);
            }
        }
    }
    None
}

// The first corner of a room at which a vertex stands; if there is none, the first corner.
fn taken_corner(map: &Map, plan: &RoomPlan) -> Vertex {
    let corners = [
        Vertex {
            x: plan.west,
            y: plan.south,
        },
        Vertex {
            x: plan.west,
            y: plan.north,
        },
        Vertex {
            x: plan.east,
            y: plan.north,
        },
        Vertex {
            x: plan.east,
            y: plan.south,
        },
    ];
    for corner in corners {
        if vertex_at(map, corner).is_some() {
            return corner;
        }
    }
    corners[0]
}

// The place for which a command would add or move a vertex, and where another one may stand.
fn wanted_place(map: &Map, text: &str) -> Option<Vertex> {
    match command_in(text)? {
        Command::Edit(Edit::Add(Item::Vertex(at))) => Some(at),
        Command::Edit(Edit::Set(_, Item::Vertex(at))) => Some(at),
        Command::Split(split) => Some(split.at),
        Command::Room(plan) => Some(taken_corner(map, &plan)),
        _ => None,
    }
}

/// Says which vertex stands at the place for which a command would add or move one.
pub fn taken(alloc: Global, map: &Map, text: &str) -> Result<String, AllocError> {
    if let Some(at) = wanted_place(map, text) {
        if let Some(n) = vertex_at(map, at) {
            let x = at.x;
            let y = at.y;
            return format!(in alloc; "vertex {n} stands at {x} {y}");
        }
    }
    says(alloc, 10)
}

// Whether a line between two places is too long.
fn is_too_far(from: Vertex, to: Vertex) -> bool {
    squared_distance(from, to) > LONGEST_SQUARED
}

// The place of a vertex.
fn place_of(map: &Map, n: u16) -> Option<Vertex> {
    map.vertex(u32::from(n))
}

// The ends of a line that would be too long if a vertex stood at a place.
fn stretched(map: &Map, n: u16, at: Vertex) -> Option<(Vertex, Vertex)> {
    for k in 0..map.count(Kind::Line) {
        if let Some(line) = map.line(k) {
            let other = match (line.v1 == n, line.v2 == n) {
                (true, false) => place_of(map, line.v2),
                (false, true) => place_of(map, line.v1),
                _ => None,
            };
            if let Some(other) = other {
                if is_too_far(at, other) {
                    return Some((at, other));
                }
            }
        }
    }
    None
}

// The ends of a line's halves: the place at which it is cut, and the end from which that is too far.
fn halved(map: &Map, line: u16, at: Vertex) -> Option<(Vertex, Vertex)> {
    let line = map.line(u32::from(line))?;
    let (from, to) = map.ends_of(&line);
    if is_too_far(from, at) {
        Some((from, at))
    } else {
        Some((at, to))
    }
}

// The ends of a line that would be too long after a command.
fn far_ends(map: &Map, command: &Command) -> Option<(Vertex, Vertex)> {
    match command {
        Command::Edit(Edit::Add(Item::Line(line)))
        | Command::Edit(Edit::Set(_, Item::Line(line))) => {
            Some((place_of(map, line.v1)?, place_of(map, line.v2)?))
        }
        Command::Edit(Edit::Set(n, Item::Vertex(at))) => stretched(map, *n, *at),
        Command::Split(split) => halved(map, split.line, split.at),
        _ => None,
    }
}

/// Says how long a line would be after a command, and how long it may be.
pub fn too_long(alloc: Global, map: &Map, text: &str) -> Result<String, AllocError> {
    let Some(command) = command_in(text) else {
        return says(alloc, 13);
    };
    match far_ends(map, &command) {
        Some((from, to)) => {
            let length = squared_distance(from, to).isqrt();
            let most = LONGEST_SQUARED.isqrt();
            format!(in alloc;
                "from {} {} to {} {} it is {length} long, and a line is {most} at most",
                from.x, from.y, to.x, to.y
            )
        }
        None => says(alloc, 13),
    }
}

/// Says which names the maps have.
pub fn map_names(alloc: Global, maps: &Maps) -> Result<String, AllocError> {
    let mut told = format!(in alloc; "the maps are")?;
    for n in 0..maps.len() {
        if let Some(map) = maps.at(n) {
            let name = map.name();
            if let Ok(name) = str::from_utf8(name.text()) {
                told.push_str(" ")?;
                told.push_str(name)?;
            }
        }
    }
    Ok(told)
}
