//! The commands of a map: whether a map accepts each, what it adds, and the change that it makes. If several refusals
//! apply, the one with the lowest code is given.
ghost use Rattle.std.specs.Prelude.{◌≡◌, None};
ghost use Rattle.map_tables.specs.Outcomes.{Covers, Tells, least};
ghost use Rattle.map_tables.specs.Projects.{project_of};
ghost use Rattle.map_commands.specs.ProjectStep.{naming_faults};
ghost use Rattle.map_commands.specs.Step.{InRange, after, faults, need_of, number_of};

use crate::edits::{put, put_name};
use crate::need::{NO_NEED, one_of};
use crate::room::{can_draw, draw};
use crate::split::{can_split, cut};
use lump_records::{Name8, Vertex};
use map_tables::{Edit, Map, MapError, Maps, Need};

/// A rectangular sector between two corners, with a line and a side along each edge. The right side of each line faces
/// inwards. Coordinates and heights are in map units.
#[derive(Clone, Copy)]
pub struct RoomPlan {
    pub west: i16,
    pub south: i16,
    pub east: i16,
    pub north: i16,
    pub floor: i16,
    pub ceiling: i16,
    pub floor_name: Name8,
    pub ceiling_name: Name8,
    pub wall: Name8,
    pub light: i16,
}

/// A line, and the place at which it is cut in two. The place needn't be on the line.
#[derive(Clone, Copy)]
pub struct LineSplit {
    pub line: u16,
    pub at: Vertex,
}

/// A change to a map that a line of input asks for.
#[derive(Clone, Copy)]
pub enum Command {
    /// The map's name.
    Name(Name8),
    /// A change of one item.
    Edit(Edit),
    Room(RoomPlan),
    Split(LineSplit),
}

/// Decides whether a command is accepted, leaving memory and the length of the body aside. The refusal is the one with
/// the lowest code.
pub fn can_do(map: &Map, command: &Command) -> Result<(), MapError>
    ensures { Tells result (faults map.now.tables command.now) }
{
    match command {
        Command::Name(_) => Ok(()),
        Command::Edit(edit) => map.can_edit(edit),
        Command::Room(plan) => can_draw(map, plan),
        Command::Split(split) => can_split(map, split),
    }
}

/// How many items a command adds to each table.
#[inline(always)]
pub fn need_of(command: &Command) -> Need
    ensures { result ≡ need_of command.now }
{
    match command {
        Command::Edit(Edit::Add(item)) => one_of(item),
        Command::Room(_) => Need {
            vertices: 4,
            sectors: 1,
            sides: 4,
            lines: 4,
            ..NO_NEED
        },
        Command::Split(_) => Need {
            vertices: 1,
            lines: 1,
            ..NO_NEED
        },
        _ => NO_NEED,
    }
}

/// Makes a change that the current map accepts and has memory for, and returns its number.
pub fn change(maps: &mut Maps, command: Command) -> u32
    requires range { InRange command }
    requires accepted { least (faults maps.old.tables command) ≡ None }
    requires named { least (naming_faults (project_of maps.old) command) ≡ None }
    requires covered { Covers maps.old.spare (need_of command) }
    ensures tables { maps.new.tables ≡ after maps.old.tables command }
    ensures number { result ≡ number_of maps.old.tables command }
    ensures others { maps.new.others ≡ maps.old.others }
{
    match command {
        Command::Name(name) => {
            put_name(maps, name);
            0
        }
        Command::Edit(edit) => put(maps, edit),
        Command::Room(plan) => draw(maps, &plan),
        Command::Split(split) => cut(maps, &split),
    }
}
