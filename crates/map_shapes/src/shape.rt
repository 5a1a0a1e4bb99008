//! The shapes that a line of a script may draw, and the commands of each.
ghost use Rattle.std.specs.Prelude.{◌≡◌, ◌⊎◌, [], ◌∷◌, All, IfErr, IfOk};
ghost use Rattle.map_commands.specs.Step.{InRange};
ghost use Rattle.map_shapes.specs.Commands.{Becomes, RefusesShape, answer_of};
ghost use Rattle.map_shapes.specs.Errors.{no_memory};
ghost use Rattle.map_shapes.specs.Shapes.{IsShape};

use crate::changing::change_command;
use crate::door::door_commands;
use crate::error::ShapeError;
use lump_records::Name8;
use map_areas::{Area, Pillar, area_commands, pillar_commands};
use map_commands::Command;
use map_tables::{Kind, Map};
use std::alloc::Global;

/// A sector that becomes a door, as a player sees it: FACE above its openings, TRACK beside them. SPECIAL is what a
/// player does with it.
#[derive(Clone, Copy)]
pub struct Door {
    pub sector: u16,
    pub face: Name8,
    pub track: Name8,
    pub special: u16,
}

/// An item some of whose fields change, and the others stay.
#[derive(Clone, Copy)]
pub struct Change<'a> {
    pub kind: Kind,
    pub number: u16,
    /// The words `NAME=VALUE`, with single spaces between them.
    pub fields: &'a [u8],
}

/// What a line of a script draws by several commands.
#[derive(Drop)]
pub enum Shape<'a> {
    Area(Area),
    Pillar(Pillar),
    Door(Door),
    Change(Change<'a>),
}

// One command alone.
fn alone(alloc: Global, command: Command) -> Result<Vec<Command>, ShapeError>
    ensures one { IfOk result (λ v. v.items ≡ command ∷ []) }
    ensures memory { IfErr result (λ e. e ≡ no_memory) }
{
    let mut commands = Vec::new(alloc);
    commands.push(command)?;
    Ok(commands)
}

/// The commands that draw a shape onto a map, to be done in turn.
pub fn commands_of(alloc: Global, map: &Map, shape: &Shape) -> Result<Vec<Command>, ShapeError>
    requires { IsShape shape.now }
    ensures ok { IfOk result (λ v. Becomes map.now.tables shape.now v.items) }
    ensures range { IfOk result (λ v. All InRange v.items) }
    ensures refused { IfErr result (λ e. (e ≡ no_memory)
        ⊎ RefusesShape map.now.tables shape.now e) }
{
    match shape {
        Shape::Area(area) => match area_commands(alloc, map, area) {
            Ok(commands) => Ok(commands),
            Err(error) => Err(ShapeError::Area(error)),
        },
        Shape::Pillar(pillar) => match pillar_commands(alloc, map, pillar) {
            Ok(commands) => Ok(commands),
            Err(error) => Err(ShapeError::Area(error)),
        },
        Shape::Door(door) => door_commands(alloc, map, door),
        Shape::Change(change) => alone(alloc, change_command(alloc, map, *change)?),
    }
}

/// The number that a shape answers once it is drawn onto a map: that of an area's new sector, of a pillar's first line,
/// of a door's sector, of the changed item.
pub fn answer_of(map: &Map, shape: &Shape) -> u32
    ensures { result ≡ answer_of map.now.tables shape.now }
{
    match shape {
        Shape::Area(_) => map.count(Kind::Sector),
        Shape::Pillar(_) => map.count(Kind::Line),
        Shape::Door(door) => u32::from(door.sector),
        Shape::Change(change) => u32::from(change.number),
    }
}
