//! The command that changes some fields of an item.
ghost use Rattle.std.specs.Prelude.{◌≡◌, ◌⊎◌, ℕ, List, IfErr, IfOk, IfSome, IsOkUnless, Some};
ghost use Rattle.map_commands.specs.Errors.{code_of as command_code_of};
ghost use Rattle.map_commands.specs.ProjectCommands.{project_spelling};
ghost use Rattle.map_commands.specs.ProjectGrammar.{project_fault_of};
ghost use Rattle.map_commands.specs.Grammar.{head_word};
ghost use Rattle.map_commands.specs.Spelling.{item_words};
ghost use Rattle.map_commands.specs.Step.{InRange};
ghost use Rattle.map_words.specs.Words.{parts};
ghost use Rattle.map_commands.specs.declared.project.command.ProjectCommand.TheVariants.{Current};
ghost use Rattle.map_tables.specs.Ranges.{IsItem};
ghost use Rattle.map_shapes.specs.Changes.{item_at, missing};
ghost use Rattle.map_shapes.specs.Commands.{Changes, IsSetting, RefusesChange};
ghost use Rattle.map_shapes.specs.Errors.{no_memory};

use crate::error::ShapeError;
use crate::fields::changed_line;
use crate::shape::Change;
use map_commands::{Command, CommandError, ProjectCommand, parse, print};
use map_tables::{Edit, Item, Kind, Map};
use map_words::next_part;
use std::alloc::Global;

// The item of a map with this number.
fn item_at(map: &Map, kind: Kind, n: u32) -> Option<Item>
    ensures item { result ≡ item_at map.now.tables kind n }
    ensures range { IfSome result IsItem }
{
    match kind {
        Kind::Vertex => Some(Item::Vertex(map.vertex(n)?)),
        Kind::Sector => Some(Item::Sector(map.sector(n)?)),
        Kind::Side => Some(Item::Side(map.side(n)?)),
        Kind::Line => Some(Item::Line(map.line(n)?)),
        Kind::Thing => Some(Item::Thing(map.thing(n)?)),
    }
}

// The refusal where a map has no such item.
fn missing(kind: Kind) -> CommandError
    ensures { result ≡ missing kind }
{
    match kind {
        Kind::Vertex => CommandError::NoVertex,
        Kind::Sector => CommandError::NoSector,
        Kind::Side => CommandError::NoSide,
        Kind::Line => CommandError::NoLine,
        Kind::Thing => CommandError::NoThing,
    }
}

// The words of the command that adds the item, without the first.
fn item_words(alloc: Global, item: Item) -> Result<Vec<u8>, CommandError>
    requires { IsItem item }
    ensures words { IfOk result (λ text. parts text.items ≡ item_words item) }
    ensures memory { IsOkUnless result CommandError.OutOfMemory }
{
    let line = print(
        alloc,
        &ProjectCommand::Current(Command::Edit(Edit::Add(item))),
    )?;
    let (_, words) = next_part(&line);
    match words {
        Some(words) => Ok(words.to_vec(alloc)?),
        None => unreachable!(),
    }
}

// Reads a line that begins as the command that changes an item.
fn parse_setting(line: &[u8]) -> Result<Command, CommandError>
    requires { IsSetting line.now }
    ensures ok { IfOk result (λ c. (line.now ≡ project_spelling (Current c)) × InRange c) }
    ensures fault { IfErr result (λ e. project_fault_of line.now ≡ Some (command_code_of e)) }
{
    match parse(line) {
        Ok(ProjectCommand::Current(command)) => Ok(command),
        Ok(ProjectCommand::SelectMap(_)) => unreachable!(),
        Ok(ProjectCommand::DropMap(_)) => unreachable!(),
        Err(error) => Err(error),
    }
}

/// The command that gives the item with the number its fields as they are, but for those with a VALUE.
pub fn change_command(alloc: Global, map: &Map, change: Change) -> Result<Command, ShapeError>
    ensures ok { IfOk result (λ c. Changes map.now.tables change.entry c × InRange c) }
    ensures refused { IfErr result (λ e. (e ≡ no_memory)
        ⊎ RefusesChange map.now.tables change.entry e) }
{
    let Some(item) = item_at(map, change.kind, u32::from(change.number)) else {
        return Err(ShapeError::Command(missing(change.kind)));
    };
    let words = item_words(alloc, item)?;
    let line = changed_line(alloc, change.kind, change.number, &words, change.fields)?;
    Ok(parse_setting(&line)?)
}
