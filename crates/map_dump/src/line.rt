//! A line of a dump: its command, and how it is written.
ghost use Rattle.std.specs.Prelude.{◌≡◌, ◌∷◌, [], IfOk, IfSome, IsOkUnless, slice_get};
ghost use Rattle.map_commands.specs.Step as of_one_map;
ghost use Rattle.map_commands.specs.ProjectCommands.{InProjectRange, project_spelling};
ghost use Rattle.map_dump.specs.Dump.{additions_of, is_map01, naming_of};
ghost use Rattle.map_dump.specs.Texts.{Writes, with_lf};
ghost use Rattle.lump_records.specs.Names.{IsNamed, is_marker};

use crate::error::DumpError;
use lump_records::Name8;
use map_commands::{Command, ProjectCommand, print};
use map_tables::{Edit, Item, Kind, Map};
use std::alloc::Global;
use std::io::Write;

// Whether a name is that of the only map of a new project.
fn is_map01(name: Name8) -> bool
    ensures { result ≡ is_map01 name }
{
    name.bytes.as_slice() == b"MAP01\0\0\0".as_slice()
}

/// The command that gives the map with a number its name.
pub fn naming(n: u32, name: Name8) -> ProjectCommand
    requires { IsNamed is_marker name }
    ensures command { result ≡ naming_of n name }
    ensures range { InProjectRange result }
{
    if n == 0 {
        if is_map01(name) {
            ProjectCommand::SelectMap(name)
        } else {
            ProjectCommand::Current(Command::Name(name))
        }
    } else {
        ProjectCommand::SelectMap(name)
    }
}

/// The command that adds the item with a number to its table.
pub fn addition(map: &Map, kind: Kind, n: u32) -> Option<Command>
    ensures command { result ≡ slice_get (additions_of map.now.tables kind) n }
    ensures range { IfSome result of_one_map.InRange }
{
    let item = match kind {
        Kind::Vertex => Item::Vertex(map.vertex(n)?),
        Kind::Sector => Item::Sector(map.sector(n)?),
        Kind::Side => Item::Side(map.side(n)?),
        Kind::Line => Item::Line(map.line(n)?),
        Kind::Thing => Item::Thing(map.thing(n)?),
    };
    Some(Command::Edit(Edit::Add(item)))
}

// The line of the command, ended by LF.
fn line_of(alloc: Global, command: &ProjectCommand) -> Result<Vec<u8>, DumpError>
    requires { InProjectRange command.now }
    ensures line { IfOk result (λ v. v.items ≡ with_lf (project_spelling command.now)) }
    ensures memory { IsOkUnless result DumpError.OutOfMemory }
{
    let Ok(mut line) = print(alloc, command) else {
        return Err(DumpError::OutOfMemory);
    };
    match line.push(b'\n') {
        Ok(()) => Ok(line),
        Err(_) => Err(DumpError::OutOfMemory),
    }
}

/// Writes the line of the command by one call of the writer.
pub fn write_command<W: Write>(
    alloc: Global,
    command: &ProjectCommand,
    writer: &mut W,
) -> Result<(), DumpError>
    requires { InProjectRange command.now }
    ensures { Writes result (command.now ∷ []) (W.contents writer.old) (W.contents writer.new) }
{
    match line_of(alloc, command) {
        Ok(line) => match writer.write_all(&line) {
            Ok(()) => Ok(()),
            Err(_) => Err(DumpError::WriterFailed),
        },
        Err(error) => Err(error),
    }
}
