//! The calls that write a dump.
ghost use Rattle.std.specs.Prelude.{◌≡◌, ◌∷◌, [], Some, slice_get};
ghost use Rattle.map_commands.specs.declared.command.Command.{Command};
ghost use Rattle.map_commands.specs.declared.project.command.ProjectCommand.TheVariants.{Current, SelectMap};
ghost use Rattle.map_dump.specs.Dump.{additions_of, commands_from, commands_of_map, dump_of, edits_of, items_of, map_dump_of, selection_of};
ghost use Rattle.map_dump.specs.Texts.{Writes, WritesLines};
ghost use Rattle.lump_records.specs.Names.{IsNamed, is_marker};
ghost use Rattle.map_tables.specs.Projects.{WellFormedProject, project_of};
ghost use Rattle.map_tables.specs.Tables.{Tables};

use crate::error::DumpError;
use crate::line::{addition, naming, write_command};
use lump_records::Name8;
use map_commands::ProjectCommand;
use map_tables::{Kind, Map, Maps};
use std::alloc::Global;
use std::io::Write;

// The tables in the order of the dump: an item only names items of earlier tables.
const KINDS: [Kind; 5] = [
    Kind::Vertex,
    Kind::Sector,
    Kind::Side,
    Kind::Line,
    Kind::Thing,
];

// Writes the line that adds the item with the number, if there is one.
fn write_item<W: Write>(
    alloc: Global,
    map: &Map,
    kind: Kind,
    n: u32,
    writer: &mut W,
) -> Result<(), DumpError>
    ensures { (c : Command) → slice_get (additions_of map.now.tables kind) n ≡ Some c
        → Writes result (Current c ∷ []) (W.contents writer.old) (W.contents writer.new) }
{
    match addition(map, kind, n) {
        Some(command) => write_command(alloc, &ProjectCommand::Current(command), writer),
        None => Ok(()),
    }
}

// Writes the lines that add a table's items.
fn write_table<W: Write>(
    alloc: Global,
    map: &Map,
    kind: Kind,
    writer: &mut W,
) -> Result<(), DumpError>
    ensures { Writes result (edits_of (additions_of map.now.tables kind))
        (W.contents writer.old)
        (W.contents writer.new) }
{
    let count = map.count(kind);
    for n in 0..count {
        match write_item(alloc, map, kind, n, writer) {
            Ok(()) => {}
            Err(error) => return Err(error),
        }
    }
    Ok(())
}

// Writes the lines that add a map's items.
fn write_items<W: Write>(alloc: Global, map: &Map, writer: &mut W) -> Result<(), DumpError>
    ensures { Writes result (edits_of (items_of map.now.tables)) (W.contents writer.old)
        (W.contents writer.new) }
{
    for kind in &KINDS {
        match write_table(alloc, map, *kind, writer) {
            Ok(()) => {}
            Err(error) => return Err(error),
        }
    }
    Ok(())
}

// Writes the lines that draw the map with the number.
fn write_map<W: Write>(alloc: Global, n: u32, map: &Map, writer: &mut W) -> Result<(), DumpError>
    requires { IsNamed is_marker map.now.tables.name }
    ensures { Writes result (commands_of_map n map.now.tables) (W.contents writer.old)
        (W.contents writer.new) }
{
    match write_command(alloc, &naming(n, map.name()), writer) {
        Ok(()) => write_items(alloc, map, writer),
        Err(error) => Err(error),
    }
}

// Writes the lines that draw the map with the number, if there is one.
fn write_nth<W: Write>(alloc: Global, maps: &Maps, n: u32, writer: &mut W) -> Result<(), DumpError>
    requires { WellFormedProject (project_of maps.now) }
    ensures { (m : Tables) → slice_get (project_of maps.now).maps n ≡ Some m
        → Writes result (commands_of_map n m) (W.contents writer.old) (W.contents writer.new) }
{
    match maps.at(n) {
        Some(map) => write_map(alloc, n, map, writer),
        None => Ok(()),
    }
}

// Writes the lines that draw the maps.
fn write_maps<W: Write>(alloc: Global, maps: &Maps, writer: &mut W) -> Result<(), DumpError>
    ensures lines { Writes result (commands_from 0 (project_of maps.now).maps)
        (W.contents writer.old)
        (W.contents writer.new) }
    ensures well_formed { WellFormedProject (project_of maps.now) }
{
    let len = maps.len();
    for n in 0..len {
        match write_nth(alloc, maps, n, writer) {
            Ok(()) => {}
            Err(error) => return Err(error),
        }
    }
    Ok(())
}

// Writes the line that makes the map with a name current.
fn write_name<W: Write>(alloc: Global, name: Name8, writer: &mut W) -> Result<(), DumpError>
    requires { IsNamed is_marker name }
    ensures { Writes result (SelectMap name ∷ []) (W.contents writer.old) (W.contents writer.new) }
{
    write_command(alloc, &ProjectCommand::SelectMap(name), writer)
}

// Writes the line that makes the current map current, unless it is the last one.
fn write_selection<W: Write>(alloc: Global, maps: &Maps, writer: &mut W) -> Result<(), DumpError>
    ensures { Writes result (selection_of (project_of maps.now)) (W.contents writer.old)
        (W.contents writer.new) }
{
    if maps.current_number() + 1 == maps.len() {
        Ok(())
    } else {
        write_name(alloc, maps.current().name(), writer)
    }
}

/// Writes the lines that draw the maps again from the empty project, each ended by LF. Each line is written by one
/// call of the writer, and then its memory is freed.
///
/// # Errors
///
/// `WriterFailed` (38): any part of the dump may have been written. `OutOfMemory` (31): there was no memory for a
/// line, and exactly the lines before it were written.
pub fn write_dump<W: Write>(alloc: Global, maps: &Maps, writer: &mut W) -> Result<(), DumpError>
    ensures { WritesLines result (dump_of (project_of maps.now)) (W.contents writer.old)
        (W.contents writer.new) }
{
    match write_maps(alloc, maps, writer) {
        Ok(()) => write_selection(alloc, maps, writer),
        Err(error) => Err(error),
    }
}

// A map's name is a marker's name.
fn has_marker_name(map: &Map)
    ensures { IsNamed is_marker map.now.tables.name }
{
    let _ = map.count(Kind::Vertex);
}

/// Writes the lines that draw the map whatever was drawn before, each ended by LF: the line that makes the map with
/// its name current, or adds it, and those that add its items. Each line is written by one call of the writer, and
/// then its memory is freed.
///
/// # Errors
///
/// As `write_dump`.
pub fn write_map_dump<W: Write>(alloc: Global, map: &Map, writer: &mut W) -> Result<(), DumpError>
    ensures { WritesLines result (map_dump_of map.now.tables) (W.contents writer.old)
        (W.contents writer.new) }
{
    has_marker_name(map);
    write_map(alloc, 1, map, writer)
}
