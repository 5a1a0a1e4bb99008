//! What `dump` writes: the lines that draw maps again.
ghost use Rattle.std.specs.Prelude.{◌≡◌, ◌≤◌, IfOk, List, ℕ, map, slice_get, Some, string_bytes};
ghost use Rattle.map_dump.specs.Dump.{map_dump_of};
ghost use Rattle.map_dump.specs.MapDumps.{map_dumps_of};
ghost use Rattle.map_tables.specs.Projects.{project_of};
ghost use Rattle.map_tables.specs.Tables.{Tables};
ghost use Rattle.cli_dump.specs.Asked.{asked_maps};
ghost use Rattle.cli_dump.specs.DumpSteps.{WritesOrLoses};
ghost use Rattle.cli_dump.specs.Dumping.{IsDumpedIn, IsDumpedOf, lines_asked};

use crate::asked::have_maps;
use cli_refusals::{DONE, Refusal};
use map_dump::{DumpError, write_dump, write_map_dump};
use map_tables::{Map, Maps};
use run_edit::EditorError;
use std::alloc::Global;
use std::io::Write;
use wad_file::is_asked;

/// Writes the lines that draw the maps again, and flushes the writer.
pub fn tell_lines<W: Write>(alloc: Global, maps: &Maps, writer: &mut W) -> Result<u8, Refusal>
    ensures small { IfOk result (λ s. s ≤ 3) }
    ensures told { IsDumpedOf maps.now result (W.contents writer.old) (W.contents writer.new) }
{
    match write_dump(alloc, maps, writer) {
        Ok(()) => {}
        Err(DumpError::OutOfMemory) => return Err(Refusal::Lines(EditorError::OutOfMemory)),
        Err(DumpError::WriterFailed) => return Err(Refusal::Lines(EditorError::WriterFailed)),
    }
    match writer.flush() {
        Ok(()) => Ok(DONE),
        Err(_) => Err(Refusal::Lines(EditorError::WriterFailed)),
    }
}

/// Writes the lines that draw a map, whatever was drawn before.
pub(crate) fn write_map_lines<W: Write>(
    alloc: Global,
    map: &Map,
    writer: &mut W,
) -> Result<(), EditorError>
    ensures { WritesOrLoses result (map_dump_of map.now.tables)
        (W.contents writer.old) (W.contents writer.new) }
{
    match write_map_dump(alloc, map, writer) {
        Ok(()) => Ok(()),
        Err(DumpError::OutOfMemory) => Err(EditorError::OutOfMemory),
        Err(DumpError::WriterFailed) => Err(EditorError::WriterFailed),
    }
}

// Writes the lines of a map that is asked for.
fn write_asked<W: Write>(
    alloc: Global,
    drawn: &Map,
    names: &[String],
    writer: &mut W,
) -> Result<(), EditorError>
    ensures { WritesOrLoses result (lines_asked (map string_bytes names.now) drawn.now.tables)
        (W.contents writer.old) (W.contents writer.new) }
{
    let own = drawn.name();
    if !is_asked(names, own.text()) {
        return Ok(());
    }
    write_map_lines(alloc, drawn, writer)
}

// Writes the lines of the map with the number, if there is one and it is asked for.
fn write_nth<W: Write>(
    alloc: Global,
    maps: &Maps,
    n: u32,
    names: &[String],
    writer: &mut W,
) -> Result<(), EditorError>
    ensures { (m : Tables) → slice_get (project_of maps.now).maps n ≡ Some m
        → WritesOrLoses result (lines_asked (map string_bytes names.now) m)
        (W.contents writer.old) (W.contents writer.new) }
{
    match maps.at(n) {
        Some(map) => write_asked(alloc, map, names, writer),
        None => Ok(()),
    }
}

// Writes the lines of the maps that are asked for.
fn write_maps<W: Write>(
    alloc: Global,
    maps: &Maps,
    names: &[String],
    writer: &mut W,
) -> Result<(), EditorError>
    ensures { WritesOrLoses result
        (map_dumps_of (asked_maps (map string_bytes names.now) (project_of maps.now)))
        (W.contents writer.old) (W.contents writer.new) }
{
    for n in 0..maps.len() {
        match write_nth(alloc, maps, n, names, writer) {
            Ok(()) => {}
            Err(error) => return Err(error),
        }
    }
    Ok(())
}

/// Writes the lines that draw the maps again, or, if there are names, those that draw each map with one of the names,
/// by number, whatever was drawn before. Flushes the writer. Each of the names has to be the name of a map.
pub fn tell_lines_of<W: Write>(
    alloc: Global,
    maps: &Maps,
    names: &[String],
    writer: &mut W,
) -> Result<u8, Refusal>
    ensures small { IfOk result (λ s. s ≤ 3) }
    ensures told { IsDumpedIn (map string_bytes names.now) maps.now result
        (W.contents writer.old) (W.contents writer.new) }
{
    if names.is_empty() {
        return tell_lines(alloc, maps, writer);
    }
    if !have_maps(maps, names) {
        return Err(Refusal::NoSuchMap);
    }
    write_maps(alloc, maps, names, writer)?;
    match writer.flush() {
        Ok(()) => Ok(DONE),
        Err(_) => Err(Refusal::Lines(EditorError::WriterFailed)),
    }
}
