//! The answer to `maps`.
ghost use Rattle.std.specs.Prelude.{◌≡◌, MatchResult, OnOk, Some, slice_get};
ghost use Rattle.std.specs.Io.KnownBytes.{Appends};
ghost use Rattle.map_tables.specs.Projects.{project_of};
ghost use Rattle.map_tables.specs.Tables.{Tables};
ghost use Rattle.run_edit.specs.Texts.{current_text, map_line, map_lines, maps_text};

use crate::error::EditorError;
use lump_text::WriterFailed;
use map_tables::{Map, Maps};
use std::io::Write;

// Writes `I NAME`.
fn write_map<W: Write>(number: u32, map: &Map, writer: &mut W) -> Result<(), WriterFailed>
    ensures { OnOk result (Appends (W.contents writer.old) (W.contents writer.new)
        (map_line number map.now.tables)) }
{
    let name = map.name();
    write!(writer, "{number} ")?;
    writer.write_all(name.text())?;
    writer.write_all(b"\n")?;
    Ok(())
}

// Writes `I NAME` for the map with this number, if there is one.
fn write_nth<W: Write>(maps: &Maps, number: u32, writer: &mut W) -> Result<(), WriterFailed>
    ensures { OnOk result ((m : Tables) → slice_get (project_of maps.now).maps number ≡ Some m
        → Appends (W.contents writer.old) (W.contents writer.new) (map_line number m)) }
{
    match maps.at(number) {
        Some(map) => write_map(number, map, writer),
        None => Ok(()),
    }
}

// Writes `I NAME` for each map.
fn write_each<W: Write>(maps: &Maps, writer: &mut W) -> Result<(), WriterFailed>
    ensures { OnOk result (Appends (W.contents writer.old) (W.contents writer.new)
        (map_lines 0 (project_of maps.now).maps)) }
{
    for n in 0..maps.len() {
        match write_nth(maps, n, writer) {
            Ok(()) => {}
            Err(error) => return Err(error),
        }
    }
    Ok(())
}

// Writes `current I`.
fn write_current<W: Write>(number: u32, writer: &mut W) -> Result<(), WriterFailed>
    ensures { OnOk result
        (Appends (W.contents writer.old) (W.contents writer.new) (current_text number)) }
{
    write!(writer, "current {number}\n")?;
    Ok(())
}

/// Writes `I NAME` for each map, then `current I`.
pub fn write_maps<W: Write>(maps: &Maps, writer: &mut W) -> Result<(), EditorError>
    ensures { MatchResult result
        (λ _. Appends (W.contents writer.old) (W.contents writer.new)
        (maps_text (project_of maps.now)))
        (λ e. e ≡ EditorError.WriterFailed) }
{
    let current = maps.current_number();
    write_each(maps, writer)?;
    write_current(current, writer)?;
    Ok(())
}
