//! What `check` writes: the findings of a map.
ghost use Rattle.std.specs.Prelude.{◌≡◌, ◌≤◌, ◌++◌, IfErr, IfOk, MatchResult, length, option_map};
ghost use Rattle.std.specs.Io.KnownBytes.{Appends};
ghost use Rattle.map_checks.specs.Findings.{findings};
ghost use Rattle.run_edit.specs.Runs.{Unwritten};
ghost use Rattle.run_edit.specs.Texts.{total_text};
ghost use Rattle.run_edit.specs.declared.error.EditorError.TheVariants.{WriterFailed};
ghost use Rattle.cli_print.specs.Checking.{IsCheckedIn, IsCheckedOf, checked_text};

use crate::called::map_called;
use crate::origin::Origin;
use crate::remarks::plus;
use crate::told::put_findings;
use cli_refusals::{Refusal, status_after};
use map_checks::check;
use map_tables::{Map, Maps};
use run_edit::{EditorError, write_total};
use std::alloc::Global;
use std::io::Write;

// Writes the lines of findings, and then their number.
fn write_counted<W: Write>(lines: &[u8], count: u32, writer: &mut W) -> Result<(), EditorError>
    ensures { MatchResult result
        (λ _. Appends (W.contents writer.old) (W.contents writer.new)
        (lines.now ++ total_text count))
        (λ e. e ≡ WriterFailed) }
{
    match writer.write_all(lines) {
        Ok(()) => write_total(count, writer),
        Err(_) => Err(EditorError::WriterFailed),
    }
}

// Writes a line for each finding of a map, then their number, and returns it.
fn write_checked<O: Origin, W: Write>(
    alloc: Global,
    map: &Map,
    origin: &O,
    writer: &mut W,
) -> Result<u32, EditorError>
    ensures number { IfOk result (λ n. n ≡ length (findings map.now.tables)) }
    ensures written { IfOk result (λ _. Appends (W.contents writer.old) (W.contents writer.new)
        (checked_text (O.origin origin.now) map.now.tables)) }
    ensures refused { IfErr result (λ e.
        Unwritten e (W.contents writer.old) (W.contents writer.new)) }
{
    let Ok(found) = check(alloc, map) else {
        return Err(EditorError::OutOfMemory);
    };
    let count = plus(0, found.len())?;
    let mut text = Vec::new(alloc);
    put_findings(alloc, b"", &found, &map.name(), origin, &mut text)?;
    write_counted(&text, count, writer)?;
    Ok(count)
}

/// Writes the findings of a map, and flushes the writer.
pub(crate) fn tell<O: Origin, W: Write>(
    alloc: Global,
    map: &Map,
    origin: &O,
    writer: &mut W,
) -> Result<u8, Refusal>
    ensures small { IfOk result (λ s. s ≤ 3) }
    ensures told { IsCheckedOf (O.origin origin.now) map.now.tables result
        (W.contents writer.old) (W.contents writer.new) }
{
    let found = write_checked(alloc, map, origin, writer)?;
    match writer.flush() {
        Ok(()) => Ok(status_after(found)),
        Err(_) => Err(Refusal::Lines(EditorError::WriterFailed)),
    }
}

/// Writes the findings of the map with the name, or of the current one, each with the origins of its items behind it,
/// and flushes the writer.
pub fn tell_findings<O: Origin, W: Write>(
    alloc: Global,
    maps: &Maps,
    name: Option<&str>,
    origin: &O,
    writer: &mut W,
) -> Result<u8, Refusal>
    ensures small { IfOk result (λ s. s ≤ 3) }
    ensures told { IsCheckedIn (O.origin origin.now) (option_map (λ s. s.now) name.entry) maps.now
        result
        (W.contents writer.old) (W.contents writer.new) }
{
    let Some(name) = name else {
        return tell(alloc, maps.current(), origin, writer);
    };
    match map_called(maps, name.as_bytes()) {
        Some(map) => tell(alloc, map, origin, writer),
        None => Err(Refusal::NoSuchMap),
    }
}
