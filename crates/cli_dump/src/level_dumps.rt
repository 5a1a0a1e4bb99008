//! What `dump` writes for the levels of a WAD: the lines that draw the map that each is after the changes; and, on
//! standard error, these changes, or why a level is left.
ghost use Rattle.std.specs.Prelude.{◌≡◌, ◌≤◌, ◌++◌, All, List, None, Option, Some, ℕ, IfOk, MatchResult, codes, map, string_bytes};
ghost use Rattle.std.specs.Io.KnownBytes.{Appends};
ghost use Rattle.map_dump.specs.Texts.{text_of, with_lf};
ghost use Rattle.run_edit.specs.declared.error.EditorError.TheVariants.{WriterFailed};
ghost use Rattle.wad_import.specs.Texts.{change_text, import_refusal_text};
ghost use Rattle.wad_import.specs.declared.change.Change.{Change};
ghost use Rattle.map_tables.specs.Tables.{Tables};
ghost use Rattle.map_tables.specs.WellFormed.{WellFormed};
ghost use Rattle.cli_dump.specs.DumpSteps.{DumpsFor, DumpsLevel, DumpsLevels, KeepsMap};
ghost use Rattle.cli_dump.specs.LevelDumps.{IsWadDumped, change_notes, dumped_maps, first_change, note};

use crate::asked::asked_levels;
use crate::dump_lines::write_map_lines;
use cli_print::{map_of_level, write_shown};
use cli_refusals::{Refusal, status_told};
use lump_records::Name8;
use map_tables::{Kind, Map};
use run_edit::{EditorError, InspectError};
use std::alloc::Global;
use std::io::Write;
use wad_file::Wad;
use wad_import::{Change, ImportError, Imported};
use wad_levels::{LevelEntries, level_name, read_wad};

// Writes a change of the level with the name, after the words `before`.
fn write_change<E: Write>(
    name: &Name8,
    before: &str,
    change: Change,
    errors: &mut E,
) -> Result<(), EditorError>
    ensures { MatchResult result
        (λ _. Appends (E.contents errors.old) (E.contents errors.new)
        (with_lf (note name.now (before.now ++ change_text change))))
        (λ e. e ≡ WriterFailed) }
{
    match write_shown(name.text(), errors) {
        Ok(()) => {}
        Err(error) => return Err(error),
    }
    match write!(errors, ": {before}{change}\n") {
        Ok(()) => Ok(()),
        Err(_) => Err(EditorError::WriterFailed),
    }
}

// Writes the changes of the level with the name, a line each.
fn write_changes<E: Write>(
    name: &Name8,
    changes: &[Change],
    errors: &mut E,
) -> Result<(), EditorError>
    ensures { MatchResult result
        (λ _. Appends (E.contents errors.old) (E.contents errors.new)
        (text_of (change_notes name.now changes.now)))
        (λ e. e ≡ WriterFailed) }
{
    for change in changes {
        match write_change(name, "", *change, errors) {
            Ok(()) => {}
            Err(error) => return Err(error),
        }
    }
    Ok(())
}

// Writes why the level with the name is no map.
fn write_refusal<E: Write>(
    name: &Name8,
    refusal: ImportError,
    errors: &mut E,
) -> Result<(), EditorError>
    ensures { MatchResult result
        (λ _. Appends (E.contents errors.old) (E.contents errors.new)
        (with_lf (note name.now (codes "no map: " ++ import_refusal_text refusal))))
        (λ e. e ≡ WriterFailed) }
{
    match write_shown(name.text(), errors) {
        Ok(()) => {}
        Err(error) => return Err(error),
    }
    match write!(errors, ": no map: {refusal}\n") {
        Ok(()) => Ok(()),
        Err(_) => Err(EditorError::WriterFailed),
    }
}

// The first change, if the level is left because of it.
fn first_change(changes: &[Change], is_exact: bool) -> Option<Change>
    ensures { result ≡ first_change is_exact changes.now }
{
    if is_exact {
        changes.first().copied()
    } else {
        None
    }
}

// Leaves a level that is no map, and writes why.
fn leave_no_map<E: Write>(
    name: &Name8,
    refusal: ImportError,
    errors: &mut E,
) -> Result<bool, EditorError>
    ensures { (first : Option Change) → (cs : List Change) → (m : Tables) → (u : Option (List ℕ))
        → DumpsFor name.now (Some refusal) first cs m result u u
        (E.contents errors.old) (E.contents errors.new) }
{
    match write_refusal(name, refusal, errors) {
        Ok(()) => Ok(false),
        Err(error) => Err(error),
    }
}

// Leaves a level whose map is to be exact because of its first change, and writes that.
fn leave_changed<E: Write>(
    name: &Name8,
    change: Change,
    errors: &mut E,
) -> Result<bool, EditorError>
    ensures { (cs : List Change) → (m : Tables) → (u : Option (List ℕ))
        → DumpsFor name.now None (Some change) cs m result u u
        (E.contents errors.old) (E.contents errors.new) }
{
    match write_change(name, "not exact: ", change, errors) {
        Ok(()) => Ok(false),
        Err(error) => Err(error),
    }
}

// Writes the changes of a level, and the lines of the map that it is.
fn dump_map<W: Write, E: Write>(
    alloc: Global,
    name: &Name8,
    changes: &[Change],
    map: &Map,
    writer: &mut W,
    errors: &mut E,
) -> Result<bool, EditorError>
    ensures { DumpsFor name.now None None changes.now map.now.tables
        result (W.contents writer.old) (W.contents writer.new)
        (E.contents errors.old) (E.contents errors.new) }
{
    match write_changes(name, changes, errors) {
        Ok(()) => {}
        Err(error) => return Err(error),
    }
    match write_map_lines(alloc, map, writer) {
        Ok(()) => Ok(true),
        Err(error) => Err(error),
    }
}

// Dumps a level that is a map, or leaves it because of its first change.
fn dump_found<W: Write, E: Write>(
    alloc: Global,
    name: &Name8,
    found: &Imported,
    is_exact: bool,
    writer: &mut W,
    errors: &mut E,
) -> Result<bool, EditorError>
    ensures { let cs = found.now.changes.items in
        DumpsFor name.now None (first_change is_exact cs) cs
        found.now.maps.tables result (W.contents writer.old) (W.contents writer.new)
        (E.contents errors.old) (E.contents errors.new) }
{
    match first_change(&found.changes, is_exact) {
        Some(change) => leave_changed(name, change, errors),
        None => {
            let map = found.maps.current();
            dump_map(alloc, name, &found.changes, map, writer, errors)
        }
    }
}

// Every map is well-formed, so that of a level is.
fn is_well_formed(found: &Imported)
    ensures { WellFormed found.now.maps.tables }
{
    let _ = found.maps.current().count(Kind::Vertex);
}

// Dumps a level, or leaves it.
fn dump_level<W: Write, E: Write>(
    alloc: Global,
    wad: &Wad<'_>,
    level: LevelEntries,
    is_exact: bool,
    writer: &mut W,
    errors: &mut E,
) -> Result<bool, EditorError>
    ensures dumped { DumpsLevel is_exact wad.now level result
        (W.contents writer.old) (W.contents writer.new)
        (E.contents errors.old) (E.contents errors.new) }
    ensures map { IfOk result (λ _. KeepsMap is_exact wad.now level) }
{
    let name = level_name(wad, level);
    match map_of_level(alloc, wad, level) {
        Ok(found) => {
            is_well_formed(&found);
            dump_found(alloc, &name, &found, is_exact, writer, errors)
        }
        Err(ImportError::OutOfMemory) => Err(EditorError::OutOfMemory),
        Err(refusal) => leave_no_map(&name, refusal, errors),
    }
}

// Dumps levels in turn, and returns whether none was left.
fn dump_levels<W: Write, E: Write>(
    alloc: Global,
    wad: &Wad<'_>,
    levels: &[LevelEntries],
    is_exact: bool,
    writer: &mut W,
    errors: &mut E,
) -> Result<bool, EditorError>
    ensures dumped { DumpsLevels is_exact wad.now levels.now result
        (W.contents writer.old) (W.contents writer.new)
        (E.contents errors.old) (E.contents errors.new) }
    ensures maps { IfOk result (λ _. All WellFormed (dumped_maps is_exact wad.now levels.now)) }
{
    let mut are_all = true;
    for level in levels {
        match dump_level(alloc, wad, *level, is_exact, writer, errors) {
            Ok(is_dumped) => are_all = are_all && is_dumped,
            Err(error) => return Err(error),
        }
    }
    Ok(are_all)
}

// Writes the lines that draw the levels that are asked for, and what is said of them.
fn tell_asked<W: Write, E: Write>(
    alloc: Global,
    wad: &Wad<'_>,
    names: &[String],
    is_exact: bool,
    writer: &mut W,
    errors: &mut E,
) -> Result<u8, Refusal>
    ensures small { IfOk result (λ s. s ≤ 3) }
    ensures told { IsWadDumped wad.now (map string_bytes names.now)
        is_exact result (W.contents writer.old) (W.contents writer.new)
        (E.contents errors.old) (E.contents errors.new) }
{
    let levels = match asked_levels(alloc, wad, names) {
        Ok(levels) => levels,
        Err(error) => return Err(Refusal::Level(InspectError::Level(error))),
    };
    let are_all = dump_levels(alloc, wad, &levels, is_exact, writer, errors)?;
    match writer.flush() {
        Ok(()) => Ok(status_told(are_all)),
        Err(_) => Err(Refusal::Lines(EditorError::WriterFailed)),
    }
}

/// Writes the lines that draw the levels of `wad`, all or those with the names, in the order of its directory: for each
/// those of the map that it is after the changes of `wad_import`. Flushes the writer. Writes each change on `errors`. A
/// level that is no map is left; so is one with any change, if maps are to be exact. Then `errors` has the reason.
pub fn tell_level_dumps<W: Write, E: Write>(
    alloc: Global,
    wad: &[u8],
    names: &[String],
    is_exact: bool,
    writer: &mut W,
    errors: &mut E,
) -> Result<u8, Refusal>
    ensures small { IfOk result (λ s. s ≤ 3) }
    ensures told { IsWadDumped wad.now (map string_bytes names.now)
        is_exact result (W.contents writer.old) (W.contents writer.new)
        (E.contents errors.old) (E.contents errors.new) }
{
    match read_wad(wad) {
        Ok(wad) => tell_asked(alloc, &wad, names, is_exact, writer, errors),
        Err(error) => Err(Refusal::Level(InspectError::Level(error))),
    }
}
