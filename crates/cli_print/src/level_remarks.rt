//! What `lint` writes about the levels of a WAD: the findings and warnings of the map that each is, or why it is none.
ghost use Rattle.std.specs.Prelude.{◌≡◌, ◌≤◌, ◌+◌, ◌++◌, ◌∷◌, [], List, ℕ, IfOk, MatchResult, is_some, map, option_map};
ghost use Rattle.std.specs.Io.KnownBytes.{Appends};
ghost use Rattle.map_dump.specs.Texts.{with_lf};
ghost use Rattle.run_edit.specs.declared.error.EditorError.TheVariants.{OutOfMemory, WriterFailed};
ghost use Rattle.lump_records.specs.Names.{name_text};
ghost use Rattle.cli_print.specs.Choosing.{choice_view, wants_view};
ghost use Rattle.cli_print.specs.LevelLines.{AreLinesOf, IsWadLintedBy, IsWadLintedOf, WritesLevel, no_map_text};
ghost use Rattle.cli_print.specs.Linting.{WritesRemarks};
ghost use Rattle.cli_print.specs.ShownNames.{shown};

use crate::choosing::{Choice, Wants};
use crate::level_maps::map_of_level;
use crate::origin::NoOrigin;
use crate::remarks::{plus, write_map};
use crate::shown_names::write_shown;
use crate::wad_graphics::graphics_given;
use crate::wanted::wanted_levels;
use cli_files::Cause;
use cli_refusals::{Refusal, status_after};
use lump_records::Name8;
use run_edit::{EditorError, InspectError, write_total};
use std::alloc::Global;
use std::fs::Files;
use std::io::Write;
use std::os::unix::fs::FileExt;
use wad_file::Wad;
use wad_import::ImportError;
use wad_levels::{LevelEntries, level_name, read_wad};

// Writes that a level is no map, and why.
fn write_why<W: Write>(error: &ImportError, writer: &mut W) -> Result<(), EditorError>
    ensures { MatchResult result
        (λ _. Appends (W.contents writer.old) (W.contents writer.new)
        (with_lf (no_map_text error.now)))
        (λ e. e ≡ WriterFailed) }
{
    match write!(writer, " no-map {error}\n") {
        Ok(()) => Ok(()),
        Err(_) => Err(EditorError::WriterFailed),
    }
}

// Writes the line of a level that is no map.
fn write_no_map<W: Write>(
    name: &Name8,
    error: &ImportError,
    writer: &mut W,
) -> Result<(), EditorError>
    ensures { MatchResult result
        (λ _. Appends (W.contents writer.old) (W.contents writer.new)
        (with_lf (map shown (name_text name.now) ++ no_map_text error.now)))
        (λ e. e ≡ WriterFailed) }
{
    match write_shown(name.text(), writer) {
        Ok(()) => write_why(error, writer),
        Err(error) => Err(error),
    }
}

// Writes the line of a level that is no map, and counts it.
fn count_no_map<W: Write>(
    name: &Name8,
    error: &ImportError,
    before: u32,
    writer: &mut W,
) -> Result<u32, EditorError>
    ensures { WritesRemarks result before
        ((map shown (name_text name.now) ++ no_map_text error.now) ∷ [])
        (W.contents writer.old) (W.contents writer.new) }
{
    let count = plus(before, 1)?;
    match write_no_map(name, error, writer) {
        Ok(()) => Ok(count),
        Err(error) => Err(error),
    }
}

// Writes the lines about a level, and adds their number to the count.
fn write_level<W: Write>(
    alloc: Global,
    wad: &Wad<'_>,
    level: LevelEntries,
    wants: Wants<'_>,
    before: u32,
    writer: &mut W,
) -> Result<u32, EditorError>
    ensures { WritesLevel (wants_view wants.entry) wad.now level
        result before (W.contents writer.old) (W.contents writer.new) }
{
    match map_of_level(alloc, wad, level) {
        Ok(found) => write_map(
            alloc,
            found.maps.current(),
            wants,
            &NoOrigin,
            before,
            writer,
        ),
        Err(ImportError::OutOfMemory) => Err(EditorError::OutOfMemory),
        Err(error) => {
            let name = level_name(wad, level);
            count_no_map(&name, &error, before, writer)
        }
    }
}

// Writes the lines about each level, and counts them.
fn write_levels<W: Write>(
    alloc: Global,
    wad: &Wad<'_>,
    levels: &[LevelEntries],
    wants: Wants<'_>,
    writer: &mut W,
) -> Result<u32, EditorError>
    ensures { (lines : List (List ℕ))
        × AreLinesOf (wants_view wants.entry)
        wad.now levels.now lines
        × WritesRemarks result 0 lines (W.contents writer.old) (W.contents writer.new) }
{
    let mut count = 0;
    for level in levels {
        match write_level(alloc, wad, *level, wants, count, writer) {
            Ok(sum) => count = sum,
            Err(error) => return Err(error),
        }
    }
    Ok(count)
}

// Writes the lines about the wanted levels, then their number, and flushes the writer.
fn tell_wanted<W: Write>(
    alloc: Global,
    wad: &Wad<'_>,
    name: Option<&str>,
    wants: Wants<'_>,
    writer: &mut W,
) -> Result<u8, Refusal>
    ensures small { IfOk result (λ s. s ≤ 3) }
    ensures told { IsWadLintedOf (wants_view wants.entry) wad.now
        (option_map (λ s. s.now) name.entry) result
        (W.contents writer.old) (W.contents writer.new) }
{
    let levels = match wanted_levels(alloc, wad, name) {
        Ok(levels) => levels,
        Err(error) => return Err(Refusal::Level(InspectError::Level(error))),
    };
    let count = write_levels(alloc, wad, &levels, wants, writer)?;
    write_total(count, writer)?;
    match writer.flush() {
        Ok(()) => Ok(status_after(count)),
        Err(_) => Err(Refusal::Lines(EditorError::WriterFailed)),
    }
}

// The same of the levels that the bytes hold.
fn tell_levels<W: Write>(
    alloc: Global,
    wad: &[u8],
    name: Option<&str>,
    wants: Wants<'_>,
    writer: &mut W,
) -> Result<u8, Refusal>
    ensures small { IfOk result (λ s. s ≤ 3) }
    ensures told { IsWadLintedOf (wants_view wants.entry) wad.now
        (option_map (λ s. s.now) name.entry) result
        (W.contents writer.old) (W.contents writer.new) }
{
    match read_wad(wad) {
        Ok(wad) => tell_wanted(alloc, &wad, name, wants, writer),
        Err(error) => Err(Refusal::Level(InspectError::Level(error))),
    }
}

/// Writes about the levels of `wad`, all in the order of its directory or the last one with the name: for the map that
/// a level is after the changes of `wad_import` what `tell_beside` writes, or that it is no map, and why; and last the
/// number of these lines. The names of flats and textures come from the WAD at the path `iwad`, if one is given.
pub fn tell_levels_beside<E: AllocGlobal + Files, W: Write>(
    rt: &E,
    wad: &[u8],
    name: Option<&str>,
    iwad: Option<&str>,
    choice: Choice<'_>,
    writer: &mut W,
    why: &mut Option<Cause>,
) -> Result<u8, Refusal>
where
    E::File: FileExt,
    ensures small { IfOk result (λ s. s ≤ 3) }
    ensures told { IsWadLintedBy (is_some iwad.entry) (choice_view choice.entry) wad.now
        (option_map (λ s. s.now) name.entry) result
        (W.contents writer.old) (W.contents writer.new) }
{
    let names = graphics_given(rt, iwad, why)?;
    let wants = Wants {
        names: names.as_ref(),
        choice,
    };
    tell_levels(rt.alloc(), wad, name, wants, writer)
}
