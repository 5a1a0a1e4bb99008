//! What `lint` writes: the findings and warnings of each map; with a WAD also the flats and textures that it lacks.
ghost use Rattle.std.specs.Prelude.{◌≡◌, ◌≤◌, ◌+◌, ◌++◌, IfErr, IfOk, Some, is_some, option_map, slice_get};
ghost use Rattle.std.specs.Option.{option_copied};
ghost use Rattle.wad_levels.specs.Graphics.{graphics_view};
ghost use Rattle.map_lint.specs.Rules.{warnings};
ghost use Rattle.map_tables.specs.Projects.{project_of};
ghost use Rattle.map_tables.specs.Tables.{Tables};
ghost use Rattle.cli_print.specs.Linting.{AreTold, IsLintedBy, IsLintedIn, IsLintedOf, WritesRemarks, lint_of, remarks, wanted_warnings, warned_by};
ghost use Rattle.cli_print.specs.Choosing.{choice_view, wants_view};
ghost use Rattle.run_edit.specs.declared.error.EditorError.TheVariants.{OutOfMemory};

use crate::called::map_called;
use crate::choosing::{Choice, Wants, chosen_findings, chosen_warnings};
use crate::origin::Origin;
use crate::told::lines_told;
use crate::wad_graphics::graphics_given;
use cli_files::Cause;
use cli_refusals::{Refusal, status_after};
use map_lint::{Warning, lint_graphics};
use map_tables::{Map, Maps};
use run_edit::{EditorError, write_total};
use std::alloc::Global;
use std::fs::Files;
use std::io::Write;
use std::os::unix::fs::FileExt;
use wad_levels::Graphics;

/// The sum, if it fits 32 bits. No memory holds more findings than that.
pub(crate) fn plus(count: u32, more: usize) -> Result<u32, EditorError>
    ensures sum { IfOk result (λ n. n ≡ count + more) }
    ensures memory { IfErr result (λ e. e ≡ OutOfMemory) }
{
    let Ok(more) = u32::try_from(more) else {
        return Err(EditorError::OutOfMemory);
    };
    match count.checked_add(more) {
        Some(sum) => Ok(sum),
        None => Err(EditorError::OutOfMemory),
    }
}

// The warnings of a map's flats and textures, if a WAD's names are given.
fn warned_by(
    alloc: Global,
    map: &Map,
    names: Option<&Graphics>,
) -> Result<Vec<Warning>, EditorError>
    ensures found { IfOk result (λ found. found.items
        ≡ warned_by (option_map graphics_view (option_copied names.entry)) map.now.tables) }
    ensures memory { IfErr result (λ e. e ≡ OutOfMemory) }
{
    let Some(names) = names else {
        return Ok(Vec::new(alloc));
    };
    match lint_graphics(alloc, map, &names.flats, &names.textures) {
        Ok(found) => Ok(found),
        Err(_) => Err(EditorError::OutOfMemory),
    }
}

// The warnings of a map, then those of its flats and textures.
fn warnings_of(
    alloc: Global,
    map: &Map,
    names: Option<&Graphics>,
) -> Result<Vec<Warning>, EditorError>
    ensures found { IfOk result (λ found. found.items ≡ warnings map.now.tables
        ++ warned_by (option_map graphics_view (option_copied names.entry)) map.now.tables) }
    ensures memory { IfErr result (λ e. e ≡ OutOfMemory) }
{
    let Ok(mut warned) = map_lint::lint(alloc, map) else {
        return Err(EditorError::OutOfMemory);
    };
    let mut more = warned_by(alloc, map, names)?;
    match warned.append(&mut more) {
        Ok(()) => Ok(warned),
        Err(_) => Err(EditorError::OutOfMemory),
    }
}

// Of these warnings those that are asked for.
fn wanted_warnings(alloc: Global, map: &Map, wants: Wants<'_>) -> Result<Vec<Warning>, EditorError>
    ensures found { IfOk result (λ found.
        found.items ≡ wanted_warnings (wants_view wants.entry) map.now.tables) }
    ensures memory { IfErr result (λ e. e ≡ OutOfMemory) }
{
    let warned = warnings_of(alloc, map, wants.names)?;
    chosen_warnings(alloc, &warned, wants.choice)
}

/// Writes the lines about a map, and adds their number to the count.
pub(crate) fn write_map<O: Origin, W: Write>(
    alloc: Global,
    map: &Map,
    wants: Wants<'_>,
    origin: &O,
    before: u32,
    writer: &mut W,
) -> Result<u32, EditorError>
    ensures { WritesRemarks result before
        (remarks (O.origin origin.now) (wants_view wants.entry) map.now.tables)
        (W.contents writer.old) (W.contents writer.new) }
{
    let found = chosen_findings(alloc, map, wants.choice)?;
    let warned = wanted_warnings(alloc, map, wants)?;
    let with_findings = plus(before, found.len())?;
    let count = plus(with_findings, warned.len())?;
    let text = lines_told(alloc, &map.name(), &found, &warned, origin)?;
    match writer.write_all(&text) {
        Ok(()) => Ok(count),
        Err(_) => Err(EditorError::WriterFailed),
    }
}

// Writes the lines about the map with the number, if there is one.
fn write_nth<O: Origin, W: Write>(
    alloc: Global,
    maps: &Maps,
    wants: Wants<'_>,
    origin: &O,
    n: u32,
    before: u32,
    writer: &mut W,
) -> Result<u32, EditorError>
    ensures { (m : Tables) → slice_get (project_of maps.now).maps n ≡ Some m
        → WritesRemarks result before
        (remarks (O.origin origin.now) (wants_view wants.entry) m)
        (W.contents writer.old) (W.contents writer.new) }
{
    match maps.at(n) {
        Some(map) => write_map(alloc, map, wants, origin, before, writer),
        None => Ok(before),
    }
}

// Writes the lines about each map, and counts them.
fn write_maps<O: Origin, W: Write>(
    alloc: Global,
    maps: &Maps,
    wants: Wants<'_>,
    origin: &O,
    writer: &mut W,
) -> Result<u32, EditorError>
    ensures { WritesRemarks result 0
        (lint_of (O.origin origin.now) (wants_view wants.entry) (project_of maps.now).maps)
        (W.contents writer.old) (W.contents writer.new) }
{
    let mut count = 0;
    for n in 0..maps.len() {
        match write_nth(alloc, maps, wants, origin, n, count, writer) {
            Ok(sum) => count = sum,
            Err(error) => return Err(error),
        }
    }
    Ok(count)
}

// Writes the lines about the maps, then their number, and flushes the writer.
fn tell_remarks<O: Origin, W: Write>(
    alloc: Global,
    maps: &Maps,
    wants: Wants<'_>,
    origin: &O,
    writer: &mut W,
) -> Result<u8, Refusal>
    ensures small { IfOk result (λ s. s ≤ 3) }
    ensures told { IsLintedOf (O.origin origin.now) (wants_view wants.entry) maps.now result
        (W.contents writer.old) (W.contents writer.new) }
{
    let count = write_maps(alloc, maps, wants, origin, writer)?;
    write_total(count, writer)?;
    match writer.flush() {
        Ok(()) => Ok(status_after(count)),
        Err(_) => Err(Refusal::Lines(EditorError::WriterFailed)),
    }
}

// Writes the lines about a map, then their number, and flushes the writer.
fn tell_map<O: Origin, W: Write>(
    alloc: Global,
    map: &Map,
    wants: Wants<'_>,
    origin: &O,
    writer: &mut W,
) -> Result<u8, Refusal>
    ensures small { IfOk result (λ s. s ≤ 3) }
    ensures told { AreTold
        (remarks (O.origin origin.now) (wants_view wants.entry) map.now.tables) result
        (W.contents writer.old) (W.contents writer.new) }
{
    let count = write_map(alloc, map, wants, origin, 0, writer)?;
    write_total(count, writer)?;
    match writer.flush() {
        Ok(()) => Ok(status_after(count)),
        Err(_) => Err(Refusal::Lines(EditorError::WriterFailed)),
    }
}

// Writes the lines about the map with the name, or about all maps.
fn tell_wanted<O: Origin, W: Write>(
    alloc: Global,
    maps: &Maps,
    name: Option<&str>,
    wants: Wants<'_>,
    origin: &O,
    writer: &mut W,
) -> Result<u8, Refusal>
    ensures small { IfOk result (λ s. s ≤ 3) }
    ensures told { IsLintedIn (O.origin origin.now) (option_map (λ s. s.now) name.entry)
        (wants_view wants.entry) maps.now result
        (W.contents writer.old) (W.contents writer.new) }
{
    let Some(name) = name else {
        return tell_remarks(alloc, maps, wants, origin, writer);
    };
    match map_called(maps, name.as_bytes()) {
        Some(map) => tell_map(alloc, map, wants, origin, writer),
        None => Err(Refusal::NoSuchMap),
    }
}

/// Writes about the maps by number, or about the one with the name alone: the findings of `check`, then the warnings of
/// `map_lint`, then, if a WAD is given, those of the flats and textures that it lacks; of all these what is asked for.
/// Each line begins with the map's name, and ends with the origins of its items; the number of these lines comes last.
/// Or notes why the WAD can't be opened.
pub fn tell_beside<E: AllocGlobal + Files, O: Origin, W: Write>(
    rt: &E,
    maps: &Maps,
    name: Option<&str>,
    iwad: Option<&str>,
    choice: Choice<'_>,
    origin: &O,
    writer: &mut W,
    why: &mut Option<Cause>,
) -> Result<u8, Refusal>
where
    E::File: FileExt,
    ensures small { IfOk result (λ s. s ≤ 3) }
    ensures told { IsLintedBy (O.origin origin.now) (is_some iwad.entry) (choice_view choice.entry)
        (option_map (λ s. s.now) name.entry) maps.now result
        (W.contents writer.old) (W.contents writer.new) }
{
    let names = graphics_given(rt, iwad, why)?;
    let wants = Wants {
        names: names.as_ref(),
        choice,
    };
    tell_wanted(rt.alloc(), maps, name, wants, origin, writer)
}
