//! The request `inspect` without a name: the names of the levels that a WAD holds.
ghost use Rattle.std.specs.Prelude.{◌≡◌, ◌≤◌, None, IfOk, MatchResult, flat_map};
ghost use Rattle.std.specs.Io.KnownBytes.{Appends};
ghost use Rattle.cli_requests.specs.LevelNames.{IsListed, RefusesNames, level_line, levels_text};
ghost use Rattle.cli_requests.specs.Requests.{IsListedOf};
ghost use Rattle.run_edit.specs.declared.error.EditorError.TheVariants.{WriterFailed};
ghost use Rattle.wad_levels.specs.Listing.{listing_refusal};

use cli_files::Cause;
use cli_print::{LumpsRead, TURNS, WadReader, read_wad, write_shown};
use cli_refusals::{DONE, Refusal};
use lump_records::Name8;
use run_edit::{EditorError, InspectError};
use std::alloc::Global;
use std::fs::{self, Files};
use std::io::{Read, Write};
use std::os::unix::fs::FileExt;
use wad_levels::level_names;

// Writes a name as a line.
fn write_name<W: Write>(name: &Name8, writer: &mut W) -> Result<(), EditorError>
    ensures { MatchResult result
        (λ _. Appends (W.contents writer.old) (W.contents writer.new) (level_line name.now))
        (λ e. e ≡ WriterFailed) }
{
    match write_shown(name.text(), writer) {
        Ok(()) => {}
        Err(error) => return Err(error),
    }
    match writer.write_all(b"\n") {
        Ok(()) => Ok(()),
        Err(_) => Err(EditorError::WriterFailed),
    }
}

// Writes a line for each name.
fn write_each<W: Write>(names: &[Name8], writer: &mut W) -> Result<(), EditorError>
    ensures { MatchResult result
        (λ _. Appends (W.contents writer.old) (W.contents writer.new)
        (flat_map level_line names.now))
        (λ e. e ≡ WriterFailed) }
{
    for name in names {
        match write_name(name, writer) {
            Ok(()) => {}
            Err(error) => return Err(error),
        }
    }
    Ok(())
}

// Writes the names of a WAD's levels.
fn write_levels<W: Write>(alloc: Global, wad: &[u8], writer: &mut W) -> Result<(), InspectError>
    ensures { MatchResult result
        (λ _. (listing_refusal wad.now ≡ None)
        × Appends (W.contents writer.old) (W.contents writer.new) (levels_text wad.now))
        (λ e. RefusesNames wad.now e (W.contents writer.old) (W.contents writer.new)) }
{
    let names = match level_names(alloc, wad) {
        Ok(names) => names,
        Err(error) => return Err(InspectError::Level(error)),
    };
    match write_each(&names, writer) {
        Ok(()) => Ok(()),
        Err(_) => Err(InspectError::WriterFailed),
    }
}

// Writes the names of the levels in all that the reader gives, and flushes the writer, or notes why it can't be read.
fn list_read<R: Read, W: Write>(
    alloc: Global,
    reader: &mut R,
    turns: u32,
    writer: &mut W,
    why: &mut Option<Cause>,
) -> Result<u8, Refusal>
    ensures small { IfOk result (λ s. s ≤ 3) }
    ensures listed { IsListedOf result (R.remaining reader.old) (R.remaining reader.new)
        (W.contents writer.old) (W.contents writer.new) }
{
    let wad = read_wad(alloc, reader, turns, why)?;
    write_levels(alloc, &wad, writer)?;
    match writer.flush() {
        Ok(()) => Ok(DONE),
        Err(_) => Err(Refusal::Lines(EditorError::WriterFailed)),
    }
}

/// Writes the names of the levels of the WAD at the path, a line each, in the order of its directory, which is all that
/// it reads; or notes why it can't be opened or read.
pub fn list_levels<E: AllocGlobal + Files, W: Write>(
    rt: &E,
    path: &str,
    writer: &mut W,
    why: &mut Option<Cause>,
) -> Result<u8, Refusal>
where
    E::File: FileExt,
    ensures small { IfOk result (λ s. s ≤ 3) }
    ensures listed { IsListed result (W.contents writer.old) (W.contents writer.new) }
{
    match fs::open(rt, path) {
        Ok(mut file) => {
            let mut reader = WadReader::new(rt.alloc(), &mut file, LumpsRead::Names);
            list_read(rt.alloc(), &mut reader, TURNS, writer, why)
        }
        Err(error) => {
            *why = Some(Cause::System(error));
            Err(Refusal::Lines(EditorError::ReaderFailed))
        }
    }
}
