//! The request `build`: the PWAD of a disk's project, written into a file.
ghost use Rattle.std.specs.Prelude.{◌≡◌, ◌≤◌, IfErr, IfOk, MatchResult};
ghost use Rattle.std.specs.Io.KnownBytes.{Appends};
ghost use Rattle.map_tables.specs.Projects.{project_of};
ghost use Rattle.run_edit.specs.declared.error.EditorError.TheVariants.{WriterFailed};
ghost use Rattle.cli_files.specs.NewFile.{file_of};
ghost use Rattle.run_edit.specs.Building.{IsWritten, built_text};
ghost use Rattle.cli_refusals.specs.Refusals.{RefusesFile};
ghost use Rattle.run_edit.specs.Recovery.{IsOnlyRead};
ghost use Rattle.cli_requests.specs.Requests.{IsBuiltFrom};
ghost use Rattle.cli_sources.specs.Opened.{OverMaps};

use cli_files::{Cause, Form, Hold, NewFile, open_new};
use cli_refusals::Refusal;
use cli_sources::{HandedBack, maps_on};
use map_tables::Maps;
use run_edit::{EditorError, WriteError, write_counts, write_wad};
use std::alloc::Global;
use std::fs::{Files, OpenFile};
use std::io::Write;
use store_disk::Disk;
use wad_build::BuildCounts;

// Builds the maps of a project into a new file, which replaces the one at its path once it is whole, and returns the
// counts and that file; or notes why not.
fn build_into<E: Files, F: Write + OpenFile + Drop>(
    alloc: Global,
    rt: &E,
    maps: &Maps,
    mut new: NewFile<F>,
    why: &mut Option<Cause>,
) -> Result<(BuildCounts, F), Refusal>
    ensures written { IfOk result (λ built. IsWritten (project_of maps.now).maps built.0
        (F.contents (file_of new)) (F.contents built.1)) }
    ensures refused { IfErr result (RefusesFile (project_of maps.now).maps) }
{
    match write_wad(alloc, maps, &mut new) {
        Ok(counts) => match new.put(rt) {
            Ok(file) => Ok((counts, file)),
            Err(cause) => {
                *why = Some(cause);
                Err(Refusal::Build(WriteError::WriterFailed))
            }
        },
        Err(error) => {
            *why = new.fault();
            new.take_away(rt);
            Err(Refusal::Build(error))
        }
    }
}

// Writes what a build made, and flushes the writer.
fn tell_built<W: Write>(counts: BuildCounts, writer: &mut W) -> Result<u8, Refusal>
    ensures told { MatchResult result (λ status. (status ≡ 0)
        × Appends (W.contents writer.old) (W.contents writer.new) (built_text counts))
        (λ refusal. refusal ≡ Refusal.Lines WriterFailed) }
    ensures small { IfOk result (λ s. s ≤ 3) }
{
    write_counts(counts, writer)?;
    match writer.flush() {
        Ok(()) => Ok(0),
        Err(_) => Err(Refusal::Lines(EditorError::WriterFailed)),
    }
}

/// Builds maps into the file at the path, which may be new, empty or a PWAD, and writes what was made; or notes why the
/// file can't be made.
pub fn build_at<E: Files, W: Write>(
    alloc: Global,
    rt: &E,
    maps: &Maps,
    path: &str,
    writer: &mut W,
    why: &mut Option<Cause>,
) -> Result<u8, Refusal>
where
    E::File: Hold,
    ensures small { IfOk result (λ s. s ≤ 3) }
    ensures built { IsBuiltFrom maps.now result (W.contents writer.old) (W.contents writer.new) }
{
    let new = match open_new(alloc, rt, path, Form::Pwad) {
        Ok(new) => new,
        Err(cause) => {
            *why = Some(cause);
            return Err(Refusal::Lines(EditorError::WriterFailed));
        }
    };
    match build_into(alloc, rt, maps, new, why) {
        Ok(built) => tell_built(built.0, writer),
        Err(refusal) => Err(refusal),
    }
}

/// Builds the maps of a disk's project into the file at the path, and writes what was made, or notes why the file can't
/// be made. The file is whole or as it was; it may be new, empty or a PWAD. The disk is only read.
#[inline(never)]
pub fn build<E: Files, D: Disk, W: Write>(
    alloc: Global,
    rt: &E,
    disk: D,
    path: &str,
    writer: &mut W,
    why: &mut Option<Cause>,
) -> HandedBack<D>
where
    E::File: Hold,
    ensures small { IfOk result.how (λ s. s ≤ 3) }
    ensures built { OverMaps D.Disk disk result.disk result.how
        (W.contents writer.old) (W.contents writer.new)
        (λ maps. IsBuiltFrom maps result.how (W.contents writer.old) (W.contents writer.new)) }
    ensures only_read { IsOnlyRead D.Disk disk result.disk }
{
    let mut maps = Maps::new(alloc);
    match maps_on(alloc, disk, &mut maps) {
        Ok(disk) => HandedBack {
            how: build_at(alloc, rt, &maps, path, writer, why),
            disk,
        },
        Err(back) => back,
    }
}
