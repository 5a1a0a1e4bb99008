//! Writes what a build of all maps makes: the PWAD, and its counts.
ghost use Rattle.std.specs.Prelude.{◌≡◌, Err, Some, length, IfErr, IfOk, MatchResult, slice_get};
ghost use Rattle.std.specs.Io.KnownBytes.{Appends};
ghost use Rattle.map_tables.specs.Projects.{project_of};
ghost use Rattle.map_tables.specs.Tables.{Tables};
ghost use Rattle.wad_build.specs.Errors.{blamed};
ghost use Rattle.wad_build.specs.declared.error.BuildError.TheVariants.{NothingToBuild};
ghost use Rattle.run_edit.specs.declared.error.EditorError.TheVariants.{WriterFailed};
ghost use Rattle.run_edit.specs.Building.{IsWritten, RefusesWriting, built_text};

use crate::error::{EditorError, WriteError};
use map_tables::Maps;
use std::alloc::Global;
use std::io::Write;
use wad_build::{BuildCounts, Unwritten, write_all};

/// Builds all maps of a project, writes their PWAD lump by lump, and returns its counts. Nothing is written before each
/// map is built; after that no memory is asked for.
///
/// # Errors
///
/// `Build` if `write_all` refuses the maps, with nothing written; or `WriterFailed`.
pub fn write_wad<W: Write>(
    alloc: Global,
    maps: &Maps,
    writer: &mut W,
) -> Result<BuildCounts, WriteError>
    ensures written { IfOk result (λ counts. IsWritten (project_of maps.now).maps counts
        (W.contents writer.old) (W.contents writer.new)) }
    ensures refused { IfErr result (λ e. RefusesWriting (project_of maps.now).maps e
        (W.contents writer.old) (W.contents writer.new)) }
    // With or without memory, if the first map has no line.
    ensures nothing { (m : Tables) → slice_get (project_of maps.now).maps 0 ≡ Some m
        → length m.lines ≡ 0
        → result ≡ Err (WriteError.Build (blamed NothingToBuild m.name)) }
{
    match write_all(alloc, maps, writer) {
        Ok(counts) => Ok(counts),
        Err(Unwritten::Build(unbuilt)) => Err(WriteError::Build(unbuilt)),
        Err(Unwritten::Writer) => Err(WriteError::WriterFailed),
    }
}

/// Writes the counts of a build: `built vertices V segs S subsectors U nodes N bytes B`.
pub fn write_counts<W: Write>(counts: BuildCounts, writer: &mut W) -> Result<(), EditorError>
    ensures { MatchResult result
        (λ _. Appends (W.contents writer.old) (W.contents writer.new) (built_text counts))
        (λ e. e ≡ WriterFailed) }
{
    let vertices = counts.vertices;
    let segs = counts.segs;
    let subs = counts.subs;
    let nodes = counts.nodes;
    let bytes = counts.bytes;
    let written = write!(
        writer,
        "built vertices {vertices} segs {segs} subsectors {subs} nodes {nodes} bytes {bytes}\n"
    );
    match written {
        Ok(()) => Ok(()),
        Err(_) => Err(EditorError::WriterFailed),
    }
}
