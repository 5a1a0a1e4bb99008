//! Writes the answer to each query.
ghost use Rattle.std.specs.Prelude.{◌≡◌, MatchResult};
ghost use Rattle.std.specs.Io.KnownBytes.{Appends};
ghost use Rattle.map_checks.specs.Findings.{findings};
ghost use Rattle.map_tables.specs.Body.{lump_of};
ghost use Rattle.map_tables.specs.Projects.{project_of};
ghost use Rattle.run_edit.specs.declared.error.EditorError.TheVariants.{WriterFailed};
ghost use Rattle.run_edit.specs.Queries.{WritesAnswer, kind_of_lump};
ghost use Rattle.run_edit.specs.Runs.{Unwritten};
ghost use Rattle.run_edit.specs.Texts.{count_text, counts_text, findings_text, hex_text};

use crate::build_queries::{write_build, write_built};
use crate::error::EditorError;
use crate::findings::write_findings;
use crate::hex::hex_text;
use crate::listing::write_maps;
use crate::lump::Lump;
use crate::query::Query;
use map_tables::{Kind, Map, Maps};
use std::alloc::Global;
use std::io::Write;

// Writes these counts of the items of each kind.
fn write_counts<W: Write>(
    vertices: u32,
    sectors: u32,
    sides: u32,
    lines: u32,
    things: u32,
    writer: &mut W,
) -> Result<(), EditorError>
    ensures { MatchResult result
        (λ _. Appends (W.contents writer.old) (W.contents writer.new)
        (counts_text vertices sectors sides lines things))
        (λ e. e ≡ WriterFailed) }
{
    let written = write!(
        writer,
        "vertices {vertices} sectors {sectors} sides {sides} lines {lines} things {things}\n"
    );
    match written {
        Ok(()) => Ok(()),
        Err(_) => Err(EditorError::WriterFailed),
    }
}

// Writes how many items there are of each kind.
fn write_count<W: Write>(map: &Map, writer: &mut W) -> Result<(), EditorError>
    ensures { MatchResult result
        (λ _. Appends (W.contents writer.old) (W.contents writer.new) (count_text map.now.tables))
        (λ e. e ≡ WriterFailed) }
{
    let vertices = map.count(Kind::Vertex);
    let sectors = map.count(Kind::Sector);
    let sides = map.count(Kind::Side);
    let lines = map.count(Kind::Line);
    let things = map.count(Kind::Thing);
    write_counts(vertices, sectors, sides, lines, things, writer)
}

// Writes the bytes of a lump.
fn write_hex<W: Write>(
    alloc: Global,
    map: &Map,
    lump: Lump,
    writer: &mut W,
) -> Result<(), EditorError>
    ensures { MatchResult result
        (λ _. Appends (W.contents writer.old) (W.contents writer.new)
        (hex_text (lump_of map.now.tables (kind_of_lump lump))))
        (λ e. Unwritten e (W.contents writer.old) (W.contents writer.new)) }
{
    let Ok(bytes) = map.lump(alloc, lump.kind()) else {
        return Err(EditorError::OutOfMemory);
    };
    let Ok(text) = hex_text(alloc, &bytes) else {
        return Err(EditorError::OutOfMemory);
    };
    match writer.write_all(&text) {
        Ok(()) => Ok(()),
        Err(_) => Err(EditorError::WriterFailed),
    }
}

// Writes the findings of the map, and their number.
fn write_check<W: Write>(alloc: Global, map: &Map, writer: &mut W) -> Result<(), EditorError>
    ensures { MatchResult result
        (λ _. Appends (W.contents writer.old) (W.contents writer.new)
        (findings_text (findings map.now.tables)))
        (λ e. Unwritten e (W.contents writer.old) (W.contents writer.new)) }
{
    match write_findings(alloc, map, writer) {
        Ok(_) => Ok(()),
        Err(error) => Err(error),
    }
}

/// Writes the answer to a query about the maps or the current map.
///
/// # Errors
///
/// `OutOfMemory`, with nothing written, or `WriterFailed`.
pub fn write_answer<W: Write>(
    alloc: Global,
    maps: &Maps,
    query: Query,
    writer: &mut W,
) -> Result<(), EditorError>
    ensures { WritesAnswer result (project_of maps.now) query
        (W.contents writer.old) (W.contents writer.new) }
{
    let map = maps.current();
    match query {
        Query::Check => write_check(alloc, map, writer),
        Query::Count => write_count(map, writer),
        Query::Maps => write_maps(maps, writer),
        Query::Build => write_build(alloc, maps, writer),
        Query::Hex(lump) => write_hex(alloc, map, lump, writer),
        Query::HexBuilt(lump) => write_built(alloc, map, lump, writer),
    }
}
