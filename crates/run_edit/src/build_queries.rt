//! The queries that need a build: `build`, and `hex` of a lump that a build makes.
ghost use Rattle.std.specs.Prelude.{◌≡◌, drop, flat_map, length, IfErr, IfOk, MatchResult};
ghost use Rattle.std.specs.Io.KnownBytes.{Appends};
ghost use Rattle.lump_records.specs.Records.{vertex_record};
ghost use Rattle.map_tables.specs.Projects.{project_of};
ghost use Rattle.wad_build.specs.Sound.{IsBuildRefusal};
ghost use Rattle.wad_levels.specs.Views.{view};
ghost use Rattle.run_edit.specs.Queries.{IsOfBuild, WritesAnswer, WritesBuilt, WritesRefusal, built_lump_of};
ghost use Rattle.run_edit.specs.Runs.{Unwritten};
ghost use Rattle.run_edit.specs.Texts.{hex_text};
ghost use Rattle.run_edit.specs.declared.query.Query.TheVariants.{Build};

use crate::counted_wad::write_counts;
use crate::error::EditorError;
use crate::hex::hex_text;
use crate::lump::BuiltLump;
use crate::outcome::write_outcome;
use lump_records::{LumpError, Vertex, encode_nodes, encode_segs, encode_subs, encode_vertices};
use map_tables::{Kind, Map, Maps};
use std::alloc::Global;
use std::io::Write;
use wad_build::{BuildError, Level, build_counted, build_wad, read_level};

// Writes why a build is refused, as `no CODE`. For lack of memory it writes nothing and returns `OutOfMemory`.
fn write_refusal<W: Write>(cause: BuildError, writer: &mut W) -> Result<(), EditorError>
    ensures { WritesRefusal result cause (W.contents writer.old) (W.contents writer.new) }
{
    match cause {
        BuildError::OutOfMemory => Err(EditorError::OutOfMemory),
        _ => write_outcome(Err(cause.code()), writer),
    }
}

/// Writes the counts of a build of all maps, or why it is refused.
///
/// # Errors
///
/// `OutOfMemory`, with nothing written, or `WriterFailed`.
pub fn write_build<W: Write>(alloc: Global, maps: &Maps, writer: &mut W) -> Result<(), EditorError>
    ensures { WritesAnswer result (project_of maps.now) Build
        (W.contents writer.old) (W.contents writer.new) }
{
    match build_counted(alloc, maps) {
        Ok(built) => write_counts(built.counts, writer),
        Err(unbuilt) => write_refusal(unbuilt.error, writer),
    }
}

// The level that a build of this map alone makes.
fn build_level(alloc: Global, map: &Map) -> Result<Level, BuildError>
    ensures level { IfOk result (λ level. IsOfBuild map.now.tables (view level)) }
    ensures refused { IfErr result (IsBuildRefusal map.now.tables) }
{
    let wad = build_wad(alloc, map)?;
    let name = map.name();
    match read_level(alloc, &wad, name.text()) {
        Ok(level) => Ok(level),
        Err(_) => Err(BuildError::OutOfMemory),
    }
}

// The vertices after the first `count`.
fn behind(vertices: &[Vertex], count: u32) -> &[Vertex]
    ensures { result.now ≡ drop count vertices.now }
{
    let start = count as usize;
    if start < vertices.len() {
        &vertices[start..]
    } else {
        &[]
    }
}

// The bytes of the vertices that a build adds after the drawn ones.
fn added(alloc: Global, map: &Map, level: &Level) -> Result<Vec<u8>, LumpError>
    ensures { IfOk result (λ v. v.items
        ≡ flat_map vertex_record (drop (length map.now.tables.vertices)
        (view level.now).vertices)) }
{
    encode_vertices(alloc, behind(&level.vertices, map.count(Kind::Vertex)))
}

// A copy of the bytes.
fn copied(alloc: Global, bytes: &[u8]) -> Result<Vec<u8>, LumpError>
    ensures { IfOk result (λ v. v.items ≡ bytes.now) }
{
    let mut copy = Vec::new(alloc);
    copy.extend_from_slice(bytes)?;
    Ok(copy)
}

// The bytes of a lump of the level that a build made from the map.
fn lump_of(alloc: Global, map: &Map, level: &Level, lump: BuiltLump) -> Result<Vec<u8>, LumpError>
    ensures { IfOk result (λ v. v.items ≡ built_lump_of map.now.tables (view level.now) lump) }
{
    match lump {
        BuiltLump::Segs => encode_segs(alloc, &level.segs),
        BuiltLump::Ssectors => encode_subs(alloc, &level.subs),
        BuiltLump::Nodes => encode_nodes(alloc, &level.nodes),
        BuiltLump::Reject => copied(alloc, &level.reject),
        BuiltLump::Blockmap => copied(alloc, &level.blockmap),
        BuiltLump::Added => added(alloc, map, level),
    }
}

// Writes the bytes of a lump of the level that a build made from the map.
fn write_lump<W: Write>(
    alloc: Global,
    map: &Map,
    level: &Level,
    lump: BuiltLump,
    writer: &mut W,
) -> Result<(), EditorError>
    ensures { MatchResult result
        (λ _. Appends (W.contents writer.old) (W.contents writer.new)
        (hex_text (built_lump_of map.now.tables (view level.now) lump)))
        (λ e. Unwritten e (W.contents writer.old) (W.contents writer.new)) }
{
    let Ok(bytes) = lump_of(alloc, map, level, lump) else {
        return Err(EditorError::OutOfMemory);
    };
    let Ok(text) = hex_text(alloc, &bytes) else {
        return Err(EditorError::OutOfMemory);
    };
    match writer.write_all(&text) {
        Ok(()) => Ok(()),
        Err(_) => Err(EditorError::WriterFailed),
    }
}

/// Writes the bytes of a lump that a build of this map alone makes, or why the build is refused.
///
/// # Errors
///
/// `OutOfMemory`, with nothing written, or `WriterFailed`.
pub fn write_built<W: Write>(
    alloc: Global,
    map: &Map,
    lump: BuiltLump,
    writer: &mut W,
) -> Result<(), EditorError>
    ensures { WritesBuilt result map.now.tables lump (W.contents writer.old)
        (W.contents writer.new) }
{
    match build_level(alloc, map) {
        Ok(level) => write_lump(alloc, map, &level, lump, writer),
        Err(error) => write_refusal(error, writer),
    }
}
