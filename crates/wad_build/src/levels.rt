//! Writes levels as the lumps of a PWAD.
ghost use Rattle.std.specs.Prelude.{◌≡◌, All, OnOk};
ghost use Rattle.std.specs.Io.KnownBytes.{Appends};
ghost use Rattle.wad_file.specs.Lumps.{all_bytes};
ghost use Rattle.wad_build.specs.Wad.{AreParts, IsCoded, IsDrawnCoded, IsTreeCoded, IsLastCoded};
ghost use Rattle.wad_build.specs.Wad.{all_lumps, drawn_lumps, tree_lumps, last_lumps, lumps_of, level_part, wad_bytes};
ghost use Rattle.wad_build.specs.Views.{built_view, level_parts, sized_levels};
ghost use Rattle.wad_build.specs.Sizes.{AreSized};

use crate::drawn::{write_lines, write_sectors, write_sides, write_things};
use crate::lists::{write_nodes, write_segs, write_subs, write_vertices};
use crate::visibility::reject_len;
use lump_records::Name8;
use lump_text::WriterFailed;
use map_tables::Map;
use std::io::Write;
use tree_nodes::Built;
use wad_file::{LumpList, write_zeros};

/// A level that was built: its map, how many sectors that has, its tree, and the bytes of its BLOCKMAP. What is drawn
/// stays in the map, and is read from there when the level is written.
#[derive(Drop)]
pub struct BuiltLevel<'a> {
    pub map: &'a Map,
    pub sectors: u16,
    pub tree: Built,
    pub blockmap: Vec<u8>,
}

/// A level and the name of its marker.
#[derive(Drop)]
pub struct NamedLevel<'a> {
    pub name: Name8,
    pub level: BuiltLevel<'a>,
}

// Writes the lumps before the tree: things, lines, sides, vertices.
fn write_drawn<W: Write>(level: &BuiltLevel<'_>, writer: &mut W) -> Result<(), WriterFailed>
    ensures lumps { OnOk result (Appends (W.contents writer.old) (W.contents writer.new)
        (all_bytes (drawn_lumps (built_view level.now)))) }
    ensures coded { OnOk result (IsDrawnCoded (built_view level.now)) }
{
    write_things(level.map, writer)?;
    write_lines(level.map, writer)?;
    write_sides(level.map, writer)?;
    write_vertices(&level.tree.vertices, writer)?;
    Ok(())
}

// Writes the lumps of the tree: segs, subsectors, nodes.
fn write_tree<W: Write>(level: &BuiltLevel<'_>, writer: &mut W) -> Result<(), WriterFailed>
    ensures lumps { OnOk result (Appends (W.contents writer.old) (W.contents writer.new)
        (all_bytes (tree_lumps (built_view level.now)))) }
    ensures coded { OnOk result (IsTreeCoded (built_view level.now)) }
{
    write_segs(&level.tree.segs, writer)?;
    write_subs(&level.tree.subs, writer)?;
    write_nodes(&level.tree.nodes, writer)?;
    Ok(())
}

// Writes the lumps after the tree: sectors, REJECT, BLOCKMAP.
fn write_last<W: Write>(level: &BuiltLevel<'_>, writer: &mut W) -> Result<(), WriterFailed>
    ensures lumps { OnOk result (Appends (W.contents writer.old) (W.contents writer.new)
        (all_bytes (last_lumps (built_view level.now)))) }
    ensures coded { OnOk result (IsLastCoded (built_view level.now)) }
{
    write_sectors(level.map, writer)?;
    write_zeros(reject_len(level.sectors), writer)?;
    writer.write_all(&level.blockmap)?;
    Ok(())
}

// Writes the ten lumps of a level, which stand behind its empty marker.
fn write_level<W: Write>(named: &NamedLevel<'_>, writer: &mut W) -> Result<(), WriterFailed>
    ensures lumps { OnOk result (Appends (W.contents writer.old) (W.contents writer.new)
        (all_bytes (lumps_of (level_part named.now.name (built_view named.now.level))))) }
    ensures coded { OnOk result (IsCoded (built_view named.now.level)) }
{
    write_drawn(&named.level, writer)?;
    write_tree(&named.level, writer)?;
    write_last(&named.level, writer)?;
    Ok(())
}

// Writes the lumps of the levels, one level after another.
fn write_levels<W: Write>(levels: &[NamedLevel<'_>], writer: &mut W) -> Result<(), WriterFailed>
    ensures lumps { OnOk result (Appends (W.contents writer.old) (W.contents writer.new)
        (all_bytes (all_lumps (level_parts levels.now)))) }
    ensures coded { OnOk result (All (λ l. IsCoded (built_view l.level)) levels.now) }
{
    for n in 0..levels.len() {
        let named = &levels[n];
        write_level(named, writer)?;
    }
    Ok(())
}

/// Writes the PWAD of the levels, whose lumps the list has: its header, the lumps, and its directory. No call asks for
/// memory.
pub fn write_pwad<W: Write>(
    list: &LumpList<'_>,
    levels: &[NamedLevel<'_>],
    writer: &mut W,
) -> Result<(), WriterFailed>
    requires listed { list.now ≡ sized_levels levels.now }
    requires sized { All (λ l. AreSized (built_view l.level)) levels.now }
    requires parts { AreParts (level_parts levels.now) }
    ensures bytes { OnOk result (Appends (W.contents writer.old) (W.contents writer.new)
        (wad_bytes (all_lumps (level_parts levels.now)))) }
    ensures coded { OnOk result (All (λ l. IsCoded (built_view l.level)) levels.now) }
{
    list.write_header(b"PWAD", writer)?;
    write_levels(levels, writer)?;
    list.write_directory(writer)?;
    Ok(())
}
