//! Writes the lumps of what a map draws, item by item from the map's tables.
ghost use Rattle.std.specs.Prelude.{◌≡◌, flat_map, OnOk};
ghost use Rattle.std.specs.Io.KnownBytes.{Appends};
ghost use Rattle.lump_records.specs.Lumps.{records_of};
ghost use Rattle.lump_records.specs.Records.{line_at, line_record, sector_at, sector_record, side_at, side_record, thing_at, thing_record};

use lump_records::{line_bytes, sector_bytes, side_bytes, thing_bytes};
use lump_text::WriterFailed;
use map_tables::{Kind, Map};
use std::io::Write;
use wad_file::ByteBuffer;

/// Writes the bytes of the map's things, by number.
pub fn write_things<W: Write>(map: &Map, writer: &mut W) -> Result<(), WriterFailed>
    ensures lump { OnOk result (Appends (W.contents writer.old) (W.contents writer.new)
        (flat_map thing_record map.now.tables.things)) }
    ensures inverse { OnOk result
        (records_of thing_at 10 (flat_map thing_record map.now.tables.things)
        ≡ map.now.tables.things) }
{
    let mut buffer = ByteBuffer::new();
    for n in 0..map.count(Kind::Thing) {
        if let Some(thing) = map.thing(n) {
            buffer.put(&thing_bytes(&thing), writer)?;
        }
    }
    buffer.send(writer)?;
    Ok(())
}

/// Writes the bytes of the map's lines, by number.
pub fn write_lines<W: Write>(map: &Map, writer: &mut W) -> Result<(), WriterFailed>
    ensures lump { OnOk result (Appends (W.contents writer.old) (W.contents writer.new)
        (flat_map line_record map.now.tables.lines)) }
    ensures inverse { OnOk result
        (records_of line_at 14 (flat_map line_record map.now.tables.lines)
        ≡ map.now.tables.lines) }
{
    let mut buffer = ByteBuffer::new();
    for n in 0..map.count(Kind::Line) {
        if let Some(line) = map.line(n) {
            buffer.put(&line_bytes(&line), writer)?;
        }
    }
    buffer.send(writer)?;
    Ok(())
}

/// Writes the bytes of the map's sides, by number.
pub fn write_sides<W: Write>(map: &Map, writer: &mut W) -> Result<(), WriterFailed>
    ensures lump { OnOk result (Appends (W.contents writer.old) (W.contents writer.new)
        (flat_map side_record map.now.tables.sides)) }
    ensures inverse { OnOk result
        (records_of side_at 30 (flat_map side_record map.now.tables.sides)
        ≡ map.now.tables.sides) }
{
    let mut buffer = ByteBuffer::new();
    for n in 0..map.count(Kind::Side) {
        if let Some(side) = map.side(n) {
            buffer.put(&side_bytes(&side), writer)?;
        }
    }
    buffer.send(writer)?;
    Ok(())
}

/// Writes the bytes of the map's sectors, by number.
pub fn write_sectors<W: Write>(map: &Map, writer: &mut W) -> Result<(), WriterFailed>
    ensures lump { OnOk result (Appends (W.contents writer.old) (W.contents writer.new)
        (flat_map sector_record map.now.tables.sectors)) }
    ensures inverse { OnOk result
        (records_of sector_at 26 (flat_map sector_record map.now.tables.sectors)
        ≡ map.now.tables.sectors) }
{
    let mut buffer = ByteBuffer::new();
    for n in 0..map.count(Kind::Sector) {
        if let Some(sector) = map.sector(n) {
            buffer.put(&sector_bytes(&sector), writer)?;
        }
    }
    buffer.send(writer)?;
    Ok(())
}
