//! Writes the lists of a level's tree, record by record.
ghost use Rattle.std.specs.Prelude.{◌≡◌, flat_map, OnOk};
ghost use Rattle.std.specs.Io.KnownBytes.{Appends};
ghost use Rattle.lump_records.specs.Lumps.{records_of};
ghost use Rattle.lump_records.specs.Records.{node_at, node_record, seg_at, seg_record, sub_at, sub_record, vertex_at, vertex_record};

use lump_records::{Node, Seg, Sub, Vertex, node_bytes, seg_bytes, sub_bytes, vertex_bytes};
use lump_text::WriterFailed;
use std::io::Write;
use wad_file::ByteBuffer;

/// Writes the bytes of the vertices.
pub fn write_vertices<W: Write>(vertices: &[Vertex], writer: &mut W) -> Result<(), WriterFailed>
    ensures lump { OnOk result (Appends (W.contents writer.old) (W.contents writer.new)
        (flat_map vertex_record vertices.now)) }
    ensures inverse { OnOk result
        (records_of vertex_at 4 (flat_map vertex_record vertices.now) ≡ vertices.now) }
{
    let mut buffer = ByteBuffer::new();
    for n in 0..vertices.len() {
        let vertex = &vertices[n];
        buffer.put(&vertex_bytes(vertex), writer)?;
    }
    buffer.send(writer)?;
    Ok(())
}

/// Writes the bytes of the segs.
pub fn write_segs<W: Write>(segs: &[Seg], writer: &mut W) -> Result<(), WriterFailed>
    ensures lump { OnOk result (Appends (W.contents writer.old) (W.contents writer.new)
        (flat_map seg_record segs.now)) }
    ensures inverse { OnOk result
        (records_of seg_at 12 (flat_map seg_record segs.now) ≡ segs.now) }
{
    let mut buffer = ByteBuffer::new();
    for n in 0..segs.len() {
        let seg = &segs[n];
        buffer.put(&seg_bytes(seg), writer)?;
    }
    buffer.send(writer)?;
    Ok(())
}

/// Writes the bytes of the subsectors.
pub fn write_subs<W: Write>(subs: &[Sub], writer: &mut W) -> Result<(), WriterFailed>
    ensures lump { OnOk result (Appends (W.contents writer.old) (W.contents writer.new)
        (flat_map sub_record subs.now)) }
    ensures inverse { OnOk result
        (records_of sub_at 4 (flat_map sub_record subs.now) ≡ subs.now) }
{
    let mut buffer = ByteBuffer::new();
    for n in 0..subs.len() {
        let sub = &subs[n];
        buffer.put(&sub_bytes(sub), writer)?;
    }
    buffer.send(writer)?;
    Ok(())
}

/// Writes the bytes of the nodes.
pub fn write_nodes<W: Write>(nodes: &[Node], writer: &mut W) -> Result<(), WriterFailed>
    ensures lump { OnOk result (Appends (W.contents writer.old) (W.contents writer.new)
        (flat_map node_record nodes.now)) }
    ensures inverse { OnOk result
        (records_of node_at 28 (flat_map node_record nodes.now) ≡ nodes.now) }
{
    let mut buffer = ByteBuffer::new();
    for n in 0..nodes.len() {
        let node = &nodes[n];
        buffer.put(&node_bytes(node), writer)?;
    }
    buffer.send(writer)?;
    Ok(())
}
