//! A vertex of the map as an element of the picture.
ghost use Rattle.std.specs.Prelude.{OnOk};
ghost use Rattle.std.specs.Io.KnownBytes.{Appends};
ghost use Rattle.map_picture.specs.Vertices.{dot_text, vertex_title, vertex_text};

use lump_records::Vertex;
use lump_text::WriterFailed;
use map_svg::{Spot, spot_of};
use std::io::Write;

// Writes the beginning of the element: its id and the dot.
fn write_dot<W: Write>(n: u32, place: Spot, writer: &mut W) -> Result<(), WriterFailed>
    ensures { OnOk result
        (Appends (W.contents writer.old) (W.contents writer.new) (dot_text n place)) }
{
    let (x, y) = (place.x, place.y);
    write!(
        writer,
        "<path id=\"vertex{n}\" class=\"vertex\" d=\"M{x} {y}h0\">"
    )?;
    Ok(())
}

// Writes the title, and ends the element.
fn write_place<W: Write>(n: u32, vertex: Vertex, writer: &mut W) -> Result<(), WriterFailed>
    ensures { OnOk result
        (Appends (W.contents writer.old) (W.contents writer.new) (vertex_title n vertex)) }
{
    let (x, y) = (vertex.x, vertex.y);
    write!(writer, "<title>vertex {n}: {x} {y}</title></path>\n")?;
    Ok(())
}

/// Writes the element of a vertex.
#[tactic(auto, unfolding(crate::specs::Vertices::vertex_text))]
pub(crate) fn write_vertex<W: Write>(
    n: u32,
    vertex: Vertex,
    writer: &mut W,
) -> Result<(), WriterFailed>
    ensures { OnOk result
        (Appends (W.contents writer.old) (W.contents writer.new) (vertex_text n vertex)) }
{
    write_dot(n, spot_of(vertex), writer)?;
    write_place(n, vertex, writer)
}
