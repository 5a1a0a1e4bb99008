//! The overlay of a picture.
ghost use Rattle.std.specs.Prelude.{OnOk};
ghost use Rattle.std.specs.Io.KnownBytes.{Appends};
ghost use Rattle.map_svg.specs.Overlays.{overlay_text};

use crate::marks::{Mark, write_marks};
use crate::nodes::write_nodes;
use crate::places::Spot;
use crate::subsectors::write_subs;
use lump_records::{Node, Seg, Sub, Vertex};
use lump_text::WriterFailed;
use std::io::Write;

/// The overlay of a picture: a level's tree, as its four lists, and marks. Each list may be empty.
#[derive(Drop)]
pub struct Overlay {
    pub vertices: Vec<Vertex>,
    pub segs: Vec<Seg>,
    pub subs: Vec<Sub>,
    pub nodes: Vec<Node>,
    pub marks: Vec<Mark>,
}

/// Writes the overlay of a picture: an element for each subsector, each node and each mark. Each seg is drawn a
/// third of `step` to its right, and a mark without a place 32 units inside the corner.
///
/// # Errors
///
/// `WriterFailed` (38): any part of it may have been written.
pub fn write_overlay<W: Write>(
    overlay: &Overlay,
    step: u32,
    corner: Spot,
    writer: &mut W,
) -> Result<(), WriterFailed>
    ensures { OnOk result (Appends (W.contents writer.old) (W.contents writer.new)
        (overlay_text step corner overlay.now)) }
{
    write_subs(overlay, step, writer)?;
    write_nodes(&overlay.nodes, writer)?;
    write_marks(&overlay.marks, corner, writer)
}
