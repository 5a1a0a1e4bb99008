//! Marks: texts for places of the map.
ghost use Rattle.std.specs.Prelude.{OnOk};
ghost use Rattle.std.specs.Io.KnownBytes.{Appends};
ghost use Rattle.map_svg.specs.Marks.{corner_text, marking, marking_opening, marking_path};
ghost use Rattle.map_svg.specs.Texts.{of_item, of_list};

use crate::places::{Spot, spot_of};
use crate::text::{write_bytes, write_escaped, write_path};
use lump_records::Vertex;
use lump_text::WriterFailed;
use std::io::Write;

/// Where a mark is.
#[derive(Clone, Copy, Debug, PartialEq, Eq)]
pub enum MarkPlace {
    /// In the page's upper left corner, for a text that has no place on the map.
    Corner,
    At(Vertex),
    /// Along the straight line between two places.
    Along(Vertex, Vertex),
}

/// A text for a place of the map.
#[derive(Drop)]
pub struct Mark {
    pub place: MarkPlace,
    pub text: String,
}

// Writes the beginning of the element of mark `n`, up to its title.
#[tactic(auto, unfolding(crate::specs::Marks::marking_opening))]
fn write_marking_opening<W: Write>(n: u64, writer: &mut W) -> Result<(), WriterFailed>
    ensures { OnOk result
        (Appends (W.contents writer.old) (W.contents writer.new) (marking_opening n)) }
{
    write!(writer, "<g id=\"lint{n}\" class=\"lint\">\n<title>")?;
    Ok(())
}

// Ends the title, and writes the path that marks the corner.
fn write_corner<W: Write>(corner: Spot, writer: &mut W) -> Result<(), WriterFailed>
    ensures { OnOk result
        (Appends (W.contents writer.old) (W.contents writer.new) (corner_text corner)) }
{
    let (x, y) = (corner.x, corner.y);
    write!(writer, "</title>\n<path d=\"M{x} {y}m32 32h0\"/>")?;
    Ok(())
}

// Ends the title, and writes the path that marks the place.
fn write_marking_path<W: Write>(
    corner: Spot,
    place: MarkPlace,
    writer: &mut W,
) -> Result<(), WriterFailed>
    ensures { OnOk result
        (Appends (W.contents writer.old) (W.contents writer.new) (marking_path corner place)) }
{
    match place {
        MarkPlace::Corner => write_corner(corner, writer),
        MarkPlace::At(place) => write_path(spot_of(place), spot_of(place), writer),
        MarkPlace::Along(from, to) => write_path(spot_of(from), spot_of(to), writer),
    }
}

// Writes the element of a mark.
#[tactic(auto, unfolding(crate::specs::Marks::marking))]
fn write_mark<W: Write>(
    corner: Spot,
    n: u64,
    mark: &Mark,
    writer: &mut W,
) -> Result<(), WriterFailed>
    ensures { OnOk result
        (Appends (W.contents writer.old) (W.contents writer.new) (marking corner n mark.now)) }
{
    write_marking_opening(n, writer)?;
    write_escaped(mark.text.as_bytes(), writer)?;
    write_marking_path(corner, mark.place, writer)?;
    write_bytes(b"</g>\n", writer)
}

// Writes the element of the mark with the number, if there is one.
fn write_nth<W: Write>(
    marks: &[Mark],
    corner: Spot,
    n: usize,
    writer: &mut W,
) -> Result<(), WriterFailed>
    ensures { OnOk result (Appends (W.contents writer.old) (W.contents writer.new)
        (of_item (marking corner n) marks.now n)) }
{
    match marks.get(n) {
        Some(mark) => write_mark(corner, n as u64, mark, writer),
        None => Ok(()),
    }
}

/// Writes the elements of the marks.
pub(crate) fn write_marks<W: Write>(
    marks: &[Mark],
    corner: Spot,
    writer: &mut W,
) -> Result<(), WriterFailed>
    ensures { OnOk result (Appends (W.contents writer.old) (W.contents writer.new)
        (of_list (marking corner) marks.now)) }
{
    for n in 0..marks.len() {
        match write_nth(marks, corner, n, writer) {
            Ok(()) => {}
            Err(error) => return Err(error),
        }
    }
    Ok(())
}
