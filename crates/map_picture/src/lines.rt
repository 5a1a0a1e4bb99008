//! A line of the map as an element of the picture.
ghost use Rattle.std.specs.Prelude.{◌≡◌, OnOk};
ghost use Rattle.std.specs.Io.KnownBytes.{Appends};
ghost use Rattle.map_picture.specs.Lines.{ends_text, fields_text, left_side_text, left_text, line_text, special_class, tick_text, title_text, width_class};

use crate::items::sector_of;
use lump_records::Line;
use lump_text::WriterFailed;
use map_svg::{Shift, Spot, middle_of, right_of, spot_of, write_bytes, write_path};
use map_tables::Map;
use std::io::Write;

// The class that a line has by its flags.
fn width_class(line: &Line) -> &'static str
    ensures { result.now ≡ width_class line.now }
{
    if line.is_two_sided() { "two" } else { "one" }
}

// The class that a line has by its special.
fn special_class(line: &Line) -> &'static str
    ensures { result.now ≡ special_class line.now }
{
    if line.special == 0 { "" } else { " special" }
}

// Writes the beginning of the element: its id, its classes, and the line's vertices.
fn write_ends<W: Write>(n: u32, line: &Line, writer: &mut W) -> Result<(), WriterFailed>
    ensures { OnOk result
        (Appends (W.contents writer.old) (W.contents writer.new) (ends_text n line.now)) }
{
    let (width, special, v1, v2) = (width_class(line), special_class(line), line.v1, line.v2);
    write!(
        writer,
        "<g id=\"line{n}\" class=\"{width}{special}\">\n<title>line {n}: vertices {v1} {v2}"
    )?;
    Ok(())
}

// Writes a line's flags, special, tag and right side.
fn write_fields<W: Write>(map: &Map, line: &Line, writer: &mut W) -> Result<(), WriterFailed>
    ensures { OnOk result (Appends (W.contents writer.old) (W.contents writer.new)
        (fields_text map.now.tables line.now)) }
{
    let (flags, special, tag, right) = (line.flags, line.special, line.tag, line.right);
    let sector = sector_of(map, right);
    write!(
        writer,
        ", flags {flags}, special {special}, tag {tag}, right side {right} (sector {sector})"
    )?;
    Ok(())
}

// Writes a left side and its sector.
#[tactic(auto, unfolding(crate::specs::Lines::left_side_text))]
fn write_left_side<W: Write>(left: u16, sector: u16, writer: &mut W) -> Result<(), WriterFailed>
    ensures { OnOk result
        (Appends (W.contents writer.old) (W.contents writer.new) (left_side_text left sector)) }
{
    write!(writer, ", left side {left} (sector {sector})")?;
    Ok(())
}

// Writes a line's left side, if it has one.
#[tactic(auto, unfolding(crate::specs::Lines::left_text))]
fn write_left<W: Write>(map: &Map, line: &Line, writer: &mut W) -> Result<(), WriterFailed>
    ensures { OnOk result (Appends (W.contents writer.old) (W.contents writer.new)
        (left_text map.now.tables line.now)) }
{
    if line.has_left() {
        write_left_side(line.left, sector_of(map, line.left), writer)
    } else {
        write_bytes(b", no left side", writer)
    }
}

// Writes the beginning of the element and its title.
#[tactic(auto, unfolding(crate::specs::Lines::title_text))]
fn write_title<W: Write>(map: &Map, n: u32, line: &Line, writer: &mut W) -> Result<(), WriterFailed>
    ensures { OnOk result (Appends (W.contents writer.old) (W.contents writer.new)
        (title_text map.now.tables n line.now)) }
{
    write_ends(n, line, writer)?;
    write_fields(map, line, writer)?;
    write_left(map, line, writer)
}

// Writes the tick, and ends the element.
fn write_tick<W: Write>(middle: Spot, right: Shift, writer: &mut W) -> Result<(), WriterFailed>
    ensures { OnOk result
        (Appends (W.contents writer.old) (W.contents writer.new) (tick_text middle right)) }
{
    let (x, y, dx, dy) = (middle.x, middle.y, right.dx, right.dy);
    write!(
        writer,
        "<path class=\"tick\" d=\"M{x} {y}l{dx} {dy}\"/></g>\n"
    )?;
    Ok(())
}

/// Writes the element of a line.
#[tactic(auto, unfolding(crate::specs::Lines::line_text))]
pub(crate) fn write_line<W: Write>(
    map: &Map,
    step: u32,
    n: u32,
    line: &Line,
    writer: &mut W,
) -> Result<(), WriterFailed>
    ensures { OnOk result (Appends (W.contents writer.old) (W.contents writer.new)
        (line_text map.now.tables step n line.now)) }
{
    let (from, to) = map.ends_of(line);
    write_title(map, n, line, writer)?;
    write_path(spot_of(from), spot_of(to), writer)?;
    write_tick(middle_of(from, to), right_of(from, to, step), writer)
}
