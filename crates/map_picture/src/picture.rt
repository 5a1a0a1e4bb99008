//! The call that writes a picture.
ghost use Rattle.std.specs.Prelude.{◌≡◌, ◌≤◌, IfErr, OnOk, flat_map};
ghost use Rattle.std.specs.Io.KnownBytes.{Appends};
ghost use Rattle.map_picture.specs.Numbering.{numbers_text};
ghost use Rattle.map_picture.specs.Picture.{IsNotPictured, element, head_text, opening_text, map_text, map_title, page_corner, page_text, paper_text, part_text, picture_of};
ghost use Rattle.map_picture.specs.Sheet.{fills_text};
ghost use Rattle.map_picture.specs.Style.{style_text};
ghost use Rattle.map_picture.specs.View.{view_of};

use crate::fills::fills_text;
use crate::lines::write_line;
use crate::numbers::numbers_text;
use crate::options::{PictureError, PictureOptions};
use crate::parts::{Part, kind_of, picture_parts};
use crate::sheet::{sheet_of, write_closing, write_under};
use crate::style::STYLE;
use crate::things::write_thing;
use crate::vertices::write_vertex;
use crate::view::{View, view_of};
use lump_records::Name8;
use lump_text::WriterFailed;
use map_svg::{Overlay, Spot, write_bytes, write_overlay};
use map_tables::Map;
use std::alloc::Global;
use std::io::Write;

// Writes the beginning of the picture, with the part of the plane that it shows.
fn write_opening<W: Write>(view: &View, writer: &mut W) -> Result<(), WriterFailed>
    ensures { OnOk result
        (Appends (W.contents writer.old) (W.contents writer.new) (opening_text view.now)) }
{
    let (left, top, width, height, step) = (
        view.left,
        view.top,
        view.width,
        view.height,
        view.step,
    );
    write!(
        writer,
        "<svg class=\"leveled\" xmlns=\"http://www.w3.org/2000/svg\" version=\"1.1\" width=\"100%\"
viewBox=\"{left} {top} {width} {height}\" font-size=\"{step}\">
<title>"
    )?;
    Ok(())
}

// Writes the page on which the map is drawn.
fn write_page<W: Write>(view: &View, writer: &mut W) -> Result<(), WriterFailed>
    ensures { OnOk result
        (Appends (W.contents writer.old) (W.contents writer.new) (page_text view.now)) }
{
    let (left, top, width, height) = (view.left, view.top, view.width, view.height);
    write!(
        writer,
        "<rect class=\"page\" x=\"{left}\" y=\"{top}\" width=\"{width}\" height=\"{height}\"/>\n"
    )?;
    Ok(())
}

// Writes the map's name, and ends the title.
#[tactic(auto, unfolding(crate::specs::Picture::map_title))]
fn write_name<W: Write>(name: Name8, writer: &mut W) -> Result<(), WriterFailed>
    ensures { OnOk result
        (Appends (W.contents writer.old) (W.contents writer.new) (map_title name)) }
{
    write_bytes(name.text(), writer)?;
    write_bytes(b"</title>\n", writer)
}

// Writes the style.
fn write_style<W: Write>(writer: &mut W) -> Result<(), WriterFailed>
    ensures { OnOk result (Appends (W.contents writer.old) (W.contents writer.new) style_text) }
{
    write_bytes(STYLE.as_bytes(), writer)
}

// Writes the style and the page.
#[tactic(auto, unfolding(crate::specs::Picture::paper_text))]
fn write_paper<W: Write>(view: &View, writer: &mut W) -> Result<(), WriterFailed>
    ensures { OnOk result
        (Appends (W.contents writer.old) (W.contents writer.new) (paper_text view.now)) }
{
    write_style(writer)?;
    write_page(view, writer)
}

// Writes the head: the view, the map's name, the style and the page.
#[tactic(auto, unfolding(crate::specs::Picture::head_text))]
fn write_head<W: Write>(name: Name8, view: &View, writer: &mut W) -> Result<(), WriterFailed>
    ensures { OnOk result
        (Appends (W.contents writer.old) (W.contents writer.new) (head_text view.now name)) }
{
    write_opening(view, writer)?;
    write_name(name, writer)?;
    write_paper(view, writer)
}

// Writes the element of a part for the item with the number, if there is one.
fn write_element<W: Write>(
    map: &Map,
    step: u32,
    part: Part,
    n: u32,
    writer: &mut W,
) -> Result<(), WriterFailed>
    ensures { OnOk result (Appends (W.contents writer.old) (W.contents writer.new)
        (element map.now.tables step part n)) }
{
    match part {
        Part::Lines => match map.line(n) {
            Some(line) => write_line(map, step, n, &line, writer),
            None => Ok(()),
        },
        Part::Things => match map.thing(n) {
            Some(thing) => write_thing(n, &thing, writer),
            None => Ok(()),
        },
        Part::Vertices => match map.vertex(n) {
            Some(vertex) => write_vertex(n, vertex, writer),
            None => Ok(()),
        },
    }
}

// Writes the elements of a part, item by item.
fn write_items<W: Write>(
    map: &Map,
    step: u32,
    part: Part,
    writer: &mut W,
) -> Result<(), WriterFailed>
    ensures { OnOk result (Appends (W.contents writer.old) (W.contents writer.new)
        (part_text map.now.tables step part)) }
{
    for n in 0..map.count(kind_of(part)) {
        match write_element(map, step, part, n, writer) {
            Ok(()) => {}
            Err(error) => return Err(error),
        }
    }
    Ok(())
}

// Writes the parts.
fn write_parts<W: Write>(
    map: &Map,
    step: u32,
    parts: &[Part],
    writer: &mut W,
) -> Result<(), WriterFailed>
    ensures { OnOk result (Appends (W.contents writer.old) (W.contents writer.new)
        (flat_map (part_text map.now.tables step) parts.now)) }
{
    for part in parts {
        match write_items(map, step, *part, writer) {
            Ok(()) => {}
            Err(error) => return Err(error),
        }
    }
    Ok(())
}

// The upper left corner of the page.
fn page_corner(view: &View) -> Spot
    ensures { result ≡ page_corner view.now }
{
    Spot {
        x: view.left,
        y: view.top,
    }
}

// Writes the map: its parts, the text of the numbers, and the overlay.
#[tactic(auto, unfolding(crate::specs::Picture::map_text))]
fn write_map<W: Write>(
    map: &Map,
    options: PictureOptions,
    numbers: &[u8],
    view: &View,
    overlay: &Overlay,
    writer: &mut W,
) -> Result<(), WriterFailed>
    requires { numbers.now ≡ numbers_text options.numbers map.now.tables view.now }
    ensures { OnOk result (Appends (W.contents writer.old) (W.contents writer.new)
        (map_text options.numbers map.now.tables view.now overlay.now)) }
{
    write_parts(map, view.step, picture_parts(), writer)?;
    write_bytes(numbers, writer)?;
    write_overlay(overlay, view.step, page_corner(view), writer)
}

// Writes the picture, with the texts of the filled sectors and of the numbers.
fn write_with<W: Write>(
    map: &Map,
    view: View,
    fills: &[u8],
    numbers: &[u8],
    options: PictureOptions,
    overlay: &Overlay,
    writer: &mut W,
) -> Result<(), WriterFailed>
    requires view { view ≡ view_of options.crop map.now.tables }
    requires width { view.width ≤ 65663 }
    requires step { view.step ≤ 1000 }
    requires fills { fills.now ≡ fills_text options.heights map.now.tables }
    requires numbers { numbers.now ≡ numbers_text options.numbers map.now.tables view }
    ensures { OnOk result (Appends (W.contents writer.old) (W.contents writer.new)
        (picture_of options map.now.tables overlay.now)) }
{
    write_head(map.name(), &sheet_of(options, view), writer)?;
    write_under(map, options, fills, &view, writer)?;
    write_map(map, options, numbers, &view, overlay, writer)?;
    write_closing(options, writer)
}

/// Writes the map as an SVG 1.1 picture: a title and a style, then an element for each line, each thing and each
/// vertex, as many numbers as fit if the options ask for them, and the overlay. Under the lines are the grid and the
/// closed sectors, and beside them a scale and a legend, each if the options ask for it. Only for `heights` and
/// `numbers` it allocates memory. If the writer is a file, put a buffer round it.
///
/// # Errors
///
/// `OutOfMemory`: nothing was written; only with `heights` or `numbers`. `WriterFailed`: any part of the picture may
/// have been written.
pub fn write_picture<W: Write>(
    alloc: Global,
    map: &Map,
    options: PictureOptions,
    overlay: &Overlay,
    writer: &mut W,
) -> Result<(), PictureError>
    ensures written { OnOk result (Appends (W.contents writer.old) (W.contents writer.new)
        (picture_of options map.now.tables overlay.now)) }
    ensures refused { IfErr result (IsNotPictured options
        (W.contents writer.old) (W.contents writer.new)) }
{
    let view = view_of(map, options.crop);
    let Ok(fills) = fills_text(alloc, map, options.heights) else {
        return Err(PictureError::OutOfMemory);
    };
    let Ok(numbers) = numbers_text(alloc, map, options.numbers, &view) else {
        return Err(PictureError::OutOfMemory);
    };
    match write_with(map, view, &fills, &numbers, options, overlay, writer) {
        Ok(()) => Ok(()),
        Err(_) => Err(PictureError::WriterFailed),
    }
}
