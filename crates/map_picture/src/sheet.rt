//! The sheet on which a picture with a legend, a grid or a crop is drawn: the frame of the map, and what is beside and
//! under the map.
ghost use Rattle.std.specs.Prelude.{◌≡◌, ◌≤◌, OnOk};
ghost use Rattle.std.specs.Io.KnownBytes.{Appends};
ghost use Rattle.map_picture.specs.Sheet.{around_text, closing_text, fills_text, frame_box, frame_text, frame_view, grid_text, ground_text, margin_text, margin_width, sheet_of, under_text};
ghost use Rattle.map_picture.specs.Style.{sheet_style};

use crate::legend::write_legend;
use crate::options::{PictureOptions, has_margin, is_framed};
use crate::style::SHEET_STYLE;
use crate::view::View;
use lump_text::WriterFailed;
use map_svg::write_bytes;
use map_tables::Map;
use std::io::Write;

// The grid of 64 units: two lines as broad as a map may be, whose dashes are the grid's lines.
const GRID: &[u8] = b"<path class=\"grid\" d=\"M-32768 0H32768M0 -32768V32768\"/>\n";

// The width of the margin on the right of the page.
fn margin_width(step: u32) -> u32
    requires { step ≤ 1000 }
    ensures width { result ≡ margin_width step }
{
    (24 * step).max(288)
}

/// The whole sheet: the part of the plane that the page shows, and the margin, if the picture has one.
pub(crate) fn sheet_of(options: PictureOptions, view: View) -> View
    requires width { view.width ≤ 65663 }
    requires step { view.step ≤ 1000 }
    ensures { result ≡ sheet_of options view }
{
    if !has_margin(options) {
        return view;
    }
    View {
        left: view.left,
        top: view.top,
        width: view.width + margin_width(view.step),
        height: view.height.max(37 * view.step),
        step: view.step,
    }
}

// Writes the style of what only a sheet has.
fn write_style<W: Write>(writer: &mut W) -> Result<(), WriterFailed>
    ensures { OnOk result (Appends (W.contents writer.old) (W.contents writer.new) sheet_style) }
{
    write_bytes(SHEET_STYLE.as_bytes(), writer)
}

// Writes the margin on the right of the page, if the picture has one.
fn write_margin<W: Write>(
    map: &Map,
    options: PictureOptions,
    view: &View,
    writer: &mut W,
) -> Result<(), WriterFailed>
    ensures { OnOk result (Appends (W.contents writer.old) (W.contents writer.new)
        (margin_text options map.now.tables view.now)) }
{
    if has_margin(options) {
        write_legend(map, options, view, writer)
    } else {
        Ok(())
    }
}

// Writes the place and the size of the frame of the map.
fn write_frame_box<W: Write>(view: &View, writer: &mut W) -> Result<(), WriterFailed>
    ensures { OnOk result
        (Appends (W.contents writer.old) (W.contents writer.new) (frame_box view.now)) }
{
    let (left, top, width, height) = (view.left, view.top, view.width, view.height);
    write!(
        writer,
        "<svg x=\"{left}\" y=\"{top}\" width=\"{width}\" height=\"{height}\""
    )?;
    Ok(())
}

// Writes what the frame shows: the same part of the plane.
fn write_frame_view<W: Write>(view: &View, writer: &mut W) -> Result<(), WriterFailed>
    ensures { OnOk result
        (Appends (W.contents writer.old) (W.contents writer.new) (frame_view view.now)) }
{
    let (left, top, width, height) = (view.left, view.top, view.width, view.height);
    write!(writer, " viewBox=\"{left} {top} {width} {height}\">\n")?;
    Ok(())
}

// Writes the beginning of the frame of the map.
#[tactic(auto, unfolding(crate::specs::Sheet::frame_text))]
fn write_frame<W: Write>(view: &View, writer: &mut W) -> Result<(), WriterFailed>
    ensures { OnOk result
        (Appends (W.contents writer.old) (W.contents writer.new) (frame_text view.now)) }
{
    write_frame_box(view, writer)?;
    write_frame_view(view, writer)
}

// Writes the grid, if it is asked for.
fn write_grid<W: Write>(grid: bool, writer: &mut W) -> Result<(), WriterFailed>
    ensures { OnOk result
        (Appends (W.contents writer.old) (W.contents writer.new) (grid_text grid)) }
{
    if grid {
        write_bytes(GRID, writer)
    } else {
        Ok(())
    }
}

// Writes the style of a sheet, the margin, and the beginning of the frame.
#[tactic(auto, unfolding(crate::specs::Sheet::around_text))]
fn write_around<W: Write>(
    map: &Map,
    options: PictureOptions,
    view: &View,
    writer: &mut W,
) -> Result<(), WriterFailed>
    ensures { OnOk result (Appends (W.contents writer.old) (W.contents writer.new)
        (around_text options map.now.tables view.now)) }
{
    write_style(writer)?;
    write_margin(map, options, view, writer)?;
    write_frame(view, writer)
}

// Writes what is round the map and under it, with the text of the filled sectors.
#[tactic(auto, unfolding(crate::specs::Sheet::ground_text))]
fn write_ground<W: Write>(
    map: &Map,
    options: PictureOptions,
    fills: &[u8],
    view: &View,
    writer: &mut W,
) -> Result<(), WriterFailed>
    requires { fills.now ≡ fills_text options.heights map.now.tables }
    ensures { OnOk result (Appends (W.contents writer.old) (W.contents writer.new)
        (ground_text options map.now.tables view.now)) }
{
    write_around(map, options, view, writer)?;
    write_grid(options.grid, writer)?;
    write_bytes(fills, writer)
}

/// Writes what is round the map and under it, if the map has a frame, with the text of the filled sectors.
pub(crate) fn write_under<W: Write>(
    map: &Map,
    options: PictureOptions,
    fills: &[u8],
    view: &View,
    writer: &mut W,
) -> Result<(), WriterFailed>
    requires { fills.now ≡ fills_text options.heights map.now.tables }
    ensures { OnOk result (Appends (W.contents writer.old) (W.contents writer.new)
        (under_text options map.now.tables view.now)) }
{
    if is_framed(options) {
        write_ground(map, options, fills, view, writer)
    } else {
        Ok(())
    }
}

/// Writes the end of the frame, if there is one, and of the picture.
pub(crate) fn write_closing<W: Write>(
    options: PictureOptions,
    writer: &mut W,
) -> Result<(), WriterFailed>
    ensures { OnOk result
        (Appends (W.contents writer.old) (W.contents writer.new) (closing_text options)) }
{
    if is_framed(options) {
        write_bytes(b"</svg>\n</svg>\n", writer)
    } else {
        write_bytes(b"</svg>\n", writer)
    }
}
