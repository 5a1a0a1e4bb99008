//! The margin on the right of the page: a scale, and which colour stands for which heights.
ghost use Rattle.std.specs.Prelude.{◌≤◌, ◌<◌, OnOk};
ghost use Rattle.std.specs.Io.KnownBytes.{Appends};
ghost use Rattle.map_picture.specs.Floors.{floor_heights, step_count};
ghost use Rattle.map_picture.specs.Legend.{colours_text, first_text, last_text, unless_only, legend_opening, legend_text, range_text, row_opening, row_text, rows_text, scale_of_heights, scale_text};

use crate::floors::{Heights, colour_of, first_height, floor_heights, last_height, step_count};
use crate::options::PictureOptions;
use crate::view::{View, right_edge};
use lump_text::WriterFailed;
use map_svg::write_bytes;
use map_tables::Map;
use std::io::Write;

// A bar of 256 units, with its length.
const SCALE: &[u8] = b"<text x=\"1em\" y=\"1.6em\">256 units</text>
<rect class=\"bar\" x=\"1em\" y=\"2.6em\" width=\"256\" height=\".3em\"/>\n";

// Writes the beginning of what is in the margin.
fn write_legend_opening<W: Write>(view: &View, writer: &mut W) -> Result<(), WriterFailed>
    ensures { OnOk result
        (Appends (W.contents writer.old) (W.contents writer.new) (legend_opening view.now)) }
{
    let (right, top) = (right_edge(view), view.top);
    write!(
        writer,
        "<g id=\"legend\" font-size=\"1.6em\" transform=\"translate({right} {top})\">\n"
    )?;
    Ok(())
}

// Writes the scale, if it is asked for.
fn write_scale<W: Write>(grid: bool, writer: &mut W) -> Result<(), WriterFailed>
    ensures { OnOk result
        (Appends (W.contents writer.old) (W.contents writer.new) (scale_text grid)) }
{
    if grid {
        write_bytes(SCALE, writer)
    } else {
        Ok(())
    }
}

// Writes a step's colour, and the beginning of its text.
#[tactic(auto, unfolding(crate::specs::Legend::row_opening))]
fn write_row_opening<W: Write>(row: u32, colour: u32, writer: &mut W) -> Result<(), WriterFailed>
    requires { row ≤ 8 }
    ensures { OnOk result
        (Appends (W.contents writer.old) (W.contents writer.new) (row_opening row colour)) }
{
    let (top, middle) = (6 + 2 * row, 7 + 2 * row);
    write!(
        writer,
        "<rect class=\"floor{colour}\" x=\"1em\" y=\"{top}em\" width=\"2em\" height=\"2em\"/>
<text x=\"3.6em\" y=\"{middle}em\">"
    )?;
    Ok(())
}

// Writes the least height of a step of several.
fn write_first<W: Write>(first: i32, writer: &mut W) -> Result<(), WriterFailed>
    ensures { OnOk result
        (Appends (W.contents writer.old) (W.contents writer.new) (first_text first)) }
{
    write!(writer, "{first} to ")?;
    Ok(())
}

// Writes the least height of a step, unless it is the only one.
fn write_unless_only<W: Write>(first: i32, last: i32, writer: &mut W) -> Result<(), WriterFailed>
    ensures { OnOk result
        (Appends (W.contents writer.old) (W.contents writer.new) (unless_only first last)) }
{
    if first == last {
        Ok(())
    } else {
        write_first(first, writer)
    }
}

// Writes the greatest height of a step, and ends the row.
fn write_last<W: Write>(last: i32, writer: &mut W) -> Result<(), WriterFailed>
    ensures { OnOk result
        (Appends (W.contents writer.old) (W.contents writer.new) (last_text last)) }
{
    write!(writer, "{last}</text>\n")?;
    Ok(())
}

// Writes the heights of a step.
#[tactic(auto, unfolding(crate::specs::Legend::range_text))]
fn write_range<W: Write>(first: i32, last: i32, writer: &mut W) -> Result<(), WriterFailed>
    ensures { OnOk result
        (Appends (W.contents writer.old) (W.contents writer.new) (range_text first last)) }
{
    write_unless_only(first, last, writer)?;
    write_last(last, writer)
}

// Writes the row of a step.
#[tactic(auto, unfolding(crate::specs::Legend::row_text))]
fn write_row<W: Write>(heights: Heights, row: u32, writer: &mut W) -> Result<(), WriterFailed>
    requires { row < step_count heights }
    ensures { OnOk result
        (Appends (W.contents writer.old) (W.contents writer.new) (row_text heights row)) }
{
    let step = step_count(heights) - 1 - row;
    write_row_opening(row, colour_of(heights, step), writer)?;
    write_range(
        first_height(heights, step),
        last_height(heights, step),
        writer,
    )
}

// Writes the rows of all steps, from the greatest heights to the least.
fn write_rows<W: Write>(heights: Heights, writer: &mut W) -> Result<(), WriterFailed>
    ensures { OnOk result
        (Appends (W.contents writer.old) (W.contents writer.new) (rows_text heights)) }
{
    for row in 0..step_count(heights) {
        match write_row(heights, row, writer) {
            Ok(()) => {}
            Err(error) => return Err(error),
        }
    }
    Ok(())
}

// Writes which colour stands for which heights.
#[tactic(auto, unfolding(crate::specs::Legend::scale_of_heights))]
fn write_steps<W: Write>(heights: Heights, writer: &mut W) -> Result<(), WriterFailed>
    ensures { OnOk result
        (Appends (W.contents writer.old) (W.contents writer.new) (scale_of_heights heights)) }
{
    write_bytes(b"<text x=\"1em\" y=\"5em\">floor</text>\n", writer)?;
    write_rows(heights, writer)
}

// Writes which colour stands for which heights, if that is asked for and there is a sector.
fn write_colours<W: Write>(map: &Map, wanted: bool, writer: &mut W) -> Result<(), WriterFailed>
    ensures { OnOk result (Appends (W.contents writer.old) (W.contents writer.new)
        (colours_text wanted map.now.tables)) }
{
    if !wanted {
        return Ok(());
    }
    match floor_heights(map) {
        Some(heights) => write_steps(heights, writer),
        None => Ok(()),
    }
}

/// Writes what is in the margin: the scale, and which colour stands for which heights.
#[tactic(auto, unfolding(crate::specs::Legend::legend_text))]
pub(crate) fn write_legend<W: Write>(
    map: &Map,
    options: PictureOptions,
    view: &View,
    writer: &mut W,
) -> Result<(), WriterFailed>
    ensures { OnOk result (Appends (W.contents writer.old) (W.contents writer.new)
        (legend_text options map.now.tables view.now)) }
{
    write_legend_opening(view, writer)?;
    write_scale(options.grid, writer)?;
    write_colours(map, options.heights, writer)?;
    write_bytes(b"</g>\n", writer)
}
