//! The numbers of sectors, lines, vertices and things as texts of the picture.
ghost use Rattle.std.specs.Prelude.{◌≡◌, ◌≤◌, ◌-◌, ◌+ℤ◌, ◌-ℤ◌, ◌++◌, pos, flat_map, length, IfErr, IfOk, OnOk, true};
ghost use Rattle.std.specs.Io.KnownBytes.{Appends};
ghost use Rattle.map_picture.specs.Numbers.{anchor_text, beside_text, number_text};
ghost use Rattle.map_picture.specs.Numbering.{are_or_is, group_opening, group_text, note_count, note_opening, note_text, number_class, numbering_text, numbers_text, placed_number};
ghost use Rattle.map_picture.specs.Labels.{number_size};
ghost use Rattle.map_picture.specs.Placing.{left_out, placed_numbers};

use crate::labels::{Label, Numbered, all_labels, number_size};
use crate::options::PictureError;
use crate::placing::{Placed, place_fitting};
use crate::view::View;
use lump_text::WriterFailed;
use map_svg::{Shift, Spot, write_bytes};
use map_tables::Map;
use std::alloc::Global;
use std::io::Write;

// Writes the beginning of a number's text: its class, and the place beside which it is.
fn write_anchor<W: Write>(class: &str, place: Spot, writer: &mut W) -> Result<(), WriterFailed>
    ensures { OnOk result
        (Appends (W.contents writer.old) (W.contents writer.new) (anchor_text class.now place)) }
{
    let (x, y) = (place.x, place.y);
    write!(writer, "<text class=\"{class}\" x=\"{x}\" y=\"{y}\"")?;
    Ok(())
}

// Writes the vector from the place, and the number.
fn write_beside<W: Write>(shift: Shift, n: u32, writer: &mut W) -> Result<(), WriterFailed>
    ensures { OnOk result
        (Appends (W.contents writer.old) (W.contents writer.new) (beside_text shift n)) }
{
    let (dx, dy) = (shift.dx, shift.dy);
    write!(writer, " dx=\"{dx}\" dy=\"{dy}\">{n}</text>\n")?;
    Ok(())
}

// Writes a number beside a place.
#[tactic(auto, unfolding(crate::specs::Numbers::number_text))]
fn write_number<W: Write>(
    class: &str,
    place: Spot,
    shift: Shift,
    n: u32,
    writer: &mut W,
) -> Result<(), WriterFailed>
    ensures { OnOk result (Appends (W.contents writer.old) (W.contents writer.new)
        (number_text class.now place shift n)) }
{
    write_anchor(class, place, writer)?;
    write_beside(shift, n, writer)
}

// The class of a number.
fn number_class(item: Numbered) -> &'static str
    ensures { result.now ≡ number_class item }
{
    match item {
        Numbered::Sector => "of-sector",
        Numbered::Line => "of-line",
        Numbered::Vertex => "of-vertex",
        Numbered::Thing => "of-thing",
    }
}

// Writes a number where it is placed.
fn write_placed<W: Write>(placed: &Placed, writer: &mut W) -> Result<(), WriterFailed>
    ensures { OnOk result
        (Appends (W.contents writer.old) (W.contents writer.new) (placed_number placed.now)) }
{
    write_number(
        number_class(placed.item),
        placed.place,
        placed.shift,
        placed.n,
        writer,
    )
}

// Writes the numbers where they are placed.
fn write_all<W: Write>(placed: &[Placed], writer: &mut W) -> Result<(), WriterFailed>
    ensures { OnOk result (Appends (W.contents writer.old) (W.contents writer.new)
        (flat_map placed_number placed.now)) }
{
    for number in placed {
        match write_placed(number, writer) {
            Ok(()) => {}
            Err(error) => return Err(error),
        }
    }
    Ok(())
}

// Writes the beginning of the numbers' group, with the size of their text.
#[tactic(auto, unfolding(crate::specs::Numbering::group_opening))]
fn write_group_opening<W: Write>(size: u32, writer: &mut W) -> Result<(), WriterFailed>
    ensures { OnOk result
        (Appends (W.contents writer.old) (W.contents writer.new) (group_opening size)) }
{
    write!(writer, "<g id=\"numbers\" font-size=\"{size}\">\n")?;
    Ok(())
}

// Writes the group of the numbers.
#[tactic(auto, unfolding(crate::specs::Numbering::group_text))]
fn write_group<W: Write>(size: u32, placed: &[Placed], writer: &mut W) -> Result<(), WriterFailed>
    ensures { OnOk result
        (Appends (W.contents writer.old) (W.contents writer.new) (group_text size placed.now)) }
{
    write_group_opening(size, writer)?;
    write_all(placed, writer)?;
    write_bytes(b"</g>\n", writer)
}

// Where the note begins.
fn note_left(view: &View) -> i64
    ensures { result ≡ view.now.left +ℤ pos view.now.step }
{
    i64::from(view.left) + i64::from(view.step)
}

// How far down the note is.
fn note_down(view: &View) -> i64
    ensures { result ≡ (view.now.top +ℤ pos view.now.height) -ℤ pos view.now.step }
{
    i64::from(view.top) + i64::from(view.height) - i64::from(view.step)
}

// Writes the beginning of the note.
fn write_note_opening<W: Write>(view: &View, writer: &mut W) -> Result<(), WriterFailed>
    ensures { OnOk result
        (Appends (W.contents writer.old) (W.contents writer.new) (note_opening view.now)) }
{
    let (x, y) = (note_left(view), note_down(view));
    write!(writer, "<text class=\"left-out\" x=\"{x}\" y=\"{y}\">")?;
    Ok(())
}

// What is said of one number, or of several.
fn are_or_is(count: u64) -> &'static str
    ensures { result.now ≡ are_or_is count }
{
    if count == 1 {
        " number is"
    } else {
        " numbers are"
    }
}

// Writes how many numbers are left out, and ends the note.
fn write_note_count<W: Write>(count: u64, writer: &mut W) -> Result<(), WriterFailed>
    ensures { OnOk result
        (Appends (W.contents writer.old) (W.contents writer.new) (note_count count)) }
{
    let said = are_or_is(count);
    write!(
        writer,
        "{count}{said} left out: look at a part with --crop</text>\n"
    )?;
    Ok(())
}

// Writes how many numbers are left out, if any is.
#[tactic(auto, unfolding(crate::specs::Numbering::note_text))]
fn write_note<W: Write>(view: &View, count: u64, writer: &mut W) -> Result<(), WriterFailed>
    ensures { OnOk result
        (Appends (W.contents writer.old) (W.contents writer.new) (note_text view.now count)) }
{
    if count == 0 {
        return Ok(());
    }
    write_note_opening(view, writer)?;
    write_note_count(count, writer)
}

// Writes the numbers, and how many are left out.
#[tactic(auto, unfolding(crate::specs::Numbering::numbering_text))]
fn write_numbering<W: Write>(
    size: u32,
    view: &View,
    placed: &[Placed],
    count: u64,
    writer: &mut W,
) -> Result<(), WriterFailed>
    ensures { OnOk result (Appends (W.contents writer.old) (W.contents writer.new)
        (numbering_text size view.now placed.now count)) }
{
    write_group(size, placed, writer)?;
    write_note(view, count, writer)
}

// How many of the numbers that are wanted are left out.
fn left_out_count(labels: &[Label], placed: &[Placed]) -> u64
    ensures { result ≡ length labels.now - length placed.now }
{
    labels.len().saturating_sub(placed.len()) as u64
}

// Appends the numbers of the map, and how many are left out, to a text.
fn add_numbers(
    alloc: Global,
    map: &Map,
    view: &View,
    text: &mut Vec<u8>,
) -> Result<(), PictureError>
    requires { view.now.step ≤ 1000 }
    ensures { OnOk result (text.new.items ≡ text.old.items
        ++ numbering_text (number_size map.now.tables view.now) view.now
        (placed_numbers map.now.tables view.now) (left_out map.now.tables view.now)) }
{
    let size = number_size(map, view);
    let labels = all_labels(alloc, map, view, size)?;
    let placed = place_fitting(alloc, size, view, &labels)?;
    let count = left_out_count(&labels, &placed);
    match write_numbering(size, view, &placed, count, text) {
        Ok(()) => Ok(()),
        Err(_) => Err(PictureError::OutOfMemory),
    }
}

/// The text of the numbers, if they are asked for.
pub(crate) fn numbers_text(
    alloc: Global,
    map: &Map,
    wanted: bool,
    view: &View,
) -> Result<Vec<u8>, PictureError>
    requires { view.now.step ≤ 1000 }
    ensures text { IfOk result (λ text. text.items
        ≡ numbers_text wanted map.now.tables view.now) }
    ensures memory { IfErr result (λ _. wanted ≡ true) }
{
    let mut text = Vec::new(alloc);
    if !wanted {
        return Ok(text);
    }
    match add_numbers(alloc, map, view, &mut text) {
        Ok(()) => Ok(text),
        Err(error) => Err(error),
    }
}
