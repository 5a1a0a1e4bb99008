//! A thing of the map as an element of the picture.
ghost use Rattle.std.specs.Prelude.{◌≡◌, OnOk, neg_ℤ};
ghost use Rattle.std.specs.Io.KnownBytes.{Appends};
ghost use Rattle.map_picture.specs.Things.{mark_text, shape_text, thing_text};

use crate::groups::{class_of, group_of, shape_of};
use lump_records::Thing;
use lump_text::WriterFailed;
use map_svg::{Spot, spot_of};
use std::io::Write;

// Writes the beginning of the element: its id and class, and the thing's place and direction.
fn write_mark<W: Write>(
    n: u32,
    class: &str,
    place: Spot,
    turn: i32,
    writer: &mut W,
) -> Result<(), WriterFailed>
    ensures { OnOk result (Appends (W.contents writer.old) (W.contents writer.new)
        (mark_text n class.now place turn)) }
{
    let (x, y) = (place.x, place.y);
    write!(
        writer,
        "<g id=\"thing{n}\" class=\"{class}\" transform=\"translate({x} {y}) rotate({turn})\">\n"
    )?;
    Ok(())
}

// Writes the title and the shape, and ends the element.
fn write_shape<W: Write>(
    n: u32,
    thing: &Thing,
    shape: &str,
    writer: &mut W,
) -> Result<(), WriterFailed>
    ensures { OnOk result (Appends (W.contents writer.old) (W.contents writer.new)
        (shape_text n thing.now shape.now)) }
{
    let (kind, angle, options) = (thing.kind, thing.angle, thing.options);
    write!(
        writer,
        "<title>thing {n}: type {kind}, angle {angle}, options {options}</title>\n<path d=\"{shape}\"/></g>\n"
    )?;
    Ok(())
}

// The angle for `rotate`, which turns in the opposite direction.
fn turn_of(angle: i16) -> i32
    ensures { result ≡ neg_ℤ angle }
{
    -i32::from(angle)
}

/// Writes the element of a thing.
pub(crate) fn write_thing<W: Write>(
    n: u32,
    thing: &Thing,
    writer: &mut W,
) -> Result<(), WriterFailed>
    ensures { OnOk result
        (Appends (W.contents writer.old) (W.contents writer.new) (thing_text n thing.now)) }
{
    let group = group_of(thing.kind);
    let place = spot_of(thing.place());
    write_mark(n, class_of(group), place, turn_of(thing.angle), writer)?;
    write_shape(n, thing, shape_of(group), writer)?;
    Ok(())
}
