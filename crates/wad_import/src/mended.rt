//! What each item is after the changes.
ghost use Rattle.std.specs.Prelude.{◌≡◌};
ghost use Rattle.wad_levels.specs.Graphics.{capital_name};
ghost use Rattle.wad_import.specs.Mended.{is_kept, lacks_left_side, mended_angle, mended_light, mended_line, mended_name, mended_sector, mended_side, mended_thing};

use lump_records::{Line, Name8, Sector, Side, Thing};
use wad_levels::is_drawable;

// The name in capitals, with NUL after its text.
fn capital_name(name: Name8) -> Name8
    ensures { result ≡ capital_name name }
{
    let padded = Name8::from_text(name.text());
    Name8 {
        bytes: padded.bytes.map(|byte| byte.to_ascii_uppercase()),
    }
}

/// The name in capitals up to its first NUL, or `-` if nothing is left.
pub fn mended_name(name: Name8) -> Name8
    ensures { result ≡ mended_name name }
{
    if name.text().is_empty() {
        return Name8::from_text(b"-");
    }
    capital_name(name)
}

/// The light, or the nearer end of 0 to 255 if it is outside.
pub fn mended_light(light: i16) -> i16
    ensures { result ≡ mended_light light }
{
    if light < 0 {
        0
    } else if light > 255 {
        255
    } else {
        light
    }
}

/// The angle modulo 360, from 0 to 359.
pub fn mended_angle(angle: i16) -> i16
    ensures { result ≡ mended_angle angle }
{
    angle.rem_euclid(360)
}

/// The sector after the changes.
pub fn mended_sector(sector: &Sector) -> Sector
    ensures { result ≡ mended_sector sector.now }
{
    Sector {
        floor: sector.floor,
        ceiling: sector.ceiling,
        floor_name: mended_name(sector.floor_name),
        ceiling_name: mended_name(sector.ceiling_name),
        light: mended_light(sector.light),
        special: sector.special,
        tag: sector.tag,
    }
}

/// The side after the changes.
pub fn mended_side(side: &Side) -> Side
    ensures { result ≡ mended_side side.now }
{
    Side {
        x_offset: side.x_offset,
        y_offset: side.y_offset,
        upper: mended_name(side.upper),
        lower: mended_name(side.lower),
        middle: mended_name(side.middle),
        sector: side.sector,
    }
}

/// Whether the line is two-sided (flag 4) and has no left side, so that it is changed.
pub fn lacks_left(line: &Line) -> bool
    ensures { result ≡ lacks_left_side line.now }
{
    line.is_two_sided() && !line.has_left()
}

/// The line after the changes.
pub fn mended_line(line: &Line) -> Line
    ensures { result ≡ mended_line line.now }
{
    let mut mended = *line;
    if lacks_left(line) {
        mended.flags -= 4;
    }
    mended
}

/// Whether the thing stays in the level.
pub fn is_kept(thing: &Thing) -> bool
    ensures { result ≡ is_kept thing.now }
{
    is_drawable(thing.place()) && 0 <= thing.kind && 0 <= thing.options
}

/// The thing after the changes.
pub fn mended_thing(thing: &Thing) -> Thing
    ensures { result ≡ mended_thing thing.now }
{
    Thing {
        x: thing.x,
        y: thing.y,
        angle: mended_angle(thing.angle),
        kind: thing.kind,
        options: thing.options,
    }
}
