//! The names on the walls of a line.
ghost use Rattle.std.specs.Prelude.{◌≡◌, true};
ghost use Rattle.lump_records.specs.Sides.{has_left};
ghost use Rattle.map_tables.specs.WellFormed.{HasSides};
ghost use Rattle.map_checks.specs.Textures.{own_side};
ghost use Rattle.map_lint.specs.Patched.{is_middle};
ghost use Rattle.map_lint.specs.Walls.{has_wall, name_of_part, name_on};

use crate::short::side_in;
use crate::wall::{Part, Wall};
use lump_records::{Line, Name8, Side};
use map_tables::Map;

/// Whether the part is the middle one.
pub(crate) fn is_middle(part: Part) -> bool
    ensures { result ≡ is_middle part }
{
    match part {
        Part::Middle => true,
        _ => false,
    }
}

/// The number of one of the line's sides.
pub(crate) fn own_side(line: &Line, is_left: bool) -> u16
    ensures { result ≡ own_side line.now is_left }
{
    if is_left { line.left } else { line.right }
}

/// Whether the line has a side with the wall.
pub(crate) fn has_wall(line: &Line, wall: Wall) -> bool
    ensures { result ≡ has_wall line.now wall }
{
    !wall.is_left || line.has_left()
}

// The name of a part of the side.
fn name_of_part(side: &Side, part: Part) -> Name8
    ensures { result ≡ name_of_part side.now part }
{
    match part {
        Part::Upper => side.upper,
        Part::Lower => side.lower,
        Part::Middle => side.middle,
    }
}

/// The name on the line's wall.
pub(crate) fn name_on(map: &Map, line: &Line, wall: Wall) -> Name8
    requires sides { HasSides map.now.tables.sides line.now }
    requires wall { wall.is_left ≡ true → has_left line.now ≡ true }
    ensures { result ≡ name_on map.now.tables line.now wall }
{
    name_of_part(&side_in(map, own_side(line, wall.is_left)), wall.part)
}
