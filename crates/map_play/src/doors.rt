//! Doors that open by hand.
ghost use Rattle.std.specs.Prelude.{◌≡◌};
ghost use Rattle.map_play.specs.Doors.{door_without_back};

use crate::specials::{DOORS, has_special};
use lump_records::Line;

/// Whether the line is a door that opens by hand, and has no left side.
pub fn door_without_back(line: &Line) -> bool
    ensures { result ≡ door_without_back line.now }
{
    has_special(&DOORS, line) && !line.has_left()
}
