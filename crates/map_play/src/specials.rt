//! Specials and types by what the engine does with them, as the "Unofficial Doom Specs" 1.666 list them.
ghost use Rattle.std.specs.Prelude.{◌≡◌};
ghost use Rattle.map_play.specs.Specials.{has_special, special_tag, has_type};

use lump_records::{Line, Thing, is_among};

/// Doors that open by hand.
pub(crate) const DOORS: [(i32, i32); 4] = [(1, 1), (26, 28), (31, 34), (117, 118)];

/// The donut: a pool sinks, and a ring round it rises.
pub(crate) const DONUTS: [(i32, i32); 1] = [(9, 9)];

/// Walls that scroll.
pub(crate) const SCROLLS: [(i32, i32); 1] = [(48, 48)];

/// Teleporters.
pub(crate) const TELEPORTERS: [(i32, i32); 3] = [(39, 39), (97, 97), (125, 126)];

/// Floors and platforms that rise to the next higher floor round them.
#[rattlefmt::skip]
pub(crate) const RAISERS: [(i32, i32); 8] = [
    (18, 18), (20, 20), (22, 22), (47, 47), (68, 69), (95, 95), (119, 119), (128, 132),
];

/// Lines that end the level.
pub(crate) const EXITS: [(i32, i32); 3] = [(11, 11), (51, 52), (124, 124)];

/// Doors that the blue key opens.
pub(crate) const BLUE_DOORS: [(i32, i32); 4] = [(26, 26), (32, 32), (99, 99), (133, 133)];

/// Doors that the yellow key opens.
pub(crate) const YELLOW_DOORS: [(i32, i32); 3] = [(27, 27), (34, 34), (136, 137)];

/// Doors that the red key opens.
pub(crate) const RED_DOORS: [(i32, i32); 3] = [(28, 28), (33, 33), (134, 135)];

/// Blue keys: the card and the skull.
pub(crate) const BLUE_KEYS: [(i32, i32); 2] = [(5, 5), (40, 40)];

/// Yellow keys.
pub(crate) const YELLOW_KEYS: [(i32, i32); 2] = [(6, 6), (39, 39)];

/// Red keys.
pub(crate) const RED_KEYS: [(i32, i32); 2] = [(13, 13), (38, 38)];

/// Where a teleporter lands.
pub(crate) const LANDINGS: [(i32, i32); 1] = [(14, 14)];

/// The brain of a boss, whose death ends the level.
pub(crate) const BRAINS: [(i32, i32); 1] = [(88, 88)];

/// Cyberdemons.
pub(crate) const CYBERDEMONS: [(i32, i32); 1] = [(16, 16)];

/// Spider masterminds.
pub(crate) const MASTERMINDS: [(i32, i32); 1] = [(7, 7)];

/// Sectors that end the level as a player in them is almost dead.
pub(crate) const LAST_SECTORS: [(i32, i32); 1] = [(11, 11)];

/// Whether the line's special is one of these.
pub(crate) fn has_special(runs: &[(i32, i32)], line: &Line) -> bool
    ensures { result ≡ has_special runs.now line.now }
{
    is_among(runs, i32::from(line.special))
}

/// The line's tag if its special is one of these, otherwise 0.
pub(crate) fn special_tag(runs: &[(i32, i32)], line: &Line) -> u16
    ensures { result ≡ special_tag runs.now line.now }
{
    if has_special(runs, line) { line.tag } else { 0 }
}

/// Whether the thing's type is one of these.
pub(crate) fn has_type(runs: &[(i32, i32)], thing: &Thing) -> bool
    ensures { result ≡ has_type runs.now thing.now }
{
    is_among(runs, i32::from(thing.kind))
}
