//! The types and specials of Doom, as the "Unofficial Doom Specs" 1.666 list them.
ghost use Rattle.std.specs.Prelude.{◌≡◌};
ghost use Rattle.map_lint.specs.Known.{is_known_thing, is_known_line, is_known_sector, needs_tag};

use lump_records::{Line, Sector, Thing, is_among};

// The types of things: the first and the last number of each run.
#[rattlefmt::skip]
const THINGS: [(i32, i32); 9] = [
    (1, 89), (2001, 2008), (2010, 2015), (2018, 2019), (2022, 2026), (2028, 2028), (2035, 2035), (2045, 2049),
    (3001, 3006),
];

// The specials of lines.
const LINE_SPECIALS: [(i32, i32); 3] = [(0, 77), (79, 84), (86, 141)];

// The line specials that need no tag: no special, doors that open by hand, exits, and a wall that scrolls.
#[rattlefmt::skip]
const TAGLESS_SPECIALS: [(i32, i32); 8] = [
    (0, 1), (11, 11), (26, 28), (31, 34), (48, 48), (51, 52), (117, 118), (124, 124),
];

// The specials of sectors.
const SECTOR_SPECIALS: [(i32, i32); 3] = [(0, 5), (7, 14), (16, 17)];

/// Whether the thing's type is one of Doom's.
pub(crate) fn is_known_thing(thing: &Thing) -> bool
    ensures { result ≡ is_known_thing thing.now }
{
    is_among(&THINGS, i32::from(thing.kind))
}

/// Whether the line's special is one of Doom's.
pub(crate) fn is_known_line(line: &Line) -> bool
    ensures { result ≡ is_known_line line.now }
{
    is_among(&LINE_SPECIALS, i32::from(line.special))
}

/// Whether the sector's special is one of Doom's.
pub(crate) fn is_known_sector(sector: &Sector) -> bool
    ensures { result ≡ is_known_sector sector.now }
{
    is_among(&SECTOR_SPECIALS, i32::from(sector.special))
}

/// Whether the line's special works by the line's tag.
pub(crate) fn needs_tag(line: &Line) -> bool
    ensures { result ≡ needs_tag line.now }
{
    is_known_line(line) && !is_among(&TAGLESS_SPECIALS, i32::from(line.special))
}
