//! The sides and lines of walls.
ghost use Rattle.std.specs.Prelude.{◌≡◌, ◌≢◌, ◌≤◌, ◌⊎◌, IsTrue};
ghost use Rattle.lump_records.specs.Sides.{is_two_sided, no_side};
ghost use Rattle.map_areas.specs.Pillars.{solid_side};
ghost use Rattle.map_areas.specs.Stays.{IsMadeOpen, TakesOver, opened_flags};
ghost use Rattle.map_tables.specs.Ranges.{IsLine, IsNamed, IsSide, is_name};

use lump_records::{Line, NO_SIDE, Name8, Side};

/// The name that means "no texture".
pub(crate) const NO_TEXTURE: Name8 = Name8 {
    bytes: *b"-\0\0\0\0\0\0\0",
};

/// A side with a texture in the middle alone.
pub(crate) fn solid_side(wall: Name8, sector: u16) -> Side
    ensures { result ≡ solid_side wall sector }
{
    Side {
        x_offset: 0,
        y_offset: 0,
        upper: NO_TEXTURE,
        lower: NO_TEXTURE,
        middle: wall,
        sector,
    }
}

/// A side with a texture above and below.
pub(crate) fn open_side(wall: Name8, sector: u16) -> Side
    requires wall { IsNamed is_name wall }
    requires sector { sector ≤ 4095 }
    ensures range { IsSide result }
    ensures sector { result.sector ≡ sector }
{
    Side {
        x_offset: 0,
        y_offset: 0,
        upper: wall,
        lower: wall,
        middle: NO_TEXTURE,
        sector,
    }
}

// A side's texture after its line became two-sided: the middle one where none was.
fn taken_over(was: Name8, middle: Name8) -> Name8
    ensures { TakesOver was middle result }
{
    if was == NO_TEXTURE { middle } else { was }
}

/// The side after its line became two-sided: the middle texture is above and below, where none was.
pub(crate) fn opened(side: &Side) -> Side
    requires { IsSide side.now }
    ensures range { IsSide result }
    ensures opened { IsMadeOpen side.now result }
    ensures sector { result.sector ≡ side.now.sector }
{
    Side {
        upper: taken_over(side.upper, side.middle),
        lower: taken_over(side.lower, side.middle),
        middle: NO_TEXTURE,
        ..*side
    }
}

/// The flags with 4, two-sided, and without 1, which stops players.
pub(crate) fn opened_flags(flags: u16) -> u16
    ensures flags { result ≡ opened_flags flags }
    ensures range { flags ≤ 32767 → result ≤ 32767 }
{
    flags & 65534 | 4
}

/// A new line between two vertices with these sides, of which the left one may be missing.
pub(crate) fn wall_between(v1: u16, v2: u16, right: u16, left: u16) -> Line
    requires v1 { v1 ≤ 32766 }
    requires v2 { v2 ≤ 32766 }
    requires right { right ≤ 32766 }
    requires left { (left ≤ 32766) ⊎ (left ≡ no_side) }
    ensures range { IsLine result }
    ensures v1 { result.v1 ≡ v1 }
    ensures v2 { result.v2 ≡ v2 }
    ensures right { result.right ≡ right }
    ensures left { result.left ≡ left }
    ensures two_sided { IsTrue (is_two_sided result) → result.left ≢ no_side }
{
    Line {
        v1,
        v2,
        flags: if left == NO_SIDE { 1 } else { 4 },
        special: 0,
        tag: 0,
        right,
        left,
    }
}
