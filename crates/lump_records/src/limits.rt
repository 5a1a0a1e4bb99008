//! The limits of a map: how many items it may have, and where they may stand.
ghost use Rattle.std.specs.Prelude.{◌↔◌, IsTrue};
ghost use Rattle.lump_records.specs.Drawing.{IsCoordinate};

/// How many vertices, sides, lines or things a map may have.
pub const ITEM_LIMIT: usize = 32767;

/// How many sectors a map may have.
pub const SECTOR_LIMIT: usize = 4096;

/// The least x or y of a place, in map units.
pub const LEAST_COORDINATE: i16 = -16384;

/// The greatest x or y of a place, in map units.
pub const GREATEST_COORDINATE: i16 = 16383;

/// Whether a place's x or y may be the number.
pub fn is_coordinate(z: i16) -> bool
    ensures { IsTrue result ↔ IsCoordinate z }
{
    LEAST_COORDINATE <= z && z <= GREATEST_COORDINATE
}
