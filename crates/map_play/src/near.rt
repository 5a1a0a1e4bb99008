//! The bands of the rows near a thing.
ghost use Rattle.std.specs.Prelude.{◌≤ℤ◌, ◌+ℤ◌, neg_ℤ, pos};
ghost use Rattle.map_plane.specs.Bands.{IsBandOf};
ghost use Rattle.map_tables.specs.Ranges.{IsThing};

use lump_records::Thing;
use map_plane::band_of;

/// The band that has the row so many rows above the thing, or below it.
pub(crate) fn band_near(thing: &Thing, rows: i16) -> usize
    requires thing { IsThing thing.now }
    requires low { neg_ℤ (pos 400) ≤ℤ rows }
    requires high { rows ≤ℤ pos 400 }
    ensures { IsBandOf (thing.now.y +ℤ rows) result }
{
    band_of(thing.y + rows)
}
