//! The items that a line names.
ghost use Rattle.std.specs.Prelude.{◌≡◌};
ghost use Rattle.map_picture.specs.Items.{sector_of};

use map_tables::Map;

/// The sector of the side with the number.
pub(crate) fn sector_of(map: &Map, n: u16) -> u16
    ensures { result ≡ sector_of map.now.tables n }
{
    match map.side(u32::from(n)) {
        Some(side) => side.sector,
        None => 0,
    }
}
