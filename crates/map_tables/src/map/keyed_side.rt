//! Sides as a map stores them, with keys, and as its calls return them, with numbers.
ghost use Rattle.std.specs.Prelude.{◌≡◌, ◌<◌, ◌≤◌, All, IfOk, IsOkUnless, length, map};
ghost use Rattle.map_tables.specs.Keyed.{side_of};
ghost use Rattle.map_tables.specs.WellFormed.{HasSector};

use crate::error::MapError;
use crate::map::table::Table;
use lump_records::{Name8, Sector, Side};
use std::alloc::Global;

// A side as the map stores it, with the key of its sector.
#[derive(Clone, Copy)]
pub(super) struct KeyedSide {
    pub x_offset: i16,
    pub y_offset: i16,
    pub upper: Name8,
    pub lower: Name8,
    pub middle: Name8,
    pub sector: usize,
}

// Converts a side: its sector's key in place of the number.
pub(super) fn keyed_side(sectors: &Table<Sector>, side: &Side) -> KeyedSide
    requires { side.now.sector < length sectors.now.items }
    ensures { side_of sectors.now.keys result ≡ side.now }
{
    KeyedSide {
        x_offset: side.x_offset,
        y_offset: side.y_offset,
        upper: side.upper,
        lower: side.lower,
        middle: side.middle,
        sector: sectors.key_at(usize::from(side.sector)),
    }
}

// Converts a side back: its sector's number in place of the key.
pub(super) fn numbered_side(sectors: &Table<Sector>, side: &KeyedSide) -> Side
    requires { length sectors.now.items ≤ 4096 }
    ensures { result ≡ side_of sectors.now.keys side.now }
{
    Side {
        x_offset: side.x_offset,
        y_offset: side.y_offset,
        upper: side.upper,
        lower: side.lower,
        middle: side.middle,
        sector: sectors.rank(side.sector) as u16,
    }
}

// Converts the sides of a list: keys in place of numbers.
pub(super) fn keyed_sides(
    alloc: Global,
    sectors: &Table<Sector>,
    sides: &[Side],
) -> Result<Table<KeyedSide>, MapError>
    requires few { length sides.now ≤ 32767 }
    requires sectors { All (HasSector sectors.now.items) sides.now }
    ensures sides { IfOk result (λ table. map (side_of sectors.now.keys) table.items ≡ sides.now) }
    ensures memory { IsOkUnless result MapError.OutOfMemory }
{
    let mut table = Table::new(alloc);
    table.reserve(sides.len())?;
    for side in sides {
        table.push(keyed_side(sectors, side))?;
    }
    Ok(table)
}

// The list of the table's sides, with numbers in place of keys.
pub(super) fn numbered_sides(
    alloc: Global,
    sectors: &Table<Sector>,
    sides: &Table<KeyedSide>,
) -> Result<Vec<Side>, MapError>
    requires { length sectors.now.items ≤ 4096 }
    ensures sides { IfOk result
        (λ list. list.items ≡ map (side_of sectors.now.keys) sides.now.items) }
    ensures memory { IsOkUnless result MapError.OutOfMemory }
{
    let mut list = Vec::with_capacity(alloc, sides.len())?;
    for n in 0..sides.len() {
        list.push(numbered_side(sectors, &sides.at(n)))?;
    }
    Ok(list)
}
