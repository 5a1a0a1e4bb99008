//! Lists of items added to a map, item by item.
ghost use Rattle.std.specs.Prelude.{◌≡◌, ◌≤◌, [], All, IsOkUnless, OnOk, length};
ghost use Rattle.lump_records.specs.Limits.{item_limit, sector_limit};
ghost use Rattle.map_tables.specs.Ranges.{IsLine, IsSector, IsShort, IsSide, IsThing};
ghost use Rattle.map_tables.specs.WellFormed.{HasEnds, HasSector, HasSides};
ghost use Rattle.wad_import.specs.Added.{HasSectorRanges, HasSideRanges, HasThingRanges};

use crate::error::ImportError;
use lump_records::{Line, Sector, Side, Thing};
use map_tables::{Edit, Item, MapError, Maps};

/// The refusal of an item that a map may have: there is no memory.
pub fn lack_of(error: MapError) -> ImportError
    requires { error ≡ MapError.OutOfMemory }
    ensures { result ≡ ImportError.OutOfMemory }
{
    let _ = error;
    ImportError::OutOfMemory
}

// Any number of sixteen bits may be a height or an offset.
fn is_short(z: i16)
    ensures { IsShort z }
{
    let _ = z;
}

// The sector is one of a map, as its numbers have sixteen bits.
fn is_sector(sector: &Sector)
    requires { HasSectorRanges sector.now }
    ensures { IsSector sector.now }
{
    is_short(sector.floor);
    is_short(sector.ceiling);
    is_short(sector.special);
    is_short(sector.tag);
}

// The side is one of a map, as its offsets have sixteen bits.
fn is_side(side: &Side)
    requires { HasSideRanges side.now }
    ensures { IsSide side.now }
{
    is_short(side.x_offset);
    is_short(side.y_offset);
}

// The thing is one of a map, as its numbers have sixteen bits.
fn is_thing(thing: &Thing)
    requires { HasThingRanges thing.now }
    ensures { IsThing thing.now }
{
    is_short(thing.kind);
    is_short(thing.options);
}

/// Adds sectors to the current map, which has none.
pub fn add_sectors(maps: &mut Maps, sectors: &[Sector]) -> Result<(), ImportError>
    requires empty { maps.old.tables.sectors ≡ [] }
    requires range { All HasSectorRanges sectors.now }
    requires room { length sectors.now ≤ sector_limit }
    ensures memory { IsOkUnless result ImportError.OutOfMemory }
    ensures tables { OnOk result
        (maps.new.tables ≡ record maps.old.tables { sectors = sectors.now }) }
    ensures others { maps.new.others ≡ maps.old.others }
{
    for sector in sectors {
        is_sector(sector);
        match maps.edit(Edit::Add(Item::Sector(*sector))) {
            Ok(_) => {}
            Err(error) => return Err(lack_of(error)),
        }
    }
    Ok(())
}

/// Adds sides that face its sectors to the current map, which has none.
pub fn add_sides(maps: &mut Maps, sides: &[Side]) -> Result<(), ImportError>
    requires empty { maps.old.tables.sides ≡ [] }
    requires range { All HasSideRanges sides.now }
    requires sectors { All (HasSector maps.old.tables.sectors) sides.now }
    requires room { length sides.now ≤ item_limit }
    ensures memory { IsOkUnless result ImportError.OutOfMemory }
    ensures tables { OnOk result (maps.new.tables ≡ record maps.old.tables { sides = sides.now }) }
    ensures others { maps.new.others ≡ maps.old.others }
{
    for side in sides {
        is_side(side);
        match maps.edit(Edit::Add(Item::Side(*side))) {
            Ok(_) => {}
            Err(error) => return Err(lack_of(error)),
        }
    }
    Ok(())
}

/// Adds lines between its vertices, with its sides, to the current map, which has none.
pub fn add_lines(maps: &mut Maps, lines: &[Line]) -> Result<(), ImportError>
    requires empty { maps.old.tables.lines ≡ [] }
    requires range { All IsLine lines.now }
    requires ends { All (HasEnds maps.old.tables.vertices) lines.now }
    requires sides { All (HasSides maps.old.tables.sides) lines.now }
    requires room { length lines.now ≤ item_limit }
    ensures memory { IsOkUnless result ImportError.OutOfMemory }
    ensures tables { OnOk result (maps.new.tables ≡ record maps.old.tables { lines = lines.now }) }
    ensures others { maps.new.others ≡ maps.old.others }
{
    for line in lines {
        match maps.edit(Edit::Add(Item::Line(*line))) {
            Ok(_) => {}
            Err(error) => return Err(lack_of(error)),
        }
    }
    Ok(())
}

/// Adds things to the current map, which has none.
pub fn add_things(maps: &mut Maps, things: &[Thing]) -> Result<(), ImportError>
    requires empty { maps.old.tables.things ≡ [] }
    requires range { All HasThingRanges things.now }
    requires room { length things.now ≤ item_limit }
    ensures memory { IsOkUnless result ImportError.OutOfMemory }
    ensures tables { OnOk result
        (maps.new.tables ≡ record maps.old.tables { things = things.now }) }
    ensures others { maps.new.others ≡ maps.old.others }
{
    for thing in things {
        is_thing(thing);
        match maps.edit(Edit::Add(Item::Thing(*thing))) {
            Ok(_) => {}
            Err(error) => return Err(lack_of(error)),
        }
    }
    Ok(())
}
