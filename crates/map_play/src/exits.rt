//! What ends a level.
ghost use Rattle.std.specs.Prelude.{◌≡◌, ◌||◌};
ghost use Rattle.std.specs.List.{list_any};
ghost use Rattle.map_play.specs.Exits.{is_last_sector, is_level_of_name, is_last_boss};
ghost use Rattle.map_play.specs.Specials.{exits, has_special};

use crate::specials::{
    BRAINS, CYBERDEMONS, EXITS, LAST_SECTORS, MASTERMINDS, has_special, has_type,
};
use lump_records::{Line, Name8, Sector, Thing, is_among};
use map_tables::Map;

// Whether a player who is almost dead in the sector ends the level.
fn is_last_sector(sector: &Sector) -> bool
    ensures { result ≡ is_last_sector sector.now }
{
    is_among(&LAST_SECTORS, i32::from(sector.special))
}

// Whether the level has the name.
fn is_level_of_name(text: &[u8], name: &Name8) -> bool
    ensures { result ≡ is_level_of_name text.now name.now }
{
    name.text() == text
}

// Whether the thing's death ends the level, by the level's name.
fn is_last_boss(map: &Map, thing: &Thing) -> bool
    ensures { result ≡ is_last_boss map.now.tables.name thing.now }
{
    let name = map.name();
    has_type(&BRAINS, thing)
        || is_level_of_name(b"E2M8", &name) && has_type(&CYBERDEMONS, thing)
        || is_level_of_name(b"E3M8", &name) && has_type(&MASTERMINDS, thing)
}

// Whether one of the lines ends the level.
fn has_exit_line(lines: &[Line]) -> bool
    ensures { result ≡ list_any (has_special exits) lines.now }
{
    lines.iter().any(|line| has_special(&EXITS, line))
}

// Whether one of the sectors ends the level.
fn has_last_sector(sectors: &[Sector]) -> bool
    ensures { result ≡ list_any is_last_sector sectors.now }
{
    sectors.iter().any(|sector| is_last_sector(sector))
}

// Whether the death of one of the things ends the level, by its name.
fn has_last_boss(map: &Map, things: &[Thing]) -> bool
    ensures { result ≡ list_any (is_last_boss map.now.tables.name) things.now }
{
    things.iter().any(|thing| is_last_boss(map, thing))
}

/// Whether a line, a sector, or the death of a thing ends the level, by its name.
pub(crate) fn has_exit(map: &Map, lines: &[Line], sectors: &[Sector], things: &[Thing]) -> bool
    ensures { result ≡ (list_any (has_special exits) lines.now
        || list_any is_last_sector sectors.now
        || list_any (is_last_boss map.now.tables.name) things.now) }
{
    has_exit_line(lines) || has_last_sector(sectors) || has_last_boss(map, things)
}
