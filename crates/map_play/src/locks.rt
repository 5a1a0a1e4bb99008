//! Doors that a key opens, and keys.
ghost use Rattle.std.specs.Prelude.{◌≡◌};
ghost use Rattle.map_play.specs.Locks.{has_key, stays_locked, AreKeys};

use crate::specials::{
    BLUE_DOORS, BLUE_KEYS, RED_DOORS, RED_KEYS, YELLOW_DOORS, YELLOW_KEYS, has_special, has_type,
};
use lump_records::{Line, Thing};
use map_tables::Map;

/// Of which colours a map has keys.
#[derive(Clone, Copy)]
pub struct Keys {
    pub blue: bool,
    pub yellow: bool,
    pub red: bool,
}

// Whether one of the things is such a key.
fn has_key(things: &[Thing], keys: &[(i32, i32)]) -> bool
    ensures { result ≡ has_key things.now keys.now }
{
    things.iter().any(|thing| has_type(keys, thing))
}

/// Of which colours there are keys among the things.
pub(crate) fn keys_of(things: &[Thing]) -> Keys
    ensures { AreKeys things.now result }
{
    let blue = has_key(things, &BLUE_KEYS);
    let yellow = has_key(things, &YELLOW_KEYS);
    let red = has_key(things, &RED_KEYS);
    Keys { blue, yellow, red }
}

/// Whether the line is a door that a key opens, and there is no such key.
pub(crate) fn lacks_key(map: &Map, keys: Keys, line: &Line) -> bool
    requires { AreKeys map.now.tables.things keys }
    ensures { result ≡ stays_locked map.now.tables.things line.now }
{
    has_special(&BLUE_DOORS, line) && !keys.blue
        || has_special(&YELLOW_DOORS, line) && !keys.yellow
        || has_special(&RED_DOORS, line) && !keys.red
}
