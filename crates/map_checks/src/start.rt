//! Whether the first player has a start.
ghost use Rattle.std.specs.Prelude.{◌≡◌, ◌++◌, OnOk};
ghost use Rattle.std.specs.List.{list_any};
ghost use Rattle.map_checks.specs.Findings.{is_start, missing_start};

use crate::error::CheckError;
use crate::finding::Finding;
use lump_records::Thing;
use map_tables::{Kind, Map};

// The type number of the first player's start.
const PLAYER_START: i16 = 1;

// Whether the thing is the first player's start.
fn is_start(thing: &Thing) -> bool
    ensures { result ≡ is_start thing.now }
{
    thing.kind == PLAYER_START
}

// Whether one of the map's things is the first player's start.
fn has_player_start(map: &Map) -> bool
    ensures { result ≡ list_any is_start map.now.tables.things }
{
    for n in 0..map.count(Kind::Thing) {
        let thing = map.thing(n).unwrap();
        if is_start(&thing) {
            return true;
        }
    }
    false
}

/// Adds a finding if no thing is the first player's start.
pub(crate) fn list_missing_start(map: &Map, found: &mut Vec<Finding>) -> Result<(), CheckError>
    ensures { OnOk result (found.new.items ≡ found.old.items ++ missing_start map.now.tables) }
{
    if !has_player_start(map) {
        found.push(Finding::NoPlayerStart)?;
    }
    Ok(())
}
