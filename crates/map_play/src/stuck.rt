//! Players and monsters that are stuck where they stand.
ghost use Rattle.std.specs.Prelude.{◌≡◌, false};
ghost use Rattle.std.specs.List.{list_all};
ghost use Rattle.std.specs.Option.{option_map_or};
ghost use Rattle.map_plane.specs.Bands.{AreFiledLines, IsFiling};
ghost use Rattle.map_tables.specs.Ranges.{IsThing};
ghost use Rattle.map_play.specs.Bodies.{body_of};
ghost use Rattle.map_play.specs.Points.{solid_points};
ghost use Rattle.map_play.specs.Stuck.{is_fixed, is_held, is_held_after, is_stuck};

use crate::bodies::{Body, body_of};
use crate::crowds::is_blocked;
use crate::games::share_skill;
use crate::steps::{moved, steps};
use crate::walls::is_walled_in;
use lump_records::Thing;
use map_plane::FiledLines;
use map_tables::Map;

// Whether thing n with this body isn't free: a line or another solid thing holds it.
fn is_held(
    map: &Map,
    filed: &FiledLines,
    solids: &FiledLines,
    n: u32,
    thing: &Thing,
    body: &Body,
) -> bool
    requires filed { AreFiledLines map.now.tables filed.now }
    requires solids { IsFiling (solid_points map.now.tables) solids.now }
    requires thing { IsThing thing.now }
    ensures { result ≡ is_held map.now.tables n thing.now body.now }
{
    is_walled_in(map, filed, thing, body) || is_blocked(map, solids, n, thing, body)
}

// Whether thing n isn't free after any of these steps.
fn is_held_after_each(
    map: &Map,
    filed: &FiledLines,
    solids: &FiledLines,
    n: u32,
    thing: &Thing,
    body: &Body,
    steps: &[(i16, i16)],
) -> bool
    requires filed { AreFiledLines map.now.tables filed.now }
    requires solids { IsFiling (solid_points map.now.tables) solids.now }
    requires thing { IsThing thing.now }
    ensures { result ≡ list_all (is_held_after map.now.tables n thing.now body.now) steps.now }
{
    steps.iter().all(|step| is_held(map, filed, solids, n, &moved(thing, *step), body))
}

// Whether thing n with this body moves of itself and stands in some game, but isn't free, nor after any of its steps.
fn is_fixed(
    map: &Map,
    filed: &FiledLines,
    solids: &FiledLines,
    n: u32,
    thing: &Thing,
    body: &Body,
) -> bool
    requires filed { AreFiledLines map.now.tables filed.now }
    requires solids { IsFiling (solid_points map.now.tables) solids.now }
    requires thing { IsThing thing.now }
    ensures { result ≡ is_fixed map.now.tables n thing.now body.now }
{
    body.moves
        && share_skill(thing, thing)
        && is_held(map, filed, solids, n, thing, body)
        && is_held_after_each(map, filed, solids, n, thing, body, &steps(body))
}

/// Whether thing n is stuck. The lines are those of the map, and `solids` its solid things, in their bands.
pub(crate) fn is_stuck_among(map: &Map, filed: &FiledLines, solids: &FiledLines, n: u32) -> bool
    requires filed { AreFiledLines map.now.tables filed.now }
    requires solids { IsFiling (solid_points map.now.tables) solids.now }
    ensures { result ≡ is_stuck map.now.tables n }
{
    let Some(thing) = map.thing(n) else {
        return false;
    };
    match body_of(&thing) {
        Some(body) => is_fixed(map, filed, solids, n, &thing, &body),
        None => false,
    }
}
