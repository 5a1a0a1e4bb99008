//! The steps of a monster.
ghost use Rattle.std.specs.Prelude.{◌≡◌};
ghost use Rattle.map_tables.specs.Ranges.{IsCoordinate, IsThing};
ghost use Rattle.map_play.specs.Steps.{further, moved, slant, steps};

use crate::bodies::Body;
use lump_records::Thing;

// The least and the greatest coordinate.
const LEAST: i32 = -16_384;

const GREATEST: i32 = 16_383;

// How far a slanting step leads along each axis, as the engine has it (`xspeed` of its p_enemy.c).
fn slant(body: &Body) -> u8
    ensures { result ≡ slant body.now }
{
    (u32::from(body.step) * 47_000 / 65_536) as u8
}

/// How far the eight steps lead to the east and to the north that a monster may take, in map units.
pub(crate) fn steps(body: &Body) -> [(i16, i16); 8]
    ensures { result ≡ steps body.now }
{
    let s = i16::from(body.step);
    let d = i16::from(slant(body));
    [
        (s, 0),
        (d, d),
        (0, s),
        (-d, d),
        (-s, 0),
        (-d, -d),
        (0, -s),
        (d, -d),
    ]
}

// The coordinate so much further on, or the last one.
#[tactic(auto, unfolding(crate::specs::Steps::further))]
fn further(at: i16, by: i16) -> i16
    ensures further { result ≡ further at by }
    ensures range { IsCoordinate result }
{
    let sum = i32::from(at) + i32::from(by);
    if sum < LEAST {
        LEAST as i16
    } else if sum > GREATEST {
        GREATEST as i16
    } else {
        sum as i16
    }
}

/// The thing so far away from its place.
pub(crate) fn moved(thing: &Thing, step: (i16, i16)) -> Thing
    requires { IsThing thing.now }
    ensures moved { result ≡ moved thing.now step }
    ensures range { IsThing result }
{
    Thing {
        x: further(thing.x, step.0),
        y: further(thing.y, step.1),
        ..*thing
    }
}
