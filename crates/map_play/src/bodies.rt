//! How wide and high solid things are.
ghost use Rattle.std.specs.Prelude.{◌≡◌, find};
ghost use Rattle.map_play.specs.Bodies.{is_body_of, body_of};

use lump_records::Thing;

/// Things of the types from `first` to `last`, which are solid: the radius of their square and their height, in map
/// units, whether they move of themselves, as players and monsters do, and how far a monster steps at a time, in map
/// units.
#[derive(Clone, Copy)]
pub(crate) struct Body {
    pub first: i16,
    pub last: i16,
    pub radius: u8,
    pub height: u8,
    pub moves: bool,
    pub step: u8,
}

// The solid things of Doom, as the engine's table (`mobjinfo`, info.c) has them.
#[rattlefmt::skip]
const BODIES: [Body; 37] = [
    Body { first: 1, last: 4, radius: 16, height: 56, moves: true, step: 0 },
    Body { first: 7, last: 7, radius: 128, height: 100, moves: true, step: 12 },
    Body { first: 9, last: 9, radius: 20, height: 56, moves: true, step: 8 },
    Body { first: 11, last: 11, radius: 16, height: 56, moves: true, step: 0 },
    Body { first: 16, last: 16, radius: 40, height: 110, moves: true, step: 16 },
    Body { first: 58, last: 58, radius: 30, height: 56, moves: true, step: 10 },
    Body { first: 64, last: 64, radius: 20, height: 56, moves: true, step: 15 },
    Body { first: 65, last: 65, radius: 20, height: 56, moves: true, step: 8 },
    Body { first: 66, last: 66, radius: 20, height: 56, moves: true, step: 10 },
    Body { first: 67, last: 67, radius: 48, height: 64, moves: true, step: 8 },
    Body { first: 68, last: 68, radius: 64, height: 64, moves: true, step: 12 },
    Body { first: 69, last: 69, radius: 24, height: 64, moves: true, step: 8 },
    Body { first: 71, last: 71, radius: 31, height: 56, moves: true, step: 8 },
    Body { first: 84, last: 84, radius: 20, height: 56, moves: true, step: 8 },
    Body { first: 3001, last: 3001, radius: 20, height: 56, moves: true, step: 8 },
    Body { first: 3002, last: 3002, radius: 30, height: 56, moves: true, step: 10 },
    Body { first: 3003, last: 3003, radius: 24, height: 64, moves: true, step: 8 },
    Body { first: 3004, last: 3004, radius: 20, height: 56, moves: true, step: 8 },
    Body { first: 3005, last: 3005, radius: 31, height: 56, moves: true, step: 8 },
    Body { first: 3006, last: 3006, radius: 16, height: 56, moves: true, step: 8 },
    Body { first: 25, last: 33, radius: 16, height: 16, moves: false, step: 0 },
    Body { first: 35, last: 37, radius: 16, height: 16, moves: false, step: 0 },
    Body { first: 41, last: 48, radius: 16, height: 16, moves: false, step: 0 },
    Body { first: 49, last: 49, radius: 16, height: 68, moves: false, step: 0 },
    Body { first: 50, last: 51, radius: 16, height: 84, moves: false, step: 0 },
    Body { first: 52, last: 52, radius: 16, height: 68, moves: false, step: 0 },
    Body { first: 53, last: 53, radius: 16, height: 52, moves: false, step: 0 },
    Body { first: 54, last: 54, radius: 32, height: 16, moves: false, step: 0 },
    Body { first: 55, last: 57, radius: 16, height: 16, moves: false, step: 0 },
    Body { first: 70, last: 70, radius: 16, height: 16, moves: false, step: 0 },
    Body { first: 72, last: 72, radius: 16, height: 72, moves: false, step: 0 },
    Body { first: 73, last: 74, radius: 16, height: 88, moves: false, step: 0 },
    Body { first: 75, last: 78, radius: 16, height: 64, moves: false, step: 0 },
    Body { first: 85, last: 86, radius: 16, height: 16, moves: false, step: 0 },
    Body { first: 88, last: 88, radius: 16, height: 16, moves: false, step: 0 },
    Body { first: 2028, last: 2028, radius: 16, height: 16, moves: false, step: 0 },
    Body { first: 2035, last: 2035, radius: 10, height: 42, moves: false, step: 0 },
];

// Whether the thing's type is one of these.
fn is_body_of(thing: &Thing, body: &Body) -> bool
    ensures { result ≡ is_body_of thing.now body.now }
{
    body.first <= thing.kind && thing.kind <= body.last
}

// The first of these that the thing's type belongs to.
fn body_among(bodies: &[Body], thing: &Thing) -> Option<Body>
    ensures { result ≡ find (is_body_of thing.now) bodies.now }
{
    bodies.iter().copied().find(|body| is_body_of(thing, body))
}

/// What the table says of the thing: nothing if it isn't solid.
pub(crate) fn body_of(thing: &Thing) -> Option<Body>
    ensures { result ≡ body_of thing.now }
{
    body_among(&BODIES, thing)
}
