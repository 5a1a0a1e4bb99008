//! Where an `at` places the lines of its block.
ghost use Rattle.std.specs.Prelude.{◌≡◌, ℤ};
ghost use Rattle.map_script.specs.Placings.{coordinate_of, degrees, faced, placed_to, placed_vertex, quarter_more, turned_angle, turned_place};

use lump_records::{GREATEST_COORDINATE, LEAST_COORDINATE, Vertex};

/// A turn about 0 0, counter-clockwise, by which way what lay in the east then lies.
#[derive(Clone, Copy)]
pub enum Facing {
    East,
    North,
    West,
    South,
}

/// How a block places its lines: they are turned, then moved so that 0 0 comes to `at`.
#[derive(Clone, Copy)]
pub struct Placing {
    pub at: Vertex,
    pub facing: Facing,
}

/// Nothing is turned or moved.
pub const UNPLACED: Placing = Placing {
    at: Vertex { x: 0, y: 0 },
    facing: Facing::East,
};

// A place turned about 0 0.
fn turned_place(facing: Facing, place: Vertex) -> (i32, i32)
    ensures x { result.0 ≡ (turned_place facing place).x }
    ensures y { result.1 ≡ (turned_place facing place).y }
{
    let x = i32::from(place.x);
    let y = i32::from(place.y);
    match facing {
        Facing::East => (x, y),
        Facing::North => (-y, x),
        Facing::West => (-x, -y),
        Facing::South => (y, -x),
    }
}

/// Where a place is placed: turned, then moved.
pub fn placed_to(placing: Placing, place: Vertex) -> (i32, i32)
    ensures x { result.0 ≡ (placed_to placing place).x }
    ensures y { result.1 ≡ (placed_to placing place).y }
{
    let (x, y) = turned_place(placing.facing, place);
    (x + i32::from(placing.at.x), y + i32::from(placing.at.y))
}

/// The coordinate, if a place can have it.
pub fn coordinate(n: i64) -> Option<i16>
    ensures { result ≡ coordinate_of n }
{
    if i64::from(LEAST_COORDINATE) <= n && n <= i64::from(GREATEST_COORDINATE) {
        Some(n as i16)
    } else {
        None
    }
}

/// Where a place is placed, if that is a place.
pub fn placed_vertex(placing: Placing, place: Vertex) -> Option<Vertex>
    ensures { result ≡ placed_vertex placing place }
{
    let (x, y) = placed_to(placing, place);
    match (coordinate(i64::from(x)), coordinate(i64::from(y))) {
        (Some(x), Some(y)) => Some(Vertex { x, y }),
        _ => None,
    }
}

// A turn in degrees.
fn degrees(facing: Facing) -> i32
    ensures { result ≡ degrees facing }
{
    match facing {
        Facing::East => 0,
        Facing::North => 90,
        Facing::West => 180,
        Facing::South => 270,
    }
}

/// An angle turned, from 0 to 359 if it was so.
pub fn turned_angle(facing: Facing, angle: i16) -> i32
    ensures { result ≡ turned_angle facing angle }
{
    let turned = i32::from(angle) + degrees(facing);
    if turned < 360 { turned } else { turned - 360 }
}

// A quarter more.
fn quarter_more(facing: Facing) -> Facing
    ensures { result ≡ quarter_more facing }
{
    match facing {
        Facing::East => Facing::North,
        Facing::North => Facing::West,
        Facing::West => Facing::South,
        Facing::South => Facing::East,
    }
}

/// One turn after another.
pub fn faced(outer: Facing, inner: Facing) -> Facing
    ensures { result ≡ faced outer inner }
{
    match outer {
        Facing::East => inner,
        Facing::North => quarter_more(inner),
        Facing::West => quarter_more(quarter_more(inner)),
        Facing::South => quarter_more(quarter_more(quarter_more(inner))),
    }
}
