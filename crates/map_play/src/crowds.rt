//! Solid things that stand in each other's way. The rule is the engine's own (`PIT_CheckThing` of its source).
ghost use Rattle.std.specs.Prelude.{◌≡◌, IfOk};
ghost use Rattle.std.specs.List.{list_any};
ghost use Rattle.map_plane.specs.Bands.{IsFiling};
ghost use Rattle.map_tables.specs.Ranges.{IsThing};
ghost use Rattle.map_play.specs.Crowds.{is_in_way, is_solid_in_way, is_blocked, is_blocked_by};
ghost use Rattle.map_play.specs.Points.{is_blocked_at, is_near, is_solid_at, place_at, solid_point, solid_points};

use crate::bodies::{Body, body_of};
use crate::games::share_game;
use crate::near::band_near;
use lump_records::{Thing, Vertex};
use map_plane::{FiledLines, PlacedLine, file_each, squares_overlap};
use map_tables::{Kind, Map};
use std::alloc::{AllocError, Global};

// The radius of the widest body.
const WIDEST: u8 = 128;

// Whether there is a thing with the number, and it is solid.
fn is_solid_at(map: &Map, n: u32) -> bool
    ensures { result ≡ is_solid_at map.now.tables n }
{
    match map.thing(n) {
        Some(thing) => body_of(&thing).is_some(),
        None => false,
    }
}

// Where the thing with the number stands.
fn place_at(map: &Map, n: u32) -> Vertex
    ensures { result ≡ place_at map.now.tables n }
{
    match map.thing(n) {
        Some(thing) => thing.place(),
        None => Vertex { x: 0, y: 0 },
    }
}

// The thing with the number as a line of no length, at its place.
fn solid_point(map: &Map, n: u32) -> PlacedLine
    ensures { result ≡ solid_point map.now.tables n }
{
    let place = place_at(map, n);
    PlacedLine {
        number: n,
        from: place,
        to: place,
        is_wall: false,
    }
}

// The solid things of the map as such points.
fn solid_points(alloc: Global, map: &Map) -> Result<Vec<PlacedLine>, AllocError>
    ensures { IfOk result (λ points. points.items ≡ solid_points map.now.tables) }
{
    let mut points = Vec::new(alloc);
    for n in 0..map.count(Kind::Thing) {
        if is_solid_at(map, n) {
            points.push(solid_point(map, n))?;
        }
    }
    Ok(points)
}

/// The solid things of the map as points, in bands of rows.
pub(crate) fn file_solids(alloc: Global, map: &Map) -> Result<FiledLines, AllocError>
    ensures { IfOk result (IsFiling (solid_points map.now.tables)) }
{
    let points = solid_points(alloc, map)?;
    file_each(alloc, points)
}

// Whether the other thing, with its body, is in the way of the thing.
#[tactic(auto, unfolding(crate::specs::Crowds::is_in_way))]
fn is_in_way(thing: &Thing, body: &Body, other: &Thing, others: &Body) -> bool
    ensures { result ≡ is_in_way thing.now body.now other.now others.now }
{
    let radii = u16::from(body.radius) + u16::from(others.radius);
    squares_overlap(thing.place(), other.place(), radii) && share_game(thing, other)
}

// Whether the other thing is solid, and in the way of the thing.
fn is_solid_in_way(thing: &Thing, body: &Body, other: &Thing) -> bool
    ensures { result ≡ is_solid_in_way thing.now body.now other.now }
{
    match body_of(other) {
        Some(others) => is_in_way(thing, body, other, &others),
        None => false,
    }
}

// Whether thing k is another solid thing than n, and in its way.
#[tactic(auto, unfolding(crate::specs::Crowds::is_blocked_by))]
fn is_blocked_by(map: &Map, n: u32, thing: &Thing, body: &Body, k: u32) -> bool
    ensures { result ≡ is_blocked_by map.now.tables n thing.now body.now k }
{
    if k == n {
        return false;
    }
    match map.thing(k) {
        Some(other) => is_solid_in_way(thing, body, &other),
        None => false,
    }
}

// Whether the widest body would reach from the place to the thing.
fn is_near(thing: &Thing, body: &Body, place: Vertex) -> bool
    ensures { result ≡ is_near thing.now body.now place }
{
    let reach = u16::from(body.radius) + u16::from(WIDEST);
    squares_overlap(thing.place(), place, reach)
}

// Whether the point is near thing n, and its thing is another solid one in the way.
#[tactic(auto, unfolding(crate::specs::Points::is_blocked_at))]
fn is_blocked_at(map: &Map, n: u32, thing: &Thing, body: &Body, point: &PlacedLine) -> bool
    ensures { result ≡ is_blocked_at map.now.tables n thing.now body.now point.now }
{
    is_near(thing, body, point.from) && is_blocked_by(map, n, thing, body, point.number)
}

// Whether that of one of the points is.
fn is_blocked_among(map: &Map, n: u32, thing: &Thing, body: &Body, points: &[PlacedLine]) -> bool
    ensures { result ≡ list_any (is_blocked_at map.now.tables n thing.now body.now) points.now }
{
    points
        .iter()
        .any(|point| is_blocked_at(map, n, thing, body, point))
}

/// Whether another solid thing is in the way of thing n. Its place then lies in a row near the thing, so only the bands
/// of these rows are searched.
pub(crate) fn is_blocked(map: &Map, solids: &FiledLines, n: u32, thing: &Thing, body: &Body) -> bool
    requires solids { IsFiling (solid_points map.now.tables) solids.now }
    requires thing { IsThing thing.now }
    ensures { result ≡ is_blocked map.now.tables n thing.now body.now }
{
    let reach = i16::from(body.radius) + i16::from(WIDEST);
    let first = band_near(thing, -reach);
    let last = band_near(thing, reach);
    for band in first..last + 1 {
        if is_blocked_among(map, n, thing, body, solids.bands[band].lines()) {
            return true;
        }
    }
    false
}
