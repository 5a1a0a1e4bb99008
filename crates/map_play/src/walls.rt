//! Lines that stop a thing whose square they reach into. The rule is the engine's own (`PIT_CheckLine` of its source).
ghost use Rattle.std.specs.Prelude.{◌≡◌, ◌≢◌, ◌-ℤ◌};
ghost use Rattle.std.specs.Int.{int_max, int_min};
ghost use Rattle.std.specs.List.{list_any};
ghost use Rattle.lump_records.specs.Sides.{no_side};
ghost use Rattle.map_plane.specs.Bands.{AreFiledLines};
ghost use Rattle.map_tables.specs.Ranges.{IsThing};
ghost use Rattle.map_tables.specs.WellFormed.{HasSides};
ghost use Rattle.map_play.specs.Neighbours.{floor_of};
ghost use Rattle.map_play.specs.Walls.{ceiling_of, opening_height, is_barred, stops, is_stopped_by, is_walled_in};

use crate::bodies::Body;
use crate::games::is_any_start;
use crate::near::band_near;
use crate::neighbours::floor_of;
use crate::sided::{sector_behind, sector_on_right};
use lump_records::{Line, Thing};
use map_plane::{FiledLines, PlacedLine, cuts_square};
use map_tables::Map;

// The ceiling of the sector with the number, or 0.
fn ceiling_of(map: &Map, n: u32) -> i16
    ensures { result ≡ ceiling_of map.now.tables.sectors n }
{
    match map.sector(n) {
        Some(sector) => sector.ceiling,
        None => 0,
    }
}

// The lesser of two heights.
fn lower(a: i16, b: i16) -> i16
    ensures { result ≡ int_min a b }
{
    a.min(b)
}

// The greater of two heights.
fn higher(a: i16, b: i16) -> i16
    ensures { result ≡ int_max a b }
{
    a.max(b)
}

// The lower of the ceilings of two sectors.
fn lower_ceiling(map: &Map, a: u32, b: u32) -> i16
    ensures { result ≡ int_min (ceiling_of map.now.tables.sectors a)
        (ceiling_of map.now.tables.sectors b) }
{
    lower(ceiling_of(map, a), ceiling_of(map, b))
}

// The higher of the floors of two sectors.
fn higher_floor(map: &Map, a: u32, b: u32) -> i16
    ensures { result ≡ int_max (floor_of map.now.tables.sectors a)
        (floor_of map.now.tables.sectors b) }
{
    higher(floor_of(map, a), floor_of(map, b))
}

// How much higher the top is than the bottom.
fn height_from(bottom: i16, top: i16) -> i32
    ensures { result ≡ top -ℤ bottom }
{
    i32::from(top) - i32::from(bottom)
}

// How high the opening of the line with two sides is.
#[tactic(auto, unfolding(crate::specs::Walls::opening_height))]
fn opening_height(map: &Map, line: &Line) -> i32
    requires sides { HasSides map.now.tables.sides line.now }
    requires left { line.now.left ≢ no_side }
    ensures { result ≡ opening_height map.now.tables line.now }
{
    let right = u32::from(sector_on_right(map, line));
    let left = u32::from(sector_behind(map, line));
    height_from(
        higher_floor(map, right, left),
        lower_ceiling(map, right, left),
    )
}

// Whether the line bars the thing by its flags.
fn is_barred(thing: &Thing, line: &Line) -> bool
    ensures { result ≡ is_barred thing.now line.now }
{
    line.flags % 2 == 1 || line.flags / 2 % 2 == 1 && !is_any_start(thing)
}

// Whether the line stops a thing of the height.
#[tactic(auto, unfolding(crate::specs::Walls::stops))]
fn stops(map: &Map, thing: &Thing, height: u8, line: &Line) -> bool
    requires { HasSides map.now.tables.sides line.now }
    ensures { result ≡ stops map.now.tables thing.now height line.now }
{
    !line.has_left() || is_barred(thing, line) || opening_height(map, line) < i32::from(height)
}

// Whether the line reaches into the thing's square, and stops it. It isn't inlined into the loop over the lines, since
// few boxes reach so far.
#[inline(never)]
#[tactic(auto, unfolding(crate::specs::Walls::is_stopped_by))]
fn is_stopped_by(map: &Map, thing: &Thing, body: &Body, line: &PlacedLine) -> bool
    requires { IsThing thing.now }
    ensures { result ≡ is_stopped_by map.now.tables thing.now body.now line.now }
{
    if !cuts_square(line, thing.place(), body.radius) {
        return false;
    }
    match map.line(line.number) {
        Some(line) => stops(map, thing, body.height, &line),
        None => false,
    }
}

// Whether one of the lines does.
fn is_stopped_among(map: &Map, thing: &Thing, body: &Body, lines: &[PlacedLine]) -> bool
    requires { IsThing thing.now }
    ensures { result ≡ list_any (is_stopped_by map.now.tables thing.now body.now) lines.now }
{
    lines
        .iter()
        .any(|line| is_stopped_by(map, thing, body, line))
}

/// Whether a line reaches into the thing's square, and stops it. It then has a row in common with the square, so only
/// the bands of the square are searched.
pub(crate) fn is_walled_in(map: &Map, filed: &FiledLines, thing: &Thing, body: &Body) -> bool
    requires filed { AreFiledLines map.now.tables filed.now }
    requires thing { IsThing thing.now }
    ensures { result ≡ is_walled_in map.now.tables thing.now body.now }
{
    let first = band_near(thing, -i16::from(body.radius));
    let last = band_near(thing, i16::from(body.radius));
    for band in first..last + 1 {
        if is_stopped_among(map, thing, body, filed.bands[band].lines()) {
            return true;
        }
    }
    false
}
