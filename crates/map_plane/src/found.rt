//! The items of a map at a place.
ghost use Rattle.std.specs.Prelude.{◌≡◌};
ghost use Rattle.map_plane.specs.Found.{IsLeastOf, stands_at};
ghost use Rattle.map_plane.specs.Meeting.{is_at, is_on};
ghost use Rattle.map_plane.specs.Places.{placed_lines};

use crate::meeting::{is_at, is_on};
use crate::places::placed;
use lump_records::Vertex;
use map_tables::{Kind, Map};

/// The vertex at the place.
pub fn vertex_at(map: &Map, place: Vertex) -> Option<u16>
    ensures { IsLeastOf (is_at place) map.now.tables.vertices result }
{
    for n in 0..map.count(Kind::Vertex) {
        let vertex = map.vertex(n).unwrap();
        if is_at(place, vertex) {
            return Some(n as u16);
        }
    }
    None
}

/// The thing at the place, the least number of several.
pub fn thing_at(map: &Map, place: Vertex) -> Option<u16>
    ensures { IsLeastOf (stands_at place) map.now.tables.things result }
{
    for n in 0..map.count(Kind::Thing) {
        let thing = map.thing(n).unwrap();
        if is_at(place, thing.place()) {
            return Some(n as u16);
        }
    }
    None
}

/// The line on which the place lies, its ends included: the least number of several.
pub fn line_at(map: &Map, place: Vertex) -> Option<u16>
    ensures { IsLeastOf (λ l. is_on l place) (placed_lines map.now.tables) result }
{
    for n in 0..map.count(Kind::Line) {
        let line = map.line(n).unwrap();
        if is_on(&placed(map, n, &line), place) {
            return Some(n as u16);
        }
    }
    None
}
