//! The new map, keys, names and refusals. Edits are tested by lines (`lines.rt`, `tests_runs`).

use crate::drawing::{draw, drawn};
use crate::expect::same;
use lump_records::Vertex;
use map_tables::{Kind, Map, MapError, Maps, is_marker, is_name, squared_distance};
use std::alloc::Global;
use std::test::Fail;
use tests_rows::{expect_rows, expect_text, halves, said};

const KINDS: &[Kind] = &[
    Kind::Vertex,
    Kind::Sector,
    Kind::Side,
    Kind::Line,
    Kind::Thing,
];

#[test]
fn the_new_map_is_empty(rt: HostRuntime) -> Result<(), Fail> {
    let map = Map::new(rt.alloc());
    same(&rt, &map.name().text(), &b"MAP01".as_slice());
    for &kind in KINDS {
        same(&rt, &map.count(kind), &0);
        same(&rt, &map.lump(rt.alloc(), kind)?.len(), &0);
    }
    same(&rt, &map.vertex(0), &None);
    Ok(())
}

// Lines that draw three items of a table, and the line that drops the first of them.
const VERTICES: &str = "vertex 0 0;vertex 1 0;vertex 2 0|drop vertex 0";

const SECTORS: &str = "SECTOR;SECTOR;SECTOR|drop sector 0";

const SIDES: &str = "SECTOR;SIDE;SIDE;SIDE|drop side 0";

const LINES: &str =
    "vertex 0 0;vertex 1 0;SECTOR;SIDE;line 0 1 1 0 0 0 -;line 0 1 1 0 0 0 -;line 0 1 1 0 0 0 -|\
    drop line 0";

const THINGS: &str = "thing 0 0 90 1 7;thing 0 0 90 1 7;thing 0 0 90 1 7|drop thing 0";

// The keys of the first three items of a table.
fn keys(maps: &Maps, kind: Kind) -> [Option<usize>; 3] {
    [maps.key(kind, 0), maps.key(kind, 1), maps.key(kind, 2)]
}

// The keys before and after an item is dropped.
fn keys_over_a_drop(
    maps: &mut Maps,
    kind: Kind,
    drop: &str,
) -> Result<[[Option<usize>; 3]; 2], Fail> {
    let before = keys(maps, kind);
    draw(maps, drop)?;
    Ok([before, keys(maps, kind)])
}

// The second and the third item of a table keep their keys when the first one is dropped.
fn expect_keys(alloc: Global, kind: Kind, row: &str) -> Result<(), Fail> {
    let (lines, drop) = halves(row);
    let mut maps = drawn(alloc, lines)?;
    let [before, after] = keys_over_a_drop(&mut maps, kind, drop)?;
    let [_, second, third] = before;
    let found = said(alloc, &(second.is_some(), second == third, after))?;
    let wanted = said(alloc, &(true, false, [second, third, None]))?;
    expect_text(row, found.as_str(), wanted.as_str())
}

// An item keeps its key when another one is dropped, though its number falls.
#[test]
fn keys_stay_after_a_drop(rt: HostRuntime) -> Result<(), Fail> {
    expect_keys(rt.alloc(), Kind::Vertex, VERTICES)?;
    expect_keys(rt.alloc(), Kind::Sector, SECTORS)?;
    expect_keys(rt.alloc(), Kind::Side, SIDES)?;
    expect_keys(rt.alloc(), Kind::Line, LINES)?;
    expect_keys(rt.alloc(), Kind::Thing, THINGS)
}

// Whether two maps have the same lumps.
fn have_same_lumps(alloc: Global, map: &Map, other: &Map) -> Result<bool, Fail> {
    for &kind in KINDS {
        if map.lump(alloc, kind)? != other.lump(alloc, kind)? {
            return Ok(false);
        }
    }
    Ok(true)
}

// Whether a copy of the map has the same lumps.
fn is_copied(alloc: Global, map: &Map) -> Result<bool, Fail> {
    let copy = map.copy(alloc)?;
    have_same_lumps(alloc, &copy, map)
}

fn copied(alloc: Global, lines: &str) -> Result<String, Fail> {
    let maps = drawn(alloc, lines)?;
    said(alloc, &is_copied(alloc, maps.current())?)
}

// Lines that draw three items of a table and drop the first of them, in a map that has a copy with the same lumps.
const COPIES: &str = "vertex 0 0;vertex 1 0;vertex 2 0;drop vertex 0|true\n\
    SECTOR;SECTOR;SECTOR;drop sector 0|true\n\
    SECTOR;SIDE;SIDE;SIDE;drop side 0|true\n\
    vertex 0 0;vertex 1 0;SECTOR;SIDE;line 0 1 1 0 0 0 -;line 0 1 1 0 0 0 -;line 0 1 1 0 0 0 -;drop line 0|true\n\
    thing 0 0 90 1 7;thing 0 0 90 1 7;thing 0 0 90 1 7;drop thing 0|true";

// A copy has the records of its map, also where keys have gaps.
#[test]
fn copies_have_the_same_lumps(rt: HostRuntime) -> Result<(), Fail> {
    expect_rows(rt.alloc(), COPIES, copied)
}

// Texts, and whether each is a name of a texture or flat, and whether it is a marker.
const NAMES: &str = "-|(true, false)\n\
    FLOOR4_8|(true, false)\n\
    A[B]C\\_9|(true, false)\n\
    |(false, false)\n\
    floor4_8|(false, false)\n\
    FLOOR4_8X|(false, false)\n\
    A B|(false, false)\n\
    MAP01|(true, true)\n\
    MAP99|(true, true)\n\
    E1M1|(true, true)\n\
    E9M9|(true, true)\n\
    MAP00|(true, false)\n\
    MAP1|(true, false)\n\
    MAP001|(true, false)\n\
    E0M1|(true, false)\n\
    E1M0|(true, false)\n\
    map01|(false, false)";

fn name_and_marker(alloc: Global, text: &str) -> Result<String, Fail> {
    said(
        alloc,
        &(is_name(text.as_bytes()), is_marker(text.as_bytes())),
    )
}

#[test]
fn names_have_their_bytes(rt: HostRuntime) -> Result<(), Fail> {
    expect_rows(rt.alloc(), NAMES, name_and_marker)
}

// Each refusal.
fn refusals() -> [MapError; 17] {
    [
        MapError::NoVertex,
        MapError::NoSector,
        MapError::NoSide,
        MapError::NoLine,
        MapError::NoThing,
        MapError::InUse,
        MapError::SameEnds,
        MapError::PlaceTaken,
        MapError::TwoSidedWithoutLeft,
        MapError::TableFull,
        MapError::LineTooLong,
        MapError::TooManyMaps,
        MapError::MapNameTaken,
        MapError::NoSuchMap,
        MapError::CurrentMap,
        MapError::OutOfMemory,
        MapError::Damaged(0),
    ]
}

// The number of each.
const NUMBERS: &str = "\
    NoVertex 3;NoSector 4;NoSide 5;NoLine 6;NoThing 7;InUse 8;SameEnds 9;PlaceTaken 10;\
    TwoSidedWithoutLeft 11;TableFull 12;LineTooLong 13;TooManyMaps 16;MapNameTaken 17;NoSuchMap 18;\
    CurrentMap 19;OutOfMemory 31;Damaged(0) 40;";

#[test]
fn refusals_have_their_numbers(rt: HostRuntime) -> Result<(), Fail> {
    let mut found = String::new(rt.alloc());
    for refusal in refusals() {
        write!(found, "{refusal:?} {};", refusal.code())?;
    }
    expect_text("refusals", found.as_str(), NUMBERS)
}

#[test]
fn distances_are_squared(rt: HostRuntime) {
    let from = Vertex {
        x: -12000,
        y: -12000,
    };
    let to = Vertex { x: 11169, y: 11169 };
    assert_eq!(rt; squared_distance(from, to), 1_073_605_122);
}
