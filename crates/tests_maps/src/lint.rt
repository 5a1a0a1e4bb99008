//! The warnings of drawn maps.

use crate::drawing::{draw, drawn};
use map_lint::lint;
use map_tables::Map;
use std::alloc::Global;
use std::test::Fail;
use tests_rows::{expect_text, halves, said};

// The warnings as text, each ended by `;`.
pub fn report(alloc: Global, map: &Map) -> Result<String, Fail> {
    let mut text = String::new(alloc);
    for warning in &lint(alloc, map)? {
        write!(text, "{warning};")?;
    }
    Ok(text)
}

// The warnings of the map that the lines, the further lines and the last ones draw.
fn report_of(alloc: Global, lines: &str, further: &str, last: &str) -> Result<String, Fail> {
    let mut maps = drawn(alloc, lines)?;
    draw(&mut maps, further)?;
    draw(&mut maps, last)?;
    report(alloc, maps.current())
}

// The further lines of each row have the row's warnings between the lines and the last ones.
pub fn expect_reports(alloc: Global, lines: &str, rows: &str, last: &str) -> Result<(), Fail> {
    for row in rows.split('\n') {
        let (further, warnings) = halves(row);
        let found = report_of(alloc, lines, further, last)?;
        expect_text(row, found.as_str(), warnings)?;
    }
    Ok(())
}

// Lines that draw a map, and its warnings; the brain of a boss is drawn last. Line 0 of a room goes from (0,0) to
// (0,128), and so on clockwise. The seventh row has a switch that needs no tag, a lift without a tag,
// a lift whose tag no sector has, and one with the tag of a sector. In the fifteenth one the walls have their
// right sides on the outside. Last come a sector without a line, with lines that have it on both sides, inside out, and
// the right way round.
const REPORTS: &str = "ROOM;START|\n\
    TWO_ROOMS;START|\n\
    ROOM|no-start 1;\n\
    ROOM;START;thing 64 32 90 2 7;thing 32 64 90 2 7;thing 32 32 90 4 7;thing 96 32 90 11 7|\
    start-twice 1 at (64,32);start-twice 2 at (32,64);few-deathmatch-starts 1;\n\
    ROOM;START;set-sector 0 64 63 FLOOR4_8 CEIL3_5 160 0 0|ceiling-below-floor 0;\n\
    ROOM;START;set-sector 0 64 64 FLOOR4_8 CEIL3_5 160 0 0|\n\
    ROOM;START;set-line 0 0 1 1 11 0 0 -;set-line 1 1 2 1 62 0 1 -;set-line 2 2 3 1 62 7 2 -;\
    set-line 3 3 0 1 62 5 3 -;set-sector 0 0 128 FLOOR4_8 CEIL3_5 160 0 5|\
    tag-missing 1 at (0,128) (128,128);tag-of-no-sector 2 at (128,128) (128,0);\n\
    ROOM;START;set-sector 0 0 128 FLOOR4_8 CEIL3_5 160 0 9|tag-of-no-line 0;\n\
    ROOM;START;set-sector 0 0 128 FLOOR4_8 CEIL3_5 160 9 666|\n\
    ROOM;START;set-line 3 3 0 1 78 0 3 -;set-line 2 2 3 1 142 0 2 -;set-line 1 1 2 1 48 0 1 -|\
    line-special-unknown 2 at (128,128) (128,0);line-special-unknown 3 at (128,0) (0,0);\n\
    ROOM;START;set-sector 0 0 128 FLOOR4_8 CEIL3_5 160 6 0|sector-special-unknown 0;\n\
    ROOM;START;thing 64 32 90 2009 7;thing 64 32 90 3006 7;thing 64 32 90 0 7|\
    thing-type-unknown 1 at (64,32);thing-type-unknown 3 at (64,32);\n\
    TWO_ROOMS;START;set-side 4 0 0 - STEP1 - 0|texture-hidden 2 at (128,128) (128,0);\n\
    TWO_ROOMS;START;set-side 4 0 0 - - MIDGRATE 0|\n\
    ROOM;START;set-line 0 1 0 1 0 0 0 -;set-line 1 2 1 1 0 0 1 -;set-line 2 3 2 1 0 0 2 -;set-line 3 0 3 1 0 0 3 -|\
    sector-inside-out 0;thing-outside 0 at (64,64);thing-outside 1 at (100,100);\n\
    ROOM;START;SECTOR|\n\
    TRIANGLE;side 0 0 - - - 1;line 4 5 4 0 0 4 4;line 5 6 4 0 0 4 4;line 6 4 4 0 0 4 4|\n\
    TRIANGLE;side 0 0 - - - 1;line 4 5 4 0 0 4 0;line 5 6 4 0 0 4 0;line 6 4 4 0 0 4 0|sector-inside-out 1;\n\
    TRIANGLE;side 0 0 - - - 1;line 4 5 4 0 0 0 4;line 5 6 4 0 0 0 4;line 6 4 4 0 0 0 4|";

// The same for lines that cross. A crossing in the middle of both lines; one at (200,2300/3), outside the room and six
// bands above it; an end on a wall, between the wall's ends; lines along each other: in part, from a common end, and
// all the way; two lines that end on a third one; lines with only an end in common, apart on one straight line, and
// apart with boxes that meet.
const CROSSINGS: &str = "PLACES;vertex 48 64;line 4 6 4 0 0 0 0;vertex 80 16;line 9 10 4 0 0 0 0|\
    line-crossed 4 at (32,32) (96,32);line-crossed 5 at (48,64) (80,16);\n\
    ROOM;START;vertex 200 -1000;vertex 200 1000;vertex 150 700;vertex 300 900;line 4 5 4 0 0 0 0;line 6 7 4 0 0 0 0|\
    line-crossed 4 at (200,-1000) (200,1000);line-crossed 5 at (150,700) (300,900);\n\
    PLACES;line 8 4 4 0 0 0 0|line-crossed 0 at (0,0) (0,128);line-crossed 4 at (0,64) (32,32);\n\
    PLACES;line 4 8 4 0 0 0 0|line-crossed 0 at (0,0) (0,128);line-crossed 4 at (32,32) (0,64);\n\
    PLACES;line 4 6 4 0 0 0 0;line 5 7 4 0 0 0 0|\
    line-crossed 4 at (32,32) (96,32);line-crossed 5 at (64,32) (112,32);\n\
    PLACES;line 4 5 4 0 0 0 0;line 4 6 4 0 0 0 0|\
    line-crossed 4 at (32,32) (64,32);line-crossed 5 at (32,32) (96,32);\n\
    PLACES;line 4 5 4 0 0 0 0;line 5 4 4 0 0 0 0|\
    line-crossed 4 at (32,32) (64,32);line-crossed 5 at (64,32) (32,32);\n\
    PLACES;vertex 48 64;line 4 6 4 0 0 0 0;line 5 8 4 0 0 0 0;line 5 9 4 0 0 0 0|\
    line-crossed 0 at (0,0) (0,128);line-crossed 4 at (32,32) (96,32);\
    line-crossed 5 at (64,32) (0,64);line-crossed 6 at (64,32) (48,64);\n\
    PLACES;line 4 5 4 0 0 0 0;line 5 6 4 0 0 0 0|\n\
    PLACES;line 4 5 4 0 0 0 0;line 6 7 4 0 0 0 0|\n\
    PLACES;vertex 96 96;line 4 9 4 0 0 0 0;vertex 80 48;line 5 10 4 0 0 0 0|";

// The same for things outside the walls, in a hole, on a wall, and on a two-sided line. The hole is a pillar, and the
// things are in it, beside it, and level with its corners.
const PLACED: &str =
    "ROOM;START;thing 200 64 90 2001 7;thing -8 64 90 2001 7;thing 64 129 90 2001 7|\
    thing-outside 1 at (200,64);thing-outside 2 at (-8,64);thing-outside 3 at (64,129);\n\
    ROOM;START;vertex 32 32;vertex 32 48;vertex 48 48;vertex 48 32;line 4 7 1 0 0 0 -;line 7 6 1 0 0 0 -;\
    line 6 5 1 0 0 0 -;line 5 4 1 0 0 0 -;thing 40 40 90 2001 7;thing 16 40 90 2001 7;thing 16 32 90 2001 7;\
    thing 16 48 90 2001 7|thing-outside 1 at (40,40);\n\
    ROOM;START;thing 128 64 90 2001 7;thing 64 0 90 2001 7;thing 127 127 90 2001 7|\
    thing-outside 1 at (128,64);thing-outside 2 at (64,0);\n\
    TWO_ROOMS;START;thing 128 64 90 2001 7|";

#[test]
fn maps_have_their_warnings(rt: HostRuntime) -> Result<(), Fail> {
    expect_reports(rt.alloc(), "", REPORTS, "BRAIN")?;
    expect_reports(rt.alloc(), "", CROSSINGS, "BRAIN")?;
    expect_reports(rt.alloc(), "", PLACED, "BRAIN")
}

// The warnings of a room without a start or an exit, and with a thing outside it.
const FOUND: &str =
    "[Warning { rule: PlayerStart, number: 1, whereabouts: Unplaced, shown: None }, \
    Warning { rule: ThingInside, number: 0, whereabouts: At(Vertex { x: 200, y: 64 }), shown: None }, \
    Warning { rule: LevelEnds, number: 0, whereabouts: Unplaced, shown: None }]";

#[test]
fn a_warning_has_its_rule_number_and_place(rt: HostRuntime) -> Result<(), Fail> {
    let lines = "ROOM;thing 200 64 90 2001 7";
    let maps = drawn(rt.alloc(), lines)?;
    let found = lint(rt.alloc(), maps.current())?;
    let text = said(rt.alloc(), &found.as_slice())?;
    expect_text(lines, text.as_str(), FOUND)
}
