//! The warnings of maps that stop or spoil a game.

use crate::drawing::{draw, draw_lines, drawn};
use crate::lint::{expect_reports, report};
use map_tables::Maps;
use std::alloc::Global;
use std::test::Fail;
use tests_rows::expect_rows;

// Two rooms, and a third one to the west of the first, behind line 0.
const WEST: &str =
    "TWO_ROOMS;START;SECTOR;side 0 0 - - - 2;side 0 0 - - STARTAN3 2;vertex -128 128;vertex -128 0;\
    set-side 0 0 0 - - - 0;set-line 0 0 1 4 0 0 0 6;line 0 7 1 0 0 7 -;line 7 6 1 0 0 7 -;line 6 1 1 0 0 7 -";

// In each text below a row has the lines that are drawn, each but the last ended by `;`, and behind a `|` the warnings,
// each ended by `;`.

// Doors at the walls of a room; the brain of a boss is drawn last.
const ROOM_STOPS: &str =
    "thing 64 64 90 1 7;set-line 0 0 1 1 1 0 0 -|door-without-back 0 at (0,0) (0,128);\n\
    thing 64 64 90 1 7;set-line 0 0 1 1 118 0 0 -|door-without-back 0 at (0,0) (0,128);";

// The same in two rooms. Doors with a room behind. Teleporters: to a landing in the other room, to one in the room
// itself, to a room without one, and to no room. Locked doors: without a key, with the card, with the skull, and with a
// key of another colour. A donut whose ring's first line has no left side.
const STOPS: &str = "thing 64 64 90 1 7;set-line 2 2 3 4 1 0 2 4|\n\
    thing 64 64 90 1 7;set-line 2 2 3 4 31 0 2 4|\n\
    thing 64 64 90 1 7;set-line 2 2 3 4 97 7 2 4;set-sector 1 0 128 FLOOR4_8 CEIL3_5 160 0 7;thing 192 64 90 14 7|\n\
    thing 64 64 90 1 7;set-line 2 2 3 4 97 7 2 4;set-sector 1 0 128 FLOOR4_8 CEIL3_5 160 0 7;thing 32 64 90 14 7|\
    teleport-nowhere 2 at (128,128) (128,0);\n\
    thing 64 64 90 1 7;set-line 2 2 3 4 126 7 2 4;set-sector 1 0 128 FLOOR4_8 CEIL3_5 160 0 7|\
    teleport-nowhere 2 at (128,128) (128,0);\n\
    thing 64 64 90 1 7;set-line 2 2 3 4 39 7 2 4|tag-of-no-sector 2 at (128,128) (128,0);\n\
    thing 64 64 90 1 7;set-line 2 2 3 4 26 0 2 4|key-missing 2 at (128,128) (128,0);\n\
    thing 64 64 90 1 7;set-line 2 2 3 4 26 0 2 4;thing 64 16 90 5 7|\n\
    thing 64 64 90 1 7;set-line 2 2 3 4 32 0 2 4;thing 64 16 90 40 7|\n\
    thing 64 64 90 1 7;set-line 2 2 3 4 32 0 2 4;thing 64 16 90 38 7|key-missing 2 at (128,128) (128,0);\n\
    thing 64 64 90 1 7;set-line 2 2 3 4 34 0 2 4;thing 64 16 90 6 7|\n\
    thing 64 64 90 1 7;set-line 2 2 3 4 27 0 2 4;thing 64 16 90 40 7|key-missing 2 at (128,128) (128,0);\n\
    thing 64 64 90 1 7;set-line 2 2 3 4 28 0 2 4;thing 64 16 90 13 7|\n\
    thing 64 64 90 1 7;set-line 2 2 3 4 33 0 2 4;thing 64 16 90 5 7|key-missing 2 at (128,128) (128,0);\n\
    thing 64 64 90 1 7;set-line 4 2 4 1 9 7 5 -;set-sector 1 0 128 FLOOR4_8 CEIL3_5 160 0 7|\
    donut-without-back 0 at (0,0) (0,128);";

// Further lines in two rooms with a third one to the west, and the warnings. Pools: the eastern room; the western one,
// whose ring has it on the left of its first line, so that the second counts; and the middle one, whose own first line
// has no left side once it is a wall again.
const POOLS: &str = "set-line 4 2 4 1 9 7 5 -;set-sector 1 0 128 FLOOR4_8 CEIL3_5 160 0 7|\n\
    set-line 4 2 4 1 9 7 5 -;set-sector 2 0 128 FLOOR4_8 CEIL3_5 160 0 7|donut-without-back 1 at (0,128) (128,128);\n\
    set-line 4 2 4 1 9 7 5 -;set-sector 0 0 128 FLOOR4_8 CEIL3_5 160 0 7|\n\
    set-line 4 2 4 1 9 7 5 -;set-sector 0 0 128 FLOOR4_8 CEIL3_5 160 0 7;set-line 0 0 1 1 0 0 0 6|\
    donut-without-back 0 at (0,0) (0,128);";

const HALL: &str = "room 0 0 512 512 0 128 FLOOR4_8 CEIL3_5 STARTAN3 160;START";

// Further lines in a hall with a start, and the warnings: what ends a level, and what doesn't.
const ENDS: &str = "|no-exit 0;\n\
    set-line 0 0 1 1 11 0 0 -|\n\
    set-line 0 0 1 1 51 0 0 -|\n\
    set-line 0 0 1 1 52 0 0 -|\n\
    set-line 0 0 1 1 124 0 0 -|\n\
    set-sector 0 0 128 FLOOR4_8 CEIL3_5 160 11 0|\n\
    set-sector 0 0 128 FLOOR4_8 CEIL3_5 160 16 0|no-exit 0;\n\
    thing 100 100 90 88 7|\n\
    thing 256 256 90 16 7|no-exit 0;\n\
    name E2M8;thing 256 256 90 16 7|\n\
    name E2M8;thing 256 256 90 7 7|no-exit 0;\n\
    name E3M8;thing 256 256 90 7 7|\n\
    name E1M8;thing 256 256 90 3003 7|no-exit 0;";

#[test]
fn games_are_stopped(rt: HostRuntime) -> Result<(), Fail> {
    expect_reports(rt.alloc(), "ROOM", ROOM_STOPS, "BRAIN")?;
    expect_reports(rt.alloc(), "TWO_ROOMS", STOPS, "BRAIN")
}

#[test]
fn a_donut_looks_across_two_lines(rt: HostRuntime) -> Result<(), Fail> {
    expect_reports(rt.alloc(), WEST, POOLS, "BRAIN")
}

#[test]
fn a_level_has_an_end(rt: HostRuntime) -> Result<(), Fail> {
    expect_reports(rt.alloc(), HALL, ENDS, "")
}

// How many lines scroll, and the warnings.
const SCROLLS: &str = "64|\n\
    65|too-many-scrolls 68 at (74,10) (75,10);\n\
    66|too-many-scrolls 68 at (74,10) (75,10);";

// Draws so many lines, one after the other to the east, from the vertex 4 at (10,y) on; `rest` is what follows their
// ends.
fn draw_strip(alloc: Global, maps: &mut Maps, count: u32, y: u32, rest: &str) -> Result<(), Fail> {
    for n in 4..count.saturating_add(4) {
        let next = n.saturating_add(1);
        let x = n.saturating_add(7);
        let text = format!(in alloc; "vertex {x} {y};line {n} {next} {rest}")?;
        draw_lines(maps, text.as_str())?;
    }
    Ok(())
}

// The warnings of a room with so many lines that scroll.
fn scroll_report(alloc: Global, count: &str) -> Result<String, Fail> {
    let mut maps = drawn(alloc, "ROOM;START;BRAIN;vertex 10 10")?;
    draw_strip(alloc, &mut maps, count.parse()?, 10, "4 48 0 0 0")?;
    report(alloc, maps.current())
}

#[test]
fn sixty_four_lines_scroll(rt: HostRuntime) -> Result<(), Fail> {
    expect_rows(rt.alloc(), SCROLLS, scroll_report)
}

// How many lines the top of a pit of floor 0 has beside the pit's two other ones, the sector of the room round it, and
// the warnings. A line raises the pit to the next higher floor.
const PITS: &str = "20 set-sector 0 8 128 FLOOR4_8 CEIL3_5 160 0 0|\n\
    21 set-sector 0 8 128 FLOOR4_8 CEIL3_5 160 0 0|too-many-neighbours 1;\n\
    21 set-sector 0 0 128 FLOOR4_8 CEIL3_5 160 0 0|";

// A room, a line that raises the sectors with tag 7, one of them, and the first corner of a pit.
const PIT: &str =
    "ROOM;START;BRAIN;SECTOR;side 0 0 - - - 1;set-sector 1 0 128 FLOOR4_8 CEIL3_5 160 0 7;\
    set-line 0 0 1 1 20 7 0 -;vertex 10 60";

// Draws the two other lines of a pit with so many lines at its top.
fn draw_rest(alloc: Global, maps: &mut Maps, count: u32) -> Result<(), Fail> {
    let (end, last) = (count.saturating_add(4), count.saturating_add(5));
    let text = format!(in alloc;
        "vertex 10 20;line {end} {last} 4 0 0 4 0;line {last} 4 4 0 0 4 0"
    )?;
    draw_lines(maps, text.as_str())
}

// The warnings of a pit.
fn pit_report(alloc: Global, case: &str) -> Result<String, Fail> {
    let (count, room) = case.split_once(' ').unwrap_or(("0", case));
    let count = count.parse()?;
    let mut maps = drawn(alloc, PIT)?;
    draw(&mut maps, room)?;
    draw_strip(alloc, &mut maps, count, 60, "4 0 0 4 0")?;
    draw_rest(alloc, &mut maps, count)?;
    report(alloc, maps.current())
}

#[test]
fn a_sector_rises_beside_twenty_two_lines(rt: HostRuntime) -> Result<(), Fail> {
    expect_rows(rt.alloc(), PITS, pit_report)
}

// The hall with an end.
const BEGUN: &str =
    "room 0 0 512 512 0 128 FLOOR4_8 CEIL3_5 STARTAN3 160;START;set-line 0 0 1 1 11 0 0 -";

// A further thing in the hall, and the warnings: players, 16 wide to each side, at walls and in a corner; an imp, 20
// wide, and a spider mastermind, 128 wide, each just a step away from a free place, of 8 and of 12, and one further; a
// lamp and a barrel, which don't move; an imp in no game.
const AT_WALLS: &str = "thing 16 256 90 2 7|\n\
    thing 15 256 90 2 7|thing-stuck 1 at (15,256);\n\
    thing 496 496 90 2 7|\n\
    thing 496 497 90 2 7|thing-stuck 1 at (496,497);\n\
    thing 256 500 90 11 7|few-deathmatch-starts 1;thing-stuck 1 at (256,500);\n\
    thing 500 256 90 3001 7|\n\
    thing 501 256 90 3001 7|thing-stuck 1 at (501,256);\n\
    thing 396 256 90 7 7|\n\
    thing 397 256 90 7 7|thing-stuck 1 at (397,256);\n\
    thing 510 256 90 2028 7|\n\
    thing 256 510 90 2035 7|\n\
    thing 500 256 90 3001 0|";

// A further thing in the hall, and the warnings: an imp beside the start and across a corner from it; a lamp and a
// barrel, 16 and 10 wide, which aren't told; what hangs there, not solid and solid; another player; a thing that
// stands only where several play, and one of a single skill; a start of deathmatches.
const AT_THE_START: &str = "thing 100 64 90 3001 7|\n\
    thing 99 64 90 3001 7|thing-stuck 0 at (64,64);\n\
    thing 92 64 90 3001 7|thing-stuck 0 at (64,64);\n\
    thing 91 64 90 3001 7|thing-stuck 0 at (64,64);thing-stuck 1 at (91,64);\n\
    thing 99 100 90 3001 7|\n\
    thing 99 99 90 3001 7|thing-stuck 0 at (64,64);\n\
    thing 91 91 90 3001 7|thing-stuck 0 at (64,64);thing-stuck 1 at (91,91);\n\
    thing 96 64 90 2028 7|\n\
    thing 95 64 90 2028 7|thing-stuck 0 at (64,64);\n\
    thing 64 90 90 2035 7|\n\
    thing 64 89 90 2035 7|thing-stuck 0 at (64,64);\n\
    thing 64 64 90 60 7|\n\
    thing 64 64 90 50 7|thing-stuck 0 at (64,64);\n\
    thing 96 64 90 2 7|\n\
    thing 95 64 90 2 7|thing-stuck 0 at (64,64);thing-stuck 1 at (95,64);\n\
    thing 80 64 90 3001 23|thing-stuck 0 at (64,64);thing-stuck 1 at (80,64);\n\
    thing 80 64 90 3001 4|thing-stuck 0 at (64,64);thing-stuck 1 at (80,64);\n\
    thing 64 64 90 11 7|few-deathmatch-starts 1;";

// Two further things in the hall, and the warnings: an imp beside the widest thing, to the east and to the north, at a
// place from which only a step of that thing, or none, leads away; an
// imp and a demon at one place, with no skill in common, and with one; an imp at a start, which stands in each skill;
// one at a start of deathmatches.
const IN_PAIRS: &str = "thing 256 256 90 7 7;thing 404 256 90 3001 7|\n\
    thing 256 256 90 7 7;thing 395 256 90 3001 7|thing-stuck 2 at (395,256);\n\
    thing 256 256 90 7 7;thing 256 404 90 3001 7|\n\
    thing 256 256 90 7 7;thing 256 395 90 3001 7|thing-stuck 2 at (256,395);\n\
    thing 256 256 90 7 7;thing 256 391 90 3001 7|thing-stuck 1 at (256,256);thing-stuck 2 at (256,391);\n\
    thing 256 256 90 3001 1;thing 256 256 90 3002 6|\n\
    thing 256 256 90 3001 3;thing 256 256 90 3002 6|thing-stuck 1 at (256,256);thing-stuck 2 at (256,256);\n\
    thing 256 256 90 2 0;thing 256 256 90 3001 4|thing-stuck 1 at (256,256);thing-stuck 2 at (256,256);\n\
    thing 256 256 90 11 7;thing 256 256 90 3001 7|few-deathmatch-starts 1;thing-stuck 1 at (256,256);\
    thing-stuck 2 at (256,256);";

// The same with the ends of an upright line and of a sloped one.
const BEGUN_WITH_ENDS: &str =
    "room 0 0 512 512 0 128 FLOOR4_8 CEIL3_5 STARTAN3 160;START;set-line 0 0 1 1 11 0 0 -;\
    vertex 256 100;vertex 256 400;vertex 100 200;vertex 200 300";

// A line with the hall on both sides, a further thing, and the warnings: the line has no flag of a wall, is
// impassable, or blocks monsters; the thing stands on it, beside it, or at its end.
const AT_LINES: &str = "line 4 5 4 0 0 0 0;thing 256 256 90 3001 7|\n\
    line 4 5 5 0 0 0 0;thing 271 256 90 2 7|thing-stuck 1 at (271,256);\n\
    line 4 5 5 0 0 0 0;thing 272 256 90 2 7|\n\
    line 4 5 6 0 0 0 0;thing 256 256 90 2 7|\n\
    line 4 5 6 0 0 0 0;thing 256 256 90 3001 7|thing-stuck 1 at (256,256);\n\
    line 4 5 5 0 0 0 0;thing 256 416 90 2 7|\n\
    line 4 5 5 0 0 0 0;thing 256 415 90 2 7|thing-stuck 1 at (256,415);\n\
    line 6 7 5 0 0 0 0;thing 182 250 90 2 7|\n\
    line 6 7 5 0 0 0 0;thing 181 250 90 2 7|thing-stuck 1 at (181,250);\n\
    line 6 7 5 0 0 0 0;thing 150 282 90 2 7|\n\
    line 6 7 5 0 0 0 0;thing 150 281 90 2 7|thing-stuck 1 at (150,281);\n\
    line 6 7 5 0 0 0 0;thing 216 316 90 2 7|\n\
    line 6 7 5 0 0 0 0;thing 215 315 90 2 7|thing-stuck 1 at (215,315);";

// Two rooms, a start in a corner, and an end.
const IN_A_CORNER: &str = "TWO_ROOMS;thing 20 20 90 1 7;set-line 0 0 1 1 11 0 0 -";

// The sectors of two rooms, a thing, and the warnings: a player is 56 high, a cyberdemon 110.
const AT_OPENINGS: &str =
    "set-sector 0 0 128 FLOOR4_8 CEIL3_5 160 0 0;set-sector 1 72 128 FLOOR4_8 CEIL3_5 160 0 0;\
    thing 113 64 90 2 7|\n\
    set-sector 0 0 128 FLOOR4_8 CEIL3_5 160 0 0;set-sector 1 73 128 FLOOR4_8 CEIL3_5 160 0 0;thing 113 64 90 2 7|\
    thing-stuck 1 at (113,64);\n\
    set-sector 0 0 128 FLOOR4_8 CEIL3_5 160 0 0;set-sector 1 73 128 FLOOR4_8 CEIL3_5 160 0 0;thing 112 64 90 2 7|\n\
    set-sector 0 40 128 FLOOR4_8 CEIL3_5 160 0 0;set-sector 1 0 96 FLOOR4_8 CEIL3_5 160 0 0;thing 120 64 90 2 7|\n\
    set-sector 0 40 128 FLOOR4_8 CEIL3_5 160 0 0;set-sector 1 0 95 FLOOR4_8 CEIL3_5 160 0 0;thing 120 64 90 2 7|\
    thing-stuck 1 at (120,64);\n\
    set-sector 0 0 128 FLOOR4_8 CEIL3_5 160 0 0;set-sector 1 0 110 FLOOR4_8 CEIL3_5 160 0 0;thing 105 64 90 16 7|\n\
    set-sector 0 0 128 FLOOR4_8 CEIL3_5 160 0 0;set-sector 1 0 109 FLOOR4_8 CEIL3_5 160 0 0;thing 105 64 90 16 7|\
    thing-stuck 1 at (105,64);";

#[test]
fn walls_hold_things(rt: HostRuntime) -> Result<(), Fail> {
    expect_reports(rt.alloc(), BEGUN, AT_WALLS, "")
}

#[test]
fn things_hold_a_player(rt: HostRuntime) -> Result<(), Fail> {
    expect_reports(rt.alloc(), BEGUN, AT_THE_START, "")
}

#[test]
fn things_hold_one_another(rt: HostRuntime) -> Result<(), Fail> {
    expect_reports(rt.alloc(), BEGUN, IN_PAIRS, "")
}

#[test]
fn lines_hold_things_by_their_flags(rt: HostRuntime) -> Result<(), Fail> {
    expect_reports(rt.alloc(), BEGUN_WITH_ENDS, AT_LINES, "")
}

#[test]
fn low_openings_hold_things(rt: HostRuntime) -> Result<(), Fail> {
    expect_reports(rt.alloc(), IN_A_CORNER, AT_OPENINGS, "")
}
