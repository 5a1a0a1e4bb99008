//! Lines with their answers: several maps, and tables at their limits.

use crate::drawing::{AMPLE, answer, drawn};
use map_commands::{CommandError, commit, parse, ready};
use map_tables::{Kind, Maps};
use std::alloc::Global;
use std::test::Fail;
use tests_rows::{expect_rows, expect_text, halves, said};

// How long the body may be, and lines with their answers; then how many maps there are, which is current, and how long
// the body is. First come two maps with a room each; then the first of them is dropped. A body has 18 bytes for each
// map besides its items. A command that doesn't lengthen the body is never refused for the body's length. Any map but
// the current one can be dropped; then greater numbers fall by one. Two maps never have the same name, but a map may be
// given its own name again.
const DRAWINGS: &str =
    "2007002;room 0 0 128 128 0 128 FLOOR4_8 CEIL3_5 STARTAN3 160:Ok(0);map MAP02:Ok(1);\
    room 0 0 128 128 0 128 FLOOR4_8 CEIL3_5 STARTAN3 160:Ok(0);split 0 0 64:Ok(4);thing 64 64 90 1 7:Ok(0);\
    side 0 0 - - STARTAN3 0:Ok(4);sector 0 128 FLOOR4_8 CEIL3_5 160 0 0:Ok(1);name MAP01:Err(17);name MAP02:Ok(0);\
    drop-map MAP02:Err(19);drop-map E1M1:Err(18);drop-map MAP01:Ok(0)|[1, 0, 322]\n\
    51;map MAP02:Ok(1);map MAP03:Err(14);vertex 0 0:Ok(0);vertex 1 0:Ok(1);vertex 2 0:Ok(2);vertex 3 0:Err(14);\
    map MAP01:Ok(0)|[2, 0, 50]\n\
    51;vertex 0 0:Ok(0);vertex 1 0:Ok(1);vertex 2 0:Ok(2);vertex 3 0:Ok(3);vertex 4 0:Ok(4);vertex 5 0:Ok(5);\
    vertex 6 0:Ok(6);vertex 7 0:Err(14);vertex 6 0:Err(10);move-vertex 6 9 9:Ok(6);drop vertex 6:Ok(6)|[1, 0, 44]\n\
    2007002;map E1M1:Ok(1);map MAP02:Ok(2);map E1M1:Ok(1);drop-map E1M1:Err(19);drop-map MAP02:Ok(2);\
    drop-map MAP01:Ok(0);drop-map MAP01:Err(18);map E1M1:Ok(0)|[1, 0, 20]\n\
    2007002;map MAP02:Ok(1);name MAP01:Err(17);name MAP02:Ok(0);name E1M1:Ok(0);drop-map MAP02:Err(18);\
    map MAP01:Ok(0);map E1M1:Ok(1)|[2, 1, 38]";

// Draws lines, and tests the answer to each.
fn draw_answered(alloc: Global, maps: &mut Maps, cap: u32, lines: &str) -> Result<(), Fail> {
    for row in lines.split(';') {
        let (line, wanted) = row.split_once(':').unwrap_or((row, ""));
        let found = said(alloc, &answer(maps, line.as_bytes(), cap))?;
        expect_text(row, found.as_str(), wanted)?;
    }
    Ok(())
}

// How many maps there are, which is current, and how long the body is.
fn counts(alloc: Global, case: &str) -> Result<String, Fail> {
    let (cap, lines) = case.split_once(';').unwrap_or((case, ""));
    let cap = cap.parse()?;
    let mut maps = Maps::new(alloc);
    draw_answered(alloc, &mut maps, cap, lines)?;
    said(alloc, &[maps.len(), maps.current_number(), maps.body_len()])
}

#[test]
fn draws_projects(rt: HostRuntime) -> Result<(), Fail> {
    expect_rows(rt.alloc(), DRAWINGS, counts)
}

// There are at most 32 maps. A further one is refused with 16, although it wouldn't fit in the body either.
const THIRTY_TWO: &str =
    "578;map MAP01:Ok(0);map MAP02:Ok(1);map MAP03:Ok(2);map MAP04:Ok(3);map MAP05:Ok(4);\
    map MAP06:Ok(5);map MAP07:Ok(6);map MAP08:Ok(7);map MAP09:Ok(8);map MAP10:Ok(9);map MAP11:Ok(10);map MAP12:Ok(11);\
    map MAP13:Ok(12);map MAP14:Ok(13);map MAP15:Ok(14);map MAP16:Ok(15);map MAP17:Ok(16);map MAP18:Ok(17);\
    map MAP19:Ok(18);map MAP20:Ok(19);map MAP21:Ok(20);map MAP22:Ok(21);map MAP23:Ok(22);map MAP24:Ok(23);\
    map MAP25:Ok(24);map MAP26:Ok(25);map MAP27:Ok(26);map MAP28:Ok(27);map MAP29:Ok(28);map MAP30:Ok(29);\
    map MAP31:Ok(30);map MAP32:Ok(31);map MAP33:Err(16)|[32, 31, 578]";

#[test]
fn takes_32_maps(rt: HostRuntime) -> Result<(), Fail> {
    expect_rows(rt.alloc(), THIRTY_TWO, counts)
}

// How often each line is accepted before its table is full, and the answer to a further one. A room needs a sector,
// and no further one fits.
const LIMITS: &str = "4096;sector 0 128 FLOOR4_8 CEIL3_5 160 0 0|(4096, Err(12))\n\
    0;room 0 0 128 128 0 128 FLOOR4_8 CEIL3_5 STARTAN3 160|(0, Err(12))\n\
    32767;side 0 0 - - STARTAN3 0|(32767, Err(12))\n\
    32767;line 0 1 1 0 0 0 -|(32767, Err(12))\n\
    32767;thing 64 64 90 1 7|(32767, Err(12))";

// Draws a line so many times, and once more: how often it was accepted, and the last answer.
fn filled(alloc: Global, maps: &mut Maps, case: &str) -> Result<String, Fail> {
    let (count, line) = case.split_once(';').unwrap_or((case, ""));
    let count: u32 = count.parse()?;
    let mut accepted = 0_u32;
    for _ in 0..count {
        if answer(maps, line.as_bytes(), AMPLE).is_ok() {
            accepted = accepted.saturating_add(1);
        }
    }
    said(alloc, &(accepted, answer(maps, line.as_bytes(), AMPLE)))
}

fn expect_limits(alloc: Global, maps: &mut Maps) -> Result<(), Fail> {
    for row in LIMITS.split('\n') {
        let (case, wanted) = halves(row);
        let found = filled(alloc, maps, case)?;
        expect_text(row, found.as_str(), wanted)?;
    }
    Ok(())
}

// All tables but that of vertices are filled, so the body is as long as the longest one, less the missing vertices.
#[test]
fn tables_have_limits(rt: HostRuntime) -> Result<(), Fail> {
    let mut maps = drawn(rt.alloc(), "vertex 1 0;vertex 2 0")?;
    expect_limits(rt.alloc(), &mut maps)?;
    assert_eq!(rt; maps.body_len(), AMPLE - 32765 * 4);
    Ok(())
}

// Makes a change: how many vertices there are before, the number of the new one, that vertex, and the code of a command
// that lacks memory.
fn committed(alloc: Global, maps: &mut Maps) -> Result<String, Fail> {
    let command = parse(b"vertex 3 4")?;
    if maps.body_len() > AMPLE {
        return Err(Fail::from("a body that is too long"));
    }
    let change = ready(maps, &command, AMPLE)?;
    let before = maps.current().count(Kind::Vertex);
    let number = commit(maps, change);
    let code = CommandError::OutOfMemory.code();
    said(alloc, &(before, number, maps.current().vertex(0), code))
}

// `commit` makes the change, and `ready` doesn't.
#[test]
fn commits_what_is_ready(rt: HostRuntime) -> Result<(), Fail> {
    let mut maps = Maps::new(rt.alloc());
    let found = committed(rt.alloc(), &mut maps)?;
    expect_text(
        "vertex 3 4",
        found.as_str(),
        "(0, 0, Some(Vertex { x: 3, y: 4 }), 31)",
    )
}
