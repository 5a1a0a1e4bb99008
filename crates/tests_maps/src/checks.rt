//! The findings of drawn maps.

use crate::drawing::drawn;
use map_checks::check;
use std::alloc::Global;
use std::test::Fail;
use tests_rows::{expect_rows, expect_text, said};

// Lines that draw a map, and its findings, each ended by `;`. The third one is a room with an unused vertex, an unused
// side and an unused sector, without one of its lines, and with one wall that has no texture.
const REPORTS: &str = "ROOM;thing 64 64 90 1 7|\n\
    vertex 0 0;vertex 64 0;SECTOR;SIDE;line 0 1 1 0 0 0 -|\
    sector 0 open at vertex 0;sector 0 open at vertex 1;no player start;\n\
    ROOM;vertex 512 512;SECTOR;set-side 1 0 0 - - - 0;drop line 3|\
    vertex 4 unused;side 3 unused;sector 1 unused;line 1 right middle missing;\
    sector 0 open at vertex 0;sector 0 open at vertex 3;no player start;\n\
    TWO_ROOMS|no player start;\n\
    TWO_ROOMS;set-sector 1 16 128 FLOOR4_8 CEIL3_5 160 0 0|line 2 right lower missing;no player start;\n\
    TWO_ROOMS;set-sector 1 16 96 FLOOR4_8 CEIL3_5 160 0 0|\
    line 2 right upper missing;line 2 right lower missing;no player start;\n\
    TWO_ROOMS;set-sector 0 0 128 FLOOR4_8 F_SKY1 160 0 0;set-sector 1 16 96 FLOOR4_8 F_SKY1 160 0 0;\
    thing 64 64 90 1 7|line 2 right lower missing;\n\
    TWO_ROOMS;set-sector 0 32 64 FLOOR4_8 CEIL3_5 160 0 0;set-sector 1 16 96 FLOOR4_8 F_SKY1 160 0 0;\
    thing 64 64 90 1 7|line 2 left upper missing;line 2 left lower missing;\n\
    TWO_ROOMS;set-line 2 2 3 1 0 0 2 4;thing 64 64 90 1 7|line 2 right middle missing;line 2 left middle missing;";

// The findings of the map that the lines draw, each ended by `;`.
fn findings(alloc: Global, lines: &str) -> Result<String, Fail> {
    let maps = drawn(alloc, lines)?;
    let mut text = String::new(alloc);
    for finding in &check(alloc, maps.current())? {
        write!(text, "{finding};")?;
    }
    Ok(text)
}

#[test]
fn maps_have_their_findings(rt: HostRuntime) -> Result<(), Fail> {
    expect_rows(rt.alloc(), REPORTS, findings)
}

// The unfinished room of the third row, and its findings.
const UNFINISHED: &str = "ROOM;vertex 512 512;SECTOR;set-side 1 0 0 - - - 0;drop line 3";

const FOUND: &str = "[VertexUnused(4), SideUnused(3), SectorUnused(1), \
    TextureMissing { line: 1, left: false, texture: Middle }, \
    SectorOpen { sector: 0, vertex: 0 }, SectorOpen { sector: 0, vertex: 3 }, NoPlayerStart]";

#[test]
fn each_kind_is_found_in_its_place(rt: HostRuntime) -> Result<(), Fail> {
    let maps = drawn(rt.alloc(), UNFINISHED)?;
    let found = check(rt.alloc(), maps.current())?;
    let text = said(rt.alloc(), &found.as_slice())?;
    expect_text(UNFINISHED, text.as_str(), FOUND)
}
