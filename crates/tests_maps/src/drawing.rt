//! Projects that lines draw.

use map_commands::{apply, parse};
use map_tables::Maps;
use std::alloc::Global;
use std::test::Fail;
use tests_rows::meant;

/// The length of the longest body of a project with one map, in bytes.
pub const AMPLE: u32 = 2_007_002;

// Drawings by name, each with its lines, divided by `;`. L has six lines, of which the third and the fourth cut it,
// and cost the same. In CUT two lines cut both sides of a third one at 20/50 of its length, where the coordinates
// aren't whole. In SLIVER a line crosses another one so near the end of that one that the crossing rounds to this end.
// COLLINEAR are three lines between four places on one straight line. TWO_ROOMS have a two-sided line between them.
// The BRAIN of a boss is a thing whose death ends the level. PLACES is a room with more vertices: 4 to 7 at (32,32),
// (64,32), (96,32), (112,32), on one straight line, and 8 at (0,64), on the west wall. TRIANGLE is a room with a
// second sector, and the corners of a triangle, counterclockwise from vertex 4 on. Two rooms APART have a gap between
// them, and SHORT_SIDES are two sides, each of another one of them.
const DRAWINGS: &str = "ROOM|room 0 0 128 128 0 128 FLOOR4_8 CEIL3_5 STARTAN3 160\n\
    SECTOR|sector 0 128 FLOOR4_8 CEIL3_5 160 0 0\n\
    SIDE|side 0 0 - - STARTAN3 0\n\
    START|thing 64 64 90 1 7\n\
    BRAIN|thing 100 100 90 88 7\n\
    L|vertex 0 0;vertex 0 256;vertex 128 256;vertex 128 128;vertex 256 128;vertex 256 0;\
    sector 0 128 FLOOR4_8 CEIL3_5 160 0 0;side 0 0 - - STARTAN3 0;\
    line 0 1 1 0 0 0 -;line 1 2 1 0 0 0 -;line 2 3 1 0 0 0 -;line 3 4 1 0 0 0 -;line 4 5 1 0 0 0 -;line 5 0 1 0 0 0 -\n\
    CUT|vertex 0 0;vertex 10 3;vertex 4 10;vertex 4 5;vertex 4 -5;vertex 4 -10;\
    sector 0 128 FLOOR4_8 CEIL3_5 160 0 0;side 0 0 - - - 0;\
    line 0 1 4 0 0 0 0;line 2 3 1 0 0 0 -;line 4 5 1 0 0 0 -\n\
    SLIVER|vertex 10 0;vertex 0 0;vertex 8 17;vertex 9 7;\
    sector 0 128 FLOOR4_8 CEIL3_5 160 0 0;side 0 0 - - STARTAN3 0;line 0 1 1 0 0 0 -;line 2 3 1 0 0 0 -\n\
    TWO_ROOMS|room 0 0 128 128 0 128 FLOOR4_8 CEIL3_5 STARTAN3 160;sector 0 128 FLOOR4_8 CEIL3_5 160 0 0;\
    side 0 0 - - - 1;side 0 0 - - STARTAN3 1;set-side 2 0 0 - - - 0;\
    vertex 256 128;vertex 256 0;set-line 2 2 3 4 0 0 2 4;line 2 4 1 0 0 5 -;line 4 5 1 0 0 5 -;line 5 3 1 0 0 5 -\n\
    COLLINEAR|vertex 0 0;vertex 64 0;vertex 128 0;vertex 192 0;sector 0 128 FLOOR4_8 CEIL3_5 160 0 0;\
    side 0 0 - - - 0;line 0 1 4 0 0 0 0;line 2 3 1 0 0 0 -;line 3 1 1 0 0 0 -\n\
    PLACES|room 0 0 128 128 0 128 FLOOR4_8 CEIL3_5 STARTAN3 160;thing 64 64 90 1 7;\
    vertex 32 32;vertex 64 32;vertex 96 32;vertex 112 32;vertex 0 64\n\
    TRIANGLE|room 0 0 128 128 0 128 FLOOR4_8 CEIL3_5 STARTAN3 160;thing 64 64 90 1 7;\
    sector 0 128 FLOOR4_8 CEIL3_5 160 0 0;vertex 32 32;vertex 96 32;vertex 96 64\n\
    APART|room 0 0 128 128 0 128 FLOOR4_8 CEIL3_5 STARTAN3 160;room 256 0 384 128 0 128 FLOOR4_8 CEIL3_5 STARTAN3 160\n\
    SHORT_SIDES|side 0 0 SHORT SHORT - 0;side 0 0 SHORT SHORT - 1";

/// The number that answers a line, or the refusal's code; 999 if the body is too long already.
pub fn answer(maps: &mut Maps, line: &[u8], cap: u32) -> Result<u32, u16> {
    match parse(line) {
        Ok(command) => {
            if maps.body_len() > cap {
                return Err(999);
            }
            apply(maps, &command, cap).map_err(|error| error.code())
        }
        Err(error) => Err(error.code()),
    }
}

/// Draws the lines of a text, which `;` divides. Fails at the first that isn't accepted, with its code.
pub fn draw_lines(maps: &mut Maps, text: &str) -> Result<(), Fail> {
    for line in text.split(';') {
        if let Err(code) = answer(maps, line.as_bytes(), AMPLE) {
            return Err(Fail::from((line, code)));
        }
    }
    Ok(())
}

/// The same, but a part of the text that is the name of a drawing stands for its lines. An empty text draws nothing.
pub fn draw(maps: &mut Maps, text: &str) -> Result<(), Fail> {
    for part in text.split(';') {
        if !part.is_empty() {
            draw_lines(maps, meant(DRAWINGS, part))?;
        }
    }
    Ok(())
}

/// The project that the lines draw.
pub fn drawn(alloc: Global, text: &str) -> Result<Maps, Fail> {
    let mut maps = Maps::new(alloc);
    match draw(&mut maps, text) {
        Ok(()) => Ok(maps),
        Err(fail) => Err(fail),
    }
}
