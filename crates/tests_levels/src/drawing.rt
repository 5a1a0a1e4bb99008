//! Projects that lines draw.

use map_commands::{apply, parse};
use map_tables::Maps;
use std::alloc::Global;
use std::test::Fail;
use tests_rows::meant;

/// The length of the longest body of a project with one map, in bytes.
pub const AMPLE: u32 = 2_007_002;

// Drawings by name, each with its lines, divided by `;`. L has six lines, of which the third and the fourth cut it,
// and cost the same. In CUT two lines cut both sides of a third one at 20/50 of its length, where the coordinates
// aren't whole. In SLIVER a line crosses another one so near the end of that one that the crossing rounds to this end.
// TWO_ROOMS have a two-sided line between them. In MIDDLE two lines cut one at (32,0) and at (64,0), in this order.
// COLLINEAR are three lines between four places on one straight line. AGAINST are two lines on one straight line that
// run in opposite directions, so that each has the other on its left. SINGLE is a line. FALLING is a line through 181
// by 181 blocks that doesn't touch the first block, so that the second of its two lists begins at word 32,767; RISING
// touches the first block of the same ones, so that it would begin one word later.
const DRAWINGS: &str = "ROOM|room 0 0 128 128 0 128 FLOOR4_8 CEIL3_5 STARTAN3 160\n\
    ROOM_OF_512|room 0 0 512 512 0 128 FLOOR4_8 CEIL3_5 STARTAN3 160\n\
    LARGEST_ROOM|room 0 0 16256 16256 0 128 FLOOR4_8 CEIL3_5 STARTAN3 160\n\
    SECTOR|sector 0 128 FLOOR4_8 CEIL3_5 160 0 0\n\
    SIDE|side 0 0 - - STARTAN3 0\n\
    L|vertex 0 0;vertex 0 256;vertex 128 256;vertex 128 128;vertex 256 128;vertex 256 0;\
    sector 0 128 FLOOR4_8 CEIL3_5 160 0 0;side 0 0 - - STARTAN3 0;\
    line 0 1 1 0 0 0 -;line 1 2 1 0 0 0 -;line 2 3 1 0 0 0 -;line 3 4 1 0 0 0 -;line 4 5 1 0 0 0 -;line 5 0 1 0 0 0 -\n\
    CUT|vertex 0 0;vertex 10 3;vertex 4 10;vertex 4 5;vertex 4 -5;vertex 4 -10;\
    sector 0 128 FLOOR4_8 CEIL3_5 160 0 0;side 0 0 - - - 0;\
    line 0 1 4 0 0 0 0;line 2 3 1 0 0 0 -;line 4 5 1 0 0 0 -\n\
    SLIVER|vertex 10 0;vertex 0 0;vertex 8 17;vertex 9 7;\
    sector 0 128 FLOOR4_8 CEIL3_5 160 0 0;side 0 0 - - STARTAN3 0;line 0 1 1 0 0 0 -;line 2 3 1 0 0 0 -\n\
    TWO_ROOMS|room 0 0 128 128 0 128 FLOOR4_8 CEIL3_5 STARTAN3 160;sector 0 128 FLOOR4_8 CEIL3_5 160 0 0;\
    side 0 0 - - - 1;side 0 0 - - STARTAN3 1;set-side 2 0 0 - - - 0;\
    vertex 256 128;vertex 256 0;set-line 2 2 3 4 0 0 2 4;line 2 4 1 0 0 5 -;line 4 5 1 0 0 5 -;line 5 3 1 0 0 5 -\n\
    MIDDLE|vertex 0 0;vertex 96 0;vertex 32 -74;vertex 32 -10;vertex 64 -10;vertex 64 -74;\
    sector 0 128 FLOOR4_8 CEIL3_5 160 0 0;side 0 0 - - STARTAN3 0;\
    line 0 1 1 0 0 0 -;line 2 3 1 0 0 0 -;line 4 5 1 0 0 0 -\n\
    COLLINEAR|vertex 0 0;vertex 64 0;vertex 128 0;vertex 192 0;sector 0 128 FLOOR4_8 CEIL3_5 160 0 0;\
    side 0 0 - - - 0;line 0 1 4 0 0 0 0;line 2 3 1 0 0 0 -;line 3 1 1 0 0 0 -\n\
    AGAINST|vertex 0 0;vertex 64 0;vertex 128 0;vertex 192 0;sector 0 128 FLOOR4_8 CEIL3_5 160 0 0;\
    side 0 0 - - STARTAN3 0;line 0 1 1 0 0 0 -;line 3 2 1 0 0 0 -\n\
    SINGLE|vertex 0 0;vertex 256 256;sector 0 128 FLOOR4_8 CEIL3_5 160 0 0;side 0 0 - - STARTAN3 0;line 0 1 1 0 0 0 -\n\
    FALLING|vertex -11520 11520;vertex 11520 -11520;sector 0 128 FLOOR4_8 CEIL3_5 160 0 0;\
    side 0 0 - - STARTAN3 0;line 0 1 1 0 0 0 -\n\
    RISING|vertex -11520 -11520;vertex 11520 11520;sector 0 128 FLOOR4_8 CEIL3_5 160 0 0;\
    side 0 0 - - STARTAN3 0;line 0 1 1 0 0 0 -";

// The number that answers a line, or the refusal's code; 999 if the body is too long already.
fn answer(maps: &mut Maps, line: &[u8]) -> Result<u32, u16> {
    match parse(line) {
        Ok(command) => {
            if maps.body_len() > AMPLE {
                return Err(999);
            }
            apply(maps, &command, AMPLE).map_err(|error| error.code())
        }
        Err(error) => Err(error.code()),
    }
}

/// Draws the lines of a text, which `;` divides. Fails at the first that isn't accepted, with its code.
pub fn draw_lines(maps: &mut Maps, text: &str) -> Result<(), Fail> {
    for line in text.split(';') {
        if let Err(code) = answer(maps, line.as_bytes()) {
            return Err(Fail::from((line, code)));
        }
    }
    Ok(())
}

// The same, but a part of the text that is the name of a drawing stands for its lines.
fn draw(maps: &mut Maps, text: &str) -> Result<(), Fail> {
    for part in text.split(';') {
        draw_lines(maps, meant(DRAWINGS, part))?;
    }
    Ok(())
}

/// The project that the lines draw.
pub fn drawn(alloc: Global, text: &str) -> Result<Maps, Fail> {
    let mut maps = Maps::new(alloc);
    match draw(&mut maps, text) {
        Ok(()) => Ok(maps),
        Err(fail) => Err(fail),
    }
}
