//! What a WAD's flats and textures lack for a map.

use crate::drawing::drawn;
use lump_records::Name8;
use lump_textures::Texture;
use map_lint::lint_graphics;
use std::alloc::Global;
use std::test::Fail;
use tests_rows::expect_rows;

const FLOOR: Name8 = Name8 {
    bytes: *b"FLOOR4_8",
};

const CEILING: Name8 = Name8 {
    bytes: *b"CEIL3_5\0",
};

const WALL: Texture = Texture {
    name: Name8 {
        bytes: *b"STARTAN3",
    },
    height: 128,
    is_patched: true,
};

// The flats of a WAD with the texture STARTAN3, the lines that draw a map, and the warnings about names that the WAD
// lacks. The sky needs no flat, and `-` no texture.
const BEYOND: &str = "CEIL3_5 FLOOR4_8;ROOM|\n\
    FLOOR4_8;ROOM|flat-unknown 0 ceiling CEIL3_5;\n\
    CEIL3_5;ROOM|flat-unknown 0 floor FLOOR4_8;\n\
    ;ROOM|flat-unknown 0 floor FLOOR4_8;\n\
    FLOOR4_8;ROOM;set-sector 0 0 128 FLOOR4_8 F_SKY1 160 0 0|\n\
    CEIL3_5 FLOOR4_8;ROOM;set-side 2 0 0 - - BRICK1 0|texture-unknown 2 at (128,128) (128,0) right middle BRICK1;\n\
    CEIL3_5 FLOOR4_8;ROOM;set-side 2 0 0 - BRICK1 - 0|texture-unknown 2 at (128,128) (128,0) right lower BRICK1;\n\
    CEIL3_5 FLOOR4_8;ROOM;set-side 2 0 0 BRICK3 BRICK1 BRICK2 0|\
    texture-unknown 2 at (128,128) (128,0) right upper BRICK3;\n\
    CEIL3_5 FLOOR4_8;ROOM;set-side 2 0 0 - - - 0|";

// The warnings about flats and textures in the map that the lines draw, each ended by `;`.
fn warnings(
    alloc: Global,
    lines: &str,
    flats: &[Name8],
    textures: &[Texture],
) -> Result<String, Fail> {
    let maps = drawn(alloc, lines)?;
    let mut text = String::new(alloc);
    for warning in &lint_graphics(alloc, maps.current(), flats, textures)? {
        write!(text, "{warning};")?;
    }
    Ok(text)
}

// The same beside these flats, which stand before the lines. A name has at most eight bytes.
fn beyond(alloc: Global, case: &str) -> Result<String, Fail> {
    let (names, lines) = case.split_once(';').unwrap_or((case, ""));
    let mut flats = Vec::new(alloc);
    for name in names.split(' ') {
        let text = name.as_bytes();
        if text.len() <= 8 {
            flats.push(Name8::from_text(text))?;
        }
    }
    warnings(alloc, lines, &flats, &[WALL])
}

#[test]
fn a_map_may_have_names_that_a_wad_lacks(rt: HostRuntime) -> Result<(), Fail> {
    expect_rows(rt.alloc(), BEYOND, beyond)
}

// The same beside a texture SHORT, whose rows stand before the lines.
fn shown(alloc: Global, case: &str) -> Result<String, Fail> {
    let (height, lines) = case.split_once(';').unwrap_or((case, ""));
    let short = Texture {
        name: Name8::from_text(b"SHORT"),
        height: height.parse()?,
        is_patched: false,
    };
    warnings(alloc, lines, &[CEILING, FLOOR], &[WALL, short])
}

// How many rows the texture has, the lines, and the warnings. A wall of 128 rows shows all of a texture with 128, and
// goes past the last one of a texture with fewer. A wall of 64 rows shows all of a texture with 64; with an offset of
// 1, or of -1, it shows row 64, or row 127, which that one lacks. With flag 16 its last row is at the floor. The engine
// keeps the lowest 7 bits of a row, so that an offset of 128 is none.
const SHOWN: &str = "128;ROOM;set-side 2 0 0 - - SHORT 0|\n\
    127;ROOM;set-side 2 0 0 - - SHORT 0|texture-short 2 at (128,128) (128,0) right middle SHORT;\n\
    256;ROOM;set-side 2 0 0 - - SHORT 0|\n\
    64;ROOM;set-side 2 0 0 - - SHORT 0;set-sector 0 0 64 FLOOR4_8 CEIL3_5 160 0 0|\n\
    64;ROOM;set-side 2 0 0 - - SHORT 0;set-sector 0 0 65 FLOOR4_8 CEIL3_5 160 0 0|\
    texture-short 2 at (128,128) (128,0) right middle SHORT;\n\
    64;ROOM;set-side 2 0 0 - - SHORT 0;set-sector 0 0 0 FLOOR4_8 CEIL3_5 160 0 0|\n\
    64;ROOM;set-side 2 0 1 - - SHORT 0;set-sector 0 0 64 FLOOR4_8 CEIL3_5 160 0 0|\
    texture-short 2 at (128,128) (128,0) right middle SHORT;\n\
    64;ROOM;set-side 2 0 -1 - - SHORT 0;set-sector 0 0 64 FLOOR4_8 CEIL3_5 160 0 0|\
    texture-short 2 at (128,128) (128,0) right middle SHORT;\n\
    64;ROOM;set-side 2 0 128 - - SHORT 0;set-sector 0 0 64 FLOOR4_8 CEIL3_5 160 0 0|\n\
    64;ROOM;set-side 2 0 -128 - - SHORT 0;set-sector 0 0 64 FLOOR4_8 CEIL3_5 160 0 0|\n\
    72;ROOM;set-side 2 0 8 - - SHORT 0;set-sector 0 0 64 FLOOR4_8 CEIL3_5 160 0 0|\n\
    64;ROOM;set-side 2 0 0 - - SHORT 0;set-line 2 2 3 17 0 0 2 -;set-sector 0 0 32 FLOOR4_8 CEIL3_5 160 0 0|\n\
    64;ROOM;set-side 2 0 0 - - SHORT 0;set-line 2 2 3 17 0 0 2 -;set-sector 0 0 72 FLOOR4_8 CEIL3_5 160 0 0|\
    texture-short 2 at (128,128) (128,0) right middle SHORT;\n\
    64;ROOM;set-side 2 0 0 SHORT SHORT STARTAN3 0|";

#[test]
fn a_wall_shows_rows_that_a_texture_lacks(rt: HostRuntime) -> Result<(), Fail> {
    expect_rows(rt.alloc(), SHOWN, shown)
}

// Two rooms side by side, 0 and 1, with line 8 between them from (128,0) to (128,128): its right side 8 faces room 0,
// its left side 9 room 1. Each row gives the rows of the texture on both of its sides above and below, the floor and
// the ceiling of room 1, those of room 0 being 0 and 128, the flags of the line, and the warning.
const BETWEEN: &str =
    "8;APART;SHORT_SIDES;set-sector 1 0 128 FLOOR4_8 CEIL3_5 160 0 0;line 2 3 4 0 0 8 9|\n\
    64;APART;SHORT_SIDES;set-sector 1 0 64 FLOOR4_8 CEIL3_5 160 0 0;line 2 3 4 0 0 8 9|\n\
    63;APART;SHORT_SIDES;set-sector 1 0 64 FLOOR4_8 CEIL3_5 160 0 0;line 2 3 4 0 0 8 9|\
    texture-short 8 at (128,128) (128,0) right upper SHORT;\n\
    64;APART;SHORT_SIDES;set-sector 1 0 96 FLOOR4_8 CEIL3_5 160 0 0;line 2 3 4 0 0 8 9|\n\
    31;APART;SHORT_SIDES;set-sector 1 0 96 FLOOR4_8 CEIL3_5 160 0 0;line 2 3 4 0 0 8 9|\
    texture-short 8 at (128,128) (128,0) right upper SHORT;\n\
    32;APART;SHORT_SIDES;set-sector 1 0 96 FLOOR4_8 CEIL3_5 160 0 0;line 2 3 12 0 0 8 9|\n\
    31;APART;SHORT_SIDES;set-sector 1 0 96 FLOOR4_8 CEIL3_5 160 0 0;line 2 3 12 0 0 8 9|\
    texture-short 8 at (128,128) (128,0) right upper SHORT;\n\
    24;APART;SHORT_SIDES;set-sector 1 24 128 FLOOR4_8 CEIL3_5 160 0 0;line 2 3 4 0 0 8 9|\n\
    24;APART;SHORT_SIDES;set-sector 1 25 128 FLOOR4_8 CEIL3_5 160 0 0;line 2 3 4 0 0 8 9|\
    texture-short 8 at (128,128) (128,0) right lower SHORT;\n\
    127;APART;SHORT_SIDES;set-sector 1 24 128 FLOOR4_8 CEIL3_5 160 0 0;line 2 3 20 0 0 8 9|\
    texture-short 8 at (128,128) (128,0) right lower SHORT;\n\
    128;APART;SHORT_SIDES;set-sector 1 24 128 FLOOR4_8 CEIL3_5 160 0 0;line 2 3 20 0 0 8 9|\n\
    72;APART;SHORT_SIDES;set-sector 1 0 200 FLOOR4_8 CEIL3_5 160 0 0;line 2 3 4 0 0 8 9|\n\
    71;APART;SHORT_SIDES;set-sector 1 0 200 FLOOR4_8 CEIL3_5 160 0 0;line 2 3 4 0 0 8 9|\
    texture-short 8 at (128,128) (128,0) left upper SHORT;";

#[test]
fn an_upper_or_lower_wall_shows_rows_that_a_texture_lacks(rt: HostRuntime) -> Result<(), Fail> {
    expect_rows(rt.alloc(), BETWEEN, shown)
}

// The sides of the line between the rooms, right before left, its flags, and the warning. The patches of STARTAN3 share
// a column, those of SHORT don't. Only a two-sided line has the fault, and only its middle textures: each wall of both
// rooms shows STARTAN3.
const HUNG_BETWEEN: &str = "128;APART;side 0 0 - - - 0;side 0 0 - - - 1;line 2 3 4 0 0 8 9|\n\
    128;APART;side 0 0 - - SHORT 0;side 0 0 - - SHORT 1;line 2 3 4 0 0 8 9|\n\
    128;APART;side 0 0 - - STARTAN3 0;side 0 0 - - - 1;line 2 3 4 0 0 8 9|\
    texture-patched 8 at (128,128) (128,0) right middle STARTAN3;\n\
    128;APART;side 0 0 - - - 0;side 0 0 - - STARTAN3 1;line 2 3 4 0 0 8 9|\
    texture-patched 8 at (128,128) (128,0) left middle STARTAN3;\n\
    128;APART;side 0 0 - - STARTAN3 0;side 0 0 - - STARTAN3 1;line 2 3 5 0 0 8 9|\
    texture-patched 8 at (128,128) (128,0) right middle STARTAN3;\n\
    128;APART;side 0 0 - - STARTAN3 0;side 0 0 - - STARTAN3 1;line 2 3 1 0 0 8 9|\n\
    128;APART;side 0 0 STARTAN3 STARTAN3 - 0;side 0 0 STARTAN3 STARTAN3 - 1;line 2 3 4 0 0 8 9|";

#[test]
fn a_middle_texture_has_patches_that_share_a_column(rt: HostRuntime) -> Result<(), Fail> {
    expect_rows(rt.alloc(), HUNG_BETWEEN, shown)
}
