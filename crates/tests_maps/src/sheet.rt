//! The pictures of worked maps with heights, a grid and a crop, and how large their numbers are.

use crate::picture::{expect_end, expect_part, expect_parts, picture, plain};
use lump_records::Bounds;
use map_picture::{PictureOptions, SHEET_STYLE, STYLE};
use std::alloc::Global;
use std::test::Fail;
use tests_rows::halves;

// A room of 128 by 128 at the height 0, and a line of a sector at the height 100, which isn't closed.
const DRAWING: &str =
    "ROOM;vertex 256 0;vertex 256 64;sector 100 128 FLAT1 FLAT2 160 9 7;side 0 0 - - STARTAN3 1;\
    line 4 5 1 0 0 4 -";

// The part of its picture before the style, worked by hand: the map is 256 by 128, with 64 units on each side. The
// margin takes 288 units, since 24 ticks of 8 take less, and the page is 37 ticks high.
const FRONT: &str =
    r#"<svg class="leveled" xmlns="http://www.w3.org/2000/svg" version="1.1" width="100%"
viewBox="-64 -192 672 296" font-size="8">
<title>MAP01</title>
"#;

const PAGE: &str = r#"<rect class="page" x="-64" y="-192" width="672" height="296"/>
"#;

// The legend and the grid. There are 101 heights: step k begins at 101 k / 8, rounded up.
const GROUND: &str = r#"<g id="legend" font-size="1.6em" transform="translate(320 -192)">
<text x="1em" y="1.6em">256 units</text>
<rect class="bar" x="1em" y="2.6em" width="256" height=".3em"/>
<text x="1em" y="5em">floor</text>
<rect class="floor7" x="1em" y="6em" width="2em" height="2em"/>
<text x="3.6em" y="7em">89 to 100</text>
<rect class="floor6" x="1em" y="8em" width="2em" height="2em"/>
<text x="3.6em" y="9em">76 to 88</text>
<rect class="floor5" x="1em" y="10em" width="2em" height="2em"/>
<text x="3.6em" y="11em">64 to 75</text>
<rect class="floor4" x="1em" y="12em" width="2em" height="2em"/>
<text x="3.6em" y="13em">51 to 63</text>
<rect class="floor3" x="1em" y="14em" width="2em" height="2em"/>
<text x="3.6em" y="15em">38 to 50</text>
<rect class="floor2" x="1em" y="16em" width="2em" height="2em"/>
<text x="3.6em" y="17em">26 to 37</text>
<rect class="floor1" x="1em" y="18em" width="2em" height="2em"/>
<text x="3.6em" y="19em">13 to 25</text>
<rect class="floor0" x="1em" y="20em" width="2em" height="2em"/>
<text x="3.6em" y="21em">0 to 12</text>
</g>
<svg x="-64" y="-192" width="384" height="256" viewBox="-64 -192 384 256">
<path class="grid" d="M-32768 0H32768M0 -32768V32768"/>
"#;

// The room, from (0,0) along each of its lines and back; the other sector isn't filled.
const FILLS: &str = "<path id=\"sector0\" class=\"floor0\" fill-rule=\"evenodd\" \
d=\"M0 0L0 0 0 -128 0 0L0 -128 128 -128 0 0L128 -128 128 0 0 0L128 0 0 0 0 0\">
<title>sector 0: floor 0, ceiling 128, flats FLOOR4_8 CEIL3_5, light 160, special 0, tag 0</title></path>
";

const MAP: &str = r#"<g id="line0" class="one">
<title>line 0: vertices 0 1, flags 1, special 0, tag 0, right side 0 (sector 0), no left side</title>
<path d="M0 0L0 -128"/><path class="tick" d="M0 -64l8 0"/></g>
<g id="line1" class="one">
<title>line 1: vertices 1 2, flags 1, special 0, tag 0, right side 1 (sector 0), no left side</title>
<path d="M0 -128L128 -128"/><path class="tick" d="M64 -128l0 8"/></g>
<g id="line2" class="one">
<title>line 2: vertices 2 3, flags 1, special 0, tag 0, right side 2 (sector 0), no left side</title>
<path d="M128 -128L128 0"/><path class="tick" d="M128 -64l-8 0"/></g>
<g id="line3" class="one">
<title>line 3: vertices 3 0, flags 1, special 0, tag 0, right side 3 (sector 0), no left side</title>
<path d="M128 0L0 0"/><path class="tick" d="M64 0l0 -8"/></g>
<g id="line4" class="one">
<title>line 4: vertices 4 5, flags 1, special 0, tag 0, right side 4 (sector 1), no left side</title>
<path d="M256 0L256 -64"/><path class="tick" d="M256 -32l8 0"/></g>
<path id="vertex0" class="vertex" d="M0 0h0"><title>vertex 0: 0 0</title></path>
<path id="vertex1" class="vertex" d="M0 -128h0"><title>vertex 1: 0 128</title></path>
<path id="vertex2" class="vertex" d="M128 -128h0"><title>vertex 2: 128 128</title></path>
<path id="vertex3" class="vertex" d="M128 0h0"><title>vertex 3: 128 0</title></path>
<path id="vertex4" class="vertex" d="M256 0h0"><title>vertex 4: 256 0</title></path>
<path id="vertex5" class="vertex" d="M256 -64h0"><title>vertex 5: 256 64</title></path>
</svg>
</svg>
"#;

// A vertex on a page of 100 by 960 units, of which the ticks are 10 long.
const CROPPED_FRONT: &str =
    r#"<svg class="leveled" xmlns="http://www.w3.org/2000/svg" version="1.1" width="100%"
viewBox="-20 -900 100 960" font-size="10">
<title>MAP01</title>
"#;

const CROPPED_PAGE: &str = r#"<rect class="page" x="-20" y="-900" width="100" height="960"/>
"#;

const CROPPED: &str = r#"<svg x="-20" y="-900" width="100" height="960" viewBox="-20 -900 100 960">
<path id="vertex0" class="vertex" d="M500 0h0"><title>vertex 0: 500 0</title></path>
</svg>
</svg>
"#;

// The box of these edges, of which the upper is below the lower one, and the left one right of the right one.
const REVERSED: Bounds = Bounds {
    top: -60,
    bottom: 900,
    left: 80,
    right: -20,
};

// A map with one sector without lines, whose floor is the only height.
const BARE: &str = "sector -8 128 FLAT1 FLAT2 160 9 7";

const BARE_FRONT: &str =
    r#"<svg class="leveled" xmlns="http://www.w3.org/2000/svg" version="1.1" width="100%"
viewBox="-64 -64 416 296" font-size="8">
<title>MAP01</title>
"#;

const BARE_PAGE: &str = r#"<rect class="page" x="-64" y="-64" width="416" height="296"/>
"#;

const BARE_BACK: &str = r#"<g id="legend" font-size="1.6em" transform="translate(64 -64)">
<text x="1em" y="5em">floor</text>
<rect class="floor0" x="1em" y="6em" width="2em" height="2em"/>
<text x="3.6em" y="7em">-8</text>
</g>
<svg x="-64" y="-64" width="128" height="128" viewBox="-64 -64 128 128">
<path id="sector0" class="floor0" fill-rule="evenodd" d="M0 0">
<title>sector 0: floor -8, ceiling 128, flats FLAT1 FLAT2, light 160, special 9, tag 7</title></path>
</svg>
</svg>
"#;

// A box whose lower edge is 18 below the five vertices of a crowd, so that the note is where the numbers below them
// would be: two numbers have room above them.
const ABOVE_NOTE: Bounds = Bounds {
    top: 82,
    bottom: -18,
    left: -100,
    right: 100,
};

const CROWD: &str = "vertex 0 0;vertex 1 0;vertex 2 0;vertex 3 0;vertex 4 0";

const CROWD_NUMBERS: &str = r#"<g id="numbers" font-size="11">
<text class="of-vertex" x="0" y="0" dx="8" dy="-8">0</text>
<text class="of-vertex" x="1" y="0" dx="-8" dy="-8">1</text>
</g>
<text class="left-out" x="-92" y="10">3 numbers are left out: look at a part with --crop</text>
</svg>
</svg>
"#;

// A box beside them: what it doesn't show has no number, and isn't left out.
const BESIDE: Bounds = Bounds {
    top: 100,
    bottom: -100,
    left: 4,
    right: 100,
};

const BESIDE_NUMBERS: &str = r#"<g id="numbers" font-size="11">
<text class="of-vertex" x="4" y="0" dx="8" dy="-8">4</text>
</g>
</svg>
</svg>
"#;

// Two rooms of 128 by 128, side by side, of which the left one also has a line within it.
const ROOMS: &str =
    "ROOM;sector 8 128 FLAT1 FLAT2 160 0 0;side 0 0 - - - 1;side 0 0 - - STARTAN3 1;set-side 2 0 0 - - - 0;\
    vertex 256 128;vertex 256 0;set-line 2 2 3 4 0 0 2 4;line 2 4 1 0 0 5 -;line 4 5 1 0 0 5 -;\
    line 5 3 1 0 0 5 -;line 0 2 4 0 0 2 2";

// Line 2 leads down with the left room on its right and the right room on its left, so that one goes back along it.
// Line 7 has the left room on both sides, and is no edge of it.
const LEFT_ROOM: &str = "\" fill-rule=\"evenodd\" \
d=\"M0 0L0 0 0 -128 0 0L0 -128 128 -128 0 0L128 -128 128 0 0 0L128 0 0 0 0 0\">
<title>sector 0:";

const RIGHT_ROOM: &str = "\" fill-rule=\"evenodd\" \
d=\"M0 0L128 0 128 -128 0 0L128 -128 256 -128 0 0L256 -128 256 0 0 0L256 0 128 0 0 0\">
<title>sector 1:";

// How many vertices are in a row, 50 units apart, and the beginning of their numbers. The page is 128 units wider than
// the row. The ticks are a 96th of it, so 33, 34, 133 and 134 long: the texts are 46, 34, 133 and 67 high.
const ROWS: &str = "63|<g id=\"numbers\" font-size=\"46\">\n\
    64|<g id=\"numbers\" font-size=\"34\">\n\
    255|<g id=\"numbers\" font-size=\"133\">\n\
    256|<g id=\"numbers\" font-size=\"67\">";

// With heights, and with a grid or without one.
fn with_heights(grid: bool) -> PictureOptions {
    PictureOptions {
        numbers: false,
        heights: true,
        grid,
        crop: None,
    }
}

// Lines that draw so many vertices, 50 units apart.
fn row_of(alloc: Global, count: u32) -> Result<String, Fail> {
    let mut lines = String::new(alloc);
    for n in 0..count {
        let x = n.saturating_mul(50);
        write!(lines, "vertex {x} 0;")?;
    }
    Ok(lines)
}

// The picture of a row of so many vertices, with numbers, has the part.
fn expect_row(alloc: Global, count: u32, part: &str) -> Result<(), Fail> {
    let lines = row_of(alloc, count)?;
    let found = picture(alloc, lines.as_str(), plain(true, None))?;
    expect_part(found.as_str(), part)
}

#[test]
fn fills_a_room_over_a_grid(rt: HostRuntime) -> Result<(), Fail> {
    let found = picture(rt.alloc(), DRAWING, with_heights(true))?;
    expect_parts(
        found.as_str(),
        &[FRONT, STYLE, PAGE, SHEET_STYLE, GROUND, FILLS, MAP],
    )
}

#[test]
fn shows_only_a_box(rt: HostRuntime) -> Result<(), Fail> {
    let found = picture(rt.alloc(), "vertex 500 0", plain(false, Some(REVERSED)))?;
    expect_parts(
        found.as_str(),
        &[CROPPED_FRONT, STYLE, CROPPED_PAGE, SHEET_STYLE, CROPPED],
    )
}

#[test]
fn keeps_the_note_free(rt: HostRuntime) -> Result<(), Fail> {
    let above = picture(rt.alloc(), CROWD, plain(true, Some(ABOVE_NOTE)))?;
    expect_end(above.as_str(), CROWD_NUMBERS)?;
    let beside = picture(rt.alloc(), CROWD, plain(true, Some(BESIDE)))?;
    expect_end(beside.as_str(), BESIDE_NUMBERS)
}

#[test]
fn numbers_are_smaller_on_a_full_page(rt: HostRuntime) -> Result<(), Fail> {
    for row in ROWS.split('\n') {
        let (count, opening) = halves(row);
        expect_row(rt.alloc(), count.parse()?, opening)?;
    }
    Ok(())
}

#[test]
fn fills_rooms_side_by_side(rt: HostRuntime) -> Result<(), Fail> {
    let found = picture(rt.alloc(), ROOMS, with_heights(false))?;
    expect_part(found.as_str(), LEFT_ROOM)?;
    expect_part(found.as_str(), RIGHT_ROOM)
}

#[test]
fn fills_a_sector_without_lines(rt: HostRuntime) -> Result<(), Fail> {
    let found = picture(rt.alloc(), BARE, with_heights(false))?;
    expect_parts(
        found.as_str(),
        &[BARE_FRONT, STYLE, BARE_PAGE, SHEET_STYLE, BARE_BACK],
    )
}
