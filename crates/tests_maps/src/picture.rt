//! The pictures of worked maps.

use crate::drawing::drawn;
use crate::expect::same;
use lump_records::{Bounds, Node, Seg, Sub, Vertex};
use lump_text::WriterFailed;
use map_picture::{PictureError, PictureOptions, STYLE, write_picture};
use map_svg::{Mark, MarkPlace, Overlay};
use std::alloc::Global;
use std::io;
use std::io::Write;
use std::test::Fail;
use tests_rows::expect_text;

// A room of 128 by 128 with a player's start that faces north.
const DRAWING: &str = "name E1M1;ROOM;thing 64 64 90 1 7";

// The part of its picture before the style, worked by hand: the room and 64 units on each side. In SVG y grows
// downwards, so the upper edge is 64 above -128.
const FRONT: &str =
    r#"<svg class="leveled" xmlns="http://www.w3.org/2000/svg" version="1.1" width="100%"
viewBox="-64 -192 256 256" font-size="8">
<title>E1M1</title>
"#;

// The part after the style. The corners go clockwise from the lower left one, so each line has the room on its right:
// to the east, down, to the west, and up.
const BACK: &str = r#"<rect class="page" x="-64" y="-192" width="256" height="256"/>
<g id="line0" class="one">
<title>line 0: vertices 0 1, flags 1, special 0, tag 0, right side 0 (sector 0), no left side</title>
<path d="M0 0L0 -128"/><path class="tick" d="M0 -64l8 0"/></g>
<g id="line1" class="one">
<title>line 1: vertices 1 2, flags 1, special 0, tag 0, right side 1 (sector 0), no left side</title>
<path d="M0 -128L128 -128"/><path class="tick" d="M64 -128l0 8"/></g>
<g id="line2" class="one">
<title>line 2: vertices 2 3, flags 1, special 0, tag 0, right side 2 (sector 0), no left side</title>
<path d="M128 -128L128 0"/><path class="tick" d="M128 -64l-8 0"/></g>
<g id="line3" class="one">
<title>line 3: vertices 3 0, flags 1, special 0, tag 0, right side 3 (sector 0), no left side</title>
<path d="M128 0L0 0"/><path class="tick" d="M64 0l0 -8"/></g>
<g id="thing0" class="player" transform="translate(64 -64) rotate(-90)">
<title>thing 0: type 1, angle 90, options 7</title>
<path d="M16 0L-12 12L-5 0L-12 -12Z"/></g>
<path id="vertex0" class="vertex" d="M0 0h0"><title>vertex 0: 0 0</title></path>
<path id="vertex1" class="vertex" d="M0 -128h0"><title>vertex 1: 0 128</title></path>
<path id="vertex2" class="vertex" d="M128 -128h0"><title>vertex 2: 128 128</title></path>
<path id="vertex3" class="vertex" d="M128 0h0"><title>vertex 3: 128 0</title></path>
"#;

// Its numbers: the sector's on the right of line 0, the first of the four longest lines, a line's on the left, a
// vertex's to the upper right, and the thing's, outside of its mark. The texts are 7 * 8 / 5 = 11 high.
const NUMBERS: &str = r#"<g id="numbers" font-size="11">
<text class="of-sector" x="0" y="-64" dx="24" dy="0">0</text>
<text class="of-line" x="0" y="-64" dx="-8" dy="0">0</text>
<text class="of-line" x="64" y="-128" dx="0" dy="-8">1</text>
<text class="of-line" x="128" y="-64" dx="8" dy="0">2</text>
<text class="of-line" x="64" y="0" dx="0" dy="8">3</text>
<text class="of-vertex" x="0" y="0" dx="8" dy="-8">0</text>
<text class="of-vertex" x="0" y="-128" dx="8" dy="-8">1</text>
<text class="of-vertex" x="128" y="-128" dx="8" dy="-8">2</text>
<text class="of-vertex" x="128" y="0" dx="8" dy="-8">3</text>
<text class="of-thing" x="64" y="-64" dx="24" dy="-24">0</text>
</g>
"#;

// A slanting line between two sectors, with a special, and a thing of each other group.
const SLANT: &str =
    "vertex 0 0;vertex 101 -30;SECTOR;SECTOR;SIDE;side 0 0 - - - 1;line 0 1 4 1 5 0 1;thing 50 -10 45 11 7;\
    thing 51 -11 0 3001 7;thing 52 -12 270 2001 7;thing 53 -13 180 2035 0";

const SLANT_FRONT: &str =
    r#"<svg class="leveled" xmlns="http://www.w3.org/2000/svg" version="1.1" width="100%"
viewBox="-64 -64 229 158" font-size="8">
<title>MAP01</title>
"#;

// The middle is at 50.5, which is rounded to 50. The tick's x changes by -30 * 8 / 101 = -2.4, which is rounded to -2.
const SLANT_BACK: &str = r#"<rect class="page" x="-64" y="-64" width="229" height="158"/>
<g id="line0" class="two special">
<title>line 0: vertices 0 1, flags 4, special 1, tag 5, right side 0 (sector 0), left side 1 (sector 1)</title>
<path d="M0 0L101 30"/><path class="tick" d="M50 15l-2 8"/></g>
<g id="thing0" class="deathmatch" transform="translate(50 10) rotate(-45)">
<title>thing 0: type 11, angle 45, options 7</title>
<path d="M16 0L-12 12L-12 -12Z"/></g>
<g id="thing1" class="monster" transform="translate(51 11) rotate(0)">
<title>thing 1: type 3001, angle 0, options 7</title>
<path d="M20 0L8 12L-12 12L-12 -12L8 -12Z"/></g>
<g id="thing2" class="item" transform="translate(52 12) rotate(-270)">
<title>thing 2: type 2001, angle 270, options 7</title>
<path d="M8 0L0 8L-8 0L0 -8ZM8 0L14 0"/></g>
<g id="thing3" class="other" transform="translate(53 13) rotate(-180)">
<title>thing 3: type 2035, angle 180, options 0</title>
<path d="M8 -8L8 8L-8 8L-8 -8ZM8 0L14 0"/></g>
<path id="vertex0" class="vertex" d="M0 0h0"><title>vertex 0: 0 0</title></path>
<path id="vertex1" class="vertex" d="M101 30h0"><title>vertex 1: 101 -30</title></path>
"#;

// Sector 1 is on the left, opposite to the tick and three times as far: 30 * 24 / 101 = 7.1, rounded. The boxes of the
// things' numbers reach 4 to each side of their middles, and 6 up and down. So each next one, a unit beside the last,
// takes the next corner: upper left, lower right, lower left.
const SLANT_NUMBERS: &str = r#"<g id="numbers" font-size="11">
<text class="of-sector" x="50" y="15" dx="-7" dy="24">0</text>
<text class="of-sector" x="50" y="15" dx="7" dy="-24">1</text>
<text class="of-line" x="50" y="15" dx="2" dy="-8">0</text>
<text class="of-vertex" x="0" y="0" dx="8" dy="-8">0</text>
<text class="of-vertex" x="101" y="30" dx="8" dy="-8">1</text>
<text class="of-thing" x="50" y="10" dx="24" dy="-24">0</text>
<text class="of-thing" x="51" y="11" dx="-24" dy="-24">1</text>
<text class="of-thing" x="52" y="12" dx="24" dy="24">2</text>
<text class="of-thing" x="53" y="13" dx="-24" dy="24">3</text>
</g>
"#;

// Five vertices, each a unit from the next: the four corners have room for four of their numbers. The page is 132 by
// 128 units, so the note begins a tick's length inside its lower left corner.
const CROWD: &str = "vertex 0 0;vertex 1 0;vertex 2 0;vertex 3 0;vertex 4 0";

const CROWD_NUMBERS: &str = r#"<g id="numbers" font-size="11">
<text class="of-vertex" x="0" y="0" dx="8" dy="-8">0</text>
<text class="of-vertex" x="1" y="0" dx="-8" dy="-8">1</text>
<text class="of-vertex" x="2" y="0" dx="8" dy="8">2</text>
<text class="of-vertex" x="3" y="0" dx="-8" dy="8">3</text>
</g>
<text class="left-out" x="-56" y="56">1 number is left out: look at a part with --crop</text>
</svg>
"#;

// Four sectors in a ring round a vertex, between four lines of 8 units, which lead to the east, north, west and south.
const RING: &str =
    "vertex 0 0;vertex 8 0;vertex 0 8;vertex -8 0;vertex 0 -8;SECTOR;SECTOR;SECTOR;SECTOR;SIDE;side 0 0 - - - 1;\
    side 0 0 - - - 2;side 0 0 - - - 3;line 0 1 4 0 0 0 1;line 0 2 4 0 0 1 2;line 0 3 4 0 0 2 3;\
    line 0 4 4 0 0 3 0";

// A sector's number reaches 6 to each side and 9 up and down, another 4 and 6. Sector 3, whose longest line is line 2,
// finds no room below it, since number 0 of a sector is from (-2,15) to (10,33) there; vertex 0 has the lines' numbers
// at its four corners; vertex 3 lies between these and the number of sector 2; vertex 4 between those of lines 1, 2 and
// 3 and of sector 0.
const RING_NUMBERS: &str = r#"<g id="numbers" font-size="11">
<text class="of-sector" x="4" y="0" dx="0" dy="24">0</text>
<text class="of-sector" x="4" y="0" dx="0" dy="-24">1</text>
<text class="of-sector" x="0" y="-4" dx="-24" dy="0">2</text>
<text class="of-line" x="4" y="0" dx="0" dy="-8">0</text>
<text class="of-line" x="0" y="-4" dx="-8" dy="0">1</text>
<text class="of-line" x="-4" y="0" dx="0" dy="8">2</text>
<text class="of-line" x="0" y="4" dx="8" dy="0">3</text>
<text class="of-vertex" x="8" y="0" dx="8" dy="-8">1</text>
<text class="of-vertex" x="0" y="-8" dx="-8" dy="-8">2</text>
</g>
<text class="left-out" x="-64" y="64">4 numbers are left out: look at a part with --crop</text>
</svg>
"#;

const END: &str = "</svg>\n";

// A made-up tree: two subsectors, one with two segs and one with one, and a node whose partition runs from (32,0) by
// (0,64) beyond the boxes of its children. These reach from 0 to 128 in x, and from -16 to 100 in y.
const VERTICES: [Vertex; 3] = [
    Vertex { x: 0, y: 0 },
    Vertex { x: 0, y: 128 },
    Vertex { x: 128, y: 128 },
];

const SUBS: [Sub; 2] = [Sub { count: 2, first: 0 }, Sub { count: 1, first: 2 }];

#[rattlefmt::skip]
const SEGS: [Seg; 3] = [
    Seg { first: 0, second: 1, angle: 0, line: 0, side: 0, offset: 0 },
    Seg { first: 1, second: 2, angle: 0, line: 1, side: 0, offset: 0 },
    Seg { first: 2, second: 0, angle: 0, line: 2, side: 0, offset: 0 },
];

#[rattlefmt::skip]
const NODE: Node = Node {
    x: 32, y: 0, dx: 0, dy: 64, right: 0x8000, left: 0x8001,
    right_box: Bounds { top: 100, bottom: 0, left: 32, right: 128 },
    left_box: Bounds { top: 64, bottom: -16, left: 0, right: 32 },
};

// The overlay with this tree, worked by hand. A seg is drawn 8 / 3 = 2 units to its right: the first one goes north, so
// its right is the east; the second one goes east, so its right is the south; the third one goes by (-128,-128), so it
// is drawn 2 to the west and, in the picture, 2 up. The partition is lengthened so that its greater component is
// 65,536. The text of a mark is escaped for XML.
const LAID_OVER: &str = r#"<g id="sub0" class="sub0">
<title>subsector 0: first seg 0, count 2</title>
<path d="M0 0m2 0l0 -128M0 -128m0 2l128 0"/></g>
<g id="sub1" class="sub1">
<title>subsector 1: first seg 2, count 1</title>
<path d="M128 -128m-2 -2l-128 128"/></g>
<g id="node0" class="node">
<title>node 0: from 32 0 by 0 64</title>
<clipPath id="box0">
<rect x="0" y="-100" width="128" height="116"/></clipPath>
<path clip-path="url(#box0)" d="M32 0l0 -65536M32 0l0 65536"/></g>
<g id="lint0" class="lint">
<title>a &lt;b&gt; &amp; c</title>
<path d="M-64 -192m32 32h0"/></g>
<g id="lint1" class="lint">
<title>thing 0</title>
<path d="M64 -64L64 -64"/></g>
<g id="lint2" class="lint">
<title></title>
<path d="M0 0L0 -128"/></g>
"#;

// An empty overlay.
fn nothing(alloc: Global) -> Overlay {
    Overlay {
        vertices: Vec::new(alloc),
        segs: Vec::new(alloc),
        subs: Vec::new(alloc),
        nodes: Vec::new(alloc),
        marks: Vec::new(alloc),
    }
}

// Adds a mark with this text.
fn put_mark(
    alloc: Global,
    marks: &mut Vec<Mark>,
    place: MarkPlace,
    text: &str,
) -> Result<(), Fail> {
    let text = String::from_str(alloc, text)?;
    Ok(marks.push(Mark { place, text })?)
}

// Adds marks of each kind.
fn put_marks(alloc: Global, marks: &mut Vec<Mark>) -> Result<(), Fail> {
    let along = MarkPlace::Along(VERTICES[0], VERTICES[1]);
    put_mark(alloc, marks, MarkPlace::Corner, "a <b> & c")?;
    put_mark(
        alloc,
        marks,
        MarkPlace::At(Vertex { x: 64, y: 64 }),
        "thing 0",
    )?;
    put_mark(alloc, marks, along, "")
}

// Adds the tree above, and the marks.
fn put_tree_and_marks(alloc: Global, overlay: &mut Overlay) -> Result<(), Fail> {
    overlay.vertices.extend_from_slice(&VERTICES)?;
    overlay.segs.extend_from_slice(&SEGS)?;
    overlay.subs.extend_from_slice(&SUBS)?;
    overlay.nodes.push(NODE)?;
    put_marks(alloc, &mut overlay.marks)
}

// Without anything but the map, or with numbers, and the box, if there is one.
pub fn plain(numbers: bool, crop: Option<Bounds>) -> PictureOptions {
    PictureOptions {
        numbers,
        heights: false,
        grid: false,
        crop,
    }
}

// The picture of what these lines draw, with these options and this overlay.
fn laid_over(
    alloc: Global,
    lines: &str,
    options: PictureOptions,
    overlay: &Overlay,
) -> Result<String, Fail> {
    let maps = drawn(alloc, lines)?;
    let mut text = Vec::new(alloc);
    write_picture(alloc, maps.current(), options, overlay, &mut text)?;
    Ok(String::from_utf8(text)?)
}

// The picture of what these lines draw, with these options.
pub fn picture(alloc: Global, lines: &str, options: PictureOptions) -> Result<String, Fail> {
    laid_over(alloc, lines, options, &nothing(alloc))
}

// The text is these parts, one after the other.
pub fn expect_parts(found: &str, parts: &[&str]) -> Result<(), Fail> {
    let mut rest = found;
    for part in parts {
        match rest.strip_prefix(*part) {
            Some(behind) => rest = behind,
            None => return Err(Fail::from(("not the next part", rest))),
        }
    }
    expect_text("behind the last part", rest, "")
}

// The text ends with the part.
pub fn expect_end(found: &str, part: &str) -> Result<(), Fail> {
    if found.ends_with(part) {
        return Ok(());
    }
    Err(Fail::from(("no such end", part)))
}

// The text has the part.
pub fn expect_part(found: &str, part: &str) -> Result<(), Fail> {
    if found.contains(part) {
        return Ok(());
    }
    Err(Fail::from(("no such part", part)))
}

#[test]
fn draws_a_room(rt: HostRuntime) -> Result<(), Fail> {
    let found = picture(rt.alloc(), DRAWING, plain(false, None))?;
    expect_parts(found.as_str(), &[FRONT, STYLE, BACK, END])
}

#[test]
fn numbers_a_room(rt: HostRuntime) -> Result<(), Fail> {
    let found = picture(rt.alloc(), DRAWING, plain(true, None))?;
    expect_parts(found.as_str(), &[FRONT, STYLE, BACK, NUMBERS, END])
}

#[test]
fn draws_a_slanting_line(rt: HostRuntime) -> Result<(), Fail> {
    let found = picture(rt.alloc(), SLANT, plain(true, None))?;
    expect_parts(
        found.as_str(),
        &[SLANT_FRONT, STYLE, SLANT_BACK, SLANT_NUMBERS, END],
    )
}

#[test]
fn leaves_out_numbers_without_room(rt: HostRuntime) -> Result<(), Fail> {
    let crowd = picture(rt.alloc(), CROWD, plain(true, None))?;
    expect_end(crowd.as_str(), CROWD_NUMBERS)?;
    let ring = picture(rt.alloc(), RING, plain(true, None))?;
    expect_end(ring.as_str(), RING_NUMBERS)
}

#[test]
fn lays_a_tree_and_marks_over_a_room(rt: HostRuntime) -> Result<(), Fail> {
    let mut overlay = nothing(rt.alloc());
    put_tree_and_marks(rt.alloc(), &mut overlay)?;
    let found = laid_over(rt.alloc(), DRAWING, plain(true, None), &overlay)?;
    expect_parts(
        found.as_str(),
        &[FRONT, STYLE, BACK, NUMBERS, LAID_OVER, END],
    )
}

// A writer that takes no byte.
#[derive(Drop)]
struct Full;

impl Write for Full {
    fn write(&mut self, _buf: &[u8]) -> io::Result<usize> {
        Err(io::Error::from(io::ErrorKind::StorageFull))
    }

    fn flush(&mut self) -> io::Result<()> {
        Ok(())
    }
}

#[test]
fn tells_of_a_full_writer(rt: HostRuntime) -> Result<(), Fail> {
    let maps = drawn(rt.alloc(), DRAWING)?;
    let overlay = nothing(rt.alloc());
    let alloc = rt.alloc();
    let told = write_picture(
        alloc,
        maps.current(),
        plain(false, None),
        &overlay,
        &mut Full,
    );
    same(&rt, &told, &Err(PictureError::WriterFailed));
    same(&rt, &WriterFailed.code(), &38);
    Ok(())
}
