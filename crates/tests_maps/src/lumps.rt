//! Records encoded to bytes and decoded again, one by one and in lists, and the sides of a line.

use crate::expect::{holds, same};
use lump_records::{
    Bounds, Line, LumpError, Name8, Node, Point, Ray, Sector, Seg, Side, Sub, Thing, Vertex,
    decode_lines, decode_nodes, decode_sectors, decode_segs, decode_sides, decode_subs,
    decode_things, decode_vertices, difference, encode_lines, encode_nodes, encode_sectors,
    encode_segs, encode_sides, encode_subs, encode_things, encode_vertices, line_bytes, line_of,
    product, sector_bytes, sector_of, thing_bytes, thing_of, vertex_bytes, vertex_of,
};
use std::alloc::Global;
use std::fmt::Debug;
use std::process::Abort;
use std::test::Fail;
use tests_rows::{expect_rows, said};

const NO_SIDE: u16 = 0xffff;

// The segs of a room of 128 by 128 map units, the west side first.
const ROOM_SEGS: [u8; 48] = *b"\
    \0\0\x01\0\0\x40\0\0\0\0\0\0\
    \x01\0\x02\0\0\0\x01\0\0\0\0\0\
    \x02\0\x03\0\0\xc0\x02\0\0\0\0\0\
    \x03\0\0\0\0\x80\x03\0\0\0\0\0";

// The one node of an L-shaped room.
const L_NODES: [u8; 28] = *b"\
    \x80\0\0\x01\0\0\x80\xff\0\x01\0\0\0\0\
    \x80\0\x80\0\0\0\x80\0\0\x01\0\x80\x01\x80";

// A seg on side 0 that begins at its line's first end.
fn seg(first: u16, second: u16, angle: u16, line: u16) -> Seg {
    Seg {
        first,
        second,
        angle,
        line,
        side: 0,
        offset: 0,
    }
}

fn l_node() -> Node {
    Node {
        x: 128,
        y: 256,
        dx: 0,
        dy: -128,
        right_box: Bounds {
            top: 256,
            bottom: 0,
            left: 0,
            right: 128,
        },
        left_box: Bounds {
            top: 128,
            bottom: 0,
            left: 128,
            right: 256,
        },
        right: 0x8000,
        left: 0x8001,
    }
}

// Vertices, their bytes, and whether these are decoded to the vertex.
const VERTICES: &str = "0 0|([0, 0, 0, 0], true)\n128 0|([128, 0, 0, 0], true)\n\
    -16384 16383|([0, 192, 255, 63], true)";

// The bytes of a vertex.
fn vertex_told(alloc: Global, row: &str) -> Result<String, Fail> {
    let (x, y) = row.split_once(' ').unwrap_or((row, ""));
    let vertex = Vertex {
        x: x.parse()?,
        y: y.parse()?,
    };
    let bytes = vertex_bytes(&vertex);
    said(alloc, &(bytes, vertex_of(&bytes) == vertex))
}

#[test]
fn vertices_have_their_bytes(rt: HostRuntime) -> Result<(), Fail> {
    expect_rows(rt.alloc(), VERTICES, vertex_told)
}

const THING: Thing = Thing {
    x: 64,
    y: 64,
    angle: 90,
    kind: 1,
    options: 7,
};

const THING_BYTES: [u8; 10] = *b"\x40\0\x40\0\x5a\0\x01\0\x07\0";

#[test]
fn things_have_their_bytes(rt: HostRuntime) {
    let found = (thing_bytes(&THING), thing_of(&THING_BYTES));
    assert_eq!(rt; found, (THING_BYTES, THING));
}

const SECTOR_BYTES: [u8; 26] = *b"\0\0\x80\0FLOOR4_8CEIL3_5\0\xa0\0\0\0\0\0";

#[test]
fn sectors_have_their_bytes(rt: HostRuntime) {
    let sector = Sector {
        floor: 0,
        ceiling: 128,
        floor_name: Name8::from_text(b"FLOOR4_8"),
        ceiling_name: Name8::from_text(b"CEIL3_5"),
        light: 160,
        special: 0,
        tag: 0,
    };
    let found = (sector_bytes(&sector), sector_of(&SECTOR_BYTES));
    same(&rt, &found, &(SECTOR_BYTES, sector));
    same(&rt, &sector.ceiling_name.text(), &b"CEIL3_5".as_slice());
}

const LINE: Line = Line {
    v1: 0,
    v2: 1,
    flags: 1,
    special: 0,
    tag: 0,
    right: 0,
    left: NO_SIDE,
};

const LINE_BYTES: [u8; 14] = *b"\0\0\x01\0\x01\0\0\0\0\0\0\0\xff\xff";

#[test]
fn lines_have_their_bytes(rt: HostRuntime) {
    let found = (line_bytes(&LINE), line_of(&LINE_BYTES));
    assert_eq!(rt; found, (LINE_BYTES, LINE));
}

// A list is encoded to these bytes, and these bytes are decoded to the list.
fn expect_both<T: PartialEq + Debug + Drop>(
    rt: &impl Abort,
    encoded: Result<Vec<u8>, LumpError>,
    decoded: Result<Vec<T>, LumpError>,
    bytes: &[u8],
    records: &[T],
) -> Result<(), LumpError> {
    match (encoded, decoded) {
        (Ok(encoded), Ok(decoded)) => {
            same(rt, &encoded.as_slice(), &bytes);
            same(rt, &decoded.as_slice(), &records);
            Ok(())
        }
        (Err(error), _) | (_, Err(error)) => Err(error),
    }
}

#[test]
fn built_lists_go_both_ways(rt: HostRuntime) -> Result<(), Fail> {
    let alloc = rt.alloc();
    let segs = [
        seg(0, 1, 0x4000, 0),
        seg(1, 2, 0, 1),
        seg(2, 3, 0xc000, 2),
        seg(3, 0, 0x8000, 3),
    ];
    expect_both(
        &rt,
        encode_segs(alloc, &segs),
        decode_segs(alloc, &ROOM_SEGS),
        &ROOM_SEGS,
        &segs,
    )?;
    let nodes = [l_node()];
    expect_both(
        &rt,
        encode_nodes(alloc, &nodes),
        decode_nodes(alloc, &L_NODES),
        &L_NODES,
        &nodes,
    )?;
    let subs = [Sub { count: 4, first: 0 }, Sub { count: 3, first: 4 }];
    let bytes = [0x04, 0x00, 0x00, 0x00, 0x03, 0x00, 0x04, 0x00];
    expect_both(
        &rt,
        encode_subs(alloc, &subs),
        decode_subs(alloc, &bytes),
        &bytes,
        &subs,
    )?;
    Ok(())
}

#[test]
fn drawn_lists_go_both_ways(rt: HostRuntime) -> Result<(), Fail> {
    let alloc = rt.alloc();
    let vertices = [Vertex { x: 0, y: 0 }, Vertex { x: 128, y: 0 }];
    let bytes = [0x00, 0x00, 0x00, 0x00, 0x80, 0x00, 0x00, 0x00];
    expect_both(
        &rt,
        encode_vertices(alloc, &vertices),
        decode_vertices(alloc, &bytes),
        &bytes,
        &vertices,
    )?;
    let things = [thing_of(&THING_BYTES)];
    expect_both(
        &rt,
        encode_things(alloc, &things),
        decode_things(alloc, &THING_BYTES),
        &THING_BYTES,
        &things,
    )?;
    let lines = [line_of(&LINE_BYTES)];
    expect_both(
        &rt,
        encode_lines(alloc, &lines),
        decode_lines(alloc, &LINE_BYTES),
        &LINE_BYTES,
        &lines,
    )?;
    Ok(())
}

const SIDE_BYTES: &[u8] = b"\0\0\0\0-\0\0\0\0\0\0\0-\0\0\0\0\0\0\0STARTAN3\0\0";

const SECTORS: &[u8; 26] = b"\0\0\x80\0FLOOR4_8CEIL3_5\0\xa0\0\0\0\0\0";

#[test]
fn lists_with_names_go_both_ways(rt: HostRuntime) -> Result<(), Fail> {
    let alloc = rt.alloc();
    let none = Name8::from_text(b"-");
    let sides = [Side {
        x_offset: 0,
        y_offset: 0,
        upper: none,
        lower: none,
        middle: Name8::from_text(b"STARTAN3"),
        sector: 0,
    }];
    expect_both(
        &rt,
        encode_sides(alloc, &sides),
        decode_sides(alloc, SIDE_BYTES),
        SIDE_BYTES,
        &sides,
    )?;
    let sectors = [sector_of(SECTORS)];
    expect_both(
        &rt,
        encode_sectors(alloc, &sectors),
        decode_sectors(alloc, SECTORS),
        SECTORS,
        &sectors,
    )?;
    Ok(())
}

#[test]
fn part_of_a_record_is_refused(rt: HostRuntime) {
    let refused = decode_segs(rt.alloc(), &ROOM_SEGS[..47]);
    assert_eq!(rt; refused.err().map(|error| error.code()), Some(50));
    assert_eq!(rt; LumpError::OutOfMemory.code(), 31);
}

// Points; whether each lies on the right and on the left of a room's west side; and the side value, which says how far.
const PLACES: &str =
    "64 64|(true, false, 8192)\n-1 64|(false, true, -128)\n0 -999|(false, false, 0)\n\
    40000 40000|(true, false, 5120000)";

// How a point lies to the west side.
fn place_told(alloc: Global, row: &str) -> Result<String, Fail> {
    let west = Ray::between(Vertex { x: 0, y: 0 }, Vertex { x: 0, y: 128 });
    let (x, y) = row.split_once(' ').unwrap_or((row, ""));
    let point = Point {
        x: x.parse()?,
        y: y.parse()?,
    };
    let found = (west.has_on_right(point), west.has_on_left(point));
    said(alloc, &(found.0, found.1, west.side_value(point)))
}

#[test]
fn the_right_is_the_inside_of_a_room(rt: HostRuntime) -> Result<(), Fail> {
    expect_rows(rt.alloc(), PLACES, place_told)?;
    let west = Ray::between(Vertex { x: 0, y: 0 }, Vertex { x: 0, y: 128 });
    holds(&rt, west.has_on_right(Point::from(Vertex { x: 128, y: 0 })));
    same(&rt, &difference(i32::MIN, i32::MAX), &4_294_967_295);
    same(&rt, &product(-3, 4), &(-12));
    Ok(())
}
