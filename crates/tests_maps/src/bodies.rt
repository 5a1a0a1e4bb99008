//! Bodies of drawn projects, read back in each version of the format, and damaged bodies.

use crate::drawing::drawn;
use crate::maps::{TWO_MAPS, is_refused};
use map_tables::Maps;
use std::alloc::Global;
use std::test::Fail;
use tests_rows::{expect_rows, said};

// The body of a map with two vertices and one item of each other kind.
const BODY: [u8; 108] =
    *b"\x02\0MAP01\0\0\0\x01\0\x01\0\x01\0\x02\0\x01\0\x40\0\x40\0\x5a\0\x01\0\x07\0\
\0\0\x01\0\x01\0\0\0\0\0\0\0\xff\xff\0\0\0\0-\0\0\0\0\0\0\0-\0\0\0\0\0\0\0STARTAN3\0\0\
\0\0\0\0\x40\0\0\0\0\0\x80\0FLOOR4_8CEIL3_5\0\xa0\0\0\0\0\0";

// The body of the new project.
const EMPTY: &[u8] = b"\x02\0MAP01\0\0\0\0\0\0\0\0\0\0\0\0\0";

// The body of the project that lines draw.
fn written(alloc: Global, lines: &str) -> Result<Vec<u8>, Fail> {
    let maps = drawn(alloc, lines)?;
    Ok(maps.encode_body(alloc)?)
}

// The body of the project that is read from a body.
fn written_again(alloc: Global, body: &[u8]) -> Result<Vec<u8>, Fail> {
    let maps = Maps::decode_body(alloc, body)?;
    Ok(maps.encode_body(alloc)?)
}

// The lines draw a project with this body, which is read back in this version.
fn expect_body(alloc: Global, lines: &str, body: &[u8], version: u8) -> Result<(), Fail> {
    let mut read = written(alloc, lines)?;
    let is_written = read.as_slice() == body;
    if let Some(first) = read.get_mut(0) {
        *first = version;
    }
    if is_written && written_again(alloc, &read)?.as_slice() == body {
        return Ok(());
    }
    Err(Fail::from((lines, version)))
}

#[test]
fn bodies_are_written_and_read_back(rt: HostRuntime) -> Result<(), Fail> {
    let lines = "vertex 0 0;vertex 64 0;SECTOR;SIDE;line 0 1 1 0 0 0 -;thing 64 64 90 1 7";
    let renamed = b"\x02\0E1M1\0\0\0\0\0\0\0\0\0\0\x01\0\0\0\x40\0\xff\xff";
    expect_body(rt.alloc(), "", EMPTY, 1)?;
    expect_body(rt.alloc(), "", EMPTY, 2)?;
    expect_body(rt.alloc(), lines, &BODY, 1)?;
    expect_body(rt.alloc(), lines, &BODY, 2)?;
    expect_body(rt.alloc(), "name E1M1;vertex 64 -1", renamed, 1)?;
    expect_body(
        rt.alloc(),
        "vertex 64 -1;map E1M1;thing 64 -1 90 1 7",
        TWO_MAPS,
        2,
    )
}

#[test]
fn the_body_of_the_new_project_takes_no_memory(rt: HostRuntime) {
    assert_eq!(rt; Maps::empty_body().as_slice(), EMPTY);
}

// An offset in the body, the byte that is put there, what it damages, and whether it is refused in the second version
// and in the first.
const SPOILT: &str = "\
    2 78 the map's name|(true, true)\n\
    7 88 what follows the map's name|(true, true)\n\
    10 2 the count of things|(true, true)\n\
    16 1 the count of vertices|(true, true)\n\
    25 128 a thing's angle|(true, true)\n\
    30 2 a line's vertex|(true, true)\n\
    30 1 a line's two ends|(true, true)\n\
    34 4 the flags of a line without a left side|(true, true)\n\
    40 1 a line's right side|(true, true)\n\
    42 1 a line's left side|(true, true)\n\
    48 32 a texture's name|(true, true)\n\
    72 1 a side's sector|(true, true)\n\
    75 64 a vertex's coordinate|(true, true)\n\
    78 0 the place of a vertex|(true, true)\n\
    87 120 a flat's name|(true, true)\n\
    103 1 a sector's light|(true, true)";

// The body in this version, with the byte at an offset replaced.
fn spoilt(at: usize, byte: u8, version: u8) -> [u8; 108] {
    let mut body = BODY;
    if let Some(place) = body.get_mut(at) {
        *place = byte;
    }
    body[0] = version;
    body
}

// Whether the damaged body of a row is refused.
fn spoilt_told(alloc: Global, row: &str) -> Result<String, Fail> {
    let (at, rest) = row.split_once(' ').unwrap_or((row, ""));
    let (byte, _) = rest.split_once(' ').unwrap_or((rest, ""));
    let (at, byte) = (at.parse()?, byte.parse()?);
    let second = is_refused(alloc, &spoilt(at, byte, 2));
    let first = is_refused(alloc, &spoilt(at, byte, 1));
    said(alloc, &(second, first))
}

#[test]
fn damaged_bodies_are_refused(rt: HostRuntime) -> Result<(), Fail> {
    expect_rows(rt.alloc(), SPOILT, spoilt_told)?;
    let short = is_refused(rt.alloc(), &BODY[..107]);
    let shorter = is_refused(rt.alloc(), &BODY[..19]);
    assert_eq!(rt; (short, shorter), (true, true));
    Ok(())
}
