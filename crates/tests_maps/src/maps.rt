//! The maps of a project, and the bytes of their body.

use crate::expect::same;
use lump_records::Name8;
use map_tables::{MapError, Maps};
use std::alloc::{AllocError, Global};
use std::test::Fail;
use tests_rows::{expect_rows, said};

const MAP01: Name8 = Name8 {
    bytes: *b"MAP01\0\0\0",
};

const E1M1: Name8 = Name8 {
    bytes: *b"E1M1\0\0\0\0",
};

/// The body of two maps: MAP01 with the vertex (64,-1), and E1M1, the current one, with a thing.
pub const TWO_MAPS: &[u8] = b"\x02\x01\
    MAP01\0\0\0\0\0\0\0\0\0\x01\0\0\0\x40\0\xff\xff\
    E1M1\0\0\0\0\x01\0\0\0\0\0\0\0\0\0\x40\0\xff\xff\x5a\0\x01\0\x07\0";

// The body of `count` empty maps, MAP01 and so on.
fn body_of(alloc: Global, count: u8, current: u8) -> Result<Vec<u8>, AllocError> {
    let mut body = Vec::new(alloc);
    body.extend_from_slice(&[2, current])?;
    for n in 1..=count {
        let name = [b'M', b'A', b'P', b'0' + n / 10, b'0' + n % 10];
        body.extend_from_slice(&name)?;
        body.extend_from_slice(&[0; 13])?;
    }
    Ok(body)
}

/// Whether the body is refused as damaged at place 0.
pub fn is_refused(alloc: Global, body: &[u8]) -> bool {
    matches!(Maps::decode_body(alloc, body), Err(MapError::Damaged(0)))
}

#[test]
fn the_new_project_has_the_empty_map(rt: HostRuntime) {
    let maps = Maps::new(rt.alloc());
    let found = [maps.find(MAP01), maps.find(E1M1)];
    let further = maps.at(1).is_some();
    same(
        &rt,
        &(maps.current().name(), found, further),
        &(MAP01, [Some(0), None], false),
    );
}

// Reads a body: how many maps it has, which is current, how long their body is, and that body.
fn read_again(alloc: Global, body: &[u8]) -> Result<([u32; 3], Vec<u8>), MapError> {
    let maps = Maps::decode_body(alloc, body)?;
    let found = [maps.len(), maps.current_number(), maps.body_len()];
    Ok((found, maps.encode_body(alloc)?))
}

#[test]
fn a_project_has_thirty_two_maps(rt: HostRuntime) -> Result<(), Fail> {
    let body = body_of(rt.alloc(), 32, 31)?;
    let (found, again) = read_again(rt.alloc(), &body)?;
    assert_eq!(rt; (found, again.as_slice()), ([32, 31, 578], body.as_slice()));
    Ok(())
}

// An offset in the body of two empty maps, and the byte that is put there: the current map's number; either name made
// equal to the other; a count of vertices; a count of sectors. Then whether the body is refused without it and with it.
const CHANGES: &str =
    "1 2|[false, true]\n6 50|[false, true]\n24 49|[false, true]\n16 1|[false, true]\n18 1|[false, true]";

// Whether the body of two empty maps is refused, and whether it is refused with one byte changed.
fn are_refused(alloc: Global, place: usize, byte: u8) -> Result<[bool; 2], AllocError> {
    let mut body = body_of(alloc, 2, 1)?;
    let before = is_refused(alloc, &body);
    if let Some(changed) = body.get_mut(place) {
        *changed = byte;
    }
    Ok([before, is_refused(alloc, &body)])
}

// The same of a row.
fn refusals_of(alloc: Global, row: &str) -> Result<String, Fail> {
    let (place, byte) = row.split_once(' ').unwrap_or((row, ""));
    said(alloc, &are_refused(alloc, place.parse()?, byte.parse()?)?)
}

#[test]
fn a_changed_byte_is_refused(rt: HostRuntime) -> Result<(), Fail> {
    expect_rows(rt.alloc(), CHANGES, refusals_of)
}

// No bytes; version 2 alone, and without a map; `01 01` alone, and before a map; version 1 with an extra byte at the
// end; version 3.
const NO_BODIES: &str = "\n\
    \x02\n\
    \x02\0\n\
    \x01\x01\n\
    \x01\x01MAP01\0\0\0\0\0\0\0\0\0\0\0\0\0\n\
    \x01\0MAP01\0\0\0\0\0\0\0\0\0\0\0\0\0\0\n\
    \x03\0MAP01\0\0\0\0\0\0\0\0\0\0\0\0\0";

#[test]
fn bytes_of_no_project_are_refused(rt: HostRuntime) -> Result<(), Fail> {
    for body in NO_BODIES.split('\n') {
        same(
            &rt,
            &(body, is_refused(rt.alloc(), body.as_bytes())),
            &(body, true),
        );
    }
    let long = body_of(rt.alloc(), 33, 0)?;
    same(&rt, &is_refused(rt.alloc(), &long), &true);
    Ok(())
}

// Appends `count` zeros one by one to a body, and returns how many of the longer bodies are refused.
fn refused_longer(alloc: Global, body: &mut Vec<u8>, count: u32) -> Result<u32, AllocError> {
    let mut refused = 0_u32;
    for _ in 0..count {
        body.push(0)?;
        if is_refused(alloc, body) {
            refused = refused.saturating_add(1);
        }
    }
    Ok(refused)
}

#[test]
fn a_body_ends_with_its_last_map(rt: HostRuntime) -> Result<(), Fail> {
    for len in 21..TWO_MAPS.len() {
        same(
            &rt,
            &(len, is_refused(rt.alloc(), &TWO_MAPS[..len])),
            &(len, true),
        );
    }
    let mut body = body_of(rt.alloc(), 1, 0)?;
    assert_eq!(rt; refused_longer(rt.alloc(), &mut body, 17)?, 17);
    Ok(())
}
