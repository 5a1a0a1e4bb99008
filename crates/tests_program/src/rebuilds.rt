//! What `rebuild` tells of lines that are two-sided and have no left side.

use crate::calls::expect_calls;
use crate::wads::wad_of;
use std::fs;
use std::test::Fail;

// Three rooms of the same lines; a byte of the last one's is cut off, so that it can't be built.
const LEVELS: &str = "MAP01;E1M1;E1M2 cut";

const CALLS: &str = "\
    rebuild two_sided.wad two_sided_again.wad~~3~MAP01 rebuilt vertices 4 segs 4 subsectors 1 nodes 0\n\
    E1M1 rebuilt vertices 4 segs 4 subsectors 1 nodes 0\nE1M2 left: LINEDEFS is no whole number of records\n\
    rebuilt 2 of 3 levels, 1520 bytes\n~MAP01: line 0 is two-sided and has no left side\n\
    MAP01: line 2 is two-sided and has no left side\nE1M1: line 0 is two-sided and has no left side\n\
    E1M1: line 2 is two-sided and has no left side\n^\
    rebuild two_sided.wad two_sided_again.wad --map E1M1~~0~\
    E1M1 rebuilt vertices 4 segs 4 subsectors 1 nodes 0\nrebuilt 1 of 1 levels, 1520 bytes\n\
    ~E1M1: line 0 is two-sided and has no left side\nE1M1: line 2 is two-sided and has no left side\n";

// Replaces a byte.
fn put(wad: &mut [u8], place: usize, value: u8) {
    if let Some(byte) = wad.get_mut(place) {
        *byte = value;
    }
}

// The WAD of the levels, with flag 4 on their first line and on their third, none of which has a left side.
fn two_sided(rt: &HostRuntime) -> Result<Vec<u8>, Fail> {
    let mut wad = wad_of(rt.alloc(), LEVELS)?;
    put(&mut wad, 4, 33);
    put(&mut wad, 16, 5);
    put(&mut wad, 44, 5);
    Ok(wad)
}

#[test]
fn tells_of_lines_without_a_left_side(rt: HostRuntime) -> Result<(), Fail> {
    let wad = two_sided(&rt)?;
    fs::write(&rt, "two_sided.wad", &wad)?;
    expect_calls(&rt, CALLS)
}
