//! What `lint`, `check` and `picture` print for a WAD in place of a project.

use crate::calls::{expect_calls, performed};
use crate::expect::same;
use crate::inspection::ROOM_WAD;
use std::alloc::Global;
use std::fs;
use std::test::Fail;
use tests_rows::part;

// The levels of the WAD, which `;` divides: the name of each, `start` if it has a player's start, and `cut` if the last
// byte of its LINEDEFS is cut off. Two levels are called MAP01. The last one counts.
const LEVELS: &str = "MAP01;E1M1 start;E1M2 start cut;MAP01 start";

// The offset of the directory in the WAD of the room, after its lumps. Here a thing follows these lumps.
pub const START_AT: usize = 339;

// A player's start at (64,64).
const START: &[u8] = b"\x40\0\x40\0\0\0\x01\0\x07\0";

// Appends a name, filled up with NULs to eight bytes.
fn put_name(wad: &mut Vec<u8>, name: &str) -> Result<(), Fail> {
    for n in 0..8 {
        wad.push(name.as_bytes().get(n).copied().unwrap_or(0))?;
    }
    Ok(())
}

// Appends the directory entries of a level, whose lumps are those of the room.
fn add_level(wad: &mut Vec<u8>, level: &str) -> Result<(), Fail> {
    let mut how = level;
    wad.extend_from_slice(b"\x0c\0\0\0\0\0\0\0")?;
    put_name(wad, part(&mut how, ' '))?;
    let things: &[u8] = if how.contains("start") {
        b"\x53\x01\0\0\x0a\0\0\0THINGS\0\0"
    } else {
        b"\x0c\0\0\0\0\0\0\0THINGS\0\0"
    };
    wad.extend_from_slice(things)?;
    let lines: &[u8] = if how.contains("cut") {
        b"\x0c\0\0\0\x37\0\0\0LINEDEFS"
    } else {
        b"\x0c\0\0\0\x38\0\0\0LINEDEFS"
    };
    wad.extend_from_slice(lines)?;
    wad.extend_from_slice(ROOM_WAD.get(START_AT + 48..).unwrap_or(b""))?;
    Ok(())
}

// The WAD of the levels: the lumps of the room, the player's start, and the directory.
pub fn wad_of(alloc: Global, levels: &str) -> Result<Vec<u8>, Fail> {
    let mut wad = Vec::from_slice(alloc, b"PWAD\x2c\0\0\0\x5d\x01\0\0")?;
    wad.extend_from_slice(ROOM_WAD.get(12..START_AT).unwrap_or(b""))?;
    wad.extend_from_slice(START)?;
    for level in levels.split(';') {
        add_level(&mut wad, level)?;
    }
    Ok(wad)
}

// The WAD of the room without its last bytes.
pub fn cut_wad() -> &'static [u8] {
    ROOM_WAD.get(..500).unwrap_or(b"")
}

// The calls. A room without a start has a finding and a warning for that; no room has an exit.
const CALLS: &str = "\
    lint levels.wad~~3~MAP01 no player start\nMAP01 no-start 1\nMAP01 no-exit 0\nE1M1 no-exit 0\n\
    E1M2 no-map LINEDEFS is no whole number of records\nMAP01 no-exit 0\nfindings 6\n~^\
    lint levels.wad E1M1~~3~E1M1 no-exit 0\nfindings 1\n~^\
    lint levels.wad MAP01~~3~MAP01 no-exit 0\nfindings 1\n~^\
    lint levels.wad MAP07~~1~~leveled: 72 NoSuchLevel\n  there is MAP01 E1M1 E1M2 MAP01\n^\
    lint cut.wad~~1~~leveled: 71 DirectoryOutside\n^\
    check levels.wad~~3~no player start\nfindings 1\n~^\
    check levels.wad E1M1~~0~findings 0\n~^\
    check levels.wad E1M2~~1~~leveled: 77 NotAMap\n  LINEDEFS is no whole number of records\n^\
    picture levels.wad E1M2~~1~~leveled: 77 NotAMap\n  LINEDEFS is no whole number of records\n^\
    picture levels.wad MAP07~~1~~leveled: 72 NoSuchLevel\n  there is MAP01 E1M1 E1M2 MAP01\n^\
    picture --nodes outside.wad~~1~~leveled: 78 TreeOutside\n^\
    create levels.lv~~0~created\n~^\
    check levels.lv MAP01~~3~no player start\nfindings 1\n~^\
    lint levels.lv MAP01~~3~MAP01 no player start\nMAP01 no-start 1\nMAP01 no-exit 0\nfindings 3\n~^\
    lint levels.lv MAP02~~1~~leveled: 18 NoSuchMap\n  there is MAP01\n";

// Makes the three WADs. In the last one the first seg names a vertex that doesn't exist.
fn make_files(rt: &HostRuntime) -> Result<(), Fail> {
    let _ = fs::remove_file(rt, "levels.lv");
    fs::write(rt, "levels.wad", &wad_of(rt.alloc(), LEVELS)?)?;
    fs::write(rt, "cut.wad", cut_wad())?;
    let mut outside = Vec::from_slice(rt.alloc(), ROOM_WAD)?;
    if let Some(vertex) = outside.get_mut(204) {
        *vertex = 4;
    }
    fs::write(rt, "outside.wad", &outside)?;
    Ok(())
}

#[test]
fn says_what_is_found_in_levels(rt: HostRuntime) -> Result<(), Fail> {
    make_files(&rt)?;
    expect_calls(&rt, CALLS)
}

// Calls `picture --nodes` over a file: its status, and its output.
fn pictured(rt: &HostRuntime, path: &str) -> Result<(u8, Vec<u8>), Fail> {
    let words = format!(in rt.alloc(); "picture --nodes {path}")?;
    let (status, out, _) = performed(rt, words.as_str(), b"")?;
    Ok((status, out))
}

// The picture of a room with the tree of its WAD is the same as the picture with the tree that is built from its map.
#[test]
fn draws_a_level_as_its_map(rt: HostRuntime) -> Result<(), Fail> {
    let _ = fs::remove_file(&rt, "shown.lv");
    let _ = performed(&rt, "create shown.lv", b"")?;
    let line = b"room 0 0 128 128 0 128 FLOOR4_8 CEIL3_5 STARTAN3 160\n";
    let _ = performed(&rt, "edit shown.lv", line)?;
    fs::write(&rt, "shown.wad", ROOM_WAD)?;
    let (status, drawn) = pictured(&rt, "shown.wad")?;
    let (_, wanted) = pictured(&rt, "shown.lv")?;
    same(&rt, &(status, drawn.as_slice()), &(0, wanted.as_slice()));
    Ok(())
}
