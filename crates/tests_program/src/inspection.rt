//! Inspections: a worked room as a WAD, the same with one byte changed, and rooms that the program draws and builds.

use crate::calls::{expect_calls, performed};
use run_edit::{InspectError, inspect};
use std::alloc::{AllocError, Global};
use std::fs;
use std::test::Fail;
use tests_rows::{expect_text, script_halves};
use wad_build::ReadError;

// The WAD of the room from (0,0) to (128,128) as MAP01: lines, sides, vertices, segs, one subsector, one sector,
// REJECT, BLOCKMAP and the directory.
pub const ROOM_WAD: &[u8] = b"\
    PWAD\x0b\0\0\0S\x01\0\0\
    \0\0\x01\0\x01\0\0\0\0\0\0\0\xff\xff\x01\0\x02\0\x01\0\0\0\0\0\x01\0\xff\xff\x02\0\x03\0\x01\0\0\0\0\0\x02\0\xff\
    \xff\x03\0\0\0\x01\0\0\0\0\0\x03\0\xff\xff\
    \0\0\0\0-\0\0\0\0\0\0\0-\0\0\0\0\0\0\0STARTAN3\0\0\0\0\0\0-\0\0\0\0\0\0\0-\0\0\0\0\0\0\0STARTAN3\0\0\0\0\0\0-\0\
    \0\0\0\0\0\0-\0\0\0\0\0\0\0STARTAN3\0\0\0\0\0\0-\0\0\0\0\0\0\0-\0\0\0\0\0\0\0STARTAN3\0\0\
    \0\0\0\0\0\0\x80\0\x80\0\x80\0\x80\0\0\0\
    \0\0\x01\0\0@\0\0\0\0\0\0\x01\0\x02\0\0\0\x01\0\0\0\0\0\x02\0\x03\0\0\xc0\x02\0\0\0\0\0\x03\0\0\0\0\x80\x03\0\0\
    \0\0\0\
    \x04\0\0\0\
    \0\0\x80\0FLOOR4_8CEIL3_5\0\xa0\0\0\0\0\0\
    \0\
    \0\0\0\0\x02\0\x02\0\x08\0\x0e\0\x13\0\x18\0\0\0\0\0\x01\0\x02\0\x03\0\xff\xff\0\0\x01\0\x02\0\x03\0\xff\xff\0\0\
    \0\0\x01\0\x02\0\xff\xff\0\0\x01\0\x02\0\xff\xff\
    \x0c\0\0\0\0\0\0\0MAP01\0\0\0\x0c\0\0\0\0\0\0\0THINGS\0\0\x0c\0\0\08\0\0\0LINEDEFSD\0\0\0x\0\0\0SIDEDEFS\xbc\0\0\
    \0\x10\0\0\0VERTEXES\xcc\0\0\00\0\0\0SEGS\0\0\0\0\xfc\0\0\0\x04\0\0\0SSECTORS\0\x01\0\0\0\0\0\0NODES\0\0\0\0\x01\
    \0\0\x1a\0\0\0SECTORS\0\x1a\x01\0\0\x01\0\0\0REJECT\0\0\x1b\x01\0\08\0\0\0BLOCKMAP";

// What `inspect` prints for the room.
const ROOM_TEXT: &[u8] =
    b"things 0 lines 4 sides 4 vertices 4 segs 4 subsectors 1 nodes 0 sectors 1 reject 1 blockmap 56\nsound\n";

// A changed byte: its offset, its new value, and the last line that `inspect` then prints.
const CHANGES: &str = "\
    12 4~fault LineVertex 0\n^\
    16 5~fault LineSide 0\n^\
    96 1~fault SideSector 0\n^\
    204 4~fault SegVertex 0\n^\
    210 4~fault SegLine 0\n^\
    212 1~fault SegSide 0\n^\
    252 0~fault SubRange 0\n^\
    252 3~fault SubTotal 0\n^\
    287 255~fault BlockHeader 0\n^\
    291 28~fault BlockList 0\n^\
    487 0~fault Reject 0\n";

// The WAD of the room with one byte changed.
fn changed(alloc: Global, place: usize, value: u8) -> Result<Vec<u8>, AllocError> {
    let mut wad = Vec::from_slice(alloc, ROOM_WAD)?;
    if let Some(byte) = wad.get_mut(place) {
        *byte = value;
    }
    Ok(wad)
}

// Whether the level of these bytes is sound, and what `inspect` prints for it.
fn told(alloc: Global, wad: &[u8]) -> Result<(bool, Vec<u8>), Fail> {
    let mut out = Vec::new(alloc);
    let sound = inspect(alloc, wad, b"MAP01", &mut out)?;
    Ok((sound, out))
}

#[test]
fn tells_of_a_level(rt: HostRuntime) -> Result<(), Fail> {
    let (sound, out) = told(rt.alloc(), ROOM_WAD)?;
    assert_eq!(rt; (sound, out.as_slice()), (true, ROOM_TEXT));
    Ok(())
}

// For a level that doesn't exist nothing is printed.
#[test]
fn tells_nothing_of_no_level(rt: HostRuntime) {
    let mut out = Vec::new(rt.alloc());
    let refused = inspect(rt.alloc(), ROOM_WAD, b"MAP02", &mut out).err();
    let error = InspectError::Level(ReadError::NoSuchLevel);
    let codes = [error.code(), InspectError::WriterFailed.code()];
    assert_eq!(rt; (refused, codes, out.len()), (Some(error), [72, 38], 0));
}

// The room with the byte of a row changed isn't sound, and the output ends as the row says.
fn expect_changed(alloc: Global, row: &str) -> Result<(), Fail> {
    let (asked, end) = script_halves(row);
    let (place, value) = asked.split_once(' ').unwrap_or((asked, ""));
    let wad = changed(alloc, place.parse()?, value.parse()?)?;
    let (sound, out) = told(alloc, &wad)?;
    if !sound && out.ends_with(end.as_bytes()) {
        return Ok(());
    }
    expect_text(row, String::from_utf8(out)?.as_str(), end)
}

#[test]
fn tells_a_changed_byte(rt: HostRuntime) -> Result<(), Fail> {
    for row in CHANGES.split('^') {
        expect_changed(rt.alloc(), row)?;
    }
    Ok(())
}

const ROOM: &[u8] = b"room 0 0 128 128 0 128 FLOOR4_8 CEIL3_5 STARTAN3 160\n";

// A room is drawn in a project file, built into a PWAD and inspected.
const CALLS: &str = "\
    create room.lv~~0~created\n~^\
    build room.lv room.wad~~1~~leveled: 60 NothingToBuild\n  MAP01: has no line\n^\
    edit room.lv~room 0 0 128 128 0 128 FLOOR4_8 CEIL3_5 STARTAN3 160\n~0~ok 0\n~^\
    build none.lv room.wad~~1~~leveled: 30 Device\n  none.lv: No such file or directory\n^\
    build room.lv none/room.wad~~1~~leveled: 38 WriterFailed\n  none/room.wad: No such file or directory\n^\
    build room.lv ./room.lv~~1~~leveled: 38 WriterFailed\n  ./room.lv: is no PWAD; it is left alone\n^\
    build room.lv room.wad~~0~built vertices 4 segs 4 subsectors 1 nodes 0 bytes 515\n~^\
    rebuild room.wad again.wad~~0~MAP01 rebuilt vertices 4 segs 4 subsectors 1 nodes 0\n\
    rebuilt 1 of 1 levels, 515 bytes\n~^\
    rebuild room.wad again.wad --map MAP02~~1~~leveled: 72 NoSuchLevel\n  there is MAP01\n^\
    rebuild room.wad ./room.lv~~1~~leveled: 38 WriterFailed\n  ./room.lv: is no PWAD; it is left alone\n^\
    inspect room.wad MAP01~~0~\
    things 0 lines 4 sides 4 vertices 4 segs 4 subsectors 1 nodes 0 sectors 1 reject 1 blockmap 56\nsound\n~^\
    inspect room.wad MAP02~~1~~leveled: 72 NoSuchLevel\n  there is MAP01\n^\
    inspect none.wad MAP01~~1~~leveled: 37 ReaderFailed\n  none.wad: No such file or directory\n";

// Whether a file has these bytes.
fn has_bytes(rt: &HostRuntime, path: &str, bytes: &[u8]) -> Result<bool, Fail> {
    let read = fs::read(rt, path)?;
    Ok(read.as_slice() == bytes)
}

#[test]
fn builds_and_inspects_a_room(rt: HostRuntime) -> Result<(), Fail> {
    let _ = fs::remove_file(&rt, "room.lv");
    expect_calls(&rt, CALLS)?;
    let is_room = has_bytes(&rt, "room.wad", ROOM_WAD)?;
    let is_again = has_bytes(&rt, "again.wad", ROOM_WAD)?;
    assert!(rt; is_room && is_again);
    Ok(())
}

// A fault is printed on standard output, and the status is 3.
#[test]
fn tells_a_fault_by_the_status(rt: HostRuntime) -> Result<(), Fail> {
    let wad = changed(rt.alloc(), 12, 0x04)?;
    fs::write(&rt, "changed.wad", &wad)?;
    let (ended, out, faults) = performed(&rt, "inspect changed.wad MAP01", b"")?;
    let end = out.ends_with(b"fault LineVertex 0\n");
    assert_eq!(rt; (ended, end, faults.is_empty()), (3, true, true));
    Ok(())
}

// What `rebuild` prints for a level that can't be built: its first line names vertex 4, and there are only four.
const LEFT: &str =
    "rebuild faulty.wad left.wad~~3~MAP01 left: line 0 has a vertex that isn't there\n\
    rebuilt 0 of 1 levels, 515 bytes\n~";

#[test]
fn leaves_a_level_with_a_fault(rt: HostRuntime) -> Result<(), Fail> {
    let wad = changed(rt.alloc(), 12, 0x04)?;
    fs::write(&rt, "faulty.wad", &wad)?;
    expect_calls(&rt, LEFT)?;
    let is_same = has_bytes(&rt, "left.wad", &wad)?;
    assert!(rt; is_same);
    Ok(())
}

// A room is drawn in each of two maps, and both maps are built into one PWAD.
const TWO_MAPS: &str = "\
    create two.lv~~0~created\n~^\
    edit two.lv~room 0 0 128 128 0 128 FLOOR4_8 CEIL3_5 STARTAN3 160\nmap MAP02\n\
    room 0 0 128 128 0 128 FLOOR4_8 CEIL3_5 STARTAN3 160\n~0~ok 0\nok 1\nok 0\n~^\
    build two.lv two.wad~~0~built vertices 8 segs 8 subsectors 2 nodes 0 bytes 1018\n~^\
    inspect two.wad MAP01~~0~\
    things 0 lines 4 sides 4 vertices 4 segs 4 subsectors 1 nodes 0 sectors 1 reject 1 blockmap 56\nsound\n~^\
    inspect two.wad MAP02~~0~\
    things 0 lines 4 sides 4 vertices 4 segs 4 subsectors 1 nodes 0 sectors 1 reject 1 blockmap 56\nsound\n~^\
    inspect two.wad~~0~MAP01\nMAP02\n~^\
    inspect two.lv~~1~~leveled: 70 NotAWad\n  two.lv: is a project\n";

#[test]
fn builds_and_inspects_two_maps(rt: HostRuntime) -> Result<(), Fail> {
    let _ = fs::remove_file(&rt, "two.lv");
    expect_calls(&rt, TWO_MAPS)
}

// Builds over a file, whose first bytes are given: whether it is then as it was.
fn is_left(rt: &HostRuntime, old: &[u8]) -> Result<bool, Fail> {
    fs::write(rt, "old.wad", old)?;
    let _ = performed(rt, "build old.lv old.wad", b"")?;
    has_bytes(rt, "old.wad", old)
}

// Whether the file is then the room's PWAD.
fn is_built(rt: &HostRuntime) -> Result<bool, Fail> {
    let _ = performed(rt, "edit old.lv", ROOM)?;
    let _ = performed(rt, "build old.lv old.wad", b"")?;
    has_bytes(rt, "old.wad", ROOM_WAD)
}

// 600 bytes that begin as a PWAD.
fn long_wad(alloc: Global) -> Result<Vec<u8>, Fail> {
    let mut wad = Vec::from_slice(alloc, b"PWAD")?;
    for _ in 4..600 {
        wad.push(7)?;
    }
    Ok(wad)
}

// A refused build leaves OUT as it was, a successful one replaces a longer PWAD, and an IWAD is never replaced.
#[test]
fn builds_over_a_file(rt: HostRuntime) -> Result<(), Fail> {
    let old = long_wad(rt.alloc())?;
    let _ = fs::remove_file(&rt, "old.lv");
    let _ = performed(&rt, "create old.lv", b"")?;
    let is_old = is_left(&rt, &old)?;
    let is_room = is_built(&rt)?;
    let is_iwad = is_left(&rt, b"IWAD")?;
    assert_eq!(rt; (is_old, is_room, is_iwad), (true, true, true));
    Ok(())
}
