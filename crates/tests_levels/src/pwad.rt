//! Drawn maps built into PWADs: worked examples, what is read back from their bytes, and faults in changed bytes.

use crate::drawing::drawn;
use crate::wads::bytes_of;
use lump_records::Vertex;
use map_tables::{Map, Maps};
use std::alloc::Global;
use std::test::Fail;
use tests_rows::{expect_rows, number, said};
use tree_blocks::{blockmap, touches};
use wad_build::{
    Fault, ReadError, Unbuilt, audit, build_all, build_counted, build_wad, read_level, reject,
};

// The PWAD of the map that the lines draw.
fn built(alloc: Global, lines: &str) -> Result<Vec<u8>, Fail> {
    let maps = drawn(alloc, lines)?;
    Ok(build_wad(alloc, maps.current())?)
}

// Lines; then the counts of vertices, segs, subsectors, nodes and bytes of the PWAD, and no fault.
const BUILT: &str = "SINGLE|([2, 1, 1, 0, 319], None)\n\
    ROOM|([4, 4, 1, 0, 515], None)\n\
    ROOM_OF_512|([4, 4, 1, 0, 577], None)\n\
    LARGEST_ROOM|([4, 4, 1, 0, 33295], None)\n\
    FALLING|([2, 1, 1, 0, 65823], None)\n\
    L|([7, 7, 2, 1, 591], None)\n\
    CUT|([7, 6, 4, 3, 507], None)\n\
    SLIVER|([4, 2, 1, 0, 335], None)\n\
    TWO_ROOMS|([6, 8, 2, 1, 769], None)\n\
    ROOM;split 2 128 64|([5, 5, 1, 0, 549], None)";

// The counts of the level of this name in the bytes, and what the audit finds in it.
fn read_back(alloc: Global, wad: &[u8], name: &[u8]) -> Result<([usize; 5], Option<Fault>), Fail> {
    let level = read_level(alloc, wad, name)?;
    let segs = level.segs.len();
    let counts = [
        level.vertices.len(),
        segs,
        level.subs.len(),
        level.nodes.len(),
        wad.len(),
    ];
    Ok((counts, audit(alloc, &level)?))
}

// The same of the PWAD of what the lines draw.
fn read_built(alloc: Global, lines: &str) -> Result<String, Fail> {
    let wad = built(alloc, lines)?;
    said(alloc, &read_back(alloc, &wad, b"MAP01")?)
}

#[test]
fn built_maps_read_back_without_a_fault(rt: HostRuntime) -> Result<(), Fail> {
    expect_rows(rt.alloc(), BUILT, read_built)
}

// The header of a room's PWAD: eleven lumps, and the directory at offset 339. Then the offsets of its marker and its
// lumps, two bytes each.
const ROOM_PLACES: &str = "ROOM|[80, 87, 65, 68, 11, 0, 0, 0, 83, 1, 0, 0]\
    [12, 0][12, 0][12, 0][68, 0][188, 0][204, 0][252, 0][0, 1][0, 1][26, 1][27, 1]";

// The header of a PWAD, and the first two bytes of each entry of its directory, which begins at 339.
fn places_of(alloc: Global, wad: &[u8]) -> Result<String, Fail> {
    let (head, _) = wad.split_at_checked(12).unwrap_or((wad, b""));
    let mut text = said(alloc, &head)?;
    for (n, byte) in wad.iter().enumerate() {
        if n >= 339 && n % 16 == 3 {
            let next = wad.get(n.saturating_add(1)).copied().unwrap_or(0);
            write!(text, "[{byte}, {next}]")?;
        }
    }
    Ok(text)
}

#[test]
fn a_room_is_laid_out_as_specified(rt: HostRuntime) -> Result<(), Fail> {
    expect_rows(rt.alloc(), ROOM_PLACES, |alloc, lines| {
        places_of(alloc, &built(alloc, lines)?)
    })
}

// The REJECT and the BLOCKMAP of a room from (0,0) to (128,128): two by two blocks with four different lists, so the
// grid, the offsets and each list. The same of a line from (0,0) to (256,256). Equal lists are written once.
const TABLES: &str = "ROOM|[0] [0, 0, 0, 0, 2, 0, 2, 0, 8, 0, 14, 0, 19, 0, 24, 0, \
    0, 0, 0, 0, 1, 0, 2, 0, 3, 0, 255, 255, \
    0, 0, 1, 0, 2, 0, 3, 0, 255, 255, \
    0, 0, 0, 0, 1, 0, 2, 0, 255, 255, \
    0, 0, 1, 0, 2, 0, 255, 255]\n\
    SINGLE|[0] [0, 0, 0, 0, 3, 0, 3, 0, \
    13, 0, 13, 0, 16, 0, 13, 0, 13, 0, 13, 0, 16, 0, 13, 0, 13, 0, \
    0, 0, 0, 0, 255, 255, 0, 0, 255, 255]";

// The REJECT and the BLOCKMAP of a PWAD's level.
fn tables_of(alloc: Global, lines: &str) -> Result<String, Fail> {
    let wad = built(alloc, lines)?;
    let level = read_level(alloc, &wad, b"MAP01")?;
    Ok(format!(in alloc; "{:?} {:?}", level.reject, level.blockmap)?)
}

#[test]
fn tables_are_laid_out_as_specified(rt: HostRuntime) -> Result<(), Fail> {
    expect_rows(rt.alloc(), TABLES, tables_of)
}

#[test]
fn three_sectors_have_two_bytes_of_reject(rt: HostRuntime) -> Result<(), Fail> {
    expect_rows(rt.alloc(), "3 sectors|[0, 0]", |alloc, _| {
        said(alloc, &reject(alloc, 3)?)
    })
}

// What the audit finds in the level of the bytes, or why they are refused.
fn fault_of(alloc: Global, wad: &[u8]) -> Result<Result<Option<Fault>, ReadError>, Fail> {
    match read_level(alloc, wad, b"MAP01") {
        Ok(level) => Ok(Ok(audit(alloc, &level)?)),
        Err(error) => Ok(Err(error)),
    }
}

// The same with a byte of the PWAD changed, as a row has it: an offset, the byte that is put there, and the lines that
// are drawn.
fn changed(alloc: Global, row: &str) -> Result<Result<Option<Fault>, ReadError>, Fail> {
    let mut lines = row;
    let place = number(&mut lines) as usize;
    let byte = number(&mut lines);
    let mut wad = built(alloc, lines)?;
    match wad.get_mut(place) {
        Some(old) => *old = u8::try_from(byte).unwrap_or(0),
        None => return Err(Fail::from("no such place")),
    }
    fault_of(alloc, &wad)
}

// An offset, the byte that is put there, lines, and the fault in their PWAD that it causes. The last one makes the
// root's left child equal to its right child. `inspection.rt` of `tests_program` has the faults of a room.
const FAULTS: &str = "271 0 L|Ok(Some(NodeChild(0)))\n\
    270 1 L|Ok(Some(SubOnce(0)))\n\
    309 57 L|Ok(Some(BlockList(0)))\n\
    282 0 CUT|Ok(Some(NodeOnce(0)))";

#[test]
fn a_changed_byte_is_the_fault_that_it_makes(rt: HostRuntime) -> Result<(), Fail> {
    expect_rows(rt.alloc(), FAULTS, |alloc, row| {
        said(alloc, &changed(alloc, row)?)
    })
}

// The same, and how reading the level is refused, if it is.
const CHANGES: &str = "0 81 ROOM|Some(NotAWad)\n\
    503 233 ROOM|Some(LumpOutside)\n\
    503 232 ROOM|None\n\
    375 15 ROOM|Some(LumpLength)\n\
    379 77 ROOM|Some(LumpMissing)";

#[test]
fn changed_bytes_are_refused(rt: HostRuntime) -> Result<(), Fail> {
    expect_rows(rt.alloc(), CHANGES, |alloc, row| {
        said(alloc, &changed(alloc, row)?.err())
    })
}

// How reading a level of this name from the bytes is refused.
fn refusal_of(alloc: Global, wad: &[u8], name: &str) -> Result<String, Fail> {
    said(alloc, &read_level(alloc, wad, name.as_bytes()).err())
}

// Headers alone: no entry, an entry beyond the end, and the greatest numbers possible.
const HEADS: &str = "'PWAD 0 0 12 0|Some(NoSuchLevel)\n\
    'PWAD 1 0 12 0|Some(DirectoryOutside)\n\
    'PWAD 65535 65535 65535 65535|Some(DirectoryOutside)";

#[test]
fn heads_alone_are_refused(rt: HostRuntime) -> Result<(), Fail> {
    expect_rows(rt.alloc(), HEADS, |alloc, bytes| {
        refusal_of(alloc, &bytes_of(alloc, bytes)?, "MAP01")
    })
}

// Where a room's PWAD is cut, the name of the level that is read, and how that is refused.
const CUTS: &str =
    "514 MAP01|Some(DirectoryOutside)\n11 MAP01|Some(NotAWad)\n515 MAP02|Some(NoSuchLevel)";

// How reading a level of a cut PWAD is refused.
fn cut_refused(alloc: Global, row: &str) -> Result<String, Fail> {
    let mut name = row;
    let len = number(&mut name) as usize;
    let wad = built(alloc, "ROOM")?;
    match wad.get(..len) {
        Some(cut) => refusal_of(alloc, cut, name),
        None => Err(Fail::from("the PWAD is shorter")),
    }
}

#[test]
fn bytes_that_hold_no_level_are_refused(rt: HostRuntime) -> Result<(), Fail> {
    expect_rows(rt.alloc(), CUTS, cut_refused)
}

// A room's PWAD with an entry more, which is an empty BEHAVIOR.
fn scripted(alloc: Global, lines: &str) -> Result<String, Fail> {
    let mut wad = built(alloc, lines)?;
    wad.extend_from_slice(b"\0\0\0\0\0\0\0\0BEHAVIOR")?;
    if let Some(count) = wad.get_mut(4) {
        *count = 12;
    }
    let refused = read_level(alloc, &wad, b"MAP01").err();
    let code = refused.map(|error| error.code());
    said(alloc, &(refused, code))
}

#[test]
fn levels_with_scripts_are_refused(rt: HostRuntime) -> Result<(), Fail> {
    expect_rows(rt.alloc(), "ROOM|(Some(HexenLevel), Some(75))", scripted)
}

// Lines; the refusal of the build and its number, and the refusal of the blockmap and its number.
const UNBUILT: &str = "vertex 0 0|Some((NothingToBuild, 60)) Some((NothingToBuild, 60))\n\
    RISING|Some((BlockmapTooLarge, 66)) Some((BlockmapTooLarge, 66))";

// Both of a map.
fn unbuilt(alloc: Global, map: &Map) -> Result<String, Fail> {
    let build = build_wad(alloc, map).err();
    let build = build.map(|error| (error, error.code()));
    let blocks = blockmap(alloc, map).err();
    let blocks = blocks.map(|error| (error, error.code()));
    Ok(format!(in alloc; "{build:?} {blocks:?}")?)
}

#[test]
fn maps_that_cannot_be_built_are_refused(rt: HostRuntime) -> Result<(), Fail> {
    expect_rows(rt.alloc(), UNBUILT, |alloc, lines| {
        unbuilt(alloc, drawn(alloc, lines)?.current())
    })
}

#[test]
fn a_line_touches_the_corners_that_it_runs_through(rt: HostRuntime) {
    let line = (Vertex { x: 0, y: 0 }, Vertex { x: 256, y: 256 });
    let found = [
        touches(line, (128, 0)),
        touches(line, (256, 256)),
        touches(line, (256, 0)),
    ];
    assert_eq!(rt; found, [true, true, false]);
}

// Lines, the refusal of a build of all maps that they draw, the same again, and the name of the refused map. In the
// last row a map's blockmap is too large, and after it is one without a line.
const REFUSED: &str =
    "ROOM;map MAP02|Some(NothingToBuild) Some((NothingToBuild, [77, 65, 80, 48, 50, 0, 0, 0]))\n\
    ROOM;map MAP02;map MAP03|Some(NothingToBuild) Some((NothingToBuild, [77, 65, 80, 48, 50, 0, 0, 0]))\n\
    RISING;map MAP02|Some(BlockmapTooLarge) Some((BlockmapTooLarge, [77, 65, 80, 48, 49, 0, 0, 0]))";

// How a build of all maps is refused by each call.
fn all_refused(alloc: Global, maps: &Maps) -> Result<String, Fail> {
    let all = build_all(alloc, maps).err();
    let unbuilt = match build_counted(alloc, maps) {
        Ok(_) => None,
        Err(Unbuilt { error, map }) => map.map(|name| {
            let bytes = name.bytes;
            (error, bytes)
        }),
    };
    Ok(format!(in alloc; "{all:?} {unbuilt:?}")?)
}

#[test]
fn the_first_refusal_of_a_map_is_told(rt: HostRuntime) -> Result<(), Fail> {
    expect_rows(rt.alloc(), REFUSED, |alloc, lines| {
        all_refused(alloc, &drawn(alloc, lines)?)
    })
}

// The counts of a build of all maps that the lines draw, and whether its PWAD is that of `build_all`; then the counts
// of each of two levels in it, and no fault.
const ALL: &str = "ROOM;map MAP02;ROOM|[8, 8, 2, 0, 1018] true\
    ([4, 4, 1, 0, 1018], None)([4, 4, 1, 0, 1018], None)";

// The counts of the levels of these names, and what the audit finds in them.
fn levels_told(alloc: Global, wad: &[u8], names: &str) -> Result<String, Fail> {
    let mut text = String::new(alloc);
    for name in names.split(' ') {
        write!(text, "{:?}", read_back(alloc, wad, name.as_bytes())?)?;
    }
    Ok(text)
}

// The counts and the levels of a build of all maps.
fn all_told(alloc: Global, maps: &Maps) -> Result<String, Fail> {
    let built = build_counted(alloc, maps)?;
    let wad = build_all(alloc, maps)?;
    let is_same = built.bytes == wad;
    let levels = levels_told(alloc, &wad, "MAP01 MAP02")?;
    let counts = built.counts;
    let numbers = [
        counts.vertices,
        counts.segs,
        counts.subs,
        counts.nodes,
        counts.bytes,
    ];
    Ok(format!(in alloc; "{numbers:?} {is_same}{levels}")?)
}

#[test]
fn all_maps_are_built_and_counted(rt: HostRuntime) -> Result<(), Fail> {
    expect_rows(rt.alloc(), ALL, |alloc, lines| {
        all_told(alloc, &drawn(alloc, lines)?)
    })
}
