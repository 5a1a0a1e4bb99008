//! Levels in WADs of other editors, built anew: the bytes of worked levels, and why a level stays as it was.

use crate::wads::{bytes_of, wad_of};
use std::alloc::Global;
use std::test::Fail;
use tests_rows::{expect_rows, meant, part};
use wad_levels::{levels_in, read_wad};
use wad_rebuild::{Fate, KeptFault, MadeLumps, RebuiltLevel, rebuild_wad, remake};

// What lumps have. LINES is a line from (0, 0) to (64, 0) with a right side in the only sector, TURNED the same line in
// the other direction; BARE is a line whose right side doesn't exist; TWO_SIDED is the line two-sided, still without a
// left side. VERTICES are (0, 0), (64, 0), and (7, 7), which no line uses; FRONT are the two that the line uses.
// SEGS and TURNED_SEGS are the seg of the line, and that of the line in the other direction: first, second, angle,
// line, side, offset. SUBS is one subsector of one seg, BLOCKS one block from (0, 0), whose list begins at word 5.
const VALUES: &str = "LINES|0 1 1 0 0 0 65535\n\
    TURNED|1 0 1 0 0 0 65535\n\
    BARE|0 1 1 0 0 1 65535\n\
    TWO_SIDED|0 1 4 0 0 0 65535\n\
    SIDES|0 0 0 0 0 0 0 0 0 0 0 0 0 0 0\n\
    SECTORS|0 0 0 0 0 0 0 0 0 0 0 0 0\n\
    VERTICES|0 0 64 0 7 7\n\
    FRONT|0 0 64 0\n\
    SEGS|0 1 0 0 0 0\n\
    TURNED_SEGS|1 0 32768 0 0 0\n\
    SUBS|1 0\n\
    BLOCKS|0 0 1 1 5 0 0 65535";

// LINEDEFS and REJECT of a level; and SEGS and REJECT (`None`: its own stays) after it is built anew, then VERTEXES,
// SSECTORS, NODES and BLOCKMAP, as bytes; or why it can't be.
const REMADE: &str = "LINES;REJECT|[0, 0, 1, 0, 0, 0, 0, 0, 0, 0, 0, 0] Some([0]) \
    [0, 0, 0, 0, 64, 0, 0, 0] [1, 0, 0, 0] [] [0, 0, 0, 0, 1, 0, 1, 0, 5, 0, 0, 0, 0, 0, 255, 255]\n\
    TURNED;REJECT '\x01more|[1, 0, 0, 0, 0, 128, 0, 0, 0, 0, 0, 0] None \
    [0, 0, 0, 0, 64, 0, 0, 0] [1, 0, 0, 0] [] [0, 0, 0, 0, 1, 0, 1, 0, 5, 0, 0, 0, 0, 0, 255, 255]\n\
    BARE;REJECT|line 0 has no right side";

// The lumps of a level as they are made.
fn made_told(alloc: Global, made: &MadeLumps) -> Result<String, Fail> {
    let first = format!(in alloc; "{:?} {:?}", made.segs, made.reject)?;
    let second = format!(in alloc; "{:?} {:?}", made.vertices, made.subs)?;
    Ok(format!(in alloc; "{first} {second} {:?} {:?}", made.nodes, made.blockmap)?)
}

// Builds a WAD's first level anew.
fn remade(alloc: Global, wad: &[u8]) -> Result<String, Fail> {
    let wad = read_wad(wad)?;
    let levels = levels_in(alloc, &wad)?;
    let Some(level) = levels.first() else {
        return Err(Fail::from("no level"));
    };
    match remake(alloc, &wad, *level) {
        Ok(made) => made_told(alloc, &made),
        Err(cause) => Ok(format!(in alloc; "{cause}")?),
    }
}

// The WAD of a level with these lines and this REJECT.
fn level_of(alloc: Global, row: &str) -> Result<Vec<u8>, Fail> {
    let (lines, reject) = row.split_once(';').unwrap_or((row, ""));
    let lumps = format!(in alloc;
        "MAP01 'marker;THINGS;LINEDEFS {lines};SIDEDEFS SIDES;VERTEXES VERTICES;\
        SEGS 'stale;SECTORS SECTORS;{reject};GL_PVS 'gl"
    )?;
    wad_of(alloc, VALUES, lumps.as_str())
}

#[test]
fn builds_levels_anew(rt: HostRuntime) -> Result<(), Fail> {
    expect_rows(rt.alloc(), REMADE, |alloc, row| {
        remade(alloc, &level_of(alloc, row)?)
    })
}

// WADs. BARE_WAD has a level without a builder's lumps, between other lumps, and BUILT_WAD is the same with the
// builder's lumps. THREE_LEVELS are a level with a line whose right side doesn't exist, and with stale lumps; and two
// levels of the same name, one of them with another builder's nodes. In TWO_BUILT these two are built anew, in
// LAST_BUILT the last of them. TWO_SIDED_WAD has a level whose only line is two-sided and has no left side, and
// TWO_SIDED_BUILT is the same built anew.
const WADS: &str =
    "BARE_WAD|DEMO1 'demo;MAP01 'marker;THINGS;LINEDEFS LINES;SIDEDEFS SIDES;VERTEXES VERTICES;\
    SECTORS SECTORS;WADCSRC 'source\n\
    BUILT_WAD|DEMO1 'demo;MAP01 'marker;THINGS;LINEDEFS LINES;SIDEDEFS SIDES;VERTEXES FRONT;\
    SEGS SEGS;SSECTORS SUBS;NODES;SECTORS SECTORS;REJECT '\0;BLOCKMAP BLOCKS;WADCSRC 'source\n\
    THREE_LEVELS|E1M1;THINGS;LINEDEFS BARE;SIDEDEFS SIDES;VERTEXES VERTICES;SEGS 'stale;SECTORS SECTORS;GL_E1M1 'gl;\
    MAP02;THINGS;LINEDEFS LINES;SIDEDEFS SIDES;VERTEXES VERTICES;SECTORS SECTORS;\
    MAP02;THINGS;LINEDEFS TURNED;SIDEDEFS SIDES;VERTEXES VERTICES;SECTORS SECTORS;GL_MAP02 'gl;GL_VERT 'gl\n\
    TWO_BUILT|E1M1;THINGS;LINEDEFS BARE;SIDEDEFS SIDES;VERTEXES VERTICES;SEGS 'stale;SECTORS SECTORS;GL_E1M1 'gl;\
    MAP02;THINGS;LINEDEFS LINES;SIDEDEFS SIDES;VERTEXES FRONT;SEGS SEGS;SSECTORS SUBS;NODES;SECTORS SECTORS;\
    REJECT '\0;BLOCKMAP BLOCKS;\
    MAP02;THINGS;LINEDEFS TURNED;SIDEDEFS SIDES;VERTEXES FRONT;SEGS TURNED_SEGS;SSECTORS SUBS;NODES;\
    SECTORS SECTORS;REJECT '\0;BLOCKMAP BLOCKS\n\
    LAST_BUILT|E1M1;THINGS;LINEDEFS BARE;SIDEDEFS SIDES;VERTEXES VERTICES;SEGS 'stale;SECTORS SECTORS;GL_E1M1 'gl;\
    MAP02;THINGS;LINEDEFS LINES;SIDEDEFS SIDES;VERTEXES VERTICES;SECTORS SECTORS;\
    MAP02;THINGS;LINEDEFS TURNED;SIDEDEFS SIDES;VERTEXES FRONT;SEGS TURNED_SEGS;SSECTORS SUBS;NODES;\
    SECTORS SECTORS;REJECT '\0;BLOCKMAP BLOCKS\n\
    TWO_SIDED_WAD|MAP01;THINGS;LINEDEFS TWO_SIDED;SIDEDEFS SIDES;VERTEXES VERTICES;SECTORS SECTORS\n\
    TWO_SIDED_BUILT|MAP01;THINGS;LINEDEFS TWO_SIDED;SIDEDEFS SIDES;VERTEXES FRONT;SEGS SEGS;SSECTORS SUBS;NODES;\
    SECTORS SECTORS;REJECT '\0;BLOCKMAP BLOCKS";

// A WAD, the WAD afterwards, none if it is refused, and the name of the level to build, none for all; and the fate of
// each level.
const WHOLE: &str = "BARE_WAD BUILT_WAD|made;\n\
    TWO_SIDED_WAD TWO_SIDED_BUILT|line 0 is two-sided and has no left side, made;\n\
    THREE_LEVELS TWO_BUILT|line 0 has no right side;made;made;\n\
    THREE_LEVELS LAST_BUILT MAP02|not asked;not asked;made;\n\
    THREE_LEVELS THREE_LEVELS E1M1|line 0 has no right side;not asked;not asked;\n\
    THREE_LEVELS  MAP2|the WAD has no level of this name";

// Adds the faults that stay in a level.
fn add_kept(told: &mut String, kept: &[KeptFault]) -> Result<(), Fail> {
    for fault in kept {
        write!(told, "{fault}, ")?;
    }
    Ok(())
}

// Adds the fate of a level.
fn add_fate(told: &mut String, fate: &Fate) -> Result<(), Fail> {
    match fate {
        Fate::NotAsked => write!(told, "not asked;")?,
        Fate::Made(made) => {
            add_kept(told, &made.kept)?;
            write!(told, "made;")?
        }
        Fate::Left(cause) => write!(told, "{cause};")?,
    }
    Ok(())
}

// The fate of each level.
fn fates(alloc: Global, levels: &[RebuiltLevel]) -> Result<String, Fail> {
    let mut told = String::new(alloc);
    for level in levels {
        add_fate(&mut told, &level.fate)?;
    }
    Ok(told)
}

// The names of the levels to build.
fn names_of(alloc: Global, name: &str) -> Result<Vec<String>, Fail> {
    let mut names = Vec::new(alloc);
    if !name.is_empty() {
        names.push(String::from_str(alloc, name)?)?;
    }
    Ok(names)
}

// Builds a WAD anew: the fate of each level, and the bytes if they aren't those that are wanted; or why the whole WAD
// is refused.
fn whole(alloc: Global, wad: &[u8], wanted: &[u8], names: &[String]) -> Result<String, Fail> {
    match rebuild_wad(alloc, wad, names) {
        Ok(rebuilt) => {
            let mut told = fates(alloc, &rebuilt.levels)?;
            if rebuilt.bytes.as_slice() != wanted {
                write!(told, "{:?}", rebuilt.bytes)?;
            }
            Ok(told)
        }
        Err(error) => Ok(format!(in alloc; "{error}")?),
    }
}

// The same of a row.
fn rebuilt(alloc: Global, row: &str) -> Result<String, Fail> {
    let mut left = row;
    let wad = wad_of(alloc, VALUES, meant(WADS, part(&mut left, ' ')))?;
    let wanted = wad_of(alloc, VALUES, meant(WADS, part(&mut left, ' ')))?;
    whole(alloc, &wad, &wanted, &names_of(alloc, left)?)
}

#[test]
fn builds_wads_anew(rt: HostRuntime) -> Result<(), Fail> {
    expect_rows(rt.alloc(), WHOLE, rebuilt)
}

// The bytes of a WAD that is refused as a whole, and the refusal's number.
const REFUSED: &str =
    "'PWAD|70\n'WADP 0 0 12 0|70\n'PWAD 1 0 12 0|71\n'PWAD 1 0 12 0 0 0 29 0 LUMP|74\n\
    'PWAD 6 0 12 0 0 0 108 0 LUMP 0 0 108 0 LUMP 0 0 108 0 LUMP 0 0 108 0 LUMP 0 0 108 0 LUMP 0 0 108 0 LUMP|36";

// The number of the refusal; 0 if there is none.
fn refusal_of(alloc: Global, bytes: &str) -> Result<String, Fail> {
    let wad = bytes_of(alloc, bytes)?;
    let code = match rebuild_wad(alloc, &wad, &[]) {
        Ok(_) => 0,
        Err(error) => error.code(),
    };
    Ok(format!(in alloc; "{code}")?)
}

#[test]
fn refuses_wads(rt: HostRuntime) -> Result<(), Fail> {
    expect_rows(rt.alloc(), REFUSED, refusal_of)
}
