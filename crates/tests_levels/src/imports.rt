//! Maps made of levels of other editors: what is changed, and why a level can't be made a map.

use crate::wads::wad_of;
use lump_records::Name8;
use map_tables::{Kind, Map};
use std::alloc::Global;
use std::test::Fail;
use tests_rows::{expect_rows, part};
use wad_import::{Imported, import_level};
use wad_levels::{levels_in, read_wad};

// What lumps have. LINES is a line from (0, 0) to (64, 0) with a right side in the only sector and the flags 1;
// TWO_SIDED has the flags 4. VERTICES are (0, 0) and (64, 0); VERTICES_MORE the same with (7, 7) after them, which no
// line uses. VERTICES_TWICE are three, 0 and 2 at the same place, and LINES_TWICE a line from vertex 2 to (64, 0).
// CORNERS are (0, 0), (64, 0), (0, 0), (64, 64) and (64, 0); and THREE_LINES go from 2 to 1, from 1 to 3, and from 3 to
// 4. FLAT_CORNERS are (0, 0), (64, 0), (64, 64), (64, 0) and (9, 9); and FLAT_LINES go from 0 to 1, from 1 to 3, which
// are at the same place, from 1 to 2 with flag 4, and from 4 to 4 with a right side that doesn't exist.
// Then lines of no length: FLAT_LINE from 0 to 0; FLAT_AND_SIDELESS the same with a second line from 0 to 1, whose
// right side doesn't exist; FLAT_AND_FLAGGED both lines with flags above 32,767; and FLAT_NOWHERE from 2 to 2, though
// there are only two vertices.
// SIDES are a side in sector 0, with both offsets and the upper, lower and middle texture. SECTORS are a sector with
// floor 0, ceiling 128 and light 160; BRIGHT has light 300. THINGS are the start of player 1 at (8, 8) with angle 90;
// ODD_THINGS a thing of type -1; and one with angle 360.
const VALUES: &str = "LINES|0 1 1 0 0 0 65535\n\
    TWO_SIDED|0 1 4 0 0 0 65535\n\
    VERTICES|0 0 64 0\n\
    VERTICES_MORE|0 0 64 0 7 7\n\
    VERTICES_TWICE|0 0 64 0 0 0\n\
    LINES_TWICE|2 1 1 0 0 0 65535\n\
    CORNERS|0 0 64 0 0 0 64 64 64 0\n\
    THREE_LINES|2 1 1 0 0 0 65535 1 3 1 0 0 0 65535 3 4 1 0 0 0 65535\n\
    FLAT_CORNERS|0 0 64 0 64 64 64 0 9 9\n\
    FLAT_LINES|0 1 1 0 0 0 65535 1 3 1 0 0 0 65535 1 2 4 0 0 0 65535 4 4 1 0 0 9 65535\n\
    FLAT_LINE|0 0 1 0 0 0 65535\n\
    FLAT_AND_SIDELESS|0 0 1 0 0 0 65535 0 1 1 0 0 1 65535\n\
    FLAT_AND_FLAGGED|0 0 32768 0 0 0 65535 0 1 32768 0 0 0 65535\n\
    FLAT_NOWHERE|2 2 1 0 0 0 65535\n\
    SIDES|0 0 - - STONE 0\n\
    SMALL_SIDES|0 0 - '\0more\0\0\0 stone 0\n\
    STARRED_SIDES|0 0 - - ST*NE 0\n\
    SECTORS|0 128 FLAT1 FLAT1 160 0 0\n\
    BRIGHT|0 128 FLAT1 FLAT1 300 0 0\n\
    TAGGED|0 128 FLAT1 FLAT1 160 0 65535\n\
    THINGS|8 8 90 1 7\n\
    ODD_THINGS|8 8 90 65535 7 8 8 360 1 7";

// THINGS, LINEDEFS, SIDEDEFS, VERTEXES and SECTORS of a level, and the report on it: how many vertices and things its
// map has, what was changed, and the vertices of each line of the map; or why it can't be made a map. In the last row
// but one the vertices 2 and 4 are left out, so vertex 3 becomes the map's vertex 2; in the last one the lines 1 and 3,
// so no line uses vertices 3 and 4.
const IMPORTED: &str = "THINGS LINES SIDES VERTICES SECTORS|2 vertices, 1 things; line 0 1\n\
    THINGS LINES SIDES VERTICES_MORE SECTORS|2 vertices, 1 things; \
    vertices left out behind the last that a line uses: 1; line 0 1\n\
    THINGS TWO_SIDED SMALL_SIDES VERTICES BRIGHT|2 vertices, 1 things; sector 0: light 300 is 255; \
    side 0: textures named in capitals, up to a NUL; line 0: without flag 4, since it has no left side; line 0 1\n\
    ODD_THINGS LINES SIDES VERTICES SECTORS|2 vertices, 1 things; thing 0: left out; \
    thing 1: angle 360 is 0; line 0 1\n\
    THINGS LINES STARRED_SIDES VERTICES SECTORS|side 0 has a name that no texture may have\n\
    THINGS LINES SIDES VERTICES TAGGED|sector 0 has a special or tag below 0\n\
    THINGS LINES_TWICE SIDES VERTICES_TWICE SECTORS|2 vertices, 1 things; \
    vertex 2: is at the place of vertex 0; line 0 1\n\
    THINGS  SIDES VERTICES SECTORS|the level has no line\n\
    THINGS FLAT_LINE SIDES VERTICES SECTORS|the level has no line\n\
    THINGS FLAT_AND_SIDELESS SIDES VERTICES SECTORS|line 1 has no right side\n\
    THINGS FLAT_AND_FLAGGED SIDES VERTICES SECTORS|line 1 has flags, special or tag above 32767\n\
    THINGS FLAT_NOWHERE SIDES VERTICES SECTORS|line 0 has a vertex that isn't there\n\
    THINGS THREE_LINES SIDES CORNERS SECTORS|3 vertices, 1 things; vertex 2: is at the place of vertex 0; \
    vertex 4: is at the place of vertex 1; line 0 1; line 1 2; line 2 1\n\
    THINGS FLAT_LINES SIDES FLAT_CORNERS SECTORS|3 vertices, 1 things; \
    vertices left out behind the last that a line uses: 2; \
    line 1: left out, since it has no length; line 2: without flag 4, since it has no left side; \
    line 3: left out, since it has no length; line 0 1; line 1 2";

// Adds the vertices of each line of a map.
fn add_lines(told: &mut String, map: &Map) -> Result<(), Fail> {
    for n in 0..map.count(Kind::Line) {
        if let Some(line) = map.line(n) {
            write!(told, "; line {} {}", line.v1, line.v2)?;
        }
    }
    Ok(())
}

// The report on a level that was made a map.
fn told_of(alloc: Global, imported: &Imported) -> Result<String, Fail> {
    let map = imported.maps.current();
    let vertices = map.count(Kind::Vertex);
    let things = map.count(Kind::Thing);
    let mut told = format!(in alloc; "{vertices} vertices, {things} things")?;
    for change in &imported.changes {
        write!(told, "; {change}")?;
    }
    add_lines(&mut told, map)?;
    Ok(told)
}

// The report on the first level of a WAD.
fn told(alloc: Global, wad: &[u8]) -> Result<String, Fail> {
    let wad = read_wad(wad)?;
    let levels = levels_in(alloc, &wad)?;
    let Some(level) = levels.first() else {
        return Err(Fail::from("no level"));
    };
    match import_level(alloc, &wad, *level, Name8::from_text(b"MAP01")) {
        Ok(imported) => told_of(alloc, &imported),
        Err(error) => Ok(format!(in alloc; "{error}")?),
    }
}

// The WAD of a level with these lumps.
fn level_of(alloc: Global, row: &str) -> Result<Vec<u8>, Fail> {
    let mut left = row;
    let things = part(&mut left, ' ');
    let lines = part(&mut left, ' ');
    let sides = part(&mut left, ' ');
    let vertices = part(&mut left, ' ');
    let sectors = part(&mut left, ' ');
    let lumps = format!(in alloc;
        "MAP01;THINGS {things};LINEDEFS {lines};SIDEDEFS {sides};VERTEXES {vertices};SECTORS {sectors}"
    )?;
    wad_of(alloc, VALUES, lumps.as_str())
}

#[test]
fn imports_levels(rt: HostRuntime) -> Result<(), Fail> {
    expect_rows(rt.alloc(), IMPORTED, |alloc, row| {
        told(alloc, &level_of(alloc, row)?)
    })
}
