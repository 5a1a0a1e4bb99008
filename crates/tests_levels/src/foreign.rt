//! Levels in WADs of other editors: how they are found, and what prevents a build.

use crate::wads::wad_of;
use std::alloc::Global;
use std::test::Fail;
use tests_rows::expect_rows;
use wad_levels::{LevelForm, levels_in, read_drawn, read_wad};

// The names of a directory's entries; and for each level its marker, the end of its lumps, the end of the GL lumps of
// another builder, and its form: 0 for Doom, 1 for Hexen, 2 for UDMF.
const PLACED: &str = "MAP01;THINGS;LINEDEFS;SIDEDEFS;VERTEXES;SECTORS;WADCSRC|[0, 6, 6, 0]\n\
    E1M1;THINGS;SEGS;BLOCKMAP;GL_E1M1;GL_PVS;GL_E1M2|[0, 4, 6, 0]\n\
    MAP01;THINGS;REJECT;BEHAVIOR|[0, 3, 3, 1]\n\
    MAP01;TEXTMAP;THINGS|[0, 1, 1, 2][1, 3, 3, 0]\n\
    MAP01;THINGS;THINGS;LINEDEFS;LINEDEFS|[0, 1, 1, 0][1, 4, 4, 0]";

// The number of a form.
fn form_number(form: LevelForm) -> u32 {
    match form {
        LevelForm::Doom => 0,
        LevelForm::Hexen => 1,
        LevelForm::Udmf => 2,
    }
}

// The levels of a WAD.
fn placed(alloc: Global, wad: &[u8]) -> Result<String, Fail> {
    let mut text = String::new(alloc);
    for level in &levels_in(alloc, &read_wad(wad)?)? {
        let form = form_number(level.form);
        let found = [level.marker, level.lumps_end, level.gl_end, form];
        write!(text, "{found:?}")?;
    }
    Ok(text)
}

#[test]
fn finds_levels_of_other_editors(rt: HostRuntime) -> Result<(), Fail> {
    expect_rows(rt.alloc(), PLACED, |alloc, lumps| {
        placed(alloc, &wad_of(alloc, "", lumps)?)
    })
}

// One side in one sector, and the vertices (0, 0), (64, 0), (20000, 0), (-16384, -16384), (16383, 16383).
const VALUES: &str = "SIDES|0 0 0 0 0 0 0 0 0 0 0 0 0 0 0\n\
    SECTORS|0 0 0 0 0 0 0 0 0 0 0 0 0\n\
    VERTICES|0 0 64 0 20000 0 49152 49152 16383 16383";

// The words of LINEDEFS, and what prevents a build, as it is printed; or how many vertices are read.
const HINDERED: &str = "0 1 1 0 0 0 65535|5 vertices\n\
    0 1 1 0 0 0 0|5 vertices\n\
    0 5 1 0 0 0 0|line 0 has a vertex that isn't there\n\
    0 1 1 0 0 1 0|line 0 has no right side\n\
    0 1 1 0 0 0 1|line 0 has a left side that isn't there\n\
    1 1 1 0 0 0 0|line 0 has no length\n\
    0 2 1 0 0 0 0|line 0 has an end outside the coordinates\n\
    3 4 1 0 0 0 0|line 0 is longer than 32767\n\
    |the level has no line\n\
    0 0 0 0 0 0 '\0|LINEDEFS is no whole number of records";

// The WAD of a level with these lines.
fn level_of(alloc: Global, lines: &str) -> Result<Vec<u8>, Fail> {
    let lumps = format!(in alloc;
        "MAP01;THINGS;LINEDEFS {lines};SIDEDEFS SIDES;VERTEXES VERTICES;SECTORS SECTORS;REJECT '\x01"
    )?;
    wad_of(alloc, VALUES, lumps.as_str())
}

// How many vertices are read from the first level of a WAD, or what prevents a build of it.
fn read_of(alloc: Global, wad: &[u8]) -> Result<String, Fail> {
    let wad = read_wad(wad)?;
    let levels = levels_in(alloc, &wad)?;
    let Some(level) = levels.first() else {
        return Err(Fail::from("no level"));
    };
    match read_drawn(alloc, &wad, *level) {
        Ok(drawn) => {
            let count = drawn.vertices.len();
            Ok(format!(in alloc; "{count} vertices")?)
        }
        Err(hindrance) => Ok(format!(in alloc; "{hindrance}")?),
    }
}

#[test]
fn reads_what_was_drawn(rt: HostRuntime) -> Result<(), Fail> {
    expect_rows(rt.alloc(), HINDERED, |alloc, lines| {
        read_of(alloc, &level_of(alloc, lines)?)
    })
}
