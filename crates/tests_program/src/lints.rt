//! What `lint` prints for the maps of a project.

use crate::calls::{called, expect_calls, performed};
use std::fs;
use std::test::Fail;
use tests_rows::expect_scripts;

// The lines that draw a project, and the status, the output and the standard error of `lint`. In a room with a start
// and the brain of a boss, whose death ends the level, it finds nothing. A vertex without a line is a finding; a thing
// of a type that Doom doesn't have is a warning.
const ROWS: &str = "\
    room 0 0 256 256 0 128 FLOOR4_8 CEIL3_5 STARTAN3 160\nthing 64 64 0 1 7\nthing 128 128 0 88 7\n~0~findings 0\n~^\
    room 0 0 256 256 0 128 FLOOR4_8 CEIL3_5 STARTAN3 160\nthing 64 64 0 1 7\nthing 128 128 0 88 7\n\
    thing 192 192 0 9999 7\nvertex 512 0\n~3~MAP01 vertex 4 unused\n\
    MAP01 thing-type-unknown 2 at (192,192)\nfindings 2\n~^\
    room 0 0 256 256 0 128 FLOOR4_8 CEIL3_5 STARTAN3 160\nthing 64 64 0 1 7\nthing 128 128 0 88 7\nmap MAP02\n\
    room 0 0 256 256 0 128 FLOOR4_8 CEIL3_5 STARTAN3 160\nthing 64 64 0 1 7\nthing 128 128 0 88 7\nvertex 512 0\n\
    map MAP01\n~3~MAP02 vertex 4 unused\nfindings 1\n~";

// Draws a new project with these lines.
fn draw(rt: &HostRuntime, path: &str, lines: &[u8]) -> Result<(), Fail> {
    let _ = fs::remove_file(rt, path);
    let words = format!(in rt.alloc(); "create {path}")?;
    let _ = performed(rt, words.as_str(), b"")?;
    let words = format!(in rt.alloc(); "edit {path}")?;
    let _ = performed(rt, words.as_str(), lines)?;
    Ok(())
}

// The same, and lints it.
fn linted(rt: &HostRuntime, lines: &str) -> Result<String, Fail> {
    draw(rt, "leveled_lints_file", lines.as_bytes())?;
    called(rt, "lint leveled_lints_file", b"")
}

#[test]
fn says_what_is_found_in_each_map(rt: HostRuntime) -> Result<(), Fail> {
    expect_scripts(rt.alloc(), ROWS, |_, lines| linted(&rt, lines))?;
    fs::remove_file(&rt, "leveled_lints_file")?;
    Ok(())
}

// Two maps. The first has a vertex without a line, and a ceiling that is no flat of the WAD; the second has a sky, and
// a wall that is no texture of the WAD.
const NAMES: &[u8] = b"room 0 0 256 256 0 128 FLOOR4_8 CEIL3_5 STARTAN3 160\nthing 64 64 0 1 7\n\
    thing 128 128 0 88 7\nvertex 512 0\nmap MAP02\n\
    room 0 0 256 256 0 128 FLOOR4_8 F_SKY1 STARTAN3 160\nthing 64 64 0 1 7\nthing 128 128 0 88 7\n\
    set-side 2 0 0 - - STARTAN2 0\n";

// A WAD with the flat FLOOR4_8 and the texture STARTAN3 of 128 rows; the same with the texture's end outside its lump;
// and the same with 127 rows.
const WAD: &[u8] = b"IWAD\x04\0\0\0\x2b\0\0\0!\x01\0\0\0\x08\0\0\0STARTAN3\
    \0\0\0\0\x80\0\x80\0\0\0\0\0\0\0\
    \0\0\0\0\0\0\0\0F_START\0\x0c\0\0\0\x01\0\0\0FLOOR4_8\0\0\0\0\0\0\0\0F_END\0\0\0\
    \x0d\0\0\0\x1e\0\0\0TEXTURE1";

const CUT_WAD: &[u8] = b"IWAD\x04\0\0\0\x2b\0\0\0!\x01\0\0\0\x09\0\0\0STARTAN3\
    \0\0\0\0\x80\0\x80\0\0\0\0\0\0\0\
    \0\0\0\0\0\0\0\0F_START\0\x0c\0\0\0\x01\0\0\0FLOOR4_8\0\0\0\0\0\0\0\0F_END\0\0\0\
    \x0d\0\0\0\x1e\0\0\0TEXTURE1";

const SHORT_WAD: &[u8] = b"IWAD\x04\0\0\0\x2b\0\0\0!\x01\0\0\0\x08\0\0\0STARTAN3\
    \0\0\0\0\x80\0\x7f\0\0\0\0\0\0\0\
    \0\0\0\0\0\0\0\0F_START\0\x0c\0\0\0\x01\0\0\0FLOOR4_8\0\0\0\0\0\0\0\0F_END\0\0\0\
    \x0d\0\0\0\x1e\0\0\0TEXTURE1";

// Calls of `lint`. FILE is opened before WAD.
const BESIDE: &str = "\
    lint names.lv --iwad names.wad~~3~MAP01 vertex 4 unused\nMAP01 flat-unknown 0 ceiling CEIL3_5\n\
    MAP02 texture-unknown 2 at (256,256) (256,0) right middle STARTAN2\nfindings 3\n~^\
    lint names.lv MAP01 --iwad short.wad --only texture-short~~3~\
    MAP01 texture-short 0 at (0,0) (0,256) right middle STARTAN3\n\
    MAP01 texture-short 1 at (0,256) (256,256) right middle STARTAN3\n\
    MAP01 texture-short 2 at (256,256) (256,0) right middle STARTAN3\n\
    MAP01 texture-short 3 at (256,0) (0,0) right middle STARTAN3\nfindings 4\n~^\
    lint names.lv~~3~MAP01 vertex 4 unused\nfindings 1\n~^\
    lint names.lv --iwad cut.wad~~1~~leveled: 76 TextureLump\n^\
    lint names.lv --iwad names.lv~~1~~leveled: 70 NotAWad\n  names.lv: is a project\n^\
    lint names.lv --iwad none.wad~~1~~leveled: 37 ReaderFailed\n  none.wad: No such file or directory\n^\
    lint none.lv --iwad none.wad~~1~~leveled: 30 Device\n  none.lv: No such file or directory\n";

#[test]
fn says_which_names_a_wad_lacks(rt: HostRuntime) -> Result<(), Fail> {
    draw(&rt, "names.lv", NAMES)?;
    fs::write(&rt, "names.wad", WAD)?;
    fs::write(&rt, "cut.wad", CUT_WAD)?;
    fs::write(&rt, "short.wad", SHORT_WAD)?;
    expect_calls(&rt, BESIDE)
}

// A project with a vertex without a line, a type that Doom doesn't have, and no exit.
const SEVERAL: &[u8] = b"room 0 0 256 256 0 128 FLOOR4_8 CEIL3_5 STARTAN3 160\nthing 64 64 0 1 7\n\
    thing 192 192 0 9999 7\nvertex 512 0\n";

// Calls of `lint` that choose lines.
const CHOSEN: &str = "\
    lint chosen.lv~~3~MAP01 vertex 4 unused\nMAP01 thing-type-unknown 1 at (192,192)\nMAP01 no-exit 0\nfindings 3\n~^\
    lint chosen.lv --only check~~3~MAP01 vertex 4 unused\nfindings 1\n~^\
    lint --only no-exit chosen.lv MAP01 --only thing-type-unknown~~3~MAP01 thing-type-unknown 1 at (192,192)\n\
    MAP01 no-exit 0\nfindings 2\n~^\
    lint chosen.lv --except check --except no-exit~~3~MAP01 thing-type-unknown 1 at (192,192)\nfindings 1\n~^\
    lint chosen.lv --only check --only no-exit --except check~~3~MAP01 no-exit 0\nfindings 1\n~^\
    lint chosen.lv --only line-crossed~~0~findings 0\n~";

#[test]
fn prints_the_chosen_lines(rt: HostRuntime) -> Result<(), Fail> {
    draw(&rt, "chosen.lv", SEVERAL)?;
    expect_calls(&rt, CHOSEN)
}
