//! What `dump` prints for the levels of a WAD and for maps by name, and what it reports on standard error.

use crate::calls::{called, performed};
use crate::wads::{START_AT, cut_wad, wad_of};
use std::fs;
use std::test::Fail;
use tests_rows::{expect_text, part, script_meant};

// A room without a thing, one with a player's start at an angle of 360, and one whose LINEDEFS are cut off.
const LEVELS: &str = "MAP01;E1M1 start;E1M2 start cut";

// The lines that draw the first level, and those that draw the second.
const DRAWN: &str = "\
    FIRST~map MAP01\nvertex 0 0\nvertex 0 128\nvertex 128 128\nvertex 128 0\n\
    sector 0 128 FLOOR4_8 CEIL3_5 160 0 0\nside 0 0 - - STARTAN3 0\nside 0 0 - - STARTAN3 0\n\
    side 0 0 - - STARTAN3 0\nside 0 0 - - STARTAN3 0\nline 0 1 1 0 0 0 -\nline 1 2 1 0 0 1 -\n\
    line 2 3 1 0 0 2 -\nline 3 0 1 0 0 3 -\n^\
    SECOND~map E1M1\nvertex 0 0\nvertex 0 128\nvertex 128 128\nvertex 128 0\n\
    sector 0 128 FLOOR4_8 CEIL3_5 160 0 0\nside 0 0 - - STARTAN3 0\nside 0 0 - - STARTAN3 0\n\
    side 0 0 - - STARTAN3 0\nside 0 0 - - STARTAN3 0\nline 0 1 1 0 0 0 -\nline 1 2 1 0 0 1 -\n\
    line 2 3 1 0 0 2 -\nline 3 0 1 0 0 3 -\nthing 64 64 0 1 7\n";

// Calls of the program: the arguments, the status, the levels whose lines are printed, and standard error. The project
// has the maps MAP01 and E1M1, made of the levels.
const CALLS: &str = "\
    dump dumps.wad~3~FIRST SECOND~E1M1: thing 0: angle 360 is 0\n\
    E1M2: no map: LINEDEFS is no whole number of records\n^\
    dump dumps.wad MAP01~0~FIRST~^\
    dump dumps.wad E1M1 MAP01~0~FIRST SECOND~E1M1: thing 0: angle 360 is 0\n^\
    dump --exact dumps.wad~3~FIRST~E1M1: not exact: thing 0: angle 360 is 0\n\
    E1M2: no map: LINEDEFS is no whole number of records\n^\
    dump dumps.wad MAP01 --exact~0~FIRST~^\
    dump dumps.wad MAP01 MAP07~1~~leveled: 72 NoSuchLevel\n  there is MAP01 E1M1 E1M2\n^\
    dump dumps_cut.wad~1~~leveled: 71 DirectoryOutside\n^\
    dump dumps.lv E1M1~0~SECOND~^\
    dump dumps.lv E1M1 --exact MAP01~0~FIRST SECOND~^\
    dump dumps.lv MAP02 MAP01~1~~leveled: 18 NoSuchMap\n  there is MAP01 E1M1\n";

// Replaces a byte.
fn put(wad: &mut [u8], place: usize, value: u8) {
    if let Some(byte) = wad.get_mut(place) {
        *byte = value;
    }
}

// Makes two WADs, the first one with three levels of eleven entries each, and a project that the dump of the first one
// draws.
fn make_files(rt: &HostRuntime) -> Result<(), Fail> {
    let mut wad = wad_of(rt.alloc(), LEVELS)?;
    put(&mut wad, 4, 33);
    put(&mut wad, START_AT + 4, 104);
    put(&mut wad, START_AT + 5, 1);
    fs::write(rt, "dumps.wad", &wad)?;
    fs::write(rt, "dumps_cut.wad", cut_wad())?;
    let _ = fs::remove_file(rt, "dumps.lv");
    let _ = performed(rt, "create dumps.lv", b"")?;
    let (_, lines, _) = performed(rt, "dump dumps.wad", b"")?;
    let _ = performed(rt, "edit dumps.lv", &lines)?;
    Ok(())
}

// Calls the program as a row says.
fn expect_call(rt: &HostRuntime, row: &str) -> Result<(), Fail> {
    let mut left = row;
    let words = part(&mut left, '~');
    let status = part(&mut left, '~');
    let mut second = part(&mut left, '~');
    let faults = part(&mut left, '~');
    let first = script_meant(DRAWN, part(&mut second, ' '));
    let second = script_meant(DRAWN, second);
    let found = called(rt, words, b"")?;
    let wanted = format!(in rt.alloc(); "{status}~{first}{second}~{faults}")?;
    expect_text(row, found.as_str(), wanted.as_str())
}

#[test]
fn dumps_levels_and_maps(rt: HostRuntime) -> Result<(), Fail> {
    make_files(&rt)?;
    for row in CALLS.split('^') {
        expect_call(&rt, row)?;
    }
    Ok(())
}
