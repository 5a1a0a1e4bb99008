//! Lines that are commands, and lines that aren't.

use map_commands::{parse, print};
use std::alloc::{AllocError, Global};
use std::test::Fail;
use tests_rows::{expect_rows, expect_text, halves};

// 0 for a line that is a command and is printed as it was read, 999 if it is printed differently, else the refusal's
// code.
fn code_of_line(alloc: Global, line: &[u8]) -> u16 {
    match parse(line) {
        Ok(command) => match print(alloc, &command) {
            Ok(text) => if text.as_slice() == line { 0 } else { 999 },
            Err(error) => error.code(),
        },
        Err(error) => error.code(),
    }
}

// The same as text.
fn told(alloc: Global, line: &str) -> Result<String, Fail> {
    Ok(format!(in alloc; "{}", code_of_line(alloc, line.as_bytes()))?)
}

// Each place of each command that takes a number, marked by a star, and the least and the greatest number.
const RANGES: &str = "vertex * 0|-16384 16383\n\
    vertex 0 *|-16384 16383\n\
    thing * 64 90 1 7|-16384 16383\n\
    thing 64 * 90 1 7|-16384 16383\n\
    move-vertex 0 * 0|-16384 16383\n\
    move-vertex 0 0 *|-16384 16383\n\
    set-thing 0 * 64 90 1 7|-16384 16383\n\
    set-thing 0 64 * 90 1 7|-16384 16383\n\
    split 0 * 0|-16384 16383\n\
    split 0 0 *|-16384 16383\n\
    sector * 128 FLOOR4_8 CEIL3_5 160 0 0|-32768 32767\n\
    sector 0 * FLOOR4_8 CEIL3_5 160 0 0|-32768 32767\n\
    side * 0 - - STARTAN3 0|-32768 32767\n\
    side 0 * - - STARTAN3 0|-32768 32767\n\
    set-sector 0 * 128 FLOOR4_8 CEIL3_5 160 0 0|-32768 32767\n\
    set-sector 0 0 * FLOOR4_8 CEIL3_5 160 0 0|-32768 32767\n\
    set-side 0 * 0 - - STARTAN3 0|-32768 32767\n\
    set-side 0 0 * - - STARTAN3 0|-32768 32767\n\
    room 0 0 128 128 * 128 FLOOR4_8 CEIL3_5 STARTAN3 160|-32768 32767\n\
    room 0 0 128 128 0 * FLOOR4_8 CEIL3_5 STARTAN3 160|-32768 32767\n\
    sector 0 128 FLOOR4_8 CEIL3_5 * 0 0|0 255\n\
    set-sector 0 0 128 FLOOR4_8 CEIL3_5 * 0 0|0 255\n\
    room 0 0 128 128 0 128 FLOOR4_8 CEIL3_5 STARTAN3 *|0 255\n\
    sector 0 128 FLOOR4_8 CEIL3_5 160 * 0|0 32767\n\
    sector 0 128 FLOOR4_8 CEIL3_5 160 0 *|0 32767\n\
    line 0 1 * 0 0 0 -|0 32767\n\
    line 0 1 1 * 0 0 -|0 32767\n\
    line 0 1 1 0 * 0 -|0 32767\n\
    thing 64 64 90 * 7|0 32767\n\
    thing 64 64 90 1 *|0 32767\n\
    set-sector 0 0 128 FLOOR4_8 CEIL3_5 160 * 0|0 32767\n\
    set-sector 0 0 128 FLOOR4_8 CEIL3_5 160 0 *|0 32767\n\
    set-line 0 0 1 * 0 0 0 -|0 32767\n\
    set-line 0 0 1 1 * 0 0 -|0 32767\n\
    set-line 0 0 1 1 0 * 0 -|0 32767\n\
    set-thing 0 64 64 90 * 7|0 32767\n\
    set-thing 0 64 64 90 1 *|0 32767\n\
    side 0 0 - - STARTAN3 *|0 4095\n\
    set-sector * 0 128 FLOOR4_8 CEIL3_5 160 0 0|0 4095\n\
    set-side 0 0 0 - - STARTAN3 *|0 4095\n\
    drop sector *|0 4095\n\
    line * 1 1 0 0 0 -|0 32766\n\
    line 0 * 1 0 0 0 -|0 32766\n\
    line 0 1 1 0 0 * -|0 32766\n\
    line 0 1 1 0 0 0 *|0 32766\n\
    move-vertex * 0 0|0 32766\n\
    set-side * 0 0 - - STARTAN3 0|0 32766\n\
    set-line * 0 1 1 0 0 0 -|0 32766\n\
    set-line 0 * 1 1 0 0 0 -|0 32766\n\
    set-line 0 0 * 1 0 0 0 -|0 32766\n\
    set-line 0 0 1 1 0 0 * -|0 32766\n\
    set-line 0 0 1 1 0 0 0 *|0 32766\n\
    set-thing * 64 64 90 1 7|0 32766\n\
    drop vertex *|0 32766\n\
    drop side *|0 32766\n\
    drop line *|0 32766\n\
    drop thing *|0 32766\n\
    split * 0 0|0 32766\n\
    thing 64 64 * 1 7|0 359\n\
    set-thing 0 64 64 * 1 7|0 359\n\
    room * 0 16383 128 0 128 FLOOR4_8 CEIL3_5 STARTAN3 160|-16384 16382\n\
    room 0 * 128 16383 0 128 FLOOR4_8 CEIL3_5 STARTAN3 160|-16384 16382\n\
    room -16384 0 * 128 0 128 FLOOR4_8 CEIL3_5 STARTAN3 160|-16383 16383\n\
    room 0 -16384 128 * 0 128 FLOOR4_8 CEIL3_5 STARTAN3 160|-16383 16383";

// A form with the value in the place of its star.
fn filled(alloc: Global, form: &str, value: &str) -> Result<String, AllocError> {
    let (front, behind) = form.split_once('*').unwrap_or((form, ""));
    format!(in alloc; "{front}{value}{behind}")
}

// The form with the value in the place of its star has this code.
fn expect_told(alloc: Global, form: &str, value: &str, code: &str) -> Result<(), Fail> {
    let line = filled(alloc, form, value)?;
    expect_text(line.as_str(), told(alloc, line.as_str())?.as_str(), code)
}

// The same with a number.
fn expect_number(alloc: Global, form: &str, value: i32, code: &str) -> Result<(), Fail> {
    expect_told(alloc, form, format!(in alloc; "{value}")?.as_str(), code)
}

// The form takes the numbers of the range, and none beyond.
fn expect_range(alloc: Global, form: &str, range: &str) -> Result<(), Fail> {
    let (least, greatest) = range.split_once(' ').unwrap_or((range, ""));
    let (least, greatest): (i32, i32) = (least.parse()?, greatest.parse()?);
    expect_number(alloc, form, least, "0")?;
    expect_number(alloc, form, greatest, "0")?;
    expect_number(alloc, form, least.saturating_sub(1), "2")?;
    expect_number(alloc, form, greatest.saturating_add(1), "2")
}

// Each place of each command that takes a number: with its least and its greatest number, and with one beyond each.
#[test]
fn numbers_have_ranges(rt: HostRuntime) -> Result<(), Fail> {
    for row in RANGES.split('\n') {
        let (form, range) = halves(row);
        expect_range(rt.alloc(), form, range)?;
    }
    Ok(())
}

// Each place of each command that takes a name, marked by a star.
const NAME_PLACES: &str = "sector 0 128 * CEIL3_5 160 0 0\n\
    sector 0 128 FLOOR4_8 * 160 0 0\n\
    side 0 0 * - STARTAN3 0\n\
    side 0 0 - * STARTAN3 0\n\
    side 0 0 - - * 0\n\
    set-sector 0 0 128 * CEIL3_5 160 0 0\n\
    set-sector 0 0 128 FLOOR4_8 * 160 0 0\n\
    set-side 0 0 0 * - STARTAN3 0\n\
    set-side 0 0 0 - * STARTAN3 0\n\
    set-side 0 0 0 - - * 0\n\
    room 0 0 128 128 0 128 * CEIL3_5 STARTAN3 160\n\
    room 0 0 128 128 0 128 FLOOR4_8 * STARTAN3 160\n\
    room 0 0 128 128 0 128 FLOOR4_8 CEIL3_5 * 160";

// Names, and the code of a line with one of them: 0 for a command.
const NAMES: &str =
    "A|0\n-|0\n0|0\nABCDEFGH|0\n_-[]\\09Z|0\nABCDEFGHI|15\nfloor4_8|15\nA.B|15\n~|15\n@|15\n`|15\n^|15\n\u{7f}|1\n\
    \u{e9}|1\n|1\nA B|1";

// The form has the code of each name with that in the place of its star.
fn expect_names(alloc: Global, form: &str) -> Result<(), Fail> {
    for row in NAMES.split('\n') {
        let (name, code) = halves(row);
        expect_told(alloc, form, name, code)?;
    }
    Ok(())
}

// Each place of each command that takes a name.
#[test]
fn names_have_a_form(rt: HostRuntime) -> Result<(), Fail> {
    for form in NAME_PLACES.split('\n') {
        expect_names(rt.alloc(), form)?;
    }
    Ok(())
}

// Lines, and the code of each: 0 for a command.
const LINES: &str = "name E1M1|0\n\
    name E9M9|0\n\
    name MAP01|0\n\
    name MAP10|0\n\
    name MAP99|0\n\
    line 0 1 1 0 0 0 -|0\n\
    set-line 0 0 1 1 0 0 0 -|0\n\
    room 0 0 128 128 0 128 FLOOR4_8 CEIL3_5 STARTAN3 160|0\n\
    drop vertex 0|0\n\
    split 2 128 64|0\n\
    map E1M9|0\n\
    map E9M9|0\n\
    drop-map MAP32|0\n\
    map MAP00|15\n\
    drop-map map01|15\n\
    drop-map MAP100|15\n\
    name MAP00|15\n\
    name E0M1|15\n\
    name E1M0|15\n\
    name E1M10|15\n\
    name MAP1|15\n\
    name MAP100|15\n\
    name map01|15\n\
    name E1M|15\n\
    name M1E1|15\n\
    name -|15\n\
    name MAPAB|15\n\
    sector 0 128 floor4_8 CEIL3_5 160 0 0|15\n\
    sector 0 128 floor4_8 CEIL3_5 999 0 0|15\n\
    room 0 0 0 128 0 128 floor CEIL3_5 STARTAN3 160|15\n\
    vertex 16384 0|2\n\
    sector 40000 128 FLOOR4_8 CEIL3_5 160 0 0|2\n\
    sector 40000 128 floor4_8 CEIL3_5 160 0 0|2\n\
    sector 0 99999 floor4_8 CEIL3_5 999 0 0|2\n\
    line 0 1 1 0 0 0 -5|2\n\
    drop sector 4096|2\n\
    room 0 0 0 128 0 128 FLOOR4_8 CEIL3_5 STARTAN3 160|2\n\
    room 0 0 128 0 0 128 FLOOR4_8 CEIL3_5 STARTAN3 160|2\n\
    room 128 0 0 128 0 128 FLOOR4_8 CEIL3_5 STARTAN3 160|2\n\
    room 0 128 128 0 0 128 FLOOR4_8 CEIL3_5 STARTAN3 160|2\n\
    vertex 99999999999999999999999999 0|2\n\
    vertex -99999999999999999999999999 0|2\n\
    vertex|1\n\
    vertex 1|1\n\
    vertex 1 1 1|1\n\
    vertex 00 0|1\n\
    vertex -0 0|1\n\
    vertex 01 0|1\n\
    vertex -01 0|1\n\
    vertex +1 0|1\n\
    vertex 1x 0|1\n\
    vertex - 0|1\n\
    vertex  1 1|1\n\
    \u{20}vertex 1 1|1\n\
    vertex 1 1 |1\n\
    vertex 1 1\r|1\n\
    vertex\t1 1|1\n\
    Vertex 1 1|1\n\
    vertices 1 1|1\n\
    vertex 99999 x|1\n\
    sector 40000 128 floor4_8 CEIL3_5 160 0|1\n\
    room 0 0 0 128 0 128 FLOOR4_8 CEIL3_5 STARTAN3 x|1\n\
    drop|1\n\
    drop vertex|1\n\
    drop map 0|1\n\
    drop vertex 0 0|1\n\
    drop map 99999|1\n\
    line 0 1 1 0 0 0 --|1\n\
    line 0 1 1 0 0 - -|1\n\
    line 0 1 1 0 0 0|1\n\
    name|1\n\
    name E1M1 E1M1|1\n\
    split 0 0|1\n\
    move-vertex 0 0|1\n\
    map|1\n\
    map  MAP01|1\n\
    map MAP01 |1\n\
    map MAP01 MAP02|1\n\
    maps|1\n\
    hex VERTEXES|1\n\
    check|1\n\
    undo|1\n\
    |1";

#[test]
fn lines_are_told_apart(rt: HostRuntime) -> Result<(), Fail> {
    expect_rows(rt.alloc(), LINES, told)
}

// The code of a line whose second number has so many digits.
fn told_of_digits(alloc: Global, digits: &str) -> Result<String, Fail> {
    let mut line = String::from_str(alloc, "vertex 1 ")?;
    let count: u32 = digits.parse()?;
    for _ in 0..count {
        line.push('1')?;
    }
    told(alloc, line.as_str())
}

// A numeral may be as long as fits in a line of 256 bytes.
#[test]
fn numerals_may_be_long(rt: HostRuntime) -> Result<(), Fail> {
    expect_rows(rt.alloc(), "247|2\n248|1", told_of_digits)
}
