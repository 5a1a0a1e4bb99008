//! Scripts: how their lines are cleaned, and how the names in them are resolved.

use crate::drawing::{AMPLE, answer};
use map_commands::parse;
use map_script::{
    Names, Numbers, defined_name, firsts_of, give_words, referent_of, resolve, script_lines,
};
use map_tables::{Map, Maps};
use std::alloc::Global;
use std::str::from_utf8;
use std::test::Fail;
use tests_rows::{expect_rows, expect_text, halves};

// A script with every kind of white space, comments, and a `#` within a word, which begins no comment.
const SCRIPT: &[u8] =
    b"\xef\xbb\xbf# a level\r\n\r\n  vertex\t0   0 \r\n\t\nvertex 128 0 # the second\nname MAP01#x\nsplit 0 64 0";

// Its lines that aren't blank, with their numbers.
const LINES: &str = "3 vertex 0 0;5 vertex 128 0;6 name MAP01#x;7 split 0 64 0;";

#[test]
fn cleans_a_script(rt: HostRuntime) -> Result<(), Fail> {
    let lines = script_lines(rt.alloc(), SCRIPT)?;
    let mut found = String::new(rt.alloc());
    for place in 0..lines.len() {
        let line = lines.line(place);
        write!(found, "{} {};", line.number, from_utf8(line.text)?)?;
    }
    expect_text(LINES, found.as_str(), LINES)
}

// Lines, and each with its names resolved, or the code of its refusal. A room adds its corners, its sector, its sides
// and its walls; a split adds a vertex and a line.
const NAMED: &str =
    "hall = room 0 0 256 256 0 128 FLOOR4_8 CEIL3_5 STARTAN3 160|room 0 0 256 256 0 128 FLOOR4_8 CEIL3_5 STARTAN3 160\n\
    cut = split $hall.line+2 256 128|split 2 256 128\n\
    line $vertex(256,256) $vertex(0,0) $vertex(0,0)+5 $line(0,64) 0 0 -|line 2 0 5 0 0 0 -\n\
    vertex $sector(1,255) 0|vertex 0 0\nsplit $line(0,0) 0 0|split 0 0 0\nsplit $line(256,0)+1 0 0|split 4 0 0\n\
    split $sector(256,1) 0 0|no 45\nsplit $vertex(1,0) 0 0|no 45\nsplit $thing(0,0) 0 0|no 45\n\
    split $vertex(99999,0) 0 0|no 45\nvertex $vertex(0,-0) 0|vertex 0 0\nsplit $vertex(0,-0) 0 0|no 21\n\
    line $hall $cut.vertex 1 0 0 $hall.side -|no 21\nsplit $hall.south 0 0|split 3 0 0\nsplit $cut.south 0 0|no 23\n\
    split $side(0,0) 0 0|no 21\nsplit $vertex(0) 0 0|no 21\nsplit $vertex(0,0 0 0|no 21\n\
    split $vertex(0,0)1 0 0|no 21\nsplit $vertex(0,0)+ 0 0|no 46\nsplit $vertex(0,0,0) 0 0|no 46\n\
    split $line($vertex(0,0)+64,0) 0 0|split 3 0 0\nsplit $vertices(0,0) 0 0|no 21\n\
    thing 0 0 90 $vertex(0,0)+32767 7|thing 0 0 90 32767 7\nsplit $vertex(256,0)+32767 0 0|no 24\n\
    split $line(0,1)+$ 0 0|no 21\nline $cut.vertex $hall.vertex+1 1 0 0 $hall.side -|line 4 1 1 0 0 0 -\n\
    vertex $cut $cut.line|vertex 4 4\nhall = vertex $hall+7 9|vertex 7 9\nthing $hall 0 90 1 7|thing 6 0 90 1 7\n\
    thing 0 0 90 $hall+32761 7|thing 0 0 90 32767 7\nthing $hall+32762 0 90 1 7|no 24\n\
    thing $hall+99999999999 0 90 1 7|no 24\nsplit $cut.side 0 0|no 23\nsplit $hal 0 0|no 22\n\
    split $hall.wall 0 0|no 21\nsplit $hall+ 0 0|no 46\nsplit $hall+01 0 0|no 46\nsplit $ 0 0|no 21\n\
    1st = vertex $hal 9|no 20\nvertex 9 9 = $|no 21\nvertex 9 9|vertex 9 9";

// The line with its names resolved, or its refusal.
fn resolved(alloc: Global, names: &Names, map: &Map, line: &str) -> Result<String, Fail> {
    match resolve(alloc, names, map, line.as_bytes()) {
        Ok(text) => Ok(String::from_utf8(text)?),
        Err(error) => Ok(format!(in alloc; "no {}", error.code())?),
    }
}

// Draws a line, and keeps its numbers if it gives a name.
fn draw(
    alloc: Global,
    maps: &mut Maps,
    names: &mut Names,
    line: &[u8],
    text: &[u8],
) -> Result<(), Fail> {
    let firsts = firsts_of(&parse(text)?, maps.current());
    let drawn = answer(maps, text, AMPLE);
    match (defined_name(line), drawn) {
        (Some(name), Ok(answer)) => {
            let numbers = Numbers { answer, firsts };
            Ok(names.define(alloc, name, numbers, referent_of(text))?)
        }
        _ => Ok(()),
    }
}

// Draws the lines as they are resolved.
fn expect_named(alloc: Global, maps: &mut Maps, names: &mut Names) -> Result<(), Fail> {
    for row in NAMED.split('\n') {
        let (line, wanted) = halves(row);
        let text = resolved(alloc, names, maps.current(), line)?;
        expect_text(row, text.as_str(), wanted)?;
        if !wanted.starts_with("no ") {
            draw(alloc, maps, names, line.as_bytes(), text.as_bytes())?;
        }
    }
    Ok(())
}

#[test]
fn replaces_names(rt: HostRuntime) -> Result<(), Fail> {
    let mut maps = Maps::new(rt.alloc());
    let mut names = Names::new(rt.alloc());
    expect_named(rt.alloc(), &mut maps, &mut names)
}

// `let`s, each with the code of its refusal if it gives nothing.
const GIVEN: &str =
    "w 64|\nh -3|\nstone 0 128 FLOOR4_8|\nbig 9223372036854775807|\nhalf $w/2|\nw $w|\nw -8|\nw $half*2|\n|no 1\n\
    x|no 1\n1x 3|no 20\nline 3|no 20\nlet 3|no 20\nx $nosuch|no 22";

// Words behind those, and what each stands for, or the code of its refusal.
const SUMS: &str =
    "$w|64\n$half|32\n$h|-3\n$stone|0 128 FLOOR4_8\n$w+1|65\n$h+1|-2\n2*$w-1|127\n2-$w-1|-63\n$w/2/4|8\n$w-2*3+1|59\n\
    $w-2*(3+1)|56\n(2+3)*-4|-20\n-$h|3\n--$h|-3\n8-3*$h|17\n8--$h|5\n-64/-$half*4|8\nLIGHT=$w+8|LIGHT=72\n\
    X=$stone|X=0 128 FLOOR4_8\nX=9|X=9\n(7)|7\n3-4|3-4\nMAP01#x|MAP01#x\n-$big-1|-9223372036854775808\n\
    ----------------------------------------------------------------$w|64\n\
    -----------------------------------------------------------------$w|no 46\n$w/5|no 46\n$w/0|no 46\n$w+01|no 46\n\
    $w+|no 46\n$w+(|no 46\n(1|no 46\n$w*1)|no 46\n()|no 46\n$w*FLOOR4_8|no 46\n$w*-0|0\n$stone*2|no 46\n\
    $big*2|no 46\n$big--1|no 46\n-$big-2|no 46\n(-$big-1)/-1|no 46\n18446744073709551616*$w|no 46\n\
    9223372036854775808*$w|no 46\n$w+32767|no 24\n$nosuch*2|no 22\n$w*$|no 21\n$stone.line|no 23\n$w.wall*2|no 21\n\
    2*$vertex(1,2)|no 45";

// The refusal of a `let`; none if it gives its words.
fn refused(alloc: Global, names: &mut Names, map: &Map, words: &str) -> Result<String, Fail> {
    match give_words(alloc, names, map, words.as_bytes()) {
        Ok(()) => Ok(String::new(alloc)),
        Err(error) => Ok(format!(in alloc; "no {}", error.code())?),
    }
}

fn expect_given(alloc: Global, names: &mut Names, map: &Map) -> Result<(), Fail> {
    for row in GIVEN.split('\n') {
        let (words, wanted) = halves(row);
        expect_text(row, refused(alloc, names, map, words)?.as_str(), wanted)?;
    }
    Ok(())
}

fn expect_reckoned(alloc: Global, names: &mut Names, map: &Map) -> Result<(), Fail> {
    expect_given(alloc, names, map)?;
    expect_rows(alloc, SUMS, |alloc, word| resolved(alloc, names, map, word))
}

#[test]
fn reckons_sums(rt: HostRuntime) -> Result<(), Fail> {
    let maps = Maps::new(rt.alloc());
    let mut names = Names::new(rt.alloc());
    expect_reckoned(rt.alloc(), &mut names, maps.current())
}
