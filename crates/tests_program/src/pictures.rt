//! What `picture` draws for the maps of a project.

use crate::calls::{called, performed};
use map_picture::STYLE;
use std::alloc::Global;
use std::fs;
use std::test::Fail;
use tests_rows::{expect_text, part};

// A map with one vertex, and an empty one, which is current.
const LINES: &[u8] = b"vertex 0 0\nmap E1M1\n";

// The part of the vertex's picture before the style, and the part after it, worked by hand: the vertex and 64 units on
// each side.
const FRONT: &str =
    r#"<svg class="leveled" xmlns="http://www.w3.org/2000/svg" version="1.1" width="100%"
viewBox="-64 -64 128 128" font-size="8">
<title>MAP01</title>
"#;

const BACK: &str = r#"<rect class="page" x="-64" y="-64" width="128" height="128"/>
<path id="vertex0" class="vertex" d="M0 0h0"><title>vertex 0: 0 0</title></path>
</svg>
"#;

// The part after the style with the vertex's number.
const NUMBERED: &str = r#"<rect class="page" x="-64" y="-64" width="128" height="128"/>
<path id="vertex0" class="vertex" d="M0 0h0"><title>vertex 0: 0 0</title></path>
<g id="numbers" font-size="11">
<text class="of-vertex" x="0" y="0" dx="8" dy="-8">0</text>
</g>
</svg>
"#;

// The part after the style with marks for what `lint` prints: at the vertex, that no line uses it; and in the corner,
// that there is no start, as a finding and as a warning, and no exit.
const LINTED: &str = r#"<rect class="page" x="-64" y="-64" width="128" height="128"/>
<path id="vertex0" class="vertex" d="M0 0h0"><title>vertex 0: 0 0</title></path>
<g id="lint0" class="lint">
<title>vertex 0 unused</title>
<path d="M0 0L0 0"/></g>
<g id="lint1" class="lint">
<title>no player start</title>
<path d="M-64 -64m32 32h0"/></g>
<g id="lint2" class="lint">
<title>no-start 1</title>
<path d="M-64 -64m32 32h0"/></g>
<g id="lint3" class="lint">
<title>no-exit 0</title>
<path d="M-64 -64m32 32h0"/></g>
</svg>
"#;

// The picture of the empty map shows the surroundings of (0,0).
const EMPTY_FRONT: &str =
    r#"<svg class="leveled" xmlns="http://www.w3.org/2000/svg" version="1.1" width="100%"
viewBox="-64 -64 128 128" font-size="8">
<title>E1M1</title>
"#;

const EMPTY_BACK: &str = r#"<rect class="page" x="-64" y="-64" width="128" height="128"/>
</svg>
"#;

// The part of a picture that has this name in a row.
fn named(name: &str) -> &str {
    match name {
        "FRONT" => FRONT,
        "BACK" => BACK,
        "NUMBERED" => NUMBERED,
        "LINTED" => LINTED,
        "EMPTY_FRONT" => EMPTY_FRONT,
        "EMPTY_BACK" => EMPTY_BACK,
        _ => name,
    }
}

// Arguments after `leveled picture`, the status, the two parts of the picture that is printed, if one is, and standard
// error.
const ROWS: &str = "\
    pictures.lv~0~EMPTY_FRONT~EMPTY_BACK~^\
    pictures.lv MAP01~0~FRONT~BACK~^\
    pictures.lv MAP01 --numbers~0~FRONT~NUMBERED~^\
    pictures.lv MAP01 --lint~0~FRONT~LINTED~^\
    pictures.lv MAP01 --nodes~1~~~leveled: 60 NothingToBuild\n^\
    pictures.lv MAP02~1~~~leveled: 18 NoSuchMap\n  there is MAP01 E1M1\n^\
    pictures.lv --out pictures.svg~0~~~^\
    pictures.lv MAP01 --out pictures.svg~0~~~^\
    pictures.lv --out ./pictures.lv~1~~~leveled: 38 WriterFailed\n\
    \x20 ./pictures.lv: is no picture of a map; it is left alone\n";

// The picture of these two parts with the style between them; nothing, if the first is empty.
fn picture(alloc: Global, front: &str, back: &str) -> Result<String, Fail> {
    if front.is_empty() {
        return Ok(String::new(alloc));
    }
    let (front, back) = (named(front), named(back));
    Ok(format!(in alloc; "{front}{STYLE}{back}")?)
}

// Calls `picture` as a row says.
fn expect_picture(rt: &HostRuntime, row: &str) -> Result<(), Fail> {
    let mut faults = row;
    let words = format!(in rt.alloc(); "picture {}", part(&mut faults, '~'))?;
    let status = part(&mut faults, '~');
    let front = part(&mut faults, '~');
    let drawn = picture(rt.alloc(), front, part(&mut faults, '~'))?;
    let wanted = format!(in rt.alloc(); "{status}~{drawn}~{faults}")?;
    let found = called(rt, words.as_str(), b"")?;
    expect_text(row, found.as_str(), wanted.as_str())
}

// The file has the picture of the map with one vertex.
fn expect_file(rt: &HostRuntime, path: &str) -> Result<(), Fail> {
    let drawn = String::from_utf8(fs::read(rt, path)?)?;
    let wanted = picture(rt.alloc(), "FRONT", "BACK")?;
    expect_text(path, drawn.as_str(), wanted.as_str())
}

#[test]
fn draws_maps_of_a_file(rt: HostRuntime) -> Result<(), Fail> {
    let _ = fs::remove_file(&rt, "pictures.lv");
    let _ = fs::remove_file(&rt, "pictures.svg");
    let _ = performed(&rt, "create pictures.lv", b"")?;
    let _ = performed(&rt, "edit pictures.lv", LINES)?;
    for row in ROWS.split('^') {
        expect_picture(&rt, row)?;
    }
    expect_file(&rt, "pictures.svg")
}
