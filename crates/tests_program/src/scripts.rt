//! Scripts, drawn onto a project file, or in place of one.

use crate::calls::{expect_calls, performed};
use std::fs;
use std::test::Fail;
use tests_rows::script_halves;

// The files of scripts, and their texts. In turn: one whose third line is refused; one of which three lines are
// refused, the second only for lack of a name; one that is a map with a vertex, and doesn't end with LF; one that
// includes this level twice, with a line of its own between; one that includes a refused line; and three whose line
// can't include a file: it is the script itself, is missing, or the line has no word.
const SCRIPTS: &str = "\
    leveled_scripts_script~# corners\nhere = vertex 0 0\nvertx $here 9\nvertex 1 1\n^\
    leveled_scripts_typos~gap = vertx 0 0\nthing $gap 0 0 1 7\nsplt 2 256 160\n^\
    leveled_scripts_level~count\nvertex 1 1^\
    leveled_scripts_parts~include leveled_scripts_level\nmap MAP02\n\tinclude  ./leveled_scripts_level # again\n^\
    leveled_scripts_inner~# the first\nvertex 5 5\ninclude leveled_scripts_script\n^\
    leveled_scripts_ring~vertex 1 1\ninclude leveled_scripts_ring\n^\
    leveled_scripts_lacking~vertx\ninclude leveled_scripts_missing\ninclude\n^\
    leveled_scripts_formless~include one two\n";

// Calls over the file of a project. A script of which a line is refused draws nothing: the vertex of the third row is
// the first. No row makes the file without a script.
const RUNS: &str = "\
    draw leveled_scripts_file leveled_scripts_script --verbose~count\n\
    ~3~~leveled_scripts_script:3: vertx $here 9: 1 NotACommand\n  perhaps this is meant: vertex X Y\n^\
    draw leveled_scripts_file leveled_scripts_typos~~3~~leveled_scripts_typos:1: gap = vertx 0 0: 1 NotACommand\n\
    \x20 perhaps this is meant: vertex X Y\nleveled_scripts_typos:3: splt 2 256 160: 1 NotACommand\n\
    \x20 perhaps this is meant: split LINE X Y\n^\
    draw leveled_scripts_file --verbose~vertex 0 0~0~1: ok 0\n~^\
    draw leveled_scripts_file~\tcount\r\nvertex 0 0 # again\ncount\n~3~~-:2: vertex 0 0: 10 PlaceTaken\n\
    \x20 vertex 0 stands at 0 0\n^\
    draw leveled_scripts_file~vertex 1 1\ncount~0~vertices 2 sectors 0 sides 0 lines 0 things 0\n~^\
    draw leveled_scripts_file leveled_scripts_missing~vertex 2 2\n~1~~leveled: 37 ReaderFailed\n\
    \x20 leveled_scripts_missing: No such file or directory\n^\
    draw leveled_scripts_missing leveled_scripts_script~~1~~leveled: 30 Device\n\
    \x20 leveled_scripts_missing: No such file or directory\n  `leveled create FILE` makes a project\n^\
    check leveled_scripts_script~~3~~leveled_scripts_script:3: vertx $here 9: 1 NotACommand\n\
    \x20 perhaps this is meant: vertex X Y\n^\
    build leveled_scripts_script leveled_scripts_missing~~3~~\
    leveled_scripts_script:3: vertx $here 9: 1 NotACommand\n  perhaps this is meant: vertex X Y\n^\
    check leveled_scripts_level~~3~vertex 0 unused leveled_scripts_level:2\nno player start\nfindings 2\n~^\
    dump leveled_scripts_level~~0~map MAP01\nvertex 1 1\n~^\
    build leveled_scripts_level leveled_scripts_missing~~1~~leveled: 60 NothingToBuild\n  MAP01: has no line\n^\
    draw --check leveled_scripts_script --verbose~count\n~3~2: ok 0\n\
    ~leveled_scripts_script:3: vertx $here 9: 1 NotACommand\n  perhaps this is meant: vertex X Y\n^\
    draw --check leveled_scripts_missing~~1~~leveled: 37 ReaderFailed\n\
    \x20 leveled_scripts_missing: No such file or directory\n^\
    dump leveled_scripts_parts~vertex 9 9\n~0~map MAP01\nvertex 1 1\nmap MAP02\nvertex 1 1\n~^\
    dump -~include leveled_scripts_level\nmap MAP02\n\tinclude  ./leveled_scripts_level # again\n\
    ~0~map MAP01\nvertex 1 1\nmap MAP02\nvertex 1 1\n~^\
    draw --check leveled_scripts_parts --verbose~~0~vertices 0 sectors 0 sides 0 lines 0 things 0\n2: ok 0\n\
    2: ok 1\nvertices 0 sectors 0 sides 0 lines 0 things 0\n2: ok 0\n~^\
    draw --check leveled_scripts_inner --verbose~~3~2: ok 0\n2: ok 1\n\
    ~leveled_scripts_script:3: vertx $here 9: 1 NotACommand\n  perhaps this is meant: vertex X Y\n^\
    check leveled_scripts_ring~~3~~leveled_scripts_ring:2: include leveled_scripts_ring: 47 OpenBlock\n\
    \x20 files include one another more than 16 deep\n^\
    draw leveled_scripts_file leveled_scripts_lacking~~3~~\
    leveled_scripts_lacking:2: include leveled_scripts_missing: 37 ReaderFailed\n\
    \x20 leveled_scripts_missing: No such file or directory\n^\
    build leveled_scripts_formless leveled_scripts_missing~~3~~\
    leveled_scripts_formless:1: include one two: 1 NotACommand\n  this is its form: include FILE\n^\
    lint -~include leveled_scripts_file\n~3~~-:1: include leveled_scripts_file: 42 NotAProject\n\
    \x20 leveled_scripts_file: is a project, no script\n^\
    check -~count\nvertex 1 1~3~vertex 0 unused -:2\nno player start\nfindings 2\n~^\
    check -~LVPJ~1~~leveled: 42 NotAProject\n  -: is a project, no script\n^\
    check - MAP02~vertex 1 1~1~~leveled: 18 NoSuchMap\n^\
    draw --check -~PWAD~1~~leveled: 37 ReaderFailed\n  -: is a WAD, no script\n^\
    draw --check - leveled_scripts_file~count~0~vertices 2 sectors 0 sides 0 lines 0 things 0\n~";

// Calls with a script from standard input, which print what they find with the lines that added its items: with a named
// line, one in a loop and one in an `at`; with one of an included file and one in a shape's body; with those behind a
// dropped item; with those of two maps, an item of which is changed later; with that of a thing.
const ORIGINS: &str = "\
    check -~a = vertex 0 0\nfor i 1 2\n vertex $i 0\nend\nat 8 8\n b = vertex 0 0\nend\n\
    ~3~vertex 0 unused -:1 a\nvertex 1 unused -:3\nvertex 2 unused -:3\nvertex 3 unused -:6 b\n\
    no player start\nfindings 5\n~^\
    check -~include leveled_scripts_level\n\ndefine dot X\n vertex $X 5\nend\nd = dot 3\n\
    ~3~vertex 0 unused leveled_scripts_level:2\nvertex 1 unused -:4\nno player start\nfindings 3\n~^\
    check -~vertex 0 0\nvertex 1 1\nvertex 2 2\ndrop vertex 1\nvertex 3 3\n~3~vertex 0 unused -:1\n\
    vertex 1 unused -:3\nvertex 2 unused -:5\nno player start\nfindings 4\n~^\
    lint - --only check~map E1M1\nvertex 0 0\nmap MAP02\nvertex 1 1\nmap E1M1\nmove-vertex 0 3 3\n\
    drop-map MAP02\nmap MAP02\nvertex 4 4\n~3~E1M1 vertex 0 unused -:2\nE1M1 no player start\n\
    MAP02 vertex 0 unused -:9\nMAP02 no player start\nfindings 4\n~^\
    lint - --only thing-outside~room 0 0 256 256 0 128 FLOOR4_8 CEIL3_5 STARTAN3 160\nt = thing 500 500 0 2001 7\n\
    ~3~MAP01 thing-outside 0 at (500,500) -:2 t\nfindings 1\n~";

// Makes the project file and the script files.
fn make_files(rt: &HostRuntime) -> Result<(), Fail> {
    let _ = fs::remove_file(rt, "leveled_scripts_file");
    let _ = fs::remove_file(rt, "leveled_scripts_missing");
    let _ = performed(rt, "create leveled_scripts_file", b"")?;
    for row in SCRIPTS.split('^') {
        let (name, text) = script_halves(row);
        fs::write(rt, name, text.as_bytes())?;
    }
    Ok(())
}

// Removes them.
fn remove_files(rt: &HostRuntime) -> Result<(), Fail> {
    for row in SCRIPTS.split('^') {
        let (name, _) = script_halves(row);
        fs::remove_file(rt, name)?;
    }
    fs::remove_file(rt, "leveled_scripts_file")?;
    Ok(())
}

#[test]
fn draws_scripts(rt: HostRuntime) -> Result<(), Fail> {
    make_files(&rt)?;
    expect_calls(&rt, RUNS)?;
    expect_calls(&rt, ORIGINS)?;
    remove_files(&rt)
}
