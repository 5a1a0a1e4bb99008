//! Which refused lines of a script are told behind the first one.
ghost use Rattle.std.specs.Prelude.{◌≡◌, IfOk, length};

use map_script::{DrawError, Names, ScriptFiles, ScriptLines, script_lines};
use run_canvas::{Canvas, Draft};
use run_script::draw;
use run_stops::further_told;
use std::alloc::Global;
use std::test::Fail;
use tests_rows::expect_scripts;

// The file in which each line stands: all in one.
fn files_of(alloc: Global, lines: &ScriptLines) -> Result<ScriptFiles, DrawError>
    ensures { IfOk result (λ files. length files ≡ length lines.now) }
{
    let mut files = ScriptFiles::new(alloc);
    files.put(alloc, "s", lines.len())?;
    Ok(files)
}

// The lines of a text that don't begin with a space.
fn heads(alloc: Global, text: &[u8]) -> Result<Vec<u8>, Fail> {
    let mut found = Vec::new(alloc);
    let mut begins = true;
    let mut is_kept = true;
    for b in text {
        if begins {
            is_kept = *b != b' ';
        }
        if is_kept {
            found.push(*b)?;
        }
        begins = *b == b'\n';
    }
    Ok(found)
}

// What is told of the lines behind the first refused one of a script that is drawn over the empty map, without the
// reasons.
fn further(alloc: Global, script: &str) -> Result<String, Fail> {
    let lines = script_lines(alloc, script.as_bytes())?;
    let files = files_of(alloc, &lines)?;
    let mut draft = Draft::new(alloc);
    let mut names = Names::new(alloc);
    let mut out = Vec::new(alloc);
    let Some(stop) = draw(alloc, &mut draft, &mut names, &lines, false, &mut out)? else {
        return Err(Fail::from("no line was refused"));
    };
    let first = Draft::new(alloc);
    let told = further_told(alloc, first.maps(), first.cap(), &lines, &files, &stop)?;
    Ok(String::from_utf8(heads(alloc, &told)?)?)
}

// Scripts, and which lines are told behind the first refused one. In turn: a place that is taken, where nothing that
// was left out frees it, or something might; how many items there are; the words alone; names; places; a number out of
// its range, and a sum; exchanged letters; a name that is given again; maps; shapes; and what changes no map.
const SCRIPTS: &str = "\
    room 0 0 64 64 0 128 FLOOR4_8 CEIL3_5 STARTAN3 160\nvertx 300 300\nvertex 0 0~s:3: vertex 0 0: 10 PlaceTaken\n^\
    vertex 0 0\nvertx 9 9\n\
    room 0 0 64 64 0 128 FLOOR4_8 CEIL3_5 STARTAN3 160~\
    s:3: room 0 0 64 64 0 128 FLOOR4_8 CEIL3_5 STARTAN3 160: 10 PlaceTaken\n^\
    vertex 0 0\ndrop line 5\nvertex 0 0~s:3: vertex 0 0: 10 PlaceTaken\n^\
    vertex 0 0\ndrop vertx 0\nvertex 0 0~^\
    vertex 0 0\ndrp vertex 0\nvertex 0 0~^\
    vertex 0 0\nremove vertex 0\nvertex 0 0~^\
    vertex 0 0\nmove-vertex 0 99999 0\nvertex 0 0~^\
    vertx 9 9\nvertex 0 0\nvertex 1 1\nmove-vertex 1 2 2\nvertex 0 0~^\
    vertex 0 0\nvertex 8 8\nvertx 9 9\nmove-vertex 0 8 8~^\
    vertex 0 0\nvertex 8 8\nthing 0 0 400 1 7\nmove-vertex 0 8 8~s:4: move-vertex 0 8 8: 10 PlaceTaken\n^\
    vertx 0 0\nline 0 1 1 0 0 0 -~^\
    thing 0 0 400 1 7\nline 0 1 1 0 0 0 -~s:2: line 0 1 1 0 0 0 -: 3 NoVertex\n^\
    vertx 0 0\nside 0 0 - - - 0~s:2: side 0 0 - - - 0: 4 NoSector\n^\
    secter 0 128 FLOOR4_8 CEIL3_5 160 0 0\nside 0 0 - - - 0~^\
    vertx 0 0\ndrop thing 0~s:2: drop thing 0: 7 NoThing\n^\
    thng 0 0 0 1 7\ndrop thing 0~^\
    room 0 0 64 64 0 128 FLOOR4_8 CEIL3_5 STARTAN3 160\nvertx 1 1\nline 0 0 1 0 0 0 -\nline 0 1 4 0 0 0 -\n\
    thing 0 0 400 1 7~s:3: line 0 0 1 0 0 0 -: 9 SameEnds\ns:4: line 0 1 4 0 0 0 -: 11 TwoSidedWithoutLeft\n\
    s:5: thing 0 0 400 1 7: 2 OutOfRange\n^\
    room 0 0 64 64 0 128 FLOOR4_8 CEIL3_5 STARTAN3 160\nvertx 1 1\nchange line 0 FLAGS=4~^\
    vertx 0 0\nlet far 99999\nvertex $far 0~s:3: vertex $far 0: 2 OutOfRange\n^\
    vertx 0 0\nfor k 1 1\nthing 0 0 400*$k 1 7\nend~s:3: thing 0 0 400*$k 1 7: 2 OutOfRange\n^\
    vertx 0 0\nv = vertex 5 5\nthing 0 0 400+$v*1 1 7~^\
    vertx 0 0\nat 16383 0\nvertex 1 0\nend~s:3: vertex 1 0: 2 OutOfRange\n^\
    vertx 0 0\nv = vertex 5 5\nat 16370+$v*1 0\nvertex 99 0\nend~^\
    vertx 0 0\nvertex $gap 0~s:2: vertex $gap 0: 22 UnknownName\n^\
    gap = vertx 0 0\nvertex $gap 0\nvertex $gapp 0~s:3: vertex $gapp 0: 22 UnknownName\n^\
    $gap = vertex 0 0\nvertex $gap 1~^\
    thing 0 0 400 1 7\nsplit $line(300,300) 1 1~s:2: split $line(300,300) 1 1: 45 NothingThere\n^\
    vertx 0 0\nsplit $line(300,300) 1 1~^\
    thing 0 0 400 1 7\nchange thing $thing(1,1) ANGLE=0~^\
    vertx 0 0\nvertex $late 0\nlate = vertex 9 9~s:2: vertex $late 0: 22 UnknownName\n^\
    h = room 0 0 64 64 0 128 FLOOR4_8 CEIL3_5 STARTAN3 160\nvertx 1 1\n\
    change sector $h LIGHT=300~s:3: change sector $h LIGHT=300: 2 OutOfRange\n^\
    h = room 0 0 64 64 0 128 FLOOR4_8 CEIL3_5 STARTAN3 160\nvertx 1 1\nlet x $h.line*8\n\
    thing $x 8 400 1 7~s:4: thing $x 8 400 1 7: 2 OutOfRange\n^\
    h = room 0 0 64 64 0 128 FLOOR4_8 CEIL3_5 STARTAN3 160\nvertx 1 1\nthing 0 0 359+$h.vertex+1 1 7~^\
    h = room 0 0 64 64 0 128 FLOOR4_8 CEIL3_5 STARTAN3 160\nvertx 1 1\nlet w 5\n\
    split $h.north $w/2 64~s:4: split $h.north $w/2 64: 46 BadSum\n^\
    h = room 0 0 64 64 0 128 FLOOR4_8 CEIL3_5 STARTAN3 160\nvertx 1 1\nthing (1+$h.vertex)/2 8 0 1 7~^\
    thign 0 0 0 1 7\nline 0 1 1 0 0 0 -~s:2: line 0 1 1 0 0 0 -: 3 NoVertex\n^\
    vertex 0 0\ndorp vertex 0\nvertex 0 0~^\
    let gap 8\nlet gap $step\nvertex $gap 0\nvertex 8 0\nthing 0 0 400 1 7~s:5: thing 0 0 400 1 7: 2 OutOfRange\n^\
    wall = vertex 0 0\ndrop wall 0\nvertex 0 0\nthing 0 0 400 1 7~s:4: thing 0 0 400 1 7: 2 OutOfRange\n^\
    define post X\nlet X $far\nvertex $X 0\nend\npost 1\nvertex 1 0\n\
    thing 0 0 400 1 7~s:7: thing 0 0 400 1 7: 2 OutOfRange\n^\
    map MAP2\ndrop-map MAP03\nvertex 0 0\nvertex 0 0~^\
    vertx 0 0\ndrop-map MAP03~s:2: drop-map MAP03: 18 NoSuchMap\n^\
    define post\nvertex 0 0\nend\npst\npost\npost~^\
    define post\nvertex 0 0\nend\nthing 0 0 400 1 7\npost\npost~s:2: vertex 0 0: 10 PlaceTaken\n^\
    define post\nvertex 0 0\nend\nthng 0 0 0 1 7\nside 0 0 - - - 0~s:5: side 0 0 - - - 0: 4 NoSector\n^\
    hex FOO\ndrop thing 9\nline 0 1 1 0 0 0 -~s:2: drop thing 9: 7 NoThing\ns:3: line 0 1 1 0 0 0 -: 3 NoVertex\n";

#[test]
fn tells_the_lines_that_hang_on_no_other(rt: HostRuntime) -> Result<(), Fail> {
    expect_scripts(rt.alloc(), SCRIPTS, further)
}
