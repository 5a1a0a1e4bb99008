//! Scripts, drawn onto maps in memory, and what is reported about a refused line.
ghost use Rattle.std.specs.Prelude.{◌≡◌, IfOk, length};

use map_script::{DrawError, Names, ScriptFiles, ScriptLines, script_lines};
use run_canvas::{Canvas, Draft};
use run_reasons::write_refused;
use run_script::draw;
use std::alloc::Global;
use std::test::Fail;
use tests_rows::{expect_scripts, expect_text, script_halves};

// The file in which each line stands: all in one.
fn files_of(alloc: Global, lines: &ScriptLines) -> Result<ScriptFiles, DrawError>
    ensures { IfOk result (λ files. length files ≡ length lines.now) }
{
    let mut files = ScriptFiles::new(alloc);
    files.put(alloc, "level.txt", lines.len())?;
    Ok(files)
}

// Draws lines: the output, and behind a `~` what is reported about the refused line.
fn draw_lines(alloc: Global, lines: &ScriptLines, verbose: bool) -> Result<Vec<u8>, Fail> {
    let mut draft = Draft::new(alloc);
    let mut names = Names::new(alloc);
    let mut out = Vec::new(alloc);
    let stop = draw(alloc, &mut draft, &mut names, lines, verbose, &mut out)?;
    out.push(b'~')?;
    if let Some(stop) = stop {
        let files = files_of(alloc, lines)?;
        write_refused(alloc, draft.maps(), &names, lines, &files, &stop, &mut out)?;
    }
    Ok(out)
}

// The same for a script.
fn draw_script(alloc: Global, script: &str, verbose: bool) -> Result<String, Fail> {
    let lines = script_lines(alloc, script.as_bytes())?;
    let out = draw_lines(alloc, &lines, verbose)?;
    Ok(String::from_utf8(out)?)
}

// The same for a script with a `+` before it if the answers to commands are printed, else with a `-`.
fn drawn(alloc: Global, row: &str) -> Result<String, Fail> {
    match row.strip_prefix('+') {
        Some(script) => draw_script(alloc, script, true),
        None => draw_script(alloc, row.strip_prefix('-').unwrap_or(row), false),
    }
}

// Scripts, the output, and what is reported about the refused line.
const SCRIPTS: &str = "\
    +\u{feff}# a level\r\n\r\n  vertex\t0   0 \r\n\t\nvertex 128 0 # the second\ncount~3: ok 0\n5: ok 1\n\
    vertices 2 sectors 0 sides 0 lines 0 things 0\n~^\
    +~~^\
    -hall = room 0 0 256 256 0 128 FLOOR4_8 CEIL3_5 STARTAN3 160\ncut = split $hall.line+2 256 128\n\
    vertex 9 $cut.vertex\ncount\n~vertices 6 sectors 1 sides 4 lines 5 things 0\n~^\
    +room 0 0 256 256 0 128 FLOOR4_8 CEIL3_5 STARTAN3 160\nwall = change line $line(256,128) SPECIAL=11\n\
    split $wall 256 128\nchange sector $sector(1,1) LIGHT=9 F=-8\nthing 8 9 0 1 7\n\
    change thing $thing(8,9) ANGLE=90\ndoor 0 BIGDOOR2 DOORTRAK~1: ok 0\n2: ok 2\n3: ok 4\n4: ok 0\n5: ok 0\n\
    6: ok 0\n~level.txt:7: door 0 BIGDOOR2 DOORTRAK: 29 NoDoor\n\
    \x20 no line has sector 0 on one side and another sector on the other\n^\
    +let w 64\nlet stone 0 128 FLOOR4_8 CEIL3_5 STARTAN3 160\narea $stone 0 0 0 2*$w 2*$w 2*$w 2*$w 0\n\
    change sector 0 LIGHT=$w-8\nwall = split $line($w,0) $w 0\nthing $w $w/2 90 1 7\ncount~3: ok 0\n4: ok 0\n\
    5: ok 4\n6: ok 0\nvertices 5 sectors 1 sides 4 lines 5 things 1\n~^\
    +h = room 16 32 48 96 0 128 FLOOR4_8 CEIL3_5 STARTAN3 160\nchange line $h.west TAG=1\n\
    change line $line(16,64) TAG=1\nchange line $h.north TAG=1\nchange line $line(32,96) TAG=1\n\
    change line $h.east TAG=1\nchange line $line(48,64) TAG=1\nchange line $h.south TAG=1\n\
    change line $line(32,32) TAG=1\nchange line $h.north+1 TAG=2~1: ok 0\n2: ok 0\n3: ok 0\n4: ok 1\n5: ok 1\n\
    6: ok 2\n7: ok 2\n8: ok 3\n9: ok 3\n10: ok 2\n~^\
    +at 0 0 90\nh = room 100 8 140 24 0 128 FLOOR4_8 CEIL3_5 STARTAN3 160\nchange line $h.west TAG=1\nend\n\
    change line $line(-24,120) TAG=1\nchange line $h.north TAG=1\nchange line $line(-16,140) TAG=1\n\
    change line $h.east TAG=1\nchange line $line(-8,120) TAG=1\nchange line $h.south TAG=1\n\
    change line $line(-16,100) TAG=1~2: ok 0\n3: ok 0\n5: ok 0\n6: ok 1\n7: ok 1\n8: ok 2\n9: ok 2\n10: ok 3\n\
    11: ok 3\n~^\
    +h = room 0 0 64 64 0 128 FLOOR4_8 CEIL3_5 STARTAN3 160\nlet v $h.vertex+3\nlet ends 0 2\n\
    line $h.vertex+2 1+$h.vertex 1 0 0 $h.side -\nline $v $h*2 1 0 0 ($h.side+1) -\n\
    line $ends 1 0 0 $h.side $h.side+1\nvertex $h $h.line+100\n\
    change line $h.north TAG=$h+7 RIGHT=$h.side+1~1: ok 0\n4: ok 4\n5: ok 5\n6: ok 6\n7: ok 4\n8: ok 1\n~^\
    -vertex 0 0\ncount\nsplt 2 256 160\nvertex 9 9\ncount\n~vertices 1 sectors 0 sides 0 lines 0 things 0\n\
    ~level.txt:3: splt 2 256 160: 1 NotACommand\n  perhaps this is meant: split LINE X Y\n^\
    +for i 0 1\n  for j 2 3\n    vertex $i*64 $j*64\n  end\nend\nfor k 1 0\n  vertex 9 9\nend\ncount~3: ok 0\n\
    3: ok 1\n3: ok 2\n3: ok 3\nvertices 4 sectors 0 sides 0 lines 0 things 0\n~^\
    +let span 7 8\nlet i 5\nfor i $span\n  let i 10*$i\n  thing $i 0 90 1 7\nend\nthing $i 0 90 1 7\n\
    change thing $thing(70,0) ANGLE=0\nchange thing $thing(80,0) ANGLE=0\n\
    change thing $thing(5,0) ANGLE=0~5: ok 0\n5: ok 1\n7: ok 2\n8: ok 0\n9: ok 1\n10: ok 2\n~^\
    +for i 0 0\nlet w 64\nv = vertex $w $i\nend\nvertex $v+8 $v\nvertex $w 0~3: ok 0\n5: ok 1\n\
    ~level.txt:6: vertex $w 0: 22 UnknownName\n  no line before has this name\n^\
    +for i 0 1\nvertex $i 0\nvertex 0 $i\nend~2: ok 0\n~level.txt:3: vertex 0 $i: 10 PlaceTaken\n\
    \x20 vertex 0 stands at 0 0\n  i = 0, level.txt:1\n^\
    +for = vertex 0 0\nend = vertex 1 1\nvertex $for+8 $end~1: ok 0\n2: ok 1\n3: ok 2\n~^\
    +vertex 0 0\nfor i 0 9\nfor j 0 9\nend\ncount~~level.txt:2: for i 0 9: 47 OpenBlock\n\
    \x20 a block without its end, an end without a block, a define in a block, or blocks more than 64 deep\n^\
    +at 10 20 90\nthing 1 2 300 1 7\nat -5 0 180\nvertex 3 4\nthing 0 0 270 2 7\nend\n\
    move-vertex $vertex(-8,-4) 0 0\nend\nhex THINGS\nvertex 14 12\nvertex 10 20~2: ok 0\n4: ok 0\n5: ok 1\n\
    7: ok 0\n08 00 15 00 1e 00 01 00 07 00 0a 00 0f 00 b4 00 02 00 07 00\n10: ok 1\n\
    ~level.txt:11: vertex 10 20: 10 PlaceTaken\n  vertex 0 stands at 10 20\n^\
    -for k 0 3\nat 0 0 90*$k\nroom 16 16 48 32 0 128 FLOOR4_8 CEIL3_5 STARTAN3 160\n\
    change line $line(32,16) TAG=$k+1\nthing 32 24 0 $k+1 7\nend\nend\nsplit $line(-16,32) -16 32\n\
    split $line(-32,-16) -32 -16\nsplit $line(16,-32) 16 -32\nchange thing $thing(-24,32) X=1\n\
    change thing $thing(24,-32) X=2\ncount~vertices 19 sectors 4 sides 16 lines 19 things 4\n~^\
    +at 16383 -16384 270\nvertex 0 0\nvertex 0 1\nend~2: ok 0\n~level.txt:3: vertex 0 1: 2 OutOfRange\n\
    \x20 16384 stands for X, a number from -16384 to 16383\n^\
    +at 16383 0\nat 1 0\nend\nend~~level.txt:2: at 1 0: 2 OutOfRange\n\
    \x20 at moves 0 0 to a place from -16384 to 16383\n^\
    +at 1 1\nlet w 8\nvertex $w $w\nend\nat = vertex 1 1\nvertex $at $w~3: ok 0\n5: ok 1\n\
    ~level.txt:6: vertex $at $w: 22 UnknownName\n  no line before has this name\n^\
    +vertex 0 0\nat 0 0\ncount~~level.txt:2: at 0 0: 47 OpenBlock\n\
    \x20 a block without its end, an end without a block, a define in a block, or blocks more than 64 deep\n^\
    +define column X Y\nvertex $X $Y\nvertex $X+8 $Y\nend\ncolumn 0 0\nfor i 1 2\ncolumn 16*$i 32\nend\n\
    count~2: ok 0\n3: ok 1\n2: ok 2\n3: ok 3\n2: ok 4\n3: ok 5\nvertices 6 sectors 0 sides 0 lines 0 things 0\n~^\
    +let w 8\nv = vertex 0 0\ndefine mark X\nv = vertex $X $w\nlet w 16\nvertex $X $w\nvertex $v+50 $X\nend\n\
    mark 1\nvertex $v+90 $w\nthing $vertex(51,1) $vertex(90,8) 0 1 7\nvertex $X 0~2: ok 0\n4: ok 1\n6: ok 2\n\
    7: ok 3\n10: ok 4\n11: ok 0\n~level.txt:12: vertex $X 0: 22 UnknownName\n  no line before has this name\n^\
    +define post\nthing 8 0 0 1 7\nend\nat 100 0 90\npost\nend\nhex THINGS~2: ok 0\n64 00 08 00 5a 00 01 00 07 00\n~^\
    +define row N\nfor i 1 $N\nlast = vertex $i 0\nend\nvertex $last 9\nend\nrow 3~3: ok 0\n3: ok 1\n3: ok 2\n\
    5: ok 3\n~^\
    +let x 5\ndefine a y\nlet x 7\nvertex $y $x\nend\na $x+1\nvertex 6 7~4: ok 0\n\
    ~level.txt:7: vertex 6 7: 10 PlaceTaken\n  vertex 0 stands at 6 7\n^\
    +let p 3 4\ndefine a X Y\nvertex $X $Y\nend\na $p\ndefine a\nvertex 1 1\nend\na\na $p~3: ok 0\n7: ok 1\n\
    ~level.txt:10: a $p: 1 NotACommand\n  it has 3 words in place of 1: a\n^\
    +define column X Y H\nvertex $X $Y\nend\nc = column 1 2~~level.txt:4: c = column 1 2: 1 NotACommand\n\
    \x20 it has 3 words in place of 4: column X Y H\n^\
    +thing 0 0 0 1 7\ndefine pair X\nlet n 3\nthing $X 0 0 $n 7\nv = vertex $X 9\nend\nn = pair 8\n\
    vertex $n+20 $n.vertex\nchange thing $n.thing ANGLE=90\nvertex $n.line 0~1: ok 0\n4: ok 1\n5: ok 0\n8: ok 1\n\
    9: ok 1\n~level.txt:10: vertex $n.line 0: 23 NothingAdded\n  the command of this name added no such item\n^\
    +define inner X\nvertex $X 0\nend\ndefine none\nlet x 1\nend\ndefine outer X\nvertex $X 1\np = inner $X+1\n\
    thing $p 0 0 1 7\ninner $X+2\nnone\nend\nfor i 0 1\nq = outer 10*$i\nend\nvertex $q+50 $q.vertex\n\
    vertex $p 0~8: ok 0\n2: ok 1\n10: ok 0\n2: ok 2\n8: ok 3\n2: ok 4\n10: ok 1\n2: ok 5\n17: ok 6\n\
    ~level.txt:18: vertex $p 0: 22 UnknownName\n  no line before has this name\n^\
    +vertex 0 0\ndefine none\ncount\nend\nn = none~1: ok 0\nvertices 1 sectors 0 sides 0 lines 0 things 0\n\
    ~level.txt:5: n = none: 23 NothingAdded\n  the shape has no command that answers a number\n^\
    +define post\nvertex 0 0\nend\n8 = post~~level.txt:4: 8 = post: 20 NotAName\n\
    \x20 a name is a letter, then letters, digits and _\n^\
    +define one\ntwo\nend\ndefine two\nvertex 0 0\nend\ntwo\none~5: ok 0\n~level.txt:2: two: 1 NotACommand\n\
    \x20 no command, no query and no shape known here begins with two\n  in one, level.txt:8\n^\
    +vertex 0 0\nfor i 0 1\ndefine a\nend\nend~~level.txt:3: define a: 47 OpenBlock\n\
    \x20 a block without its end, an end without a block, a define in a block, or blocks more than 64 deep\n^\
    +define vertex X\nend~~level.txt:1: define vertex X: 20 NotAName\n\
    \x20 NAME and each PARAM is a letter, then letters, digits and _, and no word of the language\n^\
    +for i 1 2\nfor j 1 9223372036854775807\nend\nend~~level.txt:2: for j 1 9223372036854775807: 48 TooManyLines\n\
    \x20 loops and shapes draw more than 1000000 lines\n  i = 1, level.txt:1\n";

// The same for scripts that are refused in blocks.
const IN_BLOCKS: &str = "\
    -for i 0 2\n  for j 5 7\n    thing $i*$j*2731 0 0 1 7\n  end\n\
    end~~level.txt:3: thing $i*$j*2731 0 0 1 7: 2 OutOfRange\n  16386 stands for X, a number from -16384 to 16383\n\
    \x20 j = 6, level.txt:2\n  i = 1, level.txt:1\n^\
    -define post X\n\n  at 8 8\n    thing $X 0 0 1 7\n  end\nend\nfor k -1 1\n  p = post 16376*$k\n\
    end~~level.txt:4: thing $X 0 0 1 7: 2 OutOfRange\n  16384 stands for X, a number from -16384 to 16383\n\
    \x20 in post, level.txt:8\n  k = 1, level.txt:7\n^\
    -for n -2 0\nvertex 0 $n*8193\nend~~level.txt:2: vertex 0 $n*8193: 2 OutOfRange\n\
    \x20 -16386 stands for Y, a number from -16384 to 16383\n  n = -2, level.txt:1\n^\
    -define none\nlet x 1\nend\ndefine outer\nn = none\nend\nfor i 3 4\nouter\n\
    end~~level.txt:5: n = none: 23 NothingAdded\n  the shape has no command that answers a number\n\
    \x20 in outer, level.txt:8\n  i = 3, level.txt:7\n^\
    -for i 0 1\nat 16383*$i 0\nat 1 0\nend\nend\nend~~level.txt:3: at 1 0: 2 OutOfRange\n\
    \x20 at moves 0 0 to a place from -16384 to 16383\n  i = 1, level.txt:1\n^\
    -define a X\nvertex $X 0\nend\nfor i 1 2\na $i 7\nend~~level.txt:5: a $i 7: 1 NotACommand\n\
    \x20 it has 3 words in place of 2: a X\n  i = 1, level.txt:4\n^\
    -define inner\nfor i 7 8\nvertex 0 $i/7\nend\nend\ndefine outer N\nfor i $N 9\ninner\nend\nend\nlet i 4\n\
    outer 2*$i~~level.txt:3: vertex 0 $i/7: 46 BadSum\n  $i/7: a quotient of the sum isn't a whole number\n\
    \x20 i = 8, level.txt:2\n  in inner, level.txt:8\n  i = 8, level.txt:7\n  in outer, level.txt:12\n^\
    -for i 0 1\nat 0 0\nend\nend\nend~~level.txt:5: end: 47 OpenBlock\n\
    \x20 a block without its end, an end without a block, a define in a block, or blocks more than 64 deep\n";

#[test]
fn draws_scripts(rt: HostRuntime) -> Result<(), Fail> {
    expect_scripts(rt.alloc(), SCRIPTS, drawn)
}

#[test]
fn tells_the_blocks_of_a_refused_line(rt: HostRuntime) -> Result<(), Fail> {
    expect_scripts(rt.alloc(), IN_BLOCKS, drawn)
}

// A line after `vertex 0 0`, `room 16 0 32 9 ..` and `v = vertex 9 9`, and the end of what is reported about it.
const REFUSED: &str = "\
    split 2 256~1 NotACommand\n  it has 3 words in place of 4: split LINE X Y\n^\
    vertex 00 0~1 NotACommand\n  00 stands for X, a whole number from -16384 to 16383\n^\
    thing 64.5 0 0 1 7~1 NotACommand\n  64.5 stands for X, a whole number from -16384 to 16383\n^\
    drop wall 0~1 NotACommand\n  wall stands for KIND: vertex, sector, side, line or thing\n^\
    linedef 0 1~1 NotACommand\n  perhaps this is meant: line V1 V2 FLAGS SPECIAL TAG RIGHT LEFT\n^\
    frame = count~1 NotACommand\n  a query answers no number that a name could keep\n^\
    corner 0 0~1 NotACommand\n  no command, no query and no shape known here begins with corner\n^\
    thing 0 0 400 1 7~2 OutOfRange\n  400 stands for ANGLE, a number from 0 to 359\n^\
    room 64 0 64 9 0 128 FLOOR4_8 CEIL3_5 STARTAN3 160~2 OutOfRange\n\
    \x20 X1 is to be less than X2, and Y1 less than Y2\n^\
    line 0 9 1 0 0 0 -~3 NoVertex\n  vertices of the map: 6, numbered from 0\n^\
    side 0 0 - - - 1~4 NoSector\n  sectors of the map: 1, numbered from 0\n^\
    drop vertex 1~8 InUse\n  line 0 begins at it\n^\
    drop side 3~8 InUse\n  line 3 has it as its right side\n^\
    drop sector 0~8 InUse\n  side 0 faces it\n^\
    vertex -16384 -16384\nvertex 16383 16383\nline 6 7 1 0 0 0 -~13 LineTooLong\n\
    \x20 from -16384 -16384 to 16383 16383 it is 46339 long, and a line is 32767 at most\n^\
    vertex $v 9\nvertex 9 9~10 PlaceTaken\n  vertex 5 stands at 9 9\n^\
    room 16 0 40 12 0 128 FLOOR4_8 CEIL3_5 STARTAN3 160~10 PlaceTaken\n  vertex 1 stands at 16 0\n^\
    name E0M1~15 BadName\n  E0M1 stands for a map's name: MAP01 to MAP99, or E1M1 to E9M9\n^\
    sector 0 128 FLOOR4_8 sky 160 0 0~15 BadName\n\
    \x20 sky stands for CN, a name of one to eight of A-Z, 0-9, _, -, [, ] and \\\n^\
    area 0 128 FLOOR4_8 CEIL3_5 STARTAN3 300 0 0 0 9 9 9~2 OutOfRange\n\
    \x20 300 stands for LIGHT, a number from 0 to 255\n^\
    pillar STONE2 0 0 0 9 9 99999~2 OutOfRange\n  99999 stands for Y, a number from -16384 to 16383\n^\
    change sector 0 F=0 LIGHT=256~2 OutOfRange\n  256 stands for LIGHT, a number from 0 to 255\n^\
    change sector 0 CN=sky~15 BadName\n  sky stands for CN, a name of one to eight of A-Z, 0-9, _, -, [, ] and \\\n^\
    change sector 0 LIGH=9~1 NotACommand\n\
    \x20 change KIND NUMBER NAME=VALUE .. has for a sector one or more of F C FN CN LIGHT SPECIAL TAG, each once, \
    without blanks round the =\n^\
    change sector v LIGHT=9~1 NotACommand\n  v stands for NUMBER, a whole number from 0 to 32766\n^\
    area 0 128 FLOOR4_8 CEIL3_5 STARTAN3 160 0,0 0,9 9,9~1 NotACommand\n\
    \x20 0,0 stands for X, a whole number from -16384 to 16383\n^\
    aera 0~1 NotACommand\n  perhaps this is meant: area F C FN CN WALL LIGHT X Y X Y X Y ..\n^\
    vertex $(v+2) 1~21 NotAReference\n  in a sum the $ stands before the name, as in ($NAME+2)\n^\
    door 0 BIGDOOR2~1 NotACommand\n\
    \x20 a word is missing, is too many or hasn't the form of its place in: door SECTOR FACE TRACK [SPECIAL]\n^\
    door 0 BIGDOOR2 DOORTRAK~29 NoDoor\n  no line has sector 0 on one side and another sector on the other\n^\
    door 1 BIGDOOR2 DOORTRAK~4 NoSector\n  sectors of the map: 1, numbered from 0\n^\
    change thing 0 X=0~7 NoThing\n  things of the map: 0, numbered from 0\n^\
    change line 0 FLAGS=4~11 TwoSidedWithoutLeft\n  the line is two-sided and has no left side\n^\
    change vertex 0 X=9 Y=9~10 PlaceTaken\n  vertex 5 stands at 9 9\n^\
    split $line(16,10) 16 10~45 NothingThere\n  no line runs through (16,10)\n^\
    line $vertex(0,0) $vertex(0,1) 1 0 0 0 -~45 NothingThere\n  no vertex stands at (0,1)\n^\
    drop thing $thing(-1,99999)~45 NothingThere\n  no thing stands at (-1,99999)\n^\
    drop sector $sector(40,5)~45 NothingThere\n  no sector is at (40,5)\n^\
    vertex ($vertex(4,4)+1)*2 0~45 NothingThere\n  ($vertex(4,4)+1)*2: nothing is at a place in it\n^\
    drop line $line(16,05)~46 BadSum\n  $line(16,05): a part of the sum isn't a number\n^\
    drop side $side(16,5)~21 NotAReference\n\
    \x20 a place is $vertex(X,Y), $line(X,Y), $sector(X,Y) or $thing(X,Y), with or without +N\n^\
    line $v $sector(20,5) 1 0 0 0 -~21 NotAReference\n  $sector(20,5) is a sector, and a vertex stands here\n^\
    h = room 64 0 80 9 0 128 FLOOR4_8 CEIL3_5 STARTAN3 160\nline $h 0 1 0 0 0 -~21 NotAReference\n\
    \x20 $h is a sector, and a vertex stands here; $h.vertex is its first vertex\n^\
    h = room 64 0 80 9 0 128 FLOOR4_8 CEIL3_5 STARTAN3 160\nset-line 0 0 1 1 0 0 $h.north+1 -~21 NotAReference\n\
    \x20 $h.north+1 is a line, and a side stands here\n^\
    define cell\nroom 64 0 80 9 0 128 FLOOR4_8 CEIL3_5 STARTAN3 160\nend\nc = cell\n\
    move-vertex $c 1 1~21 NotAReference\n  $c is a sector, and a vertex stands here; $c.vertex is its first vertex\n^\
    split 1+$v 9 9~21 NotAReference\n  1+$v is a vertex, and a line stands here\n^\
    let w ($v-1)\nset-side $w 0 0 - - - 0~21 NotAReference\n  $w is a vertex, and a side stands here\n^\
    let plain 0 0 - - -\nside $plain $v~21 NotAReference\n  $v is a vertex, and a sector stands here\n^\
    drop thing $line(16,5)~21 NotAReference\n  $line(16,5) is a line, and a thing stands here\n^\
    set-sector $v 0 1 - - 0 0 0~21 NotAReference\n  $v is a vertex, and a sector stands here\n^\
    change line 0 LEFT=$v~21 NotAReference\n  $v is a vertex, and a side stands here\n^\
    change thing $v X=0~21 NotAReference\n  $v is a vertex, and a thing stands here\n^\
    door $v.vertex BIGDOOR2 DOORTRAK~21 NotAReference\n  $v.vertex is a vertex, and a sector stands here\n^\
    split $v.north 9 9~23 NothingAdded\n\
    \x20 $v.north: north, east, south and west are walls of what a line NAME = room .. names\n^\
    define cell\nroom 64 0 80 9 0 128 FLOOR4_8 CEIL3_5 STARTAN3 160\nend\nc = cell\n\
    split $c.east 9 9~23 NothingAdded\n\
    \x20 $c.east: north, east, south and west are walls of what a line NAME = room .. names\n^\
    drop-map MAP01~19 CurrentMap\n  the map is the current one\n^\
    let x~1 NotACommand\n  this is its form: let NAME WORD ..\n^\
    let line 3~20 NotAName\n  NAME is a letter, then letters, digits and _, and no word of the language\n^\
    let x 3 $v/0~46 BadSum\n  $v/0: a quotient of the sum isn't a whole number\n^\
    vertex $v*2 $v+01~46 BadSum\n  $v+01: a part of the sum isn't a number\n^\
    split $hal 0 0~22 UnknownName\n  no line before has this name\n^\
    for i 0\nend~1 NotACommand\n  this is its form: for NAME FROM TO\n^\
    for end 0 1\nend~20 NotAName\n  NAME is a letter, then letters, digits and _, and no word of the language\n^\
    for i 0 $hal\nend~22 UnknownName\n  no line before has this name\n^\
    for i 0 x\nend~46 BadSum\n  FROM and TO are whole numbers of 64 bits\n^\
    at 0\nend~1 NotACommand\n  this is its form: at X Y [ANGLE]\n^\
    at 0 0 0 0\nend~1 NotACommand\n  this is its form: at X Y [ANGLE]\n^\
    at 0 -16385\nend~2 OutOfRange\n  at moves 0 0 to a place from -16384 to 16383\n^\
    at 0 0 45\nend~2 OutOfRange\n  ANGLE is 0, 90, 180 or 270\n^\
    at 0 x\nend~46 BadSum\n  X, Y and ANGLE are whole numbers\n^\
    at $v/0 0\nend~46 BadSum\n  $v/0: a quotient of the sum isn't a whole number\n^\
    end~47 OpenBlock\n  a block without its end, an end without a block, a define in a block, or blocks more than 64 \
    deep\n";

// The report about the line of a row, after those three, has the end that is wanted.
fn expect_said(alloc: Global, row: &str) -> Result<(), Fail> {
    let (line, said) = script_halves(row);
    let script = format!(in alloc;
        "vertex 0 0\nroom 16 0 32 9 0 128 FLOOR4_8 CEIL3_5 STARTAN3 160\nv = vertex 9 9\n{line}"
    )?;
    let found = draw_script(alloc, script.as_str(), false)?;
    if found.ends_with(said) {
        return Ok(());
    }
    expect_text(row, found.as_str(), said)
}

#[test]
fn says_what_was_wrong(rt: HostRuntime) -> Result<(), Fail> {
    for row in REFUSED.split('^') {
        expect_said(rt.alloc(), row)?;
    }
    Ok(())
}
