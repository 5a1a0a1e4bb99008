//! Lines over maps in memory, and their answers.

use crate::editor::answered;
use std::test::Fail;
use tests_rows::expect_scripts;

// What is tested, on a line of its own, lines, and their answers.
const MAPS: &str = "\
    drawn lumps of an empty map\ncount\nhex THINGS\nhex LINEDEFS\nhex SIDEDEFS\nhex VERTEXES\nhex SECTORS\n\
    ~vertices 0 sectors 0 sides 0 lines 0 things 0\n-\n-\n-\n-\n-\n^\
    names and ranges\nname MAP00\nname E1M1\nsector 0 128 floor4_8 CEIL3_5 160 0 0\n\
    sector 40000 128 FLOOR4_8 CEIL3_5 160 0 0\nthing 64 64 90 1 7\nhex THINGS\n~no 15\nok 0\nno 15\nno 2\nok 0\n\
    40 00 40 00 5a 00 01 00 07 00\n^\
    a sector\nsector 0 128 FLOOR4_8 CEIL3_5 160 0 0\nhex SECTORS\n~ok 0\n\
    00 00 80 00 46 4c 4f 4f 52 34 5f 38 43 45 49 4c 33 5f 35 00 a0 00 00 00 00 00\n^\
    two rooms\nroom 0 0 128 128 0 128 FLOOR4_8 CEIL3_5 STARTAN3 160\nsector 0 128 FLOOR4_8 CEIL3_5 160 0 0\n\
    side 0 0 - - - 1\nside 0 0 - - STARTAN3 1\nset-side 2 0 0 - - - 0\nvertex 256 128\nvertex 256 0\n\
    set-line 2 2 3 4 0 0 2 4\nline 2 4 1 0 0 5 -\nline 4 5 1 0 0 5 -\nline 5 3 1 0 0 5 -\ncheck\n\
    set-sector 1 16 128 FLOOR4_8 CEIL3_5 160 0 0\ncheck\nset-sector 1 16 96 FLOOR4_8 CEIL3_5 160 0 0\n\
    check\nset-sector 0 0 128 FLOOR4_8 F_SKY1 160 0 0\nset-sector 1 16 96 FLOOR4_8 F_SKY1 160 0 0\n\
    thing 64 64 90 1 7\ncheck\n~ok 0\nok 1\nok 4\nok 5\nok 2\nok 4\nok 5\nok 2\nok 4\nok 5\nok 6\n\
    no player start\nfindings 1\nok 1\nline 2 right lower missing\nno player start\nfindings 2\nok 1\n\
    line 2 right upper missing\nline 2 right lower missing\nno player start\nfindings 3\nok 0\nok 1\nok 0\n\
    line 2 right lower missing\nfindings 1\n^\
    an open line\nvertex 0 0\nvertex 64 0\nsector 0 128 FLOOR4_8 CEIL3_5 160 0 0\nside 0 0 - - STARTAN3 0\n\
    line 0 1 4 0 0 0 -\nline 0 0 1 0 0 0 -\nline 0 2 1 0 0 0 -\nline 0 1 1 0 0 0 -\ncheck\n\
    set-line 0 0 1 0 0 0 0 0\n~ok 0\nok 1\nok 0\nok 0\nno 11\nno 9\nno 3\nok 0\nsector 0 open at vertex 0\n\
    sector 0 open at vertex 1\nno player start\nfindings 3\nok 0\n^\
    a drop\nvertex 0 0\nvertex 64 0\nvertex 128 0\nsector 0 128 FLOOR4_8 CEIL3_5 160 0 0\n\
    side 0 0 - - STARTAN3 0\nline 1 2 1 0 0 0 -\ndrop vertex 1\ndrop vertex 0\nhex LINEDEFS\nvertex 192 0\n\
    hex LINEDEFS\n~ok 0\nok 1\nok 2\nok 0\nok 0\nok 0\nno 8\nok 0\n00 00 01 00 01 00 00 00 00 00 00 00 ff ff\n\
    ok 2\n00 00 01 00 01 00 00 00 00 00 00 00 ff ff\n^\
    a vertex drawn after a drop\nvertex 0 0\nvertex 1 0\nvertex 2 0\ndrop vertex 0\nvertex 3 0\nhex VERTEXES\n\
    ~ok 0\nok 1\nok 2\nok 0\nok 2\n01 00 00 00 02 00 00 00 03 00 00 00\n^\
    refused lines\nvertex 0 0\nvertex 64 0\nvertex 128 0\nsector 0 128 FLOOR4_8 CEIL3_5 160 0 0\n\
    side 0 0 - - STARTAN3 0\nline 0 3 1 0 0 0 -\nline 0 3 1 0 0 1 -\nline 0 1 1 0 0 1 -\nline 0 1 1 0 0 0 1\n\
    line 0 1 1 0 0 0 -\nset-line 1 0 1 1 0 0 0 -\nhex LINEDEFS\n~ok 0\nok 1\nok 2\nok 0\nok 0\nno 3\nno 3\nno 5\n\
    no 5\nok 0\nno 6\n00 00 01 00 01 00 00 00 00 00 00 00 ff ff\n^\
    refused edits\nvertex 0 0\nvertex 64 0\nvertex 128 0\nsector 0 128 FLOOR4_8 CEIL3_5 160 0 0\n\
    side 0 0 - - STARTAN3 0\nline 0 1 1 0 0 0 -\nside 0 0 - - STARTAN3 1\nset-side 1 0 0 - - STARTAN3 1\n\
    set-side 1 0 0 - - STARTAN3 0\nset-sector 1 0 128 FLOOR4_8 CEIL3_5 160 0 0\nset-thing 0 64 64 90 1 7\n\
    drop vertex 3\ndrop vertex 1\ndrop sector 0\ndrop side 0\ndrop line 1\ndrop thing 0\n\
    move-vertex 3 0 1\nmove-vertex 1 0 0\nmove-vertex 1 64 0\n~ok 0\nok 1\nok 2\nok 0\nok 0\nok 0\nno 4\nno 4\n\
    no 5\nno 4\nno 7\nno 3\nno 8\nno 8\nno 8\nno 6\nno 7\nno 3\nno 10\nok 1\n^\
    drops of a side and a sector\nvertex 0 0\nvertex 64 0\nsector 0 128 FLOOR4_8 CEIL3_5 160 0 0\n\
    sector 0 128 FLOOR4_8 CEIL3_5 160 0 0\nside 0 0 - - STARTAN3 0\nside 0 0 - - STARTAN3 1\n\
    side 0 0 - - STARTAN3 0\nline 0 1 4 0 0 2 1\ndrop side 0\nhex LINEDEFS\nset-side 1 0 0 - - STARTAN3 1\n\
    drop sector 0\nhex SIDEDEFS\n~ok 0\nok 1\nok 0\nok 1\nok 0\nok 1\nok 2\nok 0\nok 0\n\
    00 00 01 00 04 00 00 00 00 00 01 00 00 00\nok 1\nok 0\n\
    00 00 00 00 2d 00 00 00 00 00 00 00 2d 00 00 00 00 00 00 00 53 54 41 52 54 41 4e 33 00 00 00 00 00 00 2d 00 00 \
    00 00 00 00 00 2d 00 00 00 00 00 00 00 53 54 41 52 54 41 4e 33 00 00\n^\
    long lines\nvertex -16384 0\nvertex 16383 0\nvertex -12000 -12000\nvertex 11169 11169\n\
    vertex 11170 11170\nsector 0 128 FLOOR4_8 CEIL3_5 160 0 0\nside 0 0 - - STARTAN3 0\nline 0 1 1 0 0 0 -\n\
    line 2 3 1 0 0 0 -\nline 2 4 1 0 0 0 -\nset-line 0 2 4 1 0 0 0 -\ndrop vertex 4\nmove-vertex 3 11170 11170\n\
    ~ok 0\nok 1\nok 2\nok 3\nok 4\nok 0\nok 0\nok 0\nok 1\nno 13\nno 13\nok 4\nno 13\n^\
    a split\nroom 0 0 128 128 0 128 FLOOR4_8 CEIL3_5 STARTAN3 160\nsplit 2 128 64\ncount\n~ok 0\nok 4\n\
    vertices 5 sectors 1 sides 4 lines 5 things 0\n^\
    many findings\nvertex 0 0\nvertex 1 0\nvertex 2 0\nvertex 3 0\nvertex 4 0\nvertex 5 0\nvertex 6 0\n\
    vertex 7 0\nvertex 8 0\nvertex 9 0\nvertex 10 0\ncheck\n~ok 0\nok 1\nok 2\nok 3\nok 4\nok 5\nok 6\nok 7\n\
    ok 8\nok 9\nok 10\nvertex 0 unused\nvertex 1 unused\nvertex 2 unused\nvertex 3 unused\nvertex 4 unused\n\
    vertex 5 unused\nvertex 6 unused\nvertex 7 unused\nvertex 8 unused\nvertex 9 unused\nvertex 10 unused\n\
    no player start\nfindings 12\n^\
    unused items\nsector 0 128 FLOOR4_8 CEIL3_5 160 0 0\nside 0 0 - - STARTAN3 0\nvertex 5 5\ncheck\ncheck \n\
    hex SEGS\ncounts\n~ok 0\nok 0\nok 0\nvertex 0 unused\nside 0 unused\nno player start\nfindings 3\nno 1\n\
    no 60\nno 1\n";

#[test]
fn answers_maps(rt: HostRuntime) -> Result<(), Fail> {
    expect_scripts(rt.alloc(), MAPS, answered)
}
