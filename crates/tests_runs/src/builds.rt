//! The queries `build`, `hex` and `maps` over drawn maps.

use crate::editor::answered;
use std::test::Fail;
use tests_rows::expect_scripts;

// What is tested, on a line of its own, lines, and their answers.
const BUILDS: &str = "\
    an empty map\nbuild\nhex SEGS\nhex ADDED\nhex THINGS\nmaps\nmaps \n~no 60\nno 60\nno 60\n-\n0 MAP01\n\
    current 0\nno 1\n^\
    a room\nroom 0 0 128 128 0 128 FLOOR4_8 CEIL3_5 STARTAN3 160\nbuild\nhex SSECTORS\nhex NODES\nhex REJECT\n\
    hex SEGS\nhex BLOCKMAP\nhex ADDED\n~ok 0\nbuilt vertices 4 segs 4 subsectors 1 nodes 0 bytes 515\n\
    04 00 00 00\n-\n00\n00 00 01 00 00 40 00 00 00 00 00 00 01 00 02 00 00 00 01 00 00 00 00 00 02 00 03 00 00 c0 02 \
    00 00 00 00 00 03 00 00 00 00 80 03 00 00 00 00 00\n\
    00 00 00 00 02 00 02 00 08 00 0e 00 13 00 18 00 00 00 00 00 01 00 02 00 03 00 ff ff 00 00 01 00 02 00 03 00 ff \
    ff 00 00 00 00 01 00 02 00 ff ff 00 00 01 00 02 00 ff ff\n-\n^\
    an L\nvertex 0 0\nvertex 0 256\nvertex 128 256\nvertex 128 128\nvertex 256 128\nvertex 256 0\n\
    sector 0 128 FLOOR4_8 CEIL3_5 160 0 0\nside 0 0 - - STARTAN3 0\nline 0 1 1 0 0 0 -\nline 1 2 1 0 0 0 -\n\
    line 2 3 1 0 0 0 -\nline 3 4 1 0 0 0 -\nline 4 5 1 0 0 0 -\nline 5 0 1 0 0 0 -\nbuild\nhex ADDED\n\
    hex SSECTORS\nhex NODES\n~ok 0\nok 1\nok 2\nok 3\nok 4\nok 5\nok 0\nok 0\nok 0\nok 1\nok 2\nok 3\nok 4\n\
    ok 5\nbuilt vertices 7 segs 7 subsectors 2 nodes 1 bytes 591\n80 00 00 00\n04 00 00 00 03 00 04 00\n\
    80 00 00 01 00 00 80 ff 00 01 00 00 00 00 80 00 80 00 00 00 80 00 00 01 00 80 01 80\n^\
    a cut with fractions\nvertex 0 0\nvertex 10 3\nvertex 4 10\nvertex 4 5\nvertex 4 -5\nvertex 4 -10\n\
    sector 0 128 FLOOR4_8 CEIL3_5 160 0 0\nside 0 0 - - - 0\nline 0 1 4 0 0 0 0\nline 2 3 1 0 0 0 -\n\
    line 4 5 1 0 0 0 -\nhex ADDED\nhex SSECTORS\nbuild\n~ok 0\nok 1\nok 2\nok 3\nok 4\nok 5\nok 0\nok 0\nok 0\n\
    ok 1\nok 2\n04 00 01 00\n02 00 00 00 01 00 02 00 02 00 03 00 01 00 05 00\n\
    built vertices 7 segs 6 subsectors 4 nodes 3 bytes 507\n^\
    a sliver\nvertex 10 0\nvertex 0 0\nvertex 8 17\nvertex 9 7\nsector 0 128 FLOOR4_8 CEIL3_5 160 0 0\n\
    side 0 0 - - STARTAN3 0\nline 0 1 1 0 0 0 -\nline 2 3 1 0 0 0 -\nbuild\nhex ADDED\n~ok 0\nok 1\nok 2\nok 3\n\
    ok 0\nok 0\nok 0\nok 1\nbuilt vertices 4 segs 2 subsectors 1 nodes 0 bytes 335\n-\n^\
    two rooms\nroom 0 0 128 128 0 128 FLOOR4_8 CEIL3_5 STARTAN3 160\nsector 0 128 FLOOR4_8 CEIL3_5 160 0 0\n\
    side 0 0 - - - 1\nside 0 0 - - STARTAN3 1\nset-side 2 0 0 - - - 0\nvertex 256 128\nvertex 256 0\n\
    set-line 2 2 3 4 0 0 2 4\nline 2 4 1 0 0 5 -\nline 4 5 1 0 0 5 -\nline 5 3 1 0 0 5 -\nbuild\nhex SSECTORS\n\
    ~ok 0\nok 1\nok 4\nok 5\nok 2\nok 4\nok 5\nok 2\nok 4\nok 5\nok 6\n\
    built vertices 6 segs 8 subsectors 2 nodes 1 bytes 769\n04 00 00 00 04 00 04 00\n^\
    the largest room\nroom 0 0 16256 16256 0 128 FLOOR4_8 CEIL3_5 STARTAN3 160\nbuild\n~ok 0\n\
    built vertices 4 segs 4 subsectors 1 nodes 0 bytes 33295\n^\
    a split\nroom 0 0 128 128 0 128 FLOOR4_8 CEIL3_5 STARTAN3 160\nsplit 2 128 64\nbuild\n~ok 0\nok 4\n\
    built vertices 5 segs 5 subsectors 1 nodes 0 bytes 549\n^\
    a line alone\nvertex 0 0\nvertex 256 256\nsector 0 128 FLOOR4_8 CEIL3_5 160 0 0\nside 0 0 - - STARTAN3 0\n\
    line 0 1 1 0 0 0 -\nbuild\nhex BLOCKMAP\n~ok 0\nok 1\nok 0\nok 0\nok 0\n\
    built vertices 2 segs 1 subsectors 1 nodes 0 bytes 319\n\
    00 00 00 00 03 00 03 00 0d 00 0d 00 10 00 0d 00 0d 00 0d 00 10 00 0d 00 0d 00 00 00 00 00 ff ff 00 00 ff ff\n^\
    too large a blockmap\nvertex -11520 -11520\nvertex 11520 11520\nsector 0 128 FLOOR4_8 CEIL3_5 160 0 0\n\
    side 0 0 - - STARTAN3 0\nline 0 1 1 0 0 0 -\nbuild\nhex SEGS\n~ok 0\nok 1\nok 0\nok 0\nok 0\nno 66\nno 66\n^\
    two maps\nroom 0 0 128 128 0 128 FLOOR4_8 CEIL3_5 STARTAN3 160\nmap MAP02\nbuild\n\
    room 0 0 128 128 0 128 FLOOR4_8 CEIL3_5 STARTAN3 160\nbuild\nmaps\nname MAP01\ndrop-map MAP02\n\
    drop-map E1M1\ndrop-map MAP01\nmaps\n~ok 0\nok 1\nno 60\nok 0\n\
    built vertices 8 segs 8 subsectors 2 nodes 0 bytes 1018\n0 MAP01\n1 MAP02\ncurrent 1\nno 17\nno 19\nno 18\n\
    ok 0\n0 MAP02\ncurrent 0\n^\
    lumps of the current map alone\nroom 0 0 128 128 0 128 FLOOR4_8 CEIL3_5 STARTAN3 160\nmap MAP02\nhex SEGS\n\
    map MAP01\nbuild\nhex SEGS\n~ok 0\nok 1\nno 60\nok 0\nno 60\n\
    00 00 01 00 00 40 00 00 00 00 00 00 01 00 02 00 00 00 01 00 00 00 00 00 02 00 03 00 00 c0 02 00 00 00 00 00 03 \
    00 00 00 00 80 03 00 00 00 00 00\n";

#[test]
fn builds_maps(rt: HostRuntime) -> Result<(), Fail> {
    expect_scripts(rt.alloc(), BUILDS, answered)
}
