//! The shapes of scripts: the commands that `door` and `change` become, and why a line is none.
ghost use Rattle.std.specs.Prelude.{All, IfOk};
ghost use Rattle.map_commands.specs.Step.{InRange};

use crate::drawing::drawn;
use map_commands::{Command, ProjectCommand, print};
use map_shapes::{ShapeError, commands_of, read_shape};
use map_tables::Map;
use std::alloc::Global;
use std::test::Fail;
use tests_rows::expect_rows;

// A hall, a cell and a door between them: sectors 0, 1 and 2. Lines 0 and 1 have the door on their left and on their
// right, lines 2 and 3 are its walls; line 4 is a step within the door, line 5 shows side 2 of line 2 too.
const LEVEL: &str = "sector 0 128 FLOOR4_8 CEIL3_5 160 0 0;sector 8 136 FLOOR4_8 CEIL3_5 160 0 0;\
    sector 4 100 FLOOR4_8 CEIL3_5 160 9 5;vertex 0 0;vertex 0 64;vertex 32 64;vertex 32 0;vertex 16 0;vertex 16 64;\
    vertex 99 0;side 1 2 - - - 0;side 0 0 - - - 1;side 3 4 - - STONE 2;side 5 6 UP LOW - 2;line 1 0 4 0 0 0 3;\
    line 2 3 4 7 8 3 1;line 1 2 1 0 0 2 -;line 3 0 17 0 0 3 -;line 4 5 4 0 0 2 3;line 3 6 1 0 0 2 -;thing 8 8 90 1 7";

// Lines, and the commands that each becomes over the level, each ended by `;`, or the code of its refusal.
const SHAPES: &str =
    "door 2 BIGDOOR2 DOORTRAK 31|set-sector 2 4 4 FLOOR4_8 CEIL3_5 160 9 5;set-side 0 1 2 BIGDOOR2 - - 0;\
    set-line 0 1 0 4 31 0 0 3;set-side 1 0 0 BIGDOOR2 - - 1;set-line 1 3 2 4 31 8 1 3;side 3 4 - - DOORTRAK 2;\
    set-line 2 1 2 17 0 0 4 -;side 5 6 UP LOW DOORTRAK 2;set-line 3 3 0 17 0 0 5 -;side 3 4 - - DOORTRAK 2;\
    set-line 5 3 6 17 0 0 6 -;\n\
    door 3 BIGDOOR2 DOORTRAK|no 4\ndoor 2 BIGDOOR2|no 1\ndoor 2 BIGDOOR2 DOORTRAK 1 1|no 1\n\
    door 4096 BIGDOOR2 DOORTRAK|no 2\ndoor 2 bigdoor DOORTRAK|no 15\ndoor 2 BIGDOOR2 DOORTRAK 32768|no 2\n\
    door|no 1\ndoor 02 BIGDOOR2 DOORTRAK|no 1\n\
    change sector 2 F=-24 LIGHT=96|set-sector 2 -24 100 FLOOR4_8 CEIL3_5 96 9 5;\n\
    change line 1 SPECIAL=11|set-line 1 2 3 4 11 8 3 1;\n\
    change line 1 LEFT=- FLAGS=1 V1=0|set-line 1 0 3 1 7 8 3 -;\n\
    change side 3 MID=SW1STRTN|set-side 3 5 6 UP LOW SW1STRTN 2;\n\
    change thing 0 ANGLE=90 X=-8 OPTIONS=15|set-thing 0 -8 8 90 1 15;\nchange vertex 6 Y=7|move-vertex 6 99 7;\n\
    change thing 0 ANGLE=0|set-thing 0 8 8 0 1 7;\nchange sector 3 F=0|no 4\nchange vertex 7 X=0|no 3\n\
    change side 4 SECTOR=0|no 5\nchange line 6 TAG=1|no 6\nchange thing 1 X=0|no 7\nchange sector 3 F=32768|no 2\n\
    change sector 4096 F=0|no 2\nchange sector 0 FN=a|no 15\nchange sector 4096 FN=a|no 2\n\
    change sector 4096 F=01|no 1\nchange sector 0 FN=a F=x|no 1\nchange sector 0|no 1\nchange sector|no 1\n\
    change|no 1\nchange sector 0 G=0|no 1\nchange sector 0 F=0 F=1|no 1\nchange sector 0 F|no 1\n\
    change sector 0 F=|no 1\nchange sector 0 =1|no 1\nchange sectors 0 F=0|no 1\nchange sector 0 F=1=1|no 1\n\
    change line 0 RIGHT=-|no 1\nchange sector 0  F=1|no 1\nchange side 0 F=1|no 1\n\
    area 0 128 FLOOR4_8 CEIL3_5 STARTAN3 160 0 0 0|no 1\narea 0 128 FLOOR4_8 CEIL3_5 STARTAN3 256 0 0 0 9 9 9|no 2\n\
    area 0 128 FLOOR4_8 CEIL3_5 STARTAN3 160 0 0 0 16384 9 9|no 2\n\
    area 0 128 FLOOR4_8 CEIL3_5 star 160 0 0 0 9 9 9|no 15\narea 0 128 FLOOR4_8|no 1\n\
    area 0 128 FLOOR4_8 CEIL3_5 STARTAN3 160 0 0 0 9|no 25\npillar|no 1\npillar STONE 0|no 1\n\
    pillar stone 0 0 0 9 9 9|no 15\npillar STONE 0 0 0 9 9 -16385|no 2\npillar STONE 0 0 0 9 0 0|no 25";

// The line of a command.
fn line_of(alloc: Global, command: &Command) -> Result<Vec<u8>, Fail>
    requires { InRange command.now }
{
    Ok(print(alloc, &ProjectCommand::Current(*command))?)
}

// The commands that a line becomes.
fn becomes(alloc: Global, map: &Map, line: &[u8]) -> Result<Vec<Command>, ShapeError>
    ensures { IfOk result (λ v. All InRange v.items) }
{
    let shape = read_shape(alloc, line)?;
    commands_of(alloc, map, &shape)
}

// The lines of commands, each ended by `;`.
fn joined(alloc: Global, commands: &[Command]) -> Result<String, Fail>
    requires { All InRange commands.now }
{
    let mut text = Vec::new(alloc);
    for command in commands {
        let line = line_of(alloc, command)?;
        text.extend_from_slice(&line)?;
        text.push(b';')?;
    }
    Ok(String::from_utf8(text)?)
}

// What a line becomes, as text.
fn found(alloc: Global, map: &Map, line: &str) -> Result<String, Fail> {
    match becomes(alloc, map, line.as_bytes()) {
        Ok(commands) => joined(alloc, &commands),
        Err(error) => Ok(format!(in alloc; "no {}", error.code())?),
    }
}

#[test]
fn make_commands(rt: HostRuntime) -> Result<(), Fail> {
    let maps = drawn(rt.alloc(), LEVEL)?;
    expect_rows(
        rt.alloc(),
        SHAPES,
        |alloc, line| found(alloc, maps.current(), line),
    )
}
