//! Scripts drawn onto projects, whose commands are put together, over disks on which each call in turn fails.

use crate::expect::same;
use crate::sweeping::{GEOMETRY, ROWS, Row, WITH_AN_AREA, Way, failing, input, sweep_all};
use map_blocks::Stop;
use map_script::{Names, script_lines};
use run_canvas::ProjectCanvas;
use run_script::draw;
use std::alloc::Global;
use std::process::Abort;
use std::test::Fail;
use store_disk::{FaultDisk, MemoryDisk};
use store_project::Geometry;
use tests_rows::{expect_scripts, part, script_meant};
use tests_store::small::vertices;

// What a drawing left: how many vertices the project has, the line that was refused, its code and the number of its
// blocks, what was written, and the disk.
#[derive(Drop)]
struct Ended {
    count: u32,
    stop: Option<(usize, u16, usize)>,
    out: Vec<u8>,
    disk: FaultDisk<MemoryDisk>,
}

// The place and the code of a stop, and how many blocks are told.
fn parts_of(stop: Option<Stop>) -> Option<(usize, u16, usize)> {
    match stop {
        Some(stop) => Some((stop.place, stop.code, stop.open.len())),
        None => None,
    }
}

// Draws onto a new project on a disk on which a call fails.
fn fail_within(
    alloc: Global,
    geometry: Geometry,
    script: &[u8],
    is_verbose: bool,
    fault: (u64, u32),
) -> Result<Ended, Fail> {
    let project = failing(alloc, geometry, fault)?;
    let lines = script_lines(alloc, script)?;
    let mut names = Names::new(alloc);
    let mut out = Vec::new(alloc);
    let mut canvas = ProjectCanvas::new(project);
    let drawn = draw(alloc, &mut canvas, &mut names, &lines, is_verbose, &mut out);
    let project = canvas.into_project();
    match drawn {
        Ok(stop) => Ok(Ended {
            count: vertices(&project),
            stop: parts_of(stop),
            out,
            disk: project.into_disk(),
        }),
        Err(_) => Err(Fail::from("the drawing was cut off")),
    }
}

// The stop at the first line that isn't on the disk.
fn wanted_stop(kept: u32, count: u32) -> Option<(usize, u16, usize)> {
    if kept < count {
        Some((kept as usize, 30, 0))
    } else {
        None
    }
}

// Lines of a script that is drawn: those of vertices, and behind them a shape that adds some of the vertices, if any.
#[derive(Drop)]
struct Scripted {
    shape: &'static [u8],
    added: u32,
}

impl Way for Scripted {
    fn drawn<R: Abort>(
        &self,
        rt: &R,
        alloc: Global,
        row: &Row<'_>,
        fault: (u64, u32),
    ) -> Result<(u32, FaultDisk<MemoryDisk>), Fail> {
        let mut script = input(alloc, row.count.saturating_sub(self.added))?;
        script.extend_from_slice(self.shape)?;
        let ended = fail_within(alloc, row.geometry(), &script, false, fault)?;
        same(
            rt,
            &(fault, ended.stop, ended.out.len()),
            &(fault, wanted_stop(ended.count, row.count), 0),
        );
        Ok((ended.count, ended.disk))
    }
}

#[test]
fn puts_all_or_nothing(rt: HostRuntime) -> Result<(), Fail> {
    let way = Scripted {
        shape: b"",
        added: 0,
    };
    sweep_all(&way, &rt, rt.alloc(), ROWS)
}

#[test]
fn puts_all_of_a_shape_or_nothing(rt: HostRuntime) -> Result<(), Fail> {
    let way = Scripted {
        shape: AREA,
        added: 4,
    };
    sweep_all(&way, &rt, rt.alloc(), WITH_AN_AREA)
}

const AREA: &[u8] = b"area 0 128 FLOOR4_8 CEIL3_5 STARTAN3 160 64 64 64 128 128 128 128 64\n";

// Scripts by their names. LONG is an area whose commands are longer than a journal.
const NAMED: &str = "\
    ASKING~let w 64\nvertex 0 $w\nvertex $w 0\nmaps\nroom 128 0 256 256 0 128 FLOOR4_8 CEIL3_5 STARTAN3 160\n\
    vertex 7 7\nvertex 7 7\n^\
    TOLD~vertex 0 0\nvertex 1 0\n^\
    LOOPED~for i 0 2\nthing $i 0 0 1 7\nvertex 0 0\nend\n^\
    LONG~area 0 128 FLOOR4_8 CEIL3_5 STARTAN3 160 0 0 0 64 8 128 32 160 64 192 128 192 160 160 192 128 192 64 160 32 \
    128 0 64 -32\n";

// A `+` if answers are written, else a `-`; the call that fails; a script; the stop, and what was written. The commands
// before a query are put before it is answered: four calls. Those of a shape are put with those of the lines before it.
// Where the answers are written, each line is put before the next.
const SCRIPTS: &str = "\
    -9 ASKING~Some((1, 30, 0)) ^\
    -12 ASKING~Some((1, 30, 0)) ^\
    -13 ASKING~Some((4, 30, 0)) 0 MAP01\ncurrent 0\n^\
    -16 ASKING~Some((4, 30, 0)) 0 MAP01\ncurrent 0\n^\
    -17 ASKING~Some((6, 10, 0)) 0 MAP01\ncurrent 0\n^\
    +9 TOLD~Some((0, 30, 0)) ^\
    +12 TOLD~Some((0, 30, 0)) ^\
    +13 TOLD~Some((1, 30, 0)) 1: ok 0\n^\
    +17 TOLD~None 1: ok 0\n2: ok 1\n^\
    -9 LOOPED~Some((1, 30, 0)) ^\
    -99 LOOPED~Some((2, 10, 1)) ^\
    +13 LOOPED~Some((2, 30, 0)) 2: ok 0\n^\
    -999 LONG~None ";

// The stop of a drawing, and what it wrote.
fn stopped(alloc: Global, row: &str) -> Result<String, Fail> {
    let mut script = row;
    let how = part(&mut script, ' ');
    let call = how.parse::<i32>()?;
    let script = script_meant(NAMED, script).as_bytes();
    let fault = (u64::from(call.unsigned_abs()), 0);
    let ended = fail_within(alloc, GEOMETRY, script, how.starts_with('+'), fault)?;
    let out = String::from_utf8(ended.out)?;
    Ok(format!(in alloc; "{:?} {out}", ended.stop)?)
}

#[test]
fn stops_at_the_first_line_that_is_lost(rt: HostRuntime) -> Result<(), Fail> {
    expect_scripts(rt.alloc(), SCRIPTS, stopped)
}
