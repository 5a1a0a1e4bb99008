//! Lists of lines over disks on which each call in turn fails; the project is opened again without a stop and after
//! stops.

use crate::expect::same;
use crate::streams::{Input, Output};
use map_commands::{apply, parse};
use map_tables::Maps;
use run_edit::run;
use std::alloc::Global;
use std::process::Abort;
use std::test::Fail;
use store_disk::{Disk, FaultDisk, MemoryDisk};
use store_project::Project;
use tests_rows::script_halves;
use tests_store::small::{FILLS, SMALL, created, opened};

// A new project on a disk whose k-th call fails, after the first `part` bytes of its write. The first 8 calls are those
// of `create`.
fn failing(alloc: Global, k: u64, part: u32) -> Result<Project<FaultDisk<MemoryDisk>>, Fail> {
    let disk = MemoryDisk::new(alloc, 700, 6000)?;
    Ok(created(alloc, FaultDisk::new(disk, k, part), SMALL)?)
}

// The length of the longest body of a project with slots of 64 bytes.
const CAP: u32 = 51;

// Applies a line to maps in memory, if it is an accepted command.
fn draw(maps: &mut Maps, line: &[u8]) {
    if let Ok(command) = parse(line)
        && maps.body_len() <= CAP
    {
        let _ = apply(maps, &command, CAP);
    }
}

// Appends the body before each of these lines, and after the last one.
fn put_bodies(
    alloc: Global,
    maps: &mut Maps,
    lines: &str,
    bodies: &mut Vec<Vec<u8>>,
) -> Result<(), Fail> {
    bodies.push(maps.encode_body(alloc)?)?;
    for line in lines.split(';') {
        draw(maps, line.as_bytes());
        bodies.push(maps.encode_body(alloc)?)?;
    }
    Ok(())
}

// The body before each of these lines, and after the last one.
fn bodies(alloc: Global, lines: &str) -> Result<Vec<Vec<u8>>, Fail> {
    let mut maps = Maps::new(alloc);
    let mut bodies = Vec::new(alloc);
    put_bodies(alloc, &mut maps, lines, &mut bodies)?;
    Ok(bodies)
}

// Applies these lines up to the one during which a call fails, and returns how many were done. An empty line stands for
// a checkpoint.
fn done<D: Disk>(project: &mut Project<D>, lines: &str) -> usize {
    let mut n = 0_usize;
    for line in lines.split(';') {
        if line.is_empty() {
            let _ = project.checkpoint();
        } else {
            let _ = project.apply(line.as_bytes());
        }
        if project.must_reopen() {
            return n;
        }
        n = n.saturating_add(1);
    }
    n
}

// What the project on a disk may have: one of two bodies, and this generation or the next one.
#[derive(Drop)]
struct Wanted<'a> {
    old: &'a [u8],
    new: &'a [u8],
    generation: u64,
}

// The body and the generation of the project of a disk.
fn body_of<D: Disk + Drop>(alloc: Global, disk: D) -> Result<(Vec<u8>, u64), Fail> {
    let project = opened(alloc, disk)?;
    Ok((project.maps().encode_body(alloc)?, project.generation()))
}

// Opens the project of a disk, which must have what is wanted.
fn expect<D: Disk + Drop>(
    rt: &impl Abort,
    alloc: Global,
    disk: D,
    wanted: &Wanted<'_>,
) -> Result<(), Fail> {
    let (body, generation) = body_of(alloc, disk)?;
    assert!(rt; body.as_slice() == wanted.old || body.as_slice() == wanted.new);
    let further = generation.saturating_sub(wanted.generation);
    assert!(rt; generation >= wanted.generation && further <= 1);
    Ok(())
}

// Opens the project of a disk after stops of all kinds.
fn expect_stops(
    rt: &impl Abort,
    alloc: Global,
    disk: &MemoryDisk,
    wanted: &Wanted<'_>,
) -> Result<(), Fail> {
    for &fill in FILLS {
        expect(rt, alloc, disk.stop(alloc, fill, false)?, wanted)?;
        expect(rt, alloc, disk.stop(alloc, fill, true)?, wanted)?;
    }
    Ok(())
}

// The result of lines over a disk on which a call may fail: how many were done, whether all were, whether the project
// in memory then has the body before the failed line, its generation, and its disk.
#[derive(Drop)]
struct Ended {
    n: usize,
    is_done: bool,
    is_old: bool,
    generation: u64,
    disk: FaultDisk<MemoryDisk>,
}

// Applies these lines over a disk on which the call `fault` fails.
fn fail_within(
    alloc: Global,
    lines: &str,
    bodies: &[Vec<u8>],
    fault: (u64, u32),
) -> Result<Ended, Fail> {
    let mut project = failing(alloc, fault.0, fault.1)?;
    let n = done(&mut project, lines);
    let body = project.maps().encode_body(alloc)?;
    Ok(Ended {
        n,
        is_done: !project.must_reopen(),
        is_old: bodies.get(n).is_some_and(|old| *old == body),
        generation: project.generation(),
        disk: project.into_disk(),
    })
}

// What the project on the disk may then have; `bodies` are those before each line and after the last one.
fn wanted_of<'a>(bodies: &'a [Vec<u8>], ended: &Ended) -> Option<Wanted<'a>> {
    let old = bodies.get(ended.n)?;
    let new = bodies.get(ended.n.saturating_add(1)).unwrap_or(old);
    Some(Wanted {
        old,
        new,
        generation: ended.generation,
    })
}

// Opens the project again after stops, and, if a call has failed, without one. If none has, the injected fault would
// come during the opening.
fn expect_ended(
    rt: &impl Abort,
    alloc: Global,
    ended: Ended,
    wanted: &Wanted<'_>,
) -> Result<bool, Fail> {
    expect_stops(rt, alloc, ended.disk.inner(), wanted)?;
    let Ended { is_done, disk, .. } = ended;
    if !is_done {
        expect(rt, alloc, disk, wanted)?;
    }
    Ok(is_done)
}

// Applies these lines over a disk on which the call `fault` fails, and opens the project again. Returns whether all
// lines were done.
fn fail_once(
    rt: &impl Abort,
    alloc: Global,
    lines: &str,
    bodies: &[Vec<u8>],
    fault: (u64, u32),
) -> Result<bool, Fail> {
    let ended = fail_within(alloc, lines, bodies, fault)?;
    same(rt, &(fault, ended.is_old), &(fault, true));
    match wanted_of(bodies, &ended) {
        Some(wanted) => expect_ended(rt, alloc, ended, &wanted),
        None => Err(Fail::from("more lines than bodies")),
    }
}

// Lines, of which an empty one stands for a checkpoint, and how many bytes of a failing write are still written: none,
// one, half of a record or a slot, and all.
const MAPS: &str = "\
    vertex 0 0;map MAP02;vertex 1 1;drop-map MAP02;drop-map MAP01;name E1M1~0 1 7 9 99";

const CHECKPOINTS: &str = "\
    vertex 0 0;;;map MAP02;;drop-map MAP01;vertex 1 1;~0 1 7 9 18 27 99";

const FULL: &str = "\
    vertex 0 0;vertex 1 0;vertex 2 0;vertex 3 0;vertex 4 0;vertex 5 0;vertex 6 0;vertex 7 0;map MAP02;;vertex 0 0~\
    0 1 7 30 99";

// Fails each call of these lines in turn, from the call `first` on, after `part` bytes of its write.
fn sweep(rt: &impl Abort, alloc: Global, lines: &str, first: u64, part: u32) -> Result<(), Fail> {
    let bodies = bodies(alloc, lines)?;
    for k in first..400 {
        if fail_once(rt, alloc, lines, bodies.as_slice(), (k, part))? {
            return Ok(());
        }
    }
    Err(Fail::from("too many calls"))
}

// The same for each part.
fn sweep_parts(
    rt: &impl Abort,
    alloc: Global,
    lines: &str,
    first: u64,
    parts: &str,
) -> Result<(), Fail> {
    for part in parts.split(' ') {
        sweep(rt, alloc, lines, first, part.parse()?)?;
    }
    Ok(())
}

// The same for lines and parts in one text.
fn sweep_list(rt: &impl Abort, alloc: Global, list: &str) -> Result<(), Fail> {
    let (lines, parts) = script_halves(list);
    sweep_parts(rt, alloc, lines, 9, parts)
}

#[test]
fn keeps_each_acknowledged_line(rt: HostRuntime) -> Result<(), Fail> {
    sweep_list(&rt, rt.alloc(), MAPS)
}

#[test]
fn keeps_each_line_between_checkpoints(rt: HostRuntime) -> Result<(), Fail> {
    sweep_list(&rt, rt.alloc(), CHECKPOINTS)
}

#[test]
fn keeps_each_line_that_fills_a_slot(rt: HostRuntime) -> Result<(), Fail> {
    sweep_list(&rt, rt.alloc(), FULL)
}

// 34 records of four calls each fill a journal. For the line after them a checkpoint comes first.
const FILLING: &str = "\
    name MAP01;name MAP01;name MAP01;name MAP01;name MAP01;name MAP01;name MAP01;name MAP01;name MAP01;\
    name MAP01;name MAP01;name MAP01;name MAP01;name MAP01;name MAP01;name MAP01;name MAP01;name MAP01;\
    name MAP01;name MAP01;name MAP01;name MAP01;name MAP01;name MAP01;name MAP01;name MAP01;name MAP01;\
    name MAP01;name MAP01;name MAP01;name MAP01;name MAP01;name MAP01;name MAP01;name MAP01;name MAP01";

#[test]
fn keeps_each_line_that_fills_a_journal(rt: HostRuntime) -> Result<(), Fail> {
    sweep(&rt, rt.alloc(), FILLING, 9, 0)
}

// A write fails during the last line but one.
#[test]
fn keeps_the_line_that_has_no_room(rt: HostRuntime) -> Result<(), Fail> {
    sweep_parts(&rt, rt.alloc(), FILLING, 125, "1 7 16 99")
}

// Lines with their answers over a project whose body may have 51 bytes.
const ANSWERS: &str = "\
    vertex 0 0~ok 0\n^\
    count~vertices 1 sectors 0 sides 0 lines 0 things 0\n^\
    map MAP02~ok 1\n^\
    vertex 0 0~ok 0\n^\
    drop-map MAP02~no 19\n^\
    drop-map MAP01~ok 0\n^\
    maps~0 MAP02\ncurrent 0\n^\
    vertex 1 1~ok 1\n";

// The lines as the input of a run.
fn input(alloc: Global) -> Result<Vec<u8>, Fail> {
    let mut text = Vec::new(alloc);
    for row in ANSWERS.split('^') {
        let (line, _) = script_halves(row);
        text.extend_from_slice(line.as_bytes())?;
        text.push(b'\n')?;
    }
    Ok(text)
}

// The answers of a run if a call fails while line `n` and those behind it are put.
fn answers(alloc: Global, n: usize) -> Result<Vec<u8>, Fail> {
    let mut text = Vec::new(alloc);
    let mut at = 0_usize;
    for row in ANSWERS.split('^') {
        let (_, answer) = script_halves(row);
        let told = if at < n {
            answer
        } else if at == n {
            "no 30\n"
        } else {
            "no 32\n"
        };
        text.extend_from_slice(told.as_bytes())?;
        at = at.saturating_add(1);
    }
    Ok(text)
}

// The first line of those that are put while each call of a run fails, in turn: the queries part the commands into
// three groups, which make four calls each.
const FAILED: &str = "0 0 0 0 2 2 2 2 7 7 7 7 8 8 8 8";

// What a run over a disk writes whose k-th call fails.
fn told(alloc: Global, lines: &[u8], k: u64, part: u32) -> Result<Vec<u8>, Fail> {
    let mut project = failing(alloc, k, part)?;
    let (mut reader, mut out) = (Input::of(lines), Output::new(alloc));
    match run(alloc, &mut project, &mut reader, &mut out, 2) {
        Ok(8) => Ok(out.written()?),
        _ => Err(Fail::from("the run didn't answer eight lines")),
    }
}

// Whether a run on which the call `fault` fails writes the answers for a failure during line `n`.
fn is_told(alloc: Global, lines: &[u8], n: usize, fault: (u64, u32)) -> Result<bool, Fail> {
    let out = told(alloc, lines, fault.0, fault.1)?;
    let wanted = answers(alloc, n)?;
    Ok(out == wanted)
}

// Each call fails in turn, and the answers are tested.
fn expect_answers(rt: &impl Abort, alloc: Global, lines: &[u8], part: u32) -> Result<(), Fail> {
    let mut k = 9_u64;
    for n in FAILED.split(' ') {
        let found = is_told(alloc, lines, n.parse()?, (k, part))?;
        same(rt, &(k, part, found), &(k, part, true));
        k = k.saturating_add(1);
    }
    Ok(())
}

#[test]
fn answers_one_line_by_30(rt: HostRuntime) -> Result<(), Fail> {
    let lines = input(rt.alloc())?;
    for &part in &[0, 1, 99] {
        expect_answers(&rt, rt.alloc(), &lines, part)?;
    }
    Ok(())
}
