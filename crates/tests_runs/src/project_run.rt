//! Lines over a project.

use crate::expect::same;
use crate::streams::{Input, Output};
use run_edit::{EditorError, answer, build_after_any_stop, run};
use std::alloc::Global;
use std::process::Abort;
use std::test::Fail;
use store_disk::{Disk, FaultDisk, MemoryDisk};
use store_project::{Geometry, Project};
use tests_rows::{expect_scripts, script_halves};
use tests_store::small::{SMALL, created, empty_disk, found, vertices};

// A new project on a disk whose call with this number fails. The first 8 calls are those of `create`; an append makes
// 4, and its last one is its second sync.
fn failing(alloc: Global, call: u64) -> Result<Project<FaultDisk<MemoryDisk>>, Fail> {
    Ok(created(alloc, FaultDisk::new(empty_disk(alloc)?, call, 0), SMALL)?)
}

// Lines and their answers after a fault.
const LINES: &str = "\
    vertex 0 0~no 30\n^\
    vertex 1 0~no 32\n^\
    count~no 32\n^\
    hex VERTEXES~no 32\n^\
    maps~no 32\n^\
    build~no 32\n^\
    no command~no 32\n";

// The answer to a line over a project.
fn answered<D: Disk>(
    alloc: Global,
    project: &mut Project<D>,
    line: &[u8],
) -> Result<Vec<u8>, Fail> {
    let mut out = Output::new(alloc);
    answer(alloc, project, line, &mut out)?;
    Ok(out.written()?)
}

// Tests the answer to each line.
fn answer_all<D: Disk>(
    rt: &impl Abort,
    alloc: Global,
    project: &mut Project<D>,
) -> Result<(), Fail> {
    for row in LINES.split('^') {
        let (line, wanted) = script_halves(row);
        let out = answered(alloc, project, line.as_bytes())?;
        same(rt, &(line, out.as_slice()), &(line, wanted.as_bytes()));
    }
    same(rt, &vertices(project), &0);
    Ok(())
}

#[test]
fn answers_no_line_after_a_fault(rt: HostRuntime) -> Result<(), Fail> {
    let mut project = failing(rt.alloc(), 12)?;
    answer_all(&rt, rt.alloc(), &mut project)?;
    // Without a stop, the project has the vertex when it is opened again.
    assert_eq!(rt; found(rt.alloc(), project.into_disk())?, (1, 1));
    Ok(())
}

// The device call that fails; how a run over the project ends, how many vertices the project then has, and what the run
// writes. The lines before the query are put together, by four calls, and the one behind it by four others.
const RUNS: &str = "\
    9~Ok(4) 0 no 30\nno 32\nno 32\nno 32\n^\
    12~Ok(4) 0 no 30\nno 32\nno 32\nno 32\n^\
    13~Ok(4) 2 ok 0\nok 1\nvertices 2 sectors 0 sides 0 lines 0 things 0\nno 30\n^\
    99~Ok(4) 3 ok 0\nok 1\nvertices 2 sectors 0 sides 0 lines 0 things 0\nok 2\n";

// Runs over such a project.
fn run_over(alloc: Global, call: &str) -> Result<String, Fail> {
    let mut project = failing(alloc, call.parse()?)?;
    let mut input = Input::of(b"vertex 0 0\nvertex 1 0\ncount\nvertex 2 0\n");
    let mut out = Output::new(alloc);
    let answered = run(alloc, &mut project, &mut input, &mut out, 2);
    let count = vertices(&project);
    let out = String::from_utf8(out.written()?)?;
    Ok(format!(in alloc; "{answered:?} {count} {out}")?)
}

#[test]
fn runs_over_a_project(rt: HostRuntime) -> Result<(), Fail> {
    expect_scripts(rt.alloc(), RUNS, run_over)
}

#[test]
fn keeps_what_it_could_not_tell(rt: HostRuntime) -> Result<(), Fail> {
    let mut project = failing(rt.alloc(), 99)?;
    let mut none = Output::of(rt.alloc(), 0);
    let told = answer(rt.alloc(), &mut project, b"vertex 0 0", &mut none);
    assert_eq!(rt;
        (told, vertices(&project)),
        (Err(EditorError::WriterFailed), 1)
    );
    Ok(())
}

// Runs over a new project until the writer, which takes this many bytes, fails: how many vertices the project has then,
// and how many when it is opened again.
fn kept_after(alloc: Global, input: &[u8], room: usize) -> Result<[u32; 2], Fail> {
    let mut project = failing(alloc, 99)?;
    let (mut reader, mut writer) = (Input::of(input), Output::of(alloc, room));
    match run(alloc, &mut project, &mut reader, &mut writer, 2) {
        Err(EditorError::WriterFailed) => {}
        _ => return Err(Fail::from("the run didn't end by the writer")),
    }
    let kept = vertices(&project);
    Ok([kept, found(alloc, project.into_disk())?.0])
}

// Input, how many bytes the writer takes, and how many lines are kept: those that were put with the one whose answer
// couldn't be written.
const KEPT: &[(&[u8], usize, u32)] = &[
    (b"vertex 1 0\nvertex 2 0\nvertex 3 0\n", 7, 3),
    (b"vertex 0 0\nvertex 128 0\nhex VERTEXES\n", 2, 2),
];

#[test]
fn looks_at_no_line_behind_a_failed_answer(rt: HostRuntime) -> Result<(), Fail> {
    for &(input, room, count) in KEPT {
        let kept = kept_after(rt.alloc(), input, room)?;
        same(&rt, &(input, kept), &(input, [count, count]));
    }
    Ok(())
}

// The disk of a project of one room.
fn disk_of_room(alloc: Global) -> Result<MemoryDisk, Fail> {
    let geometry = Geometry {
        slot: 300,
        journal: 512,
    };
    let mut project = created(alloc, empty_disk(alloc)?, geometry)?;
    project.apply(b"room 0 0 128 128 0 128 FLOOR4_8 CEIL3_5 STARTAN3 160")?;
    Ok(project.into_disk())
}

// How long the PWAD built from the project of a room is, and how an empty disk is refused.
fn built(alloc: Global) -> Result<(usize, Option<u16>), Fail> {
    let wad = build_after_any_stop(alloc, disk_of_room(alloc)?).wad?;
    let refused = build_after_any_stop(alloc, empty_disk(alloc)?).wad.err();
    Ok((wad.len(), refused.map(|error| error.code())))
}

#[test]
fn builds_what_a_disk_holds(rt: HostRuntime) -> Result<(), Fail> {
    let found = built(rt.alloc())?;
    assert_eq!(rt; found, (515, Some(42)));
    Ok(())
}
