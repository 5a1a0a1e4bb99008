//! Runs whose commands are put on the disk together, over disks on which each call in turn fails.

use crate::expect::same;
use crate::streams::{Input, Output};
use crate::sweeping::{GEOMETRY, ROWS, Row, Way, failing, input, sweep_all};
use run_edit::run;
use std::alloc::Global;
use std::process::Abort;
use std::test::Fail;
use store_disk::{FaultDisk, MemoryDisk};
use store_project::Geometry;
use tests_rows::expect_scripts;
use tests_store::small::vertices;

// The answers to so many lines of which the first ones are on the disk.
fn answers(alloc: Global, kept: u32, count: u32) -> Result<Vec<u8>, Fail> {
    let mut text = Vec::new(alloc);
    for n in 0..count {
        if n < kept {
            let line = format!(in alloc; "ok {n}\n")?;
            text.extend_from_slice(line.as_bytes())?;
        } else if n == kept {
            text.extend_from_slice(b"no 30\n")?;
        } else {
            text.extend_from_slice(b"no 32\n")?;
        }
    }
    Ok(text)
}

// What a run left: how many vertices the project has, what it wrote, and the disk.
#[derive(Drop)]
struct Ended {
    count: u32,
    out: Vec<u8>,
    disk: FaultDisk<MemoryDisk>,
}

// Runs over a new project on a disk on which a call fails.
fn fail_within(
    alloc: Global,
    geometry: Geometry,
    lines: &[u8],
    fault: (u64, u32),
) -> Result<Ended, Fail> {
    let mut project = failing(alloc, geometry, fault)?;
    let (mut reader, mut out) = (Input::of(lines), Output::new(alloc));
    match run(alloc, &mut project, &mut reader, &mut out, 2) {
        Ok(_) => Ok(Ended {
            count: vertices(&project),
            out: out.written()?,
            disk: project.into_disk(),
        }),
        Err(_) => Err(Fail::from("the run didn't end")),
    }
}

// Lines that are fed to a run.
struct Running;

impl Way for Running {
    fn drawn<R: Abort>(
        &self,
        rt: &R,
        alloc: Global,
        row: &Row<'_>,
        fault: (u64, u32),
    ) -> Result<(u32, FaultDisk<MemoryDisk>), Fail> {
        let lines = input(alloc, row.count)?;
        let ended = fail_within(alloc, row.geometry(), &lines, fault)?;
        let wanted = answers(alloc, ended.count, row.count)?;
        same(
            rt,
            &(fault, ended.out.as_slice()),
            &(fault, wanted.as_slice()),
        );
        Ok((ended.count, ended.disk))
    }
}

#[test]
fn puts_all_or_nothing(rt: HostRuntime) -> Result<(), Fail> {
    sweep_all(&Running, &rt, rt.alloc(), ROWS)
}

// The call that fails, and the answers to lines of one turn: a refused line keeps its refusal unless it stands behind
// one that was answered `no 30`, and a query is answered about what is on the disk.
const MIXED: &str = "\
    9~no 1\nno 30\nno 32\nno 32\nno 32\nno 32\n^\
    12~no 1\nno 30\nno 32\nno 32\nno 32\nno 32\n^\
    13~no 1\nok 0\nno 10\nok 1\n0 MAP01\ncurrent 0\nno 30\n^\
    99~no 1\nok 0\nno 10\nok 1\n0 MAP01\ncurrent 0\nok 2\n";

// What a run over such lines writes.
fn answered(alloc: Global, call: &str) -> Result<String, Fail> {
    let lines = b"no command\nvertex 0 0\nvertex 0 0\nvertex 1 0\nmaps\nvertex 2 0\n".as_slice();
    let ended = fail_within(alloc, GEOMETRY, lines, (call.parse()?, 0))?;
    Ok(String::from_utf8(ended.out)?)
}

#[test]
fn answers_refused_lines_and_queries(rt: HostRuntime) -> Result<(), Fail> {
    expect_scripts(rt.alloc(), MIXED, answered)
}
