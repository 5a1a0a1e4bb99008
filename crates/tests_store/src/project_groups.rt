//! Groups of a project's lines: what is answered to them, and what stops leave when a call of a put fails.
ghost use Rattle.store_project.specs.Groups.{IsGroupFor};

use crate::disks::{expect_bytes, length as length_of};
use crate::expect::{number, same, small};
use crate::project::apply;
use crate::project_stops::{expect_counts, failing};
use crate::small::{SMALL, created, empty_disk, found, vertices};
use map_commands::CommandError;
use std::alloc::Global;
use std::process::Abort;
use std::test::Fail;
use store_disk::{DeviceFault, Disk, FaultDisk, MemoryDisk};
use store_project::{Project, ProjectError, ProjectGroup};

// A line, and what `stage` answers to it.
type Answer = (&'static [u8], Result<Option<u32>, ProjectError>);

const NO_COMMAND: ProjectError = ProjectError::Refused(CommandError::NotACommand);

const NO_VERTEX: ProjectError = ProjectError::Refused(CommandError::NoVertex);

// The numbers are those after the lines before.
#[rattlefmt::skip]
const LINES: &[Answer] = &[
    (b"drop vertex 0", Err(NO_VERTEX)), (b"vertex 0 0", Ok(Some(0))), (b"no command", Err(NO_COMMAND)),
    (b"vertex 1 0", Ok(Some(1))), (b"drop vertex 2", Err(NO_VERTEX)),
];

// What the accepted ones are in a journal.
const RECORDS: &str = "\u{a5}\n\0\0\0vertex 0 0\u{a5}\n\0\0\0vertex 1 0\0";

// Stages lines, and tests their answers. The project has none of them yet, and so many vertices.
fn expect_staged<D: Disk>(
    rt: &impl Abort,
    project: &Project<D>,
    group: &mut ProjectGroup,
    lines: &[Answer],
    had: u32,
)
    requires { IsGroupFor project.now group.old }
    ensures { IsGroupFor project.now group.new }
{
    for &(line, wanted) in lines {
        let found = project.stage(group, line);
        same(rt, &(line, found, vertices(project)), &(line, wanted, had));
    }
}

// Puts the lines in one group, and returns how that ended and how many vertices the project then has.
fn put_lines<D: Disk>(
    rt: &impl Abort,
    project: &mut Project<D>,
) -> Result<(Result<(), ProjectError>, u32), ProjectError> {
    let mut group = project.begin_group()?;
    expect_staged(rt, project, &mut group, LINES, 0);
    let ended = project.put(group);
    Ok((ended, vertices(project)))
}

// Lines behind those.
#[rattlefmt::skip]
const MORE: &[Answer] = &[
    (b"vertex 1 0", Err(PLACE_TAKEN)), (b"vertex 2 0", Ok(Some(2))), (b"drop vertex 0", Ok(Some(0))),
];

const PLACE_TAKEN: ProjectError = ProjectError::Refused(CommandError::PlaceTaken);

// Puts the lines in one group, and more in the group that is given back. Returns whether one was.
fn put_twice<D: Disk>(rt: &impl Abort, project: &mut Project<D>) -> Result<bool, ProjectError> {
    let mut group = project.begin_group()?;
    expect_staged(rt, project, &mut group, LINES, 0);
    let Some(mut next) = project.put_and_begin(group)? else {
        return Ok(false);
    };
    expect_staged(rt, project, &mut next, MORE, 2);
    let ended = project.put(next);
    same(rt, &(ended, vertices(project)), &(Ok(()), 2));
    Ok(true)
}

#[test]
fn goes_on_behind_a_group(rt: HostRuntime) -> Result<(), Fail> {
    let mut project = created(rt.alloc(), empty_disk(rt.alloc())?, SMALL)?;
    same(&rt, &put_twice(&rt, &mut project)?, &true);
    same(&rt, &found(rt.alloc(), project.into_disk())?, &(2, 1));
    Ok(())
}

// The disk of a new project that has put the lines, whose k-th device call fails.
fn disk_after_put(rt: &impl Abort, alloc: Global, k: u64) -> Result<FaultDisk<MemoryDisk>, Fail> {
    let mut project = failing(alloc, k, 0)?;
    same(rt, &put_lines(rt, &mut project)?, &(Ok(()), 2));
    Ok(project.into_disk())
}

// The first 8 device calls are those of `create`.
#[test]
fn puts_a_group_by_four_calls(rt: HostRuntime) -> Result<(), Fail> {
    let mut disk = disk_after_put(&rt, rt.alloc(), 13)?;
    same(&rt, &length_of(&mut disk), &Err(DeviceFault));
    expect_bytes(&rt, rt.alloc(), &mut disk, "a group", 144, RECORDS)
}

// The ways in which the four calls can fail: the call, and how many bytes it still writes; and whether the group's
// first gate is open if all that was written stays.
const FAULTS: &str =
    "9 0 closed;9 15 closed;9 30 closed;10 0 closed;11 0 closed;11 1 open;12 0 open";

// The disk of a project, during whose put of the lines the call fails.
fn disk_after_fault(
    rt: &impl Abort,
    alloc: Global,
    k: u64,
    part: u32,
) -> Result<FaultDisk<MemoryDisk>, Fail> {
    let mut project = failing(alloc, k, part)?;
    let ended = put_lines(rt, &mut project)?;
    same(rt, &(k, ended), &(k, (Err(ProjectError::Device), 0)));
    let further = (
        apply(&mut project, b"vertex 0 0"),
        project.begin_group().is_ok(),
    );
    same(rt, &(k, further), &(k, (Err(ProjectError::Reopen), false)));
    Ok(project.into_disk())
}

// The put fails as a row says.
fn expect_fault(rt: &impl Abort, alloc: Global, row: &str) -> Result<(), Fail> {
    let mut left = row;
    let (k, kept) = (number(rt, &mut left), small(rt, &mut left));
    let disk = disk_after_fault(rt, alloc, k, kept)?;
    let new = if left == "open" { [2, 1] } else { [0, 1] };
    expect_counts(rt, alloc, disk, [0, 1], new)
}

#[test]
fn keeps_all_of_a_group_or_none(rt: HostRuntime) -> Result<(), Fail> {
    for row in FAULTS.split(';') {
        expect_fault(&rt, rt.alloc(), row)?;
    }
    Ok(())
}

// Stages a line 34 times, and once more, for which the journal has no room.
fn fill_group<D: Disk>(rt: &impl Abort, project: &Project<D>, group: &mut ProjectGroup)
    requires { IsGroupFor project.now group.old }
    ensures { IsGroupFor project.now group.new }
{
    for n in 0..34 {
        same(
            rt,
            &(n, project.stage(group, b"name MAP01")),
            &(n, Ok(Some(0))),
        );
    }
    same(rt, &project.stage(group, b"name MAP01"), &Ok(None));
}

// Puts a group that fills the journal, and then applies a line for which a checkpoint makes room.
fn fill_and_apply<D: Disk>(rt: &impl Abort, project: &mut Project<D>) -> Result<(), ProjectError> {
    let mut group = project.begin_group()?;
    fill_group(rt, project, &mut group);
    same(
        rt,
        &(project.put(group), project.generation()),
        &(Ok(()), 1),
    );
    let answered = apply(project, b"name MAP01");
    same(rt, &(answered, project.generation()), &(Ok(0), 2));
    Ok(())
}

#[test]
fn fills_the_journal_by_a_group(rt: HostRuntime) -> Result<(), Fail> {
    let mut project = created(rt.alloc(), empty_disk(rt.alloc())?, SMALL)?;
    fill_and_apply(&rt, &mut project)?;
    Ok(())
}
