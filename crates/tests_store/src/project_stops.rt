//! Calls that fail during the lines and checkpoints of a project, and what the project has when it is opened again.

use crate::disks::{expect_bytes, failing as failing_disk, length as length_of, stopped};
use crate::expect::{number, same, small};
use crate::project::{apply, apply_all, checkpoint};
use crate::small::{FILLS, SMALL, created, found, opened, vertices};
use std::alloc::Global;
use std::process::Abort;
use std::test::Fail;
use store_disk::{DeviceFault, Disk, FaultDisk, Fill, MemoryDisk};
use store_project::{Project, ProjectError};
use tests_rows::part;

/// A new project on a disk with an injected fault. The first 8 device calls are those of `create`.
pub type Failing = Project<FaultDisk<MemoryDisk>>;

/// A new project whose k-th device call fails, after the first `part` bytes of its write.
pub fn failing(alloc: Global, k: u64, part: u32) -> Result<Failing, Fail> {
    Ok(created(alloc, failing_disk(alloc, k, part)?, SMALL)?)
}

// The ways in which the four calls of an append can fail: the call, counted from the first one of `create`, and how
// many bytes it still writes; and whether the record's gate is open if all that was written stays.
const FAULTS: &str = "9 15 closed;10 0 closed;11 0 closed;11 1 open;12 0 open";

// The first line of a project fails, and the project accepts nothing from then on.
fn expect_closed<D: Disk>(rt: &impl Abort, project: &mut Project<D>) {
    let failed = apply(project, b"vertex 0 0");
    same(rt, &failed, &Err(ProjectError::Device));
    same(rt, &(project.must_reopen(), vertices(project)), &(true, 0));
    let further = [apply(project, b"vertex 1 0"), apply(project, b"no command")];
    same(rt, &further, &[Err(ProjectError::Reopen); 2]);
    same(rt, &checkpoint(project), &Err(ProjectError::Reopen));
}

// The same with the fault of a row.
fn expect_fault(rt: &impl Abort, alloc: Global, row: &str) -> Result<(), Fail> {
    let mut left = row;
    let (k, kept) = (number(rt, &mut left), small(rt, &mut left));
    expect_closed(rt, &mut failing(alloc, k, kept)?);
    Ok(())
}

#[test]
fn wants_to_be_opened_again_after_a_fault(rt: HostRuntime) -> Result<(), Fail> {
    for row in FAULTS.split(';') {
        expect_fault(&rt, rt.alloc(), row)?;
    }
    Ok(())
}

// Applies lines, and one more, during which a call fails.
fn fail_in<D: Disk>(
    rt: &impl Abort,
    project: &mut Project<D>,
    before: &str,
    line: &str,
) -> Result<(), Fail> {
    apply_all(project, before)?;
    let failed = apply(project, line.as_bytes());
    same(rt, &failed, &Err(ProjectError::Device));
    Ok(())
}

// The disk of a project after these lines, during the last of which a call failed.
fn failed(
    rt: &impl Abort,
    alloc: Global,
    fault: (u64, u32),
    before: &str,
    line: &str,
) -> Result<FaultDisk<MemoryDisk>, Fail> {
    let mut project = failing(alloc, fault.0, fault.1)?;
    fail_in(rt, &mut project, before, line)?;
    Ok(project.into_disk())
}

// A fill, and whether it keeps what was written but not synced.
const KEEPS: &[(Fill, bool)] = &[
    (Fill::Stable, false),
    (Fill::Written, true),
    (Fill::Byte(0), false),
    (Fill::Byte(165), true),
];

// How many vertices and how many maps the project of a disk has.
fn counts<D: Disk + Drop>(alloc: Global, disk: D) -> Result<[u32; 2], Fail> {
    let project = opened(alloc, disk)?;
    Ok([vertices(&project), project.maps().len()])
}

// The lines before one during which a call fails, how many device calls they make, that line, and how many vertices and
// maps the project has before it and after it.
const LINES: &str = "|0|vertex 0 0|0 1|1 1^|0|map MAP02|0 1|0 2^map MAP02|4|drop-map MAP01|0 2|0 1";

/// Opens the project of a disk after a failed call, after stops and without one: it has the counts `new` if what was
/// written is kept, and else `old`.
pub fn expect_counts(
    rt: &impl Abort,
    alloc: Global,
    disk: FaultDisk<MemoryDisk>,
    old: [u32; 2],
    new: [u32; 2],
) -> Result<(), Fail> {
    for &(fill, keeps) in KEEPS {
        let want = if keeps { new } else { old };
        let left = stopped(alloc, disk.inner(), fill, true)?;
        same(rt, &(fill, counts(alloc, left)?), &(fill, want));
    }
    same(rt, &counts(alloc, disk)?, &new);
    Ok(())
}

// Two counts of a row.
fn pair(rt: &impl Abort, text: &str) -> [u32; 2] {
    let mut left = text;
    [small(rt, &mut left), small(rt, &mut left)]
}

// The line of a row fails by a fault of the other row, and the project has what the first row says.
fn expect_failed(rt: &impl Abort, alloc: Global, row: &str, fault: &str) -> Result<(), Fail> {
    let (mut left, mut how) = (row, fault);
    let before = part(&mut left, '|');
    let calls = number(rt, &mut part(&mut left, '|'));
    let line = part(&mut left, '|');
    let old = pair(rt, part(&mut left, '|'));
    let new = pair(rt, left);
    let call = (
        number(rt, &mut how).saturating_add(calls),
        small(rt, &mut how),
    );
    let disk = failed(rt, alloc, call, before, line)?;
    expect_counts(rt, alloc, disk, old, if how == "open" { new } else { old })
}

#[test]
fn opens_again_after_a_fault(rt: HostRuntime) -> Result<(), Fail> {
    for row in LINES.split('^') {
        for fault in FAULTS.split(';') {
            expect_failed(&rt, rt.alloc(), row, fault)?;
        }
    }
    Ok(())
}

// A project of one vertex, whose k-th device call fails. The first 12 calls are those of `create` and of one append.
fn one_vertex(alloc: Global, k: u64, part: u32) -> Result<Failing, Fail> {
    let mut project = failing(alloc, k, part)?;
    apply(&mut project, b"vertex 0 0")?;
    Ok(project)
}

// The first device call after those of checkpoints with these generations.
const CALLS: &[(u64, &[u64])] = &[(18, &[2]), (25, &[2, 3])];

// Takes checkpoints, and tests that they have these generations.
fn take<D: Disk>(rt: &impl Abort, project: &mut Project<D>, generations: &[u64]) {
    for generation in generations {
        let found = (checkpoint(project), project.generation());
        same(rt, &found, &(Ok(*generation), *generation));
    }
}

// The disk of a project of one vertex after checkpoints with these generations.
fn disk_of_taken(
    rt: &impl Abort,
    alloc: Global,
    k: u64,
    generations: &[u64],
) -> Result<FaultDisk<MemoryDisk>, Fail> {
    let mut project = one_vertex(alloc, k, 0)?;
    take(rt, &mut project, generations);
    Ok(project.into_disk())
}

#[test]
fn changes_its_slot_by_five_calls_and_by_seven(rt: HostRuntime) -> Result<(), Fail> {
    for &(k, generations) in CALLS {
        let mut disk = disk_of_taken(&rt, rt.alloc(), k, generations)?;
        same(&rt, &(k, length_of(&mut disk)), &(k, Err(DeviceFault)));
    }
    Ok(())
}

// How many checkpoints come before one; the device call during it that fails, and how many bytes it still writes; an
// offset, and the bytes that the file then has there. The first checkpoint fills slot B and opens it; the second one
// closes slot A first.
const WRITES: &str = "0 13 0 80 \0\0\0;\
    0 13 36 80 \0\x02\0\0\0\0\0\0\0\x18\0\0\0\x02\0MAP01\0\0\0\0\0\0\0\0\0\x01\0\0\0\0\0\0\0;\
    0 14 0 80 \0\x02\0\0\0\0\0\0\0\x18\0\0\0\x02\0MAP01\0\0\0\0\0\0\0\0\0\x01\0\0\0\0\0\0\0;\
    0 16 0 80 \0\x02\0\0\0\0\0\0\0\x18\0\0\0\x02\0MAP01\0\0\0\0\0\0\0\0\0\x01\0\0\0\0\0\0\0;\
    0 16 1 80 \u{a5}\x02\0\0\0\0\0\0\0\x18\0\0\0\x02\0MAP01\0\0\0\0\0\0\0\0\0\x01\0\0\0\0\0\0\0;\
    0 17 0 80 \u{a5}\x02\0\0\0\0\0\0\0\x18\0\0\0\x02\0MAP01\0\0\0\0\0\0\0\0\0\x01\0\0\0\0\0\0\0;\
    0 17 0 16 \u{a5}\x01;0 17 0 144 \u{a5}\n;0 17 0 656 \0;\
    1 18 0 16 \u{a5}\x01;1 18 1 16 \0\x01;1 20 0 16 \0\x01;\
    1 20 36 16 \0\x03\0\0\0\0\0\0\0\x18\0\0\0\x02\0MAP01\0\0\0\0\0\0\0\0\0\x01\0\0\0\0\0\0\0;\
    1 21 0 144 \u{a5}\n;1 21 1 144 \0\n;\
    1 23 0 16 \0\x03\0\0\0\0\0\0\0\x18\0\0\0\x02\0MAP01\0\0\0\0\0\0\0\0\0\x01\0\0\0\0\0\0\0;\
    1 23 1 16 \u{a5}\x03\0\0\0\0\0\0\0\x18\0\0\0\x02\0MAP01\0\0\0\0\0\0\0\0\0\x01\0\0\0\0\0\0\0;\
    1 24 0 80 \u{a5}\x02";

// Takes `before` checkpoints, and one more, during which a call fails.
fn fail_to_take<D: Disk>(
    rt: &impl Abort,
    project: &mut Project<D>,
    before: u32,
) -> Result<(), Fail> {
    for _ in 0..before {
        checkpoint(project)?;
    }
    let refused = checkpoint(project);
    let found = (refused, project.must_reopen(), vertices(project));
    same(rt, &found, &(Err(ProjectError::Device), true, 1));
    Ok(())
}

// The disk of a project of one vertex after `before` checkpoints and one more, during which a call failed.
fn failed_checkpoint(
    rt: &impl Abort,
    alloc: Global,
    before: u32,
    k: u64,
    part: u32,
) -> Result<FaultDisk<MemoryDisk>, Fail> {
    let mut project = one_vertex(alloc, k, part)?;
    fail_to_take(rt, &mut project, before)?;
    Ok(project.into_disk())
}

// The checkpoint of a row fails, and the file then has its bytes.
fn expect_write(rt: &impl Abort, alloc: Global, row: &str) -> Result<(), Fail> {
    let mut left = row;
    let (before, k, kept) = (
        small(rt, &mut left),
        number(rt, &mut left),
        small(rt, &mut left),
    );
    let at = number(rt, &mut left);
    let mut disk = failed_checkpoint(rt, alloc, before, k, kept)?;
    expect_bytes(rt, alloc, &mut disk, row, at, left)
}

#[test]
fn fills_a_slot_and_then_opens_it(rt: HostRuntime) -> Result<(), Fail> {
    for row in WRITES.split(';') {
        expect_write(&rt, rt.alloc(), row)?;
    }
    Ok(())
}

// After a stop with any fill the project has this many vertices, and one of these generations: the first one if bytes
// that weren't synced are as before or zero, else the second.
fn expect_stops(
    rt: &impl Abort,
    alloc: Global,
    disk: &FaultDisk<MemoryDisk>,
    vertex_count: u32,
    generations: (u64, u64),
) -> Result<(), Fail> {
    for &fill in FILLS {
        let want = match fill {
            Fill::Stable | Fill::Byte(0) => generations.0,
            _ => generations.1,
        };
        let short = found(alloc, stopped(alloc, disk.inner(), fill, false)?)?;
        let long = found(alloc, stopped(alloc, disk.inner(), fill, true)?)?;
        same(
            rt,
            &(fill, [short, long]),
            &(fill, [(vertex_count, want); 2]),
        );
    }
    Ok(())
}

// The device call of a checkpoint that fails, how many bytes it still writes, and the generation of the project when it
// is opened again.
const STOPS: &str = "13 0 1;13 36 1;14 0 1;14 1 1;15 0 1;16 0 1;16 1 2;17 0 2";

#[test]
fn stops_within_a_checkpoint(rt: HostRuntime) -> Result<(), Fail> {
    for row in STOPS.split(';') {
        let mut left = row;
        let (k, kept) = (number(&rt, &mut left), small(&rt, &mut left));
        let generation = number(&rt, &mut left);
        let disk = failed_checkpoint(&rt, rt.alloc(), 0, k, kept)?;
        expect_stops(&rt, rt.alloc(), &disk, 1, (1, generation))?;
        same(
            &rt,
            &(row, found(rt.alloc(), disk)?),
            &(row, (1, generation)),
        );
    }
    Ok(())
}

// The disk of a project of one vertex after a checkpoint whose sync failed.
fn unsynced_disk(alloc: Global) -> Result<FaultDisk<MemoryDisk>, Fail> {
    let mut project = one_vertex(alloc, 15, 0)?;
    let _failed = checkpoint(&mut project);
    Ok(project.into_disk())
}

// That disk after a second vertex and one more checkpoint, during which the k-th call failed. The calls are counted
// from the opening, which makes 7; the append makes 4.
fn failed_again(
    rt: &impl Abort,
    alloc: Global,
    k: u64,
) -> Result<FaultDisk<FaultDisk<MemoryDisk>>, Fail> {
    let disk = unsynced_disk(alloc)?;
    let mut project = opened(alloc, FaultDisk::new(disk, k, 1))?;
    let applied = apply(&mut project, b"vertex 1 1");
    let refused = checkpoint(&mut project);
    let found = (k, applied.is_ok(), refused, vertices(&project));
    same(rt, &found, &(k, true, Err(ProjectError::Device), 2));
    Ok(project.into_disk())
}

// The device call that fails during a checkpoint after a failed one, and the generation of the project when it is
// opened again.
const AGAIN: &str = "12 1;13 1;14 1;15 2;16 2";

// A stop as a row says.
fn expect_again(rt: &impl Abort, alloc: Global, row: &str) -> Result<(), Fail> {
    let mut left = row;
    let (k, generation) = (number(rt, &mut left), number(rt, &mut left));
    let disk = failed_again(rt, alloc, k)?;
    expect_stops(rt, alloc, disk.inner(), 2, (1, generation))?;
    same(rt, &(k, found(alloc, disk)?), &(k, (2, generation)));
    Ok(())
}

#[test]
fn stops_within_a_checkpoint_after_one_that_failed(rt: HostRuntime) -> Result<(), Fail> {
    for row in AGAIN.split(';') {
        expect_again(&rt, rt.alloc(), row)?;
    }
    Ok(())
}
