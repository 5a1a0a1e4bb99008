//! A slot and a journal that are full, and the last generation.

use crate::disks::{expect_bytes, length as length_of, write};
use crate::expect::{same, told};
use crate::project::{apply, checkpoint, disk_after};
use crate::small::{SMALL, created, empty_disk, found, opened, vertices};
use std::alloc::Global;
use std::process::Abort;
use std::test::Fail;
use store_disk::{DeviceFault, Disk, FaultDisk, MemoryDisk};
use store_project::{Project, ProjectError};
use tests_rows::part;

// Fills the journal with 34 records; the generation stays the same. The answer to one more line, and the generation
// then.
fn fill_journal<D: Disk>(
    rt: &impl Abort,
    project: &mut Project<D>,
) -> (Result<u32, ProjectError>, u64) {
    let generation = project.generation();
    for n in 0..34 {
        let answered = apply(project, b"name MAP01");
        same(
            rt,
            &(n, answered, project.generation()),
            &(n, Ok(0), generation),
        );
    }
    (apply(project, b"name MAP01"), project.generation())
}

// The disk of a new project after a line for which a checkpoint had to make room in the journal.
fn disk_with_room_made(rt: &impl Abort, alloc: Global) -> Result<MemoryDisk, Fail> {
    let mut project = created(alloc, empty_disk(alloc)?, SMALL)?;
    same(rt, &fill_journal(rt, &mut project), &(Ok(0), 2));
    Ok(project.into_disk())
}

#[test]
fn makes_room_by_a_checkpoint(rt: HostRuntime) -> Result<(), Fail> {
    let mut disk = disk_with_room_made(&rt, rt.alloc())?;
    let record = "\u{a5}\n\0\0\0name MAP01\0";
    expect_bytes(&rt, rt.alloc(), &mut disk, "a record", 656, record)
}

// Lines, and their answers. The body may have 51 bytes: room for seven vertices in one map, or for three in two maps;
// three maps don't fit.
const ONE_MAP: &str =
    "vertex 0 0=Ok(0);vertex 1 0=Ok(1);vertex 2 0=Ok(2);vertex 3 0=Ok(3);vertex 4 0=Ok(4);\
    vertex 5 0=Ok(5);vertex 6 0=Ok(6);vertex 7 0=Err(Refused(ProjectFull))";

const TWO_MAPS: &str = "map MAP02=Ok(1);map MAP03=Err(Refused(ProjectFull));\
    vertex 0 0=Ok(0);vertex 1 0=Ok(1);vertex 2 0=Ok(2);vertex 3 0=Err(Refused(ProjectFull))";

// Applies lines, tests the answer to each, and takes a checkpoint.
fn answer_all<D: Disk>(
    rt: &impl Abort,
    alloc: Global,
    project: &mut Project<D>,
    rows: &str,
) -> Result<(), Fail> {
    for row in rows.split(';') {
        let mut answer = row;
        let line = part(&mut answer, '=');
        told(rt, alloc, row, &apply(project, line.as_bytes()), answer)?;
    }
    same(rt, &checkpoint(project), &Ok(2));
    Ok(())
}

// The disk of a new project after these lines and a checkpoint.
fn disk_of_answered(rt: &impl Abort, alloc: Global, rows: &str) -> Result<MemoryDisk, Fail> {
    let mut project = created(alloc, empty_disk(alloc)?, SMALL)?;
    answer_all(rt, alloc, &mut project, rows)?;
    Ok(project.into_disk())
}

// How many maps the project of a disk has, which is current, and how many vertices the current map has.
fn maps_of<D: Disk + Drop>(alloc: Global, disk: D) -> Result<[u32; 3], ProjectError> {
    let project = opened(alloc, disk)?;
    let maps = project.maps();
    Ok([maps.len(), maps.current_number(), vertices(&project)])
}

#[test]
fn holds_what_fits_a_slot(rt: HostRuntime) -> Result<(), Fail> {
    let one = disk_of_answered(&rt, rt.alloc(), ONE_MAP)?;
    same(&rt, &maps_of(rt.alloc(), one)?, &[1, 0, 7]);
    let two = disk_of_answered(&rt, rt.alloc(), TWO_MAPS)?;
    same(&rt, &maps_of(rt.alloc(), two)?, &[2, 1, 3]);
    Ok(())
}

// A body of version 1 has one map. The next checkpoint writes it as version 2, of the same length.
#[test]
fn opens_a_file_of_one_map(rt: HostRuntime) -> Result<(), Fail> {
    let mut disk = disk_after(rt.alloc(), "vertex 0 0")?;
    write(&mut disk, 29, b"\x01")?;
    let mut disk = disk_after_checkpoint(&rt, rt.alloc(), disk)?;
    expect_bytes(&rt, rt.alloc(), &mut disk, "a body", 89, "\x18\0\0\0\x02\0")?;
    same(&rt, &found(rt.alloc(), disk)?, &(1, 2));
    Ok(())
}

// Opens the project of a disk, which has one vertex, and takes its first checkpoint.
fn disk_after_checkpoint(
    rt: &impl Abort,
    alloc: Global,
    disk: MemoryDisk,
) -> Result<MemoryDisk, Fail> {
    let mut project = opened(alloc, disk)?;
    same(
        rt,
        &(vertices(&project), checkpoint(&mut project)),
        &(1, Ok(2)),
    );
    Ok(project.into_disk())
}

// A project with the last generation, on a disk whose next call fails.
fn spent(alloc: Global) -> Result<Project<FaultDisk<MemoryDisk>>, Fail> {
    for k in 1..50 {
        let mut disk = disk_after(alloc, "")?;
        write(&mut disk, 17, &[255; 8])?;
        if let Ok(project) = Project::open(alloc, FaultDisk::new(disk, k, 0)) {
            return Ok(project);
        }
    }
    Err(ProjectError::Device.into())
}

// The disk of a project with the last generation, after a checkpoint that was refused.
fn spent_disk(rt: &impl Abort, alloc: Global) -> Result<FaultDisk<MemoryDisk>, Fail> {
    let mut project = spent(alloc)?;
    let found = (checkpoint(&mut project), project.generation());
    same(rt, &found, &(Err(ProjectError::GenerationsSpent), u64::MAX));
    Ok(project.into_disk())
}

// Fills the journal of such a project; the line for which it has no room is refused.
fn fill_spent<D: Disk + Drop>(rt: &impl Abort, alloc: Global, disk: D) -> Result<D, Fail> {
    let mut project = opened(alloc, disk)?;
    let (refused, _) = fill_journal(rt, &mut project);
    let found = (refused, project.must_reopen());
    same(rt, &found, &(Err(ProjectError::GenerationsSpent), false));
    Ok(project.into_disk())
}

#[test]
fn spends_its_generations(rt: HostRuntime) -> Result<(), Fail> {
    let mut disk = spent_disk(&rt, rt.alloc())?;
    same(&rt, &length_of(&mut disk), &Err(DeviceFault));
    let disk = fill_spent(&rt, rt.alloc(), disk)?;
    same(&rt, &found(rt.alloc(), disk)?, &(0, u64::MAX));
    Ok(())
}
