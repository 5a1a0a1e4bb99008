//! A project: its file, and how files that are no project or are damaged are refused.

use crate::disks::{bytes_from, expect_bytes, holding, length as length_of, stopped, write};
use crate::expect::{bytes_of, number, same, small, told};
use crate::small::{FILLS, SMALL, created, empty_disk, found, vertices};
use map_commands::CommandError;
use map_tables::{Kind, Maps};
use std::alloc::Global;
use std::process::Abort;
use std::test::Fail;
use store_disk::{DeviceFault, Disk, FaultDisk, Fill, MemoryDisk};
use store_project::{Geometry, Project, ProjectError, read_maps};
use tests_rows::part;

/// The answer to a line.
pub fn apply<D: Disk>(project: &mut Project<D>, line: &[u8]) -> Result<u32, ProjectError> {
    project.apply(line)
}

/// The generation of a checkpoint.
pub fn checkpoint<D: Disk>(project: &mut Project<D>) -> Result<u64, ProjectError> {
    project.checkpoint()
}

/// A disk with a small project in which these lines were accepted.
pub fn disk_after(alloc: Global, lines: &str) -> Result<MemoryDisk, Fail> {
    let mut project = created(alloc, empty_disk(alloc)?, SMALL)?;
    apply_all(&mut project, lines)?;
    Ok(project.into_disk())
}

/// Applies lines, which `;` divides and which are accepted.
pub fn apply_all<D: Disk>(project: &mut Project<D>, lines: &str) -> Result<(), ProjectError> {
    for line in lines.split(';') {
        if !line.is_empty() {
            apply(project, line.as_bytes())?;
        }
    }
    Ok(())
}

// What a new file begins with; the rest is zeros: the header, and slot A with its gate, generation 1, length 20 and the
// body.
const NEW_FILE: &[u8] = b"LVPJ\x01\0\0\0\x40\0\0\0\0\x02\0\0\
\xa5\x01\0\0\0\0\0\0\0\x14\0\0\0\x02\0MAP01\0\0\0\0\0\0\0\0\0\0\0\0\0";

// Creates a project, which is empty, and returns its disk.
fn empty_project(
    rt: &impl Abort,
    alloc: Global,
    disk: FaultDisk<MemoryDisk>,
) -> Result<FaultDisk<MemoryDisk>, ProjectError> {
    let project = created(alloc, disk, SMALL)?;
    let (count, generation) = (vertices(&project), project.generation());
    let found = (count, generation, project.must_reopen());
    same(rt, &found, &(0, 1, false));
    Ok(project.into_disk())
}

#[test]
fn makes_an_empty_project(rt: HostRuntime) -> Result<(), Fail> {
    let disk = FaultDisk::new(empty_disk(rt.alloc())?, 9, 0);
    let mut disk = empty_project(&rt, rt.alloc(), disk)?;
    same(&rt, &length_of(&mut disk), &Err(DeviceFault));
    Ok(())
}

// A stop with this fill leaves a new file with its length and its first bytes, and else zeros.
fn expect_new_file(
    rt: &impl Abort,
    alloc: Global,
    disk: &MemoryDisk,
    fill: Fill,
) -> Result<(), Fail> {
    let mut left = stopped(alloc, disk, fill, true)?;
    let len = length_of(&mut left)?;
    let bytes = bytes_from(alloc, &mut left, 0, 49)?;
    same(rt, &(fill, len, bytes.as_slice()), &(fill, 657, NEW_FILE));
    let zeros = bytes_from(alloc, &mut left, 49, 608)?;
    same(rt, &(fill, zeros.as_slice()), &(fill, [0; 608].as_slice()));
    Ok(())
}

#[test]
fn writes_a_new_file(rt: HostRuntime) -> Result<(), Fail> {
    let disk = disk_after(rt.alloc(), "")?;
    for &fill in FILLS {
        expect_new_file(&rt, rt.alloc(), &disk, fill)?;
    }
    Ok(())
}

// How `create` is refused on a disk whose k-th call fails, and how long the file is that a stop then leaves.
fn refused_at(alloc: Global, k: u64) -> Result<(Option<ProjectError>, u64), Fail> {
    let disk = FaultDisk::new(empty_disk(alloc)?, k, 0);
    match Project::create(alloc, disk, SMALL) {
        Ok(_) => Ok((None, 0)),
        Err(refused) => {
            let mut left = stopped(alloc, refused.disk.inner(), Fill::Written, false)?;
            Ok((Some(refused.error), length_of(&mut left)?))
        }
    }
}

#[test]
fn syncs_a_new_file_once_and_last(rt: HostRuntime) -> Result<(), Fail> {
    for k in 1..9 {
        let found = refused_at(rt.alloc(), k)?;
        same(&rt, &(k, found), &(k, (Some(ProjectError::Device), 0)));
    }
    Ok(())
}

// The length of a slot, the length of a journal, and that of the file.
const LENGTHS: &str =
    "33 512 595;64 512 657;2007015 512 4014559;64 1048576 1048721;262144 65536 589841";

// The lengths of a project's parts in a row.
fn geometry_of(rt: &impl Abort, left: &mut &str) -> Geometry {
    Geometry {
        slot: small(rt, left),
        journal: small(rt, left),
    }
}

// How long the file of a new project is.
fn length_with(alloc: Global, geometry: Geometry) -> Result<u64, Fail> {
    let disk = MemoryDisk::new(alloc, 4_100_000, 4096)?;
    let mut disk = created(alloc, disk, geometry)?.into_disk();
    Ok(length_of(&mut disk)?)
}

#[test]
fn has_a_file_of_its_lengths(rt: HostRuntime) -> Result<(), Fail> {
    for row in LENGTHS.split(';') {
        let mut left = row;
        let found = length_with(rt.alloc(), geometry_of(&rt, &mut left))?;
        told(&rt, rt.alloc(), row, &found, left)?;
    }
    Ok(())
}

// The length of a slot, the length of a journal, and how `create` is refused with them on a disk that has four bytes,
// which the file then still has.
const REFUSED: &str = "32 512 (Some(BadGeometry), 4);2007016 512 (Some(BadGeometry), 4);\
    64 511 (Some(BadGeometry), 4);64 1048577 (Some(BadGeometry), 4);64 512 (Some(NotEmpty), 4)";

// How `create` is refused on a disk that has four bytes, and how long the file then is.
fn refused_on(alloc: Global, geometry: Geometry) -> Result<(Option<ProjectError>, u64), Fail> {
    let mut disk = empty_disk(alloc)?;
    write(&mut disk, 0, b"LVPJ")?;
    match Project::create(alloc, disk, geometry) {
        Ok(_) => Ok((None, 0)),
        Err(refused) => {
            let mut disk = refused.disk;
            Ok((Some(refused.error), length_of(&mut disk)?))
        }
    }
}

#[test]
fn refuses_other_lengths_and_other_files(rt: HostRuntime) -> Result<(), Fail> {
    for row in REFUSED.split(';') {
        let mut left = row;
        let found = refused_on(rt.alloc(), geometry_of(&rt, &mut left))?;
        told(&rt, rt.alloc(), row, &found, left)?;
    }
    Ok(())
}

// The record of a line, which each stop leaves.
fn expect_recorded(rt: &impl Abort, alloc: Global, disk: &mut MemoryDisk) -> Result<(), Fail> {
    expect_bytes(
        rt,
        alloc,
        disk,
        "a record",
        144,
        "\u{a5}\n\0\0\0vertex 0 0\0",
    )?;
    for &fill in FILLS {
        let left = stopped(alloc, disk, fill, true)?;
        same(rt, &(fill, found(alloc, left)?), &(fill, (1, 1)));
    }
    Ok(())
}

#[test]
fn records_a_line_before_its_answer(rt: HostRuntime) -> Result<(), Fail> {
    let mut disk = disk_after(rt.alloc(), "vertex 0 0")?;
    expect_recorded(&rt, rt.alloc(), &mut disk)
}

/// The file of a disk as a row has it: where it ends, an offset, and the bytes that are put there.
pub fn damaged(
    rt: &impl Abort,
    alloc: Global,
    disk: &mut MemoryDisk,
    left: &mut &str,
) -> Result<Vec<u8>, Fail> {
    let (end, at) = (number(rt, left), number(rt, left));
    let bytes = bytes_of(alloc, part(left, '|'))?;
    write(disk, at, &bytes)?;
    bytes_from(alloc, disk, 0, end as usize)
}

// The file of a project with one vertex, as each row has it, is opened: how many vertices it has, and its generation.
fn expect_files(rt: &impl Abort, alloc: Global, rows: &str) -> Result<(), Fail> {
    for row in rows.split(';') {
        let mut left = row;
        let file = damaged(rt, alloc, &mut disk_after(alloc, "vertex 0 0")?, &mut left)?;
        let found = found(alloc, holding(alloc, 0, &file)?);
        told(rt, alloc, row, &found, left)?;
    }
    Ok(())
}

// The bytes after a closed gate don't matter.
const BEHIND: &str = "657 144 \0\0\0\0\0\0\0\0\0\0\0\0\0\0\0\0|Ok((0, 1));\
    657 144 \0\u{a5}\u{a5}\u{a5}\u{a5}\u{a5}\u{a5}\u{a5}\u{a5}\u{a5}\u{a5}\u{a5}\u{a5}\u{a5}\u{a5}\u{a5}|Ok((0, 1));\
    657 144 \0\n\n\n\n\n\n\n\n\n\n\n\n\n\n\n|Ok((0, 1))";

#[test]
fn counts_nothing_behind_a_closed_gate(rt: HostRuntime) -> Result<(), Fail> {
    expect_files(&rt, rt.alloc(), BEHIND)
}

// The first byte is put there as it is.
const ENDS: &str = "15 0 L|Err(NotAProject);16 0 L|Err(Damaged { place: 16 });\
    40 0 L|Err(Damaged { place: 16 });80 0 L|Err(Damaged { place: 80 });144 0 L|Err(Damaged { place: 144 });\
    159 0 L|Err(Damaged { place: 144 });656 0 L|Err(Damaged { place: 656 })";

#[test]
fn tells_where_a_file_ends(rt: HostRuntime) -> Result<(), Fail> {
    expect_files(&rt, rt.alloc(), ENDS)
}

const DAMAGES: &str = "657 4 \x02|Err(NotAProject);657 8 \x20|Err(BadGeometry);\
    657 25 \x34|Err(Damaged { place: 16 });657 29 \x03|Err(Damaged { place: 16 });\
    657 30 \x01|Err(Damaged { place: 16 });657 31 \x6d|Err(Damaged { place: 16 });\
    657 145 \u{ff}|Err(Damaged { place: 144 });657 145 \x01\x01|Err(Damaged { place: 144 });\
    657 16 \0|Err(Blank);657 80 \u{a5}\x01|Err(Damaged { place: 80 });657 158 !|Err(Damaged { place: 144 })";

#[test]
fn tells_where_a_file_is_damaged(rt: HostRuntime) -> Result<(), Fail> {
    expect_files(&rt, rt.alloc(), DAMAGES)
}

#[test]
fn opens_beside_an_older_slot(rt: HostRuntime) -> Result<(), Fail> {
    expect_files(&rt, rt.alloc(), "657 80 \u{a5}|Ok((1, 1))")
}

// How many vertices the map has that is read from a disk, or why none is; and how long the file then is.
fn read_alone(alloc: Global, disk: MemoryDisk) -> Result<(Result<u32, ProjectError>, u64), Fail> {
    let mut maps = Maps::new(alloc);
    match read_maps(alloc, disk, &mut maps) {
        Ok(mut disk) => Ok((
            Ok(maps.current().count(Kind::Vertex)),
            length_of(&mut disk)?,
        )),
        Err(refused) => {
            let mut disk = refused.disk;
            Ok((Err(refused.error), length_of(&mut disk)?))
        }
    }
}

#[test]
fn reads_the_maps_alone(rt: HostRuntime) -> Result<(), Fail> {
    let disk = disk_after(rt.alloc(), "vertex 0 0")?;
    same(&rt, &read_alone(rt.alloc(), disk)?, &(Ok(1), 657));
    let found = read_alone(rt.alloc(), holding(rt.alloc(), 0, b"LVPJ")?)?;
    same(&rt, &found, &(Err(ProjectError::NotAProject), 4));
    Ok(())
}

#[test]
fn numbers_its_refusals(rt: HostRuntime) {
    let found = [
        ProjectError::Refused(CommandError::NotACommand).code(),
        ProjectError::Refused(CommandError::BadName).code(),
        ProjectError::Device.code(),
        ProjectError::OutOfMemory.code(),
        ProjectError::Reopen.code(),
        ProjectError::GenerationsSpent.code(),
        ProjectError::Damaged { place: 16 }.code(),
        ProjectError::Blank.code(),
        ProjectError::NotAProject.code(),
        ProjectError::NotEmpty.code(),
        ProjectError::BadGeometry.code(),
    ];
    same(&rt, &found, &[1, 15, 30, 31, 32, 33, 40, 41, 42, 43, 44]);
}
