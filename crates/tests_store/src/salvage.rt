//! What `salvage` reads from damaged projects.

use crate::expect::{same, told};
use crate::project::{apply, checkpoint, damaged, disk_after};
use crate::small::{SMALL, created, empty_disk};
use map_tables::Kind;
use std::alloc::Global;
use std::process::Abort;
use std::test::Fail;
use store_disk::{Disk, MemoryDisk};
use store_project::{Project, ProjectError};
use store_salvage::{SalvageError, salvage};

// Three records of 15 bytes at 144, 159 and 174, and a closed gate at 189.
const LINES: &str = "vertex 0 0;vertex 1 0;vertex 2 0";

// What is salvaged from a file: how many vertices, how many records are kept, where it is damaged, and how many records
// come after the damage.
fn salvaged(alloc: Global, file: &[u8]) -> Result<(u32, u32, Option<u64>, u32), SalvageError> {
    let found = salvage(alloc, file)?;
    let vertices = found.maps.current().count(Kind::Vertex);
    Ok((vertices, found.records, found.damage, found.behind))
}

// What is salvaged from the file of a disk, as a row has it: where it ends, an offset, and the bytes that are put
// there.
fn expect_salvaged(
    rt: &impl Abort,
    alloc: Global,
    disk: &mut MemoryDisk,
    row: &str,
) -> Result<(), Fail> {
    let mut left = row;
    let file = damaged(rt, alloc, disk, &mut left)?;
    told(rt, alloc, row, &salvaged(alloc, &file), left)
}

// The same for each row of a text.
fn expect_rows(rt: &impl Abort, alloc: Global, rows: &str) -> Result<(), Fail> {
    for row in rows.split(';') {
        expect_salvaged(rt, alloc, &mut disk_after(alloc, LINES)?, row)?;
    }
    Ok(())
}

// In turn: the sound file, the same with other bytes after the closed gate, and with an older slot; a closed gate,
// which ends the list; a payload that is no command, and one that the map doesn't accept; a length that makes the rest
// one record, one above 256, and one that goes beyond the area; a line that isn't accepted before a bad record, whose
// damage counts; a file that ends before the other journal, within the records, and before them.
const ROWS: &str = "657 0 L|Ok((3, 3, None, 0));657 190 \u{a5}\u{a5}|Ok((3, 3, None, 0));\
    657 80 \u{a5}|Ok((3, 3, None, 0));\
    657 159 \0|Ok((1, 1, None, 0));657 174 !|Ok((2, 2, None, 0));657 144 \0|Ok((0, 0, None, 0));\
    657 164 !|Ok((1, 1, Some(159), 2));657 171 0|Ok((1, 1, Some(159), 2));657 149 !|Ok((0, 0, Some(144), 3));\
    657 160 \u{ff}|Ok((1, 1, Some(159), 1));657 160 \x01\x01|Ok((1, 1, Some(159), 0));\
    657 177 \x01|Ok((2, 2, Some(174), 0));\
    657 149 !ertex 0 0\u{a5}\n\0\0\0vertex 1 0\u{a5}\x01\x01|Ok((0, 0, Some(174), 2));\
    656 0 L|Ok((3, 3, Some(656), 0));189 0 L|Ok((2, 2, Some(174), 0));162 0 L|Ok((1, 1, Some(159), 0));\
    144 0 L|Ok((0, 0, Some(144), 0))";

#[test]
fn keeps_what_stands_before_the_damage(rt: HostRuntime) -> Result<(), Fail> {
    expect_rows(&rt, rt.alloc(), ROWS)
}

const REFUSED: &str =
    "15 0 L|Err(NotAProject);657 4 \x02|Err(NotAProject);657 8 \x20|Err(BadGeometry);\
    657 16 \0|Err(Blank);16 0 L|Err(Damaged { place: 16 });40 0 L|Err(Damaged { place: 16 });\
    657 25 \x34|Err(Damaged { place: 16 });657 31 \x6d|Err(Damaged { place: 16 });\
    80 0 L|Err(Damaged { place: 80 });657 80 \u{a5}\x01|Err(Damaged { place: 80 })";

#[test]
fn refuses_a_file_without_a_body(rt: HostRuntime) -> Result<(), Fail> {
    expect_rows(&rt, rt.alloc(), REFUSED)
}

// Takes a checkpoint between two lines.
fn turn<D: Disk>(project: &mut Project<D>) -> Result<(), ProjectError> {
    apply(project, b"vertex 0 0")?;
    checkpoint(project)?;
    apply(project, b"vertex 1 0")?;
    Ok(())
}

// A project whose second slot is live, with one vertex in its body and a record of 15 bytes at 656.
fn turned_disk(alloc: Global) -> Result<MemoryDisk, Fail> {
    let mut project = created(alloc, empty_disk(alloc)?, SMALL)?;
    turn(&mut project)?;
    Ok(project.into_disk())
}

// The first slot and its journal don't matter.
const TURNED: &str =
    "700 31 \x6d|Ok((2, 1, None, 0));700 149 !|Ok((2, 1, None, 0));700 661 !|Ok((1, 0, Some(656), 1))";

#[test]
fn takes_the_live_slot(rt: HostRuntime) -> Result<(), Fail> {
    for row in TURNED.split(';') {
        expect_salvaged(&rt, rt.alloc(), &mut turned_disk(rt.alloc())?, row)?;
    }
    Ok(())
}

#[test]
fn numbers_its_refusals(rt: HostRuntime) {
    let found = [
        SalvageError::OutOfMemory.code(),
        SalvageError::Damaged { place: 16 }.code(),
        SalvageError::Blank.code(),
        SalvageError::NotAProject.code(),
        SalvageError::BadGeometry.code(),
    ];
    same(&rt, &found, &[31, 40, 41, 42, 44]);
}
