//! Vertices drawn onto a new project over a disk on which each call in turn fails. What the disk holds is looked at
//! after stops of all kinds. Runs and drawings of scripts share this.

use crate::expect::same;
use std::alloc::Global;
use std::process::Abort;
use std::test::Fail;
use store_disk::{Disk, FaultDisk, MemoryDisk};
use store_project::{Geometry, Project};
use tests_rows::part;
use tests_store::small::{FILLS, created, found};

/// A journal that 34 lines of 10 bytes fill.
pub const GEOMETRY: Geometry = Geometry {
    slot: 1024,
    journal: 512,
};

/// So many vertices, each drawn by a line of 10 bytes, and how long the project's journal is.
#[derive(Drop)]
pub struct Row<'a> {
    journal: u32,
    pub count: u32,
    // How many of them are on the disk between two puts.
    kept: &'a str,
    // How many bytes of a failing write are still written.
    parts: &'a str,
}

impl Row<'_> {
    /// The lengths of the project's parts.
    pub fn geometry(&self) -> Geometry {
        Geometry {
            journal: self.journal,
            ..GEOMETRY
        }
    }
}

// The row that a text has: the journal's length, the count, what is kept, and the parts.
fn row_of(text: &str) -> Row<'_> {
    let mut left = text;
    Row {
        journal: part(&mut left, ' ').parse::<u32>().unwrap_or(0),
        count: part(&mut left, ' ').parse::<u32>().unwrap_or(0),
        kept: part(&mut left, ' '),
        parts: left,
    }
}

/// Groups of 1, 2, 100 and of a full journal. For a line that has no room in the journal a checkpoint comes first, and
/// then it is put alone.
pub const ROWS: &str = "\
    512 1 0,1 0,1,7,999^\
    512 2 0,2 0,1,20,999^\
    2048 100 0,100 0,40,1499^\
    512 34 0,34 40^\
    512 100 0,34,35,68,69,100 40";

/// Twenty lines fill more than half of the journal, and then there is no room for an area with its four vertices: what
/// waits is put, a checkpoint empties the journal, and the area is put as a whole.
pub const WITH_AN_AREA: &str = "512 24 0,20,24 0,40,999";

/// The lines that draw so many vertices.
pub fn input(alloc: Global, count: u32) -> Result<Vec<u8>, Fail> {
    let mut lines = Vec::new(alloc);
    for n in 0..count {
        let line = format!(in alloc; "vertex {} {}\n", n / 10, n % 10)?;
        lines.extend_from_slice(line.as_bytes())?;
    }
    Ok(lines)
}

/// A new project on a disk whose k-th call fails after the first `part` bytes of its write. The first 8 calls are those
/// of `create`.
pub fn failing(
    alloc: Global,
    geometry: Geometry,
    fault: (u64, u32),
) -> Result<Project<FaultDisk<MemoryDisk>>, Fail> {
    let disk = MemoryDisk::new(alloc, 8192, 65536)?;
    Ok(created(alloc, FaultDisk::new(disk, fault.0, fault.1), geometry)?)
}

// The next number behind this one, if there is one.
fn next_kept(kept: &str, had: u32) -> Option<u32> {
    for word in kept.split(',') {
        let n = word.parse::<u32>().unwrap_or(0);
        if n > had {
            return Some(n);
        }
    }
    None
}

// Whether one of the numbers is this one.
fn is_kept(kept: &str, had: u32) -> bool {
    for word in kept.split(',') {
        if word.parse::<u32>() == Ok(had) {
            return true;
        }
    }
    false
}

// Whether the project of a disk has as many vertices as it had, or as many as after the next put.
fn is_either<D: Disk + Drop>(alloc: Global, disk: D, had: u32, kept: &str) -> Result<bool, Fail> {
    let count = found(alloc, disk)?.0;
    Ok(count == had || next_kept(kept, had) == Some(count))
}

// The same after stops of all kinds.
fn are_either(alloc: Global, disk: &MemoryDisk, had: u32, kept: &str) -> Result<bool, Fail> {
    for &fill in FILLS {
        if !is_either(alloc, disk.stop(alloc, fill, false)?, had, kept)?
            || !is_either(alloc, disk.stop(alloc, fill, true)?, had, kept)?
        {
            return Ok(false);
        }
    }
    Ok(true)
}

/// A way to draw vertices.
pub trait Way {
    /// Draws the vertices onto a project, and tests what is told. Returns how many the project then has, and its disk.
    fn drawn<R: Abort>(
        &self,
        rt: &R,
        alloc: Global,
        row: &Row<'_>,
        fault: (u64, u32),
    ) -> Result<(u32, FaultDisk<MemoryDisk>), Fail>;
}

// Draws over a disk on which a call fails, and tests what the disk holds. Returns whether none failed.
fn fail_once<W: Way, R: Abort>(
    way: &W,
    rt: &R,
    alloc: Global,
    row: &Row<'_>,
    fault: (u64, u32),
) -> Result<bool, Fail> {
    let (had, disk) = way.drawn(rt, alloc, row, fault)?;
    same(rt, &(fault, is_kept(row.kept, had)), &(fault, true));
    let is_either = are_either(alloc, disk.inner(), had, row.kept)?;
    same(rt, &(fault, is_either), &(fault, true));
    Ok(had == row.count)
}

// Each call fails in turn.
fn sweep<W: Way, R: Abort>(
    way: &W,
    rt: &R,
    alloc: Global,
    row: &Row<'_>,
    part: u32,
) -> Result<(), Fail> {
    for k in 9_u64..200 {
        if fail_once(way, rt, alloc, row, (k, part))? {
            return Ok(());
        }
    }
    Err(Fail::from("too many calls"))
}

// The same with each part of a row.
fn sweep_row<W: Way, R: Abort>(way: &W, rt: &R, alloc: Global, row: &Row<'_>) -> Result<(), Fail> {
    for part in row.parts.split(',') {
        sweep(way, rt, alloc, row, part.parse()?)?;
    }
    Ok(())
}

/// The same with each of these rows.
pub fn sweep_all<W: Way, R: Abort>(way: &W, rt: &R, alloc: Global, rows: &str) -> Result<(), Fail> {
    for text in rows.split('^') {
        sweep_row(way, rt, alloc, &row_of(text))?;
    }
    Ok(())
}
