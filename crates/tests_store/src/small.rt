//! Small projects on disks in memory. The tests of runs use them too.

use map_tables::Kind;
use std::alloc::Global;
use store_disk::{Disk, Fill, MemoryDisk, OutOfMemory};
use store_project::{Geometry, Project, ProjectError};

/// A geometry with slots at 16 and 80 and journals at 144 and 656. A new file has 657 bytes.
pub const SMALL: Geometry = Geometry {
    slot: 64,
    journal: 512,
};

/// What a stop may leave in place of bytes that weren't synced.
pub const FILLS: &[Fill] = &[
    Fill::Stable,
    Fill::Written,
    Fill::Byte(0),
    Fill::Byte(165),
    Fill::Upto(1),
    Fill::Upto(7),
];

/// A new project on this disk.
pub fn created<D: Disk + Drop>(
    alloc: Global,
    disk: D,
    geometry: Geometry,
) -> Result<Project<D>, ProjectError> {
    match Project::create(alloc, disk, geometry) {
        Ok(project) => Ok(project),
        Err(refused) => Err(refused.error),
    }
}

/// The project of this disk.
pub fn opened<D: Disk + Drop>(alloc: Global, disk: D) -> Result<Project<D>, ProjectError> {
    match Project::open(alloc, disk) {
        Ok(project) => Ok(project),
        Err(refused) => Err(refused.error),
    }
}

/// A disk with room for a small project.
pub fn empty_disk(alloc: Global) -> Result<MemoryDisk, OutOfMemory> {
    MemoryDisk::new(alloc, 2048, 65536)
}

/// How many vertices the project's current map has.
pub fn vertices<D: Disk>(project: &Project<D>) -> u32 {
    project.map().count(Kind::Vertex)
}

/// How many vertices the current map of a disk's project has, and the project's generation.
pub fn found<D: Disk + Drop>(alloc: Global, disk: D) -> Result<(u32, u64), ProjectError> {
    let project = opened(alloc, disk)?;
    Ok((vertices(&project), project.generation()))
}
