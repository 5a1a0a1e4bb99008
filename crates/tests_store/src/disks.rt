//! Calls of disks whose results alone are looked at. Without the contracts of `Disk` their callers are proved faster.

use crate::expect::bytes_of;
use crate::small::empty_disk;
use std::alloc::Global;
use std::process::Abort;
use std::test::Fail;
use store_disk::{DeviceFault, Disk, FaultDisk, Fill, MemoryDisk};

/// A disk whose k-th call fails, none if `k` is 0, after the first `part` bytes of its write.
pub type Failing = FaultDisk<MemoryDisk>;

pub fn failing(alloc: Global, k: u64, part: u32) -> Result<Failing, Fail> {
    Ok(FaultDisk::new(empty_disk(alloc)?, k, part))
}

/// Writes bytes at an offset.
pub fn write<D: Disk>(disk: &mut D, at: u64, bytes: &[u8]) -> Result<(), DeviceFault> {
    disk.write_at(at, bytes)
}

/// The length of the file.
pub fn length<D: Disk>(disk: &mut D) -> Result<u64, DeviceFault> {
    disk.len()
}

/// Reads at most `n` bytes of the disk from an offset on; fewer if the file ends before.
pub fn bytes_from<D: Disk>(
    alloc: Global,
    disk: &mut D,
    at: u64,
    n: usize,
) -> Result<Vec<u8>, Fail> {
    let left = disk.len()?.saturating_sub(at);
    let n = n.min(left as usize);
    let mut bytes = vec![in alloc; 0; n]?;
    if n > 0 {
        disk.read(at, &mut bytes)?;
    }
    Ok(bytes)
}

/// The file has these bytes at an offset. They are written as in a row.
pub fn expect_bytes<D: Disk>(
    rt: &impl Abort,
    alloc: Global,
    disk: &mut D,
    row: &str,
    at: u64,
    want: &str,
) -> Result<(), Fail> {
    let want = bytes_of(alloc, want)?;
    let found = bytes_from(alloc, disk, at, want.len())?;
    assert_eq!(rt; found, want, "{row:?}");
    Ok(())
}

/// A synced disk with these bytes from an offset on.
pub fn holding(alloc: Global, at: u64, bytes: &[u8]) -> Result<MemoryDisk, Fail> {
    let mut disk = empty_disk(alloc)?;
    write(&mut disk, at, bytes)?;
    disk.sync()?;
    Ok(disk)
}

/// A synced copy of the file up to `end`.
pub fn cut(alloc: Global, disk: &mut MemoryDisk, end: usize) -> Result<MemoryDisk, Fail> {
    let bytes = bytes_from(alloc, disk, 0, end)?;
    holding(alloc, 0, &bytes)
}

/// The disk that a stop with this fill leaves: the longest image or the shortest.
pub fn stopped(
    alloc: Global,
    disk: &MemoryDisk,
    fill: Fill,
    is_longest: bool,
) -> Result<MemoryDisk, Fail> {
    Ok(disk.stop(alloc, fill, is_longest)?)
}
