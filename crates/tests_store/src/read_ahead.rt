//! A disk that reads ahead: what it reads, and how often it calls the inner disk.

use crate::disks::write;
use crate::expect::{number, same, told};
use std::alloc::Global;
use std::process::Abort;
use std::test::Fail;
use store_disk::{Buffer, Disk, FaultDisk, MemoryDisk, ReadAhead};

// The length of the file in bytes. The buffer holds 16,384 of them.
const LONG: usize = 20_000;

// The bytes of the file, which count from 0 to 250 again and again.
fn counted(alloc: Global) -> Result<Vec<u8>, Fail> {
    let mut bytes = Vec::new(alloc);
    for place in 0..LONG {
        bytes.push((place % 251) as u8)?;
    }
    Ok(bytes)
}

// An empty disk that reads ahead; the k-th call of the inner disk fails.
fn ahead(alloc: Global, k: u64) -> Result<ReadAhead<FaultDisk<MemoryDisk>>, Fail> {
    let buffer = Buffer::new(alloc)?;
    let disk = MemoryDisk::new(alloc, 30_000, 30_000)?;
    Ok(ReadAhead::new(FaultDisk::new(disk, k, 0), buffer))
}

// Fills `bytes` from an offset on, and returns whether a call failed.
fn fails<D: Disk>(disk: &mut D, at: u64, bytes: &mut [u8]) -> bool {
    let length = disk.len().unwrap_or(0);
    if length < at || length - at < bytes.len() as u64 {
        return true;
    }
    disk.read(at, bytes).is_err()
}

// Reads `len` bytes from an offset on, and returns the first and the last one; 255 for both if a call fails.
fn ends<D: Disk>(alloc: Global, disk: &mut D, at: u64, len: usize) -> Result<(u8, u8), Fail> {
    let mut bytes = vec![in alloc; 0; len]?;
    if fails(disk, at, &mut bytes) {
        bytes.fill(255);
    }
    let first = bytes.first().copied();
    let last = bytes.last().copied();
    Ok((first.unwrap_or(0), last.unwrap_or(0)))
}

// Writes the file, the first call of the inner disk, and then reads in turn.
fn expect_reads<D: Disk>(
    rt: &impl Abort,
    alloc: Global,
    disk: &mut D,
    row: &str,
    reads: &str,
) -> Result<(), Fail> {
    write(disk, 0, &counted(alloc)?)?;
    for read in reads.split(';') {
        let mut read = read;
        let at = number(rt, &mut read);
        let len = number(rt, &mut read);
        let found = ends(alloc, disk, at, len as usize)?;
        told(rt, alloc, row, &found, read)?;
    }
    Ok(())
}

// The call of the inner disk that fails; then reads, each of which asks for the length first: an offset, a length, and
// the first and the last byte. The byte at an offset is the offset modulo 251. A length and one read fill the buffer,
// for every range within it. A range across its end fills it anew. A range longer than the buffer is read directly.
const READS: &str = "8 0 10 (0, 9);1000 200 (247, 195);16374 10 (59, 68);16378 10 (255, 255)\n\
    7 0 10 (0, 9);16378 10 (255, 255)\n\
    10 0 10 (0, 9);16378 10 (63, 72);19990 10 (161, 170);0 1 (255, 255)\n\
    0 0 20000 (0, 170);1 16385 (1, 70)\n\
    5 0 20000 (255, 255)";

// The reads of a row.
fn expect_row(rt: &impl Abort, alloc: Global, row: &str) -> Result<(), Fail> {
    let mut reads = row;
    let mut disk = ahead(alloc, number(rt, &mut reads))?;
    expect_reads(rt, alloc, &mut disk, row, reads)
}

#[test]
fn reads_by_large_pieces(rt: HostRuntime) -> Result<(), Fail> {
    for row in READS.split('\n') {
        expect_row(&rt, rt.alloc(), row)?;
    }
    Ok(())
}

// Reads before and after a write.
fn expect_written<D: Disk>(rt: &impl Abort, alloc: Global, disk: &mut D) -> Result<(), Fail> {
    expect_reads(rt, alloc, disk, "as it was", "5 2 (5, 6)")?;
    write(disk, 6, &[77])?;
    same(rt, &ends(alloc, disk, 5, 2)?, &(5, 77));
    Ok(())
}

#[test]
fn reads_what_was_written_since(rt: HostRuntime) -> Result<(), Fail> {
    expect_written(&rt, rt.alloc(), &mut ahead(rt.alloc(), 0)?)
}
