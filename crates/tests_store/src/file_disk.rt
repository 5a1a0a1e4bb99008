//! Real files as disks, and files whose calls are interrupted or fail.

use crate::disks::{bytes_from, length, write};
use crate::expect::{holds, same};
use std::alloc::Global;
use std::cell::Cell;
use std::fs::{File, Metadata, OpenFile, OpenOptions};
use std::os::unix::fs::FileExt;
use std::process::Abort;
use std::rt::Files;
use std::test::Fail;
use std::{fs, io};
use store_disk::{DeviceFault, Disk, FileDisk};

// The disk has these bytes, and a read of three bytes from an offset on goes beyond them.
fn expect_file<F: FileExt + OpenFile>(
    rt: &impl Abort,
    alloc: Global,
    disk: &mut FileDisk<F>,
    want: &[u8],
    at: u64,
) -> Result<(), Fail> {
    let read = bytes_from(alloc, disk, 0, 99)?;
    same(rt, &read.as_slice(), &want);
    let mut beyond = [0; 3];
    same(rt, &disk.read(at, &mut beyond), &Err(DeviceFault));
    Ok(())
}

// Makes calls of a new file.
fn write_file<F: FileExt + OpenFile>(
    rt: &impl Abort,
    disk: &mut FileDisk<F>,
) -> Result<(), DeviceFault> {
    same(rt, &length(disk), &Ok(0));
    write(disk, 2, &[1, 2, 3])?;
    write(disk, 9, &[])?;
    disk.sync()
}

// The same of the file at a path.
fn make_file<R: Abort + Files<File = File>>(rt: &R, path: &str) -> Result<(), DeviceFault> {
    let mut disk = FileDisk::open(rt, path, true)?;
    write_file(rt, &mut disk)
}

// Opens that file again.
fn expect_again<R: Abort + Files<File = File>>(
    rt: &R,
    alloc: Global,
    path: &str,
    new: bool,
) -> Result<(), Fail> {
    let mut disk = FileDisk::open(rt, path, new)?;
    same(rt, &write(&mut disk, u64::MAX, &[1]), &Err(DeviceFault));
    expect_file(rt, alloc, &mut disk, &[0, 0, 1, 2, 3], 4)
}

// No disk is opened at a path.
fn expect_none<R: Abort + Files<File = File>>(rt: &R, path: &str, new: bool) {
    holds(rt, FileDisk::open(rt, path, new).is_err());
}

#[test]
fn keeps_a_real_file(rt: HostRuntime) -> Result<(), Fail> {
    let path = "leveled_disk_real_file";
    let _ = fs::remove_file(&rt, path);
    expect_none(&rt, path, false);
    make_file(&rt, path)?;
    expect_again(&rt, rt.alloc(), path, true)?;
    expect_again(&rt, rt.alloc(), path, false)?;
    fs::remove_file(&rt, path)?;
    expect_none(&rt, ".", true);
    expect_none(&rt, "leveled_disk_no_folder/a", true);
    Ok(())
}

// A file whose every other call is interrupted, while the others read or write one byte. It counts its syncs, and the
// second one fails.
#[derive(Drop)]
struct Flaky<'a> {
    file: File,
    calls: Cell<u32>,
    syncs: &'a Cell<u32>,
}

impl Flaky<'_> {
    fn is_interrupted(&self) -> bool {
        let calls = self.calls.get();
        self.calls.set(calls.wrapping_add(1));
        calls % 2 == 0
    }
}

impl FileExt for Flaky<'_> {
    fn read_at(&self, buf: &mut [u8], offset: u64) -> io::Result<usize> {
        if self.is_interrupted() {
            return Err(io::ErrorKind::Interrupted.into());
        }
        let n = buf.len().min(1);
        self.file.read_at(&mut buf[..n], offset)
    }

    fn write_at(&self, buf: &[u8], offset: u64) -> io::Result<usize> {
        if self.is_interrupted() {
            return Err(io::ErrorKind::Interrupted.into());
        }
        let n = buf.len().min(1);
        self.file.write_at(&buf[..n], offset)
    }
}

impl OpenFile for Flaky<'_> {
    fn metadata(&self) -> io::Result<Metadata> {
        self.file.metadata()
    }

    fn set_len(&self, size: u64) -> io::Result<()> {
        self.file.set_len(size)
    }

    fn sync_all(&self) -> io::Result<()> {
        let syncs = self.syncs.get().wrapping_add(1);
        self.syncs.set(syncs);
        if syncs == 2 {
            return Err(io::ErrorKind::Other.into());
        }
        self.file.sync_all()
    }

    fn sync_data(&self) -> io::Result<()> {
        self.file.sync_data()
    }
}

// The disk of a new flaky file.
fn flaky_disk<'a, R: Files<File = File>>(
    rt: &R,
    path: &str,
    syncs: &'a Cell<u32>,
) -> io::Result<FileDisk<Flaky<'a>>> {
    let _ = fs::remove_file(rt, path);
    let mut how = OpenOptions::new();
    let file = how.read(true).write(true).create(true).open(rt, path)?;
    Ok(FileDisk::new(
        Flaky {
            file,
            calls: Cell::new(0),
            syncs,
        },
        true,
    ))
}

// All bytes are written and read all the same.
fn expect_goes_on<R: Abort + Files<File = File>>(
    rt: &R,
    alloc: Global,
    path: &str,
) -> Result<(), Fail> {
    let syncs = Cell::new(0);
    let mut disk = flaky_disk(rt, path, &syncs)?;
    same(
        rt,
        &(write(&mut disk, 1, &[1, 2, 3]), disk.sync()),
        &(Ok(()), Ok(())),
    );
    expect_file(rt, alloc, &mut disk, &[0, 1, 2, 3], 2)
}

#[test]
fn goes_on_after_interrupted_and_short_calls(rt: HostRuntime) -> Result<(), Fail> {
    let path = "leveled_disk_flaky_file";
    expect_goes_on(&rt, rt.alloc(), path)?;
    fs::remove_file(&rt, path)?;
    Ok(())
}

// How the sync of `/dev/null` ends, which refuses it.
fn synced_null(rt: &HostRuntime, writes: bool) -> Result<Result<(), DeviceFault>, Fail> {
    let mut disk = FileDisk::new(fs::open(rt, "/dev/null")?, writes);
    Ok(disk.sync())
}

#[test]
fn reads_a_medium_without_syncs(rt: HostRuntime) -> Result<(), Fail> {
    same(&rt, &synced_null(&rt, false)?, &Ok(()));
    same(&rt, &synced_null(&rt, true)?, &Err(DeviceFault));
    Ok(())
}

// Each sync of a disk is one of its file.
fn expect_syncs<D: Disk>(rt: &impl Abort, disk: &mut D, syncs: &Cell<u32>) {
    let written = write(disk, 0, &[1]);
    same(rt, &(written, syncs.get()), &(Ok(()), 0));
    same(rt, &(disk.sync(), syncs.get()), &(Ok(()), 1));
    same(rt, &disk.sync(), &Err(DeviceFault));
    same(rt, &(disk.sync(), syncs.get()), &(Ok(()), 3));
}

#[test]
fn syncs_its_file(rt: HostRuntime) -> Result<(), Fail> {
    let path = "leveled_disk_synced_file";
    let syncs = Cell::new(0);
    expect_syncs(&rt, &mut flaky_disk(&rt, path, &syncs)?, &syncs);
    let _ = fs::remove_file(&rt, path);
    Ok(())
}
