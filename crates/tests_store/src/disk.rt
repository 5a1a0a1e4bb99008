//! Disks in memory: what a stop leaves, lack of room, and injected faults.

use crate::disks::{bytes_from, length, stopped, write};
use crate::expect::{bytes_of, number, same, small, told};
use std::alloc::Global;
use std::process::Abort;
use std::test::Fail;
use store_disk::{
    Area, CLOSED_GATE, DeviceFault, Disk, FaultDisk, Fill, MemoryDisk, OPEN_GATE, OutOfMemory,
    write_through,
};
use tests_rows::part;

// Reads the whole disk.
fn contents<D: Disk>(alloc: Global, disk: &mut D) -> Result<Vec<u8>, Fail> {
    bytes_from(alloc, disk, 0, usize::MAX)
}

// Whether a stop leaves these bytes.
fn leaves_once(
    alloc: Global,
    disk: &MemoryDisk,
    fill: Fill,
    is_longest: bool,
    want: &[u8],
) -> Result<bool, Fail> {
    let bytes = left_of(alloc, disk, fill, is_longest)?;
    Ok(bytes.as_slice() == want)
}

// The same. And since everything on the disk that is left is synced, each further stop leaves these bytes too.
fn leaves(
    alloc: Global,
    disk: &MemoryDisk,
    fill: Fill,
    is_longest: bool,
    want: &[u8],
) -> Result<bool, Fail> {
    let left = stopped(alloc, disk, fill, is_longest)?;
    let again = leaves_once(alloc, &left, Fill::Byte(9), !is_longest, want)?;
    Ok(again && leaves_once(alloc, disk, fill, is_longest, want)?)
}

/// The next fill of a row.
pub fn fill_of(rt: &impl Abort, left: &mut &str) -> Fill {
    match part(left, ' ') {
        "stable" => Fill::Stable,
        "written" => Fill::Written,
        "byte" => Fill::Byte(u8::try_from(number(rt, left)).unwrap_or(0)),
        _ => Fill::Upto(small(rt, left)),
    }
}

// A stop with a fill leaves its two images, the longest and the shortest.
fn expect_stop(
    rt: &impl Abort,
    alloc: Global,
    disk: &MemoryDisk,
    about: &str,
    images: &str,
) -> Result<(), Fail> {
    let mut left = images;
    let fill = fill_of(rt, &mut left);
    let longest = bytes_of(alloc, part(&mut left, ' '))?;
    let shortest = bytes_of(alloc, left)?;
    let is_longest = leaves(alloc, disk, fill, true, &longest)?;
    let is_shortest = leaves(alloc, disk, fill, false, &shortest)?;
    let row = (about, images);
    same(rt, &(row, is_longest, is_shortest), &(row, true, true));
    Ok(())
}

// Makes a call, and returns whether it succeeded: a write, a write followed by a sync, or a sync.
fn make<D: Disk>(rt: &impl Abort, alloc: Global, disk: &mut D, call: &str) -> Result<bool, Fail> {
    let mut left = call;
    let kind = part(&mut left, ' ');
    if kind == "sync" {
        return Ok(disk.sync().is_ok());
    }
    let at = number(rt, &mut left);
    let bytes = bytes_of(alloc, left)?;
    if kind == "write" {
        Ok(write(disk, at, &bytes).is_ok())
    } else {
        Ok(write_through(disk, at, &bytes).is_ok())
    }
}

// Calls succeed or fail as a row says, and the disk then reads as it says.
fn expect_calls<D: Disk>(
    rt: &impl Abort,
    alloc: Global,
    disk: &mut D,
    calls: &str,
    read: &str,
) -> Result<(), Fail> {
    for call in calls.split(';') {
        let mut left = call;
        let done = part(&mut left, ' ') == "ok";
        let found = make(rt, alloc, disk, left)?;
        same(rt, &(calls, call, found), &(calls, call, done));
    }
    let wanted = bytes_of(alloc, read)?;
    let found = bytes_from(alloc, disk, 0, usize::MAX)?;
    same(rt, &(calls, found.as_slice()), &(calls, wanted.as_slice()));
    Ok(())
}

// In each row what is tested; the most bytes of a disk's file, and of the record of its calls; calls, and whether each
// succeeds; what the disk then reads as; and for some fills the longest and the shortest image that a stop leaves. In
// the fourth row the record has room for two writes of one byte and one sync, and no more. In the last two the disk is
// full, with room for four bytes, and the record has 20 bytes used. A sync takes 16 bytes of the record. A write of no
// bytes changes nothing, but takes room in the record.
const ROWS: &str = "\
    a write|16 400|ok write 0 \x01\x02\x03|\x01\x02\x03|\
    stable \0\0\0 ;written \x01\x02\x03 ;byte 7 \x07\x07\x07 ;upto 0 \0\0\0 ;upto 2 \x01\x02\0 ;\
    upto 9 \x01\x02\x03 \n\
    an overwrite|16 400|ok through 0 \x01\x02\x03\x04\x05;ok write 1 \x08;ok write 3 \x09|\x01\x08\x03\x09\x05|\
    stable \x01\x02\x03\x04\x05 \x01\x02\x03\x04\x05;written \x01\x08\x03\x09\x05 \x01\x08\x03\x09\x05;\
    byte 7 \x01\x07\x03\x07\x05 \x01\x07\x03\x07\x05;upto 1 \x01\x08\x03\x04\x05 \x01\x08\x03\x04\x05\n\
    a write past the end|16 400|ok through 0 \x01\x02;ok write 4 \x05\x06|\x01\x02\0\0\x05\x06|\
    stable \x01\x02\0\0\0\0 \x01\x02;written \x01\x02\0\0\x05\x06 \x01\x02;byte 7 \x01\x02\x07\x07\x07\x07 \x01\x02;\
    upto 3 \x01\x02\0\0\x05\0 \x01\x02\n\
    a failed sync|16 50|ok through 0 \x01;ok write 1 \x02;no sync|\x01\x02|\
    stable \x01\0 \x01;written \x01\x02 \x01;byte 7 \x01\x07 \x01;upto 1 \x01\x02 \x01\n\
    no room|4 67|ok write 0 \x01\x02\x03\x04;no write 4 \x09;no write 3 \x09\x09;no write 5 ;\
    no write 18446744073709551615 \x09|\x01\x02\x03\x04|\n\
    no record|4 67|ok write 0 \x01\x02\x03\x04;ok sync;\
    no write 0 \x09\x09\x09\x09\x09\x09\x09\x09\x09\x09\x09\x09\x09\x09\x09\x09;ok write 4 ;\
    no write 0 ;no sync|\x01\x02\x03\x04|";

fn expect_row(rt: &impl Abort, alloc: Global, row: &str) -> Result<(), Fail> {
    let mut left = row;
    let about = part(&mut left, '|');
    let mut sizes = part(&mut left, '|');
    let mut disk = MemoryDisk::new(alloc, small(rt, &mut sizes), small(rt, &mut sizes))?;
    expect_calls(
        rt,
        alloc,
        &mut disk,
        part(&mut left, '|'),
        part(&mut left, '|'),
    )?;
    if !left.is_empty() {
        for images in left.split(';') {
            expect_stop(rt, alloc, &disk, about, images)?;
        }
    }
    Ok(())
}

#[test]
fn makes_its_calls_and_stops(rt: HostRuntime) -> Result<(), Fail> {
    for row in ROWS.split('\n') {
        expect_row(&rt, rt.alloc(), row)?;
    }
    Ok(())
}

// The disk that a stop leaves of a full disk after a sync.
fn left_of_full(rt: &impl Abort, alloc: Global) -> Result<MemoryDisk, Fail> {
    let mut disk = MemoryDisk::new(alloc, 4, 67)?;
    let calls = "ok write 0 \x01\x02\x03\x04;ok sync";
    expect_calls(rt, alloc, &mut disk, calls, "\x01\x02\x03\x04")?;
    stopped(alloc, &disk, Fill::Stable, false)
}

// A disk that a stop left has an empty record, with the same room.
#[test]
fn stops_with_an_empty_record(rt: HostRuntime) -> Result<(), Fail> {
    let mut left = left_of_full(&rt, rt.alloc())?;
    let calls = "ok write 0 \x05;ok sync;no write 4 \x05";
    expect_calls(&rt, rt.alloc(), &mut left, calls, "\x05\x02\x03\x04")
}

// The bytes that a stop with this fill leaves of a disk: the longest or the shortest image.
fn left_of(
    alloc: Global,
    disk: &MemoryDisk,
    fill: Fill,
    is_longest: bool,
) -> Result<Vec<u8>, Fail> {
    contents(alloc, &mut stopped(alloc, disk, fill, is_longest)?)
}

// Makes two writes and a sync, and returns which of them failed.
fn three_calls<D: Disk>(disk: &mut FaultDisk<D>) -> [bool; 3] {
    let first = write(disk, 0, &[1, 2, 3, 4]).is_err();
    let second = write(disk, 4, &[5, 6, 7, 8]).is_err();
    [first, second, disk.sync().is_err()]
}

// The call that fails, how many bytes of its write are still written, and which of the eight bytes are then written.
const PARTS: &str = "\
    0 0 \x01\x02\x03\x04\x05\x06\x07\x08;1 0 \0\0\0\0\x05\x06\x07\x08;1 1 \x01\0\0\0\x05\x06\x07\x08;\
    1 2 \x01\x02\0\0\x05\x06\x07\x08;1 4 \x01\x02\x03\x04\x05\x06\x07\x08;2 0 \x01\x02\x03\x04;\
    2 1 \x01\x02\x03\x04\x05;2 2 \x01\x02\x03\x04\x05\x06;2 9 \x01\x02\x03\x04\x05\x06\x07\x08;\
    3 0 \x01\x02\x03\x04\x05\x06\x07\x08;3 4 \x01\x02\x03\x04\x05\x06\x07\x08;4 4 \x01\x02\x03\x04\x05\x06\x07\x08";

// A stop that keeps all writes leaves what was written; one that keeps only what was synced leaves nothing if the sync
// failed.
fn expect_part(
    rt: &impl Abort,
    alloc: Global,
    disk: &MemoryDisk,
    call: (u64, u32),
    read: &[u8],
) -> Result<(), Fail> {
    let written = left_of(alloc, disk, Fill::Written, true)?;
    same(rt, &(call, written.as_slice()), &(call, read));
    let synced = if call.0 == 3 { [].as_slice() } else { read };
    let stable = left_of(alloc, disk, Fill::Stable, false)?;
    same(rt, &(call, stable.as_slice()), &(call, synced));
    Ok(())
}

// A disk whose k-th call fails, after the first `part` bytes of its write.
fn failing(alloc: Global, k: u64, part: u32) -> Result<FaultDisk<MemoryDisk>, Fail> {
    Ok(FaultDisk::new(MemoryDisk::new(alloc, 16, 400)?, k, part))
}

#[test]
fn fails_the_kth_call(rt: HostRuntime) -> Result<(), Fail> {
    for row in PARTS.split(';') {
        let mut read = row;
        let call = (number(&rt, &mut read), small(&rt, &mut read));
        let mut disk = failing(rt.alloc(), call.0, call.1)?;
        let failed = three_calls(&mut disk);
        same(
            &rt,
            &(row, failed),
            &(row, [call.0 == 1, call.0 == 2, call.0 == 3]),
        );
        expect_part(
            &rt,
            rt.alloc(),
            disk.inner(),
            call,
            &bytes_of(rt.alloc(), read)?,
        )?;
    }
    Ok(())
}

// A disk with two bytes, whose k-th call fails.
fn with_two_bytes(alloc: Global, k: u64) -> Result<FaultDisk<MemoryDisk>, Fail> {
    let mut inner = MemoryDisk::new(alloc, 16, 400)?;
    write_through(&mut inner, 0, &[1, 2])?;
    Ok(FaultDisk::new(inner, k, 0))
}

// Whether asking for the length of a disk with two bytes fails, and whether a read of it does.
fn failed_reads<D: Disk>(disk: &mut D) -> [bool; 2] {
    match disk.len() {
        Ok(2) => [false, disk.read(0, &mut [0; 2]).is_err()],
        Ok(_) => [false, false],
        Err(DeviceFault) => [true, false],
    }
}

#[test]
fn fails_a_read_and_a_length(rt: HostRuntime) -> Result<(), Fail> {
    for k in 1..3 {
        let mut disk = with_two_bytes(rt.alloc(), k)?;
        let failed = failed_reads(&mut disk);
        let read = contents(rt.alloc(), &mut disk)?;
        let found = (k, failed, read.as_slice());
        same(&rt, &found, &(k, [k == 1, k == 2], [1, 2].as_slice()));
    }
    Ok(())
}

// Makes five calls, a length, a read, a write, a sync and a length again, and returns which of them failed.
fn five_calls<D: Disk>(disk: &mut D) -> [bool; 5] {
    let told = length(disk).is_err();
    let read = disk.read(0, &mut []).is_err();
    let written = write(disk, 0, &[1]).is_err();
    let synced = disk.sync().is_err();
    [told, read, written, synced, length(disk).is_err()]
}

// One disk with an injected fault inside another: the outer call that fails, and how many bytes it still writes; the
// inner call that fails; and which of the five calls then fail.
// A failed outer call makes no inner call, unless it still writes some bytes.
const INSIDE: &str = "0 0 1 [true, false, false, false, false];\
    0 0 2 [false, true, false, false, false];\
    0 0 3 [false, false, true, false, false];\
    0 0 4 [false, false, false, true, false];\
    0 0 5 [false, false, false, false, true];\
    1 0 1 [true, true, false, false, false];\
    2 0 2 [false, true, true, false, false];\
    3 0 3 [false, false, true, true, false];\
    3 1 3 [false, false, true, false, false];\
    3 1 4 [false, false, true, true, false];\
    4 1 4 [false, false, false, true, true]";

// Which of five calls fail on a disk with an injected fault inside another one.
fn failed_inside(alloc: Global, k: u64, part: u32, inside: u64) -> Result<[bool; 5], Fail> {
    let inner = failing(alloc, inside, 0)?;
    Ok(five_calls(&mut FaultDisk::new(inner, k, part)))
}

#[test]
fn makes_one_inner_call_for_each(rt: HostRuntime) -> Result<(), Fail> {
    for row in INSIDE.split(';') {
        let mut left = row;
        let (k, kept) = (number(&rt, &mut left), small(&rt, &mut left));
        let found = failed_inside(rt.alloc(), k, kept, number(&rt, &mut left))?;
        told(&rt, rt.alloc(), row, &found, left)?;
    }
    Ok(())
}

#[test]
fn has_its_numbers(rt: HostRuntime) {
    let found = [DeviceFault.code(), OutOfMemory.code()];
    same(&rt, &(found, OPEN_GATE, CLOSED_GATE), &([30, 31], 165, 0));
    let area = Area { base: 1, length: 2 };
    same(&rt, &(area.base, area.length), &(1, 2));
}
