//! A journal's groups: their bytes, and what stops leave when a call of an append of a group fails.
ghost use Rattle.std.specs.Prelude.{◌<◌, length};
ghost use Rattle.store_journal.specs.State.{IsReadyIn};

use crate::disks::{Failing, stopped};
use crate::expect::same;
use crate::journal::{expect_bytes, is_opened_with};
use crate::journal_stops::disk_with_first;
use crate::ready::{blanked, opened};
use crate::small::{FILLS, empty_disk};
use std::alloc::Global;
use std::process::Abort;
use std::test::Fail;
use store_disk::{Disk, Fill, MemoryDisk};
use store_journal::{Group, Journal, JournalError};

// How many payloads a group has, and the last of them; the others are empty.
type Many = (usize, &'static [u8]);

// The last one fills the area, after the record of `first`.
const GROUPS: &[Many] = &[(1, b"second"), (2, b"second"), (100, b""), (100, b"x")];

fn group_of(alloc: Global, many: &Many) -> Result<Group, Fail> {
    let mut group = Group::new(alloc)?;
    for _ in 1..many.0 {
        group.push(b"")?;
    }
    if many.1.len() <= 256 {
        group.push(many.1)?;
    }
    Ok(group)
}

// The call that failed, how many bytes of its write were still written, the stop's fill, and whether the stop left the
// longest image.
type Stop = (u64, u32, Fill, bool);

// How many records a stop left, and whether they are `first` alone, or `first` and the whole group.
fn left_of<D: Disk>(
    alloc: Global,
    left: &mut D,
    many: &Many,
) -> Result<(usize, bool, bool), JournalError> {
    let journal = opened(alloc, left)?;
    let count = journal.count();
    let first = journal.payload(0) == Some(b"first".as_slice());
    let whole = count == many.0.saturating_add(1) && journal.payload(many.0) == Some(many.1);
    Ok((count, first && count == 1, first && whole))
}

// A stop left the whole group; or none of it, if its append wasn't `done`.
fn expect_left<D: Disk>(
    rt: &impl Abort,
    alloc: Global,
    left: &mut D,
    many: &Many,
    done: bool,
    stop: &Stop,
) -> Result<(), JournalError> {
    let (count, none, whole) = left_of(alloc, left, many)?;
    same(
        rt,
        &(stop, many, count, whole || (!done && none)),
        &(stop, many, count, true),
    );
    Ok(())
}

// The same for a stop.
fn expect_stop(
    rt: &impl Abort,
    alloc: Global,
    disk: &MemoryDisk,
    many: &Many,
    done: bool,
    stop: &Stop,
) -> Result<(), Fail> {
    let mut left = stopped(alloc, disk, stop.2, stop.3)?;
    Ok(expect_left(rt, alloc, &mut left, many, done, stop)?)
}

// The same for stops with each fill, and the longest and the shortest image.
fn expect_stops(
    rt: &impl Abort,
    alloc: Global,
    disk: &MemoryDisk,
    many: &Many,
    done: bool,
    call: (u64, u32),
) -> Result<(), Fail> {
    for &fill in FILLS {
        expect_stop(rt, alloc, disk, many, done, &(call.0, call.1, fill, false))?;
        expect_stop(rt, alloc, disk, many, done, &(call.0, call.1, fill, true))?;
    }
    Ok(())
}

// Appends a group while the k-th call fails, none if `k` is 0. Returns whether that succeeded.
fn expect_appended<D: Disk>(
    rt: &impl Abort,
    journal: &mut Journal,
    disk: &mut D,
    group: &Group,
    k: u64,
) -> bool
    requires some { 1 < length group.now }
    requires ready { IsReadyIn journal.old (D.may_leave disk.old) }
{
    let ended = journal.append_all(disk, group);
    if k == 0 {
        same(rt, &ended, &Ok(()));
        return true;
    }
    // The journal must now be reopened. It refuses each append, and makes no call of the disk.
    let again = journal.append_all(disk, group);
    same(
        rt,
        &(k, ended, again),
        &(k, Err(JournalError::Device), Err(JournalError::Reopen)),
    );
    false
}

// Appends a group to the journal with the record `first` while the k-th device call fails, none if `k` is 0, and tests
// what stops leave.
fn expect_outcomes(
    rt: &impl Abort,
    alloc: Global,
    disk: &mut Failing,
    many: &Many,
    call: (u64, u32),
) -> Result<(), Fail> {
    let group = group_of(alloc, many)?;
    let mut journal = opened(alloc, disk)?;
    if group.is_empty() {
        return Ok(());
    }
    let done = expect_appended(rt, &mut journal, disk, &group, call.0);
    expect_stops(rt, alloc, disk.inner(), many, done, call)?;
    expect_left(
        rt,
        alloc,
        disk,
        many,
        done,
        &(call.0, call.1, Fill::Written, true),
    )?;
    Ok(())
}

const PARTS: &[u32] = &[0, 1, 5, 11, 505];

#[test]
fn stops_at_every_call_of_a_group(rt: HostRuntime) -> Result<(), Fail> {
    for many in GROUPS {
        for k in 0..5 {
            for &part in PARTS {
                let mut disk = disk_with_first(rt.alloc(), k, part)?;
                expect_outcomes(&rt, rt.alloc(), &mut disk, many, (k, part))?;
            }
        }
    }
    Ok(())
}

// A group of these payloads, which `;` divides.
fn group_with(alloc: Global, payloads: &str) -> Result<Group, Fail> {
    let mut group = Group::new(alloc)?;
    for payload in payloads.split(';') {
        let payload = payload.as_bytes();
        if payload.len() <= 256 {
            group.push(payload)?;
        }
    }
    Ok(group)
}

// Appends a group to a blank area, once and then again, and returns how that ended.
fn append_twice<D: Disk>(
    disk: &mut D,
    group: &Group,
) -> Result<[Result<(), JournalError>; 2], JournalError>
    requires { 1 < length group.now }
{
    let mut journal = blanked(disk)?;
    let first = journal.append_all(disk, group);
    let second = journal.append_all(disk, group);
    Ok([first, second])
}

// The same of a group with these payloads: how each append ended.
fn expect_twice(
    rt: &impl Abort,
    alloc: Global,
    disk: &mut MemoryDisk,
    payloads: &str,
    wanted: &[Result<(), JournalError>; 2],
) -> Result<(), Fail> {
    let group = group_with(alloc, payloads)?;
    if group.is_empty() {
        return Ok(());
    }
    same(rt, &append_twice(disk, &group)?, wanted);
    Ok(())
}

#[test]
fn appends_a_group_as_a_whole(rt: HostRuntime) -> Result<(), Fail> {
    let mut disk = empty_disk(rt.alloc())?;
    expect_twice(&rt, rt.alloc(), &mut disk, "a;;bc", &[Ok(()), Ok(())])?;
    let bytes =
        b"\xa5\x01\0\0\0a\xa5\0\0\0\0\xa5\x02\0\0\0bc\xa5\x01\0\0\0a\xa5\0\0\0\0\xa5\x02\0\0\0bc\0";
    expect_bytes(&rt, rt.alloc(), &mut disk, 144, bytes)
}

// Twice this payload and its record's six other bytes are more than the 512 of the area.
const HALF: &str = "\
    xxxxxxxxxxxxxxxxxxxxxxxxxxxxxxxxxxxxxxxxxxxxxxxxxxxxxxxxxxxxxxxxxxxxxxxxxxxxxxxxxxxxxxxxxxxxxxxxxxxx\
    xxxxxxxxxxxxxxxxxxxxxxxxxxxxxxxxxxxxxxxxxxxxxxxxxxxxxxxxxxxxxxxxxxxxxxxxxxxxxxxxxxxxxxxxxxxxxxxxxxxx\
    xxxxxxxxxxxxxxxxxxxxxxxxxxxxxxxxxxxxxxxxxxxxxxxxxxx";

// Whether the disk's journal has this payload alone.
fn holds_half(alloc: Global, disk: &mut MemoryDisk) -> Result<bool, Fail> {
    let payloads = format!(in alloc; "{HALF};")?;
    Ok(is_opened_with(alloc, disk, payloads.as_str())?)
}

#[test]
fn refuses_a_group_that_does_not_fit(rt: HostRuntime) -> Result<(), Fail> {
    let mut disk = empty_disk(rt.alloc())?;
    let wanted = [Ok(()), Err(JournalError::JournalFull)];
    expect_twice(&rt, rt.alloc(), &mut disk, HALF, &wanted)?;
    same(&rt, &holds_half(rt.alloc(), &mut disk)?, &true);
    Ok(())
}
