//! What stops leave of a journal when a call of an append fails.
ghost use Rattle.store_journal.specs.State.{IsReadyIn};

use crate::disks::{Failing, failing, stopped};
use crate::expect::same;
use crate::journal::{append, is_opened_with};
use crate::ready::{blanked, opened};
use crate::small::FILLS;
use std::alloc::Global;
use std::process::Abort;
use std::test::Fail;
use store_disk::{Disk, Fill, MemoryDisk};
use store_journal::{Journal, JournalError};

const ONE: &str = "first;";

const BOTH: &str = "first;second;";

// A stop left both records; or only `first`, if the append of `second` wasn't `done`. Returns whether it left both.
fn is_both<D: Disk>(
    rt: &impl Abort,
    alloc: Global,
    left: &mut D,
    done: bool,
    stop: &Stop,
) -> Result<bool, JournalError> {
    let both = is_opened_with(alloc, left, BOTH)?;
    let one = is_opened_with(alloc, left, ONE)?;
    same(rt, &(stop, both || (!done && one)), &(stop, true));
    Ok(both)
}

// The call that failed, how many bytes of its write were still written, the stop's fill, and whether the stop left the
// longest image.
type Stop = (u64, u32, Fill, bool);

// A stop left one record or both, and a third one can be appended.
fn expect_left<D: Disk>(
    rt: &impl Abort,
    alloc: Global,
    left: &mut D,
    done: bool,
    stop: &Stop,
) -> Result<(), JournalError> {
    let both = is_both(rt, alloc, left, done, stop)?;
    append(alloc, left, b"third")?;
    let want = if both { ALL } else { FIRST_AND_THIRD };
    let all = is_opened_with(alloc, left, want)?;
    same(rt, &(stop, all), &(stop, true));
    Ok(())
}

const ALL: &str = "first;second;third;";

const FIRST_AND_THIRD: &str = "first;third;";

// One stop leaves one record or both.
fn expect_stop(
    rt: &impl Abort,
    alloc: Global,
    disk: &MemoryDisk,
    done: bool,
    stop: &Stop,
) -> Result<(), Fail> {
    let mut left = stopped(alloc, disk, stop.2, stop.3)?;
    expect_left(rt, alloc, &mut left, done, stop)?;
    Ok(())
}

// The same for stops with each fill, and the longest and the shortest image.
fn expect_stops(
    rt: &impl Abort,
    alloc: Global,
    disk: &MemoryDisk,
    done: bool,
    call: (u64, u32),
) -> Result<(), Fail> {
    for &fill in FILLS {
        expect_stop(rt, alloc, disk, done, &(call.0, call.1, fill, false))?;
        expect_stop(rt, alloc, disk, done, &(call.0, call.1, fill, true))?;
    }
    Ok(())
}

/// A disk with a journal of one record, whose k-th call after the opening fails, none if `k` is 0. The 11 calls before
/// that are two to blank the journal, four to append the first record, and five to open the journal.
pub fn disk_with_first(alloc: Global, k: u64, part: u32) -> Result<Failing, Fail> {
    let call = if k == 0 { 0 } else { k.saturating_add(11) };
    let mut disk = failing(alloc, call, part)?;
    begin(&mut disk)?;
    Ok(disk)
}

fn begin<D: Disk>(disk: &mut D) -> Result<(), JournalError> {
    let mut journal = blanked(disk)?;
    journal.append(disk, b"first")
}

// Appends `second` to the journal with the record `first` while the k-th device call fails, none if `k` is 0, and tests
// what stops leave.
fn expect_outcomes(
    rt: &impl Abort,
    alloc: Global,
    disk: &mut Failing,
    k: u64,
    part: u32,
) -> Result<(), Fail> {
    let mut journal = opened(alloc, disk)?;
    let done = expect_appended(rt, &mut journal, disk, k);
    expect_stops(rt, alloc, disk.inner(), done, (k, part))?;
    is_both(rt, alloc, disk, done, &(k, part, Fill::Written, true))?;
    Ok(())
}

// Appends `second`, and returns whether that succeeded.
fn expect_appended<D: Disk>(rt: &impl Abort, journal: &mut Journal, disk: &mut D, k: u64) -> bool
    requires { IsReadyIn journal.old (D.may_leave disk.old) }
{
    let appended = journal.append(disk, b"second");
    if k == 0 {
        same(rt, &appended, &Ok(()));
        return true;
    }
    // The journal must now be reopened. It refuses each append, and makes no call of the disk.
    let third = journal.append(disk, b"third");
    let long = journal.append(disk, &[0; 256]);
    same(
        rt,
        &(k, [appended, third, long]),
        &(
            k,
            [
                Err(JournalError::Device),
                Err(JournalError::Reopen),
                Err(JournalError::Reopen),
            ],
        ),
    );
    false
}

const PARTS: &[u32] = &[0, 1, 5, 11];

#[test]
fn stops_at_every_call(rt: HostRuntime) -> Result<(), Fail> {
    for k in 0..5 {
        for &part in PARTS {
            let mut disk = disk_with_first(rt.alloc(), k, part)?;
            expect_outcomes(&rt, rt.alloc(), &mut disk, k, part)?;
        }
    }
    Ok(())
}
