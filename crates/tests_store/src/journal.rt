//! A journal's bytes, the payloads that it is opened with, and calls that fail.
ghost use Rattle.std.specs.Prelude.{◌≤◌, length};

use crate::disks::{Failing, bytes_from, failing, length as length_of, stopped, write};
use crate::expect::{bytes_of, number, same, small, told};
use crate::ready::{AREA, blanked, opened, refreshed, reread};
use crate::small::empty_disk;
use std::alloc::Global;
use std::process::Abort;
use std::test::Fail;
use store_disk::{Disk, FaultDisk, Fill, MemoryDisk};
use store_journal::{Journal, JournalError, blank};
use tests_rows::part;

// A synced disk with these bytes from the start of the journal's area on.
fn disk_with(alloc: Global, bytes: &[u8]) -> Result<MemoryDisk, Fail> {
    let mut disk = empty_disk(alloc)?;
    write(&mut disk, 143, &[7])?;
    write(&mut disk, 144, bytes)?;
    disk.sync()?;
    Ok(disk)
}

// Whether the journal was opened with these payloads, each of which ends with `;`.
fn holds(journal: &Journal, payloads: &str) -> bool {
    let mut left = payloads;
    for n in 0..journal.count() {
        let (payload, rest) = left.split_once(';').unwrap_or(("none", ""));
        if journal.payload(n) != Some(payload.as_bytes()) {
            return false;
        }
        left = rest;
    }
    left.is_empty() && journal.payload(journal.count()) == None
}

/// Whether the disk's journal is opened with these payloads.
pub fn is_opened_with<D: Disk>(
    alloc: Global,
    disk: &mut D,
    payloads: &str,
) -> Result<bool, JournalError> {
    let journal = opened(alloc, disk)?;
    Ok(holds(&journal, payloads))
}

/// Opens the disk's journal, appends to it, and returns how many records it was opened with.
pub fn append<D: Disk>(alloc: Global, disk: &mut D, payload: &[u8]) -> Result<usize, JournalError>
    requires { length payload.now ≤ 256 }
{
    let mut journal = opened(alloc, disk)?;
    journal.append(disk, payload)?;
    Ok(journal.count())
}

/// The disk has these bytes from an offset to its end.
pub fn expect_bytes<D: Disk>(
    rt: &impl Abort,
    alloc: Global,
    disk: &mut D,
    at: u64,
    want: &[u8],
) -> Result<(), Fail> {
    let bytes = bytes_from(alloc, disk, at, usize::MAX)?;
    same(rt, &(at, bytes.as_slice()), &(at, want));
    Ok(())
}

// The room of a journal, and the offsets of its first two records.
fn room_and_places(journal: &Journal) -> (Option<u32>, [Option<u64>; 2]) {
    (journal.room(), [journal.place(0), journal.place(1)])
}

// The first record in a blank area.
fn expect_first_line(rt: &impl Abort, disk: &mut MemoryDisk) -> Result<(), Fail> {
    let mut journal = blanked(disk)?;
    same(rt, &room_and_places(&journal), &(Some(506), [None, None]));
    journal.append(disk, b"vertex 0 0")?;
    // A journal keeps the payloads that it was opened with, and not those that are appended.
    same(
        rt,
        &(journal.room(), holds(&journal, "")),
        &(Some(491), true),
    );
    Ok(())
}

// The same journal, opened again.
fn expect_line(rt: &impl Abort, alloc: Global, disk: &mut MemoryDisk) -> Result<(), Fail> {
    let again = opened(alloc, disk)?;
    same(rt, &holds(&again, "vertex 0 0;"), &true);
    same(
        rt,
        &room_and_places(&again),
        &(Some(491), [Some(144), None]),
    );
    Ok(())
}

// Both, and the bytes of the area between them.
fn expect_lines(rt: &impl Abort, alloc: Global, disk: &mut MemoryDisk) -> Result<(), Fail> {
    expect_first_line(rt, disk)?;
    expect_bytes(rt, alloc, disk, 144, b"\xa5\x0a\0\0\0vertex 0 0\0")?;
    expect_line(rt, alloc, disk)
}

#[test]
fn appends_behind_a_closed_gate(rt: HostRuntime) -> Result<(), Fail> {
    expect_lines(&rt, rt.alloc(), &mut empty_disk(rt.alloc())?)
}

// Bytes of the area, and the payloads that they stand for, each of which ends with `;`.
const OPENED: &str = "\
    \0|^\
    \0\n\0\0\0vertex 0 0\0|^\
    \x01\u{ff}\u{ff}\u{ff}\u{ff}\u{a5}\u{a5}|^\
    \u{a5}\n\0\0\0vertex 0 0\0|vertex 0 0;^\
    \u{a5}\n\0\0\0vertex 0 0\x07\u{a5}|vertex 0 0;^\
    \u{a5}\0\0\0\0\u{a5}\x01\0\0\0b\u{a4}|;b;";

// The bytes of a row stand for its payloads.
fn expect_opened(rt: &impl Abort, alloc: Global, row: &str) -> Result<(), Fail> {
    let mut payloads = row;
    let bytes = bytes_of(alloc, part(&mut payloads, '|'))?;
    let mut disk = disk_with(alloc, &bytes)?;
    let found = is_opened_with(alloc, &mut disk, payloads)?;
    same(rt, &(row, found), &(row, true));
    Ok(())
}

#[test]
fn opens_what_the_area_stands_for(rt: HostRuntime) -> Result<(), Fail> {
    for row in OPENED.split('^') {
        expect_opened(&rt, rt.alloc(), row)?;
    }
    Ok(())
}

// Reads these payloads one by one, and appends one to the journal that their reader becomes. Returns how many payloads
// that journal keeps, none if the area has others.
fn append_reread<D: Disk>(
    disk: &mut D,
    payloads: &[&[u8]],
    payload: &[u8],
) -> Result<Option<usize>, JournalError>
    requires { length payload.now ≤ 256 }
{
    let Some(found) = reread(disk, payloads)? else {
        return Ok(None);
    };
    let mut journal = found;
    journal.append(disk, payload)?;
    Ok(Some(journal.count()))
}

// Appends to an area that is read one by one, and opens it.
fn expect_reread<D: Disk>(rt: &impl Abort, alloc: Global, disk: &mut D) -> Result<(), Fail> {
    let kept = append_reread(disk, &[b"", b"b"], b"cd")?;
    let is_longer = is_opened_with(alloc, disk, ";b;cd;")?;
    same(rt, &(kept, is_longer), &(Some(0), true));
    Ok(())
}

#[test]
fn reads_one_by_one(rt: HostRuntime) -> Result<(), Fail> {
    let mut disk = disk_with(rt.alloc(), b"\xa5\0\0\0\0\xa5\x01\0\0\0b\0")?;
    expect_reread(&rt, rt.alloc(), &mut disk)
}

// Bytes of the area, and the offset where opening finds the damage. In turn: no gate, an open gate alone, and records
// that are cut off; lengths of 255 in a short file, of 257, and of more; a second record that is cut off.
const DAMAGED: &str = "\
    |Some(Damaged { place: 144 })^\
    \u{a5}|Some(Damaged { place: 144 })^\
    \u{a5}\n\0\0|Some(Damaged { place: 144 })^\
    \u{a5}\0\0\0\0|Some(Damaged { place: 144 })^\
    \u{a5}\n\0\0\0vertex 0 0|Some(Damaged { place: 144 })^\
    \u{a5}\u{ff}\0\0\0vertex 0 0\0|Some(Damaged { place: 144 })^\
    \u{a5}\x01\x01\0\0vertex 0 0\0|Some(Damaged { place: 144 })^\
    \u{a5}\n\0\0\u{80}vertex 0 0\0|Some(Damaged { place: 144 })^\
    \u{a5}\x01\0\0\0a\u{a5}\x01\0\0\0b|Some(Damaged { place: 150 })";

// How opening a disk's journal is refused.
fn refusal_of<D: Disk>(alloc: Global, disk: &mut D) -> Option<JournalError> {
    opened(alloc, disk).err()
}

// Opening the bytes of a row is refused as it says.
fn expect_damaged(rt: &impl Abort, alloc: Global, row: &str) -> Result<(), Fail> {
    let mut wanted = row;
    let bytes = bytes_of(alloc, part(&mut wanted, '|'))?;
    let mut disk = disk_with(alloc, &bytes)?;
    told(rt, alloc, row, &refusal_of(alloc, &mut disk), wanted)
}

#[test]
fn finds_damage_at_its_gate(rt: HostRuntime) -> Result<(), Fail> {
    for row in DAMAGED.split('^') {
        expect_damaged(&rt, rt.alloc(), row)?;
    }
    Ok(())
}

// Appends to a blank area until it is full.
fn fill(rt: &impl Abort, alloc: Global, disk: &mut MemoryDisk) -> Result<(), JournalError> {
    refreshed(disk)?;
    for n in 0..34 {
        same(rt, &append(alloc, disk, b"name MAP01")?, &n);
    }
    Ok(())
}

// The journal of a full area takes no further record.
fn expect_full(rt: &impl Abort, alloc: Global, disk: &mut MemoryDisk) -> Result<(), JournalError> {
    let mut journal = opened(alloc, disk)?;
    let places = [journal.place(33), journal.place(34)];
    let found = (journal.count(), journal.room(), places);
    same(rt, &found, &(34, None, [Some(639), None]));
    let full = Err(JournalError::JournalFull);
    same(rt, &journal.append(disk, b"name MAP01"), &full);
    same(rt, &journal.append(disk, b""), &full);
    Ok(())
}

// Both, and the last record.
fn expect_filled(rt: &impl Abort, alloc: Global, disk: &mut MemoryDisk) -> Result<(), Fail> {
    fill(rt, alloc, disk)?;
    expect_full(rt, alloc, disk)?;
    expect_bytes(rt, alloc, disk, 639, b"\xa5\x0a\0\0\0name MAP01\0")
}

#[test]
fn fills_the_area(rt: HostRuntime) -> Result<(), Fail> {
    expect_filled(&rt, rt.alloc(), &mut empty_disk(rt.alloc())?)
}

// Blanks an area, which takes two device calls, and appends a record. Returns how the append ended.
fn append_first<D: Disk>(disk: &mut D) -> Result<Result<(), JournalError>, JournalError> {
    let mut journal = blanked(disk)?;
    Ok(journal.append(disk, b"vertex 0 0"))
}

// The call of an append that fails, how many bytes it still writes, and the bytes that the area then has.
const WRITES: &str = "\
    1 0 \0^\
    1 3 \0\n\0\0^\
    1 15 \0\n\0\0\0vertex 0 0\0^\
    2 0 \0\n\0\0\0vertex 0 0\0^\
    3 0 \0\n\0\0\0vertex 0 0\0^\
    3 1 \u{a5}\n\0\0\0vertex 0 0\0^\
    4 0 \u{a5}\n\0\0\0vertex 0 0\0";

// After an append in which a call fails, the area has these bytes.
fn expect_written(
    rt: &impl Abort,
    alloc: Global,
    disk: &mut Failing,
    row: &str,
    want: &[u8],
) -> Result<(), Fail> {
    let appended = append_first(disk)?;
    let bytes = bytes_from(alloc, disk, 144, usize::MAX)?;
    same(
        rt,
        &(row, appended, bytes.as_slice()),
        &(row, Err(JournalError::Device), want),
    );
    Ok(())
}

// The same as a row says.
fn expect_write(rt: &impl Abort, alloc: Global, row: &str) -> Result<(), Fail> {
    let mut want = row;
    let (k, kept) = (number(rt, &mut want), small(rt, &mut want));
    let mut disk = failing(alloc, k.saturating_add(2), kept)?;
    expect_written(rt, alloc, &mut disk, row, &bytes_of(alloc, want)?)
}

#[test]
fn writes_the_record_and_then_its_gate(rt: HostRuntime) -> Result<(), Fail> {
    for row in WRITES.split('^') {
        expect_write(&rt, rt.alloc(), row)?;
    }
    Ok(())
}

// The call behind an append to a blank area fails.
fn expect_calls(rt: &impl Abort, disk: &mut Failing) -> Result<(), Fail> {
    let appended = append_first(disk)?;
    same(rt, &(appended, length_of(disk).is_err()), &(Ok(()), true));
    Ok(())
}

#[test]
fn makes_four_device_calls(rt: HostRuntime) -> Result<(), Fail> {
    expect_calls(&rt, &mut failing(rt.alloc(), 7, 0)?)
}

// A disk with a journal of one record, whose k-th call fails.
fn failing_with_record(alloc: Global, k: u64) -> Result<Failing, Fail> {
    let disk = disk_with(alloc, b"\xa5\x01\0\0\0a\0")?;
    Ok(FaultDisk::new(disk, k, 0))
}

// The call behind an opening fails.
fn expect_read(rt: &impl Abort, alloc: Global, disk: &mut Failing) -> Result<(), Fail> {
    let is_a = is_opened_with(alloc, disk, "a;")?;
    same(rt, &(is_a, length_of(disk).is_err()), &(true, true));
    Ok(())
}

#[test]
fn opens_by_its_reads_alone(rt: HostRuntime) -> Result<(), Fail> {
    // Five calls: the test's own sync, the length of the disk, the record's gate and length, its payload, the last
    // gate.
    expect_read(&rt, rt.alloc(), &mut failing_with_record(rt.alloc(), 6)?)
}

#[test]
fn blanks_by_one_device_call(rt: HostRuntime) -> Result<(), Fail> {
    let mut disk = failing(rt.alloc(), 2, 0)?;
    let blanked = blank(&mut disk, AREA).is_ok();
    same(
        &rt,
        &(blanked, length_of(&mut disk).is_err()),
        &(true, true),
    );
    Ok(())
}

#[test]
fn answers_a_device_that_fails(rt: HostRuntime) -> Result<(), Fail> {
    // The test's own sync, the length of the disk, the record's gate and length, its payload, the last gate.
    for k in 1..6 {
        let mut disk = failing_with_record(rt.alloc(), k)?;
        let refused = refusal_of(rt.alloc(), &mut disk);
        let is_a = is_opened_with(rt.alloc(), &mut disk, "a;")?;
        let device = Some(JournalError::Device);
        same(&rt, &(k, refused, is_a), &(k, device, true));
    }
    let refused = blank(&mut failing(rt.alloc(), 1, 0)?, AREA).err();
    same(&rt, &refused, &Some(JournalError::Device));
    Ok(())
}

// A stop leaves the closed gate of such a journal, with the old record after it.
fn expect_closed(rt: &impl Abort, alloc: Global, disk: &MemoryDisk) -> Result<(), Fail> {
    let mut left = stopped(alloc, disk, Fill::Stable, false)?;
    expect_bytes(rt, alloc, &mut left, 143, b"\x07\0\x01\0\0\0a\0")
}

// Blanks the journal of an area with a record, and appends to it.
fn expect_refreshed(rt: &impl Abort, alloc: Global, disk: &mut MemoryDisk) -> Result<(), Fail> {
    let mut journal = refreshed(disk)?;
    same(rt, &journal.room(), &Some(506));
    expect_closed(rt, alloc, disk)?;
    journal.append(disk, b"bc")?;
    same(rt, &is_opened_with(alloc, disk, "bc;")?, &true);
    Ok(())
}

#[test]
fn blanks_a_journal(rt: HostRuntime) -> Result<(), Fail> {
    let mut disk = disk_with(rt.alloc(), b"\xa5\x01\0\0\0a\0")?;
    expect_refreshed(&rt, rt.alloc(), &mut disk)
}

#[test]
fn numbers_its_refusals(rt: HostRuntime) {
    let found = [
        JournalError::Device.code(),
        JournalError::OutOfMemory.code(),
        JournalError::Reopen.code(),
        JournalError::JournalFull.code(),
        JournalError::Damaged { place: 144 }.code(),
    ];
    same(&rt, &found, &[30, 31, 32, 34, 40]);
}
