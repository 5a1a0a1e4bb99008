//! The change from one slot to the other: its writes in order, and what a stop during it leaves.

ghost use Rattle.std.specs.Prelude.{◌≡◌, ◌≤◌, ◌<◌, ◌+◌, ◌^◌, length, IfOk};
ghost use Rattle.store_disk.specs.Stops.{Each};
ghost use Rattle.store_slots.specs.Handles.{body_in, generation_in, generation_of, other_of, second_of, HasSomeSlots};

use crate::disk::fill_of;
use crate::disks::{
    Failing, bytes_from, cut, expect_bytes, failing, length as length_of, stopped, write,
};
use crate::expect::{number, same, small, told};
use crate::small::empty_disk;
use std::alloc::Global;
use std::process::Abort;
use std::test::Fail;
use store_disk::{Area, DeviceFault, Disk, FaultDisk, Fill, MemoryDisk};
use store_slots::{CheckpointError, Found, Image, Slots, first};
use tests_rows::part;

const A: Area = Area {
    base: 16,
    length: 64,
};

const B: Area = Area {
    base: 80,
    length: 64,
};

const JOURNAL_A: Area = Area {
    base: 144,
    length: 512,
};

const JOURNAL_B: Area = Area {
    base: 656,
    length: 512,
};

const OLD: &[u8] = b"the old body of 24 bytes";

pub const NEW: &[u8] = b"the new body of 24 bytes";

/// Syncs a disk, and opens its slots.
pub fn opened<D: Disk>(alloc: Global, disk: &mut D) -> Result<(Slots, Found), CheckpointError>
    ensures ready { IfOk result (λ r. Each (D.may_leave disk.new) (HasSomeSlots r.0)) }
    ensures behind { IfOk result (λ r. (second_of r.0).base + (second_of r.0).length ≡ 144) }
{
    disk.sync()?;
    Slots::open(alloc, disk, A, B)
}

// Changes the live slot, by the three calls of a change.
fn turned<D: Disk>(
    disk: &mut D,
    slots: Slots,
    image: &Image,
    journal: Area,
) -> Result<Slots, DeviceFault>
    requires slots { Each (D.may_leave disk.old) (HasSomeSlots slots) }
    requires next { generation_in image.now ≡ generation_of slots + 1 }
    requires number { generation_of slots + 1 < 2 ^ 64 }
    requires fits { 13 + length (body_in image.now) ≤ (other_of slots).length }
    requires apart { (second_of slots).base + (second_of slots).length ≤ journal.base }
    requires some { 0 < journal.length }
    ensures ready { IfOk result (λ s. Each (D.may_leave disk.new) (HasSomeSlots s)) }
    ensures second { IfOk result (λ s. second_of s ≡ second_of slots) }
{
    let closed = slots.close_other(disk, image)?;
    let filled = closed.fill(disk, image, journal)?;
    filled.open_other(disk)
}

// Writes two slots and the first bytes of two journals, and syncs them.
fn begin(disk: &mut MemoryDisk) -> Result<(), DeviceFault> {
    first(disk, A, B, OLD)?;
    write(disk, JOURNAL_A.base, &[7])?;
    write(disk, JOURNAL_B.base, &[7])?;
    disk.sync()
}

/// A synced file with two slots and the first bytes of two journals: slot A is live with `OLD`, and both journals begin
/// with a 7.
pub fn disk_with_old(alloc: Global) -> Result<MemoryDisk, Fail> {
    let mut disk = empty_disk(alloc)?;
    begin(&mut disk)?;
    Ok(disk)
}

/// A slot as it is written: its gate, its generation, its length field, and its body.
#[derive(Drop)]
pub struct Slot<'a> {
    gate: u8,
    generation: u64,
    len: u32,
    body: &'a [u8],
}

/// The bytes of a body that has this word in a row.
pub fn body_of(word: &str) -> &[u8] {
    match word {
        "old" => OLD,
        "new" => NEW,
        "-" => b"",
        _ => word.as_bytes(),
    }
}

// The next slot of a row.
fn slot_of<'a>(rt: &impl Abort, left: &mut &'a str) -> Slot<'a> {
    Slot {
        gate: u8::try_from(number(rt, left)).unwrap_or(0),
        generation: number(rt, left),
        len: small(rt, left),
        body: body_of(part(left, ' ')),
    }
}

fn put_down<D: Disk>(disk: &mut D, at: u64, slot: &Slot<'_>) -> Result<(), DeviceFault> {
    write(disk, at, &[slot.gate])?;
    write(disk, at.saturating_add(1), &slot.generation.to_le_bytes())?;
    write(disk, at.saturating_add(9), &slot.len.to_le_bytes())?;
    write(disk, at.saturating_add(13), slot.body)
}

/// A synced file that has the next two slots of a row and ends at the offset behind them.
pub fn disk_with(rt: &impl Abort, alloc: Global, left: &mut &str) -> Result<MemoryDisk, Fail> {
    let mut whole = empty_disk(alloc)?;
    put_down(&mut whole, A.base, &slot_of(rt, left))?;
    put_down(&mut whole, B.base, &slot_of(rt, left))?;
    write(&mut whole, 1000, &[0])?;
    cut(alloc, &mut whole, number(rt, left) as usize)
}

// Makes the other slot live, with this body. Returns the slot that is live then, and its generation.
fn turn<D: Disk>(
    alloc: Global,
    disk: &mut D,
    body: &[u8],
    journal: Area,
) -> Result<(u8, u64), CheckpointError>
    requires behind { 144 ≤ journal.base }
    requires some { 0 < journal.length }
{
    let (slots, _) = opened(alloc, disk)?;
    let image = slots.image(alloc, body)?;
    let slots = turned(disk, slots, &image, journal)?;
    Ok((slots.slot(), slots.generation()))
}

/// The live slot of a disk and its generation, if both results of opening agree on them and the slot has this body.
pub fn live<D: Disk>(
    alloc: Global,
    disk: &mut D,
    body: &[u8],
) -> Result<Option<(u8, u64)>, CheckpointError> {
    let (slots, found) = opened(alloc, disk)?;
    Ok(live_in(&slots, &found, body))
}

// The same of what opening returned.
fn live_in(slots: &Slots, found: &Found, body: &[u8]) -> Option<(u8, u64)> {
    let told = (found.slot, found.generation);
    if (slots.slot(), slots.generation()) == told && found.body.as_slice() == body {
        Some(told)
    } else {
        None
    }
}

// The first slots are written by three calls, without a sync. Slot 0 is live then, with generation 1.
fn expect_first(rt: &impl Abort, disk: &mut Failing) -> Result<(), Fail> {
    let slots = first(disk, A, B, OLD)?;
    let found = (slots.slot(), slots.generation(), length_of(disk));
    same(rt, &found, &(0, 1, Err(DeviceFault)));
    Ok(())
}

// No byte of the first slots is synced, but reads return all of them.
fn expect_first_bytes(rt: &impl Abort, alloc: Global, disk: &mut Failing) -> Result<(), Fail> {
    let synced = length_of(&mut stopped(alloc, disk.inner(), Fill::Stable, false)?)?;
    same(rt, &(synced, length_of(disk)?), &(0, 81));
    expect_bytes(rt, alloc, disk, "a first slot", 16, FIRST)?;
    expect_bytes(rt, alloc, disk, "a closed gate", 80, "\0")
}

const FIRST: &str = "\u{a5}\x01\0\0\0\0\0\0\0\x18\0\0\0the old body of 24 bytes";

// Both, and the slots are opened.
fn expect_begun(rt: &impl Abort, alloc: Global, disk: &mut Failing) -> Result<(), Fail> {
    expect_first(rt, disk)?;
    expect_first_bytes(rt, alloc, disk)?;
    same(rt, &live(alloc, disk, OLD)?, &Some((0, 1)));
    Ok(())
}

#[test]
fn writes_the_first_slots(rt: HostRuntime) -> Result<(), Fail> {
    expect_begun(&rt, rt.alloc(), &mut failing(rt.alloc(), 4, 0)?)
}

#[test]
fn answers_a_device_that_fails_at_first(rt: HostRuntime) -> Result<(), Fail> {
    for k in 1..4 {
        let mut disk = failing(rt.alloc(), k, 0)?;
        let refused = first(&mut disk, A, B, OLD).err();
        same(&rt, &(k, refused), &(k, Some(DeviceFault)));
    }
    Ok(())
}

// The journal that begins after the n-th change.
fn journal_of(n: u32) -> Area
    ensures behind { 144 ≤ result.base }
    ensures some { 0 < result.length }
{
    if n % 2 == 0 { JOURNAL_B } else { JOURNAL_A }
}

// A disk that had the old body at first, after this many changes, each to the given body.
fn disk_after(alloc: Global, turns: u32, body: &[u8]) -> Result<MemoryDisk, Fail> {
    let mut disk = disk_with_old(alloc)?;
    for n in 0..turns {
        turn(alloc, &mut disk, body, journal_of(n))?;
    }
    Ok(disk)
}

// Changes a disk, which had this many changes before, to the new body. The call (k, part) fails: the k-th device call,
// none if k is 0, after the first `part` bytes of its write. Returns the disk; and the live slot and its generation, if
// no call failed.
fn changed(
    alloc: Global,
    disk: MemoryDisk,
    turns: u32,
    call: (u64, u32),
) -> Result<(Failing, Option<(u8, u64)>), Fail> {
    let mut disk = disk;
    let (slots, _) = opened(alloc, &mut disk)?;
    let image = slots.image(alloc, NEW)?;
    let mut disk = FaultDisk::new(disk, call.0, call.1);
    let next = turned(&mut disk, slots, &image, journal_of(turns));
    Ok((
        disk,
        next.ok().map(|slots| (slots.slot(), slots.generation())),
    ))
}

// How many changes come before one, the first device call that it doesn't make, and the slot and generation that are
// live after it.
const CALLS: &str = "0 6 Some((1, 2));1 8 Some((0, 3));2 8 Some((1, 4))";

// The change of a row makes its calls, and no more.
fn expect_calls(rt: &impl Abort, alloc: Global, row: &str) -> Result<(), Fail> {
    let mut want = row;
    let (turns, k) = (small(rt, &mut want), number(rt, &mut want));
    let disk = disk_after(alloc, turns, NEW)?;
    let (mut disk, next) = changed(alloc, disk, turns, (k, 0))?;
    same(rt, &(row, length_of(&mut disk)), &(row, Err(DeviceFault)));
    told(rt, alloc, row, &next, want)
}

#[test]
fn changes_by_five_calls_and_by_seven(rt: HostRuntime) -> Result<(), Fail> {
    for row in CALLS.split(';') {
        expect_calls(&rt, rt.alloc(), row)?;
    }
    Ok(())
}

// How many changes come before one; the call k of it that fails, and how many bytes of its write are still written; an
// offset, and the bytes that the file then has there. The first change writes the content and then its gate; the second
// one closes an open slot first.
const WRITES: &str = "0 1 0 80 \0\0\0;0 1 1 80 \0\x02\0;\
    0 1 36 80 \0\x02\0\0\0\0\0\0\0\x18\0\0\0the new body of 24 bytes;\
    0 2 0 80 \0\x02\0\0\0\0\0\0\0\x18\0\0\0the new body of 24 bytes;\
    0 2 0 656 \x07;0 2 1 656 \0;0 3 0 656 \0;\
    0 4 0 80 \0\x02\0\0\0\0\0\0\0\x18\0\0\0the new body of 24 bytes;\
    0 4 1 80 \u{a5}\x02\0\0\0\0\0\0\0\x18\0\0\0the new body of 24 bytes;\
    0 5 0 80 \u{a5}\x02\0\0\0\0\0\0\0\x18\0\0\0the new body of 24 bytes;\
    0 5 0 16 \u{a5}\x01;0 5 0 144 \x07;1 1 0 16 \u{a5}\x01;\
    1 1 1 16 \0\x01\0\0\0\0\0\0\0\x18\0\0\0the old body of 24 bytes;\
    1 2 0 16 \0\x01\0\0\0\0\0\0\0\x18\0\0\0the old body of 24 bytes;\
    1 3 0 16 \0\x01\0\0\0\0\0\0\0\x18\0\0\0the old body of 24 bytes;\
    1 3 36 16 \0\x03\0\0\0\0\0\0\0\x18\0\0\0the new body of 24 bytes;\
    1 4 0 16 \0\x03\0\0\0\0\0\0\0\x18\0\0\0the new body of 24 bytes;\
    1 4 0 144 \x07;1 4 1 144 \0;1 5 0 144 \0;\
    1 6 0 16 \0\x03\0\0\0\0\0\0\0\x18\0\0\0the new body of 24 bytes;\
    1 6 1 16 \u{a5}\x03\0\0\0\0\0\0\0\x18\0\0\0the new body of 24 bytes;\
    1 7 0 16 \u{a5}\x03\0\0\0\0\0\0\0\x18\0\0\0the new body of 24 bytes;1 7 0 80 \u{a5}\x02";

// The change of a row fails, and the file then has its bytes.
fn expect_write(rt: &impl Abort, alloc: Global, row: &str) -> Result<(), Fail> {
    let mut left = row;
    let turns = small(rt, &mut left);
    let call = (number(rt, &mut left), small(rt, &mut left));
    let at = number(rt, &mut left);
    let (mut disk, next) = changed(alloc, disk_after(alloc, turns, NEW)?, turns, call)?;
    same(rt, &(row, next), &(row, None));
    expect_bytes(rt, alloc, &mut disk, row, at, left)
}

#[test]
fn writes_the_content_and_then_its_gate(rt: HostRuntime) -> Result<(), Fail> {
    for row in WRITES.split(';') {
        expect_write(&rt, rt.alloc(), row)?;
    }
    Ok(())
}

// What a stop may leave in place of bytes that weren't synced.
const FILLS: &str = "stable;written;byte 0;byte 165;upto 1;upto 20";

// Either the old body is live, or the new one with the next generation; if the change was done, the new one. The next
// change starts from there.
fn expect_either<D: Disk>(
    rt: &impl Abort,
    alloc: Global,
    disk: &mut D,
    turns: u32,
    done: bool,
) -> Result<(), Fail> {
    let new = live(alloc, disk, NEW)?;
    let old = live(alloc, disk, OLD)?;
    let found = if done || new.is_some() { new } else { old };
    let generation = u64::from(turns) + if new.is_some() { 2 } else { 1 };
    let (slot, other) = if generation % 2 == 1 { (0, 1) } else { (1, 0) };
    same(
        rt,
        &(turns, done, found),
        &(turns, done, Some((slot, generation))),
    );
    let next = turn(alloc, disk, b"the next", JOURNAL_A)?;
    let again = live(alloc, disk, b"the next")?;
    same(rt, &next, &(other, generation + 1));
    same(rt, &again, &Some(next));
    Ok(())
}

// The same after a stop; `stop` is its fill, and whether it leaves the longest image or the shortest.
fn expect_stop(
    rt: &impl Abort,
    alloc: Global,
    disk: &MemoryDisk,
    stop: (Fill, bool),
    turns: u32,
    done: bool,
) -> Result<(), Fail> {
    let mut left = stopped(alloc, disk, stop.0, stop.1)?;
    expect_either(rt, alloc, &mut left, turns, done)
}

// The same after stops with each fill, and without a stop.
fn expect_stops(
    rt: &impl Abort,
    alloc: Global,
    disk: &mut Failing,
    turns: u32,
    done: bool,
) -> Result<(), Fail> {
    for row in FILLS.split(';') {
        let mut left = row;
        let fill = fill_of(rt, &mut left);
        expect_stop(rt, alloc, disk.inner(), (fill, false), turns, done)?;
        expect_stop(rt, alloc, disk.inner(), (fill, true), turns, done)?;
    }
    expect_either(rt, alloc, disk, turns, done)
}

// A change during which the call (k, part) fails, as in `changed`, leaves the old body or the new one live. This many
// changes come before it.
fn expect_outcomes(
    rt: &impl Abort,
    alloc: Global,
    turns: u32,
    call: (u64, u32),
) -> Result<(), Fail> {
    let disk = disk_after(alloc, turns, OLD)?;
    let (mut disk, next) = changed(alloc, disk, turns, call)?;
    let done = next.is_some();
    same(rt, &(turns, call, done), &(turns, call, call.0 == 0));
    expect_stops(rt, alloc, &mut disk, turns, done)
}

const PARTS: &[u32] = &[0, 1, 12, 20, 36];

// How many changes come before one, and how many values of k are tried: 0, where no call fails, and each call.
const TRIED: &[(u32, u64)] = &[(0, 6), (1, 8)];

#[test]
fn stops_at_every_call(rt: HostRuntime) -> Result<(), Fail> {
    for &(turns, calls) in TRIED {
        for k in 0..calls {
            for &part in PARTS {
                expect_outcomes(&rt, rt.alloc(), turns, (k, part))?;
            }
        }
    }
    Ok(())
}
