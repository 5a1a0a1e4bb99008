//! Opening two slots: which one is live, where damage is found, and generations that are used up.

use crate::checkpoint::{NEW, body_of, disk_with, disk_with_old, live, opened};
use crate::expect::{number, same, told};
use std::alloc::Global;
use std::process::Abort;
use std::test::Fail;
use store_disk::{Disk, FaultDisk, MemoryDisk};
use store_slots::CheckpointError;
use tests_rows::part;

// Two slots, each with its gate, its generation, its length field and its body; where the file ends; the body that is
// live, and the slot and the generation.
const OPENED: &str = "165 1 1 a 0 0 0 - 81 a Some((0, 1))\n\
    165 1 1 a 1 9 200 b 81 a Some((0, 1))\n\
    165 2 1 a 165 1 1 b 200 a Some((0, 2))\n\
    165 1 1 a 165 2 1 b 200 b Some((1, 2))\n\
    0 3 255 a 165 2 1 b 200 b Some((1, 2))\n\
    165 0 0 - 164 2 1 b 200 - Some((0, 0))\n\
    165 7 51 xxxxxxxxxxxxxxxxxxxxxxxxxxxxxxxxxxxxxxxxxxxxxxxxxxx 0 0 0 - 81 \
    xxxxxxxxxxxxxxxxxxxxxxxxxxxxxxxxxxxxxxxxxxxxxxxxxxx Some((0, 7))\n\
    0 0 0 - 165 8 51 xxxxxxxxxxxxxxxxxxxxxxxxxxxxxxxxxxxxxxxxxxxxxxxxxxx 144 \
    xxxxxxxxxxxxxxxxxxxxxxxxxxxxxxxxxxxxxxxxxxxxxxxxxxx Some((1, 8))";

// Opens the slots of a row.
fn expect_opened(rt: &impl Abort, alloc: Global, row: &str) -> Result<(), Fail> {
    let mut left = row;
    let mut disk = disk_with(rt, alloc, &mut left)?;
    let found = live(alloc, &mut disk, body_of(part(&mut left, ' ')))?;
    told(rt, alloc, row, &found, left)
}

#[test]
fn opens_the_greater_generation(rt: HostRuntime) -> Result<(), Fail> {
    for row in OPENED.split('\n') {
        expect_opened(&rt, rt.alloc(), row)?;
    }
    Ok(())
}

// How opening the slots of a disk is refused.
fn refusal_of<D: Disk>(alloc: Global, disk: &mut D) -> Option<CheckpointError> {
    opened(alloc, disk).err()
}

// Two slots, where the file ends, and how opening them is refused. In the first four lines the file is cut before slot
// A, after its gate, within its head, and within its body; in the next four before slot B, and within it. Then a length
// of 52 in either slot, even in the older one, though only 51 bytes fit; two open slots with the same generation; and
// none open.
const REFUSED: &str = "165 1 24 old 0 0 0 - 16 Some(Damaged { place: 16 })\n\
    165 1 24 old 0 0 0 - 17 Some(Damaged { place: 16 })\n\
    165 1 24 old 0 0 0 - 28 Some(Damaged { place: 16 })\n\
    165 1 24 old 0 0 0 - 40 Some(Damaged { place: 16 })\n\
    165 1 24 old 0 0 0 - 53 Some(Damaged { place: 80 })\n\
    165 1 24 old 0 0 0 - 80 Some(Damaged { place: 80 })\n\
    165 1 24 old 165 2 24 new 92 Some(Damaged { place: 80 })\n\
    165 1 24 old 165 0 24 new 116 Some(Damaged { place: 80 })\n\
    165 1 52 old 0 0 0 - 200 Some(Damaged { place: 16 })\n\
    165 1 51 old 165 0 52 new 200 Some(Damaged { place: 80 })\n\
    165 1 52 old 165 0 52 new 200 Some(Damaged { place: 16 })\n\
    165 1 4294967295 old 0 0 0 - 200 Some(Damaged { place: 16 })\n\
    165 4 24 old 165 4 20 new 200 Some(Damaged { place: 80 })\n\
    165 4 52 old 165 4 20 new 200 Some(Damaged { place: 16 })\n\
    0 4 24 old 7 5 24 new 200 Some(Blank)\n\
    0 4 24 old 0 0 0 - 81 Some(Blank)";

// Opens the slots of a row, and is refused.
fn expect_refused(rt: &impl Abort, alloc: Global, row: &str) -> Result<(), Fail> {
    let mut left = row;
    let mut disk = disk_with(rt, alloc, &mut left)?;
    let found = refusal_of(alloc, &mut disk);
    told(rt, alloc, row, &found, left)
}

#[test]
fn finds_damage_at_its_slot(rt: HostRuntime) -> Result<(), Fail> {
    for row in REFUSED.split('\n') {
        expect_refused(&rt, rt.alloc(), row)?;
    }
    Ok(())
}

// How `image` is refused for a body of this many bytes.
fn refusal_of_image<D: Disk>(
    alloc: Global,
    disk: &mut D,
    len: u64,
) -> Result<Option<CheckpointError>, Fail> {
    let body = vec![in alloc; 0; len as usize]?;
    let (slots, _) = opened(alloc, disk)?;
    Ok(slots.image(alloc, &body).err())
}

// Lengths of bodies, and how each is refused.
fn expect_images<D: Disk>(
    rt: &impl Abort,
    alloc: Global,
    disk: &mut D,
    rows: &str,
) -> Result<(), Fail> {
    for row in rows.split('\n') {
        let mut left = row;
        let found = refusal_of_image(alloc, disk, number(rt, &mut left))?;
        told(rt, alloc, row, &found, left)?;
    }
    Ok(())
}

// The generation is the last one.
#[test]
fn spends_its_generations(rt: HostRuntime) -> Result<(), Fail> {
    let mut slots = "165 18446744073709551615 1 a 0 0 0 - 200";
    let mut disk = disk_with(&rt, rt.alloc(), &mut slots)?;
    same(
        &rt,
        &live(rt.alloc(), &mut disk, b"a")?,
        &Some((0, u64::MAX)),
    );
    let rows = "0 Some(GenerationsSpent)\n51 Some(GenerationsSpent)\n52 Some(SlotFull)";
    expect_images(&rt, rt.alloc(), &mut disk, rows)
}

// A body of 51 bytes fits, and one of 52 doesn't.
#[test]
fn fills_its_slot(rt: HostRuntime) -> Result<(), Fail> {
    let mut disk = disk_with_old(rt.alloc())?;
    expect_images(&rt, rt.alloc(), &mut disk, "51 None\n52 Some(SlotFull)")
}

// A disk with two open slots, whose k-th call fails.
fn failing(rt: &impl Abort, alloc: Global, k: u64) -> Result<FaultDisk<MemoryDisk>, Fail> {
    let disk = disk_with(rt, alloc, &mut "165 1 24 old 165 2 24 new 200")?;
    Ok(FaultDisk::new(disk, k, 0))
}

#[test]
fn answers_a_device_that_fails(rt: HostRuntime) -> Result<(), Fail> {
    // The test's own sync, the length of the disk; the gate, the generation and the length of each slot; the live body.
    for k in 1..10 {
        let mut disk = failing(&rt, rt.alloc(), k)?;
        let refused = refusal_of(rt.alloc(), &mut disk);
        let found = live(rt.alloc(), &mut disk, NEW)?;
        let device = Some(CheckpointError::Device);
        same(&rt, &(k, refused, found), &(k, device, Some((1, 2))));
    }
    Ok(())
}

#[test]
fn numbers_its_refusals(rt: HostRuntime) {
    let found = [
        CheckpointError::Device.code(),
        CheckpointError::OutOfMemory.code(),
        CheckpointError::GenerationsSpent.code(),
        CheckpointError::SlotFull.code(),
        CheckpointError::Damaged { place: 16 }.code(),
        CheckpointError::Blank.code(),
    ];
    same(&rt, &found, &[30, 31, 33, 35, 40, 41]);
}
