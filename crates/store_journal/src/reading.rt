//! Reads the records of an area, one by one.
ghost use Rattle.std.specs.Prelude.{◌≡◌, ◌≤◌, ◌<◌, ◌⊎◌, ◌+◌, ℕ, List, [], ◌∷◌, ◌++◌, slice_range, take, length, min, false, true, None, Ok, IfOk, IfErr, IfNone, IfSome, OnOk, OnErr};
ghost use Rattle.std.specs.Int.{to_le_bytes, w32};
ghost use Rattle.store_disk.specs.Files.{HasAt};
ghost use Rattle.store_disk.specs.Stops.{Counted, CountsFaults, Each};
ghost use Rattle.store_disk.specs.Gates.{open_gate, IsClosedAt};
ghost use Rattle.store_journal.specs.Damage.{IsBadRecord, IsJournalDamagedAt};
ghost use Rattle.store_journal.specs.Refusals.{IfGateDamaged, RefusesToOpenJournal, RefusesToRead};
ghost use Rattle.store_disk.specs.Reading.{OnlyReads};
ghost use Rattle.store_journal.specs.Reading.{HasRead, IsReading};
ghost use Rattle.store_journal.specs.Records.{record_bytes, records_bytes, IsJournal};
ghost use Rattle.store_journal.specs.State.{journal_at};

use crate::payloads::Payloads;
use crate::record::{HEAD, LEAST, LONGEST};
use crate::{Journal, JournalError};
use byteorder::{ByteOrder, LittleEndian};
use std::alloc::Global;
use std::marker::Model;
use store_disk::{Area, DeviceFault, Disk, OPEN_GATE, read_gate};

// The length of the longest block that is read at once: a payload, and the gate and length after it.
const BLOCK: usize = LONGEST + HEAD as usize;

// Reads `len` bytes from `at` on into the front of `into`.
fn read_front<D: Disk>(
    disk: &mut D,
    at: u64,
    len: usize,
    into: &mut [u8],
) -> Result<(), DeviceFault>
    requires short { len ≤ length into.old }
    requires within { Each (D.reads disk.old) (λ file. at + len ≤ length file) }
    ensures told { OnOk result (Each (D.reads disk.old) (HasAt at (take len into.new))) }
    ensures len { length into.new ≡ length into.old }
    ensures reads { OnlyReads D.Disk disk.old disk.new }
    ensures count { Counted (D.failures disk.old) (D.failures disk.new) result }
{
    disk.read(at, &mut into[..len])
}

// Reads the payload of `len` bytes at `at` into the front of `into`, followed by the next gate and length, as far as
// `end` allows.
fn read_payload<D: Disk>(
    disk: &mut D,
    at: u64,
    len: usize,
    end: u64,
    into: &mut [u8],
) -> Result<(), DeviceFault>
    requires room { length into.old ≡ 261 }
    requires short { len ≤ 256 }
    requires within { at + len ≤ end }
    requires ends { Each (D.reads disk.old) (λ file. end ≤ length file) }
    ensures payload { OnOk result (Each (D.reads disk.old) (HasAt at (take len into.new))) }
    ensures head { OnOk result (at + len + 5 ≤ end
        → Each (D.reads disk.old) (HasAt (at + len) (slice_range into.new len (len + 5)))) }
    ensures len { length into.new ≡ length into.old }
    ensures reads { OnlyReads D.Disk disk.old disk.new }
    ensures count { Counted (D.failures disk.old) (D.failures disk.new) result }
{
    let behind = (end - at - len as u64).min(HEAD) as usize;
    read_front(disk, at, len + behind, into)
}

// The gate and the length in five bytes. The length is little-endian.
fn parts_of(head: &[u8]) -> (u8, u32)
    requires { length head.now ≡ 5 }
    ensures { head.now ≡ result.0 ∷ to_le_bytes w32 result.1 }
{
    (head[0], LittleEndian::read_u32(&head[1..]))
}

// Reads a gate after which not even an empty record fits: none if it is closed, otherwise it is damaged.
fn read_last_gate<D: Disk>(
    disk: &mut D,
    area: Area,
    place: u64,
    end: u64,
) -> Result<Option<u32>, JournalError>
    requires inside { place < end }
    requires last { end < place + 6 }
    requires ends { Each (D.reads disk.old)
        (λ file. end ≡ min (length file) (area.base + area.length)) }
    ensures closed { OnOk result (Each (D.reads disk.old) (IsClosedAt place)) }
    ensures none { IfOk result (λ found. found ≡ None) }
    ensures damaged { IfErr result (λ e. IfGateDamaged e (λ at.
        (at ≡ place) × Each (D.reads disk.old) (IsBadRecord area place))) }
    ensures reads { OnlyReads D.Disk disk.old disk.new }
    ensures count { CountsFaults JournalError.Device (D.failures disk.old)
        (D.failures disk.new) result }
    ensures no_other { IfErr result RefusesToRead }
{
    if read_gate(disk, place)? == OPEN_GATE {
        return Err(JournalError::Damaged { place });
    }
    Ok(None)
}

// The length behind the gate at `place`, if that is open, and the record and its next gate fit; none if it is closed.
// `head` has the five bytes there, if at least six stand before `end`, where the file or the area ends.
fn record_len_at<D: Disk>(
    disk: &mut D,
    area: Area,
    place: u64,
    end: u64,
    head: &[u8],
) -> Result<Option<u32>, JournalError>
    requires inside { place < end }
    requires five { length head.now ≡ 5 }
    requires head { place + 6 ≤ end → Each (D.reads disk.old) (HasAt place head.now) }
    requires ends { Each (D.reads disk.old)
        (λ file. end ≡ min (length file) (area.base + area.length)) }
    ensures closed { IfOk result
        (λ found. IfNone found (Each (D.reads disk.old) (IsClosedAt place))) }
    ensures open { IfOk result (λ found. IfSome found (λ _.
        Each (D.reads disk.old) (HasAt place (open_gate ∷ [])))) }
    ensures told { IfOk result (λ found. IfSome found (λ len.
        Each (D.reads disk.old) (HasAt (place + 1) (to_le_bytes w32 len)))) }
    ensures fits { IfOk result (λ found. IfSome found (λ len.
        (len ≤ 256) × (place + 6 + len ≤ end))) }
    ensures damaged { IfErr result (λ e. IfGateDamaged e (λ at.
        (at ≡ place) × Each (D.reads disk.old) (IsBadRecord area place))) }
    ensures reads { OnlyReads D.Disk disk.old disk.new }
    ensures count { CountsFaults JournalError.Device (D.failures disk.old)
        (D.failures disk.new) result }
    ensures no_other { IfErr result RefusesToRead }
{
    if end - place < LEAST {
        return read_last_gate(disk, area, place, end);
    }
    let (gate, len) = parts_of(head);
    if gate != OPEN_GATE {
        return Ok(None);
    }
    if len as usize > LONGEST || len as u64 > end - place - LEAST {
        return Err(JournalError::Damaged { place });
    }
    Ok(Some(len))
}

/// The records of an area of a disk, read one by one from the front. Only the payload that was read last is kept.
#[derive(Drop)]
pub struct Reader {
    area: Area,
    // Where the file or the area ends.
    end: u64,
    // Where in the area the next gate stands.
    next: u32,
    // The length behind that gate; none if the gate is closed.
    found: Option<u32>,
    // The payload that was read last, and the gate and length after it.
    block: [u8; BLOCK],
    // The length of that payload.
    len: usize,
}

impl Model for Reader {
    ghost use Rattle.store_journal.specs.Reading.{ReaderState};

    ghost Value = { ReaderState };

    ghost use Rattle.store_journal.specs.ReaderView.{reader_state, IsBeforeEnd};

    ghost view = { reader_state };

    ghost invariant = { IsBeforeEnd };
}

// Reads the first gate of an area. The file or the area ends at `end`.
fn begin_before<D: Disk>(disk: &mut D, area: Area, end: u64) -> Result<Reader, JournalError>
    requires inside { area.base < end }
    requires ends { Each (D.reads disk.old)
        (λ file. end ≡ min (length file) (area.base + area.length)) }
    requires within { end ≤ area.base + area.length }
    ensures area { IfOk result (λ reader. reader.area ≡ area) }
    ensures begun { IfOk result (λ reader. HasRead reader [] (D.reads disk.old)) }
    ensures damaged { IfErr result (λ e. IfGateDamaged e
        (λ place. Each (D.reads disk.old) (IsJournalDamagedAt area place))) }
    ensures no_other { IfErr result RefusesToRead }
    ensures reads { OnlyReads D.Disk disk.old disk.new }
    ensures count { CountsFaults JournalError.Device (D.failures disk.old)
        (D.failures disk.new) result }
{
    let mut block = [0; BLOCK];
    read_payload(disk, area.base, 0, end, &mut block)?;
    let found = record_len_at(disk, area, area.base, end, &block[..5])?;
    Ok(Reader {
        area,
        end,
        next: 0,
        found,
        block,
        len: 0,
    })
}

impl Reader {
    /// Begins to read an area of a disk. It writes nothing.
    pub fn begin<D: Disk>(disk: &mut D, area: Area) -> Result<Reader, JournalError>
        ensures area { IfOk result (λ reader. reader.area ≡ area) }
        ensures begun { IfOk result (λ reader. HasRead reader [] (D.reads disk.old)) }
        ensures damaged { IfErr result (λ e. IfGateDamaged e
            (λ place. Each (D.reads disk.old) (IsJournalDamagedAt area place))) }
        ensures no_other { IfErr result RefusesToRead }
        ensures reads { OnlyReads D.Disk disk.old disk.new }
        ensures count { CountsFaults JournalError.Device (D.failures disk.old)
            (D.failures disk.new) result }
    {
        let end = disk.len()?.min(area.base + area.length as u64);
        if end <= area.base {
            return Err(JournalError::Damaged { place: area.base });
        }
        begin_before(disk, area, end)
    }

    /// The place in the file of the next gate.
    pub fn place(&self) -> u64
        ensures { result ≡ self.now.area.base + self.now.next }
    {
        self.area.base + self.next as u64
    }

    /// Reads the next payload. False if the next gate is closed: then all were read, and the reader is as before.
    ///
    /// `Damaged` gives the place in the file of a gate, as `Journal::open` does. It comes in place of the payload in
    /// front of that gate. A refusal leaves the reader as it was, but for its `payload`.
    pub fn read_next<D: Disk>(&mut self, disk: &mut D) -> Result<bool, JournalError>
        requires { IsReading self.old (D.reads disk.old) }

        // The payload stands behind those that were read; if there is none, those are all of the area.
        ensures next { result ≡ Ok true → (payloads : List (List ℕ))
            → HasRead self.old payloads (D.reads disk.old)
            → HasRead self.new (payloads ++ self.new.last ∷ []) (D.reads disk.new) }
        ensures all { result ≡ Ok false → (payloads : List (List ℕ))
            → HasRead self.old payloads (D.reads disk.old)
            → Each (D.reads disk.old) (IsJournal self.old.area payloads) }
        ensures further { result ≡ Ok true → self.old.next < self.new.next }
        ensures none { result ≡ Ok false → self.new ≡ self.old }
        ensures same { (self.new.area ≡ self.old.area) × (self.new.end ≡ self.old.end) }
        ensures stays { OnErr result (self.new ≡ record self.old { last = self.new.last }) }

        ensures damaged { IfErr result (λ e. IfGateDamaged e
            (λ place. Each (D.reads disk.old) (IsJournalDamagedAt self.old.area place))) }
        ensures no_other { IfErr result RefusesToRead }
        ensures reads { OnlyReads D.Disk disk.old disk.new }
        ensures count { CountsFaults JournalError.Device (D.failures disk.old)
            (D.failures disk.new) result }
    {
        let Some(len) = self.found else {
            return Ok(false);
        };
        let n = len as usize;
        let at = self.area.base + self.next as u64 + HEAD;
        read_payload(disk, at, n, self.end, &mut self.block)?;
        let head = &self.block[n..n + 5];
        self.found = match record_len_at(disk, self.area, at + len as u64, self.end, head) {
            Ok(found) => found,
            Err(error) => return Err(error),
        };
        self.next += HEAD as u32 + len;
        self.len = n;
        Ok(true)
    }

    /// The payload that was read last.
    pub fn payload(&self) -> &[u8]
        ensures { result.now ≡ self.now.last }
    {
        &self.block[..self.len]
    }

    /// The journal that was read, without its payloads. It is one to append to once `read_next` has answered false.
    pub fn into_journal(self) -> Journal
        ensures { result ≡ journal_at self.area self.next }
    {
        Journal::at(self.area, self.next)
    }
}

/// The payloads that the area's bytes stand for.
pub fn read_records<D: Disk>(
    alloc: Global,
    disk: &mut D,
    area: Area,
) -> Result<Payloads, JournalError>
    ensures sound { IfOk result (λ records. Each (D.reads disk.old) (IsJournal area records)) }
    ensures room { IfOk result (λ records. length (records_bytes records) < area.length) }
    ensures damaged { IfErr result (λ e. IfGateDamaged e
        (λ place. Each (D.reads disk.old) (IsJournalDamagedAt area place))) }
    ensures reads { OnlyReads D.Disk disk.old disk.new }
    ensures count { CountsFaults JournalError.Device (D.failures disk.old)
        (D.failures disk.new) result }
    ensures no_other { IfErr result RefusesToOpenJournal }
{
    let mut reader = Reader::begin(disk, area)?;
    let mut records = Payloads::new(alloc);
    loop {
        match reader.read_next(disk) {
            Ok(true) => records.push(reader.payload())?,
            Ok(false) => return Ok(records),
            Err(error) => return Err(error),
        }
    }
}
