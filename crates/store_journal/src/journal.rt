//! A journal: a record counts if its gate is open. A closed gate follows the last record; it is on the disk before
//! anything is written after it.
ghost use Rattle.std.specs.Prelude.{◌≡◌, ◌≤◌, ◌<◌, ◌⊎◌, ◌↔◌, ◌+◌, ◌-◌, ℕ, List, [], ◌∷◌, length, slice_get, option_copied, true, false, OnOk, OnErr, IsErrOf, IfErr, IfOk};
ghost use Rattle.store_disk.specs.Moments.{LeavesOnly};
ghost use Rattle.store_disk.specs.Stops.{CountsFaults, From, Follows, Each, LeadsBy};
ghost use Rattle.store_disk.specs.Gates.{IsClosedAt, open_gate};
ghost use Rattle.store_disk.specs.Files.{Failed, Torn, Written};
ghost use Rattle.store_journal.specs.Append.{Appends, MayAppend};
ghost use Rattle.store_journal.specs.Damage.{IsJournalDamagedAt};
ghost use Rattle.store_journal.specs.Groups.{IsGroup, IsGroupOf};
ghost use Rattle.store_journal.specs.Refusals.{IfGateDamaged, RefusesAppend, RefusesToOpenJournal};
ghost use Rattle.store_disk.specs.Reading.{OnlyReads};
ghost use Rattle.store_journal.specs.Records.{IsJournal};
ghost use Rattle.store_journal.specs.State.{opened, journal_at, room_of, gate_of, IsAbove, IsReadyIn};

use crate::JournalError;
use crate::group::Group;
use crate::payloads::Payloads;
use crate::reading::read_records;
use crate::record::{BLOCK, LEAST, put_block, write_records};
use std::alloc::Global;
use std::marker::Model;
use store_disk::{Area, CLOSED_GATE, Disk};

/// The records of an area of a disk.
pub struct Journal {
    area: Area,
    // Where in the area the next gate stands.
    next: u32,
    must_reopen: bool,
    records: Option<Payloads>,
}

// Written by hand, so that a function that owns a journal drops it by a single call.
impl Drop for Journal {
    fn drop(self) {
        let Journal {
            area: _,
            next: _,
            must_reopen: _,
            records: _records,
        } = self;
    }
}

impl Model for Journal {
    ghost use Rattle.store_journal.specs.State.{JournalState};

    ghost Value = { JournalState };

    ghost use Rattle.store_journal.specs.View.{journal_state, IsInArea};

    ghost view = { journal_state };

    ghost invariant = { IsInArea };
}

impl Journal {
    /// Reads the records of an area of a fully synced disk. It writes nothing.
    ///
    /// `Damaged` gives the place in the file of a gate: it is missing, or it is open and its record is cut off, is
    /// longer than 256 bytes or leaves no room in the area for the next gate. Bytes after a closed gate are ignored.
    pub fn open<D: Disk>(alloc: Global, disk: &mut D, area: Area) -> Result<Journal, JournalError>
        requires only { Each (D.may_leave disk.old) (D.reads disk.old) }

        // The records are those that the area's bytes stand for.
        ensures opened { IfOk result (λ journal. journal ≡ opened area journal.records) }
        ensures sound { IfOk result
            (λ journal. Each (D.reads disk.old) (IsJournal area journal.records)) }
        ensures ready { IfOk result (λ journal. IsReadyIn journal (D.may_leave disk.new)) }

        ensures damaged { IfErr result (λ e. IfGateDamaged e (λ place.
            Each (D.reads disk.old) (IsJournalDamagedAt area place))) }
        ensures no_other { IfErr result RefusesToOpenJournal }

        // It only reads.
        ensures reads { OnlyReads D.Disk disk.old disk.new }
        ensures only { Each (D.may_leave disk.new) (D.reads disk.new) }
        ensures count { CountsFaults JournalError.Device (D.failures disk.old)
            (D.failures disk.new) result }
    {
        let records = read_records(alloc, disk, area)?;
        Ok(Journal {
            area,
            next: records.len_of_first(records.len()) as u32,
            must_reopen: false,
            records: Some(records),
        })
    }

    /// The journal of an area in which its next gate stands so many bytes on. It keeps no payloads.
    pub(crate) fn at(area: Area, next: u32) -> Journal
        requires { next < area.length }
        ensures { result ≡ journal_at area next }
    {
        Journal {
            area,
            next,
            must_reopen: false,
            records: None,
        }
    }

    // The journal of an area, without records.
    fn empty(area: Area) -> Journal
        requires { 0 < area.length }
        ensures { result ≡ opened area [] }
    {
        Journal::at(area, 0)
    }

    /// The empty journal of an area that begins with a closed gate in every image of the disk. It makes no device call
    /// and allocates no memory.
    pub fn fresh<D: Disk>(disk: &D, area: Area) -> Journal
        requires some { 0 < area.length }
        requires closed { Each (D.may_leave disk.now) (IsClosedAt area.base) }
        ensures empty { result ≡ opened area [] }
        ensures none { Each (D.may_leave disk.now) (IsJournal area []) }
        ensures ready { IsReadyIn result (D.may_leave disk.now) }
    {
        Journal::empty(area)
    }

    /// How many payloads `open` found.
    pub fn count(&self) -> usize
        ensures { result ≡ length self.now.records }
    {
        match &self.records {
            Some(records) => records.len(),
            None => 0,
        }
    }

    /// The n-th payload that `open` found.
    pub fn payload(&self, n: usize) -> Option<&[u8]>
        ensures { option_copied result ≡ slice_get self.now.records n }
    {
        match &self.records {
            Some(records) => records.get(n),
            None => None,
        }
    }

    /// The place in the file of the gate before the n-th payload that `open` found.
    pub fn place(&self, n: usize) -> Option<u64>
        ensures { result ≡ gate_of self.now n }
    {
        match &self.records {
            Some(records) if n < records.len() => Some(self.area.base + records.len_of_first(n)),
            _ => None,
        }
    }

    /// The length of the longest payload that still fits. None if not even an empty one does.
    pub fn room(&self) -> Option<u32>
        ensures { result ≡ room_of self.now }
    {
        (self.area.length - self.next).checked_sub(LEAST as u32)
    }

    // Writes records behind the next gate, which it then opens. `behind` is what is to stand after that gate.
    fn put<D: Disk>(&mut self, disk: &mut D, behind: &[u8]) -> Result<(), JournalError>
        requires go { self.old.must_reopen ≡ false }
        requires group { IsGroup (open_gate ∷ behind.now) }
        requires room { self.old.next + length behind.now < self.old.area.length }
        requires ready { IsReadyIn self.old (D.may_leave disk.old) }
        ensures appended { OnOk result
            ((more : List (List ℕ)) → IsGroupOf more (open_gate ∷ behind.now)
            → Follows (Appends self.old.area more) (D.may_leave disk.old)
            (D.may_leave disk.new)) }
        ensures durable { OnOk result (Each (D.may_leave disk.new) (D.reads disk.new)) }
        ensures next { OnOk result (self.new
            ≡ record self.old { next = self.old.next + length behind.now; must_reopen = false }) }
        ensures ready { IsReadyIn self.new (D.may_leave disk.new) }
        ensures any_moment { (more : List (List ℕ)) → IsGroupOf more (open_gate ∷ behind.now)
            → LeavesOnly D.Disk disk.old disk.new
            (From (D.may_leave disk.old) (MayAppend self.old.area more)) }
        ensures device { IfErr result (λ e. (e ≡ JournalError.Device)
            × (self.new ≡ record self.old { must_reopen = true })) }
        ensures count { CountsFaults JournalError.Device (D.failures disk.old)
            (D.failures disk.new) result }
    {
        self.must_reopen = true;
        write_records(disk, self.area, self.next, behind)?;
        self.next += behind.len() as u32;
        self.must_reopen = false;
        Ok(())
    }

    /// Appends a payload of at most 256 bytes; it is on the device when the call returns. The call allocates no memory
    /// and makes four device calls.
    ///
    /// After a `Device` each call is refused with `Reopen`. Otherwise the refusal is `JournalFull` exactly if the
    /// payload is longer than `room`. Both come before any device call.
    pub fn append<D: Disk>(&mut self, disk: &mut D, payload: &[u8]) -> Result<(), JournalError>
        requires short { length payload.now ≤ 256 }
        requires ready { IsReadyIn self.old (D.may_leave disk.old) }

        // After an Ok each file that a stop may leave has the record, and the journal can take the next one.
        ensures appended { OnOk result
            (Follows (Appends self.old.area (payload.now ∷ [])) (D.may_leave disk.old)
            (D.may_leave disk.new)) }
        ensures durable { OnOk result (Each (D.may_leave disk.new) (D.reads disk.new)) }
        ensures next { OnOk result (self.new
            ≡ record self.old {
              next = self.old.next + 5 + length payload.now;
              must_reopen = false;
            }) }
        ensures ready { IsReadyIn self.new (D.may_leave disk.new) }

        // A stop at any moment of the call leaves the earlier records, with or without the new one.
        ensures any_moment { LeavesOnly D.Disk disk.old disk.new
            (From (D.may_leave disk.old) (MayAppend self.old.area (payload.now ∷ []))) }

        ensures device { IsErrOf result JournalError.Device
            → (self.new ≡ record self.old { must_reopen = true }) }
        ensures reopen { IsErrOf result JournalError.Reopen ↔ (self.old.must_reopen ≡ true) }
        ensures full { IsErrOf result JournalError.JournalFull
            ↔ ((self.old.must_reopen ≡ false) × IsAbove (room_of self.old) (length payload.now)) }
        ensures nothing { IfErr result (λ e.
            (e ≡ JournalError.Device) ⊎ ((disk.new ≡ disk.old) × (self.new ≡ self.old))) }
        ensures no_other { IfErr result RefusesAppend }
        ensures count { CountsFaults JournalError.Device (D.failures disk.old)
            (D.failures disk.new) result }
    {
        if self.must_reopen {
            return Err(JournalError::Reopen);
        }
        match self.room() {
            Some(room) if payload.len() <= room as usize => {}
            _ => return Err(JournalError::JournalFull),
        }
        let mut block = [0; BLOCK];
        put_block(&mut block, payload);
        self.put(disk, &block[..payload.len() + 5])
    }

    /// Appends the payloads of a group; all of them are on the device when the call returns. Like `append` it allocates
    /// no memory and makes four device calls.
    ///
    /// After a `Device` each call is refused with `Reopen`. Otherwise the refusal is `JournalFull` exactly if the group
    /// is more than six bytes longer than `room`, which leaves those out. Both come before any device call.
    pub fn append_all<D: Disk>(&mut self, disk: &mut D, group: &Group) -> Result<(), JournalError>
        requires some { 1 < length group.now }
        requires ready { IsReadyIn self.old (D.may_leave disk.old) }

        // After an Ok each file that a stop may leave has the records, and the journal can take the next one.
        ensures appended { OnOk result ((more : List (List ℕ)) → IsGroupOf more group.now
            → Follows (Appends self.old.area more) (D.may_leave disk.old)
            (D.may_leave disk.new)) }
        ensures durable { OnOk result (Each (D.may_leave disk.new) (D.reads disk.new)) }
        ensures next { OnOk result (self.new
            ≡ record self.old {
              next = self.old.next + (length group.now - 1);
              must_reopen = false;
            }) }
        ensures ready { IsReadyIn self.new (D.may_leave disk.new) }

        // A stop at any moment of the call leaves the earlier records, with or without all of the new ones.
        ensures any_moment { (more : List (List ℕ)) → IsGroupOf more group.now
            → LeavesOnly D.Disk disk.old disk.new
            (From (D.may_leave disk.old) (MayAppend self.old.area more)) }

        ensures device { IsErrOf result JournalError.Device
            → (self.new ≡ record self.old { must_reopen = true }) }
        ensures reopen { IsErrOf result JournalError.Reopen ↔ (self.old.must_reopen ≡ true) }
        ensures full { IsErrOf result JournalError.JournalFull ↔ ((self.old.must_reopen ≡ false)
            × IsAbove (room_of self.old) (length group.now - 6)) }
        ensures nothing { IfErr result (λ e.
            (e ≡ JournalError.Device) ⊎ ((disk.new ≡ disk.old) × (self.new ≡ self.old))) }
        ensures no_other { IfErr result RefusesAppend }
        ensures count { CountsFaults JournalError.Device (D.failures disk.old)
            (D.failures disk.new) result }
    {
        if self.must_reopen {
            return Err(JournalError::Reopen);
        }
        match self.room() {
            Some(room) if group.len() <= room as usize + LEAST as usize => {}
            _ => return Err(JournalError::JournalFull),
        }
        self.put(disk, group.behind())
    }
}

/// Writes a closed gate at the start of an area, without a sync. Once that is synced the area is an empty journal, the
/// one that is returned. It allocates no memory.
pub fn blank<D: Disk>(disk: &mut D, area: Area) -> Result<Journal, JournalError>
    requires { 0 < area.length }
    ensures empty { IfOk result (λ journal. journal ≡ opened area []) }
    ensures written { OnOk result
        (Follows (Written area.base (0 ∷ [])) (D.reads disk.old) (D.reads disk.new)) }
    ensures closed { OnOk result (Each (D.reads disk.new) (IsClosedAt area.base)) }
    ensures none { OnOk result (Each (D.reads disk.new) (IsJournal area [])) }
    ensures failed { OnErr result
        (Follows (Failed area.base 1) (D.reads disk.old) (D.reads disk.new)) }
    ensures leads { OnOk result
        (LeadsBy (Written area.base (0 ∷ [])) (D.reads disk.old) (D.reads disk.new)) }
    ensures leads_failed { OnErr result
        (LeadsBy (Failed area.base 1) (D.reads disk.old) (D.reads disk.new)) }

    // Each image from before may still be left by a stop, since nothing is synced.
    ensures images { Follows (Torn area.base 1) (D.may_leave disk.old) (D.may_leave disk.new) }
    ensures kept { Each (D.may_leave disk.old) (D.may_leave disk.new) }
    ensures any_moment { LeavesOnly D.Disk disk.old disk.new
        (From (D.may_leave disk.old) (Torn area.base 1)) }
    ensures device { IfErr result (λ e. e ≡ JournalError.Device) }
    ensures count { CountsFaults JournalError.Device (D.failures disk.old)
        (D.failures disk.new) result }
{
    disk.write_at(area.base, &[CLOSED_GATE])?;
    Ok(Journal::empty(area))
}
