//! Journals that are ready on their disk. This file has no tests, so that wrong bodies of its functions can be tried.
ghost use Rattle.std.specs.Prelude.{IfOk, IfSome};
ghost use Rattle.store_journal.specs.State.{IsReadyIn};

use std::alloc::Global;
use store_disk::{Area, Disk};
use store_journal::{Journal, JournalError, Reader, blank};

pub const AREA: Area = Area {
    base: 144,
    length: 512,
};

// Syncs a disk, and opens its journal.
pub fn opened<D: Disk>(alloc: Global, disk: &mut D) -> Result<Journal, JournalError>
    ensures ready { IfOk result (λ journal. IsReadyIn journal (D.may_leave disk.new)) }
{
    disk.sync()?;
    Journal::open(alloc, disk, AREA)
}

// Blanks the area, syncs the first gate, and returns the area's journal.
pub fn blanked<D: Disk>(disk: &mut D) -> Result<Journal, JournalError>
    ensures ready { IfOk result (λ journal. IsReadyIn journal (D.may_leave disk.new)) }
{
    let journal = blank(disk, AREA)?;
    disk.sync()?;
    Ok(journal)
}

// The same with `Journal::fresh`, after the first gate is closed and synced.
pub fn refreshed<D: Disk>(disk: &mut D) -> Result<Journal, JournalError>
    ensures ready { IfOk result (λ journal. IsReadyIn journal (D.may_leave disk.new)) }
{
    blank(disk, AREA)?;
    disk.sync()?;
    Ok(Journal::fresh(disk, AREA))
}

// Reads the area's payloads one by one, and returns the journal that their reader becomes; none if they are others.
pub fn reread<D: Disk>(disk: &mut D, payloads: &[&[u8]]) -> Result<Option<Journal>, JournalError>
    ensures ready { IfOk result (λ found. IfSome found
        (λ journal. IsReadyIn journal (D.may_leave disk.new))) }
{
    disk.sync()?;
    let mut reader = Reader::begin(disk, AREA)?;
    for payload in payloads {
        match reader.read_next(disk) {
            Ok(true) => {}
            Ok(false) => return Ok(None),
            Err(error) => return Err(error),
        }
        if reader.payload() != *payload {
            return Ok(None);
        }
    }
    match reader.read_next(disk) {
        Ok(true) => Ok(None),
        Ok(false) => Ok(Some(reader.into_journal())),
        Err(error) => Err(error),
    }
}
