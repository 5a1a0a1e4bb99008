//! A disk that is read in large pieces, for callers that read many short ranges in turn.
ghost use Rattle.std.specs.Prelude.{◌≡◌, ◌≤◌, ◌+◌, length, take, IfOk, OnOk, true};
ghost use Rattle.store_disk.specs.Files.{HasAt};
ghost use Rattle.store_disk.specs.Stops.{Counted, Each, Elapses};

use crate::{DeviceFault, Disk, OutOfMemory};
use std::alloc::Global;

// How many bytes are read at once.
const LONGEST: usize = 16_384;

/// The memory that a disk is read into, 16 KB at a time.
#[derive(Drop)]
pub struct Buffer {
    bytes: Vec<u8>,
}

impl Buffer {
    /// Allocates the memory.
    pub fn new(alloc: Global) -> Result<Buffer, OutOfMemory> {
        Ok(Buffer {
            bytes: vec![in alloc; 0; LONGEST]?,
        })
    }
}

/// Any disk, with read-ahead: a read of a range that the buffer holds makes no call of the inner disk. A write
/// empties the buffer.
#[derive(Drop)]
pub struct ReadAhead<D: Disk> {
    inner: D,
    // The first `filled` bytes of the buffer are the file's bytes from `at` on.
    at: u64,
    filled: usize,
    buffer: Buffer,
    ghost short: { filled ≤ length buffer.bytes.items },
    ghost same: { Each (D.reads inner) (HasAt at (take filled buffer.bytes.items)) },
}

impl<D: Disk> ReadAhead<D> {
    ghost use Rattle.store_disk.specs.ReadAhead.{disk_in};

    /// Wraps the disk, with an empty buffer.
    pub fn new(inner: D, buffer: Buffer) -> ReadAhead<D>
        ensures { disk_in result ≡ inner }
    {
        ReadAhead {
            inner,
            at: 0,
            filled: 0,
            buffer,
        }
    }

    /// The inner disk.
    pub fn into_inner(self) -> D
        ensures { result ≡ disk_in self }
    {
        self.inner
    }

    // Empties the buffer.
    fn forget(&mut self)
        ensures empty { self.new.filled ≡ 0 }
        ensures inner { disk_in self.new ≡ disk_in self.old }
    {
        self.at = 0;
        self.filled = 0;
    }

    // Whether the buffer holds the range.
    fn holds(&self, at: u64, len: usize) -> bool
        ensures { result ≡ true → (self.now.at ≤ at) × (at + len ≤ self.now.at + self.now.filled) }
    {
        match at.checked_sub(self.at) {
            Some(skipped) => skipped <= self.filled as u64
                && len as u64 <= self.filled as u64 - skipped,
            None => false,
        }
    }

    // Copies a range from the buffer.
    fn copy(&self, at: u64, into: &mut [u8])
        requires begins { self.now.at ≤ at }
        requires ends { at + length into.old ≤ self.now.at + self.now.filled }
        ensures { Each (D.reads (disk_in self.now)) (HasAt at into.new) }
    {
        let skipped = (at - self.at) as usize;
        into.copy_from_slice(&self.buffer.bytes[skipped..skipped + into.len()]);
    }

    // Fills the buffer with the file's bytes from `at` on, up to the file's end.
    fn refill(&mut self, at: u64) -> Result<(), DeviceFault>
        requires { Each (D.reads (disk_in self.old)) (λ file. at ≤ length file) }
        ensures reads { Each (D.reads (disk_in self.new)) (D.reads (disk_in self.old)) }
        ensures still { Each (D.reads (disk_in self.old)) (D.reads (disk_in self.new)) }
        ensures images { Each (D.may_leave (disk_in self.new)) (D.may_leave (disk_in self.old)) }
        ensures kept { Each (D.may_leave (disk_in self.old)) (D.may_leave (disk_in self.new)) }
        ensures time { let old = disk_in self.old in let new = disk_in self.new in
            Elapses (D.moment old) (D.moment new) (D.left_since old) (D.left_since new)
            (D.may_leave new) }
        ensures count { Counted (D.failures (disk_in self.old))
            (D.failures (disk_in self.new)) result }
    {
        self.forget();
        let length = self.inner.len()?;
        let filled = length
            .saturating_sub(at)
            .min(self.buffer.bytes.len() as u64) as usize;
        read_front(&mut self.inner, at, &mut self.buffer.bytes, filled)?;
        self.at = at;
        self.filled = filled;
        Ok(())
    }

    // Makes the buffer hold the range if the range fits in it, and returns whether it does.
    fn reach(&mut self, at: u64, len: usize) -> Result<bool, DeviceFault>
        requires { Each (D.reads (disk_in self.old)) (λ file. at ≤ length file) }
        ensures held { IfOk result (λ held. held ≡ true
            → (self.new.at ≤ at) × (at + len ≤ self.new.at + self.new.filled)) }
        ensures reads { Each (D.reads (disk_in self.new)) (D.reads (disk_in self.old)) }
        ensures still { Each (D.reads (disk_in self.old)) (D.reads (disk_in self.new)) }
        ensures images { Each (D.may_leave (disk_in self.new)) (D.may_leave (disk_in self.old)) }
        ensures kept { Each (D.may_leave (disk_in self.old)) (D.may_leave (disk_in self.new)) }
        ensures time { let old = disk_in self.old in let new = disk_in self.new in
            Elapses (D.moment old) (D.moment new) (D.left_since old) (D.left_since new)
            (D.may_leave new) }
        ensures count { Counted (D.failures (disk_in self.old))
            (D.failures (disk_in self.new)) result }
    {
        if !self.holds(at, len) {
            self.refill(at)?;
        }
        Ok(self.holds(at, len))
    }
}

impl<D: Disk> Disk for ReadAhead<D> {
    ghost use Rattle.store_disk.specs.ReadAhead.{disk_in};

    ghost reads = { λ d. D.reads (disk_in d) };

    ghost may_leave = { λ d. D.may_leave (disk_in d) };

    ghost moment = { λ d. D.moment (disk_in d) };

    ghost left_since = { λ d. D.left_since (disk_in d) };

    ghost failures = { λ d. D.failures (disk_in d) };

    ghost reads_an_image = { λ d file is. D.reads_an_image d.inner file is };

    ghost counts_now = { λ d t file le now. D.counts_now d.inner t file le now };

    ghost only_now = { λ d file left. D.only_now d.inner file left };

    fn len(&mut self) -> Result<u64, DeviceFault> {
        self.inner.len()
    }

    fn read(&mut self, at: u64, into: &mut [u8]) -> Result<(), DeviceFault> {
        if !self.reach(at, into.len())? {
            return self.inner.read(at, into);
        }
        self.copy(at, into);
        Ok(())
    }

    fn write_at(&mut self, at: u64, from: &[u8]) -> Result<(), DeviceFault> {
        self.forget();
        self.inner.write_at(at, from)
    }

    fn sync(&mut self) -> Result<(), DeviceFault> {
        self.inner.sync()
    }
}

// Reads bytes of the disk from `at` on into the first bytes of a buffer.
fn read_front<D: Disk>(
    disk: &mut D,
    at: u64,
    into: &mut [u8],
    count: usize,
) -> Result<(), DeviceFault>
    requires within { Each (D.reads disk.old) (λ file. at + count ≤ length file) }
    requires short { count ≤ length into.old }
    ensures told { OnOk result (Each (D.reads disk.old) (HasAt at (take count into.new))) }
    ensures len { length into.new ≡ length into.old }
    ensures reads { Each (D.reads disk.new) (D.reads disk.old) }
    ensures still { Each (D.reads disk.old) (D.reads disk.new) }
    ensures images { Each (D.may_leave disk.new) (D.may_leave disk.old) }
    ensures kept { Each (D.may_leave disk.old) (D.may_leave disk.new) }
    ensures time { Elapses (D.moment disk.old) (D.moment disk.new)
        (D.left_since disk.old) (D.left_since disk.new) (D.may_leave disk.new) }
    ensures count { Counted (D.failures disk.old) (D.failures disk.new) result }
{
    disk.read(at, &mut into[..count])
}
