//! A disk in memory, which determines what a stop at any moment since its creation may have left.
ghost use Rattle.std.specs.List.{range_with_len};
ghost use Rattle.std.specs.Prelude.{◌≡◌, ◌≤◌, ◌<◌, ◌+◌, ◌↔◌, map, [], ◌∷◌, ◌++◌, List, ℕ, length, IfOk, IsErr, IsOk, IsTrue, OnErr, OnOk, is_ok};
ghost use Rattle.store_disk.specs.Calls.{calls_in, ranges_in};
ghost use Rattle.store_disk.specs.Files.{Failed, HasAt, Torn, Written};
ghost use Rattle.store_disk.specs.Fill.{filled, left_at, stopped, unsynced_before};
ghost use Rattle.store_disk.specs.FixedFile.{bytes_of, most_of};
ghost use Rattle.store_disk.specs.Shows.{Shows};
ghost use Rattle.store_disk.specs.Medium.{IsImage, LeftSince, Synced, Wrote, after_calls, is_unsynced, settled, size_of};
ghost use Rattle.store_disk.specs.MediumLaws.{image_now, left_now, reads_image};
ghost use Rattle.store_disk.specs.Stops.{Counted, Each, Elapses, Follows};

use crate::calls::Calls;
use crate::fixed_file::FixedFile;
use crate::{DeviceFault, Disk, Fill, OutOfMemory};
use std::alloc::Global;

/// A disk in memory. It allocates its memory once, for the file and for a record of its successful calls.
///
/// In the record, a write takes 16 bytes plus its length, and a sync takes 16 bytes. A write that would end past
/// the room for the file fails and changes nothing; so does a call that doesn't fit in the record.
pub struct MemoryDisk {
    file: FixedFile,
    // The file as of the last successful sync.
    synced: FixedFile,
    // The file before the calls in the record.
    first: FixedFile,
    calls: Calls,
    failures: u64,
    ghost shows: { Shows (after_calls (settled (bytes_of first)) (calls_in calls))
        (bytes_of file) (bytes_of synced) (ranges_in calls) },
    ghost same_room: { most_of synced ≡ most_of file },
}

// A `drop` of its own, so that a function that owns a disk frees its files by one call.
impl Drop for MemoryDisk {
    fn drop(self) {
        let MemoryDisk {
            file: _file,
            synced: _synced,
            first: _first,
            calls: _calls,
            failures: _,
        } = self;
    }
}

impl MemoryDisk {
    ghost use Rattle.store_disk.specs.Memory.{Begins, Goes, calls_of, memory_failures, log_of, medium_of, memory_room};

    /// An empty disk, for a file of at most `room` bytes and a record of at most `log` bytes.
    pub fn new(alloc: Global, room: u32, log: u32) -> Result<MemoryDisk, OutOfMemory>
        ensures { IfOk result (Begins [] room log) }
    {
        let empty = FixedFile::new(alloc, room as usize)?;
        MemoryDisk::holding(alloc, empty, log as usize)
    }

    /// The disk as a stop now may leave it: the image for this `fill`, of the greatest length if `longest` is true,
    /// else of the least.
    pub fn stop(&self, alloc: Global, fill: Fill, longest: bool) -> Result<MemoryDisk, OutOfMemory>
        ensures image { IsImage (medium_of self.now) (stopped (medium_of self.now) fill longest) }
        ensures begins { IfOk result (Begins (stopped (medium_of self.now) fill longest)
            (memory_room self.now) (log_of self.now)) }
        ensures only { IfOk result
            (λ d. Each (IsImage (medium_of d)) (λ image. image ≡ (medium_of d).file)) }
    {
        let size = if longest {
            self.file.len()
        } else {
            self.synced.len()
        };
        let image = self.image(alloc, fill, size)?;
        MemoryDisk::holding(alloc, image, self.calls.limit())
    }

    // The first `size` bytes of the image for this `fill`.
    fn image(&self, alloc: Global, fill: Fill, size: usize) -> Result<FixedFile, OutOfMemory>
        requires { size ≤ memory_room self.now }
        ensures bytes { IfOk result (λ f.
            bytes_of f ≡ map (left_at (medium_of self.now) fill) (range_with_len 0 size)) }
        ensures most { IfOk result (λ f. most_of f ≡ memory_room self.now) }
    {
        let mut image = FixedFile::new(alloc, self.file.most())?;
        let mut before = 0;
        for place in 0..size {
            if self.is_unsynced(place) {
                image.push(self.filled(fill, place, before));
                before += 1;
            } else {
                image.push(self.synced.byte(place));
            }
        }
        Ok(image)
    }

    // Whether the byte was written since the last successful sync, or is past the file's length at that sync.
    fn is_unsynced(&self, place: usize) -> bool
        ensures { result ≡ is_unsynced (medium_of self.now) place }
    {
        place >= self.synced.len() || self.calls.has_written(place)
    }

    // What the image has at an unsynced offset; `before` is the number of unsynced bytes before it.
    fn filled(&self, fill: Fill, place: usize, before: usize) -> u8
        requires place { place < memory_room self.now }
        requires before { before ≡ unsynced_before (medium_of self.now) place }
        ensures { result ≡ filled (medium_of self.now) fill place }
    {
        match fill {
            Fill::Stable => self.synced.byte(place),
            Fill::Written => self.file.byte(place),
            Fill::Byte(byte) => byte,
            Fill::Upto(most) if before < most as usize => self.file.byte(place),
            Fill::Upto(_) => self.synced.byte(place),
        }
    }

    // A disk that holds this file, fully synced, with an empty record.
    fn holding(alloc: Global, file: FixedFile, log: usize) -> Result<MemoryDisk, OutOfMemory>
        ensures { IfOk result (Begins (bytes_of file) (most_of file) log) }
    {
        let mut synced = FixedFile::new(alloc, file.most())?;
        synced.copy(&file);
        let mut first = FixedFile::new(alloc, file.most())?;
        first.copy(&file);
        Ok(MemoryDisk {
            file,
            synced,
            first,
            calls: Calls::new(alloc, log)?,
            failures: 0,
        })
    }

    // Whether a write of `size` bytes ends within the room and fits in the record.
    fn has_room(&self, at: u64, size: usize) -> bool
        ensures { IsTrue result
            ↔ ((at + size ≤ memory_room self.now)
            × (size_of (calls_of self.now) + 16 + size ≤ log_of self.now)) }
    {
        let room = self.file.most();
        let within = at <= room as u64 && size <= room - at as usize;
        within && self.calls.has_room(size)
    }

    // Fails the call: changes nothing and counts the failure.
    fn fail(&mut self) -> Result<(), DeviceFault>
        ensures err { IsErr result }
        ensures nothing { Goes [] self.old self.new }
        ensures count { Counted (memory_failures self.old) (memory_failures self.new) result }
    {
        self.failures = self.failures.saturating_add(1);
        Err(DeviceFault)
    }

    // Does the write, and records it.
    fn write(&mut self, at: usize, from: &[u8])
        requires within { at + length from.now ≤ memory_room self.old }
        requires place { size_of (calls_of self.old) + 16 + length from.now ≤ log_of self.old }
        ensures goes { Goes (Wrote at from.now ∷ []) self.old self.new }
        ensures failures { memory_failures self.new ≡ memory_failures self.old }
    {
        self.file.write(at, from);
        self.calls.push_write(at, from);
    }

    // Marks all that was written as synced.
    fn settle(&mut self)
        requires place { size_of (calls_of self.old) + 16 ≤ log_of self.old }
        ensures goes { Goes (Synced ∷ []) self.old self.new }
        ensures failures { memory_failures self.new ≡ memory_failures self.old }
    {
        self.synced.copy(&self.file);
        self.calls.push_sync();
    }
}

impl Disk for MemoryDisk {
    ghost use Rattle.store_disk.specs.Memory.{Goes, calls_of, memory_failures, first_medium, log_of, medium_of, memory_room};

    ghost reads = { λ d file. file ≡ (medium_of d).file };

    ghost may_leave = { λ d. IsImage (medium_of d) };

    ghost moment = { λ d. length (calls_of d) };

    ghost left_since = { λ d. LeftSince (first_medium d) (calls_of d) };

    ghost failures = { memory_failures };

    ghost reads_an_image = { λ d file is. reads_image (medium_of d) file d.shows.image is };

    ghost counts_now = { λ d t file le now. left_now (first_medium d) (calls_of d) t file le now };

    ghost only_now = { λ d file left. image_now (first_medium d) (calls_of d) file left };

    fn len(&mut self) -> Result<u64, DeviceFault>
        ensures ok { result ≡ Ok (length (medium_of self.old).file) }
        ensures same { self.new ≡ self.old }
    {
        Ok(self.file.len() as u64)
    }

    fn read(&mut self, at: u64, into: &mut [u8]) -> Result<(), DeviceFault>
        requires { at + length into.old ≤ length (medium_of self.old).file }
        ensures ok { result ≡ Ok tt }
        ensures read { HasAt at into.new (medium_of self.old).file }
        ensures same { self.new ≡ self.old }
    {
        self.file.read(at as usize, into);
        Ok(())
    }

    fn write_at(&mut self, at: u64, from: &[u8]) -> Result<(), DeviceFault>
        ensures ok { IsOk result ↔ ((at + length from.now ≤ memory_room self.old)
            × (size_of (calls_of self.old) + 16 + length from.now ≤ log_of self.old)) }
        ensures done { OnOk result (Goes (Wrote at from.now ∷ []) self.old self.new) }
        ensures nothing { OnErr result (Goes [] self.old self.new) }
        ensures count { Counted (memory_failures self.old) (memory_failures self.new) result }
    {
        if !self.has_room(at, from.len()) {
            return self.fail();
        }
        self.write(at as usize, from);
        Ok(())
    }

    fn sync(&mut self) -> Result<(), DeviceFault>
        ensures ok { IsOk result ↔ (size_of (calls_of self.old) + 16 ≤ log_of self.old) }
        ensures done { OnOk result (Goes (Synced ∷ []) self.old self.new) }
        ensures nothing { OnErr result (Goes [] self.old self.new) }
        ensures count { Counted (memory_failures self.old) (memory_failures self.new) result }
    {
        if !self.calls.has_room(0) {
            return self.fail();
        }
        self.settle();
        Ok(())
    }
}
