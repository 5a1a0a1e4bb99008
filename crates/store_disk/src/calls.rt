//! The record of a memory disk's successful calls. It determines the images of past moments.
ghost use Rattle.std.specs.Prelude.{◌≡◌, ◌≤◌, ◌<◌, ◌+◌, ◌*◌, ◌/◌, ◌^◌, ◌↔◌, [], ◌∷◌, ◌++◌, length, take, IfOk, IsTrue};
ghost use Rattle.std.specs.List.{list_any};
ghost use Rattle.store_disk.specs.Entries.{has_place, bytes_of_all};
ghost use Rattle.store_disk.specs.Medium.{Synced, Wrote, is_in, size_of};

use crate::OutOfMemory;
use crate::entry::Entry;
use crate::put::put;
use std::alloc::Global;

// A record of a disk's successful calls. Its memory is allocated once.
#[derive(Drop)]
pub struct Calls {
    // The first `count` entries are in use. Those from `since` on came after the last sync.
    entries: Vec<Entry>,
    count: usize,
    since: usize,
    // The first `used` bytes are those of the writes, one write after another.
    written: Vec<u8>,
    used: usize,
    ghost used_is: { bytes_of_all (take count entries.items) ≡ used },
    ghost fits: { 16 * count + used ≤ length written.items },
    ghost entries_fit: { length entries.items ≡ length written.items / 16 },
    ghost since_fits: { since ≤ count },
}

impl Calls {
    ghost use Rattle.store_disk.specs.Calls.{calls_in, record_room, ranges_in};

    pub fn new(alloc: Global, limit: usize) -> Result<Calls, OutOfMemory>
        ensures calls { IfOk result (λ c. calls_in c ≡ []) }
        ensures ranges { IfOk result (λ c. ranges_in c ≡ []) }
        ensures limit { IfOk result (λ c. record_room c ≡ limit) }
    {
        Ok(Calls {
            entries: vec![in alloc; Entry::Sync; limit / 16]?,
            count: 0,
            since: 0,
            written: vec![in alloc; 0; limit]?,
            used: 0,
        })
    }

    pub fn limit(&self) -> usize
        ensures { result ≡ record_room self.now }
    {
        self.written.len()
    }

    // Whether the record has room for one more call that writes `size` bytes.
    pub fn has_room(&self, size: usize) -> bool
        ensures { IsTrue result ↔ (size_of (calls_in self.now) + 16 + size ≤ record_room self.now) }
    {
        let left = self.written.len() - 16 * self.count - self.used;
        left >= 16 && size <= left - 16
    }

    pub fn push_write(&mut self, at: usize, from: &[u8])
        requires { size_of (calls_in self.old) + 16 + length from.now ≤ record_room self.old }
        ensures calls { calls_in self.new ≡ calls_in self.old ++ Wrote at from.now ∷ [] }
        ensures ranges { ranges_in self.new ≡ ranges_in self.old ++ (at, length from.now) ∷ [] }
        ensures limit { record_room self.new ≡ record_room self.old }
    {
        put(&mut self.written, self.used, from);
        self.entries[self.count] = Entry::Write {
            at,
            size: from.len(),
        };
        self.count += 1;
        self.used += from.len();
    }

    pub fn push_sync(&mut self)
        requires { size_of (calls_in self.old) + 16 ≤ record_room self.old }
        ensures calls { calls_in self.new ≡ calls_in self.old ++ Synced ∷ [] }
        ensures ranges { ranges_in self.new ≡ [] }
        ensures limit { record_room self.new ≡ record_room self.old }
    {
        self.entries[self.count] = Entry::Sync;
        self.count += 1;
        self.since = self.count;
    }

    // Whether the byte at offset `place` was written since the last sync.
    pub fn has_written(&self, place: usize) -> bool
        ensures { result ≡ list_any (is_in place) (ranges_in self.now) }
    {
        any_has_place(&self.entries[self.since..self.count], place)
    }
}

fn any_has_place(entries: &[Entry], place: usize) -> bool
    ensures { result ≡ list_any (has_place place) entries.now }
{
    entries.iter().any(|entry| entry.has_place(place))
}
