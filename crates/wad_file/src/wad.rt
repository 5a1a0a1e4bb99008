//! A WAD: bytes whose directory lies inside them.
use crate::entry::Entry;
use crate::error::WadError;
use crate::fields::{long_at, name_at};
use lump_records::Name8;
use std::marker::Model;

/// The bytes of a WAD whose directory lies inside the file. A contract sees the bytes.
#[derive(Drop)]
pub struct Wad<'a> {
    bytes: &'a [u8],
    count: u32,
    directory: u32,
}

impl<'a> Model for Wad<'a> {
    ghost use Rattle.std.specs.Prelude.{ℕ, List};

    ghost Value = { List ℕ };

    ghost use Rattle.wad_file.specs.Headers.{IsRead};

    ghost view = { λ a. a.bytes.now };

    ghost invariant = { IsRead };
}

impl<'a> Wad<'a> {
    ghost use Rattle.std.specs.Prelude.{◌≡◌, ◌+◌, ◌≤◌, ◌<◌, IfSome, MatchResult, None, Some, take, true};
    ghost use Rattle.wad_file.specs.Directory.{are_inside, entry, entry_has_name, is_kind, is_outside, last_named, lump_count, standing, wad_refusal};

    /// Reads the header of a WAD.
    ///
    /// # Errors
    ///
    /// The first of `NotAWad` and `DirectoryOutside` that applies.
    pub fn read(bytes: &'a [u8]) -> Result<Wad<'a>, WadError>
        ensures { MatchResult result
            (λ wad. (wad_refusal bytes.now ≡ None) × (wad ≡ bytes.now))
            (λ e. wad_refusal bytes.now ≡ Some e) }
    {
        if !is_wad(bytes) {
            return Err(WadError::NotAWad);
        }
        let count = long_at(bytes, 4);
        let directory = long_at(bytes, 8);
        if directory as u64 + 16 * count as u64 > bytes.len() as u64 {
            return Err(WadError::DirectoryOutside);
        }
        Ok(Wad {
            bytes,
            count,
            directory,
        })
    }

    /// The bytes of the whole WAD.
    pub fn bytes(&self) -> &'a [u8]
        ensures { result.now ≡ self.now }
    {
        self.bytes
    }

    /// The kind of the WAD, IWAD or PWAD.
    pub fn kind(&self) -> &'a [u8]
        ensures bytes { result.now ≡ take 4 self.now }
        ensures kind { is_kind result.now ≡ true }
    {
        &self.bytes[..4]
    }

    /// How many lumps the WAD has.
    pub fn count(&self) -> u32
        ensures count { result ≡ lump_count self.now }
        ensures accepted { wad_refusal self.now ≡ None }
    {
        self.count
    }

    /// The k-th entry of the directory.
    pub fn entry(&self, k: u32) -> Entry
        requires { k < lump_count self.now }
        ensures { result ≡ entry self.now k }
    {
        let at = self.directory as usize + 16 * k as usize;
        Entry {
            at: long_at(self.bytes, at),
            size: long_at(self.bytes, at + 4),
            name: name_at(self.bytes, at + 8),
        }
    }

    /// The name of the k-th entry.
    pub fn name(&self, k: u32) -> Name8
        requires { k < lump_count self.now }
        ensures { result ≡ (entry self.now k).name }
    {
        self.entry(k).name
    }

    /// Whether the k-th entry has the name.
    pub fn is_named(&self, name: &[u8], k: u32) -> bool
        requires { k < lump_count self.now }
        ensures { result ≡ entry_has_name self.now name.now k }
    {
        let own = self.name(k);
        own.text() == name
    }

    /// The number of the last entry with the name, if there is one.
    pub fn last_named(&self, name: &[u8]) -> Option<u32>
        ensures last { result ≡ last_named self.now name.now (lump_count self.now) }
        ensures among { IfSome result (λ at. at < lump_count self.now) }
    {
        let count = self.count();
        for behind in 0..count {
            let k = count - 1 - behind;
            if self.is_named(name, k) {
                return Some(k);
            }
        }
        None
    }

    /// Whether the entry's lump isn't empty and ends beyond the file.
    pub fn is_outside(&self, entry: Entry) -> bool
        ensures { result ≡ is_outside self.now entry }
    {
        entry.size > 0 && entry.at as u64 + entry.size as u64 > self.bytes.len() as u64
    }

    /// Whether the lump of each of `count` entries from `from` on lies inside the file.
    pub fn are_inside(&self, from: u32, count: u32) -> bool
        requires { from + count ≤ lump_count self.now }
        ensures { result ≡ are_inside self.now from count }
    {
        // There are fewer than 2^32 entries.
        let _ = self.count();
        for n in 0..count {
            if self.is_outside(self.entry(from + n)) {
                return false;
            }
        }
        true
    }

    /// The bytes of the k-th entry's lump, or none if it ends beyond the file.
    pub fn standing(&self, k: u32) -> &'a [u8]
        requires { k < lump_count self.now }
        ensures { result.now ≡ standing self.now k }
    {
        let entry = self.entry(k);
        if self.is_outside(entry) || entry.size == 0 {
            return &[];
        }
        let start = entry.at as usize;
        &self.bytes[start..start + entry.size as usize]
    }
}

ghost use Rattle.std.specs.Prelude.{◌≡◌, ◌≤◌, length, take};
ghost use Rattle.wad_file.specs.Directory.{is_wad};
ghost use Rattle.wad_file.specs.Fields.{same_bytes};

// Whether the first four bytes are these.
fn begins_with(bytes: &[u8], letters: &[u8; 4]) -> bool
    requires { 4 ≤ length bytes.now }
    ensures { result ≡ same_bytes (take 4 bytes.now) letters.now }
{
    &bytes[..4] == letters.as_slice()
}

// Whether the bytes begin as a WAD's.
fn is_wad(bytes: &[u8]) -> bool
    ensures { result ≡ is_wad bytes.now }
{
    if bytes.len() < 12 {
        return false;
    }
    begins_with(bytes, b"IWAD") || begins_with(bytes, b"PWAD")
}
