//! Writes a WAD lump by lump: header, lumps, directory.
use crate::entry::Entry;
use byteorder::{ByteOrder, LittleEndian};
use lump_records::Name8;
use std::alloc::{AllocError, Global};
use std::marker::Model;

/// A WAD that is being written: its bytes so far, with zeros in place of the header, the entries of its lumps, and
/// where the lump that is begun stands. A contract sees the lumps, and the bytes of the lump that is begun.
#[derive(Drop)]
pub struct WadWriter {
    bytes: Vec<u8>,
    entries: Vec<Entry>,
    at: usize,
}

impl Model for WadWriter {
    ghost use Rattle.wad_file.specs.Drafts.{Draft};

    ghost Value = { Draft };

    ghost use Rattle.wad_file.specs.DraftFields.{IsDraft, draft_of};

    ghost view = { draft_of };

    ghost invariant = { IsDraft };
}

ghost use Rattle.std.specs.Prelude.{◌≡◌, ◌++◌, ◌≤◌, length, drop, flat_map, OnOk, IfOk};
ghost use Rattle.wad_file.specs.Lumps.{entry_bytes, long};

// Appends a 32-bit number, the lowest byte first.
fn put_long(bytes: &mut Vec<u8>, n: u32) -> Result<(), AllocError>
    ensures { OnOk result (bytes.new.items ≡ bytes.old.items ++ long n) }
{
    let mut four = [0; 4];
    LittleEndian::write_u32(&mut four, n);
    bytes.extend_from_slice(&four)?;
    Ok(())
}

// Appends an entry of the directory: offset, size, name.
fn put_entry(bytes: &mut Vec<u8>, entry: &Entry) -> Result<(), AllocError>
    ensures { OnOk result (bytes.new.items ≡ bytes.old.items ++ entry_bytes entry.now) }
{
    put_long(bytes, entry.at)?;
    put_long(bytes, entry.size)?;
    bytes.extend_from_slice(&entry.name.bytes)?;
    Ok(())
}

// Appends the entries of a directory.
fn put_entries(bytes: &mut Vec<u8>, entries: &[Entry]) -> Result<(), AllocError>
    ensures { OnOk result
        (bytes.new.items ≡ bytes.old.items ++ flat_map entry_bytes entries.now) }
{
    for entry in entries {
        put_entry(bytes, entry)?;
    }
    Ok(())
}

// The header: the kind, the number of lumps, and where the directory stands.
fn head_of(alloc: Global, kind: &[u8], count: u32, place: u32) -> Result<Vec<u8>, AllocError>
    ensures { IfOk result (λ head. head.items ≡ kind.now ++ (long count ++ long place)) }
{
    let mut head = Vec::with_capacity(alloc, 12)?;
    head.extend_from_slice(kind)?;
    put_long(&mut head, count)?;
    put_long(&mut head, place)?;
    Ok(head)
}

// Writes over the first bytes.
fn write_over(bytes: &mut [u8], head: &[u8])
    requires { length head.now ≤ length bytes.old }
    ensures { bytes.new ≡ head.now ++ drop (length head.now) bytes.old }
{
    bytes[..head.len()].copy_from_slice(head);
}

impl WadWriter {
    ghost use Rattle.std.specs.Prelude.{◌≡◌, ◌++◌, ◌+◌, ◌<◌, [], ◌∷◌, nat_le, length, true, OnErr, OnOk, IfOk};
    ghost use Rattle.wad_file.specs.Directory.{is_kind};
    ghost use Rattle.wad_file.specs.Drafts.{Puts, Takes, no_lumps};
    ghost use Rattle.wad_file.specs.Lumps.{IsWadOf, wad_of, wad_size};

    /// Begins a WAD, with memory for `room` bytes and `count` lumps: if they are enough, no byte of a lump is moved
    /// later.
    pub fn begin(alloc: Global, room: usize, count: usize) -> Result<WadWriter, AllocError>
        ensures { IfOk result (λ wad. wad ≡ no_lumps) }
    {
        let mut bytes = Vec::with_capacity(alloc, room)?;
        let entries = Vec::with_capacity(alloc, count)?;
        bytes.extend_from_slice(&[0; 12])?;
        Ok(WadWriter {
            bytes,
            entries,
            at: 12,
        })
    }

    /// Whether the WAD, with `len` bytes more of a lump that then ends, has at most `most` bytes.
    pub fn has_room(&self, len: usize, most: u64) -> bool
        ensures { result
            ≡ nat_le (wad_size self.now.lumps + length self.now.begun + len + 16) most }
    {
        let entries = 16 * (self.entries.len() as u128 + 1);
        self.bytes.len() as u128 + len as u128 + entries <= u128::from(most)
    }

    /// Appends bytes to the lump that is begun.
    pub fn append(&mut self, bytes: &[u8]) -> Result<(), AllocError>
        ensures ok { OnOk result
            (self.new ≡ record self.old { begun = self.old.begun ++ bytes.now }) }
        ensures err { OnErr result (self.new ≡ self.old) }
    {
        self.bytes.extend_from_slice(bytes)?;
        Ok(())
    }

    /// Ends the lump that is begun: its entry has the name.
    pub fn end_lump(&mut self, name: Name8) -> Result<(), AllocError>
        requires { wad_size self.old.lumps + length self.old.begun + 16 < 4294967296 }
        ensures ok { OnOk result (self.new ≡ record {
          lumps = self.old.lumps ++ record { name = name; bytes = self.old.begun } ∷ [];
          begun = [];
        }) }
        ensures err { OnErr result (self.new ≡ self.old) }
    {
        let end = self.bytes.len();
        let entry = Entry {
            at: self.at as u32,
            size: (end - self.at) as u32,
            name,
        };
        match self.entries.push(entry) {
            Ok(()) => {}
            Err(_) => return Err(AllocError),
        }
        self.at = end;
        Ok(())
    }

    /// Appends a lump.
    pub fn push(&mut self, name: Name8, bytes: &[u8]) -> Result<(), AllocError>
        requires { Takes self.old (record { name = name; bytes = bytes.now } ∷ []) }
        ensures { OnOk result
            (Puts self.old self.new (record { name = name; bytes = bytes.now } ∷ [])) }
    {
        self.append(bytes)?;
        self.end_lump(name)?;
        Ok(())
    }

    /// The finished WAD of a kind, IWAD or PWAD: its header, its lumps, and its directory. Each lump reads back.
    pub fn finish(self, alloc: Global, kind: &[u8]) -> Result<Vec<u8>, AllocError>
        requires kind { is_kind kind.now ≡ true }
        requires fits { Takes self [] }
        ensures bytes { IfOk result (λ wad. wad.items ≡ wad_of kind.now self.lumps) }
        ensures reads { IfOk result (λ wad. IsWadOf kind.now self.lumps wad.items) }
    {
        let WadWriter {
            mut bytes,
            entries,
            ..
        } = self;
        let head = head_of(alloc, kind, entries.len() as u32, bytes.len() as u32)?;
        write_over(&mut bytes, &head);
        put_entries(&mut bytes, &entries)?;
        Ok(bytes)
    }
}
