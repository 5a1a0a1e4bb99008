//! Reads of a WAD in a file what its levels are built of: the directory, and the lumps with the names of such lumps.
ghost use Rattle.std.specs.Prelude.{◌≡◌, ◌+◌, ◌*◌, ◌<◌, ◌≤◌, [], Some, length, true, IfOk, IsTrue, OnOk};
ghost use Rattle.lump_records.specs.Names.{name_text};
ghost use Rattle.wad_file.specs.Directory.{is_kind};
ghost use Rattle.wad_file.specs.Drafts.{Takes};
ghost use Rattle.wad_rebuild.specs.Held.{StandsInFor, entry_in, is_drawn_name};
ghost use Rattle.cli_rebuild.specs.Holding.{AddsHeld, AreHeldIn, IsHeldFrom, IsHeldPart, sizes_in};

use std::alloc::Global;
use wad_file::{Entry, Source, WadWriter, long_at};
use wad_rebuild::{entry_in, is_drawn_name};

/// A WAD in memory that stands for one in a file: it has the same names, and the lumps with names of which levels are
/// built. All others are empty. Beside it stands the directory of the file.
#[derive(Drop)]
pub struct HeldWad {
    pub bytes: Vec<u8>,
    pub directory: Vec<u8>,
}

/// Why a WAD in a file isn't held in parts: it is no WAD, or shares bytes among its lumps, or has more than four
/// gigabytes, so that it has to be read whole; or it can't be read, or lack of memory.
#[derive(Clone, Copy)]
pub enum Unheld {
    NotInParts,
    Unread,
    OutOfMemory,
}

// The most bytes of a WAD that is held in parts.
const MOST: u64 = 0xffff_ffff;

// The bytes of a part of the source.
fn part_of<S: Source>(
    alloc: Global,
    source: &mut S,
    at: u64,
    size: usize,
) -> Result<Vec<u8>, Unheld>
    ensures { IfOk result (λ part. length part.items ≡ size) }
{
    let mut part = match vec![in alloc; 0; size] {
        Ok(part) => part,
        Err(_) => return Err(Unheld::OutOfMemory),
    };
    match source.fill_from(at, &mut part) {
        Ok(()) => Ok(part),
        Err(_) => Err(Unheld::Unread),
    }
}

// Whether the bytes are the word of a WAD's kind.
fn is_kind(kind: &[u8]) -> bool
    ensures { result ≡ is_kind kind.now }
{
    kind == b"IWAD".as_slice() || kind == b"PWAD".as_slice()
}

// Whether each lump of a file of `len` bytes that isn't empty ends within them.
fn are_within(directory: &[u8], count: u32, len: u64) -> bool
    requires { 16 * count ≤ length directory.now }
{
    for k in 0..count {
        let entry = entry_in(directory, k);
        if entry.size > 0 && entry.at as u64 + entry.size as u64 > len {
            return false;
        }
    }
    true
}

// How many bytes the lumps have together.
fn all_sizes(directory: &[u8], count: u32) -> u64
    requires { 16 * count ≤ length directory.now }
    ensures { result ≡ sizes_in directory.now count }
{
    let mut sum: u64 = 0;
    for k in 0..count {
        let entry = entry_in(directory, k);
        sum += entry.size as u64;
    }
    sum
}

// How many bytes of them are held.
fn held_size(directory: &[u8], count: u32) -> usize
    requires { 16 * count ≤ length directory.now }
{
    let mut sum: usize = 0;
    for k in 0..count {
        let entry = entry_in(directory, k);
        if is_drawn_name(entry.name.text()) {
            sum = sum.saturating_add(entry.size as usize);
        }
    }
    sum
}

// The bytes of the lump of an entry, if it is held.
fn held_part<S: Source>(alloc: Global, source: &mut S, entry: Entry) -> Result<Vec<u8>, Unheld>
    ensures { IfOk result (λ part. IsHeldPart entry part.items) }
{
    if !is_drawn_name(entry.name.text()) {
        return Ok(Vec::new(alloc));
    }
    match part_of(alloc, source, entry.at as u64, entry.size as usize) {
        Ok(part) => Ok(part),
        Err(error) => Err(error),
    }
}

// Appends the lump of an entry, empty if it isn't held.
fn hold_one<S: Source>(
    alloc: Global,
    source: &mut S,
    entry: Entry,
    writer: &mut WadWriter,
) -> Result<(), Unheld>
    requires { Takes writer.old [] }
    ensures { OnOk result (AddsHeld entry writer.old writer.new) }
{
    let part = match held_part(alloc, source, entry) {
        Ok(part) => part,
        Err(error) => return Err(error),
    };
    if !writer.has_room(part.len(), MOST) {
        return Err(Unheld::NotInParts);
    }
    match writer.push(entry.name, &part) {
        Ok(()) => Ok(()),
        Err(_) => Err(Unheld::OutOfMemory),
    }
}

// Appends the lumps of all entries.
fn hold_all<S: Source>(
    alloc: Global,
    source: &mut S,
    directory: &[u8],
    count: u32,
    writer: &mut WadWriter,
) -> Result<(), Unheld>
    requires room { 16 * count ≤ length directory.now }
    requires ready { Takes writer.old [] }
    requires none { writer.old.lumps ≡ [] }
    ensures takes { OnOk result (Takes writer.new []) }
    ensures held { OnOk result (AreHeldIn directory.now count writer.new.lumps) }
{
    for k in 0..count {
        let entry = entry_in(directory, k);
        match hold_one(alloc, source, entry, writer) {
            Ok(()) => {}
            Err(error) => return Err(error),
        }
    }
    Ok(())
}

// The WAD of a kind with these lumps in memory.
fn held_bytes<S: Source>(
    alloc: Global,
    source: &mut S,
    kind: &[u8],
    directory: &[u8],
    count: u32,
) -> Result<Vec<u8>, Unheld>
    requires kind { is_kind kind.now ≡ true }
    requires room { 16 * count ≤ length directory.now }
    ensures { IfOk result (λ v. IsHeldFrom kind.now directory.now count v.items) }
{
    let room = held_size(directory, count).saturating_add(12 + 16 * count as usize);
    let mut writer = match WadWriter::begin(alloc, room, count as usize) {
        Ok(writer) => writer,
        Err(_) => return Err(Unheld::OutOfMemory),
    };
    match hold_all(alloc, source, directory, count, &mut writer) {
        Ok(()) => {}
        Err(error) => return Err(error),
    }
    match writer.finish(alloc, kind) {
        Ok(bytes) => Ok(bytes),
        Err(_) => Err(Unheld::OutOfMemory),
    }
}

// Holds a WAD of a kind whose directory this is, if its lumps fit into the file one beside another.
fn hold_with<S: Source>(
    alloc: Global,
    source: &mut S,
    len: u64,
    kind: &[u8],
    directory: Vec<u8>,
    count: u32,
) -> Result<HeldWad, Unheld>
    requires kind { is_kind kind.now ≡ true }
    requires room { 16 * count ≤ length directory.items }
    requires short { len < 4294967296 }
    ensures { IfOk result (λ h. StandsInFor h.bytes.items (Some h.directory.items) len) }
{
    let rest = 12 + 16 * count as u64;
    if rest > len {
        return Err(Unheld::NotInParts);
    }
    if all_sizes(&directory, count) > len - rest {
        return Err(Unheld::NotInParts);
    }
    if !are_within(&directory, count, len) {
        return Err(Unheld::NotInParts);
    }
    match held_bytes(alloc, source, kind, &directory, count) {
        Ok(bytes) => Ok(HeldWad { bytes, directory }),
        Err(error) => Err(error),
    }
}

/// Holds the WAD in a source of `len` bytes. Each lump that is held is read once.
///
/// # Errors
///
/// `NotInParts`: any part of the source may have been read. `Unread` or `OutOfMemory`.
pub fn hold<S: Source>(alloc: Global, source: &mut S, len: u64) -> Result<HeldWad, Unheld>
    ensures { IfOk result (λ h. StandsInFor h.bytes.items (Some h.directory.items) len) }
{
    if len < 12 || len > MOST {
        return Err(Unheld::NotInParts);
    }
    let mut head = [0; 12];
    match source.fill_from(0, &mut head) {
        Ok(()) => {}
        Err(_) => return Err(Unheld::Unread),
    }
    let count = long_at(&head, 4);
    let at = long_at(&head, 8) as u64;
    let size = 16 * count as usize;
    if !is_kind(&head[..4]) || at + size as u64 > len {
        return Err(Unheld::NotInParts);
    }
    let directory = match part_of(alloc, source, at, size) {
        Ok(directory) => directory,
        Err(error) => return Err(error),
    };
    hold_with(alloc, source, len, &head[..4], directory, count)
}
