//! A WAD in a file for a request that needs some of its lumps, and reads no other.
ghost use Rattle.std.specs.Prelude.{◌+◌, ◌≤◌, [], IfSome, length};
ghost use Rattle.wad_file.specs.Drafts.{Takes};

use crate::lumps_read::{LumpsRead, asked_in, read_of};
use std::alloc::Global;
use std::fs::OpenFile;
use std::io::{self, Read};
use std::os::unix::fs::FileExt;
use wad_file::{Entry, Wad, WadWriter, long_at};

// The most bytes of a WAD.
const MOST: u64 = 0xffff_ffff;

/// The WAD in an open file as a request reads it that needs some of its lumps.
#[derive(Drop)]
pub enum WadReader<'a, F> {
    /// A WAD in memory with the names of all lumps of the file, and of each lump what the request reads. So many of its
    /// bytes are given.
    Lumps { bytes: Vec<u8>, given: usize },
    /// All bytes of the file.
    Whole(&'a mut F),
}

// Gives the bytes behind so many of them, as many as fit, and returns how many bytes are given then.
fn give(bytes: &[u8], given: usize, into: &mut [u8]) -> usize
    requires { given ≤ length bytes.now }
    ensures behind { given ≤ result }
    ensures within { result ≤ length bytes.now }
    ensures fits { result ≤ given + length into.new }
{
    let rest = &bytes[given..];
    let count = rest.len().min(into.len());
    into[..count].copy_from_slice(&rest[..count]);
    given + count
}

impl<F: Read> Read for WadReader<'_, F> {
    fn read(&mut self, buf: &mut [u8]) -> io::Result<usize> {
        match self {
            WadReader::Lumps { bytes, given } => {
                if bytes.len() < *given {
                    return Ok(0);
                }
                let now = give(bytes, *given, buf);
                let count = now - *given;
                *given = now;
                Ok(count)
            }
            WadReader::Whole(file) => file.read(buf),
        }
    }
}

// How many bytes a regular file has.
fn length_of<F: OpenFile>(file: &F) -> Option<u64> {
    match file.metadata() {
        Ok(facts) if facts.is_file() => Some(facts.len()),
        _ => None,
    }
}

// The bytes of a part of the file, if it has `len` bytes and the part is among them.
fn part_of<F: FileExt>(alloc: Global, file: &F, len: u64, at: u32, size: u64) -> Option<Vec<u8>> {
    if u64::from(at) > len || len - u64::from(at) < size {
        return None;
    }
    let mut part = vec![in alloc; 0; size as usize].ok()?;
    file.read_exact_at(&mut part, u64::from(at)).ok()?;
    Some(part)
}

// The head and the directory of the WAD in a file of `len` bytes, as a WAD of its own: it has the entries as they are.
fn entries_of<F: FileExt>(alloc: Global, file: &F, len: u64) -> Option<Vec<u8>> {
    let head = part_of(alloc, file, len, 0, 12)?;
    if head.len() < 12 {
        return None;
    }
    let size = 16 * u64::from(long_at(&head, 4));
    let directory = part_of(alloc, file, len, long_at(&head, 8), size)?;
    let mut bytes = Vec::with_capacity(alloc, directory.len().saturating_add(12)).ok()?;
    bytes.extend_from_slice(&head[..8]).ok()?;
    bytes.extend_from_slice(&[12, 0, 0, 0]).ok()?;
    bytes.extend_from_slice(&directory).ok()?;
    Some(bytes)
}

// How many bytes of the lumps are read.
fn size_of(wad: &Wad<'_>, asked: &[u32]) -> u64 {
    let mut sum: u64 = 0;
    for k in 0..wad.count() {
        let count = read_of(asked, k, wad.entry(k).size);
        sum = sum.saturating_add(u64::from(count));
    }
    sum
}

// Appends the first `count` bytes of the lump of an entry. None if the lump isn't to be had.
fn put_lump<F: FileExt>(
    alloc: Global,
    file: &F,
    len: u64,
    entry: Entry,
    count: u32,
    writer: &mut WadWriter,
) -> Option<()>
    requires { Takes writer.old [] }
    ensures { IfSome result (λ _. Takes writer.new []) }
{
    let at = if count > 0 { entry.at } else { 0 };
    let end = u64::from(entry.at).saturating_add(u64::from(entry.size));
    if count > 0 && end > len {
        return None;
    }
    let part = part_of(alloc, file, len, at, u64::from(count))?;
    if !writer.has_room(part.len(), MOST) {
        return None;
    }
    match writer.push(entry.name, &part) {
        Ok(()) => Some(()),
        Err(_) => None,
    }
}

// Appends what is asked for of the lumps of all entries.
fn put_lumps<F: FileExt>(
    alloc: Global,
    file: &F,
    len: u64,
    wad: &Wad<'_>,
    asked: &[u32],
    writer: &mut WadWriter,
) -> Option<()>
    requires { Takes writer.old [] }
    ensures { IfSome result (λ _. Takes writer.new []) }
{
    for k in 0..wad.count() {
        let entry = wad.entry(k);
        let count = read_of(asked, k, entry.size);
        match put_lump(alloc, file, len, entry, count, writer) {
            Some(()) => {}
            None => return None,
        }
    }
    Some(())
}

// The WAD with the names of these entries and what is asked for of their lumps, in a file of `len` bytes.
fn bytes_of<F: FileExt>(
    alloc: Global,
    file: &F,
    len: u64,
    wad: &Wad<'_>,
    asked: &[u32],
) -> Option<Vec<u8>> {
    let count = wad.count();
    let size = size_of(wad, asked);
    if size > len {
        return None;
    }
    let room = (size as usize).saturating_add(12 + 16 * count as usize);
    let mut writer = match WadWriter::begin(alloc, room, count as usize) {
        Ok(writer) => writer,
        Err(_) => return None,
    };
    match put_lumps(alloc, file, len, wad, asked, &mut writer) {
        Some(()) => {}
        None => return None,
    }
    match writer.finish(alloc, wad.kind()) {
        Ok(bytes) => Some(bytes),
        Err(_) => None,
    }
}

// The WAD with the names of all lumps of the file and what a request reads of them.
fn lumps_of<F: FileExt + OpenFile>(
    alloc: Global,
    file: &F,
    reads: LumpsRead<'_>,
) -> Option<Vec<u8>> {
    let len = length_of(file)?;
    let entries = entries_of(alloc, file, len)?;
    let wad = Wad::read(&entries).ok()?;
    let asked = asked_in(alloc, &wad, reads)?;
    bytes_of(alloc, file, len, &wad, &asked)
}

impl<'a, F: FileExt + OpenFile> WadReader<'a, F> {
    /// Reads of the file the lumps that a request reads. What can't be read so, since it isn't a regular file with a
    /// WAD, or the lumps don't stand in it, or for lack of memory, is read whole.
    pub fn new(alloc: Global, file: &'a mut F, reads: LumpsRead<'_>) -> Self {
        match lumps_of(alloc, &*file, reads) {
            Some(bytes) => WadReader::Lumps { bytes, given: 0 },
            None => WadReader::Whole(file),
        }
    }
}
