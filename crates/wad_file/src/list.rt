//! The lumps of a new WAD, each at hand or at a place in a source, and how the WAD is written from there.
use crate::buffer::ByteBuffer;
use crate::entry::Entry;
use crate::error::CopyFailed;
use crate::source::{Source, copy_part};
use lump_records::Name8;
use lump_text::WriterFailed;
use std::alloc::{AllocError, Global};
use std::io::Write;
use std::marker::Model;

// What a lump is written of: its bytes, or so many at a place in the source.
#[derive(Clone, Copy)]
enum ListedContent<'a> {
    AtHand(&'a [u8]),
    InSource(u32, u32),
}

// A lump, and its entry in the new WAD.
#[derive(Clone, Copy)]
struct ListedLump<'a> {
    entry: Entry,
    content: ListedContent<'a>,
}

/// The lumps of a WAD that is to be written, each at hand or at a place in a source. A contract sees the lumps.
#[derive(Drop)]
pub struct LumpList<'a> {
    lumps: Vec<ListedLump<'a>>,
    len: u64,
}

impl<'a> Model for LumpList<'a> {
    ghost use Rattle.std.specs.Prelude.{List};
    ghost use Rattle.wad_file.specs.Placed.{Placed};

    ghost Value = { List Placed };

    ghost use Rattle.wad_file.specs.Listed.{IsList, list_of};

    ghost view = { list_of };

    ghost invariant = { IsList };
}

ghost use Rattle.std.specs.Prelude.{◌≡◌, ◌++◌, flat_map, OnOk};
ghost use Rattle.std.specs.Io.KnownBytes.{Appends};
ghost use Rattle.wad_file.specs.Lumps.{entry_bytes, long};
ghost use Rattle.wad_file.specs.Listed.{ArePut, IsPut, listed_content, listed_entry, lumps_listed};

// Writes a 32-bit number, the lowest byte first.
fn write_long<W: Write>(n: u32, writer: &mut W) -> Result<(), WriterFailed>
    ensures { OnOk result (Appends (W.contents writer.old) (W.contents writer.new) (long n)) }
{
    writer.write_all(&n.to_le_bytes())?;
    Ok(())
}

// Writes a header: the kind, the number of lumps, and where the directory stands.
fn write_head<W: Write>(
    kind: &[u8],
    count: u32,
    place: u32,
    writer: &mut W,
) -> Result<(), WriterFailed>
    ensures { OnOk result
        (Appends (W.contents writer.old) (W.contents writer.new)
        (kind.now ++ (long count ++ long place))) }
{
    writer.write_all(kind)?;
    write_long(count, writer)?;
    write_long(place, writer)
}

// The bytes of an entry of a directory: offset, size, name.
fn bytes_of(entry: &Entry) -> [u8; 16]
    ensures { result ≡ entry_bytes entry.now }
{
    let mut bytes = [0; 16];
    bytes[..4].copy_from_slice(&entry.at.to_le_bytes());
    bytes[4..8].copy_from_slice(&entry.size.to_le_bytes());
    bytes[8..].copy_from_slice(&entry.name.bytes);
    bytes
}

// Writes the bytes of a lump.
fn write_lump<S: Source, W: Write>(
    lump: &ListedLump<'_>,
    source: &mut S,
    writer: &mut W,
) -> Result<(), CopyFailed>
    ensures put { OnOk result
        (IsPut (S.known_bytes source.old) (listed_content lump.now.content)
        (W.contents writer.old) (W.contents writer.new)) }
    ensures stays { S.known_bytes source.new ≡ S.known_bytes source.old }
{
    match &lump.content {
        ListedContent::AtHand(bytes) => match writer.write_all(bytes) {
            Ok(()) => Ok(()),
            Err(_) => Err(CopyFailed::Writer),
        },
        ListedContent::InSource(at, size) => match copy_part(source, *at, *size, writer) {
            Ok(()) => Ok(()),
            Err(error) => Err(error),
        },
    }
}

// Writes the lumps one behind another.
fn write_lumps<S: Source, W: Write>(
    lumps: &[ListedLump<'_>],
    source: &mut S,
    writer: &mut W,
) -> Result<(), CopyFailed>
    ensures put { OnOk result
        (ArePut (S.known_bytes source.old) (lumps_listed lumps.now)
        (W.contents writer.old) (W.contents writer.new)) }
    ensures stays { S.known_bytes source.new ≡ S.known_bytes source.old }
{
    for lump in lumps {
        match write_lump(lump, source, writer) {
            Ok(()) => {}
            Err(error) => return Err(error),
        }
    }
    Ok(())
}

// Writes their entries one behind another.
fn write_entries<W: Write>(lumps: &[ListedLump<'_>], writer: &mut W) -> Result<(), WriterFailed>
    ensures { OnOk result
        (Appends (W.contents writer.old) (W.contents writer.new)
        (flat_map listed_entry lumps.now)) }
{
    let mut buffer = ByteBuffer::new();
    for lump in lumps {
        match buffer.put(&bytes_of(&lump.entry), writer) {
            Ok(()) => {}
            Err(error) => return Err(error),
        }
    }
    buffer.send(writer)
}

impl<'a> LumpList<'a> {
    ghost use Rattle.std.specs.Prelude.{◌≡◌, ◌++◌, ◌+◌, ◌<◌, [], ◌∷◌, nat_le, length, true, OnOk, OnErr, IfOk};
    ghost use Rattle.wad_file.specs.Directory.{is_kind};
    ghost use Rattle.std.specs.Io.KnownBytes.{Appends};
    ghost use Rattle.wad_file.specs.Placed.{AtHand, InSource, IsListWritten, content_size, placed_directory, placed_head, placed_size, sized};

    /// Begins a list, with memory for `count` lumps: if they are enough, the list isn't moved later.
    pub fn begin(alloc: Global, count: usize) -> Result<LumpList<'a>, AllocError>
        ensures { IfOk result (λ list. list ≡ []) }
    {
        Ok(LumpList {
            lumps: Vec::with_capacity(alloc, count)?,
            len: 0,
        })
    }

    /// Whether the WAD, with a lump of `len` bytes more, has at most `most` bytes.
    pub fn has_room(&self, len: usize, most: u64) -> bool
        ensures { result ≡ nat_le (placed_size self.now + len + 16) most }
    {
        let entries = 16 * (self.lumps.len() as u128 + 1);
        12 + self.len as u128 + len as u128 + entries <= u128::from(most)
    }

    // Appends a lump of `len` bytes.
    fn list(&mut self, name: Name8, content: ListedContent<'a>, len: u32) -> Result<(), AllocError>
        requires long { len ≡ content_size (listed_content content) }
        requires fits { placed_size self.old + len + 16 < 4294967296 }
        ensures ok { OnOk result
            (self.new ≡ self.old
            ++ record { name = name; content = listed_content content.entry } ∷ []) }
        ensures err { OnErr result (self.new ≡ self.old) }
    {
        let entry = Entry {
            at: (12 + self.len) as u32,
            size: len,
            name,
        };
        match self.lumps.push(ListedLump { entry, content }) {
            Ok(()) => {}
            Err(_) => return Err(AllocError),
        }
        self.len += len as u64;
        Ok(())
    }

    /// Appends a lump that is at hand.
    pub fn push(&mut self, name: Name8, bytes: &'a [u8]) -> Result<(), AllocError>
        requires { placed_size self.old + length bytes.now + 16 < 4294967296 }
        ensures ok { OnOk result
            (self.new ≡ self.old ++ record { name = name; content = AtHand bytes.now } ∷ []) }
        ensures err { OnErr result (self.new ≡ self.old) }
    {
        self.list(name, ListedContent::AtHand(bytes), bytes.len() as u32)
    }

    /// Appends a lump of `size` bytes that stand in the source from `at` on.
    pub fn push_part(&mut self, name: Name8, at: u32, size: u32) -> Result<(), AllocError>
        requires { placed_size self.old + size + 16 < 4294967296 }
        ensures ok { OnOk result
            (self.new ≡ self.old ++ record { name = name; content = InSource at size } ∷ []) }
        ensures err { OnErr result (self.new ≡ self.old) }
    {
        self.list(name, ListedContent::InSource(at, size), size)
    }

    /// Appends a lump of `size` bytes that the caller writes. Such a list is for `write_header` and `write_directory`.
    pub fn push_sized(&mut self, name: Name8, size: u32) -> Result<(), AllocError>
        requires { placed_size self.old + size + 16 < 4294967296 }
        ensures ok { OnOk result (self.new ≡ self.old ++ sized name size ∷ []) }
        ensures err { OnErr result (self.new ≡ self.old) }
    {
        self.push_part(name, 0, size)
    }

    /// How many bytes the WAD has.
    pub fn size(&self) -> u64
        requires { placed_size self.now < 4294967296 }
        ensures { result ≡ placed_size self.now }
    {
        12 + self.len + 16 * self.lumps.len() as u64
    }

    /// Writes the header of the WAD of a kind. Its lumps stand behind it.
    pub fn write_header<W: Write>(&self, kind: &[u8], writer: &mut W) -> Result<(), WriterFailed>
        requires { placed_size self.now < 4294967296 }
        ensures { OnOk result
            (Appends (W.contents writer.old) (W.contents writer.new)
            (placed_head kind.now self.now)) }
    {
        let place = (12 + self.len) as u32;
        write_head(kind, self.lumps.len() as u32, place, writer)
    }

    /// Writes the directory of the WAD, which stands behind its lumps.
    pub fn write_directory<W: Write>(&self, writer: &mut W) -> Result<(), WriterFailed>
        ensures { OnOk result
            (Appends (W.contents writer.old) (W.contents writer.new)
            (placed_directory self.now)) }
    {
        write_entries(&self.lumps, writer)
    }

    /// Writes the WAD of a kind, IWAD or PWAD: its header, its lumps, and its directory. Each lump reads back. A lump
    /// of the source is read once.
    ///
    /// # Errors
    ///
    /// `Source` or `Writer`, whichever failed: any part of the WAD may have been written.
    pub fn write_to<S: Source, W: Write>(
        &self,
        kind: &[u8],
        source: &mut S,
        writer: &mut W,
    ) -> Result<(), CopyFailed>
        requires kind { is_kind kind.now ≡ true }
        requires fits { placed_size self.now < 4294967296 }
        ensures { OnOk result
            (IsListWritten (S.known_bytes source.old) kind.now self.now
            (W.contents writer.old) (W.contents writer.new)) }
    {
        self.write_header(kind, writer)?;
        write_lumps(&self.lumps, source, writer)?;
        self.write_directory(writer)?;
        Ok(())
    }
}
