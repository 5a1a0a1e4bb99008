//! Encodes lists of records as whole lumps, and decodes them.
ghost use Rattle.std.specs.Prelude.{◌≡◌, ◌≢◌, ◌%◌, ◌↔◌, ◌<◌, ◌^◌, ℕ, List, length, flat_map, IfOk, IsOkUnless, IsErrOf};
ghost use Rattle.lump_records.specs.Lists.{DecodesList, EncodesList};
ghost use Rattle.lump_records.specs.Lumps.{records_of};
ghost use Rattle.lump_records.specs.Records.{line_at, line_record, node_at, node_record, sector_at, sector_record, seg_at, seg_record};
ghost use Rattle.lump_records.specs.Records.{side_at, side_record, sub_at, sub_record, thing_at, thing_record, vertex_at, vertex_record};

use crate::codec::{
    line_bytes, line_of, node_bytes, node_of, sector_bytes, sector_of, seg_bytes, seg_of,
    side_bytes, side_of, sub_bytes, sub_of, thing_bytes, thing_of, vertex_bytes, vertex_of,
};
use crate::error::LumpError;
use crate::records::{Line, Node, Sector, Seg, Side, Sub, Thing, Vertex};
use std::alloc::Global;

// A record of `N` bytes.
trait Record<const N: usize>: Copy {
    ghost bytes_of: { Self → List ℕ };

    ghost value_at: { List ℕ → Self };

    fn to_bytes(&self) -> [u8; N]
        ensures bytes { result ≡ bytes_of self.now }
        ensures inverse { value_at result ≡ self.now };

    fn from_bytes(bytes: &[u8; N]) -> Self
        ensures value { result ≡ value_at bytes.now }
        ensures inverse { bytes_of result ≡ bytes.now };
}

impl Record<10> for Thing {
    ghost bytes_of = { thing_record };

    ghost value_at = { thing_at };

    fn to_bytes(&self) -> [u8; 10] {
        thing_bytes(self)
    }

    fn from_bytes(bytes: &[u8; 10]) -> Thing {
        thing_of(bytes)
    }
}

impl Record<14> for Line {
    ghost bytes_of = { line_record };

    ghost value_at = { line_at };

    fn to_bytes(&self) -> [u8; 14] {
        line_bytes(self)
    }

    fn from_bytes(bytes: &[u8; 14]) -> Line {
        line_of(bytes)
    }
}

impl Record<30> for Side {
    ghost bytes_of = { side_record };

    ghost value_at = { side_at };

    fn to_bytes(&self) -> [u8; 30] {
        side_bytes(self)
    }

    fn from_bytes(bytes: &[u8; 30]) -> Side {
        side_of(bytes)
    }
}

impl Record<4> for Vertex {
    ghost bytes_of = { vertex_record };

    ghost value_at = { vertex_at };

    fn to_bytes(&self) -> [u8; 4] {
        vertex_bytes(self)
    }

    fn from_bytes(bytes: &[u8; 4]) -> Vertex {
        vertex_of(bytes)
    }
}

impl Record<12> for Seg {
    ghost bytes_of = { seg_record };

    ghost value_at = { seg_at };

    fn to_bytes(&self) -> [u8; 12] {
        seg_bytes(self)
    }

    fn from_bytes(bytes: &[u8; 12]) -> Seg {
        seg_of(bytes)
    }
}

impl Record<4> for Sub {
    ghost bytes_of = { sub_record };

    ghost value_at = { sub_at };

    fn to_bytes(&self) -> [u8; 4] {
        sub_bytes(self)
    }

    fn from_bytes(bytes: &[u8; 4]) -> Sub {
        sub_of(bytes)
    }
}

impl Record<28> for Node {
    ghost bytes_of = { node_record };

    ghost value_at = { node_at };

    fn to_bytes(&self) -> [u8; 28] {
        node_bytes(self)
    }

    fn from_bytes(bytes: &[u8; 28]) -> Node {
        node_of(bytes)
    }
}

impl Record<26> for Sector {
    ghost bytes_of = { sector_record };

    ghost value_at = { sector_at };

    fn to_bytes(&self) -> [u8; 26] {
        sector_bytes(self)
    }

    fn from_bytes(bytes: &[u8; 26]) -> Sector {
        sector_of(bytes)
    }
}

// The records' bytes, one after the other.
fn encode<const N: usize, R: Record<N>>(alloc: Global, records: &[R]) -> Result<Vec<u8>, LumpError>
    requires width { 0 < N }
    requires fits { N < 2 ^ 63 }
    ensures bytes { IfOk result (λ v. v.items ≡ flat_map R.bytes_of records.now) }
    ensures inverse { IfOk result (λ v. records_of R.value_at N v.items ≡ records.now) }
    ensures memory { IsOkUnless result LumpError.OutOfMemory }
{
    let mut bytes = Vec::with_capacity(alloc, N.saturating_mul(records.len()))?;
    for record in records {
        bytes.extend_from_slice(&record.to_bytes())?;
    }
    Ok(bytes)
}

// The records that the bytes hold.
fn decode<const N: usize, R: Record<N>>(alloc: Global, bytes: &[u8]) -> Result<Vec<R>, LumpError>
    requires width { 0 < N }
    requires fits { N < 2 ^ 63 }
    ensures records { IfOk result (λ v. v.items ≡ records_of R.value_at N bytes.now) }
    ensures bytes { IfOk result (λ v. flat_map R.bytes_of v.items ≡ bytes.now) }
    ensures length { IsErrOf result LumpError.LumpLength ↔ (length bytes.now % N ≢ 0) }
{
    let (chunks, rest) = bytes.as_chunks::<N>();
    if !rest.is_empty() {
        return Err(LumpError::LumpLength);
    }
    let mut records = Vec::with_capacity(alloc, chunks.len())?;
    for chunk in chunks {
        records.push(R::from_bytes(chunk))?;
    }
    Ok(records)
}

/// The bytes of THINGS: the things' bytes, one after the other.
pub fn encode_things(alloc: Global, things: &[Thing]) -> Result<Vec<u8>, LumpError>
    ensures { EncodesList thing_record thing_at 10 things.now result }
{
    encode(alloc, things)
}

/// The things that the bytes of THINGS hold.
pub fn decode_things(alloc: Global, bytes: &[u8]) -> Result<Vec<Thing>, LumpError>
    ensures { DecodesList thing_record thing_at 10 bytes.now result }
{
    decode(alloc, bytes)
}

/// The bytes of LINEDEFS: the lines' bytes, one after the other.
pub fn encode_lines(alloc: Global, lines: &[Line]) -> Result<Vec<u8>, LumpError>
    ensures { EncodesList line_record line_at 14 lines.now result }
{
    encode(alloc, lines)
}

/// The lines that the bytes of LINEDEFS hold.
pub fn decode_lines(alloc: Global, bytes: &[u8]) -> Result<Vec<Line>, LumpError>
    ensures { DecodesList line_record line_at 14 bytes.now result }
{
    decode(alloc, bytes)
}

/// The bytes of SIDEDEFS: the sides' bytes, one after the other.
pub fn encode_sides(alloc: Global, sides: &[Side]) -> Result<Vec<u8>, LumpError>
    ensures { EncodesList side_record side_at 30 sides.now result }
{
    encode(alloc, sides)
}

/// The sides that the bytes of SIDEDEFS hold.
pub fn decode_sides(alloc: Global, bytes: &[u8]) -> Result<Vec<Side>, LumpError>
    ensures { DecodesList side_record side_at 30 bytes.now result }
{
    decode(alloc, bytes)
}

/// The bytes of VERTEXES: the vertices' bytes, one after the other.
pub fn encode_vertices(alloc: Global, vertices: &[Vertex]) -> Result<Vec<u8>, LumpError>
    ensures { EncodesList vertex_record vertex_at 4 vertices.now result }
{
    encode(alloc, vertices)
}

/// The vertices that the bytes of VERTEXES hold.
pub fn decode_vertices(alloc: Global, bytes: &[u8]) -> Result<Vec<Vertex>, LumpError>
    ensures { DecodesList vertex_record vertex_at 4 bytes.now result }
{
    decode(alloc, bytes)
}

/// The bytes of SEGS: the segs' bytes, one after the other.
pub fn encode_segs(alloc: Global, segs: &[Seg]) -> Result<Vec<u8>, LumpError>
    ensures { EncodesList seg_record seg_at 12 segs.now result }
{
    encode(alloc, segs)
}

/// The segs that the bytes of SEGS hold.
pub fn decode_segs(alloc: Global, bytes: &[u8]) -> Result<Vec<Seg>, LumpError>
    ensures { DecodesList seg_record seg_at 12 bytes.now result }
{
    decode(alloc, bytes)
}

/// The bytes of SSECTORS: the subsectors' bytes, one after the other.
pub fn encode_subs(alloc: Global, subs: &[Sub]) -> Result<Vec<u8>, LumpError>
    ensures { EncodesList sub_record sub_at 4 subs.now result }
{
    encode(alloc, subs)
}

/// The subsectors that the bytes of SSECTORS hold.
pub fn decode_subs(alloc: Global, bytes: &[u8]) -> Result<Vec<Sub>, LumpError>
    ensures { DecodesList sub_record sub_at 4 bytes.now result }
{
    decode(alloc, bytes)
}

/// The bytes of NODES: the nodes' bytes, one after the other.
pub fn encode_nodes(alloc: Global, nodes: &[Node]) -> Result<Vec<u8>, LumpError>
    ensures { EncodesList node_record node_at 28 nodes.now result }
{
    encode(alloc, nodes)
}

/// The nodes that the bytes of NODES hold.
pub fn decode_nodes(alloc: Global, bytes: &[u8]) -> Result<Vec<Node>, LumpError>
    ensures { DecodesList node_record node_at 28 bytes.now result }
{
    decode(alloc, bytes)
}

/// The bytes of SECTORS: the sectors' bytes, one after the other.
pub fn encode_sectors(alloc: Global, sectors: &[Sector]) -> Result<Vec<u8>, LumpError>
    ensures { EncodesList sector_record sector_at 26 sectors.now result }
{
    encode(alloc, sectors)
}

/// The sectors that the bytes of SECTORS hold.
pub fn decode_sectors(alloc: Global, bytes: &[u8]) -> Result<Vec<Sector>, LumpError>
    ensures { DecodesList sector_record sector_at 26 bytes.now result }
{
    decode(alloc, bytes)
}
