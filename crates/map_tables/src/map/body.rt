//! A map's body of version 1, and its lumps.
ghost use Rattle.std.specs.Prelude.{◌≡◌, ◌++◌, ◌↔◌, IfOk, IfErr, IsOkUnless, IsTrue, drop};
ghost use Rattle.lump_records.specs.Fields.{unsigned};
ghost use Rattle.map_tables.specs.Body.{lump_of, IsMapOf, RefusesBody};

use crate::error::{MapError, lacks_memory};
use crate::kind::Kind;
use crate::map::Map;
use crate::map::keyed_line::numbered_lines;
use crate::map::keyed_side::numbered_sides;
use crate::map::part::first_map;
use lump_records::{encode_lines, encode_sectors, encode_sides, encode_things, encode_vertices};
use std::alloc::Global;

// Whether the bytes begin with version 1.
fn has_version_1(bytes: &[u8]) -> bool
    ensures { IsTrue result ↔ (bytes.now ≡ unsigned 1 ++ drop 2 bytes.now) }
{
    bytes.len() >= 2 && bytes[0] == 1 && bytes[1] == 0
}

// The map that has these bytes as its body of version 1. `Damaged` with place 0 if no well-formed map has them.
pub(crate) fn decode_body(alloc: Global, bytes: &[u8]) -> Result<Map, MapError>
    ensures map { IfOk result (λ m. IsMapOf bytes.now m.tables) }
    ensures refused { IfErr result (RefusesBody bytes.now) }
{
    if !has_version_1(bytes) {
        return Err(MapError::Damaged(0));
    }
    let map = first_map(alloc, &bytes[2..])?;
    if bytes.len() != 2 + map.part_len() as usize {
        return Err(MapError::Damaged(0));
    }
    Ok(map)
}

impl Map {
    /// The records of the kind's table, as the level's lump has them.
    pub fn lump(&self, alloc: Global, kind: Kind) -> Result<Vec<u8>, MapError>
        ensures bytes { IfOk result (λ v. v.items ≡ lump_of self.now.tables kind) }
        ensures memory { IsOkUnless result MapError.OutOfMemory }
    {
        let bytes = match kind {
            Kind::Vertex => encode_vertices(alloc, &self.vertices.to_vec(alloc)?),
            Kind::Sector => encode_sectors(alloc, &self.sectors.to_vec(alloc)?),
            Kind::Side => encode_sides(alloc, &numbered_sides(alloc, &self.sectors, &self.sides)?),
            Kind::Line => encode_lines(
                alloc,
                &numbered_lines(alloc, &self.vertices, &self.sides, &self.lines)?,
            ),
            Kind::Thing => encode_things(alloc, &self.things.to_vec(alloc)?),
        };
        bytes.map_err(lacks_memory)
    }
}
