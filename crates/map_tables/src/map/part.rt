//! Reads a map's part of a project's body, and appends it.
ghost use Rattle.std.specs.Prelude.{◌≡◌, IfOk, IfErr, IsOkUnless, ◌^◌, ◌<◌, ◌≤◌, ◌++◌, OnOk};
ghost use Rattle.lump_records.specs.Fields.{unsigned};
ghost use Rattle.map_tables.specs.Tables.{part_len};
ghost use Rattle.map_tables.specs.WellFormed.{WellFormed};
ghost use Rattle.map_tables.specs.Parts.{part, part_head, BeginsWith, RefusesPart};
ghost use Rattle.map_tables.specs.Body.{lump_of};

use crate::error::MapError;
use crate::kind::Kind;
use crate::map::Map;
use crate::map::draft::Draft;
use crate::map::header::is_framed;
use std::alloc::Global;

/// The map whose part of a body the bytes begin with. `Damaged` with place 0 if they begin with no well-formed
/// map's part.
pub fn first_map(alloc: Global, bytes: &[u8]) -> Result<Map, MapError>
    ensures map { IfOk result (λ m. BeginsWith bytes.now m.tables) }
    ensures refused { IfErr result (RefusesPart bytes.now) }
{
    if !is_framed(bytes) {
        return Err(MapError::Damaged(0));
    }
    let draft = Draft::read(alloc, bytes)?;
    if !draft.is_well_formed(alloc)? {
        return Err(MapError::Damaged(0));
    }
    let map = draft.to_map(alloc)?;
    Ok(map)
}

// Appends a count of items.
fn put_count(bytes: &mut Vec<u8>, count: u32) -> Result<(), MapError>
    requires { count < 2 ^ 16 }
    ensures bytes { OnOk result (bytes.new.items ≡ bytes.old.items ++ unsigned count) }
    ensures memory { IsOkUnless result MapError.OutOfMemory }
{
    bytes.extend_from_slice(&(count as u16).to_le_bytes())?;
    Ok(())
}

impl Map {
    // The length of the map's part of a body, in bytes.
    pub(crate) fn part_len(&self) -> u32
        ensures value { result ≡ part_len self.now.tables }
        ensures bound { result ≤ 2007000 }
    {
        18 + 10 * self.count(Kind::Thing)
            + 14 * self.count(Kind::Line)
            + 30 * self.count(Kind::Side)
            + 4 * self.count(Kind::Vertex)
            + 26 * self.count(Kind::Sector)
    }

    // Appends the name, and the counts of things, lines, sides, vertices and sectors.
    fn put_head(&self, bytes: &mut Vec<u8>) -> Result<(), MapError>
        ensures bytes { OnOk result
            (bytes.new.items ≡ bytes.old.items ++ part_head self.now.tables) }
        ensures well_formed { OnOk result (WellFormed self.now.tables) }
        ensures memory { IsOkUnless result MapError.OutOfMemory }
    {
        bytes.extend_from_slice(&self.name().bytes)?;
        put_count(bytes, self.count(Kind::Thing))?;
        put_count(bytes, self.count(Kind::Line))?;
        put_count(bytes, self.count(Kind::Side))?;
        put_count(bytes, self.count(Kind::Vertex))?;
        put_count(bytes, self.count(Kind::Sector))
    }

    // Appends the records of the kind's table.
    fn put_lump(&self, alloc: Global, kind: Kind, bytes: &mut Vec<u8>) -> Result<(), MapError>
        ensures bytes { OnOk result
            (bytes.new.items ≡ bytes.old.items ++ lump_of self.now.tables kind) }
        ensures memory { IsOkUnless result MapError.OutOfMemory }
    {
        bytes.extend_from_slice(&self.lump(alloc, kind)?)?;
        Ok(())
    }

    // Appends the map's part of a body: its head, and the records of its things, lines, sides, vertices
    // and sectors.
    pub(crate) fn put_part(&self, alloc: Global, bytes: &mut Vec<u8>) -> Result<(), MapError>
        ensures bytes { OnOk result (bytes.new.items ≡ bytes.old.items ++ part self.now.tables) }
        ensures well_formed { OnOk result (WellFormed self.now.tables) }
        ensures memory { IsOkUnless result MapError.OutOfMemory }
    {
        self.put_head(bytes)?;
        self.put_lump(alloc, Kind::Thing, bytes)?;
        self.put_lump(alloc, Kind::Line, bytes)?;
        self.put_lump(alloc, Kind::Side, bytes)?;
        self.put_lump(alloc, Kind::Vertex, bytes)?;
        self.put_lump(alloc, Kind::Sector, bytes)?;
        Ok(())
    }
}
