//! The name and the tables that bytes hold, before it is known whether they are a map's.
ghost use Rattle.std.specs.Prelude.{◌≡◌, ◌≤◌, ◌↔◌, IfOk, IsOkUnless, IsTrue, All, length};
ghost use Rattle.lump_records.specs.Limits.{item_limit, sector_limit};
ghost use Rattle.map_tables.specs.Ranges.{IsNamed, is_marker, IsVertex, IsSector, IsSide, IsLine, IsThing};
ghost use Rattle.map_tables.specs.WellFormed.{WellFormed, HasEnds, HasSides, HasSector};
ghost use Rattle.map_tables.specs.Parts.{IsFramed, tables_in};

use crate::error::{MapError, lacks_memory};
use crate::form::{are_apart, are_linked, have_sectors};
use crate::map::Map;
use crate::map::header::{count_at, name_at};
use crate::map::keyed_line::keyed_lines;
use crate::map::keyed_side::keyed_sides;
use crate::map::table::Table;
use crate::map::vertex_table::VertexTable;
use crate::ranges::{are_areas, are_places, is_named_with};
use lump_records::{
    ITEM_LIMIT, Line, Name8, SECTOR_LIMIT, Sector, Side, Thing, Vertex, decode_lines,
    decode_sectors, decode_sides, decode_things, decode_vertices,
};
use std::alloc::Global;
use std::marker::Model;

// The name and the tables that bytes hold, well-formed or not.
pub(super) struct Draft {
    name: Name8,
    vertices: Vec<Vertex>,
    sectors: Vec<Sector>,
    sides: Vec<Side>,
    lines: Vec<Line>,
    things: Vec<Thing>,
}

// A `drop` of its own, so that a function that owns a draft frees its lists by one call.
impl Drop for Draft {
    fn drop(self) {
        let Draft {
            name: _,
            vertices: _vertices,
            sectors: _sectors,
            sides: _sides,
            lines: _lines,
            things: _things,
        } = self;
    }
}

impl Model for Draft {
    ghost use Rattle.map_tables.specs.Tables.{Tables};

    ghost Value = { Tables };

    ghost use Rattle.map_tables.specs.DraftFields.{drafted};

    ghost view = { drafted };
}

impl Draft {
    // Reads the draft that framed bytes begin with.
    pub(super) fn read(alloc: Global, bytes: &[u8]) -> Result<Draft, MapError>
        requires { IsFramed bytes.now }
        ensures tables { IfOk result (λ d. d ≡ tables_in bytes.now) }
        ensures memory { IsOkUnless result MapError.OutOfMemory }
    {
        let (_, behind) = bytes.split_at(18);
        let (things, behind) = behind.split_at(10 * count_at(bytes, 8));
        let (lines, behind) = behind.split_at(14 * count_at(bytes, 10));
        let (sides, behind) = behind.split_at(30 * count_at(bytes, 12));
        let (vertices, behind) = behind.split_at(4 * count_at(bytes, 14));
        let (sectors, _) = behind.split_at(26 * count_at(bytes, 16));
        // Each part is a whole number of records, so only memory can run out.
        Ok(Draft {
            name: name_at(bytes, 0),
            vertices: decode_vertices(alloc, vertices).map_err(lacks_memory)?,
            sectors: decode_sectors(alloc, sectors).map_err(lacks_memory)?,
            sides: decode_sides(alloc, sides).map_err(lacks_memory)?,
            lines: decode_lines(alloc, lines).map_err(lacks_memory)?,
            things: decode_things(alloc, things).map_err(lacks_memory)?,
        })
    }

    // Whether each table is within its limit.
    fn is_within_limits(&self) -> bool
        ensures { IsTrue result ↔ ((length self.now.vertices ≤ item_limit)
            × (length self.now.sectors ≤ sector_limit) × (length self.now.sides ≤ item_limit)
            × (length self.now.lines ≤ item_limit) × (length self.now.things ≤ item_limit)) }
    {
        self.vertices.len() <= ITEM_LIMIT
            && self.sectors.len() <= SECTOR_LIMIT
            && self.sides.len() <= ITEM_LIMIT
            && self.lines.len() <= ITEM_LIMIT
            && self.things.len() <= ITEM_LIMIT
    }

    // Whether the name and each item are in range.
    fn is_in_range(&self) -> bool
        ensures places { IsTrue result
            → (All IsVertex self.now.vertices × All IsThing self.now.things) }
        ensures areas { IsTrue result
            → (All IsSector self.now.sectors × All IsSide self.now.sides) }
        ensures lines { IsTrue result
            → (IsNamed is_marker self.now.name × All IsLine self.now.lines) }
        ensures all { WellFormed self.now → IsTrue result }
    {
        if !are_places(&self.vertices, &self.things) {
            return false;
        }
        are_areas(&self.sectors, &self.sides) && is_named_with(&self.name, &self.lines)
    }

    // Whether each number names an item, and each line's ends and sides are as a map requires.
    fn is_linked(&self) -> bool
        ensures lines { IsTrue result → (All (HasEnds self.now.vertices) self.now.lines
            × All (HasSides self.now.sides) self.now.lines) }
        ensures sides { IsTrue result → All (HasSector self.now.sectors) self.now.sides }
        ensures all { WellFormed self.now → IsTrue result }
    {
        are_linked(&self.vertices, &self.sides, &self.lines)
            && have_sectors(&self.sectors, &self.sides)
    }

    // Whether the tables are those of a well-formed map.
    pub(super) fn is_well_formed(&self, alloc: Global) -> Result<bool, MapError>
        ensures answer { IfOk result (λ fine. IsTrue fine ↔ WellFormed self.now) }
        ensures memory { IsOkUnless result MapError.OutOfMemory }
    {
        if !self.is_within_limits() || !self.is_in_range() || !self.is_linked() {
            return Ok(false);
        }
        are_apart(alloc, &self.vertices)
    }

    // Makes the map with these tables, which are well-formed.
    pub(super) fn to_map(&self, alloc: Global) -> Result<Map, MapError>
        requires { WellFormed self.now }
        ensures tables { IfOk result (λ m. m.tables ≡ self.now) }
        ensures memory { IsOkUnless result MapError.OutOfMemory }
    {
        let vertices = VertexTable::of(alloc, &self.vertices)?;
        let sectors = Table::of(alloc, &self.sectors)?;
        let sides = keyed_sides(alloc, &sectors, &self.sides)?;
        let lines = keyed_lines(alloc, &vertices, &sides, &self.lines)?;
        let things = Table::of(alloc, &self.things)?;
        Ok(Map {
            name: self.name,
            vertices,
            sectors,
            sides,
            lines,
            things,
        })
    }
}
