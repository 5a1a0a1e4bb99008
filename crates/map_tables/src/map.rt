//! A map: its name and its tables, and the calls that read them.
mod body;
mod draft;
mod edits;
mod header;
mod keyed_line;
mod keyed_side;
mod lines;
mod part;
mod places;
mod sectors;
mod sides;
mod table;
mod things;
mod vertex_table;
mod vertices;

ghost use Rattle.std.specs.Prelude.{◌≡◌, ◌<◌, ◌≤◌, MatchOption, IfOk, IfSome, OnOk, IsOkUnless, IsErrOf, slice_get};
ghost use Rattle.map_tables.specs.Tables.{empty_tables, count_of, table_limit};
ghost use Rattle.map_tables.specs.Edits.{with_name};
ghost use Rattle.map_tables.specs.Ranges.{IsNamed, is_marker, IsVertex, IsSector, IsSide, IsLine, IsThing};
ghost use Rattle.map_tables.specs.WellFormed.{WellFormed, HasEnds, HasSides, HasSector};
ghost use Rattle.map_tables.specs.Outcomes.{Covers, Spends, no_need, nothing};

use crate::edit::Need;
use crate::error::MapError;
use crate::kind::Kind;
use crate::map::keyed_line::{KeyedLine, numbered_line};
use crate::map::keyed_side::{KeyedSide, numbered_side};
use crate::map::table::Table;
use crate::map::vertex_table::VertexTable;
pub(crate) use body::decode_body;
use lump_records::{Line, Name8, Sector, Side, Thing, Vertex};
pub(crate) use part::first_map;
use std::alloc::Global;
use std::marker::Model;

/// A map: its name and its tables. An item's number is its index in its table.
pub struct Map {
    name: Name8,
    vertices: VertexTable,
    sectors: Table<Sector>,
    sides: Table<KeyedSide>,
    lines: Table<KeyedLine>,
    things: Table<Thing>,
}

// A `drop` of its own, so that a function that owns a map frees its tables by one call.
impl Drop for Map {
    fn drop(self) {
        let Map {
            name: _,
            vertices: _vertices,
            sectors: _sectors,
            sides: _sides,
            lines: _lines,
            things: _things,
        } = self;
    }
}

impl Model for Map {
    ghost use Rattle.map_tables.specs.Tables.{MapView};

    ghost Value = { MapView };

    ghost use Rattle.map_tables.specs.MapFields.{view_of_map, KeepsTables};

    ghost view = { view_of_map };

    ghost invariant = { KeepsTables };
}

impl Map {
    ghost use Rattle.map_tables.specs.WellFormed.{nth_vertex};

    /// The empty map with the name MAP01. It allocates no memory.
    pub fn new(alloc: Global) -> Self
        ensures tables { result.tables ≡ empty_tables }
        ensures spare { result.spare ≡ nothing }
    {
        Map {
            name: Name8 {
                bytes: *b"MAP01\0\0\0",
            },
            vertices: VertexTable::new(alloc),
            sectors: Table::new(alloc),
            sides: Table::new(alloc),
            lines: Table::new(alloc),
            things: Table::new(alloc),
        }
    }

    /// A copy of the map: its name and its items, under the same keys.
    pub fn copy(&self, alloc: Global) -> Result<Map, MapError>
        ensures tables { IfOk result (λ copy. copy.tables ≡ self.now.tables) }
        ensures memory { IsOkUnless result MapError.OutOfMemory }
    {
        Ok(Map {
            name: self.name,
            vertices: self.vertices.copy(alloc)?,
            sectors: self.sectors.copy()?,
            sides: self.sides.copy()?,
            lines: self.lines.copy()?,
            things: self.things.copy()?,
        })
    }

    /// The map's name: that of the marker lump of its level.
    pub fn name(&self) -> Name8
        ensures { result ≡ self.now.tables.name }
    {
        self.name
    }

    /// Gives the map another name. It can't fail.
    pub fn set_name(&mut self, name: Name8)
        requires { IsNamed is_marker name }
        ensures edit { self.new.tables ≡ with_name self.old.tables name }
        ensures spare { self.new.spare ≡ self.old.spare }
        ensures well_formed { WellFormed self.new.tables }
    {
        self.name = name;
    }

    /// How many items the map has of the kind.
    pub fn count(&self, kind: Kind) -> u32
        ensures number { result ≡ count_of self.now.tables kind }
        ensures limit { result ≤ table_limit kind }
        // what every map keeps, for callers that read its items by number
        ensures well_formed { WellFormed self.now.tables }
    {
        let count = match kind {
            Kind::Vertex => self.vertices.len(),
            Kind::Sector => self.sectors.len(),
            Kind::Side => self.sides.len(),
            Kind::Line => self.lines.len(),
            Kind::Thing => self.things.len(),
        };
        count as u32
    }

    /// The vertex with the number.
    pub fn vertex(&self, n: u32) -> Option<Vertex>
        ensures item { result ≡ slice_get self.now.tables.vertices n }
        ensures range { IfSome result IsVertex }
    {
        self.vertices.get(n as usize)
    }

    /// The sector with the number.
    pub fn sector(&self, n: u32) -> Option<Sector>
        ensures item { result ≡ slice_get self.now.tables.sectors n }
        ensures range { IfSome result IsSector }
    {
        self.sectors.get(n as usize)
    }

    /// The side with the number. Its sector is one of the map's.
    pub fn side(&self, n: u32) -> Option<Side>
        ensures item { result ≡ slice_get self.now.tables.sides n }
        ensures range { IfSome result IsSide }
        ensures sector { IfSome result (HasSector self.now.tables.sectors) }
    {
        let side = self.sides.get(n as usize)?;
        Some(numbered_side(&self.sectors, &side))
    }

    /// The line with the number. Its vertices and sides are among the map's.
    pub fn line(&self, n: u32) -> Option<Line>
        ensures item { result ≡ slice_get self.now.tables.lines n }
        ensures range { IfSome result IsLine }
        ensures ends { IfSome result (HasEnds self.now.tables.vertices) }
        ensures sides { IfSome result (HasSides self.now.tables.sides) }
    {
        let line = self.lines.get(n as usize)?;
        Some(numbered_line(&self.vertices, &self.sides, &line))
    }

    /// The places of a line's ends; the origin for a vertex that the map doesn't have.
    pub fn ends_of(&self, line: &Line) -> (Vertex, Vertex)
        ensures from { result.0 ≡ nth_vertex self.now.tables.vertices line.now.v1 }
        ensures to { result.1 ≡ nth_vertex self.now.tables.vertices line.now.v2 }
    {
        (self.vertices.nth(line.v1), self.vertices.nth(line.v2))
    }

    /// The thing with the number.
    pub fn thing(&self, n: u32) -> Option<Thing>
        ensures item { result ≡ slice_get self.now.tables.things n }
        ensures range { IfSome result IsThing }
    {
        self.things.get(n as usize)
    }

    /// The key of the item with the number; `None` past the last item. The item keeps its key until it is removed,
    /// whatever other items are added or removed meanwhile.
    pub fn key(&self, kind: Kind, n: u32) -> Option<usize>
        ensures { MatchOption result (count_of self.now.tables kind ≤ n)
            (λ _. n < count_of self.now.tables kind) }
    {
        match kind {
            Kind::Vertex => self.vertices.key(n as usize),
            Kind::Sector => self.sectors.key(n as usize),
            Kind::Side => self.sides.key(n as usize),
            Kind::Line => self.lines.key(n as usize),
            Kind::Thing => self.things.key(n as usize),
        }
    }

    /// Makes room: after `Ok`, the needed number of additions of each kind allocate no memory.
    pub fn reserve(&mut self, need: Need) -> Result<(), MapError>
        ensures tables { self.new.tables ≡ self.old.tables }
        ensures spare { Spends no_need self.old.spare self.new.spare }
        ensures ok { OnOk result (Covers self.new.spare need) }
        ensures promised { Covers self.old.spare need → IsErrOf result MapError.OutOfMemory → ⊥ }
        ensures memory { IsOkUnless result MapError.OutOfMemory }
    {
        self.vertices.reserve(need.vertices as usize)?;
        self.sectors.reserve(need.sectors as usize)?;
        self.sides.reserve(need.sides as usize)?;
        self.lines.reserve(need.lines as usize)?;
        self.things.reserve(need.things as usize)?;
        Ok(())
    }
}
