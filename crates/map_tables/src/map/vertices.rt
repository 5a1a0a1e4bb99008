//! The edits of a map's vertices.
ghost use Rattle.std.specs.Prelude.{◌≡◌, [], ◌∷◌, ◌<◌, ◌≤◌, ◌==◌, ◌&&◌, ◌||◌, ℕ, length, slice_set, IsErrOf};
ghost use Rattle.std.specs.List.{list_any};
ghost use Rattle.map_tables.specs.Errors.{code_of};
ghost use Rattle.map_tables.specs.Ranges.{IsVertex};
ghost use Rattle.map_tables.specs.WellFormed.{nth_vertex};
ghost use Rattle.map_tables.specs.Outcomes.{EndsEdit, EndsExactly, Tells, Spends, places, no_need, one_of};
ghost use Rattle.map_tables.specs.Faults.{lacks, is_taken, is_taken_beside, is_too_long, uses_vertex, vertex_faults, set_vertex_faults, drop_vertex_faults};
ghost use Rattle.map_tables.specs.Keys.{rank_of};
ghost use Rattle.map_tables.specs.Keyed.{stretches};
ghost use Rattle.map_tables.specs.Edits.{added, changed, dropped};

use crate::edit::Item;
use crate::error::MapError;
use crate::kind::Kind;
use crate::lengths::is_too_far;
use crate::map::Map;
use crate::map::keyed_line::KeyedLine;
use crate::map::table::Table;
use crate::map::vertex_table::VertexTable;
use lump_records::{ITEM_LIMIT, Vertex};

// The vertex with the number after vertex `moved` has moved to another place.
fn vertex_after_move(vertices: &VertexTable, moved: u32, to: Vertex, n: u16) -> Vertex
    requires { moved < length vertices.now.items }
    ensures { result ≡ nth_vertex (slice_set vertices.now.items moved to) n }
{
    if u32::from(n) == moved {
        to
    } else {
        vertices.nth(n)
    }
}

// Whether the line begins or ends at the vertex with the key.
fn has_end(line: &KeyedLine, key: usize) -> bool
    ensures { result ≡ ((line.now.v1 == key) || (line.now.v2 == key)) }
{
    line.v1 == key || line.v2 == key
}

// Whether the line has the vertex as an end, and would be too long with it at another place.
fn is_stretched(
    vertices: &VertexTable,
    moved: u32,
    key: usize,
    to: Vertex,
    line: &KeyedLine,
) -> bool
    requires there { moved < length vertices.now.items }
    requires few { length vertices.now.items ≤ 32767 }
    requires key { (k : ℕ) → (rank_of vertices.now.keys k == moved) ≡ (k == key) }
    ensures { result ≡
        stretches vertices.now.keys (slice_set vertices.now.items moved to) moved line.now }
{
    if !has_end(line, key) {
        return false;
    }
    let start = vertex_after_move(vertices, moved, to, vertices.rank(line.v1) as u16);
    let end = vertex_after_move(vertices, moved, to, vertices.rank(line.v2) as u16);
    is_too_far(start, end)
}

// Whether a line begins or ends at the vertex with the key.
fn has_line_with_end(lines: &Table<KeyedLine>, key: usize) -> bool
    ensures { result ≡ list_any (λ l. (l.v1 == key) || (l.v2 == key)) lines.now.items }
{
    for n in 0..lines.len() {
        if has_end(&lines.at(n), key) {
            return true;
        }
    }
    false
}

// Whether a line would be too long with the vertex at another place.
fn has_line_stretched(
    lines: &Table<KeyedLine>,
    vertices: &VertexTable,
    moved: u32,
    to: Vertex,
) -> bool
    requires there { moved < length vertices.now.items }
    requires few { length vertices.now.items ≤ 32767 }
    ensures { result ≡
        list_any (stretches vertices.now.keys (slice_set vertices.now.items moved to) moved)
        lines.now.items }
{
    let key = vertices.key_at(moved as usize);
    for n in 0..lines.len() {
        if is_stretched(vertices, moved, key, to, &lines.at(n)) {
            return true;
        }
    }
    false
}

impl Map {
    /// Whether a vertex is at the place.
    pub fn has_place(&self, vertex: Vertex) -> bool
        ensures { result ≡ is_taken self.now.tables.vertices vertex }
    {
        self.vertices.has(vertex)
    }

    // Whether a vertex can be added, memory aside: `PlaceTaken`, `TableFull`.
    pub(crate) fn can_add_vertex(&self, vertex: Vertex) -> Result<(), MapError>
        ensures { Tells result (vertex_faults self.now.tables vertex) }
    {
        if self.has_place(vertex) {
            return Err(MapError::PlaceTaken);
        }
        if self.vertices.len() >= ITEM_LIMIT {
            return Err(MapError::TableFull);
        }
        Ok(())
    }

    /// Adds a vertex, and returns its number.
    #[inline(always)]
    pub fn add_vertex(&mut self, vertex: Vertex) -> Result<u32, MapError>
        requires { IsVertex vertex }
        ensures edit { EndsEdit result
            (added self.old.tables (Item.Vertex vertex)) self.old.tables self.new.tables }
        ensures promised { 0 < self.old.spare.vertices → IsErrOf result MapError.OutOfMemory → ⊥ }
        ensures spare { Spends (one_of Kind.Vertex) self.old.spare self.new.spare }
        ensures places { 0 < self.old.spare.vertices
            → places self.new.tables self.new.spare ≡ places self.old.tables self.old.spare }
    {
        self.can_add_vertex(vertex)?;
        let number = self.vertices.len() as u32;
        self.vertices.push(vertex)?;
        Ok(number)
    }

    // Whether the map has the vertex: `NoVertex`.
    fn check_has_vertex(&self, n: u32) -> Result<(), MapError>
        ensures { Tells result
            ((code_of MapError.NoVertex, lacks self.now.tables.vertices n) ∷ []) }
    {
        if n as usize >= self.vertices.len() {
            return Err(MapError::NoVertex);
        }
        Ok(())
    }

    // Whether a line begins or ends at the vertex.
    fn has_line_at(&self, n: u32) -> bool
        requires { n < length self.now.tables.vertices }
        ensures { result ≡ list_any (uses_vertex n) self.now.tables.lines }
    {
        has_line_with_end(&self.lines, self.vertices.key_at(n as usize))
    }

    // Whether a line that ends at the vertex would be too long with it at another place.
    fn stretches_line(&self, n: u32, to: Vertex) -> bool
        requires { n < length self.now.tables.vertices }
        ensures { result ≡
            list_any (λ l. uses_vertex n l && is_too_long
            (slice_set self.now.tables.vertices n to) l)
            self.now.tables.lines }
    {
        has_line_stretched(&self.lines, &self.vertices, n, to)
    }

    // Whether a vertex can be moved to the place: `NoVertex`, `PlaceTaken`, `LineTooLong`.
    pub(crate) fn can_set_vertex(&self, n: u32, vertex: Vertex) -> Result<(), MapError>
        ensures { Tells result (set_vertex_faults self.now.tables n vertex) }
    {
        self.check_has_vertex(n)?;
        if self.vertices.has_beside(n as usize, vertex) {
            return Err(MapError::PlaceTaken);
        }
        if self.stretches_line(n, vertex) {
            return Err(MapError::LineTooLong);
        }
        Ok(())
    }

    /// Moves a vertex, and with it the ends of its lines.
    pub fn set_vertex(&mut self, n: u32, vertex: Vertex) -> Result<(), MapError>
        requires { IsVertex vertex }
        ensures edit { EndsExactly result (changed self.old.tables n (Item.Vertex vertex))
            self.old.tables self.new.tables }
        ensures spare { Spends no_need self.old.spare self.new.spare }
        ensures places { places self.new.tables self.new.spare
            ≡ places self.old.tables self.old.spare }
    {
        self.can_set_vertex(n, vertex)?;
        self.vertices.set(n as usize, vertex);
        Ok(())
    }

    // Whether a vertex can be removed: `NoVertex`, `InUse`.
    pub(crate) fn can_drop_vertex(&self, n: u32) -> Result<(), MapError>
        ensures { Tells result (drop_vertex_faults self.now.tables n) }
    {
        self.check_has_vertex(n)?;
        if self.has_line_at(n) {
            return Err(MapError::InUse);
        }
        Ok(())
    }

    /// Removes a vertex, and lowers each greater number by one, in the lines too.
    pub fn drop_vertex(&mut self, n: u32) -> Result<(), MapError>
        ensures edit { EndsExactly result
            (dropped self.old.tables Kind.Vertex n) self.old.tables self.new.tables }
        ensures spare { Spends no_need self.old.spare self.new.spare }
        ensures places { places self.new.tables self.new.spare
            ≡ places self.old.tables self.old.spare }
    {
        self.can_drop_vertex(n)?;
        self.vertices.remove(n as usize);
        Ok(())
    }
}
