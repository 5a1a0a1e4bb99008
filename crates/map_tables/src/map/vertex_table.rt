//! The table of vertices, with the set of the taken places.
ghost use Rattle.std.specs.Prelude.{◌≡◌, ◌≢◌, ◌+◌, ◌<◌, ◌≤◌, ◌^◌, ◌++◌, ◌∷◌, ◌==◌, [], ℕ, false, length, is_ok, if◌then◌else◌, slice_get, slice_set, remove, AllPairs, IfOk, IsOk, IsOkUnless, MatchOption, OnOk};
ghost use Rattle.map_tables.specs.Faults.{is_taken, is_taken_beside};
ghost use Rattle.map_tables.specs.WellFormed.{nth_vertex};
ghost use Rattle.map_tables.specs.Keys.{rank_of, KeepRanks, LowerRanks};

use crate::error::MapError;
use crate::map::places::Places;
use crate::map::table::Table;
use lump_records::Vertex;
use std::alloc::Global;
use std::marker::Model;

// The vertices of a map, no two of them at the same place, and the set of the taken places.
pub(super) struct VertexTable {
    items: Table<Vertex>,
    places: Places,
}

// A `drop` of its own, so that a function that owns the vertices frees them and their places by one call.
impl Drop for VertexTable {
    fn drop(self) {
        let VertexTable {
            items: _items,
            places: _places,
        } = self;
    }
}

impl Model for VertexTable {
    ghost use Rattle.lump_records.specs.declared.records.Vertex.{Vertex};
    ghost use Rattle.map_tables.specs.Keys.{TableView};

    ghost Value = { TableView Vertex };

    ghost use Rattle.map_tables.specs.VertexTableFields.{vertices_of, KeepsPlaces};

    ghost view = { vertices_of };

    ghost invariant = { KeepsPlaces };
}

impl VertexTable {
    // An empty table. It allocates no memory.
    pub(super) fn new(alloc: Global) -> VertexTable
        ensures items { result.items ≡ [] }
        ensures spare { result.spare ≡ 0 }
    {
        VertexTable {
            items: Table::new(alloc),
            places: Places::new(alloc),
        }
    }

    // Makes the table of a list of vertices.
    pub(super) fn of(alloc: Global, list: &[Vertex]) -> Result<VertexTable, MapError>
        requires apart { AllPairs (λ v w. v ≢ w) list.now }
        requires few { length list.now ≤ 32767 }
        ensures items { IfOk result (λ table. table.items ≡ list.now) }
        ensures memory { IsOkUnless result MapError.OutOfMemory }
    {
        let items = Table::of(alloc, list)?;
        let mut places = Places::new(alloc);
        places.reserve(items.len())?;
        places.refill(&items);
        Ok(VertexTable { items, places })
    }

    // A copy of the table, with the same keys.
    pub(super) fn copy(&self, alloc: Global) -> Result<VertexTable, MapError>
        requires few { length self.now.items ≤ 32767 }
        ensures items { IfOk result (λ copy. copy.items ≡ self.now.items) }
        ensures keys { IfOk result (λ copy. copy.keys ≡ self.now.keys) }
        ensures memory { IsOkUnless result MapError.OutOfMemory }
    {
        let items = self.items.copy()?;
        let mut places = Places::new(alloc);
        places.reserve(items.len())?;
        places.refill(&items);
        Ok(VertexTable { items, places })
    }

    // The list of the vertices.
    pub(super) fn to_vec(&self, alloc: Global) -> Result<Vec<Vertex>, MapError>
        ensures items { IfOk result (λ list. list.items ≡ self.now.items) }
        ensures memory { IsOkUnless result MapError.OutOfMemory }
    {
        self.items.to_vec(alloc)
    }

    // The vertex with the number.
    pub(super) fn get(&self, n: usize) -> Option<Vertex>
        ensures { result ≡ slice_get self.now.items n }
    {
        self.items.get(n)
    }

    // The vertex with the number, or the origin if there is none.
    pub(super) fn nth(&self, n: u16) -> Vertex
        ensures { result ≡ nth_vertex self.now.items n }
    {
        self.get(usize::from(n)).unwrap_or(Vertex { x: 0, y: 0 })
    }

    // How many vertices there are.
    pub(super) fn len(&self) -> usize
        ensures { result ≡ length self.now.items }
    {
        self.items.len()
    }

    // The key of the vertex.
    pub(super) fn key(&self, n: usize) -> Option<usize>
        ensures { MatchOption result (length self.now.items ≤ n) (λ _. n < length self.now.items) }
    {
        self.items.key(n)
    }

    // The key of the n-th vertex, which exists.
    pub(super) fn key_at(&self, n: usize) -> usize
        requires { n < length self.now.items }
        ensures rank { rank_of self.now.keys result ≡ n }
        ensures only { (key : ℕ) → (rank_of self.now.keys key == n) ≡ (key == result) }
    {
        self.items.key_at(n)
    }

    // The number of the vertex with the key, or the count of vertices if none has it.
    pub(super) fn rank(&self, key: usize) -> usize
        ensures value { result ≡ rank_of self.now.keys key }
        ensures bound { result ≤ length self.now.items }
    {
        self.items.rank(key)
    }

    // Whether a vertex is at the place.
    pub(super) fn has(&self, place: Vertex) -> bool
        ensures { result ≡ is_taken self.now.items place }
    {
        self.places.has(place)
    }

    // Whether a vertex other than number `n` is at the place.
    pub(super) fn has_beside(&self, n: usize, place: Vertex) -> bool
        requires { n < length self.now.items }
        ensures { result ≡ is_taken_beside self.now.items n place }
    {
        self.items.at(n) != place && self.places.has(place)
    }

    // Makes room for `more` further vertices.
    pub(super) fn reserve(&mut self, more: usize) -> Result<(), MapError>
        requires few { length self.old.items ≤ 32767 }
        requires more { more < 2 ^ 32 }
        ensures items { self.new.items ≡ self.old.items }
        ensures keys { self.new.keys ≡ self.old.keys }
        ensures spare { self.old.spare ≤ self.new.spare }
        ensures ok { OnOk result (more ≤ self.new.spare) }
        ensures promised { more ≤ self.old.spare → IsOk result }
        ensures stays { more ≤ self.old.spare → self.new.spare ≡ self.old.spare }
        ensures memory { IsOkUnless result MapError.OutOfMemory }
    {
        self.items.reserve(more)?;
        self.places.reserve(self.items.len() + more)?;
        Ok(())
    }

    // Appends a vertex at a free place. It allocates no memory if there is a spare place in the table.
    pub(super) fn push(&mut self, vertex: Vertex) -> Result<(), MapError>
        requires few { length self.old.items ≤ 32767 }
        requires free { is_taken self.old.items vertex ≡ false }
        ensures items { self.new.items
            ≡ (if is_ok result then self.old.items ++ vertex ∷ [] else self.old.items) }
        ensures ranks { KeepRanks self.old self.new }
        ensures spare { self.old.spare ≤ self.new.spare + (if is_ok result then 1 else 0) }
        ensures succeeds { 0 < self.old.spare → IsOk result }
        ensures stays { 0 < self.old.spare → self.new.spare + 1 ≡ self.old.spare }
        ensures memory { IsOkUnless result MapError.OutOfMemory }
    {
        self.reserve(1)?;
        self.items.push(vertex)?;
        self.places.insert(vertex);
        Ok(())
    }

    // Moves a vertex to a place where no other vertex is.
    pub(super) fn set(&mut self, n: usize, place: Vertex)
        requires there { n < length self.old.items }
        requires free { is_taken_beside self.old.items n place ≡ false }
        ensures items { self.new.items ≡ slice_set self.old.items n place }
        ensures keys { self.new.keys ≡ self.old.keys }
        ensures spare { self.new.spare ≡ self.old.spare }
    {
        let from = self.items.at(n);
        self.items.set(n, place);
        self.places.replace(from, place, &self.items);
    }

    // Removes a vertex.
    pub(super) fn remove(&mut self, n: usize)
        requires there { n < length self.old.items }
        requires few { length self.old.items ≤ 32767 }
        ensures items { self.new.items ≡ remove self.old.items n }
        ensures ranks { LowerRanks n self.old self.new }
        ensures spare { self.new.spare ≡ self.old.spare + 1 }
    {
        let gone = self.items.at(n);
        self.items.remove(n);
        self.places.remove(gone, &self.items);
    }
}
