//! The set of taken places. Only `reserve` changes its memory.
ghost use Rattle.std.specs.Prelude.{◌≡◌, ◌≢◌, ◌+◌, ◌<◌, ◌≤◌, ◌&&◌, ◌||◌, ◌^◌, List, not, [], true, false, length, AllPairs, IsOk, IsOkUnless, OnOk};
ghost use Rattle.lump_records.specs.declared.records.Vertex.{Vertex};
ghost use Rattle.map_tables.specs.Faults.{is_place, is_taken};
ghost use Rattle.map_tables.specs.Places.{AreMarked};

use crate::error::MapError;
use crate::map::table::Table;
use lump_records::Vertex;
use std::alloc::Global;
use std::collections::HashSet;
use std::marker::Model;

// The set of the taken places, with room for a number of places that only `reserve` changes.
#[derive(Drop)]
pub(super) struct Places {
    taken: HashSet<Vertex>,
    // The set has room for a quarter more than this. It may lose room when places are removed; it is rebuilt once
    // that quarter is lost.
    room: usize,
}

impl Model for Places {
    ghost use Rattle.map_tables.specs.Places.{PlacesView};

    ghost Value = { PlacesView };

    ghost use Rattle.map_tables.specs.PlacesFields.{places_of, KeepsRoom};

    ghost view = { places_of };

    ghost invariant = { KeepsRoom };
}

impl Places {
    // The empty set. It allocates no memory.
    pub(super) fn new(alloc: Global) -> Places
        ensures marked { result.marked ≡ [] }
        ensures room { result.room ≡ 0 }
    {
        Places {
            taken: HashSet::new(alloc),
            room: 0,
        }
    }

    // Whether the place is taken.
    pub(super) fn has(&self, place: Vertex) -> bool
        ensures { result ≡ is_taken self.now.marked place }
    {
        self.taken.contains(&place)
    }

    // Makes room for a number of places in all.
    pub(super) fn reserve(&mut self, total: usize) -> Result<(), MapError>
        requires { total < 2 ^ 62 }
        ensures marked { (vs : List Vertex) → AreMarked self.old vs → AreMarked self.new vs }
        ensures room { self.old.room ≤ self.new.room }
        ensures ok { OnOk result (total ≤ self.new.room) }
        ensures promised { total ≤ self.old.room → IsOk result }
        ensures stays { total ≤ self.old.room → self.new.room ≡ self.old.room }
        ensures memory { IsOkUnless result MapError.OutOfMemory }
    {
        if total <= self.room {
            return Ok(());
        }
        let more = total + total / 4 - self.taken.len();
        self.taken.reserve(more)?;
        let capacity = self.taken.capacity();
        self.room = capacity - capacity / 5;
        Ok(())
    }

    // Marks a free place as taken.
    pub(super) fn insert(&mut self, place: Vertex)
        requires free { is_taken self.old.marked place ≡ false }
        requires room { length self.old.marked < self.old.room }
        ensures taken { (v : Vertex) → is_taken self.new.marked v
            ≡ (is_place v place || is_taken self.old.marked v) }
        ensures count { length self.new.marked ≡ length self.old.marked + 1 }
        ensures room { self.new.room ≡ self.old.room }
    {
        match self.taken.insert(place) {
            Ok(_) => {}
            Err(_) => unreachable!(),
        }
    }

    // Rebuilds the set from the places of the vertices.
    pub(super) fn refill(&mut self, vertices: &Table<Vertex>)
        requires apart { AllPairs (λ v w. v ≢ w) vertices.now.items }
        requires room { length vertices.now.items ≤ self.old.room }
        ensures marked { AreMarked self.new vertices.now.items }
        ensures room { self.new.room ≡ self.old.room }
    {
        self.taken.clear();
        for n in 0..vertices.len() {
            self.insert(vertices.at(n));
        }
    }

    // Frees a place; those of the vertices are left.
    pub(super) fn remove(&mut self, place: Vertex, vertices: &Table<Vertex>)
        requires apart { AllPairs (λ v w. v ≢ w) vertices.now.items }
        requires taken { is_taken self.old.marked place ≡ true }
        requires left { (v : Vertex) → is_taken vertices.now.items v
            ≡ (not (is_place v place) && is_taken self.old.marked v) }
        requires count { length vertices.now.items + 1 ≡ length self.old.marked }
        ensures marked { AreMarked self.new vertices.now.items }
        ensures room { self.new.room ≡ self.old.room }
    {
        if self.room < self.taken.capacity() {
            self.taken.remove(&place);
        } else {
            self.refill(vertices);
        }
    }

    // Frees a place and takes a free one; the set is then that of the vertices' places.
    pub(super) fn replace(&mut self, from: Vertex, to: Vertex, vertices: &Table<Vertex>)
        requires apart { AllPairs (λ v w. v ≢ w) vertices.now.items }
        requires taken { is_taken self.old.marked from ≡ true }
        requires free { (not (is_place to from) && is_taken self.old.marked to) ≡ false }
        requires left { (v : Vertex) → is_taken vertices.now.items v
            ≡ (is_place v to || (not (is_place v from) && is_taken self.old.marked v)) }
        requires count { length vertices.now.items ≡ length self.old.marked }
        ensures marked { AreMarked self.new vertices.now.items }
        ensures room { self.new.room ≡ self.old.room }
    {
        if self.room < self.taken.capacity() {
            self.taken.remove(&from);
            self.insert(to);
        } else {
            self.refill(vertices);
        }
    }
}
