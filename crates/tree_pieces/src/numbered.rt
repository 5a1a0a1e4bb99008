//! The numbered vertices of a build.
ghost use Rattle.std.specs.Prelude.{◌≡◌, OnOk, OnErr, IsOkUnless};
ghost use Rattle.tree_pieces.specs.Places.{IsNoted};

use crate::error::SegsError;
use indexmap::IndexMap;
use lump_records::{ITEM_LIMIT, Vertex};
use map_tables::{Kind, Map};
use std::alloc::Global;
use std::marker::Model;

/// The numbered vertices of a build: the drawn ones, and then the new ones in the order in which
/// they are first asked for. There are at most 32,767. Drawn ones may share a place: each has a
/// number of its own, and the lowest of them is that of the place.
#[derive(Drop)]
pub struct Points {
    places: Vec<Vertex>,
    numbers: IndexMap<Vertex, u32>,
}

impl Model for Points {
    ghost use Rattle.std.specs.Prelude.{List};
    ghost use Rattle.lump_records.specs.declared.records.Vertex.{Vertex};
    ghost use Rattle.tree_pieces.specs.Places.{IsIndexed};

    ghost Value = { List Vertex };

    ghost view = { λ p. p.places.items };

    ghost invariant = { λ p. IsIndexed p.places.items p.numbers.entries };
}

// Notes the number of a place, unless the place has one.
fn note(numbers: &mut IndexMap<Vertex, u32>, place: Vertex, n: u32) -> Result<(), SegsError>
    ensures noted { OnOk result (IsNoted numbers.old.entries place n numbers.new.entries) }
    ensures unchanged { OnErr result (numbers.new.entries ≡ numbers.old.entries) }
    ensures memory { IsOkUnless result SegsError.OutOfMemory }
{
    if numbers.contains_key(&place) {
        return Ok(());
    }
    match numbers.insert(place, n) {
        Ok(_) => Ok(()),
        Err(_) => Err(SegsError::OutOfMemory),
    }
}

impl Points {
    ghost use Rattle.std.specs.Prelude.{◌≡◌, ◌≤◌, ◌<◌, ◌++◌, ◌∷◌, [], ◌↔◌, length, Some, Err, slice_get, IfOk, OnOk, OnErr, IsOkUnless};
    ghost use Rattle.tree_pieces.specs.Places.{ArePlaces, IsKnown, IsWithPlace, StandsFirst};

    // No vertex yet, with room for so many drawn ones and a quarter as many new ones.
    fn none(alloc: Global, drawn: usize) -> Result<Points, SegsError>
        ensures none { IfOk result (λ points. points ≡ []) }
        ensures memory { IsOkUnless result SegsError.OutOfMemory }
    {
        let room = drawn.saturating_add(drawn / 4);
        Ok(Points {
            places: Vec::with_capacity(alloc, room)?,
            numbers: IndexMap::with_capacity(alloc, room)?,
        })
    }

    // Appends a vertex and returns its number.
    fn push(&mut self, place: Vertex) -> Result<u32, SegsError>
        requires { length self.old < 32767 }
        ensures pushed { OnOk result (self.new ≡ self.old ++ place ∷ []) }
        ensures number { IfOk result (λ n. n ≡ length self.old) }
        ensures unchanged { OnErr result (self.new ≡ self.old) }
        ensures memory { IsOkUnless result SegsError.OutOfMemory }
    {
        let n = self.places.len() as u32;
        match self.places.reserve(1) {
            Err(_) => return Err(SegsError::OutOfMemory),
            Ok(()) => {}
        }
        match note(&mut self.numbers, place, n) {
            Err(error) => return Err(error),
            Ok(()) => {}
        }
        match self.places.push(place) {
            Ok(()) => Ok(n),
            Err(_) => unreachable!(),
        }
    }

    /// The vertices of a map, each with its own number. They are refused only for lack of memory.
    pub fn new(alloc: Global, map: &Map) -> Result<Points, SegsError>
        ensures drawn { IfOk result (λ points. points ≡ map.now.tables.vertices) }
        ensures places { IfOk result ArePlaces }
        ensures memory { IsOkUnless result SegsError.OutOfMemory }
    {
        let mut points = Points::none(alloc, map.count(Kind::Vertex) as usize)?;
        for n in 0..map.count(Kind::Vertex) {
            let place = map.vertex(n).unwrap();
            points.push(place)?;
        }
        Ok(points)
    }

    /// The vertices of a list, each with its own number; they may share places. They are refused as `TooManyVertices`
    /// exactly if there are more than 32,767, and for lack of memory.
    pub fn over(alloc: Global, places: &[Vertex]) -> Result<Points, SegsError>
        ensures drawn { IfOk result (λ points. points ≡ places.now) }
        ensures many { result ≡ Err SegsError.TooManyVertices ↔ 32767 < length places.now }
    {
        if places.len() > ITEM_LIMIT {
            return Err(SegsError::TooManyVertices);
        }
        let mut points = match Points::none(alloc, places.len()) {
            Err(_) => return Err(SegsError::OutOfMemory),
            Ok(points) => points,
        };
        for place in places {
            match points.push(*place) {
                Err(_) => return Err(SegsError::OutOfMemory),
                Ok(_) => {}
            }
        }
        Ok(points)
    }

    /// How many vertices there are.
    pub fn len(&self) -> u32
        ensures count { result ≡ length self.now }
        ensures few { length self.now ≤ 32767 }
    {
        self.places.len() as u32
    }

    /// The place of a number, which counts from 0.
    pub fn at(&self, n: u32) -> Option<Vertex>
        ensures { result ≡ slice_get self.now n }
    {
        self.places.get(n as usize).copied()
    }

    /// The number of the vertex at a place, the lowest if several stand there. If none does, a new vertex goes to the
    /// end; it is refused as `TooManyVertices` if there are 32,767 already, and for lack of memory. After a refusal
    /// nothing has changed.
    pub fn number(&mut self, place: Vertex) -> Result<u32, SegsError>
        ensures number { IfOk result (λ n. slice_get self.new n ≡ Some place) }
        ensures first { IfOk result (StandsFirst self.new) }
        ensures places { OnOk result (IsWithPlace self.old place self.new) }
        ensures unchanged { OnErr result (self.new ≡ self.old) }
        ensures full { result ≡ Err SegsError.TooManyVertices → length self.old ≡ 32767 }
        ensures new { result ≡ Err SegsError.TooManyVertices → IsKnown self.old place → ⊥ }
        ensures refused { length self.old ≡ 32767 → (IsKnown self.old place → ⊥) →
            result ≡ Err SegsError.TooManyVertices }
        ensures memory { result ≡ Err SegsError.OutOfMemory → IsKnown self.old place → ⊥ }
    {
        if let Some(n) = self.numbers.get(&place).copied() {
            return Ok(n);
        }
        if self.places.len() >= ITEM_LIMIT {
            return Err(SegsError::TooManyVertices);
        }
        self.push(place)
    }
}
