//! A table: items in the order of their numbers, each under a key that it keeps.
ghost use Rattle.std.specs.Prelude.{◌≡◌, ◌+◌, ◌<◌, ◌≤◌, ◌++◌, ◌∷◌, ◌==◌, [], ℕ, Some, position, length, is_ok, if◌then◌else◌, slice_get, slice_set, remove, OnOk, IfOk, IsOk, IsOkUnless, MatchOption};
ghost use Rattle.map_tables.specs.Keys.{rank_of, KeepRanks, LowerRanks};

use crate::error::MapError;
use slab::Slab;
use std::alloc::Global;
use std::marker::Model;

// Items in the order of their numbers, each under a key that it keeps. An item's number is the rank of its key.
pub(super) struct Table<T: Copy> {
    items: Slab<T>,
    order: Vec<usize>,
    // for each key a hint of its rank; as long as there are places for items
    ranks: Vec<u16>,
}

// A `drop` of its own, so that a function that owns a table frees its lists by one call.
impl<T: Copy> Drop for Table<T> {
    fn drop(self) {
        let Table {
            items: _items,
            order: _order,
            ranks: _ranks,
        } = self;
    }
}

impl<T: Copy> Model for Table<T> {
    ghost use Rattle.map_tables.specs.Keys.{TableView};

    ghost Value = { TableView T };

    ghost use Rattle.map_tables.specs.TableFields.{view_of_table, KeepsTable};

    ghost view = { view_of_table };

    ghost invariant = { KeepsTable };
}

// Lowers by one the ranks after the removed one.
fn lower_ranks(ranks: &mut [u16], gone: u16) {
    for rank in ranks.iter_mut() {
        *rank = if gone < *rank { *rank - 1 } else { *rank };
    }
}

// Stores the rank of a key, if the list is long enough.
fn note_rank(ranks: &mut [u16], key: usize, rank: u16) {
    if key < ranks.len() {
        ranks[key] = rank;
    }
}

// Makes the list of ranks long enough for `places` places, and then as long as its capacity.
fn widen(ranks: &mut Vec<u16>, places: usize) -> Result<(), MapError>
    ensures { IsOkUnless result MapError.OutOfMemory }
{
    if ranks.len() < places {
        ranks.reserve(places - ranks.len())?;
        ranks.resize(ranks.capacity(), 0)?;
    }
    Ok(())
}

// The index of a key in the order.
fn place_in(order: &[usize], key: usize) -> Option<usize>
    ensures { result ≡ position (λ k. k == key) order.now }
{
    order.iter().position(|k| *k == key)
}

impl<T: Copy> Table<T> {
    // An empty table. It allocates no memory.
    pub(super) fn new(alloc: Global) -> Table<T>
        ensures items { result.items ≡ [] }
        ensures keys { result.keys ≡ [] }
        ensures spare { result.spare ≡ 0 }
    {
        Table {
            items: Slab::new(alloc),
            order: Vec::new(alloc),
            ranks: Vec::new(alloc),
        }
    }

    // How many items there are.
    pub(super) fn len(&self) -> usize
        ensures { result ≡ length self.now.items }
    {
        self.order.len()
    }

    // The key of the n-th item.
    pub(super) fn key(&self, n: usize) -> Option<usize>
        ensures { MatchOption result (length self.now.items ≤ n) (λ _. n < length self.now.items) }
    {
        if self.order.len() <= n {
            return None;
        }
        Some(self.order[n])
    }

    // The key of the n-th item, which exists.
    pub(super) fn key_at(&self, n: usize) -> usize
        requires { n < length self.now.items }
        ensures rank { rank_of self.now.keys result ≡ n }
        ensures only { (key : ℕ) → (rank_of self.now.keys key == n) ≡ (key == result) }
    {
        self.order[n]
    }

    // The n-th item.
    pub(super) fn get(&self, n: usize) -> Option<T>
        ensures { result ≡ slice_get self.now.items n }
    {
        if self.order.len() <= n {
            return None;
        }
        self.items.get(self.order[n]).copied()
    }

    // The n-th item, which exists.
    pub(super) fn at(&self, n: usize) -> T
        requires { n < length self.now.items }
        ensures { slice_get self.now.items n ≡ Some result }
    {
        self.items[self.order[n]]
    }

    // The number of the item with the key, or the count of items if none has it.
    pub(super) fn rank(&self, key: usize) -> usize
        ensures value { result ≡ rank_of self.now.keys key }
        ensures bound { result ≤ length self.now.items }
    {
        if key < self.ranks.len() {
            let rank = self.ranks[key] as usize;
            if rank < self.order.len() && self.order[rank] == key {
                return rank;
            }
        }
        match place_in(&self.order, key) {
            Some(rank) => rank,
            None => self.order.len(),
        }
    }

    // How many more items fit without allocating.
    fn spare(&self) -> usize
        ensures value { result ≡ self.now.spare }
        ensures count { length self.now.keys ≡ length self.now.items }
    {
        let places = self.items.capacity() - self.items.len();
        places.min(self.order.capacity() - self.order.len())
    }

    // Makes room: `more` further items allocate no memory.
    #[inline(always)]
    pub(super) fn reserve(&mut self, more: usize) -> Result<(), MapError>
        ensures items { self.new.items ≡ self.old.items }
        ensures keys { self.new.keys ≡ self.old.keys }
        ensures spare { self.old.spare ≤ self.new.spare }
        ensures ok { OnOk result (more ≤ self.new.spare) }
        ensures promised { more ≤ self.old.spare → IsOk result }
        ensures stays { more ≤ self.old.spare → self.new.spare ≡ self.old.spare }
        ensures count { length self.old.keys ≡ length self.old.items }
        ensures memory { IsOkUnless result MapError.OutOfMemory }
    {
        if more <= self.spare() {
            return Ok(());
        }
        self.grow(more)
    }

    // Makes room for more items than there are spare places.
    fn grow(&mut self, more: usize) -> Result<(), MapError>
        requires { self.old.spare < more }
        ensures items { self.new.items ≡ self.old.items }
        ensures keys { self.new.keys ≡ self.old.keys }
        ensures spare { self.old.spare ≤ self.new.spare }
        ensures ok { OnOk result (more ≤ self.new.spare) }
        ensures memory { IsOkUnless result MapError.OutOfMemory }
    {
        let len = self.order.len();
        // the ranks first: if the rest fails, each key still has a rank
        widen(&mut self.ranks, len.saturating_add(more))?;
        let places = more.max(self.ranks.len().saturating_sub(len));
        self.items.reserve_exact(places)?;
        self.order.reserve_exact(places)?;
        Ok(())
    }

    // Appends an item, under a new key. It allocates no memory if there is a spare place.
    #[inline(always)]
    pub(super) fn push(&mut self, item: T) -> Result<(), MapError>
        requires few { length self.old.items ≤ 32767 }
        ensures items { self.new.items
            ≡ (if is_ok result then self.old.items ++ item ∷ [] else self.old.items) }
        ensures ranks { KeepRanks self.old self.new }
        ensures count { length self.old.keys ≡ length self.old.items }
        ensures spare { self.old.spare ≤ self.new.spare + (if is_ok result then 1 else 0) }
        ensures succeeds { 0 < self.old.spare → IsOk result }
        ensures stays { 0 < self.old.spare → self.new.spare + 1 ≡ self.old.spare }
        ensures memory { IsOkUnless result MapError.OutOfMemory }
    {
        self.reserve(1)?;
        let rank = self.order.len();
        let key = self.items.insert_reserved(item);
        self.order.push_reserved(key);
        note_rank(&mut self.ranks, key, rank as u16);
        Ok(())
    }

    // Removes the n-th item. The others keep their keys.
    pub(super) fn remove(&mut self, n: usize)
        requires there { n < length self.old.items }
        requires few { length self.old.items ≤ 32767 }
        ensures items { self.new.items ≡ remove self.old.items n }
        ensures ranks { LowerRanks n self.old self.new }
        ensures count { length self.old.keys ≡ length self.old.items }
        ensures spare { self.new.spare ≡ self.old.spare + 1 }
    {
        let key = self.order.remove(n);
        self.items.remove(key);
        lower_ranks(&mut self.ranks, n as u16);
    }

    // Replaces the n-th item, which keeps its key.
    pub(super) fn set(&mut self, n: usize, item: T)
        requires { n < length self.old.items }
        ensures items { self.new.items ≡ slice_set self.old.items n item }
        ensures keys { self.new.keys ≡ self.old.keys }
        ensures spare { self.new.spare ≡ self.old.spare }
    {
        let key = self.order[n];
        self.items[key] = item;
    }

    // The items of a list, each under a key.
    pub(super) fn of(alloc: Global, list: &[T]) -> Result<Table<T>, MapError>
        requires few { length list.now ≤ 32767 }
        ensures items { IfOk result (λ table. table.items ≡ list.now) }
        ensures memory { IsOkUnless result MapError.OutOfMemory }
    {
        let mut table = Table::new(alloc);
        table.reserve(list.len())?;
        for item in list {
            table.push(*item)?;
        }
        Ok(table)
    }

    // A copy of the table, with the same keys. A clone of an item is the item itself.
    pub(super) fn copy(&self) -> Result<Table<T>, MapError>
        requires exact { (x y : T) → T.is_clone x y → y ≡ x }
        ensures items { IfOk result (λ copy. copy.items ≡ self.now.items) }
        ensures keys { IfOk result (λ copy. copy.keys ≡ self.now.keys) }
        ensures memory { IsOkUnless result MapError.OutOfMemory }
    {
        let items = self.items.clone()?;
        let order = self.order.clone()?;
        let ranks = self.ranks.clone()?;
        Ok(Table {
            items,
            order,
            ranks,
        })
    }

    // The list of the items.
    pub(super) fn to_vec(&self, alloc: Global) -> Result<Vec<T>, MapError>
        ensures items { IfOk result (λ list. list.items ≡ self.now.items) }
        ensures memory { IsOkUnless result MapError.OutOfMemory }
    {
        let mut list = Vec::with_capacity(alloc, self.len())?;
        for n in 0..self.len() {
            list.push(self.at(n))?;
        }
        Ok(list)
    }
}
