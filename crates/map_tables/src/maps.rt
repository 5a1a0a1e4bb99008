//! The maps of a project, one of them current.
mod body;
mod names;

ghost use Rattle.std.specs.Prelude.{◌≡◌, ◌≤◌, ◌<◌, length, get_or, slice_get, MatchOption, Some, None, OnOk, IsOkUnless, IsErrOf};
ghost use Rattle.map_tables.specs.Projects.{WellFormedProject, project_of, empty_project, body_len};
ghost use Rattle.map_tables.specs.Tables.{Tables, count_of, kind_of_item};
ghost use Rattle.map_tables.specs.Outcomes.{Covers, EndsEdit, Spends, no_need, nothing, one_of, places};
ghost use Rattle.map_tables.specs.Edits.{added, edit_need, edited};
ghost use Rattle.map_tables.specs.Ranges.{IsEdit, IsItem};

use crate::edit::{Edit, Item, Need};
use crate::error::MapError;
use crate::kind::Kind;
use crate::map::Map;
use arrayvec::ArrayVec;
use std::alloc::Global;
use std::default::MadeWith;
use std::marker::Model;

/// How many maps a project may have.
pub const MAP_LIMIT: usize = 32;

/// The maps of a project: 1 to 32 maps with different names. A map's number is its index among them. One map is the
/// current one, which edits change.
pub struct Maps {
    map: Map,
    number: usize,
    others: ArrayVec<Map, MAP_LIMIT, Global>,
}

// A `drop` of its own, so that a function that owns maps frees all 32 places by one call.
impl Drop for Maps {
    fn drop(self) {
        let Maps {
            map: _map,
            number: _,
            others: _others,
        } = self;
    }
}

impl Model for Maps {
    ghost use Rattle.map_tables.specs.Projects.{MapsView};

    ghost Value = { MapsView };

    ghost use Rattle.map_tables.specs.MapsFields.{maps_view, KeepsMaps};

    ghost view = { maps_view };

    ghost invariant = { KeepsMaps };
}

// An unused place of the array holds an empty map, which allocates no memory.
impl MadeWith<Global> for Map {
    fn made_with(alloc: Global) -> Map {
        Map::new(alloc)
    }
}

impl Maps {
    /// The maps of a new project: only the empty map MAP01. It allocates no memory.
    pub fn new(alloc: Global) -> Self
        ensures project { project_of result ≡ empty_project }
        ensures spare { result.spare ≡ nothing }
    {
        Maps {
            map: Map::new(alloc),
            number: 0,
            others: ArrayVec::new_in(alloc),
        }
    }

    /// How many maps there are.
    pub fn len(&self) -> u32
        ensures value { result ≡ length (project_of self.now).maps }
        ensures limit { result ≤ 32 }
        // what every project keeps, for callers that read its maps by number
        ensures well_formed { WellFormedProject (project_of self.now) }
    {
        self.others.len() as u32 + 1
    }

    /// The number of the current map.
    pub fn current_number(&self) -> u32
        ensures value { result ≡ (project_of self.now).current }
        ensures limit { result ≤ 31 }
    {
        self.number as u32
    }

    /// The current map.
    pub fn current(&self) -> &Map
        ensures tables { result.now.tables ≡ self.now.tables }
        ensures spare { result.now.spare ≡ self.now.spare }
    {
        &self.map
    }

    // The map with a number below `len`.
    pub(crate) fn nth(&self, n: usize) -> &Map
        requires { n < length (project_of self.now).maps }
        ensures { (d : Tables) → get_or (project_of self.now).maps n d ≡ result.now.tables }
    {
        if n < self.number {
            return &self.others[n];
        }
        if n == self.number {
            return &self.map;
        }
        &self.others[n - 1]
    }

    /// The map with the number.
    pub fn at(&self, n: u32) -> Option<&Map>
        ensures { MatchOption result (slice_get (project_of self.now).maps n ≡ None)
            (λ m. slice_get (project_of self.now).maps n ≡ Some m.now.tables) }
    {
        if n < self.len() {
            return Some(self.nth(n as usize));
        }
        None
    }

    /// The length of the body in bytes.
    pub fn body_len(&self) -> u32
        ensures { result ≡ body_len (project_of self.now) }
    {
        let mut len = 2 + self.map.part_len();
        for other in self.others.as_slice() {
            len += other.part_len();
        }
        len
    }

    /// The key of an item of the current map; `None` past the last item.
    pub fn key(&self, kind: Kind, n: u32) -> Option<usize>
        ensures { MatchOption result (count_of self.now.tables kind ≤ n)
            (λ _. n < count_of self.now.tables kind) }
    {
        self.map.key(kind, n)
    }

    /// Makes room in the current map: after `Ok`, the needed number of additions of each kind allocate no memory.
    pub fn reserve(&mut self, need: Need) -> Result<(), MapError>
        ensures tables { self.new.tables ≡ self.old.tables }
        ensures spare { Spends no_need self.old.spare self.new.spare }
        ensures ok { OnOk result (Covers self.new.spare need) }
        ensures promised { Covers self.old.spare need → IsErrOf result MapError.OutOfMemory → ⊥ }
        ensures memory { IsOkUnless result MapError.OutOfMemory }
        ensures others { self.new.others ≡ self.old.others }
    {
        self.map.reserve(need)
    }

    /// Makes an edit of the current map, and returns the item's number. Only an addition may lack memory, and only if
    /// no place is spare.
    pub fn edit(&mut self, edit: Edit) -> Result<u32, MapError>
        requires { IsEdit edit }
        ensures edit { EndsEdit result
            (edited self.old.tables edit) self.old.tables self.new.tables }
        ensures promised { Covers self.old.spare (edit_need edit)
            → IsErrOf result MapError.OutOfMemory → ⊥ }
        ensures spare { Spends (edit_need edit) self.old.spare self.new.spare }
        ensures places { Covers self.old.spare (edit_need edit)
            → places self.new.tables self.new.spare ≡ places self.old.tables self.old.spare }
        ensures others { self.new.others ≡ self.old.others }
    {
        self.map.edit(edit)
    }

    /// Adds an item to the current map, and returns its number, as the `edit` does that adds it. It is compiled into
    /// its callers, so that one that knows the item's kind pays for no choice among the kinds.
    #[inline(always)]
    pub fn add(&mut self, item: Item) -> Result<u32, MapError>
        requires { IsItem item }
        ensures edit { EndsEdit result
            (added self.old.tables item) self.old.tables self.new.tables }
        ensures promised { Covers self.old.spare (one_of (kind_of_item item))
            → IsErrOf result MapError.OutOfMemory → ⊥ }
        ensures spare { Spends (one_of (kind_of_item item)) self.old.spare self.new.spare }
        ensures places { Covers self.old.spare (one_of (kind_of_item item))
            → places self.new.tables self.new.spare ≡ places self.old.tables self.old.spare }
        ensures others { self.new.others ≡ self.old.others }
    {
        self.map.add(item)
    }
}
