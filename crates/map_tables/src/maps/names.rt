//! The edits that name a map: renaming, selecting and dropping it.
ghost use Rattle.std.specs.Prelude.{◌≡◌, ◌≢◌, ◌≤◌, ◌<◌, false, length, position, remove};
ghost use Rattle.map_tables.specs.Ranges.{IsNamed, is_marker};
ghost use Rattle.map_tables.specs.Outcomes.{EndsExactly, Tells};
ghost use Rattle.map_tables.specs.WellFormed.{WellFormed};
ghost use Rattle.map_tables.specs.Projects.{WellFormedProject, project_of, current_map, is_named, map_number_of, has_map, map_limit};
ghost use Rattle.map_tables.specs.ProjectBody.{with_last};
ghost use Rattle.map_tables.specs.ProjectEdits.{name_faults, select_faults, drop_map_faults, named_map, selected_map, dropped_map, with_selected};
ghost use Rattle.map_tables.specs.Edits.{lowered};

use crate::error::MapError;
use crate::map::Map;
use crate::maps::{MAP_LIMIT, Maps};
use lump_records::Name8;
use std::mem;

// Whether the map has the name.
fn has_name(map: &Map, name: Name8) -> bool
    ensures { result ≡ is_named name map.now.tables }
{
    map.name().bytes.as_slice() == name.bytes.as_slice()
}

impl Maps {
    // The number of the map with the name, or the count of maps if none has it.
    fn number_of(&self, name: Name8) -> u32
        ensures value { result ≡ map_number_of (project_of self.now) name }
        ensures limit { result ≤ length (project_of self.now).maps }
    {
        let len = self.len();
        for n in 0..len {
            if has_name(self.nth(n as usize), name) {
                return n;
            }
        }
        len
    }

    /// The number of the map with the name.
    pub fn find(&self, name: Name8) -> Option<u32>
        ensures { result ≡ position (is_named name) (project_of self.now).maps }
    {
        let n = self.number_of(name);
        if n < self.len() { Some(n) } else { None }
    }

    // Whether a map has the name.
    pub(super) fn has_map(&self, name: Name8) -> bool
        ensures { result ≡ has_map (project_of self.now) name }
    {
        self.number_of(name) < self.len()
    }

    // Whether the current map has the name.
    fn is_current(&self, name: Name8) -> bool
        ensures { result ≡ is_named name (current_map (project_of self.now)) }
    {
        has_name(&self.map, name)
    }

    /// Whether the current map can have the name: `MapNameTaken`.
    pub fn can_set_name(&self, name: Name8) -> Result<(), MapError>
        ensures { Tells result (name_faults (project_of self.now) name) }
    {
        if self.has_map(name) && !self.is_current(name) {
            return Err(MapError::MapNameTaken);
        }
        Ok(())
    }

    /// Gives the current map another name: `MapNameTaken` if another map has it.
    pub fn set_name(&mut self, name: Name8) -> Result<(), MapError>
        requires { IsNamed is_marker name }
        ensures edit { EndsExactly result (named_map (project_of self.old) name)
            (project_of self.old)
            (project_of self.new) }
        ensures spare { self.new.spare ≡ self.old.spare }
        ensures others { self.new.others ≡ self.old.others }
    {
        self.can_set_name(name)?;
        self.map.set_name(name);
        Ok(())
    }

    /// Whether the map with the name can become current: `TooManyMaps`.
    pub fn can_select(&self, name: Name8) -> Result<(), MapError>
        ensures { Tells result (select_faults (project_of self.now) name) }
    {
        if !self.has_map(name) && MAP_LIMIT < self.len() as usize + 1 {
            return Err(MapError::TooManyMaps);
        }
        Ok(())
    }

    /// Makes the map with the name current, and returns its number. If there is none, an empty map with that name
    /// is added last: `TooManyMaps` if there are 32 already. It allocates no memory.
    pub fn select(&mut self, name: Name8) -> Result<u32, MapError>
        requires { IsNamed is_marker name }
        ensures { EndsExactly result (selected_map (project_of self.old) name) (project_of self.old)
            (project_of self.new) }
    {
        self.can_select(name)?;
        let n = self.number_of(name);
        if n < self.len() {
            self.make_current(n as usize);
        } else {
            self.add_map(name);
        }
        Ok(n)
    }

    /// Whether the map with the name can be removed: `NoSuchMap`, `CurrentMap`.
    pub fn can_drop_map(&self, name: Name8) -> Result<(), MapError>
        ensures { Tells result (drop_map_faults (project_of self.now) name) }
    {
        if !self.has_map(name) {
            return Err(MapError::NoSuchMap);
        }
        if self.is_current(name) {
            return Err(MapError::CurrentMap);
        }
        Ok(())
    }

    /// Removes the map with the name, and returns the number that it had; greater numbers, the current one too, are
    /// lowered by one: `NoSuchMap`, `CurrentMap`. It allocates no memory.
    pub fn drop_map(&mut self, name: Name8) -> Result<u32, MapError>
        ensures { EndsExactly result (dropped_map (project_of self.old) name) (project_of self.old)
            (project_of self.new) }
    {
        self.can_drop_map(name)?;
        let n = self.number_of(name);
        self.take_out(n as usize);
        Ok(n)
    }

    // Makes the map with the number current.
    pub(super) fn make_current(&mut self, n: usize)
        requires { n < length (project_of self.old).maps }
        ensures { project_of self.new ≡ record (project_of self.old) { current = n } }
    {
        let blank = Map::new(*self.others.allocator());
        let previous = mem::replace(&mut self.map, blank);
        self.others.insert(self.number, previous);
        self.map = self.others.remove(n);
        self.number = n;
    }

    // Appends an empty map with a new name, and makes it current.
    fn add_map(&mut self, name: Name8)
        requires named { IsNamed is_marker name }
        requires new { has_map (project_of self.old) name ≡ false }
        requires room { length (project_of self.old).maps < map_limit }
        ensures { project_of self.new ≡ with_selected (project_of self.old) name }
    {
        let mut map = Map::new(*self.others.allocator());
        map.set_name(name);
        self.push(map);
    }

    // Appends a map with a new name, and makes it current.
    pub(super) fn push(&mut self, map: Map)
        requires well_formed { WellFormed map.tables }
        requires new { has_map (project_of self.old) map.tables.name ≡ false }
        requires room { length (project_of self.old).maps < map_limit }
        ensures project { project_of self.new ≡ with_last (project_of self.old) map.tables }
        ensures well_formed { WellFormedProject (project_of self.new) }
    {
        let previous = mem::replace(&mut self.map, map);
        self.others.insert(self.number, previous);
        self.number = self.others.len();
    }

    // Removes a map that isn't the current one.
    fn take_out(&mut self, n: usize)
        requires there { n < length (project_of self.old).maps }
        requires other { n ≢ (project_of self.old).current }
        ensures { project_of self.new ≡ record {
          maps = remove (project_of self.old).maps n;
          current = lowered n (project_of self.old).current;
        } }
    {
        if n < self.number {
            self.others.remove(n);
            self.number -= 1;
        } else {
            self.others.remove(n - 1);
        }
    }
}
