//! The edits of a map's things.
ghost use Rattle.std.specs.Prelude.{◌≡◌, [], ◌∷◌, ◌<◌, IsErrOf};
ghost use Rattle.map_tables.specs.Errors.{code_of};
ghost use Rattle.map_tables.specs.Ranges.{IsThing};
ghost use Rattle.map_tables.specs.Outcomes.{EndsEdit, EndsExactly, Tells, Spends, places, no_need, one_of};
ghost use Rattle.map_tables.specs.Faults.{lacks, thing_faults, set_thing_faults, drop_thing_faults};
ghost use Rattle.map_tables.specs.Edits.{added, changed, dropped};

use crate::edit::Item;
use crate::error::MapError;
use crate::kind::Kind;
use crate::map::Map;
use lump_records::{ITEM_LIMIT, Thing};

impl Map {
    // Whether the map has the thing: `NoThing`.
    fn check_has_thing(&self, n: u32) -> Result<(), MapError>
        ensures { Tells result ((code_of MapError.NoThing, lacks self.now.tables.things n) ∷ []) }
    {
        if n as usize >= self.things.len() {
            return Err(MapError::NoThing);
        }
        Ok(())
    }

    // Whether a thing can be added, memory aside: `TableFull`.
    pub(crate) fn can_add_thing(&self) -> Result<(), MapError>
        ensures { Tells result (thing_faults self.now.tables) }
    {
        if self.things.len() >= ITEM_LIMIT {
            return Err(MapError::TableFull);
        }
        Ok(())
    }

    /// Adds a thing, and returns its number.
    pub fn add_thing(&mut self, thing: Thing) -> Result<u32, MapError>
        requires { IsThing thing }
        ensures edit { EndsEdit result
            (added self.old.tables (Item.Thing thing)) self.old.tables self.new.tables }
        ensures promised { 0 < self.old.spare.things → IsErrOf result MapError.OutOfMemory → ⊥ }
        ensures spare { Spends (one_of Kind.Thing) self.old.spare self.new.spare }
        ensures places { 0 < self.old.spare.things
            → places self.new.tables self.new.spare ≡ places self.old.tables self.old.spare }
    {
        self.can_add_thing()?;
        let number = self.things.len() as u32;
        self.things.push(thing)?;
        Ok(number)
    }

    // Whether a thing can be changed: `NoThing`.
    pub(crate) fn can_set_thing(&self, n: u32) -> Result<(), MapError>
        ensures { Tells result (set_thing_faults self.now.tables n) }
    {
        self.check_has_thing(n)
    }

    /// Replaces the thing with the number.
    pub fn set_thing(&mut self, n: u32, thing: Thing) -> Result<(), MapError>
        requires { IsThing thing }
        ensures edit { EndsExactly result (changed self.old.tables n (Item.Thing thing))
            self.old.tables self.new.tables }
        ensures spare { Spends no_need self.old.spare self.new.spare }
        ensures places { places self.new.tables self.new.spare
            ≡ places self.old.tables self.old.spare }
    {
        self.can_set_thing(n)?;
        self.things.set(n as usize, thing);
        Ok(())
    }

    // Whether a thing can be removed: `NoThing`.
    pub(crate) fn can_drop_thing(&self, n: u32) -> Result<(), MapError>
        ensures { Tells result (drop_thing_faults self.now.tables n) }
    {
        self.check_has_thing(n)
    }

    /// Removes a thing, and lowers each greater number by one.
    pub fn drop_thing(&mut self, n: u32) -> Result<(), MapError>
        ensures edit { EndsExactly result
            (dropped self.old.tables Kind.Thing n) self.old.tables self.new.tables }
        ensures spare { Spends no_need self.old.spare self.new.spare }
        ensures places { places self.new.tables self.new.spare
            ≡ places self.old.tables self.old.spare }
    {
        self.can_drop_thing(n)?;
        self.things.remove(n as usize);
        Ok(())
    }
}
