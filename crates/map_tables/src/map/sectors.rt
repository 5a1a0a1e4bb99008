//! The edits of a map's sectors.
ghost use Rattle.std.specs.Prelude.{◌≡◌, [], ◌∷◌, ◌<◌, ◌==◌, length, IsErrOf};
ghost use Rattle.std.specs.List.{list_any};
ghost use Rattle.map_tables.specs.Errors.{code_of};
ghost use Rattle.map_tables.specs.Ranges.{IsSector};
ghost use Rattle.map_tables.specs.Outcomes.{EndsEdit, EndsExactly, Tells, Spends, places, no_need, one_of};
ghost use Rattle.map_tables.specs.Faults.{lacks, in_sector, sector_faults, set_sector_faults, drop_sector_faults};
ghost use Rattle.map_tables.specs.Edits.{added, changed, dropped};

use crate::edit::Item;
use crate::error::MapError;
use crate::kind::Kind;
use crate::map::Map;
use crate::map::keyed_side::KeyedSide;
use crate::map::table::Table;
use lump_records::{SECTOR_LIMIT, Sector};

// Whether the key is that of some side's sector.
fn has_side_with(sides: &Table<KeyedSide>, key: usize) -> bool
    ensures { result ≡ list_any (λ s. s.sector == key) sides.now.items }
{
    for n in 0..sides.len() {
        if sides.at(n).sector == key {
            return true;
        }
    }
    false
}

impl Map {
    // Whether the map has the sector: `NoSector`.
    pub(super) fn check_has_sector(&self, n: u32) -> Result<(), MapError>
        ensures { Tells result ((code_of MapError.NoSector, lacks self.now.tables.sectors n) ∷ []) }
    {
        if n as usize >= self.sectors.len() {
            return Err(MapError::NoSector);
        }
        Ok(())
    }

    // Whether a sector can be added, memory aside: `TableFull`.
    pub(crate) fn can_add_sector(&self) -> Result<(), MapError>
        ensures { Tells result (sector_faults self.now.tables) }
    {
        if self.sectors.len() >= SECTOR_LIMIT {
            return Err(MapError::TableFull);
        }
        Ok(())
    }

    /// Adds a sector, and returns its number.
    pub fn add_sector(&mut self, sector: Sector) -> Result<u32, MapError>
        requires { IsSector sector }
        ensures edit { EndsEdit result
            (added self.old.tables (Item.Sector sector)) self.old.tables self.new.tables }
        ensures promised { 0 < self.old.spare.sectors → IsErrOf result MapError.OutOfMemory → ⊥ }
        ensures spare { Spends (one_of Kind.Sector) self.old.spare self.new.spare }
        ensures places { 0 < self.old.spare.sectors
            → places self.new.tables self.new.spare ≡ places self.old.tables self.old.spare }
    {
        self.can_add_sector()?;
        let number = self.sectors.len() as u32;
        self.sectors.push(sector)?;
        Ok(number)
    }

    // Whether a sector can be changed: `NoSector`.
    pub(crate) fn can_set_sector(&self, n: u32) -> Result<(), MapError>
        ensures { Tells result (set_sector_faults self.now.tables n) }
    {
        self.check_has_sector(n)
    }

    /// Replaces the sector with the number.
    pub fn set_sector(&mut self, n: u32, sector: Sector) -> Result<(), MapError>
        requires { IsSector sector }
        ensures edit { EndsExactly result (changed self.old.tables n (Item.Sector sector))
            self.old.tables self.new.tables }
        ensures spare { Spends no_need self.old.spare self.new.spare }
        ensures places { places self.new.tables self.new.spare
            ≡ places self.old.tables self.old.spare }
    {
        self.can_set_sector(n)?;
        self.sectors.set(n as usize, sector);
        Ok(())
    }

    // Whether a side belongs to the sector.
    fn has_side_in(&self, n: u32) -> bool
        requires { n < length self.now.tables.sectors }
        ensures { result ≡ list_any (in_sector n) self.now.tables.sides }
    {
        has_side_with(&self.sides, self.sectors.key_at(n as usize))
    }

    // Whether a sector can be removed: `NoSector`, `InUse`.
    pub(crate) fn can_drop_sector(&self, n: u32) -> Result<(), MapError>
        ensures { Tells result (drop_sector_faults self.now.tables n) }
    {
        self.check_has_sector(n)?;
        if self.has_side_in(n) {
            return Err(MapError::InUse);
        }
        Ok(())
    }

    /// Removes a sector, and lowers each greater number by one, in the sides too.
    pub fn drop_sector(&mut self, n: u32) -> Result<(), MapError>
        ensures edit { EndsExactly result
            (dropped self.old.tables Kind.Sector n) self.old.tables self.new.tables }
        ensures spare { Spends no_need self.old.spare self.new.spare }
        ensures places { places self.new.tables self.new.spare
            ≡ places self.old.tables self.old.spare }
    {
        self.can_drop_sector(n)?;
        self.sectors.remove(n as usize);
        Ok(())
    }
}
