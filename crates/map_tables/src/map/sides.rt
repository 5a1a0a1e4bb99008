//! The edits of a map's sides.
ghost use Rattle.std.specs.Prelude.{◌≡◌, [], ◌∷◌, ◌<◌, ◌==◌, ◌||◌, length, IsErrOf};
ghost use Rattle.std.specs.List.{list_any};
ghost use Rattle.map_tables.specs.Errors.{code_of};
ghost use Rattle.map_tables.specs.Ranges.{IsSide};
ghost use Rattle.map_tables.specs.Outcomes.{EndsEdit, EndsExactly, Tells, Spends, places, no_need, one_of};
ghost use Rattle.map_tables.specs.Faults.{lacks, uses_side, side_faults, set_side_faults, drop_side_faults};
ghost use Rattle.map_tables.specs.Keyed.{is_left};
ghost use Rattle.map_tables.specs.Edits.{added, changed, dropped};

use crate::edit::Item;
use crate::error::MapError;
use crate::kind::Kind;
use crate::map::Map;
use crate::map::keyed_line::KeyedLine;
use crate::map::keyed_side::keyed_side;
use crate::map::table::Table;
use lump_records::{ITEM_LIMIT, Side};

// Whether the right or the left side of the line has the key.
fn has_key(line: &KeyedLine, key: usize) -> bool
    ensures { result ≡ ((line.now.right == key) || is_left line.now.left key) }
{
    if line.right == key {
        return true;
    }
    match line.left {
        Some(left) => left == key,
        None => false,
    }
}

// Whether the side with the key is the right or left side of some line.
fn has_line_with_key(lines: &Table<KeyedLine>, key: usize) -> bool
    ensures { result ≡ list_any (λ l. (l.right == key) || is_left l.left key) lines.now.items }
{
    for n in 0..lines.len() {
        if has_key(&lines.at(n), key) {
            return true;
        }
    }
    false
}

impl Map {
    // Whether the map has the side: `NoSide`.
    fn check_has_side(&self, n: u32) -> Result<(), MapError>
        ensures { Tells result ((code_of MapError.NoSide, lacks self.now.tables.sides n) ∷ []) }
    {
        if n as usize >= self.sides.len() {
            return Err(MapError::NoSide);
        }
        Ok(())
    }

    // Whether a side can be added, memory aside: `NoSector`, `TableFull`.
    pub(crate) fn can_add_side(&self, side: Side) -> Result<(), MapError>
        ensures { Tells result (side_faults self.now.tables side) }
    {
        self.check_has_sector(u32::from(side.sector))?;
        if self.sides.len() >= ITEM_LIMIT {
            return Err(MapError::TableFull);
        }
        Ok(())
    }

    /// Adds a side, and returns its number.
    #[inline(always)]
    pub fn add_side(&mut self, side: Side) -> Result<u32, MapError>
        requires { IsSide side }
        ensures edit { EndsEdit result
            (added self.old.tables (Item.Side side)) self.old.tables self.new.tables }
        ensures promised { 0 < self.old.spare.sides → IsErrOf result MapError.OutOfMemory → ⊥ }
        ensures spare { Spends (one_of Kind.Side) self.old.spare self.new.spare }
        ensures places { 0 < self.old.spare.sides
            → places self.new.tables self.new.spare ≡ places self.old.tables self.old.spare }
    {
        self.can_add_side(side)?;
        let number = self.sides.len() as u32;
        let keyed = keyed_side(&self.sectors, &side);
        self.sides.push(keyed)?;
        Ok(number)
    }

    // Whether a side can be changed: `NoSector`, `NoSide`.
    pub(crate) fn can_set_side(&self, n: u32, side: Side) -> Result<(), MapError>
        ensures { Tells result (set_side_faults self.now.tables n side) }
    {
        self.check_has_sector(u32::from(side.sector))?;
        self.check_has_side(n)
    }

    /// Replaces the side with the number.
    pub fn set_side(&mut self, n: u32, side: Side) -> Result<(), MapError>
        requires { IsSide side }
        ensures edit { EndsExactly result (changed self.old.tables n (Item.Side side))
            self.old.tables self.new.tables }
        ensures spare { Spends no_need self.old.spare self.new.spare }
        ensures places { places self.new.tables self.new.spare
            ≡ places self.old.tables self.old.spare }
    {
        self.can_set_side(n, side)?;
        let keyed = keyed_side(&self.sectors, &side);
        self.sides.set(n as usize, keyed);
        Ok(())
    }

    // Whether a line has the side.
    fn has_line_with(&self, n: u32) -> bool
        requires { n < length self.now.tables.sides }
        ensures { result ≡ list_any (uses_side n) self.now.tables.lines }
    {
        has_line_with_key(&self.lines, self.sides.key_at(n as usize))
    }

    // Whether a side can be removed: `NoSide`, `InUse`.
    pub(crate) fn can_drop_side(&self, n: u32) -> Result<(), MapError>
        ensures { Tells result (drop_side_faults self.now.tables n) }
    {
        self.check_has_side(n)?;
        if self.has_line_with(n) {
            return Err(MapError::InUse);
        }
        Ok(())
    }

    /// Removes a side, and lowers each greater number by one, in the lines too.
    pub fn drop_side(&mut self, n: u32) -> Result<(), MapError>
        ensures edit { EndsExactly result
            (dropped self.old.tables Kind.Side n) self.old.tables self.new.tables }
        ensures spare { Spends no_need self.old.spare self.new.spare }
        ensures places { places self.new.tables self.new.spare
            ≡ places self.old.tables self.old.spare }
    {
        self.can_drop_side(n)?;
        self.sides.remove(n as usize);
        Ok(())
    }
}
