//! The edits of a map, each as a call of its table.
ghost use Rattle.std.specs.Prelude.{◌≡◌, IsErrOf};
ghost use Rattle.map_tables.specs.Edits.{added, changed, dropped, edit_need, edited};
ghost use Rattle.map_tables.specs.EditFaults.{add_faults, drop_faults, edit_faults, set_faults};
ghost use Rattle.map_tables.specs.Outcomes.{Covers, EndsEdit, EndsExactly, Spends, Tells, no_need, one_of, places};
ghost use Rattle.map_tables.specs.Ranges.{IsEdit, IsItem};
ghost use Rattle.map_tables.specs.Tables.{kind_of_item};
ghost use Rattle.map_tables.specs.WellFormed.{WellFormed};

use crate::edit::{Edit, Item};
use crate::error::MapError;
use crate::kind::Kind;
use crate::map::Map;

impl Map {
    // Whether an item can be added, memory aside.
    fn can_add(&self, item: &Item) -> Result<(), MapError>
        ensures { Tells result (add_faults self.now.tables item.now) }
    {
        match item {
            Item::Vertex(vertex) => self.can_add_vertex(*vertex),
            Item::Sector(_) => self.can_add_sector(),
            Item::Side(side) => self.can_add_side(*side),
            Item::Line(line) => self.can_add_line(*line),
            Item::Thing(_) => self.can_add_thing(),
        }
    }

    // Whether an item can take the place of the one with the number.
    fn can_set(&self, n: u32, item: &Item) -> Result<(), MapError>
        ensures { Tells result (set_faults self.now.tables n item.now) }
    {
        match item {
            Item::Vertex(vertex) => self.can_set_vertex(n, *vertex),
            Item::Sector(_) => self.can_set_sector(n),
            Item::Side(side) => self.can_set_side(n, *side),
            Item::Line(line) => self.can_set_line(n, *line),
            Item::Thing(_) => self.can_set_thing(n),
        }
    }

    // Whether an item can be removed.
    fn can_drop(&self, kind: Kind, n: u32) -> Result<(), MapError>
        ensures { Tells result (drop_faults self.now.tables kind n) }
    {
        match kind {
            Kind::Vertex => self.can_drop_vertex(n),
            Kind::Sector => self.can_drop_sector(n),
            Kind::Side => self.can_drop_side(n),
            Kind::Line => self.can_drop_line(n),
            Kind::Thing => self.can_drop_thing(n),
        }
    }

    /// Whether an edit is accepted, memory aside. The refusal is the one with the lowest code.
    pub fn can_edit(&self, edit: &Edit) -> Result<(), MapError>
        ensures { Tells result (edit_faults self.now.tables edit.now) }
    {
        match edit {
            Edit::Add(item) => self.can_add(item),
            Edit::Set(n, item) => self.can_set(u32::from(*n), item),
            Edit::Drop(kind, n) => self.can_drop(*kind, u32::from(*n)),
        }
    }

    // Adds an item, and returns its number.
    #[inline(always)]
    pub(crate) fn add(&mut self, item: Item) -> Result<u32, MapError>
        requires { IsItem item }
        ensures edit { EndsEdit result
            (added self.old.tables item) self.old.tables self.new.tables }
        ensures promised { Covers self.old.spare (one_of (kind_of_item item))
            → IsErrOf result MapError.OutOfMemory → ⊥ }
        ensures spare { Spends (one_of (kind_of_item item)) self.old.spare self.new.spare }
        ensures places { Covers self.old.spare (one_of (kind_of_item item))
            → places self.new.tables self.new.spare ≡ places self.old.tables self.old.spare }
        ensures well_formed { WellFormed self.new.tables }
    {
        let outcome = match item {
            Item::Vertex(vertex) => self.add_vertex(vertex),
            Item::Sector(sector) => self.add_sector(sector),
            Item::Side(side) => self.add_side(side),
            Item::Line(line) => self.add_line(line),
            Item::Thing(thing) => self.add_thing(thing),
        };
        let _ = &self.things;
        outcome
    }

    // Replaces the item with the number.
    fn set(&mut self, n: u32, item: Item) -> Result<(), MapError>
        requires { IsItem item }
        ensures edit { EndsExactly result (changed self.old.tables n item)
            self.old.tables self.new.tables }
        ensures spare { Spends no_need self.old.spare self.new.spare }
        ensures places { places self.new.tables self.new.spare
            ≡ places self.old.tables self.old.spare }
    {
        match item {
            Item::Vertex(vertex) => self.set_vertex(n, vertex),
            Item::Sector(sector) => self.set_sector(n, sector),
            Item::Side(side) => self.set_side(n, side),
            Item::Line(line) => self.set_line(n, line),
            Item::Thing(thing) => self.set_thing(n, thing),
        }
    }

    // Removes the item with the number.
    fn remove(&mut self, kind: Kind, n: u32) -> Result<(), MapError>
        ensures edit { EndsExactly result
            (dropped self.old.tables kind n) self.old.tables self.new.tables }
        ensures spare { Spends no_need self.old.spare self.new.spare }
        ensures places { places self.new.tables self.new.spare
            ≡ places self.old.tables self.old.spare }
    {
        match kind {
            Kind::Vertex => self.drop_vertex(n),
            Kind::Sector => self.drop_sector(n),
            Kind::Side => self.drop_side(n),
            Kind::Line => self.drop_line(n),
            Kind::Thing => self.drop_thing(n),
        }
    }

    // Makes an edit, and returns the item's number.
    fn change(&mut self, edit: Edit) -> Result<u32, MapError>
        requires { IsEdit edit }
        ensures edit { EndsEdit result
            (edited self.old.tables edit) self.old.tables self.new.tables }
        ensures promised { Covers self.old.spare (edit_need edit)
            → IsErrOf result MapError.OutOfMemory → ⊥ }
        ensures spare { Spends (edit_need edit) self.old.spare self.new.spare }
        ensures places { Covers self.old.spare (edit_need edit)
            → places self.new.tables self.new.spare ≡ places self.old.tables self.old.spare }
    {
        match edit {
            Edit::Add(item) => self.add(item),
            Edit::Set(n, item) => {
                self.set(u32::from(n), item)?;
                Ok(u32::from(n))
            }
            Edit::Drop(kind, n) => {
                self.remove(kind, u32::from(n))?;
                Ok(u32::from(n))
            }
        }
    }

    /// Makes an edit, and returns the item's number. Only an addition may lack memory, and only if no place is spare.
    pub fn edit(&mut self, edit: Edit) -> Result<u32, MapError>
        requires { IsEdit edit }
        ensures edit { EndsEdit result
            (edited self.old.tables edit) self.old.tables self.new.tables }
        ensures promised { Covers self.old.spare (edit_need edit)
            → IsErrOf result MapError.OutOfMemory → ⊥ }
        ensures spare { Spends (edit_need edit) self.old.spare self.new.spare }
        ensures places { Covers self.old.spare (edit_need edit)
            → places self.new.tables self.new.spare ≡ places self.old.tables self.old.spare }
        // what every map keeps, for a caller that holds several
        ensures well_formed { WellFormed self.new.tables }
    {
        let outcome = self.change(edit);
        let _ = &self.things;
        outcome
    }
}
