//! The edits of a map's lines.
ghost use Rattle.std.specs.Prelude.{◌≡◌, [], ◌∷◌, ◌<◌, IsErrOf};
ghost use Rattle.map_tables.specs.Errors.{code_of};
ghost use Rattle.map_tables.specs.Ranges.{IsLine};
ghost use Rattle.map_tables.specs.Outcomes.{EndsEdit, EndsExactly, Tells, Spends, places, no_need, one_of};
ghost use Rattle.map_tables.specs.Faults.{is_too_long, lacks, reference_faults, shape_faults, line_faults, set_line_faults, drop_line_faults};
ghost use Rattle.map_tables.specs.Edits.{added, changed, dropped};

use crate::edit::Item;
use crate::error::MapError;
use crate::form::{has_same_ends, lacks_left, lacks_side, lacks_vertex};
use crate::kind::Kind;
use crate::lengths::is_too_far;
use crate::map::Map;
use crate::map::keyed_line::keyed_line;
use lump_records::{ITEM_LIMIT, Line};

// Whether the line's own fields are consistent: `SameEnds`, `TwoSidedWithoutLeft`.
fn check_shape(line: &Line) -> Result<(), MapError>
    ensures { Tells result (shape_faults line.now) }
{
    if has_same_ends(line) {
        return Err(MapError::SameEnds);
    }
    if lacks_left(line) {
        return Err(MapError::TwoSidedWithoutLeft);
    }
    Ok(())
}

impl Map {
    // Whether the map has the line: `NoLine`.
    fn check_has_line(&self, n: u32) -> Result<(), MapError>
        ensures { Tells result ((code_of MapError.NoLine, lacks self.now.tables.lines n) ∷ []) }
    {
        if n as usize >= self.lines.len() {
            return Err(MapError::NoLine);
        }
        Ok(())
    }

    // Whether the map has what the line names: `NoVertex`, `NoSide`.
    fn check_references(&self, line: &Line) -> Result<(), MapError>
        ensures { Tells result (reference_faults self.now.tables line.now) }
    {
        if lacks_vertex(self.vertices.len(), line) {
            return Err(MapError::NoVertex);
        }
        if lacks_side(self.sides.len(), line) {
            return Err(MapError::NoSide);
        }
        Ok(())
    }

    // Whether the line is longer than the greatest allowed length.
    fn is_too_long(&self, line: &Line) -> bool
        ensures { result ≡ is_too_long self.now.tables.vertices line.now }
    {
        is_too_far(self.vertices.nth(line.v1), self.vertices.nth(line.v2))
    }

    // Whether a line can be added, memory aside: `NoVertex`, `NoSide`, `SameEnds`,
    // `TwoSidedWithoutLeft`, `TableFull`, `LineTooLong`.
    #[inline(always)]
    pub(crate) fn can_add_line(&self, line: Line) -> Result<(), MapError>
        ensures { Tells result (line_faults self.now.tables line) }
    {
        self.check_references(&line)?;
        check_shape(&line)?;
        if self.lines.len() >= ITEM_LIMIT {
            return Err(MapError::TableFull);
        }
        if self.is_too_long(&line) {
            return Err(MapError::LineTooLong);
        }
        Ok(())
    }

    /// Adds a line, and returns its number.
    #[inline(always)]
    pub fn add_line(&mut self, line: Line) -> Result<u32, MapError>
        requires { IsLine line }
        ensures edit { EndsEdit result
            (added self.old.tables (Item.Line line)) self.old.tables self.new.tables }
        ensures promised { 0 < self.old.spare.lines → IsErrOf result MapError.OutOfMemory → ⊥ }
        ensures spare { Spends (one_of Kind.Line) self.old.spare self.new.spare }
        ensures places { 0 < self.old.spare.lines
            → places self.new.tables self.new.spare ≡ places self.old.tables self.old.spare }
    {
        self.can_add_line(line)?;
        let number = self.lines.len() as u32;
        let keyed = keyed_line(&self.vertices, &self.sides, &line);
        self.lines.push(keyed)?;
        Ok(number)
    }

    // Whether a line can be changed: `NoVertex`, `NoSide`, `NoLine`, `SameEnds`,
    // `TwoSidedWithoutLeft`, `LineTooLong`.
    pub(crate) fn can_set_line(&self, n: u32, line: Line) -> Result<(), MapError>
        ensures { Tells result (set_line_faults self.now.tables n line) }
    {
        self.check_references(&line)?;
        self.check_has_line(n)?;
        check_shape(&line)?;
        if self.is_too_long(&line) {
            return Err(MapError::LineTooLong);
        }
        Ok(())
    }

    /// Replaces the line with the number.
    pub fn set_line(&mut self, n: u32, line: Line) -> Result<(), MapError>
        requires { IsLine line }
        ensures edit { EndsExactly result (changed self.old.tables n (Item.Line line))
            self.old.tables self.new.tables }
        ensures spare { Spends no_need self.old.spare self.new.spare }
        ensures places { places self.new.tables self.new.spare
            ≡ places self.old.tables self.old.spare }
    {
        self.can_set_line(n, line)?;
        let keyed = keyed_line(&self.vertices, &self.sides, &line);
        self.lines.set(n as usize, keyed);
        Ok(())
    }

    // Whether a line can be removed: `NoLine`.
    pub(crate) fn can_drop_line(&self, n: u32) -> Result<(), MapError>
        ensures { Tells result (drop_line_faults self.now.tables n) }
    {
        self.check_has_line(n)
    }

    /// Removes a line, and lowers each greater number by one.
    pub fn drop_line(&mut self, n: u32) -> Result<(), MapError>
        ensures edit { EndsExactly result
            (dropped self.old.tables Kind.Line n) self.old.tables self.new.tables }
        ensures spare { Spends no_need self.old.spare self.new.spare }
        ensures places { places self.new.tables self.new.spare
            ≡ places self.old.tables self.old.spare }
    {
        self.can_drop_line(n)?;
        self.lines.remove(n as usize);
        Ok(())
    }
}
