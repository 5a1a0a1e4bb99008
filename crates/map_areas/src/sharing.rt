//! Lines that are there, of which an area takes a side.
ghost use Rattle.std.specs.Prelude.{◌≡◌, ◌<◌, ◌≤◌, ℕ, false, not, true, IfErr, IfOk, IfSome, IsTrue, None, OnOk, Some, length, slice_get};
ghost use Rattle.lump_records.specs.Sides.{no_side};
ghost use Rattle.lump_records.specs.declared.records.Line.{Line};
ghost use Rattle.lump_records.specs.declared.records.Side.{Side};
ghost use Rattle.map_areas.specs.Drawings.{BecomesWall, IsUnderway, IsPaint, IsSideOf, IsSole, IsTaken, KeepsLinesBut, side_on};
ghost use Rattle.map_areas.specs.Drawn.{RefusesDrawing};
ghost use Rattle.map_areas.specs.Stays.{BecomesSide};
ghost use Rattle.map_areas.specs.Ways.{sector_by_side};
ghost use Rattle.map_tables.specs.Ranges.{IsLine, IsSide};

use crate::border::Border;
use crate::drawing::Drawing;
use crate::error::AreaError;
use crate::walls::{open_side, opened, opened_flags};
use lump_records::{Line, Name8, Side};
use map_tables::{Kind, Map};

/// What an area is painted with: the new sector, what was round the border, and the texture of new walls.
#[derive(Clone, Copy)]
pub(crate) struct Paint {
    pub sector: u16,
    pub round: Option<u16>,
    pub wall: Name8,
}

/// One side of the line with a number, its right one or its left one.
#[derive(Clone, Copy)]
pub(crate) struct LineSide {
    pub number: u16,
    pub line: Line,
    pub on_right: bool,
    pub side: Side,
}

/// The number of a line's side on the right, or else on the left.
pub(crate) fn side_on(on_right: bool, line: &Line) -> u16
    ensures { result ≡ side_on on_right line.now }
{
    if on_right { line.right } else { line.left }
}

// The line with another side on the right, or else on the left.
fn with_side(line: &Line, on_right: bool, side: u16) -> Line
    requires range { IsLine line.now }
    requires side { side ≤ 32766 }
    ensures range { IsLine result }
    ensures here { side_on on_right result ≡ side }
    ensures other { side_on (not on_right) result ≡ side_on (not on_right) line.now }
    ensures others { result ≡ record line.now { right = result.right; left = result.left } }
{
    if on_right {
        Line {
            right: side,
            ..*line
        }
    } else {
        Line {
            left: side,
            ..*line
        }
    }
}

// Whether the line has the side.
fn has_side(line: &Line, side: u16) -> bool
    ensures { result ≡ false → (line.now.right ≡ side → ⊥) × (line.now.left ≡ side → ⊥) }
{
    line.right == side || line.left == side
}

// Whether no line but the one with the number has the side.
fn is_sole(lines: &[Line], number: u16, side: u16) -> bool
    ensures { IsTrue result → IsSole lines.now number side }
{
    for n in 0..lines.len() {
        if n != usize::from(number) && has_side(&lines[n], side) {
            return false;
        }
    }
    true
}

impl Drawing {
    /// A side of the line with the number, if there are such a line and such a side.
    pub(crate) fn line_side(&self, number: u16, on_right: bool) -> Option<LineSide>
        ensures there { IfSome result (IsSideOf self.now.map.tables) }
        ensures number { IfSome result (λ s. s.number ≡ number) }
        ensures on_right { IfSome result (λ s. s.on_right ≡ on_right) }
    {
        if self.map.count(Kind::Line) <= u32::from(number) {
            return None;
        }
        let line = self.map.line(u32::from(number))?;
        let own = u32::from(side_on(on_right, &line));
        if self.map.count(Kind::Side) <= own {
            return None;
        }
        let side = self.map.side(own)?;
        Some(LineSide {
            number,
            line,
            on_right,
            side,
        })
    }

    // Changes a side for one line alone, and answers the side's number: a new one if another line has it too, or the
    // line on its other side.
    fn change_side(
        &mut self,
        map: &Map,
        border: &Border,
        round: Option<u16>,
        which: &LineSide,
        side: Side,
    ) -> Result<u16, AreaError>
        requires drawn { IsUnderway map.now.tables border.now round self.old }
        requires own { IsSideOf self.old.map.tables which.now }
        requires side { IsSide side }
        requires faced { side.sector < length self.old.map.tables.sectors }
        requires taken { IsTaken map.now.tables border.now which.now.number }
        requires becomes { (was : Side)
            → BecomesSide round (length map.now.tables.sectors) was which.now.side
            → BecomesSide round (length map.now.tables.sectors) was side }
        ensures drawn { OnOk result (IsUnderway map.now.tables border.now round self.new) }
        ensures there { IfOk result (λ n. slice_get self.new.map.tables.sides n ≡ Some side) }
        ensures number { IfOk result (λ n. n ≤ 32766) }
        ensures other { OnOk result (sector_by_side self.new.map.tables
            (side_on (not which.now.on_right) which.now.line)
            ≡ sector_by_side self.old.map.tables
            (side_on (not which.now.on_right) which.now.line)) }
        ensures kept { OnOk result
            (KeepsLinesBut which.now.number self.old.map.tables self.new.map.tables) }
        ensures vertices { OnOk result
            (self.new.map.tables.vertices ≡ self.old.map.tables.vertices) }
        ensures lines { OnOk result (self.new.map.tables.lines ≡ self.old.map.tables.lines) }
        ensures count { OnOk result
            (length self.old.map.tables.sides ≤ length self.new.map.tables.sides) }
        ensures refused { IfErr result (RefusesDrawing map.now.tables border.now.edges.items) }
    {
        let own = side_on(which.on_right, &which.line);
        let other = side_on(!which.on_right, &which.line);
        if own != other && is_sole(&self.lines, which.number, own) {
            self.set_side(map, border, round, which.number, own, side)?;
            return Ok(own);
        }
        let new = self.add_side(map, border, round, side)?;
        Ok(new)
    }

    /// Lets one side of a line, which faces what is round the border, face the new sector.
    pub(crate) fn face(
        &mut self,
        map: &Map,
        border: &Border,
        paint: &Paint,
        which: &LineSide,
    ) -> Result<(), AreaError>
        requires drawn { IsUnderway map.now.tables border.now paint.now.round self.old }
        requires paint { IsPaint map.now.tables paint.now }
        requires own { IsSideOf self.old.map.tables which.now }
        requires taken { IsTaken map.now.tables border.now which.now.number }
        requires round { paint.now.round ≡ Some which.now.side.sector }
        ensures drawn { OnOk result
            (IsUnderway map.now.tables border.now paint.now.round self.new) }
        ensures kept { OnOk result
            (KeepsLinesBut which.now.number self.old.map.tables self.new.map.tables) }
        ensures wall { OnOk result (BecomesWall self.old.map.tables paint.now.sector
            self.new.map.tables which.now.on_right which.now) }
        ensures refused { IfErr result (RefusesDrawing map.now.tables border.now.edges.items) }
    {
        let turned = Side {
            sector: paint.sector,
            ..which.side
        };
        let new = self.change_side(map, border, paint.round, which, turned)?;
        if new == side_on(which.on_right, &which.line) {
            return Ok(());
        }
        let line = with_side(&which.line, which.on_right, new);
        self.set_line(map, border, paint.round, which.number, line)?;
        Ok(())
    }

    /// Gives a line, whose right side this is, a left side that faces the new sector: the line becomes two-sided.
    pub(crate) fn open(
        &mut self,
        map: &Map,
        border: &Border,
        paint: &Paint,
        which: &LineSide,
    ) -> Result<(), AreaError>
        requires drawn { IsUnderway map.now.tables border.now paint.now.round self.old }
        requires paint { IsPaint map.now.tables paint.now }
        requires own { IsSideOf self.old.map.tables which.now }
        requires taken { IsTaken map.now.tables border.now which.now.number }
        requires right { which.now.on_right ≡ true }
        requires left { which.now.line.left ≡ no_side }
        requires round { paint.now.round ≡ None }
        ensures drawn { OnOk result
            (IsUnderway map.now.tables border.now paint.now.round self.new) }
        ensures kept { OnOk result
            (KeepsLinesBut which.now.number self.old.map.tables self.new.map.tables) }
        ensures wall { OnOk result (BecomesWall self.old.map.tables paint.now.sector
            self.new.map.tables false which.now) }
        ensures refused { IfErr result (RefusesDrawing map.now.tables border.now.edges.items) }
    {
        let right = opened(&which.side);
        let right = self.change_side(map, border, paint.round, which, right)?;
        let left = open_side(paint.wall, paint.sector);
        let left = self.add_side(map, border, paint.round, left)?;
        let line = Line {
            flags: opened_flags(which.line.flags),
            right,
            left,
            ..which.line
        };
        self.set_line(map, border, paint.round, which.number, line)?;
        Ok(())
    }
}
