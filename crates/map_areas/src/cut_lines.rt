//! Cutting the lines that a border crosses.
ghost use Rattle.std.specs.Prelude.{◌≡◌, ◌<◌, ◌≤◌, All, IfErr, IfOk, OnOk, Some, false, length, slice_get, true};
ghost use Rattle.map_areas.specs.Drawings.{IsUnderway, IsOnBorder, IsTaken};
ghost use Rattle.map_areas.specs.Drawn.{RefusesDrawing};
ghost use Rattle.map_tables.specs.Faults.{is_taken};
ghost use Rattle.map_areas.specs.Ways.{is_between};
ghost use Rattle.map_plane.specs.Places.{placed, placed_lines};
ghost use Rattle.map_tables.specs.Ranges.{IsLine};
ghost use Rattle.map_tables.specs.WellFormed.{nth_vertex};

use crate::alone::is_left_alone;
use crate::border::Border;
use crate::cuts::cuts_of;
use crate::drawing::{Drawing, find_vertex};
use crate::error::AreaError;
use crate::splitting::try_split;
use crate::ways::{Ground, is_between, placed};
use lump_records::{Line, Vertex};
use map_commands::{Command, LineSplit};
use map_plane::PlacedLine;
use map_tables::{Edit, Item, Kind, Map};
use std::alloc::Global;

/// The number of a line, or one that no line has.
pub(crate) fn number_of(line: &PlacedLine) -> u16 {
    u16::try_from(line.number).unwrap_or(u16::MAX)
}

impl Drawing {
    // Cuts this line, which has the number, in two at a place where no vertex is, and answers the number of the new
    // line.
    fn split(
        &mut self,
        map: &Map,
        border: &Border,
        round: Option<u16>,
        number: u16,
        line: &Line,
        at: Vertex,
    ) -> Result<u16, AreaError>
        requires drawn { IsUnderway map.now.tables border.now round self.old }
        requires number { number ≤ 32766 }
        requires line { slice_get self.old.map.tables.lines number ≡ Some line.now }
        requires place { IsOnBorder border.now.edges.items at }
        requires free { is_taken self.old.map.tables.vertices at ≡ false }
        requires between { is_between (placed self.old.map.tables (number, line.now)) at ≡ true }
        requires taken { IsTaken map.now.tables border.now number }
        ensures drawn { OnOk result (IsUnderway map.now.tables border.now round self.new) }
        ensures taken { IfOk result (IsTaken map.now.tables border.now) }
        ensures refused { IfErr result (RefusesDrawing map.now.tables border.now.edges.items) }
    {
        let vertex = self.map.count(Kind::Vertex) as u16;
        let new = self.map.count(Kind::Line) as u16;
        let split = LineSplit { line: number, at };
        try_split(&mut self.map, &split, line)?;
        self.vertices.push(at)?;
        self.lines[usize::from(number)] = Line {
            v2: vertex,
            ..*line
        };
        self.lines.push(Line {
            v1: vertex,
            ..*line
        })?;
        self.commands.push(Command::Split(split))?;
        Ok(new)
    }

    // Cuts this line, which has the number, in two at a vertex, and answers the number of the new line.
    fn cut_at(
        &mut self,
        map: &Map,
        border: &Border,
        round: Option<u16>,
        number: u16,
        line: &Line,
        vertex: u16,
    ) -> Result<u16, AreaError>
        requires drawn { IsUnderway map.now.tables border.now round self.old }
        requires number { number ≤ 32766 }
        requires line { slice_get self.old.map.tables.lines number ≡ Some line.now }
        requires range { IsLine line.now }
        requires vertex { vertex ≤ 32766 }
        requires there { vertex < length self.old.map.tables.vertices }
        requires between { is_between (placed self.old.map.tables (number, line.now))
            (nth_vertex self.old.map.tables.vertices vertex) ≡ true }
        requires taken { IsTaken map.now.tables border.now number }
        ensures drawn { OnOk result (IsUnderway map.now.tables border.now round self.new) }
        ensures taken { IfOk result (IsTaken map.now.tables border.now) }
        ensures refused { IfErr result (RefusesDrawing map.now.tables border.now.edges.items) }
    {
        let new = self.map.count(Kind::Line) as u16;
        let short = Line {
            v2: vertex,
            ..*line
        };
        let rest = Line {
            v1: vertex,
            ..*line
        };
        self.put(map, border, Edit::Set(number, Item::Line(short)))?;
        self.lines[usize::from(number)] = short;
        self.put(map, border, Edit::Add(Item::Line(rest)))?;
        self.lines.push(rest)?;
        Ok(new)
    }

    // Cuts a line at a place, if that lies between its ends, and answers the number of the part behind the place.
    fn cut(
        &mut self,
        map: &Map,
        border: &Border,
        round: Option<u16>,
        number: u16,
        at: Vertex,
    ) -> Result<u16, AreaError>
        requires drawn { IsUnderway map.now.tables border.now round self.old }
        requires place { IsOnBorder border.now.edges.items at }
        requires taken { IsTaken map.now.tables border.now number }
        ensures drawn { OnOk result (IsUnderway map.now.tables border.now round self.new) }
        ensures taken { IfOk result (IsTaken map.now.tables border.now) }
        ensures refused { IfErr result (RefusesDrawing map.now.tables border.now.edges.items) }
    {
        if self.map.count(Kind::Line) <= u32::from(number) {
            return Ok(number);
        }
        let line = self.map.line(u32::from(number)).unwrap();
        if !is_between(&placed(&self.map, u32::from(number), &line), at) {
            return Ok(number);
        }
        match find_vertex(&self.vertices, at) {
            Some(vertex) => self.cut_at(map, border, round, number, &line, vertex),
            None => self.split(map, border, round, number, &line, at),
        }
    }

    // Cuts the line at these places, which lie along it in order.
    fn cut_line(
        &mut self,
        map: &Map,
        border: &Border,
        round: Option<u16>,
        number: u16,
        cuts: &[Vertex],
    ) -> Result<(), AreaError>
        requires drawn { IsUnderway map.now.tables border.now round self.old }
        requires places { All (IsOnBorder border.now.edges.items) cuts.now }
        requires taken { IsTaken map.now.tables border.now number }
        ensures drawn { OnOk result (IsUnderway map.now.tables border.now round self.new) }
        ensures refused { IfErr result (RefusesDrawing map.now.tables border.now.edges.items) }
    {
        let mut number = number;
        for cut in cuts {
            match self.cut(map, border, round, number, *cut) {
                Ok(rest) => number = rest,
                Err(error) => return Err(error),
            }
        }
        Ok(())
    }

    // Cuts the line so, unless the border leaves it alone.
    fn cut_if_taken(
        &mut self,
        map: &Map,
        ground: &Ground,
        border: &Border,
        round: Option<u16>,
        number: u16,
        cuts: &[Vertex],
    ) -> Result<(), AreaError>
        requires drawn { IsUnderway map.now.tables border.now round self.old }
        requires places { All (IsOnBorder border.now.edges.items) cuts.now }
        requires lines { ground.now.lines.items ≡ placed_lines map.now.tables }
        ensures drawn { OnOk result (IsUnderway map.now.tables border.now round self.new) }
        ensures refused { IfErr result (RefusesDrawing map.now.tables border.now.edges.items) }
    {
        if cuts.is_empty() || is_left_alone(map, ground, border, number) {
            return Ok(());
        }
        self.cut_line(map, border, round, number, cuts)
    }

    /// Cuts each line where the border is cut.
    pub(crate) fn cut_lines(
        &mut self,
        alloc: Global,
        map: &Map,
        ground: &Ground,
        border: &Border,
        round: Option<u16>,
    ) -> Result<(), AreaError>
        requires drawn { IsUnderway map.now.tables border.now round self.old }
        requires stops { All (IsOnBorder border.now.edges.items) border.now.stops.items }
        requires lines { ground.now.lines.items ≡ placed_lines map.now.tables }
        ensures drawn { OnOk result (IsUnderway map.now.tables border.now round self.new) }
        ensures refused { IfErr result (RefusesDrawing map.now.tables border.now.edges.items) }
    {
        for line in &ground.lines {
            let cuts = cuts_of(alloc, &border.stops, line)?;
            match self.cut_if_taken(map, ground, border, round, number_of(line), &cuts) {
                Ok(()) => {}
                Err(error) => return Err(error),
            }
        }
        Ok(())
    }
}
