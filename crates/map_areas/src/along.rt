//! Drawing lines along a border: those that are there where they can be shared, and else new ones.
ghost use Rattle.std.specs.Prelude.{◌≡◌, ◌≢◌, ◌≤◌, ◌<◌, ◌⊎◌, All, if◌then◌else◌, IfErr, IfOk, IfSome, IsTrue, None, OnOk, Some, false, length, not, true};
ghost use Rattle.lump_records.specs.Sides.{no_side};
ghost use Rattle.map_areas.specs.Apart.{doubled};
ghost use Rattle.map_areas.specs.Bordered.{faces_sector, is_walled, leads};
ghost use Rattle.map_areas.specs.Cuts.{IsLed, IsWalled};
ghost use Rattle.map_areas.specs.Drawings.{IsCutOnBorder, IsUnderway, IsUnfaced, IsOnBorder, IsPaint, IsShared, IsSideOf, KeepsLines, KeepsWalls, side_on};
ghost use Rattle.map_areas.specs.Drawn.{RefusesDrawing};
ghost use Rattle.map_areas.specs.Ways.{is_left_of_way, is_same, sector_by_side, sector_on_right, way};
ghost use Rattle.map_plane.specs.Meeting.{is_at};
ghost use Rattle.map_plane.specs.Places.{placed_lines};

use crate::alone::is_left_alone;
use crate::border::{Border, CutEdge};
use crate::cut_lines::number_of;
use crate::drawing::Drawing;
use crate::error::AreaError;
use crate::sharing::{LineSide, Paint, side_on};
use crate::walls::{open_side, solid_side, wall_between};
use crate::ways::{Ground, is_left_of_way, left_of_way, placed, sector_by_side, way};
use lump_records::{Line, NO_SIDE};
use map_plane::{PlacedLine, is_at};
use map_tables::Map;

// Whether there is a side with this number that faces the sector.
fn faces_sector(map: &Map, side: u16, sector: u16) -> bool
    ensures { result ≡ faces_sector map.now.tables side sector }
{
    match map.side(u32::from(side)) {
        Some(side) => side.sector == sector,
        None => false,
    }
}

/// Whether neither side of the line faces the sector.
pub(crate) fn is_free(map: &Map, sector: u16, line: &Line) -> bool
    ensures { IsTrue result → IsUnfaced map.now.tables sector line.now }
{
    !faces_sector(map, line.right, sector) && !faces_sector(map, line.left, sector)
}

// Whether the line leads the whole way: there if it runs so, or else back.
fn leads(runs: bool, way: &PlacedLine, line: &PlacedLine) -> bool
    ensures { result ≡ leads (if runs then way.now.from else way.now.to)
        (if runs then way.now.to else way.now.from) line.now }
{
    if runs {
        is_at(line.from, way.from) && is_at(line.to, way.to)
    } else {
        is_at(line.from, way.to) && is_at(line.to, way.from)
    }
}

impl Drawing {
    // Whether the line of which this is a side leads the whole way, and an area may take the side.
    fn is_shared(
        &self,
        map: &Map,
        ground: &Ground,
        border: &Border,
        paint: &Paint,
        way: &PlacedLine,
        runs: bool,
        which: &LineSide,
    ) -> bool
        requires lines { ground.now.lines.items ≡ placed_lines map.now.tables }
        requires doubled { ground.now.doubled.items ≡ doubled (placed_lines map.now.tables) }
        requires own { IsSideOf self.now.map.tables which.now }
        ensures { IsTrue result → IsShared map.now.tables border.now paint.now.sector
            self.now.map.tables way.now runs which.now }
    {
        let line = placed(&self.map, u32::from(which.number), &which.line);
        if !leads(runs, way, &line) {
            return false;
        }
        if !is_free(&self.map, paint.sector, &which.line) {
            return false;
        }
        let outer = sector_by_side(&self.map, side_on(!runs, &which.line));
        if !is_left_of_way(map, ground, way, outer) {
            return false;
        }
        !is_left_alone(map, ground, border, which.number)
    }

    // The side of a line that leads the whole way, and shows on the right of the way this sector, which is round the
    // border.
    fn faced_along(
        &self,
        map: &Map,
        ground: &Ground,
        border: &Border,
        paint: &Paint,
        way: &PlacedLine,
        line: &PlacedLine,
    ) -> Option<LineSide>
        requires lines { ground.now.lines.items ≡ placed_lines map.now.tables }
        requires doubled { ground.now.doubled.items ≡ doubled (placed_lines map.now.tables) }
        ensures shared { IfSome result (λ s. IsShared map.now.tables border.now paint.now.sector
            self.now.map.tables way.now s.on_right s) }
        ensures round { IfSome result (λ s. paint.now.round ≡ Some s.side.sector) }
    {
        let runs = leads(true, way, line);
        if !runs && !leads(false, way, line) {
            return None;
        }
        let which = self.line_side(number_of(line), runs)?;
        if paint.round == Some(which.side.sector)
            && self.is_shared(map, ground, border, paint, way, which.on_right, &which)
        {
            Some(which)
        } else {
            None
        }
    }

    // The right side of a line that leads the whole way back, and has no left one.
    fn closed_along(
        &self,
        map: &Map,
        ground: &Ground,
        border: &Border,
        paint: &Paint,
        way: &PlacedLine,
        line: &PlacedLine,
    ) -> Option<LineSide>
        requires lines { ground.now.lines.items ≡ placed_lines map.now.tables }
        requires doubled { ground.now.doubled.items ≡ doubled (placed_lines map.now.tables) }
        ensures shared { IfSome result (IsShared map.now.tables border.now paint.now.sector
            self.now.map.tables way.now false) }
        ensures right { IfSome result (λ s. s.on_right ≡ true) }
        ensures left { IfSome result (λ s. s.line.left ≡ no_side) }
    {
        if !leads(false, way, line) {
            return None;
        }
        let which = self.line_side(number_of(line), true)?;
        if which.line.left == NO_SIDE
            && self.is_shared(map, ground, border, paint, way, false, &which)
        {
            Some(which)
        } else {
            None
        }
    }

    // The first of the lines of which that can be had.
    fn find_faced(
        &self,
        map: &Map,
        ground: &Ground,
        border: &Border,
        paint: &Paint,
        way: &PlacedLine,
        lines: &[PlacedLine],
    ) -> Option<LineSide>
        requires lines { ground.now.lines.items ≡ placed_lines map.now.tables }
        requires doubled { ground.now.doubled.items ≡ doubled (placed_lines map.now.tables) }
        ensures shared { IfSome result (λ s. IsShared map.now.tables border.now paint.now.sector
            self.now.map.tables way.now s.on_right s) }
        ensures round { IfSome result (λ s. paint.now.round ≡ Some s.side.sector) }
    {
        for line in lines {
            match self.faced_along(map, ground, border, paint, way, line) {
                Some(which) => return Some(which),
                None => {}
            }
        }
        None
    }

    // The first of the lines of which this can be had.
    fn find_closed(
        &self,
        map: &Map,
        ground: &Ground,
        border: &Border,
        paint: &Paint,
        way: &PlacedLine,
        lines: &[PlacedLine],
    ) -> Option<LineSide>
        requires lines { ground.now.lines.items ≡ placed_lines map.now.tables }
        requires doubled { ground.now.doubled.items ≡ doubled (placed_lines map.now.tables) }
        ensures shared { IfSome result (IsShared map.now.tables border.now paint.now.sector
            self.now.map.tables way.now false) }
        ensures right { IfSome result (λ s. s.on_right ≡ true) }
        ensures left { IfSome result (λ s. s.line.left ≡ no_side) }
    {
        for line in lines {
            match self.closed_along(map, ground, border, paint, way, line) {
                Some(which) => return Some(which),
                None => {}
            }
        }
        None
    }

    // Draws the sides of a new line: the new sector's on the right, and on the left one that faces this sector, or none
    // in the void.
    fn add_sides(
        &mut self,
        map: &Map,
        border: &Border,
        paint: &Paint,
        outer: Option<u16>,
    ) -> Result<(u16, u16), AreaError>
        requires drawn { IsUnderway map.now.tables border.now paint.now.round self.old }
        requires paint { IsPaint map.now.tables paint.now }
        requires outer { IfSome outer (λ s. s < length map.now.tables.sectors) }
        ensures drawn { OnOk result
            (IsUnderway map.now.tables border.now paint.now.round self.new) }
        ensures right { IfOk result (λ sides. sides.0 ≤ 32766) }
        ensures left { IfOk result (λ sides. (sides.1 ≤ 32766) ⊎ (sides.1 ≡ no_side)) }
        ensures there { IfOk result (λ sides. sides.1 ≢ no_side
            → sides.1 < length self.new.map.tables.sides) }
        ensures inner { IfOk result
            (λ sides. sector_by_side self.new.map.tables sides.0 ≡ Some paint.now.sector) }
        ensures outer { IfOk result (λ sides. sector_by_side self.new.map.tables sides.1 ≡ outer) }
        ensures kept { OnOk result (KeepsLines self.old.map.tables self.new.map.tables) }
        ensures vertices { OnOk result
            (self.new.map.tables.vertices ≡ self.old.map.tables.vertices) }
        ensures refused { IfErr result (RefusesDrawing map.now.tables border.now.edges.items) }
    {
        let Some(outer) = outer else {
            let inner = solid_side(paint.wall, paint.sector);
            let right = self.add_side(map, border, paint.round, inner)?;
            return Ok((right, NO_SIDE));
        };
        let inner = open_side(paint.wall, paint.sector);
        let right = self.add_side(map, border, paint.round, inner)?;
        let outer = open_side(paint.wall, outer);
        let left = self.add_side(map, border, paint.round, outer)?;
        Ok((right, left))
    }

    // Draws a new line along the whole way.
    fn draw_wall(
        &mut self,
        map: &Map,
        ground: &Ground,
        border: &Border,
        paint: &Paint,
        way: &PlacedLine,
    ) -> Result<(), AreaError>
        requires lines { ground.now.lines.items ≡ placed_lines map.now.tables }
        requires drawn { IsUnderway map.now.tables border.now paint.now.round self.old }
        requires paint { IsPaint map.now.tables paint.now }
        requires from { IsOnBorder border.now.edges.items way.now.from }
        requires to { IsOnBorder border.now.edges.items way.now.to }
        requires apart { is_at way.now.from way.now.to ≡ false }
        requires led { is_same (sector_on_right map.now.tables way.now) paint.now.round ≡ true }
        ensures drawn { OnOk result
            (IsUnderway map.now.tables border.now paint.now.round self.new) }
        ensures walled { OnOk result (is_walled map.now.tables self.new.map.tables
            paint.now.sector way.now ≡ true) }
        ensures kept { OnOk result (KeepsWalls map.now.tables paint.now.sector
            self.old.map.tables self.new.map.tables) }
        ensures refused { IfErr result (RefusesDrawing map.now.tables border.now.edges.items) }
    {
        let outer = left_of_way(map, ground, way, paint.round);
        let v1 = self.vertex_at(map, border, paint.round, way.from)?;
        let v2 = self.vertex_at(map, border, paint.round, way.to)?;
        let (right, left) = self.add_sides(map, border, paint, outer)?;
        let line = wall_between(v1, v2, right, left);
        self.add_line(map, border, paint.round, line)?;
        Ok(())
    }

    // Draws a part of the border: along a line that is there, or as a new one.
    fn draw_along(
        &mut self,
        map: &Map,
        ground: &Ground,
        border: &Border,
        paint: &Paint,
        way: &PlacedLine,
        lines: &[PlacedLine],
    ) -> Result<(), AreaError>
        requires lines { ground.now.lines.items ≡ placed_lines map.now.tables }
        requires doubled { ground.now.doubled.items ≡ doubled (placed_lines map.now.tables) }
        requires drawn { IsUnderway map.now.tables border.now paint.now.round self.old }
        requires paint { IsPaint map.now.tables paint.now }
        requires from { IsOnBorder border.now.edges.items way.now.from }
        requires to { IsOnBorder border.now.edges.items way.now.to }
        requires apart { is_at way.now.from way.now.to ≡ false }
        requires led { is_same (sector_on_right map.now.tables way.now) paint.now.round ≡ true }
        ensures drawn { OnOk result
            (IsUnderway map.now.tables border.now paint.now.round self.new) }
        ensures walled { OnOk result (is_walled map.now.tables self.new.map.tables
            paint.now.sector way.now ≡ true) }
        ensures kept { OnOk result (KeepsWalls map.now.tables paint.now.sector
            self.old.map.tables self.new.map.tables) }
        ensures refused { IfErr result (RefusesDrawing map.now.tables border.now.edges.items) }
    {
        match paint.round {
            Some(_) => match self.find_faced(map, ground, border, paint, way, lines) {
                Some(which) => {
                    self.face(map, border, paint, &which)?;
                    Ok(())
                }
                None => self.draw_wall(map, ground, border, paint, way),
            },
            None => match self.find_closed(map, ground, border, paint, way, lines) {
                Some(which) => {
                    self.open(map, border, paint, &which)?;
                    Ok(())
                }
                None => self.draw_wall(map, ground, border, paint, way),
            },
        }
    }

    // Draws the parts of an edge. The lines are those of the copy, after the cuts.
    fn draw_edge(
        &mut self,
        map: &Map,
        ground: &Ground,
        border: &Border,
        paint: &Paint,
        cut: &CutEdge,
        lines: &[PlacedLine],
    ) -> Result<(), AreaError>
        requires lines { ground.now.lines.items ≡ placed_lines map.now.tables }
        requires doubled { ground.now.doubled.items ≡ doubled (placed_lines map.now.tables) }
        requires drawn { IsUnderway map.now.tables border.now paint.now.round self.old }
        requires paint { IsPaint map.now.tables paint.now }
        requires places { IsCutOnBorder border.now.edges.items cut.now }
        requires led { IsLed map.now.tables paint.now.round cut.now }
        ensures drawn { OnOk result
            (IsUnderway map.now.tables border.now paint.now.round self.new) }
        ensures walled { OnOk result (IsWalled map.now.tables self.new.map.tables
            paint.now.sector cut.now) }
        ensures kept { OnOk result (KeepsWalls map.now.tables paint.now.sector
            self.old.map.tables self.new.map.tables) }
        ensures refused { IfErr result (RefusesDrawing map.now.tables border.now.edges.items) }
    {
        let mut at = cut.edge.from;
        for place in &cut.cuts {
            match self.draw_along(map, ground, border, paint, &way(at, *place), lines) {
                Ok(()) => {}
                Err(error) => return Err(error),
            }
            at = *place;
        }
        self.draw_along(map, ground, border, paint, &way(at, cut.edge.to), lines)?;
        Ok(())
    }

    /// Draws the border. The lines are those of the copy, after the cuts.
    pub(crate) fn draw_border(
        &mut self,
        map: &Map,
        ground: &Ground,
        border: &Border,
        paint: &Paint,
        lines: &[PlacedLine],
    ) -> Result<(), AreaError>
        requires lines { ground.now.lines.items ≡ placed_lines map.now.tables }
        requires doubled { ground.now.doubled.items ≡ doubled (placed_lines map.now.tables) }
        requires drawn { IsUnderway map.now.tables border.now paint.now.round self.old }
        requires paint { IsPaint map.now.tables paint.now }
        requires edges { All (IsCutOnBorder border.now.edges.items) border.now.cut_edges.items }
        requires led { All (IsLed map.now.tables paint.now.round) border.now.cut_edges.items }
        ensures drawn { OnOk result
            (IsUnderway map.now.tables border.now paint.now.round self.new) }
        ensures walled { OnOk result (All (IsWalled map.now.tables self.new.map.tables
            paint.now.sector) border.now.cut_edges.items) }
        ensures refused { IfErr result (RefusesDrawing map.now.tables border.now.edges.items) }
    {
        for cut in &border.cut_edges {
            match self.draw_edge(map, ground, border, paint, cut, lines) {
                Ok(()) => {}
                Err(error) => return Err(error),
            }
        }
        Ok(())
    }
}
