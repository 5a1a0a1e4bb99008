//! Turning the sides inside a border to the new sector.
ghost use Rattle.std.specs.Prelude.{◌≡◌, IfErr, OnOk};
ghost use Rattle.map_areas.specs.Drawings.{IsUnderway, IsPaint, IsTaken, KeepsLinesBut, KeepsWalls};
ghost use Rattle.map_areas.specs.Drawn.{RefusesDrawing};
ghost use Rattle.map_plane.specs.Places.{placed_lines};

use crate::alone::is_left_alone;
use crate::along::is_free;
use crate::border::Border;
use crate::cut_lines::number_of;
use crate::drawing::Drawing;
use crate::error::AreaError;
use crate::sharing::Paint;
use crate::ways::Ground;
use map_plane::PlacedLine;
use map_tables::Map;

impl Drawing {
    // Lets one side of a line face the new sector, if it faces the one round the border.
    fn turn_side(
        &mut self,
        map: &Map,
        border: &Border,
        paint: &Paint,
        number: u16,
        on_right: bool,
    ) -> Result<(), AreaError>
        requires drawn { IsUnderway map.now.tables border.now paint.now.round self.old }
        requires paint { IsPaint map.now.tables paint.now }
        requires taken { IsTaken map.now.tables border.now number }
        ensures drawn { OnOk result
            (IsUnderway map.now.tables border.now paint.now.round self.new) }
        ensures kept { OnOk result
            (KeepsLinesBut number self.old.map.tables self.new.map.tables) }
        ensures refused { IfErr result (RefusesDrawing map.now.tables border.now.edges.items) }
    {
        let Some(which) = self.line_side(number, on_right) else {
            return Ok(());
        };
        if paint.round != Some(which.side.sector) {
            return Ok(());
        }
        self.face(map, border, paint, &which)?;
        Ok(())
    }

    // Does so on both sides of a line of which no side faces the new sector, unless the border leaves it alone.
    fn turn_line(
        &mut self,
        map: &Map,
        ground: &Ground,
        border: &Border,
        paint: &Paint,
        number: u16,
    ) -> Result<(), AreaError>
        requires lines { ground.now.lines.items ≡ placed_lines map.now.tables }
        requires drawn { IsUnderway map.now.tables border.now paint.now.round self.old }
        requires paint { IsPaint map.now.tables paint.now }
        ensures drawn { OnOk result
            (IsUnderway map.now.tables border.now paint.now.round self.new) }
        ensures kept { OnOk result (KeepsWalls map.now.tables paint.now.sector
            self.old.map.tables self.new.map.tables) }
        ensures refused { IfErr result (RefusesDrawing map.now.tables border.now.edges.items) }
    {
        let Some(line) = self.map.line(u32::from(number)) else {
            return Ok(());
        };
        if !is_free(&self.map, paint.sector, &line) || is_left_alone(map, ground, border, number) {
            return Ok(());
        }
        self.turn_side(map, border, paint, number, true)?;
        self.turn_side(map, border, paint, number, false)?;
        Ok(())
    }

    /// Lets the sides inside the border that faced the sector round it face the new one. The lines are those of the
    /// copy, after the cuts.
    pub(crate) fn turn_inside(
        &mut self,
        map: &Map,
        ground: &Ground,
        border: &Border,
        paint: &Paint,
        lines: &[PlacedLine],
    ) -> Result<(), AreaError>
        requires lines { ground.now.lines.items ≡ placed_lines map.now.tables }
        requires drawn { IsUnderway map.now.tables border.now paint.now.round self.old }
        requires paint { IsPaint map.now.tables paint.now }
        ensures drawn { OnOk result
            (IsUnderway map.now.tables border.now paint.now.round self.new) }
        ensures kept { OnOk result (KeepsWalls map.now.tables paint.now.sector
            self.old.map.tables self.new.map.tables) }
        ensures refused { IfErr result (RefusesDrawing map.now.tables border.now.edges.items) }
    {
        if paint.round.is_none() {
            return Ok(());
        }
        for line in lines {
            if border.holds_middle(line.from, line.to) {
                match self.turn_line(map, ground, border, paint, number_of(line)) {
                    Ok(()) => {}
                    Err(error) => return Err(error),
                }
            }
        }
        Ok(())
    }
}
