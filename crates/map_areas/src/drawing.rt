//! Drawing into a copy of the map: each command comes out once the copy has accepted it.
ghost use Rattle.std.specs.Prelude.{◌≡◌, ◌<◌, ◌≤◌, ℕ, All, false, IfErr, IfOk, IfSome, None, OnOk, Some, length, slice_get};
ghost use Rattle.lump_records.specs.Sides.{no_side};
ghost use Rattle.lump_records.specs.declared.records.Line.{Line};
ghost use Rattle.lump_records.specs.declared.records.Side.{Side};
ghost use Rattle.lump_records.specs.declared.records.Vertex.{Vertex};
ghost use Rattle.map_areas.specs.Drawings.{BecamePart, IsUnderway, IsFitting, IsLedOn, IsOnBorder, IsRefusedForRoom, IsSole, IsTaken, KeepsLines, KeepsLinesBut};
ghost use Rattle.map_areas.specs.Drawn.{DrawsOn, IsFaultOf, RefusesDrawing, TakesCommand};
ghost use Rattle.map_areas.specs.Stays.{BecomesSide, IsDrawing};
ghost use Rattle.map_commands.specs.declared.command.Command.TheVariants as command;
ghost use Rattle.map_tables.specs.Faults.{is_taken};
ghost use Rattle.map_tables.specs.Ranges.{IsEdit, IsLine, IsSector, IsSide};

use crate::border::Border;
use crate::error::AreaError;
use crate::lists::copy_of;
use crate::ways::Ground;
use lump_records::{Line, Sector, Side, Vertex};
use map_commands::Command;
use map_plane::is_at;
use map_tables::{Edit, Item, Kind, Map};
use std::alloc::Global;

/// A copy of a map, its vertices and lines as lists, which are searched often, and the commands that were drawn into
/// it.
#[derive(Drop)]
pub(crate) struct Drawing {
    pub map: Map,
    pub vertices: Vec<Vertex>,
    pub lines: Vec<Line>,
    pub commands: Vec<Command>,
}

/// A drawing over the map, with one more sector.
pub(crate) fn drawing_of(
    alloc: Global,
    map: &Map,
    ground: &Ground,
    border: &Border,
    round: Option<u16>,
    sector: Sector,
) -> Result<Drawing, AreaError>
    requires vertices { ground.now.vertices.items ≡ map.now.tables.vertices }
    requires lines { ground.now.records.items ≡ map.now.tables.lines }
    requires sector { IsSector sector }
    ensures drawn { IfOk result (IsUnderway map.now.tables border.now round) }
    ensures room { OnOk result (length map.now.tables.sectors ≤ 4095) }
    ensures refused { IfErr result (RefusesDrawing map.now.tables border.now.edges.items) }
{
    let mut copy = map.copy(alloc)?;
    let edit = Edit::Add(Item::Sector(sector));
    try_edit(&mut copy, &edit)?;
    let mut commands = Vec::new(alloc);
    commands.push(Command::Edit(edit))?;
    Ok(Drawing {
        map: copy,
        vertices: copy_of(alloc, &ground.vertices)?,
        lines: copy_of(alloc, &ground.records)?,
        commands,
    })
}

// Makes an edit of one item.
#[tactic(auto, using(crate::proofs::Refused::edit_fault))]
fn try_edit(map: &mut Map, edit: &Edit) -> Result<(), AreaError>
    requires range { IsEdit edit.now }
    requires draws { IsDrawing edit.now }
    ensures taken { OnOk result
        (TakesCommand map.old.tables (command.Edit edit.now) map.new.tables) }
    ensures refused { IfErr result (IsFaultOf map.old.tables (command.Edit edit.now)) }
{
    map.edit(*edit)?;
    Ok(())
}

/// The number of the vertex at the place, if one stands there.
pub(crate) fn find_vertex(vertices: &[Vertex], place: Vertex) -> Option<u16>
    requires { length vertices.now ≤ 32767 }
    ensures there { IfSome result (λ n. slice_get vertices.now n ≡ Some place) }
    ensures number { IfSome result (λ n. n ≤ 32766) }
    ensures free { result ≡ None → is_taken vertices.now place ≡ false }
{
    for n in 0..vertices.len() {
        if is_at(vertices[n], place) {
            return Some(n as u16);
        }
    }
    None
}

impl Drawing {
    /// The commands that were drawn.
    pub(crate) fn into_commands(self) -> Vec<Command>
        ensures { result ≡ self.commands }
    {
        let Drawing {
            map: _map,
            vertices: _vertices,
            lines: _lines,
            commands,
        } = self;
        commands
    }

    /// Makes an edit, if the copy accepts it, and notes its command.
    pub(crate) fn put(&mut self, map: &Map, border: &Border, edit: Edit) -> Result<(), AreaError>
        requires led { IsLedOn map.now.tables border.now self.old }
        requires draws { DrawsOn border.now.edges.items (command.Edit edit) }
        requires fits { IsRefusedForRoom self.old.map.tables (command.Edit edit) }
        ensures led { OnOk result (IsLedOn map.now.tables border.now self.new) }
        ensures taken { OnOk result
            (TakesCommand self.old.map.tables (command.Edit edit) self.new.map.tables) }
        ensures vertices { self.new.vertices ≡ self.old.vertices }
        ensures lines { self.new.lines ≡ self.old.lines }
        ensures refused { IfErr result (RefusesDrawing map.now.tables border.now.edges.items) }
    {
        try_edit(&mut self.map, &edit)?;
        self.commands.push(Command::Edit(edit))?;
        Ok(())
    }

    /// The number of the vertex at the place, which is drawn if none stands there.
    pub(crate) fn vertex_at(
        &mut self,
        map: &Map,
        border: &Border,
        round: Option<u16>,
        place: Vertex,
    ) -> Result<u16, AreaError>
        requires drawn { IsUnderway map.now.tables border.now round self.old }
        requires place { IsOnBorder border.now.edges.items place }
        ensures drawn { OnOk result (IsUnderway map.now.tables border.now round self.new) }
        ensures there { IfOk result (λ n. slice_get self.new.map.tables.vertices n ≡ Some place) }
        ensures number { IfOk result (λ n. n ≤ 32766) }
        ensures others { OnOk result ((n : ℕ) (p : Vertex)
            → slice_get self.old.map.tables.vertices n ≡ Some p
            → slice_get self.new.map.tables.vertices n ≡ Some p) }
        ensures kept { OnOk result (KeepsLines self.old.map.tables self.new.map.tables) }
        ensures lines { OnOk result (self.new.map.tables.lines ≡ self.old.map.tables.lines) }
        ensures refused { IfErr result (RefusesDrawing map.now.tables border.now.edges.items) }
    {
        let count = self.map.count(Kind::Vertex);
        if let Some(number) = find_vertex(&self.vertices, place) {
            return Ok(number);
        }
        self.put(map, border, Edit::Add(Item::Vertex(place)))?;
        self.vertices.push(place)?;
        Ok(count as u16)
    }

    /// Draws a vertex at each stop of the border where none is.
    pub(crate) fn add_stops(
        &mut self,
        map: &Map,
        border: &Border,
        round: Option<u16>,
    ) -> Result<(), AreaError>
        requires drawn { IsUnderway map.now.tables border.now round self.old }
        requires stops { All (IsOnBorder border.now.edges.items) border.now.stops.items }
        ensures drawn { OnOk result (IsUnderway map.now.tables border.now round self.new) }
        ensures refused { IfErr result (RefusesDrawing map.now.tables border.now.edges.items) }
    {
        for stop in &border.stops {
            match self.vertex_at(map, border, round, *stop) {
                Ok(_) => {}
                Err(error) => return Err(error),
            }
        }
        Ok(())
    }

    /// Draws a side, and answers its number.
    pub(crate) fn add_side(
        &mut self,
        map: &Map,
        border: &Border,
        round: Option<u16>,
        side: Side,
    ) -> Result<u16, AreaError>
        requires drawn { IsUnderway map.now.tables border.now round self.old }
        requires side { IsSide side }
        requires faced { side.sector < length self.old.map.tables.sectors }
        ensures drawn { OnOk result (IsUnderway map.now.tables border.now round self.new) }
        ensures there { IfOk result (λ n. slice_get self.new.map.tables.sides n ≡ Some side) }
        ensures none { OnOk result (slice_get self.new.map.tables.sides no_side ≡ None) }
        ensures count { OnOk result
            (length self.old.map.tables.sides ≤ length self.new.map.tables.sides) }
        ensures number { IfOk result (λ n. n ≤ 32766) }
        ensures others { OnOk result ((n : ℕ) (s : Side)
            → slice_get self.old.map.tables.sides n ≡ Some s
            → slice_get self.new.map.tables.sides n ≡ Some s) }
        ensures kept { OnOk result (KeepsLines self.old.map.tables self.new.map.tables) }
        ensures vertices { OnOk result
            (self.new.map.tables.vertices ≡ self.old.map.tables.vertices) }
        ensures lines { OnOk result (self.new.map.tables.lines ≡ self.old.map.tables.lines) }
        ensures refused { IfErr result (RefusesDrawing map.now.tables border.now.edges.items) }
    {
        let count = self.map.count(Kind::Side);
        self.put(map, border, Edit::Add(Item::Side(side)))?;
        Ok(count as u16)
    }

    /// Draws a line, and answers its number.
    pub(crate) fn add_line(
        &mut self,
        map: &Map,
        border: &Border,
        round: Option<u16>,
        line: Line,
    ) -> Result<u16, AreaError>
        requires drawn { IsUnderway map.now.tables border.now round self.old }
        requires line { IsLine line }
        requires fits { IsFitting self.old.map.tables line }
        ensures drawn { OnOk result (IsUnderway map.now.tables border.now round self.new) }
        ensures there { IfOk result (λ n. slice_get self.new.map.tables.lines n ≡ Some line) }
        ensures taken { IfOk result (IsTaken map.now.tables border.now) }
        ensures kept { OnOk result (KeepsLines self.old.map.tables self.new.map.tables) }
        ensures vertices { OnOk result
            (self.new.map.tables.vertices ≡ self.old.map.tables.vertices) }
        ensures sides { OnOk result (self.new.map.tables.sides ≡ self.old.map.tables.sides) }
        ensures refused { IfErr result (RefusesDrawing map.now.tables border.now.edges.items) }
    {
        let count = self.map.count(Kind::Line);
        self.put(map, border, Edit::Add(Item::Line(line)))?;
        self.lines.push(line)?;
        Ok(count as u16)
    }

    /// Changes the line with the number, which leads as before.
    pub(crate) fn set_line(
        &mut self,
        map: &Map,
        border: &Border,
        round: Option<u16>,
        number: u16,
        line: Line,
    ) -> Result<(), AreaError>
        requires drawn { IsUnderway map.now.tables border.now round self.old }
        requires number { number ≤ 32766 }
        requires line { IsLine line }
        requires fits { IsFitting self.old.map.tables line }
        requires here { number < length self.old.map.tables.lines }
        requires taken { IsTaken map.now.tables border.now number }
        requires part { (was is : Line) → slice_get self.old.map.tables.lines number ≡ Some is
            → BecamePart was is → BecamePart was line }
        requires ends { (is : Line) → slice_get self.old.map.tables.lines number ≡ Some is
            → (line.v1 ≡ is.v1) × (line.v2 ≡ is.v2) }
        ensures drawn { OnOk result (IsUnderway map.now.tables border.now round self.new) }
        ensures there { OnOk result
            (slice_get self.new.map.tables.lines number ≡ Some line) }
        ensures kept { OnOk result
            (KeepsLinesBut number self.old.map.tables self.new.map.tables) }
        ensures vertices { OnOk result
            (self.new.map.tables.vertices ≡ self.old.map.tables.vertices) }
        ensures sides { OnOk result (self.new.map.tables.sides ≡ self.old.map.tables.sides) }
        ensures refused { IfErr result (RefusesDrawing map.now.tables border.now.edges.items) }
    {
        self.put(map, border, Edit::Set(number, Item::Line(line)))?;
        self.lines[usize::from(number)] = line;
        Ok(())
    }

    /// Changes the side with the number, which no line but this one has.
    pub(crate) fn set_side(
        &mut self,
        map: &Map,
        border: &Border,
        round: Option<u16>,
        line: u16,
        number: u16,
        side: Side,
    ) -> Result<(), AreaError>
        requires drawn { IsUnderway map.now.tables border.now round self.old }
        requires number { number ≤ 32766 }
        requires side { IsSide side }
        requires faced { side.sector < length self.old.map.tables.sectors }
        requires here { number < length self.old.map.tables.sides }
        requires taken { IsTaken map.now.tables border.now line }
        requires sole { IsSole self.old.map.tables.lines line number }
        requires becomes { (was is : Side) → slice_get self.old.map.tables.sides number ≡ Some is
            → BecomesSide round (length map.now.tables.sectors) was is
            → BecomesSide round (length map.now.tables.sectors) was side }
        ensures drawn { OnOk result (IsUnderway map.now.tables border.now round self.new) }
        ensures there { OnOk result
            (slice_get self.new.map.tables.sides number ≡ Some side) }
        ensures count { OnOk result
            (length self.old.map.tables.sides ≤ length self.new.map.tables.sides) }
        ensures others { OnOk result ((n : ℕ) → (n ≡ number → ⊥)
            → slice_get self.new.map.tables.sides n ≡ slice_get self.old.map.tables.sides n) }
        ensures kept { OnOk result
            (KeepsLinesBut line self.old.map.tables self.new.map.tables) }
        ensures vertices { OnOk result
            (self.new.map.tables.vertices ≡ self.old.map.tables.vertices) }
        ensures lines { OnOk result (self.new.map.tables.lines ≡ self.old.map.tables.lines) }
        ensures refused { IfErr result (RefusesDrawing map.now.tables border.now.edges.items) }
    {
        self.put(map, border, Edit::Set(number, Item::Side(side)))?;
        Ok(())
    }
}
