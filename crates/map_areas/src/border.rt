//! The border of a polygon: its edges, and the places at which they are cut.
ghost use Rattle.std.specs.Prelude.{◌≡◌, ◌<◌, ◌≤◌, ◌&&◌, ◌||◌, ℕ, All, IfErr, IfOk, OnOk, false, length, slice_get, true};
ghost use Rattle.std.specs.List.{list_any};
ghost use Rattle.std.specs.Option.{option_map_or};
ghost use Rattle.lump_records.specs.declared.records.Vertex.{Vertex};
ghost use Rattle.map_areas.specs.Apart.{doubled, doubled_line, place_sum};
ghost use Rattle.map_areas.specs.Cuts.{IsCutWhole, are_cuts, is_cut_at, uncut};
ghost use Rattle.map_areas.specs.Inside.{holds_middle, is_border_stop};
ghost use Rattle.map_areas.specs.Order.{IsOfCrossing};
ghost use Rattle.map_areas.specs.Refusals.{AreEdgesRefused, CrossWhole, CrossesBetween, IsAreaRefusal, IsCrossingRefusal, IsEdgeRefusal};
ghost use Rattle.map_areas.specs.Stops.{crosses_at};
ghost use Rattle.map_areas.specs.Ways.{crosses_way, is_between};
ghost use Rattle.map_plane.specs.Meeting.{is_at, is_on};
ghost use Rattle.map_plane.specs.Places.{placed_lines};

use crate::crossing::near_crossing;
use crate::cuts::{cuts_of, put_along};
use crate::error::AreaError;
use crate::ways::{Ground, crosses_way, line_at};
use lump_records::Vertex;
use map_plane::{PlacedLine, is_inside, is_on, is_on_any};
use map_tables::{Kind, Map};
use std::alloc::{AllocError, Global};

/// An edge of a polygon, and the places between its ends at which it is cut, in order.
#[derive(Drop)]
pub(crate) struct CutEdge {
    pub edge: PlacedLine,
    pub cuts: Vec<Vertex>,
}

/// The edges of a polygon, clockwise, the same at twice the size, the same with where each is cut, and the places at
/// which they begin or are cut, in order.
#[derive(Drop)]
pub(crate) struct Border {
    pub edges: Vec<PlacedLine>,
    pub doubled: Vec<PlacedLine>,
    pub cut_edges: Vec<CutEdge>,
    pub stops: Vec<Vertex>,
}

/// The sum of two places: at twice the size it is in the middle of the two.
#[tactic(auto, unfolding(crate::specs::Apart::place_sum))]
pub(crate) fn sum(a: Vertex, b: Vertex) -> Vertex
    ensures { result ≡ place_sum a b }
{
    Vertex {
        x: a.x.saturating_add(b.x),
        y: a.y.saturating_add(b.y),
    }
}

// The line at twice the size.
#[tactic(auto, unfolding(crate::specs::Apart::doubled_line))]
fn doubled_line(line: &PlacedLine) -> PlacedLine
    ensures { result ≡ doubled_line line.now }
{
    PlacedLine {
        from: sum(line.from, line.from),
        to: sum(line.to, line.to),
        ..*line
    }
}

/// The lines at twice the size, so that each middle of two places is a place. No coordinate is greater than 16,384.
pub(crate) fn twice(alloc: Global, lines: &[PlacedLine]) -> Result<Vec<PlacedLine>, AllocError>
    ensures { IfOk result (λ twice. twice.items ≡ doubled lines.now) }
{
    let mut doubled = Vec::with_capacity(alloc, lines.len())?;
    for line in lines {
        doubled.push(doubled_line(line))?;
    }
    Ok(doubled)
}

// The whole place at which the edge crosses the line with the number.
fn crossing(edge: &PlacedLine, line: &PlacedLine, number: u16) -> Result<Vertex, AreaError>
    requires { crosses_way edge.now line.now ≡ true }
    ensures whole { IfOk result (λ place.
        (is_on edge.now place && is_on line.now place) ≡ true) }
    ensures refused { IfErr result (IsCrossingRefusal edge.now line.now number) }
{
    let near = near_crossing(edge, line);
    if is_on(edge, near) && is_on(line, near) {
        return Ok(near);
    }
    Err(AreaError::Crossing { line: number, near })
}

// Adds the place at which the edge crosses the line with the number, if it does.
fn put_crossing(
    stops: &mut Vec<Vertex>,
    lines: &[PlacedLine],
    edge: &PlacedLine,
    number: u32,
) -> Result<(), AreaError>
    requires { number ≤ 65535 }
    ensures those { OnOk result ((p : Vertex) → list_any (is_at p) stops.new.items
        ≡ (list_any (is_at p) stops.old.items || (is_between edge.now p
        && option_map_or (crosses_at edge.now p) (slice_get lines.now number) false))) }
    ensures order { OnOk result (are_cuts edge.now edge.now.from stops.old.items ≡ true
        → are_cuts edge.now edge.now.from stops.new.items ≡ true) }
    ensures whole { OnOk result (CrossesBetween lines.now edge.now number → ⊥) }
    ensures refused { IfErr result (IsEdgeRefusal lines.now edge.now) }
{
    let Some(line) = line_at(lines, number) else {
        return Ok(());
    };
    if !crosses_way(edge, &line) {
        return Ok(());
    }
    let place = crossing(edge, &line, number as u16)?;
    put_along(stops, edge, place)?;
    Ok(())
}

// Adds the places at which the edge crosses lines.
fn put_crossings(
    stops: &mut Vec<Vertex>,
    map: &Map,
    lines: &[PlacedLine],
    edge: &PlacedLine,
) -> Result<(), AreaError>
    requires { lines.now ≡ placed_lines map.now.tables }
    ensures those { OnOk result ((p : Vertex) → list_any (is_at p) stops.new.items
        ≡ (list_any (is_at p) stops.old.items
        || (is_between edge.now p && list_any (crosses_at edge.now p) lines.now))) }
    ensures order { OnOk result (are_cuts edge.now edge.now.from stops.old.items ≡ true
        → are_cuts edge.now edge.now.from stops.new.items ≡ true) }
    ensures whole { OnOk result ((n : ℕ) → CrossesBetween lines.now edge.now n → ⊥) }
    ensures refused { IfErr result (IsEdgeRefusal lines.now edge.now) }
{
    for n in 0..map.count(Kind::Line) {
        match put_crossing(stops, lines, edge, n) {
            Ok(()) => {}
            Err(error) => return Err(error),
        }
    }
    Ok(())
}

// The edge, cut at the vertices on it and at its crossings with lines.
fn cut_edge(
    alloc: Global,
    map: &Map,
    ground: &Ground,
    edge: &PlacedLine,
) -> Result<CutEdge, AreaError>
    requires vertices { ground.now.vertices.items ≡ map.now.tables.vertices }
    requires lines { ground.now.lines.items ≡ placed_lines map.now.tables }
    requires long { is_at edge.now.from edge.now.to ≡ false }
    ensures edge { IfOk result (λ cut. cut.edge ≡ edge.now) }
    ensures cut { IfOk result (IsCutWhole map.now.tables) }
    ensures whole { OnOk result
        ((n : ℕ) → CrossesBetween (placed_lines map.now.tables) edge.now n → ⊥) }
    ensures refused { IfErr result (IsEdgeRefusal (placed_lines map.now.tables) edge.now) }
{
    let mut cuts = cuts_of(alloc, &ground.vertices, edge)?;
    put_crossings(&mut cuts, map, &ground.lines, edge)?;
    Ok(CutEdge { edge: *edge, cuts })
}

// The edges, in order round the polygon, each with where it is cut.
fn cut_all(
    alloc: Global,
    map: &Map,
    ground: &Ground,
    edges: &[PlacedLine],
) -> Result<Vec<CutEdge>, AreaError>
    requires vertices { ground.now.vertices.items ≡ map.now.tables.vertices }
    requires lines { ground.now.lines.items ≡ placed_lines map.now.tables }
    requires long { All (λ e. is_at e.from e.to ≡ false) edges.now }
    ensures edges { IfOk result (λ cut. uncut cut.items ≡ edges.now) }
    ensures cut { IfOk result (λ cut. All (IsCutWhole map.now.tables) cut.items) }
    ensures whole { OnOk result (CrossWhole (placed_lines map.now.tables) edges.now) }
    ensures refused { IfErr result (AreEdgesRefused (placed_lines map.now.tables) edges.now) }
{
    let mut all = Vec::with_capacity(alloc, edges.len())?;
    for edge in edges {
        match cut_edge(alloc, map, ground, edge) {
            Ok(cut) => all.push(cut)?,
            Err(error) => return Err(error),
        }
    }
    Ok(all)
}

// Where the edges are cut, in order round the polygon, and where they begin.
fn stops_of(alloc: Global, cut_edges: &[CutEdge]) -> Result<Vec<Vertex>, AllocError>
    ensures { IfOk result (λ stops. (p : Vertex)
        → list_any (is_at p) stops.items ≡ is_cut_at cut_edges.now p) }
{
    let mut stops = Vec::new(alloc);
    for cut in cut_edges {
        stops.push(cut.edge.from)?;
        stops.extend_from_slice(&cut.cuts)?;
    }
    Ok(stops)
}

/// The border of the polygon with these edges. Refused if an edge crosses a line at no whole place.
pub(crate) fn border_of(
    alloc: Global,
    map: &Map,
    ground: &Ground,
    edges: Vec<PlacedLine>,
) -> Result<Border, AreaError>
    requires vertices { ground.now.vertices.items ≡ map.now.tables.vertices }
    requires lines { ground.now.lines.items ≡ placed_lines map.now.tables }
    requires some { 0 < length edges.items }
    requires long { All (λ e. is_at e.from e.to ≡ false) edges.items }
    ensures edges { IfOk result (λ border. border.edges.items ≡ edges.items) }
    ensures doubled { IfOk result (λ border. border.doubled.items ≡ doubled edges.items) }
    ensures cut_edges { IfOk result (λ border. uncut border.cut_edges.items ≡ edges.items) }
    ensures some { IfOk result (λ border. 0 < length border.cut_edges.items) }
    ensures cut { IfOk result (λ border.
        All (IsCutWhole map.now.tables) border.cut_edges.items) }
    ensures stops { IfOk result (λ border. (p : Vertex) → list_any (is_at p) border.stops.items
        ≡ is_border_stop map.now.tables edges.items p) }
    ensures whole { OnOk result (CrossWhole (placed_lines map.now.tables) edges.items) }
    ensures refused { IfErr result IsOfCrossing }
    ensures reason { IfErr result
        (IsAreaRefusal map.now.tables edges.items (doubled edges.items)) }
{
    let doubled = twice(alloc, &edges)?;
    let cut_edges = cut_all(alloc, map, ground, &edges)?;
    let stops = stops_of(alloc, &cut_edges)?;
    Ok(Border {
        edges,
        doubled,
        cut_edges,
        stops,
    })
}

impl Border {
    /// Whether the middle of the two places is inside the polygon, and not on an edge.
    pub(crate) fn holds_middle(&self, a: Vertex, b: Vertex) -> bool
        ensures { result ≡ holds_middle self.now.doubled.items a b }
    {
        let middle = sum(a, b);
        is_inside(&self.doubled, middle) && !is_on_any(&self.doubled, middle)
    }

    /// The end of the part of the border that begins at the stop with the number.
    pub(crate) fn next(&self, n: usize, from: Vertex) -> Vertex {
        let next = self.stops.get(n.saturating_add(1));
        next.or(self.stops.first()).copied().unwrap_or(from)
    }
}
