//! The lines of a list of records with the places of their ends, or the first line that can't be built.
ghost use Rattle.std.specs.Prelude.{◌≡◌, ◌↔◌, IsTrue, All, IfOk, IfErr, OnOk, MatchOption};
ghost use Rattle.lump_records.specs.Drawing.{IsDrawable};
ghost use Rattle.tree_pieces.specs.Plane.{IsEdge};
ghost use Rattle.tree_pieces.specs.Edges.{edge_between, edges_in, IsBuildable, IsUndrawable, HasFault, IsLinesRefusal};

use crate::edge::Edge;
use crate::line_fault::{LineFault, LinesError};
use crate::lines::Lines;
use lump_records::{LONGEST_SQUARED, Line, Side, Vertex, is_coordinate, squared_distance};
use std::alloc::Global;

// Whether a vertex may be drawn.
fn is_drawable(v: Vertex) -> bool
    ensures { IsTrue result ↔ IsDrawable v }
{
    is_coordinate(v.x) && is_coordinate(v.y)
}

// Why a map may not have a line between these ends.
fn fault_between(edge: Edge) -> Option<LineFault>
    ensures { MatchOption result (IsEdge edge) (IsUndrawable edge) }
{
    if edge.v1 == edge.v2 {
        return Some(LineFault::NoLength);
    }
    if !is_drawable(edge.v1) || !is_drawable(edge.v2) {
        return Some(LineFault::EndOutside);
    }
    if squared_distance(edge.v1, edge.v2) > LONGEST_SQUARED {
        return Some(LineFault::TooLong);
    }
    None
}

// A line over a list of vertices, or why it can't be built.
fn edge_in(vertices: &[Vertex], sides: &[Side], line: Line) -> Result<Edge, LineFault>
    ensures edge { IfOk result (λ edge. edge ≡ edge_between vertices.now line) }
    ensures buildable { OnOk result (IsBuildable vertices.now sides.now line) }
    ensures fault { IfErr result (HasFault vertices.now sides.now line) }
{
    let v1 = usize::from(line.v1);
    let v2 = usize::from(line.v2);
    if v1 >= vertices.len() || v2 >= vertices.len() {
        return Err(LineFault::NoVertex);
    }
    if usize::from(line.right) >= sides.len() {
        return Err(LineFault::NoRightSide);
    }
    let edge = Edge {
        v1: vertices[v1],
        v2: vertices[v2],
        has_left: line.has_left(),
    };
    match fault_between(edge) {
        Some(fault) => Err(fault),
        None => Ok(edge),
    }
}

/// The lines of a list of records over a list of vertices, by number. They are refused if a line names a vertex or a
/// right side that isn't there, or is one that no map may have; the refusal has the number of the first such line, and
/// its first fault. Otherwise they are refused only for lack of memory. Vertices may share places, left sides aren't
/// looked up, and the lists may be of any length.
pub fn edges_in(
    alloc: Global,
    vertices: &[Vertex],
    sides: &[Side],
    lines: &[Line],
) -> Result<Lines, LinesError>
    ensures edges { IfOk result (λ made. made ≡ edges_in vertices.now lines.now) }
    ensures buildable { OnOk result (All (IsBuildable vertices.now sides.now) lines.now) }
    ensures refused { IfErr result (IsLinesRefusal vertices.now sides.now lines.now) }
{
    let mut edges = match Vec::with_capacity(alloc, lines.len()) {
        Err(_) => return Err(LinesError::OutOfMemory),
        Ok(edges) => edges,
    };
    for (n, line) in lines.iter().enumerate() {
        let edge = match edge_in(vertices, sides, *line) {
            Err(fault) => return Err(LinesError::Faulty(n, fault)),
            Ok(edge) => edge,
        };
        match edges.push(edge) {
            Err(_) => return Err(LinesError::OutOfMemory),
            Ok(()) => {}
        }
    }
    Ok(Lines::of(edges))
}
