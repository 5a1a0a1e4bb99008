//! The polygon of some corners, its edges clockwise.
ghost use Rattle.std.specs.Prelude.{◌≡◌, IfErr, IfOk, reverse, slice_get};
ghost use Rattle.map_areas.specs.Errors.{IsOfMemory};
ghost use Rattle.map_areas.specs.Outlines.{JudgesCorners, bad_corner, edge_from, edges_round, first_corner, lacks_area, next_corner, outline_edges, runs_clockwise};
ghost use Rattle.map_areas.specs.Refusals.{IsOfOutline};

use crate::error::AreaError;
use lump_records::Vertex;
use map_plane::{PlacedLine, first_clash, polygon_area};
use std::alloc::{AllocError, Global};

// The corner with the number.
fn corner_at(corners: &[Vertex], n: usize) -> Option<Vertex>
    ensures { result ≡ slice_get corners.now n }
{
    corners.get(n).copied()
}

// The corner after one with its number: after the last comes the first.
fn next_corner(corners: &[Vertex], number: u32, from: Vertex) -> Vertex
    ensures { result ≡ next_corner corners.now (number, from) }
{
    let next = corner_at(corners, number as usize + 1);
    let first = corner_at(corners, 0);
    next.or(first).unwrap_or(from)
}

// The edge from a corner with its number to the next one, or from the last to the first.
fn edge_from(corners: &[Vertex], number: u32, from: Vertex) -> PlacedLine
    ensures { result ≡ edge_from corners.now (number, from) }
{
    PlacedLine {
        number,
        from,
        to: next_corner(corners, number, from),
        is_wall: false,
    }
}

// The edges between neighbouring corners, and from the last corner to the first. More than a number can count find no
// memory.
fn outline_edges(alloc: Global, corners: &[Vertex]) -> Result<Vec<PlacedLine>, AreaError>
    ensures edges { IfOk result (λ edges. edges.items ≡ outline_edges corners.now) }
    ensures memory { IfErr result IsOfMemory }
{
    let Ok(count) = u32::try_from(corners.len()) else {
        return Err(AreaError::OutOfMemory);
    };
    let mut edges = Vec::new(alloc);
    for n in 0..count {
        let corner = corner_at(corners, n as usize).unwrap();
        edges.push(edge_from(corners, n, corner))?;
    }
    Ok(edges)
}

// The corners in the opposite order.
fn turned(alloc: Global, corners: &[Vertex]) -> Result<Vec<Vertex>, AllocError>
    ensures { IfOk result (λ turned. turned.items ≡ reverse corners.now) }
{
    let mut turned = Vec::from_slice(alloc, corners)?;
    turned.reverse();
    Ok(turned)
}

// Whether the edges are too few, or have no area.
fn lacks_area(edges: &[PlacedLine]) -> bool
    ensures { result ≡ lacks_area edges.now }
{
    edges.len() < 3 || polygon_area(edges) == 0
}

// The first corner, or the origin where there is none.
fn first_corner(edges: &[PlacedLine]) -> Vertex
    ensures { result ≡ first_corner edges.now }
{
    match edges.first() {
        Some(edge) => edge.from,
        None => Vertex { x: 0, y: 0 },
    }
}

// The corner at which the edges are no simple polygon: where one clashes, or the first if they are too few or have no
// area.
fn bad_corner(edges: &[PlacedLine]) -> Option<Vertex>
    ensures { result ≡ bad_corner edges.now }
{
    match first_clash(edges) {
        Some(edge) => Some(edge.from),
        None if lacks_area(edges) => Some(first_corner(edges)),
        None => None,
    }
}

// Whether the edges run clockwise: then the inside is on their right.
fn runs_clockwise(edges: &[PlacedLine]) -> bool
    ensures { result ≡ runs_clockwise edges.now }
{
    0 < polygon_area(edges)
}

/// The edges of the polygon, clockwise or the other way round. Refused if it isn't simple.
pub(crate) fn polygon(
    alloc: Global,
    corners: &[Vertex],
    clockwise: bool,
) -> Result<Vec<PlacedLine>, AreaError>
    ensures edges { IfOk result (λ edges. edges.items ≡ edges_round clockwise corners.now) }
    ensures polygon { JudgesCorners corners.now result }
    ensures refused { IfErr result IsOfOutline }
{
    let edges = outline_edges(alloc, corners)?;
    if let Some(corner) = bad_corner(&edges) {
        return Err(AreaError::NotAPolygon { corner });
    }
    if runs_clockwise(&edges) == clockwise {
        return Ok(edges);
    }
    let turned = turned(alloc, corners)?;
    outline_edges(alloc, &turned)
}
