//! Tests the rules of a well-formed map on plain lists.
ghost use Rattle.std.specs.Prelude.{◌≡◌, ◌≢◌, ◌==◌, ◌&&◌, ◌||◌, not, nat_lt, ◌↔◌, IsTrue, All, AllPairs, IfOk, IsOkUnless};
ghost use Rattle.map_tables.specs.Faults.{has_left, is_two_sided};
ghost use Rattle.map_tables.specs.WellFormed.{HasEnds, HasSides, HasSector};

use crate::error::MapError;
use crate::lengths::is_too_long;
use lump_records::{Line, Sector, Side, Vertex};
use std::alloc::Global;
use std::collections::HashSet;

/// Whether no two vertices are at the same place.
pub fn are_apart(alloc: Global, vertices: &[Vertex]) -> Result<bool, MapError>
    ensures apart { IfOk result (λ apart. IsTrue apart ↔ AllPairs (λ v w. v ≢ w) vertices.now) }
    ensures memory { IsOkUnless result MapError.OutOfMemory }
{
    let places: HashSet<Vertex> = vertices.iter().copied().collect(alloc)?;
    Ok(places.len() == vertices.len())
}

/// Whether an end of the line isn't among the first `vertices` vertices.
pub fn lacks_vertex(vertices: usize, line: &Line) -> bool
    ensures { result ≡ (not (nat_lt line.now.v1 vertices) || not (nat_lt line.now.v2 vertices)) }
{
    usize::from(line.v1) >= vertices || usize::from(line.v2) >= vertices
}

/// Whether a side that the line names isn't among the first `sides` sides.
pub fn lacks_side(sides: usize, line: &Line) -> bool
    ensures { result ≡ (not (nat_lt line.now.right sides)
        || (has_left line.now && not (nat_lt line.now.left sides))) }
{
    usize::from(line.right) >= sides || line.has_left() && usize::from(line.left) >= sides
}

/// Whether the line begins and ends at the same vertex.
pub fn has_same_ends(line: &Line) -> bool
    ensures { result ≡ (line.now.v1 == line.now.v2) }
{
    line.v1 == line.v2
}

/// Whether the line has the two-sided flag but no left side.
pub fn lacks_left(line: &Line) -> bool
    ensures { result ≡ (is_two_sided line.now && not (has_left line.now)) }
{
    line.is_two_sided() && !line.has_left()
}

// Whether the line's ends are two of the vertices, not too far apart.
fn has_ends(vertices: &[Vertex], line: &Line) -> bool
    ensures { IsTrue result ↔ HasEnds vertices.now line.now }
{
    !(lacks_vertex(vertices.len(), line) || has_same_ends(line) || is_too_long(vertices, line))
}

// Whether the line's sides are among the sides, and it has a left one if it has the two-sided flag.
fn has_sides(sides: &[Side], line: &Line) -> bool
    ensures { IsTrue result ↔ HasSides sides.now line.now }
{
    !(lacks_side(sides.len(), line) || lacks_left(line))
}

// Whether each line has its ends among the vertices.
fn have_ends(vertices: &[Vertex], lines: &[Line]) -> bool
    ensures { IsTrue result ↔ All (HasEnds vertices.now) lines.now }
{
    lines.iter().all(|line| has_ends(vertices, line))
}

// Whether each line has its sides among the sides.
fn have_sides(sides: &[Side], lines: &[Line]) -> bool
    ensures { IsTrue result ↔ All (HasSides sides.now) lines.now }
{
    lines.iter().all(|line| has_sides(sides, line))
}

/// Whether each line's ends and sides are among the vertices and the sides, as a map requires.
pub fn are_linked(vertices: &[Vertex], sides: &[Side], lines: &[Line]) -> bool
    ensures { IsTrue result ↔ (All (HasEnds vertices.now) lines.now
        × All (HasSides sides.now) lines.now) }
{
    have_ends(vertices, lines) && have_sides(sides, lines)
}

/// Whether each side's sector is among the sectors.
pub fn have_sectors(sectors: &[Sector], sides: &[Side]) -> bool
    ensures { IsTrue result ↔ All (HasSector sectors.now) sides.now }
{
    sides
        .iter()
        .all(|side| usize::from(side.sector) < sectors.len())
}
