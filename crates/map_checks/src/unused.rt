//! The items of a map that nothing uses.
ghost use Rattle.std.specs.Prelude.{◌≡◌, ◌++◌, ◌<◌, ◌≤◌, ◌^◌, vec_len, length, map, IfOk, OnOk};
ghost use Rattle.map_tables.specs.Faults.{uses_vertex, uses_side, in_sector};
ghost use Rattle.map_checks.specs.Unused.{unused_vertices, unused_sides, unused_sectors};
ghost use Rattle.map_checks.specs.Tallies.{Marks, unmarked, unused_item};

use crate::error::CheckError;
use crate::finding::Finding;
use map_tables::{Kind, Map};
use std::alloc::Global;

// Which vertices a line ends at.
fn used_vertices(alloc: Global, map: &Map) -> Result<Vec<bool>, CheckError>
    ensures marks { IfOk result
        (λ used. Marks uses_vertex map.now.tables.vertices map.now.tables.lines used.items) }
    ensures few { IfOk result (λ used. vec_len used ≤ 32767) }
{
    let mut used = vec![in alloc; false; map.count(Kind::Vertex) as usize]?;
    for n in 0..map.count(Kind::Line) {
        let line = map.line(n).unwrap();
        used[usize::from(line.v1)] = true;
        used[usize::from(line.v2)] = true;
    }
    Ok(used)
}

// Which sides a line has.
fn used_sides(alloc: Global, map: &Map) -> Result<Vec<bool>, CheckError>
    ensures marks { IfOk result
        (λ used. Marks uses_side map.now.tables.sides map.now.tables.lines used.items) }
    ensures few { IfOk result (λ used. vec_len used ≤ 32767) }
{
    let mut used = vec![in alloc; false; map.count(Kind::Side) as usize]?;
    for n in 0..map.count(Kind::Line) {
        let line = map.line(n).unwrap();
        used[usize::from(line.right)] = true;
        if line.has_left() {
            used[usize::from(line.left)] = true;
        }
    }
    Ok(used)
}

// Which sectors a side faces.
fn used_sectors(alloc: Global, map: &Map) -> Result<Vec<bool>, CheckError>
    ensures marks { IfOk result
        (λ used. Marks in_sector map.now.tables.sectors map.now.tables.sides used.items) }
    ensures few { IfOk result (λ used. vec_len used ≤ 32767) }
{
    let mut used = vec![in alloc; false; map.count(Kind::Sector) as usize]?;
    for n in 0..map.count(Kind::Side) {
        let side = map.side(n).unwrap();
        used[usize::from(side.sector)] = true;
    }
    Ok(used)
}

// The finding that an item is unused, for vertices, sides and sectors.
fn unused_item(kind: Kind, n: u32) -> Finding
    ensures { result ≡ unused_item kind n }
{
    match kind {
        Kind::Vertex => Finding::VertexUnused(n),
        Kind::Side => Finding::SideUnused(n),
        _ => Finding::SectorUnused(n),
    }
}

// Adds a finding for each item of a table that isn't marked as used.
fn list_unmarked(kind: Kind, used: &[bool], found: &mut Vec<Finding>) -> Result<(), CheckError>
    requires { length used.now < 2 ^ 32 }
    ensures { OnOk result
        (found.new.items ≡ found.old.items ++ map (unused_item kind) (unmarked used.now)) }
{
    for (n, is_used) in used.iter().enumerate() {
        if !*is_used {
            found.push(unused_item(kind, n as u32))?;
        }
    }
    Ok(())
}

/// Adds a finding for each vertex that no line has.
pub(crate) fn list_unused_vertices(
    alloc: Global,
    map: &Map,
    found: &mut Vec<Finding>,
) -> Result<(), CheckError>
    ensures { OnOk result (found.new.items ≡ found.old.items ++ unused_vertices map.now.tables) }
{
    let used = used_vertices(alloc, map)?;
    list_unmarked(Kind::Vertex, &used, found)?;
    Ok(())
}

/// Adds a finding for each side that no line has.
pub(crate) fn list_unused_sides(
    alloc: Global,
    map: &Map,
    found: &mut Vec<Finding>,
) -> Result<(), CheckError>
    ensures { OnOk result (found.new.items ≡ found.old.items ++ unused_sides map.now.tables) }
{
    let used = used_sides(alloc, map)?;
    list_unmarked(Kind::Side, &used, found)?;
    Ok(())
}

/// Adds a finding for each sector that no side faces.
pub(crate) fn list_unused_sectors(
    alloc: Global,
    map: &Map,
    found: &mut Vec<Finding>,
) -> Result<(), CheckError>
    ensures { OnOk result (found.new.items ≡ found.old.items ++ unused_sectors map.now.tables) }
{
    let used = used_sectors(alloc, map)?;
    list_unmarked(Kind::Sector, &used, found)?;
    Ok(())
}
