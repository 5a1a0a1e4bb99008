//! Where the sectors of a map aren't closed.
ghost use Rattle.std.specs.Prelude.{◌≡◌, ◌<◌, [], ◌∷◌, ◌++◌, IfOk, OnOk};
ghost use Rattle.std.specs.BTreeMap.{IsOrdered};
ghost use Rattle.map_tables.specs.WellFormed.{WellFormed, HasSides};
ghost use Rattle.map_checks.specs.Corners.{edges, edges_of_line};
ghost use Rattle.map_checks.specs.Findings.{open_sectors};
ghost use Rattle.map_checks.specs.Tallies.{corner_cmp, degrees_of, HasCountsLeft, Leaves, Reaches, AddsEdges, IsTally, uneven_corners};

use crate::error::CheckError;
use crate::finding::Finding;
use lump_records::Line;
use map_tables::{Kind, Map};
use std::alloc::Global;
use std::collections::BTreeMap;

// How many edges of a sector leave a vertex, and how many reach it.
#[derive(Clone, Copy)]
struct Degrees {
    outgoing: u32,
    incoming: u32,
}

// A sector's number, and the number of one of its vertices.
type Corner = (u16, u16);

// The counts at the corner.
fn degrees_at(degrees: &BTreeMap<Corner, Degrees>, corner: Corner) -> Degrees
    ensures { result ≡ degrees_of degrees.now corner }
{
    let none = Degrees {
        outgoing: 0,
        incoming: 0,
    };
    degrees.get(&corner).copied().unwrap_or(none)
}

// Counts an edge that leaves the corner.
fn leave(degrees: &mut BTreeMap<Corner, Degrees>, corner: Corner) -> Result<(), CheckError>
    requires { (degrees_of degrees.old corner).outgoing < u32.MAX }
    ensures { OnOk result (Leaves degrees.old degrees.new corner) }
{
    let mut at = degrees_at(degrees, corner);
    at.outgoing += 1;
    degrees.insert(corner, at)?;
    Ok(())
}

// Counts an edge that reaches the corner.
fn reach(degrees: &mut BTreeMap<Corner, Degrees>, corner: Corner) -> Result<(), CheckError>
    requires { (degrees_of degrees.old corner).incoming < u32.MAX }
    ensures { OnOk result (Reaches degrees.old degrees.new corner) }
{
    let mut at = degrees_at(degrees, corner);
    at.incoming += 1;
    degrees.insert(corner, at)?;
    Ok(())
}

// Counts an edge of the sector at both its vertices.
fn count_edge(
    degrees: &mut BTreeMap<Corner, Degrees>,
    sector: u16,
    from: u16,
    to: u16,
) -> Result<(), CheckError>
    requires { HasCountsLeft 1 degrees.old }
    ensures { OnOk result
        (AddsEdges degrees.old degrees.new
        ((record { sector = sector; from = from; to = to }) ∷ [])) }
{
    leave(degrees, (sector, from))?;
    reach(degrees, (sector, to))
}

// Counts the edges of the line: one on its right and, with a left side, one on its left.
fn count_line(
    degrees: &mut BTreeMap<Corner, Degrees>,
    map: &Map,
    line: &Line,
) -> Result<(), CheckError>
    requires sides { HasSides map.now.tables.sides line.now }
    requires room { HasCountsLeft 2 degrees.old }
    ensures { OnOk result
        (AddsEdges degrees.old degrees.new (edges_of_line map.now.tables line.now)) }
{
    let right = map.side(u32::from(line.right)).unwrap();
    count_edge(degrees, right.sector, line.v1, line.v2)?;
    if line.has_left() {
        let left = map.side(u32::from(line.left)).unwrap();
        count_edge(degrees, left.sector, line.v2, line.v1)?;
    }
    Ok(())
}

// Counts the edges of all lines.
fn count_edges(alloc: Global, map: &Map) -> Result<BTreeMap<Corner, Degrees>, CheckError>
    ensures tally { IfOk result (λ degrees. IsTally (edges map.now.tables) degrees) }
    ensures well_formed { WellFormed map.now.tables }
{
    let mut degrees = BTreeMap::new(alloc);
    for n in 0..map.count(Kind::Line) {
        let line = map.line(n).unwrap();
        count_line(&mut degrees, map, &line)?;
    }
    Ok(degrees)
}

// Adds a finding for each corner whose counts differ.
fn list_open(
    degrees: &BTreeMap<Corner, Degrees>,
    found: &mut Vec<Finding>,
) -> Result<(), CheckError>
    ensures found { OnOk result (found.new.items ≡ found.old.items ++ uneven_corners degrees.now) }
    ensures ordered { IsOrdered corner_cmp degrees.now }
{
    for ((sector, vertex), at) in degrees {
        if at.outgoing != at.incoming {
            found.push(Finding::SectorOpen {
                sector: u32::from(*sector),
                vertex: u32::from(*vertex),
            })?;
        }
    }
    Ok(())
}

/// Adds a finding for each vertex at which a sector is open, by sector and then by vertex.
pub(crate) fn list_open_sectors(
    alloc: Global,
    map: &Map,
    found: &mut Vec<Finding>,
) -> Result<(), CheckError>
    ensures { OnOk result (found.new.items ≡ found.old.items ++ open_sectors map.now.tables) }
{
    let degrees = count_edges(alloc, map)?;
    list_open(&degrees, found)
}
