//! Whether lines lie inside a border.
ghost use Rattle.std.specs.Prelude.{◌≡◌, ◌↔◌, ℕ, IfErr, IfOk, IsTrue, None, OnErr, OnOk};
ghost use Rattle.std.specs.List.{list_any};
ghost use Rattle.lump_records.specs.declared.records.Vertex.{Vertex};
ghost use Rattle.map_areas.specs.Cuts.{holds_part};
ghost use Rattle.map_areas.specs.Inside.{IsPartInside, is_border_stop};
ghost use Rattle.map_areas.specs.Refusals.{IsInsideRefusal};
ghost use Rattle.map_plane.specs.Meeting.{is_at};
ghost use Rattle.map_plane.specs.Places.{placed_lines};

use crate::border::Border;
use crate::cuts::cuts_of;
use crate::error::AreaError;
use crate::ways::line_at;
use lump_records::Vertex;
use map_plane::PlacedLine;
use map_tables::{Kind, Map};
use std::alloc::{AllocError, Global};

// Whether the border holds one of the parts into which the cuts divide the line.
fn holds_a_part(border: &Border, line: &PlacedLine, cuts: &[Vertex]) -> bool
    ensures { result ≡ holds_part border.now.doubled.items line.now line.now.from cuts.now }
{
    let mut from = line.from;
    for cut in cuts {
        if border.holds_middle(from, *cut) {
            return true;
        }
        from = *cut;
    }
    border.holds_middle(from, line.to)
}

// Whether a part of the line with the number lies inside the border.
fn is_part_inside(
    alloc: Global,
    map: &Map,
    lines: &[PlacedLine],
    border: &Border,
    number: u32,
) -> Result<bool, AllocError>
    requires lines { lines.now ≡ placed_lines map.now.tables }
    requires stops { (p : Vertex) → list_any (is_at p) border.now.stops.items
        ≡ is_border_stop map.now.tables border.now.edges.items p }
    ensures { IfOk result (λ found. IsTrue found
        ↔ IsPartInside map.now.tables border.now.edges.items border.now.doubled.items number) }
{
    let Some(line) = line_at(lines, number) else {
        return Ok(false);
    };
    let cuts = cuts_of(alloc, &border.stops, &line)?;
    Ok(holds_a_part(border, &line, &cuts))
}

// Refuses the first of the map's lines of which a part lies inside the border.
fn find_none_inside(
    alloc: Global,
    map: &Map,
    lines: &[PlacedLine],
    border: &Border,
) -> Result<(), AreaError>
    requires lines { lines.now ≡ placed_lines map.now.tables }
    requires stops { (p : Vertex) → list_any (is_at p) border.now.stops.items
        ≡ is_border_stop map.now.tables border.now.edges.items p }
    ensures empty { OnOk result ((n : ℕ) → IsPartInside map.now.tables border.now.edges.items
        border.now.doubled.items n → ⊥) }
    ensures reason { IfErr result (IsInsideRefusal map.now.tables border.now.edges.items
        border.now.doubled.items) }
{
    for n in 0..map.count(Kind::Line) {
        let found = is_part_inside(alloc, map, lines, border, n)?;
        if found {
            return Err(AreaError::NotEmpty { line: n as u16 });
        }
    }
    Ok(())
}

/// Refuses the first of the map's lines of which a part lies inside the border, if the void is along it.
pub(crate) fn find_empty(
    alloc: Global,
    map: &Map,
    lines: &[PlacedLine],
    border: &Border,
    round: Option<u16>,
) -> Result<(), AreaError>
    requires lines { lines.now ≡ placed_lines map.now.tables }
    requires stops { (p : Vertex) → list_any (is_at p) border.now.stops.items
        ≡ is_border_stop map.now.tables border.now.edges.items p }
    ensures empty { OnOk result (round ≡ None → (n : ℕ) → IsPartInside map.now.tables
        border.now.edges.items border.now.doubled.items n → ⊥) }
    ensures void { OnErr result (round ≡ None) }
    ensures reason { IfErr result (IsInsideRefusal map.now.tables border.now.edges.items
        border.now.doubled.items) }
{
    match round {
        Some(_) => Ok(()),
        None => find_none_inside(alloc, map, lines, border),
    }
}
