//! What is round a border before anything is drawn.
ghost use Rattle.std.specs.Prelude.{◌≡◌, ◌<◌, All, IfErr, IfOk, OnOk, length, true};
ghost use Rattle.map_areas.specs.Apart.{doubled};
ghost use Rattle.map_areas.specs.Bordered.{is_led_to};
ghost use Rattle.map_areas.specs.Cuts.{DiffersFrom, IsCutWhole, IsLed, is_edge_part, leads_unmet, uncut};
ghost use Rattle.map_areas.specs.Refusals.{IsAreaRefusal, IsOfSectors};
ghost use Rattle.map_areas.specs.Ways.{way};
ghost use Rattle.map_plane.specs.Places.{placed_lines};

use crate::border::{Border, CutEdge};
use crate::error::{AreaError, Part};
use crate::ways::{Ground, is_same, sector_on_right, way};
use lump_records::Vertex;
use map_plane::PlacedLine;
use map_tables::Map;

// The first part of the edge.
fn first_part(map: &Map, ground: &Ground, cut: &CutEdge) -> Part
    requires lines { ground.now.lines.items ≡ placed_lines map.now.tables }
    requires doubled { ground.now.doubled.items ≡ doubled (placed_lines map.now.tables) }
    requires cut { IsCutWhole map.now.tables cut.now }
    ensures { is_edge_part map.now.tables cut.now.edge result ≡ true }
{
    let from = cut.edge.from;
    let to = cut.cuts.first().copied().unwrap_or(cut.edge.to);
    Part {
        from,
        to,
        sector: sector_on_right(map, ground, &way(from, to)),
    }
}

// Refuses a part of the edge that has another sector on its right than the first part of the border.
fn follow_part(
    map: &Map,
    ground: &Ground,
    first: &Part,
    edge: &PlacedLine,
    from: Vertex,
    to: Vertex,
) -> Result<(), AreaError>
    requires lines { ground.now.lines.items ≡ placed_lines map.now.tables }
    requires doubled { ground.now.doubled.items ≡ doubled (placed_lines map.now.tables) }
    requires unmet { leads_unmet map.now.tables edge.now (way from to) ≡ true }
    ensures led { OnOk result
        (is_led_to map.now.tables first.now.sector edge.now from to ≡ true) }
    ensures reason { IfErr result (DiffersFrom map.now.tables first.now edge.now) }
{
    let sector = sector_on_right(map, ground, &way(from, to));
    if !is_same(sector, first.sector) {
        return Err(AreaError::SeveralSectors {
            first: *first,
            second: Part { from, to, sector },
        });
    }
    Ok(())
}

// Refuses an edge of which a part has another sector on its right than the first part of the border.
fn follow_edge(map: &Map, ground: &Ground, first: &Part, cut: &CutEdge) -> Result<(), AreaError>
    requires lines { ground.now.lines.items ≡ placed_lines map.now.tables }
    requires doubled { ground.now.doubled.items ≡ doubled (placed_lines map.now.tables) }
    requires cut { IsCutWhole map.now.tables cut.now }
    ensures led { OnOk result (IsLed map.now.tables first.now.sector cut.now) }
    ensures reason { IfErr result (DiffersFrom map.now.tables first.now cut.now.edge) }
{
    let mut at = cut.edge.from;
    for place in &cut.cuts {
        match follow_part(map, ground, first, &cut.edge, at, *place) {
            Ok(()) => {}
            Err(error) => return Err(error),
        }
        at = *place;
    }
    follow_part(map, ground, first, &cut.edge, at, cut.edge.to)
}

/// The sector that is there along the whole border, or the void. Refused if the parts differ.
pub(crate) fn sector_round(
    map: &Map,
    ground: &Ground,
    border: &Border,
) -> Result<Option<u16>, AreaError>
    requires lines { ground.now.lines.items ≡ placed_lines map.now.tables }
    requires doubled { ground.now.doubled.items ≡ doubled (placed_lines map.now.tables) }
    requires edges { uncut border.now.cut_edges.items ≡ border.now.edges.items }
    requires some { 0 < length border.now.cut_edges.items }
    requires cut { All (IsCutWhole map.now.tables) border.now.cut_edges.items }
    ensures led { IfOk result (λ round. All (IsLed map.now.tables round)
        border.now.cut_edges.items) }
    ensures refused { IfErr result IsOfSectors }
    ensures reason { IfErr result (IsAreaRefusal map.now.tables border.now.edges.items
        border.now.doubled.items) }
{
    let first = first_part(map, ground, &border.cut_edges[0]);
    for cut in &border.cut_edges {
        match follow_edge(map, ground, &first, cut) {
            Ok(()) => {}
            Err(error) => return Err(error),
        }
    }
    Ok(first.sector)
}
