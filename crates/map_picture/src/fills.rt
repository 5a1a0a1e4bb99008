//! The sectors of a map as areas that are filled by the heights of their floors.
ghost use Rattle.std.specs.Prelude.{◌≡◌, ◌++◌, flat_map, length, IfErr, IfOk, OnOk, true};
ghost use Rattle.std.specs.Io.KnownBytes.{Appends};
ghost use Rattle.map_checks.specs.Findings.{findings};
ghost use Rattle.map_picture.specs.Borders.{AreBorders};
ghost use Rattle.map_picture.specs.Fills.{all_fills, area_text, border_text, edge_text, sector_fields, fill_opening, fill_text, flats_text, heights_text, is_found_open, nth_border, nth_fill, tells_open};
ghost use Rattle.map_picture.specs.Sheet.{fills_text};

use crate::borders::{Borders, sector_borders};
use crate::floors::{Heights, floor_colour, floor_heights};
use crate::items::sector_of;
use crate::options::PictureError;
use lump_records::{Line, Sector};
use lump_text::WriterFailed;
use map_checks::{Finding, check};
use map_svg::{Spot, spot_of, write_bytes};
use map_tables::{Kind, Map};
use std::alloc::Global;
use std::io::Write;

// Whether the finding says that the sector isn't closed.
fn tells_open(n: u32, finding: &Finding) -> bool
    ensures { result ≡ tells_open n finding.now }
{
    match finding {
        Finding::SectorOpen { sector, .. } => *sector == n,
        _ => false,
    }
}

// Whether one of the findings says that the sector isn't closed.
fn is_found_open(found: &[Finding], n: u32) -> bool
    ensures { result ≡ is_found_open found.now n }
{
    found.iter().any(|finding| tells_open(n, finding))
}

// Writes the triangle of an edge and the picture's origin, as a way from there and back.
fn write_edge<W: Write>(from: Spot, to: Spot, writer: &mut W) -> Result<(), WriterFailed>
    ensures { OnOk result
        (Appends (W.contents writer.old) (W.contents writer.new) (edge_text from to)) }
{
    let (x1, y1, x2, y2) = (from.x, from.y, to.x, to.y);
    write!(writer, "L{x1} {y1} {x2} {y2} 0 0")?;
    Ok(())
}

// Writes the edge of the sector along the line, if the line has the sector on exactly one side.
fn write_border<W: Write>(
    map: &Map,
    sector: u32,
    line: &Line,
    writer: &mut W,
) -> Result<(), WriterFailed>
    ensures { OnOk result (Appends (W.contents writer.old) (W.contents writer.new)
        (border_text map.now.tables sector line.now)) }
{
    let (from, to) = map.ends_of(line);
    let on_right = u32::from(sector_of(map, line.right)) == sector;
    let on_left = line.has_left() && u32::from(sector_of(map, line.left)) == sector;
    if on_right == on_left {
        Ok(())
    } else if on_right {
        write_edge(spot_of(from), spot_of(to), writer)
    } else {
        write_edge(spot_of(to), spot_of(from), writer)
    }
}

// Writes the edge of the sector along the line with the number, if there is one.
fn write_nth_border<W: Write>(
    map: &Map,
    sector: u32,
    n: u32,
    writer: &mut W,
) -> Result<(), WriterFailed>
    ensures { OnOk result (Appends (W.contents writer.old) (W.contents writer.new)
        (nth_border map.now.tables sector n)) }
{
    match map.line(n) {
        Some(line) => write_border(map, sector, &line, writer),
        None => Ok(()),
    }
}

// Writes the edges of the sector along these lines.
fn write_edges<W: Write>(
    map: &Map,
    sector: u32,
    lines: &[u32],
    writer: &mut W,
) -> Result<(), WriterFailed>
    ensures { OnOk result (Appends (W.contents writer.old) (W.contents writer.new)
        (flat_map (nth_border map.now.tables sector) lines.now)) }
{
    for line in lines {
        match write_nth_border(map, sector, *line, writer) {
            Ok(()) => {}
            Err(error) => return Err(error),
        }
    }
    Ok(())
}

// Writes the edges of the sector, which all are along these lines.
fn write_area<W: Write>(
    map: &Map,
    sector: u32,
    lines: &[u32],
    writer: &mut W,
) -> Result<(), WriterFailed>
    requires { flat_map (nth_border map.now.tables sector) lines.now
        ≡ area_text map.now.tables sector }
    ensures { OnOk result (Appends (W.contents writer.old) (W.contents writer.new)
        (area_text map.now.tables sector)) }
{
    write_edges(map, sector, lines, writer)
}

// Writes the beginning of the element of a sector: its id, the class of its colour, and the beginning of its path.
#[tactic(auto, unfolding(crate::specs::Fills::fill_opening))]
fn write_opening<W: Write>(n: u32, colour: u32, writer: &mut W) -> Result<(), WriterFailed>
    ensures { OnOk result
        (Appends (W.contents writer.old) (W.contents writer.new) (fill_opening n colour)) }
{
    write!(
        writer,
        "<path id=\"sector{n}\" class=\"floor{colour}\" fill-rule=\"evenodd\" d=\"M0 0"
    )?;
    Ok(())
}

// Ends the path, and writes the heights of the sector.
fn write_heights<W: Write>(n: u32, sector: &Sector, writer: &mut W) -> Result<(), WriterFailed>
    ensures { OnOk result
        (Appends (W.contents writer.old) (W.contents writer.new) (heights_text n sector.now)) }
{
    let (floor, ceiling) = (sector.floor, sector.ceiling);
    write!(
        writer,
        "\">\n<title>sector {n}: floor {floor}, ceiling {ceiling}, flats "
    )?;
    Ok(())
}

// Writes the flats of the sector.
#[tactic(auto, unfolding(crate::specs::Fills::flats_text))]
fn write_flats<W: Write>(sector: &Sector, writer: &mut W) -> Result<(), WriterFailed>
    ensures { OnOk result
        (Appends (W.contents writer.old) (W.contents writer.new) (flats_text sector.now)) }
{
    write_bytes(sector.floor_name.text(), writer)?;
    write_bytes(b" ", writer)?;
    write_bytes(sector.ceiling_name.text(), writer)
}

// Writes the light, the special and the tag of the sector, and ends the element.
fn write_fields<W: Write>(sector: &Sector, writer: &mut W) -> Result<(), WriterFailed>
    ensures { OnOk result
        (Appends (W.contents writer.old) (W.contents writer.new) (sector_fields sector.now)) }
{
    let (light, special, tag) = (sector.light, sector.special, sector.tag);
    write!(
        writer,
        ", light {light}, special {special}, tag {tag}</title></path>\n"
    )?;
    Ok(())
}

// Writes the element of a sector, whose edges all are along these lines.
#[tactic(auto, unfolding(crate::specs::Fills::fill_text))]
fn write_fill<W: Write>(
    map: &Map,
    heights: Heights,
    n: u32,
    sector: &Sector,
    lines: &[u32],
    writer: &mut W,
) -> Result<(), WriterFailed>
    requires { flat_map (nth_border map.now.tables n) lines.now ≡ area_text map.now.tables n }
    ensures { OnOk result (Appends (W.contents writer.old) (W.contents writer.new)
        (fill_text map.now.tables heights n sector.now)) }
{
    write_opening(n, floor_colour(heights, sector.floor), writer)?;
    write_area(map, n, lines, writer)?;
    write_heights(n, sector, writer)?;
    write_flats(sector, writer)?;
    write_fields(sector, writer)
}

// Writes the element of the sector with the number, whose edges all are along these lines, if none of the findings says
// that it isn't closed.
fn write_nth<W: Write>(
    map: &Map,
    found: &[Finding],
    heights: Heights,
    n: u32,
    lines: &[u32],
    writer: &mut W,
) -> Result<(), WriterFailed>
    requires found { found.now ≡ findings map.now.tables }
    requires lines { flat_map (nth_border map.now.tables n) lines.now
        ≡ area_text map.now.tables n }
    ensures { OnOk result (Appends (W.contents writer.old) (W.contents writer.new)
        (nth_fill map.now.tables heights n)) }
{
    if is_found_open(found, n) {
        return Ok(());
    }
    match map.sector(n) {
        Some(sector) => write_fill(map, heights, n, &sector, lines, writer),
        None => Ok(()),
    }
}

// Writes the elements of the sectors that are closed, with the findings of the map, the lines of its sectors and the
// heights of its floors.
fn write_fills<W: Write>(
    map: &Map,
    found: &[Finding],
    borders: &[Borders],
    heights: Heights,
    writer: &mut W,
) -> Result<(), WriterFailed>
    requires found { found.now ≡ findings map.now.tables }
    requires borders { AreBorders map.now.tables (length map.now.tables.lines) borders.now }
    ensures { OnOk result (Appends (W.contents writer.old) (W.contents writer.new)
        (all_fills map.now.tables heights)) }
{
    for n in 0..map.count(Kind::Sector) {
        let lines = borders[n as usize].lines();
        match write_nth(map, found, heights, n, lines, writer) {
            Ok(()) => {}
            Err(error) => return Err(error),
        }
    }
    Ok(())
}

// Appends the elements of the sectors that are closed to a text.
fn add_fills(
    alloc: Global,
    map: &Map,
    heights: Heights,
    text: &mut Vec<u8>,
) -> Result<(), PictureError>
    ensures { OnOk result (text.new.items
        ≡ text.old.items ++ all_fills map.now.tables heights) }
{
    let Ok(found) = check(alloc, map) else {
        return Err(PictureError::OutOfMemory);
    };
    let borders = sector_borders(alloc, map)?;
    match write_fills(map, &found, &borders, heights, text) {
        Ok(()) => Ok(()),
        Err(_) => Err(PictureError::OutOfMemory),
    }
}

/// The text of the sectors that are closed, if they are asked for.
pub(crate) fn fills_text(alloc: Global, map: &Map, wanted: bool) -> Result<Vec<u8>, PictureError>
    ensures text { IfOk result (λ text. text.items ≡ fills_text wanted map.now.tables) }
    ensures memory { IfErr result (λ _. wanted ≡ true) }
{
    let mut text = Vec::new(alloc);
    if !wanted {
        return Ok(text);
    }
    match floor_heights(map) {
        Some(heights) => match add_fills(alloc, map, heights, &mut text) {
            Ok(()) => Ok(text),
            Err(error) => Err(error),
        },
        None => Ok(text),
    }
}
