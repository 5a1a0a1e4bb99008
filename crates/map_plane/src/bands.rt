//! The lines of a map, sorted into bands of 128 rows.
ghost use Rattle.std.specs.Prelude.{◌≡◌, [], length, IfOk, OnOk};
ghost use Rattle.std.specs.Int.{int_min, int_max};
ghost use Rattle.map_plane.specs.Nearest.{nearest, sector_of_place};
ghost use Rattle.map_plane.specs.Outside.{is_place_outside};
ghost use Rattle.map_plane.specs.Bands.{IsBandOf, FilesLine, AreBands, AreFiled, IsFiling, AreFiledLines};

use crate::band::Band;
use crate::east::{nearest, sector_shown};
use crate::outside::is_outside;
use crate::places::{PlacedLine, placed_lines};
use lump_records::Vertex;
use map_tables::Map;
use std::alloc::{AllocError, Global};

/// The lines of a map, and those of each band of rows.
#[derive(Drop)]
pub struct FiledLines {
    pub lines: Vec<PlacedLine>,
    pub bands: Vec<Band>,
}

/// The number of the band that has the row.
pub fn band_of(y: i16) -> usize
    ensures { IsBandOf y result }
{
    let row = i32::from(y) + 32_768;
    row as usize / 128
}

// The number of the band that has the row of the place.
fn band_at(place: Vertex) -> usize
    ensures { IsBandOf place.y result }
{
    band_of(place.y)
}

// The first band that shares a row with the line's box.
fn first_band(line: &PlacedLine) -> usize
    ensures { IsBandOf (int_min line.now.from.y line.now.to.y) result }
{
    band_of(line.from.y.min(line.to.y))
}

// The last band that shares a row with the line's box.
fn last_band(line: &PlacedLine) -> usize
    ensures { IsBandOf (int_max line.now.from.y line.now.to.y) result }
{
    band_of(line.from.y.max(line.to.y))
}

// Adds the line at the end of each band that shares a row with its box.
fn file_line(bands: &mut [Band], line: PlacedLine) -> Result<(), AllocError>
    requires { length bands.old ≡ 512 }
    ensures { OnOk result (FilesLine line bands.old bands.new) }
{
    let first = first_band(&line);
    let last = last_band(&line);
    for band in first..last + 1 {
        bands[band].push(line)?;
    }
    Ok(())
}

// All bands, without lines.
fn empty_bands(alloc: Global) -> Result<Vec<Band>, AllocError>
    ensures { IfOk result (λ bands. AreBands [] bands.items) }
{
    let mut bands = Vec::with_capacity(alloc, 512)?;
    for _band in 0..512usize {
        bands.push(Band::new(alloc))?;
    }
    Ok(bands)
}

// The lines of each band.
fn bands_of(alloc: Global, lines: &[PlacedLine]) -> Result<Vec<Band>, AllocError>
    ensures { IfOk result (λ bands. AreBands lines.now bands.items) }
{
    let mut bands = empty_bands(alloc)?;
    for line in lines {
        file_line(&mut bands, *line)?;
    }
    Ok(bands)
}

/// The lines, and those of each band.
pub fn file_each(alloc: Global, lines: Vec<PlacedLine>) -> Result<FiledLines, AllocError>
    ensures { IfOk result (λ filed. IsFiling lines.items filed) }
{
    let bands = bands_of(alloc, &lines)?;
    Ok(FiledLines { lines, bands })
}

/// The lines of the map, and those of each band.
pub fn file_lines(alloc: Global, map: &Map) -> Result<FiledLines, AllocError>
    ensures { IfOk result (AreFiledLines map.now.tables) }
{
    let lines = placed_lines(alloc, map)?;
    file_each(alloc, lines)
}

/// Whether the place lies in no sector.
pub fn is_in_no_sector(filed: &FiledLines, place: Vertex) -> bool
    requires { AreFiled filed.now }
    ensures { result ≡ is_place_outside filed.now.lines.items place }
{
    is_outside(filed.bands[band_at(place)].lines(), place)
}

// The nearest of the lines to the east of the place.
fn nearest_here(filed: &FiledLines, place: Vertex) -> Option<PlacedLine>
    requires { AreFiled filed.now }
    ensures { result ≡ nearest filed.now.lines.items place }
{
    nearest(filed.bands[band_at(place)].lines(), place)
}

/// The sector that the place belongs to: what the nearest line to its east shows it. `None` is the void.
pub fn sector_here(map: &Map, filed: &FiledLines, place: Vertex) -> Option<u16>
    requires { AreFiledLines map.now.tables filed.now }
    ensures { result ≡ sector_of_place map.now.tables place }
{
    match nearest_here(filed, place) {
        Some(line) => sector_shown(map, &line, place),
        None => None,
    }
}
