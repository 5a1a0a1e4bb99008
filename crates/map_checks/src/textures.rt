//! The textures that the sides of a map miss.
ghost use Rattle.std.specs.Prelude.{◌≡◌, ◌<◌, ◌++◌, ◌&&◌, not, length, true, OnOk, int_lt};
ghost use Rattle.lump_records.specs.Sides.{has_left, is_two_sided};
ghost use Rattle.map_tables.specs.WellFormed.{WellFormed, HasSides, HasSector};
ghost use Rattle.map_checks.specs.Textures.{is_missing, is_sky, upper_shows, side_in, sector_faced, own_side, side_behind, misses_upper, misses_lower, misses, side_misses, line_misses};
ghost use Rattle.map_checks.specs.Findings.{missing_textures};

use crate::error::CheckError;
use crate::finding::{Finding, Texture};
use lump_records::{Line, Name8, Sector, Side};
use map_tables::{Kind, Map};

// A side's textures, in the order of their findings.
const TEXTURES: [Texture; 3] = [Texture::Upper, Texture::Lower, Texture::Middle];

// Whether the name means "no texture".
fn is_missing(name: &Name8) -> bool
    ensures { result ≡ is_missing name.now }
{
    name.text() == b"-".as_slice()
}

// Whether the sector's ceiling is the sky.
fn is_sky(sector: &Sector) -> bool
    ensures { result ≡ is_sky sector.now }
{
    sector.ceiling_name.text() == b"F_SKY1".as_slice()
}

// The side with the number.
fn side_in(map: &Map, n: u16) -> Side
    requires { n < length map.now.tables.sides }
    ensures value { result ≡ side_in map.now.tables n }
    ensures sector { HasSector map.now.tables.sectors result }
{
    map.side(u32::from(n)).unwrap()
}

// The sector that the side faces.
fn sector_of(map: &Map, side: u16) -> Sector
    requires { side < length map.now.tables.sides }
    ensures { result ≡ sector_faced map.now.tables side }
{
    let sector = side_in(map, side).sector;
    map.sector(u32::from(sector)).unwrap()
}

// The number of one of the line's sides.
fn own_side(line: &Line, left: bool) -> u16
    ensures { result ≡ own_side line.now left }
{
    if left { line.left } else { line.right }
}

// The number of the line's side opposite to that one.
fn side_behind(line: &Line, left: bool) -> u16
    ensures { result ≡ side_behind line.now left }
{
    if left { line.right } else { line.left }
}

// Whether the wall above the lower ceiling of `far` is visible from `near`: not if both ceilings are the sky.
fn upper_shows(near: &Sector, far: &Sector) -> bool
    ensures { result ≡ upper_shows near.now far.now }
{
    far.ceiling < near.ceiling && !(is_sky(near) && is_sky(far))
}

// Whether the side `own`, opposite to the side `behind`, misses its upper texture.
fn misses_upper(map: &Map, own: u16, behind: u16) -> bool
    requires own { own < length map.now.tables.sides }
    requires behind { behind < length map.now.tables.sides }
    ensures { result ≡ misses_upper map.now.tables own behind }
{
    upper_shows(&sector_of(map, own), &sector_of(map, behind))
        && is_missing(&side_in(map, own).upper)
}

// Whether the side `own`, opposite to the side `behind`, misses its lower texture: the wall below a higher floor is
// visible.
fn misses_lower(map: &Map, own: u16, behind: u16) -> bool
    requires own { own < length map.now.tables.sides }
    requires behind { behind < length map.now.tables.sides }
    ensures { result ≡ misses_lower map.now.tables own behind }
{
    sector_of(map, own).floor < sector_of(map, behind).floor && is_missing(&side_in(map, own).lower)
}

// Whether one side of the line misses the texture.
fn misses(map: &Map, line: &Line, left: bool, texture: Texture) -> bool
    requires sides { HasSides map.now.tables.sides line.now }
    requires present { left ≡ true → has_left line.now ≡ true }
    ensures { result ≡ misses map.now.tables line.now left texture }
{
    let own = own_side(line, left);
    let behind = side_behind(line, left);
    match texture {
        Texture::Upper => line.is_two_sided() && misses_upper(map, own, behind),
        Texture::Lower => line.is_two_sided() && misses_lower(map, own, behind),
        Texture::Middle => !line.is_two_sided() && is_missing(&side_in(map, own).middle),
    }
}

// Adds a finding for each texture that one side of the line misses.
fn list_side(
    map: &Map,
    n: u32,
    line: &Line,
    left: bool,
    found: &mut Vec<Finding>,
) -> Result<(), CheckError>
    requires sides { HasSides map.now.tables.sides line.now }
    requires present { left ≡ true → has_left line.now ≡ true }
    ensures { OnOk result
        (found.new.items ≡ found.old.items ++ side_misses map.now.tables n line.now left) }
{
    for texture in &TEXTURES {
        if misses(map, line, left, *texture) {
            found.push(Finding::TextureMissing {
                line: n,
                left,
                texture: *texture,
            })?;
        }
    }
    Ok(())
}

// Adds a finding for each texture that the line misses, on its right and then on its left.
fn list_line(map: &Map, n: u32, line: &Line, found: &mut Vec<Finding>) -> Result<(), CheckError>
    requires { HasSides map.now.tables.sides line.now }
    ensures { OnOk result
        (found.new.items ≡ found.old.items ++ line_misses map.now.tables (n, line.now)) }
{
    list_side(map, n, line, false, found)?;
    if line.has_left() {
        list_side(map, n, line, true, found)?;
    }
    Ok(())
}

/// Adds a finding for each texture that a line misses, by line.
pub(crate) fn list_missing_textures(map: &Map, found: &mut Vec<Finding>) -> Result<(), CheckError>
    ensures { OnOk result (found.new.items ≡ found.old.items ++ missing_textures map.now.tables) }
{
    for n in 0..map.count(Kind::Line) {
        let line = map.line(n).unwrap();
        list_line(map, n, &line, found)?;
    }
    Ok(())
}
