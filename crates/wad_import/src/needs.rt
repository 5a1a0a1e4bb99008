//! The first refusal of a level.
ghost use Rattle.std.specs.Prelude.{◌≡◌, not, position, Some, None, if◌then◌else◌};
ghost use Rattle.std.specs.Option.{option_map};
ghost use Rattle.wad_levels.specs.Drawn.{drawn_view, is_drawable};
ghost use Rattle.wad_levels.specs.Lengths.{other_hindrance};
ghost use Rattle.wad_import.specs.declared.error.ImportError.TheVariants.{Hindered};
ghost use Rattle.wad_import.specs.Refused.{first_without, has_flat_names, has_line_codes, has_sector_codes, has_texture_names, is_map_name, is_nameable, is_out_or_has_codes, import_refusal, item_refusal};

use crate::counts::{count_refusal, first_of, reached_vertices};
use crate::error::ImportError;
use crate::mended::mended_name;
use lump_records::{Line, Name8, Sector, Side, Vertex, is_marker, is_name};
use wad_levels::{Drawn, has_no_length, is_drawable, other_hindrance};

// Whether the name, after the changes, may be that of a texture or a flat.
fn is_nameable(name: Name8) -> bool
    ensures { result ≡ is_nameable name }
{
    is_name(mended_name(name).text())
}

// Whether the sector's names, after the changes, may be those of flats.
fn has_flat_names(sector: &Sector) -> bool
    ensures { result ≡ has_flat_names sector.now }
{
    is_nameable(sector.floor_name) && is_nameable(sector.ceiling_name)
}

// Whether the side's names, after the changes, may be those of textures.
fn has_texture_names(side: &Side) -> bool
    ensures { result ≡ has_texture_names side.now }
{
    is_nameable(side.upper) && is_nameable(side.lower) && is_nameable(side.middle)
}

// Whether neither special nor tag of the sector is below 0.
fn has_sector_codes(sector: &Sector) -> bool
    ensures { result ≡ has_sector_codes sector.now }
{
    0 <= sector.special && 0 <= sector.tag
}

// Whether flags, special and tag of the line are at most 32,767.
fn has_line_codes(line: &Line) -> bool
    ensures { result ≡ has_line_codes line.now }
{
    line.flags <= 32767 && line.special <= 32767 && line.tag <= 32767
}

// The number of the first vertex outside the coordinates.
fn vertex_outside(vertices: &[Vertex]) -> Option<usize>
    ensures { result ≡ position (λ x. not (is_drawable x)) vertices.now }
{
    vertices.iter().position(|vertex| !is_drawable(*vertex))
}

// The refusal of the first vertex outside the coordinates.
fn vertex_refusal(vertices: &[Vertex]) -> Option<ImportError>
    ensures { result ≡ first_without ImportError.VertexOutside is_drawable vertices.now }
{
    match vertex_outside(vertices) {
        Some(n) => Some(ImportError::VertexOutside(n)),
        None => None,
    }
}

// The number of the first sector with a name that no flat may have.
fn sector_without_flat(sectors: &[Sector]) -> Option<usize>
    ensures { result ≡ position (λ x. not (has_flat_names x)) sectors.now }
{
    sectors.iter().position(|sector| !has_flat_names(sector))
}

// The refusal of the first sector with a name that no flat may have.
fn flat_refusal(sectors: &[Sector]) -> Option<ImportError>
    ensures { result ≡ first_without ImportError.SectorName has_flat_names sectors.now }
{
    match sector_without_flat(sectors) {
        Some(n) => Some(ImportError::SectorName(n)),
        None => None,
    }
}

// The number of the first sector with a special or tag below 0.
fn sector_below(sectors: &[Sector]) -> Option<usize>
    ensures { result ≡ position (λ x. not (has_sector_codes x)) sectors.now }
{
    sectors.iter().position(|sector| !has_sector_codes(sector))
}

// The refusal of the first sector with a special or tag below 0.
fn sector_refusal(sectors: &[Sector]) -> Option<ImportError>
    ensures { result ≡ first_without ImportError.SectorNumber has_sector_codes sectors.now }
{
    match sector_below(sectors) {
        Some(n) => Some(ImportError::SectorNumber(n)),
        None => None,
    }
}

// The number of the first side with a name that no texture may have.
fn side_without_texture(sides: &[Side]) -> Option<usize>
    ensures { result ≡ position (λ x. not (has_texture_names x)) sides.now }
{
    sides.iter().position(|side| !has_texture_names(side))
}

// The refusal of the first side with a name that no texture may have.
fn side_refusal(sides: &[Side]) -> Option<ImportError>
    ensures { result ≡ first_without ImportError.SideName has_texture_names sides.now }
{
    match side_without_texture(sides) {
        Some(n) => Some(ImportError::SideName(n)),
        None => None,
    }
}

// Whether the line is left out, or its flags, special and tag are at most 32,767.
fn is_out_or_has_codes(drawn: &Drawn, line: &Line) -> bool
    ensures { result ≡ is_out_or_has_codes (drawn_view drawn.now) line.now }
{
    has_no_length(drawn, line) || has_line_codes(line)
}

// The number of the first line that stays with flags, special or tag above 32,767.
fn line_above(drawn: &Drawn) -> Option<usize>
    ensures { let d = drawn_view drawn.now in
        result ≡ position (λ x. not (is_out_or_has_codes d x)) d.lines }
{
    drawn
        .lines
        .iter()
        .position(|line| !is_out_or_has_codes(drawn, line))
}

// The refusal of the first line that stays with flags, special or tag above 32,767.
fn line_refusal(drawn: &Drawn) -> Option<ImportError>
    ensures { let d = drawn_view drawn.now in
        result ≡ first_without ImportError.LineNumber (is_out_or_has_codes d) d.lines }
{
    match line_above(drawn) {
        Some(n) => Some(ImportError::LineNumber(n)),
        None => None,
    }
}

// The refusal of the first item that no map may have, kind by kind.
fn item_refusal(drawn: &Drawn) -> Option<ImportError>
    ensures { result ≡ item_refusal (drawn_view drawn.now) }
{
    let sides = first_of(side_refusal(&drawn.sides), line_refusal(drawn));
    let sectors = first_of(sector_refusal(&drawn.sectors), sides);
    let flats = first_of(flat_refusal(&drawn.sectors), sectors);
    first_of(vertex_refusal(reached_vertices(drawn)), flats)
}

// Whether a map may have the name.
fn is_map_name(name: Name8) -> bool
    ensures { result ≡ is_map_name name }
{
    let padded = Name8::from_text(name.text());
    padded.bytes.as_slice() == name.bytes.as_slice() && is_marker(name.text())
}

// The refusal of a name that no map may have.
fn name_refusal(name: Name8) -> Option<ImportError>
    ensures { result ≡ (if is_map_name name then None else Some ImportError.NoMarker) }
{
    if is_map_name(name) {
        return None;
    }
    Some(ImportError::NoMarker)
}

// The refusal if something prevents a build of the level without its lines of no length.
fn build_refusal(drawn: &Drawn) -> Option<ImportError>
    ensures { result ≡ option_map Hindered (other_hindrance (drawn_view drawn.now)) }
{
    match other_hindrance(drawn) {
        Some(hindrance) => Some(ImportError::Hindered(hindrance)),
        None => None,
    }
}

/// The first refusal of a level.
pub fn import_refusal(drawn: &Drawn, name: Name8) -> Option<ImportError>
    ensures { result ≡ import_refusal name (drawn_view drawn.now) }
{
    let items = first_of(count_refusal(drawn), item_refusal(drawn));
    first_of(build_refusal(drawn), first_of(name_refusal(name), items))
}
