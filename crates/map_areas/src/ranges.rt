//! Whether the numbers and names of areas and pillars are in their ranges.
ghost use Rattle.std.specs.Prelude.{◌≡◌, ◌↔◌, All, IsTrue, pos};
ghost use Rattle.map_areas.specs.InRange.{IsAreaInRange, IsPillarInRange};
ghost use Rattle.map_tables.specs.Ranges.{IsBetween, IsCode, IsNamed, IsSector, IsShort, IsVertex, is_name, name_of, name_text};

use crate::area::Area;
use crate::pillar::Pillar;
use lump_records::{Name8, Sector, Vertex, is_coordinate, is_name};

// Whether nothing but NUL follows the name's text.
fn is_padded(name: &Name8) -> bool
    ensures { IsTrue result ↔ (name.now ≡ name_of (name_text name.now)) }
{
    Name8::from_text(name.text()) == *name
}

// Whether it is the name of a texture or a flat, padded with NUL.
fn is_texture(name: &Name8) -> bool
    ensures { IsTrue result ↔ IsNamed is_name name.now }
{
    is_padded(name) && is_name(name.text())
}

// Whether the number may be a height or an offset: any may.
fn is_short(z: i16) -> bool
    ensures { IsTrue result ↔ IsShort z }
{
    let _ = z;
    true
}

// Whether the number is a special, a tag, a type or options.
fn is_code(z: i16) -> bool
    ensures { IsTrue result ↔ IsCode z }
{
    0 <= z
}

// Whether the number is from 0 to `high`.
fn is_at_most(z: i16, high: i16) -> bool
    ensures { IsTrue result ↔ IsBetween (pos 0) high z }
{
    0 <= z && z <= high
}

// Whether the vertex is in range.
fn is_vertex(vertex: &Vertex) -> bool
    ensures { IsTrue result ↔ IsVertex vertex.now }
{
    is_coordinate(vertex.x) && is_coordinate(vertex.y)
}

// Whether the vertices are in range.
fn are_vertices(vertices: &[Vertex]) -> bool
    ensures { IsTrue result ↔ All IsVertex vertices.now }
{
    for vertex in vertices {
        if !is_vertex(vertex) {
            return false;
        }
    }
    true
}

// Whether the sector's heights are in range.
fn has_heights(sector: &Sector) -> bool
    ensures { IsTrue result ↔ (IsShort sector.now.floor × IsShort sector.now.ceiling) }
{
    is_short(sector.floor) && is_short(sector.ceiling)
}

// Whether the sector's other numbers are in range.
fn has_sector_numbers(sector: &Sector) -> bool
    ensures { IsTrue result
        ↔ (IsBetween (pos 0) (pos 255) sector.now.light × IsCode sector.now.special
        × IsCode sector.now.tag) }
{
    is_at_most(sector.light, 255) && is_code(sector.special) && is_code(sector.tag)
}

// Whether the sector's names are names of flats.
fn has_flats(sector: &Sector) -> bool
    ensures { IsTrue result ↔ (IsNamed is_name sector.now.floor_name
        × IsNamed is_name sector.now.ceiling_name) }
{
    is_texture(&sector.floor_name) && is_texture(&sector.ceiling_name)
}

// Whether the sector is in range.
fn is_sector(sector: &Sector) -> bool
    ensures { IsTrue result ↔ IsSector sector.now }
{
    has_heights(sector) && has_flats(sector) && has_sector_numbers(sector)
}

/// Whether the sector of an area, its wall and its corners are in their ranges.
pub(crate) fn is_area_in_range(area: &Area) -> bool
    ensures { IsTrue result ↔ IsAreaInRange area.now }
{
    is_sector(&area.sector) && is_texture(&area.wall) && are_vertices(&area.corners)
}

/// Whether the wall of a pillar and its corners are in their ranges.
pub(crate) fn is_pillar_in_range(pillar: &Pillar) -> bool
    ensures { IsTrue result ↔ IsPillarInRange pillar.now }
{
    is_texture(&pillar.wall) && are_vertices(&pillar.corners)
}
