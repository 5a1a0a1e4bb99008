//! Walls that show rows past the last one of their textures.
ghost use Rattle.std.specs.Prelude.{◌≡◌, ◌<◌, length, true};
ghost use Rattle.lump_records.specs.Sides.{has_left, is_two_sided};
ghost use Rattle.map_tables.specs.WellFormed.{HasSector, HasSides};
ghost use Rattle.map_checks.specs.Textures.{sector_faced, side_in, upper_shows};
ghost use Rattle.map_lint.specs.Short.{lower_short, middle_short, part_short, texture_shown, upper_short, wall_short};
ghost use Rattle.map_lint.specs.TextureIndex.{IsTextureIndex};

use crate::rows::{go_past, is_sky, lower_rows, middle_rows, upper_rows};
use crate::rules::names_texture;
use crate::texture_index::TextureIndex;
use crate::wall::{Part, Wall};
use crate::walls::{is_middle, own_side};
use lump_records::{Line, Name8, Sector, Side};
use lump_textures::Texture;
use map_tables::Map;

/// The texture that the name means, if it isn't "no texture".
pub(crate) fn texture_shown(textures: &TextureIndex<'_>, name: &Name8) -> Option<Texture>
    requires { IsTextureIndex textures.now }
    ensures { result ≡ texture_shown textures.now.textures.now name.now }
{
    if names_texture(name) {
        textures.named(name)
    } else {
        None
    }
}

// Whether the middle wall of the side, which faces the sector, shows rows past its texture's last one.
fn middle_short(textures: &TextureIndex<'_>, line: &Line, own: &Side, sector: &Sector) -> bool
    requires { IsTextureIndex textures.now }
    ensures { result ≡ middle_short textures.now.textures.now line.now own.now sector.now }
{
    match texture_shown(textures, &own.middle) {
        Some(texture) => go_past(
            texture.height,
            middle_rows(line, own, sector, texture.height),
        ),
        None => false,
    }
}

// Whether the wall above the lower ceiling of `far` is visible from `near`: not if both ceilings are the sky.
fn upper_shows(near: &Sector, far: &Sector) -> bool
    ensures { result ≡ upper_shows near.now far.now }
{
    far.ceiling < near.ceiling && !(is_sky(near) && is_sky(far))
}

// The same of the upper wall of the side, which faces `near` before `far`.
fn upper_short(
    textures: &TextureIndex<'_>,
    line: &Line,
    own: &Side,
    near: &Sector,
    far: &Sector,
) -> bool
    requires { IsTextureIndex textures.now }
    ensures { result ≡ upper_short textures.now.textures.now line.now own.now near.now far.now }
{
    if !upper_shows(near, far) {
        return false;
    }
    match texture_shown(textures, &own.upper) {
        Some(texture) => go_past(
            texture.height,
            upper_rows(line, own, near, far, texture.height),
        ),
        None => false,
    }
}

// The same of its lower wall.
fn lower_short(
    textures: &TextureIndex<'_>,
    line: &Line,
    own: &Side,
    near: &Sector,
    far: &Sector,
) -> bool
    requires { IsTextureIndex textures.now }
    ensures { result ≡ lower_short textures.now.textures.now line.now own.now near.now far.now }
{
    if far.floor <= near.floor {
        return false;
    }
    match texture_shown(textures, &own.lower) {
        Some(texture) => go_past(texture.height, lower_rows(line, own, near, far)),
        None => false,
    }
}

/// The side with the number.
pub(crate) fn side_in(map: &Map, n: u16) -> Side
    requires { n < length map.now.tables.sides }
    ensures value { result ≡ side_in map.now.tables n }
    ensures sector { HasSector map.now.tables.sectors result }
{
    map.side(u32::from(n)).unwrap()
}

// The sector that the side faces.
fn sector_of(map: &Map, side: u16) -> Sector
    requires { side < length map.now.tables.sides }
    ensures { result ≡ sector_faced map.now.tables side }
{
    let sector = side_in(map, side).sector;
    map.sector(u32::from(sector)).unwrap()
}

// Whether the part of the side `own` does, in front of the side `behind`: the upper or the lower wall of a two-sided
// line, the middle wall of any other.
fn part_short(
    textures: &TextureIndex<'_>,
    map: &Map,
    line: &Line,
    own: u16,
    behind: u16,
    part: Part,
) -> bool
    requires set { IsTextureIndex textures.now }
    requires own { own < length map.now.tables.sides }
    requires behind { is_two_sided line.now ≡ true → behind < length map.now.tables.sides }
    ensures { result
        ≡ part_short textures.now.textures.now map.now.tables line.now own behind part }
{
    let side = side_in(map, own);
    let near = sector_of(map, own);
    if !line.is_two_sided() {
        return is_middle(part) && middle_short(textures, line, &side, &near);
    }
    let far = sector_of(map, behind);
    match part {
        Part::Upper => upper_short(textures, line, &side, &near, &far),
        Part::Lower => lower_short(textures, line, &side, &near, &far),
        Part::Middle => false,
    }
}

/// Whether the wall shows rows past the last one of its texture.
pub(crate) fn wall_short(textures: &TextureIndex<'_>, map: &Map, line: &Line, wall: Wall) -> bool
    requires set { IsTextureIndex textures.now }
    requires sides { HasSides map.now.tables.sides line.now }
    requires wall { wall.is_left ≡ true → has_left line.now ≡ true }
    ensures { result ≡ wall_short textures.now.textures.now map.now.tables line.now wall }
{
    let own = own_side(line, wall.is_left);
    let behind = own_side(line, !wall.is_left);
    part_short(textures, map, line, own, behind, wall.part)
}
