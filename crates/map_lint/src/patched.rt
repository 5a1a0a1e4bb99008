//! Middle walls of two-sided lines, on whose textures patches share a column.
ghost use Rattle.std.specs.Prelude.{◌≡◌, true};
ghost use Rattle.lump_records.specs.Sides.{has_left};
ghost use Rattle.map_tables.specs.WellFormed.{HasSides};
ghost use Rattle.map_lint.specs.Patched.{names_patched, wall_patched};
ghost use Rattle.map_lint.specs.TextureIndex.{IsTextureIndex};

use crate::short::texture_shown;
use crate::texture_index::TextureIndex;
use crate::wall::Wall;
use crate::walls::{is_middle, name_on};
use lump_records::{Line, Name8};
use map_tables::Map;

// Whether the name means a texture with a column that more than one of its patches covers.
fn names_patched(textures: &TextureIndex<'_>, name: &Name8) -> bool
    requires { IsTextureIndex textures.now }
    ensures { result ≡ names_patched textures.now.textures.now name.now }
{
    match texture_shown(textures, name) {
        Some(texture) => texture.is_patched,
        None => false,
    }
}

/// Whether the wall is a middle one of a two-sided line, and its texture is such a one.
pub(crate) fn wall_patched(textures: &TextureIndex<'_>, map: &Map, line: &Line, wall: Wall) -> bool
    requires set { IsTextureIndex textures.now }
    requires sides { HasSides map.now.tables.sides line.now }
    requires wall { wall.is_left ≡ true → has_left line.now ≡ true }
    ensures { result ≡ wall_patched textures.now.textures.now map.now.tables line.now wall }
{
    line.is_two_sided()
        && is_middle(wall.part)
        && names_patched(textures, &name_on(map, line, wall))
}
