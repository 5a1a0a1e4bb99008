//! The textures of a WAD by their names.
ghost use Rattle.std.specs.Prelude.{◌≡◌, IfOk, OnOk};
ghost use Rattle.lump_textures.specs.Named.{texture_named};
ghost use Rattle.map_lint.specs.TextureIndex.{IsTextureIndex, Notes};

use crate::error::LintError;
use indexmap::IndexMap;
use lump_records::Name8;
use lump_textures::Texture;
use std::alloc::Global;

/// Textures, and of each name the first one with it.
#[derive(Drop)]
pub(crate) struct TextureIndex<'a> {
    pub textures: &'a [Texture],
    pub by_name: IndexMap<[u8; 8], Texture>,
}

// Notes the texture under its name, unless an earlier one has it.
fn note(by_name: &mut IndexMap<[u8; 8], Texture>, texture: &Texture) -> Result<(), LintError>
    ensures { OnOk result (Notes texture.now by_name.old by_name.new) }
{
    if by_name.contains_key(&texture.name.bytes) {
        return Ok(());
    }
    match by_name.insert(texture.name.bytes, *texture) {
        Ok(_) => Ok(()),
        Err(_) => Err(LintError::OutOfMemory),
    }
}

/// The textures by their names.
pub(crate) fn index_of<'a>(
    alloc: Global,
    textures: &'a [Texture],
) -> Result<TextureIndex<'a>, LintError>
    ensures textures { IfOk result (λ index. index.textures.now ≡ textures.now) }
    ensures index { IfOk result IsTextureIndex }
{
    let mut by_name = IndexMap::new(alloc);
    for texture in textures {
        note(&mut by_name, texture)?;
    }
    Ok(TextureIndex { textures, by_name })
}

impl TextureIndex<'_> {
    /// The first texture with the name.
    pub(crate) fn named(&self, name: &Name8) -> Option<Texture>
        requires { IsTextureIndex self.now }
        ensures { result ≡ texture_named self.now.textures.now name.now }
    {
        self.by_name.get(&name.bytes).copied()
    }
}
