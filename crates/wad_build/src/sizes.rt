//! Lists the lumps of levels by their sizes, which are known before a byte of the PWAD is written.
ghost use Rattle.std.specs.Prelude.{◌≡◌, ◌++◌, [], ◌∷◌, length, OnOk, IfOk, IsOkUnless};
ghost use Rattle.wad_build.specs.Sizes.{lump_sizes, sized_lumps, with_sizes};
ghost use Rattle.wad_build.specs.Views.{built_view, sized_levels};
ghost use Rattle.wad_file.specs.Placed.{sized};

use crate::error::BuildError;
use crate::levels::{BuiltLevel, NamedLevel};
use crate::visibility::reject_len;
use lump_records::Name8;
use map_tables::Kind;
use std::alloc::Global;
use wad_file::LumpList;
use wad_levels::LUMP_NAMES;

// How many bytes each of a level's ten lumps behind the marker has.
fn sizes_of(level: &BuiltLevel<'_>) -> [u128; 10]
    ensures { result ≡ lump_sizes (built_view level.now) }
{
    [
        10 * u128::from(level.map.count(Kind::Thing)),
        14 * u128::from(level.map.count(Kind::Line)),
        30 * u128::from(level.map.count(Kind::Side)),
        4 * level.tree.vertices.len() as u128,
        12 * level.tree.segs.len() as u128,
        4 * level.tree.subs.len() as u128,
        28 * level.tree.nodes.len() as u128,
        26 * u128::from(level.map.count(Kind::Sector)),
        reject_len(level.sectors) as u128,
        level.blockmap.len() as u128,
    ]
}

// Lists a lump. Memory can't hold the levels of a PWAD that would be too long for its directory.
fn list_lump(list: &mut LumpList<'_>, name: Name8, size: u128) -> Result<(), BuildError>
    ensures lump { OnOk result (list.new ≡ list.old ++ sized name size ∷ []) }
    ensures memory { IsOkUnless result BuildError.OutOfMemory }
{
    let Ok(size) = u32::try_from(size) else {
        return Err(BuildError::OutOfMemory);
    };
    if !list.has_room(size as usize, u64::from(u32::MAX)) {
        return Err(BuildError::OutOfMemory);
    }
    list.push_sized(name, size)?;
    Ok(())
}

// Lists lumps of these names and sizes.
fn list_lumps(list: &mut LumpList<'_>, names: &[Name8], sizes: &[u128]) -> Result<(), BuildError>
    requires { length names.now ≡ length sizes.now }
    ensures lumps { OnOk result (list.new ≡ list.old ++ with_sizes names.now sizes.now) }
    ensures memory { IsOkUnless result BuildError.OutOfMemory }
{
    for n in 0..names.len() {
        list_lump(list, names[n], sizes[n])?;
    }
    Ok(())
}

// Lists the marker and the ten lumps of a level.
fn list_level(list: &mut LumpList<'_>, named: &NamedLevel<'_>) -> Result<(), BuildError>
    ensures lumps { OnOk result
        (list.new ≡ list.old ++ sized_lumps named.now.name (built_view named.now.level)) }
    ensures memory { IsOkUnless result BuildError.OutOfMemory }
{
    list_lump(list, named.name, 0)?;
    list_lumps(list, &LUMP_NAMES, &sizes_of(&named.level))?;
    Ok(())
}

/// Lists the lumps of the levels, one level after another.
pub fn list_levels<'a>(alloc: Global, levels: &[NamedLevel<'_>]) -> Result<LumpList<'a>, BuildError>
    ensures lumps { IfOk result (λ list. list ≡ sized_levels levels.now) }
    ensures memory { IsOkUnless result BuildError.OutOfMemory }
{
    let mut list = LumpList::begin(alloc, levels.len().saturating_mul(11))?;
    for n in 0..levels.len() {
        let named = &levels[n];
        list_level(&mut list, named)?;
    }
    Ok(list)
}
