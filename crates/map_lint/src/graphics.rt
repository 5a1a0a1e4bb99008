//! Finds what a WAD's flats and textures lack for a level.
ghost use Rattle.std.specs.Prelude.{◌≡◌, ◌++◌, IfOk, OnOk, IsOkUnless, option_and_then, option_to_list, slice_get, true};
ghost use Rattle.lump_records.specs.Sides.{has_left};
ghost use Rattle.map_tables.specs.WellFormed.{HasSides};
ghost use Rattle.map_lint.specs.TextureIndex.{IsTextureIndex};
ghost use Rattle.map_lint.specs.Graphics.{IsNameSet, graphic_breaches, graphic_warning, graphic_warnings, is_flat_known, is_one_of, is_texture_known, shows_wrong, unknown_flat, wall_breaks, wrong_on, wrong_wall};

use crate::error::LintError;
use crate::patched::wall_patched;
use crate::rules::{names_texture, reach};
use crate::short::wall_short;
use crate::shown::Shown;
use crate::texture_index::{TextureIndex, index_of};
use crate::wall::{Surface, WALLS, Wall};
use crate::walls::{has_wall, name_on};
use crate::warning::{Rule, Warning};
use crate::whereabouts::whereabouts_of;
use indexmap::IndexSet;
use lump_records::{Line, Name8, Sector};
use lump_textures::Texture;
use map_tables::Map;
use std::alloc::Global;

// Names, and the set of their bytes.
#[derive(Drop)]
struct NameSet<'a> {
    names: &'a [Name8],
    bytes: IndexSet<[u8; 8]>,
}

// The rules that a WAD's flats and textures decide, in the order of their warnings.
const GRAPHIC_RULES: [Rule; 4] = [
    Rule::FlatKnown,
    Rule::TextureKnown,
    Rule::TextureReaches,
    Rule::PatchesApart,
];

// The names as a set.
fn set_of<'a>(alloc: Global, names: &'a [Name8]) -> Result<NameSet<'a>, LintError>
    ensures names { IfOk result (λ set. set.names.now ≡ names.now) }
    ensures set { IfOk result IsNameSet }
{
    let mut bytes = IndexSet::new(alloc);
    for name in names {
        bytes.insert(name.bytes)?;
    }
    Ok(NameSet { names, bytes })
}

impl NameSet<'_> {
    // Whether the name is one of these.
    fn has(&self, name: &Name8) -> bool
        requires { IsNameSet self.now }
        ensures { result ≡ is_one_of self.now.names.now name.now }
    {
        self.bytes.contains(&name.bytes)
    }
}

// Whether the name is the sky's or a flat's.
fn is_flat_known(flats: &NameSet<'_>, name: &Name8) -> bool
    requires { IsNameSet flats.now }
    ensures { result ≡ is_flat_known flats.now.names.now name.now }
{
    name.text() == b"F_SKY1".as_slice() || flats.has(name)
}

// Whether the name means "no texture" or is a texture's.
fn is_texture_known(textures: &TextureIndex<'_>, name: &Name8) -> bool
    requires { IsTextureIndex textures.now }
    ensures { result ≡ is_texture_known textures.now.textures.now name.now }
{
    !names_texture(name) || textures.named(name).is_some()
}

// The floor or else the ceiling of the sector, if its flat is unknown.
fn unknown_flat(flats: &NameSet<'_>, sector: &Sector) -> Option<Shown>
    requires { IsNameSet flats.now }
    ensures { result ≡ unknown_flat flats.now.names.now sector.now }
{
    if !is_flat_known(flats, &sector.floor_name) {
        return Some(Shown {
            surface: Surface::Floor,
            name: sector.floor_name,
        });
    }
    if !is_flat_known(flats, &sector.ceiling_name) {
        return Some(Shown {
            surface: Surface::Ceiling,
            name: sector.ceiling_name,
        });
    }
    None
}

// Whether what the wall shows breaks the rule.
fn shows_wrong(textures: &TextureIndex<'_>, map: &Map, rule: Rule, line: &Line, wall: Wall) -> bool
    requires set { IsTextureIndex textures.now }
    requires sides { HasSides map.now.tables.sides line.now }
    requires wall { wall.is_left ≡ true → has_left line.now ≡ true }
    ensures { result ≡ shows_wrong textures.now.textures.now map.now.tables rule line.now wall }
{
    match rule {
        Rule::TextureKnown => !is_texture_known(textures, &name_on(map, line, wall)),
        Rule::TextureReaches => wall_short(textures, map, line, wall),
        Rule::PatchesApart => wall_patched(textures, map, line, wall),
        _ => false,
    }
}

// Whether the line has the wall, and what it shows breaks the rule.
fn wall_breaks(textures: &TextureIndex<'_>, map: &Map, rule: Rule, line: &Line, wall: Wall) -> bool
    requires set { IsTextureIndex textures.now }
    requires sides { HasSides map.now.tables.sides line.now }
    ensures breaks { result
        ≡ wall_breaks textures.now.textures.now map.now.tables rule line.now wall }
    ensures there { result ≡ true → wall.is_left ≡ true → has_left line.now ≡ true }
{
    has_wall(line, wall) && shows_wrong(textures, map, rule, line, wall)
}

// The first wall of the line that breaks the rule, and the name on it.
fn wrong_wall(textures: &TextureIndex<'_>, map: &Map, rule: Rule, line: &Line) -> Option<Shown>
    requires set { IsTextureIndex textures.now }
    requires sides { HasSides map.now.tables.sides line.now }
    ensures { result ≡ wrong_wall textures.now.textures.now map.now.tables rule line.now }
{
    for wall in &WALLS {
        if wall_breaks(textures, map, rule, line, *wall) {
            return Some(Shown {
                surface: Surface::OfLine(*wall),
                name: name_on(map, line, *wall),
            });
        }
    }
    None
}

// What shows on sector n that breaks the rule on flats.
fn wrong_on_sector(flats: &NameSet<'_>, map: &Map, n: u32) -> Option<Shown>
    requires { IsNameSet flats.now }
    ensures { result ≡ option_and_then (unknown_flat flats.now.names.now)
        (slice_get map.now.tables.sectors n) }
{
    match map.sector(n) {
        Some(sector) => unknown_flat(flats, &sector),
        None => None,
    }
}

// What shows on line n that breaks a rule on textures.
fn wrong_on_line(textures: &TextureIndex<'_>, map: &Map, rule: Rule, n: u32) -> Option<Shown>
    requires { IsTextureIndex textures.now }
    ensures { result
        ≡ option_and_then (wrong_wall textures.now.textures.now map.now.tables rule)
        (slice_get map.now.tables.lines n) }
{
    match map.line(n) {
        Some(line) => wrong_wall(textures, map, rule, &line),
        None => None,
    }
}

// What shows on item n that breaks the rule.
fn wrong_on(
    flats: &NameSet<'_>,
    textures: &TextureIndex<'_>,
    map: &Map,
    rule: Rule,
    n: u32,
) -> Option<Shown>
    requires flats { IsNameSet flats.now }
    requires textures { IsTextureIndex textures.now }
    ensures { result
        ≡ wrong_on flats.now.names.now textures.now.textures.now map.now.tables rule n }
{
    match rule {
        Rule::FlatKnown => wrong_on_sector(flats, map, n),
        _ => wrong_on_line(textures, map, rule, n),
    }
}

// The warning about item n, if it breaks the rule.
fn graphic_warning(
    flats: &NameSet<'_>,
    textures: &TextureIndex<'_>,
    map: &Map,
    rule: Rule,
    n: u32,
) -> Option<Warning>
    requires flats { IsNameSet flats.now }
    requires textures { IsTextureIndex textures.now }
    ensures { result
        ≡ graphic_warning flats.now.names.now textures.now.textures.now map.now.tables rule n }
{
    match wrong_on(flats, textures, map, rule, n) {
        Some(shown) => Some(Warning {
            rule,
            number: n,
            whereabouts: whereabouts_of(map, rule, n),
            shown: Some(shown),
        }),
        None => None,
    }
}

// Adds the warning, if there is one.
fn add(warning: Option<Warning>, found: &mut Vec<Warning>) -> Result<(), LintError>
    ensures { OnOk result (found.new.items ≡ found.old.items ++ option_to_list warning) }
{
    if let Some(warning) = warning {
        found.push(warning)?;
    }
    Ok(())
}

// Adds a warning for each item that breaks the rule.
fn list_graphics(
    flats: &NameSet<'_>,
    textures: &TextureIndex<'_>,
    map: &Map,
    rule: Rule,
    found: &mut Vec<Warning>,
) -> Result<(), LintError>
    requires flats { IsNameSet flats.now }
    requires textures { IsTextureIndex textures.now }
    ensures { OnOk result (found.new.items ≡ found.old.items
        ++ graphic_breaches flats.now.names.now textures.now.textures.now map.now.tables rule) }
{
    for n in 0..reach(map, rule) {
        add(graphic_warning(flats, textures, map, rule, n), found)?;
    }
    Ok(())
}

/// Lists what a WAD with these flats and textures lacks for a level: a warning for each sector with an unknown flat,
/// for each line with an unknown texture on a side, for each line of which a wall shows rows past the last one of its
/// texture, and for each two-sided line with a middle texture of which several patches share a column, by number. Each
/// names the first surface of which this holds, and what is on it. `F_SKY1` is always known, as the sky, and so is `-`,
/// as no texture. Fails only if memory runs out.
pub fn lint_graphics(
    alloc: Global,
    map: &Map,
    flats: &[Name8],
    textures: &[Texture],
) -> Result<Vec<Warning>, LintError>
    ensures found { IfOk result
        (λ found. found.items ≡ graphic_warnings flats.now textures.now map.now.tables) }
    ensures memory { IsOkUnless result LintError.OutOfMemory }
{
    let flats = set_of(alloc, flats)?;
    let textures = index_of(alloc, textures)?;
    let mut found = Vec::new(alloc);
    for rule in &GRAPHIC_RULES {
        list_graphics(&flats, &textures, map, *rule, &mut found)?;
    }
    Ok(found)
}
