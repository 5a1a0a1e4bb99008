//! Finds the changes of a level.
ghost use Rattle.std.specs.Prelude.{◌≡◌, ◌++◌, IfOk, IsOkUnless};
ghost use Rattle.wad_levels.specs.Drawn.{drawn_view};
ghost use Rattle.wad_import.specs.Mended.{mended_name};
ghost use Rattle.wad_import.specs.Once.{place_changes};
ghost use Rattle.wad_import.specs.Imported.{changes, changes_among, flat_change, light_change, line_change, reached_vertices, same_name, texture_change, thing_change, vertex_changes};

use crate::change::Change;
use crate::counts::reached_vertices;
use crate::error::ImportError;
use crate::mended::{is_kept, lacks_left, mended_angle, mended_light, mended_name};
use lump_records::{Line, Name8, Sector, Side, Thing};
use std::alloc::Global;
use wad_levels::{Drawn, has_no_length};

// Whether the name stays as it is.
fn stays(name: Name8) -> bool
    ensures { result ≡ same_name (mended_name name) name }
{
    mended_name(name).bytes.as_slice() == name.bytes.as_slice()
}

// The change of a sector's light, if any.
fn light_change(n: usize, sector: &Sector) -> Option<Change>
    ensures { result ≡ light_change (n, sector.now) }
{
    let new = mended_light(sector.light);
    if new == sector.light {
        return None;
    }
    Some(Change::Light(n, sector.light, new))
}

// The change of a sector's flats, if any.
fn flat_change(n: usize, sector: &Sector) -> Option<Change>
    ensures { result ≡ flat_change (n, sector.now) }
{
    if stays(sector.floor_name) && stays(sector.ceiling_name) {
        return None;
    }
    Some(Change::Flats(n))
}

// The change of a side's textures, if any.
fn texture_change(n: usize, side: &Side) -> Option<Change>
    ensures { result ≡ texture_change (n, side.now) }
{
    if stays(side.upper) && stays(side.lower) && stays(side.middle) {
        return None;
    }
    Some(Change::Textures(n))
}

// The change of a line, if any.
fn line_change(drawn: &Drawn, n: usize, line: &Line) -> Option<Change>
    ensures { result ≡ line_change (drawn_view drawn.now) (n, line.now) }
{
    if has_no_length(drawn, line) {
        return Some(Change::LineOut(n));
    }
    if lacks_left(line) {
        return Some(Change::TwoSided(n));
    }
    None
}

// The change of a thing, if any.
fn thing_change(n: usize, thing: &Thing) -> Option<Change>
    ensures { result ≡ thing_change (n, thing.now) }
{
    if !is_kept(thing) {
        return Some(Change::ThingOut(n));
    }
    let new = mended_angle(thing.angle);
    if new == thing.angle {
        return None;
    }
    Some(Change::Angle(n, thing.angle, new))
}

// The change for the vertices after the last one that a line uses.
fn vertex_changes(alloc: Global, drawn: &Drawn) -> Result<Vec<Change>, ImportError>
    ensures list { IfOk result (λ list. list.items ≡ vertex_changes (drawn_view drawn.now)) }
    ensures memory { IsOkUnless result ImportError.OutOfMemory }
{
    let mut list = Vec::new(alloc);
    let behind = drawn.vertices.len() - reached_vertices(drawn).len();
    if behind > 0 {
        list.push(Change::VerticesBehind(behind))?;
    }
    Ok(list)
}

// The changes of the sectors' light.
fn light_changes(alloc: Global, sectors: &[Sector]) -> Result<Vec<Change>, ImportError>
    ensures list { IfOk result (λ list. list.items ≡ changes_among light_change sectors.now) }
    ensures memory { IsOkUnless result ImportError.OutOfMemory }
{
    let list = sectors
        .iter()
        .enumerate()
        .filter_map(|(n, sector)| light_change(n, sector))
        .collect(alloc)?;
    Ok(list)
}

// The changes of the sectors' flats.
fn flat_changes(alloc: Global, sectors: &[Sector]) -> Result<Vec<Change>, ImportError>
    ensures list { IfOk result (λ list. list.items ≡ changes_among flat_change sectors.now) }
    ensures memory { IsOkUnless result ImportError.OutOfMemory }
{
    let list = sectors
        .iter()
        .enumerate()
        .filter_map(|(n, sector)| flat_change(n, sector))
        .collect(alloc)?;
    Ok(list)
}

// The changes of the sides' textures.
fn texture_changes(alloc: Global, sides: &[Side]) -> Result<Vec<Change>, ImportError>
    ensures list { IfOk result (λ list. list.items ≡ changes_among texture_change sides.now) }
    ensures memory { IsOkUnless result ImportError.OutOfMemory }
{
    let list = sides
        .iter()
        .enumerate()
        .filter_map(|(n, side)| texture_change(n, side))
        .collect(alloc)?;
    Ok(list)
}

// The changes of the lines.
fn line_changes(alloc: Global, drawn: &Drawn) -> Result<Vec<Change>, ImportError>
    ensures list { let d = drawn_view drawn.now in
        IfOk result (λ list. list.items ≡ changes_among (line_change d) d.lines) }
    ensures memory { IsOkUnless result ImportError.OutOfMemory }
{
    let list = drawn
        .lines
        .iter()
        .enumerate()
        .filter_map(|(n, line)| line_change(drawn, n, line))
        .collect(alloc)?;
    Ok(list)
}

// The changes of the things.
fn thing_changes(alloc: Global, things: &[Thing]) -> Result<Vec<Change>, ImportError>
    ensures list { IfOk result (λ list. list.items ≡ changes_among thing_change things.now) }
    ensures memory { IsOkUnless result ImportError.OutOfMemory }
{
    let list = things
        .iter()
        .enumerate()
        .filter_map(|(n, thing)| thing_change(n, thing))
        .collect(alloc)?;
    Ok(list)
}

/// All changes of a level: of vertices, sectors, sides, lines and things, in this order. `again` has those of vertices
/// at the place of an earlier one.
pub fn changes_of(
    alloc: Global,
    drawn: &Drawn,
    again: &[Change],
) -> Result<Vec<Change>, ImportError>
    requires { again.now ≡ place_changes (reached_vertices (drawn_view drawn.now)) }
    ensures list { IfOk result (λ list. list.items ≡ changes (drawn_view drawn.now)) }
    ensures memory { IsOkUnless result ImportError.OutOfMemory }
{
    let mut list = vertex_changes(alloc, drawn)?;
    list.extend_from_slice(again)?;
    list.extend_from_slice(&light_changes(alloc, &drawn.sectors)?)?;
    list.extend_from_slice(&flat_changes(alloc, &drawn.sectors)?)?;
    list.extend_from_slice(&texture_changes(alloc, &drawn.sides)?)?;
    list.extend_from_slice(&line_changes(alloc, drawn)?)?;
    list.extend_from_slice(&thing_changes(alloc, &drawn.things)?)?;
    Ok(list)
}
