//! Teleporters and their landings.
ghost use Rattle.std.specs.Prelude.{◌≡◌, IfOk};
ghost use Rattle.map_plane.specs.Nearest.{sector_of_place};
ghost use Rattle.map_plane.specs.Bands.{AreFiledLines};
ghost use Rattle.map_play.specs.Tags.{tag_of, MarksTags};
ghost use Rattle.map_play.specs.Teleports.{tag_at, landing_tag, leads_nowhere};

use crate::specials::{LANDINGS, TELEPORTERS, has_special, has_type};
use crate::tags::{tag_count, tag_of};
use lump_records::{Line, Thing, Vertex};
use map_plane::{FiledLines, sector_here};
use map_tables::{Kind, Map};
use std::alloc::{AllocError, Global};

// The tag of the sector with the number, if there is one, otherwise 0.
fn tag_at(map: &Map, filed: &FiledLines, place: Vertex) -> u16
    requires { AreFiledLines map.now.tables filed.now }
    ensures { result ≡ tag_at map.now.tables place }
{
    let Some(number) = sector_here(map, filed, place) else {
        return 0;
    };
    match map.sector(u32::from(number)) {
        Some(sector) => tag_of(&sector),
        None => 0,
    }
}

// The tag of the sector that a landing belongs to; 0 for any other thing.
fn landing_tag(map: &Map, filed: &FiledLines, thing: &Thing) -> u16
    requires { AreFiledLines map.now.tables filed.now }
    ensures { result ≡ landing_tag map.now.tables thing.now }
{
    if has_type(&LANDINGS, thing) {
        tag_at(map, filed, thing.place())
    } else {
        0
    }
}

/// Marks the tags of the sectors that landings belong to.
pub(crate) fn landing_tags(
    alloc: Global,
    map: &Map,
    filed: &FiledLines,
) -> Result<Vec<bool>, AllocError>
    requires { AreFiledLines map.now.tables filed.now }
    ensures { IfOk result
        (λ tags. MarksTags (landing_tag map.now.tables) map.now.tables.things tags.items) }
{
    let mut tags = vec![in alloc; false; tag_count()]?;
    for n in 0..map.count(Kind::Thing) {
        let thing = map.thing(n).unwrap();
        tags[usize::from(landing_tag(map, filed, &thing))] = true;
    }
    Ok(tags)
}

/// Whether the line is a teleporter, sectors have its tag, which isn't 0, and no landing belongs to one of them.
pub(crate) fn lands_nowhere(
    map: &Map,
    sector_tags: &[bool],
    landing_tags: &[bool],
    line: &Line,
) -> bool
    requires sectors { MarksTags tag_of map.now.tables.sectors sector_tags.now }
    requires landings { MarksTags (landing_tag map.now.tables)
        map.now.tables.things landing_tags.now }
    ensures { result ≡ leads_nowhere map.now.tables line.now }
{
    let tag = usize::from(line.tag);
    has_special(&TELEPORTERS, line) && line.tag != 0 && sector_tags[tag] && !landing_tags[tag]
}
