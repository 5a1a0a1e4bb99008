//! Which tags the sectors of a map have, and which its lines with some specials.
ghost use Rattle.std.specs.Prelude.{◌≡◌, IfOk};
ghost use Rattle.map_play.specs.Specials.{special_tag};
ghost use Rattle.map_play.specs.Tags.{tag_of, MarksTags};

use crate::specials::special_tag;
use lump_records::Sector;
use map_tables::{Kind, Map};
use std::alloc::{AllocError, Global};

/// A sector's tag, which is never negative.
pub fn tag_of(sector: &Sector) -> u16
    ensures { result ≡ tag_of sector.now }
{
    sector.tag.unsigned_abs()
}

/// How many tags there are. It is a function, so that no proof evaluates the number.
pub fn tag_count() -> usize
    ensures { result ≡ 65536 }
{
    65_536
}

/// Marks the tags that a sector has.
pub(crate) fn tags_of_sectors(alloc: Global, map: &Map) -> Result<Vec<bool>, AllocError>
    ensures { IfOk result (λ tags. MarksTags tag_of map.now.tables.sectors tags.items) }
{
    let mut tags = vec![in alloc; false; tag_count()]?;
    for n in 0..map.count(Kind::Sector) {
        let sector = map.sector(n).unwrap();
        tags[usize::from(tag_of(&sector))] = true;
    }
    Ok(tags)
}

/// Marks the tags of the lines with one of these specials. It may mark 0, which is no tag.
pub(crate) fn special_tags(
    alloc: Global,
    map: &Map,
    runs: &[(i32, i32)],
) -> Result<Vec<bool>, AllocError>
    ensures { IfOk result
        (λ tags. MarksTags (special_tag runs.now) map.now.tables.lines tags.items) }
{
    let mut tags = vec![in alloc; false; tag_count()]?;
    for n in 0..map.count(Kind::Line) {
        let line = map.line(n).unwrap();
        tags[usize::from(special_tag(runs, &line))] = true;
    }
    Ok(tags)
}
