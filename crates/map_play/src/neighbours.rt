//! Sectors that rise to the next higher floor round them, and have more higher neighbours than the engine can list.
ghost use Rattle.std.specs.Prelude.{◌≡◌, count_by};
ghost use Rattle.map_play.specs.Neighbours.{floor_of, is_higher_across, rises, overfills_list};
ghost use Rattle.map_play.specs.Sided.{sided_lines};
ghost use Rattle.map_play.specs.Specials.{raisers, special_tag};
ghost use Rattle.map_play.specs.Tags.{MarksTags};

use crate::donuts::{is_beside, sector_across};
use crate::sided::SidedLine;
use crate::tags::tag_of;
use map_tables::Map;

/// The floor of the sector with the number, or 0.
pub(crate) fn floor_of(map: &Map, n: u32) -> i16
    ensures { result ≡ floor_of map.now.tables.sectors n }
{
    match map.sector(n) {
        Some(sector) => sector.floor,
        None => 0,
    }
}

// Whether the sector is beside the line, and a sector with a higher floor lies across.
fn is_higher_across(map: &Map, n: u32, line: &SidedLine) -> bool
    ensures { result ≡ is_higher_across map.now.tables.sectors n line.now }
{
    if !is_beside(n, line) {
        return false;
    }
    match sector_across(n, line) {
        Some(other) => floor_of(map, n) < floor_of(map, u32::from(other)),
        None => false,
    }
}

// Across how many of the lines a sector with a higher floor lies.
fn count_higher(map: &Map, n: u32, lines: &[SidedLine]) -> usize
    ensures { result ≡ count_by (is_higher_across map.now.tables.sectors n) lines.now }
{
    lines
        .iter()
        .filter(|line| is_higher_across(map, n, line))
        .count()
}

// Whether sector n has a tag of these, which isn't 0.
fn rises(map: &Map, tags: &[bool], n: u32) -> bool
    requires { MarksTags (special_tag raisers) map.now.tables.lines tags.now }
    ensures { result ≡ rises map.now.tables n }
{
    match map.sector(n) {
        Some(sector) => {
            let tag = tag_of(&sector);
            tag != 0 && tags[usize::from(tag)]
        }
        None => false,
    }
}

/// Whether sector n rises to the next higher floor, and across more than 22 lines lies a sector with a higher one.
pub(crate) fn has_too_many_higher(map: &Map, tags: &[bool], lines: &[SidedLine], n: u32) -> bool
    requires tags { MarksTags (special_tag raisers) map.now.tables.lines tags.now }
    requires lines { lines.now ≡ sided_lines map.now.tables }
    ensures { result ≡ overfills_list map.now.tables n }
{
    rises(map, tags, n) && count_higher(map, n, lines) > 22
}
