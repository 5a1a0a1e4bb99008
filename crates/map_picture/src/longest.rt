//! The longest line of each of several sectors, found in one pass over the lines.
ghost use Rattle.std.specs.Prelude.{◌≡◌, ◌<◌, ℕ, IfOk, length, slice_index_or};
ghost use Rattle.map_picture.specs.Numbers.{bounds, longer, longest_line, squared_len};
ghost use Rattle.map_picture.specs.Longest.{AreLongest, LooksAt, LooksFor};

use crate::items::sector_of;
use crate::options::PictureError;
use lump_records::{Line, squared_distance};
use map_tables::{Kind, Map};
use std::alloc::Global;

// Whether the line has the sector on a side.
fn bounds(map: &Map, sector: u32, line: &Line) -> bool
    ensures { result ≡ bounds map.now.tables sector line.now }
{
    u32::from(sector_of(map, line.right)) == sector
        || (line.has_left() && u32::from(sector_of(map, line.left)) == sector)
}

// The squared length of the line, in squared map units.
fn squared_len(map: &Map, line: &Line) -> u64
    ensures { result ≡ squared_len map.now.tables line.now }
{
    let (from, to) = map.ends_of(line);
    squared_distance(from, to)
}

// The longest line so far of the sector, after one line more.
fn longer(map: &Map, sector: u32, longest: Option<Line>, line: Line) -> Option<Line>
    ensures { result ≡ longer map.now.tables sector longest line }
{
    let len = match longest {
        Some(longest) => squared_len(map, &longest),
        None => 0,
    };
    if bounds(map, sector, &line) && len < squared_len(map, &line) {
        Some(line)
    } else {
        longest
    }
}

// Takes a line into account for the sector, if it is one of those from `first` on.
fn look_for(longest: &mut [Option<Line>], map: &Map, first: u32, sector: u16, line: &Line)
    ensures { LooksFor map.now.tables first sector line.now longest.old longest.new }
{
    let sector = u32::from(sector);
    if sector < first {
        return;
    }
    let place = (sector - first) as usize;
    if place < longest.len() {
        longest[place] = longer(map, sector, longest[place], *line);
    }
}

// Takes a line into account for the sectors on its sides.
fn look_at(longest: &mut [Option<Line>], map: &Map, first: u32, line: &Line)
    ensures { LooksAt map.now.tables first line.now longest.old longest.new }
{
    let right = sector_of(map, line.right);
    look_for(longest, map, first, right, line);
    if line.has_left() {
        let left = sector_of(map, line.left);
        if right != left {
            look_for(longest, map, first, left, line);
        }
    }
}

// Removes all lines found before.
fn clear(longest: &mut [Option<Line>])
    ensures { (i : ℕ) → i < length longest.new → slice_index_or longest.new i None ≡ None }
{
    for place in longest.iter_mut() {
        *place = None;
    }
}

// Finds the longest line of each sector from `first` on; of several, the first one.
fn find_longest(longest: &mut [Option<Line>], map: &Map, first: u32)
    ensures { AreLongest map.now.tables first map.now.tables.lines longest.new }
{
    clear(longest);
    for n in 0..map.count(Kind::Line) {
        match map.line(n) {
            Some(line) => look_at(longest, map, first, &line),
            None => {}
        }
    }
}

/// The longest line that has the sector on a side; of several, the first one.
pub fn longest_line(map: &Map, sector: u32) -> Option<Line>
    ensures { result ≡ longest_line map.now.tables sector }
{
    let mut longest = [None; 1];
    find_longest(&mut longest, map, sector);
    longest[0]
}

/// The longest line of each sector, if it has one; of several, the first one.
pub(crate) fn all_longest(alloc: Global, map: &Map) -> Result<Vec<Option<Line>>, PictureError>
    ensures count { IfOk result (λ ls. length ls.items ≡ length map.now.tables.sectors) }
    ensures lines { IfOk result (λ ls.
        AreLongest map.now.tables 0 map.now.tables.lines ls.items) }
{
    let mut longest: Vec<Option<Line>> = vec![in alloc; None; map.count(Kind::Sector) as usize]?;
    find_longest(&mut longest, map, 0);
    Ok(longest)
}
