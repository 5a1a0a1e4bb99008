//! The line that is nearest to the east of a place, and the sector that it shows the place.
ghost use Rattle.std.specs.Prelude.{◌≡◌, ◌≤◌, ◌*◌, ◌^◌, ◌≤ℤ◌, ◌*ℤ◌, pos, neg_ℤ, Option, fold, unsigned_abs};
ghost use Rattle.std.specs.Option.{option_and_then};
ghost use Rattle.map_plane.specs.Meeting.{side_value_at};
ghost use Rattle.map_plane.specs.Nearest.{climbs_past, gap, row_count, is_behind, is_east, lies_left, is_nearer, lies_right, lean, leans_less, nearer_of, nearest, sector_of_place, sector_shown, side_shown};
ghost use Rattle.map_plane.specs.Places.{placed_lines};

use crate::meeting::side_of;
use crate::outside::comes_down;
use crate::places::{PlacedLine, placed};
use lump_records::{Vertex, product};
use map_tables::{Kind, Map};

// Whether the line goes up across the row, so that its left is to the west.
#[tactic(auto, unfolding(crate::specs::Nearest::climbs_past))]
fn climbs_past(line: &PlacedLine, y: i16) -> bool
    ensures { result ≡ climbs_past line.now y }
{
    comes_down(y, line.to.y, line.from.y)
}

// How much further to the east the upper end of the line is than its lower end.
#[tactic(auto, unfolding(crate::specs::Nearest::lean))]
fn lean(line: &PlacedLine) -> i64
    ensures value { result ≡ lean line.now }
    ensures low { neg_ℤ (pos 65535) ≤ℤ result }
    ensures high { result ≤ℤ pos 65535 }
{
    if line.from.y < line.to.y {
        i64::from(line.to.x) - i64::from(line.from.x)
    } else {
        i64::from(line.from.x) - i64::from(line.to.x)
    }
}

// How many rows the ends of the line are apart.
#[tactic(auto, unfolding(crate::specs::Nearest::row_count))]
fn row_count(line: &PlacedLine) -> u64
    ensures value { result ≡ row_count line.now }
    ensures high { result ≤ 65535 }
{
    (i64::from(line.to.y) - i64::from(line.from.y)).unsigned_abs()
}

// How far the place is from the line along its row, times the line's height.
#[tactic(auto, unfolding(crate::specs::Nearest::gap))]
fn gap(line: &PlacedLine, place: Vertex) -> u64
    ensures value { result ≡ gap line.now place }
    ensures high { result ≤ 2 ^ 48 }
{
    side_of(line, place).unsigned_abs()
}

// The product of a gap and a height.
fn scaled(gap: u64, height: u64) -> u64
    requires gap { gap ≤ 2 ^ 48 }
    requires height { height ≤ 65535 }
    ensures { result ≡ gap * height }
{
    gap * height
}

// Whether the place lies on the line's straight line, which leans to the east.
#[tactic(auto, unfolding(crate::specs::Nearest::is_behind))]
fn is_behind(line: &PlacedLine, place: Vertex) -> bool
    ensures { result ≡ is_behind line.now place }
{
    let side = side_of(line, place);
    side == 0 && 0 < lean(line)
}

// Whether the place is on the left of the line, which goes up past it, or just above it is.
#[tactic(auto, unfolding(crate::specs::Nearest::lies_left))]
fn lies_left(line: &PlacedLine, place: Vertex) -> bool
    ensures { result ≡ lies_left line.now place }
{
    let side = side_of(line, place);
    side < 0 || is_behind(line, place)
}

// Whether the place is on the right of the line, which goes down past it, or just above it is.
#[tactic(auto, unfolding(crate::specs::Nearest::lies_right))]
fn lies_right(line: &PlacedLine, place: Vertex) -> bool
    ensures { result ≡ lies_right line.now place }
{
    let side = side_of(line, place);
    0 < side || is_behind(line, place)
}

/// Whether the line crosses the place's row and lies to the east of the place, or of what is just above it. The lower
/// end of a line counts, its upper end doesn't.
#[tactic(auto, unfolding(crate::specs::Nearest::is_east))]
pub(crate) fn is_east(line: &PlacedLine, place: Vertex) -> bool
    ensures { result ≡ is_east line.now place }
{
    if climbs_past(line, place.y) {
        lies_left(line, place)
    } else {
        comes_down(place.y, line.from.y, line.to.y) && lies_right(line, place)
    }
}

// Whether line l goes less to the east than line k, from the same point of the row on.
#[tactic(auto, unfolding(crate::specs::Nearest::leans_less))]
fn leans_less(l: &PlacedLine, k: &PlacedLine) -> bool
    ensures { result ≡ leans_less l.now k.now }
{
    product(lean(l), row_count(k) as i64) < product(lean(k), row_count(l) as i64)
}

// Whether line l is nearer to the place than line k: both are to the east of it.
#[tactic(auto, unfolding(crate::specs::Nearest::is_nearer))]
fn is_nearer(place: Vertex, l: &PlacedLine, k: &PlacedLine) -> bool
    ensures { result ≡ is_nearer place l.now k.now }
{
    let first = scaled(gap(l, place), row_count(k));
    let second = scaled(gap(k, place), row_count(l));
    first < second || first == second && leans_less(l, k)
}

// The nearer of a line to the east of the place, if there is one, and another line, if that is to the east too.
#[inline(always)]
#[tactic(auto, unfolding(crate::specs::Nearest::nearer_of))]
fn nearer_of(place: Vertex, best: Option<PlacedLine>, line: PlacedLine) -> Option<PlacedLine>
    ensures { result ≡ nearer_of place best line }
{
    if !is_east(&line, place) {
        return best;
    }
    match best {
        Some(other) => {
            if is_nearer(place, &line, &other) {
                Some(line)
            } else {
                Some(other)
            }
        }
        None => Some(line),
    }
}

/// The nearest of the lines to the east of the place: the first of several that lie on one another.
pub fn nearest(lines: &[PlacedLine], place: Vertex) -> Option<PlacedLine>
    ensures { result ≡ nearest lines.now place }
{
    let mut best = None;
    for line in lines {
        best = nearer_of(place, best, *line);
    }
    best
}

/// The sector that the line shows a place to the west of it, in the place's row; `None` if it has no side there.
#[tactic(auto, unfolding(crate::specs::Nearest::sector_shown))]
pub fn sector_shown(map: &Map, line: &PlacedLine, place: Vertex) -> Option<u16>
    ensures { result ≡ sector_shown map.now.tables place line.now }
{
    let found = map.line(line.number)?;
    let side = if climbs_past(line, place.y) {
        found.left
    } else {
        found.right
    };
    Some(map.side(u32::from(side))?.sector)
}

// The sector that a line to the east shows the place, if there is one.
fn shown_by(map: &Map, line: Option<PlacedLine>, place: Vertex) -> Option<u16>
    ensures { result ≡ option_and_then (sector_shown map.now.tables place) line }
{
    match line {
        Some(line) => sector_shown(map, &line, place),
        None => None,
    }
}

/// The sector that the place belongs to: what the nearest line to its east shows it. `None` is the void.
pub fn sector_at(map: &Map, place: Vertex) -> Option<u16>
    ensures { result ≡ sector_of_place map.now.tables place }
{
    let mut best = None;
    for n in 0..map.count(Kind::Line) {
        let line = map.line(n).unwrap();
        best = nearer_of(place, best, placed(map, n, &line));
    }
    shown_by(map, best, place)
}
