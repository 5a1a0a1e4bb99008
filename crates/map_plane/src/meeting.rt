//! Whether two lines have a point in common that isn't an end of both.
ghost use Rattle.std.specs.Prelude.{◌≡◌, ◌&&◌, ◌^◌, ◌≤ℤ◌, pos, neg_ℤ};
ghost use Rattle.map_plane.specs.Meeting.{is_under, spans_meet, boxes_meet, side_value_at, is_on, is_at, ends_at, abuts, has_on_both_sides, doubles, share, meets};

use crate::places::PlacedLine;
use lump_records::{Ray, Vertex};

// Whether `a` or `b` is at most `c` or `d`.
#[tactic(auto, unfolding(crate::specs::Meeting::is_under))]
fn is_under(a: i16, b: i16, c: i16, d: i16) -> bool
    ensures { result ≡ is_under a b c d }
{
    a <= c || a <= d || b <= c || b <= d
}

/// Whether the spans from a to b and from c to d have a number in common.
#[tactic(auto, unfolding(crate::specs::Meeting::spans_meet))]
pub fn spans_meet(a: i16, b: i16, c: i16, d: i16) -> bool
    ensures { result ≡ spans_meet a b c d }
{
    is_under(a, b, c, d) && is_under(c, d, a, b)
}

/// Whether the boxes of the lines have a point in common.
#[tactic(auto, unfolding(crate::specs::Meeting::boxes_meet))]
pub fn boxes_meet(l: &PlacedLine, k: &PlacedLine) -> bool
    ensures { result ≡ boxes_meet l.now k.now }
{
    spans_meet(l.from.x, l.to.x, k.from.x, k.to.x) && spans_meet(l.from.y, l.to.y, k.from.y, k.to.y)
}

/// How far the place lies to the right of the line, times the line's length.
#[tactic(auto, unfolding(crate::specs::Meeting::side_value_at))]
pub fn side_of(line: &PlacedLine, place: Vertex) -> i64
    ensures value { result ≡ side_value_at line.now place }
    ensures low { neg_ℤ (pos (2 ^ 48)) ≤ℤ result }
    ensures high { result ≤ℤ pos (2 ^ 48) }
{
    Ray::between(line.from, line.to).side_value(place.into())
}

/// Whether the place lies on the line.
#[tactic(auto, unfolding(crate::specs::Meeting::is_on))]
pub fn is_on(line: &PlacedLine, place: Vertex) -> bool
    ensures { result ≡ is_on line.now place }
{
    side_of(line, place) == 0
        && spans_meet(line.from.x, line.to.x, place.x, place.x)
        && spans_meet(line.from.y, line.to.y, place.y, place.y)
}

/// Whether the vertices are at the same place.
#[tactic(auto, unfolding(crate::specs::Meeting::is_at))]
pub fn is_at(v: Vertex, w: Vertex) -> bool
    ensures { result ≡ is_at v w }
{
    v.x == w.x && v.y == w.y
}

/// Whether the line ends at the place.
#[tactic(auto, unfolding(crate::specs::Meeting::ends_at))]
pub fn ends_at(line: &PlacedLine, place: Vertex) -> bool
    ensures { result ≡ ends_at line.now place }
{
    is_at(line.from, place) || is_at(line.to, place)
}

// Whether an end of line k lies on line l, between l's ends.
#[tactic(auto, unfolding(crate::specs::Meeting::abuts))]
fn abuts(k: &PlacedLine, l: &PlacedLine) -> bool
    ensures { result ≡ abuts k.now l.now }
{
    is_on(l, k.from) && !ends_at(l, k.from) || is_on(l, k.to) && !ends_at(l, k.to)
}

// Whether the ends of line k lie on both sides of line l's straight line.
#[tactic(auto, unfolding(crate::specs::Meeting::has_on_both_sides))]
fn has_on_both_sides(l: &PlacedLine, k: &PlacedLine) -> bool
    ensures { result ≡ has_on_both_sides l.now k.now }
{
    let from = side_of(l, k.from);
    let to = side_of(l, k.to);
    from < 0 && 0 < to || 0 < from && to < 0
}

// Whether the lines run between the same places.
#[tactic(auto, unfolding(crate::specs::Meeting::doubles))]
fn doubles(l: &PlacedLine, k: &PlacedLine) -> bool
    ensures { result ≡ doubles l.now k.now }
{
    ends_at(l, k.from) && ends_at(l, k.to)
}

// Whether a point of both lines isn't an end of both. It isn't inlined into the loop over the lines, since few
// boxes meet.
#[inline(never)]
#[tactic(auto, unfolding(crate::specs::Meeting::share))]
fn share(l: &PlacedLine, k: &PlacedLine) -> bool
    ensures { result ≡ share l.now k.now }
{
    has_on_both_sides(l, k) && has_on_both_sides(k, l)
        || abuts(k, l)
        || abuts(l, k)
        || doubles(l, k)
}

/// Whether lines k and l are two different lines, their boxes meet, and a point of both isn't an end of both.
#[tactic(auto, unfolding(crate::specs::Meeting::meets))]
pub(crate) fn meets(l: &PlacedLine, k: &PlacedLine) -> bool
    ensures { result ≡ meets l.now k.now }
{
    l.number != k.number && boxes_meet(l, k) && share(l, k)
}

/// Whether each of the lines has its ends on both sides of the other.
pub fn crosses(l: &PlacedLine, k: &PlacedLine) -> bool
    ensures { result ≡ (has_on_both_sides l.now k.now && has_on_both_sides k.now l.now) }
{
    has_on_both_sides(l, k) && has_on_both_sides(k, l)
}
