//! Where an edge crosses a line.
ghost use Rattle.std.specs.Prelude.{◌≡◌, ◌≤◌, ◌<◌, ◌*◌, ◌^◌, ◌-ℤ◌, ℕ, ℤ, nat_abs, true};
ghost use Rattle.lump_records.specs.declared.records.Vertex.{Vertex};
ghost use Rattle.map_areas.specs.Ways.{crosses_way};
ghost use Rattle.map_plane.specs.Meeting.{is_on, side_value_at, spans_meet};

use lump_records::Vertex;
use map_plane::{PlacedLine, side_of};

// The whole number that is nearest to the part of `length` that `part` is of `whole`.
fn part_of(length: u64, part: u64, whole: u64) -> u64
    requires length { length ≤ 65535 }
    requires part { part ≤ 2 ^ 48 }
    requires whole { 0 < whole }
    ensures small { result ≤ length }
    ensures exact { (n : ℕ) → n ≤ length → n * whole ≡ length * part → result ≡ n }
{
    let product = length * part;
    let rest = product % whole;
    let below = product / whole;
    let nearest = if whole - rest <= rest {
        below.saturating_add(1)
    } else {
        below
    };
    nearest.min(length)
}

// How far two coordinates are apart.
fn span(a: i16, b: i16) -> u64
    ensures span { result ≡ nat_abs (b -ℤ a) }
    ensures small { result ≤ 65535 }
{
    (i64::from(b) - i64::from(a)).unsigned_abs()
}

// The whole number that is nearest to where this part of the way from one to the other leads.
fn on_the_way(from: i16, to: i16, part: u64, whole: u64) -> i16
    requires part { part ≤ 2 ^ 48 }
    requires whole { 0 < whole }
    ensures { (p : ℤ) → spans_meet from to p p ≡ true
        → nat_abs (p -ℤ from) * whole ≡ nat_abs (to -ℤ from) * part → result ≡ p }
{
    let far = part_of(span(from, to), part, whole) as i64;
    if from <= to {
        (i64::from(from) + far) as i16
    } else {
        (i64::from(from) - far) as i16
    }
}

// How far the place lies from the straight line of a line, times the line's length.
fn far_from(line: &PlacedLine, place: Vertex) -> u64
    ensures far { result ≡ nat_abs (side_value_at line.now place) }
    ensures small { result ≤ 2 ^ 48 }
{
    side_of(line, place).unsigned_abs()
}

/// The whole place that is nearest to where line l meets line k, which it crosses: the very place if that is whole.
pub(crate) fn near_crossing(l: &PlacedLine, k: &PlacedLine) -> Vertex
    requires { crosses_way l.now k.now ≡ true }
    ensures { (p : Vertex) → is_on l.now p ≡ true → is_on k.now p ≡ true → result ≡ p }
{
    let before = far_from(k, l.from);
    let whole = before + far_from(k, l.to);
    Vertex {
        x: on_the_way(l.from.x, l.to.x, before, whole),
        y: on_the_way(l.from.y, l.to.y, before, whole),
    }
}
