//! The least boxes that hold some places.
ghost use Rattle.std.specs.Prelude.{◌≡◌, ◌<◌, ◌≤ℤ◌, ◌⊎◌, length};
ghost use Rattle.tree_pieces.specs.Nodes.{IsLeastBox};
ghost use Rattle.tree_nodes.specs.Corners.{IsBoxAt, IsJoined, IsEither, StandsInOne};

use lump_records::{Bounds, Vertex};

fn lesser(a: i16, b: i16) -> i16
    ensures first { result ≤ℤ a }
    ensures second { result ≤ℤ b }
    ensures one { (result ≡ a) ⊎ (result ≡ b) }
{
    if a < b { a } else { b }
}

fn greater(a: i16, b: i16) -> i16
    ensures first { a ≤ℤ result }
    ensures second { b ≤ℤ result }
    ensures one { (result ≡ a) ⊎ (result ≡ b) }
{
    if a < b { b } else { a }
}

// The box of one place.
fn box_at(place: Vertex) -> Bounds
    ensures { IsBoxAt result place }
{
    Bounds {
        top: place.y,
        bottom: place.y,
        left: place.x,
        right: place.x,
    }
}

// The least box that holds two boxes.
pub(crate) fn joined(a: Bounds, b: Bounds) -> Bounds
    ensures { IsJoined a b result }
{
    Bounds {
        top: greater(a.top, b.top),
        bottom: lesser(a.bottom, b.bottom),
        left: lesser(a.left, b.left),
        right: greater(a.right, b.right),
    }
}

// The least box that holds two places.
fn box_of_two(first: Vertex, last: Vertex) -> Bounds
    ensures { IsLeastBox result (IsEither first last) }
{
    joined(box_at(first), box_at(last))
}

/// The least box that holds the places of two columns.
pub(crate) fn bounds_of(firsts: &[Vertex], lasts: &[Vertex]) -> Bounds
    requires beside { length lasts.now ≡ length firsts.now }
    requires some { 0 < length firsts.now }
    ensures { IsLeastBox result (StandsInOne firsts.now lasts.now) }
{
    let mut bounds = box_of_two(firsts[0], lasts[0]);
    for (n, first) in firsts.iter().enumerate() {
        bounds = joined(bounds, box_of_two(*first, lasts[n]));
    }
    bounds
}
