//! A line with the places of its ends, and its two directions.

use lump_records::Vertex;

/// A line of a map with the places of its ends, drawn from `v1` to `v2`. Its right side is on the
/// right of that direction, and there may be a left side too.
#[derive(Clone, Copy)]
pub struct Edge {
    pub v1: Vertex,
    pub v2: Vertex,
    pub has_left: bool,
}

/// A side of a line by the direction in which its segs run: `Along` the line for the right side,
/// `Against` it for the left one.
#[derive(Clone, Copy, Debug, PartialEq, Eq)]
pub enum Facing {
    Along,
    Against,
}
