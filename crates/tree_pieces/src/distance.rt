//! How far a seg begins from where its side starts.
ghost use Rattle.std.specs.Prelude.{◌≤◌};
ghost use Rattle.lump_records.specs.Drawing.{squared_distance, longest_squared};
ghost use Rattle.tree_pieces.specs.Offset.{IsOffset};

use lump_records::{Vertex, squared_distance};

/// The offset of a seg in map units: the distance from `from`, where its side starts, to `to`, the seg's first place.
/// It is the square root of the squared distance, rounded down.
pub fn offset(from: Vertex, to: Vertex) -> u16
    requires { squared_distance from to ≤ longest_squared }
    ensures { IsOffset from to result }
{
    // most segs begin where their side starts or lie along an axis, and need no root
    if from.x == to.x {
        return from.y.abs_diff(to.y);
    }
    if from.y == to.y {
        return from.x.abs_diff(to.x);
    }
    let squared = squared_distance(from, to) as u32;
    squared.isqrt() as u16
}
