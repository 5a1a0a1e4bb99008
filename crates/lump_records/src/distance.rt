//! The distance between two vertices.
ghost use Rattle.std.specs.Prelude.{◌≡◌, ◌≤◌, pos, unsigned_abs, ◌+ℤ◌, ◌-ℤ◌, ◌*ℤ◌, ◌*◌};
ghost use Rattle.lump_records.specs.Drawing.{squared_distance};

use crate::records::Vertex;

/// The greatest squared length of a line, in squared map units: 32,767 squared.
pub const LONGEST_SQUARED: u64 = 1_073_676_289;

/// The squared distance between two vertices, in squared map units.
pub fn squared_distance(a: Vertex, b: Vertex) -> u64
    ensures value { result ≡ squared_distance a b }
    ensures products { pos result ≡ (b.x -ℤ a.x) *ℤ (b.x -ℤ a.x) +ℤ (b.y -ℤ a.y) *ℤ (b.y -ℤ a.y) }
{
    square_of(gap(a.x, b.x)) + square_of(gap(a.y, b.y))
}

// The square of a gap.
fn square_of(gap: u64) -> u64
    requires { gap ≤ 65535 }
    ensures value { result ≡ gap * gap }
    ensures bound { result ≤ 4294836225 }
{
    gap * gap
}

// The distance between two coordinates.
fn gap(a: i16, b: i16) -> u64
    ensures value { result ≡ unsigned_abs (b -ℤ a) }
    ensures bound { result ≤ 65535 }
{
    u64::from((i32::from(b) - i32::from(a)).unsigned_abs())
}
