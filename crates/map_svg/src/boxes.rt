//! Boxes of the plane.
ghost use Rattle.std.specs.Prelude.{◌≡◌};
ghost use Rattle.std.specs.Int.{int_max, int_min};
ghost use Rattle.map_svg.specs.Boxes.{box_round};

use lump_records::Bounds;

// The greater of two coordinates.
fn greater(a: i16, b: i16) -> i16
    ensures { result ≡ int_max a b }
{
    if a < b { b } else { a }
}

// The lesser of two coordinates.
fn lesser(a: i16, b: i16) -> i16
    ensures { result ≡ int_min a b }
{
    if b < a { b } else { a }
}

/// The least box round two boxes.
pub fn box_round(a: Bounds, b: Bounds) -> Bounds
    ensures { result ≡ box_round a b }
{
    Bounds {
        top: greater(a.top, b.top),
        bottom: lesser(a.bottom, b.bottom),
        left: lesser(a.left, b.left),
        right: greater(a.right, b.right),
    }
}
