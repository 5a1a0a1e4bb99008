//! The rounded point at a fraction of a line.
ghost use Rattle.std.specs.Prelude.{◌≡◌, pos, neg_ℤ, ◌≤ℤ◌, ◌+ℤ◌, ◌*ℤ◌};
ghost use Rattle.std.specs.Int.{int_div_euclid};
ghost use Rattle.lump_records.specs.Drawing.{IsDrawable};
ghost use Rattle.tree_pieces.specs.Fractions.{rounded, IsFraction};

use crate::frac::Frac;
use lump_records::{Vertex, difference, product};

// n/d of the way, rounded to the nearest whole number, halves upwards.
fn steps_along(at: Frac, way: i64) -> i64
    requires fraction { IsFraction at }
    requires low { neg_ℤ (pos 65535) ≤ℤ way }
    requires high { way ≤ℤ pos 65535 }
    ensures { result ≡ int_div_euclid (pos 2 *ℤ at.n *ℤ way +ℤ at.d) (pos 2 *ℤ at.d) }
{
    let n = at.n as i64;
    let d = at.d as i64;
    let part = product(n, way);
    (2 * part + d).div_euclid(2 * d)
}

// The coordinate at a fraction of the way between two others.
fn coordinate(from: i16, to: i16, at: Frac) -> i16
    requires { IsFraction at }
    ensures { result ≡ rounded from to at }
{
    let way = difference(from as i32, to as i32);
    let steps = steps_along(at, way);
    (from as i64 + steps) as i16
}

/// The place at a fraction of the line from `a` to `b`, each coordinate rounded to the nearest whole number, halves
/// upwards. This rounding is the project's own choice.
pub fn point(a: Vertex, b: Vertex, at: Frac) -> Vertex
    requires start { IsDrawable a }
    requires end { IsDrawable b }
    requires fraction { IsFraction at }
    ensures x { result.x ≡ rounded a.x b.x at }
    ensures y { result.y ≡ rounded a.y b.y at }
    ensures inside { IsDrawable result }
{
    // most pieces have an end of their line, which needs no division
    if at.d == 1 {
        return if at.n == 0 { a } else { b };
    }
    Vertex {
        x: coordinate(a.x, b.x, at),
        y: coordinate(a.y, b.y, at),
    }
}
