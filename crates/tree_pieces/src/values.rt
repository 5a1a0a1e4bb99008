//! Values by the ray of a line: the side value of a place, the fraction of a line where it is 0, and the inner product.
ghost use Rattle.std.specs.Prelude.{◌≡◌, pos, neg_ℤ, ◌≤ℤ◌, ◌*ℤ◌};
ghost use Rattle.lump_records.specs.Drawing.{IsDrawable};
ghost use Rattle.tree_pieces.specs.Plane.{vertex_value, ray, IsEdge, dot};
ghost use Rattle.tree_pieces.specs.Fractions.{zero_between, IsFraction};
ghost use Rattle.tree_pieces.specs.Local.{IsLineRay, IsSideValue};

use crate::edge::{Edge, Facing};
use crate::frac::Frac;
use lump_records::{Point, Ray, Vertex, product};

/// A line in one of its two directions.
pub fn ray_of(edge: Edge, facing: Facing) -> Ray
    requires { IsEdge edge }
    ensures ray { result ≡ ray edge facing }
    ensures line { IsLineRay result }
{
    match facing {
        Facing::Along => Ray::between(edge.v1, edge.v2),
        Facing::Against => Ray::between(edge.v2, edge.v1),
    }
}

/// How far a place lies to the right of the ray of a line, times the line's length.
pub fn value_at(ray: Ray, place: Vertex) -> i64
    requires ray { IsLineRay ray }
    requires place { IsDrawable place }
    ensures value { result ≡ vertex_value ray place }
    ensures low { neg_ℤ (pos 2147483648) ≤ℤ result }
    ensures high { result ≤ℤ pos 2147483648 }
{
    ray.side_value(Point::from(place))
}

// The fraction at which a value that goes evenly from one number to another is 0.
pub(crate) fn zero_of(first: i64, last: i64) -> Frac
    requires first { IsSideValue first }
    requires last { IsSideValue last }
    requires fraction { IsFraction (zero_between first last) }
    ensures { result ≡ zero_between first last }
{
    if first < last {
        Frac {
            n: -first as i32,
            d: (last - first) as i32,
        }
    } else {
        Frac {
            n: first as i32,
            d: (first - last) as i32,
        }
    }
}

// The product of two coordinates of vectors.
fn times(a: i32, b: i32) -> i64
    ensures { result ≡ a *ℤ b }
{
    product(a as i64, b as i64)
}

/// The inner product of the directions of two lines: above 0 where lines on one straight line run the same way.
pub fn dot_of(ray: Ray, other: Ray) -> i64
    requires ray { IsLineRay ray }
    requires other { IsLineRay other }
    ensures { result ≡ dot ray other }
{
    let across = times(ray.dx, other.dx);
    let upward = times(ray.dy, other.dy);
    across + upward
}
