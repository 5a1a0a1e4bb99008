//! Points, and the two sides of a directed straight line.
ghost use Rattle.std.specs.Prelude.{◌≡◌, ◌≤ℤ◌, ◌-ℤ◌, ◌*ℤ◌, ◌^◌, pos, neg_ℤ};
ghost use Rattle.lump_records.specs.Plane.{point_of};

use crate::records::Vertex;

/// A point of the plane, in map units: a vertex, or the corner of a block.
#[derive(Clone, Copy, Debug, PartialEq, Eq)]
pub struct Point {
    pub x: i32,
    pub y: i32,
}

impl From<Vertex> for Point {
    ghost from_gives = { λ vertex point. point ≡ point_of vertex };

    fn from(vertex: Vertex) -> Point {
        Point {
            x: vertex.x as i32,
            y: vertex.y as i32,
        }
    }
}

/// A directed straight line: a point on it, and its vector in map units.
#[derive(Clone, Copy)]
pub struct Ray {
    pub start: Vertex,
    pub dx: i32,
    pub dy: i32,
}

impl Ray {
    ghost use Rattle.std.specs.Prelude.{◌≡◌, ◌↔◌, ◌≤ℤ◌, ◌-ℤ◌, ◌*ℤ◌, ◌^◌, pos, neg_ℤ, IsTrue};
    ghost use Rattle.lump_records.specs.Plane.{IsOnLeft, IsOnRight, IsStep, ray_between, side_value};

    /// The straight line through two vertices, in the direction from the first to the second.
    pub fn between(from: Vertex, to: Vertex) -> Ray
        ensures ray { result ≡ ray_between from to }
        ensures step { IsStep result }
    {
        Ray {
            start: from,
            dx: to.x as i32 - from.x as i32,
            dy: to.y as i32 - from.y as i32,
        }
    }

    /// How far the point lies to the right, times the vector's length: above 0 on the right, below 0 on
    /// the left, 0 on the line.
    pub fn side_value(self, point: Point) -> i64
        requires { IsStep self }
        ensures value { result ≡ side_value self point }
        ensures low { neg_ℤ (pos (2 ^ 48)) ≤ℤ result }
        ensures high { result ≤ℤ pos (2 ^ 48) }
    {
        let (right, left) = self.products(point);
        right - left
    }

    /// Whether the point lies strictly on the right.
    pub fn has_on_right(self, point: Point) -> bool
        ensures { IsTrue result ↔ IsOnRight self point }
    {
        let (right, left) = self.products(point);
        left < right
    }

    /// Whether the point lies strictly on the left.
    pub fn has_on_left(self, point: Point) -> bool
        ensures { IsTrue result ↔ IsOnLeft self point }
    {
        let (right, left) = self.products(point);
        right < left
    }

    // The two products whose difference is the side value. Tests compare them, so that nothing overflows.
    fn products(self, point: Point) -> (i64, i64)
        ensures right { result.0 ≡ self.dy *ℤ (point.x -ℤ self.start.x) }
        ensures left { result.1 ≡ self.dx *ℤ (point.y -ℤ self.start.y) }
    {
        let right = product(self.dy as i64, difference(self.start.x as i32, point.x));
        let left = product(self.dx as i64, difference(self.start.y as i32, point.y));
        (right, left)
    }
}

/// The difference `to - from` of two coordinates.
pub fn difference(from: i32, to: i32) -> i64
    ensures value { result ≡ to -ℤ from }
    ensures low { neg_ℤ (pos 4294967295) ≤ℤ result }
    ensures high { result ≤ℤ pos 4294967295 }
{
    to as i64 - from as i64
}

/// The product of two numbers, at most 2^31 and below 2^32 in size: it fits in 64 bits.
pub fn product(a: i64, b: i64) -> i64
    requires a_low { neg_ℤ (pos 2147483648) ≤ℤ a }
    requires a_high { a ≤ℤ pos 2147483648 }
    requires b_low { neg_ℤ (pos 4294967295) ≤ℤ b }
    requires b_high { b ≤ℤ pos 4294967295 }
    ensures { result ≡ a *ℤ b }
{
    a * b
}
