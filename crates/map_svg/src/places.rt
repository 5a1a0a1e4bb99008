//! Places and vectors on the picture.
ghost use Rattle.std.specs.Prelude.{◌≡◌, ◌≤◌, ◌≤ℤ◌, ◌+ℤ◌, pos, neg_ℤ, int_div};
ghost use Rattle.map_svg.specs.Places.{back_of, forth_of, middle_of, partition_ray, reach_of, scaled, shift_right, spot_of, way_between};

use lump_records::{Node, Ray, Vertex, product};

/// A place of the picture: `x` to the right and `y` downwards.
#[derive(Clone, Copy, Debug, PartialEq, Eq)]
pub struct Spot {
    pub x: i32,
    pub y: i32,
}

/// A vector on the picture: `dx` to the right and `dy` downwards.
#[derive(Clone, Copy, Debug, PartialEq, Eq)]
pub struct Shift {
    pub dx: i64,
    pub dy: i64,
}

/// Where a place of the map is on the picture.
pub fn spot_of(place: Vertex) -> Spot
    ensures { result ≡ spot_of place }
{
    Spot {
        x: i32::from(place.x),
        y: -i32::from(place.y),
    }
}

// Half the sum of two numbers, rounded towards 0.
fn half_sum(a: i16, b: i16) -> i32
    ensures { result ≡ int_div (a +ℤ b) (pos 2) }
{
    (i32::from(a) + i32::from(b)) / 2
}

// The sum of two numbers, negated.
fn negated_sum(a: i16, b: i16) -> i32
    ensures { result ≡ neg_ℤ (a +ℤ b) }
{
    -(i32::from(a) + i32::from(b))
}

// Half the sum of two numbers, negated, rounded towards 0.
fn negated_half_sum(a: i16, b: i16) -> i32
    ensures { result ≡ int_div (neg_ℤ (a +ℤ b)) (pos 2) }
{
    negated_sum(a, b) / 2
}

/// The midpoint of two places of the map, its coordinates rounded towards 0.
pub fn middle_of(from: Vertex, to: Vertex) -> Spot
    ensures { result ≡ middle_of from to }
{
    Spot {
        x: half_sum(from.x, to.x),
        y: negated_half_sum(from.y, to.y),
    }
}

// The greater absolute value of the vector's two components, at least 1.
fn reach_of(ray: Ray) -> u32
    ensures value { result ≡ reach_of ray }
    ensures some { 1 ≤ result }
{
    ray.dx.unsigned_abs().max(ray.dy.unsigned_abs()).max(1)
}

// A component of a vector after scaling, which takes `reach` to `length`, rounded towards 0.
fn scaled(number: i64, length: u32, reach: u32) -> i64
    requires low { neg_ℤ (pos 65535) ≤ℤ number }
    requires high { number ≤ℤ pos 65535 }
    requires some { 1 ≤ reach }
    ensures { result ≡ scaled number length reach }
{
    product(number, i64::from(length)) / i64::from(reach)
}

/// The vector to the right of the line between two places of the map, its greater component scaled to `length`.
pub fn right_of(from: Vertex, to: Vertex, length: u32) -> Shift
    ensures { result ≡ shift_right from to length }
{
    let ray = Ray::between(from, to);
    let reach = reach_of(ray);
    Shift {
        dx: scaled(i64::from(ray.dy), length, reach),
        dy: scaled(i64::from(ray.dx), length, reach),
    }
}

/// The vector from one place of the map to another.
pub(crate) fn way_between(from: Vertex, to: Vertex) -> Shift
    ensures { result ≡ way_between from to }
{
    let ray = Ray::between(from, to);
    Shift {
        dx: i64::from(ray.dx),
        dy: -i64::from(ray.dy),
    }
}

// The partition of a node: a point of it, and its direction.
fn partition_ray(node: &Node) -> Ray
    ensures { result ≡ partition_ray node.now }
{
    Ray {
        start: Vertex {
            x: node.x,
            y: node.y,
        },
        dx: i32::from(node.dx),
        dy: i32::from(node.dy),
    }
}

// The reach of a node's partition.
fn partition_reach(node: &Node) -> u32
    ensures value { result ≡ reach_of (partition_ray node.now) }
    ensures some { 1 ≤ result }
{
    reach_of(partition_ray(node))
}

// A component of a partition's vector, scaled so that the greater one is 65,536.
fn along(number: i16, reach: u32) -> i64
    requires { 1 ≤ reach }
    ensures { result ≡ scaled number 65536 reach }
{
    scaled(i64::from(number), 65536, reach)
}

// The same in the opposite direction.
fn against(number: i16, reach: u32) -> i64
    requires { 1 ≤ reach }
    ensures { result ≡ scaled (neg_ℤ number) 65536 reach }
{
    scaled(-i64::from(number), 65536, reach)
}

/// The vector along a node's partition, so long that it leaves every map.
pub(crate) fn forth_of(node: &Node) -> Shift
    ensures { result ≡ forth_of node.now }
{
    let reach = partition_reach(node);
    Shift {
        dx: along(node.dx, reach),
        dy: against(node.dy, reach),
    }
}

/// The opposite vector, of the same length.
pub(crate) fn back_of(node: &Node) -> Shift
    ensures { result ≡ back_of node.now }
{
    let reach = partition_reach(node);
    Shift {
        dx: against(node.dx, reach),
        dy: along(node.dy, reach),
    }
}
