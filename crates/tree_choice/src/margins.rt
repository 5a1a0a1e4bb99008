//! On which side of a candidate's ray all points lie that round to a place. It is found in 32 bits, so that a machine
//! can test several places at once.
ghost use Rattle.std.specs.Prelude.{◌≡◌, true, false, ◌&&◌, ◌||◌, if◌then◌else◌, pos, neg_ℤ, ◌≤ℤ◌, ◌<ℤ◌, ◌+ℤ◌, ◌-ℤ◌, ◌*ℤ◌};
ghost use Rattle.tree_pieces.specs.Local.{IsLineRay};
ghost use Rattle.tree_pieces.specs.Plane.{vertex_value, blur};
ghost use Rattle.tree_choice.specs.Sights.{AreMargins, IsNormal};

use lump_records::{Ray, Vertex};

/// The vector at right angles to a ray, towards its right side. Its inner product with a place is the side value of the
/// place, before that of the ray's origin is taken off.
#[derive(Clone, Copy)]
pub struct Normal {
    pub x: i16,
    pub y: i16,
}

/// A ray with two limits. A place whose value is above the first lies so far on the right that all points that round to
/// it do too; below the second, likewise on the left. The value of the ray's origin isn't taken off the limits.
#[derive(Clone, Copy)]
pub struct Margins {
    pub ray: Ray,
    pub normal: Normal,
    pub above: i32,
    pub below: i32,
}

/// Whether all points that round to a place lie on the right of a ray, and whether on the left.
#[derive(Clone, Copy)]
pub(crate) struct PlaceSides {
    pub right: bool,
    pub left: bool,
}

// A number of a line's vector times a coordinate.
fn times(k: i16, z: i16) -> i32
    requires low { neg_ℤ (pos 32767) ≤ℤ k }
    requires high { k ≤ℤ pos 32767 }
    ensures value { result ≡ k *ℤ z }
    ensures low { neg_ℤ (pos 1073709056) ≤ℤ result }
    ensures high { result ≤ℤ pos 1073709056 }
{
    k as i32 * z as i32
}

// The side value of a place, before that of the ray's origin is taken off.
fn value_of(ray: Ray, normal: Normal, place: Vertex) -> i32
    requires line { IsLineRay ray }
    requires normal { IsNormal ray normal }
    ensures value { result ≡ ray.dy *ℤ place.x -ℤ ray.dx *ℤ place.y }
    ensures low { neg_ℤ (pos 2147418112) ≤ℤ result }
    ensures high { result ≤ℤ pos 2147418112 }
{
    let across = times(normal.x, place.x);
    let upward = times(normal.y, place.y);
    across + upward
}

// The vector at right angles to a ray.
fn normal_of(ray: Ray) -> Normal
    requires { IsLineRay ray }
    ensures { IsNormal ray result }
{
    let x = ray.dy as i16;
    let y = ray.dx as i16;
    Normal { x, y: -y }
}

// Half of the sum of a vector's two numbers, rounded down.
fn half_of(ray: Ray) -> i32
    requires { IsLineRay ray }
    ensures enough { pos (blur ray) ≤ℤ (pos 2 *ℤ result +ℤ pos 1) }
    ensures low { pos 0 ≤ℤ result }
    ensures high { result ≤ℤ pos 32767 }
{
    let sum = ray.dx.unsigned_abs() + ray.dy.unsigned_abs();
    (sum / 2) as i32
}

/// The margins of a ray: the value of its origin, plus and minus the most by which rounding moves a side value.
pub(crate) fn margins_of(ray: Ray) -> Margins
    requires { IsLineRay ray }
    ensures ray { result.ray ≡ ray }
    ensures margins { AreMargins result }
{
    let normal = normal_of(ray);
    let origin = value_of(ray, normal, ray.start);
    let half = half_of(ray);
    Margins {
        ray,
        normal,
        above: origin + half,
        below: origin - half,
    }
}

/// The side on which all points lie that round to this place; neither if that isn't known. `normal` is that of the
/// margins. A loop reads it from an array in each round, so that the compiler sees products of 16 bits, which a machine
/// multiplies and adds in one step.
pub(crate) fn sides_of_place(margins: Margins, normal: Normal, place: Vertex) -> PlaceSides
    requires margins { AreMargins margins }
    requires normal { IsNormal margins.ray normal }
    ensures right { result.right ≡ true →
        pos (blur margins.ray) <ℤ (pos 2 *ℤ vertex_value margins.ray place) }
    ensures left { result.left ≡ true →
        (pos 2 *ℤ vertex_value margins.ray place) <ℤ neg_ℤ (pos (blur margins.ray)) }
    ensures one { (result.right && result.left) ≡ false }
{
    let value = value_of(margins.ray, normal, place);
    PlaceSides {
        right: margins.above < value,
        left: value < margins.below,
    }
}
