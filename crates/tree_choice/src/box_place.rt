//! The side of a ray on which a box lies, by its corners with the least and the greatest side value.
ghost use Rattle.std.specs.Prelude.{◌≡◌, true, pos, ◌<ℤ◌, if◌then◌else◌};
ghost use Rattle.tree_pieces.specs.Plane.{vertex_value};
ghost use Rattle.tree_pieces.specs.Boxes.{least_value, greatest_value};
ghost use Rattle.tree_choice.specs.Sights.{AreMargins, IsNormal, low_corner, high_corner};

use crate::margins::{Margins, Normal, sides_of_place};
use lump_records::{Bounds, Ray, Vertex};
use tree_pieces::Place;

/// The corners of a box with the least and with the greatest side value by a ray.
#[derive(Clone, Copy)]
pub(crate) struct Corners {
    pub low: Vertex,
    pub high: Vertex,
}

/// Whether a whole box lies on the right of a ray, and whether on the left.
#[derive(Clone, Copy)]
pub(crate) struct BoxSides {
    pub right: bool,
    pub left: bool,
}

// One of two coordinates.
fn either(first: bool, one: i16, other: i16) -> i16
    ensures { result ≡ (if first then one else other) }
{
    if first { one } else { other }
}

// The corners of a box with the least and the greatest side value. The signs of the ray's direction tell which they
// are.
fn corners_of(ray: Ray, bounds: Bounds) -> Corners
    ensures low { result.low ≡ low_corner ray bounds }
    ensures high { result.high ≡ high_corner ray bounds }
{
    let north = 0 <= ray.dy;
    let east = 0 <= ray.dx;
    Corners {
        low: Vertex {
            x: either(north, bounds.left, bounds.right),
            y: either(east, bounds.top, bounds.bottom),
        },
        high: Vertex {
            x: either(north, bounds.right, bounds.left),
            y: either(east, bounds.bottom, bounds.top),
        },
    }
}

/// The sides of a ray on which a box between two corners lies. Both are found without a branch, which would often be
/// mispredicted.
pub(crate) fn sides_of_corners(
    margins: Margins,
    normal: Normal,
    low: Vertex,
    high: Vertex,
) -> BoxSides
    requires margins { AreMargins margins }
    requires normal { IsNormal margins.ray normal }
    ensures right { result.right ≡ true → pos 0 <ℤ vertex_value margins.ray low }
    ensures left { result.left ≡ true → vertex_value margins.ray high <ℤ pos 0 }
{
    let least = sides_of_place(margins, normal, low);
    let greatest = sides_of_place(margins, normal, high);
    BoxSides {
        right: least.right,
        left: greatest.left,
    }
}

/// The sides of a ray on which a whole box lies.
pub(crate) fn sides_of_box(margins: Margins, bounds: Bounds) -> BoxSides
    requires { AreMargins margins }
    ensures right { result.right ≡ true → pos 0 <ℤ least_value margins.ray bounds }
    ensures left { result.left ≡ true → greatest_value margins.ray bounds <ℤ pos 0 }
{
    let corners = corners_of(margins.ray, bounds);
    sides_of_corners(margins, margins.normal, corners.low, corners.high)
}

/// The side on which a whole box lies, or `Across` if that isn't known.
pub(crate) fn side_of_box(margins: Margins, bounds: Bounds) -> Place
    requires { AreMargins margins }
    ensures right { result ≡ Place.Right → pos 0 <ℤ least_value margins.ray bounds }
    ensures left { result ≡ Place.Left → greatest_value margins.ray bounds <ℤ pos 0 }
{
    let sides = sides_of_box(margins, bounds);
    if sides.right {
        return Place::Right;
    }
    if sides.left {
        Place::Left
    } else {
        Place::Across
    }
}
