//! The side of a ray on which the pieces of a line lie, by the line's two ends.
ghost use Rattle.std.specs.Prelude.{◌≡◌, true, false, pos, ◌+ℤ◌, ◌*ℤ◌, int_lt, Some, None};
ghost use Rattle.tree_pieces.specs.Plane.{IsEdge, dot, ray, vertex_value};
ghost use Rattle.tree_pieces.specs.Local.{IsLineRay, IsSideValue, HasFractions, place_on};
ghost use Rattle.tree_pieces.specs.Division.{place_by};

use lump_records::{Ray, product};
use tree_pieces::{Edge, Facing, Piece, Place, dot_of, ray_of, value_at};

// Whether the ends of a line lie on two sides of a ray, by their side values. Their product needs one test, which is
// easy to predict; their signs would need two.
fn are_apart(first: i64, last: i64) -> bool
    requires first { IsSideValue first }
    requires last { IsSideValue last }
    ensures { result ≡ int_lt (first *ℤ last) (pos 0) }
{
    product(first, last) < 0
}

// The sum of the side values of a line's ends, or the line's direction if the sum is 0, as it seldom is.
fn sign_of(sum: i64, along: Ray, edge: Edge, side: Facing) -> i64
    requires ray { IsLineRay along }
    requires line { IsEdge edge }
    ensures zero { sum ≡ pos 0 → result ≡ dot along (ray edge side) }
    ensures other { (sum ≡ pos 0 → ⊥) → result ≡ sum }
{
    if sum == 0 {
        let own = ray_of(edge, side);
        dot_of(along, own)
    } else {
        sum
    }
}

// Whether a line whose ends don't lie on two sides of a ray lies on its right, else on its left: by the side values of
// its ends, or by its direction if both are 0.
fn lies_right(first: i64, last: i64, along: Ray, edge: Edge, side: Facing) -> bool
    requires ray { IsLineRay along }
    requires line { IsEdge edge }
    requires first { IsSideValue first }
    requires last { IsSideValue last }
    requires together { int_lt (first *ℤ last) (pos 0) ≡ false }
    ensures right { result ≡ true → place_by first last (dot along (ray edge side)) ≡ Place.Right }
    ensures left { result ≡ false → place_by first last (dot along (ray edge side)) ≡ Place.Left }
{
    let sum = first + last;
    0 < sign_of(sum, along, edge, side)
}

/// Whether a piece of a line lies on the right of a ray, else on its left, by the line's ends; None if these lie on two
/// sides.
pub(crate) fn side_of_line(along: Ray, edge: Edge, piece: &Piece) -> Option<bool>
    requires ray { IsLineRay along }
    requires line { IsEdge edge }
    requires fractions { HasFractions piece.now }
    ensures right { result ≡ Some true → place_on along edge piece.now ≡ Place.Right }
    ensures left { result ≡ Some false → place_on along edge piece.now ≡ Place.Left }
    ensures apart { result ≡ None →
        int_lt (vertex_value along edge.v1 *ℤ vertex_value along edge.v2) (pos 0) ≡ true }
{
    let first = value_at(along, edge.v1);
    let last = value_at(along, edge.v2);
    if are_apart(first, last) {
        return None;
    }
    let right = lies_right(first, last, along, edge, piece.side);
    Some(right)
}
