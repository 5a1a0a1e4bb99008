//! On which side a piece lies, by the signs of its ends' side values.
ghost use Rattle.std.specs.Prelude.{◌≡◌, pos, neg_ℤ, ◌≤ℤ◌, ◌<ℤ◌, ◌+ℤ◌, ◌*ℤ◌};
ghost use Rattle.tree_pieces.specs.Fractions.{IsFraction, between};
ghost use Rattle.tree_pieces.specs.Division.{place_by};
ghost use Rattle.tree_pieces.specs.Local.{IsShare, IsSideValue};

use crate::frac::Frac;
use crate::piece::Place;

// A share times a side value: at most 2^30 times 2^31, which 64 bits hold.
fn scaled(share: i64, value: i64) -> i64
    requires share { IsShare share }
    requires value { IsSideValue value }
    ensures value { result ≡ share *ℤ value }
    ensures low { neg_ℤ (pos 2305702273872822272) ≤ℤ result }
    ensures high { result ≤ℤ pos 2305702273872822272 }
{
    share * value
}

// The value at a fraction of the way from one value to another, times the denominator.
pub(crate) fn value_between(first: i64, last: i64, at: Frac) -> i64
    requires first { IsSideValue first }
    requires last { IsSideValue last }
    requires fraction { IsFraction at }
    ensures { result ≡ between first last at }
{
    let n = at.n as i64;
    let d = at.d as i64;
    let rest = d - n;
    let near = scaled(rest, first);
    let far = scaled(n, last);
    near + far
}

// The side by the signs of the values of two ends, or by the direction if both are 0.
pub(crate) fn place_by_signs(from: i64, to: i64, direction: i64) -> Place
    ensures { result ≡ place_by from to direction }
{
    if from >= 0 && to >= 0 && (from > 0 || to > 0 || direction > 0) {
        return Place::Right;
    }
    if from <= 0 && to <= 0 {
        Place::Left
    } else {
        Place::Across
    }
}
