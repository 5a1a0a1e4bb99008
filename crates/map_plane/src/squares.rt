//! Open squares along the axes, and what reaches into them.
ghost use Rattle.std.specs.Prelude.{◌≡◌, ◌+ℤ◌, ◌-ℤ◌, ◌≤ℤ◌, neg_ℤ, pos, int_lt};
ghost use Rattle.std.specs.List.{list_any};
ghost use Rattle.lump_records.specs.Drawing.{IsDrawable};
ghost use Rattle.map_plane.specs.Meeting.{side_value_at};
ghost use Rattle.map_plane.specs.Squares.{reaches_into, square_corners, runs_between, cuts_square, is_within, squares_overlap};

use crate::meeting::side_of;
use crate::places::PlacedLine;
use lump_records::Vertex;

// The number that is so much greater.
fn above(number: i16, distance: u16) -> i32
    ensures { result ≡ number +ℤ pos distance }
{
    i32::from(number) + i32::from(distance)
}

// The number that is so much less.
fn below(number: i16, distance: u16) -> i32
    ensures { result ≡ number -ℤ pos distance }
{
    i32::from(number) - i32::from(distance)
}

// Whether the first number is less than that which is so much greater than the second one.
fn is_under_end(a: i16, b: i16, distance: u16) -> bool
    ensures { result ≡ int_lt a (b +ℤ pos distance) }
{
    i32::from(a) < above(b, distance)
}

// Whether the first number is greater than that which is so much less than the second one.
fn is_over_begin(a: i16, b: i16, distance: u16) -> bool
    ensures { result ≡ int_lt (b -ℤ pos distance) a }
{
    below(b, distance) < i32::from(a)
}

// Whether the span from a to b reaches into the open one of the radius round c.
#[tactic(auto, unfolding(crate::specs::Squares::reaches_into))]
fn reaches_into(a: i16, b: i16, c: i16, radius: u16) -> bool
    ensures { result ≡ reaches_into a b c radius }
{
    (is_under_end(a, c, radius) || is_under_end(b, c, radius))
        && (is_over_begin(a, c, radius) || is_over_begin(b, c, radius))
}

// The coordinate that is so much greater.
fn raised(coordinate: i16, distance: u8) -> i16
    requires { coordinate ≤ℤ pos 16383 }
    ensures { result ≡ coordinate +ℤ pos distance }
{
    coordinate + i16::from(distance)
}

// The coordinate that is so much less.
fn lowered(coordinate: i16, distance: u8) -> i16
    requires { neg_ℤ (pos 16384) ≤ℤ coordinate }
    ensures { result ≡ coordinate -ℤ pos distance }
{
    coordinate - i16::from(distance)
}

// The vertex at the place (x,y).
fn corner(x: i16, y: i16) -> Vertex
    ensures { result ≡ record { x = x; y = y } }
{
    Vertex { x, y }
}

// The corners of the square of the radius round the place.
#[tactic(auto, unfolding(crate::specs::Squares::square_corners))]
fn square_corners(place: Vertex, radius: u8) -> [Vertex; 4]
    requires { IsDrawable place }
    ensures { result ≡ square_corners place radius }
{
    let left = lowered(place.x, radius);
    let right = raised(place.x, radius);
    let bottom = lowered(place.y, radius);
    let top = raised(place.y, radius);
    [
        corner(left, bottom),
        corner(left, top),
        corner(right, top),
        corner(right, bottom),
    ]
}

// Whether one of the places lies on the left of the line's straight line.
fn has_left_of(line: &PlacedLine, places: &[Vertex]) -> bool
    ensures { result ≡ list_any (λ p. int_lt (side_value_at line.now p) (pos 0)) places.now }
{
    places.iter().any(|place| side_of(line, *place) < 0)
}

// Whether one of the places lies on the right of the line's straight line.
fn has_right_of(line: &PlacedLine, places: &[Vertex]) -> bool
    ensures { result ≡ list_any (λ p. int_lt (pos 0) (side_value_at line.now p)) places.now }
{
    places.iter().any(|place| 0 < side_of(line, *place))
}

// Whether the line's straight line has some of the places on its left, and some on its right.
#[tactic(auto, unfolding(crate::specs::Squares::runs_between))]
fn runs_between(line: &PlacedLine, places: &[Vertex]) -> bool
    ensures { result ≡ runs_between line.now places.now }
{
    has_left_of(line, places) && has_right_of(line, places)
}

/// Whether the line reaches into the open square of the radius round the place: its box does, and corners of the square
/// lie on both sides of its straight line.
#[tactic(auto, unfolding(crate::specs::Squares::cuts_square))]
pub fn cuts_square(line: &PlacedLine, place: Vertex, radius: u8) -> bool
    requires { IsDrawable place }
    ensures { result ≡ cuts_square place radius line.now }
{
    reaches_into(line.from.x, line.to.x, place.x, u16::from(radius))
        && reaches_into(line.from.y, line.to.y, place.y, u16::from(radius))
        && runs_between(line, &square_corners(place, radius))
}

// Whether the numbers are less than this far apart.
#[tactic(auto, unfolding(crate::specs::Squares::is_within))]
fn is_within(distance: u16, a: i16, b: i16) -> bool
    ensures { result ≡ is_within distance a b }
{
    is_under_end(a, b, distance) && is_under_end(b, a, distance)
}

/// Whether the open squares round the places overlap, if `radii` is the sum of their radii.
#[tactic(auto, unfolding(crate::specs::Squares::squares_overlap))]
pub fn squares_overlap(p: Vertex, q: Vertex, radii: u16) -> bool
    ensures { result ≡ squares_overlap radii p q }
{
    is_within(radii, p.x, q.x) && is_within(radii, p.y, q.y)
}
