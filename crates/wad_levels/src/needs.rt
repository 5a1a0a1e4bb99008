//! Tests what a build needs of the drawn lists.
ghost use Rattle.std.specs.Prelude.{◌≡◌, ◌&&◌, ◌||◌, ◌==◌, if◌then◌else◌, not, length, position, Some, None};
ghost use Rattle.wad_levels.specs.Drawn.{drawn_view, has_need, is_coordinate, is_item_number, is_drawable, length_hindrance, line_hindrance, lists_hindrance, reference_hindrance, side_hindrance, squared_length, drawn_vertex};
ghost use Rattle.wad_levels.specs.Lengths.{has_no_length, other_hindrance, other_line_hindrance, with_lengths};
ghost use Rattle.wad_levels.specs.declared.hindrance.Hindrance.TheVariants.{NoLine};

use crate::drawn::{Drawn, first_of};
use crate::hindrance::{Hindrance, LineNeed};
use lump_records::{
    GREATEST_COORDINATE, LEAST_COORDINATE, LONGEST_SQUARED, Line, Vertex, squared_distance,
};

// Whether the number is that of one of `count` items, and at most 32,767.
fn is_among(n: u16, count: usize) -> bool
    ensures { result ≡ is_item_number n count }
{
    (n as usize) < count && n <= 32767
}

/// Whether both coordinates of the vertex are within the limits of a map.
pub fn is_drawable(vertex: Vertex) -> bool
    ensures { result ≡ is_drawable vertex }
{
    is_coordinate(vertex.x) && is_coordinate(vertex.y)
}

// Whether the number is within the limits of a map's coordinates.
fn is_coordinate(n: i16) -> bool
    ensures { result ≡ is_coordinate n }
{
    LEAST_COORDINATE <= n && n <= GREATEST_COORDINATE
}

// The vertex with this number.
fn vertex_of(drawn: &Drawn, n: u16) -> Vertex
    ensures { result ≡ drawn_vertex (drawn_view drawn.now) n }
{
    match drawn.vertices.get(n as usize) {
        Some(vertex) => *vertex,
        None => Vertex { x: 0, y: 0 },
    }
}

// The squared length of a line.
fn squared_length(drawn: &Drawn, line: &Line) -> u64
    ensures { result ≡ squared_length (drawn_view drawn.now) line.now }
{
    squared_distance(vertex_of(drawn, line.v1), vertex_of(drawn, line.v2))
}

// Whether the line has what a build needs.
fn has_need(drawn: &Drawn, need: LineNeed, line: &Line) -> bool
    ensures { result ≡ has_need (drawn_view drawn.now) need line.now }
{
    match need {
        LineNeed::Vertices => {
            is_among(line.v1, drawn.vertices.len()) && is_among(line.v2, drawn.vertices.len())
        }
        LineNeed::RightSide => is_among(line.right, drawn.sides.len()),
        LineNeed::LeftSide => !line.has_left() || is_among(line.left, drawn.sides.len()),
        LineNeed::SomeLength => squared_length(drawn, line) > 0,
        LineNeed::Coordinates => {
            is_drawable(vertex_of(drawn, line.v1)) && is_drawable(vertex_of(drawn, line.v2))
        }
        LineNeed::AtMostLongest => squared_length(drawn, line) <= LONGEST_SQUARED,
    }
}

// The number of the first line that lacks what a build needs.
fn line_without(drawn: &Drawn, need: LineNeed) -> Option<usize>
    ensures { result
        ≡ position (λ x. not (has_need (drawn_view drawn.now) need x)) drawn.now.lines.items }
{
    drawn
        .lines
        .iter()
        .position(|line| !has_need(drawn, need, line))
}

// The first line that lacks what a build needs.
fn line_hindrance(drawn: &Drawn, need: LineNeed) -> Option<Hindrance>
    ensures { result ≡ line_hindrance (drawn_view drawn.now) need }
{
    match line_without(drawn, need) {
        Some(n) => Some(Hindrance::LineLacks(need, n)),
        None => None,
    }
}

// The number of the first side whose sector doesn't exist.
fn side_without(drawn: &Drawn) -> Option<usize>
    ensures { result
        ≡ position (λ s. not (is_item_number s.sector (length drawn.now.sectors.items)))
        drawn.now.sides.items }
{
    drawn
        .sides
        .iter()
        .position(|side| !is_among(side.sector, drawn.sectors.len()))
}

// The first side whose sector doesn't exist.
fn side_hindrance(drawn: &Drawn) -> Option<Hindrance>
    ensures { result ≡ side_hindrance (drawn_view drawn.now) }
{
    match side_without(drawn) {
        Some(n) => Some(Hindrance::SideSector(n)),
        None => None,
    }
}

// A level without a line.
fn no_line(drawn: &Drawn) -> Option<Hindrance>
    ensures { result ≡ (if length drawn.now.lines.items == 0 then Some NoLine else None) }
{
    if drawn.lines.is_empty() {
        return Some(Hindrance::NoLine);
    }
    None
}

// The first line whose vertices don't exist, else the first side whose sector, else the first line whose sides don't.
fn reference_hindrance(drawn: &Drawn) -> Option<Hindrance>
    ensures { result ≡ reference_hindrance (drawn_view drawn.now) }
{
    let sides = first_of(
        line_hindrance(drawn, LineNeed::RightSide),
        line_hindrance(drawn, LineNeed::LeftSide),
    );
    first_of(
        line_hindrance(drawn, LineNeed::Vertices),
        first_of(side_hindrance(drawn), sides),
    )
}

// The first line at a place where no line may lie.
fn length_hindrance(drawn: &Drawn) -> Option<Hindrance>
    ensures { result ≡ length_hindrance (drawn_view drawn.now) }
{
    let places = first_of(
        line_hindrance(drawn, LineNeed::Coordinates),
        line_hindrance(drawn, LineNeed::AtMostLongest),
    );
    first_of(line_hindrance(drawn, LineNeed::SomeLength), places)
}

/// The first hindrance of the lists.
pub fn lists_hindrance(drawn: &Drawn) -> Option<Hindrance>
    ensures { result ≡ lists_hindrance (drawn_view drawn.now) }
{
    let lengths = first_of(length_hindrance(drawn), no_line(drawn));
    first_of(reference_hindrance(drawn), lengths)
}

/// Whether the line has no length: both its vertices exist, and are at one place.
pub fn has_no_length(drawn: &Drawn, line: &Line) -> bool
    ensures { result ≡ has_no_length (drawn_view drawn.now) line.now }
{
    has_need(drawn, LineNeed::Vertices, line) && !has_need(drawn, LineNeed::SomeLength, line)
}

// The number of the first line that has a length and lacks what a build needs.
fn other_line_without(drawn: &Drawn, need: LineNeed) -> Option<usize>
    ensures { let d = drawn_view drawn.now in
        result ≡ position (λ x. not (has_no_length d x || has_need d need x)) d.lines }
{
    drawn.lines.iter().position(|line| !(has_no_length(drawn, line) || has_need(drawn, need, line)))
}

// The first line that has a length and lacks what a build needs.
fn other_line_hindrance(drawn: &Drawn, need: LineNeed) -> Option<Hindrance>
    ensures { result ≡ other_line_hindrance (drawn_view drawn.now) need }
{
    match other_line_without(drawn, need) {
        Some(n) => Some(Hindrance::LineLacks(need, n)),
        None => None,
    }
}

// How many lines have a length.
fn length_count(drawn: &Drawn) -> usize
    ensures { result ≡ length (with_lengths (drawn_view drawn.now)).lines }
{
    drawn
        .lines
        .iter()
        .filter(|line| !has_no_length(drawn, line))
        .count()
}

// A level without a line that has a length.
fn no_length(drawn: &Drawn) -> Option<Hindrance>
    ensures { result ≡
        (if length (with_lengths (drawn_view drawn.now)).lines == 0 then Some NoLine else None) }
{
    if length_count(drawn) == 0 {
        return Some(Hindrance::NoLine);
    }
    None
}

/// The first hindrance of the lists without the lines of no length. Lines have the numbers that the level gives them.
pub fn other_hindrance(drawn: &Drawn) -> Option<Hindrance>
    ensures { result ≡ other_hindrance (drawn_view drawn.now) }
{
    let ends = first_of(
        other_line_hindrance(drawn, LineNeed::Coordinates),
        first_of(
            other_line_hindrance(drawn, LineNeed::AtMostLongest),
            no_length(drawn),
        ),
    );
    let sides = first_of(
        other_line_hindrance(drawn, LineNeed::RightSide),
        first_of(other_line_hindrance(drawn, LineNeed::LeftSide), ends),
    );
    first_of(
        other_line_hindrance(drawn, LineNeed::Vertices),
        first_of(side_hindrance(drawn), sides),
    )
}
