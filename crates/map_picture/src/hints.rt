//! Hints where a number's box may meet one that is placed. A hint saves time if it is right, and changes nothing else.
ghost use Rattle.std.specs.Prelude.{◌≡◌, ◌<◌, true};
ghost use Rattle.std.specs.List.{list_any};
ghost use Rattle.map_picture.specs.Placing.{overlaps};

use crate::options::PictureError;
use crate::placing::{NumberBox, Placed, overlaps};
use map_svg::{Shift, Spot};
use std::alloc::Global;

/// For each cell of the plane which number was placed there last: the plane is cut into 256 columns and 256 rows of
/// cells, over and over.
#[derive(Drop)]
pub(crate) struct Hints {
    cells: Vec<usize>,
    width: u64,
    height: u64,
}

/// Where a number may be: its middle, and half its width and height.
#[derive(Clone, Copy)]
pub(crate) struct Outline {
    x: i64,
    y: i64,
    width: u32,
    height: u32,
}

/// The outline of a number at a place.
pub(crate) fn outline_of(place: Spot, shift: Shift, width: u32, height: u32) -> Outline {
    Outline {
        x: i64::from(place.x).saturating_add(shift.dx),
        y: i64::from(place.y).saturating_add(shift.dy),
        width,
        height,
    }
}

/// No hints yet, in cells for texts of this size.
pub(crate) fn no_hints(alloc: Global, size: u32) -> Result<Hints, PictureError> {
    let cells = vec![in alloc; 0usize; 65_536]?;
    Ok(Hints {
        cells,
        width: u64::from(size),
        height: u64::from(size / 2),
    })
}

// One of five points of a length, from one end to the other; the third is its middle.
fn point_of(half: u32, n: u32) -> i64 {
    match n {
        0 => -i64::from(half),
        1 => -i64::from(half / 2),
        2 => 0,
        3 => i64::from(half / 2),
        _ => i64::from(half),
    }
}

// The column or the row of a coordinate.
fn cell_along(middle: i64, away: i64, length: u64) -> usize
    ensures { result < 256 }
{
    let from_far = middle.saturating_add(away).saturating_add(1_048_576);
    (from_far.unsigned_abs() / length.max(1) % 256) as usize
}

// The cell of the point with the number of an outline, of fifteen in three rows.
fn cell_at(hints: &Hints, outline: Outline, n: u32) -> usize {
    let (across, down) = (
        point_of(outline.width, n % 5),
        point_of(outline.height, n / 5 * 2),
    );
    let column = cell_along(outline.x, across, hints.width);
    let row = cell_along(outline.y, down, hints.height);
    row * 256 + column
}

// Whether the box meets the placed number with the index, if there is one.
fn meets_nth(placed: &[Placed], n: usize, space: NumberBox) -> bool
    ensures { result ≡ true → list_any (λ other. overlaps space other.space) placed.now ≡ true }
{
    match placed.get(n) {
        Some(other) => overlaps(space, other.space),
        None => false,
    }
}

// Whether the box meets a placed number, if a hint tells.
fn meets_hinted(hints: &Hints, placed: &[Placed], outline: Outline, space: NumberBox) -> bool
    ensures { result ≡ true → list_any (λ other. overlaps space other.space) placed.now ≡ true }
{
    for n in 0..15 {
        if let Some(index) = hints.cells.get(cell_at(hints, outline, n)) {
            if meets_nth(placed, *index, space) {
                return true;
            }
        }
    }
    false
}

/// Whether the box meets a placed number.
pub(crate) fn meets_placed(
    hints: &Hints,
    placed: &[Placed],
    outline: Outline,
    space: NumberBox,
) -> bool
    ensures { result ≡ list_any (λ other. overlaps space other.space) placed.now }
{
    meets_hinted(hints, placed, outline, space)
        || placed.iter().any(|other| overlaps(space, other.space))
}

/// Notes that the number with the index is placed in this outline.
pub(crate) fn note_placed(hints: &mut Hints, outline: Outline, index: usize) {
    for n in 0..15 {
        let cell = cell_at(hints, outline, n);
        if let Some(last) = hints.cells.get_mut(cell) {
            *last = index;
        }
    }
}
