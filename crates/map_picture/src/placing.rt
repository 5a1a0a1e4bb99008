//! Which numbers are shown, and where: each at the first of its places where it lies on no other number.
ghost use Rattle.std.specs.Prelude.{◌≡◌, ◌≤◌, ◌*◌, ◌+ℤ◌, ◌-ℤ◌, pos, false, length, decimal, find, IfOk, OnOk};
ghost use Rattle.std.specs.Option.{option_map_or};
ghost use Rattle.map_picture.specs.Placing.{fits_across, fits_down, half_height, half_width, is_free, lies_within, note_box, number_box, overlap_across, overlap_down, overlaps, page_box, place_all, place_fitting, placed_at, placed_with};

use crate::hints::{Hints, Outline, meets_placed, no_hints, note_placed, outline_of};
use crate::labels::{Label, Numbered};
use crate::options::PictureError;
use crate::view::{View, lower_edge, right_edge};
use map_svg::{Shift, Spot};
use std::alloc::Global;

/// A box of the picture, by its edges.
#[derive(Clone, Copy, Debug, PartialEq, Eq)]
pub struct NumberBox {
    pub left: i128,
    pub right: i128,
    pub top: i128,
    pub bottom: i128,
}

/// Where numbers may be: on the page, but not where it is kept free.
#[derive(Clone, Copy, Debug, PartialEq, Eq)]
pub struct Room {
    pub page: NumberBox,
    pub kept: Option<NumberBox>,
}

/// A number that is shown: whose it is, the place beside which it is, the vector from there to its middle, and its box.
#[derive(Clone, Copy, Debug, PartialEq, Eq)]
pub struct Placed {
    pub item: Numbered,
    pub n: u32,
    pub place: Spot,
    pub shift: Shift,
    pub space: NumberBox,
}

// Whether two boxes have more in common than an edge, from left to right.
fn overlap_across(a: NumberBox, b: NumberBox) -> bool
    ensures { result ≡ overlap_across a b }
{
    a.left < b.right && b.left < a.right
}

// Whether two boxes have more in common than an edge, from top to bottom.
fn overlap_down(a: NumberBox, b: NumberBox) -> bool
    ensures { result ≡ overlap_down a b }
{
    a.top < b.bottom && b.top < a.bottom
}

/// Whether two boxes have more in common than an edge.
pub(crate) fn overlaps(a: NumberBox, b: NumberBox) -> bool
    ensures { result ≡ overlaps a b }
{
    overlap_across(a, b) && overlap_down(a, b)
}

// Whether the first box is within the second one, from left to right.
fn fits_across(a: NumberBox, b: NumberBox) -> bool
    ensures { result ≡ fits_across a b }
{
    b.left <= a.left && a.right <= b.right
}

// Whether the first box is within the second one, from top to bottom.
fn fits_down(a: NumberBox, b: NumberBox) -> bool
    ensures { result ≡ fits_down a b }
{
    b.top <= a.top && a.bottom <= b.bottom
}

// Whether the first box lies within the second one.
fn lies_within(a: NumberBox, b: NumberBox) -> bool
    ensures { result ≡ lies_within a b }
{
    fits_across(a, b) && fits_down(a, b)
}

// How many digits a number has.
#[tactic(auto, using(crate::proofs::Digits::digits))]
fn digit_count(n: u32) -> u32
    ensures count { result ≡ length (decimal n) }
    ensures bound { result ≤ 10 }
{
    if n < 10 {
        1
    } else if n < 100 {
        2
    } else if n < 1_000 {
        3
    } else if n < 10_000 {
        4
    } else if n < 100_000 {
        5
    } else if n < 1_000_000 {
        6
    } else if n < 10_000_000 {
        7
    } else if n < 100_000_000 {
        8
    } else if n < 1_000_000_000 {
        9
    } else {
        10
    }
}

// Half the width of a number of so many digits, rounded up.
fn half_width(item: Numbered, size: u32, count: u32) -> u32
    requires size { size ≤ 1400 }
    requires count { count ≤ 10 }
    ensures { result ≡ half_width item size count }
{
    match item {
        Numbered::Sector => (size * count + 1) / 2,
        _ => (size * count + 2) / 3,
    }
}

// Half the height of a number, rounded up.
fn half_height(item: Numbered, size: u32) -> u32
    requires { size ≤ 1400 }
    ensures { result ≡ half_height item size }
{
    match item {
        Numbered::Sector => (3 * size + 3) / 4,
        _ => (size + 1) / 2,
    }
}

// The near end of a span, by a coordinate, the way from there to the span's middle, and half its length.
fn edge_before(from: i32, by: i64, half: u32) -> i128
    ensures { result ≡ (from +ℤ by) -ℤ pos half }
{
    i128::from(from) + i128::from(by) - i128::from(half)
}

// The far end of the same span.
fn edge_behind(from: i32, by: i64, half: u32) -> i128
    ensures { result ≡ (from +ℤ by) +ℤ pos half }
{
    i128::from(from) + i128::from(by) + i128::from(half)
}

// The box of a number of half the width and half the height.
fn number_box(place: Spot, shift: Shift, width: u32, height: u32) -> NumberBox
    ensures { result ≡ number_box place shift width height }
{
    NumberBox {
        left: edge_before(place.x, shift.dx, width),
        right: edge_behind(place.x, shift.dx, width),
        top: edge_before(place.y, shift.dy, height),
        bottom: edge_behind(place.y, shift.dy, height),
    }
}

// Whether the box meets what is kept free.
fn overlaps_kept(kept: Option<NumberBox>, space: NumberBox) -> bool
    ensures { result ≡ option_map_or (overlaps space) kept false }
{
    match kept {
        Some(kept) => overlaps(space, kept),
        None => false,
    }
}

// Whether the number at a place is on the page, and meets neither what is kept free nor a number that is placed.
fn is_free(room: Room, placed: &[Placed], hints: &Hints, outline: Outline, space: NumberBox) -> bool
    ensures { result ≡ is_free room placed.now space }
{
    lies_within(space, room.page)
        && !overlaps_kept(room.kept, space)
        && !meets_placed(hints, placed, outline, space)
}

// Whether a number is free at a place.
fn is_free_at(
    room: Room,
    placed: &[Placed],
    hints: &Hints,
    label: &Label,
    width: u32,
    height: u32,
    shift: Shift,
) -> bool
    ensures { result ≡ is_free room placed.now (number_box label.now.place shift width height) }
{
    let outline = outline_of(label.place, shift, width, height);
    let space = number_box(label.place, shift, width, height);
    is_free(room, placed, hints, outline, space)
}

// The first of a number's places where it is free.
fn first_free(
    room: Room,
    placed: &[Placed],
    hints: &Hints,
    label: &Label,
    width: u32,
    height: u32,
) -> Option<Shift>
    ensures { result ≡ find (λ s. is_free room placed.now
        (number_box label.now.place s width height)) label.now.shifts }
{
    label.shifts.iter().copied().find(|shift| is_free_at(
        room, placed, hints, label, width, height, *shift,
    ))
}

// The number at a place.
fn placed_at(label: &Label, shift: Shift, width: u32, height: u32) -> Placed
    ensures { result ≡ placed_at width height label.now shift }
{
    Placed {
        item: label.item,
        n: label.n,
        place: label.place,
        shift,
        space: number_box(label.place, shift, width, height),
    }
}

// Places a number at the first of its places where it is free, or leaves it out.
fn place_label(
    placed: &mut Vec<Placed>,
    hints: &mut Hints,
    size: u32,
    room: Room,
    label: &Label,
) -> Result<(), PictureError>
    requires { size ≤ 1400 }
    ensures { OnOk result (placed.new.items ≡ placed_with size room placed.old.items label.now) }
{
    let width = half_width(label.item, size, digit_count(label.n));
    let height = half_height(label.item, size);
    match first_free(room, placed, hints, label, width, height) {
        Some(shift) => {
            let outline = outline_of(label.place, shift, width, height);
            note_placed(hints, outline, placed.len());
            placed.push(placed_at(label, shift, width, height))?;
            Ok(())
        }
        None => Ok(()),
    }
}

// Places the numbers one after the other.
fn place_all(
    alloc: Global,
    size: u32,
    room: Room,
    labels: &[Label],
) -> Result<Vec<Placed>, PictureError>
    requires { size ≤ 1400 }
    ensures { IfOk result (λ placed. placed.items ≡ place_all size room labels.now) }
{
    let mut hints = no_hints(alloc, size)?;
    let mut placed = Vec::new(alloc);
    for label in labels {
        match place_label(&mut placed, &mut hints, size, room, label) {
            Ok(()) => {}
            Err(error) => return Err(error),
        }
    }
    Ok(placed)
}

// The box of the page.
fn page_box(view: &View) -> NumberBox
    ensures { result ≡ page_box view.now }
{
    NumberBox {
        left: i128::from(view.left),
        right: i128::from(right_edge(view)),
        top: i128::from(view.top),
        bottom: i128::from(lower_edge(view)),
    }
}

// The right edge of the note's box.
fn note_right(view: &View) -> i128
    ensures { result ≡ view.now.left +ℤ pos (40 * view.now.step) }
{
    i128::from(view.left) + i128::from(40 * u64::from(view.step))
}

// The upper edge of the note's box.
fn note_top(view: &View) -> i128
    ensures { result ≡ (view.now.top +ℤ pos view.now.height) -ℤ pos (2 * view.now.step) }
{
    i128::from(lower_edge(view)) - i128::from(2 * u64::from(view.step))
}

// The box of the note, in the page's lower left corner.
fn note_box(view: &View) -> NumberBox
    ensures { result ≡ note_box view.now }
{
    NumberBox {
        left: i128::from(view.left),
        right: note_right(view),
        top: note_top(view),
        bottom: i128::from(lower_edge(view)),
    }
}

/// The numbers that are placed: all of them, or as many as lie neither on one another nor on the note that tells of
/// the others.
pub(crate) fn place_fitting(
    alloc: Global,
    size: u32,
    view: &View,
    labels: &[Label],
) -> Result<Vec<Placed>, PictureError>
    requires { size ≤ 1400 }
    ensures { IfOk result (λ placed. placed.items ≡ place_fitting size view.now labels.now) }
{
    let page = page_box(view);
    let all = place_all(alloc, size, Room { page, kept: None }, labels)?;
    if all.len() == labels.len() {
        return Ok(all);
    }
    let kept = Some(note_box(view));
    place_all(alloc, size, Room { page, kept }, labels)
}
