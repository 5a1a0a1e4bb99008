//! Parts lines by a divider: those that go to its right, and those that go to its left.
ghost use Rattle.std.specs.Prelude.{◌≡◌, ◌<◌, ℕ, Bool, true, filter, length, IfOk};
ghost use Rattle.std.specs.List.{list_any};
ghost use Rattle.map_plane.specs.Crossed.{reaches_right, reaches_left, is_dot, goes_right, goes_left};
ghost use Rattle.map_plane.specs.declared.places.PlacedLine.{PlacedLine};

use crate::meeting::{is_at, side_of};
use crate::places::PlacedLine;
use lump_records::Vertex;
use std::alloc::{AllocError, Global};

// How many lines are looked at to see how well a divider parts all of them.
const SAMPLES: usize = 24;

// How many dividers are tried.
const CANDIDATES: usize = 24;

/// The lines that go to the right of a divider, and those that go to its left. Some go to both.
#[derive(Drop)]
pub(crate) struct Parts {
    pub right: Vec<PlacedLine>,
    pub left: Vec<PlacedLine>,
}

// Whether the line has an end on the right of the divider.
#[tactic(auto, unfolding(crate::specs::Crossed::reaches_right))]
fn reaches_right(divider: &PlacedLine, line: &PlacedLine) -> bool
    ensures { result ≡ reaches_right divider.now line.now }
{
    0 < side_of(divider, line.from) || 0 < side_of(divider, line.to)
}

// Whether the line has an end on the left of the divider.
#[tactic(auto, unfolding(crate::specs::Crossed::reaches_left))]
fn reaches_left(divider: &PlacedLine, line: &PlacedLine) -> bool
    ensures { result ≡ reaches_left divider.now line.now }
{
    side_of(divider, line.from) < 0 || side_of(divider, line.to) < 0
}

// Whether the line's ends are at the same place.
#[tactic(auto, unfolding(crate::specs::Crossed::is_dot))]
fn is_dot(line: &PlacedLine) -> bool
    ensures { result ≡ is_dot line.now }
{
    is_at(line.from, line.to)
}

// Whether the line goes to the right part.
#[tactic(auto, unfolding(crate::specs::Crossed::goes_right))]
fn goes_right(divider: &PlacedLine, line: &PlacedLine) -> bool
    ensures { result ≡ goes_right divider.now line.now }
{
    reaches_right(divider, line) || !reaches_left(divider, line) || is_dot(line)
}

// Whether the line goes to the left part.
#[tactic(auto, unfolding(crate::specs::Crossed::goes_left))]
fn goes_left(divider: &PlacedLine, line: &PlacedLine) -> bool
    ensures { result ≡ goes_left divider.now line.now }
{
    reaches_left(divider, line) || !reaches_right(divider, line) || is_dot(line)
}

/// The parts of the lines.
pub(crate) fn parts_of(
    alloc: Global,
    divider: &PlacedLine,
    lines: &[PlacedLine],
) -> Result<Parts, AllocError>
    ensures right { IfOk result (λ p. p.right.items ≡ filter (goes_right divider.now) lines.now) }
    ensures left { IfOk result (λ p. p.left.items ≡ filter (goes_left divider.now) lines.now) }
{
    let mut right = Vec::new(alloc);
    let mut left = Vec::new(alloc);
    for line in lines {
        if goes_right(divider, line) {
            right.push(*line)?;
        }
        if goes_left(divider, line) {
            left.push(*line)?;
        }
    }
    Ok(Parts { right, left })
}

/// One of the lines: at the beginning of one of their eighths.
pub(crate) fn line_of_eighth(lines: &[PlacedLine], eighth: usize) -> PlacedLine
    requires { 0 < length lines.now }
    // what holds of it holds of one of them
    ensures { (test : PlacedLine → Bool) → test result ≡ true → list_any test lines.now ≡ true }
{
    let place = (lines.len() / 8).saturating_mul(eighth);
    match lines.get(place) {
        Some(line) => *line,
        None => lines[0],
    }
}

// A line through the place: along its column, its row, or one of its diagonals.
fn line_through(place: Vertex, way: usize) -> PlacedLine {
    let east = place.x.saturating_add(1);
    let to = match way {
        0 => Vertex {
            x: place.x,
            y: place.y.saturating_add(1),
        },
        1 => Vertex {
            x: east,
            y: place.y,
        },
        2 => Vertex {
            x: east,
            y: place.y.saturating_add(1),
        },
        _ => Vertex {
            x: east,
            y: place.y.saturating_sub(1),
        },
    };
    PlacedLine {
        number: 0,
        from: place,
        to,
        is_wall: false,
    }
}

// A line that may be the divider: one of the lines, or one through an end of one of them.
fn candidate(lines: &[PlacedLine], n: usize) -> PlacedLine
    requires { 0 < length lines.now }
{
    let line = line_of_eighth(lines, n % 8);
    match n / 8 {
        0 => line,
        1 => line_through(line.from, n % 4),
        _ => line_through(line.to, n % 4),
    }
}

// How badly the divider parts some of the lines, each `step` behind the one before: how many go to the longer part, and
// how many to each.
fn cost_of(divider: &PlacedLine, lines: &[PlacedLine], step: usize) -> usize {
    let mut right = 0usize;
    let mut left = 0usize;
    let mut n = 0usize;
    for _sample in 0..SAMPLES {
        let Some(line) = lines.get(n) else {
            break;
        };
        right += usize::from(goes_right(divider, line));
        left += usize::from(goes_left(divider, line));
        n = n.saturating_add(step);
    }
    right.max(left) + right + left
}

/// A line that parts the lines well: each of two parts has about half of them, and few are in both. Any line may stand
/// for it, only the time hangs on which.
pub(crate) fn divider_of(lines: &[PlacedLine]) -> PlacedLine
    requires { 0 < length lines.now }
{
    // odd, so that it keeps step with no lines that were drawn in turn
    let step = lines.len() / SAMPLES | 1;
    let mut best = lines[0];
    let mut least = cost_of(&best, lines, step);
    for n in 0..CANDIDATES {
        let candidate = candidate(lines, n);
        let cost = cost_of(&candidate, lines, step);
        if cost < least {
            best = candidate;
            least = cost;
        }
    }
    best
}

/// Whether parts of so many lines are much shorter than a list of so many.
pub(crate) fn are_shorter(len: usize, right: usize, left: usize) -> bool {
    let most = len - len / 8;
    right <= most && left <= most && right.saturating_add(left) <= len.saturating_add(len / 4)
}
