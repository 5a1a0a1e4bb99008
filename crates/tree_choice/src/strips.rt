//! An order of pieces by their places, in strips.
ghost use Rattle.std.specs.Prelude.{◌≡◌, ◌<◌, ◌^◌, length, IfOk, OnOk};
ghost use Rattle.std.specs.List.{range_with_len};
ghost use Rattle.std.specs.List.Sorted.{IsPermutation};

use crate::block_boxes::BLOCK;
use crate::losses::Loss;
use std::alloc::{AllocError, Global};
use tree_pieces::{Edge, Lines, Piece};

// The middle of a line, moved so that neither coordinate is negative.
#[derive(Clone, Copy)]
struct Middle {
    x: u32,
    y: u32,
}

// Upright strips over the map: where the first begins, and how wide each is.
#[derive(Clone, Copy)]
struct Strips {
    west: u32,
    width: u32,
}

impl Middle {
    // No sum of two coordinates wraps.
    fn of(edge: Edge) -> Middle {
        let x = i32::from(edge.v1.x).wrapping_add(i32::from(edge.v2.x));
        let y = i32::from(edge.v1.y).wrapping_add(i32::from(edge.v2.y));
        Middle {
            x: x.wrapping_add(65_536).unsigned_abs() / 2,
            y: y.wrapping_add(65_536).unsigned_abs() / 2,
        }
    }
}

impl Strips {
    // Strips so wide that a block of pieces fills a square if the pieces are spread evenly.
    fn over(lines: &[Edge], pieces: &[Piece]) -> Strips {
        let (mut west, mut east) = (u32::MAX, 0);
        let (mut south, mut north) = (u32::MAX, 0);
        for piece in pieces {
            if let Some(edge) = lines.get(piece.line as usize) {
                let middle = Middle::of(*edge);
                west = west.min(middle.x);
                east = east.max(middle.x);
                south = south.min(middle.y);
                north = north.max(middle.y);
            }
        }
        let across = u64::from(east.saturating_sub(west));
        let area = across.wrapping_mul(u64::from(north.saturating_sub(south)));
        let blocks = pieces.len().div_ceil(BLOCK).max(1) as u64;
        let width = area.checked_div(blocks).unwrap_or(0).isqrt();
        Strips {
            west,
            width: u32::try_from(width).unwrap_or(u32::MAX).max(1),
        }
    }

    // Orders places by strips from west to east, within one strip northward, within the next southward, and so on.
    fn key(self, middle: Middle) -> (u32, u32) {
        let strip = middle.x.saturating_sub(self.west).checked_div(self.width);
        let strip = strip.unwrap_or(0);
        if strip % 2 == 0 {
            (strip, middle.y)
        } else {
            (strip, u32::MAX - middle.y)
        }
    }

    // The key of a piece, by its line.
    fn key_of(self, lines: &[Edge], piece: &Piece) -> (u32, u32) {
        match lines.get(piece.line as usize) {
            Some(edge) => self.key(Middle::of(*edge)),
            None => (0, 0),
        }
    }
}

/// The pieces of a list in an order in which neighbours on the map mostly stand together, so that a block of them has a
/// small box. The order only matters for speed.
pub fn by_place(alloc: Global, lines: &Lines, pieces: &[Piece]) -> Result<Vec<Piece>, AllocError>
    ensures { IfOk result (λ ordered. IsPermutation pieces.now ordered.items) }
{
    let edges = lines.as_slice();
    let strips = Strips::over(edges, pieces);
    let mut ordered = pieces.to_vec(alloc)?;
    ordered.sort_by_cached_key(|piece| strips.key_of(edges, piece))?;
    Ok(ordered)
}

// The numbers below this one, in turn.
fn numbers_below(alloc: Global, count: u32) -> Result<Vec<u32>, AllocError>
    ensures { IfOk result (λ numbers. numbers.items ≡ range_with_len 0 count) }
{
    let mut numbers = Vec::with_capacity(alloc, count as usize)?;
    for number in 0..count {
        numbers.push(number)?;
    }
    Ok(numbers)
}

/// The same order as numbers of the list's pieces, which take less memory than the pieces themselves.
pub fn numbers_by_place(
    alloc: Global,
    lines: &Lines,
    pieces: &[Piece],
) -> Result<Vec<u32>, AllocError>
    requires few { length pieces.now < 2 ^ 32 }
    ensures { IfOk result (λ order.
        IsPermutation (range_with_len 0 (length pieces.now)) order.items) }
{
    let edges = lines.as_slice();
    let strips = Strips::over(edges, pieces);
    let mut order = numbers_below(alloc, pieces.len() as u32)?;
    order.sort_by_cached_key(|number| match pieces.get(*number as usize) {
        Some(piece) => strips.key_of(edges, piece),
        None => (0, 0),
    })?;
    Ok(order)
}

/// Puts losses in the same order, by the pieces that are lost. Those of one block stay as they are.
pub(crate) fn sort_losses(
    alloc: Global,
    lines: &Lines,
    losses: &mut Vec<Loss>,
) -> Result<(), AllocError>
    ensures { OnOk result (IsPermutation losses.old.items losses.new.items) }
{
    if losses.len() <= BLOCK {
        return Ok(());
    }
    let edges = lines.as_slice();
    let mut pieces = Vec::with_capacity(alloc, losses.len())?;
    for loss in losses.iter() {
        pieces.push(loss.piece)?;
    }
    let strips = Strips::over(edges, &pieces);
    losses.sort_by_cached_key(|loss| strips.key_of(edges, &loss.piece))?;
    Ok(())
}
