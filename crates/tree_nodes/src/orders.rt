//! Orders by places: the numbers of a list's pieces, in an order in which neighbours on the map mostly stand together.
ghost use Rattle.std.specs.Prelude.{◌≡◌, ℕ, ◌+◌, ◌<◌, ◌≤◌, ◌^◌, ◌++◌, ◌∷◌, [], List, length, filter_map, vec_len, vec_capacity, IfOk, OnOk};
ghost use Rattle.std.specs.List.{range_with_len};
ghost use Rattle.std.specs.List.Sorted.{IsPermutation};
ghost use Rattle.tree_pieces.specs.declared.edge.Edge.{Edge};
ghost use Rattle.tree_choice.specs.Columns.{AreEnds, IsEnded};
ghost use Rattle.tree_nodes.specs.Placed.{IsPlacedList, HasNotes, part_number};

use crate::kept::with_room;
use crate::placed::PlacedPieces;
use crate::pushing::put_ended;
use std::alloc::{AllocError, Global};
use tree_choice::{EndedList, EndedPieces, numbers_by_place};
use tree_pieces::{Ends, Lines};

/// Longer lists than this have an order by places, and remember what their pieces cost.
pub(crate) const LONG: usize = 128;

// What is noted of a piece that has no part.
const NO_PART: u32 = u32::MAX;

/// Gives a long list an order by places, unless it has one.
pub(crate) fn order_list(
    alloc: Global,
    lines: &Lines,
    list: &mut PlacedPieces,
) -> Result<(), AllocError>
    requires few { vec_len list.old.ended.pieces < 2 ^ 31 }
    requires listed { IsPlacedList lines.now list.old }
    ensures ended { list.new.ended ≡ list.old.ended }
    ensures listed { OnOk result (IsPlacedList lines.now list.new) }
{
    if list.ended.pieces.len() > LONG && list.order.is_none() {
        let order = numbers_by_place(alloc, lines, &list.ended.pieces)?;
        list.order = Some(order);
    }
    Ok(())
}

/// The pieces of a list in this order, with their rounded ends.
pub(crate) fn gathered(
    alloc: Global,
    list: &EndedPieces,
    order: &[u32],
) -> Result<EndedList, AllocError>
    requires firsts { length list.now.firsts.now ≡ length list.now.pieces.now }
    requires lasts { length list.now.lasts.now ≡ length list.now.pieces.now }
    requires order { IsPermutation (range_with_len 0 (length list.now.pieces.now)) order.now }
    ensures pieces { IfOk result (λ placed. IsPermutation list.now.pieces.now placed.pieces.items) }
    ensures ended { IfOk result (λ placed. (lines : List Edge) →
        AreEnds lines list.now.pieces.now list.now.firsts.now list.now.lasts.now →
        IsEnded lines placed) }
{
    let pieces = list.pieces;
    let firsts = list.firsts;
    let lasts = list.lasts;
    let mut placed = with_room(alloc, order.len())?;
    for number in order {
        let at = *number as usize;
        let ends = Ends {
            first: firsts[at],
            last: lasts[at],
        };
        put_ended(&pieces[at], ends, &mut placed);
    }
    Ok(placed)
}

// The note of a piece: the number of its part on a side that had so many parts before it and has so many with it.
fn note_of(before: usize, after: usize) -> u32
    requires few { before < 2 ^ 31 }
    requires more { before ≤ after }
    requires one { after ≤ before + 1 }
    ensures { range_with_len 0 after
        ≡ range_with_len 0 before ++ filter_map part_number (result ∷ []) }
{
    if before < after {
        before as u32
    } else {
        NO_PART
    }
}

/// Notes the number of a piece's part on a side, or that it has none. The side had so many parts before the piece, and
/// has so many with it. Nothing is allocated.
#[inline(always)]
pub(crate) fn note_part(notes: &mut Vec<u32>, before: usize, after: usize)
    requires few { before < 2 ^ 31 }
    requires more { before ≤ after }
    requires one { after ≤ before + 1 }
    requires room { vec_len notes.old < vec_capacity notes.old }
    ensures noted { (n : ℕ) → HasNotes n before notes.old → HasNotes (n + 1) after notes.new }
    ensures room { vec_capacity notes.new ≡ vec_capacity notes.old }
{
    notes.push_reserved(note_of(before, after));
}

// Appends the number of a part that is noted.
fn put_number(note: u32, numbers: &mut Vec<u32>) -> Result<(), AllocError>
    ensures { OnOk result
        (numbers.new.items ≡ numbers.old.items ++ filter_map part_number (note ∷ [])) }
{
    if note == NO_PART {
        return Ok(());
    }
    numbers.push(note)?;
    Ok(())
}

/// The order by places of the parts on one side, of which there are so many: the numbers that are noted, in the order
/// of the pieces.
pub(crate) fn parted_order(
    alloc: Global,
    order: &[u32],
    notes: &[u32],
    count: usize,
) -> Result<Vec<u32>, AllocError>
    requires { IsPermutation (range_with_len 0 (length notes.now)) order.now }
    ensures { IfOk result (λ own. IsPermutation (filter_map part_number notes.now) own.items) }
{
    let mut own = Vec::with_capacity(alloc, count)?;
    for number in order {
        put_number(notes[*number as usize], &mut own)?;
    }
    Ok(own)
}
