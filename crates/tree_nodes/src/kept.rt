//! Short lists that are done with: the next ones take their room.
ghost use Rattle.std.specs.Prelude.{◌≡◌, ◌<◌, ◌≤◌, ◌++◌, ◌∷◌, [], vec_len, vec_capacity, IfOk, OnOk};
ghost use Rattle.tree_nodes.specs.Placed.{HasPieceRoom, IsEmptyList};

use crate::placed::PlacedPieces;
use std::alloc::{AllocError, Global};
use tree_choice::EndedList;

// A list of at most so many pieces is short. Most lists are.
const SHORT: usize = 16;

/// The most lists that are kept.
pub(crate) const MOST_KEPT: usize = 64;

/// An empty list with room for so many pieces and their ends.
pub(crate) fn with_room(alloc: Global, count: usize) -> Result<EndedList, AllocError>
    ensures pieces { IfOk result (λ list. list.pieces.items ≡ []) }
    ensures firsts { IfOk result (λ list. list.firsts.items ≡ []) }
    ensures lasts { IfOk result (λ list. list.lasts.items ≡ []) }
    ensures room { IfOk result (HasPieceRoom count) }
{
    let pieces = Vec::with_capacity(alloc, count)?;
    let firsts = Vec::with_capacity(alloc, count)?;
    let lasts = Vec::with_capacity(alloc, count)?;
    Ok(EndedList {
        pieces,
        firsts,
        lasts,
    })
}

// Makes a kept list empty again, with room for so many pieces.
fn clear_list(list: &mut PlacedPieces, count: usize) -> Result<(), AllocError>
    ensures { OnOk result (IsEmptyList count list.new) }
{
    list.ended.pieces.clear();
    list.ended.firsts.clear();
    list.ended.lasts.clear();
    list.order = None;
    list.floors.clear();
    list.ended.pieces.reserve(count)?;
    list.ended.firsts.reserve(count)?;
    list.ended.lasts.reserve(count)?;
    Ok(())
}

// An empty list with room of its own.
#[inline(never)]
fn new_list(alloc: Global, count: usize) -> Result<Box<PlacedPieces>, AllocError>
    ensures { IfOk result (λ list. IsEmptyList count list.value) }
{
    let ended = with_room(alloc, count)?;
    PlacedPieces::with_order(alloc, ended, None, Vec::new(alloc))
}

/// An empty list with room for so many pieces. A short one takes the room of a kept list, if there is one.
#[inline(always)]
pub(crate) fn empty_list(
    alloc: Global,
    count: usize,
    kept: &mut Vec<Box<PlacedPieces>>,
) -> Result<Box<PlacedPieces>, AllocError>
    ensures { IfOk result (λ list. IsEmptyList count list.value) }
{
    if count > SHORT {
        return new_list(alloc, count);
    }
    match kept.pop() {
        Some(list) => {
            let mut list = list;
            clear_list(&mut list, count)?;
            Ok(list)
        }
        None => new_list(alloc, SHORT),
    }
}

/// Keeps the room of a short list that is done with. Another one is given back, and so is one that has no place here:
/// nothing is allocated for it.
pub(crate) fn keep(list: Box<PlacedPieces>, kept: &mut Vec<Box<PlacedPieces>>)
    ensures kept { vec_len list.value.ended.pieces ≤ 16 → vec_len kept.old < vec_capacity kept.old →
        kept.new.items ≡ kept.old.items ++ list ∷ [] }
    ensures long { 16 < vec_len list.value.ended.pieces → kept.new.items ≡ kept.old.items }
    ensures full { vec_capacity kept.old ≤ vec_len kept.old → kept.new.items ≡ kept.old.items }
{
    if list.ended.pieces.len() > SHORT || kept.len() >= kept.capacity() {
        return;
    }
    let _ = kept.push(list);
}
