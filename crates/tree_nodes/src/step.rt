//! One step of the division: a leaf, or a partition and two lists. All ways to choose give the same partition; they
//! differ in time alone.
ghost use Rattle.std.specs.Prelude.{◌≡◌, ◌<◌, ◌≤◌, ◌^◌, List, length, filter_map, vec_len, All, IfOk, OnOk};
ghost use Rattle.std.specs.List.{range_with_len};
ghost use Rattle.std.specs.List.Sorted.{IsPermutation};
ghost use Rattle.tree_pieces.specs.declared.edge.Edge.{Edge};
ghost use Rattle.tree_pieces.specs.declared.piece.Piece.{Piece};
ghost use Rattle.tree_pieces.specs.Pieces.{IsPiece};
ghost use Rattle.tree_pieces.specs.Division.{right_parts, left_parts};
ghost use Rattle.tree_choice.specs.Candidates.{AreEnded};
ghost use Rattle.tree_choice.specs.Choices.{IsChosen};
ghost use Rattle.tree_choice.specs.Columns.{IsEnded};
ghost use Rattle.tree_choice.specs.Floors.{AreKnown};
ghost use Rattle.tree_nodes.specs.Placed.{IsPlacedList, part_number, AreSideLists};
ghost use Rattle.tree_nodes.specs.Growth.{IsListStep};

use crate::kept::{empty_list, keep};
use crate::orders::{LONG, gathered, order_list, parted_order};
use crate::parting::{Sides, part_list, part_noted};
use crate::placed::PlacedPieces;
use lump_records::Bounds;
use std::alloc::{AllocError, Global};
use tree_choice::{
    Choice, EndedList, EndedPieces, Floor, StraightLines, blocks_of, choose_above, choose_in_boxes,
    floors_of_part,
};
use tree_pieces::{Lines, Piece};

// The most pieces of a list that is one block.
const FEW: usize = 16;

// A box that holds all places.
const EVERYWHERE: Bounds = Bounds {
    top: i16::MAX,
    bottom: i16::MIN,
    left: i16::MIN,
    right: i16::MAX,
};

/// What a list of pieces becomes: a leaf, or the parts by a partition, whose two lists wait.
#[derive(Drop)]
pub(crate) enum Step {
    Leaf(Box<PlacedPieces>),
    Parts(Piece),
}

// What is known of the pieces of a part. Only a part that is most of a list has floors: in another one too much has
// changed, and a short one is soon counted.
fn floors_in(
    alloc: Global,
    lines: &Lines,
    list: &[Piece],
    floors: &[Floor],
    part: &[Piece],
) -> Result<Vec<Floor>, AllocError>
    requires part { All (IsPiece lines.now) part.now }
    requires floors { AreKnown lines.now list.now floors.now }
    ensures { IfOk result (λ known. AreKnown lines.now part.now known.items) }
{
    if part.len() <= LONG || part.len() < list.len() - list.len() / 8 {
        return Ok(Vec::new(alloc));
    }
    floors_of_part(alloc, lines, list, floors, part)
}

// The parts on one side of a partition as a list, with what is known of them. Many have the order by places that their
// notes give, if the list has one.
fn placed_part(
    alloc: Global,
    lines: &Lines,
    list: &PlacedPieces,
    part: EndedList,
    notes: &[u32],
) -> Result<Box<PlacedPieces>, AllocError>
    requires list { IsPlacedList lines.now list.now }
    requires part { All (IsPiece lines.now) part.pieces.items }
    requires ended { IsEnded lines.now part }
    requires notes { length notes.now ≡ length list.now.ended.pieces.items }
    requires numbers { filter_map part_number notes.now ≡ range_with_len 0 (vec_len part.pieces) }
    ensures pieces { IfOk result (λ own. own.value.ended.pieces.items ≡ part.pieces.items) }
    ensures listed { IfOk result (λ own. IsPlacedList lines.now own.value) }
{
    let known = floors_in(alloc, lines, &list.ended.pieces, &list.floors, &part.pieces)?;
    if part.pieces.len() <= LONG {
        return PlacedPieces::with_order(alloc, part, None, known);
    }
    match &list.order {
        None => PlacedPieces::with_order(alloc, part, None, known),
        Some(order) => {
            let own = parted_order(alloc, order, notes, part.pieces.len())?;
            PlacedPieces::with_order(alloc, part, Some(own), known)
        }
    }
}

// Puts the lists of the two sides of a partition behind those that wait, the right one last.
fn put_lists(
    right: Box<PlacedPieces>,
    left: Box<PlacedPieces>,
    lists: &mut Vec<Box<PlacedPieces>>,
) -> Result<(), AllocError>
    ensures { (lines : List Edge) (p : Piece) (ps : List Piece) →
        right.value.ended.pieces.items ≡ right_parts lines p ps →
        left.value.ended.pieces.items ≡ left_parts lines p ps →
        IsPlacedList lines right.value → IsPlacedList lines left.value →
        OnOk result (AreSideLists lines p ps lists.old.items lists.new.items) }
{
    lists.push(left)?;
    lists.push(right)?;
    Ok(())
}

// The same as `part_onto`, where many parts lie on a side. It stands alone, since most lists are short.
#[inline(never)]
fn part_long(
    alloc: Global,
    lines: &Lines,
    partition: &Piece,
    choice: Choice,
    list: &PlacedPieces,
    lists: &mut Vec<Box<PlacedPieces>>,
) -> Result<(), AllocError>
    requires partition { IsPiece lines.now partition.now }
    requires list { IsPlacedList lines.now list.now }
    requires few { vec_len list.now.ended.pieces < 2 ^ 31 }
    requires rights { choice.right
        ≡ length (right_parts lines.now partition.now list.now.ended.pieces.items) }
    requires lefts { choice.left
        ≡ length (left_parts lines.now partition.now list.now.ended.pieces.items) }
    ensures { OnOk result (AreSideLists lines.now partition.now list.now.ended.pieces.items
        lists.old.items lists.new.items) }
{
    lines.are_drawn();
    let Sides {
        right,
        left,
        right_notes,
        left_notes,
    } = part_noted(alloc, lines, partition, choice, &list.ended.as_slices())?;
    let right = placed_part(alloc, lines, list, right, &right_notes)?;
    let left = placed_part(alloc, lines, list, left, &left_notes)?;
    put_lists(right, left, lists)
}

// Puts the parts of a list on the two sides of a partition behind the lists that wait, with their orders. Short lists
// take the room of kept ones.
fn part_onto(
    alloc: Global,
    lines: &Lines,
    partition: &Piece,
    choice: Choice,
    list: &PlacedPieces,
    lists: &mut Vec<Box<PlacedPieces>>,
    kept: &mut Vec<Box<PlacedPieces>>,
) -> Result<(), AllocError>
    requires partition { IsPiece lines.now partition.now }
    requires list { IsPlacedList lines.now list.now }
    requires few { vec_len list.now.ended.pieces < 2 ^ 31 }
    requires rights { choice.right
        ≡ length (right_parts lines.now partition.now list.now.ended.pieces.items) }
    requires lefts { choice.left
        ≡ length (left_parts lines.now partition.now list.now.ended.pieces.items) }
    ensures { OnOk result (AreSideLists lines.now partition.now list.now.ended.pieces.items
        lists.old.items lists.new.items) }
{
    if choice.right.max(choice.left) as usize > LONG {
        return part_long(alloc, lines, partition, choice, list, lists);
    }
    lines.are_drawn();
    let mut right = empty_list(alloc, choice.right as usize, kept)?;
    let mut left = empty_list(alloc, choice.left as usize, kept)?;
    let slices = list.ended.as_slices();
    part_list(lines, partition, &slices, &mut right.ended, &mut left.ended);
    put_lists(right, left, lists)
}

// The best candidate of a list that has an order by places, in that order. The pieces are gathered in it for the choice
// alone, so that they take no memory while the list is divided.
#[inline(never)]
fn choice_by_place(
    alloc: Global,
    lines: &Lines,
    list: &EndedPieces,
    order: &[u32],
    used: &[bool],
    straight: &mut StraightLines,
    floors: &mut [Floor],
) -> Result<Option<Choice>, AllocError>
    requires list { AreEnded lines.now list.now }
    requires order { IsPermutation (range_with_len 0 (length list.now.pieces.now)) order.now }
    requires known { length used.now ≡ length lines.now }
    requires few { length list.now.pieces.now < 2 ^ 31 }
    requires floors { AreKnown lines.now list.now.pieces.now floors.old }
    ensures choice { IfOk result (IsChosen lines.now list.now.pieces.now used.now) }
    ensures floors { AreKnown lines.now list.now.pieces.now floors.new }
{
    let placed = gathered(alloc, list, order)?;
    let slices = placed.as_slices();
    let blocks = blocks_of(alloc, lines, &slices)?;
    Ok(choose_above(lines, list.pieces, &slices, &blocks, used, straight, floors))
}

// The best candidate of a list of one block. The choice tests such pieces one by one and never reads the block's box.
fn choice_of_few(
    lines: &Lines,
    list: &EndedPieces,
    used: &[bool],
    straight: &mut StraightLines,
) -> Option<Choice>
    requires list { AreEnded lines.now list.now }
    requires known { length used.now ≡ length lines.now }
    requires some { 0 < length list.now.pieces.now }
    requires few { length list.now.pieces.now ≤ 16 }
    ensures { IsChosen lines.now list.now.pieces.now used.now result }
{
    lines.are_drawn();
    choose_in_boxes(lines, list, &[EVERYWHERE], used, straight)
}

// The best candidate of a longer list: in its order by places if it has one, else in its own.
#[inline(never)]
fn choice_of_many(
    alloc: Global,
    lines: &Lines,
    list: &mut PlacedPieces,
    used: &[bool],
    straight: &mut StraightLines,
) -> Result<Option<Choice>, AllocError>
    requires listed { IsPlacedList lines.now list.old }
    requires known { length used.now ≡ length lines.now }
    requires few { vec_len list.old.ended.pieces < 2 ^ 31 }
    ensures choice { IfOk result (IsChosen lines.now list.old.ended.pieces.items used.now) }
    ensures ended { list.new.ended ≡ list.old.ended }
    ensures listed { OnOk result (IsPlacedList lines.now list.new) }
{
    order_list(alloc, lines, list)?;
    let slices = list.ended.as_slices();
    let floors = &mut list.floors;
    match &list.order {
        Some(order) => choice_by_place(alloc, lines, &slices, order, used, straight, floors),
        None => {
            let blocks = blocks_of(alloc, lines, &slices)?;
            let pieces = slices.pieces;
            Ok(choose_above(lines, pieces, &slices, &blocks, used, straight, floors))
        }
    }
}

// The best candidate of a list.
fn choice_of(
    alloc: Global,
    lines: &Lines,
    list: &mut PlacedPieces,
    used: &[bool],
    straight: &mut StraightLines,
) -> Result<Option<Choice>, AllocError>
    requires listed { IsPlacedList lines.now list.old }
    requires known { length used.now ≡ length lines.now }
    requires few { vec_len list.old.ended.pieces < 2 ^ 31 }
    ensures choice { IfOk result (IsChosen lines.now list.old.ended.pieces.items used.now) }
    ensures ended { list.new.ended ≡ list.old.ended }
    ensures listed { OnOk result (IsPlacedList lines.now list.new) }
{
    let count = list.ended.pieces.len();
    if 0 < count && count <= FEW {
        let slices = list.ended.as_slices();
        return Ok(choice_of_few(lines, &slices, used, straight));
    }
    choice_of_many(alloc, lines, list, used, straight)
}

/// What a list of pieces becomes: a leaf if no piece can be chosen, else the parts by the best piece, which are put
/// behind the lists that wait. Lists that are done with are kept for their room, and short parts take it.
pub(crate) fn step_in(
    alloc: Global,
    lines: &Lines,
    list: Box<PlacedPieces>,
    used: &[bool],
    straight: &mut StraightLines,
    lists: &mut Vec<Box<PlacedPieces>>,
    kept: &mut Vec<Box<PlacedPieces>>,
) -> Result<Step, AllocError>
    requires placed { IsPlacedList lines.now list.value }
    requires known { length used.now ≡ length lines.now }
    requires few { vec_len list.value.ended.pieces < 2 ^ 31 }
    ensures { IfOk result (IsListStep lines.now list.value.ended.pieces.items used.now
        lists.old.items lists.new.items) }
{
    let mut list = list;
    let choice = match choice_of(alloc, lines, &mut list, used, straight)? {
        None => return Ok(Step::Leaf(list)),
        Some(choice) => choice,
    };
    let partition = list.ended.pieces[choice.at as usize];
    part_onto(alloc, lines, &partition, choice, &list, lists, kept)?;
    keep(list, kept);
    Ok(Step::Parts(partition))
}
