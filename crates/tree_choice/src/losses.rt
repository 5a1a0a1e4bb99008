//! What a list loses as it becomes a part of it, in blocks with boxes round what is gone. A partition that leaves a box
//! on one side makes the same of a piece as of its rest, so most blocks needn't be counted.
ghost use Rattle.std.specs.Prelude.{◌≡◌, ◌≤◌, true, length, All, IfOk};
ghost use Rattle.std.specs.List.Sorted.{IsPermutation};
ghost use Rattle.lump_records.specs.Drawing.{IsDrawable};
ghost use Rattle.tree_choice.specs.Blocks.{IsInnerBox, IsWithinBox, HoldsPlace};
ghost use Rattle.tree_choice.specs.Candidates.{IsSighted};
ghost use Rattle.tree_choice.specs.Counts.{AreAtMost};
ghost use Rattle.tree_choice.specs.Losses.{IsLoss, HoldsGone, IsLossBlock, IsChange, wholes, rests, losses_in};

use crate::block_boxes::{BLOCK, NOWHERE, widened, with_place};
use crate::box_place::side_of_box;
use crate::candidate::Candidate;
use crate::counts::Counts;
use crate::ends::EndedList;
use crate::strips::sort_losses;
use crate::walk::count_block;
use lump_records::{Bounds, Vertex};
use std::alloc::{AllocError, Global};
use tree_pieces::{Frac, Lines, Piece, Place};

/// A piece of a list that a part of the list doesn't have as it is, and what the part has of it, if anything.
#[derive(Clone, Copy)]
pub(crate) struct Loss {
    pub piece: Piece,
    pub rest: Option<Piece>,
}

/// At most sixteen losses, with a box round what is gone: how many pieces have no rest, the pieces, and the rests.
#[derive(Drop)]
pub(crate) struct LossBlock {
    pub losses: Vec<Loss>,
    pub bounds: Bounds,
    pub gone: u32,
    pub lost: EndedList,
    pub gained: EndedList,
}

/// What the counts of a list lose and gain as it becomes a part of it.
#[derive(Clone, Copy)]
pub(crate) struct Change {
    pub lost: Counts,
    pub gained: Counts,
}

/// Whether two fractions have the same two numbers.
pub(crate) fn is_same_fraction(a: Frac, b: Frac) -> bool
    ensures same { result ≡ true → a ≡ b }
    ensures other { a ≡ b → result ≡ true }
{
    a.n == b.n && a.d == b.d
}

// The box round a box and two places.
fn with_places(bounds: Bounds, first: Vertex, second: Vertex) -> Bounds
    requires bounds { IsInnerBox bounds }
    requires first { IsDrawable first }
    requires second { IsDrawable second }
    ensures inner { IsInnerBox result }
    ensures wider { IsWithinBox bounds result }
    ensures first { HoldsPlace result first }
    ensures second { HoldsPlace result second }
{
    with_place(with_place(bounds, first), second)
}

// The box round a box and what is gone of a piece.
fn with_loss(lines: &Lines, bounds: Bounds, loss: &Loss) -> Bounds
    requires bounds { IsInnerBox bounds }
    requires loss { IsLoss lines.now loss.now }
    ensures inner { IsInnerBox result }
    ensures wider { IsWithinBox bounds result }
    ensures holds { HoldsGone (HoldsPlace result) lines.now loss.now.piece loss.now.rest }
{
    lines.are_drawn();
    let ends = lines.ends_of(&loss.piece);
    match loss.rest {
        None => with_places(bounds, ends.first, ends.last),
        Some(rest) => {
            let left = lines.ends_of(&rest);
            if is_same_fraction(loss.piece.from, rest.from) {
                with_places(bounds, ends.last, left.last)
            } else {
                with_places(bounds, ends.first, left.first)
            }
        }
    }
}

// A block of at most sixteen losses.
fn block_of(alloc: Global, lines: &Lines, losses: &[Loss]) -> Result<LossBlock, AllocError>
    requires each { All (IsLoss lines.now) losses.now }
    requires few { length losses.now ≤ 16 }
    ensures block { IfOk result (IsLossBlock lines.now) }
    ensures losses { IfOk result (λ block. block.losses.items ≡ losses.now) }
{
    let mut list = Vec::with_capacity(alloc, losses.len())?;
    let mut lost = Vec::with_capacity(alloc, losses.len())?;
    let mut gained = Vec::with_capacity(alloc, losses.len())?;
    let mut gone = 0;
    let mut bounds = NOWHERE;
    for loss in losses {
        bounds = with_loss(lines, bounds, loss);
        list.push(*loss)?;
        lost.push(loss.piece)?;
        match loss.rest {
            None => gone += 1,
            Some(rest) => gained.push(rest)?,
        }
    }
    Ok(LossBlock {
        losses: list,
        bounds: widened(bounds),
        gone,
        lost: EndedList::of(alloc, lines, lost)?,
        gained: EndedList::of(alloc, lines, gained)?,
    })
}

/// Losses in blocks, those of places close together.
pub(crate) fn loss_blocks(
    alloc: Global,
    lines: &Lines,
    losses: Vec<Loss>,
) -> Result<Vec<LossBlock>, AllocError>
    requires { All (IsLoss lines.now) losses.items }
    ensures blocks { IfOk result (λ blocks. All (IsLossBlock lines.now) blocks.items) }
    ensures losses { IfOk result (λ blocks. IsPermutation losses.items (losses_in blocks.items)) }
{
    let mut losses = losses;
    sort_losses(alloc, lines, &mut losses)?;
    let mut blocks = Vec::new(alloc);
    let mut from = 0;
    while from < losses.len() {
        let end = (from + BLOCK).min(losses.len());
        blocks.push(block_of(alloc, lines, &losses[from..end])?)?;
        from = end;
    }
    Ok(blocks)
}

impl Change {
    ghost use Rattle.std.specs.Prelude.{◌≡◌};

    // No change.
    const NONE: Change = Change {
        lost: Counts::NONE,
        gained: Counts::NONE,
    };

    // Only so many pieces are lost, on the right.
    fn on_right(count: u32) -> Change
        ensures { result ≡ record {
          lost = record { splits = 0; right = count; left = 0 };
          gained = record { splits = 0; right = 0; left = 0 };
        } }
    {
        Change {
            lost: Counts {
                splits: 0,
                right: count,
                left: 0,
            },
            gained: Counts::NONE,
        }
    }

    // Only so many pieces are lost, on the left.
    fn on_left(count: u32) -> Change
        ensures { result ≡ record {
          lost = record { splits = 0; right = 0; left = count };
          gained = record { splits = 0; right = 0; left = 0 };
        } }
    {
        Change {
            lost: Counts {
                splits: 0,
                right: 0,
                left: count,
            },
            gained: Counts::NONE,
        }
    }
}

// What the counts of a candidate lose and gain by a block: if its box lies on one side, only the pieces without a rest
// are lost there.
#[inline(always)]
fn change_in(by: &Candidate, block: &LossBlock) -> Change
    requires candidate { IsSighted by.now }
    requires block { IsLossBlock by.now.lines.now block.now }
    ensures change { IsChange by.now.lines.now by.now.piece.now (wholes block.now.losses.items)
        (rests block.now.losses.items) result }
    ensures lost { AreAtMost result.lost (length block.now.losses.items) }
    ensures gained { AreAtMost result.gained (length block.now.losses.items) }
{
    match side_of_box(by.margins, block.bounds) {
        Place::Right => Change::on_right(block.gone),
        Place::Left => Change::on_left(block.gone),
        Place::Across => Change {
            lost: count_block(by, &block.lost.as_slices()),
            gained: count_block(by, &block.gained.as_slices()),
        },
    }
}

/// What the counts of a candidate lose and gain by all blocks.
#[inline(always)]
pub(crate) fn change_by(by: &Candidate, blocks: &[LossBlock]) -> Change
    requires candidate { IsSighted by.now }
    requires blocks { All (IsLossBlock by.now.lines.now) blocks.now }
    requires few { length (losses_in blocks.now) ≤ 256 }
    ensures { IsChange by.now.lines.now by.now.piece.now (wholes (losses_in blocks.now))
        (rests (losses_in blocks.now)) result }
{
    let mut change = Change::NONE;
    for block in blocks {
        let more = change_in(by, block);
        change = Change {
            lost: change.lost.plus(more.lost),
            gained: change.gained.plus(more.gained),
        };
    }
    change
}
