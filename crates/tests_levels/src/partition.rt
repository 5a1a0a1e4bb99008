//! The choice of a partition: worked examples, and the same choice by brute force.

use crate::drawing::drawn;
use crate::expect::{holds, same};
use crate::tangle::{Sequence, draw_tangle};
use lump_records::Bounds;
use map_tables::Map;
use std::alloc::Global;
use std::process::Abort;
use std::test::Fail;
use tests_rows::{expect_rows, said};
use tree_choice::{
    Choice, EndedList, StraightLines, blocks_of, by_place, choose, choose_in_boxes, choose_ordered,
    separates,
};
use tree_pieces::{divide, edges_of, pieces_of};

// The choice among a map's whole sides, if these lines are used. All three calls and brute force make the same choice.
fn chosen(
    rt: &impl Abort,
    alloc: Global,
    map: &Map,
    used: &[bool],
) -> Result<Option<Choice>, Fail> {
    let pieces = pieces_of(alloc, map)?;
    let edges = edges_of(alloc, map)?;
    holds(rt, used.len() == edges.len());
    holds(rt, pieces.len() <= 60);
    let choice = choose(map, &pieces, used);
    let list = EndedList::of(alloc, &edges, pieces)?;
    let slices = list.as_slices();
    holds(rt, slices.pieces.len() <= 60);
    let blocks = blocks_of(alloc, &edges, &slices)?;
    let mut straight = StraightLines::new(alloc, &edges)?;
    let by_boxes = choose_in_boxes(&edges, &slices, &blocks, used, &mut straight);
    same(rt, &choice, &by_boxes);
    same(rt, &choice, &chosen_by_place(rt, alloc, map, used)?);
    same(rt, &choice, &walked(alloc, map, used)?);
    Ok(choice)
}

// The same choice by `choose_ordered`, over the pieces ordered by their places.
fn chosen_by_place(
    rt: &impl Abort,
    alloc: Global,
    map: &Map,
    used: &[bool],
) -> Result<Option<Choice>, Fail> {
    let pieces = pieces_of(alloc, map)?;
    let edges = edges_of(alloc, map)?;
    holds(rt, used.len() == edges.len());
    holds(rt, pieces.len() <= 60);
    let placed = by_place(alloc, &edges, &pieces)?;
    let ordered = EndedList::of(alloc, &edges, placed)?;
    let slices = ordered.as_slices();
    holds(rt, slices.pieces.len() <= 60);
    let blocks = blocks_of(alloc, &edges, &slices)?;
    let mut straight = StraightLines::new(alloc, &edges)?;
    let choice = choose_ordered(&edges, &pieces, &slices, &blocks, used, &mut straight);
    Ok(choice)
}

// The choice by brute force: it counts all pieces for each candidate.
fn walked(alloc: Global, map: &Map, used: &[bool]) -> Result<Option<Choice>, Fail> {
    let pieces = pieces_of(alloc, map)?;
    let mut best: Option<Choice> = None;
    let mut least = u32::MAX;
    for (at, partition) in pieces.iter().enumerate() {
        let (mut splits, mut right, mut left) = (0_u32, 0_u32, 0_u32);
        for piece in &pieces {
            let parts = divide(map, partition, piece);
            right = right.wrapping_add(u32::from(parts.right.is_some()));
            left = left.wrapping_add(u32::from(parts.left.is_some()));
            let both = parts.right.is_some() && parts.left.is_some();
            splits = splits.wrapping_add(u32::from(both));
        }
        let cost = splits.wrapping_mul(8).wrapping_add(right.abs_diff(left));
        let is_used = used.get(partition.line as usize).copied().unwrap_or(true);
        if !is_used && left > 0 && cost < least {
            least = cost;
            let at = u32::try_from(at).unwrap_or(u32::MAX);
            best = Some(Choice {
                at,
                splits,
                right,
                left,
            });
        }
    }
    Ok(best)
}

// Which of a map's lines are used, a digit for each, and the lines that draw it; and the choice as `at`, `splits`,
// `right` and `left`. In the L the third and the fourth line both cost nine: eight for a split, and one. In the sliver
// no line has anything on its left.
const CHOICES: &str = "000000 L|Some([2, 1, 4, 3])\n\
    001000 L|Some([3, 1, 4, 3])\n\
    001100 L|None\n\
    00 AGAINST|Some([0, 0, 1, 1])\n\
    10 AGAINST|Some([1, 0, 1, 1])\n\
    00 SLIVER|None";

fn numbers(choice: Option<Choice>) -> Option<[u32; 4]> {
    let choice = choice?;
    Some([choice.at, choice.splits, choice.right, choice.left])
}

// Which of the lines are used.
fn used_in(alloc: Global, digits: &str) -> Result<Vec<bool>, Fail> {
    let mut used = Vec::new(alloc);
    for digit in digits.chars() {
        used.push(digit == '1')?;
    }
    Ok(used)
}

// The choice of a row.
fn choice_of(rt: &impl Abort, alloc: Global, row: &str) -> Result<String, Fail> {
    let (digits, lines) = row.split_once(' ').unwrap_or((row, ""));
    let maps = drawn(alloc, lines)?;
    let used = used_in(alloc, digits)?;
    let choice = chosen(rt, alloc, maps.current(), &used)?;
    said(alloc, &numbers(choice))
}

#[test]
fn takes_the_first_of_the_cheapest(rt: HostRuntime) -> Result<(), Fail> {
    expect_rows(rt.alloc(), CHOICES, |alloc, row| choice_of(&rt, alloc, row))
}

// The box of each block of the pieces of the L, which are six: one step larger on each side than that of all ends.
const BLOCKS: &str = "L|[[257, -1, -1, 257]]";

// The boxes of the blocks of a map's pieces, each as top, bottom, left and right.
fn blocks_told(rt: &impl Abort, alloc: Global, map: &Map) -> Result<Vec<[i16; 4]>, Fail> {
    let edges = edges_of(alloc, map)?;
    let list = EndedList::of(alloc, &edges, pieces_of(alloc, map)?)?;
    let slices = list.as_slices();
    holds(rt, slices.pieces.len() <= 60);
    let mut boxes = Vec::new(alloc);
    for found in &blocks_of(alloc, &edges, &slices)? {
        let &Bounds {
            top,
            bottom,
            left,
            right,
        } = found;
        boxes.push([top, bottom, left, right])?;
    }
    Ok(boxes)
}

#[test]
fn boxes_are_one_step_wider(rt: HostRuntime) -> Result<(), Fail> {
    expect_rows(rt.alloc(), BLOCKS, |alloc, lines| {
        said(
            alloc,
            &blocks_told(&rt, alloc, drawn(alloc, lines)?.current())?,
        )
    })
}

// How many of a map's pieces separate the others.
fn separating(alloc: Global, map: &Map) -> Result<u32, Fail> {
    let mut count = 0_u32;
    let pieces = pieces_of(alloc, map)?;
    for partition in &pieces {
        if separates(map, partition, &pieces) {
            count = count.saturating_add(1);
        }
    }
    Ok(count)
}

#[test]
fn a_sliver_separates_nothing(rt: HostRuntime) -> Result<(), Fail> {
    let maps = drawn(rt.alloc(), "SLIVER")?;
    let count = separating(rt.alloc(), maps.current())?;
    assert_eq!(rt; count, 0);
    Ok(())
}

// Which of the lines are used: about one in four.
fn used_of(alloc: Global, numbers: &mut Sequence, lines: u32) -> Result<Vec<bool>, Fail> {
    let mut used = Vec::new(alloc);
    for _ in 0..lines {
        used.push(numbers.below(4) == 0)?;
    }
    Ok(used)
}

// Whether there is a choice among the pieces of the next map.
fn next_has_choice(
    rt: &impl Abort,
    alloc: Global,
    numbers: &mut Sequence,
    lines: u32,
) -> Result<bool, Fail> {
    let maps = draw_tangle(alloc, numbers, lines, 12)?;
    let used = used_of(alloc, numbers, lines)?;
    Ok(chosen(rt, alloc, maps.current(), &used)?.is_some())
}

// For lists of 5 to 60 pieces, each call chooses what brute force does.
#[test]
fn chooses_as_a_plain_walk(rt: HostRuntime) -> Result<(), Fail> {
    let mut numbers = Sequence { state: 1 };
    let mut found = 0u32;
    for list in 0..200 {
        if next_has_choice(&rt, rt.alloc(), &mut numbers, 5 + list % 26)? {
            found = found.wrapping_add(1);
        }
    }
    holds(&rt, found > 150);
    Ok(())
}
