//! Makes the list of each block: adds every line to the blocks that it touches. A hint saves time if it is right,
//! and changes nothing else.
ghost use Rattle.std.specs.Prelude.{◌≡◌, ◌≤◌, [], length, replicate, IfOk, OnOk, IsOkUnless};
ghost use Rattle.tree_blocks.specs.Blocks.{IsGrid, TouchesBlock, AreBlockLists, block_count};
ghost use Rattle.tree_blocks.specs.Filing.{Files};
ghost use Rattle.tree_blocks.specs.Rows.{NoColumnBelow, NoColumnFrom};

use crate::columns::{Rows, touched_rows};
use crate::error::BlockmapError;
use crate::grid::{Grid, side_of_strip};
use crate::line_ends::LineEnds;
use crate::lists::{BlockList, file_rows};
use std::alloc::Global;

// A first column for the span from `a` to `b`: no column before it meets the span.
fn first_column(a: i16, b: i16, left: i16) -> u32
    ensures { NoColumnBelow a b left result }
{
    let low = a.min(b) as i32 - left as i32;
    if low < 256 {
        return 0;
    }
    low as u32 / 128 - 1
}

// An end of the columns for the span from `a` to `b`: no column from it on meets the span.
fn end_column(a: i16, b: i16, left: i16, columns: u32) -> u32
    ensures among { result ≤ columns }
    ensures none { NoColumnFrom a b left result columns }
{
    let high = a.max(b) as i32 - left as i32;
    if high < 0 {
        return 0;
    }
    (high as u32 / 128 + 1).min(columns)
}

// The hint for the first column: the row of the line's left end. Rows are counted from `bottom`.
fn first_hint(line: LineEnds, bottom: i16) -> u32 {
    let leftmost = if line.start.x <= line.end.x {
        line.start
    } else {
        line.end
    };
    (i32::from(leftmost.y) - i32::from(bottom)).unsigned_abs() / 128
}

// The hint for the next column, given the rows touched in this one: both columns share a point of the line, which
// is in the greatest row if the line rises to the right, else in the least.
fn next_hint(line: LineEnds, rows: Rows) -> u32 {
    if (line.start.x <= line.end.x) == (line.start.y <= line.end.y) {
        rows.high
    } else {
        rows.low
    }
}

// Appends the line to the lists of the blocks that it touches, in each column that its box may reach.
fn file_line(
    lists: &mut [BlockList],
    grid: Grid,
    line: LineEnds,
    number: u16,
) -> Result<(), BlockmapError>
    requires grid { IsGrid grid }
    requires all { length lists.old ≡ block_count grid }
    ensures ok { OnOk result (Files (TouchesBlock line grid) number lists.old lists.new) }
    ensures memory { IsOkUnless result BlockmapError.OutOfMemory }
{
    let mut near = first_hint(line, grid.bottom);
    let first = first_column(line.start.x, line.end.x, grid.left);
    let end = end_column(line.start.x, line.end.x, grid.left, grid.columns);
    for column in first..end {
        let left = side_of_strip(grid.left, column);
        match touched_rows(line, left, grid.bottom, grid.rows, near) {
            Some(rows) => {
                file_rows(lists, grid.columns, column, rows.low, rows.high, number)?;
                near = next_hint(line, rows);
            }
            None => {}
        }
    }
    Ok(())
}

// An empty list for each block.
fn empty_lists(alloc: Global, count: usize) -> Result<Vec<BlockList>, BlockmapError>
    ensures lists { IfOk result (λ v. v.items ≡ replicate count []) }
    ensures memory { IsOkUnless result BlockmapError.OutOfMemory }
{
    let mut lists = Vec::with_capacity(alloc, count)?;
    for block in 0..count {
        lists.push(BlockList::new(alloc))?;
    }
    Ok(lists)
}

/// The list of each block.
pub fn block_lists(
    alloc: Global,
    grid: Grid,
    lines: &[LineEnds],
) -> Result<Vec<BlockList>, BlockmapError>
    requires grid { IsGrid grid }
    requires few { length lines.now ≤ 32767 }
    ensures lists { IfOk result (λ v. AreBlockLists lines.now grid v.items) }
    ensures memory { IsOkUnless result BlockmapError.OutOfMemory }
{
    let mut lists = empty_lists(alloc, (grid.columns * grid.rows) as usize)?;
    for number in 0..lines.len() {
        file_line(&mut lists, grid, lines[number], number as u16)?;
    }
    Ok(lists)
}
