//! The rows of a column of blocks that a line touches.
ghost use Rattle.std.specs.Prelude.{◌↔◌, ◌≤◌, ◌<◌, ◌+◌, IsTrue, MatchOption};
ghost use Rattle.tree_blocks.specs.Rows.{TouchesRow, NoRowBelow, NoRowFrom, IsRowRange};

use crate::grid::side_of_strip;
use crate::line_ends::LineEnds;
use crate::touch::{spans_meet, touches};

/// The rows of a column from `low` to `high`, both included.
#[derive(Clone, Copy)]
pub struct Rows {
    pub low: u32,
    pub high: u32,
}

// Whether the line touches the column's block in the row.
fn touches_row(line: LineEnds, left: i32, bottom: i16, row: u32) -> bool
    requires { row < 512 }
    ensures { IsTrue result ↔ TouchesRow line.start line.end left bottom row }
{
    touches((line.start, line.end), (left, side_of_strip(bottom, row)))
}

// The lowest row of a column that the line touches.
fn first_row(line: LineEnds, left: i32, bottom: i16, rows: u32) -> Option<u32>
    requires { rows ≤ 512 }
    ensures { MatchOption result (NoRowBelow line.start line.end left bottom rows)
        (λ row. (row < rows) × TouchesRow line.start line.end left bottom row) }
{
    for row in 0..rows {
        if touches_row(line, left, bottom, row) {
            return Some(row);
        }
    }
    None
}

// Some row of a column that the line touches: the row `near` if the line touches it, else the lowest.
fn some_row(line: LineEnds, left: i32, bottom: i16, rows: u32, near: u32) -> Option<u32>
    requires { rows ≤ 512 }
    ensures { MatchOption result (NoRowBelow line.start line.end left bottom rows)
        (λ row. (row < rows) × TouchesRow line.start line.end left bottom row) }
{
    if near < rows {
        if touches_row(line, left, bottom, near) {
            return Some(near);
        }
    }
    first_row(line, left, bottom, rows)
}

// The least row that the line touches, given that it touches the row `high`.
fn least_row(line: LineEnds, left: i32, bottom: i16, high: u32) -> u32
    requires high { high < 512 }
    requires touched { TouchesRow line.start line.end left bottom high }
    ensures among { result ≤ high }
    ensures touched { TouchesRow line.start line.end left bottom result }
    ensures least { NoRowBelow line.start line.end left bottom result }
{
    let mut low = high;
    while low > 0 {
        if !touches_row(line, left, bottom, low - 1) {
            return low;
        }
        low -= 1;
    }
    low
}

// The greatest row that the line touches, given that it touches the row `low`.
fn greatest_row(line: LineEnds, left: i32, bottom: i16, low: u32, rows: u32) -> u32
    requires rows { rows ≤ 512 }
    requires low { low < rows }
    requires touched { TouchesRow line.start line.end left bottom low }
    ensures among { (low ≤ result) × (result < rows) }
    ensures touched { TouchesRow line.start line.end left bottom result }
    ensures greatest { NoRowFrom line.start line.end left bottom (result + 1) rows }
{
    let mut high = low;
    for row in low + 1..rows {
        if !touches_row(line, left, bottom, row) {
            break;
        }
        high = row;
    }
    high
}

/// The rows of a column that the line touches. The hint `near` saves the search for a first one if the line touches
/// that row.
pub fn touched_rows(line: LineEnds, left: i32, bottom: i16, rows: u32, near: u32) -> Option<Rows>
    requires { rows ≤ 512 }
    ensures { MatchOption result (NoRowBelow line.start line.end left bottom rows)
        (λ r. IsRowRange line.start line.end left bottom rows r.low r.high) }
{
    if !spans_meet(line.start.x, line.end.x, left) {
        return None;
    }
    match some_row(line, left, bottom, rows, near) {
        Some(row) => {
            let low = least_row(line, left, bottom, row);
            let high = greatest_row(line, left, bottom, row, rows);
            Some(Rows { low, high })
        }
        None => None,
    }
}
