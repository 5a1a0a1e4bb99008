//! The grid of blocks over a map's lines.
ghost use Rattle.std.specs.Prelude.{◌≡◌, ◌*◌, ◌<◌, ◌≤◌, ◌+ℤ◌, ◌≤ℤ◌, pos, length, FitsSigned};
ghost use Rattle.std.specs.Int.{w16, int_min, int_max};
ghost use Rattle.tree_blocks.specs.Blocks.{IsGrid, blocks_over, grid_of};

use crate::line_ends::LineEnds;
use lump_records::Vertex;

/// The grid of blocks over a map's lines: its lower left corner, and the numbers of columns and rows.
#[derive(Clone, Copy)]
pub struct Grid {
    pub left: i16,
    pub bottom: i16,
    pub columns: u32,
    pub rows: u32,
}

/// The lower edge of a row, or the left edge of a column, if the first one begins at `from`.
pub fn side_of_strip(from: i16, number: u32) -> i32
    requires { number < 512 }
    ensures { result ≡ from +ℤ pos (128 * number) }
{
    from as i32 + 128 * number as i32
}

// The lesser x and the lesser y of two places.
fn lesser(a: Vertex, b: Vertex) -> Vertex
    ensures x { result.x ≡ int_min a.x b.x }
    ensures y { result.y ≡ int_min a.y b.y }
{
    Vertex {
        x: a.x.min(b.x),
        y: a.y.min(b.y),
    }
}

// The greater x and the greater y of two places.
fn greater(a: Vertex, b: Vertex) -> Vertex
    ensures x { result.x ≡ int_max a.x b.x }
    ensures y { result.y ≡ int_max a.y b.y }
{
    Vertex {
        x: a.x.max(b.x),
        y: a.y.max(b.y),
    }
}

// How many blocks cover the span from `low` to `high`, both included.
fn blocks_over(low: i16, high: i16) -> u32
    requires { low ≤ℤ high }
    ensures count { result ≡ blocks_over low high }
    ensures limit { (0 < result) × (result ≤ 512) }
{
    (high as i32 - low as i32) as u32 / 128 + 1
}

/// The grid of blocks over the lines.
pub fn grid_over(lines: &[LineEnds]) -> Grid
    requires { 0 < length lines.now }
    ensures grid { result ≡ grid_of lines.now }
    ensures limits { IsGrid result }
    // for the words of the header
    ensures corner { FitsSigned w16 result.left × FitsSigned w16 result.bottom }
{
    let mut low = lines[0].start;
    let mut high = lines[0].start;
    for line in lines {
        low = lesser(lesser(low, line.start), line.end);
        high = greater(greater(high, line.start), line.end);
    }
    Grid {
        left: low.x,
        bottom: low.y,
        columns: blocks_over(low.x, high.x),
        rows: blocks_over(low.y, high.y),
    }
}
