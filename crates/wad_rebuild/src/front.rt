//! The vertices of a level up to the last that a line uses.
ghost use Rattle.std.specs.Prelude.{◌≡◌, take};
ghost use Rattle.wad_rebuild.specs.Remade.{used_count, with_number};

use lump_records::{Line, Vertex};

// The count of vertices, or one more than the number `n` if that is greater.
fn with_number(count: usize, n: u16) -> usize
    ensures { result ≡ with_number count n }
{
    let n = usize::from(n);
    if n < count { count } else { n + 1 }
}

// How many vertices the lines need.
fn used_count(lines: &[Line]) -> usize
    ensures { result ≡ used_count lines.now }
{
    let mut count = 0;
    for line in lines {
        count = with_number(with_number(count, line.v1), line.v2);
    }
    count
}

/// The vertices up to the last one that a line uses.
pub fn front_of<'a>(vertices: &'a [Vertex], lines: &[Line]) -> &'a [Vertex]
    ensures { result.now ≡ take (used_count lines.now) vertices.now }
{
    let count = used_count(lines).min(vertices.len());
    &vertices[..count]
}
