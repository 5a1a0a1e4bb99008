//! Whether a line touches a block, by integer tests of boxes and corners.
ghost use Rattle.std.specs.Prelude.{◌≡◌, ◌↔◌, IsTrue, All};
ghost use Rattle.lump_records.specs.Plane.{IsOnLeft, IsOnRight};
ghost use Rattle.tree_blocks.specs.Touch.{Touches, SpansMeet, BoxesMeet, CornersParted, IsBlockPlace, block_corners};

use lump_records::{Point, Ray, Vertex};

/// The side of a block, in map units.
pub const BLOCK_SIDE: i32 = 128;

/// Whether the span from `a` to `b` meets the one from `low` to `low + 128`.
pub fn spans_meet(a: i16, b: i16, low: i32) -> bool
    ensures { IsTrue result ↔ SpansMeet a b low }
{
    let low = low as i64;
    low <= a.max(b) as i64 && a.min(b) as i64 <= low + BLOCK_SIDE as i64
}

// Whether the closed boxes of the line and of the block meet.
fn boxes_meet(start: Vertex, end: Vertex, left: i32, bottom: i32) -> bool
    ensures { IsTrue result ↔ BoxesMeet start end left bottom }
{
    spans_meet(start.x, end.x, left) && spans_meet(start.y, end.y, bottom)
}

// The corners of the block.
fn corners(left: i32, bottom: i32) -> [Point; 4]
    requires left { IsBlockPlace left }
    requires bottom { IsBlockPlace bottom }
    ensures { result ≡ block_corners left bottom }
{
    let right = left + BLOCK_SIDE;
    let top = bottom + BLOCK_SIDE;
    [
        Point { x: left, y: bottom },
        Point {
            x: right,
            y: bottom,
        },
        Point { x: left, y: top },
        Point { x: right, y: top },
    ]
}

// Whether all points lie strictly on the right of the ray.
fn all_on_right(ray: Ray, points: &[Point]) -> bool
    ensures { IsTrue result ↔ All (IsOnRight ray) points.now }
{
    points.iter().all(|point| ray.has_on_right(*point))
}

// Whether all points lie strictly on the left of the ray.
fn all_on_left(ray: Ray, points: &[Point]) -> bool
    ensures { IsTrue result ↔ All (IsOnLeft ray) points.now }
{
    points.iter().all(|point| ray.has_on_left(*point))
}

// Whether the corners of the block don't all lie strictly on the same side of the line.
fn corners_parted(start: Vertex, end: Vertex, left: i32, bottom: i32) -> bool
    requires left { IsBlockPlace left }
    requires bottom { IsBlockPlace bottom }
    ensures { IsTrue result ↔ CornersParted start end left bottom }
{
    let ray = Ray::between(start, end);
    let corners = corners(left, bottom);
    !all_on_right(ray, &corners) && !all_on_left(ray, &corners)
}

/// Whether some point of the line, given by its ends, lies in the closed block of 128 by 128 map units, given by
/// its lower left corner.
pub fn touches(line: (Vertex, Vertex), block: (i32, i32)) -> bool
    ensures { IsTrue result ↔ Touches line.0 line.1 block.0 block.1 }
{
    let (start, end) = line;
    let (left, bottom) = block;
    boxes_meet(start, end, left, bottom) && corners_parted(start, end, left, bottom)
}
