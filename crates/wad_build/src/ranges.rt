//! The audit of lines, sides and segs: each reference in range.
ghost use Rattle.std.specs.Prelude.{◌≡◌, ◌∷◌, [], ◌&&◌, ◌==◌, not, nat_lt, nat_le};
ghost use Rattle.std.specs.Option.{option_map};
ghost use Rattle.wad_levels.specs.Views.{view};
ghost use Rattle.lump_records.specs.Sides.{no_side};
ghost use Rattle.wad_build.specs.Audit.{drawn_faults, first_some, first_wrong, is_in_range, left_side, line_of_seg, seg_faults, line_sides, line_vertices, seg_side, seg_vertices};
ghost use Rattle.wad_build.specs.declared.fault.Fault.TheVariants.{LineVertex, LineSide, SideSector, SegVertex, SegLine, SegSide};

use crate::fault::Fault;
use lump_records::{Line, NO_SIDE, Seg};
use wad_levels::Level;

/// Whether the number is below `count` and at most 32,767.
pub fn is_among(n: u16, count: usize) -> bool
    ensures { result ≡ (nat_lt n count && nat_le n 32767) }
{
    (n as usize) < count && n <= 32767
}

// Whether the line's ends are in range.
fn has_vertices(level: &Level, line: &Line) -> bool
    ensures { result ≡ line_vertices (view level.now) line.now }
{
    is_among(line.v1, level.vertices.len()) && is_among(line.v2, level.vertices.len())
}

// Whether the line's left side is in range, or missing on a line that isn't two-sided.
fn has_left(level: &Level, line: &Line) -> bool
    ensures { result ≡ left_side (view level.now) line.now }
{
    if line.left == NO_SIDE {
        !line.is_two_sided()
    } else {
        is_among(line.left, level.sides.len())
    }
}

// Whether the line's sides are in range.
fn has_sides(level: &Level, line: &Line) -> bool
    ensures { result ≡ line_sides (view level.now) line.now }
{
    is_among(line.right, level.sides.len()) && has_left(level, line)
}

// Whether the seg's ends are in range.
fn has_ends(level: &Level, seg: &Seg) -> bool
    ensures { result ≡ seg_vertices (view level.now) seg.now }
{
    is_among(seg.first, level.vertices.len()) && is_among(seg.second, level.vertices.len())
}

// Whether the seg's line has a left side.
fn line_has_left(level: &Level, seg: &Seg) -> bool
    ensures { result ≡ not ((line_of_seg (view level.now) seg.now).left == no_side) }
{
    match level.lines.get(seg.line as usize) {
        Some(line) => line.left != NO_SIDE,
        None => false,
    }
}

// Whether the seg's side is one of its line's.
fn has_side(level: &Level, seg: &Seg) -> bool
    ensures { result ≡ seg_side (view level.now) seg.now }
{
    seg.side == 0 || seg.side == 1 && line_has_left(level, seg)
}

// The number of the first item with this fault.
fn line_vertex_place(level: &Level) -> Option<usize>
    ensures { result ≡ first_wrong (line_vertices (view level.now)) level.now.lines.items }
{
    level
        .lines
        .iter()
        .position(|line| !has_vertices(level, line))
}

// The first line with an end out of range.
fn line_vertex(level: &Level) -> Option<Fault>
    ensures { result
        ≡ option_map LineVertex (first_wrong
        (line_vertices (view level.now)) level.now.lines.items) }
{
    match line_vertex_place(level) {
        Some(n) => Some(Fault::LineVertex(n)),
        None => None,
    }
}

// The number of the first item with this fault.
fn line_side_place(level: &Level) -> Option<usize>
    ensures { result ≡ first_wrong (line_sides (view level.now)) level.now.lines.items }
{
    level.lines.iter().position(|line| !has_sides(level, line))
}

// The first line with a side out of range.
fn line_side(level: &Level) -> Option<Fault>
    ensures { result
        ≡ option_map LineSide (first_wrong (line_sides (view level.now)) level.now.lines.items) }
{
    match line_side_place(level) {
        Some(n) => Some(Fault::LineSide(n)),
        None => None,
    }
}

// The number of the first item with this fault.
fn side_sector_place(level: &Level) -> Option<usize>
    ensures { result
        ≡ first_wrong (λ s. is_in_range (view level.now).sectors s.sector) level.now.sides.items }
{
    level
        .sides
        .iter()
        .position(|side| !is_among(side.sector, level.sectors.len()))
}

// The first side with its sector out of range.
fn side_sector(level: &Level) -> Option<Fault>
    ensures { result
        ≡ option_map SideSector
        (first_wrong (λ s. is_in_range (view level.now).sectors s.sector) level.now.sides.items) }
{
    match side_sector_place(level) {
        Some(n) => Some(Fault::SideSector(n)),
        None => None,
    }
}

// The number of the first item with this fault.
fn seg_vertex_place(level: &Level) -> Option<usize>
    ensures { result ≡ first_wrong (seg_vertices (view level.now)) level.now.segs.items }
{
    level.segs.iter().position(|seg| !has_ends(level, seg))
}

// The first seg with an end out of range.
fn seg_vertex(level: &Level) -> Option<Fault>
    ensures { result
        ≡ option_map SegVertex (first_wrong (seg_vertices (view level.now)) level.now.segs.items) }
{
    match seg_vertex_place(level) {
        Some(n) => Some(Fault::SegVertex(n)),
        None => None,
    }
}

// The number of the first item with this fault.
fn seg_line_place(level: &Level) -> Option<usize>
    ensures { result
        ≡ first_wrong (λ s. is_in_range (view level.now).lines s.line) level.now.segs.items }
{
    level
        .segs
        .iter()
        .position(|seg| !is_among(seg.line, level.lines.len()))
}

// The first seg with its line out of range.
fn seg_line(level: &Level) -> Option<Fault>
    ensures { result
        ≡ option_map SegLine
        (first_wrong (λ s. is_in_range (view level.now).lines s.line) level.now.segs.items) }
{
    match seg_line_place(level) {
        Some(n) => Some(Fault::SegLine(n)),
        None => None,
    }
}

// The number of the first item with this fault.
fn seg_side_place(level: &Level) -> Option<usize>
    ensures { result ≡ first_wrong (seg_side (view level.now)) level.now.segs.items }
{
    level.segs.iter().position(|seg| !has_side(level, seg))
}

// The first seg on a side that its line lacks.
fn seg_side(level: &Level) -> Option<Fault>
    ensures { result
        ≡ option_map SegSide (first_wrong (seg_side (view level.now)) level.now.segs.items) }
{
    match seg_side_place(level) {
        Some(n) => Some(Fault::SegSide(n)),
        None => None,
    }
}

/// The first of two faults.
pub fn first_of(first: Option<Fault>, second: Option<Fault>) -> Option<Fault>
    ensures { result ≡ first_some (first ∷ second ∷ []) }
{
    match first {
        Some(fault) => Some(fault),
        None => second,
    }
}

/// The first fault of what was drawn: of a line's ends, of a line's sides, of a side's sector.
pub fn drawn_fault(level: &Level) -> Option<Fault>
    ensures { result ≡ first_some (drawn_faults (view level.now)) }
{
    first_of(
        line_vertex(level),
        first_of(line_side(level), side_sector(level)),
    )
}

/// The first fault of the segs: of one's ends, of its line, of its side.
pub fn seg_fault(level: &Level) -> Option<Fault>
    ensures { result ≡ first_some (seg_faults (view level.now)) }
{
    first_of(
        seg_vertex(level),
        first_of(seg_line(level), seg_side(level)),
    )
}
