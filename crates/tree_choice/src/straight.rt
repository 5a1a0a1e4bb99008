//! Hints which pieces lie on one straight line, and room for the notes of a choice. A hint is tested before it is used,
//! and each choice makes its notes anew, so wrong content only costs time.
ghost use Rattle.std.specs.Prelude.{◌≡◌, ◌<◌, ◌^◌, length, All, Some, slice_get, true};
ghost use Rattle.tree_pieces.specs.Plane.{IsEdge};
ghost use Rattle.tree_pieces.specs.Pieces.{IsPiece};

use crate::corner_columns::BoxColumns;
use crate::end_boxes::NotedEnds;
use indexmap::IndexSet;
use lump_records::Bounds;
use std::alloc::{AllocError, Global};
use tree_pieces::{Edge, Facing, Lines, Piece, lies_along, ray_of};

/// Hints that save counts: a number for the straight line of each line, and for each number the place of the last piece
/// met on that straight line. A hint is tested before it is used, so old or wrong hints only cost time. There is also
/// room for the notes of a choice over as many pieces as the lines have sides: the corners of the boxes of blocks,
/// boxes of groups, boxes of ends, and the numbers of open blocks.
#[derive(Drop)]
pub struct StraightLines {
    numbers: Vec<u16>,
    met: Vec<u32>,
    pub(crate) sides: BoxColumns,
    pub(crate) groups: Vec<Bounds>,
    pub(crate) ends: NotedEnds,
    pub(crate) noted: Vec<u32>,
}

// A straight line: its direction in the least whole numbers, eastward or else due north, and its distance from the
// origin times the length of that direction. Two lines lie on one straight line if all three are the same.
#[derive(Clone, Copy, PartialEq, Eq, Hash)]
struct StraightLine {
    dx: i64,
    dy: i64,
    offset: i64,
}

impl StraightLine {
    // The wrapping operations never wrap for lines of a map.
    fn of(edge: Edge) -> StraightLine
        requires { IsEdge edge }
    {
        let ray = ray_of(edge, Facing::Along);
        let measure = i64::from(common_measure(ray.dx.unsigned_abs(), ray.dy.unsigned_abs()));
        let east = i64::from(ray.dx).checked_div(measure).unwrap_or(0);
        let north = i64::from(ray.dy).checked_div(measure).unwrap_or(0);
        let turned = east < 0 || (east == 0 && north < 0);
        let dx = if turned { east.wrapping_neg() } else { east };
        let dy = if turned { north.wrapping_neg() } else { north };
        let across = dy.wrapping_mul(i64::from(edge.v1.x));
        let upward = dx.wrapping_mul(i64::from(edge.v1.y));
        StraightLine {
            dx,
            dy,
            offset: across.wrapping_sub(upward),
        }
    }
}

// The greatest common divisor; 0 if both are 0.
fn common_measure(mut a: u32, mut b: u32) -> u32 {
    while b != 0 {
        let rest = a % b;
        a = b;
        b = rest;
    }
    a
}

impl StraightLines {
    ghost use Rattle.tree_choice.specs.Choices.{HasEarlier};

    /// The straight lines of a map's lines, with no piece met.
    pub fn new(alloc: Global, lines: &Lines) -> Result<StraightLines, AllocError> {
        let edges = lines.as_slice();
        let mut known = IndexSet::new(alloc);
        let mut numbers = Vec::with_capacity(alloc, edges.len())?;
        let mut met = Vec::new(alloc);
        for edge in edges {
            let (number, is_new) = known.insert_full(StraightLine::of(*edge))?;
            if is_new {
                met.push(0)?;
            }
            numbers.push(u16::try_from(number).unwrap_or(u16::MAX))?;
        }
        let sides = BoxColumns::with_room(alloc, edges.len() / 8 + 1)?;
        let groups = Vec::with_capacity(alloc, edges.len() / 128 + 1)?;
        let ends = NotedEnds::with_room(alloc, edges.len())?;
        let noted = Vec::from_elem(alloc, 0, edges.len() / 8 + 1)?;
        Ok(StraightLines {
            numbers,
            met,
            sides,
            groups,
            ends,
            noted,
        })
    }

    // Whether an earlier piece of an unused line lies on the straight line of this one. Only the piece that was met
    // last is tried.
    pub(crate) fn has_earlier(
        &mut self,
        lines: &Lines,
        pieces: &[Piece],
        used: &[bool],
        at: usize,
        piece: &Piece,
    ) -> bool
        requires pieces { All (IsPiece lines.now) pieces.now }
        requires known { length used.now ≡ length lines.now }
        requires few { length pieces.now < 2 ^ 32 }
        requires piece { IsPiece lines.now piece.now }
        requires stands { slice_get pieces.now at ≡ Some piece.now }
        ensures earlier { result ≡ true → HasEarlier lines.now pieces.now used.now at piece.now }
        ensures sides { self.new.sides ≡ self.old.sides }
        ensures groups { self.new.groups ≡ self.old.groups }
        ensures boxes { self.new.ends ≡ self.old.ends }
        ensures noted { self.new.noted ≡ self.old.noted }
    {
        let line = piece.line as usize;
        if line >= self.numbers.len() {
            return false;
        }
        let number = self.numbers[line] as usize;
        if number >= self.met.len() {
            return false;
        }
        let earlier = self.met[number] as usize;
        if earlier < at {
            let first = &pieces[earlier];
            if !used[first.line as usize] && lies_along(lines, first, piece) {
                return true;
            }
        }
        self.met[number] = at as u32;
        false
    }
}
