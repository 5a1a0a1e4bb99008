//! The corners of the boxes of blocks, noted once for all candidates of a list.
ghost use Rattle.std.specs.Prelude.{◌≡◌, ◌≤◌, length, if◌then◌else◌, true};

use lump_records::{Bounds, Vertex};
use std::alloc::{AllocError, Global};

/// The corners of boxes, each of the four in a column of its own. A candidate chooses two of the columns, once for all
/// boxes.
#[derive(Drop)]
pub(crate) struct BoxColumns {
    pub left_top: Vec<Vertex>,
    pub left_bottom: Vec<Vertex>,
    pub right_top: Vec<Vertex>,
    pub right_bottom: Vec<Vertex>,
}

/// One of two columns.
pub(crate) fn column<'a>(first: bool, one: &'a [Vertex], other: &'a [Vertex]) -> &'a [Vertex]
    ensures { result.now ≡ (if first then one.now else other.now) }
{
    if first { one } else { other }
}

impl BoxColumns {
    ghost use Rattle.tree_choice.specs.Columns.{IsLongEnough, HoldsBoxes};

    /// Room for so many boxes.
    pub(crate) fn with_room(alloc: Global, count: usize) -> Result<BoxColumns, AllocError> {
        let nowhere = Vertex { x: 0, y: 0 };
        let left_top = Vec::from_elem(alloc, nowhere, count)?;
        let left_bottom = Vec::from_elem(alloc, nowhere, count)?;
        let right_top = Vec::from_elem(alloc, nowhere, count)?;
        let right_bottom = Vec::from_elem(alloc, nowhere, count)?;
        Ok(BoxColumns {
            left_top,
            left_bottom,
            right_top,
            right_bottom,
        })
    }

    /// Whether there is room for so many boxes.
    pub(crate) fn has_room(&self, count: usize) -> bool
        ensures { result ≡ true → IsLongEnough self.now count }
    {
        count <= self.left_top.len()
            && count <= self.left_bottom.len()
            && count <= self.right_top.len()
            && count <= self.right_bottom.len()
    }

    /// Notes the corners of each box of a list at the head of the columns.
    pub(crate) fn note(&mut self, boxes: &[Bounds])
        requires room { IsLongEnough self.old (length boxes.now) }
        ensures { HoldsBoxes boxes.now self.new }
    {
        for (n, bounds) in boxes.iter().enumerate() {
            self.left_top[n] = Vertex {
                x: bounds.left,
                y: bounds.top,
            };
            self.left_bottom[n] = Vertex {
                x: bounds.left,
                y: bounds.bottom,
            };
            self.right_top[n] = Vertex {
                x: bounds.right,
                y: bounds.top,
            };
            self.right_bottom[n] = Vertex {
                x: bounds.right,
                y: bounds.bottom,
            };
        }
    }
}
