//! What is known of the cost of a list's pieces without a count.
ghost use Rattle.std.specs.Prelude.{◌≡◌, ℕ, ◌≤◌, true, List, length, slice_get, Some};
ghost use Rattle.tree_pieces.specs.declared.edge.Edge.{Edge};
ghost use Rattle.tree_pieces.specs.declared.piece.Piece.{Piece};
ghost use Rattle.tree_choice.specs.Counts.{AreCountsBelow};
ghost use Rattle.tree_choice.specs.Floors.{IsFloor, AreFloors};

use crate::counts::Counts;
use crate::losses::Change;

/// What is known of a piece as the partition of a list.
#[derive(Clone, Copy, Debug, PartialEq, Eq)]
pub enum Floor {
    /// It costs so much or more. 0 says nothing.
    AtLeast(u64),
    /// It leaves no part on its left, so it separates nothing.
    NoneLeft,
}

impl Floor {
    ghost use Rattle.std.specs.Prelude.{◌≡◌, ℕ, ◌≤◌, true, List, length};
    ghost use Rattle.tree_pieces.specs.declared.edge.Edge.{Edge};
    ghost use Rattle.tree_pieces.specs.declared.piece.Piece.{Piece};
    ghost use Rattle.tree_pieces.specs.Tree.{Separates, cost};
    ghost use Rattle.tree_choice.specs.Counts.{AreCountsBelow};
    ghost use Rattle.tree_choice.specs.Floors.{IsFloor};
    ghost use Rattle.tree_choice.specs.Losses.{IsChange};

    // Whether a piece of which this is known costs the limit or more, if it separates the list at all.
    pub(crate) fn reaches(self, limit: u64) -> bool
        ensures { (lines : List Edge) (ps : List Piece) (p : Piece) → IsFloor lines ps p self →
            result ≡ true → Separates lines p ps → limit ≤ cost lines p ps }
    {
        match self {
            Floor::AtLeast(cost) => limit <= cost,
            Floor::NoneLeft => true,
        }
    }

    // What is known of a piece that was counted up to a limit.
    pub(crate) fn of(counted: Option<Counts>, limit: u64) -> Floor
        ensures { (lines : List Edge) (ps : List Piece) (p : Piece) →
            AreCountsBelow lines p ps limit counted → IsFloor lines ps p result }
    {
        match counted {
            None => Floor::AtLeast(limit),
            Some(counts) => {
                if counts.left == 0 {
                    Floor::NoneLeft
                } else {
                    Floor::AtLeast(counts.cost())
                }
            }
        }
    }

    // Whether nothing is known.
    pub(crate) fn says_nothing(self) -> bool {
        match self {
            Floor::AtLeast(cost) => cost == 0,
            Floor::NoneLeft => false,
        }
    }

    // What is known of a piece in a part of the list, by what its counts lose and gain.
    pub(crate) fn lowered(self, change: Change) -> Floor
        ensures { (lines : List Edge) (ps part : List Piece) (p : Piece) →
            IsChange lines p ps part change → IsFloor lines ps p self →
            IsFloor lines part p result }
    {
        let gone = change.lost;
        let new = change.gained;
        match self {
            Floor::AtLeast(cost) => {
                let fewer = 8 * gone.splits.saturating_sub(new.splits) as u64;
                let right = gone.right as u64 + new.left as u64;
                let left = gone.left as u64 + new.right as u64;
                Floor::AtLeast(cost.saturating_sub(fewer + right.abs_diff(left)))
            }
            Floor::NoneLeft => {
                if new.left == 0 {
                    Floor::NoneLeft
                } else {
                    Floor::AtLeast(0)
                }
            }
        }
    }
}

// What is known of the piece at a place.
pub(crate) fn floor_at(floors: &[Floor], at: usize) -> Floor
    ensures { (lines : List Edge) (ps qs : List Piece) (q : Piece) →
        AreFloors lines ps qs floors.now → slice_get qs at ≡ Some q → IsFloor lines ps q result }
{
    if at < floors.len() {
        floors[at]
    } else {
        Floor::AtLeast(0)
    }
}

// How far a candidate is counted: to the end where something is remembered, else up to the limit.
pub(crate) fn far_limit(floors: &[Floor], limit: u64) -> u64
    ensures { limit ≤ result }
{
    if floors.len() == 0 { limit } else { u64::MAX }
}

// Notes what is known of the piece at a place, once it was counted up to a limit.
pub(crate) fn note_floor(floors: &mut [Floor], at: usize, counted: Option<Counts>, limit: u64)
    ensures { (lines : List Edge) (ps qs : List Piece) (q : Piece) →
        AreFloors lines ps qs floors.old → slice_get qs at ≡ Some q →
        AreCountsBelow lines q ps limit counted → AreFloors lines ps qs floors.new }
{
    if at < floors.len() {
        floors[at] = Floor::of(counted, limit);
    }
}
