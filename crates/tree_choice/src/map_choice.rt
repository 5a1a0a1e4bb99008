//! The choice over a map, piece by piece as the definition says it. The faster choices give the same.
ghost use Rattle.std.specs.Prelude.{◌≡◌, ◌+◌, ◌≤◌, ◌<◌, ◌^◌, length, All, IsTrue, ◌↔◌, MatchOption, Some, slice_get, false};
ghost use Rattle.tree_pieces.specs.Edges.{edges_of};
ghost use Rattle.tree_pieces.specs.Pieces.{IsPiece};
ghost use Rattle.tree_pieces.specs.Tree.{Separates};
ghost use Rattle.tree_choice.specs.Counts.{AreCountsBelow};
ghost use Rattle.tree_choice.specs.Choices.{IsChosen};
ghost use Rattle.tree_choice.specs.SoFar.{SoFar, no_bound};

use crate::choice::{Choice, limit_of, take_in};
use crate::counts::Counts;
use map_tables::Map;
use tree_pieces::{Piece, divide};

/// Whether a partition separates a list: it leaves a part of some piece on its left.
pub fn separates(map: &Map, partition: &Piece, pieces: &[Piece]) -> bool
    requires partition { IsPiece (edges_of map.now.tables) partition.now }
    requires pieces { All (IsPiece (edges_of map.now.tables)) pieces.now }
    ensures { IsTrue result ↔ Separates (edges_of map.now.tables) partition.now pieces.now }
{
    for piece in pieces {
        if divide(map, partition, piece).left.is_some() {
            return true;
        }
    }
    false
}

// The counts of a list, or None as soon as the cost is known to reach the limit.
fn count_in_map(map: &Map, partition: &Piece, pieces: &[Piece], limit: u64) -> Option<Counts>
    requires partition { IsPiece (edges_of map.now.tables) partition.now }
    requires pieces { All (IsPiece (edges_of map.now.tables)) pieces.now }
    requires few { length pieces.now < 2 ^ 32 }
    ensures { AreCountsBelow (edges_of map.now.tables) partition.now pieces.now limit result }
{
    let mut counts = Counts::NONE;
    for (n, piece) in pieces.iter().enumerate() {
        let parts = divide(map, partition, piece);
        counts = counts.plus(Counts::of_parts(&parts));
        let rest = pieces.len() - n - 1;
        if limit <= counts.least_cost(rest as u32) {
            return None;
        }
    }
    Some(counts)
}

// The best candidate among the pieces up to this one, by the best one before it.
fn consider(
    map: &Map,
    pieces: &[Piece],
    used: &[bool],
    at: usize,
    piece: &Piece,
    best: Option<Choice>,
) -> Option<Choice>
    requires pieces { All (IsPiece (edges_of map.now.tables)) pieces.now }
    requires known { length used.now ≡ length map.now.tables.lines }
    requires few { length pieces.now < 2 ^ 32 }
    requires piece { IsPiece (edges_of map.now.tables) piece.now }
    requires stands { slice_get pieces.now at ≡ Some piece.now }
    requires so_far { SoFar (edges_of map.now.tables) pieces.now used.now no_bound at best }
    ensures { SoFar (edges_of map.now.tables) pieces.now used.now no_bound (at + 1) result }
{
    if used[piece.line as usize] {
        return best;
    }
    let limit = limit_of(u64::MAX, best);
    let counted = count_in_map(map, piece, pieces, limit);
    take_in(at, best, limit, counted)
}

/// The separating piece of an unused line that costs least; of several that cost as little, the first. It is None
/// exactly if no piece of an unused line separates the list. `used` says of each line of the map whether a partition
/// above has used it. It allocates no memory and can't be refused. `choose_in_boxes` gives the same choice sooner, by
/// boxes that its caller has made.
pub fn choose(map: &Map, pieces: &[Piece], used: &[bool]) -> Option<Choice>
    requires pieces { All (IsPiece (edges_of map.now.tables)) pieces.now }
    requires known { length used.now ≡ length map.now.tables.lines }
    requires few { length pieces.now < 2 ^ 32 }
    ensures { IsChosen (edges_of map.now.tables) pieces.now used.now result }
{
    let mut best = None;
    for (at, piece) in pieces.iter().enumerate() {
        best = consider(map, pieces, used, at, piece, best);
    }
    best
}
