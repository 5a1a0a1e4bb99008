//! How many pieces of a list a partition splits, and how many parts it leaves on each side.
ghost use Rattle.std.specs.Prelude.{◌≡◌, ℕ, ◌≤◌, ◌<◌, ◌^◌, length, All, MatchOption, take};
ghost use Rattle.tree_pieces.specs.Pieces.{IsPiece};
ghost use Rattle.tree_pieces.specs.Tree.{cost};

use tree_pieces::{Lines, Parts, Piece, divide_in};

/// How many pieces a partition splits, and how many parts it leaves on its right and on its left.
#[derive(Clone, Copy)]
pub(crate) struct Counts {
    pub splits: u32,
    pub right: u32,
    pub left: u32,
}

impl Counts {
    ghost use Rattle.std.specs.Prelude.{◌≡◌, ◌+◌, ◌*◌, ◌-◌, ◌<◌, ◌≤◌, ◌^◌, ◌&&◌, is_some, if◌then◌else◌};
    ghost use Rattle.tree_choice.specs.Counts.{cost_by};

    // Those of an empty list.
    pub(crate) const NONE: Counts = Counts {
        splits: 0,
        right: 0,
        left: 0,
    };

    // Those of a piece that goes to the right whole.
    pub(crate) const ON_RIGHT: Counts = Counts {
        splits: 0,
        right: 1,
        left: 0,
    };

    // Those of a piece that goes to the left whole.
    pub(crate) const ON_LEFT: Counts = Counts {
        splits: 0,
        right: 0,
        left: 1,
    };

    // Those of a piece of which a part is kept on each side.
    pub(crate) const SPLIT: Counts = Counts {
        splits: 1,
        right: 1,
        left: 1,
    };

    // Those of one piece, by the parts that are kept of it.
    pub(crate) fn of_parts(parts: &Parts) -> Counts
        ensures right { result.right ≡ (if is_some parts.now.right then 1 else 0) }
        ensures left { result.left ≡ (if is_some parts.now.left then 1 else 0) }
        ensures splits { result.splits ≡
            (if is_some parts.now.right && is_some parts.now.left then 1 else 0) }
    {
        let right = parts.right.is_some() as u32;
        let left = parts.left.is_some() as u32;
        Counts {
            splits: right * left,
            right,
            left,
        }
    }

    // The counts of two lists taken together.
    pub(crate) fn plus(self, more: Counts) -> Counts
        requires right { self.right + more.right < 2 ^ 32 }
        requires left { self.left + more.left < 2 ^ 32 }
        requires splits { self.splits + more.splits < 2 ^ 32 }
        ensures right { result.right ≡ self.right + more.right }
        ensures left { result.left ≡ self.left + more.left }
        ensures splits { result.splits ≡ self.splits + more.splits }
    {
        Counts {
            splits: self.splits + more.splits,
            right: self.right + more.right,
            left: self.left + more.left,
        }
    }

    // Eight for each split, and one for each part that one side has more than the other.
    pub(crate) fn cost(self) -> u64
        ensures { result ≡ cost_by self }
    {
        8 * self.splits as u64 + self.right.abs_diff(self.left) as u64
    }

    // A lower bound of the cost, where `rest` pieces aren't counted yet.
    pub(crate) fn least_cost(self, rest: u32) -> u64
        ensures { result ≡
            8 * self.splits + ((self.right - self.left - rest) + (self.left - self.right - rest)) }
    {
        8 * self.splits as u64 + self.right.abs_diff(self.left).saturating_sub(rest) as u64
    }
}

ghost use Rattle.tree_choice.specs.Counts.{AreCountsBelow};

// The counts of a list, or None as soon as the cost is known to reach the limit.
pub(crate) fn count_below(
    lines: &Lines,
    partition: &Piece,
    pieces: &[Piece],
    limit: u64,
) -> Option<Counts>
    requires partition { IsPiece lines.now partition.now }
    requires pieces { All (IsPiece lines.now) pieces.now }
    requires few { length pieces.now < 2 ^ 32 }
    ensures { AreCountsBelow lines.now partition.now pieces.now limit result }
{
    let mut counts = Counts::NONE;
    for (n, piece) in pieces.iter().enumerate() {
        let parts = divide_in(lines, partition, piece);
        counts = counts.plus(Counts::of_parts(&parts));
        let rest = pieces.len() - n - 1;
        if limit <= counts.least_cost(rest as u32) {
            return None;
        }
    }
    Some(counts)
}
