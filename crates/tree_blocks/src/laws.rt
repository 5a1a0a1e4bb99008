//! A law about the lists of blocks. The function's body is empty: its contract is the law.
ghost use Rattle.std.specs.Prelude.{◌≡◌, ℕ, List};
ghost use Rattle.tree_blocks.specs.declared.grid.Grid.{Grid};
ghost use Rattle.tree_blocks.specs.declared.line_ends.LineEnds.{LineEnds};
ghost use Rattle.tree_blocks.specs.Blocks.{AreBlockLists, IsBlockList};

/// A block has at most one list of lines, and so all blocks together have at most one list of lists. So the map
/// alone determines the words of its blockmap, and whether it is too large.
pub fn blocks_have_one_list()
    ensures one { (lines : List LineEnds) (grid : Grid) (n : ℕ) (a b : List ℕ)
        → IsBlockList lines grid n a → IsBlockList lines grid n b → a ≡ b }
    ensures all { (lines : List LineEnds) (grid : Grid) (a b : List (List ℕ))
        → AreBlockLists lines grid a → AreBlockLists lines grid b → a ≡ b }
{}
