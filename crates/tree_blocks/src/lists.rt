//! A block's list of lines, always in rising order, and adding a line to the lists of a column.
ghost use Rattle.std.specs.Prelude.{◌≡◌, ◌+◌, ◌*◌, ◌<◌, ◌≤◌, ◌++◌, ◌∷◌, [], length, OnOk, IsOkUnless, IfOk};
ghost use Rattle.tree_blocks.specs.Filing.{Files, InColumn};

use crate::error::BlockmapError;
use std::alloc::Global;
use std::marker::Model;

/// The numbers of the lines of a block, in rising order.
#[derive(Drop)]
pub struct BlockList {
    numbers: Vec<u16>,
}

impl Model for BlockList {
    ghost use Rattle.std.specs.Prelude.{ℕ, List};

    ghost Value = { List ℕ };

    ghost view = { λ a. a.numbers.items };
}

impl BlockList {
    /// An empty list. It allocates no memory.
    pub fn new(alloc: Global) -> BlockList
        ensures { result ≡ [] }
    {
        BlockList {
            numbers: Vec::new(alloc),
        }
    }

    /// Appends a line.
    pub fn push(&mut self, line: u16) -> Result<(), BlockmapError>
        ensures ok { OnOk result (self.new ≡ self.old ++ line ∷ []) }
        ensures memory { IsOkUnless result BlockmapError.OutOfMemory }
    {
        self.numbers.push(line)?;
        Ok(())
    }

    /// The numbers of the lines.
    pub fn numbers(&self) -> &[u16]
        ensures { result.now ≡ self.now }
    {
        &self.numbers
    }
}

// Appends the line to a block's list.
fn file(lists: &mut [BlockList], block: usize, line: u16) -> Result<(), BlockmapError>
    requires { block < length lists.old }
    ensures ok { OnOk result (Files (λ n. n ≡ block) line lists.old lists.new) }
    ensures memory { IsOkUnless result BlockmapError.OutOfMemory }
{
    lists[block].push(line)
}

/// Appends the line to the lists of a column's blocks from row `low` to row `high`.
pub fn file_rows(
    lists: &mut [BlockList],
    columns: u32,
    column: u32,
    low: u32,
    high: u32,
    line: u16,
) -> Result<(), BlockmapError>
    requires column { column < columns }
    requires columns { columns ≤ 512 }
    requires high { high < 512 }
    requires order { low ≤ high }
    requires all { (high + 1) * columns ≤ length lists.old }
    ensures ok { OnOk result
        (Files (InColumn columns column low (high + 1)) line lists.old lists.new) }
    ensures memory { IsOkUnless result BlockmapError.OutOfMemory }
{
    for row in low..high + 1 {
        file(lists, (row * columns + column) as usize, line)?;
    }
    Ok(())
}
