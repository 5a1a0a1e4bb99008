//! How far a script has been read: its next line, and the blocks that are open.
ghost use Rattle.std.specs.Prelude.{◌≡◌, ◌⊎◌, ◌<◌, ◌-◌, [], ◌∷◌, ◌++◌, IfOk, IfSome, IsOkUnless, MatchOption, length, take, vec_len};
ghost use Rattle.map_script.specs.Known.{scope_of};
ghost use Rattle.map_script.specs.declared.error.DrawError.TheVariants.{OutOfMemory};
ghost use Rattle.map_blocks.specs.Blocks.{lines_between, with_places};
ghost use Rattle.run_script.specs.Drawn.{IsAtPlace};
ghost use Rattle.run_script.specs.Opened.{turn_number};
ghost use Rattle.run_script.specs.Places.{AreBlocksTold, Enters, IsWithinLines, counting_of, told_block, turns_of};
ghost use Rattle.run_script.specs.Turns.{counted_names};

use map_blocks::OpenBlock;
use map_script::{DrawError, ItemCounts, Mark, Names, Placing, ScriptLines};
use std::alloc::Global;

/// What a loop counts.
#[derive(Drop)]
pub struct Count {
    /// The loop's name.
    pub name: Vec<u8>,
    /// The number of the turn.
    pub number: i64,
    /// That of the last turn.
    pub last: i64,
}

/// The name of a line that draws a shape.
#[derive(Drop)]
pub struct Naming {
    pub name: Vec<u8>,
    /// How many items the map had of each kind before.
    pub before: ItemCounts,
}

/// A block that is open; that of a loop is in a turn.
#[derive(Drop)]
pub struct Block {
    /// Where the line stands that opened it.
    pub place: usize,
    /// Where its first line stands.
    pub from: usize,
    /// Where its `end` stands.
    pub end: usize,
    /// Where the first line stands that comes behind it.
    pub next: usize,
    /// Where the block around it ends.
    pub until: usize,
    /// What is as before when it ends.
    pub before: Mark,
    /// What it counts, if it is a loop's.
    pub count: Option<Count>,
    /// What names what it draws, if it is a shape's.
    pub naming: Option<Naming>,
}

/// How far a script has been read.
#[derive(Drop)]
pub struct Reading {
    /// Where the next line stands.
    pub place: usize,
    /// Where the innermost block, or else the script, ends.
    pub until: usize,
    /// The blocks that are open, the outermost first.
    pub blocks: Vec<Block>,
    /// The same as they are told where the script stops: then nothing is allocated for it.
    pub told: Vec<OpenBlock>,
}

/// The place of the next line, or of the line whose block ends next, if the script isn't over.
pub fn place_at_hand(lines: &ScriptLines, reading: &Reading) -> Option<usize>
    requires { IsWithinLines (length lines.now) reading.now }
    ensures place { let all = with_places lines.now in
        let left = lines_between all reading.now.place reading.now.until in
        let turns = turns_of all reading.now.blocks.items in
        MatchOption result ((left ≡ []) × (turns ≡ [])) (λ place. IsAtPlace left turns place) }
    ensures within { IfSome result (λ place. place < length lines.now) }
    ensures some { IfSome result (λ _.
        (reading.now.place < reading.now.until) ⊎ (0 < vec_len reading.now.blocks)) }
{
    if reading.place < reading.until {
        return Some(reading.place);
    }
    match reading.blocks.as_slice() {
        [.., block] => Some(block.place),
        [] => None,
    }
}

// Holds the name of a loop for its turn.
fn hold_count(alloc: Global, names: &mut Names, count: &Option<Count>) -> Result<(), DrawError>
    ensures ok { IfOk result (λ _.
        scope_of names.new ≡ counted_names (scope_of names.old) (counting_of count.now)) }
    ensures memory { IsOkUnless result OutOfMemory }
{
    match count {
        Some(count) => names.hold_number(alloc, &count.name, count.number),
        None => Ok(()),
    }
}

// The number of a turn, if a loop counts it.
fn turn_number(count: &Option<Count>) -> Option<i64>
    ensures { result ≡ turn_number (counting_of count.now) }
{
    match count {
        Some(count) => Some(count.number),
        None => None,
    }
}

// A block as it is told.
fn told_block(block: &Block) -> OpenBlock
    ensures { result ≡ told_block block.now }
{
    OpenBlock {
        place: block.place,
        number: turn_number(&block.count),
    }
}

// Puts a block behind those that are open.
fn put_block(reading: &mut Reading, block: Block) -> Result<(), DrawError>
    requires told { AreBlocksTold reading.old }
    ensures place { IfOk result (λ _. reading.new.place ≡ reading.old.place) }
    ensures until { IfOk result (λ _. reading.new.until ≡ reading.old.until) }
    ensures blocks { IfOk result (λ _.
        reading.new.blocks.items ≡ reading.old.blocks.items ++ block ∷ []) }
    ensures told { IfOk result (λ _. AreBlocksTold reading.new) }
    ensures memory { IsOkUnless result OutOfMemory }
{
    reading.told.push(told_block(&block))?;
    reading.blocks.push(block)?;
    Ok(())
}

/// Enters a block that places lines so, at the turn that it is in.
///
/// # Errors
///
/// Only `OutOfMemory`.
pub fn enter(
    alloc: Global,
    names: &mut Names,
    reading: &mut Reading,
    block: Block,
    placing: Placing,
) -> Result<(), DrawError>
    requires told { AreBlocksTold reading.old }
    ensures ok { IfOk result (λ _.
        Enters (scope_of names.old) placing reading.old.blocks.items block
        (scope_of names.new) reading.new) }
    ensures told { IfOk result (λ _. AreBlocksTold reading.new) }
    ensures memory { IsOkUnless result OutOfMemory }
{
    names.enter(placing);
    hold_count(alloc, names, &block.count)?;
    reading.place = block.from;
    reading.until = block.end;
    put_block(reading, block)?;
    Ok(())
}

/// Leaves the innermost block.
pub fn leave(reading: &mut Reading) -> Block
    requires some { 0 < vec_len reading.old.blocks }
    requires told { AreBlocksTold reading.old }
    ensures blocks { reading.old.blocks.items ≡ reading.new.blocks.items ++ result ∷ [] }
    ensures told { AreBlocksTold reading.new }
    ensures around { reading.new.told.items
        ≡ take (length reading.old.told.items - 1) reading.old.told.items }
{
    let _ = reading.told.pop();
    let Some(block) = reading.blocks.pop() else {
        unreachable!();
    };
    block
}
