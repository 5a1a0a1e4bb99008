//! The lines that open blocks: `for NAME FROM TO` and `at X Y [ANGLE]`.
ghost use Rattle.std.specs.Prelude.{◌≡◌, ◌+◌, int_le, ◌<◌, ◌^◌, IfNone, IfOk, IfSome, IsOkUnless, Some, length};
ghost use Rattle.map_script.specs.Ats.{at_placing};
ghost use Rattle.map_script.specs.Known.{scope_of};
ghost use Rattle.map_script.specs.Loops.{loop_range};
ghost use Rattle.map_script.specs.Scopes.{mark_of};
ghost use Rattle.map_script.specs.Words.{text_words};
ghost use Rattle.map_script.specs.declared.error.DrawError.TheVariants.{OutOfMemory};
ghost use Rattle.map_tables.specs.Projects.{current_map};
ghost use Rattle.map_blocks.specs.Blocks.{lines_between, with_places};
ghost use Rattle.run_script.specs.Places.{AreBlocksTold, Enters, IsNextBlock, IsToldBehind, IsWithinLines, counting_of, position_of, turns_of};
ghost use Rattle.run_script.specs.Turns.{OpensBlock, after_at, after_loop, first_count};
ghost use Rattle.run_script.specs.declared.reading.Block.{Block};

use crate::reading::{Block, Count, Reading, enter};
use map_blocks::block_len;
use map_script::{
    DrawError, Names, Placing, Range, ScriptLines, at_placing, loop_name, loop_range,
};
use run_canvas::Canvas;
use std::alloc::Global;

// Enters the block that the next line opens, and which places lines so; its `end` stands at a place.
fn open_next(
    alloc: Global,
    names: &mut Names,
    reading: &mut Reading,
    end: usize,
    count: Option<Count>,
    placing: Placing,
) -> Result<(), DrawError>
    requires place { reading.old.place < 2 ^ 63 }
    requires end { end < 2 ^ 63 }
    requires told { AreBlocksTold reading.old }
    ensures ok { IfOk result (λ _. (b : Block)
        × IsNextBlock end (mark_of (scope_of names.old)) (counting_of count) reading.old b
        × Enters (scope_of names.old) placing reading.old.blocks.items b
        (scope_of names.new) reading.new) }
    ensures told { IfOk result (λ _. AreBlocksTold reading.new) }
    ensures memory { IsOkUnless result OutOfMemory }
{
    let block = Block {
        place: reading.place,
        from: reading.place + 1,
        end,
        next: end + 1,
        until: reading.until,
        before: names.mark(),
        count,
        naming: None,
    };
    enter(alloc, names, reading, block, placing)
}

// What a loop counts first; `words` is the NAME FROM TO of its line.
fn first_count(alloc: Global, words: &[u8], range: &Range) -> Result<Count, DrawError>
    ensures ok { IfOk result
        (λ count. counting_of (Some count) ≡ Some (first_count (text_words words.now) range.now)) }
    ensures memory { IsOkUnless result OutOfMemory }
{
    let name = loop_name(words).to_vec(alloc)?;
    Ok(Count {
        name,
        number: range.from,
        last: range.to,
    })
}

// Enters the first turn of a loop.
fn open_first(
    alloc: Global,
    names: &mut Names,
    reading: &mut Reading,
    words: &[u8],
    end: usize,
    range: &Range,
) -> Result<(), DrawError>
    requires place { reading.old.place < 2 ^ 63 }
    requires end { end < 2 ^ 63 }
    requires told { AreBlocksTold reading.old }
    ensures ok { IfOk result (λ _. (b : Block)
        × IsNextBlock end (mark_of (scope_of names.old))
        (Some (first_count (text_words words.now) range.now)) reading.old b
        × Enters (scope_of names.old) (scope_of names.old).placing reading.old.blocks.items b
        (scope_of names.new) reading.new) }
    ensures told { IfOk result (λ _. AreBlocksTold reading.new) }
    ensures memory { IsOkUnless result OutOfMemory }
{
    let count = first_count(alloc, words, range)?;
    let placing = names.placing();
    open_next(alloc, names, reading, end, Some(count), placing)
}

// Whether a loop has a turn.
fn has_turn(range: &Range) -> bool
    ensures { result ≡ int_le range.now.from range.now.to }
{
    range.from <= range.to
}

/// Meets the line of a loop, the next one: begins its first turn, or goes behind its block. `words` is the line's NAME
/// FROM TO. Returns the code of a refusal.
pub fn open_loop<C: Canvas>(
    alloc: Global,
    canvas: &C,
    names: &mut Names,
    lines: &ScriptLines,
    reading: &mut Reading,
    words: &[u8],
) -> Option<u16>
    requires within { IsWithinLines (length lines.now) reading.old }
    requires some { reading.old.place < reading.old.until }
    ensures opened { let all = with_places lines.now in
        let words = text_words words.now in
        OpensBlock (after_loop (scope_of names.old) reading.old.place
        (lines_between all (reading.old.place + 1) reading.old.until)
        (turns_of all reading.old.blocks.items) words
        (loop_range (scope_of names.old) (current_map (C.Canvas.maps_in canvas.now)) words))
        (scope_of names.old) result (position_of all (scope_of names.new) reading.new) }
    ensures within { IfNone result (IsWithinLines (length lines.now) reading.new) }
    ensures told { IfSome result (λ code.
        IsToldBehind code reading.old.told.items reading.new) }
{
    let range = match loop_range(alloc, names, canvas.maps().current(), words) {
        Ok(range) => range,
        Err(error) => return Some(error.code()),
    };
    let from = reading.place + 1;
    let end = from + block_len(lines, from, reading.until);
    if !has_turn(&range) {
        reading.place = end + 1;
        return None;
    }
    match open_first(alloc, names, reading, words, end, &range) {
        Ok(()) => None,
        Err(error) => Some(error.code()),
    }
}

/// Meets the line of an `at`, the next one: enters its block. `words` is the line's X Y [ANGLE]. Returns the code of a
/// refusal.
pub fn open_at<C: Canvas>(
    alloc: Global,
    canvas: &C,
    names: &mut Names,
    lines: &ScriptLines,
    reading: &mut Reading,
    words: &[u8],
) -> Option<u16>
    requires within { IsWithinLines (length lines.now) reading.old }
    requires some { reading.old.place < reading.old.until }
    ensures opened { let all = with_places lines.now in
        OpensBlock (after_at (scope_of names.old) reading.old.place
        (lines_between all (reading.old.place + 1) reading.old.until)
        (turns_of all reading.old.blocks.items)
        (at_placing (scope_of names.old) (current_map (C.Canvas.maps_in canvas.now))
        (text_words words.now)))
        (scope_of names.old) result (position_of all (scope_of names.new) reading.new) }
    ensures within { IfNone result (IsWithinLines (length lines.now) reading.new) }
    ensures told { IfSome result (λ code.
        IsToldBehind code reading.old.told.items reading.new) }
{
    let placing = match at_placing(alloc, names, canvas.maps().current(), words) {
        Ok(placing) => placing,
        Err(error) => return Some(error.code()),
    };
    let from = reading.place + 1;
    let end = from + block_len(lines, from, reading.until);
    match open_next(alloc, names, reading, end, None, placing) {
        Ok(()) => None,
        Err(error) => Some(error.code()),
    }
}
