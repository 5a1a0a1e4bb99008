//! The end of a block: its loop's next turn, or the lines behind it.
ghost use Rattle.std.specs.Prelude.{◌≡◌, ◌⊎◌, ◌<◌, ◌-◌, Err, IfErr, IfNone, IfOk, IfSome, Ok, length, take, vec_len};
ghost use Rattle.map_script.specs.Known.{scope_of};
ghost use Rattle.map_script.specs.declared.error.DrawError.TheVariants.{OutOfMemory};
ghost use Rattle.map_tables.specs.Projects.{current_map};
ghost use Rattle.map_blocks.specs.Blocks.{with_places};
ghost use Rattle.run_script.specs.Places.{IsToldBehind, IsWithinLines, counting_of, naming_in, position_of, turns_of};
ghost use Rattle.run_script.specs.Turns.{EndsTurn, next_count, with_naming};

use crate::reading::{Block, Count, Naming, Reading, enter, leave};
use map_script::{Answer, DrawError, Names, Numbers, Referent, ScriptLines, firsts_since};
use map_tables::Map;
use run_canvas::Canvas;
use std::alloc::Global;

// What is counted next, if there is a next turn.
fn next_count(count: Option<Count>) -> Option<Count>
    ensures { counting_of result ≡ next_count (counting_of count) }
{
    match count {
        Some(Count { name, number, last }) if number < last => Some(Count {
            name,
            number: number + 1,
            last,
        }),
        _ => None,
    }
}

// Gives the name of a line that drew a shape its numbers: what the shape answered last, and of which kind of item that
// is the number, and the first items that the map has gained.
fn give_name(
    alloc: Global,
    map: &Map,
    names: &mut Names,
    answered: Option<Answer>,
    naming: &Option<Naming>,
) -> Result<(), DrawError>
    ensures ok { IfOk result (λ _.
        with_naming (scope_of names.old) map.now.tables answered (naming_in naming.now)
        ≡ Ok (scope_of names.new)) }
    ensures fault { IfErr result (λ e. (e ≡ OutOfMemory)
        ⊎ (with_naming (scope_of names.old) map.now.tables answered (naming_in naming.now)
        ≡ Err e)) }
{
    let Some(naming) = naming else {
        return Ok(());
    };
    let Some(answer) = answered else {
        return Err(DrawError::NothingAdded);
    };
    let firsts = firsts_since(&naming.before, map);
    let referent = Referent::of_kind(answer.kind);
    let numbers = Numbers {
        answer: answer.number,
        firsts,
    };
    names.define(alloc, &naming.name, numbers, referent)
}

/// Ends the innermost turn: begins the next one, or goes behind the block, and gives the name of a line that drew a
/// shape its numbers. Returns the code of a refusal.
pub fn end_turn<C: Canvas>(
    alloc: Global,
    canvas: &C,
    names: &mut Names,
    lines: &ScriptLines,
    reading: &mut Reading,
) -> Option<u16>
    requires within { IsWithinLines (length lines.now) reading.old }
    requires some { 0 < vec_len reading.old.blocks }
    ensures ended { let all = with_places lines.now in
        EndsTurn (scope_of names.old) (current_map (C.Canvas.maps_in canvas.now))
        (turns_of all reading.old.blocks.items) result
        (position_of all (scope_of names.new) reading.new) }
    ensures within { IfNone result (IsWithinLines (length lines.now) reading.new) }
    ensures told { IfSome result (λ code. IsToldBehind code
        (take (length reading.old.told.items - 1) reading.old.told.items) reading.new) }
{
    let block = leave(reading);
    let answered = names.answered();
    names.release(block.before);
    match give_name(
        alloc,
        canvas.maps().current(),
        names,
        answered,
        &block.naming,
    ) {
        Ok(()) => {}
        Err(error) => return Some(error.code()),
    }
    let Some(count) = next_count(block.count) else {
        reading.place = block.next;
        reading.until = block.until;
        return None;
    };
    let next = Block {
        place: block.place,
        from: block.from,
        end: block.end,
        next: block.next,
        until: block.until,
        before: block.before,
        count: Some(count),
        naming: block.naming,
    };
    let placing = names.placing();
    match enter(alloc, names, reading, next, placing) {
        Ok(()) => None,
        Err(error) => Some(error.code()),
    }
}
