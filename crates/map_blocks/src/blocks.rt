//! The blocks of a script: where they end, and whether they are in order.
ghost use Rattle.std.specs.Prelude.{◌≡◌, ◌&&◌, ◌==◌, if◌then◌else◌, ◌+◌, ◌<◌, ◌≤◌, ◌^◌, length, IfSome};
ghost use Rattle.map_script.specs.Loops.{closes};
ghost use Rattle.map_script.specs.Views.{seen};
ghost use Rattle.map_blocks.specs.Blocks.{lines_between, order_fault, block_len, depth_after, is_misplaced, with_places};

use map_script::{ScriptLines, closes, define_words, opens};

// How many blocks are open behind a line, if so many were before it.
fn depth_after(depth: usize, line: &[u8]) -> usize
    requires { depth + 1 < 2 ^ 64 }
    ensures value { result ≡ depth_after depth line.now }
    ensures most { result ≤ depth + 1 }
{
    if opens(line) {
        depth + 1
    } else if closes(line) && 0 < depth {
        depth - 1
    } else {
        depth
    }
}

// Whether a line ends the block that is open, none being open within it.
fn ends_block(depth: usize, line: &[u8]) -> bool
    ensures { result ≡ closes line.now && (depth == 0) }
{
    closes(line) && depth == 0
}

/// How many of the lines from one on stand in the block that they begin: those before its `end`.
pub fn block_len(lines: &ScriptLines, from: usize, until: usize) -> usize
    requires begins { from ≤ until }
    requires ends { until ≤ length lines.now }
    ensures len { result
        ≡ block_len 0 (lines_between (with_places lines.now) from until) }
    ensures within { from + result ≤ until }
{
    let mut depth = 0;
    for i in from..until {
        let text = lines.line(i).text;
        if ends_block(depth, text) {
            return i - from;
        }
        depth = depth_after(depth, text);
    }
    until - from
}

// Whether a line closes a block where none is open, opens one within 64 others, or defines a shape within one.
fn is_misplaced(depth: usize, line: &[u8]) -> bool
    ensures { result ≡ is_misplaced depth line.now }
{
    (closes(line) && depth == 0)
        || (opens(line) && depth == 64)
        || (define_words(line).is_some() && depth != 0)
}

// Where the outermost open block begins, seen from a place: there if none is open before it.
fn outermost(depth: usize, outer: usize, place: usize) -> usize
    ensures { result ≡ (if depth == 0 then place else outer) }
{
    if depth == 0 { place } else { outer }
}

/// The place of the line at which the blocks of a script are out of order, if they are.
pub fn order_fault(lines: &ScriptLines) -> Option<usize>
    ensures place { result ≡ order_fault lines.now }
    ensures within { IfSome result (λ p. p < length lines.now) }
{
    let mut outer = 0;
    let mut depth = 0;
    for place in 0..lines.len() {
        let text = lines.line(place).text;
        if is_misplaced(depth, text) {
            return Some(place);
        }
        outer = outermost(depth, outer, place);
        depth = depth_after(depth, text);
    }
    if depth == 0 { None } else { Some(outer) }
}
