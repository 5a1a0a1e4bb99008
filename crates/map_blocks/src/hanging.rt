//! Which refused lines of a script hang on others that were left out: once these are mended, they might not be refused.
ghost use Rattle.std.specs.Prelude.{◌≡◌, ◌<◌, ◌≤◌, length};
ghost use Rattle.std.specs.List.{list_all};
ghost use Rattle.map_blocks.specs.Hanging.{are_settled, command_word, drawn_ground, ground_of, hangs, is_code_of, is_of_own_words, is_of_plain_words, known_until, plain_ground, puts_vertex, text_at_place};
ghost use Rattle.map_blocks.specs.Deeds.{one_could_lift};
ghost use Rattle.map_blocks.specs.Naming.{is_settled};

use crate::deeds::{Ground, one_could_lift, one_frees};
use crate::mentioning::{are_sums_settled, is_settled, mentions_given, mentions_unknown};
use crate::ranges::has_outside;
use crate::stop::{OpenBlock, Stop};
use map_commands::{head_in, head_puts_vertex};
use map_script::{ScriptLines, closes, command_of, first_word, opens};

// How many bytes a line has at most that is looked at: a longer one hangs on any other.
const LONGEST: usize = 1_000;

/// The codes for which the words of a line alone are the reason, whatever its names stand for.
pub const OF_WORDS: &[u16] = &[1, 15, 20, 21];

/// Those for which they are, once its names have their values.
pub const OF_PLAIN_WORDS: &[u16] = &[2, 25, 46];

/// Those for which what is drawn, but things, may be the reason too.
pub const OF_DRAWN: &[u16] = &[3, 4, 5, 6, 8, 9, 10, 11, 13, 26, 27, 28, 29, 45];

/// Those for which the names of the maps, and which is the current one, are the reason.
pub const OF_MAPS: &[u16] = &[16, 17, 18, 19];

// Whether a code is one of these.
#[tactic(auto, unfolding(crate::specs::Hanging::is_code_of))]
fn is_code_of(codes: &[u16], code: u16) -> bool
    ensures { result ≡ is_code_of codes.now code }
{
    codes.iter().any(|n| *n == code)
}

// Whether the words of the line at a place hang on no map, or only on places that may stand in them.
fn is_settled_at(places: bool, lines: &ScriptLines, place: usize) -> bool
    ensures { result ≡ is_settled places lines.now (text_at_place lines.now place) }
{
    place >= lines.len() || is_settled(places, lines, lines.line(place).text)
}

// Whether this is so of the lines that opened blocks.
fn are_settled_at(places: bool, lines: &ScriptLines, blocks: &[OpenBlock]) -> bool
    ensures { result ≡ list_all (λ (b : OpenBlock).
        is_settled places lines.now (text_at_place lines.now b.place)) blocks.now }
{
    blocks
        .iter()
        .all(|block| is_settled_at(places, lines, block.place))
}

// Whether it is so of a line and of those that opened the blocks round it.
fn are_settled(places: bool, lines: &ScriptLines, line: &[u8], blocks: &[OpenBlock]) -> bool
    ensures { result ≡ are_settled places lines.now line.now blocks.now }
{
    is_settled(places, lines, line) && are_settled_at(places, lines, blocks)
}

// The first word of a line's command.
fn command_word(line: &[u8]) -> &[u8]
    ensures { result.now ≡ command_word line.now }
{
    first_word(command_of(line)).0
}

// Whether a command puts vertices at places of its own.
fn puts_vertex(word: &[u8]) -> bool
    ensures { result ≡ puts_vertex word.now }
{
    match head_in(word) {
        Some(head) => head_puts_vertex(head),
        None => false,
    }
}

// Whether words that hang on no map are the reason of a refusal alone.
fn is_of_plain_words(code: u16, word: &[u8]) -> bool
    ensures { result ≡ is_of_plain_words code word.now }
{
    is_code_of(OF_PLAIN_WORDS, code) || ((code == 9 || code == 11) && word != b"change".as_slice())
}

// The ground of a refusal, where the words hang on no map.
fn plain_ground(lines: &ScriptLines, code: u16, word: &[u8], else_so: Ground) -> Ground
    ensures { result ≡ plain_ground lines.now code word.now else_so }
{
    if is_of_plain_words(code, word) {
        Ground::Nothing
    } else if code == 4 {
        Ground::Sectors
    } else if code == 7 {
        Ground::Things
    } else if code == 10 && puts_vertex(word) && !one_frees(lines) {
        Ground::Place
    } else {
        else_so
    }
}

// The ground of a refusal, where the words hang on what is drawn, if `drawn`.
fn drawn_ground(drawn: bool, code: u16) -> Ground
    ensures { result ≡ drawn_ground drawn code }
{
    if is_code_of(OF_MAPS, code) {
        Ground::MapNames
    } else if drawn && is_code_of(OF_DRAWN, code) {
        Ground::Drawn
    } else {
        Ground::Anything
    }
}

// Of how many first lines one may give a name that stands for something at a place, within these blocks.
fn known_until(lines: &ScriptLines, place: usize, blocks: &[OpenBlock]) -> usize
    requires { place ≤ length lines.now }
    ensures known { result ≡ known_until lines.now place blocks.now }
    ensures within { result ≤ length lines.now }
{
    match blocks {
        [] => place,
        [_, ..] => lines.len(),
    }
}

// Whether words of the line at a place are the reason of its refusal with a code, whatever the others stand for.
fn is_of_own_words(
    lines: &ScriptLines,
    place: usize,
    line: &[u8],
    code: u16,
    blocks: &[OpenBlock],
) -> bool
    requires { place ≤ length lines.now }
    ensures { result ≡ is_of_own_words lines.now place line.now code blocks.now }
{
    is_code_of(OF_WORDS, code)
        || (code == 22 && mentions_unknown(lines, known_until(lines, place, blocks), line))
        || (code == 2 && has_outside(line))
        || (code == 46 && are_sums_settled(lines, line))
}

// What the line at a place of a script was refused for with a code, within these blocks.
fn ground_of(
    lines: &ScriptLines,
    place: usize,
    line: &[u8],
    code: u16,
    blocks: &[OpenBlock],
) -> Ground
    requires { place ≤ length lines.now }
    ensures { result ≡ ground_of lines.now place line.now code blocks.now }
{
    if is_of_own_words(lines, place, line, code, blocks) {
        Ground::Nothing
    } else if are_settled(false, lines, line, blocks) {
        plain_ground(lines, code, command_word(line), drawn_ground(true, code))
    } else {
        drawn_ground(are_settled(true, lines, line, blocks), code)
    }
}

// The text of the line at a place.
fn text_at(lines: &ScriptLines, place: usize) -> &[u8]
    requires { place < length lines.now }
    ensures { result.now ≡ text_at_place lines.now place }
{
    lines.line(place).text
}

// Whether one of some lines could lift the refusal of this line at a stop.
fn one_lifts(lines: &ScriptLines, left_out: &ScriptLines, line: &[u8], stop: &Stop) -> bool
    requires { stop.now.place < length lines.now }
    ensures { result ≡ one_could_lift lines.now
        (ground_of lines.now stop.now.place line.now stop.now.code stop.now.open.items)
        left_out.now }
{
    let cause = ground_of(lines, stop.place, line, stop.code, &stop.open);
    one_could_lift(lines, cause, left_out)
}

/// Whether a line of a script that was refused where some lines were left out hangs on these: once they are mended, it
/// might not be refused. So it is if it mentions a name that one of them may be meant to give, or if what one of them
/// would have added, changed or taken away may be the reason; README.md has a table of these. A line of more than 1,000
/// bytes hangs on any.
pub fn hangs(lines: &ScriptLines, left_out: &ScriptLines, stop: &Stop) -> bool
    requires { stop.now.place < length lines.now }
    ensures { result ≡ hangs lines.now left_out.now stop.now }
{
    let line = text_at(lines, stop.place);
    line.len() > LONGEST || mentions_given(left_out, line) || one_lifts(lines, left_out, line, stop)
}

/// Whether nothing is told of the lines behind a refused one: the disk or memory failed, the script draws too many
/// lines, or without this line its blocks might not be in order; or the line is too long to be looked at.
pub fn ends_telling(lines: &ScriptLines, stop: &Stop) -> bool
    requires { stop.now.place < length lines.now }
{
    let line = lines.line(stop.place).text;
    match stop.code {
        30 | 31 | 47 | 48 => true,
        _ => opens(line) || closes(line) || line.len() > LONGEST,
    }
}
