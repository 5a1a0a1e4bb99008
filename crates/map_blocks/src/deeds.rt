//! What a refused line would have done to the maps, by the word with which its command begins.
ghost use Rattle.std.specs.Prelude.{◌≡◌, ◌==◌, ◌&&◌, bytes_eq, slice_index};
ghost use Rattle.std.specs.List.{list_any};
ghost use Rattle.map_blocks.specs.Naming.{gives_anew};
ghost use Rattle.map_blocks.specs.Deeds.{are_near, begin_exchanged, can_lift, command_lifts, could_lift, deed_with, defines_near, freed, frees_place, is_any_word, is_ground, is_known_word, is_meant, is_meant_as, may_add_sector, may_add_thing, may_change, may_draw, may_free, may_turn, one_could_lift, one_defines_near, one_frees};

use crate::mentioning::gives_anew;
use map_commands::{DEEDS, Deed};
use map_script::{ScriptLines, command_of, define_words, first_word};

/// What a line was refused for, so far as earlier lines can be the reason.
#[derive(Clone, Copy)]
pub enum Ground {
    /// Its own words.
    Nothing,
    /// How many sectors there are.
    Sectors,
    /// How many things there are.
    Things,
    /// That a vertex has the place.
    Place,
    /// What is drawn, but things.
    Drawn,
    /// Which maps there are.
    MapNames,
    /// Anything that a command changes.
    Anything,
}

/// What the other lines of a script do than commands of a project, by their first words.
pub const OTHER_DEEDS: &[(&[u8], Deed)] = &[
    (b"area", Deed::AddsSector),
    (b"pillar", Deed::Draws),
    (b"door", Deed::Draws),
    (b"change", Deed::Frees),
    (b"check", Deed::Reads),
    (b"count", Deed::Reads),
    (b"maps", Deed::Reads),
    (b"build", Deed::Reads),
    (b"hex", Deed::Reads),
    (b"let", Deed::Reads),
    (b"for", Deed::Reads),
    (b"at", Deed::Reads),
    (b"define", Deed::Reads),
    (b"end", Deed::Reads),
    (b"include", Deed::Reads),
];

// ---- What a command does

// Whether a command may draw something that is no thing, or take it away.
fn may_draw(deed: Deed) -> bool
    ensures { result ≡ may_draw deed }
{
    match deed {
        Deed::AddsSector | Deed::Draws | Deed::Frees | Deed::Turns => true,
        Deed::Reads | Deed::AddsThing | Deed::SetsThing => false,
    }
}

// Whether the place of a vertex may be free behind a command.
fn may_free(deed: Deed) -> bool
    ensures { result ≡ may_free deed }
{
    match deed {
        Deed::Frees | Deed::Turns => true,
        _ => false,
    }
}

// Whether another map may be the current one behind a command, or have another name.
fn may_turn(deed: Deed) -> bool
    ensures { result ≡ may_turn deed }
{
    match deed {
        Deed::Turns => true,
        _ => false,
    }
}

// Whether there may be a sector more behind a command.
fn may_add_sector(deed: Deed) -> bool
    ensures { result ≡ may_add_sector deed }
{
    match deed {
        Deed::AddsSector | Deed::Turns => true,
        _ => false,
    }
}

// Whether there may be a thing more behind a command.
fn may_add_thing(deed: Deed) -> bool
    ensures { result ≡ may_add_thing deed }
{
    match deed {
        Deed::AddsThing | Deed::Turns => true,
        _ => false,
    }
}

// Whether a command changes or adds something.
fn may_change(deed: Deed) -> bool
    ensures { result ≡ may_change deed }
{
    match deed {
        Deed::Reads => false,
        _ => true,
    }
}

// Whether what was refused on a ground might not be behind a command.
fn can_lift(cause: Ground, deed: Deed) -> bool
    ensures { result ≡ can_lift cause deed }
{
    match cause {
        Ground::Nothing => false,
        Ground::Sectors => may_add_sector(deed),
        Ground::Things => may_add_thing(deed),
        Ground::Place => may_free(deed),
        Ground::Drawn => may_draw(deed),
        Ground::MapNames => may_turn(deed),
        Ground::Anything => may_change(deed),
    }
}

// ---- Which command a line is

// Whether two words begin with two letters in the one and in the other order, and are alike behind them.
fn begin_exchanged(one: &[u8], other: &[u8]) -> bool
    ensures { result ≡ begin_exchanged one.now other.now }
{
    match one {
        [a, b, rest @ ..] => match other {
            [c, d, more @ ..] => *a == *d && *b == *c && rest == more,
            _ => false,
        },
        _ => false,
    }
}

/// Whether two words are one, but for a letter that is another one, is missing or is too many, or for two that stand
/// side by side in the other order.
pub fn are_near(one: &[u8], other: &[u8]) -> bool
    ensures { result ≡ are_near one.now other.now }
{
    match one {
        [] => other.len() <= 1,
        [a, rest @ ..] => match other {
            [] => one.len() <= 1,
            [b, more @ ..] => {
                if *a == *b {
                    are_near(rest, more)
                } else {
                    rest == more || one == more || rest == other || begin_exchanged(one, other)
                }
            }
        },
    }
}

// What a command that may free a place does to an item of this kind.
fn freed(kind: &[u8]) -> Deed
    ensures { result ≡ freed kind.now }
{
    if kind == b"thing".as_slice() {
        Deed::SetsThing
    } else if kind == b"sector".as_slice()
        || kind == b"side".as_slice()
        || kind == b"line".as_slice()
    {
        Deed::Draws
    } else {
        Deed::Frees
    }
}

// What a command does, by what its first word says and by its second word.
fn deed_with(deed: Deed, second: &[u8]) -> Deed
    ensures { result ≡ deed_with deed second.now }
{
    match deed {
        Deed::Frees => freed(second),
        other => other,
    }
}

// Whether a word is one with which one of these commands begins.
fn is_among(deeds: &[(&[u8], Deed)], word: &[u8]) -> bool
    ensures { result ≡ list_any (λ d. bytes_eq d.0.now word.now) deeds.now }
{
    deeds.iter().any(|d| d.0 == word)
}

// Whether a word is one with which a command begins.
#[tactic(auto, unfolding(crate::specs::Deeds::is_known_word))]
fn is_known_word(word: &[u8]) -> bool
    ensures { result ≡ is_known_word word.now }
{
    is_among(DEEDS, word) || is_among(OTHER_DEEDS, word)
}

// Whether a word is meant as one of the language.
fn is_meant_as(word: &[u8], own: &[u8]) -> bool
    ensures { result ≡ is_meant_as word.now own.now }
{
    own == word || (!is_known_word(word) && are_near(own, word))
}

// Whether a word is meant as one of these.
fn is_meant_among(deeds: &[(&[u8], Deed)], word: &[u8]) -> bool
    ensures { result ≡ list_any (λ d. is_meant_as word.now d.0.now) deeds.now }
{
    deeds.iter().any(|d| is_meant_as(word, d.0))
}

// Whether a word is meant as one with which a command begins.
#[tactic(auto, unfolding(crate::specs::Deeds::is_meant))]
fn is_meant(word: &[u8]) -> bool
    ensures { result ≡ is_meant word.now }
{
    is_meant_among(DEEDS, word) || is_meant_among(OTHER_DEEDS, word)
}

// Whether a command, if it is one of these, could lift what was refused on a ground.
fn lifts_among(deeds: &[(&[u8], Deed)], cause: Ground, first: &[u8], second: &[u8]) -> bool
    ensures { result ≡ list_any (λ d. is_meant_as first.now d.0.now
        && can_lift cause (deed_with d.1 second.now)) deeds.now }
{
    deeds.iter().any(|d| is_meant_as(first, d.0) && can_lift(cause, deed_with(d.1, second)))
}

// Whether a command of these two first words could lift what was refused on a ground.
#[tactic(auto, unfolding(crate::specs::Deeds::command_lifts))]
fn command_lifts(cause: Ground, first: &[u8], second: &[u8]) -> bool
    ensures { result ≡ command_lifts cause first.now second.now }
{
    lifts_among(DEEDS, cause, first, second) || lifts_among(OTHER_DEEDS, cause, first, second)
}

// Whether a line defines a shape whose name is near to a word.
fn defines_near(line: &[u8], word: &[u8]) -> bool
    ensures { result ≡ defines_near line.now word.now }
{
    match define_words(line) {
        Some(words) => are_near(first_word(words).0, word),
        None => false,
    }
}

// Whether one of some lines defines a shape whose name is near to a word.
fn one_defines_near(lines: &ScriptLines, word: &[u8]) -> bool
    ensures { result ≡ one_defines_near lines.now word.now }
{
    for place in 0..lines.len() {
        if defines_near(lines.line(place).text, word) {
            return true;
        }
    }
    false
}

// Whether a word may be meant as anything.
fn is_any_word(lines: &ScriptLines, word: &[u8]) -> bool
    ensures { result ≡ is_any_word lines.now word.now }
{
    !is_known_word(word) && (one_defines_near(lines, word) || !is_meant(word))
}

// Whether a refusal has a ground beside the line's own words.
fn is_ground(cause: Ground) -> bool
    ensures { result ≡ is_ground cause }
{
    match cause {
        Ground::Nothing => false,
        _ => true,
    }
}

// Whether a line of a script, once it is mended, could lift what was refused on a ground.
fn could_lift(lines: &ScriptLines, cause: Ground, line: &[u8]) -> bool
    ensures { result ≡ could_lift lines.now cause line.now }
{
    let (first, rest) = first_word(command_of(line));
    let (second, _) = first_word(rest);
    is_ground(cause)
        && (is_any_word(lines, first)
            || command_lifts(cause, first, second)
            || gives_anew(lines, line))
}

/// Whether one of some lines of a script, once it is mended, could lift what was refused on a ground.
pub fn one_could_lift(lines: &ScriptLines, cause: Ground, out: &ScriptLines) -> bool
    ensures { result ≡ one_could_lift lines.now cause out.now }
{
    for place in 0..out.len() {
        if could_lift(lines, cause, out.line(place).text) {
            return true;
        }
    }
    false
}

// Whether a word begins with a `$`.
fn is_dollar_word(word: &[u8]) -> bool
    ensures { result ≡ (slice_index word.now 0 == 36) }
{
    match word {
        [b, ..] => *b == b'$',
        [] => false,
    }
}

// Whether a line that isn't refused may free the place of a vertex.
fn frees_place(line: &[u8]) -> bool
    ensures { result ≡ frees_place line.now }
{
    let (first, rest) = first_word(command_of(line));
    let (second, _) = first_word(rest);
    is_dollar_word(first) || (is_known_word(first) && command_lifts(Ground::Place, first, second))
}

/// Whether one of some lines may free the place of a vertex.
pub fn one_frees(lines: &ScriptLines) -> bool
    ensures { result ≡ one_frees lines.now }
{
    for place in 0..lines.len() {
        if frees_place(lines.line(place).text) {
            return true;
        }
    }
    false
}
