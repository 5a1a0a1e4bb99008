//! Resolves a cleaned line of a script to a command line.
ghost use Rattle.std.specs.Prelude.{◌≡◌, ◌++◌, ◌<◌, ◌==◌, IfErr, IfOk, IfSome, IsOkUnless, Ok, Some, option_copied, slice_index};
ghost use Rattle.std.specs.List.{list_any};
ghost use Rattle.map_script.specs.declared.error.DrawError.TheVariants.{OutOfMemory};
ghost use Rattle.map_script.specs.Kinds.{field_parts, misfit_in, misfit_told};
ghost use Rattle.map_script.specs.Known.{scope_of};
ghost use Rattle.map_script.specs.Lines.{MakesWord, PutsWord, TellsScriptFault, command_words, has_good_name, is_reckoned, joined_line, line_for, name_in, named_word, reckoned_word, reference_word, sum_word, word_for, words_for};
ghost use Rattle.map_script.specs.Meant.{meant_by};
ghost use Rattle.map_script.specs.Names.{number_for};
ghost use Rattle.map_script.specs.Scopes.{visible};
ghost use Rattle.map_script.specs.Sums.{sum_value};
ghost use Rattle.map_script.specs.Texts.{with_word};
ghost use Rattle.map_script.specs.Words.{text_words};

use crate::error::DrawError;
use crate::kinds::{Misfit, field_parts, first_misfit};
use crate::names::Names;
use crate::placed::placed_text;
use crate::reference::{is_name, is_no_reference, number_for};
use crate::referent::wanted_in;
use crate::sums::sum_value;
use crate::text::without_first;
use crate::words::next_word;
use map_tables::Map;
use std::alloc::Global;

// One more than how deep signs and parentheses of a sum may nest.
const DEPTH: u32 = 65;

/// The name that a line defines, if any, and its command.
pub fn parted(line: &[u8]) -> (Option<&[u8]>, &[u8])
    ensures name { option_copied result.0 ≡ name_in (text_words line.now) }
    ensures command { text_words result.1.now ≡ command_words (text_words line.now) }
{
    let Some((first, behind)) = next_word(line) else {
        return (None, line);
    };
    let Some((second, rest)) = next_word(behind) else {
        return (None, line);
    };
    if second == b"=".as_slice() {
        (Some(first), rest)
    } else {
        (None, line)
    }
}

/// The name that a line defines: NAME of `NAME = COMMAND`.
pub fn defined_name(line: &[u8]) -> Option<&[u8]>
    ensures { option_copied result ≡ name_in (text_words line.now) }
{
    parted(line).0
}

/// The command that stands behind the name that a line defines, or else the line.
pub fn command_of(line: &[u8]) -> &[u8]
    ensures { text_words result.now ≡ command_words (text_words line.now) }
{
    parted(line).1
}

/// Whether there is no word, or it is a name.
pub fn has_good_name(name: Option<&[u8]>) -> bool
    ensures { result ≡ has_good_name (option_copied name.entry) }
{
    match name {
        Some(name) => is_name(name),
        None => true,
    }
}

// The number of a sum, as a word.
fn sum_word(alloc: Global, names: &Names, map: &Map, text: &[u8]) -> Result<Vec<u8>, DrawError>
    ensures { MakesWord result
        (sum_word (sum_value 65 (scope_of names.now) map.now.tables text.now)) }
{
    match sum_value(DEPTH, names, map, text) {
        Ok(number) => {
            let digits = format!(in alloc; "{number}")?;
            Ok(digits.as_bytes().to_vec(alloc)?)
        }
        Err(error) => Err(error),
    }
}

// The word of a reference, given without its `$`; a word that is no reference is a sum.
fn reference_word(
    alloc: Global,
    names: &Names,
    map: &Map,
    text: &[u8],
    reference: &[u8],
) -> Result<Vec<u8>, DrawError>
    ensures { MakesWord result (reference_word (scope_of names.now) map.now.tables text.now
        (number_for (scope_of names.now) map.now.tables reference.now)) }
{
    let number = number_for(names, map, reference);
    if is_no_reference(number) {
        return sum_word(alloc, names, map, text);
    }
    match number {
        Ok(number) => {
            let digits = format!(in alloc; "{number}")?;
            Ok(digits.as_bytes().to_vec(alloc)?)
        }
        Err(error) => Err(error),
    }
}

// The words of a name, or else the word of a reference.
fn named_word(
    alloc: Global,
    names: &Names,
    map: &Map,
    text: &[u8],
    reference: &[u8],
) -> Result<Vec<u8>, DrawError>
    ensures { MakesWord result (named_word (scope_of names.now) map.now.tables text.now
        (meant_by (visible (scope_of names.now)) reference.now)
        (number_for (scope_of names.now) map.now.tables reference.now)) }
{
    match names.find(reference) {
        Some(meaning) => Ok(meaning.words.as_slice().to_vec(alloc)?),
        None => reference_word(alloc, names, map, text, reference),
    }
}

// Whether a text has a `$`.
fn has_dollar(text: &[u8]) -> bool
    ensures { result ≡ list_any (λ b. b == 36) text.now }
{
    text.iter().any(|b| *b == b'$')
}

// Whether a word has a `$` or begins with `(`.
fn is_reckoned(text: &[u8]) -> bool
    ensures { result ≡ is_reckoned text.now }
{
    begins(text, b'(') || has_dollar(text)
}

// Whether a text begins with a byte other than 0.
fn begins(text: &[u8], first: u8) -> bool
    requires { 0 < first }
    ensures { result ≡ (slice_index text.now 0 == first) }
{
    match text {
        [b, ..] => *b == first,
        [] => false,
    }
}

// What a word with a `$`, or one that begins with `(`, stands for.
fn reckoned_word(alloc: Global, names: &Names, map: &Map, text: &[u8]) -> Result<Vec<u8>, DrawError>
    ensures { MakesWord result (reckoned_word (scope_of names.now) map.now.tables text.now) }
{
    match text {
        [] => Ok(Vec::new(alloc)),
        [b'$', reference @ ..] => named_word(alloc, names, map, text, reference),
        _ => sum_word(alloc, names, map, text),
    }
}

// Appends a space and a word in two parts.
fn put_parts(text: &mut Vec<u8>, front: &[u8], back: &[u8]) -> Result<(), DrawError>
    ensures ok { IfOk result
        (λ _. text.new.items ≡ with_word text.old.items (front.now ++ back.now)) }
    ensures memory { IsOkUnless result OutOfMemory }
{
    text.push(b' ')?;
    text.extend_from_slice(front)?;
    text.extend_from_slice(back)?;
    Ok(())
}

// Appends what a word stands for.
#[tactic(auto, unfolding(crate::specs::Lines::word_for))]
fn put_resolved(
    alloc: Global,
    text: &mut Vec<u8>,
    names: &Names,
    map: &Map,
    word: &[u8],
) -> Result<(), DrawError>
    ensures { PutsWord result (word_for (scope_of names.now) map.now.tables word.now)
        text.old.items text.new.items }
{
    let (front, value) = field_parts(word);
    if !is_reckoned(value) {
        return put_parts(text, front, value);
    }
    match reckoned_word(alloc, names, map, value) {
        Ok(found) => put_parts(text, front, &found),
        Err(error) => Err(error),
    }
}

/// What the words of a text stand for, separated by single spaces.
#[tactic(auto, using(crate::proofs::Replacing::behind_more))]
pub fn replaced(
    alloc: Global,
    names: &Names,
    map: &Map,
    command: &[u8],
) -> Result<Vec<u8>, DrawError>
    ensures ok { IfOk result (λ text.
        joined_line (words_for (scope_of names.now) map.now.tables (text_words command.now))
        ≡ Ok text.items) }
    ensures fault { IfErr result
        (λ e. TellsScriptFault e
        (joined_line (words_for (scope_of names.now) map.now.tables (text_words command.now)))) }
{
    let mut text = Vec::new(alloc);
    let mut rest = command;
    while let Some((word, behind)) = next_word(rest) {
        match put_resolved(alloc, &mut text, names, map, word) {
            Ok(()) => rest = behind,
            Err(error) => return Err(error),
        }
    }
    Ok(without_first(text))
}

/// Resolves a line of a script to a command line: removes `NAME =`, replaces references by numbers, and places places
/// as the open blocks want it. `map` is the current map, in which the places of references are looked for.
///
/// # Errors
///
/// `NotAName`, or otherwise the error of the leftmost reference that stands for no number, or else `OtherKind` if a
/// word is the number of another kind of item than its place wants; or `OutOfMemory`.
pub fn resolve(alloc: Global, names: &Names, map: &Map, line: &[u8]) -> Result<Vec<u8>, DrawError>
    ensures ok { IfOk result
        (λ text. line_for (scope_of names.now) map.now.tables line.now ≡ Ok text.items) }
    ensures fault { IfErr result
        (λ e. TellsScriptFault e (line_for (scope_of names.now) map.now.tables line.now)) }
{
    let (name, command) = parted(line);
    if !has_good_name(name) {
        return Err(DrawError::NotAName);
    }
    let text = match replaced(alloc, names, map, command) {
        Ok(text) => text,
        Err(error) => return Err(error),
    };
    match first_misfit(names, wanted_in(&text), command) {
        Some(_) => Err(DrawError::OtherKind),
        None => placed_text(alloc, names.placing(), text),
    }
}

/// The first word of a line that is the number of another kind of item than its place wants, if the line's names and
/// places stand for something and there is memory.
pub fn misfit_in<'a>(alloc: Global, names: &Names, map: &Map, line: &'a [u8]) -> Option<Misfit<'a>>
    ensures { let words = command_words (text_words line.now) in
        let line = joined_line (words_for (scope_of names.now) map.now.tables words) in
        IfSome result (λ m. misfit_in (scope_of names.now) words line ≡ Some (misfit_told m)) }
{
    let command = command_of(line);
    match replaced(alloc, names, map, command) {
        Ok(text) => first_misfit(names, wanted_in(&text), command),
        Err(_) => None,
    }
}
