//! Lines that define shapes, `define NAME PARAM ..`, and lines that draw one, `NAME WORD ..`, and may name it.
ghost use Rattle.std.specs.Prelude.{◌≡◌, IfErr, IfOk, IsOkUnless, MatchOption, None, Ok, Some};
ghost use Rattle.std.specs.List.{list_all};
ghost use Rattle.map_script.specs.Defines.{are_as_many, call_words, define_fault, define_words, is_free_name, with_parameters};
ghost use Rattle.map_script.specs.Known.{scope_of};
ghost use Rattle.map_script.specs.Lines.{TellsScriptFault};
ghost use Rattle.map_script.specs.Words.{text_words};
ghost use Rattle.map_script.specs.declared.error.DrawError.TheVariants.{OutOfMemory};

use crate::error::DrawError;
use crate::names::Names;
use crate::own_words::is_own_word;
use crate::reference::is_name;
use crate::resolving::{defined_name, has_good_name, parted, replaced};
use crate::words::{first_word, next_word};
use map_tables::Map;
use std::alloc::Global;

/// The `NAME PARAM ..` of a line `define NAME PARAM ..`. A line that gives a name `define` by `=` is none.
pub fn define_words(line: &[u8]) -> Option<&[u8]>
    ensures { MatchOption result (define_words (text_words line.now) ≡ None)
        (λ rest. define_words (text_words line.now) ≡ Some (text_words rest.now)) }
{
    let (first, rest) = next_word(line)?;
    if first == b"define".as_slice() && defined_name(line).is_none() {
        Some(rest)
    } else {
        None
    }
}

// Whether a word may be the name of a shape or of a parameter.
fn is_free_name(word: &[u8]) -> bool
    ensures { result ≡ is_free_name word.now }
{
    is_name(word) && !is_own_word(word)
}

// Whether all words of a text may be such names.
fn are_free_names(text: &[u8]) -> bool
    ensures { result ≡ list_all is_free_name (text_words text.now) }
{
    let mut rest = text;
    while let Some((word, behind)) = next_word(rest) {
        if !is_free_name(word) {
            return false;
        }
        rest = behind;
    }
    true
}

/// What is wrong with the NAME PARAM .. of a `define`, if anything is: `NotADefine` without a name, or `NotAName` if a
/// word is no name or a word of the language.
pub fn define_fault(words: &[u8]) -> Option<DrawError>
    ensures { result ≡ define_fault (text_words words.now) }
{
    if next_word(words).is_none() {
        return Some(DrawError::NotADefine);
    }
    if are_free_names(words) {
        None
    } else {
        Some(DrawError::NotAName)
    }
}

// Whether there are as many words as parameters.
fn are_as_many(parameters: &[u8], words: &[u8]) -> bool
    ensures { result ≡ are_as_many (text_words parameters.now) (text_words words.now) }
{
    let mut parameters = parameters;
    let mut words = words;
    while let Some((_, more)) = next_word(parameters) {
        let Some((_, behind)) = next_word(words) else {
            return false;
        };
        parameters = more;
        words = behind;
    }
    next_word(words).is_none()
}

/// The words that the parameters of a shape stand for, separated by spaces: those behind its name in the line that
/// draws it, resolved first; `parameters` are its PARAM ..
///
/// # Errors
///
/// `NotAName` if the line gives a name that is none, the error of the leftmost word that stands for nothing,
/// `NotItsWords` if there are more or fewer than parameters, or `OutOfMemory`.
pub fn call_words(
    alloc: Global,
    names: &Names,
    map: &Map,
    parameters: &[u8],
    line: &[u8],
) -> Result<Vec<u8>, DrawError>
    ensures ok { IfOk result (λ text.
        call_words (scope_of names.now) map.now.tables (text_words parameters.now)
        (text_words line.now) ≡ Ok (text_words text.items)) }
    ensures fault { IfErr result (λ e. TellsScriptFault e
        (call_words (scope_of names.now) map.now.tables (text_words parameters.now)
        (text_words line.now))) }
{
    let (name, command) = parted(line);
    if !has_good_name(name) {
        return Err(DrawError::NotAName);
    }
    let (_, words) = first_word(command);
    let text = match replaced(alloc, names, map, words) {
        Ok(text) => text,
        Err(error) => return Err(error),
    };
    if are_as_many(parameters, &text) {
        Ok(text)
    } else {
        Err(DrawError::NotItsWords)
    }
}

/// Gives each parameter of a shape its word, until the shape's drawing ends.
///
/// # Errors
///
/// Only `OutOfMemory`.
pub fn give_parameters(
    alloc: Global,
    names: &mut Names,
    parameters: &[u8],
    words: &[u8],
) -> Result<(), DrawError>
    ensures ok { IfOk result (λ _. scope_of names.new
        ≡ with_parameters (scope_of names.old) (text_words parameters.now)
        (text_words words.now)) }
    ensures memory { IsOkUnless result OutOfMemory }
{
    let mut parameters = parameters;
    let mut words = words;
    while let Some((parameter, more)) = next_word(parameters) {
        let Some((word, behind)) = next_word(words) else {
            return Ok(());
        };
        match names.hold(alloc, parameter, word) {
            Ok(()) => {}
            Err(error) => return Err(error),
        }
        parameters = more;
        words = behind;
    }
    Ok(())
}
