//! Which of the lines of `lint` are asked for.
ghost use Rattle.std.specs.Prelude.{◌≡◌, IfErr, IfOk, map, string_bytes};
ghost use Rattle.map_checks.specs.Findings.{findings};
ghost use Rattle.run_edit.specs.declared.error.EditorError.TheVariants.{OutOfMemory};
ghost use Rattle.cli_print.specs.Choosing.{choice_view, chosen_findings, chosen_warnings, is_chosen, is_word_among};

use map_checks::{Finding, check};
use map_lint::Warning;
use map_tables::Map;
use run_edit::EditorError;
use std::alloc::Global;
use wad_levels::Graphics;

/// The words of the lines that are asked for, all if there are none, and of those that aren't: `check` for the lines of
/// `check`, and the words of rules.
#[derive(Clone, Copy)]
pub struct Choice<'a> {
    pub only: &'a [String],
    pub except: &'a [String],
}

/// What maps are looked at with: the names of a WAD's flats and textures, if one is given, and the words.
#[derive(Clone, Copy)]
pub(crate) struct Wants<'a> {
    pub names: Option<&'a Graphics>,
    pub choice: Choice<'a>,
}

// Whether the word is one of the words.
fn is_word_among(words: &[String], word: &str) -> bool
    ensures { result ≡ is_word_among (map string_bytes words.now) word.now }
{
    for known in words {
        if known.as_str() == word {
            return true;
        }
    }
    false
}

// Whether the lines with this word are asked for.
fn is_chosen(choice: Choice<'_>, word: &str) -> bool
    ensures { result ≡ is_chosen (choice_view choice.entry) word.now }
{
    (choice.only.is_empty() || is_word_among(choice.only, word))
        && !is_word_among(choice.except, word)
}

/// The findings of the map, if the lines of `check` are asked for.
pub(crate) fn chosen_findings(
    alloc: Global,
    map: &Map,
    choice: Choice<'_>,
) -> Result<Vec<Finding>, EditorError>
    ensures found { IfOk result (λ found.
        found.items ≡ chosen_findings (choice_view choice.entry) (findings map.now.tables)) }
    ensures memory { IfErr result (λ e. e ≡ OutOfMemory) }
{
    if !is_chosen(choice, "check") {
        return Ok(Vec::new(alloc));
    }
    match check(alloc, map) {
        Ok(found) => Ok(found),
        Err(_) => Err(EditorError::OutOfMemory),
    }
}

/// Of these warnings those whose lines are asked for.
pub(crate) fn chosen_warnings(
    alloc: Global,
    warned: &[Warning],
    choice: Choice<'_>,
) -> Result<Vec<Warning>, EditorError>
    ensures chosen { IfOk result (λ chosen.
        chosen.items ≡ chosen_warnings (choice_view choice.entry) warned.now) }
    ensures memory { IfErr result (λ e. e ≡ OutOfMemory) }
{
    let mut chosen = Vec::new(alloc);
    for warning in warned {
        if is_chosen(choice, warning.rule.word()) && chosen.push(*warning).is_err() {
            return Err(EditorError::OutOfMemory);
        }
    }
    Ok(chosen)
}
