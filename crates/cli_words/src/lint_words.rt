//! The request to lint maps.
ghost use Rattle.std.specs.Prelude.{◌≡◌, IfErr, IfOk, None, Some, codes, map, option_map, string_bytes};
ghost use Rattle.std.specs.Option.{option_or};
ghost use Rattle.clap.specs.Words.{found_of, rows_of};
ghost use Rattle.cli_words.specs.Request.{AsksFor, RefusesValues};
ghost use Rattle.cli_words.specs.RuleWords.{RefusesChosen, all_given, unknown_given, unknown_word};

use crate::asked::{Request, RequestError};
use crate::command_line::{last_text, owned, text, texts};
use crate::rule_words::unknown_word;
use clap::ArgMatches;
use std::alloc::Global;

// The words that `lint` is to print, and those that it isn't.
#[derive(Drop)]
struct Chosen {
    only: Vec<String>,
    except: Vec<String>,
}

// The words of `--only` and of `--except`, whichever these are.
fn given_words(alloc: Global, found: &ArgMatches<'_>) -> Result<Chosen, RequestError>
    ensures only { IfOk result (λ c. map string_bytes c.only.items
        ≡ all_given (codes "only") (rows_of (found_of found.now))) }
    ensures except { IfOk result (λ c. map string_bytes c.except.items
        ≡ all_given (codes "except") (rows_of (found_of found.now))) }
    ensures refused { IfErr result (λ e. e ≡ RequestError.Memory) }
{
    let only = match texts(alloc, found, "only") {
        Ok(only) => only,
        Err(error) => return Err(error),
    };
    match texts(alloc, found, "except") {
        Ok(except) => Ok(Chosen { only, except }),
        Err(error) => Err(error),
    }
}

// The first of the chosen words that no rule has.
fn unknown_chosen(chosen: &Chosen) -> Option<&str>
    ensures { option_map (λ w. w.now) result
        ≡ option_or (unknown_word (map string_bytes chosen.now.only.items))
        (unknown_word (map string_bytes chosen.now.except.items)) }
{
    match unknown_word(&chosen.only) {
        Some(word) => Some(word),
        None => unknown_word(&chosen.except),
    }
}

// The words of `--only` and of `--except`, if each is the word of a rule.
fn chosen_words(alloc: Global, found: &ArgMatches<'_>) -> Result<Chosen, RequestError>
    ensures only { IfOk result (λ c. map string_bytes c.only.items
        ≡ all_given (codes "only") (rows_of (found_of found.now))) }
    ensures except { IfOk result (λ c. map string_bytes c.except.items
        ≡ all_given (codes "except") (rows_of (found_of found.now))) }
    ensures known { IfOk result (λ _. unknown_given (rows_of (found_of found.now)) ≡ None) }
    ensures refused { IfErr result (RefusesChosen (rows_of (found_of found.now))) }
{
    let chosen = match given_words(alloc, found) {
        Ok(chosen) => chosen,
        Err(error) => return Err(error),
    };
    match unknown_chosen(&chosen) {
        None => {}
        Some(word) => return match owned(alloc, word) {
            Ok(word) => Err(RequestError::NotARule(word)),
            Err(error) => Err(error),
        },
    }
    Ok(chosen)
}

/// The request to lint maps.
pub(crate) fn asked_lint(alloc: Global, found: &ArgMatches<'_>) -> Result<Request, RequestError>
    ensures asked { IfOk result (λ r. AsksFor r (codes "lint", rows_of (found_of found.now))) }
    ensures refused { IfErr result (RefusesValues (codes "lint", rows_of (found_of found.now))) }
{
    let file = match text(alloc, found, "file") {
        Ok(file) => file,
        Err(error) => return Err(error),
    };
    let map = match last_text(alloc, found, "map") {
        Ok(map) => map,
        Err(error) => return Err(error),
    };
    let iwad = match last_text(alloc, found, "iwad") {
        Ok(iwad) => iwad,
        Err(error) => return Err(error),
    };
    match chosen_words(alloc, found) {
        Ok(Chosen { only, except }) => Ok(Request::Lint {
            file,
            map,
            iwad,
            only,
            except,
        }),
        Err(error) => Err(error),
    }
}
