//! What the program's arguments ask for, as clap reads them.
ghost use Rattle.std.specs.Prelude.{◌≡◌, ◌<◌, ◌≤◌, ◌∷◌, ◌⊎◌, [], IfOk, IfErr, IfSome, IfNone, IsSomeAnd, Some, codes, false, length, map, option_map, string_bytes, true, unwrap_or};
ghost use Rattle.clap.specs.Words.{all_of, first_of, found_of, rows_of, subcommand_of};
ghost use Rattle.cli_words.specs.Help.{IsRefusal, help_option, without_help};
ghost use Rattle.cli_words.specs.App.{leveled_app};
ghost use Rattle.cli_words.specs.Request.{AsksFor, HasNumber, IsSubcommand, LacksNumber, RefusesRead, RefusesText, RefusesValues, is_given};

use crate::app::leveled;
use crate::asked::{Request, RequestError};
use crate::lint_words::asked_lint;
use crate::picture_words::asked_picture;
use crate::topic::topic_of;
use clap::ArgMatches;
use std::alloc::Global;

/// A copy of the text, which the request owns.
pub(crate) fn owned(alloc: Global, text: &str) -> Result<String, RequestError>
    ensures same { IfOk result (λ s. string_bytes s ≡ text.now) }
    ensures refused { IfErr result (λ e. e ≡ RequestError.Memory) }
{
    match String::from_str(alloc, text) {
        Ok(text) => Ok(text),
        Err(_) => Err(RequestError::Memory),
    }
}

/// The text of an argument.
pub(crate) fn text(alloc: Global, found: &ArgMatches<'_>, id: &str) -> Result<String, RequestError>
    ensures given { IfOk result
        (λ s. first_of id.now (rows_of (found_of found.now)) ≡ Some (string_bytes s)) }
    ensures refused { IfErr result (RefusesText id.now (rows_of (found_of found.now))) }
{
    match found.get_str(id) {
        Some(text) => owned(alloc, text),
        None => Err(RequestError::Number),
    }
}

// The number, if it is within these limits.
fn within(n: u32, low: u32, high: u32) -> Option<u32>
    ensures some { IfSome result (λ m. (m ≡ n) × (low ≤ n) × (n ≤ high)) }
    ensures none { IfNone result (¬ ((low ≤ n) × (n ≤ high))) }
{
    if low <= n && n <= high { Some(n) } else { None }
}

// The number that an argument gives, if it is within these limits.
fn number(found: &ArgMatches<'_>, id: &str, low: u32, high: u32) -> Option<u32>
    ensures some { IfSome result (HasNumber id.now (rows_of (found_of found.now)) low high) }
    ensures none { IfNone result (LacksNumber id.now (rows_of (found_of found.now)) low high) }
{
    match found.get_one::<u32>(id) {
        Some(n) => within(n, low, high),
        None => None,
    }
}

// The request to make a project.
fn asked_create(alloc: Global, found: &ArgMatches<'_>) -> Result<Request, RequestError>
    ensures asked { IfOk result (λ r. AsksFor r (codes "create", rows_of (found_of found.now))) }
    ensures refused { IfErr result (RefusesValues (codes "create", rows_of (found_of found.now))) }
{
    let Some(slot) = number(found, "slot", 33, 2007015) else {
        return Err(RequestError::Number);
    };
    let Some(journal) = number(found, "journal", 512, 1048576) else {
        return Err(RequestError::Number);
    };
    match text(alloc, found, "file") {
        Ok(file) => Ok(Request::Create {
            file,
            slot,
            journal,
        }),
        Err(error) => Err(error),
    }
}

// The request to build the maps of a project.
fn asked_build(alloc: Global, found: &ArgMatches<'_>) -> Result<Request, RequestError>
    ensures asked { IfOk result (λ r. AsksFor r (codes "build", rows_of (found_of found.now))) }
    ensures refused { IfErr result (RefusesValues (codes "build", rows_of (found_of found.now))) }
{
    let file = match text(alloc, found, "file") {
        Ok(file) => file,
        Err(error) => return Err(error),
    };
    match text(alloc, found, "out") {
        Ok(out) => Ok(Request::Build { file, out }),
        Err(error) => Err(error),
    }
}

/// The text of an optional argument.
pub(crate) fn last_text(
    alloc: Global,
    found: &ArgMatches<'_>,
    id: &str,
) -> Result<Option<String>, RequestError>
    ensures given { IfOk result (λ text.
        first_of id.now (rows_of (found_of found.now)) ≡ option_map string_bytes text) }
    ensures refused { IfErr result (λ e. e ≡ RequestError.Memory) }
{
    match found.get_str(id) {
        Some(text) => match owned(alloc, text) {
            Ok(text) => Ok(Some(text)),
            Err(error) => Err(error),
        },
        None => Ok(None),
    }
}

// The request to print what is wrong in a map.
fn asked_check(alloc: Global, found: &ArgMatches<'_>) -> Result<Request, RequestError>
    ensures asked { IfOk result (λ r. AsksFor r (codes "check", rows_of (found_of found.now))) }
    ensures refused { IfErr result (RefusesValues (codes "check", rows_of (found_of found.now))) }
{
    let file = match text(alloc, found, "file") {
        Ok(file) => file,
        Err(error) => return Err(error),
    };
    match last_text(alloc, found, "map") {
        Ok(map) => Ok(Request::Check { file, map }),
        Err(error) => Err(error),
    }
}

/// Whether a flag is given.
pub(crate) fn is_given(found: &ArgMatches<'_>, id: &str) -> bool
    ensures { result ≡ is_given id.now (rows_of (found_of found.now)) }
{
    match found.get_str(id) {
        Some(text) => text == "true",
        None => false,
    }
}

// Copies of the texts, which the request owns.
fn owned_all(alloc: Global, given: &[&str]) -> Result<Vec<String>, RequestError>
    ensures same { IfOk result (λ texts.
        map string_bytes texts.items ≡ map (λ t. t.now) given.now) }
    ensures refused { IfErr result (λ e. e ≡ RequestError.Memory) }
{
    let mut texts = Vec::new(alloc);
    for text in given {
        let text = match owned(alloc, text) {
            Ok(text) => text,
            Err(error) => return Err(error),
        };
        if texts.push(text).is_err() {
            return Err(RequestError::Memory);
        }
    }
    Ok(texts)
}

/// The texts of an argument that may be given any number of times.
pub(crate) fn texts(
    alloc: Global,
    found: &ArgMatches<'_>,
    id: &str,
) -> Result<Vec<String>, RequestError>
    ensures given { IfOk result (λ texts. map string_bytes texts.items
        ≡ unwrap_or (all_of id.now (rows_of (found_of found.now))) []) }
    ensures refused { IfErr result (λ e. e ≡ RequestError.Memory) }
{
    match found.get_strs(id) {
        Some(given) => owned_all(alloc, given),
        None => Ok(Vec::new(alloc)),
    }
}

// The request to draw a script onto a project, or to try it.
fn asked_draw(alloc: Global, found: &ArgMatches<'_>) -> Result<Request, RequestError>
    ensures asked { IfOk result (λ r. AsksFor r (codes "draw", rows_of (found_of found.now))) }
    ensures refused { IfErr result (RefusesValues (codes "draw", rows_of (found_of found.now))) }
{
    let file = match text(alloc, found, "file") {
        Ok(file) => file,
        Err(error) => return Err(error),
    };
    let script = match last_text(alloc, found, "script") {
        Ok(script) => script,
        Err(error) => return Err(error),
    };
    let verbose = is_given(found, "verbose");
    if is_given(found, "check") {
        return Ok(Request::TryScript {
            script: file,
            over: script,
            verbose,
        });
    }
    Ok(Request::Draw {
        file,
        script,
        verbose,
    })
}

// The request to dump what can be read of a damaged project; it takes no name and no `--exact`.
fn asked_salvage(file: String, names: &[String], exact: bool) -> Result<Request, RequestError>
    ensures asked { IfOk result (λ r. (r ≡ Request.Salvage file) × (names.now ≡ [])
        × (exact ≡ false)) }
    ensures refused { IfErr result (λ e. (e ≡ RequestError.WholeAlone)
        × ((exact ≡ true) ⊎ (0 < length names.now))) }
{
    if exact || !names.is_empty() {
        return Err(RequestError::WholeAlone);
    }
    Ok(Request::Salvage { file })
}

// The request to dump maps or levels, or what can be read of a damaged project.
fn asked_dump(alloc: Global, found: &ArgMatches<'_>) -> Result<Request, RequestError>
    ensures asked { IfOk result (λ r. AsksFor r (codes "dump", rows_of (found_of found.now))) }
    ensures refused { IfErr result (RefusesValues (codes "dump", rows_of (found_of found.now))) }
{
    let file = match text(alloc, found, "file") {
        Ok(file) => file,
        Err(error) => return Err(error),
    };
    let names = match texts(alloc, found, "name") {
        Ok(names) => names,
        Err(error) => return Err(error),
    };
    let exact = is_given(found, "exact");
    if is_given(found, "salvage") {
        asked_salvage(file, &names, exact)
    } else {
        Ok(Request::Dump { file, names, exact })
    }
}

// The request to build the nodes of a WAD's levels anew.
fn asked_rebuild(alloc: Global, found: &ArgMatches<'_>) -> Result<Request, RequestError>
    ensures asked { IfOk result (λ r. AsksFor r (codes "rebuild", rows_of (found_of found.now))) }
    ensures refused { IfErr result (RefusesValues (codes "rebuild", rows_of (found_of found.now))) }
{
    let wad = match text(alloc, found, "wad") {
        Ok(wad) => wad,
        Err(error) => return Err(error),
    };
    let out = match text(alloc, found, "out") {
        Ok(out) => out,
        Err(error) => return Err(error),
    };
    match texts(alloc, found, "map") {
        Ok(maps) => Ok(Request::Rebuild { wad, out, maps }),
        Err(error) => Err(error),
    }
}

// The request to inspect a level, or, without a name, to list the levels.
fn asked_inspect(alloc: Global, found: &ArgMatches<'_>) -> Result<Request, RequestError>
    ensures asked { IfOk result (λ r. AsksFor r (codes "inspect", rows_of (found_of found.now))) }
    ensures refused { IfErr result (RefusesValues (codes "inspect", rows_of (found_of found.now))) }
{
    let wad = match text(alloc, found, "wad") {
        Ok(wad) => wad,
        Err(error) => return Err(error),
    };
    match last_text(alloc, found, "name") {
        Ok(Some(name)) => Ok(Request::Inspect { wad, name }),
        Ok(None) => Ok(Request::Levels { wad }),
        Err(error) => Err(error),
    }
}

// The request for a subcommand, from what clap found for its arguments.
fn asked(alloc: Global, name: &str, found: &ArgMatches<'_>) -> Result<Request, RequestError>
    requires { IsSubcommand name.now }
    ensures asked { IfOk result (λ r. AsksFor r (name.now, rows_of (found_of found.now))) }
    ensures refused { IfErr result (RefusesValues (name.now, rows_of (found_of found.now))) }
{
    match name {
        "scratch" => Ok(Request::Scratch),
        "create" => asked_create(alloc, found),
        "edit" => match text(alloc, found, "file") {
            Ok(file) => Ok(Request::Edit { file }),
            Err(error) => Err(error),
        },
        "check" => asked_check(alloc, found),
        "lint" => asked_lint(alloc, found),
        "dump" => asked_dump(alloc, found),
        "draw" => asked_draw(alloc, found),
        "picture" => asked_picture(alloc, found),
        "inspect" => asked_inspect(alloc, found),
        "build" => asked_build(alloc, found),
        "rebuild" => asked_rebuild(alloc, found),
        _ => unreachable!(),
    }
}

// What the arguments ask for, as clap reads them.
fn read(alloc: Global, words: &[&str]) -> Result<Request, RequestError>
    ensures asked { IfOk result (λ r.
        IsSomeAnd (subcommand_of leveled_app (map (λ w. w.now) words.now)) (AsksFor r)) }
    ensures refused { IfErr result (RefusesRead (map (λ w. w.now) words.now)) }
{
    let command = match leveled(alloc) {
        Ok(command) => command,
        Err(_) => return Err(RequestError::Memory),
    };
    let matches = match command.try_get_matches_from(words) {
        Ok(matches) => matches,
        Err(error) => return Err(RequestError::Words(error)),
    };
    match matches.subcommand() {
        Some((name, found)) => asked(alloc, name, found),
        None => unreachable!(),
    }
}

// The argument itself, or `--help` for `help`.
fn as_option<'a>(word: &'a str) -> &'a str
    ensures { result.now ≡ help_option word.now }
{
    if word == "help" { "--help" } else { word }
}

// What two arguments after the program's name ask for; they may be `help NAME` or `help TOPIC`.
fn read_two(alloc: Global, program: &str, word: &str, name: &str) -> Result<Request, RequestError>
    ensures asked { IfOk result (λ r. IsSomeAnd (subcommand_of leveled_app
        (without_help (program.now ∷ word.now ∷ name.now ∷ []))) (AsksFor r)) }
    ensures refused { IfErr result (IsRefusal (program.now ∷ word.now ∷ name.now ∷ [])) }
{
    if word != "help" {
        return read(alloc, &[program, word, name]);
    }
    match topic_of(name) {
        Some(topic) => Err(RequestError::Help(topic)),
        None => read(alloc, &[program, name, "--help"]),
    }
}

/// What the arguments ask for; the first one is the program's name. `help` alone is read as `--help`, and `help NAME`
/// as `NAME --help`.
///
/// # Errors
///
/// `Words` if clap refuses the arguments, or answers them itself with help or the version; clap's error has the text,
/// its stream and the status. `Help` for `help TOPIC`. `Number` if clap accepted an argument without a value within
/// its limits. `WholeAlone` if `dump --salvage` has a name or `--exact`. `NotARule` if `lint` is given a word that no
/// rule has. `NotABox` if `picture` is given a text that writes no box, or an empty one. `Memory` if there is none.
pub fn request(alloc: Global, words: &[&str]) -> Result<Request, RequestError>
    ensures asked { IfOk result (λ r. IsSomeAnd
        (subcommand_of leveled_app (without_help (map (λ w. w.now) words.now))) (AsksFor r)) }
    ensures refused { IfErr result (IsRefusal (map (λ w. w.now) words.now)) }
{
    match words.len() {
        2 => read(alloc, &[words[0], as_option(words[1])]),
        3 => read_two(alloc, words[0], words[1], words[2]),
        _ => read(alloc, words),
    }
}
