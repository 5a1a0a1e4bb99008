//! How many levels the request `rebuild` built anew or left, and what it reports on standard error: the faults that
//! stay in those that are built anew.
ghost use Rattle.std.specs.Prelude.{◌≡◌, MatchResult, count_by, flat_map};
ghost use Rattle.std.specs.Io.KnownBytes.{Appends};
ghost use Rattle.run_edit.specs.declared.error.EditorError.TheVariants.{WriterFailed};
ghost use Rattle.cli_rebuild.specs.Rebuilding.{kept_line, kept_notes, kept_of, was_left, was_made};

use cli_print::write_shown;
use lump_records::Name8;
use run_edit::EditorError;
use std::io::Write;
use wad_rebuild::{Fate, KeptFault, RebuiltLevel};

// Whether a level was built anew.
fn was_made(fate: &Fate) -> bool
    ensures { result ≡ was_made fate.now }
{
    match fate {
        Fate::Made(_) => true,
        Fate::NotAsked | Fate::Left(_) => false,
    }
}

// Whether a level was left.
fn was_left(fate: &Fate) -> bool
    ensures { result ≡ was_left fate.now }
{
    match fate {
        Fate::Left(_) => true,
        Fate::NotAsked | Fate::Made(_) => false,
    }
}

/// How many levels were built anew.
pub fn made_count(levels: &[RebuiltLevel]) -> usize
    ensures { result ≡ count_by (λ l. was_made l.fate) levels.now }
{
    levels.iter().filter(|level| was_made(&level.fate)).count()
}

/// How many levels were left.
pub fn left_count(levels: &[RebuiltLevel]) -> usize
    ensures { result ≡ count_by (λ l. was_left l.fate) levels.now }
{
    levels.iter().filter(|level| was_left(&level.fate)).count()
}

// The faults that stay in a level, if it is built anew.
fn kept_of(fate: &Fate) -> &[KeptFault]
    ensures { result.now ≡ kept_of fate.now }
{
    match fate {
        Fate::Made(made) => &made.kept,
        Fate::NotAsked | Fate::Left(_) => &[],
    }
}

// Writes a fault that stays in the level with the name.
fn write_fault<F: Write>(name: &Name8, fault: KeptFault, errors: &mut F) -> Result<(), EditorError>
    ensures { MatchResult result
        (λ _. Appends (F.contents errors.old) (F.contents errors.new) (kept_line name.now fault))
        (λ e. e ≡ WriterFailed) }
{
    match write_shown(name.text(), errors) {
        Ok(()) => {}
        Err(error) => return Err(error),
    }
    match write!(errors, ": {fault}\n") {
        Ok(()) => Ok(()),
        Err(_) => Err(EditorError::WriterFailed),
    }
}

// Writes the faults that stay in the level with the name, a line each.
fn write_faults<F: Write>(
    name: &Name8,
    faults: &[KeptFault],
    errors: &mut F,
) -> Result<(), EditorError>
    ensures { MatchResult result
        (λ _. Appends (F.contents errors.old) (F.contents errors.new)
        (flat_map (kept_line name.now) faults.now))
        (λ e. e ≡ WriterFailed) }
{
    for fault in faults {
        match write_fault(name, *fault, errors) {
            Ok(()) => {}
            Err(error) => return Err(error),
        }
    }
    Ok(())
}

/// Writes the faults that stay in the levels that are built anew, a line each, after the level's name.
pub fn write_notes<F: Write>(levels: &[RebuiltLevel], errors: &mut F) -> Result<(), EditorError>
    ensures { MatchResult result
        (λ _. Appends (F.contents errors.old) (F.contents errors.new) (kept_notes levels.now))
        (λ e. e ≡ WriterFailed) }
{
    for level in levels {
        match write_faults(&level.name, kept_of(&level.fate), errors) {
            Ok(()) => {}
            Err(error) => return Err(error),
        }
    }
    Ok(())
}
