//! What becomes of lines that were decided together, and the answers that they get then.
ghost use Rattle.std.specs.Prelude.{◌≡◌, MatchResult, flat_map};
ghost use Rattle.std.specs.Io.KnownBytes.{Appends};
ghost use Rattle.run_edit.specs.declared.error.EditorError.TheVariants.{WriterFailed};
ghost use Rattle.run_edit.specs.Groups.{fate_behind, settled_outcomes, told_as};
ghost use Rattle.run_edit.specs.Texts.{outcome_text};

use crate::error::EditorError;
use crate::outcome::write_outcome;
use std::io::Write;
use store_project::ProjectError;

/// What becomes of a line that was decided with others.
#[derive(Clone, Copy)]
pub enum Fate {
    /// It is on the disk, if it was accepted.
    Kept,
    /// It isn't, nor is any other of them.
    Lost,
    /// The same, and a line before it was answered `no 30`.
    Stuck,
}

// The outcome as it is answered.
fn told_as(fate: Fate, outcome: Result<u32, u16>) -> Result<u32, u16>
    ensures { result ≡ told_as fate outcome }
{
    match (fate, outcome) {
        (Fate::Kept, _) | (Fate::Lost, Err(_)) => outcome,
        (Fate::Lost, Ok(_)) => Err(ProjectError::Device.code()),
        (Fate::Stuck, _) => Err(ProjectError::Reopen.code()),
    }
}

// What becomes of the lines behind one with this outcome.
fn fate_behind(fate: Fate, outcome: Result<u32, u16>) -> Fate
    ensures { result ≡ fate_behind fate outcome }
{
    match (fate, outcome) {
        (Fate::Lost, Ok(_)) => Fate::Stuck,
        _ => fate,
    }
}

/// Writes the answers to lines that were decided with these outcomes.
pub fn write_settled<W: Write>(
    fate: Fate,
    outcomes: &[Result<u32, u16>],
    writer: &mut W,
) -> Result<(), EditorError>
    ensures { MatchResult result
        (λ _. Appends (W.contents writer.old) (W.contents writer.new)
        (flat_map outcome_text (settled_outcomes fate outcomes.now)))
        (λ e. e ≡ WriterFailed) }
{
    let mut next = fate;
    for outcome in outcomes {
        match write_outcome(told_as(next, *outcome), writer) {
            Ok(()) => {}
            Err(error) => return Err(error),
        }
        next = fate_behind(next, *outcome);
    }
    Ok(())
}
