//! What answers lines one by one, and tells which code a refused command got.
ghost use Rattle.std.specs.Prelude.{◌≡◌, ℕ, List, MatchResult, take};
ghost use Rattle.std.specs.Io.KnownBytes.{Appends};
ghost use Rattle.run_edit.specs.declared.error.EditorError.TheVariants.{WriterFailed};
ghost use Rattle.run_edit.specs.Answers.{RepliesInMemory};
ghost use Rattle.run_edit.specs.Editing.{RepliesInProject};
ghost use Rattle.run_edit.specs.Spoken.{RepliesTo, TellsCode, refusal_in};
ghost use Rattle.run_edit.specs.Texts.{outcome_text};

use crate::drawing::{self, Drawing};
use crate::editing::{self, change};
use crate::error::EditorError;
use crate::outcome::write_outcome;
use crate::query::read_query;
use map_tables::Maps;
use std::alloc::Global;
use std::io::Write;
use store_disk::Disk;
use store_project::Project;

/// A project, or maps in memory, that answers lines one by one.
pub trait Spoken {
    // What may be answered to a line, and the state after it.
    ghost answers: { Self → List ℕ → List ℕ → Self → Type 0 };

    /// Answers a line at once, and returns the code that a refused command got. `line` is at most its first 257 bytes.
    ///
    /// # Errors
    ///
    /// Only `WriterFailed`; the line's command may then have been done.
    fn reply<W: Write>(
        &mut self,
        alloc: Global,
        line: &[u8],
        writer: &mut W,
    ) -> Result<Option<u16>, EditorError>
        ensures { (whole : List ℕ) → line.now ≡ take 257 whole
            → RepliesTo answers result self.old self.new whole
            (W.contents writer.old) (W.contents writer.new) };

    /// The maps as they are.
    fn maps_now(&self) -> &Maps;
}

// The code of an outcome, if it is a refusal.
fn refusal_in(outcome: Result<u32, u16>) -> Option<u16>
    ensures { result ≡ refusal_in outcome }
{
    match outcome {
        Ok(_) => None,
        Err(code) => Some(code),
    }
}

// Writes the outcome of a command, and returns its code if it is a refusal.
fn write_told<W: Write>(
    outcome: Result<u32, u16>,
    writer: &mut W,
) -> Result<Option<u16>, EditorError>
    ensures { MatchResult result
        (λ refusal. Appends (W.contents writer.old) (W.contents writer.new) (outcome_text outcome)
        × TellsCode refusal (outcome_text outcome))
        (λ e. e ≡ WriterFailed) }
{
    match write_outcome(outcome, writer) {
        Ok(()) => Ok(refusal_in(outcome)),
        Err(error) => Err(error),
    }
}

impl<D: Disk> Spoken for Project<D> {
    ghost answers = { RepliesInProject D.Disk };

    fn reply<W: Write>(
        &mut self,
        alloc: Global,
        line: &[u8],
        writer: &mut W,
    ) -> Result<Option<u16>, EditorError> {
        let Some(_) = read_query(line) else {
            let outcome = change(self, line);
            return write_told(outcome, writer);
        };
        match editing::answer_line(alloc, self, line, writer) {
            Ok(()) => Ok(None),
            Err(error) => Err(error),
        }
    }

    fn maps_now(&self) -> &Maps {
        self.maps()
    }
}

impl Spoken for Drawing {
    ghost answers = { RepliesInMemory 2007002 };

    fn reply<W: Write>(
        &mut self,
        alloc: Global,
        line: &[u8],
        writer: &mut W,
    ) -> Result<Option<u16>, EditorError> {
        let Some(_) = read_query(line) else {
            let outcome = self.change(line);
            return write_told(outcome, writer);
        };
        match drawing::answer_line(alloc, self, line, writer) {
            Ok(()) => Ok(None),
            Err(error) => Err(error),
        }
    }

    fn maps_now(&self) -> &Maps {
        self.maps()
    }
}
