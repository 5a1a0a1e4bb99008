//! Writes the answers `ok N` and `no CODE`.
ghost use Rattle.std.specs.Prelude.{◌≡◌, MatchResult};
ghost use Rattle.std.specs.Io.KnownBytes.{Appends};
ghost use Rattle.run_edit.specs.declared.error.EditorError.TheVariants.{WriterFailed};
ghost use Rattle.run_edit.specs.Texts.{outcome_text};

use crate::error::EditorError;
use std::io::Write;

/// Writes the outcome of a line: `ok N` for a number, `no CODE` for a refusal's code.
pub fn write_outcome<W: Write>(outcome: Result<u32, u16>, writer: &mut W) -> Result<(), EditorError>
    ensures { MatchResult result
        (λ _. Appends (W.contents writer.old) (W.contents writer.new) (outcome_text outcome))
        (λ e. e ≡ WriterFailed) }
{
    let written = match outcome {
        Ok(number) => write!(writer, "ok {number}\n"),
        Err(code) => write!(writer, "no {code}\n"),
    };
    match written {
        Ok(()) => Ok(()),
        Err(_) => Err(EditorError::WriterFailed),
    }
}
