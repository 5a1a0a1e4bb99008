//! How a name that may hold any bytes is shown.
ghost use Rattle.std.specs.Prelude.{◌≡◌, MatchResult, map};
ghost use Rattle.std.specs.Io.KnownBytes.{Appends};
ghost use Rattle.run_edit.specs.declared.error.EditorError.TheVariants.{WriterFailed};
ghost use Rattle.cli_print.specs.ShownNames.{shown};

use run_edit::EditorError;
use std::io::Write;

// A byte of a name as it is shown: `?` if it is no visible character.
fn shown(byte: u8) -> u8
    ensures { result ≡ shown byte }
{
    if 33 <= byte && byte <= 126 {
        byte
    } else {
        b'?'
    }
}

/// Writes the bytes of a name as they are shown.
pub fn write_shown<W: Write>(name: &[u8], writer: &mut W) -> Result<(), EditorError>
    ensures { MatchResult result
        (λ _. Appends (W.contents writer.old) (W.contents writer.new) (map shown name.now))
        (λ e. e ≡ WriterFailed) }
{
    for byte in name {
        match writer.write_all(&[shown(*byte)]) {
            Ok(()) => {}
            Err(_) => return Err(EditorError::WriterFailed),
        }
    }
    Ok(())
}
