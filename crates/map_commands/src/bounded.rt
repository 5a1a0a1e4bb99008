//! A word that is a number between two bounds.
ghost use Rattle.std.specs.Prelude.{◌≡◌, IfOk};
ghost use Rattle.std.specs.Fmt.{signed_decimal};
ghost use Rattle.lump_records.specs.Drawing.{IsBetween};
ghost use Rattle.map_commands.specs.Errors.{TellsFault};
ghost use Rattle.map_commands.specs.Places.{Number, place_fault};
ghost use Rattle.map_words.specs.Words.{numeral_value};

use crate::error::CommandError;
use map_words::numeral_in;

/// Reads a word as a number between two bounds.
pub fn number_in(word: &[u8], low: i16, high: i16) -> Result<i16, CommandError>
    ensures found { IfOk result (λ n. (numeral_value word.now ≡ n)
        × (signed_decimal n ≡ word.now) × IsBetween low high n) }
    ensures fault { TellsFault result (place_fault (Number low high) word.now) }
{
    match numeral_in(word) {
        Some(n) if i32::from(low) <= n && n <= i32::from(high) => Ok(n as i16),
        Some(_) => Err(CommandError::OutOfRange),
        None => Err(CommandError::NotACommand),
    }
}
