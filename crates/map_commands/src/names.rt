//! Words that are names: of textures, flats and maps.
ghost use Rattle.std.specs.Prelude.{◌≡◌, IfOk, None, Some};
ghost use Rattle.std.specs.Str.{IsUtf8};
ghost use Rattle.map_commands.specs.Errors.{TellsFault};
ghost use Rattle.map_commands.specs.Places.{Named, place_fault};
ghost use Rattle.lump_records.specs.Names.{IsNamed, is_marker, is_name, name_text};

use crate::error::CommandError;
use lump_records::{Name8, is_marker, is_name};
use map_words::has_word_form;
use std::str;

/// `-`: no texture.
pub const NO_TEXTURE: Name8 = Name8 {
    bytes: *b"-\0\0\0\0\0\0\0",
};

/// The name of a game's first map.
pub const FIRST_MAP: Name8 = Name8 {
    bytes: *b"MAP01\0\0\0",
};

/// Reads a word as the name of a flat or a texture.
pub fn name_in(word: &[u8]) -> Result<Name8, CommandError>
    ensures found { IfOk result (λ n. (name_text n ≡ word.now) × IsNamed is_name n) }
    ensures fault { TellsFault result (place_fault (Named is_name) word.now) }
{
    // the most common name first
    if word == b"-".as_slice() {
        return Ok(NO_TEXTURE);
    }
    // a name is always a word, so only what is not a name needs the second test
    if is_name(word) {
        return Ok(Name8::from_text(word));
    }
    if has_word_form(word) {
        Err(CommandError::BadName)
    } else {
        Err(CommandError::NotACommand)
    }
}

/// Reads a word as the name of a map.
pub fn marker_in(word: &[u8]) -> Result<Name8, CommandError>
    ensures found { IfOk result (λ n. (name_text n ≡ word.now) × IsNamed is_marker n) }
    ensures fault { TellsFault result (place_fault (Named is_marker) word.now) }
{
    if !has_word_form(word) {
        return Err(CommandError::NotACommand);
    }
    if is_marker(word) {
        Ok(Name8::from_text(word))
    } else {
        Err(CommandError::BadName)
    }
}

/// The text of a name.
pub fn text_of(name: &Name8) -> &str
    requires { IsUtf8 (name_text name.now) }
    ensures { result.now ≡ name_text name.now }
{
    match str::from_utf8(name.text()) {
        Ok(text) => text,
        Err(_) => unreachable!(),
    }
}
