//! A name as text.
ghost use Rattle.std.specs.Prelude.{◌≡◌};
ghost use Rattle.map_lint.specs.Surfaces.{name_shown};

use lump_records::Name8;
use std::str;

/// The name's text, or `?` if its bytes are no text, as those of a map's name always are.
pub(crate) fn name_shown(name: &Name8) -> &str
    ensures { result.now ≡ name_shown name.now }
{
    match str::from_utf8(name.text()) {
        Ok(text) => text,
        Err(_) => "?",
    }
}
