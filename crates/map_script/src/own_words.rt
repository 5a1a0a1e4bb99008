//! The words of the script language itself.
ghost use Rattle.std.specs.Prelude.{◌≡◌, bytes_eq};
ghost use Rattle.std.specs.List.{list_any};
ghost use Rattle.map_script.specs.Own.{is_own_word};

use map_commands::head_in;

/// The first words of the lines of a script other than commands of the current map.
pub const OWN_WORDS: &[&[u8]] = &[
    b"map",
    b"drop-map",
    b"check",
    b"count",
    b"maps",
    b"build",
    b"hex",
    b"area",
    b"pillar",
    b"door",
    b"change",
    b"let",
    b"for",
    b"define",
    b"at",
    b"end",
    b"include",
];

// Whether a word is one of some words.
fn is_among(words: &[&[u8]], word: &[u8]) -> bool
    ensures { result ≡ list_any (λ own. bytes_eq own.now word.now) words.now }
{
    words.iter().any(|own| *own == word)
}

/// Whether a word is one of the script language itself: no `let` gives one of them as a name.
#[tactic(auto, unfolding(crate::specs::Own::is_own_word))]
pub fn is_own_word(word: &[u8]) -> bool
    ensures { result ≡ is_own_word word.now }
{
    head_in(word).is_some() || is_among(OWN_WORDS, word)
}
