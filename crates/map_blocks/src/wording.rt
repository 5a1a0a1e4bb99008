//! The words of lines and forms, one after the other.
ghost use Rattle.std.specs.Prelude.{◌≡◌, ◌∷◌, [], ◌<◌, length, IfSome, MatchOption};
ghost use Rattle.map_script.specs.Defines.{are_as_many};
ghost use Rattle.map_script.specs.Words.{text_words};

use map_script::first_word;

/// The first word of a text, if it has one, and what stands behind it.
pub fn next_word(text: &[u8]) -> Option<(&[u8], &[u8])>
    ensures words { MatchOption result (text_words text.now ≡ [])
        (λ p. text_words text.now ≡ p.0.now ∷ text_words p.1.now) }
{
    let (word, rest) = first_word(text);
    if word.is_empty() {
        None
    } else {
        Some((word, rest))
    }
}

/// Whether two texts have as many words.
pub fn are_as_many(one: &[u8], other: &[u8]) -> bool
    ensures { result ≡ are_as_many (text_words one.now) (text_words other.now) }
{
    let mut left = one;
    let mut right = other;
    while let Some((_, rest)) = next_word(left) {
        match next_word(right) {
            Some((_, behind)) => right = behind,
            None => return false,
        }
        left = rest;
    }
    next_word(right).is_none()
}
