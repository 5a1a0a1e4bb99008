//! The words of a script's line. Blanks separate them.
ghost use Rattle.std.specs.Prelude.{◌≡◌, ◌≤◌, ◌<◌, [], ◌∷◌, false, drop, length, slice_index, IfSome, MatchOption};
ghost use Rattle.map_script.specs.Words.{first_word, is_blank, text_words};

/// Whether the byte is a space or a tab.
pub fn is_blank(b: u8) -> bool
    ensures { result ≡ is_blank b }
{
    b == b' ' || b == b'\t'
}

// The text without its leading blanks.
#[tactic(auto, using(crate::proofs::Wording::blanks_more, crate::proofs::Wording::words_rest))]
fn without_blanks(text: &[u8]) -> &[u8]
    ensures words { text_words result.now ≡ text_words text.now }
    ensures short { length result.now ≤ length text.now }
    ensures begun { 0 < length result.now → is_blank (slice_index result.now 0) ≡ false }
{
    for (i, b) in text.iter().enumerate() {
        if !is_blank(*b) {
            return &text[i..];
        }
    }
    &[]
}

// The word that a text begins with, and the rest of the text.
#[tactic(auto, using(crate::proofs::Wording::word_at, crate::proofs::Wording::word_alone, crate::proofs::Wording::long_at, crate::proofs::Wording::some_at))]
fn split_word(text: &[u8]) -> (&[u8], &[u8])
    requires some { 0 < length text.now }
    requires begun { is_blank (slice_index text.now 0) ≡ false }
    ensures words { text_words text.now ≡ result.0.now ∷ text_words result.1.now }
    ensures long { 0 < length result.0.now }
    ensures short { length result.1.now < length text.now }
{
    for (i, b) in text.iter().enumerate() {
        if is_blank(*b) {
            return (&text[..i], &text[i..]);
        }
    }
    (text, &[])
}

/// The first word of a text, if it has one, and the rest of the text.
pub fn next_word(text: &[u8]) -> Option<(&[u8], &[u8])>
    ensures words { MatchOption result (text_words text.now ≡ [])
        (λ p. text_words text.now ≡ p.0.now ∷ text_words p.1.now) }
    ensures long { IfSome result (λ p. 0 < length p.0.now) }
    ensures short { IfSome result (λ p. length p.1.now < length text.now) }
{
    let begun = without_blanks(text);
    if begun.is_empty() {
        return None;
    }
    Some(split_word(begun))
}

/// The first word of a text, empty if it has none, and what stands behind it.
pub fn first_word(text: &[u8]) -> (&[u8], &[u8])
    ensures first { result.0.now ≡ first_word (text_words text.now) }
    ensures rest { text_words result.1.now ≡ drop 1 (text_words text.now) }
{
    match next_word(text) {
        Some(parts) => parts,
        None => (&[], text),
    }
}
