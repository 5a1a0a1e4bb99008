//! The parts of a line between its spaces.
ghost use Rattle.std.specs.Prelude.{◌≡◌, ◌∷◌, ◌<◌, IfSome, length, option_copied};
ghost use Rattle.std.specs.List.{list_all};
ghost use Rattle.map_words.specs.Words.{is_printable, is_word, parts, parts_behind};

// Whether each byte is printable and not a space.
fn are_printable(bytes: &[u8]) -> bool
    ensures { result ≡ list_all is_printable bytes.now }
{
    bytes.iter().all(|b| b'!' <= *b && *b <= b'~')
}

/// Whether the bytes are a word.
pub fn has_word_form(bytes: &[u8]) -> bool
    ensures { result ≡ is_word bytes.now }
{
    !bytes.is_empty() && are_printable(bytes)
}

/// The part before the first space, and what follows that space, if there is one.
pub fn next_part(line: &[u8]) -> (&[u8], Option<&[u8]>)
    ensures parts { parts line.now ≡ result.0.now ∷ parts_behind (option_copied result.1) }
    ensures short { IfSome result.1 (λ rest. length rest.now < length line.now) }
{
    for (i, b) in line.iter().enumerate() {
        if *b == b' ' {
            return (&line[..i], Some(&line[i + 1..]));
        }
    }
    (line, None)
}
