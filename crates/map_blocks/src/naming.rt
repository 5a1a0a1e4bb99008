//! The names in a line of a script: which it mentions, as `$NAME`, which it gives, and which it may be meant to give.
ghost use Rattle.std.specs.Prelude.{◌≡◌, ◌∷◌, [], ◌<◌, ◌==◌, ◌||◌, length, bytes_eq, option_copied, slice_index, IfSome, MatchOption};
ghost use Rattle.std.specs.List.{list_all, slice_split};
ghost use Rattle.map_script.specs.Names.{is_letter, is_script_name_byte};
ghost use Rattle.map_script.specs.Lines.{let_words, name_in};
ghost use Rattle.map_script.specs.Loops.{loop_words};
ghost use Rattle.map_script.specs.Words.{text_words};
ghost use Rattle.map_blocks.specs.Naming.{behind_dollars, front_name, gives_name, is_bare_word, is_first_name, is_name_front, is_place_front, is_that_name, may_give, parts_left, parts_names, stands_alone};

use map_script::{define_words, defined_name, first_word, let_words, loop_words};

// ---- The bytes of names

fn is_letter(b: u8) -> bool
    ensures { result ≡ is_letter b }
{
    (b'A' <= b && b <= b'Z') || (b'a' <= b && b <= b'z')
}

fn is_name_byte(b: u8) -> bool
    ensures { result ≡ is_script_name_byte b }
{
    is_letter(b) || (b'0' <= b && b <= b'9') || b == b'_'
}

// Whether a byte stands in no name, and is no `$`.
fn parts_names(b: u8) -> bool
    ensures { result ≡ parts_names b }
{
    !(is_name_byte(b) || b == b'$')
}

// ---- Names that a line mentions

/// What stands behind the first `$` of a text.
#[tactic(auto, using(crate::proofs::Mentioned::dollar_at, crate::proofs::Mentioned::no_dollar))]
pub fn next_dollar(text: &[u8]) -> Option<&[u8]>
    ensures behind { MatchOption result (behind_dollars text.now ≡ [])
        (λ t. behind_dollars text.now ≡ t.now ∷ behind_dollars t.now) }
    ensures short { IfSome result (λ t. length t.now < length text.now) }
{
    for (i, b) in text.iter().enumerate() {
        if *b == b'$' {
            return Some(&text[i + 1..]);
        }
    }
    None
}

/// The bytes of a name with which a text begins.
#[tactic(auto, using(crate::proofs::Mentioned::front_at, crate::proofs::Mentioned::front_all))]
pub fn front_name(text: &[u8]) -> &[u8]
    ensures { result.now ≡ front_name text.now }
{
    for (i, b) in text.iter().enumerate() {
        if !is_name_byte(*b) {
            return &text[..i];
        }
    }
    text
}

// Whether a byte other than 0 stands at a place of a text.
fn has_at(text: &[u8], place: usize, b: u8) -> bool
    requires { 0 < b }
    ensures { result ≡ (slice_index text.now place == b) }
{
    place < text.len() && text[place] == b
}

/// Whether behind a `$` a name stands, and not a kind before `(`.
pub fn is_name_front(text: &[u8]) -> bool
    ensures { result ≡ is_name_front text.now }
{
    let name = front_name(text);
    !name.is_empty() && !has_at(text, name.len(), b'(')
}

/// Whether behind a `$` a kind other than `thing` stands before `(`.
pub fn is_place_front(text: &[u8]) -> bool
    ensures { result ≡ is_place_front text.now }
{
    let name = front_name(text);
    has_at(text, name.len(), b'(') && name != b"thing".as_slice()
}

// Whether each byte of a text stands in a name, or is a dot.
fn are_name_bytes(text: &[u8]) -> bool
    ensures { result ≡ list_all (λ b. is_script_name_byte b || (b == 46)) text.now }
{
    text.iter().all(|b| is_name_byte(*b) || *b == b'.')
}

/// Whether a word is `$NAME` or `$NAME.KIND`, and no sum.
pub fn is_bare_word(word: &[u8]) -> bool
    ensures { result ≡ is_bare_word word.now }
{
    match word {
        [b, rest @ ..] => *b == b'$' && are_name_bytes(rest),
        [] => false,
    }
}

// ---- Names that a line gives

// The first part of a text, and what stands behind the byte that ends it, if one does.
#[tactic(auto, using(crate::proofs::Mentioned::part_at, crate::proofs::Mentioned::one_part))]
fn next_part(text: &[u8]) -> (&[u8], Option<&[u8]>)
    ensures parts { slice_split parts_names text.now
        ≡ result.0.now ∷ parts_left (option_copied result.1) }
    ensures short { IfSome result.1 (λ t. length t.now < length text.now) }
{
    for (i, b) in text.iter().enumerate() {
        if parts_names(*b) {
            return (&text[..i], Some(&text[i + 1..]));
        }
    }
    (text, None)
}

/// Whether a name stands in a line, with no `$` in front of it.
pub fn stands_alone(name: &[u8], line: &[u8]) -> bool
    ensures { result ≡ stands_alone name.now line.now }
{
    let mut rest = Some(line);
    while let Some(text) = rest {
        let (part, behind) = next_part(text);
        if part == name {
            return true;
        }
        rest = behind;
    }
    false
}

// Whether a word is a name behind a `$`.
fn is_dollared(word: &[u8], name: &[u8]) -> bool
    ensures { result ≡ bytes_eq word.now (36 ∷ name.now) }
{
    match word {
        [b'$', rest @ ..] => rest == name,
        _ => false,
    }
}

// Whether a `let` gives a name behind a `$`.
fn lets_dollared(line: &[u8], name: &[u8]) -> bool
    ensures { result ≡ is_first_name (36 ∷ name.now) (let_words (text_words line.now)) }
{
    match let_words(line) {
        Some(words) => is_dollared(first_word(words).0, name),
        None => false,
    }
}

/// Whether a line that was refused may be meant to give a name.
pub fn may_give(name: &[u8], line: &[u8]) -> bool
    ensures { result ≡ may_give name.now line.now }
{
    stands_alone(name, line) || is_dollared(first_word(line).0, name) || lets_dollared(line, name)
}

// Whether a line gives a name by `=`.
fn names_it(name: &[u8], line: &[u8]) -> bool
    ensures { result ≡ is_that_name name.now (name_in (text_words line.now)) }
{
    match defined_name(line) {
        Some(given) => given == name,
        None => false,
    }
}

// Whether a `let` gives a name.
fn lets_it(name: &[u8], line: &[u8]) -> bool
    ensures { result ≡ is_first_name name.now (let_words (text_words line.now)) }
{
    match let_words(line) {
        Some(words) => first_word(words).0 == name,
        None => false,
    }
}

// Whether a `for` gives a name.
fn counts_it(name: &[u8], line: &[u8]) -> bool
    ensures { result ≡ is_first_name name.now (loop_words (text_words line.now)) }
{
    match loop_words(line) {
        Some(words) => first_word(words).0 == name,
        None => false,
    }
}

/// Whether a line gives a name.
pub fn gives_name(name: &[u8], line: &[u8]) -> bool
    ensures { result ≡ gives_name name.now line.now }
{
    names_it(name, line)
        || lets_it(name, line)
        || counts_it(name, line)
        || (define_words(line).is_some() && stands_alone(name, line))
}
