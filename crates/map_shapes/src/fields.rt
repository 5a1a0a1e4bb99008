//! The fields of items by their names, and the words `NAME=VALUE` of a change.
ghost use Rattle.std.specs.Prelude.{◌≡◌, ◌<◌, ◌∷◌, ◌++◌, ◌==◌, length, position, IfOk, IfSome, MatchOption, None, Some, bytes_eq, option_copied};
ghost use Rattle.std.specs.List.{list_any};
ghost use Rattle.map_commands.specs.Grammar.{head_word};
ghost use Rattle.map_words.specs.Words.{parts, parts_behind};
ghost use Rattle.map_shapes.specs.Changes.{are_fields, changed_line, field_text, is_new_field, pair_of, sample_text, setting, value_if, value_in, with_values};
ghost use Rattle.map_shapes.specs.Texts.{and_words};

use map_commands::{Head, head_text};
use map_tables::Kind;
use map_words::next_part;
use std::alloc::{AllocError, Global};

// The first word of the command that changes an item.
fn setting(kind: Kind) -> Head
    ensures { result ≡ setting kind }
{
    match kind {
        Kind::Vertex => Head::MoveVertex,
        Kind::Sector => Head::SetSector,
        Kind::Side => Head::SetSide,
        Kind::Line => Head::SetLine,
        Kind::Thing => Head::SetThing,
    }
}

/// The names of an item's words, in their order.
pub fn field_text(kind: Kind) -> &'static str
    ensures { result.now ≡ field_text kind }
{
    match kind {
        Kind::Vertex => "X Y",
        Kind::Sector => "F C FN CN LIGHT SPECIAL TAG",
        Kind::Side => "XO YO UP LOW MID SECTOR",
        Kind::Line => "V1 V2 FLAGS SPECIAL TAG RIGHT LEFT",
        Kind::Thing => "X Y ANGLE TYPE OPTIONS",
    }
}

/// Words of an item of which each is in its range.
pub fn sample_text(kind: Kind) -> &'static str
    ensures { result.now ≡ sample_text kind }
{
    match kind {
        Kind::Vertex => "0 0",
        Kind::Sector => "0 0 - - 0 0 0",
        Kind::Side => "0 0 - - - 0",
        Kind::Line => "0 0 0 0 0 0 -",
        Kind::Thing => "0 0 0 0 0",
    }
}

// The index of the first `=`.
fn place_of_sign(word: &[u8]) -> Option<usize>
    ensures place { result ≡ position (λ b. b == 61) word.now }
    ensures within { IfSome result (λ i. i < length word.now) }
{
    word.iter().position(|b| *b == b'=')
}

// NAME and VALUE of NAME=VALUE.
fn pair_of(word: &[u8]) -> Option<(&[u8], &[u8])>
    ensures { MatchOption result (pair_of word.now ≡ None)
        (λ pair. pair_of word.now ≡ Some (pair.0.now, pair.1.now)) }
{
    match place_of_sign(word) {
        Some(i) => Some((&word[..i], &word[i + 1..])),
        None => None,
    }
}

// The VALUE of a word, if it is NAME=VALUE with this NAME.
fn value_at<'a>(word: &'a [u8], name: &[u8]) -> Option<&'a [u8]>
    ensures { option_copied result ≡ value_if name.now (pair_of word.now) }
{
    match pair_of(word) {
        Some((other, value)) => if other == name { Some(value) } else { None },
        None => None,
    }
}

// The VALUE of a NAME among some words, if there are any.
fn value_behind<'a>(fields: Option<&'a [u8]>, name: &[u8]) -> Option<&'a [u8]>
    ensures { option_copied result ≡ value_in (parts_behind (option_copied fields.entry)) name.now }
{
    let mut rest = fields;
    while let Some(line) = rest {
        let (word, behind) = next_part(line);
        let value = value_at(word, name);
        if value.is_some() {
            return value;
        }
        rest = behind;
    }
    None
}

// Whether this is one of the names.
fn has_name(names: &str, name: &[u8]) -> bool
    ensures { result ≡ list_any (λ other. bytes_eq name.now other) (parts names.now) }
{
    let mut rest = Some(names.as_bytes());
    while let Some(line) = rest {
        let (word, behind) = next_part(line);
        if name == word {
            return true;
        }
        rest = behind;
    }
    false
}

// Whether a word is NAME=VALUE with one of these names, and no later word has that NAME too.
fn is_new_field(names: &str, word: &[u8], later: Option<&[u8]>) -> bool
    ensures { result ≡ is_new_field (parts names.now)
        (parts_behind (option_copied later.entry)) (pair_of word.now) }
{
    match pair_of(word) {
        Some((name, _)) => has_name(names, name) && value_behind(later, name).is_none(),
        None => false,
    }
}

/// Whether each word is NAME=VALUE with the NAME of a field, none twice.
pub fn are_fields(kind: Kind, fields: &[u8]) -> bool
    ensures { result ≡ are_fields (parts (field_text kind)) (parts fields.now) }
{
    let names = field_text(kind);
    let mut rest = Some(fields);
    while let Some(line) = rest {
        let (word, behind) = next_part(line);
        if !is_new_field(names, word, behind) {
            return false;
        }
        rest = behind;
    }
    true
}

// Appends a space and a word.
fn put_word(text: &mut Vec<u8>, word: &[u8]) -> Result<(), AllocError>
    ensures { IfOk result (λ _. text.new.items ≡ text.old.items ++ 32 ∷ word.now) }
{
    text.push(b' ')?;
    text.extend_from_slice(word)?;
    Ok(())
}

// Appends an item's words, with the VALUE of each NAME in place of the word that has the name.
fn put_values(
    text: &mut Vec<u8>,
    names: &[u8],
    words: &[u8],
    fields: &[u8],
) -> Result<(), AllocError>
    ensures { IfOk result (λ _. text.new.items ≡ and_words text.old.items
        (with_values (parts fields.now) (parts names.now) (parts words.now))) }
{
    let mut names_left = Some(names);
    let mut words_left = Some(words);
    while let Some(some_names) = names_left {
        let some_words = match words_left {
            Some(some_words) => some_words,
            None => return Ok(()),
        };
        let (name, names_behind) = next_part(some_names);
        let (word, words_behind) = next_part(some_words);
        put_word(text, value_behind(Some(fields), name).unwrap_or(word))?;
        names_left = names_behind;
        words_left = words_behind;
    }
    Ok(())
}

/// The line that gives the item with this number these words, but for the VALUEs.
pub fn changed_line(
    alloc: Global,
    kind: Kind,
    number: u16,
    words: &[u8],
    fields: &[u8],
) -> Result<Vec<u8>, AllocError>
    ensures { IfOk result (λ line. line.items
        ≡ changed_line kind number (parts fields.now) (parts words.now)) }
{
    let mut text = head_text(setting(kind)).as_bytes().to_vec(alloc)?;
    let digits = format!(in alloc; "{number}")?;
    put_word(&mut text, digits.as_bytes())?;
    put_values(&mut text, field_text(kind).as_bytes(), words, fields)?;
    Ok(text)
}
