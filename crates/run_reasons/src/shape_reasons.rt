//! Says what was wrong with a line of a shape.
ghost use Rattle.std.specs.Prelude.{All};
ghost use Rattle.map_commands.specs.Step.{InRange};

use crate::forms::{first_word, is_near};
use crate::unfit::unfit;
use map_commands::{Command, ProjectCommand, kind_in, print};
use map_shapes::{ShapeError, ShapeHead, commands_of, field_text, form_text, read_shape};
use map_tables::Map;
use std::alloc::{AllocError, Global};

// The places of a shape's words, and the words, so many of the one as of the other.
#[derive(Drop)]
pub struct Places {
    pub form: String,
    pub text: String,
}

// The first words of shapes.
const HEADS: [ShapeHead; 4] = [
    ShapeHead::Area,
    ShapeHead::Pillar,
    ShapeHead::Door,
    ShapeHead::Change,
];

/// The form of the shape that is probably meant by a first word.
pub fn shape_near(first: &str) -> Option<&'static str> {
    for head in HEADS {
        let form = form_text(head);
        if is_near(first, form) {
            return Some(form);
        }
    }
    None
}

/// What is meant by a line that begins as a shape and is none.
pub fn meant_shape(alloc: Global, text: &str, head: ShapeHead) -> Result<String, AllocError> {
    let places = places_of(alloc, text, head)?;
    if let Some(told) = unfit(alloc, &places.text, &places.form)? {
        return Ok(told);
    }
    let form = form_text(head);
    if let ShapeHead::Change = head {
        if let Some(word) = text.split(' ').nth(1) {
            if let Some(kind) = kind_in(word.as_bytes()) {
                let names = field_text(kind);
                return format!(in alloc;
                    "{form} has for a {word} one or more of {names}, each once, without blanks round the ="
                );
            }
        }
    }
    format!(in alloc; "a word is missing, is too many or hasn't the form of its place in: {form}")
}

// Adds a place and a word of it.
fn put(places: &mut Places, place: &str, word: &str) -> Result<(), AllocError> {
    places.form.push_str(" ")?;
    places.form.push_str(place)?;
    places.text.push_str(" ")?;
    places.text.push_str(word)?;
    Ok(())
}

// Adds NAME=VALUE as the place NAME and the word VALUE.
fn put_field(places: &mut Places, word: &str) -> Result<(), AllocError> {
    match word.split_once('=') {
        Some((name, value)) => put(places, name, value),
        None => put(places, "NAME", word),
    }
}

// The names of the places in front of those that repeat. That of a KIND is in small letters, as the first word of a
// form is: what stands there is no name of a flat or a texture.
fn front(head: ShapeHead) -> &'static str {
    match head {
        ShapeHead::Area => "F C FN CN WALL LIGHT",
        ShapeHead::Pillar => "WALL",
        ShapeHead::Door => "SECTOR FACE TRACK SPECIAL",
        ShapeHead::Change => "kind NUMBER",
    }
}

/// The places of a shape's words, a name for each word, and the words: a VALUE in place of NAME=VALUE.
pub fn places_of(alloc: Global, text: &str, head: ShapeHead) -> Result<Places, AllocError> {
    let first = first_word(text);
    let mut places = Places {
        form: first.to_owned(alloc)?,
        text: first.to_owned(alloc)?,
    };
    let mut names = front(head).split(' ');
    let mut is_x = true;
    for word in text.split(' ').skip(1) {
        match (names.next(), head) {
            (Some(name), _) => put(&mut places, name, word)?,
            (None, ShapeHead::Change) => put_field(&mut places, word)?,
            (None, _) => {
                put(&mut places, if is_x { "X" } else { "Y" }, word)?;
                is_x = !is_x;
            }
        }
    }
    Ok(places)
}

// The first command of some, as a line.
fn first_line(alloc: Global, commands: &[Command]) -> Result<Option<Vec<u8>>, ShapeError>
    requires { All InRange commands.now }
{
    match commands {
        [first, ..] => Ok(Some(print(alloc, &ProjectCommand::Current(*first))?)),
        [] => Ok(None),
    }
}

/// The first command of a shape, as a line, or why the map refuses the shape.
pub fn decide(alloc: Global, map: &Map, text: &[u8]) -> Result<Option<Vec<u8>>, ShapeError> {
    let shape = read_shape(alloc, text)?;
    let commands = commands_of(alloc, map, &shape)?;
    first_line(alloc, &commands)
}
