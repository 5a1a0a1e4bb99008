//! Of what a number is the number, and the kinds of the numbers in each command.
ghost use Rattle.std.specs.Prelude.{◌≡◌, ◌∷◌, ◌<◌, [], None, IfSome};
ghost use Rattle.map_script.specs.Referents.{answered_kind, command_answer, command_places, numbers_at, referent_of, shape_answer, wall_place, wanted_by, wanted_in};
ghost use Rattle.map_script.specs.Words.{text_words};

use crate::words::first_word;
use map_commands::{head_answer, head_in, head_numbers, kind_in};
use map_tables::Kind;

/// Of what a number is the number.
#[derive(Clone, Copy)]
pub enum Referent {
    /// Of nothing that is known.
    Nothing,
    /// Of an item of a kind.
    Item(Kind),
    /// Of the sector of a room, whose walls have names.
    Room,
}

/// A number that a command answered, and the kind of the item of which it is the number.
#[derive(Clone, Copy)]
pub struct Answer {
    pub number: u32,
    pub kind: Option<Kind>,
}

// The number of an item, by its kind.
const VERTEX: Option<Kind> = Some(Kind::Vertex);

const SECTOR: Option<Kind> = Some(Kind::Sector);

const SIDE: Option<Kind> = Some(Kind::Side);

const LINE: Option<Kind> = Some(Kind::Line);

const THING: Option<Kind> = Some(Kind::Thing);

// A first word, and the number of a sector.
const SECTOR_NUMBER: &[Option<Kind>] = &[None, SECTOR];

// A first word, KIND and the number of an item.
const KIND_VERTEX: &[Option<Kind>] = &[None, None, VERTEX];

const KIND_SECTOR: &[Option<Kind>] = &[None, None, SECTOR];

const KIND_SIDE: &[Option<Kind>] = &[None, None, SIDE];

const KIND_LINE: &[Option<Kind>] = &[None, None, LINE];

const KIND_THING: &[Option<Kind>] = &[None, None, THING];

const NO_KIND: &[Option<Kind>] = &[None, None, None];

const NO_PLACES: &[Option<Kind>] = &[];

impl Referent {
    ghost use Rattle.std.specs.Prelude.{◌≡◌};
    ghost use Rattle.map_script.specs.Referents.{kind_referred, of_kind};

    /// The kind of the item, if it is known.
    pub fn kind(&self) -> Option<Kind>
        ensures { result ≡ kind_referred self.now }
    {
        match self {
            Referent::Nothing => None,
            Referent::Item(kind) => Some(*kind),
            Referent::Room => Some(Kind::Sector),
        }
    }

    /// An item of a kind, if there is one.
    pub fn of_kind(kind: Option<Kind>) -> Self
        ensures { result ≡ of_kind kind }
    {
        match kind {
            Some(kind) => Referent::Item(kind),
            None => Referent::Nothing,
        }
    }
}

// The kind of the item whose number a shape answers, by its first word.
fn shape_answer(word: &[u8]) -> Option<Kind>
    ensures { result ≡ shape_answer word.now }
{
    if word == b"pillar".as_slice() {
        LINE
    } else if word == b"area".as_slice() || word == b"door".as_slice() {
        SECTOR
    } else {
        None
    }
}

// The kind of the item whose number a line answers, by its first word.
fn command_answer(word: &[u8]) -> Option<Kind>
    ensures { result ≡ command_answer word.now }
{
    match head_in(word) {
        Some(head) => head_answer(head),
        None => shape_answer(word),
    }
}

// The kind of the item whose number a command of these two first words answers.
fn answered_kind(first: &[u8], second: &[u8]) -> Option<Kind>
    ensures { result ≡ answered_kind first.now second.now }
{
    if first == b"change".as_slice() {
        kind_in(second)
    } else {
        command_answer(first)
    }
}

/// Of what the number is that a line answers. The line has its names and sums resolved.
pub fn referent_of(line: &[u8]) -> Referent
    ensures { result ≡ referent_of (text_words line.now) }
{
    let (first, rest) = first_word(line);
    if first == b"room".as_slice() {
        return Referent::Room;
    }
    let (second, _) = first_word(rest);
    Referent::of_kind(answered_kind(first, second))
}

// A first word, KIND and the number of an item of that kind.
fn kind_and_number(kind: Option<Kind>) -> &'static [Option<Kind>]
    ensures { result.now ≡ None ∷ None ∷ kind ∷ [] }
{
    match kind {
        Some(Kind::Vertex) => KIND_VERTEX,
        Some(Kind::Sector) => KIND_SECTOR,
        Some(Kind::Side) => KIND_SIDE,
        Some(Kind::Line) => KIND_LINE,
        Some(Kind::Thing) => KIND_THING,
        None => NO_KIND,
    }
}

// The kinds of the items whose numbers the words of a shape are, by its first word.
fn shape_places(word: &[u8]) -> &'static [Option<Kind>]
    ensures { result.now ≡ numbers_at None word.now }
{
    if word == b"door".as_slice() {
        SECTOR_NUMBER
    } else {
        NO_PLACES
    }
}

// The kinds of the items whose numbers the words of a line are, by its first word.
fn command_places(word: &[u8]) -> &'static [Option<Kind>]
    ensures { result.now ≡ command_places word.now }
{
    match head_in(word) {
        Some(head) => head_numbers(head),
        None => shape_places(word),
    }
}

// The kinds of the items whose numbers the words of a command are, by its first two.
fn wanted_by(first: &[u8], second: &[u8]) -> &'static [Option<Kind>]
    ensures { result.now ≡ wanted_by first.now second.now }
{
    if first == b"drop".as_slice() || first == b"change".as_slice() {
        kind_and_number(kind_in(second))
    } else {
        command_places(first)
    }
}

/// The kinds of the items whose numbers the words of a line are, word by word; a word behind these is none.
pub fn wanted_in(line: &[u8]) -> &'static [Option<Kind>]
    ensures { result.now ≡ wanted_in (text_words line.now) }
{
    let (first, rest) = first_word(line);
    let (second, _) = first_word(rest);
    wanted_by(first, second)
}

/// Which of a room's four lines is the wall that a word names: they go from the lower left corner to the upper left,
/// the upper right and the lower right one.
pub fn wall_place(word: &[u8]) -> Option<u8>
    ensures place { result ≡ wall_place word.now }
    ensures few { IfSome result (λ place. place < 4) }
{
    if word == b"west".as_slice() {
        Some(0)
    } else if word == b"north".as_slice() {
        Some(1)
    } else if word == b"east".as_slice() {
        Some(2)
    } else if word == b"south".as_slice() {
        Some(3)
    } else {
        None
    }
}
