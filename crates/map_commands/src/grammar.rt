//! The lines of the commands of a map: the first word of each and what stands behind it, how a line is read as a
//! command, and how a command is printed as a line.
ghost use Rattle.std.specs.Prelude.{◌≡◌, ◌∷◌, None, IfOk, IfSome, IsOkUnless, bytes_eq, option_copied};
ghost use Rattle.std.specs.List.{join_with_byte};
ghost use Rattle.map_commands.specs.Step.{InRange};
ghost use Rattle.map_commands.specs.Errors.{TellsFault};
ghost use Rattle.map_commands.specs.Grammar.{command_fault, fault_behind, head_answer, head_for, head_layout, head_numbers, head_of, head_puts_vertex, head_word, spelling, words_behind, words_of};
ghost use Rattle.map_commands.specs.Spelling.{add_head, set_head};
ghost use Rattle.map_commands.specs.Views.{Adds, reading, written};
ghost use Rattle.map_words.specs.Words.{parts_behind};

use crate::command::{Command, LineSplit};
use crate::deed::Deed;
use crate::error::CommandError;
use crate::layout::Layout;
use crate::numbers::{
    LINE_FIELDS, LINE_NUMBER, NO_NUMBERS, SECTOR_NUMBER, SET_LINE_FIELDS, SET_SIDE_FIELDS,
    SIDE_FIELDS, THING_NUMBER, VERTEX_NUMBER,
};
use crate::text::Text;
use crate::unread::UnreadWords;
use map_tables::{Edit, Item, Kind};
use std::alloc::{AllocError, Global};

/// The first word of a command, which decides what follows it.
#[derive(Clone, Copy)]
pub enum Head {
    Name,
    Vertex,
    Sector,
    Side,
    Line,
    Thing,
    MoveVertex,
    SetSector,
    SetSide,
    SetLine,
    SetThing,
    Drop,
    Room,
    Split,
}

// ---- First words

/// The form of each command of a project, as people see it: its first word, then a name for each further word.
pub const FORMS: &[&[u8]] = &[
    b"name MARKER",
    b"map MARKER",
    b"drop-map MARKER",
    b"vertex X Y",
    b"sector F C FN CN LIGHT SPECIAL TAG",
    b"side XO YO UP LOW MID SECTOR",
    b"line V1 V2 FLAGS SPECIAL TAG RIGHT LEFT",
    b"thing X Y ANGLE TYPE OPTIONS",
    b"move-vertex VERTEX X Y",
    b"set-sector SECTOR F C FN CN LIGHT SPECIAL TAG",
    b"set-side SIDE XO YO UP LOW MID SECTOR",
    b"set-line LINE V1 V2 FLAGS SPECIAL TAG RIGHT LEFT",
    b"set-thing THING X Y ANGLE TYPE OPTIONS",
    b"drop KIND NUMBER",
    b"room X1 Y1 X2 Y2 F C FN CN WALL LIGHT",
    b"split LINE X Y",
];

/// What each command of a project does to the maps, by its first word.
pub const DEEDS: &[(&[u8], Deed)] = &[
    (b"name", Deed::Turns),
    (b"map", Deed::Turns),
    (b"drop-map", Deed::Turns),
    (b"vertex", Deed::Draws),
    (b"sector", Deed::AddsSector),
    (b"side", Deed::Draws),
    (b"line", Deed::Draws),
    (b"thing", Deed::AddsThing),
    (b"move-vertex", Deed::Frees),
    (b"set-sector", Deed::Draws),
    (b"set-side", Deed::Draws),
    (b"set-line", Deed::Draws),
    (b"set-thing", Deed::SetsThing),
    (b"drop", Deed::Frees),
    (b"room", Deed::AddsSector),
    (b"split", Deed::Draws),
];

/// The spelling of a first word.
pub fn head_text(head: Head) -> &'static str
    ensures { result.now ≡ head_word head }
{
    match head {
        Head::Name => "name",
        Head::Vertex => "vertex",
        Head::Sector => "sector",
        Head::Side => "side",
        Head::Line => "line",
        Head::Thing => "thing",
        Head::MoveVertex => "move-vertex",
        Head::SetSector => "set-sector",
        Head::SetSide => "set-side",
        Head::SetLine => "set-line",
        Head::SetThing => "set-thing",
        Head::Drop => "drop",
        Head::Room => "room",
        Head::Split => "split",
    }
}

/// Which first word this is, if it is one.
pub fn head_in(word: &[u8]) -> Option<Head>
    ensures value { result ≡ head_of word.now }
    ensures text { IfSome result (λ h. head_word h ≡ word.now) }
{
    match word {
        b"name" => Some(Head::Name),
        b"vertex" => Some(Head::Vertex),
        b"sector" => Some(Head::Sector),
        b"side" => Some(Head::Side),
        b"line" => Some(Head::Line),
        b"thing" => Some(Head::Thing),
        b"move-vertex" => Some(Head::MoveVertex),
        b"set-sector" => Some(Head::SetSector),
        b"set-side" => Some(Head::SetSide),
        b"set-line" => Some(Head::SetLine),
        b"set-thing" => Some(Head::SetThing),
        b"drop" => Some(Head::Drop),
        b"room" => Some(Head::Room),
        b"split" => Some(Head::Split),
        _ => None,
    }
}

// ---- What stands behind

/// How many words stand between a first word and the places behind it, and how the places stand, if there are any.
pub fn head_layout(head: Head) -> Option<(usize, Layout)>
    ensures { result ≡ head_layout head }
{
    match head {
        Head::Vertex => Some((0, Layout::Corners)),
        Head::Thing => Some((0, Layout::Looking)),
        Head::Room => Some((0, Layout::Walls)),
        Head::MoveVertex | Head::Split => Some((1, Layout::Corners)),
        Head::SetThing => Some((1, Layout::Looking)),
        _ => None,
    }
}

/// Whether a command that begins so puts vertices at places of its own.
pub fn head_puts_vertex(head: Head) -> bool
    ensures { result ≡ head_puts_vertex head }
{
    match head {
        Head::Vertex | Head::Room | Head::Split => true,
        _ => false,
    }
}

/// The kind of the item whose number is the answer to a command that begins so, if it is the number of one. A room's
/// answer is that of its sector, but a name that keeps it also stands for the walls: so it has no kind here.
pub fn head_answer(head: Head) -> Option<Kind>
    ensures { result ≡ head_answer head }
{
    match head {
        Head::Vertex | Head::MoveVertex => Some(Kind::Vertex),
        Head::Sector | Head::SetSector => Some(Kind::Sector),
        Head::Side | Head::SetSide => Some(Kind::Side),
        Head::Line | Head::SetLine | Head::Split => Some(Kind::Line),
        Head::Thing | Head::SetThing => Some(Kind::Thing),
        _ => None,
    }
}

/// The kinds of the items whose numbers the words of a command are, word by word, its first word too; a word behind
/// these is none. `drop` has none here, since its number is one of the kind that it names.
pub fn head_numbers(head: Head) -> &'static [Option<Kind>]
    ensures { result.now ≡ head_numbers head }
{
    match head {
        Head::Side => SIDE_FIELDS,
        Head::Line => LINE_FIELDS,
        Head::MoveVertex => VERTEX_NUMBER,
        Head::SetSector => SECTOR_NUMBER,
        Head::SetSide => SET_SIDE_FIELDS,
        Head::SetLine => SET_LINE_FIELDS,
        Head::SetThing => THING_NUMBER,
        Head::Split => LINE_NUMBER,
        _ => NO_NUMBERS,
    }
}

// ---- Reading

// Reads the command that begins with this first word.
fn command(head: Head, words: UnreadWords) -> Result<Command, CommandError>
    requires { (reading words).fault ≡ None }
    ensures ok { IfOk result (λ c.
        (head_word head ∷ (reading words.entry).words ≡ words_of c) × InRange c) }
    ensures fault { TellsFault result (fault_behind head (reading words.entry).words) }
{
    match head {
        Head::Name => Ok(Command::Name(words.map_name()?)),
        Head::Vertex => Ok(Command::Edit(Edit::Add(Item::Vertex(words.vertex()?)))),
        Head::Sector => Ok(Command::Edit(Edit::Add(Item::Sector(words.sector()?)))),
        Head::Side => Ok(Command::Edit(Edit::Add(Item::Side(words.side()?)))),
        Head::Line => Ok(Command::Edit(Edit::Add(Item::Line(words.line()?)))),
        Head::Thing => Ok(Command::Edit(Edit::Add(Item::Thing(words.thing()?)))),
        Head::MoveVertex => {
            let (n, vertex) = words.numbered_vertex()?;
            Ok(Command::Edit(Edit::Set(n, Item::Vertex(vertex))))
        }
        Head::SetSector => words.set_sector(),
        Head::SetSide => words.set_side(),
        Head::SetLine => words.set_line(),
        Head::SetThing => words.set_thing(),
        Head::Drop => words.drop_item(),
        Head::Room => words.room(),
        Head::Split => {
            let (line, at) = words.numbered_vertex()?;
            Ok(Command::Split(LineSplit { line, at }))
        }
    }
}

/// Reads a command of a map from its first word and the rest of its line, or says what is wrong with them.
pub fn read(word: &[u8], rest: Option<&[u8]>) -> Result<Command, CommandError>
    ensures ok { IfOk result
        (λ c. (word.now ∷ parts_behind (option_copied rest.entry) ≡ words_of c) × InRange c) }
    ensures fault { TellsFault result
        (command_fault (word.now ∷ parts_behind (option_copied rest.entry))) }
{
    match head_in(word) {
        Some(head) => command(head, UnreadWords::new(rest)),
        None => Err(CommandError::NotACommand),
    }
}

// ---- Printing

// The first word of a command that adds an item.
fn add_head(item: &Item) -> Head
    ensures { result ≡ add_head item.now }
{
    match item {
        Item::Vertex(_) => Head::Vertex,
        Item::Sector(_) => Head::Sector,
        Item::Side(_) => Head::Side,
        Item::Line(_) => Head::Line,
        Item::Thing(_) => Head::Thing,
    }
}

// The first word of a command that changes an item.
fn set_head(item: &Item) -> Head
    ensures { result ≡ set_head item.now }
{
    match item {
        Item::Vertex(_) => Head::MoveVertex,
        Item::Sector(_) => Head::SetSector,
        Item::Side(_) => Head::SetSide,
        Item::Line(_) => Head::SetLine,
        Item::Thing(_) => Head::SetThing,
    }
}

// The first word of a command.
fn head_for(command: &Command) -> Head
    ensures { result ≡ head_for command.now }
{
    match command {
        Command::Name(_) => Head::Name,
        Command::Edit(Edit::Add(item)) => add_head(item),
        Command::Edit(Edit::Set(_, item)) => set_head(item),
        Command::Edit(Edit::Drop(_, _)) => Head::Drop,
        Command::Room(_) => Head::Room,
        Command::Split(_) => Head::Split,
    }
}

// Writes the words after the first.
#[tactic(auto, using(crate::proofs::Padding::marker_utf8))]
fn words_behind(text: Text, command: &Command) -> Result<Text, AllocError>
    requires { InRange command.now }
    ensures { IfOk result (λ t. Adds text t (32 ∷ join_with_byte 32 (words_behind command.now))) }
{
    match command {
        Command::Name(name) => text.name(name),
        Command::Edit(Edit::Add(item)) => text.item(item),
        Command::Edit(Edit::Set(n, item)) => text.numbered(*n, item),
        Command::Edit(Edit::Drop(kind, n)) => text.item_of(*kind, *n),
        Command::Room(plan) => text.room(plan),
        Command::Split(split) => text.numbered(split.line, &Item::Vertex(split.at)),
    }
}

// Writes all words of a command.
fn words(alloc: Global, command: &Command) -> Result<Text, AllocError>
    requires { InRange command.now }
    ensures { IfOk result (λ t. written t ≡ spelling command.now) }
{
    let text = Text::new(alloc, head_text(head_for(command)))?;
    words_behind(text, command)
}

/// Prints a command of a map as a line.
pub fn print(alloc: Global, command: &Command) -> Result<Vec<u8>, CommandError>
    requires { InRange command.now }
    ensures spelling { IfOk result (λ v. v.items ≡ spelling command.now) }
    ensures memory { IsOkUnless result CommandError.OutOfMemory }
{
    Ok(words(alloc, command)?.into_bytes())
}
