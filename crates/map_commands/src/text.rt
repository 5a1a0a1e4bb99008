//! The line of a command of a map, as it is written.
use crate::kinds::kind_text;
use crate::names::text_of;
use lump_records::{Line, NO_SIDE, Name8, Sector, Side, Thing, Vertex};
use map_tables::{Item, Kind};
use std::alloc::{AllocError, Global};

/// A command's line, written word by word from the first on.
#[derive(Drop)]
pub struct Text {
    line: String,
}

impl Text {
    ghost use Rattle.std.specs.Prelude.{◌≡◌, [], ◌∷◌, IfOk, string_bytes, decimal};
    ghost use Rattle.std.specs.Fmt.{signed_decimal};
    ghost use Rattle.std.specs.List.{join_with_byte};
    ghost use Rattle.std.specs.Str.{IsUtf8};
    ghost use Rattle.lump_records.specs.Names.{name_text};
    ghost use Rattle.map_tables.specs.Ranges.{IsItem, IsSector, IsSide};
    ghost use Rattle.map_commands.specs.Spelling.{item_words, kind_word, left_word, line_words, sector_words, side_words, thing_words, vertex_words};
    ghost use Rattle.map_commands.specs.Views.{Adds, written};

    /// A line that has its first word.
    pub fn new(alloc: Global, head: &str) -> Result<Self, AllocError>
        ensures { IfOk result (λ t. written t ≡ head.now) }
    {
        let line = String::from_str(alloc, head)?;
        Ok(Text { line })
    }

    /// The line's bytes, without an end of line.
    pub fn into_bytes(self) -> Vec<u8>
        ensures { result.items ≡ written self }
    {
        self.line.into_bytes()
    }

    // Adds a word.
    fn word(mut self, word: &str) -> Result<Self, AllocError>
        ensures { IfOk result (λ t. Adds self t (32 ∷ word.now)) }
    {
        self.line.push(' ')?;
        self.line.push_str(word)?;
        Ok(self)
    }

    /// Adds a signed number.
    pub fn number(mut self, n: &i16) -> Result<Self, AllocError>
        ensures { IfOk result (λ t. Adds self t (32 ∷ signed_decimal n.now)) }
    {
        let n = *n;
        write!(self.line, " {n}")?;
        Ok(self)
    }

    // Adds a number that isn't negative.
    fn natural(mut self, n: u16) -> Result<Self, AllocError>
        ensures { IfOk result (λ t. Adds self t (32 ∷ decimal n)) }
    {
        write!(self.line, " {n}")?;
        Ok(self)
    }

    // Adds the number of a left side, or `-` for none.
    fn left(self, n: u16) -> Result<Self, AllocError>
        ensures { IfOk result (λ t. Adds self t (32 ∷ left_word n)) }
    {
        if n == NO_SIDE {
            self.word("-")
        } else {
            self.natural(n)
        }
    }

    /// Adds a name.
    pub fn name(self, name: &Name8) -> Result<Self, AllocError>
        requires { IsUtf8 (name_text name.now) }
        ensures { IfOk result (λ t. Adds self t (32 ∷ name_text name.now)) }
    {
        self.word(text_of(name))
    }

    /// Adds the words of a place.
    pub fn vertex(self, vertex: &Vertex) -> Result<Self, AllocError>
        ensures { IfOk result
            (λ t. Adds self t (32 ∷ join_with_byte 32 (vertex_words vertex.now))) }
    {
        self.number(&vertex.x)?.number(&vertex.y)
    }

    /// Adds the words of a sector.
    pub fn sector(self, sector: &Sector) -> Result<Self, AllocError>
        requires { IsSector sector.now }
        ensures { IfOk result
            (λ t. Adds self t (32 ∷ join_with_byte 32 (sector_words sector.now))) }
    {
        self.number(&sector.floor)?
            .number(&sector.ceiling)?
            .name(&sector.floor_name)?
            .name(&sector.ceiling_name)?
            .number(&sector.light)?
            .number(&sector.special)?
            .number(&sector.tag)
    }

    /// Adds the words of a side.
    pub fn side(self, side: &Side) -> Result<Self, AllocError>
        requires { IsSide side.now }
        ensures { IfOk result (λ t. Adds self t (32 ∷ join_with_byte 32 (side_words side.now))) }
    {
        self.number(&side.x_offset)?
            .number(&side.y_offset)?
            .name(&side.upper)?
            .name(&side.lower)?
            .name(&side.middle)?
            .natural(side.sector)
    }

    /// Adds the words of a line.
    pub fn line(self, line: &Line) -> Result<Self, AllocError>
        ensures { IfOk result (λ t. Adds self t (32 ∷ join_with_byte 32 (line_words line.now))) }
    {
        self.natural(line.v1)?
            .natural(line.v2)?
            .natural(line.flags)?
            .natural(line.special)?
            .natural(line.tag)?
            .natural(line.right)?
            .left(line.left)
    }

    /// Adds the words of a thing.
    pub fn thing(self, thing: &Thing) -> Result<Self, AllocError>
        ensures { IfOk result (λ t. Adds self t (32 ∷ join_with_byte 32 (thing_words thing.now))) }
    {
        self.number(&thing.x)?
            .number(&thing.y)?
            .number(&thing.angle)?
            .number(&thing.kind)?
            .number(&thing.options)
    }

    /// Adds the words of an item.
    pub fn item(self, item: &Item) -> Result<Self, AllocError>
        requires { IsItem item.now }
        ensures { IfOk result (λ t. Adds self t (32 ∷ join_with_byte 32 (item_words item.now))) }
    {
        match item {
            Item::Vertex(vertex) => self.vertex(vertex),
            Item::Sector(sector) => self.sector(sector),
            Item::Side(side) => self.side(side),
            Item::Line(line) => self.line(line),
            Item::Thing(thing) => self.thing(thing),
        }
    }

    /// Adds the number of an item, and its words.
    pub fn numbered(self, n: u16, item: &Item) -> Result<Self, AllocError>
        requires { IsItem item.now }
        ensures { IfOk result (λ t. Adds self t
            (32 ∷ join_with_byte 32 (decimal n ∷ item_words item.now))) }
    {
        self.natural(n)?.item(item)
    }

    /// Adds the word for a table, and the number of an item of it.
    pub fn item_of(self, kind: Kind, n: u16) -> Result<Self, AllocError>
        ensures { IfOk result (λ t. Adds self t
            (32 ∷ join_with_byte 32 (kind_word kind ∷ decimal n ∷ []))) }
    {
        self.word(kind_text(kind))?.natural(n)
    }
}
