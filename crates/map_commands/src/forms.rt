//! Reads what follows the first word of a command of a map.
ghost use Rattle.std.specs.Prelude.{◌≡◌, [], ◌∷◌, ◌≤◌, Some, None, IfOk, decimal};
ghost use Rattle.lump_records.specs.Names.{IsNamed, is_marker, name_text};
ghost use Rattle.map_tables.specs.Ranges.{IsLine, IsSector, IsSide, IsThing, IsVertex};
ghost use Rattle.map_commands.specs.Step.{InRange};
ghost use Rattle.map_commands.specs.Errors.{TellsFault};
ghost use Rattle.map_commands.specs.Spelling.{drop_fault, line_words, sector_words, side_words, thing_words, vertex_words};
ghost use Rattle.map_commands.specs.Places.{Named, item, line_places, places_fault, sector_item, sector_places, side_places, thing_places, vertex_places};
ghost use Rattle.map_commands.specs.Reading.{fault_with};
ghost use Rattle.map_commands.specs.Grammar.{head_word, words_of};
ghost use Rattle.map_commands.specs.Views.{reading};
ghost use Rattle.map_commands.specs.declared.grammar.Head.TheVariants as head;

use crate::command::Command;
use crate::error::CommandError;
use crate::kinds::{LAST_ITEM, LAST_SECTOR, kind_in, last_number};
use crate::unread::UnreadWords;
use lump_records::{
    GREATEST_COORDINATE, LEAST_COORDINATE, Line, Name8, Sector, Side, Thing, Vertex,
};
use map_tables::{Edit, Item};

/// The greatest light of a sector.
pub const GREATEST_LIGHT: i16 = 255;
/// The greatest angle of a thing, in degrees.
pub const GREATEST_ANGLE: i16 = 359;
/// The greatest value of the flags, special and tag of a line.
pub const GREATEST_FLAGS: u16 = 32767;

impl<'a> UnreadWords<'a> {
    /// Reads a place.
    pub fn vertex(mut self) -> Result<Vertex, CommandError>
        ensures ok { IfOk result (λ r. ((reading self.entry).fault ≡ None)
            × ((reading self.entry).words ≡ vertex_words r) × IsVertex r) }
        ensures fault { TellsFault result (fault_with (reading self.entry) vertex_places) }
    {
        let x = self.number(LEAST_COORDINATE, GREATEST_COORDINATE);
        let y = self.number(LEAST_COORDINATE, GREATEST_COORDINATE);
        self.finish()?;
        Ok(Vertex { x, y })
    }

    /// Reads a sector.
    pub fn sector(mut self) -> Result<Sector, CommandError>
        ensures ok { IfOk result (λ r. ((reading self.entry).fault ≡ None)
            × ((reading self.entry).words ≡ sector_words r) × IsSector r) }
        ensures fault { TellsFault result (fault_with (reading self.entry) sector_places) }
    {
        let floor = self.number(i16::MIN, i16::MAX);
        let ceiling = self.number(i16::MIN, i16::MAX);
        let floor_name = self.name();
        let ceiling_name = self.name();
        let light = self.number(0, GREATEST_LIGHT);
        let special = self.number(0, i16::MAX);
        let tag = self.number(0, i16::MAX);
        self.finish()?;
        Ok(Sector {
            floor,
            ceiling,
            floor_name,
            ceiling_name,
            light,
            special,
            tag,
        })
    }

    /// Reads a side.
    pub fn side(mut self) -> Result<Side, CommandError>
        ensures ok { IfOk result (λ r. ((reading self.entry).fault ≡ None)
            × ((reading self.entry).words ≡ side_words r) × IsSide r) }
        ensures fault { TellsFault result (fault_with (reading self.entry) side_places) }
    {
        let x_offset = self.number(i16::MIN, i16::MAX);
        let y_offset = self.number(i16::MIN, i16::MAX);
        let upper = self.name();
        let lower = self.name();
        let middle = self.name();
        let sector = self.item(LAST_SECTOR);
        self.finish()?;
        Ok(Side {
            x_offset,
            y_offset,
            upper,
            lower,
            middle,
            sector,
        })
    }

    /// Reads a line.
    pub fn line(mut self) -> Result<Line, CommandError>
        ensures ok { IfOk result (λ r. ((reading self.entry).fault ≡ None)
            × ((reading self.entry).words ≡ line_words r) × IsLine r) }
        ensures fault { TellsFault result (fault_with (reading self.entry) line_places) }
    {
        let v1 = self.item(LAST_ITEM);
        let v2 = self.item(LAST_ITEM);
        let flags = self.item(GREATEST_FLAGS);
        let special = self.item(GREATEST_FLAGS);
        let tag = self.item(GREATEST_FLAGS);
        let right = self.item(LAST_ITEM);
        let left = self.left();
        self.finish()?;
        Ok(Line {
            v1,
            v2,
            flags,
            special,
            tag,
            right,
            left,
        })
    }

    /// Reads a thing.
    pub fn thing(mut self) -> Result<Thing, CommandError>
        ensures ok { IfOk result (λ r. ((reading self.entry).fault ≡ None)
            × ((reading self.entry).words ≡ thing_words r) × IsThing r) }
        ensures fault { TellsFault result (fault_with (reading self.entry) thing_places) }
    {
        let x = self.number(LEAST_COORDINATE, GREATEST_COORDINATE);
        let y = self.number(LEAST_COORDINATE, GREATEST_COORDINATE);
        let angle = self.number(0, GREATEST_ANGLE);
        let kind = self.number(0, i16::MAX);
        let options = self.number(0, i16::MAX);
        self.finish()?;
        Ok(Thing {
            x,
            y,
            angle,
            kind,
            options,
        })
    }

    /// Reads the number of an item, and a place.
    pub fn numbered_vertex(mut self) -> Result<(u16, Vertex), CommandError>
        requires { (reading self).fault ≡ None }
        ensures ok { IfOk result (λ r. ((reading self.entry).words ≡ decimal r.0 ∷ vertex_words r.1)
            × (r.0 ≤ 32766) × IsVertex r.1) }
        ensures fault { TellsFault result
            (places_fault (item ∷ vertex_places) (reading self.entry).words) }
    {
        let number = self.item(LAST_ITEM);
        match self.vertex() {
            Ok(vertex) => Ok((number, vertex)),
            Err(error) => Err(error),
        }
    }

    /// Reads the number of a sector, and its new value.
    pub fn set_sector(mut self) -> Result<Command, CommandError>
        requires { (reading self).fault ≡ None }
        ensures ok { IfOk result (λ c.
            (head_word head.SetSector ∷ (reading self.entry).words ≡ words_of c) × InRange c) }
        ensures fault { TellsFault result
            (places_fault (sector_item ∷ sector_places) (reading self.entry).words) }
    {
        let number = self.item(LAST_SECTOR);
        match self.sector() {
            Ok(sector) => Ok(Command::Edit(Edit::Set(number, Item::Sector(sector)))),
            Err(error) => Err(error),
        }
    }

    /// Reads the number of a side, and its new value.
    pub fn set_side(mut self) -> Result<Command, CommandError>
        requires { (reading self).fault ≡ None }
        ensures ok { IfOk result (λ c.
            (head_word head.SetSide ∷ (reading self.entry).words ≡ words_of c) × InRange c) }
        ensures fault { TellsFault result
            (places_fault (item ∷ side_places) (reading self.entry).words) }
    {
        let number = self.item(LAST_ITEM);
        match self.side() {
            Ok(side) => Ok(Command::Edit(Edit::Set(number, Item::Side(side)))),
            Err(error) => Err(error),
        }
    }

    /// Reads the number of a line, and its new value.
    pub fn set_line(mut self) -> Result<Command, CommandError>
        requires { (reading self).fault ≡ None }
        ensures ok { IfOk result (λ c.
            (head_word head.SetLine ∷ (reading self.entry).words ≡ words_of c) × InRange c) }
        ensures fault { TellsFault result
            (places_fault (item ∷ line_places) (reading self.entry).words) }
    {
        let number = self.item(LAST_ITEM);
        match self.line() {
            Ok(line) => Ok(Command::Edit(Edit::Set(number, Item::Line(line)))),
            Err(error) => Err(error),
        }
    }

    /// Reads the number of a thing, and its new value.
    pub fn set_thing(mut self) -> Result<Command, CommandError>
        requires { (reading self).fault ≡ None }
        ensures ok { IfOk result (λ c.
            (head_word head.SetThing ∷ (reading self.entry).words ≡ words_of c) × InRange c) }
        ensures fault { TellsFault result
            (places_fault (item ∷ thing_places) (reading self.entry).words) }
    {
        let number = self.item(LAST_ITEM);
        match self.thing() {
            Ok(thing) => Ok(Command::Edit(Edit::Set(number, Item::Thing(thing)))),
            Err(error) => Err(error),
        }
    }

    /// Reads a table and the number of the item to remove from it.
    pub fn drop_item(mut self) -> Result<Command, CommandError>
        requires { (reading self).fault ≡ None }
        ensures ok { IfOk result (λ c.
            (head_word head.Drop ∷ (reading self.entry).words ≡ words_of c) × InRange c) }
        ensures fault { TellsFault result (drop_fault (reading self.entry).words) }
    {
        let Some(word) = self.next() else {
            return Err(CommandError::NotACommand);
        };
        let Some(kind) = kind_in(word) else {
            return Err(CommandError::NotACommand);
        };
        let number = self.item(last_number(kind));
        match self.finish() {
            Ok(()) => Ok(Command::Edit(Edit::Drop(kind, number))),
            Err(error) => Err(error),
        }
    }

    /// Reads the name of a map, which must end the line.
    pub fn map_name(mut self) -> Result<Name8, CommandError>
        requires { (reading self).fault ≡ None }
        ensures ok { IfOk result (λ n. ((reading self.entry).words ≡ name_text n ∷ [])
            × IsNamed is_marker n) }
        ensures fault { TellsFault result
            (places_fault (Named is_marker ∷ []) (reading self.entry).words) }
    {
        let name = self.marker();
        match self.finish() {
            Ok(()) => Ok(name),
            Err(error) => Err(error),
        }
    }
}
