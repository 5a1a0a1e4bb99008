//! Reads the words of a shape.
ghost use Rattle.std.specs.Prelude.{◌≡◌, ◌⊎◌, [], ◌++◌, ◌∷◌, drop, List, All, IfErr, IfOk, None, Some, decimal, pos, option_copied};
ghost use Rattle.map_commands.specs.Errors.{TellsFault, code_in, code_of as command_code_of};
ghost use Rattle.map_commands.specs.Places.{Number, Place, coordinate, place_fault, places_fault, prior_fault};
ghost use Rattle.map_commands.specs.Spelling.{vertex_words};
ghost use Rattle.map_commands.specs.Reading.{fault_with};
ghost use Rattle.map_commands.specs.Views.{reading};
ghost use Rattle.map_words.specs.Words.{parts, parts_behind};
ghost use Rattle.map_tables.specs.Ranges.{IsVertex, last_of};
ghost use Rattle.map_shapes.specs.Changes.{change_fault, fields_fault, values_fault};
ghost use Rattle.map_shapes.specs.Doors.{IsDoor};
ghost use Rattle.map_shapes.specs.Errors.{TellsShapeFault};
ghost use Rattle.map_shapes.specs.Shapes.{IsArea, IsDoorWords, IsPillar, IsShape, SpellsShape, area_places, area_words, change_words, corner_places, corner_words, door_places, pillar_places, pillar_words, plain_sector, shape_fault_of};

use crate::error::ShapeError;
use crate::fields::{are_fields, changed_line, sample_text};
use crate::head::{ShapeHead, shape_head_in};
use crate::shape::{Change, Door, Shape};
use lump_records::{GREATEST_COORDINATE, LEAST_COORDINATE, Name8, Sector, Vertex};
use map_areas::{Area, Pillar};
use map_commands::{
    CommandError, LAST_SECTOR, UnreadWords, kind_in, last_number, number_in, parse,
};
use map_tables::Kind;
use map_words::next_part;
use std::alloc::{AllocError, Global};

// The length of the longest line that can be a shape, in bytes.
const LONGEST_LINE: usize = 256;

const GREATEST_LIGHT: i16 = 255;

const GREATEST_SPECIAL: u16 = 32767;

// Reads a place.
fn corner(words: &mut UnreadWords) -> Vertex
    ensures fault { (ps : List Place)
        → fault_with (reading words.old) (coordinate ∷ coordinate ∷ ps)
        ≡ fault_with (reading words.new) ps }
    ensures text { (reading words.new).fault ≡ None → ((reading words.old).fault ≡ None)
        × ((reading words.old).words ≡ vertex_words result ++ (reading words.new).words) }
    ensures rest { (reading words.new).words ≡ drop 1 (drop 1 (reading words.old).words) }
    ensures range { IsVertex result }
{
    let x = words.number(LEAST_COORDINATE, GREATEST_COORDINATE);
    let y = words.number(LEAST_COORDINATE, GREATEST_COORDINATE);
    Vertex { x, y }
}

// Reads a place for each two words.
fn corners(alloc: Global, words: &mut UnreadWords) -> Result<Vec<Vertex>, AllocError>
    ensures fault { IfOk result (λ _.
        fault_with (reading words.old) (corner_places (reading words.old).words)
        ≡ fault_with (reading words.new) []) }
    ensures words { IfOk result (λ v. (reading words.new).fault ≡ None
        → ((reading words.old).fault ≡ None)
        × ((reading words.old).words ≡ corner_words v.items ++ (reading words.new).words)) }
    ensures range { IfOk result (λ v. All IsVertex v.items) }
{
    let mut corners = Vec::new(alloc);
    while !words.is_empty() {
        let corner = corner(words);
        corners.push(corner)?;
    }
    Ok(corners)
}

// A sector without special and tag.
fn plain_sector(
    floor: i16,
    ceiling: i16,
    floor_name: Name8,
    ceiling_name: Name8,
    light: i16,
) -> Sector
    ensures { result ≡ plain_sector floor ceiling floor_name ceiling_name light }
{
    Sector {
        floor,
        ceiling,
        floor_name,
        ceiling_name,
        light,
        special: 0,
        tag: 0,
    }
}

// Reads an area.
fn area(alloc: Global, mut words: UnreadWords) -> Result<Area, ShapeError>
    requires { (reading words).fault ≡ None }
    ensures ok { IfOk result (λ a. ((reading words.entry).words ≡ area_words a) × IsArea a) }
    ensures fault { TellsShapeFault result (places_fault (area_places (reading words.entry).words)
        (reading words.entry).words) }
{
    let floor = words.number(i16::MIN, i16::MAX);
    let ceiling = words.number(i16::MIN, i16::MAX);
    let floor_name = words.name();
    let ceiling_name = words.name();
    let wall = words.name();
    let light = words.number(0, GREATEST_LIGHT);
    let corners = corners(alloc, &mut words)?;
    words.finish()?;
    let sector = plain_sector(floor, ceiling, floor_name, ceiling_name, light);
    Ok(Area {
        corners,
        sector,
        wall,
    })
}

// Reads a pillar.
fn pillar(alloc: Global, mut words: UnreadWords) -> Result<Pillar, ShapeError>
    requires { (reading words).fault ≡ None }
    ensures ok { IfOk result (λ p. ((reading words.entry).words ≡ pillar_words p) × IsPillar p) }
    ensures fault { TellsShapeFault result
        (places_fault (pillar_places (reading words.entry).words) (reading words.entry).words) }
{
    let wall = words.name();
    let corners = corners(alloc, &mut words)?;
    words.finish()?;
    Ok(Pillar { corners, wall })
}

// Reads a door.
fn door(mut words: UnreadWords) -> Result<Door, CommandError>
    requires { (reading words).fault ≡ None }
    ensures ok { IfOk result (λ d. IsDoorWords d (reading words.entry).words × IsDoor d) }
    ensures fault { TellsFault result (places_fault (door_places (reading words.entry).words)
        (reading words.entry).words) }
{
    let sector = words.item(LAST_SECTOR);
    let face = words.name();
    let track = words.name();
    if words.is_empty() {
        words.finish()?;
        return Ok(Door {
            sector,
            face,
            track,
            special: 1,
        });
    }
    let special = words.item(GREATEST_SPECIAL);
    words.finish()?;
    Ok(Door {
        sector,
        face,
        track,
        special,
    })
}

// What is wrong with the VALUEs of NAMEs that are those of fields, if anything.
fn values_fault(
    alloc: Global,
    kind: Kind,
    fields: &[u8],
) -> Result<Option<CommandError>, AllocError>
    ensures { IfOk result (λ fault. code_in fault ≡ values_fault kind (parts fields.now)) }
{
    let line = changed_line(alloc, kind, 0, sample_text(kind).as_bytes(), fields)?;
    match parse(&line) {
        Ok(_) => Ok(None),
        Err(error) => Ok(Some(error)),
    }
}

// The fault of two: the left one, but NotACommand where the right one is.
fn prior(left: CommandError, right: Option<CommandError>) -> CommandError
    ensures { Some (command_code_of result)
        ≡ prior_fault (Some (command_code_of left)) (code_in right) }
{
    match right {
        Some(CommandError::NotACommand) => CommandError::NotACommand,
        _ => left,
    }
}

// Reads the number of an item of the kind.
fn number_of(word: &[u8], kind: Kind) -> Result<u16, CommandError>
    ensures found { IfOk result (λ n. decimal n ≡ word.now) }
    ensures fault { TellsFault result
        (place_fault (Number (pos 0) (pos (last_of kind))) word.now) }
{
    match number_in(word, 0, last_number(kind) as i16) {
        Ok(number) => Ok(number as u16),
        Err(error) => Err(error),
    }
}

// Reads the number of an item of the kind, and its fields.
fn change_of<'a>(
    alloc: Global,
    kind: Kind,
    word: &[u8],
    fields: &'a [u8],
) -> Result<Change<'a>, ShapeError>
    ensures ok { IfOk result (λ c. (c.kind ≡ kind) × (decimal c.number ≡ word.now)
        × (c.fields.now ≡ fields.now)) }
    ensures fault { TellsShapeFault result (fields_fault kind (word.now ∷ parts fields.now)) }
{
    if !are_fields(kind, fields) {
        return Err(ShapeError::Command(CommandError::NotACommand));
    }
    let fault = values_fault(alloc, kind, fields)?;
    match (number_of(word, kind), fault) {
        (Ok(number), None) => Ok(Change {
            kind,
            number,
            fields,
        }),
        (Ok(_), Some(error)) => Err(ShapeError::Command(error)),
        (Err(error), fault) => Err(ShapeError::Command(prior(error, fault))),
    }
}

// Reads a change.
fn change(alloc: Global, rest: Option<&[u8]>) -> Result<Change, ShapeError>
    ensures ok { IfOk result
        (λ c. parts_behind (option_copied rest.entry) ≡ change_words c) }
    ensures fault { TellsShapeFault result
        (change_fault (parts_behind (option_copied rest.entry))) }
{
    let Some(rest) = rest else {
        return Err(ShapeError::Command(CommandError::NotACommand));
    };
    let (word, rest) = next_part(rest);
    let Some(kind) = kind_in(word) else {
        return Err(ShapeError::Command(CommandError::NotACommand));
    };
    let Some(rest) = rest else {
        return Err(ShapeError::Command(CommandError::NotACommand));
    };
    let (word, fields) = next_part(rest);
    match fields {
        Some(fields) => change_of(alloc, kind, word, fields),
        None => Err(ShapeError::Command(CommandError::NotACommand)),
    }
}

/// Reads a line as a shape, or says what is wrong with it.
pub fn read_shape(alloc: Global, line: &[u8]) -> Result<Shape, ShapeError>
    ensures ok { IfOk result (λ s. SpellsShape line.now s × IsShape s) }
    ensures fault { TellsShapeFault result (shape_fault_of line.now) }
{
    if line.len() > LONGEST_LINE {
        return Err(ShapeError::Command(CommandError::NotACommand));
    }
    let (word, rest) = next_part(line);
    match shape_head_in(word) {
        Some(ShapeHead::Area) => Ok(Shape::Area(area(alloc, UnreadWords::new(rest))?)),
        Some(ShapeHead::Pillar) => Ok(Shape::Pillar(pillar(alloc, UnreadWords::new(rest))?)),
        Some(ShapeHead::Door) => Ok(Shape::Door(door(UnreadWords::new(rest))?)),
        Some(ShapeHead::Change) => Ok(Shape::Change(change(alloc, rest)?)),
        None => Err(ShapeError::Command(CommandError::NotACommand)),
    }
}
