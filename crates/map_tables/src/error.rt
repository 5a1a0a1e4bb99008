//! The refusals of a map: their numbers and their texts.
ghost use Rattle.std.specs.Prelude.{◌≡◌};
ghost use Rattle.map_tables.specs.declared.error.MapError.TheVariants.{OutOfMemory};

use lump_records::LumpError;
use std::alloc::{AllocError, AllocFailed};
use std::fmt;
use thiserror::Error;

/// Why a map refuses an edit, or why bytes aren't a map's.
#[derive(Clone, Copy, Debug, PartialEq, Eq, Error)]
pub enum MapError {
    NoVertex,
    NoSector,
    NoSide,
    NoLine,
    NoThing,
    InUse,
    SameEnds,
    PlaceTaken,
    TwoSidedWithoutLeft,
    TableFull,
    LineTooLong,
    TooManyMaps,
    MapNameTaken,
    NoSuchMap,
    CurrentMap,
    OutOfMemory,
    Damaged(u64),
}

// Converts the error of decoding a table's records: they are whole, so only memory can run out.
pub(crate) fn lacks_memory(_e: LumpError) -> MapError
    ensures { result ≡ OutOfMemory }
{
    MapError::OutOfMemory
}

// One call writes whichever text it is, so that the proof has only one call to follow.
impl fmt::Display for MapError {
    ghost use Rattle.std.specs.Prelude.{Some};
    ghost use Rattle.map_tables.specs.Errors.{message_of};

    ghost output = { λ e. Some (message_of e) };

    fn fmt<W: fmt::Write>(&self, f: &mut fmt::Formatter<W>) -> fmt::Result {
        let text = match self {
            MapError::NoVertex => "no vertex has the number",
            MapError::NoSector => "no sector has the number",
            MapError::NoSide => "no side has the number",
            MapError::NoLine => "no line has the number",
            MapError::NoThing => "no thing has the number",
            MapError::InUse => "another item names the item",
            MapError::SameEnds => "the line's ends are one vertex",
            MapError::PlaceTaken => "another vertex has the place",
            MapError::TwoSidedWithoutLeft => "the line is two-sided and has no left side",
            MapError::TableFull => "the table is full",
            MapError::LineTooLong => "the line is too long",
            MapError::TooManyMaps => "there are 32 maps",
            MapError::MapNameTaken => "another map has the name",
            MapError::NoSuchMap => "no map has the name",
            MapError::CurrentMap => "the map is the current one",
            MapError::OutOfMemory => "out of memory",
            MapError::Damaged(_) => "the bytes are no well-formed map",
        };
        f.write_str(text)
    }
}

impl From<AllocError> for MapError {
    ghost from_gives = { λ _ e. e ≡ OutOfMemory };

    fn from(_e: AllocError) -> MapError {
        MapError::OutOfMemory
    }
}

impl<T: Drop> From<AllocFailed<T>> for MapError {
    ghost from_gives = { λ _ e. e ≡ OutOfMemory };

    fn from(_e: AllocFailed<T>) -> MapError {
        MapError::OutOfMemory
    }
}

impl MapError {
    ghost use Rattle.std.specs.Prelude.{◌≡◌};
    ghost use Rattle.map_tables.specs.Errors.{code_of};

    /// The refusal's number.
    pub fn code(&self) -> u16
        ensures { result ≡ code_of self.now }
    {
        match self {
            MapError::NoVertex => 3,
            MapError::NoSector => 4,
            MapError::NoSide => 5,
            MapError::NoLine => 6,
            MapError::NoThing => 7,
            MapError::InUse => 8,
            MapError::SameEnds => 9,
            MapError::PlaceTaken => 10,
            MapError::TwoSidedWithoutLeft => 11,
            MapError::TableFull => 12,
            MapError::LineTooLong => 13,
            MapError::TooManyMaps => 16,
            MapError::MapNameTaken => 17,
            MapError::NoSuchMap => 18,
            MapError::CurrentMap => 19,
            MapError::OutOfMemory => 31,
            MapError::Damaged(_) => 40,
        }
    }
}
