//! Why a line is not a command, or a command is refused.
ghost use Rattle.std.specs.Prelude.{◌≡◌};
ghost use Rattle.map_commands.specs.declared.error.CommandError.TheVariants.{OutOfMemory};

use map_tables::MapError;
use std::alloc::AllocError;
use std::fmt;
use thiserror::Error;

/// Why a line is not a command, or a command is refused. If several reasons apply to a command, it gets the one with
/// the lowest code.
#[derive(Clone, Copy, Debug, PartialEq, Eq, Error)]
pub enum CommandError {
    NotACommand,
    OutOfRange,
    NoVertex,
    NoSector,
    NoSide,
    NoLine,
    NoThing,
    InUse,
    SameEnds,
    PlaceTaken,
    TwoSidedWithoutLeft,
    TableFull,
    LineTooLong,
    ProjectFull,
    BadName,
    TooManyMaps,
    MapNameTaken,
    NoSuchMap,
    CurrentMap,
    OutOfMemory,
}

impl fmt::Display for CommandError {
    ghost use Rattle.std.specs.Prelude.{Some};
    ghost use Rattle.map_commands.specs.Errors.{message_of};

    ghost output = { λ e. Some (message_of e) };

    fn fmt<W: fmt::Write>(&self, f: &mut fmt::Formatter<W>) -> fmt::Result {
        match self.source() {
            Ok(error) => fmt::Display::fmt(&error, f),
            Err((_, text)) => f.write_str(text),
        }
    }
}

impl From<AllocError> for CommandError {
    ghost from_gives = { λ _ e. e ≡ OutOfMemory };

    fn from(_e: AllocError) -> CommandError {
        CommandError::OutOfMemory
    }
}

impl CommandError {
    ghost use Rattle.std.specs.Prelude.{◌≡◌, ◌≤◌, MatchResult};
    ghost use Rattle.map_tables.specs.Errors as map_error;
    ghost use Rattle.map_commands.specs.Errors.{code_of, message_of};

    /// The number of the refusal.
    pub fn code(&self) -> u16
        ensures { result ≡ code_of self.now }
    {
        match self.source() {
            Ok(error) => error.code(),
            Err((code, _)) => code,
        }
    }

    /// The refusal of a command whose edit the map refuses.
    pub fn of_edit(error: MapError) -> CommandError
        requires { map_error.code_of error ≤ 31 }
        ensures { code_of result ≡ map_error.code_of error }
    {
        match error {
            MapError::NoVertex => CommandError::NoVertex,
            MapError::NoSector => CommandError::NoSector,
            MapError::NoSide => CommandError::NoSide,
            MapError::NoLine => CommandError::NoLine,
            MapError::NoThing => CommandError::NoThing,
            MapError::InUse => CommandError::InUse,
            MapError::SameEnds => CommandError::SameEnds,
            MapError::PlaceTaken => CommandError::PlaceTaken,
            MapError::TwoSidedWithoutLeft => CommandError::TwoSidedWithoutLeft,
            MapError::TableFull => CommandError::TableFull,
            MapError::LineTooLong => CommandError::LineTooLong,
            MapError::TooManyMaps => CommandError::TooManyMaps,
            MapError::MapNameTaken => CommandError::MapNameTaken,
            MapError::NoSuchMap => CommandError::NoSuchMap,
            MapError::CurrentMap => CommandError::CurrentMap,
            MapError::OutOfMemory => CommandError::OutOfMemory,
            MapError::Damaged(_) => unreachable!(),
        }
    }

    // The map's refusal that this one passes on, or the number and text of this one.
    fn source(&self) -> Result<MapError, (u16, &'static str)>
        ensures code { MatchResult result (λ error. code_of self.now ≡ map_error.code_of error)
            (λ own. code_of self.now ≡ own.0) }
        ensures text { MatchResult result
            (λ error. message_of self.now ≡ map_error.message_of error)
            (λ own. message_of self.now ≡ own.1.now) }
    {
        match self {
            CommandError::NotACommand => Err((1, "not a command")),
            CommandError::OutOfRange => Err((2, "a number is out of its range")),
            CommandError::NoVertex => Ok(MapError::NoVertex),
            CommandError::NoSector => Ok(MapError::NoSector),
            CommandError::NoSide => Ok(MapError::NoSide),
            CommandError::NoLine => Ok(MapError::NoLine),
            CommandError::NoThing => Ok(MapError::NoThing),
            CommandError::InUse => Ok(MapError::InUse),
            CommandError::SameEnds => Ok(MapError::SameEnds),
            CommandError::PlaceTaken => Ok(MapError::PlaceTaken),
            CommandError::TwoSidedWithoutLeft => Ok(MapError::TwoSidedWithoutLeft),
            CommandError::TableFull => Ok(MapError::TableFull),
            CommandError::LineTooLong => Ok(MapError::LineTooLong),
            CommandError::ProjectFull => Err((14, "the project is full")),
            CommandError::BadName => Err((15, "a bad name")),
            CommandError::TooManyMaps => Ok(MapError::TooManyMaps),
            CommandError::MapNameTaken => Ok(MapError::MapNameTaken),
            CommandError::NoSuchMap => Ok(MapError::NoSuchMap),
            CommandError::CurrentMap => Ok(MapError::CurrentMap),
            CommandError::OutOfMemory => Ok(MapError::OutOfMemory),
        }
    }
}
