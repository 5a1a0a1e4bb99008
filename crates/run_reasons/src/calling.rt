//! The name of each refusal of a line, and what it says, by its number.
ghost use Rattle.std.specs.Prelude.{◌≡◌};
ghost use Rattle.run_reasons.specs.Names.{command_name, file_name, stop_name, script_name};

use map_commands::CommandError;
use map_script::DrawError;
use std::alloc::{AllocError, Global};
use std::fmt::Display;
use store_project::ProjectError;

// The refusals of lines that come from map_commands.
const OF_COMMANDS: &[CommandError] = &[
    CommandError::NotACommand,
    CommandError::OutOfRange,
    CommandError::NoVertex,
    CommandError::NoSector,
    CommandError::NoSide,
    CommandError::NoLine,
    CommandError::NoThing,
    CommandError::InUse,
    CommandError::SameEnds,
    CommandError::PlaceTaken,
    CommandError::TwoSidedWithoutLeft,
    CommandError::TableFull,
    CommandError::LineTooLong,
    CommandError::ProjectFull,
    CommandError::BadName,
    CommandError::TooManyMaps,
    CommandError::MapNameTaken,
    CommandError::NoSuchMap,
    CommandError::CurrentMap,
];

// The refusals of lines that come from map_script.
const OF_NAMES: &[DrawError] = &[
    DrawError::NotAName,
    DrawError::NotAReference,
    DrawError::UnknownName,
    DrawError::NothingAdded,
    DrawError::NumberTooLarge,
    DrawError::NothingThere,
    DrawError::NotANumber,
    DrawError::OpenBlock,
    DrawError::TooManyLines,
];

// The refusals of lines that come from store_project.
const OF_FILES: &[ProjectError] = &[
    ProjectError::Device,
    ProjectError::Reopen,
    ProjectError::GenerationsSpent,
];

// What a refusal says.
fn said<E: Display>(alloc: Global, error: &E) -> Result<String, AllocError> {
    format!(in alloc; "{error}")
}

// The name of a refusal that comes from map_commands.
fn command_name(code: u16) -> &'static str
    ensures { result.now ≡ command_name code }
{
    match code {
        1 => "NotACommand",
        2 => "OutOfRange",
        3 => "NoVertex",
        4 => "NoSector",
        5 => "NoSide",
        6 => "NoLine",
        7 => "NoThing",
        8 => "InUse",
        9 => "SameEnds",
        10 => "PlaceTaken",
        11 => "TwoSidedWithoutLeft",
        12 => "TableFull",
        13 => "LineTooLong",
        14 => "ProjectFull",
        15 => "BadName",
        16 => "TooManyMaps",
        17 => "MapNameTaken",
        18 => "NoSuchMap",
        19 => "CurrentMap",
        _ => "Memory",
    }
}

// The name of a refusal that comes from map_script.
fn script_name(code: u16) -> &'static str
    ensures { result.now ≡ script_name code }
{
    match code {
        20 => "NotAName",
        21 => "NotAReference",
        22 => "UnknownName",
        23 => "NothingAdded",
        24 => "NumberTooLarge",
        25 => "NotAPolygon",
        26 => "Crossing",
        27 => "SeveralSectors",
        28 => "NotEmpty",
        29 => "NoDoor",
        46 => "BadSum",
        47 => "OpenBlock",
        48 => "TooManyLines",
        _ => "NothingThere",
    }
}

// The name of a refusal of a file.
fn file_name(code: u16) -> &'static str
    ensures { result.now ≡ file_name code }
{
    match code {
        30 => "Device",
        32 => "Reopen",
        33 => "GenerationsSpent",
        37 => "ReaderFailed",
        42 => "NotAProject",
        _ => "Memory",
    }
}

/// The name of the refusal with this number.
pub fn stop_name(code: u16) -> &'static str
    ensures { result.now ≡ stop_name code }
{
    if code < 20 {
        command_name(code)
    } else if code < 30 || (45 <= code && code <= 48) {
        script_name(code)
    } else {
        file_name(code)
    }
}

/// What the refusal with this number says.
pub fn says(alloc: Global, code: u16) -> Result<String, AllocError> {
    if let Some(error) = OF_COMMANDS.iter().find(|error| error.code() == code) {
        return said(alloc, error);
    }
    if let Some(error) = OF_NAMES.iter().find(|error| error.code() == code) {
        return said(alloc, error);
    }
    if let Some(error) = OF_FILES.iter().find(|error| error.code() == code) {
        return said(alloc, error);
    }
    format!(in alloc; "out of memory")
}
