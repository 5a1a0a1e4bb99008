//! Which map of a project can't be built, in words.
ghost use Rattle.std.specs.Prelude.{◌≡◌, OnOk};
ghost use Rattle.std.specs.Io.KnownBytes.{Appends};
ghost use Rattle.cli_refusals.specs.Unbuilt.{hindrance_words, unbuilt_text};

use cli_files::write_reason;
use std::io::{self, ErrorKind, Write};
use wad_build::{BuildError, Unbuilt};

// Why a map can't be built, in words.
fn hindrance(error: BuildError) -> &'static str
    ensures { result.now ≡ hindrance_words error }
{
    match error {
        BuildError::NothingToBuild => "has no line",
        BuildError::TooManyVertices => "needs more than 32767 vertices",
        BuildError::TooManySegs => "needs more than 32767 segs",
        BuildError::TooManySubsectors => "needs more than 32767 subsectors",
        BuildError::TooDeep => "needs a tree with a path of more than 1024 nodes",
        BuildError::BlockmapTooLarge => "needs a blockmap with a list beyond word 32767",
        BuildError::OutOfMemory => "finds no memory",
    }
}

/// Writes which map can't be built, as `  MAP02: has no line`; nothing if none is named.
///
/// # Errors
///
/// The writer's.
pub fn write_unbuilt<F: Write>(unbuilt: Unbuilt, faults: &mut F) -> io::Result<()>
    ensures { OnOk result (Appends (F.contents faults.old) (F.contents faults.new)
        (unbuilt_text unbuilt)) }
{
    let Some(map) = unbuilt.map else {
        return Ok(());
    };
    match str::from_utf8(map.text()) {
        Ok(name) => write_reason(name, hindrance(unbuilt.error), faults),
        Err(_) => Err(io::Error::from(ErrorKind::InvalidData)),
    }
}
