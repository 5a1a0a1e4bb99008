//! Why a map can't be built, and which map of a project it is.
ghost use Rattle.std.specs.Prelude.{◌≡◌, None};
ghost use Rattle.wad_build.specs.Errors.{build_code_of};
ghost use Rattle.wad_build.specs.declared.error.BuildError.TheVariants as build;

use lump_records::Name8;
use std::alloc::{AllocError, AllocFailed};
use std::fmt;
use thiserror::Error;

/// Why a map can't be built.
#[derive(Clone, Copy, Debug, PartialEq, Eq, Error)]
pub enum BuildError {
    NothingToBuild,
    TooManyVertices,
    TooManySegs,
    TooManySubsectors,
    TooDeep,
    BlockmapTooLarge,
    OutOfMemory,
}

// One call writes whichever text it is, so that the proof has only one call to follow.
impl fmt::Display for BuildError {
    ghost use Rattle.std.specs.Prelude.{Some};
    ghost use Rattle.wad_build.specs.Errors.{build_message_of};

    ghost output = { λ e. Some (build_message_of e) };

    fn fmt<W: fmt::Write>(&self, f: &mut fmt::Formatter<W>) -> fmt::Result {
        let text = match self {
            BuildError::NothingToBuild => "there is no line to build from",
            BuildError::TooManyVertices => "the tree needs more than 32767 vertices",
            BuildError::TooManySegs => "the tree has more than 32767 segs",
            BuildError::TooManySubsectors => "the tree has more than 32767 subsectors",
            BuildError::TooDeep => "a path of the tree has more than 1024 nodes",
            BuildError::BlockmapTooLarge => "a list of the blockmap would begin beyond word 32767",
            BuildError::OutOfMemory => "out of memory",
        };
        f.write_str(text)
    }
}

impl BuildError {
    /// The refusal's number: 60 to 64, 66, or 31.
    pub fn code(&self) -> u16
        ensures { result ≡ build_code_of self.now }
    {
        match self {
            BuildError::NothingToBuild => 60,
            BuildError::TooManyVertices => 61,
            BuildError::TooManySegs => 62,
            BuildError::TooManySubsectors => 63,
            BuildError::TooDeep => 64,
            BuildError::BlockmapTooLarge => 66,
            BuildError::OutOfMemory => 31,
        }
    }
}

impl From<AllocError> for BuildError {
    ghost from_gives = { λ _ e. e ≡ build.OutOfMemory };

    fn from(_e: AllocError) -> BuildError {
        BuildError::OutOfMemory
    }
}

impl<T: Drop> From<AllocFailed<T>> for BuildError {
    ghost from_gives = { λ _ e. e ≡ build.OutOfMemory };

    fn from(_e: AllocFailed<T>) -> BuildError {
        BuildError::OutOfMemory
    }
}

/// Why the maps of a project can't be built, and which map is the cause.
#[derive(Clone, Copy, Debug, PartialEq, Eq, Error)]
#[error("{error}")]
pub struct Unbuilt {
    pub error: BuildError,
    /// The name of the first map by number that can't be built; `None` if memory ran out.
    pub map: Option<Name8>,
}

impl<T: Drop> From<AllocFailed<T>> for Unbuilt {
    ghost from_gives = { λ _ u. (u.error ≡ build.OutOfMemory) × (u.map ≡ None) };

    fn from(_e: AllocFailed<T>) -> Unbuilt {
        Unbuilt {
            error: BuildError::OutOfMemory,
            map: None,
        }
    }
}

/// Why the PWAD of a project's maps isn't written.
#[derive(Clone, Copy, Debug, PartialEq, Eq, Error)]
pub enum Unwritten {
    /// A map can't be built, or memory runs out: nothing is written.
    #[error(transparent)]
    Build(Unbuilt),
    /// The writer failed: any part of the PWAD may have been written.
    #[error("the writer failed")]
    Writer,
}
