//! Why a WAD isn't built anew.
ghost use Rattle.std.specs.Prelude.{◌≡◌};
ghost use Rattle.wad_rebuild.specs.Errors.{code_of};
ghost use Rattle.wad_rebuild.specs.declared.error.RebuildError.TheVariants.{OutOfMemory};

use std::alloc::{AllocError, AllocFailed};
use std::fmt;
use thiserror::Error;

/// Why a WAD isn't built anew.
#[derive(Clone, Copy, Debug, PartialEq, Eq, Error)]
pub enum RebuildError {
    TooLong,
    NotAWad,
    DirectoryOutside,
    NoSuchLevel,
    LumpOutside,
    OutOfMemory,
}

// One call writes each fixed text, so that the proof has one call to follow.
impl fmt::Display for RebuildError {
    ghost use Rattle.std.specs.Prelude.{Some};
    ghost use Rattle.wad_rebuild.specs.Errors.{message_of};

    ghost output = { λ e. Some (message_of e) };

    fn fmt<W: fmt::Write>(&self, f: &mut fmt::Formatter<W>) -> fmt::Result {
        let text = match self {
            RebuildError::TooLong => "the lumps are too long together",
            RebuildError::NotAWad => "the file is no WAD",
            RebuildError::DirectoryOutside => "the directory ends beyond the file",
            RebuildError::NoSuchLevel => "the WAD has no level of this name",
            RebuildError::LumpOutside => "a lump ends beyond the file",
            RebuildError::OutOfMemory => "out of memory",
        };
        f.write_str(text)
    }
}

impl RebuildError {
    /// The refusal's number: 36, 70 to 72, 74, or 31.
    pub fn code(&self) -> u16
        ensures { result ≡ code_of self.now }
    {
        match self {
            RebuildError::TooLong => 36,
            RebuildError::NotAWad => 70,
            RebuildError::DirectoryOutside => 71,
            RebuildError::NoSuchLevel => 72,
            RebuildError::LumpOutside => 74,
            RebuildError::OutOfMemory => 31,
        }
    }
}

impl From<AllocError> for RebuildError {
    ghost from_gives = { λ _ e. e ≡ OutOfMemory };

    fn from(_e: AllocError) -> RebuildError {
        RebuildError::OutOfMemory
    }
}

impl<T: Drop> From<AllocFailed<T>> for RebuildError {
    ghost from_gives = { λ _ e. e ≡ OutOfMemory };

    fn from(_e: AllocFailed<T>) -> RebuildError {
        RebuildError::OutOfMemory
    }
}
