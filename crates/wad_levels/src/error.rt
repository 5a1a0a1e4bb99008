//! Why a level can't be read from bytes.
ghost use Rattle.std.specs.Prelude.{◌≡◌};
ghost use Rattle.wad_levels.specs.Errors.{code_of};
ghost use Rattle.wad_levels.specs.declared.error.ReadError.TheVariants.{OutOfMemory};

use std::alloc::{AllocError, AllocFailed};
use std::fmt;
use thiserror::Error;

/// Why the level of a name can't be read from bytes.
#[derive(Clone, Copy, Debug, PartialEq, Eq, Error)]
pub enum ReadError {
    LumpLength,
    NotAWad,
    DirectoryOutside,
    NoSuchLevel,
    LumpMissing,
    LumpOutside,
    HexenLevel,
    TextureLump,
    OutOfMemory,
}

// One call writes whichever fixed text it is, so that the proof has only one call to follow.
impl fmt::Display for ReadError {
    ghost use Rattle.std.specs.Prelude.{Some};
    ghost use Rattle.wad_levels.specs.Errors.{message_of};

    ghost output = { λ e. Some (message_of e) };

    fn fmt<W: fmt::Write>(&self, f: &mut fmt::Formatter<W>) -> fmt::Result {
        let text = match self {
            ReadError::LumpLength => "a lump is no whole number of records",
            ReadError::NotAWad => "the file is no WAD",
            ReadError::DirectoryOutside => "the directory ends beyond the file",
            ReadError::NoSuchLevel => "the WAD has no level of this name",
            ReadError::LumpMissing => "a lump of the level is missing, or stands in another place",
            ReadError::LumpOutside => "a lump of the level ends beyond the file",
            ReadError::HexenLevel => "the level is one of Hexen",
            ReadError::TextureLump => "a lump of textures names more than it holds",
            ReadError::OutOfMemory => "out of memory",
        };
        f.write_str(text)
    }
}

impl ReadError {
    /// The refusal's number: 50, 70 to 76, or 31.
    pub fn code(&self) -> u16
        ensures { result ≡ code_of self.now }
    {
        match self {
            ReadError::LumpLength => 50,
            ReadError::NotAWad => 70,
            ReadError::DirectoryOutside => 71,
            ReadError::NoSuchLevel => 72,
            ReadError::LumpMissing => 73,
            ReadError::LumpOutside => 74,
            ReadError::HexenLevel => 75,
            ReadError::TextureLump => 76,
            ReadError::OutOfMemory => 31,
        }
    }
}

impl From<AllocError> for ReadError {
    ghost from_gives = { λ _ e. e ≡ OutOfMemory };

    fn from(_e: AllocError) -> ReadError {
        ReadError::OutOfMemory
    }
}

impl<T: Drop> From<AllocFailed<T>> for ReadError {
    ghost from_gives = { λ _ e. e ≡ OutOfMemory };

    fn from(_e: AllocFailed<T>) -> ReadError {
        ReadError::OutOfMemory
    }
}
