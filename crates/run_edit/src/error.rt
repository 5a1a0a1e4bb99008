//! Why a run, an inspection, a build or a recovery failed, and the number of each refusal.
ghost use Rattle.std.specs.Prelude.{◌≡◌};
ghost use Rattle.run_edit.specs.declared.error.EditorError.TheVariants as editor;
ghost use Rattle.run_edit.specs.declared.error.InspectError.TheVariants as inspect;

use lump_text::WriterFailed;
use store_project::ProjectError;
use thiserror::Error;
use wad_build::{BuildError, ReadError, Unbuilt};

/// Why a run, or the answer to one of its lines, was cut off.
#[derive(Clone, Copy, Debug, PartialEq, Eq, Error)]
pub enum EditorError {
    #[error("the input is too long")]
    InputTooLong,
    #[error("the reader failed")]
    ReaderFailed,
    #[error("the writer failed")]
    WriterFailed,
    #[error("out of memory")]
    OutOfMemory,
}

impl EditorError {
    ghost use Rattle.std.specs.Prelude.{◌≡◌};
    ghost use Rattle.run_edit.specs.Errors.{code_of};

    /// The number of the refusal.
    pub fn code(&self) -> u16
        ensures { result ≡ code_of self.now }
    {
        match self {
            EditorError::OutOfMemory => 31,
            EditorError::InputTooLong => 36,
            EditorError::ReaderFailed => 37,
            EditorError::WriterFailed => 38,
        }
    }
}

impl From<WriterFailed> for EditorError {
    ghost from_gives = { λ _ e. e ≡ editor.WriterFailed };

    fn from(_error: WriterFailed) -> EditorError {
        EditorError::WriterFailed
    }
}

/// Why a level was not inspected.
#[derive(Clone, Copy, Debug, PartialEq, Eq, Error)]
pub enum InspectError {
    /// The WAD has no such level, or there is no memory to read and audit it.
    #[error(transparent)]
    Level(ReadError),
    #[error("the writer failed")]
    WriterFailed,
}

impl InspectError {
    ghost use Rattle.std.specs.Prelude.{◌≡◌};
    ghost use Rattle.run_edit.specs.Errors.{inspect_code_of};

    /// The number of the refusal.
    pub fn code(&self) -> u16
        ensures { result ≡ inspect_code_of self.now }
    {
        match self {
            InspectError::Level(error) => error.code(),
            InspectError::WriterFailed => 38,
        }
    }
}

impl From<ReadError> for InspectError {
    ghost from_gives = { λ error e. e ≡ inspect.Level error };

    fn from(error: ReadError) -> InspectError {
        InspectError::Level(error)
    }
}

impl From<WriterFailed> for InspectError {
    ghost from_gives = { λ _ e. e ≡ inspect.WriterFailed };

    fn from(_error: WriterFailed) -> InspectError {
        InspectError::WriterFailed
    }
}

/// Why no PWAD was written.
#[derive(Clone, Copy, Debug, PartialEq, Eq, Error)]
pub enum WriteError {
    /// A map can't be built; the error names it.
    #[error(transparent)]
    Build(Unbuilt),
    #[error("the writer failed")]
    WriterFailed,
}

impl WriteError {
    ghost use Rattle.std.specs.Prelude.{◌≡◌};
    ghost use Rattle.run_edit.specs.Errors.{write_code_of};

    /// The number of the refusal.
    pub fn code(&self) -> u16
        ensures { result ≡ write_code_of self.now }
    {
        match self {
            WriteError::Build(unbuilt) => unbuilt.error.code(),
            WriteError::WriterFailed => 38,
        }
    }
}

/// Why no PWAD was built from the disk that a stop left.
#[derive(Clone, Copy, Debug, PartialEq, Eq, Error)]
pub enum RecoveryError {
    /// The project on the disk can't be opened.
    #[error(transparent)]
    Open(#[from] ProjectError),
    /// A map can't be built.
    #[error(transparent)]
    Build(#[from] BuildError),
}

impl RecoveryError {
    ghost use Rattle.std.specs.Prelude.{◌≡◌};
    ghost use Rattle.run_edit.specs.Errors.{recovery_code_of};

    /// The number of the refusal.
    pub fn code(&self) -> u16
        ensures { result ≡ recovery_code_of self.now }
    {
        match self {
            RecoveryError::Open(error) => error.code(),
            RecoveryError::Build(error) => error.code(),
        }
    }
}
