//! Why a lump can't be encoded or decoded.
ghost use Rattle.std.specs.Prelude.{◌≡◌};
ghost use Rattle.lump_records.specs.declared.error.LumpError.TheVariants.{OutOfMemory};

use std::alloc::{AllocError, AllocFailed};
use thiserror::Error;

/// Why a lump could not be encoded or decoded.
#[derive(Clone, Copy, Debug, Error)]
pub enum LumpError {
    #[error("the length is no whole number of records")]
    LumpLength,
    #[error("out of memory")]
    OutOfMemory,
}

impl From<AllocError> for LumpError {
    ghost from_gives = { λ _ e. e ≡ OutOfMemory };

    fn from(_e: AllocError) -> LumpError {
        LumpError::OutOfMemory
    }
}

impl<T: Drop> From<AllocFailed<T>> for LumpError {
    ghost from_gives = { λ _ e. e ≡ OutOfMemory };

    fn from(_e: AllocFailed<T>) -> LumpError {
        LumpError::OutOfMemory
    }
}

impl LumpError {
    ghost use Rattle.std.specs.Prelude.{◌≡◌};
    ghost use Rattle.lump_records.specs.Errors.{code_of};

    /// The refusal's number: 50 or 31.
    pub fn code(&self) -> u16
        ensures { result ≡ code_of self.now }
    {
        match self {
            LumpError::LumpLength => 50,
            LumpError::OutOfMemory => 31,
        }
    }
}
