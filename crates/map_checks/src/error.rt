//! Why a map can't be checked, and the number of the refusal.
ghost use Rattle.std.specs.Prelude.{◌≡◌};
ghost use Rattle.map_checks.specs.declared.error.CheckError.TheVariants.{OutOfMemory};

use std::alloc::{AllocError, AllocFailed};
use thiserror::Error;

/// Why a map can't be checked.
#[derive(Clone, Copy, Debug, PartialEq, Eq, Error)]
pub enum CheckError {
    #[error("out of memory")]
    OutOfMemory,
}

impl From<AllocError> for CheckError {
    ghost from_gives = { λ _ e. e ≡ OutOfMemory };

    fn from(_e: AllocError) -> CheckError {
        CheckError::OutOfMemory
    }
}

impl<T: Drop> From<AllocFailed<T>> for CheckError {
    ghost from_gives = { λ _ e. e ≡ OutOfMemory };

    fn from(_e: AllocFailed<T>) -> CheckError {
        CheckError::OutOfMemory
    }
}

impl CheckError {
    ghost use Rattle.map_checks.specs.Errors.{code_of};

    /// The refusal's number: 31.
    pub fn code(&self) -> u16
        ensures { result ≡ code_of self.now }
    {
        match self {
            CheckError::OutOfMemory => 31,
        }
    }
}
