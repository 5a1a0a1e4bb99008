//! Why a map can't be linted, and the number of the refusal.
ghost use Rattle.std.specs.Prelude.{◌≡◌};
ghost use Rattle.map_lint.specs.declared.error.LintError.TheVariants.{OutOfMemory};

use std::alloc::{AllocError, AllocFailed};
use thiserror::Error;

/// Why a map can't be linted.
#[derive(Clone, Copy, Debug, PartialEq, Eq, Error)]
pub enum LintError {
    #[error("out of memory")]
    OutOfMemory,
}

impl From<AllocError> for LintError {
    ghost from_gives = { λ _ e. e ≡ OutOfMemory };

    fn from(_e: AllocError) -> LintError {
        LintError::OutOfMemory
    }
}

impl<T: Drop> From<AllocFailed<T>> for LintError {
    ghost from_gives = { λ _ e. e ≡ OutOfMemory };

    fn from(_e: AllocFailed<T>) -> LintError {
        LintError::OutOfMemory
    }
}

impl LintError {
    ghost use Rattle.map_lint.specs.Errors.{code_of};

    /// The refusal's number: 31.
    pub fn code(&self) -> u16
        ensures { result ≡ code_of self.now }
    {
        match self {
            LintError::OutOfMemory => 31,
        }
    }
}
