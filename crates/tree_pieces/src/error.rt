//! Why pieces or points can't be made, and the number of each refusal.
ghost use Rattle.std.specs.Prelude.{◌≡◌};
ghost use Rattle.tree_pieces.specs.declared.error.SegsError.TheVariants.{OutOfMemory};

use std::alloc::{AllocError, AllocFailed};
use thiserror::Error;

/// Why a map's pieces or points can't be made.
#[derive(Clone, Copy, Debug, PartialEq, Eq, Error)]
pub enum SegsError {
    #[error("too many vertices")]
    TooManyVertices,
    #[error("out of memory")]
    OutOfMemory,
}

impl From<AllocError> for SegsError {
    ghost from_gives = { λ _ e. e ≡ OutOfMemory };

    fn from(_e: AllocError) -> SegsError {
        SegsError::OutOfMemory
    }
}

impl<T: Drop> From<AllocFailed<T>> for SegsError {
    ghost from_gives = { λ _ e. e ≡ OutOfMemory };

    fn from(_e: AllocFailed<T>) -> SegsError {
        SegsError::OutOfMemory
    }
}

impl SegsError {
    ghost use Rattle.tree_pieces.specs.Errors.{code_of};

    /// The number of the refusal.
    pub fn code(&self) -> u16
        ensures { result ≡ code_of self.now }
    {
        match self {
            SegsError::TooManyVertices => 61,
            SegsError::OutOfMemory => 31,
        }
    }
}
