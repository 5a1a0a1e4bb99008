//! Why a blockmap can't be made, and the number of each refusal.
ghost use Rattle.std.specs.Prelude.{◌≡◌};
ghost use Rattle.tree_blocks.specs.Errors.{code_of};
ghost use Rattle.tree_blocks.specs.declared.error.BlockmapError.TheVariants.{OutOfMemory};

use std::alloc::{AllocError, AllocFailed};
use thiserror::Error;

/// Why a blockmap can't be made.
#[derive(Clone, Copy, Debug, PartialEq, Eq, Error)]
pub enum BlockmapError {
    #[error("there is no line to build from")]
    NothingToBuild,
    #[error("a list of the blockmap would begin beyond word 32767")]
    BlockmapTooLarge,
    #[error("out of memory")]
    OutOfMemory,
}

impl BlockmapError {
    /// The refusal's number: 60, 66 or 31.
    pub fn code(&self) -> u16
        ensures { result ≡ code_of self.now }
    {
        match self {
            BlockmapError::NothingToBuild => 60,
            BlockmapError::BlockmapTooLarge => 66,
            BlockmapError::OutOfMemory => 31,
        }
    }
}

impl From<AllocError> for BlockmapError {
    ghost from_gives = { λ _ e. e ≡ OutOfMemory };

    fn from(_e: AllocError) -> BlockmapError {
        BlockmapError::OutOfMemory
    }
}

impl<T: Drop> From<AllocFailed<T>> for BlockmapError {
    ghost from_gives = { λ _ e. e ≡ OutOfMemory };

    fn from(_e: AllocFailed<T>) -> BlockmapError {
        BlockmapError::OutOfMemory
    }
}
