//! Why no tree is built, and the number of each refusal.
ghost use Rattle.std.specs.Prelude.{◌≡◌};
ghost use Rattle.tree_nodes.specs.declared.error.TreeError.TheVariants.{OutOfMemory};

use std::alloc::{AllocError, AllocFailed};
use thiserror::Error;

/// Why no tree is built.
#[derive(Clone, Copy, Debug, PartialEq, Eq, Error)]
pub enum TreeError {
    #[error("out of memory")]
    OutOfMemory,
    #[error("the map has no line")]
    NothingToBuild,
    #[error("the tree needs more than 32767 vertices")]
    TooManyVertices,
    #[error("the tree has more than 32767 segs")]
    TooManySegs,
    #[error("the tree has more than 32767 subsectors")]
    TooManySubsectors,
    #[error("a path of the tree has more than 1024 nodes")]
    TooDeep,
}

impl From<AllocError> for TreeError {
    ghost from_gives = { λ _ e. e ≡ OutOfMemory };

    fn from(_e: AllocError) -> TreeError {
        TreeError::OutOfMemory
    }
}

impl<T: Drop> From<AllocFailed<T>> for TreeError {
    ghost from_gives = { λ _ e. e ≡ OutOfMemory };

    fn from(_e: AllocFailed<T>) -> TreeError {
        TreeError::OutOfMemory
    }
}

impl TreeError {
    ghost use Rattle.std.specs.Prelude.{◌≡◌};
    ghost use Rattle.tree_nodes.specs.Errors.{code_of};

    /// The number of the refusal.
    pub fn code(&self) -> u16
        ensures { result ≡ code_of self.now }
    {
        match self {
            TreeError::OutOfMemory => 31,
            TreeError::NothingToBuild => 60,
            TreeError::TooManyVertices => 61,
            TreeError::TooManySegs => 62,
            TreeError::TooManySubsectors => 63,
            TreeError::TooDeep => 64,
        }
    }
}
