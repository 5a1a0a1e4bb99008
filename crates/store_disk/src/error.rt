//! Why a call of a disk fails, and why a disk in memory can't be made.
ghost use Rattle.std.specs.Prelude.{◌≡◌};

use std::alloc::{AllocError, AllocFailed};
use thiserror::Error;

/// A call of the device failed.
#[derive(Clone, Copy, Debug, PartialEq, Eq, Error)]
#[error("the device failed")]
pub struct DeviceFault;

impl DeviceFault {
    /// The refusal's number.
    pub fn code(&self) -> u16
        ensures { result ≡ 30 }
    {
        30
    }
}

/// Out of memory for a disk in memory.
#[derive(Clone, Copy, Debug, Error)]
#[error("out of memory")]
pub struct OutOfMemory;

impl OutOfMemory {
    /// The refusal's number.
    pub fn code(&self) -> u16
        ensures { result ≡ 31 }
    {
        31
    }
}

impl From<AllocError> for OutOfMemory {
    fn from(_e: AllocError) -> OutOfMemory {
        OutOfMemory
    }
}

impl<T: Drop> From<AllocFailed<T>> for OutOfMemory {
    fn from(_e: AllocFailed<T>) -> OutOfMemory {
        OutOfMemory
    }
}
