//! Why a call on the slots fails, and the number of each refusal.
ghost use Rattle.std.specs.Prelude.{◌≡◌};
ghost use Rattle.store_slots.specs.declared.error.CheckpointError.TheVariants.{Device, OutOfMemory};

use std::alloc::{AllocError, AllocFailed};
use std::fmt;
use store_disk::DeviceFault;
use thiserror::Error;

/// Why the slots could not be read, or an image could not be made.
#[derive(Clone, Copy, Debug, PartialEq, Eq, Error)]
pub enum CheckpointError {
    Device,
    GenerationsSpent,
    SlotFull,
    /// `place` is the offset in the file of the slot that can't be read.
    Damaged { place: u64 },
    Blank,
    OutOfMemory,
}

impl fmt::Display for CheckpointError {
    ghost use Rattle.std.specs.Prelude.{Some};
    ghost use Rattle.store_slots.specs.Refusals.{message_of};

    ghost output = { λ e. Some (message_of e) };

    fn fmt<W: fmt::Write>(&self, f: &mut fmt::Formatter<W>) -> fmt::Result {
        let text = match self {
            CheckpointError::Device => "the device failed",
            CheckpointError::GenerationsSpent => "the generations are spent",
            CheckpointError::SlotFull => "the body is too long for a slot",
            CheckpointError::Damaged { place } => return write!(f, "damaged at {place}"),
            CheckpointError::Blank => "no slot is open",
            CheckpointError::OutOfMemory => "out of memory",
        };
        f.write_str(text)
    }
}

impl From<DeviceFault> for CheckpointError {
    ghost from_gives = { λ _ e. e ≡ Device };

    fn from(_e: DeviceFault) -> CheckpointError {
        CheckpointError::Device
    }
}

impl From<AllocError> for CheckpointError {
    ghost from_gives = { λ _ e. e ≡ OutOfMemory };

    fn from(_e: AllocError) -> CheckpointError {
        CheckpointError::OutOfMemory
    }
}

impl<T: Drop> From<AllocFailed<T>> for CheckpointError {
    ghost from_gives = { λ _ e. e ≡ OutOfMemory };

    fn from(_e: AllocFailed<T>) -> CheckpointError {
        CheckpointError::OutOfMemory
    }
}

impl CheckpointError {
    ghost use Rattle.std.specs.Prelude.{◌≡◌};
    ghost use Rattle.store_slots.specs.Refusals.{code_of};

    /// The refusal's number.
    pub fn code(&self) -> u16
        ensures { result ≡ code_of self.now }
    {
        match self {
            CheckpointError::Device => 30,
            CheckpointError::OutOfMemory => 31,
            CheckpointError::GenerationsSpent => 33,
            CheckpointError::SlotFull => 35,
            CheckpointError::Damaged { .. } => 40,
            CheckpointError::Blank => 41,
        }
    }
}
