//! Why a call of a journal is refused, and the number of each refusal.
ghost use Rattle.std.specs.Prelude.{◌≡◌};
ghost use Rattle.store_journal.specs.declared.error.JournalError.TheVariants.{Device, OutOfMemory};

use std::alloc::{AllocError, AllocFailed};
use std::fmt;
use store_disk::DeviceFault;
use thiserror::Error;

/// Why a journal could not be read, or a payload not be appended.
#[derive(Clone, Copy, Debug, PartialEq, Eq, Error)]
pub enum JournalError {
    Device,
    OutOfMemory,
    Reopen,
    JournalFull,
    /// The place in the file of the gate whose record can't be read.
    Damaged { place: u64 },
}

impl fmt::Display for JournalError {
    ghost use Rattle.std.specs.Prelude.{Some};
    ghost use Rattle.store_journal.specs.Refusals.{message_of};

    ghost output = { λ e. Some (message_of e) };

    fn fmt<W: fmt::Write>(&self, f: &mut fmt::Formatter<W>) -> fmt::Result {
        let text = match self {
            JournalError::Device => "the device failed",
            JournalError::OutOfMemory => "out of memory",
            JournalError::Reopen => "the journal must be opened again",
            JournalError::JournalFull => "the journal is full",
            JournalError::Damaged { place } => return write!(f, "damaged at {place}"),
        };
        f.write_str(text)
    }
}

impl From<DeviceFault> for JournalError {
    ghost from_gives = { λ _ e. e ≡ Device };

    fn from(_e: DeviceFault) -> JournalError {
        JournalError::Device
    }
}

impl From<AllocError> for JournalError {
    ghost from_gives = { λ _ e. e ≡ OutOfMemory };

    fn from(_e: AllocError) -> JournalError {
        JournalError::OutOfMemory
    }
}

impl<T: Drop> From<AllocFailed<T>> for JournalError {
    ghost from_gives = { λ _ e. e ≡ OutOfMemory };

    fn from(_e: AllocFailed<T>) -> JournalError {
        JournalError::OutOfMemory
    }
}

impl JournalError {
    ghost use Rattle.std.specs.Prelude.{◌≡◌};
    ghost use Rattle.store_journal.specs.Refusals.{code_of};

    /// The number of the refusal.
    pub fn code(&self) -> u16
        ensures { result ≡ code_of self.now }
    {
        match self {
            JournalError::Device => 30,
            JournalError::OutOfMemory => 31,
            JournalError::Reopen => 32,
            JournalError::JournalFull => 34,
            JournalError::Damaged { .. } => 40,
        }
    }
}
