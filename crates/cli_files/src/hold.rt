//! Opens a file and locks it, so that no other program writes it meanwhile.
ghost use Rattle.std.specs.Prelude.{Bool, Result, Ok, IfErr, IfOk};
ghost use Rattle.std.specs.declared.fs.TryLockError.{TryLockError};
ghost use Rattle.cli_files.specs.Accesses.{may_write};
ghost use Rattle.cli_files.specs.Causes.{IsOfHolding};
ghost use Rattle.cli_files.specs.Locks.{IsLocked};

use crate::Cause;
use std::fs::{File, Files, OpenOptions, TryLockError};

/// A file that can be locked against other programs.
pub trait Hold {
    // What a lock of a file, exclusive where it is true, may answer.
    ghost locks: { Self → Bool → Result (Unit {0}) TryLockError → Type 0 } = { λ _ _ _. Unit {0} };

    /// Locks the file until it is closed: exclusively if `alone`, else shared. It doesn't wait.
    fn hold(&self, alone: bool) -> Result<(), TryLockError>
        ensures { locks self.now alone result };
}

impl Hold for File {
    fn hold(&self, alone: bool) -> Result<(), TryLockError> {
        if alone {
            self.try_lock()
        } else {
            self.try_lock_shared()
        }
    }
}

/// What a file is opened for.
#[derive(Clone, Copy)]
pub enum Access {
    /// Reads only.
    Reads,
    /// Reads and writes.
    Writes,
    /// Reads and writes; the file is made if there is none.
    Making,
}

impl Access {
    ghost use Rattle.std.specs.Prelude.{◌≡◌};
    ghost use Rattle.cli_files.specs.Accesses.{may_write};

    /// Whether the file may be written.
    pub fn writes(&self) -> bool
        ensures { result ≡ may_write self.now }
    {
        match self {
            Access::Reads => false,
            Access::Writes | Access::Making => true,
        }
    }
}

// Locks a file, or returns `Held` if another program has locked it. On a file system without locks nothing is locked.
pub fn held<F: Hold>(file: &F, alone: bool) -> Result<(), Cause>
    ensures { IsLocked F.locks file.now alone result }
{
    match file.hold(alone) {
        Ok(()) | Err(TryLockError::Error(_)) => Ok(()),
        Err(TryLockError::WouldBlock) => Err(Cause::Held),
    }
}

/// Opens the file at the path and locks it until it is closed: exclusively if it may be written, else shared. Only a
/// regular file is opened, since a pipe could block forever.
///
/// # Errors
///
/// `System`, `NotRegular`, or `Held` if another program has locked the file.
pub fn open_held<E: Files>(rt: &E, path: &str, access: Access) -> Result<E::File, Cause>
where
    E::File: Hold,
    ensures locked { IfOk result (λ file. IsLocked E.File.locks file (may_write access) (Ok tt)) }
    ensures refused { IfErr result IsOfHolding }
{
    if let Ok(found) = rt.metadata(path) {
        if !found.is_file() {
            return Err(Cause::NotRegular);
        }
    }
    let file = OpenOptions::new()
        .read(true)
        .write(access.writes())
        .create(matches!(access, Access::Making))
        .open(rt, path)?;
    held(&file, access.writes())?;
    Ok(file)
}
