//! Makes the new file beside the one that it is to replace.
ghost use Rattle.std.specs.Prelude.{None, Ok, true, IfErr, IfOk, IfSome};
ghost use Rattle.cli_files.specs.Causes.{IsOfOpeningNew};
ghost use Rattle.cli_files.specs.Locks.{IsLocked};
ghost use Rattle.cli_files.specs.Replaced.{WasOurs};

use crate::Cause;
use crate::hold::{Hold, held};
use crate::name::beside;
use crate::replaceable::{Form, may_be_replaced};
use std::alloc::Global;
use std::fs::{self, Files, OpenFile, OpenOptions};
use std::io::{self, Error, ErrorKind};
use std::os::unix::fs::MetadataExt;
use std::path::PathBuf;

// The ends of a new file's name, in the order in which they are tried: at some there may be
// files that aren't ours.
const ENDS: &[&str] = &["", "-1", "-2", "-3", "-4", "-5", "-6", "-7", "-8", "-9"];

/// A new file that is open and locked, and its path.
#[derive(Drop)]
pub struct Made<F> {
    pub file: F,
    pub path: PathBuf,
}

/// What a new file is made for: its form, and the file that its bytes are made from, which it never removes.
#[derive(Clone, Copy)]
pub struct Purpose<'a> {
    pub form: Form,
    pub read: Option<&'a str>,
}

// Whether the open file is the one at the path.
fn stands_at<E: Files>(rt: &E, file: &E::File, path: &str) -> io::Result<bool> {
    let found = rt.symlink_metadata(path)?;
    let own = file.metadata()?;
    Ok(found.dev() == own.dev() && found.ino() == own.ino())
}

/// Whether both paths lead to the same existing file.
pub fn lead_to_one<E: Files>(rt: &E, one: &str, other: &str) -> io::Result<bool> {
    let one = rt.metadata(one)?;
    let other = rt.metadata(other)?;
    Ok(one.dev() == other.dev() && one.ino() == other.ino())
}

// Whether the path leads to the file that the new one is made from.
fn is_read<E: Files>(rt: &E, path: &str, read: Option<&str>) -> bool {
    match read {
        Some(read) => !matches!(lead_to_one(rt, path, read), Ok(false)),
        None => false,
    }
}

// Makes a new file at the path, and fails if there is one already.
fn make<E: Files>(rt: &E, path: &str) -> io::Result<E::File> {
    OpenOptions::new()
        .write(true)
        .create_new(true)
        .open(rt, path)
}

// The new file at the path that a killed program left, locked, if it is one: a regular file that is empty or of the
// form, and isn't read. `Held` if the program that makes it still runs.
fn left_at<E: Files>(
    alloc: Global,
    rt: &E,
    path: &str,
    purpose: Purpose<'_>,
) -> Result<Option<E::File>, Cause>
where
    E::File: Hold,
    ensures ours { IfOk result (λ left. IfSome left (λ file.
        IsLocked E.File.locks file true (Ok tt)
        × WasOurs E.File.remaining purpose.entry.form)) }
    ensures refused { IfErr result (IsOfOpeningNew None) }
{
    match rt.symlink_metadata(path) {
        Ok(found) if found.is_file() => {}
        _ => return Ok(None),
    }
    if is_read(rt, path, purpose.read) {
        return Ok(None);
    }
    let Ok(bytes) = fs::open(rt, path) else {
        return Ok(None);
    };
    if !matches!(may_be_replaced(alloc, purpose.form, bytes), Ok(true)) {
        return Ok(None);
    }
    let left = fs::open(rt, path)?;
    match held(&left, true) {
        Ok(()) => Ok(Some(left)),
        Err(cause) => Err(cause),
    }
}

// Makes a new file at the path, in place of one that a killed program left. If a file of another program stands there,
// returns `None`, and that file stays.
fn made_at<E: Files>(
    alloc: Global,
    rt: &E,
    path: &str,
    purpose: Purpose<'_>,
) -> Result<Option<E::File>, Cause>
where
    E::File: Hold,
    ensures { IfErr result (IsOfOpeningNew None) }
{
    match make(rt, path) {
        Ok(file) => return Ok(Some(file)),
        Err(error) if error.kind() == ErrorKind::AlreadyExists => {}
        Err(error) => return Err(Cause::System(error)),
    }
    let Some(_left) = left_at(alloc, rt, path, purpose)? else {
        return Ok(None);
    };
    rt.remove_file(path)?;
    match make(rt, path) {
        Ok(file) => Ok(Some(file)),
        Err(error) if error.kind() == ErrorKind::AlreadyExists => Err(Cause::Held),
        Err(error) => Err(Cause::System(error)),
    }
}

// Locks the new file that was made at the path. A program that finds one there gets the lock before it removes the
// file.
fn hold_made<E: Files>(rt: &E, path: &str, file: E::File) -> Result<E::File, Cause>
where
    E::File: Hold,
    ensures locked { IfOk result (λ file. IsLocked E.File.locks file true (Ok tt)) }
    ensures refused { IfErr result (IsOfOpeningNew None) }
{
    held(&file, true)?;
    match stands_at(rt, &file, path) {
        Ok(true) => Ok(file),
        Ok(false) => Err(Cause::Held),
        Err(error) => {
            let _ = rt.remove_file(path);
            Err(Cause::System(error))
        }
    }
}

/// Makes a new file beside the one at `target`, and locks it. At its first name there may be a file of another program,
/// which stays; then the next name is tried.
///
/// # Errors
///
/// `Held` if another program is making a new file for the target, `System`, or `OutOfMemory`.
pub fn make_beside<E: Files>(
    alloc: Global,
    rt: &E,
    target: &str,
    purpose: Purpose<'_>,
) -> Result<Made<E::File>, Cause>
where
    E::File: Hold,
    ensures locked { IfOk result (λ made. IsLocked E.File.locks made.file true (Ok tt)) }
    ensures refused { IfErr result (IsOfOpeningNew None) }
{
    for &end in ENDS {
        let path = beside(alloc, target, end)?;
        let made = made_at(alloc, rt, path.as_path().as_str(), purpose)?;
        if let Some(file) = made {
            let file = hold_made(rt, path.as_path().as_str(), file)?;
            return Ok(Made { file, path });
        }
    }
    Err(Cause::System(Error::from(ErrorKind::AlreadyExists)))
}
