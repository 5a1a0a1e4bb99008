//! The name of the new file that is made beside another.
ghost use Rattle.std.specs.Prelude.{◌≡◌, ◌++◌, None, IfErr, IfOk, string_bytes};
ghost use Rattle.std.specs.Path.{path_buf_bytes};
ghost use Rattle.cli_files.specs.Causes.{IsOfOpeningNew};
ghost use Rattle.cli_files.specs.Names.{beside_of, first_name, kept_name};

use crate::Cause;
use std::alloc::{AllocError, Global};
use std::io::{Error, ErrorKind};
use std::path::{Path, PathBuf};

// The longest name that is a part of the new file's; the system takes names of up to 255 bytes.
const LONGEST: usize = 230;

// The part of a name that the new file's has.
fn kept_name(name: &str) -> &str
    ensures { result.now ≡ kept_name name.now }
{
    if name.len() <= LONGEST { name } else { "" }
}

// The first name of the new file for the one with this name.
fn first_name(alloc: Global, name: &str) -> Result<String, AllocError>
    ensures { IfOk result (λ new. string_bytes new ≡ first_name name.now) }
{
    let kept = kept_name(name);
    format!(in alloc; ".{kept}.leveled-new")
}

// The name of the new file with this end.
fn new_name(alloc: Global, name: &str, end: &str) -> Result<String, AllocError>
    ensures { IfOk result (λ new. string_bytes new ≡ first_name name.now ++ end.now) }
{
    let mut new = first_name(alloc, name)?;
    new.push_str(end)?;
    Ok(new)
}

/// The path of the new file for another, in the same folder: `.NAME.leveled-new`, then the end. A NAME of more than 230
/// bytes is left out.
///
/// # Errors
///
/// `System` if the path doesn't end in a name, or `OutOfMemory`.
pub fn beside(alloc: Global, path: &str, end: &str) -> Result<PathBuf, Cause>
    ensures named { IfOk result (λ new. path_buf_bytes new ≡ beside_of path.now end.now) }
    ensures refused { IfErr result (IsOfOpeningNew None) }
{
    match Path::new(path).file_name() {
        Some(name) if !path.ends_with('/') => {
            let new = new_name(alloc, name, end)?;
            Ok(Path::new(path).with_file_name(alloc, new.as_str())?)
        }
        _ => Err(Cause::System(Error::from(ErrorKind::IsADirectory))),
    }
}
