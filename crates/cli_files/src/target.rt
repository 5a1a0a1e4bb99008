//! The file that a path leads to.
ghost use Rattle.std.specs.Prelude.{None, IfErr};
ghost use Rattle.cli_files.specs.Causes.{IsOfOpeningNew};

use crate::Cause;
use std::alloc::Global;
use std::fs::Files;
use std::io::{Error, ErrorKind};
use std::path::PathBuf;

// The most symbolic links that are followed; the system follows as many.
const LINKS: u32 = 40;

/// The path to which the symbolic links at the end of a path lead; there may be no file at it yet.
pub fn target_of<E: Files>(alloc: Global, rt: &E, path: &str) -> Result<PathBuf, Cause>
    ensures { IfErr result (IsOfOpeningNew None) }
{
    let mut at = PathBuf::from_str(alloc, path)?;
    for _ in 0..LINKS {
        match rt.symlink_metadata(at.as_path().as_str()) {
            Ok(found) if found.is_symlink() => {}
            _ => return Ok(at),
        }
        let link = rt.read_link(alloc, at.as_path().as_str())?;
        at = at.as_path().with_file_name(alloc, link.as_path().as_str())?;
    }
    Err(Cause::System(Error::from(ErrorKind::FilesystemLoop)))
}
