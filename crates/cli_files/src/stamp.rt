//! Which file stands at a path, to tell later whether it has been changed or replaced.
ghost use Rattle.std.specs.Prelude.{◌≡◌, ◌≢◌, IfErr, IfOk};
ghost use Rattle.cli_files.specs.Causes.{IsOfPutting};
ghost use Rattle.cli_files.specs.declared.cause.Cause.TheVariants.{Changed};

use crate::Cause;
use std::fs::{Files, Metadata};
use std::io::{self, ErrorKind};
use std::os::unix::fs::MetadataExt;

/// Which file it is, how long, and when it was last written.
#[derive(Clone, Copy, PartialEq)]
pub struct Stamp {
    device: u64,
    inode: u64,
    len: u64,
    seconds: i64,
    nanoseconds: i64,
}

// The stamp of a file with this metadata.
fn stamp_of(found: &Metadata) -> Stamp {
    Stamp {
        device: found.dev(),
        inode: found.ino(),
        len: found.size(),
        seconds: found.mtime(),
        nanoseconds: found.mtime_nsec(),
    }
}

/// The stamp of the file that a path leads to; `None` if there is no file.
pub fn stamp_at<E: Files>(rt: &E, path: &str) -> io::Result<Option<Stamp>> {
    match rt.metadata(path) {
        Ok(found) => Ok(Some(stamp_of(&found))),
        Err(error) if error.kind() == ErrorKind::NotFound => Ok(None),
        Err(error) => Err(error),
    }
}

// Refuses another file than the one with this stamp, or the same one changed.
fn check_same(now: Option<Stamp>, was: Option<Stamp>) -> Result<(), Cause>
    ensures same { IfOk result (λ _. now ≡ was) }
    ensures other { IfErr result (λ cause. (cause ≡ Changed) × (now ≢ was)) }
{
    if now == was {
        Ok(())
    } else {
        Err(Cause::Changed)
    }
}

/// Refuses a path at which another file stands than the one with this stamp, or the same one changed.
pub fn check_unchanged<E: Files>(rt: &E, path: &str, was: Option<Stamp>) -> Result<(), Cause>
    ensures { IfErr result IsOfPutting }
{
    check_same(stamp_at(rt, path)?, was)
}
