//! The faults of what was drawn of a level that prevent no build, and so stay as they were.
ghost use Rattle.std.specs.Prelude.{◌≡◌, IfOk, IsOkUnless};
ghost use Rattle.wad_rebuild.specs.Kept.{kept_fault, kept_faults};

use crate::cause::Cause;
use lump_records::Line;
use std::alloc::Global;
use std::fmt;

/// A fault of what was drawn of a level that prevents no build, and so stays as it was. Lines have the numbers that the
/// level gives them.
#[derive(Clone, Copy, Debug, PartialEq, Eq)]
pub enum KeptFault {
    /// The line is two-sided and has no left side.
    NoLeftSide(usize),
}

impl fmt::Display for KeptFault {
    ghost use Rattle.std.specs.Prelude.{Some};
    ghost use Rattle.wad_rebuild.specs.Texts.{kept_text};

    ghost output = { λ f. Some (kept_text f) };

    fn fmt<W: fmt::Write>(&self, f: &mut fmt::Formatter<W>) -> fmt::Result {
        match self {
            KeptFault::NoLeftSide(n) => write!(f, "line {n} is two-sided and has no left side"),
        }
    }
}

// The fault of a line, if it has one that prevents no build.
fn kept_fault(n: usize, line: &Line) -> Option<KeptFault>
    ensures { result ≡ kept_fault (n, line.now) }
{
    if line.is_two_sided() && !line.has_left() {
        return Some(KeptFault::NoLeftSide(n));
    }
    None
}

/// The faults of the lines that prevent no build, by the lines' numbers.
pub fn kept_faults(alloc: Global, lines: &[Line]) -> Result<Vec<KeptFault>, Cause>
    ensures list { IfOk result (λ list. list.items ≡ kept_faults lines.now) }
    ensures memory { IsOkUnless result Cause.OutOfMemory }
{
    let list = lines
        .iter()
        .enumerate()
        .filter_map(|(n, line)| kept_fault(n, line))
        .collect(alloc);
    match list {
        Ok(list) => Ok(list),
        Err(_) => Err(Cause::OutOfMemory),
    }
}
