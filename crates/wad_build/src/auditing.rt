//! The audit of a level: its first fault.
ghost use Rattle.std.specs.Prelude.{◌≡◌, ◌↔◌, None, IfOk, IsOkUnless};
ghost use Rattle.wad_build.specs.Audit.{first_fault, first_some, list_faults};
ghost use Rattle.wad_build.specs.Range.{IsInRange};
ghost use Rattle.wad_levels.specs.Views.{view};

use crate::blocks::lump_fault;
use crate::children::{child_fault, once_fault};
use crate::fault::Fault;
use crate::ranges::{drawn_fault, first_of, seg_fault};
use crate::subs::sub_fault;
use std::alloc::Global;
use wad_levels::{Level, ReadError};

// The first fault of those that are found without allocating memory.
fn list_fault(level: &Level) -> Option<Fault>
    ensures { result ≡ first_some (list_faults (view level.now)) }
{
    let front = first_of(drawn_fault(level), seg_fault(level));
    let back = first_of(sub_fault(level), child_fault(level));
    first_of(front, back)
}

/// Returns the first fault of a level, in the order of docs/FORMAT.md, "What an audit looks for"; `None` exactly if
/// every reference of the level is in range. It fails only if memory runs out.
pub fn audit(alloc: Global, level: &Level) -> Result<Option<Fault>, ReadError>
    ensures first { IfOk result (λ fault. fault ≡ first_fault (view level.now)) }
    ensures sound { IfOk result (λ fault. (fault ≡ None) ↔ IsInRange (view level.now)) }
    ensures memory { IsOkUnless result ReadError.OutOfMemory }
{
    if let Some(fault) = list_fault(level) {
        return Ok(Some(fault));
    }
    match once_fault(alloc, level) {
        Ok(Some(fault)) => Ok(Some(fault)),
        Ok(None) => match lump_fault(alloc, level) {
            Ok(fault) => Ok(fault),
            Err(error) => Err(error),
        },
        Err(error) => Err(error),
    }
}
