//! The audit of subsectors: they tile the segs.
ghost use Rattle.std.specs.Prelude.{◌≡◌};
ghost use Rattle.wad_build.specs.Audit.{first_some, sub_faults, sub_range};
ghost use Rattle.wad_levels.specs.Views.{view};

use crate::fault::Fault;
use lump_records::Sub;
use wad_levels::Level;

// Whether the subsector has a seg, and its first seg is `at`.
fn begins_at(sub: Sub, at: usize) -> bool
    ensures { result ≡ sub_range (at, sub) }
{
    sub.count > 0 && sub.first as usize == at && sub.first <= 32767
}

/// The first subsector that is empty or whose segs don't follow those of the one before; otherwise the fault that
/// the subsectors don't have all segs.
pub fn sub_fault(level: &Level) -> Option<Fault>
    ensures { result ≡ first_some (sub_faults (view level.now)) }
{
    let mut at: usize = 0;
    for n in 0..level.subs.len() {
        let sub = level.subs[n];
        if !begins_at(sub, at) {
            return Some(Fault::SubRange(n));
        }
        at += sub.count as usize;
    }
    if at != level.segs.len() {
        return Some(Fault::SubTotal);
    }
    None
}
