//! Makes subsectors of the numbers of segs in the leaves.
ghost use Rattle.std.specs.Prelude.{◌≡◌, ◌<◌, ◌≤◌, ℕ, map, All, IfOk};
ghost use Rattle.lump_records.specs.declared.records.Sub.{Sub as SubRecord};
ghost use Rattle.tree_nodes.specs.References.{FollowsFrom};
ghost use Rattle.tree_nodes.specs.Tiling.{total};

use lump_records::Sub;
use std::alloc::{AllocError, Global};

/// The subsectors that hold so many segs each, in this order, from seg 0 on.
pub(crate) fn subs_of(alloc: Global, counts: &[usize]) -> Result<Vec<Sub>, AllocError>
    requires some { All (λ (n : ℕ). 0 < n) counts.now }
    requires few { total counts.now ≤ 32767 }
    ensures counts { IfOk result
        (λ subs. map (λ (sub : SubRecord). sub.count) subs.items ≡ counts.now) }
    ensures follow { IfOk result (λ subs. FollowsFrom 0 subs.items) }
{
    let mut subs = Vec::with_capacity(alloc, counts.len())?;
    let mut first: u16 = 0;
    for count in counts {
        let size = *count as u16;
        subs.push(Sub { count: size, first })?;
        first += size;
    }
    Ok(subs)
}
