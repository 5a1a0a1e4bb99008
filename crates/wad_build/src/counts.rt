//! Counts how often each number is a child, up to two.
ghost use Rattle.std.specs.Prelude.{◌≡◌, ◌<◌, ◌+◌, ℕ, List, get_or, length, take, IfOk, IsOkUnless};
ghost use Rattle.wad_build.specs.Counts.{AreChildCounts};

use std::alloc::Global;
use wad_levels::ReadError;

// Counts the child, if it is from `base` on and below `end`. A count stops at 2.
fn count_child(counts: &mut [u8], base: u16, end: u32, child: u16)
    ensures length { length counts.new ≡ length counts.old }
    ensures counted { (children : List ℕ) (k : ℕ) → k < length children
        → get_or children k 0 ≡ child → AreChildCounts base end (take k children) counts.old
        → AreChildCounts base end (take (k + 1) children) counts.new }
{
    if child < base || child as u32 >= end {
        return;
    }
    let n = (child - base) as usize;
    if n < counts.len() && counts[n] < 2 {
        counts[n] += 1;
    }
}

/// How often each of `len` numbers from `base` on is a child, up to 2.
pub fn count_children(
    alloc: Global,
    base: u16,
    end: u32,
    children: &[u16],
    len: usize,
) -> Result<Vec<u8>, ReadError>
    ensures counts { IfOk result (λ v. AreChildCounts base end children.now v.items) }
    ensures length { IfOk result (λ v. length v.items ≡ len) }
    ensures memory { IsOkUnless result ReadError.OutOfMemory }
{
    let mut counts = vec![in alloc; 0u8; len]?;
    for child in children {
        count_child(&mut counts, base, end, *child);
    }
    Ok(counts)
}
