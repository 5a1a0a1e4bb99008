//! Columns of a texture that more than one patch covers.
ghost use Rattle.std.specs.Prelude.{◌≡◌, [], IfOk, not};
ghost use Rattle.lump_textures.specs.Marks.{MarksColumns};
ghost use Rattle.lump_textures.specs.Patched.{is_patched};

use crate::marks::cover;
use crate::patch::Patch;
use std::alloc::{AllocError, Global};

// Marks the columns that the patches cover, up to the first patch that covers a marked one: whether none does.
fn cover_all(marks: &mut [bool], width: u16, patches: &[Patch]) -> bool
    requires { MarksColumns width [] marks.old }
    ensures { result ≡ not (is_patched width patches.now) }
{
    for patch in patches {
        if !cover(marks, width, *patch) {
            return false;
        }
    }
    true
}

/// Whether more than one of the patches covers some column of a texture that is `width` columns wide. Takes memory for
/// a mark of each column, and goes once over the patches and over the columns that each covers, up to the first one
/// that two cover.
pub fn is_patched(alloc: Global, width: u16, patches: &[Patch]) -> Result<bool, AllocError>
    ensures { IfOk result (λ found. found ≡ is_patched width patches.now) }
{
    let mut marks = vec![in alloc; false; usize::from(width)]?;
    Ok(!cover_all(&mut marks, width, patches))
}
