//! The lump REJECT.
ghost use Rattle.std.specs.Prelude.{◌≡◌, replicate, IfOk, IsOkUnless};
ghost use Rattle.wad_build.specs.Reject.{reject_size};

use std::alloc::Global;
use wad_levels::ReadError;

/// How many bytes REJECT has for a number of sectors: a bit for each pair of them.
pub fn reject_len(sectors: u16) -> usize
    ensures { result ≡ reject_size sectors }
{
    let pairs = u64::from(sectors) * u64::from(sectors);
    ((pairs + 7) / 8) as usize
}

/// The bytes of REJECT for a number of sectors: no sector is marked as out of sight of another, so that the engine
/// tests sight itself (docs/FORMAT.md, "REJECT and BLOCKMAP"). It fails only if memory runs out.
pub fn reject(alloc: Global, sectors: u16) -> Result<Vec<u8>, ReadError>
    ensures bytes { IfOk result (λ v. v.items ≡ replicate (reject_size sectors) 0) }
    ensures memory { IsOkUnless result ReadError.OutOfMemory }
{
    let bytes = vec![in alloc; 0u8; reject_len(sectors)]?;
    Ok(bytes)
}
