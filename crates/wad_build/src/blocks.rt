//! The audit of REJECT and BLOCKMAP.
ghost use Rattle.std.specs.Prelude.{◌≡◌, ◌≤◌, ◌+◌, false, get_or, length, IfOk, IsOkUnless};
ghost use Rattle.wad_build.specs.Audit.{block_faults, first_some, first_wrong, lump_faults, size_faults};
ghost use Rattle.wad_build.specs.Range.{blocks_in};
ghost use Rattle.wad_levels.specs.Views.{view};
ghost use Rattle.wad_build.specs.Words.{words};

use crate::endings::flags_of;
use crate::fault::Fault;
use std::alloc::Global;
use wad_levels::{Level, ReadError};

// Reads the bytes as 16-bit words.
fn words_of(alloc: Global, bytes: &[u8]) -> Result<Vec<u16>, ReadError>
    ensures words { IfOk result (λ v. v.items ≡ words bytes.now) }
    ensures memory { IsOkUnless result ReadError.OutOfMemory }
{
    let (chunks, _rest) = bytes.as_chunks::<2>();
    let mut all = Vec::with_capacity(alloc, chunks.len())?;
    for chunk in chunks {
        all.push(u16::from_le_bytes(*chunk))?;
    }
    Ok(all)
}

// The number of blocks, by the header.
fn blocks_in(words: &[u16]) -> u64
    ensures { result ≡ blocks_in words.now }
{
    let columns = words.get(2).copied().unwrap_or(0);
    let rows = words.get(3).copied().unwrap_or(0);
    u64::from(columns) * u64::from(rows)
}

// The fault that REJECT has less than a bit for each pair of sectors, or else that the blockmap's header or offsets
// don't fit in the lump.
fn size_fault(level: &Level, lump: &[u16]) -> Option<Fault>
    requires { lump.now ≡ words level.now.blockmap.items }
    ensures { result ≡ first_some (size_faults (view level.now)) }
{
    let sectors = level.sectors.len() as u128;
    if (sectors * sectors + 7) / 8 > level.reject.len() as u128 {
        return Some(Fault::Reject);
    }
    if 4 + blocks_in(lump) > lump.len() as u64 {
        return Some(Fault::BlockHeader);
    }
    None
}

// The flag at an index; false past the last one.
fn has_flag(flags: &[bool], at: u16) -> bool
    ensures { result ≡ get_or flags.now at false }
{
    flags.get(usize::from(at)).copied().unwrap_or(false)
}

// The index of the first offset whose flag isn't set.
fn unflagged(flags: &[bool], offsets: &[u16]) -> Option<usize>
    ensures { result ≡ first_wrong (λ at. get_or flags.now at false) offsets.now }
{
    offsets.iter().position(|at| !has_flag(flags, *at))
}

// The first block whose list doesn't end in the lump, or names a line out of range.
fn block_fault(alloc: Global, level: &Level, lump: &[u16]) -> Result<Option<Fault>, ReadError>
    requires words { lump.now ≡ words level.now.blockmap.items }
    requires header { 4 + blocks_in lump.now ≤ length lump.now }
    ensures fault { IfOk result (λ fault. fault ≡ first_some (block_faults (view level.now))) }
    ensures memory { IsOkUnless result ReadError.OutOfMemory }
{
    let flags = flags_of(alloc, lump, level.lines.len())?;
    let blocks = blocks_in(lump) as usize;
    match unflagged(&flags, &lump[4..4 + blocks]) {
        Some(n) => Ok(Some(Fault::BlockList(n))),
        None => Ok(None),
    }
}

/// The first fault of the sizes of REJECT and BLOCKMAP, or of a block's list.
pub fn lump_fault(alloc: Global, level: &Level) -> Result<Option<Fault>, ReadError>
    ensures fault { IfOk result (λ fault. fault ≡ first_some (lump_faults (view level.now))) }
    ensures memory { IsOkUnless result ReadError.OutOfMemory }
{
    let words = words_of(alloc, &level.blockmap)?;
    match size_fault(level, &words) {
        Some(fault) => Ok(Some(fault)),
        None => block_fault(alloc, level, &words),
    }
}
