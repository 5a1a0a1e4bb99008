//! A WAD whose levels are built anew.
ghost use Rattle.std.specs.Prelude.{◌≡◌, MatchResult, map, take, string_bytes};
ghost use Rattle.wad_file.specs.Lumps.{wad_size};
ghost use Rattle.wad_file.specs.Placed.{placed_size};
ghost use Rattle.wad_rebuild.specs.Held.{HasDirectory, directory_of, placed_lumps};
ghost use Rattle.wad_rebuild.specs.Rebuilt.{IsRebuiltWad, RefusesRebuild, greatest_size, rebuilt_lumps, size_limit};
ghost use Rattle.wad_rebuild.specs.Whole.{AreReady, IsAcceptedWad, IsAcceptedWith, IsListOf, IsShortWad, RefusesFinding, RefusesBytes};

use crate::error::RebuildError;
use crate::held::Held;
use crate::levels::{RebuiltLevel, have_levels, rebuilt_levels};
use crate::parts::{BoundedWad, put_rebuilt};
use crate::sizes::{is_crowded, size_limit};
use std::alloc::Global;
use wad_file::{LumpList, Wad, WadError};
use wad_levels::{LevelEntries, levels_in};

/// A WAD whose levels were built anew, and what became of each of its levels, in the order of the directory.
#[derive(Drop)]
pub struct RebuiltWad {
    pub bytes: Vec<u8>,
    pub levels: Vec<RebuiltLevel>,
}

// The levels of a WAD that nothing refuses.
fn levels_of(
    alloc: Global,
    wad: &Wad<'_>,
    names: &[String],
) -> Result<Vec<LevelEntries>, RebuildError>
    ensures { MatchResult result
        (λ v. IsAcceptedWad wad.now (map string_bytes names.now) v.items)
        (RefusesFinding wad.now (map string_bytes names.now)) }
{
    let levels = match levels_in(alloc, wad) {
        Ok(levels) => levels,
        Err(_) => return Err(RebuildError::OutOfMemory),
    };
    if !wad.are_inside(0, wad.count()) {
        return Err(RebuildError::LumpOutside);
    }
    if is_crowded(wad) {
        return Err(RebuildError::TooLong);
    }
    if !have_levels(wad, &levels, names) {
        return Err(RebuildError::NoSuchLevel);
    }
    Ok(levels)
}

// What becomes of the levels of a WAD that nothing refuses.
fn levels_with(
    alloc: Global,
    wad: &Wad<'_>,
    names: &[String],
) -> Result<Vec<RebuiltLevel>, RebuildError>
    ensures { MatchResult result
        (λ v. IsAcceptedWith wad.now (map string_bytes names.now) v.items)
        (RefusesRebuild wad.now (map string_bytes names.now)) }
{
    let _ = wad.count();
    let found = match levels_of(alloc, wad, names) {
        Ok(found) => found,
        Err(error) => return Err(error),
    };
    match rebuilt_levels(alloc, wad, names, &found) {
        Ok(levels) => Ok(levels),
        Err(_) => Err(RebuildError::OutOfMemory),
    }
}

/// A WAD that nothing refuses, and what becomes of each of its levels, in the order of the directory.
#[derive(Drop)]
pub struct AcceptedWad<'a> {
    pub wad: Wad<'a>,
    pub levels: Vec<RebuiltLevel>,
}

/// What becomes of the levels of a WAD: all are built anew, or the last one with each of the names (docs/FORMAT.md,
/// "WADs built anew"). `list_lumps` then gives the lumps of the new WAD.
///
/// # Errors
///
/// The first that holds of `NotAWad`, `DirectoryOutside`, `LumpOutside` (of any lump that isn't empty), `TooLong` (the
/// lumps overlap, and together are more than four times as long as the file), `NoSuchLevel` (no level has a name); or
/// `OutOfMemory`.
pub fn rebuild_levels<'a>(
    alloc: Global,
    bytes: &'a [u8],
    names: &[String],
) -> Result<AcceptedWad<'a>, RebuildError>
    ensures { MatchResult result
        (λ a. (a.wad ≡ bytes.now)
        × IsAcceptedWith bytes.now (map string_bytes names.now) a.levels.items)
        (RefusesRebuild bytes.now (map string_bytes names.now)) }
{
    let wad = match Wad::read(bytes) {
        Ok(wad) => wad,
        Err(WadError::NotAWad) => return Err(RebuildError::NotAWad),
        Err(WadError::DirectoryOutside) => return Err(RebuildError::DirectoryOutside),
    };
    match levels_with(alloc, &wad, names) {
        Ok(levels) => Ok(AcceptedWad { wad, levels }),
        Err(error) => Err(error),
    }
}

/// The lumps of the WAD with its levels built anew: what was made of a level and what stands in memory of the old WAD
/// is at hand, the others have their places in the file that the WAD is of, which has `len` bytes.
///
/// # Errors
///
/// `TooLong` if the new WAD would have more bytes than it may have, or `OutOfMemory`.
pub fn list_lumps<'a>(
    alloc: Global,
    wad: &Wad<'a>,
    held: &Held<'_>,
    len: u64,
    levels: &'a [RebuiltLevel],
) -> Result<LumpList<'a>, RebuildError>
    requires ready { AreReady wad.now levels.now }
    requires directory { HasDirectory wad.now (directory_of held.now) }
    ensures { MatchResult result
        (IsListOf wad.now (directory_of held.now) len levels.now)
        (RefusesBytes (size_limit len)
        (placed_size (placed_lumps wad.now (directory_of held.now) levels.now))) }
{
    let most = size_limit(len);
    let mut to = match LumpList::begin(alloc, wad.count() as usize) {
        Ok(lumps) => BoundedWad { lumps, most },
        Err(_) => return Err(RebuildError::OutOfMemory),
    };
    match put_rebuilt(wad, held, levels, &mut to) {
        Ok(()) => {}
        Err(error) => return Err(error),
    }
    let BoundedWad { lumps, .. } = to;
    Ok(lumps)
}

// The bytes of the new WAD, of one that stands in memory whole.
fn written(alloc: Global, wad: &Wad<'_>, levels: &[RebuiltLevel]) -> Result<Vec<u8>, RebuildError>
    requires ready { AreReady wad.now levels.now }
    ensures { MatchResult result
        (λ v. IsShortWad (take 4 wad.now) (greatest_size wad.now) (rebuilt_lumps wad.now levels.now)
        v.items)
        (RefusesBytes (greatest_size wad.now) (wad_size (rebuilt_lumps wad.now levels.now))) }
{
    let mut source = wad.bytes();
    let lumps = match list_lumps(alloc, wad, &Held::Whole, source.len() as u64, levels) {
        Ok(lumps) => lumps,
        Err(error) => return Err(error),
    };
    let mut bytes = match Vec::with_capacity(alloc, lumps.size() as usize) {
        Ok(bytes) => bytes,
        Err(_) => return Err(RebuildError::OutOfMemory),
    };
    match lumps.write_to(wad.kind(), &mut source, &mut bytes) {
        Ok(()) => Ok(bytes),
        Err(_) => Err(RebuildError::OutOfMemory),
    }
}

/// Builds the levels of any editor's WAD anew, all or the last one with each of the names (docs/FORMAT.md, "WADs built
/// anew"). All other lumps stay as they are, in their order.
///
/// # Errors
///
/// The first that holds of `NotAWad`, `DirectoryOutside`, `LumpOutside` (of any lump that isn't empty), `TooLong` (the
/// lumps overlap, and together are more than four times as long as the file), `NoSuchLevel` (no level has a name). Then
/// `TooLong` if the new WAD would have more than 64 MB and more than sixteen times the bytes of this one, or four
/// gigabytes; or `OutOfMemory`.
pub fn rebuild_wad(
    alloc: Global,
    bytes: &[u8],
    names: &[String],
) -> Result<RebuiltWad, RebuildError>
    ensures { MatchResult result
        (IsRebuiltWad bytes.now (map string_bytes names.now))
        (RefusesRebuild bytes.now (map string_bytes names.now)) }
{
    let AcceptedWad { wad, levels } = match rebuild_levels(alloc, bytes, names) {
        Ok(accepted) => accepted,
        Err(error) => return Err(error),
    };
    match written(alloc, &wad, &levels) {
        Ok(bytes) => Ok(RebuiltWad { bytes, levels }),
        Err(error) => Err(error),
    }
}
