//! Lists the levels of a WAD by the names of their markers.
ghost use Rattle.std.specs.Prelude.{◌≡◌, ◌<◌, IfOk, IsOkUnless, MatchResult, None, Some};
ghost use Rattle.wad_file.specs.Directory.{lump_count};
ghost use Rattle.wad_levels.specs.Listing.{RefusesListing, is_level_marker, level_names, listing_refusal};

use crate::error::ReadError;
use lump_records::Name8;
use std::alloc::Global;
use wad_file::{Wad, WadError};

/// Whether THINGS follows the k-th entry, so that it is a level's marker.
pub fn is_marker(wad: &Wad<'_>, k: u32) -> bool
    requires among { k < lump_count wad.now }
    ensures { result ≡ is_level_marker wad.now k }
{
    k as u64 + 1 < wad.count() as u64 && wad.is_named(b"THINGS", k + 1)
}

// The names of the markers in a directory that lies inside the file.
fn names_in(alloc: Global, wad: &Wad<'_>) -> Result<Vec<Name8>, ReadError>
    ensures names { IfOk result (λ names. names.items ≡ level_names wad.now) }
    ensures memory { IsOkUnless result ReadError.OutOfMemory }
{
    let mut names = Vec::new(alloc);
    for k in 0..wad.count() {
        if is_marker(wad, k) {
            names.push(wad.name(k))?;
        }
    }
    Ok(names)
}

/// Reads the header of a WAD.
///
/// # Errors
///
/// The first of `NotAWad` and `DirectoryOutside` that applies.
pub fn read_wad(bytes: &[u8]) -> Result<Wad<'_>, ReadError>
    ensures { MatchResult result
        (λ wad. (listing_refusal bytes.now ≡ None) × (wad ≡ bytes.now))
        (λ e. listing_refusal bytes.now ≡ Some e) }
{
    match Wad::read(bytes) {
        Ok(wad) => Ok(wad),
        Err(WadError::NotAWad) => Err(ReadError::NotAWad),
        Err(WadError::DirectoryOutside) => Err(ReadError::DirectoryOutside),
    }
}

/// The names of a WAD's levels, in the order of its directory: those of the entries that
/// THINGS follows. A name may occur more than once, and a level may lack lumps.
///
/// # Errors
///
/// The first of `NotAWad` and `DirectoryOutside` that applies; or `OutOfMemory`.
pub fn level_names(alloc: Global, bytes: &[u8]) -> Result<Vec<Name8>, ReadError>
    ensures { MatchResult result
        (λ names. (listing_refusal bytes.now ≡ None) × (names.items ≡ level_names bytes.now))
        (RefusesListing bytes.now) }
{
    match read_wad(bytes) {
        Ok(wad) => names_in(alloc, &wad),
        Err(error) => Err(error),
    }
}
