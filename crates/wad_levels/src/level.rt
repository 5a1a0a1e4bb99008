//! A level read from a WAD's bytes.
ghost use Rattle.std.specs.Prelude.{◌≡◌, ◌+◌, ◌<◌, IfOk, IsOkUnless, MatchResult};
ghost use Rattle.wad_levels.specs.Levels.{IsLevel, IsWhole, lumps_behind};
ghost use Rattle.wad_file.specs.Directory.{lump};
ghost use Rattle.wad_levels.specs.Views.{RefusesLevel, view};

use crate::error::ReadError;
use crate::listing::read_wad;
use crate::lumps::{are_whole, has_lumps, is_hexen};
use lump_records::{
    Line, Node, Sector, Seg, Side, Sub, Thing, Vertex, decode_lines, decode_nodes, decode_sectors,
    decode_segs, decode_sides, decode_subs, decode_things, decode_vertices,
};
use std::alloc::Global;
use wad_file::Wad;

/// What a level's ten lumps hold: the records of eight, and the bytes of REJECT and BLOCKMAP.
pub struct Level {
    pub things: Vec<Thing>,
    pub lines: Vec<Line>,
    pub sides: Vec<Side>,
    pub vertices: Vec<Vertex>,
    pub segs: Vec<Seg>,
    pub subs: Vec<Sub>,
    pub nodes: Vec<Node>,
    pub sectors: Vec<Sector>,
    pub reject: Vec<u8>,
    pub blockmap: Vec<u8>,
}

// A call of its own, so that the owner of a level drops its lists in one step.
impl Drop for Level {
    fn drop(self) {
        let Level {
            things: _things,
            lines: _lines,
            sides: _sides,
            vertices: _vertices,
            segs: _segs,
            subs: _subs,
            nodes: _nodes,
            sectors: _sectors,
            reject: _reject,
            blockmap: _blockmap,
        } = self;
    }
}

// The bytes of the n-th lump after a marker whose lumps lie inside the file.
fn lump<'a>(wad: &Wad<'a>, at: u32, n: u32) -> &'a [u8]
    requires level { IsWhole wad.now at }
    requires among { n < 10 }
    ensures { result.now ≡ lump wad.now (at + 1 + n) }
{
    // There are fewer than 2^32 entries; below too.
    let _ = wad.count();
    wad.standing(at + 1 + n)
}

// A copy of the n-th lump after a marker.
fn copied(alloc: Global, wad: &Wad<'_>, at: u32, n: u32) -> Result<Vec<u8>, ReadError>
    requires level { IsWhole wad.now at }
    requires among { n < 10 }
    ensures bytes { IfOk result (λ v. v.items ≡ lump wad.now (at + 1 + n)) }
    ensures memory { IsOkUnless result ReadError.OutOfMemory }
{
    let mut bytes = Vec::new(alloc);
    bytes.extend_from_slice(lump(wad, at, n))?;
    Ok(bytes)
}

// The level after a marker whose lumps lie inside the file and are whole records long, so only
// memory can run out.
fn level_behind(alloc: Global, wad: &Wad<'_>, at: u32) -> Result<Level, ReadError>
    requires { IsWhole wad.now at }
    ensures level { IfOk result (λ level. view level ≡ lumps_behind wad.now at) }
    ensures memory { IsOkUnless result ReadError.OutOfMemory }
{
    Ok(Level {
        things: decode_things(alloc, lump(wad, at, 0)).map_err(|_| ReadError::OutOfMemory)?,
        lines: decode_lines(alloc, lump(wad, at, 1)).map_err(|_| ReadError::OutOfMemory)?,
        sides: decode_sides(alloc, lump(wad, at, 2)).map_err(|_| ReadError::OutOfMemory)?,
        vertices: decode_vertices(alloc, lump(wad, at, 3)).map_err(|_| ReadError::OutOfMemory)?,
        segs: decode_segs(alloc, lump(wad, at, 4)).map_err(|_| ReadError::OutOfMemory)?,
        subs: decode_subs(alloc, lump(wad, at, 5)).map_err(|_| ReadError::OutOfMemory)?,
        nodes: decode_nodes(alloc, lump(wad, at, 6)).map_err(|_| ReadError::OutOfMemory)?,
        sectors: decode_sectors(alloc, lump(wad, at, 7)).map_err(|_| ReadError::OutOfMemory)?,
        reject: copied(alloc, wad, at, 8)?,
        blockmap: copied(alloc, wad, at, 9)?,
    })
}

// Reads the level with the name.
fn level_named(alloc: Global, wad: &Wad<'_>, name: &[u8]) -> Result<Level, ReadError>
    ensures { MatchResult result (λ level. IsLevel wad.now name.now (view level))
        (λ e. RefusesLevel wad.now name.now e) }
{
    let _ = wad.count();
    match wad.last_named(name) {
        Some(at) => {
            if !has_lumps(wad, at) {
                return Err(ReadError::LumpMissing);
            }
            if is_hexen(wad, at) {
                return Err(ReadError::HexenLevel);
            }
            if !wad.are_inside(at + 1, 10) {
                return Err(ReadError::LumpOutside);
            }
            if !are_whole(wad, at) {
                return Err(ReadError::LumpLength);
            }
            level_behind(alloc, wad, at)
        }
        None => Err(ReadError::NoSuchLevel),
    }
}

/// Reads the level with the name (docs/FORMAT.md, "WAD files"). If two lumps have the name, the later one is its
/// marker.
///
/// # Errors
///
/// The first that applies of `NotAWad`, `DirectoryOutside`, `NoSuchLevel`, `LumpMissing`, `HexenLevel`, `LumpOutside`,
/// `LumpLength`, in this order; or `OutOfMemory`.
pub fn read_level(alloc: Global, bytes: &[u8], name: &[u8]) -> Result<Level, ReadError>
    ensures { MatchResult result (λ level. IsLevel bytes.now name.now (view level))
        (λ e. RefusesLevel bytes.now name.now e) }
{
    match read_wad(bytes) {
        Ok(wad) => level_named(alloc, &wad, name),
        Err(error) => Err(error),
    }
}
