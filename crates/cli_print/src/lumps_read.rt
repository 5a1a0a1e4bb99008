//! Which lumps of a WAD a request reads.

use std::alloc::Global;
use wad_file::Wad;
use wad_levels::{LevelEntries, last_called, levels_in};

/// The lumps of a WAD that a request reads.
#[derive(Clone, Copy)]
pub enum LumpsRead<'a> {
    /// None of them: the directory is enough.
    Names,
    /// Those of the first level.
    First,
    /// Those of all levels.
    All,
    /// Those of the last level with the name.
    Called(&'a str),
    /// Those of the last level with each of these names.
    Each(&'a [String]),
    /// The ten lumps behind each entry with the name.
    Behind(&'a str),
    /// Those that list textures and patches, and the heads of all others: whether a flat is empty, how wide a patch is.
    Graphics,
}

// All bytes of a lump.
const WHOLE: u32 = u32::MAX;

// So many bytes of a lump that a picture's width is among them.
const HEAD: u32 = 2;

// The names of the lumps that list textures and patches.
const GRAPHICS: [&str; 3] = ["PNAMES", "TEXTURE1", "TEXTURE2"];

impl<'a> LumpsRead<'a> {
    /// Those of the level with the name, or of the first one.
    pub fn of_level(name: Option<&'a str>) -> LumpsRead<'a> {
        match name {
            Some(name) => LumpsRead::Called(name),
            None => LumpsRead::First,
        }
    }

    /// Those of the level with the name, or of all levels.
    pub fn of_levels(name: Option<&'a str>) -> LumpsRead<'a> {
        match name {
            Some(name) => LumpsRead::Called(name),
            None => LumpsRead::All,
        }
    }

    /// Those of the levels with the names, or of all levels if there are no names.
    pub fn of_each(names: &'a [String]) -> LumpsRead<'a> {
        if names.is_empty() {
            LumpsRead::All
        } else {
            LumpsRead::Each(names)
        }
    }
}

// Asks for the whole lumps of the entries from `from` on and before `end`, as far as there are any.
fn mark(asked: &mut [u32], from: u32, end: u32) {
    let end = (end as usize).min(asked.len());
    for k in from as usize..end {
        asked[k] = WHOLE;
    }
}

// Asks for a level's lumps.
fn mark_level(asked: &mut [u32], level: LevelEntries) {
    mark(asked, level.marker.saturating_add(1), level.lumps_end);
}

// Asks for those of the last of the levels with the name, if there is one.
fn mark_called(wad: &Wad<'_>, levels: &[LevelEntries], name: &str, asked: &mut [u32]) {
    if let Some(level) = last_called(wad, levels, name.as_bytes()) {
        mark_level(asked, level);
    }
}

// Asks for the lumps from `from` on and before `end`, counted from each entry with the name.
fn mark_from(wad: &Wad<'_>, name: &str, from: u32, end: u32, asked: &mut [u32]) {
    for k in 0..wad.count() {
        if wad.is_named(name.as_bytes(), k) {
            mark(asked, k.saturating_add(from), k.saturating_add(end));
        }
    }
}

// Asks for the lumps of the WAD's levels that a request reads.
fn mark_levels(wad: &Wad<'_>, levels: &[LevelEntries], reads: LumpsRead<'_>, asked: &mut [u32]) {
    match reads {
        LumpsRead::First => {
            if let Some(level) = levels.first() {
                mark_level(asked, *level);
            }
        }
        LumpsRead::All => {
            for level in levels {
                mark_level(asked, *level);
            }
        }
        LumpsRead::Called(name) => mark_called(wad, levels, name, asked),
        LumpsRead::Each(names) => {
            for name in names {
                mark_called(wad, levels, name.as_str(), asked);
            }
        }
        LumpsRead::Names | LumpsRead::Behind(_) | LumpsRead::Graphics => {}
    }
}

// How much is read of a lump that isn't named.
fn asked_of_others(reads: LumpsRead<'_>) -> u32 {
    match reads {
        LumpsRead::Graphics => HEAD,
        _ => 0,
    }
}

/// How many bytes are read at most of the lump of each entry. None for lack of memory.
pub(crate) fn asked_in(alloc: Global, wad: &Wad<'_>, reads: LumpsRead<'_>) -> Option<Vec<u32>> {
    let mut asked = vec![in alloc; asked_of_others(reads); wad.count() as usize].ok()?;
    match reads {
        LumpsRead::Names => {}
        LumpsRead::Behind(name) => mark_from(wad, name, 1, 11, &mut asked),
        LumpsRead::Graphics => {
            for name in GRAPHICS {
                mark_from(wad, name, 0, 1, &mut asked);
            }
        }
        _ => {
            let levels = levels_in(alloc, wad).ok()?;
            mark_levels(wad, &levels, reads, &mut asked);
        }
    }
    Some(asked)
}

/// How many bytes are read of the lump of the k-th entry, which has `size`.
pub(crate) fn read_of(asked: &[u32], k: u32, size: u32) -> u32 {
    asked.get(k as usize).copied().unwrap_or(0).min(size)
}
