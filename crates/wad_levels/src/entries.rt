//! Finds the entries of the levels in the directory of any WAD.
ghost use Rattle.std.specs.Prelude.{◌≡◌, ◌+◌, ◌<◌, ◌≤◌, true, position, IfOk, IfSome, IsOkUnless};
ghost use Rattle.lump_records.specs.Names.{name_text};
ghost use Rattle.wad_levels.specs.Levels.{lump_names};
ghost use Rattle.wad_file.specs.Directory.{lump_count};
ghost use Rattle.wad_file.specs.Fields.{same_bytes};
ghost use Rattle.wad_levels.specs.Entries.{AreLevels, IsLevelAt, IsRunEnd, comes_later, form_of, goes_on, is_behavior, is_gl, is_gl_marker, is_gl_name, is_level, is_udmf, level_name, lump_entry, rank, rank_of_name};

use crate::error::ReadError;
use crate::listing::is_marker;
use crate::lumps::LUMP_NAMES;
use lump_records::Name8;
use std::alloc::Global;
use wad_file::Wad;

/// The form of a level: Doom's, with records; Hexen's, whose records differ; or text (UDMF).
#[derive(Clone, Copy)]
pub enum LevelForm {
    Doom,
    Hexen,
    Udmf,
}

/// The entries of a level, by their numbers in the directory: its marker, after it its lumps up to `lumps_end`, and
/// after them the lumps of another builder's nodes up to `gl_end`.
#[derive(Clone, Copy)]
pub struct LevelEntries {
    pub marker: u32,
    pub lumps_end: u32,
    pub gl_end: u32,
    pub form: LevelForm,
}

// The names of the lumps with another builder's nodes.
const GL_NAMES: [Name8; 5] = [
    Name8 {
        bytes: *b"GL_VERT\0",
    },
    Name8 {
        bytes: *b"GL_SEGS\0",
    },
    Name8 {
        bytes: *b"GL_SSECT",
    },
    Name8 {
        bytes: *b"GL_NODES",
    },
    Name8 {
        bytes: *b"GL_PVS\0\0",
    },
];

// Whether TEXTMAP follows the k-th entry.
#[tactic(auto, unfolding(crate::specs::Entries::is_udmf))]
fn is_udmf(wad: &Wad<'_>, k: u32) -> bool
    requires among { k < lump_count wad.now }
    ensures { result ≡ is_udmf wad.now k }
{
    k as u64 + 1 < wad.count() as u64 && wad.is_named(b"TEXTMAP", k + 1)
}

// Whether the k-th entry is the marker of a level.
#[tactic(auto, unfolding(crate::specs::Entries::is_level))]
fn is_level(wad: &Wad<'_>, k: u32) -> bool
    requires among { k < lump_count wad.now }
    ensures { result ≡ is_level wad.now k }
{
    is_marker(wad, k) || is_udmf(wad, k)
}

// The number of the text among the names of a level's lumps, if it is one.
fn number_of(text: &[u8]) -> Option<usize>
    ensures { result ≡ position (λ name. same_bytes (name_text name) text.now) lump_names }
{
    LUMP_NAMES.iter().position(|name| name.text() == text)
}

// The number of the text among the names of a level's lumps, or 10 if it is none of them.
#[tactic(auto, unfolding(crate::specs::Entries::rank_of_name))]
fn rank_of(text: &[u8]) -> usize
    ensures { result ≡ rank_of_name text.now }
{
    match number_of(text) {
        Some(n) => n,
        None => 10,
    }
}

// The number of the k-th entry's name among the names of a level's lumps.
fn rank(wad: &Wad<'_>, k: u32) -> usize
    requires among { k < lump_count wad.now }
    ensures { result ≡ rank wad.now k }
{
    let entry = wad.entry(k);
    rank_of(entry.name.text())
}

// Whether the k-th entry's name comes later in a level's order than that of the entry before it.
#[tactic(auto, unfolding(crate::specs::Entries::comes_later))]
fn comes_later(wad: &Wad<'_>, marker: u32, k: u32) -> bool
    requires among { k < lump_count wad.now }
    requires behind { marker < k }
    ensures { result ≡ comes_later wad.now marker k }
{
    k == marker + 1 || rank(wad, k - 1) < rank(wad, k)
}

// Whether the k-th entry continues the lumps of the level with this marker.
#[tactic(auto, unfolding(crate::specs::Entries::goes_on))]
fn goes_on(wad: &Wad<'_>, marker: u32, k: u32) -> bool
    requires among { k < lump_count wad.now }
    requires behind { marker < k }
    ensures { result ≡ goes_on wad.now marker k }
{
    !is_level(wad, k) && rank(wad, k) < 10 && comes_later(wad, marker, k)
}

// The first entry after the lumps of the level with this marker.
fn lumps_end(wad: &Wad<'_>, marker: u32) -> u32
    requires among { marker < lump_count wad.now }
    ensures { IsRunEnd (goes_on wad.now marker) (marker + 1) (lump_count wad.now) result }
{
    let count = wad.count();
    for k in marker + 1..count {
        if !goes_on(wad, marker, k) {
            return k;
        }
    }
    count
}

// Whether the text is a name of a lump with another builder's nodes.
#[tactic(auto, unfolding(crate::specs::Entries::is_gl_name))]
fn is_gl_name(text: &[u8]) -> bool
    ensures { result ≡ is_gl_name text.now }
{
    GL_NAMES.iter().any(|name| name.text() == text)
}

// Whether the text is GL_ followed by the name of the level.
#[tactic(auto, unfolding(crate::specs::Entries::is_gl_marker))]
fn is_gl_marker(level: &[u8], text: &[u8]) -> bool
    ensures { result ≡ is_gl_marker level.now text.now }
{
    match text.strip_prefix(b"GL_") {
        Some(rest) => rest == level,
        None => false,
    }
}

// Whether the k-th entry is a lump of another builder's nodes, of the level with this marker.
#[tactic(auto, unfolding(crate::specs::Entries::is_gl))]
fn is_gl(wad: &Wad<'_>, marker: u32, k: u32) -> bool
    requires among { k < lump_count wad.now }
    requires marker { marker < lump_count wad.now }
    ensures { result ≡ is_gl wad.now marker k }
{
    let level = wad.entry(marker);
    let entry = wad.entry(k);
    let text = entry.name.text();
    !is_level(wad, k) && (is_gl_name(text) || is_gl_marker(level.name.text(), text))
}

// The first entry after the lumps, from `from` on, with another builder's nodes of the level with this marker.
fn gl_end(wad: &Wad<'_>, marker: u32, from: u32) -> u32
    requires marker { marker < lump_count wad.now }
    requires among { from ≤ lump_count wad.now }
    ensures { IsRunEnd (is_gl wad.now marker) from (lump_count wad.now) result }
{
    let count = wad.count();
    for k in from..count {
        if !is_gl(wad, marker, k) {
            return k;
        }
    }
    count
}

// Whether the entry after a level's lumps shows that it is a Hexen level.
#[tactic(auto, unfolding(crate::specs::Entries::is_behavior))]
fn is_behavior(wad: &Wad<'_>, end: u32) -> bool
    ensures { result ≡ is_behavior wad.now end }
{
    end < wad.count() && wad.is_named(b"BEHAVIOR", end)
}

// The form of a level whose lumps end here.
fn form_of(wad: &Wad<'_>, marker: u32, end: u32) -> LevelForm
    requires among { marker < lump_count wad.now }
    ensures { result ≡ form_of wad.now marker end }
{
    if is_udmf(wad, marker) {
        LevelForm::Udmf
    } else if is_behavior(wad, end) {
        LevelForm::Hexen
    } else {
        LevelForm::Doom
    }
}

// The entries of the level with this marker.
fn level_at(wad: &Wad<'_>, marker: u32) -> LevelEntries
    requires among { marker < lump_count wad.now }
    requires is_marker { is_level wad.now marker ≡ true }
    ensures level { IsLevelAt wad.now result }
    ensures marker { result.marker ≡ marker }
{
    let lumps_end = lumps_end(wad, marker);
    LevelEntries {
        marker,
        lumps_end,
        gl_end: gl_end(wad, marker, lumps_end),
        form: form_of(wad, marker, lumps_end),
    }
}

/// The levels that a WAD of any editor holds, in the order of its directory (docs/FORMAT.md, "Levels of other WADs").
/// The time is proportional to the length of the directory. It fails only if memory runs out.
pub fn levels_in(alloc: Global, wad: &Wad<'_>) -> Result<Vec<LevelEntries>, ReadError>
    ensures levels { IfOk result (λ levels. AreLevels wad.now levels.items) }
    ensures memory { IsOkUnless result ReadError.OutOfMemory }
{
    let mut levels = Vec::new(alloc);
    for k in 0..wad.count() {
        if is_level(wad, k) {
            levels.push(level_at(wad, k))?;
        }
    }
    Ok(levels)
}

/// The name of a level's marker; without text if the directory has no such entry.
pub fn level_name(wad: &Wad<'_>, level: LevelEntries) -> Name8
    ensures { result ≡ level_name wad.now level }
{
    if level.marker < wad.count() {
        wad.name(level.marker)
    } else {
        Name8 { bytes: [0; 8] }
    }
}

/// The entry of the level's lump with this number in `LUMP_NAMES`, if the level has one.
pub fn lump_entry(wad: &Wad<'_>, level: LevelEntries, number: usize) -> Option<u32>
    ensures entry { result ≡ lump_entry wad.now level number }
    ensures among { IfSome result (λ k. k < lump_count wad.now) }
{
    let end = level.lumps_end.min(wad.count());
    if end <= level.marker {
        return None;
    }
    for k in level.marker + 1..end {
        if rank(wad, k) == number {
            return Some(k);
        }
    }
    None
}
