//! The PWAD of levels, and the numbers of their records, counted before it is written.
ghost use Rattle.std.specs.Prelude.{◌≡◌, ◌+◌, All, length, map, IfOk, IsOkUnless};
ghost use Rattle.lump_records.specs.Names.{name_text};
ghost use Rattle.wad_build.specs.Counted.{CountsLevels, CountsMore};
ghost use Rattle.wad_levels.specs.Levels.{IsLevel};
ghost use Rattle.wad_build.specs.Sizes.{AreSized};
ghost use Rattle.wad_build.specs.Views.{built_view, level_parts, sized_levels};
ghost use Rattle.wad_build.specs.Wad.{AreParts, all_lumps, wad_bytes};

use crate::error::BuildError;
use crate::levels::{BuiltLevel, NamedLevel, write_pwad};
use crate::sizes::list_levels;
use std::alloc::Global;
use wad_file::LumpList;

/// How many vertices, segs, subsectors and nodes the built levels have in all, and how many bytes the PWAD has.
#[derive(Clone, Copy)]
pub struct BuildCounts {
    pub vertices: u64,
    pub segs: u64,
    pub subs: u64,
    pub nodes: u64,
    pub bytes: u64,
}

/// The PWAD of a project's maps, and its counts.
#[derive(Drop)]
pub struct BuiltWad {
    pub bytes: Vec<u8>,
    pub counts: BuildCounts,
}

/// What is known of a PWAD before a byte of it is written: its lumps by their sizes, and its counts.
#[derive(Drop)]
pub struct CountedLumps<'a> {
    pub lumps: LumpList<'a>,
    pub counts: BuildCounts,
}

// The count plus `more`. Memory can't hold so many records that the sum overflows.
fn with_more(count: u64, more: usize) -> Result<u64, BuildError>
    ensures sum { IfOk result (λ sum. sum ≡ count + more) }
    ensures memory { IsOkUnless result BuildError.OutOfMemory }
{
    match count.checked_add(more as u64) {
        Some(sum) => Ok(sum),
        None => Err(BuildError::OutOfMemory),
    }
}

// The counts plus those of one more level.
fn with_level(counts: BuildCounts, level: &BuiltLevel<'_>) -> Result<BuildCounts, BuildError>
    ensures counted { IfOk result (CountsMore counts (built_view level.now)) }
    ensures memory { IsOkUnless result BuildError.OutOfMemory }
{
    Ok(BuildCounts {
        vertices: with_more(counts.vertices, level.tree.vertices.len())?,
        segs: with_more(counts.segs, level.tree.segs.len())?,
        subs: with_more(counts.subs, level.tree.subs.len())?,
        nodes: with_more(counts.nodes, level.tree.nodes.len())?,
        bytes: counts.bytes,
    })
}

// The counts of the levels, whose PWAD has `len` bytes.
fn counts_of(levels: &[NamedLevel<'_>], len: u64) -> Result<BuildCounts, BuildError>
    ensures counted { IfOk result
        (CountsLevels (map (λ x. built_view x.level) levels.now) len) }
    ensures memory { IsOkUnless result BuildError.OutOfMemory }
{
    let mut counts = BuildCounts {
        vertices: 0,
        segs: 0,
        subs: 0,
        nodes: 0,
        bytes: len,
    };
    for n in 0..levels.len() {
        let named = &levels[n];
        match with_level(counts, &named.level) {
            Ok(more) => counts = more,
            Err(error) => return Err(error),
        }
    }
    Ok(counts)
}

/// The lumps of the levels' PWAD, and its counts.
pub fn counted_lumps<'a>(
    alloc: Global,
    levels: &[NamedLevel<'_>],
) -> Result<CountedLumps<'a>, BuildError>
    requires sized { All (λ l. AreSized (built_view l.level)) levels.now }
    requires parts { AreParts (level_parts levels.now) }
    ensures lumps { IfOk result (λ c. c.lumps ≡ sized_levels levels.now) }
    ensures counted { IfOk result (λ c. CountsLevels
        (map (λ x. built_view x.level) levels.now)
        (length (wad_bytes (all_lumps (level_parts levels.now)))) c.counts) }
    ensures memory { IsOkUnless result BuildError.OutOfMemory }
{
    let lumps = list_levels(alloc, levels)?;
    let counts = counts_of(levels, lumps.size())?;
    Ok(CountedLumps { lumps, counts })
}

/// The PWAD of the levels, each of which reads back by its name, and its counts.
pub fn counted_wad(alloc: Global, levels: &[NamedLevel<'_>]) -> Result<BuiltWad, BuildError>
    requires sized { All (λ l. AreSized (built_view l.level)) levels.now }
    requires parts { AreParts (level_parts levels.now) }
    ensures bytes { IfOk result (λ built.
        built.bytes.items ≡ wad_bytes (all_lumps (level_parts levels.now))) }
    ensures levels { IfOk result (λ built. All (λ l.
        IsLevel built.bytes.items (name_text l.name) (built_view l.level)) levels.now) }
    ensures counted { IfOk result (λ built. CountsLevels
        (map (λ x. built_view x.level) levels.now) (length built.bytes.items) built.counts) }
    ensures memory { IsOkUnless result BuildError.OutOfMemory }
{
    let CountedLumps { lumps, counts } = counted_lumps(alloc, levels)?;
    let mut bytes = Vec::with_capacity(alloc, counts.bytes as usize)?;
    match write_pwad(&lumps, levels, &mut bytes) {
        Ok(()) => Ok(BuiltWad { bytes, counts }),
        Err(_) => Err(BuildError::OutOfMemory),
    }
}
