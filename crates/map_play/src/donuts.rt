//! Lines without a side that a donut needs. The rule is the engine's own (`EV_DoDonut` of its source).
ghost use Rattle.std.specs.Prelude.{◌≡◌, ◌==◌, IfOk, find};
ghost use Rattle.std.specs.List.{list_any};
ghost use Rattle.map_play.specs.Donuts.{is_on_left, is_beside, sector_across, is_outer, gap_at, gap_of_ring, gap_past, gap_of_pool, is_pool, donut_gap, donut_gaps};
ghost use Rattle.map_play.specs.Sided.{sided_lines};
ghost use Rattle.map_play.specs.Specials.{donuts, special_tag};
ghost use Rattle.map_play.specs.Tags.{MarksTags};

use crate::sided::SidedLine;
use crate::specials::DONUTS;
use crate::tags::{special_tags, tag_of};
use map_tables::{Kind, Map};
use std::alloc::{AllocError, Global};

// Whether the sector is on the line's left.
fn is_on_left(sector: u32, line: &SidedLine) -> bool
    ensures { result ≡ is_on_left sector line.now }
{
    match line.left {
        Some(left) => u32::from(left) == sector,
        None => false,
    }
}

/// Whether the sector is on a side of the line.
pub(crate) fn is_beside(sector: u32, line: &SidedLine) -> bool
    ensures { result ≡ is_beside sector line.now }
{
    u32::from(line.right) == sector || is_on_left(sector, line)
}

/// What lies across the line from a sector beside it: nothing if the line isn't two-sided.
pub(crate) fn sector_across(sector: u32, line: &SidedLine) -> Option<u16>
    ensures { result ≡ sector_across sector line.now }
{
    if !line.is_two_sided {
        return None;
    }
    if u32::from(line.right) == sector {
        line.left
    } else {
        Some(line.right)
    }
}

// Whether this is a line of the ring, and the pool isn't on its left.
fn is_outer(pool: u32, ring: u32, line: &SidedLine) -> bool
    ensures { result ≡ is_outer pool ring line.now }
{
    is_beside(ring, line) && !is_on_left(pool, line)
}

// The first such line.
fn first_outer(lines: &[SidedLine], pool: u32, ring: u32) -> Option<SidedLine>
    ensures { result ≡ find (is_outer pool ring) lines.now }
{
    lines
        .iter()
        .copied()
        .find(|line| is_outer(pool, ring, line))
}

// The first line beside the sector.
fn first_beside(lines: &[SidedLine], sector: u32) -> Option<SidedLine>
    ensures { result ≡ find (is_beside sector) lines.now }
{
    lines.iter().copied().find(|line| is_beside(sector, line))
}

// The line's number, if it has no left side.
fn gap_at(line: &SidedLine) -> Option<u32>
    ensures { result ≡ gap_at line.now }
{
    match line.left {
        Some(_) => None,
        None => Some(line.number),
    }
}

// The first line of the ring that doesn't have the pool on its left, if it has no left side.
fn gap_of_ring(lines: &[SidedLine], pool: u32, ring: u32) -> Option<u32>
    ensures { result ≡ gap_of_ring lines.now pool ring }
{
    match first_outer(lines, pool, ring) {
        Some(line) => gap_at(&line),
        None => None,
    }
}

// The line that lacks a side: the pool's first line, or one of the ring that lies across it.
fn gap_past(lines: &[SidedLine], pool: u32, line: &SidedLine) -> Option<u32>
    ensures { result ≡ gap_past lines.now pool line.now }
{
    match sector_across(pool, line) {
        Some(ring) => gap_of_ring(lines, pool, u32::from(ring)),
        None => Some(line.number),
    }
}

// The line that lacks a side which a donut needs round the pool.
fn gap_of_pool(lines: &[SidedLine], pool: u32) -> Option<u32>
    ensures { result ≡ gap_of_pool lines.now pool }
{
    match first_beside(lines, pool) {
        Some(line) => gap_past(lines, pool, &line),
        None => None,
    }
}

// Whether sector n has the tag of a donut, which isn't 0.
fn is_pool(map: &Map, tags: &[bool], n: u32) -> bool
    requires { MarksTags (special_tag donuts) map.now.tables.lines tags.now }
    ensures { result ≡ is_pool map.now.tables n }
{
    match map.sector(n) {
        Some(sector) => {
            let tag = tag_of(&sector);
            tag != 0 && tags[usize::from(tag)]
        }
        None => false,
    }
}

// The line that lacks a side which a donut needs round sector n, if that is a pool.
fn donut_gap(map: &Map, tags: &[bool], lines: &[SidedLine], n: u32) -> Option<u32>
    requires tags { MarksTags (special_tag donuts) map.now.tables.lines tags.now }
    requires lines { lines.now ≡ sided_lines map.now.tables }
    ensures { result ≡ donut_gap map.now.tables n }
{
    if is_pool(map, tags, n) {
        gap_of_pool(lines, n)
    } else {
        None
    }
}

/// The lines that lack a side which a donut needs, in the order of their pools.
pub(crate) fn donut_gaps(
    alloc: Global,
    map: &Map,
    lines: &[SidedLine],
) -> Result<Vec<u32>, AllocError>
    requires { lines.now ≡ sided_lines map.now.tables }
    ensures { IfOk result (λ gaps. gaps.items ≡ donut_gaps map.now.tables) }
{
    let tags = special_tags(alloc, map, &DONUTS)?;
    let mut gaps = Vec::new(alloc);
    for n in 0..map.count(Kind::Sector) {
        match donut_gap(map, &tags, lines, n) {
            Some(line) => gaps.push(line)?,
            None => {}
        }
    }
    Ok(gaps)
}

/// Whether the number is one of these.
pub(crate) fn is_gap(gaps: &[u32], n: u32) -> bool
    ensures { result ≡ list_any (λ k. k == n) gaps.now }
{
    gaps.iter().any(|gap| *gap == n)
}
