//! The trees and levels of maps with forty lines that cross one another, checked by brute force.

use crate::expect::same;
use crate::tangle::{Sequence, draw_tangle, skip_tangles};
use lump_records::{Seg, Vertex};
use map_tables::{Kind, Map};
use std::alloc::Global;
use std::fs;
use std::process::Abort;
use std::test::Fail;
use tree_nodes::{Built, build_tree};
use wad_build::{Fault, audit, build_wad, read_level};

// How many steps lie between two places: the difference in x plus that in y.
fn steps(from: Vertex, to: Vertex) -> usize {
    usize::from(from.x.abs_diff(to.x)).wrapping_add(usize::from(from.y.abs_diff(to.y)))
}

// The line of a side, in the direction of the side: where it begins and ends.
#[derive(Clone, Copy, Drop)]
struct Run {
    start: Vertex,
    end: Vertex,
}

impl Run {
    // The line of a side; `None` if the line has no such side.
    fn of(map: &Map, line: u32, side: u16) -> Option<Run> {
        let line = map.line(line)?;
        let v1 = map.vertex(u32::from(line.v1))?;
        let v2 = map.vertex(u32::from(line.v2))?;
        match side {
            0 => Some(Run { start: v1, end: v2 }),
            1 if line.has_left() => Some(Run { start: v2, end: v1 }),
            _ => None,
        }
    }

    // How far a place lies to the right, times the line's length.
    fn value(self, place: Vertex) -> i64 {
        let dx = i64::from(self.end.x) - i64::from(self.start.x);
        let dy = i64::from(self.end.y) - i64::from(self.start.y);
        let x = i64::from(place.x) - i64::from(self.start.x);
        let y = i64::from(place.y) - i64::from(self.start.y);
        dy.wrapping_mul(x).wrapping_sub(dx.wrapping_mul(y))
    }

    // Whether the place lies on the right, within rounding.
    fn sees(self, place: Vertex) -> bool {
        let about = i64::try_from(steps(self.start, self.end)).unwrap_or(0);
        self.value(place).wrapping_mul(2).wrapping_add(about) >= 0
    }

    // Whether the two lie on one straight line and run in opposite directions.
    fn is_against(self, other: Run) -> bool {
        if self.value(other.start) != 0 || self.value(other.end) != 0 {
            return false;
        }
        let x = i64::from(self.end.x) - i64::from(self.start.x);
        let y = i64::from(self.end.y) - i64::from(self.start.y);
        let other_x = i64::from(other.end.x) - i64::from(other.start.x);
        let other_y = i64::from(other.end.y) - i64::from(other.start.y);
        x.wrapping_mul(other_x)
            .wrapping_add(y.wrapping_mul(other_y))
            < 0
    }
}

// Where a seg begins and ends.
fn ends(tree: &Built, seg: &Seg) -> Option<Run> {
    let start = tree.vertices.get(usize::from(seg.first)).copied()?;
    let end = tree.vertices.get(usize::from(seg.second)).copied()?;
    Some(Run { start, end })
}

// Counts each step between two places; returns false if there is none, or if they go beyond the line.
fn count_steps(counts: &mut [u8], from: usize, to: usize) -> bool {
    if from >= to || to > counts.len() {
        return false;
    }
    for count in counts[from..to].iter_mut() {
        *count = count.wrapping_add(1);
    }
    true
}

// Whether the segs of a side cover each of its steps once.
fn is_covered(alloc: Global, tree: &Built, run: Run, line: u32, side: u16) -> Result<bool, Fail> {
    let mut counts = vec![in alloc; 0u8; steps(run.start, run.end)]?;
    for seg in &tree.segs {
        if u32::from(seg.line) == line && seg.side == side {
            let Some(own) = ends(tree, seg) else {
                return Ok(false);
            };
            let from = steps(run.start, own.start);
            let to = steps(run.start, own.end);
            if !count_steps(&mut counts, from, to) {
                return Ok(false);
            }
        }
    }
    Ok(counts.iter().all(|count| *count == 1))
}

// Whether each side of each line is covered.
fn are_covered(alloc: Global, map: &Map, tree: &Built) -> Result<bool, Fail> {
    for number in 0..2 * map.count(Kind::Line) {
        let (line, side) = (number / 2, (number % 2) as u16);
        if let Some(run) = Run::of(map, line, side) {
            if !is_covered(alloc, tree, run, line, side)? {
                return Ok(false);
            }
        }
    }
    Ok(true)
}

// Whether all these segs lie on the right of the line `from`, within rounding, and none runs against it.
fn are_seen(map: &Map, tree: &Built, from: Run, segs: &[Seg]) -> bool {
    for seg in segs {
        let line = Run::of(map, u32::from(seg.line), seg.side);
        let (Some(line), Some(own)) = (line, ends(tree, seg)) else {
            return false;
        };
        if !from.sees(own.start) || !from.sees(own.end) || from.is_against(line) {
            return false;
        }
    }
    true
}

// Whether the segs of a subsector are convex, within rounding.
fn is_convex(map: &Map, tree: &Built, segs: &[Seg]) -> bool {
    for seg in segs {
        match Run::of(map, u32::from(seg.line), seg.side) {
            None => return false,
            Some(run) => {
                if !are_seen(map, tree, run, segs) {
                    return false;
                }
            }
        }
    }
    true
}

// Whether the subsectors follow one another over all segs, and each is convex.
fn are_tiled(map: &Map, tree: &Built) -> bool {
    let mut next = 0usize;
    for sub in &tree.subs {
        let end = next.wrapping_add(usize::from(sub.count));
        if usize::from(sub.first) != next || next >= end || end > tree.segs.len() {
            return false;
        }
        if !is_convex(map, tree, &tree.segs[next..end]) {
            return false;
        }
        next = end;
    }
    next == tree.segs.len()
}

// Counts a child of a node; in `counts` the nodes come first, then the subsectors. Returns false if the child doesn't
// exist, or is a node that isn't lower.
fn count_child(counts: &mut [u8], nodes: usize, node: usize, child: u16) -> bool {
    let place = if child < 0x8000 {
        usize::from(child)
    } else {
        nodes.wrapping_add(usize::from(child - 0x8000))
    };
    if (child < 0x8000 && place >= node) || place >= counts.len() {
        return false;
    }
    counts[place] = counts[place].wrapping_add(1);
    true
}

// Whether each subsector, and each node but the last, is a child exactly once.
fn are_children(alloc: Global, tree: &Built) -> Result<bool, Fail> {
    let nodes = tree.nodes.len();
    if nodes == 0 {
        return Ok(tree.subs.len() == 1);
    }
    let mut counts = vec![in alloc; 0u8; nodes.wrapping_add(tree.subs.len())]?;
    for (n, node) in tree.nodes.iter().enumerate() {
        if !count_child(&mut counts, nodes, n, node.right) {
            return Ok(false);
        }
        if !count_child(&mut counts, nodes, n, node.left) {
            return Ok(false);
        }
    }
    let once = counts.iter().filter(|count| **count == 1).count();
    Ok(once.wrapping_add(1) == counts.len() && counts.get(nodes.wrapping_sub(1)) == Some(&0))
}

// Whether the tree's references are in range, each step is covered once, and each subsector is convex.
fn is_sound(alloc: Global, map: &Map, tree: &Built) -> Result<bool, Fail> {
    Ok(are_children(alloc, tree)? && are_tiled(map, tree) && are_covered(alloc, map, tree)?)
}

// Whether the tree of a map is sound.
fn is_built(alloc: Global, map: &Map) -> Result<bool, Fail> {
    let tree = build_tree(alloc, map)?;
    is_sound(alloc, map, &tree)
}

// How many lines each map has.
const LINES: u32 = 40;

// How many maps of each hundred are tried: the number in the file `tangles` in the test's folder, or all.
fn maps_to_try(rt: &HostRuntime) -> u32 {
    match fs::read_to_string(rt, "tangles") {
        Ok(text) => text.as_str().trim().parse().unwrap_or(100).min(100),
        Err(_) => 100,
    }
}

// The sequence after the numbers of this many maps.
fn numbers_behind(maps: u32) -> Sequence {
    let mut numbers = Sequence { state: 40 };
    skip_tangles(&mut numbers, maps, LINES);
    numbers
}

// Draws the n-th map, and returns whether its tree is sound.
fn next_is_built(alloc: Global, numbers: &mut Sequence, n: u32) -> Result<bool, Fail> {
    let maps = draw_tangle(alloc, numbers, LINES, 1 + n % 24)?;
    is_built(alloc, maps.current())
}

// The trees of `count` maps, from the map `first` on, are sound.
fn expect_trees(rt: &impl Abort, alloc: Global, first: u32, count: u32) -> Result<(), Fail> {
    let mut numbers = numbers_behind(first);
    for n in first..first.saturating_add(count) {
        let is_sound = next_is_built(alloc, &mut numbers, n)?;
        same(rt, &(n, is_sound), &(n, true));
    }
    Ok(())
}

// In a narrow grid many crossings are rounded to an end of their line.
#[test]
fn trees_of_a_hundred_tangles_are_sound(rt: HostRuntime) -> Result<(), Fail> {
    expect_trees(&rt, rt.alloc(), 0, maps_to_try(&rt))
}

#[test]
fn trees_of_another_hundred_are_sound(rt: HostRuntime) -> Result<(), Fail> {
    expect_trees(&rt, rt.alloc(), 100, maps_to_try(&rt))
}

// What the audit finds in the map's PWAD, after it is read back.
fn fault_of(alloc: Global, map: &Map) -> Result<Option<Fault>, Fail> {
    let wad = build_wad(alloc, map)?;
    let level = read_level(alloc, &wad, b"MAP01")?;
    Ok(audit(alloc, &level)?)
}

// Draws the n-th map, and returns what the audit finds in its PWAD.
fn fault_of_next(alloc: Global, numbers: &mut Sequence, n: u32) -> Result<Option<Fault>, Fail> {
    let maps = draw_tangle(alloc, numbers, LINES, 1 + n % 24)?;
    fault_of(alloc, maps.current())
}

// The levels of `count` maps, from the map `first` on, read back without a fault.
fn expect_levels(rt: &impl Abort, alloc: Global, first: u32, count: u32) -> Result<(), Fail> {
    let mut numbers = numbers_behind(first);
    for n in first..first.saturating_add(count) {
        let fault = fault_of_next(alloc, &mut numbers, n)?;
        same(rt, &(n, fault), &(n, None));
    }
    Ok(())
}

#[test]
fn levels_of_a_hundred_tangles_have_no_fault(rt: HostRuntime) -> Result<(), Fail> {
    expect_levels(&rt, rt.alloc(), 0, maps_to_try(&rt))
}

#[test]
fn levels_of_another_hundred_have_no_fault(rt: HostRuntime) -> Result<(), Fail> {
    expect_levels(&rt, rt.alloc(), 100, maps_to_try(&rt))
}
