//! The audit of nodes and subsectors as children.
ghost use Rattle.std.specs.Prelude.{◌≡◌, ◌-◌, ◌==◌, length, IfOk, IsOkUnless};
ghost use Rattle.std.specs.Option.{option_map};
ghost use Rattle.std.specs.List.{enumerate_from, range_with_len};
ghost use Rattle.wad_build.specs.Audit.{child_faults, child_right, first_some, first_wrong, node_children, once_faults};
ghost use Rattle.wad_build.specs.Counts.{times_among};
ghost use Rattle.tree_nodes.specs.InRange.{children, times_node, times_sub};
ghost use Rattle.wad_levels.specs.Views.{view};
ghost use Rattle.wad_build.specs.declared.fault.Fault.TheVariants.{SubOnce, NodeOnce};

use crate::counts::count_children;
use crate::fault::Fault;
use crate::ranges::{first_of, is_among};
use lump_records::Node;
use std::alloc::Global;
use wad_levels::{Level, ReadError};

// A child from this value on is a subsector; its number is the child less this value.
const FIRST_SUB: u16 = 0x8000;

// Whether the child of a node is a subsector of the level, or a node with a lower number.
fn is_child(level: &Level, node: usize, child: u16) -> bool
    ensures { result ≡ child_right (view level.now) node child }
{
    if child < FIRST_SUB {
        (child as usize) < node
    } else {
        is_among(child - FIRST_SUB, level.subs.len())
    }
}

// Whether both children of a node are in range.
fn has_children(level: &Level, number: usize, node: Node) -> bool
    ensures { result ≡ node_children (view level.now) (number, node) }
{
    is_child(level, number, node.right) && is_child(level, number, node.left)
}

// The number of the first node with a child out of range.
fn child_place(level: &Level) -> Option<usize>
    ensures { result
        ≡ first_wrong (node_children (view level.now)) (enumerate_from 0 level.now.nodes.items) }
{
    for n in 0..level.nodes.len() {
        if !has_children(level, n, level.nodes[n]) {
            return Some(n);
        }
    }
    None
}

/// The first node with a child out of range; otherwise `SubOnce(0)` if there is no subsector.
pub fn child_fault(level: &Level) -> Option<Fault>
    ensures { result ≡ first_some (child_faults (view level.now)) }
{
    match child_place(level) {
        Some(n) => Some(Fault::NodeChild(n)),
        None => {
            if level.subs.is_empty() {
                Some(Fault::SubOnce(0))
            } else {
                None
            }
        }
    }
}

// The children of all nodes; subsector 0 if there are no nodes.
fn children_of(alloc: Global, nodes: &[Node]) -> Result<Vec<u16>, ReadError>
    ensures children { IfOk result (λ v. v.items ≡ children nodes.now) }
    ensures memory { IsOkUnless result ReadError.OutOfMemory }
{
    let mut all = Vec::new(alloc);
    if nodes.is_empty() {
        all.push(FIRST_SUB)?;
        return Ok(all);
    }
    for node in nodes {
        all.push(node.right)?;
        all.push(node.left)?;
    }
    Ok(all)
}

// The first of `len` numbers from `base` on that isn't a child exactly once.
fn not_once(
    alloc: Global,
    base: u16,
    end: u32,
    children: &[u16],
    len: usize,
) -> Result<Option<usize>, ReadError>
    ensures place { IfOk result (λ place. place
        ≡ first_wrong (λ n. times_among base end children.now n == 1) (range_with_len 0 len)) }
    ensures memory { IsOkUnless result ReadError.OutOfMemory }
{
    let counts = count_children(alloc, base, end, children, len)?;
    for n in 0..counts.len() {
        if counts[n] != 1 {
            return Ok(Some(n));
        }
    }
    Ok(None)
}

// The first subsector that isn't a child exactly once.
fn sub_once(alloc: Global, level: &Level, numbers: &[u16]) -> Result<Option<Fault>, ReadError>
    requires { numbers.now ≡ children level.now.nodes.items }
    ensures fault { IfOk result (λ fault. fault ≡ option_map SubOnce
        (first_wrong (λ s. times_sub level.now.nodes.items s == 1)
        (range_with_len 0 (length level.now.subs.items)))) }
    ensures memory { IsOkUnless result ReadError.OutOfMemory }
{
    match not_once(alloc, FIRST_SUB, 65536, numbers, level.subs.len()) {
        Ok(Some(n)) => Ok(Some(Fault::SubOnce(n))),
        Ok(None) => Ok(None),
        Err(error) => Err(error),
    }
}

// The first node that isn't a child exactly once, without the last node.
fn node_once(alloc: Global, level: &Level, numbers: &[u16]) -> Result<Option<Fault>, ReadError>
    requires { numbers.now ≡ children level.now.nodes.items }
    ensures fault { IfOk result (λ fault. fault ≡ option_map NodeOnce
        (first_wrong (λ i. times_node level.now.nodes.items i == 1)
        (range_with_len 0 (length level.now.nodes.items - 1)))) }
    ensures memory { IsOkUnless result ReadError.OutOfMemory }
{
    match not_once(
        alloc,
        0,
        32768,
        numbers,
        level.nodes.len().saturating_sub(1),
    ) {
        Ok(Some(n)) => Ok(Some(Fault::NodeOnce(n))),
        Ok(None) => Ok(None),
        Err(error) => Err(error),
    }
}

/// The first subsector, or else the first node, that isn't a child exactly once.
pub fn once_fault(alloc: Global, level: &Level) -> Result<Option<Fault>, ReadError>
    ensures fault { IfOk result (λ fault. fault ≡ first_some (once_faults (view level.now))) }
    ensures memory { IsOkUnless result ReadError.OutOfMemory }
{
    let children = children_of(alloc, &level.nodes)?;
    let sub = sub_once(alloc, level, &children)?;
    let node = node_once(alloc, level, &children)?;
    Ok(first_of(sub, node))
}
