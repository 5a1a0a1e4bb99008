//! The partitions of nodes.
ghost use Rattle.std.specs.Prelude.{◌≡◌, ◌-ℤ◌, OnOk, unsigned_abs};
ghost use Rattle.std.specs.Io.KnownBytes.{Appends};
ghost use Rattle.map_svg.specs.Nodes.{box_text, clip_text, clipped_by, node_element, node_head, node_opening, node_path, partition_text, ray_text};
ghost use Rattle.map_svg.specs.Places.{spot_of};
ghost use Rattle.map_svg.specs.Texts.{of_item, of_list};

use crate::boxes::box_round;
use crate::places::{Shift, Spot, back_of, forth_of, spot_of};
use crate::text::write_bytes;
use lump_records::{Bounds, Node, Vertex};
use lump_text::WriterFailed;
use std::io::Write;

// The size of a box between two coordinates.
fn extent(low: i16, high: i16) -> u32
    ensures { result ≡ unsigned_abs (high -ℤ low) }
{
    (i32::from(high) - i32::from(low)).unsigned_abs()
}

// Where the box's upper left corner is on the picture.
fn corner_of(bounds: Bounds) -> Spot
    ensures { result ≡ spot_of (record { x = bounds.left; y = bounds.top }) }
{
    spot_of(Vertex {
        x: bounds.left,
        y: bounds.top,
    })
}

// Writes the clip path of node `n`: the box to which its partition is clipped.
fn write_clip<W: Write>(
    n: u64,
    corner: Spot,
    width: u32,
    height: u32,
    writer: &mut W,
) -> Result<(), WriterFailed>
    ensures { OnOk result
        (Appends (W.contents writer.old) (W.contents writer.new)
        (clip_text n corner width height)) }
{
    let (x, y) = (corner.x, corner.y);
    write!(
        writer,
        "<clipPath id=\"box{n}\">
<rect x=\"{x}\" y=\"{y}\" width=\"{width}\" height=\"{height}\"/></clipPath>\n"
    )?;
    Ok(())
}

// Writes the clip path of node `n` from its box.
fn write_box<W: Write>(n: u64, bounds: Bounds, writer: &mut W) -> Result<(), WriterFailed>
    ensures { OnOk result
        (Appends (W.contents writer.old) (W.contents writer.new) (box_text n bounds)) }
{
    let width = extent(bounds.left, bounds.right);
    let height = extent(bounds.bottom, bounds.top);
    write_clip(n, corner_of(bounds), width, height, writer)
}

// Writes the beginning of the element of node `n`, up to its title.
#[tactic(auto, unfolding(crate::specs::Nodes::node_opening))]
fn write_node_opening<W: Write>(n: u64, writer: &mut W) -> Result<(), WriterFailed>
    ensures { OnOk result
        (Appends (W.contents writer.old) (W.contents writer.new) (node_opening n)) }
{
    write!(
        writer,
        "<g id=\"node{n}\" class=\"node\">\n<title>node {n}: "
    )?;
    Ok(())
}

// Writes the node's partition into the title, and ends the title.
#[tactic(auto, using(crate::proofs::Printed::printed), unfolding(crate::specs::Nodes::partition_text))]
fn write_partition<W: Write>(node: &Node, writer: &mut W) -> Result<(), WriterFailed>
    ensures { OnOk result
        (Appends (W.contents writer.old) (W.contents writer.new) (partition_text node.now)) }
{
    let (x, y, dx, dy) = (node.x, node.y, node.dx, node.dy);
    write!(writer, "from {x} {y} by {dx} {dy}</title>\n")?;
    Ok(())
}

// Writes the beginning of the path that is clipped to the box of node `n`.
#[tactic(auto, unfolding(crate::specs::Nodes::clipped_by))]
fn write_clipped<W: Write>(n: u64, writer: &mut W) -> Result<(), WriterFailed>
    ensures { OnOk result
        (Appends (W.contents writer.old) (W.contents writer.new) (clipped_by n)) }
{
    write!(writer, "<path clip-path=\"url(#box{n})\" d=\"")?;
    Ok(())
}

// Writes a stroke from a place along a vector.
#[tactic(auto, using(crate::proofs::Printed::printed), unfolding(crate::specs::Nodes::ray_text))]
fn write_ray<W: Write>(place: Spot, way: Shift, writer: &mut W) -> Result<(), WriterFailed>
    ensures { OnOk result
        (Appends (W.contents writer.old) (W.contents writer.new) (ray_text place way)) }
{
    let (x, y, dx, dy) = (place.x, place.y, way.dx, way.dy);
    write!(writer, "M{x} {y}l{dx} {dy}")?;
    Ok(())
}

// Writes the part of the element before the path: the title and the box.
#[tactic(auto, unfolding(crate::specs::Nodes::node_head))]
fn write_node_head<W: Write>(n: u64, node: &Node, writer: &mut W) -> Result<(), WriterFailed>
    ensures { OnOk result
        (Appends (W.contents writer.old) (W.contents writer.new) (node_head n node.now)) }
{
    write_node_opening(n, writer)?;
    write_partition(node, writer)?;
    write_box(n, box_round(node.right_box, node.left_box), writer)
}

// Writes the path, which runs along the partition in both directions.
#[tactic(auto, unfolding(crate::specs::Nodes::node_path))]
fn write_node_path<W: Write>(n: u64, node: &Node, writer: &mut W) -> Result<(), WriterFailed>
    ensures { OnOk result
        (Appends (W.contents writer.old) (W.contents writer.new) (node_path n node.now)) }
{
    let place = spot_of(Vertex {
        x: node.x,
        y: node.y,
    });
    write_clipped(n, writer)?;
    write_ray(place, forth_of(node), writer)?;
    write_ray(place, back_of(node), writer)?;
    write_bytes(b"\"/></g>\n", writer)
}

// Writes the element of a node.
#[tactic(auto, unfolding(crate::specs::Nodes::node_element))]
fn write_node<W: Write>(n: u64, node: &Node, writer: &mut W) -> Result<(), WriterFailed>
    ensures { OnOk result
        (Appends (W.contents writer.old) (W.contents writer.new) (node_element n node.now)) }
{
    write_node_head(n, node, writer)?;
    write_node_path(n, node, writer)
}

// Writes the element of the node with the number, if there is one.
fn write_nth_node<W: Write>(nodes: &[Node], n: usize, writer: &mut W) -> Result<(), WriterFailed>
    ensures { OnOk result (Appends (W.contents writer.old) (W.contents writer.new)
        (of_item (node_element n) nodes.now n)) }
{
    match nodes.get(n) {
        Some(node) => write_node(n as u64, node, writer),
        None => Ok(()),
    }
}

/// Writes the elements of the nodes.
pub(crate) fn write_nodes<W: Write>(nodes: &[Node], writer: &mut W) -> Result<(), WriterFailed>
    ensures { OnOk result (Appends (W.contents writer.old) (W.contents writer.new)
        (of_list node_element nodes.now)) }
{
    for n in 0..nodes.len() {
        match write_nth_node(nodes, n, writer) {
            Ok(()) => {}
            Err(error) => return Err(error),
        }
    }
    Ok(())
}
