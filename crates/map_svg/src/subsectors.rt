//! The segs of each subsector.
ghost use Rattle.std.specs.Prelude.{◌≡◌, ◌+◌, OnOk};
ghost use Rattle.std.specs.Io.KnownBytes.{Appends};
ghost use Rattle.map_svg.specs.Subsectors.{segs_text, seg_text, stroke_text, sub_element, sub_opening, tree_vertex};
ghost use Rattle.map_svg.specs.Texts.{of_item, of_list};

use crate::overlay::Overlay;
use crate::places::{Shift, Spot, right_of, spot_of, way_between};
use crate::text::write_bytes;
use lump_records::{Seg, Sub, Vertex};
use lump_text::WriterFailed;
use std::io::Write;

// The tree's vertex with the number, (0,0) past the last one.
fn tree_vertex(overlay: &Overlay, n: u16) -> Vertex
    ensures { result ≡ tree_vertex overlay.now n }
{
    overlay
        .vertices
        .get(usize::from(n))
        .copied()
        .unwrap_or(Vertex { x: 0, y: 0 })
}

// Writes a stroke along a vector, from a point beside a place.
#[tactic(auto, using(crate::proofs::Printed::printed), unfolding(crate::specs::Subsectors::stroke_text))]
fn write_stroke<W: Write>(
    place: Spot,
    aside: Shift,
    way: Shift,
    writer: &mut W,
) -> Result<(), WriterFailed>
    ensures { OnOk result
        (Appends (W.contents writer.old) (W.contents writer.new) (stroke_text place aside way)) }
{
    let (x, y, ax, ay, dx, dy) = (place.x, place.y, aside.dx, aside.dy, way.dx, way.dy);
    write!(writer, "M{x} {y}m{ax} {ay}l{dx} {dy}")?;
    Ok(())
}

// Writes the stroke of a seg, a little to its right.
#[tactic(auto, unfolding(crate::specs::Subsectors::seg_text))]
fn write_seg<W: Write>(
    overlay: &Overlay,
    step: u32,
    seg: &Seg,
    writer: &mut W,
) -> Result<(), WriterFailed>
    ensures { OnOk result (Appends (W.contents writer.old) (W.contents writer.new)
        (seg_text overlay.now step seg.now)) }
{
    let from = tree_vertex(overlay, seg.first);
    let to = tree_vertex(overlay, seg.second);
    let aside = right_of(from, to, step / 3);
    write_stroke(spot_of(from), aside, way_between(from, to), writer)
}

// Writes the stroke of the seg with the number, if there is one.
fn write_nth_seg<W: Write>(
    overlay: &Overlay,
    step: u32,
    n: u32,
    writer: &mut W,
) -> Result<(), WriterFailed>
    ensures { OnOk result (Appends (W.contents writer.old) (W.contents writer.new)
        (of_item (seg_text overlay.now step) overlay.now.segs.items n)) }
{
    match overlay.segs.get(n as usize) {
        Some(seg) => write_seg(overlay, step, seg, writer),
        None => Ok(()),
    }
}

// The number of the seg after the first `k` segs of a subsector.
fn seg_number(sub: &Sub, k: u16) -> u32
    ensures { result ≡ sub.now.first + k }
{
    u32::from(sub.first) + u32::from(k)
}

// Writes the segs of a subsector.
fn write_segs<W: Write>(
    overlay: &Overlay,
    step: u32,
    sub: &Sub,
    writer: &mut W,
) -> Result<(), WriterFailed>
    ensures { OnOk result (Appends (W.contents writer.old) (W.contents writer.new)
        (segs_text overlay.now step sub.now)) }
{
    for k in 0..sub.count {
        match write_nth_seg(overlay, step, seg_number(sub, k), writer) {
            Ok(()) => {}
            Err(error) => return Err(error),
        }
    }
    Ok(())
}

// Writes the beginning of the element of a subsector: its colour, its title, and the start of its path.
#[tactic(auto, unfolding(crate::specs::Subsectors::sub_opening))]
fn write_sub_opening<W: Write>(n: u64, sub: &Sub, writer: &mut W) -> Result<(), WriterFailed>
    ensures { OnOk result
        (Appends (W.contents writer.old) (W.contents writer.new) (sub_opening n sub.now)) }
{
    let (colour, first, count) = (n % 6, sub.first, sub.count);
    write!(
        writer,
        "<g id=\"sub{n}\" class=\"sub{colour}\">
<title>subsector {n}: first seg {first}, count {count}</title>
<path d=\""
    )?;
    Ok(())
}

// Writes the element of a subsector.
#[tactic(auto, unfolding(crate::specs::Subsectors::sub_element))]
fn write_sub<W: Write>(
    overlay: &Overlay,
    step: u32,
    n: u64,
    sub: &Sub,
    writer: &mut W,
) -> Result<(), WriterFailed>
    ensures { OnOk result (Appends (W.contents writer.old) (W.contents writer.new)
        (sub_element overlay.now step n sub.now)) }
{
    write_sub_opening(n, sub, writer)?;
    write_segs(overlay, step, sub, writer)?;
    write_bytes(b"\"/></g>\n", writer)
}

// Writes the element of the subsector with the number, if there is one.
fn write_nth_sub<W: Write>(
    overlay: &Overlay,
    step: u32,
    n: usize,
    writer: &mut W,
) -> Result<(), WriterFailed>
    ensures { OnOk result (Appends (W.contents writer.old) (W.contents writer.new)
        (of_item (sub_element overlay.now step n) overlay.now.subs.items n)) }
{
    match overlay.subs.get(n) {
        Some(sub) => write_sub(overlay, step, n as u64, sub, writer),
        None => Ok(()),
    }
}

/// Writes the elements of the subsectors.
pub(crate) fn write_subs<W: Write>(
    overlay: &Overlay,
    step: u32,
    writer: &mut W,
) -> Result<(), WriterFailed>
    ensures { OnOk result (Appends (W.contents writer.old) (W.contents writer.new)
        (of_list (sub_element overlay.now step) overlay.now.subs.items)) }
{
    for n in 0..overlay.subs.len() {
        match write_nth_sub(overlay, step, n, writer) {
            Ok(()) => {}
            Err(error) => return Err(error),
        }
    }
    Ok(())
}
