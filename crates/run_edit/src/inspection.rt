//! Writes what `inspect` prints of a level: its lengths, then `sound` or the first fault.
ghost use Rattle.std.specs.Prelude.{◌≡◌, IfErr, IfOk, OnOk};
ghost use Rattle.std.specs.Io.KnownBytes.{Appends};
ghost use Rattle.wad_levels.specs.Views.{view};
ghost use Rattle.run_edit.specs.Inspections.{IsInspected, RefusesInspection, back_text, fault_name, fault_number, fault_text, front_text, lengths_text, verdict_text};

use crate::error::InspectError;
use lump_text::WriterFailed;
use std::alloc::Global;
use std::io::Write;
use wad_build::{Fault, Level, audit, read_level};

// The name of a fault.
fn name_of(fault: Fault) -> &'static str
    ensures { result.now ≡ fault_name fault }
{
    match fault {
        Fault::LineVertex(_) => "LineVertex",
        Fault::LineSide(_) => "LineSide",
        Fault::SideSector(_) => "SideSector",
        Fault::SegVertex(_) => "SegVertex",
        Fault::SegLine(_) => "SegLine",
        Fault::SegSide(_) => "SegSide",
        Fault::SubRange(_) => "SubRange",
        Fault::SubTotal => "SubTotal",
        Fault::NodeChild(_) => "NodeChild",
        Fault::SubOnce(_) => "SubOnce",
        Fault::NodeOnce(_) => "NodeOnce",
        Fault::Reject => "Reject",
        Fault::BlockHeader => "BlockHeader",
        Fault::BlockList(_) => "BlockList",
    }
}

// The number of the faulty item, or 0 if the fault is that of a whole lump.
fn number_of(fault: Fault) -> usize
    ensures { result ≡ fault_number fault }
{
    match fault {
        Fault::LineVertex(n)
        | Fault::LineSide(n)
        | Fault::SideSector(n)
        | Fault::SegVertex(n)
        | Fault::SegLine(n)
        | Fault::SegSide(n)
        | Fault::SubRange(n)
        | Fault::NodeChild(n)
        | Fault::SubOnce(n)
        | Fault::NodeOnce(n)
        | Fault::BlockList(n) => n,
        Fault::SubTotal | Fault::Reject | Fault::BlockHeader => 0,
    }
}

// Writes how many records each of the first five lumps has.
fn write_front<W: Write>(
    things: usize,
    lines: usize,
    sides: usize,
    vertices: usize,
    segs: usize,
    writer: &mut W,
) -> Result<(), WriterFailed>
    ensures { OnOk result (Appends (W.contents writer.old) (W.contents writer.new)
        (front_text things lines sides vertices segs)) }
{
    write!(
        writer,
        "things {things} lines {lines} sides {sides} vertices {vertices} segs {segs}"
    )?;
    Ok(())
}

// Writes how many records each of the next three lumps has, how many bytes REJECT and BLOCKMAP have, and the LF.
fn write_back<W: Write>(
    subs: usize,
    nodes: usize,
    sectors: usize,
    reject: usize,
    blockmap: usize,
    writer: &mut W,
) -> Result<(), WriterFailed>
    ensures { OnOk result (Appends (W.contents writer.old) (W.contents writer.new)
        (back_text subs nodes sectors reject blockmap)) }
{
    write!(
        writer,
        " subsectors {subs} nodes {nodes} sectors {sectors} reject {reject} blockmap {blockmap}\n"
    )?;
    Ok(())
}

// Writes how many records the lumps of a level have, and how many bytes REJECT and BLOCKMAP have.
fn write_lengths<W: Write>(level: &Level, writer: &mut W) -> Result<(), WriterFailed>
    ensures { OnOk result (Appends (W.contents writer.old) (W.contents writer.new)
        (lengths_text (view level.now))) }
{
    let things = level.things.len();
    let lines = level.lines.len();
    let sides = level.sides.len();
    let vertices = level.vertices.len();
    let segs = level.segs.len();
    let subs = level.subs.len();
    let nodes = level.nodes.len();
    let sectors = level.sectors.len();
    let reject = level.reject.len();
    let blockmap = level.blockmap.len();
    write_front(things, lines, sides, vertices, segs, writer)?;
    write_back(subs, nodes, sectors, reject, blockmap, writer)?;
    Ok(())
}

// Writes `fault NAME I`.
fn write_fault<W: Write>(fault: Fault, writer: &mut W) -> Result<(), WriterFailed>
    ensures { OnOk result
        (Appends (W.contents writer.old) (W.contents writer.new) (fault_text fault)) }
{
    let name = name_of(fault);
    let number = number_of(fault);
    write!(writer, "fault {name} {number}\n")?;
    Ok(())
}

// Writes `sound` or the fault.
fn write_verdict<W: Write>(fault: Option<Fault>, writer: &mut W) -> Result<(), WriterFailed>
    ensures { OnOk result
        (Appends (W.contents writer.old) (W.contents writer.new) (verdict_text fault)) }
{
    match fault {
        Some(fault) => write_fault(fault, writer),
        None => Ok(writer.write_all(b"sound\n")?),
    }
}

/// Reads the level of this name from a WAD and audits it. Writes a line with how many records its lumps have and how
/// many bytes REJECT and BLOCKMAP have; then `sound`, or `fault NAME I` for the first fault in the order of
/// docs/FORMAT.md, "What an audit looks for". Returns whether the level is sound: every reference is in range.
///
/// # Errors
///
/// `Level` if there is no such level, or no memory to read and audit it, with nothing written; or `WriterFailed`.
pub fn inspect<W: Write>(
    alloc: Global,
    wad: &[u8],
    name: &[u8],
    writer: &mut W,
) -> Result<bool, InspectError>
    ensures told { IfOk result (λ sound. IsInspected wad.now name.now sound
        (W.contents writer.old) (W.contents writer.new)) }
    ensures refused { IfErr result (λ e. RefusesInspection wad.now name.now e
        (W.contents writer.old) (W.contents writer.new)) }
{
    let level = read_level(alloc, wad, name)?;
    let fault = audit(alloc, &level)?;
    write_lengths(&level, writer)?;
    write_verdict(fault, writer)?;
    Ok(fault.is_none())
}
