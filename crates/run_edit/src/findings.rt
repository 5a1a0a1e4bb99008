//! Writes the findings of a map, one on each line.
ghost use Rattle.std.specs.Prelude.{◌≡◌, IfErr, IfOk, MatchResult, OnOk, flat_map, length};
ghost use Rattle.std.specs.Io.KnownBytes.{Appends};
ghost use Rattle.map_checks.specs.Findings.{findings};
ghost use Rattle.run_edit.specs.Texts.{finding_line, findings_text, total_text};
ghost use Rattle.run_edit.specs.Runs.{Unwritten};

use crate::error::EditorError;
use lump_text::WriterFailed;
use map_checks::{Finding, check};
use map_tables::Map;
use std::alloc::Global;
use std::io::Write;

// Writes a finding as a line.
fn write_finding<W: Write>(finding: &Finding, writer: &mut W) -> Result<(), WriterFailed>
    ensures { OnOk result
        (Appends (W.contents writer.old) (W.contents writer.new) (finding_line finding.now)) }
{
    write!(writer, "{finding}\n")?;
    Ok(())
}

// Writes a line for each finding.
fn write_each<W: Write>(found: &[Finding], writer: &mut W) -> Result<(), WriterFailed>
    ensures { OnOk result (Appends (W.contents writer.old) (W.contents writer.new)
        (flat_map finding_line found.now)) }
{
    for finding in found {
        match write_finding(finding, writer) {
            Ok(()) => {}
            Err(error) => return Err(error),
        }
    }
    Ok(())
}

/// Writes `findings N`.
pub fn write_total<W: Write>(count: u32, writer: &mut W) -> Result<(), EditorError>
    ensures { MatchResult result
        (λ _. Appends (W.contents writer.old) (W.contents writer.new) (total_text count))
        (λ e. e ≡ EditorError.WriterFailed) }
{
    match write!(writer, "findings {count}\n") {
        Ok(()) => Ok(()),
        Err(_) => Err(EditorError::WriterFailed),
    }
}

/// Writes what is wrong or unfinished in the map: a line for each finding, then `findings N`. Returns N.
///
/// # Errors
///
/// `OutOfMemory`, with nothing written, or `WriterFailed`.
pub fn write_findings<W: Write>(
    alloc: Global,
    map: &Map,
    writer: &mut W,
) -> Result<u32, EditorError>
    ensures number { IfOk result (λ n. n ≡ length (findings map.now.tables)) }
    ensures written { IfOk result (λ _. Appends (W.contents writer.old) (W.contents writer.new)
        (findings_text (findings map.now.tables))) }
    ensures refused { IfErr result (λ e.
        Unwritten e (W.contents writer.old) (W.contents writer.new)) }
{
    let Ok(found) = check(alloc, map) else {
        return Err(EditorError::OutOfMemory);
    };
    // Memory never holds more findings than a u32 can count.
    let Ok(count) = u32::try_from(found.len()) else {
        return Err(EditorError::OutOfMemory);
    };
    write_each(&found, writer)?;
    write_total(count, writer)?;
    Ok(count)
}
