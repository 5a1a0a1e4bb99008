//! The request `check` over a WAD.
ghost use Rattle.std.specs.Prelude.{◌≤◌, IfOk, option_map};
ghost use Rattle.cli_sources.specs.Unread.{OverWad};
ghost use Rattle.cli_print.specs.LevelLines.{IsWadChecked};

use cli_files::Cause;
use cli_print::{TURNS, read_wad, tell_level_findings};
use cli_refusals::Refusal;
use std::alloc::Global;
use std::io::{Read, Write};

/// Reads a WAD to its end and writes what is wrong or unfinished in its level with the name, or in the first one; or
/// notes why it can't be read.
#[inline(never)]
pub fn check_wad<R: Read, W: Write>(
    alloc: Global,
    reader: &mut R,
    name: Option<&str>,
    writer: &mut W,
    why: &mut Option<Cause>,
) -> Result<u8, Refusal>
    ensures small { IfOk result (λ s. s ≤ 3) }
    ensures found { OverWad (R.remaining reader.old) (R.remaining reader.new) result
        (W.contents writer.old) (W.contents writer.new)
        (λ wad. IsWadChecked wad (option_map (λ s. s.now) name.entry) result
        (W.contents writer.old) (W.contents writer.new)) }
{
    let wad = read_wad(alloc, reader, TURNS, why)?;
    tell_level_findings(alloc, &wad, name, writer)
}
