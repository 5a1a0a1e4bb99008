//! The request `dump`: the lines that draw the maps of a disk's project again, or the levels of a WAD.
ghost use Rattle.std.specs.Prelude.{◌≤◌, IfOk, map, string_bytes};
ghost use Rattle.cli_dump.specs.Dumping.{IsDumpedIn};
ghost use Rattle.run_edit.specs.Recovery.{IsOnlyRead};
ghost use Rattle.cli_sources.specs.Unread.{OverWadTold};
ghost use Rattle.cli_sources.specs.Opened.{OverMaps};
ghost use Rattle.cli_dump.specs.LevelDumps.{IsWadDumped};

use cli_dump::{tell_level_dumps, tell_lines_of};
use cli_files::Cause;
use cli_print::{TURNS, read_wad};
use cli_refusals::Refusal;
use cli_sources::{HandedBack, maps_on};
use map_tables::Maps;
use std::alloc::Global;
use std::io::{Read, Write};
use store_disk::Disk;

/// Writes the lines that draw the maps of a disk's project again, from the empty project, or, if there are names, those
/// of each map with one of the names. The disk is only read.
#[inline(never)]
pub fn dump<D: Disk, W: Write>(
    alloc: Global,
    disk: D,
    names: &[String],
    writer: &mut W,
) -> HandedBack<D>
    ensures small { IfOk result.how (λ s. s ≤ 3) }
    ensures dumped { OverMaps D.Disk disk result.disk result.how
        (W.contents writer.old) (W.contents writer.new)
        (λ maps. IsDumpedIn (map string_bytes names.now) maps result.how
        (W.contents writer.old) (W.contents writer.new)) }
    ensures only_read { IsOnlyRead D.Disk disk result.disk }
{
    let mut maps = Maps::new(alloc);
    match maps_on(alloc, disk, &mut maps) {
        Ok(disk) => HandedBack {
            how: tell_lines_of(alloc, &maps, names, writer),
            disk,
        },
        Err(back) => back,
    }
}

/// Reads a WAD to its end and writes the lines that draw its levels, all or those with the names; reports on `errors`
/// what is changed of them, and which are left; or notes why the WAD can't be read.
pub fn dump_wad<R: Read, W: Write, F: Write>(
    alloc: Global,
    reader: &mut R,
    names: &[String],
    is_exact: bool,
    writer: &mut W,
    errors: &mut F,
    why: &mut Option<Cause>,
) -> Result<u8, Refusal>
    ensures small { IfOk result (λ s. s ≤ 3) }
    ensures dumped { OverWadTold (R.remaining reader.old) (R.remaining reader.new) result
        (W.contents writer.old) (W.contents writer.new)
        (F.contents errors.old) (F.contents errors.new)
        (λ wad. IsWadDumped wad (map string_bytes names.now) is_exact
        result (W.contents writer.old) (W.contents writer.new)
        (F.contents errors.old) (F.contents errors.new)) }
{
    let wad = read_wad(alloc, reader, TURNS, why)?;
    tell_level_dumps(alloc, &wad, names, is_exact, writer, errors)
}
