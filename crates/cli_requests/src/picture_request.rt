//! The request `picture`: a map of a disk's project, or a level of a WAD, as SVG.
ghost use Rattle.std.specs.Prelude.{◌≤◌, IfOk, is_some, option_map};
ghost use Rattle.run_edit.specs.Recovery.{IsOnlyRead};
ghost use Rattle.cli_pictures.specs.Picturing.{IsPicturedOf};
ghost use Rattle.cli_sources.specs.Opened.{OverMaps};
ghost use Rattle.cli_sources.specs.Unread.{OverWad};
ghost use Rattle.cli_pictures.specs.LevelPicture.{IsLevelPicturedOf};

use cli_files::{Cause, Hold};
use cli_pictures::{Wanted, draw, draw_level};
use cli_print::{TURNS, read_wad};
use cli_refusals::{Causes, Refusal};
use cli_sources::{HandedBack, maps_on};
use map_tables::Maps;
use std::alloc::Global;
use std::fs::Files;
use std::io::{Read, Write};
use store_disk::Disk;

/// Draws a map of a disk's project as a picture, onto the output or into a file, or notes why the file can't be made.
/// The file is whole or as it was; it may be new, empty or a picture of a map. The disk is only read.
#[inline(never)]
pub fn picture<E: Files, D: Disk, W: Write>(
    alloc: Global,
    rt: &E,
    disk: D,
    wanted: Wanted<'_>,
    writer: &mut W,
    why: &mut Option<Cause>,
) -> HandedBack<D>
where
    E::File: Hold,
    ensures small { IfOk result.how (λ s. s ≤ 3) }
    ensures pictured { OverMaps D.Disk disk result.disk result.how
        (W.contents writer.old) (W.contents writer.new)
        (λ maps. IsPicturedOf wanted.entry.layers (option_map (λ s. s.now) wanted.entry.map)
        (is_some wanted.entry.out) maps result.how
        (W.contents writer.old) (W.contents writer.new)) }
    ensures only_read { IsOnlyRead D.Disk disk result.disk }
{
    let mut maps = Maps::new(alloc);
    match maps_on(alloc, disk, &mut maps) {
        Ok(disk) => HandedBack {
            how: draw(alloc, rt, &maps, wanted, writer, why),
            disk,
        },
        Err(back) => back,
    }
}

/// Reads a WAD to its end and draws a level of it in the same way, or notes why it can't be read.
#[inline(never)]
pub fn picture_wad<E: Files, R: Read, W: Write>(
    alloc: Global,
    rt: &E,
    reader: &mut R,
    wanted: Wanted<'_>,
    writer: &mut W,
    why: &mut Causes,
) -> Result<u8, Refusal>
where
    E::File: Hold,
    ensures small { IfOk result (λ s. s ≤ 3) }
    ensures pictured { OverWad (R.remaining reader.old) (R.remaining reader.new) result
        (W.contents writer.old) (W.contents writer.new)
        (λ wad. IsLevelPicturedOf wanted.entry.layers (option_map (λ s. s.now) wanted.entry.map)
        (is_some wanted.entry.out) wad result (W.contents writer.old) (W.contents writer.new)) }
{
    let wad = read_wad(alloc, reader, TURNS, &mut why.file)?;
    draw_level(alloc, rt, &wad, wanted, writer, &mut why.out)
}
