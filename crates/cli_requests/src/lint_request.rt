//! The request `lint`: the findings and warnings of each map of a disk's project, or of each level of a WAD; another
//! WAD may be given for the names of flats and textures.
ghost use Rattle.std.specs.Prelude.{◌≤◌, IfOk, is_some, option_map};
ghost use Rattle.cli_print.specs.Choosing.{choice_view};
ghost use Rattle.cli_print.specs.LevelLines.{IsWadLintedBy};
ghost use Rattle.cli_print.specs.Linting.{IsLintedBy};
ghost use Rattle.cli_print.specs.Origins.{no_origin};
ghost use Rattle.run_edit.specs.Recovery.{IsOnlyRead};
ghost use Rattle.cli_sources.specs.Opened.{OverMaps};
ghost use Rattle.cli_sources.specs.Unread.{OverWad};

use cli_files::Cause;
use cli_print::{Choice, NoOrigin, TURNS, read_wad, tell_beside, tell_levels_beside};
use cli_refusals::{Causes, Refusal};
use cli_sources::{HandedBack, maps_on};
use map_tables::Maps;
use std::fs::Files;
use std::io::{Read, Write};
use std::os::unix::fs::FileExt;
use store_disk::Disk;

/// Writes about each map of a disk's project, or about the one with the name alone: the findings of `check`, then the
/// warnings of `map_lint`, then, if `iwad` is given, those of the flats and textures that the WAD at that path lacks;
/// of all these what the choice asks for. Each line begins with the map's name; the number of these lines comes last.
/// Or notes why the WAD can't be opened. The disk is only read.
#[inline(never)]
pub fn lint<E: AllocGlobal + Files, D: Disk, W: Write>(
    rt: &E,
    disk: D,
    name: Option<&str>,
    iwad: Option<&str>,
    choice: Choice<'_>,
    writer: &mut W,
    why: &mut Option<Cause>,
) -> HandedBack<D>
where
    E::File: FileExt,
    ensures small { IfOk result.how (λ s. s ≤ 3) }
    ensures linted { OverMaps D.Disk disk result.disk result.how
        (W.contents writer.old) (W.contents writer.new)
        (λ maps. IsLintedBy no_origin (is_some iwad.entry) (choice_view choice.entry)
        (option_map (λ s. s.now) name.entry) maps result.how
        (W.contents writer.old) (W.contents writer.new)) }
    ensures only_read { IsOnlyRead D.Disk disk result.disk }
{
    let mut maps = Maps::new(rt.alloc());
    match maps_on(rt.alloc(), disk, &mut maps) {
        Ok(disk) => HandedBack {
            how: tell_beside(rt, &maps, name, iwad, choice, &NoOrigin, writer, why),
            disk,
        },
        Err(back) => back,
    }
}

/// Reads a WAD to its end and does the same with its levels, or notes why it can't be read.
#[inline(never)]
pub fn lint_wad<E: AllocGlobal + Files, R: Read, W: Write>(
    rt: &E,
    reader: &mut R,
    name: Option<&str>,
    iwad: Option<&str>,
    choice: Choice<'_>,
    writer: &mut W,
    why: &mut Causes,
) -> Result<u8, Refusal>
where
    E::File: FileExt,
    ensures small { IfOk result (λ s. s ≤ 3) }
    ensures linted { OverWad (R.remaining reader.old) (R.remaining reader.new) result
        (W.contents writer.old) (W.contents writer.new)
        (λ wad. IsWadLintedBy (is_some iwad.entry) (choice_view choice.entry) wad
        (option_map (λ s. s.now) name.entry) result
        (W.contents writer.old) (W.contents writer.new)) }
{
    let wad = read_wad(rt.alloc(), reader, TURNS, &mut why.file)?;
    tell_levels_beside(rt, &wad, name, iwad, choice, writer, &mut why.beside)
}
