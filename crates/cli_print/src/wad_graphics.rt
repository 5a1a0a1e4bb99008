//! The names of the flats and textures of the WAD that `lint` is given.
ghost use Rattle.std.specs.Prelude.{◌≡◌, IfErr, IfOk, Some, is_some, option_map, true};
ghost use Rattle.wad_levels.specs.Graphics.{graphics_view};
ghost use Rattle.cli_print.specs.Linting.{IsNamedBy, IsNamedOf, RefusesNaming};

use crate::limits::TURNS;
use crate::lumps_read::LumpsRead;
use crate::reading::read_wad;
use crate::wad_reader::WadReader;
use cli_files::Cause;
use cli_refusals::Refusal;
use run_edit::{EditorError, InspectError};
use std::alloc::Global;
use std::fs::{self, Files};
use std::io::Read;
use std::os::unix::fs::FileExt;
use wad_levels::{Graphics, graphics_in};

// The names in all that the reader gives, or notes why it can't be read.
fn graphics_read<R: Read>(
    alloc: Global,
    reader: &mut R,
    turns: u32,
    why: &mut Option<Cause>,
) -> Result<Graphics, Refusal>
    ensures { IsNamedOf result (R.remaining reader.old) (R.remaining reader.new) }
{
    let wad = read_wad(alloc, reader, turns, why)?;
    match graphics_in(alloc, &wad) {
        Ok(graphics) => Ok(graphics),
        Err(error) => Err(Refusal::Level(InspectError::Level(error))),
    }
}

// The names of the WAD at the path, or notes why it can't be opened or read.
fn graphics_at<E: AllocGlobal + Files>(
    rt: &E,
    path: &str,
    why: &mut Option<Cause>,
) -> Result<Graphics, Refusal>
where
    E::File: FileExt,
    ensures named { IfOk result (λ g. IsNamedBy true (Some (graphics_view g))) }
    ensures refused { IfErr result RefusesNaming }
{
    match fs::open(rt, path) {
        Ok(mut file) => {
            let mut reader = WadReader::new(rt.alloc(), &mut file, LumpsRead::Graphics);
            graphics_read(rt.alloc(), &mut reader, TURNS, why)
        }
        Err(error) => {
            *why = Some(Cause::System(error));
            Err(Refusal::Lines(EditorError::ReaderFailed))
        }
    }
}

/// The names of the flats and textures of the WAD at the path, if one is given, or notes why it can't be opened or
/// read.
pub fn graphics_given<E: AllocGlobal + Files>(
    rt: &E,
    path: Option<&str>,
    why: &mut Option<Cause>,
) -> Result<Option<Graphics>, Refusal>
where
    E::File: FileExt,
    ensures named { IfOk result (λ g. IsNamedBy (is_some path.entry) (option_map graphics_view g)) }
    ensures refused { IfErr result (λ e. (is_some path.entry ≡ true) × RefusesNaming e) }
{
    match path {
        Some(path) => match graphics_at(rt, path, why) {
            Ok(graphics) => Ok(Some(graphics)),
            Err(refusal) => Err(refusal),
        },
        None => Ok(None),
    }
}
