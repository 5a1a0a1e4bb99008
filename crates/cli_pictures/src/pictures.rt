//! What `picture` draws: a map as SVG.
ghost use Rattle.std.specs.Prelude.{◌≡◌, ◌≤◌, ◌⊎◌, None, Some, IfErr, IfOk, MatchOption, find, is_some, option_map};
ghost use Rattle.std.specs.Io.KnownBytes.{Appends, Keeps};
ghost use Rattle.map_tables.specs.Projects.{project_of};
ghost use Rattle.map_picture.specs.Picture.{WantsMemory, picture_of};
ghost use Rattle.cli_files.specs.NewFile.{IsMadeOf, file_of};
ghost use Rattle.cli_pictures.specs.Picturing.{IsDrawn, IsPicturedOf, drawn_map};
ghost use Rattle.run_edit.specs.declared.error.EditorError.TheVariants.{OutOfMemory, WriterFailed};
ghost use Rattle.cli_refusals.specs.declared.refusal.Refusal.{Refusal};

use crate::laid_over::{Layers, laid_over};
use cli_files::{Cause, Form, Hold, NewFile, open_new};
use cli_print::map_called;
use cli_refusals::{DONE, Refusal};
use map_picture::{PictureError, PictureOptions, write_picture};
use map_svg::Overlay;
use map_tables::{Map, Maps};
use run_edit::EditorError;
use std::alloc::Global;
use std::fs::{Files, OpenFile};
use std::io::Write;

/// Which map is drawn (the current one if no name is given), what is shown over it, and the file that it goes into (the
/// output if none is given).
#[derive(Clone, Copy)]
pub struct Wanted<'a> {
    pub map: Option<&'a str>,
    pub layers: Layers,
    pub out: Option<&'a str>,
}

// The map that is drawn.
fn drawn_map<'a>(maps: &'a Maps, name: Option<&str>) -> Option<&'a Map>
    ensures { let wanted = option_map (λ s. s.now) name.entry in
        MatchOption result (drawn_map wanted (project_of maps.now) ≡ None)
        (λ m. drawn_map wanted (project_of maps.now) ≡ Some m.now.tables) }
{
    match name {
        Some(name) => map_called(maps, name.as_bytes()),
        None => Some(maps.current()),
    }
}

// The picture of a map, and what is laid over it.
fn picture_of(
    alloc: Global,
    map: &Map,
    options: PictureOptions,
    overlay: &Overlay,
) -> Result<Vec<u8>, Refusal>
    ensures drawn { IfOk result (λ bytes.
        bytes.items ≡ picture_of options map.now.tables overlay.now) }
    ensures refused { IfErr result (λ r. r ≡ Refusal.Lines OutOfMemory) }
{
    let mut picture = Vec::new(alloc);
    match write_picture(alloc, map, options, overlay, &mut picture) {
        Ok(()) => Ok(picture),
        Err(_) => Err(Refusal::Lines(EditorError::OutOfMemory)),
    }
}

// Writes a picture into a new file, which replaces the one at its path once it is whole, and returns that file; or
// notes why it doesn't.
fn put_picture<E: Files, F: Write + OpenFile + Drop>(
    rt: &E,
    picture: &[u8],
    mut new: NewFile<F>,
    why: &mut Option<Cause>,
) -> Result<F, Refusal>
    ensures put { IfOk result (λ file.
        Appends (F.contents (file_of new)) (F.contents file) picture.now) }
    ensures failed { IfErr result (λ r. r ≡ Refusal.Lines WriterFailed) }
{
    let put = match new.write_all(picture) {
        Ok(()) => new.put(rt),
        Err(error) => {
            new.take_away(rt);
            Err(Cause::System(error))
        }
    };
    match put {
        Ok(file) => Ok(file),
        Err(cause) => {
            *why = Some(cause);
            Err(Refusal::Lines(EditorError::WriterFailed))
        }
    }
}

// Draws a map into the file at the path, and returns that file; or notes why it can't be made.
fn draw_into<E: Files>(
    alloc: Global,
    rt: &E,
    path: &str,
    map: &Map,
    options: PictureOptions,
    overlay: &Overlay,
    why: &mut Option<Cause>,
) -> Result<E::File, Refusal>
where
    E::File: Hold,
    ensures put { IfOk result (λ file. IsMadeOf E.File.contents file
        (picture_of options map.now.tables overlay.now)) }
    ensures failed { IfErr result (λ r. (r ≡ Refusal.Lines OutOfMemory)
        ⊎ (r ≡ Refusal.Lines WriterFailed)) }
{
    let picture = match picture_of(alloc, map, options, overlay) {
        Ok(picture) => picture,
        Err(refusal) => return Err(refusal),
    };
    match open_new(alloc, rt, path, Form::Picture) {
        Ok(new) => put_picture(rt, &picture, new, why),
        Err(cause) => {
            *why = Some(cause);
            Err(Refusal::Lines(EditorError::WriterFailed))
        }
    }
}

// Writes the picture of a map, and flushes the writer.
fn show<W: Write>(
    alloc: Global,
    map: &Map,
    options: PictureOptions,
    overlay: &Overlay,
    writer: &mut W,
) -> Result<u8, Refusal>
    ensures shown { IfOk result (λ status. (status ≡ 0)
        × Appends (W.contents writer.old) (W.contents writer.new)
        (picture_of options map.now.tables overlay.now)) }
    ensures failed { IfErr result (λ r. (r ≡ Refusal.Lines WriterFailed)
        ⊎ (r ≡ Refusal.Lines OutOfMemory) × WantsMemory options
        × Keeps (W.contents writer.old) (W.contents writer.new)) }
{
    match write_picture(alloc, map, options, overlay, writer) {
        Ok(()) => {}
        Err(PictureError::OutOfMemory) => return Err(Refusal::Lines(EditorError::OutOfMemory)),
        Err(PictureError::WriterFailed) => return Err(Refusal::Lines(EditorError::WriterFailed)),
    }
    match writer.flush() {
        Ok(()) => Ok(DONE),
        Err(_) => Err(Refusal::Lines(EditorError::WriterFailed)),
    }
}

/// Draws a map, with what is laid over it, onto the output, or into a file.
pub(crate) fn draw_laid<E: Files, W: Write>(
    alloc: Global,
    rt: &E,
    map: &Map,
    overlay: &Overlay,
    wanted: Wanted<'_>,
    writer: &mut W,
    why: &mut Option<Cause>,
) -> Result<u8, Refusal>
where
    E::File: Hold,
    ensures small { IfOk result (λ s. s ≤ 3) }
    ensures drawn { IsDrawn wanted.entry.layers map.now.tables overlay.now
        (is_some wanted.entry.out) result (W.contents writer.old) (W.contents writer.new) }
{
    let options = wanted.layers.options;
    match wanted.out {
        None => show(alloc, map, options, overlay, writer),
        Some(path) => match draw_into(alloc, rt, path, map, options, overlay, why) {
            Ok(_) => Ok(DONE),
            Err(refusal) => Err(refusal),
        },
    }
}

/// Draws the wanted map onto the output or into the wanted file, or notes why the file can't be made. The file is whole
/// or as it was; it may be new, empty or a picture of a map.
pub fn draw<E: Files, W: Write>(
    alloc: Global,
    rt: &E,
    maps: &Maps,
    wanted: Wanted<'_>,
    writer: &mut W,
    why: &mut Option<Cause>,
) -> Result<u8, Refusal>
where
    E::File: Hold,
    ensures small { IfOk result (λ s. s ≤ 3) }
    ensures drawn { IsPicturedOf wanted.entry.layers (option_map (λ s. s.now) wanted.entry.map)
        (is_some wanted.entry.out) maps.now result
        (W.contents writer.old) (W.contents writer.new) }
{
    let Some(map) = drawn_map(maps, wanted.map) else {
        return Err(Refusal::NoSuchMap);
    };
    match laid_over(alloc, map, wanted.layers) {
        Ok(overlay) => draw_laid(alloc, rt, map, &overlay, wanted, writer, why),
        Err(refusal) => Err(refusal),
    }
}
