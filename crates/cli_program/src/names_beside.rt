//! The names that a file has, told where none of them was asked for.
use crate::over_file::open_read;
use cli_files::{Content, Hold, NotedFile, ReadFile, content_in};
use cli_print::{TURNS, read_wad};
use cli_refusals::Causes;
use cli_scripts::{draw_maps, is_file};
use cli_sources::maps_on;
use cli_words::Request;
use lump_records::Name8;
use lump_text::write_shown;
use map_tables::Maps;
use run_canvas::{Canvas, Draft};
use std::alloc::Global;
use std::io::{self, Write};
use std::os::unix::fs::FileExt;
use std::rt::Files;
use store_disk::FileDisk;
use wad_levels::level_names;

// The most names that are told.
const MOST: usize = 32;

// A path, if it is that of a file: standard input has been read.
fn named_file(path: &str) -> Option<&str> {
    if is_file(path) { Some(path) } else { None }
}

// The file whose maps or levels a request names.
fn file_of(request: &Request) -> Option<&str> {
    match request {
        Request::Check { file, .. }
        | Request::Lint { file, .. }
        | Request::Dump { file, .. }
        | Request::Picture { file, .. } => named_file(file.as_str()),
        Request::Inspect { wad, .. } | Request::Rebuild { wad, .. } => Some(wad.as_str()),
        _ => None,
    }
}

// The names of maps.
fn names_of(alloc: Global, maps: &Maps) -> Option<Vec<Name8>> {
    let mut names = Vec::new(alloc);
    for n in 0..maps.len() {
        if let Some(map) = maps.at(n) {
            names.push(map.name()).ok()?;
        }
    }
    Some(names)
}

// The names of the levels of all that a reader gives.
#[inline(never)]
fn names_in_wad<R: io::Read>(alloc: Global, reader: &mut R) -> Option<Vec<Name8>> {
    let mut why = None;
    let wad = read_wad(alloc, reader, TURNS, &mut why).ok()?;
    level_names(alloc, &wad).ok()
}

// The names of the maps that the script at a path draws.
#[inline(never)]
fn names_in_script<E, R>(rt: &E, path: &str, reader: &mut R) -> Option<Vec<Name8>>
where
    E: AllocGlobal + Files,
    R: io::Read,
{
    let mut draft = Draft::new(rt.alloc());
    let mut faults = Vec::new(rt.alloc());
    let mut why = None;
    match draw_maps(rt, path, reader, &mut draft, &mut faults, &mut why) {
        Ok(_) => names_of(rt.alloc(), draft.maps()),
        Err(_) => None,
    }
}

// The names of a project's maps.
#[inline(never)]
fn names_in_project<E>(rt: &E, file: ReadFile<E::File>) -> Option<Vec<Name8>>
where
    E: AllocGlobal + Files,
    E::File: FileExt,
{
    let file = NotedFile::new(file);
    let mut maps = Maps::new(rt.alloc());
    match maps_on(rt.alloc(), FileDisk::new(&file, false), &mut maps) {
        Ok(_) => names_of(rt.alloc(), &maps),
        Err(_) => None,
    }
}

// The names of the maps of the project or the script, or of the levels of the WAD, in the file at a path.
fn names_at<E>(rt: &E, path: &str) -> Option<Vec<Name8>>
where
    E: AllocGlobal + Files,
    E::File: FileExt + Hold,
{
    let mut why = Causes {
        file: None,
        out: None,
        beside: None,
    };
    let mut file = open_read(rt, path, &mut why).ok()?;
    match content_in(&file) {
        Ok(Content::Wad) => names_in_wad(rt.alloc(), &mut file.file),
        Ok(Content::Text | Content::Picture) => names_in_script(rt, path, &mut file.file),
        _ => names_in_project(rt, file),
    }
}

// Writes names as `  has MAP01 MAP02 ..`, the first 32.
fn write_names<F: Write>(names: &[Name8], faults: &mut F) -> io::Result<()> {
    if names.is_empty() {
        return faults.write_all(b"  there is none\n");
    }
    faults.write_all(b"  there is")?;
    for name in names.iter().take(MOST) {
        faults.write_all(b" ")?;
        write_shown(name.text(), faults)?;
    }
    let end: &[u8] = if names.len() > MOST { b" ..\n" } else { b"\n" };
    faults.write_all(end)
}

/// Tells the names that the file of a request has, the first 32, if they can be read.
pub fn tell_names<E, F>(rt: &E, request: &Request, faults: &mut F)
where
    E: AllocGlobal + Files,
    E::File: FileExt + Hold,
    F: Write,
{
    if let Some(path) = file_of(request) {
        if let Some(names) = names_at(rt, path) {
            let _ = write_names(&names, faults);
        }
    }
}
